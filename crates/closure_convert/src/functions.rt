//! The conversion of functions.

use crate::converter::Converter;
use crate::names::KnownFunction;
use crate::tasks::Task;
use core_shapes::{
    Level, Literal, MOST_PARAMETERS, last_body, literal_of, literal_of_function, need_of,
    number_of, owner_of, unfold,
};
use effect_meaning::{Function, Sequence};
use low_terms::{Atom, Closure, FunctionKind, SlotForm, SlotFunction};
use std::alloc::AllocError;

impl<'a> Converter<'a> {
    /// A function without its body, by its number. It takes at most so many parameters.
    pub fn begin(&mut self, literal: Literal, most: usize) -> Result<u32, AllocError> {
        let levels = unfold(self.alloc, self.core1, literal, most)?;
        let parameters = number_of(levels.len())?;
        let slots = need_of(self.core1, last_body(&levels)?)?.saturating_add(parameters);
        let kind = FunctionKind::Function {
            parameters,
            kept: self.kept(&levels)?,
            body: u32::MAX,
        };
        let mut function = self.slots.bare_function(kind, literal.place);
        function.slots = slots;
        function.closure = owner_of(self.core1, literal.body)?.free.len() > 0;
        self.slots.new_function(function)
    }

    // The parameters that each partial application keeps.
    fn kept(&self, levels: &[Level]) -> Result<Sequence<Sequence<u32>>, AllocError> {
        let mut kept = Vec::new(self.alloc);
        for count in 1..levels.len() {
            kept.push(self.kept_of(levels, count)?)?;
        }
        Ok(Sequence::from_vec(kept))
    }

    // The first parameters, so many of them, that the rest of the function mentions.
    fn kept_of(&self, levels: &[Level], count: usize) -> Result<Sequence<u32>, AllocError> {
        let Some(rest) = levels.get(count) else {
            return Err(AllocError);
        };
        let free = &owner_of(self.core1, rest.body)?.free;
        let mut kept = Vec::new(self.alloc);
        let mut number = 0u32;
        for level in levels.iter().take(count) {
            if free.contains(&level.parameter)
                || level.alias.is_some_and(|name| free.contains(&name))
            {
                kept.push(number)?;
            }
            number = number.saturating_add(1);
        }
        Ok(Sequence::from_vec(kept))
    }

    /// What is known of a function, by its number.
    pub fn known(&self, function: u32) -> Result<KnownFunction, AllocError> {
        match self.slots.program.functions.get(function as usize) {
            Some(
                SlotFunction {
                    kind: FunctionKind::Function { parameters, .. },
                    closure,
                    ..
                },
            ) => Ok(KnownFunction {
                function,
                parameters: *parameters,
                closure: *closure,
            }),
            _ => Err(AllocError),
        }
    }

    /// A name stands for the function whose closure was given last.
    pub fn know_last(&mut self, name: u32) -> Result<(), AllocError> {
        let Some(node) = self.slots.results.last().copied() else {
            return Err(AllocError);
        };
        let function = match self.slots.program.nodes.get(node as usize) {
            Some(found) => match &found.form {
                SlotForm::Closure(closure) => closure.function,
                _ => return Err(AllocError),
            },
            None => return Err(AllocError),
        };
        self.know(name, function)
    }

    /// A name stands for a function.
    pub fn know(&mut self, name: u32, function: u32) -> Result<(), AllocError> {
        let known = self.known(function)?;
        self.names.known.put(name, Some(known))
    }

    // The names that a function captures, in their order; its own name isn't among them.
    fn captured(&self, literal: Literal) -> Result<Vec<u32>, AllocError> {
        let mut names = Vec::new(self.alloc);
        for name in owner_of(self.core1, literal.body)?.free.iter() {
            if literal.own != Some(*name) {
                names.push(*name)?;
            }
        }
        Ok(names)
    }

    // Converts the body of a function that captures these names.
    fn convert_body(
        &mut self,
        function: u32,
        literal: Literal,
        most: usize,
        captured: &[u32],
    ) -> Result<(), AllocError> {
        let levels = unfold(self.alloc, self.core1, literal, most)?;
        self.names.enter()?;
        self.names.capture(captured)?;
        if let Some(own) = literal.own {
            self.names.hide(own, Atom::Own)?;
        }
        self.bind_parameters(&levels, 0)?;
        self.push(Task::Leave { function })?;
        self.push_term(last_body(&levels)?, number_of(levels.len())?)
    }

    /// Parameters have the slots from the first one on.
    pub fn bind_parameters(&mut self, levels: &[Level], first: u32) -> Result<(), AllocError> {
        let mut slot = first;
        for level in levels {
            self.names.bind(level.parameter, Atom::Slot(slot))?;
            if let Some(alias) = level.alias {
                self.names.bind(alias, Atom::Slot(slot))?;
            }
            slot = slot.saturating_add(1);
        }
        Ok(())
    }

    /// Converts the body of a function.
    pub fn finish_function(&mut self, function: u32, literal: Literal) -> Result<(), AllocError> {
        let captured = self.captured(literal)?;
        self.convert_body(function, literal, MOST_PARAMETERS, &captured)
    }

    /// Converts the body of a function of one parameter among a handler's parts. It finds what it
    /// captures in the handler's record.
    pub fn finish_part(&mut self, function: u32, literal: Literal) -> Result<(), AllocError> {
        let names = self.handler_names()?;
        self.convert_body(function, literal, 1, &names)
    }

    /// A function's body was converted.
    pub fn leave_function(&mut self, function: u32) -> Result<(), AllocError> {
        let node = self.slots.take()?;
        self.names.leave()?;
        let Some(found) = self.slots.program.functions.get_mut(function as usize) else {
            return Err(AllocError);
        };
        match &mut found.kind {
            FunctionKind::Function { body, .. }
            | FunctionKind::Clause { body, .. }
            | FunctionKind::Item { body, .. } => {
                *body = node;
                Ok(())
            }
            _ => Err(AllocError),
        }
    }

    // The closure of a function.
    fn closure(&self, function: u32, literal: Literal) -> Result<Closure, AllocError> {
        let captures = self.atoms(&self.captured(literal)?)?;
        Ok(Closure {
            function,
            captures: Sequence::from_vec(captures),
        })
    }

    /// Gives the closure of a function literal.
    pub fn build_closure(
        &mut self,
        function: u32,
        literal: Literal,
        depth: u32,
    ) -> Result<(), AllocError> {
        let closure = self.closure(function, literal)?;
        self.slots.give_new(SlotForm::Closure(closure), depth)
    }

    /// Converts a function literal.
    pub fn function_term(&mut self, term: u32, depth: u32) -> Result<(), AllocError> {
        let Some(literal) = literal_of(self.core1, term)? else {
            return Err(AllocError);
        };
        let function = self.begin(literal, MOST_PARAMETERS)?;
        self.push(Task::Closure {
            function,
            literal,
            depth,
        })?;
        self.finish_function(function, literal)
    }

    /// Begins the functions of a group, which are known before their bodies are looked at.
    pub fn begin_group(&mut self, functions: &[Function]) -> Result<(), AllocError> {
        for function in functions {
            let number = self.begin(literal_of_function(function), MOST_PARAMETERS)?;
            self.know(function.name, number)?;
        }
        Ok(())
    }

    /// Converts the bodies of a group, the first one first.
    pub fn push_group(&mut self, functions: &[Function]) -> Result<(), AllocError> {
        for function in functions.iter().rev() {
            let Some(known) = self.names.known.get(function.name) else {
                return Err(AllocError);
            };
            self.push(Task::Finish {
                function: known.function,
                literal: literal_of_function(function),
            })?;
        }
        Ok(())
    }

    // The names of a group have slots from the first one on.
    fn bind_group(&mut self, functions: &[Function], first: u32) -> Result<(), AllocError> {
        let mut slot = first;
        for function in functions {
            self.names.bind(function.name, Atom::Slot(slot))?;
            slot = slot.saturating_add(1);
        }
        Ok(())
    }

    /// Converts a `let rec` that is no loop.
    pub fn local_group(
        &mut self,
        term: u32,
        functions: &[Function],
        body: u32,
        depth: u32,
    ) -> Result<(), AllocError> {
        self.bind_group(functions, depth)?;
        self.begin_group(functions)?;
        self.push(Task::Build { term, depth })?;
        let count = number_of(functions.len())?;
        self.push_term(body, depth.saturating_add(count))?;
        self.push_group(functions)
    }

    // The closures of a group.
    fn closures(&self, functions: &[Function]) -> Result<Sequence<Closure>, AllocError> {
        let mut closures = Vec::new(self.alloc);
        for function in functions {
            let Some(known) = self.names.known.get(function.name) else {
                return Err(AllocError);
            };
            closures.push(self.closure(known.function, literal_of_function(function))?)?;
        }
        Ok(Sequence::from_vec(closures))
    }

    /// The node of a `let rec` that is no loop.
    pub fn build_group(&mut self, functions: &[Function], depth: u32) -> Result<(), AllocError> {
        let body = self.slots.take()?;
        let closures = self.closures(functions)?;
        self.slots
            .give_new(SlotForm::LetRec { closures, body }, depth)
    }
}
