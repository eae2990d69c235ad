//! The conversion of items.

use crate::converter::Converter;
use crate::tasks::Task;
use core_shapes::{Literal, MOST_PARAMETERS, literal_of, name_of, need_of, test_of};
use effect_meaning::{Function, ItemForm, Sequence};
use fx_base::Place;
use low_terms::{Definition, Destination, FunctionKind, Next, SlotFunction, SlotProgram, SlotTest};
use std::alloc::AllocError;

/// What an item does with its value.
#[derive(Clone, Copy)]
enum Binds {
    Nothing,
    Name(u32),
    Pattern(u32),
}

/// A function, by its place in the order of the code.
#[derive(Clone, Copy)]
struct Placed {
    behind_prelude: bool,
    place: Place,
    function: u32,
}

fn code_key(placed: &Placed) -> (bool, u32, u32) {
    (
        placed.behind_prelude,
        placed.place.line,
        placed.place.column,
    )
}

impl<'a> Converter<'a> {
    /// Converts all items, of which the first ones, so many of them, are the prelude's.
    pub fn items(&mut self, prelude_items: usize) -> Result<(), AllocError> {
        let arena = self.core1.arena;
        for (number, item) in arena.items().iter().enumerate() {
            self.slots.in_prelude = number < prelude_items;
            self.item(item.place, &item.form)?;
        }
        Ok(())
    }

    fn item(&mut self, place: Place, form: &ItemForm) -> Result<(), AllocError> {
        match form {
            ItemForm::Types(_) | ItemForm::Effects { .. } => Ok(()),
            ItemForm::Exception(row) => self.slots.exception(*row),
            ItemForm::Define { name, value } => {
                self.value_item(place, Binds::Name(*name), *value)
            }
            ItemForm::Destructure { pattern, value } => match name_of(self.core1, *pattern)? {
                Some(name) => self.value_item(place, Binds::Name(name), *value),
                None => self.value_item(place, Binds::Pattern(*pattern), *value),
            },
            ItemForm::Evaluate(value) => self.value_item(place, Binds::Nothing, *value),
            ItemForm::DefineRec(functions) => self.group_item(place, functions.as_slice()),
        }
    }

    // An item of one value. A name of a function literal is known, and nothing is evaluated.
    fn value_item(&mut self, place: Place, binds: Binds, value: u32) -> Result<(), AllocError> {
        if let Binds::Name(name) = binds
            && let Some(literal) = literal_of(self.core1, value)?
        {
            return self.function_item(place, name, literal);
        }
        let slots = need_of(self.core1, value)?;
        let kind = FunctionKind::Item {
            test: None,
            next: Next::End,
            body: u32::MAX,
        };
        let mut item = self.slots.bare_function(kind, place);
        item.slots = slots;
        let function = self.slots.new_function(item)?;
        self.names.enter()?;
        self.push(Task::Leave { function })?;
        self.push_term(value, 0)?;
        self.finish()?;
        self.items.push(function)?;
        let test = self.item_test(binds)?;
        self.set_test(function, test)
    }

    fn item_test(&mut self, binds: Binds) -> Result<Option<u32>, AllocError> {
        match binds {
            Binds::Nothing => Ok(None),
            Binds::Name(name) => {
                let global = self.slots.global(name)?;
                Ok(Some(
                    self.slots
                        .new_test(SlotTest::Bind(Destination::Global(global)))?,
                ))
            }
            Binds::Pattern(pattern) => {
                let test = test_of(self.core1, pattern)?;
                self.slots.note_test(test, 0)?;
                Ok(Some(self.slots.place_test(test)?))
            }
        }
    }

    fn set_test(&mut self, function: u32, new: Option<u32>) -> Result<(), AllocError> {
        let Some(found) = self.slots.program.functions.get_mut(function as usize) else {
            return Err(AllocError);
        };
        match &mut found.kind {
            FunctionKind::Item { test, .. } => {
                *test = new;
                Ok(())
            }
            _ => Err(AllocError),
        }
    }

    fn function_item(
        &mut self,
        place: Place,
        name: u32,
        literal: Literal,
    ) -> Result<(), AllocError> {
        let function = self.begin(literal, MOST_PARAMETERS)?;
        self.finish_function(function, literal)?;
        self.finish()?;
        self.know(name, function)?;
        let mut definitions = Vec::new(self.alloc);
        definitions.push(self.definition(name)?)?;
        self.definitions(place, definitions)
    }

    fn group_item(&mut self, place: Place, functions: &[Function]) -> Result<(), AllocError> {
        self.begin_group(functions)?;
        self.push_group(functions)?;
        self.finish()?;
        let mut definitions = Vec::new(self.alloc);
        for function in functions {
            definitions.push(self.definition(function.name)?)?;
        }
        self.definitions(place, definitions)
    }

    fn definition(&mut self, name: u32) -> Result<Definition, AllocError> {
        let Some(known) = self.names.known.get(name) else {
            return Err(AllocError);
        };
        Ok(Definition {
            function: known.function,
            global: self.slots.global(name)?,
        })
    }

    // An item that defines functions and nothing else.
    fn definitions(
        &mut self,
        place: Place,
        definitions: Vec<Definition>,
    ) -> Result<(), AllocError> {
        let kind = FunctionKind::Definitions {
            functions: Sequence::from_vec(definitions),
            next: Next::End,
        };
        let item = self.slots.bare_function(kind, place);
        let function = self.slots.new_function(item)?;
        self.items.push(function)?;
        Ok(())
    }

    /// Behind the code of a clause's test or an item comes that of another function.
    pub fn set_next(&mut self, function: u32, following: u32) -> Result<(), AllocError> {
        let Some(found) = self.slots.program.functions.get_mut(function as usize) else {
            return Err(AllocError);
        };
        match &mut found.kind {
            FunctionKind::Clause { next, .. }
            | FunctionKind::Item { next, .. }
            | FunctionKind::Definitions { next, .. } => {
                *next = Next::Function(following);
                Ok(())
            }
            _ => Err(AllocError),
        }
    }

    // Each item comes behind the one before it.
    fn link_items(&mut self) -> Result<(), AllocError> {
        let items = Vec::from_slice(self.alloc, &self.items)?;
        for (function, following) in items.iter().zip(items.iter().skip(1)) {
            self.set_next(*function, *following)?;
        }
        Ok(())
    }

    fn placed(&self) -> Result<Vec<Placed>, AllocError> {
        let mut all = Vec::new(self.alloc);
        let mut number = 0u32;
        for SlotFunction {
            place,
            in_prelude,
            ..
        } in &self.slots.program.functions {
            all.push(Placed {
                behind_prelude: !*in_prelude,
                place: *place,
                function: number,
            })?;
            number = number.saturating_add(1);
        }
        Ok(all)
    }

    // The functions by their places, the prelude's first.
    fn code_order(&self) -> Result<Vec<u32>, AllocError> {
        let mut placed = self.placed()?;
        placed.sort_by_key(code_key)?;
        let mut order = Vec::new(self.alloc);
        for function in &placed {
            order.push(function.function)?;
        }
        Ok(order)
    }

    /// The program, behind the last item.
    pub fn end(mut self) -> Result<SlotProgram, AllocError> {
        self.link_items()?;
        let order = self.code_order()?;
        let first_item = self.items.first().copied();
        let Converter {
            alloc: _,
            core1: _,
            flat: _,
            names: _,
            tasks: _,
            handlings: _,
            loops: _,
            loop_marks: _,
            beyond: _,
            items: _,
            slots,
        } = self;
        Ok(slots.end(order, first_item))
    }
}
