//! What functions, `let`, loops and choices are made into.

use crate::builder::{Builder, Made};
use effect_meaning::{
    Clause, Comparison, Constant, Function, Operation, PatternForm, Sequence, TermForm,
};
use fx_base::Place;
use ml_syntax::{Binding, Node};
use name_uses::Use;
use std::alloc::AllocError;

/// A function: its parameter and its body.
#[derive(Clone, Copy)]
pub struct Lambda {
    pub parameter: u32,
    pub body: u32,
}

impl<'a> Builder<'a> {
    /// Choices, loops, `let` and functions.
    pub fn make_control(
        &mut self,
        n: u32,
        place: Place,
        node: &'a Node,
    ) -> Result<Made, AllocError> {
        let made = match node {
            Node::If {
                condition,
                consequence,
                alternative,
                ..
            } => {
                let condition = self.term(*condition)?;
                let consequence = self.term(*consequence)?;
                let alternative = match alternative {
                    Some(alternative) => self.term(*alternative)?,
                    None => self.constant(place, Constant::Unit)?,
                };
                self.choose(place, condition, consequence, alternative)?
            }
            Node::While {
                condition,
                body,
                ..
            } => self.while_loop(place, *condition, *body)?,
            Node::For {
                first,
                is_downward,
                last,
                body,
                ..
            } => self.for_loop(n, place, [*first, *last, *body], *is_downward)?,
            Node::Let {
                is_recursive,
                bindings,
                body,
                ..
            } => self.let_in(n, place, *is_recursive, bindings.as_slice(), *body)?,
            Node::Fun {
                parameters,
                body,
                ..
            } => {
                let body = self.term(*body)?;
                return self.lambda_made(place, parameters.as_slice(), body);
            }
            other => return self.make_matching(place, other),
        };
        Ok(Made::Term(made))
    }

    /// A clause without guard.
    pub fn one_clause(&self, pattern: u32, body: u32) -> Result<Sequence<Clause>, AllocError> {
        let mut clauses = Vec::with_capacity(self.alloc, 1)?;
        clauses.push(Clause {
            pattern,
            guard: None,
            body,
        })?;
        Ok(Sequence::from_vec(clauses))
    }

    // A function of one parameter, which is matched unless it is a name.
    fn lambda(&mut self, place: Place, pattern: u32, body: u32) -> Result<Lambda, AllocError> {
        if let Some(parameter) = self.name_of(pattern) {
            return Ok(Lambda { parameter, body });
        }
        let parameter = self.new_name()?;
        let subject = self.name(place, parameter)?;
        let clauses = self.one_clause(pattern, body)?;
        let body = self.push_term(place, TermForm::Match { subject, clauses })?;
        Ok(Lambda { parameter, body })
    }

    // A body behind parameters, of which there is at least one.
    fn lambdas(
        &mut self,
        place: Place,
        first: u32,
        others: &[u32],
        body: u32,
    ) -> Result<Lambda, AllocError> {
        let mut body = body;
        for parameter in others.iter().rev() {
            let pattern = self.pattern(*parameter)?;
            let inner = self.lambda(place, pattern, body)?;
            body = self.function(place, inner.parameter, inner.body)?;
        }
        let pattern = self.pattern(first)?;
        self.lambda(place, pattern, body)
    }

    fn lambda_made(
        &mut self,
        place: Place,
        parameters: &[u32],
        body: u32,
    ) -> Result<Made, AllocError> {
        match parameters.split_first() {
            Some((first, others)) => {
                let Lambda { parameter, body } = self.lambdas(place, *first, others, body)?;
                Ok(Made::Function {
                    place,
                    parameter,
                    body,
                })
            }
            None => Ok(Made::Term(body)),
        }
    }

    // A body with its type, if the text gives one.
    fn annotated(&mut self, body: u32, annotation: Option<u32>) -> Result<u32, AllocError> {
        let term = self.term(body)?;
        match annotation {
            Some(annotation) => {
                let form = TermForm::Annotated {
                    term,
                    annotation: self.written(annotation)?,
                };
                self.push_term(self.place(body), form)
            }
            None => Ok(term),
        }
    }

    /// What a binding binds its names to.
    pub fn bound_term(&mut self, place: Place, binding: &Binding) -> Result<u32, AllocError> {
        match binding {
            Binding::Pattern { body, .. } => self.term(*body),
            Binding::Named {
                parameters,
                annotation,
                body,
                ..
            } => {
                let body = self.annotated(*body, *annotation)?;
                match self.lambda_made(place, parameters.as_slice(), body)? {
                    Made::Function {
                        place,
                        parameter,
                        body,
                    } => self.function(place, parameter, body),
                    _ => Ok(body),
                }
            }
        }
    }

    /// The pattern that a binding binds.
    pub fn bound_pattern(&mut self, binding: &Binding, name: u32) -> Result<u32, AllocError> {
        match binding {
            Binding::Pattern { pattern, .. } => self.pattern(*pattern),
            Binding::Named { name: text, .. } => {
                self.push_pattern(text.place, PatternForm::Name(name))
            }
        }
    }

    // The function of a binding in a `let rec`.
    fn rec_function(
        &mut self,
        place: Place,
        binding: &Binding,
        name: u32,
    ) -> Result<Function, AllocError> {
        let Binding::Named {
            parameters,
            annotation,
            body,
            ..
        } = binding
        else {
            return Err(AllocError);
        };
        let (annotation, made) = if parameters.len() == 0 {
            (self.any_written(*annotation)?, self.made(*body))
        } else {
            let body = self.annotated(*body, *annotation)?;
            (None, self.lambda_made(place, parameters.as_slice(), body)?)
        };
        match made {
            Made::Function {
                place,
                parameter,
                body,
            } => Ok(Function {
                place,
                name,
                annotation,
                parameter,
                body,
            }),
            _ => Err(AllocError),
        }
    }

    /// The functions of a `let rec`, whose names are the numbers from `first` on.
    pub fn rec_functions(
        &mut self,
        place: Place,
        bindings: &[Binding],
        first: usize,
    ) -> Result<Sequence<Function>, AllocError> {
        let mut functions = Vec::with_capacity(self.alloc, bindings.len())?;
        for (i, binding) in bindings.iter().enumerate() {
            let name = self.uses.number_behind(first, i);
            functions.push(self.rec_function(place, binding, name)?)?;
        }
        Ok(Sequence::from_vec(functions))
    }

    // One binding of a `let`, round its body.
    fn let_one(
        &mut self,
        place: Place,
        binding: &Binding,
        name: u32,
        body: u32,
    ) -> Result<u32, AllocError> {
        let value = self.bound_term(place, binding)?;
        let pattern = self.bound_pattern(binding, name)?;
        if let Some(name) = self.name_of(pattern) {
            return self.push_term(place, TermForm::Let { name, value, body });
        }
        let clauses = self.one_clause(pattern, body)?;
        self.push_term(
            place,
            TermForm::Match {
                subject: value,
                clauses,
            },
        )
    }

    fn let_in(
        &mut self,
        n: u32,
        place: Place,
        is_recursive: bool,
        bindings: &[Binding],
        body: u32,
    ) -> Result<u32, AllocError> {
        let Use::Numbers(first) = self.meaning(n) else {
            return Err(AllocError);
        };
        let mut body = self.term(body)?;
        if is_recursive {
            let functions = self.rec_functions(place, bindings, first)?;
            return self.push_term(place, TermForm::LetRec { functions, body });
        }
        for (i, binding) in bindings.iter().enumerate().rev() {
            let name = self.uses.number_behind(first, i);
            body = self.let_one(place, binding, name, body)?;
        }
        Ok(body)
    }

    // A `let rec` of one function that is applied once.
    fn start_loop(&mut self, function: Function, argument: u32) -> Result<u32, AllocError> {
        let place = function.place;
        let name = self.name(place, function.name)?;
        let body = self.apply(place, name, argument)?;
        let mut functions = Vec::with_capacity(self.alloc, 1)?;
        functions.push(function)?;
        let functions = Sequence::from_vec(functions);
        self.push_term(place, TermForm::LetRec { functions, body })
    }

    // let rec w () = if c then (e; w ()) else () in w ()
    fn while_loop(&mut self, place: Place, condition: u32, body: u32) -> Result<u32, AllocError> {
        let name = self.new_name()?;
        let condition = self.term(condition)?;
        let first = self.term(body)?;
        let again = self.name(place, name)?;
        let unit = self.constant(place, Constant::Unit)?;
        let second = self.apply(place, again, unit)?;
        let turn = self.push_term(place, TermForm::Sequence { first, second })?;
        let end = self.constant(place, Constant::Unit)?;
        let body = self.choose(place, condition, turn, end)?;
        let pattern = self.push_pattern(place, PatternForm::Constant(Constant::Unit))?;
        let Lambda { parameter, body } = self.lambda(place, pattern, body)?;
        let argument = self.constant(place, Constant::Unit)?;
        let function = Function {
            place,
            name,
            annotation: None,
            parameter,
            body,
        };
        self.start_loop(function, argument)
    }

    // A comparison of two names.
    fn compare(
        &mut self,
        place: Place,
        comparison: Comparison,
        first: u32,
        second: u32,
    ) -> Result<u32, AllocError> {
        let (first, second) = (self.name(place, first)?, self.name(place, second)?);
        self.operate(place, Operation::Compare(comparison), first, second)
    }

    // e; if i = hi then () else w (i + 1)
    fn for_turn(
        &mut self,
        place: Place,
        body: u32,
        names: [u32; 3],
        is_downward: bool,
    ) -> Result<u32, AllocError> {
        let [counter, high, again] = names;
        let first = self.term(body)?;
        let condition = self.compare(place, Comparison::Equal, counter, high)?;
        let end = self.constant(place, Constant::Unit)?;
        let again = self.name(place, again)?;
        let counter = self.name(place, counter)?;
        let one = self.constant(place, Constant::Integer(1))?;
        let step = if is_downward {
            Operation::Subtract
        } else {
            Operation::Add
        };
        let next = self.operate(place, step, counter, one)?;
        let next = self.apply(place, again, next)?;
        let second = self.choose(place, condition, end, next)?;
        self.push_term(place, TermForm::Sequence { first, second })
    }

    // let lo = a in let hi = b in if lo > hi then () else let rec w i = .. in w lo
    fn for_loop(
        &mut self,
        n: u32,
        place: Place,
        parts: [u32; 3],
        is_downward: bool,
    ) -> Result<u32, AllocError> {
        let [first, last, body] = parts;
        let parameter = self.bound_name(n)?;
        let (low, high, name) = (self.new_name()?, self.new_name()?, self.new_name()?);
        let body = self.for_turn(place, body, [parameter, high, name], is_downward)?;
        let start = self.name(place, low)?;
        let function = Function {
            place,
            name,
            annotation: None,
            parameter,
            body,
        };
        let turns = self.start_loop(function, start)?;
        let past = if is_downward {
            Comparison::Below
        } else {
            Comparison::Above
        };
        let condition = self.compare(place, past, low, high)?;
        let end = self.constant(place, Constant::Unit)?;
        let body = self.choose(place, condition, end, turns)?;
        let value = self.term(last)?;
        let body = self.push_term(
            place,
            TermForm::Let {
                name: high,
                value,
                body,
            },
        )?;
        let value = self.term(first)?;
        self.push_term(
            place,
            TermForm::Let {
                name: low,
                value,
                body,
            },
        )
    }
}
