//! What matches, and the forms that handle exceptions and effects, are made into.

use crate::builder::{Builder, Made};
use effect_meaning::{
    Clause, Constant, EffectClause, HandlerKind, HandlerTypes, Operation, PatternForm, Sequence,
    TermForm,
};
use fx_base::Place;
use ml_syntax::{Clause as SourceClause, EffectRule, NamedPart, Node};
use name_uses::Use;
use std::alloc::AllocError;

/// The parts of a handler: the function that runs under it or the continuation, its argument, and
/// what is done with its value and with its exception.
#[derive(Clone, Copy)]
struct Handled {
    subject: u32,
    argument: u32,
    on_value: u32,
    on_exception: u32,
}

/// Whether there are clauses for exceptions, and for effects.
fn sorts(clauses: &[SourceClause]) -> (bool, bool) {
    let mut exceptions = false;
    let mut effects = false;
    for clause in clauses {
        match clause {
            SourceClause::Value { .. } => {}
            SourceClause::Exception { .. } => exceptions = true,
            SourceClause::Effect { .. } => effects = true,
        }
    }
    (exceptions, effects)
}

impl<'a> Builder<'a> {
    /// Matches, `try`, and handlers.
    pub fn make_matching(&mut self, place: Place, node: &'a Node) -> Result<Made, AllocError> {
        match node {
            Node::Match {
                subject,
                clauses,
                ..
            } => {
                let made = self.match_with(place, *subject, clauses.as_slice())?;
                Ok(Made::Term(made))
            }
            Node::Try { body, clauses, .. } => {
                let made = self.try_with(place, *body, clauses.as_slice())?;
                Ok(Made::Term(made))
            }
            Node::Function { clauses, .. } => {
                let clauses = self.value_clauses(clauses.as_slice())?;
                self.matching_function(place, clauses)
            }
            Node::Handle {
                function,
                first,
                second,
                handler,
            } => {
                let name = function.last.text.as_slice();
                let made = self.handle(place, name, [*first, *second], *handler)?;
                Ok(Made::Term(made))
            }
            _ => Ok(Made::Nothing),
        }
    }

    fn clause(
        &mut self,
        pattern: u32,
        guard: Option<u32>,
        body: u32,
    ) -> Result<Clause, AllocError> {
        Ok(Clause {
            pattern: self.pattern(pattern)?,
            guard: match guard {
                Some(guard) => Some(self.term(guard)?),
                None => None,
            },
            body: self.term(body)?,
        })
    }

    // The clauses of values, in order.
    fn value_clauses(&mut self, clauses: &[SourceClause]) -> Result<Sequence<Clause>, AllocError> {
        let mut made = Vec::new(self.alloc);
        for clause in clauses {
            if let SourceClause::Value {
                pattern,
                guard,
                body,
            } = clause
            {
                made.push(self.clause(*pattern, *guard, *body)?)?;
            }
        }
        Ok(Sequence::from_vec(made))
    }

    // The clauses of exceptions of a `match`, in order.
    fn exception_clauses(
        &mut self,
        clauses: &[SourceClause],
    ) -> Result<Sequence<Clause>, AllocError> {
        let mut made = Vec::new(self.alloc);
        for clause in clauses {
            if let SourceClause::Exception {
                pattern,
                guard,
                body,
                ..
            } = clause
            {
                made.push(self.clause(*pattern, *guard, *body)?)?;
            }
        }
        Ok(Sequence::from_vec(made))
    }

    // A function that matches its argument.
    fn matching_function(
        &mut self,
        place: Place,
        clauses: Sequence<Clause>,
    ) -> Result<Made, AllocError> {
        let parameter = self.new_name()?;
        let subject = self.name(place, parameter)?;
        let body = self.push_term(place, TermForm::Match { subject, clauses })?;
        Ok(Made::Function {
            place,
            parameter,
            body,
        })
    }

    fn made_function(&mut self, made: Made) -> Result<u32, AllocError> {
        match made {
            Made::Function {
                place,
                parameter,
                body,
            } => self.function(place, parameter, body),
            _ => Err(AllocError),
        }
    }

    // raise x
    fn raise(&mut self, place: Place, name: u32) -> Result<u32, AllocError> {
        let exception = self.name(place, name)?;
        let mut parts = Vec::with_capacity(self.alloc, 1)?;
        parts.push(exception)?;
        self.push_term(
            place,
            TermForm::Primitive {
                operation: Operation::Raise,
                parts: Sequence::from_vec(parts),
            },
        )
    }

    // fun v -> v
    fn identity(&mut self, place: Place) -> Result<u32, AllocError> {
        let name = self.new_name()?;
        let body = self.name(place, name)?;
        self.function(place, name, body)
    }

    // fun e -> raise e
    fn raise_again(&mut self, place: Place) -> Result<u32, AllocError> {
        let name = self.new_name()?;
        let body = self.raise(place, name)?;
        self.function(place, name, body)
    }

    // fun e -> match e with clauses | other -> raise other
    fn exception_function(
        &mut self,
        place: Place,
        clauses: Sequence<Clause>,
    ) -> Result<u32, AllocError> {
        let other = self.new_name()?;
        let pattern = self.push_pattern(place, PatternForm::Name(other))?;
        let body = self.raise(place, other)?;
        let mut clauses = clauses.into_vec();
        clauses.push(Clause {
            pattern,
            guard: None,
            body,
        })?;
        let made = self.matching_function(place, Sequence::from_vec(clauses))?;
        self.made_function(made)
    }

    fn match_with(
        &mut self,
        place: Place,
        subject: u32,
        clauses: &[SourceClause],
    ) -> Result<u32, AllocError> {
        let body = self.term(subject)?;
        let values = self.value_clauses(clauses)?;
        let (has_exceptions, has_effects) = sorts(clauses);
        if !has_exceptions && !has_effects {
            return self.push_term(
                place,
                TermForm::Match {
                    subject: body,
                    clauses: values,
                },
            );
        }
        let exceptions = self.exception_clauses(clauses)?;
        if !has_effects {
            return self.push_term(
                place,
                TermForm::Catch {
                    body,
                    values,
                    exceptions,
                },
            );
        }
        let made = self.matching_function(place, values)?;
        let on_value = self.made_function(made)?;
        self.handle_body(place, body, on_value, exceptions, clauses)
    }

    fn try_with(
        &mut self,
        place: Place,
        body: u32,
        clauses: &[SourceClause],
    ) -> Result<u32, AllocError> {
        let body = self.term(body)?;
        let exceptions = self.value_clauses(clauses)?;
        let (_, has_effects) = sorts(clauses);
        if has_effects {
            let on_value = self.identity(place)?;
            return self.handle_body(place, body, on_value, exceptions, clauses);
        }
        let name = self.new_name()?;
        let pattern = self.push_pattern(place, PatternForm::Name(name))?;
        let value = self.name(place, name)?;
        let values = self.one_clause(pattern, value)?;
        self.push_term(
            place,
            TermForm::Catch {
                body,
                values,
                exceptions,
            },
        )
    }

    // A body under a deep handler.
    fn handle_body(
        &mut self,
        place: Place,
        body: u32,
        on_value: u32,
        exceptions: Sequence<Clause>,
        clauses: &[SourceClause],
    ) -> Result<u32, AllocError> {
        let parameter = self.new_name()?;
        let handled = Handled {
            subject: self.function(place, parameter, body)?,
            argument: self.constant(place, Constant::Unit)?,
            on_value,
            on_exception: self.exception_function(place, exceptions)?,
        };
        let mut made = Vec::new(self.alloc);
        for clause in clauses {
            if let SourceClause::Effect {
                place,
                pattern,
                continuation,
                body,
            } = clause
            {
                made.push(self.effect_clause(*place, *pattern, *continuation, *body)?)?;
            }
        }
        let types = HandlerTypes {
            variable: None,
            effect: None,
        };
        self.push_handle(place, HandlerKind::Deep, types, handled, made)
    }

    fn push_handle(
        &mut self,
        place: Place,
        kind: HandlerKind,
        types: HandlerTypes,
        handled: Handled,
        clauses: Vec<EffectClause>,
    ) -> Result<u32, AllocError> {
        self.push_term(
            place,
            TermForm::Handle {
                kind,
                types,
                subject: handled.subject,
                argument: handled.argument,
                on_value: handled.on_value,
                on_exception: handled.on_exception,
                clauses: Sequence::from_vec(clauses),
            },
        )
    }

    // The name of a continuation, and its type where the text gives one.
    fn continuation(&mut self, n: u32) -> Result<(u32, Option<u32>), AllocError> {
        match self.node(n) {
            Some(
                Node::PatternAnnotated {
                    inner,
                    annotation,
                    ..
                },
            ) => Ok((
                self.continuation_name(*inner)?,
                Some(self.written(*annotation)?),
            )),
            _ => Ok((self.continuation_name(n)?, None)),
        }
    }

    fn continuation_name(&mut self, n: u32) -> Result<u32, AllocError> {
        match self.meaning(n) {
            Use::Name(name) => Ok(name),
            _ => self.new_name(),
        }
    }

    // A clause of an effect.
    fn effect_clause(
        &mut self,
        place: Place,
        pattern: u32,
        continuation: u32,
        body: u32,
    ) -> Result<EffectClause, AllocError> {
        let Made::Constructor {
            constructor: effect,
            argument,
            ..
        } = self.made(pattern)
        else {
            return Err(AllocError);
        };
        let (continuation, annotation) = self.continuation(continuation)?;
        Ok(EffectClause {
            place,
            effect,
            argument,
            continuation,
            annotation,
            body: self.term(body)?,
        })
    }

    fn rule(&mut self, rule: EffectRule) -> Result<EffectClause, AllocError> {
        let Some(
            Node::Resumption {
                parameter,
                body,
                ..
            },
        ) = self.node(rule.answer)
        else {
            return Err(AllocError);
        };
        self.effect_clause(self.place(rule.pattern), rule.pattern, *parameter, *body)
    }

    fn rules(&mut self, rules: &[EffectRule]) -> Result<Vec<EffectClause>, AllocError> {
        let mut made = Vec::with_capacity(self.alloc, rules.len())?;
        for rule in rules {
            made.push(self.rule(*rule)?)?;
        }
        Ok(made)
    }

    // The types that an `effc` names, and the number of its cases.
    fn effect_function(&mut self, n: u32) -> Result<(HandlerTypes, u32), AllocError> {
        let Some(
            Node::EffectFunction {
                parameter,
                cases,
                ..
            },
        ) = self.node(n)
        else {
            let types = HandlerTypes {
                variable: None,
                effect: None,
            };
            return Ok((types, n));
        };
        let variable = match self.meaning(n) {
            Use::Variable(number) => Some(number),
            _ => None,
        };
        let effect = match self.node(*parameter) {
            Some(Node::PatternAnnotated { annotation, .. }) => Some(self.written(*annotation)?),
            _ => None,
        };
        Ok((HandlerTypes { variable, effect }, *cases))
    }

    // The part of a handler's field of this name.
    fn handler_field(&self, fields: &[NamedPart], name: &[u8]) -> Option<u32> {
        for field in fields {
            if field.name.text.as_slice() == name {
                return Some(field.part);
            }
        }
        None
    }

    fn handle(
        &mut self,
        place: Place,
        name: &[u8],
        parts: [u32; 2],
        handler: u32,
    ) -> Result<u32, AllocError> {
        let Some(Node::Handler { fields, .. }) = self.node(handler) else {
            return Err(AllocError);
        };
        let fields = fields.as_slice();
        let at = self.place(handler);
        let handled = Handled {
            subject: self.term(parts[0])?,
            argument: self.term(parts[1])?,
            on_value: match self.handler_field(fields, b"retc".as_slice()) {
                Some(part) => self.term(part)?,
                None => self.identity(at)?,
            },
            on_exception: match self.handler_field(fields, b"exnc".as_slice()) {
                Some(part) => self.term(part)?,
                None => self.raise_again(at)?,
            },
        };
        let effects = self
            .handler_field(fields, b"effc".as_slice())
            .ok_or(AllocError)?;
        let (types, cases) = self.effect_function(effects)?;
        let Some(Node::EffectCases { rules, .. }) = self.node(cases) else {
            return Err(AllocError);
        };
        let clauses = self.rules(rules.as_slice())?;
        let kind = if name == b"continue_with".as_slice() {
            HandlerKind::ShallowContinue
        } else if name == b"discontinue_with".as_slice() {
            HandlerKind::ShallowDiscontinue
        } else {
            HandlerKind::Deep
        };
        self.push_handle(place, kind, types, handled, clauses)
    }
}
