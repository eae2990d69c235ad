//! What is still to be done, and the walk over it.

use crate::converter::Converter;
use core_shapes::Literal;
use low_terms::Atom;
use std::alloc::AllocError;

/// Something that is still to be done. `depth` slots are in use where a term begins.
#[derive(Clone, Copy)]
pub enum Task {
    /// Converts a term, and gives its node.
    Term {
        term: u32,
        depth: u32,
    },
    /// Converts a condition, and gives its node.
    Condition {
        term: u32,
        depth: u32,
    },
    /// Takes the nodes of a term's parts, and gives the term's.
    Build {
        term: u32,
        depth: u32,
    },
    /// Takes the nodes of a condition's parts, and gives the condition's.
    BuildCondition {
        term: u32,
        depth: u32,
    },
    /// Goes on behind the value of a `let`.
    Value {
        term: u32,
        depth: u32,
    },
    /// Takes a value and a body.
    Let {
        depth: u32,
    },
    /// Goes on behind the subject of a match.
    Subject {
        term: u32,
        depth: u32,
    },
    /// Takes the clauses of a match on this slot.
    Look {
        term: u32,
        slot: u32,
        depth: u32,
    },
    /// Converts a clause on a value, and gives its test, its guard's node if there is one, and its
    /// body's.
    Clause {
        pattern: u32,
        guard: Option<u32>,
        body: u32,
        depth: u32,
        value: Atom,
    },
    /// Takes a function and its argument.
    Call {
        depth: u32,
    },
    /// Takes all arguments of a known function.
    Known {
        name: u32,
        count: u32,
        depth: u32,
    },
    /// Takes the arguments of a loop.
    Again {
        target: u32,
        count: u32,
        depth: u32,
    },
    /// Goes on behind the first arguments of a loop.
    Loop {
        term: u32,
        depth: u32,
    },
    /// Takes so many terms, of which the last one's value is looked at.
    Sequence {
        count: u32,
        depth: u32,
    },
    /// Converts the body of a function.
    Finish {
        function: u32,
        literal: Literal,
    },
    /// Converts the body of a function among a handler's parts.
    FinishPart {
        function: u32,
        literal: Literal,
    },
    /// Takes the body of a function, an effect clause or an item.
    Leave {
        function: u32,
    },
    /// Gives the closure of a function literal.
    Closure {
        function: u32,
        literal: Literal,
        depth: u32,
    },
    /// Converts a function literal among a handler's parts, which gives no node.
    Part {
        literal: Literal,
        index: u32,
    },
    /// Converts the effect clause of this number of a handler, which gives no node.
    EffectClause {
        term: u32,
        number: u32,
    },
}

impl<'a> Converter<'a> {
    /// Puts a task before all others.
    pub fn push(&mut self, task: Task) -> Result<(), AllocError> {
        self.tasks.push(task)?;
        Ok(())
    }

    /// Converts a term next.
    pub fn push_term(&mut self, term: u32, depth: u32) -> Result<(), AllocError> {
        self.push(Task::Term { term, depth })
    }

    /// Does all that is still to be done.
    pub fn finish(&mut self) -> Result<(), AllocError> {
        for _step in 0..u64::MAX {
            let Some(task) = self.tasks.pop() else {
                return Ok(());
            };
            self.act(task)?;
        }
        Err(AllocError)
    }

    fn act(&mut self, task: Task) -> Result<(), AllocError> {
        match task {
            Task::Term { term, depth } => self.term(term, depth),
            Task::Condition { term, depth } => self.condition(term, depth),
            Task::Build { term, depth } => self.build(term, depth),
            Task::BuildCondition { term, depth } => self.build_condition(term, depth),
            Task::Value { term, depth } => self.behind_value(term, depth),
            Task::Let { depth } => self.slots.build_let(depth),
            Task::Subject { term, depth } => self.behind_subject(term, depth),
            Task::Look { term, slot, depth } => self.slots.build_look(term, slot, depth),
            Task::Clause {
                pattern,
                guard,
                body,
                depth,
                value,
            } => self.clause(pattern, guard, body, depth, value),
            Task::Call { depth } => self.build_call(depth),
            Task::Known { name, count, depth } => self.build_known(name, count, depth),
            Task::Again {
                target,
                count,
                depth,
            } => self.build_again(target, count, depth),
            other => self.act_on_functions(other),
        }
    }

    fn act_on_functions(&mut self, task: Task) -> Result<(), AllocError> {
        match task {
            Task::Loop { term, depth } => self.begin_loop(term, depth),
            Task::Sequence { count, depth } => self.slots.build_sequence(count, depth),
            Task::Finish { function, literal } => self.finish_function(function, literal),
            Task::FinishPart { function, literal } => self.finish_part(function, literal),
            Task::Leave { function } => self.leave_function(function),
            Task::Closure {
                function,
                literal,
                depth,
            } => self.build_closure(function, literal, depth),
            Task::Part { literal, index } => self.handler_part(literal, index),
            Task::EffectClause { term, number } => self.effect_clause(term, number),
            _ => Ok(()),
        }
    }
}
