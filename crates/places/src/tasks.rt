//! The walk over a function's terms.

use crate::placer::{Placer, Wanted};
use low_terms::{SlotForm, SlotNode, SlotSet};
use std::alloc::AllocError;

/// What is to be done next.
#[derive(Drop, Clone, Copy)]
pub enum Task {
    /// Code for a term. `live` is used later.
    Value {
        node: u32,
        live: SlotSet,
        wanted: Wanted,
    },
    /// The value of a `let` is there; its body goes on.
    LetBody {
        node: u32,
        live: SlotSet,
        wanted: Wanted,
    },
    /// The term of this number in a sequence.
    SequenceFrom {
        node: u32,
        number: usize,
        live: SlotSet,
        wanted: Wanted,
    },
    /// The value of a part is there.
    PartIsThere,
    /// The parts of a form are there.
    Form {
        node: u32,
        live: SlotSet,
        wanted: Wanted,
    },
    /// The condition of a form of two ways is made.
    FirstWay {
        node: u32,
        live: SlotSet,
    },
    SecondWay {
        node: u32,
        live: SlotSet,
    },
    JoinWays {
        node: u32,
        wanted: Wanted,
    },
    /// A condition, in front of which what lives is stored.
    Condition {
        node: u32,
        live: SlotSet,
    },
    /// A condition, behind what was stored in front of it.
    ConditionFrom {
        node: u32,
        live: SlotSet,
    },
    EndCondition {
        fits: bool,
    },
    Compared {
        node: u32,
    },
    Tested,
    Negated,
    SecondCondition {
        node: u32,
        live: SlotSet,
    },
    BothMade {
        node: u32,
    },
    /// The value of a match is there.
    Matched {
        node: u32,
        live: SlotSet,
        wanted: Wanted,
    },
    /// The next clause of the innermost list.
    Clause,
    GuardMade,
    ClauseBody,
    EndClause,
    EndMatch {
        node: u32,
        wanted: Wanted,
    },
    /// The body of a catch is made; its value is there.
    CatchValue {
        node: u32,
        live: SlotSet,
    },
    CatchException {
        node: u32,
        live: SlotSet,
    },
    EndCatch {
        node: u32,
        wanted: Wanted,
    },
    /// The first values of a loop's parameters are there.
    LoopBody {
        node: u32,
        live: SlotSet,
        wanted: Wanted,
    },
    EndLoop {
        node: u32,
        wanted: Wanted,
    },
}

impl<'a> Placer<'a> {
    /// Does all that is still to be done.
    pub fn finish(&mut self) -> Result<(), AllocError> {
        for _step in 0..u64::MAX {
            let Some(task) = self.tasks.pop() else {
                return Ok(());
            };
            self.act(task)?;
        }
        Err(AllocError)
    }

    // Tasks of terms and their parts.
    fn act(&mut self, task: Task) -> Result<(), AllocError> {
        match task {
            Task::Value { node, live, wanted } => self.value(node, &live, wanted),
            Task::LetBody { node, live, wanted } => self.let_body(node, &live, wanted),
            Task::SequenceFrom {
                node,
                number,
                live,
                wanted,
            } => self.sequence_from(node, number, &live, wanted),
            Task::PartIsThere => self.part_is_there(),
            Task::Form { node, live, wanted } => self.form(node, &live, wanted),
            Task::LoopBody { node, live, wanted } => self.loop_body(node, &live, wanted),
            Task::EndLoop { node, wanted } => self.end_loop(node, wanted),
            other => self.act_on_ways(other),
        }
    }

    // Tasks of conditions and forms of two ways.
    fn act_on_ways(&mut self, task: Task) -> Result<(), AllocError> {
        match task {
            Task::FirstWay { node, live } => self.first_way(node, &live),
            Task::SecondWay { node, live } => self.second_way(node, &live),
            Task::JoinWays { node, wanted } => self.join_ways(node, wanted),
            Task::Condition { node, live } => self.condition(node, &live),
            Task::ConditionFrom { node, live } => self.condition_from(node, &live),
            Task::EndCondition { fits } => self.end_condition(fits),
            Task::Compared { node } => self.compared(node),
            Task::Tested => self.tested(),
            Task::Negated => self.negated(),
            Task::SecondCondition { node, live } => self.second_condition(node, &live),
            Task::BothMade { node } => self.both_made(node),
            other => self.act_on_clauses(other),
        }
    }

    // Tasks of clauses.
    fn act_on_clauses(&mut self, task: Task) -> Result<(), AllocError> {
        match task {
            Task::Matched { node, live, wanted } => self.matched(node, &live, wanted),
            Task::Clause => self.clause(),
            Task::GuardMade => self.guard_made(),
            Task::ClauseBody => self.clause_body(),
            Task::EndClause => self.end_clause(),
            Task::EndMatch { node, wanted } => self.end_match(node, wanted),
            Task::CatchValue { node, live } => self.catch_value(node, &live),
            Task::CatchException { node, live } => self.catch_exception(node, &live),
            Task::EndCatch { node, wanted } => self.end_catch(node, wanted),
            _ => Ok(()),
        }
    }

    /// Code for a term, from the state behind what was done last.
    pub fn value(&mut self, node: u32, live: &SlotSet, wanted: Wanted) -> Result<(), AllocError> {
        let term = self.node(node)?;
        self.state = self.state.only(&live.with(&term.facts.uses));
        match &term.form {
            SlotForm::Atom(atom) => self.atom(*atom, live, wanted),
            SlotForm::Let { value, body } => {
                let uses = self.uses(*body)?.below(term.depth);
                let without = live.with(&uses);
                let mut later = without;
                later.remove(term.depth);
                self.tasks.push(Task::LetBody {
                    node,
                    live: *live,
                    wanted,
                })?;
                self.value_later(*value, &later, Wanted::Any)
            }
            SlotForm::Sequence(terms) => self.sequence(node, terms.as_slice(), live, wanted),
            SlotForm::If { .. } | SlotForm::When { .. } => self.two_ways(node, live, wanted),
            SlotForm::Match { .. } | SlotForm::Look { .. } => self.match_value(node, live, wanted),
            SlotForm::Catch { .. } => self.catch(node, live, wanted),
            _ => self.value_of_parts(node, term, live, wanted),
        }
    }

    /// Code for a term, next.
    pub fn value_later(
        &mut self,
        node: u32,
        live: &SlotSet,
        wanted: Wanted,
    ) -> Result<(), AllocError> {
        self.tasks.push(Task::Value {
            node,
            live: *live,
            wanted,
        })?;
        Ok(())
    }

    // Code for a term that has parts or none.
    fn value_of_parts(
        &mut self,
        node: u32,
        term: &'a SlotNode,
        live: &SlotSet,
        wanted: Wanted,
    ) -> Result<(), AllocError> {
        match &term.form {
            SlotForm::Closure(closure) => self.closure(closure, live, wanted),
            SlotForm::LetRec { closures, body } => {
                self.let_rec(node, closures.as_slice(), *body, live, wanted)
            }
            SlotForm::Loop { .. } => self.begin_loop(node, live, wanted),
            SlotForm::Again { .. } => self.begin_again(node, live, wanted),
            _ => self.begin_form(node, term, live, wanted),
        }
    }
}
