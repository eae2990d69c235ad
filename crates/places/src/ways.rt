//! Forms of several ways, and conditions.

use crate::parts::Purpose;
use crate::placer::{Placer, Wanted};
use crate::state::State;
use crate::tasks::Task;
use low_terms::{Body, Condition, Flat, If, Low, Match, Out, SlotForm, SlotSet};
use std::alloc::AllocError;

/// What holds in front of a form of several ways.
#[derive(Clone, Copy)]
pub struct Ways {
    /// The state that each way begins with, but for what a condition changed.
    pub state: State,
    /// Where each way's value goes.
    pub wanted: Wanted,
    /// Whether the form's code changes no frame.
    pub fits: bool,
}

/// What becomes of the end of a form.
pub fn out_of(wanted: Wanted) -> Out {
    match wanted {
        Wanted::Tail => Out::Leaves,
        _ => Out::Falls,
    }
}

impl<'a> Placer<'a> {
    /// Begins a form of several ways.
    pub fn begin_ways(
        &mut self,
        node: u32,
        live: &SlotSet,
        wanted: Wanted,
    ) -> Result<(), AllocError> {
        if let Wanted::Tail = wanted {
            self.ways.push(Ways {
                state: self.state,
                wanted,
                fits: false,
            })?;
            return Ok(());
        }
        if self.fits(node, live)? {
            self.fixed = self.fixed.saturating_add(1);
            let wanted = match wanted {
                Wanted::No => Wanted::No,
                _ => Wanted::Register(self.place(live, wanted)?),
            };
            self.ways.push(Ways {
                state: self.state,
                wanted,
                fits: true,
            })?;
            return Ok(());
        }
        self.save(live, node)?;
        self.begin_ways_in_frame(wanted)
    }

    /// The same where all that lives on was stored.
    pub fn begin_ways_in_frame(&mut self, wanted: Wanted) -> Result<(), AllocError> {
        let wanted = match wanted {
            Wanted::Tail | Wanted::No => wanted,
            Wanted::Any | Wanted::Register(_) => Wanted::Register(rt_layout::registers::A0),
        };
        self.ways.push(Ways {
            state: self.state,
            wanted,
            fits: false,
        })?;
        Ok(())
    }

    /// The ways of the innermost form.
    pub fn innermost_ways(&self) -> Result<Ways, AllocError> {
        self.ways.last().copied().ok_or(AllocError)
    }

    /// Behind the last way: the ways of the form, which may go on elsewhere.
    pub fn end_ways(&mut self) -> Result<Ways, AllocError> {
        let ways = self.ways.pop().ok_or(AllocError)?;
        if ways.fits {
            self.fixed = self.fixed.saturating_sub(1);
        }
        Ok(ways)
    }

    /// Where all ways come together: the state and the register behind the form.
    pub fn join(&mut self, ways: &Ways, wanted: Wanted) -> Result<(), AllocError> {
        if let Wanted::Tail = wanted {
            self.register = None;
            self.state = ways.state;
            return Ok(());
        }
        if ways.fits {
            self.register = match ways.wanted {
                Wanted::Register(register) => Some(register),
                _ => None,
            };
            self.state = ways.state;
            return Ok(());
        }
        self.moved(wanted)?;
        self.state = State::IN_FRAME;
        Ok(())
    }

    // A step of two ways, which calls nothing where it fits.
    fn put_if(&mut self, step: If, fits: bool) -> Result<(), AllocError> {
        if fits {
            self.put(Flat::If(step))
        } else if self.is_body() {
            self.put_body(Body::If(step))
        } else {
            self.put_low(Low::If(step))
        }
    }

    /// A step with clauses, which calls nothing where it fits.
    pub fn put_match(&mut self, step: Match, fits: bool) -> Result<(), AllocError> {
        if fits {
            self.put(Flat::Match(step))
        } else if self.is_body() {
            self.put_body(Body::Match(step))
        } else {
            self.put_low(Low::Match(step))
        }
    }

    // The two ways of a form.
    fn ways_of(&self, node: u32) -> Result<(u32, u32, u32), AllocError> {
        match self.node(node)?.form {
            SlotForm::If {
                condition,
                consequence,
                alternative,
            }
            | SlotForm::When {
                condition,
                consequence,
                alternative,
            } => Ok((condition, consequence, alternative)),
            _ => Err(AllocError),
        }
    }

    /// A form of two ways.
    pub fn two_ways(
        &mut self,
        node: u32,
        live: &SlotSet,
        wanted: Wanted,
    ) -> Result<(), AllocError> {
        let (condition, consequence, alternative) = self.ways_of(node)?;
        self.begin_ways(node, live, wanted)?;
        let later = live
            .with(&self.uses(consequence)?)
            .with(&self.uses(alternative)?);
        self.tasks.push(Task::JoinWays { node, wanted })?;
        self.tasks.push(Task::SecondWay { node, live: *live })?;
        self.tasks.push(Task::FirstWay { node, live: *live })?;
        self.tasks.push(Task::Condition {
            node: condition,
            live: later,
        })?;
        Ok(())
    }

    /// The first way, behind the condition.
    pub fn first_way(&mut self, node: u32, live: &SlotSet) -> Result<(), AllocError> {
        let (_, consequence, _) = self.ways_of(node)?;
        let ways = self.innermost_ways()?;
        self.states.push(self.state)?;
        self.open_block()?;
        self.value_later(consequence, live, ways.wanted)
    }

    /// The second way, behind the first; there is none where nobody looks at an atom.
    pub fn second_way(&mut self, node: u32, live: &SlotSet) -> Result<(), AllocError> {
        let (_, _, alternative) = self.ways_of(node)?;
        let ways = self.innermost_ways()?;
        self.end_block()?;
        self.state = self.take_state()?;
        self.open_block()?;
        self.value_later(alternative, live, ways.wanted)
    }

    /// Behind the second way.
    pub fn join_ways(&mut self, node: u32, wanted: Wanted) -> Result<(), AllocError> {
        let alternative = self.close_block()?;
        let consequence = self.take_number()?;
        let condition = self.take_number()?;
        let ways = self.end_ways()?;
        let is_when = matches!(self.node(node)?.form, SlotForm::When { .. });
        let step = If {
            node,
            condition,
            consequence,
            alternative: if is_when && matches!(wanted, Wanted::No) {
                None
            } else {
                Some(alternative)
            },
            out: out_of(wanted),
        };
        self.put_if(step, ways.fits)?;
        self.join(&ways, wanted)
    }

    /// A condition: what lives is stored in front of it, where it doesn't fit.
    pub fn condition(&mut self, node: u32, live: &SlotSet) -> Result<(), AllocError> {
        let fits = self.begin_condition(node, live)?;
        self.tasks.push(Task::EndCondition { fits })?;
        self.condition_from(node, live)
    }

    /// Stores what lives in front of a condition, where it doesn't fit; whether it fits.
    pub fn begin_condition(&mut self, node: u32, live: &SlotSet) -> Result<bool, AllocError> {
        let fits = self.fits(node, live)?;
        if fits {
            self.states.push(self.state)?;
            self.fixed = self.fixed.saturating_add(1);
        } else {
            self.save(live, node)?;
        }
        Ok(fits)
    }

    /// Behind a condition: the state at both places that it goes to.
    pub fn end_condition(&mut self, fits: bool) -> Result<(), AllocError> {
        if fits {
            self.fixed = self.fixed.saturating_sub(1);
            self.state = self.take_state()?;
        } else {
            self.state = State::IN_FRAME;
        }
        Ok(())
    }

    /// A condition, in front of which what has to be stored was.
    pub fn condition_from(&mut self, node: u32, live: &SlotSet) -> Result<(), AllocError> {
        let term = self.node(node)?;
        self.state = self.state.only(&live.with(&term.facts.uses));
        match &term.form {
            SlotForm::Compare { parts, .. } => {
                self.open_block()?;
                self.tasks.push(Task::Compared { node })?;
                let mut purpose = Purpose::new(self.alloc, *live);
                purpose.parts.extend_from_slice(parts.as_slice())?;
                self.begin_parts(node, term.depth, purpose)
            }
            SlotForm::Not(inner) => {
                self.tasks.push(Task::Negated)?;
                self.tasks.push(Task::ConditionFrom {
                    node: *inner,
                    live: *live,
                })?;
                Ok(())
            }
            SlotForm::Both(first, second) | SlotForm::Either(first, second) => {
                let inner = live.with(&self.uses(*second)?);
                self.tasks.push(Task::BothMade { node })?;
                self.tasks
                    .push(Task::SecondCondition { node, live: *live })?;
                self.tasks.push(Task::Condition {
                    node: *first,
                    live: inner,
                })?;
                Ok(())
            }
            SlotForm::True(value) => {
                self.open_block()?;
                self.tasks.push(Task::Tested)?;
                self.value_later(*value, live, Wanted::Any)
            }
            _ => Err(AllocError),
        }
    }

    fn push_condition(&mut self, condition: Condition) -> Result<(), AllocError> {
        let number = u32::try_from(self.conditions.len()).map_err(|_| AllocError)?;
        self.conditions.push(condition)?;
        self.numbers.push(number)?;
        Ok(())
    }

    /// The parts of a comparison are there.
    pub fn compared(&mut self, node: u32) -> Result<(), AllocError> {
        let values = self.take_parts()?;
        let SlotForm::Compare { comparison, .. } = self.node(node)?.form else {
            return Err(AllocError);
        };
        let [left, right, _] = self.operands(&values)?;
        let before = self.close_block()?;
        self.push_condition(Condition::Compare {
            before,
            comparison,
            left,
            right,
        })
    }

    /// The value of a condition is there.
    pub fn tested(&mut self) -> Result<(), AllocError> {
        let register = self.register.ok_or(AllocError)?;
        let before = self.close_block()?;
        self.push_condition(Condition::True { before, register })
    }

    /// The opposite of the condition that was made last.
    pub fn negated(&mut self) -> Result<(), AllocError> {
        let inner = self.take_number()?;
        self.push_condition(Condition::Not(inner))
    }

    /// The second of two conditions.
    pub fn second_condition(&mut self, node: u32, live: &SlotSet) -> Result<(), AllocError> {
        let (SlotForm::Both(_, second) | SlotForm::Either(_, second)) = self.node(node)?.form else {
            return Err(AllocError);
        };
        self.open_block()?;
        let fits = self.begin_condition(second, live)?;
        self.end_block()?;
        self.tasks.push(Task::EndCondition { fits })?;
        self.condition_from(second, live)
    }

    /// Two conditions are made.
    pub fn both_made(&mut self, node: u32) -> Result<(), AllocError> {
        let second = self.take_number()?;
        let between = self.take_number()?;
        let first = self.take_number()?;
        match self.node(node)?.form {
            SlotForm::Both(_, _) => self.push_condition(Condition::Both {
                node,
                first,
                between,
                second,
            }),
            SlotForm::Either(_, _) => self.push_condition(Condition::Either {
                node,
                first,
                between,
                second,
            }),
            _ => Err(AllocError),
        }
    }
}
