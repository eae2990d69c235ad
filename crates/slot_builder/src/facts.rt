//! What the code of a term depends on: whether it calls nothing, the slots that it mentions and doesn't
//! bind, and the registers that its values take at once.

use crate::builder::SlotBuilder;
use low_terms::{Atom, Closure, Facts, SlotClause, SlotForm, SlotSet};
use std::alloc::AllocError;

// A term that calls nothing and has no value.
const NOTHING: Facts = Facts {
    flat: true,
    uses: SlotSet::EMPTY,
    width: 0,
};

fn uses_of(atom: Atom) -> SlotSet {
    match atom {
        Atom::Slot(slot) => SlotSet::one(slot),
        Atom::Captured(_) | Atom::Own => SlotSet::CLOSURE,
        Atom::Global(_) | Atom::Word(_) | Atom::Text(_) => SlotSet::EMPTY,
    }
}

fn uses_of_all(atoms: &[Atom]) -> SlotSet {
    let mut uses = SlotSet::EMPTY;
    for atom in atoms {
        uses = uses.with(&uses_of(*atom));
    }
    uses
}

fn uses_of_closures(closures: &[Closure]) -> SlotSet {
    let mut uses = SlotSet::EMPTY;
    for closure in closures {
        uses = uses.with(&uses_of_all(closure.captures.as_slice()));
    }
    uses
}

// A term that calls something.
fn calls(uses: SlotSet) -> Facts {
    Facts {
        flat: false,
        uses,
        width: 0,
    }
}

// Both terms, where the values of the second one aren't there at once with those of the first.
fn with(first: Facts, second: Facts) -> Facts {
    Facts {
        flat: first.flat && second.flat,
        uses: first.uses.with(&second.uses),
        width: first.width.max(second.width),
    }
}

// A term whose code keeps so many further values, in the slots from this one on.
fn keeping(facts: Facts, slot: u32, count: u32) -> Facts {
    Facts {
        flat: facts.flat,
        uses: facts.uses.below(slot),
        width: facts.width.saturating_add(count),
    }
}

// How many of the slots from the first one on a term mentions.
fn mentioned(facts: &Facts, first: u32, count: u32) -> u32 {
    let mut mentions = 0u32;
    for number in 0..count {
        if facts.uses.has(first.saturating_add(number)) {
            mentions = mentions.saturating_add(1);
        }
    }
    mentions
}

impl<'a> SlotBuilder<'a> {
    /// What was told of an earlier node.
    fn facts(&self, node: u32) -> Result<Facts, AllocError> {
        match self.program.nodes.get(node as usize) {
            Some(found) => Ok(found.facts),
            None => Err(AllocError),
        }
    }

    // Terms one behind the other.
    fn all_facts(&self, nodes: &[u32]) -> Result<Facts, AllocError> {
        let mut all = NOTHING;
        for node in nodes {
            all = with(all, self.facts(*node)?);
        }
        Ok(all)
    }

    // Parts, each of which is evaluated beside the values of those before it.
    fn parts_facts(&self, parts: &[u32]) -> Result<Facts, AllocError> {
        let mut all = NOTHING;
        let mut held = 0u32;
        for part in parts {
            let facts = self.facts(*part)?;
            let is_atom = self.atom_of(*part).is_some();
            let width = if is_atom {
                0
            } else {
                held.saturating_add(facts.width)
            };
            all = with(all, Facts { width, ..facts });
            held = held.saturating_add(u32::from(!is_atom));
        }
        all.width = all.width.max(held).max(1);
        Ok(all)
    }

    fn uses_of_parts(&self, parts: &[u32]) -> Result<SlotSet, AllocError> {
        Ok(self.parts_facts(parts)?.uses)
    }

    fn clause_facts(&self, clause: &SlotClause) -> Result<Facts, AllocError> {
        let test = self.test_facts(clause.test)?;
        let body = self.facts(clause.body)?;
        let inner = match clause.guard {
            Some(guard) => with(body, self.facts(guard)?),
            None => body,
        };
        let width = inner.width.saturating_add(test.names.len());
        Ok(Facts {
            flat: inner.flat && !test.named_or,
            uses: inner.uses,
            width: width.max(test.width),
        })
    }

    // Clauses on a value in a slot; their names go to the slots behind it.
    fn clauses_facts(&self, clauses: &[SlotClause], below: u32) -> Result<Facts, AllocError> {
        let mut all = NOTHING;
        for clause in clauses {
            all = with(all, self.clause_facts(clause)?);
        }
        Ok(keeping(all, below, 0))
    }

    /// What the code of a form depends on, where so many slots are in use.
    pub fn facts_of(&self, form: &SlotForm, depth: u32) -> Result<Facts, AllocError> {
        match form {
            SlotForm::Atom(atom) => Ok(Facts {
                flat: true,
                uses: uses_of(*atom),
                width: 1,
            }),
            SlotForm::Let { value, body } => {
                let body = keeping(self.facts(*body)?, depth, 1);
                Ok(with(self.facts(*value)?, body))
            }
            SlotForm::LetRec { closures, body } => {
                let closures = closures.as_slice();
                let body = self.facts(*body)?;
                let all = Facts {
                    uses: body.uses.with(&uses_of_closures(closures)),
                    ..body
                };
                let count = u32::try_from(closures.len()).unwrap_or(u32::MAX);
                Ok(keeping(all, depth, count))
            }
            SlotForm::Sequence(nodes) => self.all_facts(nodes.as_slice()),
            SlotForm::If {
                condition,
                consequence,
                alternative,
            }
            | SlotForm::When {
                condition,
                consequence,
                alternative,
            } => self.all_facts(&[*condition, *consequence, *alternative]),
            SlotForm::Closure(closure) => Ok(Facts {
                flat: true,
                uses: uses_of_all(closure.captures.as_slice()),
                width: 1,
            }),
            other => self.facts_of_calls(other, depth),
        }
    }

    // Calls, operations and blocks.
    fn facts_of_calls(&self, form: &SlotForm, depth: u32) -> Result<Facts, AllocError> {
        match form {
            SlotForm::Call(parts)
            | SlotForm::Routine { parts, .. }
            | SlotForm::Perform { parts, .. }
            | SlotForm::PerformValue(parts) => Ok(calls(self.uses_of_parts(parts.as_slice())?)),
            SlotForm::Known { closure, parts, .. } => {
                let uses = self.uses_of_parts(parts.as_slice())?;
                match closure {
                    Some(closure) => Ok(calls(uses.with(&uses_of(*closure)))),
                    None => Ok(calls(uses)),
                }
            }
            SlotForm::Operation { parts, .. }
            | SlotForm::End { parts, .. }
            | SlotForm::Compare { parts, .. }
            | SlotForm::Block { parts, .. }
            | SlotForm::Again { parts, .. } => self.parts_facts(parts.as_slice()),
            SlotForm::OperationConstant { part, .. } => self.parts_facts(&[*part]),
            SlotForm::Handle { parts, handler, .. } => {
                let uses = self.uses_of_parts(parts.as_slice())?;
                let Some(handler) = self.program.handlers.get(*handler as usize) else {
                    return Err(AllocError);
                };
                let captured = uses_of_all(handler.captures.as_slice());
                Ok(calls(uses.with(&captured).below(depth)))
            }
            other => self.facts_of_clauses(other, depth),
        }
    }

    // Matches, loops and conditions.
    fn facts_of_clauses(&self, form: &SlotForm, depth: u32) -> Result<Facts, AllocError> {
        match form {
            SlotForm::Match { value, clauses, .. } => {
                let all = self.clauses_facts(clauses.as_slice(), depth)?;
                Ok(with(self.facts(*value)?, keeping(all, depth, 1)))
            }
            SlotForm::Look { slot, clauses, .. } => {
                let below = depth.saturating_add(1);
                let all = self.clauses_facts(clauses.as_slice(), below)?;
                let all = keeping(all, below, 1);
                Ok(Facts {
                    uses: all.uses.with(&SlotSet::one(*slot)),
                    ..all
                })
            }
            SlotForm::Catch {
                body,
                values,
                exceptions,
                ..
            } => {
                let values = self.clauses_facts(values.as_slice(), depth)?;
                let exceptions = self.clauses_facts(exceptions.as_slice(), depth)?;
                let all = with(self.facts(*body)?, with(values, exceptions));
                Ok(calls(all.uses.below(depth)))
            }
            SlotForm::Loop { count, parts, body } => {
                let body = self.facts(*body)?;
                let count = mentioned(&body, depth, *count);
                let body = keeping(body, depth, count);
                Ok(with(self.parts_facts(parts.as_slice())?, body))
            }
            SlotForm::Not(condition) | SlotForm::True(condition) => self.facts(*condition),
            SlotForm::Both(first, second) | SlotForm::Either(first, second) => {
                self.all_facts(&[*first, *second])
            }
            _ => Ok(NOTHING),
        }
    }
}
