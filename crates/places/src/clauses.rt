//! Matches and catches: clauses one after the other.

use crate::placer::{Placer, Wanted};
use crate::state::{POOL_SIZE, Registers, State, atom_uses};
use crate::tasks::Task;
use crate::ways::{Ways, out_of};
use effect_meaning::Sequence;
use fx_base::Place;
use low_terms::{
    Atom, Catch, Clauses, Failure, Guard, Home, Low, LowClause, Match, Out, Room, SlotClause,
    SlotForm, SlotSet,
};
use rt_layout::registers::{A0, T4};
use std::alloc::AllocError;

/// What is done where no clause of a list matches.
#[derive(Clone, Copy)]
pub enum Otherwise {
    /// `Match_failure` is raised for this place.
    Fail(Place),
    /// The exception is raised again.
    Reraise,
}

/// Which clauses of a form.
#[derive(Clone, Copy)]
pub enum Which {
    Values,
    Exceptions,
}

/// Clauses that are being made.
#[derive(Drop)]
pub struct ClauseList {
    node: u32,
    which: Which,
    /// The value that they are on.
    value: Atom,
    /// What each clause and those behind it use, with what lives; the last one first.
    rests: Vec<SlotSet>,
    live: SlotSet,
    /// Where the values of the bodies go.
    wanted: Wanted,
    out: Out,
    /// Whether other code of the form follows the list.
    more: bool,
    otherwise: Otherwise,
    /// How many clauses are done.
    done: usize,
    /// The state in front of the next clause.
    state: State,
    made: Vec<u32>,
    /// Of the clause that is being made: its first two blocks, its guard, and whether what lives was
    /// stored for the guard.
    before: u32,
    checks: u32,
    guard_before: u32,
    risky: bool,
    /// Whether the list is the rest of another one, behind the frame that one of its clauses makes.
    is_rest: bool,
}

// How a clause is made.
#[derive(Clone, Copy)]
struct Plan {
    clause: SlotClause,
    /// What the guard and the body use.
    inside: SlotSet,
    /// What has to stay while the test and the guard go on.
    here: SlotSet,
    /// Whether there are registers for the test, its names and the guard.
    has_room: bool,
    /// Whether what lives is stored in front of the test because of the guard.
    risky: bool,
    trivial: bool,
    /// Every value passes, and no guard can fail.
    last: bool,
}

impl ClauseList {
    // What lives on where the next clause fails.
    fn rest(&self) -> SlotSet {
        let behind = self.rests.len().checked_sub(self.done.saturating_add(1));
        match behind {
            Some(number) => match self.rests.get(number) {
                Some(rest) => *rest,
                None => self.live,
            },
            None => self.live,
        }
    }
}

impl<'a> Placer<'a> {
    // The clauses of a form.
    fn clauses_of(&self, node: u32, which: Which) -> Result<&'a [SlotClause], AllocError> {
        match (&self.node(node)?.form, which) {
            (SlotForm::Match { clauses, .. }, _) | (SlotForm::Look { clauses, .. }, _) => {
                Ok(clauses.as_slice())
            }
            (SlotForm::Catch { values, .. }, Which::Values) => Ok(values.as_slice()),
            (SlotForm::Catch { exceptions, .. }, Which::Exceptions) => Ok(exceptions.as_slice()),
            _ => Err(AllocError),
        }
    }

    // What a clause's guard and body use.
    fn clause_uses(&self, clause: &SlotClause) -> Result<SlotSet, AllocError> {
        let uses = self.uses(clause.body)?;
        match clause.guard {
            Some(guard) => Ok(uses.with(&self.uses(guard)?)),
            None => Ok(uses),
        }
    }

    // What clauses use of what is there in front of them.
    fn clauses_uses(&self, clauses: &[SlotClause], depth: u32) -> Result<SlotSet, AllocError> {
        let mut uses = SlotSet::EMPTY;
        for clause in clauses {
            uses = uses.with(&self.clause_uses(clause)?);
        }
        Ok(uses.below(depth))
    }

    // For each clause what those behind it use, with what lives; the last one first.
    fn clause_rests(
        &self,
        clauses: &[SlotClause],
        depth: u32,
        live: &SlotSet,
    ) -> Result<Vec<SlotSet>, AllocError> {
        let mut rests = Vec::new(self.alloc);
        let mut rest = *live;
        for clause in clauses.iter().rev() {
            rests.push(rest)?;
            rest = rest.with(&self.clause_uses(clause)?.below(depth));
        }
        Ok(rests)
    }

    /// A match: its value comes first, where it isn't in a slot.
    pub fn match_value(
        &mut self,
        node: u32,
        live: &SlotSet,
        wanted: Wanted,
    ) -> Result<(), AllocError> {
        self.begin_ways(node, live, wanted)?;
        let term = self.node(node)?;
        match &term.form {
            SlotForm::Match { value, clauses, .. } => {
                let uses = self.clauses_uses(clauses.as_slice(), term.depth)?;
                let mut later = live.with(&uses);
                later.remove(term.depth);
                self.tasks.push(Task::Matched {
                    node,
                    live: *live,
                    wanted,
                })?;
                self.value_later(*value, &later, Wanted::Any)
            }
            SlotForm::Look { slot, place, .. } => {
                let atom = Atom::Slot(*slot);
                self.begin_match(node, atom, *place, live, wanted)
            }
            _ => Err(AllocError),
        }
    }

    /// A match whose value is there.
    pub fn matched(&mut self, node: u32, live: &SlotSet, wanted: Wanted) -> Result<(), AllocError> {
        let term = self.node(node)?;
        let SlotForm::Match { clauses, place, .. } = &term.form else {
            return Err(AllocError);
        };
        let uses = self.clauses_uses(clauses.as_slice(), term.depth)?;
        let mut later = live.with(&uses);
        later.insert(term.depth);
        let register = self.register.ok_or(AllocError)?;
        self.bind(term.depth, register, &later, node)?;
        self.begin_match(node, Atom::Slot(term.depth), *place, live, wanted)
    }

    fn begin_match(
        &mut self,
        node: u32,
        value: Atom,
        place: Place,
        live: &SlotSet,
        wanted: Wanted,
    ) -> Result<(), AllocError> {
        self.tasks.push(Task::EndMatch { node, wanted })?;
        let otherwise = Otherwise::Fail(place);
        self.begin_clauses(node, Which::Values, value, otherwise, live, wanted)
    }

    // Begins the clauses of a form.
    fn begin_clauses(
        &mut self,
        node: u32,
        which: Which,
        value: Atom,
        otherwise: Otherwise,
        live: &SlotSet,
        wanted: Wanted,
    ) -> Result<(), AllocError> {
        let term = self.node(node)?;
        let clauses = self.clauses_of(node, which)?;
        let rests = self.clause_rests(clauses, term.depth.saturating_add(1), live)?;
        let is_catch = matches!(term.form, SlotForm::Catch { .. });
        let list = ClauseList {
            node,
            which,
            value,
            rests,
            live: *live,
            wanted: self.innermost_ways()?.wanted,
            out: out_of(wanted),
            more: is_catch && matches!(which, Which::Values),
            otherwise,
            done: 0,
            state: self.state,
            made: Vec::new(self.alloc),
            before: 0,
            checks: 0,
            guard_before: 0,
            risky: false,
            is_rest: false,
        };
        self.lists.push(list)?;
        self.tasks.push(Task::Clause)?;
        Ok(())
    }

    // How the next clause of the innermost list is made.
    fn plan(&self, clause: SlotClause) -> Result<Plan, AllocError> {
        let Some(list) = self.lists.last() else {
            return Err(AllocError);
        };
        let Some(test) = self.program.test_facts.get(clause.test as usize) else {
            return Err(AllocError);
        };
        let inside = self.clause_uses(&clause)?;
        let rest = list.rest();
        let here = list
            .live
            .with(&inside)
            .with(&rest)
            .with(&atom_uses(list.value));
        let (guard_width, guard_flat) = match clause.guard {
            Some(guard) => {
                let facts = self.node(guard)?.facts;
                (facts.width, facts.flat)
            }
            None => (0, true),
        };
        let width = test.width.max(test.names.len().saturating_add(guard_width));
        let unread = u32::from(self.register_of(list.value).is_none());
        let used = self.state.used(&here).len();
        let needed = used.saturating_add(unread).saturating_add(width);
        let has_room = needed <= POOL_SIZE && !test.named_or;
        Ok(Plan {
            clause,
            inside,
            here,
            has_room,
            risky: clause.guard.is_some() && !(has_room && guard_flat),
            trivial: test.trivial,
            last: test.total && clause.guard.is_none(),
        })
    }

    /// The next clause of the innermost list.
    pub fn clause(&mut self) -> Result<(), AllocError> {
        let Some(list) = self.lists.last() else {
            return Err(AllocError);
        };
        let (node, done, state) = (list.node, list.done, list.state);
        let clauses = self.clauses_of(node, list.which)?;
        let Some(clause) = clauses.get(done) else {
            return self.no_clause();
        };
        self.state = state;
        let plan = self.plan(*clause)?;
        let stores = plan.risky || !(plan.has_room || plan.trivial);
        if stores && self.is_body() && done > 0 {
            return self.rest_in_frame();
        }
        if stores {
            self.frame(Room::Node(node))?;
        }
        self.clause_test(plan, stores)
    }

    // The clauses from the next one on are made in the frame that it needs.
    fn rest_in_frame(&mut self) -> Result<(), AllocError> {
        let Some(list) = self.lists.last() else {
            return Err(AllocError);
        };
        let mut rests = Vec::new(self.alloc);
        rests.extend_from_slice(list.rests.as_slice())?;
        let rest = ClauseList {
            node: list.node,
            which: list.which,
            value: list.value,
            rests,
            live: list.live,
            wanted: list.wanted,
            out: list.out,
            more: list.more,
            otherwise: list.otherwise,
            done: list.done,
            state: list.state.in_frame(),
            made: Vec::new(self.alloc),
            before: 0,
            checks: 0,
            guard_before: 0,
            risky: false,
            is_rest: true,
        };
        let node = list.node;
        self.open_block()?;
        self.frame(Room::Node(node))?;
        self.lists.push(rest)?;
        self.tasks.push(Task::Clause)?;
        Ok(())
    }

    // The stores and the test of a clause, and then its guard or its body.
    fn clause_test(&mut self, plan: Plan, stores: bool) -> Result<(), AllocError> {
        self.open_block()?;
        let Some(list) = self.lists.last() else {
            return Err(AllocError);
        };
        let (node, value) = (list.node, list.value);
        if stores {
            self.save(&plan.here, node)?;
        }
        let behind = self.state;
        let checks = self.clause_checks(&plan, value)?;
        let before = self.close_block()?;
        let Some(list) = self.lists.last_mut() else {
            return Err(AllocError);
        };
        list.state = behind;
        list.before = before;
        list.checks = checks;
        list.risky = plan.risky;
        let live = list
            .rest()
            .with(&self.uses(plan.clause.body)?)
            .with(&atom_uses(value));
        match plan.clause.guard {
            Some(guard) => self.clause_guard(guard, &live),
            None => {
                self.tasks.push(Task::ClauseBody)?;
                Ok(())
            }
        }
    }

    // The checks of a clause, by the number of their block; the value is read into a register in
    // front of them. The state behind is that in which the names are there.
    fn clause_checks(&mut self, plan: &Plan, value: Atom) -> Result<u32, AllocError> {
        let test = plan.clause.test;
        if plan.trivial {
            return self.no_checks();
        }
        if plan.has_room {
            let register = match self.register_of(value) {
                Some(register) => register,
                None => {
                    let register = self.pick(&plan.here)?;
                    let source = self.source_of(value);
                    self.load(register, source)?;
                    register
                }
            };
            let used: Registers = self.state.used(&plan.here);
            return self.checks_in_registers(test, register, &plan.inside, used);
        }
        let source = self.source_of(value);
        self.load(T4, source)?;
        let checks = self.checks_in_frame(test, 0)?;
        let Some(facts) = self.program.test_facts.get(test as usize) else {
            return Err(AllocError);
        };
        let mut names = facts.names;
        for _slot in 0..low_terms::MOST_SLOTS {
            let Some(slot) = names.first() else {
                break;
            };
            names.remove(slot);
            self.state = self.state.minus(Home::Slot(slot));
        }
        Ok(checks)
    }

    // The guard of a clause.
    fn clause_guard(&mut self, guard: u32, live: &SlotSet) -> Result<(), AllocError> {
        self.open_block()?;
        let fits = self.begin_condition(guard, live)?;
        let before = self.close_block()?;
        let Some(list) = self.lists.last_mut() else {
            return Err(AllocError);
        };
        list.guard_before = before;
        self.tasks.push(Task::GuardMade)?;
        self.tasks.push(Task::EndCondition { fits })?;
        self.tasks.push(Task::ConditionFrom {
            node: guard,
            live: *live,
        })?;
        Ok(())
    }

    /// The guard of a clause is made; its number waits for the clause.
    pub fn guard_made(&mut self) -> Result<(), AllocError> {
        self.tasks.push(Task::ClauseBody)?;
        Ok(())
    }

    /// The body of the clause.
    pub fn clause_body(&mut self) -> Result<(), AllocError> {
        let Some(list) = self.lists.last() else {
            return Err(AllocError);
        };
        let (wanted, live) = (list.wanted, list.live);
        let clauses = self.clauses_of(list.node, list.which)?;
        let clause = clauses.get(list.done).ok_or(AllocError)?;
        self.open_block()?;
        self.tasks.push(Task::EndClause)?;
        self.value_later(clause.body, &live, wanted)
    }

    /// Behind the body of a clause.
    pub fn end_clause(&mut self) -> Result<(), AllocError> {
        let body = self.close_block()?;
        let Some(list) = self.lists.last() else {
            return Err(AllocError);
        };
        let clauses = self.clauses_of(list.node, list.which)?;
        let clause = *clauses.get(list.done).ok_or(AllocError)?;
        let last = self.test_facts(clause.test)?.total && clause.guard.is_none();
        let condition = match clause.guard {
            Some(_) => Some(self.take_number()?),
            None => None,
        };
        let number = u32::try_from(self.clauses.len()).map_err(|_| AllocError)?;
        let Some(list) = self.lists.last_mut() else {
            return Err(AllocError);
        };
        let made = LowClause {
            before: list.before,
            checks: list.checks,
            guard: condition.map(|condition| Guard {
                before: list.guard_before,
                condition,
            }),
            body,
            skips: list.more || !last,
        };
        list.made.push(number)?;
        list.done = list.done.saturating_add(1);
        if list.risky {
            list.state = State::IN_FRAME;
        }
        self.clauses.push(made)?;
        if last {
            return self.end_list(Failure::Never);
        }
        self.tasks.push(Task::Clause)?;
        Ok(())
    }

    // Behind the last clause, where it may fail.
    fn no_clause(&mut self) -> Result<(), AllocError> {
        let Some(list) = self.lists.last() else {
            return Err(AllocError);
        };
        let (state, otherwise, value) = (list.state, list.otherwise, list.value);
        self.state = state;
        let failure = match otherwise {
            Otherwise::Fail(place) => Failure::Raise(place),
            Otherwise::Reraise => Failure::Reraise(self.source_of(value)),
        };
        self.end_list(failure)
    }

    // A list is whole. Where it is the rest of another one, that one is whole too.
    fn end_list(&mut self, failure: Failure) -> Result<(), AllocError> {
        let Some(list) = self.lists.pop() else {
            return Err(AllocError);
        };
        let clauses = Clauses {
            clauses: Sequence::from_vec(list.made),
            failure,
        };
        if list.is_rest {
            self.put_low(Low::Match(Match {
                node: list.node,
                clauses,
                out: list.out,
            }))?;
            let block = self.close_block()?;
            return self.end_list_of(block);
        }
        self.finished.push(clauses)?;
        Ok(())
    }

    // The list whose rest is the block is whole.
    fn end_list_of(&mut self, block: u32) -> Result<(), AllocError> {
        let Some(list) = self.lists.pop() else {
            return Err(AllocError);
        };
        self.finished.push(Clauses {
            clauses: Sequence::from_vec(list.made),
            failure: Failure::Block(block),
        })?;
        Ok(())
    }

    // The clauses that were finished last.
    fn take_clauses(&mut self) -> Result<Clauses, AllocError> {
        self.finished.pop().ok_or(AllocError)
    }

    /// Behind the clauses of a match.
    pub fn end_match(&mut self, node: u32, wanted: Wanted) -> Result<(), AllocError> {
        let clauses = self.take_clauses()?;
        let ways: Ways = self.end_ways()?;
        let step = Match {
            node,
            clauses,
            out: out_of(wanted),
        };
        self.put_match(step, ways.fits)?;
        self.join(&ways, wanted)
    }

    // What the clauses of a catch use of what is there in front of them.
    fn catch_uses(&self, node: u32) -> Result<SlotSet, AllocError> {
        let depth = self.node(node)?.depth;
        let values = self.clauses_uses(self.clauses_of(node, Which::Values)?, depth)?;
        let exceptions = self.clauses_uses(self.clauses_of(node, Which::Exceptions)?, depth)?;
        Ok(values.with(&exceptions))
    }

    /// A catch: what lives in its clauses or behind it is stored in front of it.
    pub fn catch(&mut self, node: u32, live: &SlotSet, wanted: Wanted) -> Result<(), AllocError> {
        let SlotForm::Catch { body, .. } = self.node(node)?.form else {
            return Err(AllocError);
        };
        let after = live.with(&self.catch_uses(node)?);
        self.save(&after, node)?;
        self.begin_ways_in_frame(wanted)?;
        self.tasks.push(Task::EndCatch { node, wanted })?;
        self.tasks.push(Task::CatchException { node, live: *live })?;
        self.tasks.push(Task::CatchValue { node, live: *live })?;
        self.open_block()?;
        self.value_later(body, &after, Wanted::Any)
    }

    /// The clauses of a catch's value, which is there.
    pub fn catch_value(&mut self, node: u32, live: &SlotSet) -> Result<(), AllocError> {
        self.end_block()?;
        let term = self.node(node)?;
        let SlotForm::Catch { place, .. } = term.form else {
            return Err(AllocError);
        };
        let home = Home::Slot(term.depth);
        let register = self.register.ok_or(AllocError)?;
        self.state = self.state.plus(home, register, true);
        let wanted = self.innermost_ways()?.wanted;
        let otherwise = Otherwise::Fail(place);
        let value = Atom::Slot(term.depth);
        self.begin_clauses(node, Which::Values, value, otherwise, live, wanted)
    }

    /// The clauses of a catch's exception, which is in `a0`.
    pub fn catch_exception(&mut self, node: u32, live: &SlotSet) -> Result<(), AllocError> {
        let term = self.node(node)?;
        let home = Home::Slot(term.depth);
        self.state = State::IN_FRAME.plus(home, A0, true);
        let wanted = self.innermost_ways()?.wanted;
        let value = Atom::Slot(term.depth);
        self.begin_clauses(
            node,
            Which::Exceptions,
            value,
            Otherwise::Reraise,
            live,
            wanted,
        )
    }

    /// Behind the clauses of a catch.
    pub fn end_catch(&mut self, node: u32, wanted: Wanted) -> Result<(), AllocError> {
        let exceptions = self.take_clauses()?;
        let values = self.take_clauses()?;
        let body = self.take_number()?;
        let slot = self.node(node)?.depth;
        let ways = self.end_ways()?;
        self.put_low(Low::Catch(Catch {
            node,
            slot,
            body,
            values,
            exceptions,
            out: out_of(wanted),
        }))?;
        self.join(&ways, wanted)
    }
}
