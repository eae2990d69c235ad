//! Clauses: matches and catches.

use crate::conditions::end_label;
use crate::labels::{Kind, label};
use crate::loads::home_offset;
use crate::selector::Selector;
use crate::tasks::Task;
use fx_base::Place;
use low_terms::{Catch, Clauses, Failure, Home, LowProgram, Match, Source};
use rt_layout::blocks::tagged;
use rt_layout::labels::{MATCH_FAIL, POP_TRY, PUSH_TRY, RAISE};
use rt_layout::registers::{A0, A1, LINK, SP, T0};
use rt_layout::{assembly, assembly_line};
use std::alloc::AllocError;

impl Selector {
    /// A match on one value.
    pub fn matching(&mut self, form: &Match) -> Result<(), AllocError> {
        let end = end_label(form.node, form.out)?;
        if let Some(end) = end {
            self.next(&[Task::label(end)])?;
        }
        self.clauses(&form.clauses, end)
    }

    // Clauses, then what is done where none matches.
    fn clauses(&mut self, clauses: &Clauses, end: Option<u32>) -> Result<(), AllocError> {
        self.next(&[Task::Fail(clauses.failure)])?;
        for clause in clauses.clauses.as_slice().iter().rev() {
            self.next(&[Task::Clause {
                clause: *clause,
                end,
            }])?;
        }
        Ok(())
    }

    /// A clause. The end of its body goes to the label, if there is one and other code follows.
    pub fn clause(
        &mut self,
        low: &LowProgram,
        number: u32,
        end: Option<u32>,
    ) -> Result<(), AllocError> {
        let Some(clause) = low.clauses.get(number as usize) else {
            return Err(AllocError);
        };
        let no = label(number, Kind::No)?;
        self.next(&[Task::label(no)])?;
        if let Some(end) = end
            && clause.skips
        {
            self.next(&[Task::jump(end)])?;
        }
        self.next(&[Task::steps(clause.body)])?;
        if let Some(guard) = clause.guard {
            self.next(&[
                Task::steps(guard.before),
                Task::Branch {
                    condition: guard.condition,
                    to: no,
                    when: false,
                },
            ])?;
        }
        self.next(&[Task::steps(clause.before), Task::checks(clause.checks, no)])
    }

    /// What is done where no clause matches.
    pub fn fail(&mut self, failure: Failure) -> Result<(), AllocError> {
        match failure {
            Failure::Never => Ok(()),
            Failure::Raise(place) => self.match_failure(place),
            Failure::Reraise(source) => {
                self.operand_in(A0, source)?;
                self.jump(RAISE)
            }
            Failure::Block(block) => self.next(&[Task::steps(block)]),
        }
    }

    // The register gets a value, if it hasn't it.
    fn operand_in(&mut self, rd: u8, source: Source) -> Result<(), AllocError> {
        match source {
            Source::Register(register) if register == rd => Ok(()),
            _ => self.load(rd, source),
        }
    }

    /// Raises `Match_failure` for a place.
    pub fn match_failure(&mut self, place: Place) -> Result<(), AllocError> {
        self.put(&assembly![
            li A0, tagged(u64::from(place.line));
            li A1, tagged(u64::from(place.column));
            jump MATCH_FAIL;
        ])
    }

    /// A body under an exception frame.
    pub fn catch(&mut self, form: &Catch) -> Result<(), AllocError> {
        let home = home_offset(Home::Slot(form.slot));
        let back = 0i64.saturating_sub(home);
        let caught = label(form.node, Kind::Caught)?;
        let end = end_label(form.node, form.out)?;
        if let Some(end) = end {
            self.next(&[Task::label(end)])?;
        }
        self.clauses(&form.exceptions, end)?;
        self.next(&[
            Task::label(caught),
            Task::Line(assembly_line!(addi SP, T0, back)),
        ])?;
        self.clauses(&form.values, end)?;
        self.next(&[
            Task::Line(assembly_line!(addi T0, SP, home)),
            Task::Line(assembly_line!(call LINK, PUSH_TRY)),
            Task::jump(caught),
            Task::steps(form.body),
            Task::Load {
                rd: T0,
                source: Source::Home(Home::Slot(form.slot)),
            },
            Task::Line(assembly_line!(call LINK, POP_TRY)),
        ])
    }
}
