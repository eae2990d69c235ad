//! Tests as checks on registers: with the names in registers, or in the frame and the test area.

use crate::placer::{Open, Placer};
use crate::state::Registers;
use low_terms::{Check, Destination, Home, SlotPart, SlotSet, SlotTest, SlotTestFacts};
use rt_layout::registers::T4;
use std::alloc::AllocError;

// A test on a register that is still to be made; the registers in use are told.
#[derive(Drop, Clone, Copy)]
enum Kept {
    Test {
        test: u32,
        register: u8,
        used: Registers,
    },
    /// On a part, which is read into a free register first.
    Part {
        part: SlotPart,
        base: u8,
        used: Registers,
    },
    Right {
        test: u32,
        right: u32,
        register: u8,
        used: Registers,
    },
    EndOr {
        test: u32,
    },
}

// A test on `t4` that is still to be made; the cells of the test area from `cell` on are free.
#[derive(Drop, Clone, Copy)]
enum Waiting {
    Test { test: u32, cell: u32 },
    Resume { cell: u32 },
    Read { index: u32, mutable: bool },
    Right { test: u32, right: u32, cell: u32 },
    EndOr { test: u32 },
}

impl<'a> Placer<'a> {
    fn test(&self, number: u32) -> Result<&'a SlotTest, AllocError> {
        self.program.tests.get(number as usize).ok_or(AllocError)
    }

    /// What code depends on, of a test.
    pub fn test_facts(&self, number: u32) -> Result<SlotTestFacts, AllocError> {
        let Some(facts) = self.program.test_facts.get(number as usize) else {
            return Err(AllocError);
        };
        Ok(*facts)
    }

    fn put_check(&mut self, check: Check) -> Result<(), AllocError> {
        match self.open.last_mut() {
            Some(Open::Checks(checks)) => checks.push(check)?,
            _ => return Err(AllocError),
        }
        Ok(())
    }

    fn open_checks(&mut self) -> Result<(), AllocError> {
        self.open.push(Open::Checks(Vec::new(self.alloc)))?;
        Ok(())
    }

    /// A block without a check.
    pub fn no_checks(&mut self) -> Result<u32, AllocError> {
        self.open_checks()?;
        self.close_block()
    }

    // Whether a test can fail, names something that is wanted, or reads a part that may change.
    fn matters(&self, test: u32, wanted: &SlotSet) -> Result<bool, AllocError> {
        let mut left = Vec::new(self.alloc);
        left.push(test)?;
        for _step in 0..u64::MAX {
            let Some(number) = left.pop() else {
                return Ok(false);
            };
            match self.test(number)? {
                SlotTest::Any => {}
                SlotTest::Bind(destination) => {
                    if is_wanted(*destination, wanted) {
                        return Ok(true);
                    }
                }
                SlotTest::Alias { destination, test } => {
                    if is_wanted(*destination, wanted) {
                        return Ok(true);
                    }
                    left.push(*test)?;
                }
                SlotTest::Parts(parts) => {
                    for part in parts.as_slice() {
                        if !self.test_facts(part.test)?.trivial {
                            if part.mutable {
                                return Ok(true);
                            }
                            left.push(part.test)?;
                        }
                    }
                }
                _ => {
                    if !self.test_facts(number)?.trivial {
                        return Ok(true);
                    }
                }
            }
        }
        Err(AllocError)
    }

    /// The checks of a test on a register, which stays. The names that are wanted are in registers
    /// behind it.
    pub fn checks_in_registers(
        &mut self,
        test: u32,
        register: u8,
        wanted: &SlotSet,
        used: Registers,
    ) -> Result<u32, AllocError> {
        let mut left = Vec::new(self.alloc);
        left.push(Kept::Test {
            test,
            register,
            used,
        })?;
        let mut bound: Vec<(u32, u8)> = Vec::new(self.alloc);
        self.open_checks()?;
        for _step in 0..u64::MAX {
            let Some(item) = left.pop() else {
                break;
            };
            self.kept(item, wanted, &mut left, &mut bound)?;
        }
        for (slot, register) in &bound {
            self.state = self.state.plus(Home::Slot(*slot), *register, true);
        }
        self.close_block()
    }

    // The next test on a register.
    fn kept(
        &mut self,
        item: Kept,
        wanted: &SlotSet,
        left: &mut Vec<Kept>,
        bound: &mut Vec<(u32, u8)>,
    ) -> Result<(), AllocError> {
        match item {
            Kept::Test {
                test,
                register,
                used,
            } => self.kept_test(test, register, used, wanted, left, bound),
            Kept::Part { part, base, used } => {
                let mut now = used.with(base);
                for (_, register) in bound.iter() {
                    now = now.with(*register);
                }
                let rd = now.first_free().ok_or(AllocError)?;
                self.put_check(Check::Part {
                    rd,
                    base,
                    index: part.index,
                    mutable: part.mutable,
                })?;
                left.push(Kept::Test {
                    test: part.test,
                    register: rd,
                    used: now.with(rd),
                })?;
                Ok(())
            }
            Kept::Right {
                test,
                right,
                register,
                used,
            } => {
                self.end_block()?;
                self.open_checks()?;
                left.push(Kept::EndOr { test })?;
                left.push(Kept::Test {
                    test: right,
                    register,
                    used,
                })?;
                Ok(())
            }
            Kept::EndOr { test } => self.end_or(test),
        }
    }

    // Both sides of an or-pattern are made.
    fn end_or(&mut self, test: u32) -> Result<(), AllocError> {
        let right = self.close_block()?;
        let left = self.take_number()?;
        self.put_check(Check::Or { test, left, right })
    }

    fn kept_test(
        &mut self,
        number: u32,
        register: u8,
        used: Registers,
        wanted: &SlotSet,
        left: &mut Vec<Kept>,
        bound: &mut Vec<(u32, u8)>,
    ) -> Result<(), AllocError> {
        match self.test(number)? {
            SlotTest::Any => Ok(()),
            SlotTest::Bind(destination) => name_in(*destination, register, wanted, bound),
            SlotTest::Alias { destination, test } => {
                name_in(*destination, register, wanted, bound)?;
                left.push(Kept::Test {
                    test: *test,
                    register,
                    used,
                })?;
                Ok(())
            }
            SlotTest::Parts(parts) => {
                for part in parts.as_slice().iter().rev() {
                    let is_trivial = self.test_facts(part.test)?.trivial;
                    if !is_trivial && (part.mutable || self.matters(part.test, wanted)?) {
                        left.push(Kept::Part {
                            part: *part,
                            base: register,
                            used,
                        })?;
                    }
                }
                Ok(())
            }
            SlotTest::Or { left: first, right } => {
                self.open_checks()?;
                left.push(Kept::Right {
                    test: number,
                    right: *right,
                    register,
                    used,
                })?;
                left.push(Kept::Test {
                    test: *first,
                    register,
                    used,
                })?;
                Ok(())
            }
            other => {
                let argument = self.check_of(other, register)?;
                if let Some(part) = argument {
                    if self.matters(part.test, wanted)? {
                        left.push(Kept::Part {
                            part,
                            base: register,
                            used,
                        })?;
                    }
                }
                Ok(())
            }
        }
    }

    // The check of a test on a word, a string or a block, and the part that is tested behind it.
    fn check_of(&mut self, test: &SlotTest, register: u8) -> Result<Option<SlotPart>, AllocError> {
        match test {
            SlotTest::Word(word) => {
                self.put_check(Check::Word {
                    register,
                    word: *word,
                })?;
                Ok(None)
            }
            SlotTest::Text(text) => {
                self.put_check(Check::Text {
                    register,
                    text: *text,
                })?;
                Ok(None)
            }
            SlotTest::Block {
                header,
                mixed,
                argument,
            } => {
                self.put_check(Check::Header {
                    register,
                    header: *header,
                    mixed: *mixed,
                })?;
                Ok(Some(SlotPart {
                    index: 0,
                    mutable: false,
                    test: *argument,
                }))
            }
            SlotTest::Exception {
                constructor,
                argument,
            } => {
                self.put_check(Check::Exception {
                    register,
                    constructor: *constructor,
                })?;
                Ok(argument.map(|test| SlotPart {
                    index: 1,
                    mutable: false,
                    test,
                }))
            }
            _ => Err(AllocError),
        }
    }

    /// The checks of a test on `t4`, whose names go to their places. The cells of the test area from
    /// `cell` on are free.
    pub fn checks_in_frame(&mut self, test: u32, cell: u32) -> Result<u32, AllocError> {
        let mut left = Vec::new(self.alloc);
        left.push(Waiting::Test { test, cell })?;
        self.open_checks()?;
        for _step in 0..u64::MAX {
            let Some(item) = left.pop() else {
                break;
            };
            self.waiting(item, &mut left)?;
        }
        self.close_block()
    }

    // The next test on `t4`.
    fn waiting(&mut self, item: Waiting, left: &mut Vec<Waiting>) -> Result<(), AllocError> {
        match item {
            Waiting::Test { test, cell } => self.waiting_test(test, cell, left),
            Waiting::Resume { cell } => self.put_check(Check::Resume { rd: T4, cell }),
            Waiting::Read { index, mutable } => self.put_check(Check::Part {
                rd: T4,
                base: T4,
                index,
                mutable,
            }),
            Waiting::Right { test, right, cell } => {
                self.end_block()?;
                self.open_checks()?;
                left.push(Waiting::EndOr { test })?;
                left.push(Waiting::Test { test: right, cell })?;
                left.push(Waiting::Resume { cell })?;
                Ok(())
            }
            Waiting::EndOr { test } => self.end_or(test),
        }
    }

    fn put_name(&mut self, destination: Destination) -> Result<(), AllocError> {
        self.put_check(Check::Store {
            register: T4,
            destination,
        })
    }

    fn waiting_test(
        &mut self,
        number: u32,
        cell: u32,
        left: &mut Vec<Waiting>,
    ) -> Result<(), AllocError> {
        match self.test(number)? {
            SlotTest::Any => Ok(()),
            SlotTest::Bind(destination) => self.put_name(*destination),
            SlotTest::Alias { destination, test } => {
                self.put_name(*destination)?;
                left.push(Waiting::Test { test: *test, cell })?;
                Ok(())
            }
            SlotTest::Parts(parts) => self.waiting_parts(parts.as_slice(), cell, left),
            SlotTest::Or { left: first, right } => {
                self.put_name(Destination::Cell(cell))?;
                self.open_checks()?;
                left.push(Waiting::Right {
                    test: number,
                    right: *right,
                    cell,
                })?;
                left.push(Waiting::Test {
                    test: *first,
                    cell: cell.saturating_add(1),
                })?;
                Ok(())
            }
            other => {
                if let Some(part) = self.check_of(other, T4)? {
                    if !self.test_facts(part.test)?.trivial {
                        left.push(Waiting::Test {
                            test: part.test,
                            cell,
                        })?;
                        left.push(Waiting::Read {
                            index: part.index,
                            mutable: false,
                        })?;
                    }
                }
                Ok(())
            }
        }
    }

    // The parts of a value that have to be looked at. The value waits while all but the last are.
    fn waiting_parts(
        &mut self,
        parts: &[SlotPart],
        cell: u32,
        left: &mut Vec<Waiting>,
    ) -> Result<(), AllocError> {
        let mut looked = Vec::new(self.alloc);
        for part in parts {
            if !self.test_facts(part.test)?.trivial {
                looked.push(*part)?;
            }
        }
        if looked.len() > 1 {
            self.put_name(Destination::Cell(cell))?;
        }
        for (number, part) in looked.iter().enumerate().rev() {
            let is_last = number.saturating_add(1) == looked.len();
            left.push(Waiting::Test {
                test: part.test,
                cell: cell.saturating_add(u32::from(!is_last)),
            })?;
            left.push(Waiting::Read {
                index: part.index,
                mutable: part.mutable,
            })?;
            if number > 0 {
                left.push(Waiting::Resume { cell })?;
            }
        }
        Ok(())
    }
}

// Whether a name is among those that are wanted.
fn is_wanted(destination: Destination, wanted: &SlotSet) -> bool {
    match destination {
        Destination::Slot(slot) => wanted.has(slot),
        Destination::Global(_) | Destination::Cell(_) => true,
    }
}

// A name that is wanted is in the register from now on.
fn name_in(
    destination: Destination,
    register: u8,
    wanted: &SlotSet,
    bound: &mut Vec<(u32, u8)>,
) -> Result<(), AllocError> {
    if let Destination::Slot(slot) = destination {
        if wanted.has(slot) {
            bound.push((slot, register))?;
        }
    }
    Ok(())
}
