//! What is known while the registers of a program are chosen, and the steps that are made.

use crate::clauses::ClauseList;
use crate::loops::LoopPlaces;
use crate::parts::Parts;
use crate::state::{POOL_SIZE, State};
use crate::tasks::Task;
use crate::ways::Ways;
use effect_meaning::Sequence;
use low_terms::{
    Block, Body, Check, Clauses, Condition, Flat, Home, Low, LowClause, MOST_SLOTS, Room, SlotNode,
    SlotProgram, SlotSet,
};
use std::alloc::{AllocError, Global};

/// Where a value is wanted.
#[derive(Clone, Copy)]
pub enum Wanted {
    Register(u8),
    /// In some register.
    Any,
    /// Nobody looks at it.
    No,
    /// It is the function's.
    Tail,
}

/// A block whose steps aren't all made yet.
#[derive(Drop)]
pub enum Open {
    Flat(Vec<Flat>),
    Low(Vec<Low>),
    Body(Vec<Body>),
    /// Steps behind the frame that the open block below makes.
    Framed { room: Room, steps: Vec<Low> },
    Checks(Vec<Check>),
}

/// The choice of registers for a program.
#[derive(Drop)]
pub struct Placer<'a> {
    pub alloc: Global,
    pub program: &'a SlotProgram,
    pub blocks: Vec<Block>,
    pub conditions: Vec<Condition>,
    pub clauses: Vec<LowClause>,
    /// What is still to be done, the next last.
    pub tasks: Vec<Task>,
    /// The blocks that are open, the innermost last.
    pub open: Vec<Open>,
    /// The numbers of blocks and conditions that wait for the form that they belong to.
    pub numbers: Vec<u32>,
    /// States that are gone back to.
    pub states: Vec<State>,
    pub ways: Vec<Ways>,
    pub parts: Vec<Parts>,
    pub lists: Vec<ClauseList>,
    /// Lists of clauses that wait for the form that they belong to.
    pub finished: Vec<Clauses>,
    pub loops: Vec<LoopPlaces>,
    /// For a sequence, what its terms from each one on use.
    pub rests: Vec<Vec<SlotSet>>,
    /// The state behind what was done last, and the register that has its value.
    pub state: State,
    pub register: Option<u8>,
    /// How many forms are open whose code changes no frame.
    pub fixed: u32,
    /// The running function, and whether it keeps its frame.
    pub function: u32,
    pub keeps_frame: bool,
}

impl<'a> Placer<'a> {
    /// Nothing is chosen yet.
    pub fn new(alloc: Global, program: &'a SlotProgram) -> Placer<'a> {
        Placer {
            alloc,
            program,
            blocks: Vec::new(alloc),
            conditions: Vec::new(alloc),
            clauses: Vec::new(alloc),
            tasks: Vec::new(alloc),
            open: Vec::new(alloc),
            numbers: Vec::new(alloc),
            states: Vec::new(alloc),
            ways: Vec::new(alloc),
            parts: Vec::new(alloc),
            lists: Vec::new(alloc),
            finished: Vec::new(alloc),
            loops: Vec::new(alloc),
            rests: Vec::new(alloc),
            state: State::START,
            register: None,
            fixed: 0,
            function: 0,
            keeps_frame: false,
        }
    }

    /// A term or a condition.
    pub fn node(&self, number: u32) -> Result<&'a SlotNode, AllocError> {
        self.program.nodes.get(number as usize).ok_or(AllocError)
    }

    /// What a term uses.
    pub fn uses(&self, number: u32) -> Result<SlotSet, AllocError> {
        Ok(self.node(number)?.facts.uses)
    }

    /// Whether a term calls nothing.
    pub fn is_flat(&self, number: u32) -> Result<bool, AllocError> {
        Ok(self.node(number)?.facts.flat)
    }

    /// The number of the block or condition that was finished last.
    pub fn take_number(&mut self) -> Result<u32, AllocError> {
        self.numbers.pop().ok_or(AllocError)
    }

    /// The state that was put aside last.
    pub fn take_state(&mut self) -> Result<State, AllocError> {
        self.states.pop().ok_or(AllocError)
    }

    /// Begins a block of a form in the block that is open.
    pub fn open_block(&mut self) -> Result<(), AllocError> {
        let block = if self.fixed > 0 {
            Open::Flat(Vec::new(self.alloc))
        } else {
            match self.open.last() {
                Some(Open::Body(_)) => Open::Body(Vec::new(self.alloc)),
                Some(Open::Flat(_)) => Open::Flat(Vec::new(self.alloc)),
                _ => Open::Low(Vec::new(self.alloc)),
            }
        };
        self.open.push(block)?;
        Ok(())
    }

    /// Begins a block in front of a frame.
    pub fn open_body(&mut self) -> Result<(), AllocError> {
        self.open.push(Open::Body(Vec::new(self.alloc)))?;
        Ok(())
    }

    /// Begins a block in a frame.
    pub fn open_low(&mut self) -> Result<(), AllocError> {
        self.open.push(Open::Low(Vec::new(self.alloc)))?;
        Ok(())
    }

    fn push_block(&mut self, block: Block) -> Result<u32, AllocError> {
        let number = u32::try_from(self.blocks.len()).map_err(|_| AllocError)?;
        self.blocks.push(block)?;
        Ok(number)
    }

    /// Ends the block that is open, and gives its number.
    pub fn close_block(&mut self) -> Result<u32, AllocError> {
        let block = match self.open.pop().ok_or(AllocError)? {
            Open::Flat(steps) => Block::Flat(Sequence::from_vec(steps)),
            Open::Low(steps) => Block::Low(Sequence::from_vec(steps)),
            Open::Body(steps) => Block::Body(Sequence::from_vec(steps)),
            Open::Checks(steps) => Block::Checks(Sequence::from_vec(steps)),
            Open::Framed { room, steps } => {
                let rest = self.push_block(Block::Low(Sequence::from_vec(steps)))?;
                let Some(Open::Body(mut before)) = self.open.pop() else {
                    return Err(AllocError);
                };
                before.push(Body::Framed { room, rest })?;
                Block::Body(Sequence::from_vec(before))
            }
        };
        self.push_block(block)
    }

    /// Ends the block that is open, and puts its number aside.
    pub fn end_block(&mut self) -> Result<(), AllocError> {
        let number = self.close_block()?;
        self.numbers.push(number)?;
        Ok(())
    }

    /// A step that calls nothing.
    pub fn put(&mut self, step: Flat) -> Result<(), AllocError> {
        match self.open.last_mut() {
            Some(Open::Flat(steps)) => steps.push(step)?,
            Some(Open::Low(steps)) => steps.push(Low::Flat(step))?,
            Some(Open::Body(steps)) => steps.push(Body::Flat(step))?,
            Some(Open::Framed { steps, .. }) => steps.push(Low::Flat(step))?,
            Some(Open::Checks(_)) | None => return Err(AllocError),
        }
        Ok(())
    }

    /// A step in the frame.
    pub fn put_low(&mut self, step: Low) -> Result<(), AllocError> {
        match self.open.last_mut() {
            Some(Open::Low(steps)) => steps.push(step)?,
            Some(Open::Framed { steps, .. }) => steps.push(step)?,
            _ => return Err(AllocError),
        }
        Ok(())
    }

    /// Whether the open block stands in front of the frame.
    pub fn is_body(&self) -> bool {
        matches!(self.open.last(), Some(Open::Body(_)))
    }

    /// A step in front of the frame.
    pub fn put_body(&mut self, step: Body) -> Result<(), AllocError> {
        match self.open.last_mut() {
            Some(Open::Body(steps)) => steps.push(step)?,
            _ => return Err(AllocError),
        }
        Ok(())
    }

    /// Leaves the function.
    pub fn put_return(&mut self) -> Result<(), AllocError> {
        if self.is_body() {
            self.put_body(Body::Return)
        } else {
            self.put_low(Low::Return)
        }
    }

    /// A frame, where there is none yet.
    pub fn frame(&mut self, room: Room) -> Result<(), AllocError> {
        if self.is_body() {
            self.open.push(Open::Framed {
                room,
                steps: Vec::new(self.alloc),
            })?;
        }
        self.state.framed = true;
        Ok(())
    }

    /// Stores a register.
    pub fn store(&mut self, register: u8, home: Home) -> Result<(), AllocError> {
        self.put_low(Low::Save { register, home })
    }

    // Stores one value, where it is in a register alone.
    fn save_one(&mut self, home: Home) -> Result<(), AllocError> {
        match self.state.register_of(home) {
            Some(register) => self.store(register, home),
            None => Ok(()),
        }
    }

    /// Stores what lives on and is in a register alone, for the form of this number.
    pub fn save(&mut self, live: &SlotSet, node: u32) -> Result<(), AllocError> {
        self.frame(Room::Node(node))?;
        let mut unsaved = self.state.dirty.and(live);
        for _slot in 0..MOST_SLOTS {
            let Some(slot) = unsaved.first() else {
                break;
            };
            self.save_one(Home::Slot(slot))?;
            unsaved.remove(slot);
        }
        if unsaved.closure {
            self.save_one(Home::Closure)?;
        }
        self.state = self.state.saved(live);
        Ok(())
    }

    /// A slot has the value in the register: it stays there, unless no register is left for others.
    pub fn bind(
        &mut self,
        slot: u32,
        register: u8,
        live: &SlotSet,
        node: u32,
    ) -> Result<(), AllocError> {
        let home = Home::Slot(slot);
        let mut others = *live;
        others.remove(slot);
        let used = self.state.used(&others).with(register);
        if used.len() < POOL_SIZE {
            self.state = self.state.plus(home, register, true);
            return Ok(());
        }
        self.frame(Room::Node(node))?;
        self.store(register, home)?;
        self.state = self.state.minus(home);
        Ok(())
    }

    /// A register of the pool in which no live value is.
    pub fn pick(&self, live: &SlotSet) -> Result<u8, AllocError> {
        self.state.used(live).first_free().ok_or(AllocError)
    }

    /// Whether the term's values need no more registers than there are and nothing is called.
    pub fn fits(&self, number: u32, live: &SlotSet) -> Result<bool, AllocError> {
        let facts = self.node(number)?.facts;
        let used = self.state.used(&live.with(&facts.uses)).len();
        Ok(facts.flat && used.saturating_add(facts.width) <= POOL_SIZE)
    }
}
