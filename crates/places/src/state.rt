//! Where the values of a function are while its registers are chosen.

use low_terms::{Atom, Home, SlotSet};
use rt_layout::registers::{A0, A1, A2, A3, AUX, CALL, CUR, DST, ONE};

/// The registers that values are kept in between calls.
pub const POOL: [u8; 8] = [A0, A1, A2, A3, CUR, AUX, DST, CALL];

/// How many registers of the pool there are.
pub const POOL_SIZE: u32 = 8;

// The registers in which a value may be found: those of the pool, and the one that has `()`.
const COLUMNS: [u8; 9] = [A0, A1, A2, A3, CUR, AUX, DST, CALL, ONE];

/// Where the values of the slots and of the closure are: the register that has each, else its word of
/// the frame.
#[derive(Clone, Copy)]
pub struct State {
    held: [SlotSet; 9],
    /// What has a register and not yet its word of the frame.
    pub dirty: SlotSet,
    /// Whether there is a frame.
    pub framed: bool,
}

/// A set of the registers of the pool.
#[derive(Clone, Copy)]
pub struct Registers {
    has: [bool; 9],
}

/// The set that has this value alone.
pub fn home_set(home: Home) -> SlotSet {
    match home {
        Home::Slot(slot) => SlotSet::one(slot),
        Home::Closure => SlotSet::CLOSURE,
    }
}

/// The slot, or the closure, that an atom is read from.
pub fn atom_uses(atom: Atom) -> SlotSet {
    match atom {
        Atom::Slot(slot) => SlotSet::one(slot),
        Atom::Captured(_) | Atom::Own => SlotSet::CLOSURE,
        Atom::Global(_) | Atom::Word(_) | Atom::Text(_) => SlotSet::EMPTY,
    }
}

impl Registers {
    /// Whether the register is in it.
    pub fn has(&self, register: u8) -> bool {
        for (column, is_in) in COLUMNS.iter().zip(self.has.iter()) {
            if *column == register {
                return *is_in;
            }
        }
        false
    }

    /// The set with one register more.
    pub fn with(&self, register: u8) -> Registers {
        let mut has = self.has;
        for (column, is_in) in COLUMNS.iter().zip(has.iter_mut()) {
            if *column == register {
                *is_in = true;
            }
        }
        Registers { has }
    }

    /// How many there are.
    pub fn len(&self) -> u32 {
        let mut count: u32 = 0;
        for is_in in &self.has {
            count = count.saturating_add(u32::from(*is_in));
        }
        count
    }

    /// The first register of the pool that isn't in it.
    pub fn first_free(&self) -> Option<u8> {
        for register in &POOL {
            if !self.has(*register) {
                return Some(*register);
            }
        }
        None
    }
}

impl State {
    /// Nothing is in a register, and there is no frame.
    pub const START: State = State {
        held: [SlotSet::EMPTY; 9],
        dirty: SlotSet::EMPTY,
        framed: false,
    };

    /// Every value is in its word of the frame.
    pub const IN_FRAME: State = State {
        held: [SlotSet::EMPTY; 9],
        dirty: SlotSet::EMPTY,
        framed: true,
    };

    /// The register that has a value, if one has.
    pub fn register_of(&self, home: Home) -> Option<u8> {
        for (column, held) in COLUMNS.iter().zip(self.held.iter()) {
            let found = match home {
                Home::Slot(slot) => held.has(slot),
                Home::Closure => held.closure,
            };
            if found {
                return Some(*column);
            }
        }
        None
    }

    /// What of it is among these.
    pub fn only(&self, live: &SlotSet) -> State {
        let mut held = self.held;
        for values in held.iter_mut() {
            *values = values.and(live);
        }
        State {
            held,
            dirty: self.dirty.and(live),
            framed: self.framed,
        }
    }

    /// The state in which no register has a value any more.
    pub fn minus(&self, home: Home) -> State {
        let gone = home_set(home);
        let mut held = self.held;
        for values in held.iter_mut() {
            *values = values.without(&gone);
        }
        State {
            held,
            dirty: self.dirty.without(&gone),
            framed: self.framed,
        }
    }

    /// The state in which the register has a value; `dirty` says that its word of the frame hasn't.
    pub fn plus(&self, home: Home, register: u8, dirty: bool) -> State {
        let mut state = self.minus(home);
        let value = home_set(home);
        for (column, values) in COLUMNS.iter().zip(state.held.iter_mut()) {
            if *column == register {
                *values = values.with(&value);
            }
        }
        if dirty {
            state.dirty = state.dirty.with(&value);
        }
        state
    }

    /// The state behind a frame that was made.
    pub fn in_frame(&self) -> State {
        State {
            held: self.held,
            dirty: self.dirty,
            framed: true,
        }
    }

    /// The state in which these values have their words of the frame.
    pub fn saved(&self, live: &SlotSet) -> State {
        State {
            held: self.held,
            dirty: self.dirty.without(live),
            framed: self.framed,
        }
    }

    /// The registers that have one of these values.
    pub fn used(&self, live: &SlotSet) -> Registers {
        let mut has = [false; 9];
        for (is_in, values) in has.iter_mut().zip(self.held.iter()) {
            *is_in = !values.and(live).is_empty();
        }
        Registers { has }
    }

    /// How many values are in registers.
    pub fn count(&self) -> u32 {
        let mut count: u32 = 0;
        for values in &self.held {
            count = count.saturating_add(values.len());
        }
        count
    }
}
