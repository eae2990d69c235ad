//! Names that are bound together: those of a pattern, of a `let` group, of a list of definitions.
//!
//! A name is bound once in its group. In an or-pattern the sides bind the same names: those of the
//! left side are free again for the right one, and keep their numbers there.

use fx_base::Place;
use indexmap::IndexMap;
use std::alloc::{AllocError, Global};

/// A name that a group has bound, with its number. The level is that of the or-pattern from whose
/// left side the number is taken, or 0.
#[derive(Clone, Copy)]
pub struct Bound<'a> {
    pub name: &'a [u8],
    pub place: Place,
    pub number: u32,
    level: usize,
}

/// What is known of a name in its group.
#[derive(Clone, Copy)]
enum State {
    Bound,
    /// Bound on the left side of the or-pattern of this level, and not yet on its right side.
    Free { number: u32, level: usize },
}

/// The state of a name in the group of this number.
#[derive(Clone, Copy)]
struct Seen {
    group: u64,
    state: State,
}

/// An or-pattern whose right side is read: where the names of its sides begin.
#[derive(Clone, Copy)]
struct Sides {
    left: usize,
    right: usize,
}

/// The groups that are read, and the names that they have bound.
#[derive(Drop)]
pub struct Groups<'a> {
    seen: IndexMap<&'a [u8], Seen>,
    bound: Vec<Bound<'a>>,
    sides: Vec<Sides>,
    group: u64,
    next: u32,
    breach: Option<Place>,
}

fn is_before(first: Place, second: Place) -> bool {
    first.line < second.line || first.line == second.line && first.column < second.column
}

impl<'a> Groups<'a> {
    /// No group. It takes no memory.
    pub fn new(alloc: Global) -> Groups<'a> {
        Groups {
            seen: IndexMap::new(alloc),
            bound: Vec::new(alloc),
            sides: Vec::new(alloc),
            group: 0,
            next: 0,
            breach: None,
        }
    }

    /// The first breach in text order, if there was one.
    pub fn breach(&self) -> Option<Place> {
        self.breach
    }

    /// Notes a breach.
    pub fn refuse(&mut self, place: Place) {
        match self.breach {
            Some(first) if !is_before(place, first) => {}
            _ => self.breach = Some(place),
        }
    }

    /// A number that no name has.
    pub fn new_name(&mut self) -> Result<u32, AllocError> {
        let number = self.next;
        self.next = number.checked_add(1).ok_or(AllocError)?;
        Ok(number)
    }

    /// Begins a further group.
    pub fn begin(&mut self) {
        self.group = self.group.wrapping_add(1);
    }

    /// The names that were bound and not yet dropped.
    pub fn bound(&self) -> &[Bound<'a>] {
        self.bound.as_slice()
    }

    /// Drops the names but for the first ones.
    pub fn keep(&mut self, count: usize) {
        self.bound.truncate(count);
    }

    fn state(&self, name: &[u8]) -> Option<State> {
        match self.seen.get(name) {
            Some(seen) if seen.group == self.group => Some(seen.state),
            _ => None,
        }
    }

    fn set(&mut self, name: &'a [u8], state: State) -> Result<(), AllocError> {
        let group = self.group;
        self.seen.insert(name, Seen { group, state })?;
        Ok(())
    }

    /// Notes a name of a list in which no name stands twice.
    pub fn list(&mut self, name: &'a [u8], place: Place) -> Result<(), AllocError> {
        if self.state(name).is_some() {
            self.refuse(place);
        }
        self.set(name, State::Bound)
    }

    /// Binds a name, and gives its number.
    pub fn bind(&mut self, name: &'a [u8], place: Place) -> Result<u32, AllocError> {
        let (number, level) = match self.state(name) {
            Some(State::Free { number, level }) => (number, level),
            Some(State::Bound) => {
                self.refuse(place);
                return self.new_name();
            }
            None => (self.new_name()?, 0),
        };
        self.set(name, State::Bound)?;
        self.bound.push(Bound {
            name,
            place,
            number,
            level,
        })?;
        Ok(number)
    }

    /// Between the sides of an or-pattern, whose left side has bound the names from here on.
    pub fn turn(&mut self, left: usize) -> Result<(), AllocError> {
        let right = self.bound.len();
        self.sides.push(Sides { left, right })?;
        let level = self.sides.len();
        for i in left..right {
            if let Some(bound) = self.bound.get(i) {
                let (name, number) = (bound.name, bound.number);
                self.set(name, State::Free { number, level })?;
            }
        }
        Ok(())
    }

    /// Behind an or-pattern. Its names are those of its left side.
    pub fn join(&mut self) -> Result<(), AllocError> {
        let level = self.sides.len();
        let Some(sides) = self.sides.pop() else {
            return Ok(());
        };
        for i in sides.right..self.bound.len() {
            if let Some(bound) = self.bound.get(i)
                && bound.level != level
            {
                let place = bound.place;
                self.refuse(place);
            }
        }
        self.bound.truncate(sides.right);
        self.bind_left(sides.left)
    }

    // The names from here on, of the left side, are bound. One that is still free is not bound on
    // the right side.
    fn bind_left(&mut self, left: usize) -> Result<(), AllocError> {
        for i in left..self.bound.len() {
            if let Some(bound) = self.bound.get(i) {
                let (name, place) = (bound.name, bound.place);
                if let Some(State::Free { .. }) = self.state(name) {
                    self.refuse(place);
                }
                self.set(name, State::Bound)?;
            }
        }
        Ok(())
    }
}
