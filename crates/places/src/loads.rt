//! Reading values into registers.

use crate::placer::{Placer, Wanted};
use effect_meaning::Sequence;
use low_terms::{Atom, Flat, Home, Source};
use rt_layout::blocks::UNIT;
use rt_layout::registers::{A0, ONE, T0, T1, T3, T4};
use std::alloc::AllocError;

// A value on its way to a register, and the register that it is read from, if it is from one.
#[derive(Clone, Copy)]
struct Move {
    rd: u8,
    source: Source,
    reads: Option<u8>,
}

// The same source, where the value of the one register stands in the other now.
fn aside(source: Source, register: u8, other: u8) -> Source {
    match source {
        Source::Register(r) if r == register => Source::Register(other),
        Source::Captured {
            number,
            closure: Some(r),
        } if r == register => Source::Captured {
            number,
            closure: Some(other),
        },
        source => source,
    }
}

fn reads(source: Source) -> Option<u8> {
    match source {
        Source::Register(register) => Some(register),
        Source::Captured { closure, .. } => closure,
        _ => None,
    }
}

// Whether a register is read by a move other than this one.
fn is_read(moves: &[Move], at: usize, register: u8) -> bool {
    for (number, other) in moves.iter().enumerate() {
        if number != at && other.reads == Some(register) {
            return true;
        }
    }
    false
}

// The first move that overwrites nothing that another one reads.
fn first_free(moves: &[Move]) -> Option<usize> {
    for (at, this) in moves.iter().enumerate() {
        if !is_read(moves, at, this.rd) {
            return Some(at);
        }
    }
    None
}

impl<'a> Placer<'a> {
    fn home_source(&self, home: Home) -> Source {
        match self.state.register_of(home) {
            Some(register) => Source::Register(register),
            None => Source::Home(home),
        }
    }

    /// Where an atom's value is.
    pub fn source_of(&self, atom: Atom) -> Source {
        match atom {
            Atom::Slot(slot) => self.home_source(Home::Slot(slot)),
            Atom::Own => self.home_source(Home::Closure),
            Atom::Captured(number) => Source::Captured {
                number,
                closure: self.state.register_of(Home::Closure),
            },
            Atom::Global(global) => Source::Global(global),
            Atom::Word(UNIT) => Source::Register(ONE),
            Atom::Word(word) => Source::Word(word),
            Atom::Text(text) => Source::Text(text),
        }
    }

    /// Where the values of some atoms are.
    pub fn sources_of(&self, atoms: &[Atom]) -> Result<Sequence<Source>, AllocError> {
        let mut sources = Vec::new(self.alloc);
        for atom in atoms {
            sources.push(self.source_of(*atom))?;
        }
        Ok(Sequence::from_vec(sources))
    }

    /// The register that has an atom's value, if one has.
    pub fn register_of(&self, atom: Atom) -> Option<u8> {
        match self.source_of(atom) {
            Source::Register(register) => Some(register),
            _ => None,
        }
    }

    /// Reads a value into a register.
    pub fn load(&mut self, rd: u8, source: Source) -> Result<(), AllocError> {
        match source {
            Source::Register(rs) if rs == rd => Ok(()),
            Source::Register(rs) => self.put(Flat::Copy { rd, rs }),
            source => self.put(Flat::Load { rd, source }),
        }
    }

    /// The register in which an atom's value is, or that it is read into.
    pub fn operand(&mut self, atom: Atom, scratch: u8) -> Result<u8, AllocError> {
        match self.source_of(atom) {
            Source::Register(register) => Ok(register),
            source => {
                self.load(scratch, source)?;
                Ok(scratch)
            }
        }
    }

    /// The registers of at most three operands.
    pub fn operands(&mut self, atoms: &[Atom]) -> Result<[u8; 3], AllocError> {
        let mut registers = [0; 3];
        for (register, (atom, scratch)) in registers
            .iter_mut()
            .zip(atoms.iter().zip([T4, T0, T1].iter()))
        {
            *register = self.operand(*atom, *scratch)?;
        }
        Ok(registers)
    }

    // The moves that have something to do.
    fn moves_of(&self, pairs: &[(u8, Atom)]) -> Result<Vec<Move>, AllocError> {
        let mut moves = Vec::new(self.alloc);
        for (rd, atom) in pairs {
            let source = self.source_of(*atom);
            if !matches!(source, Source::Register(rs) if rs == *rd) {
                moves.push(Move {
                    rd: *rd,
                    source,
                    reads: reads(source),
                })?;
            }
        }
        Ok(moves)
    }

    // One register's value steps aside.
    fn step_aside(&mut self, moves: &mut [Move], spare: u8) -> Result<(), AllocError> {
        let Some(first) = moves.first() else {
            return Err(AllocError);
        };
        let register = first.rd;
        self.put(Flat::Copy {
            rd: spare,
            rs: register,
        })?;
        for other in moves.iter_mut() {
            if other.reads == Some(register) {
                other.source = aside(other.source, register, spare);
                other.reads = Some(spare);
            }
        }
        Ok(())
    }

    /// Reads values into registers, all at once.
    pub fn moves(&mut self, pairs: &[(u8, Atom)]) -> Result<(), AllocError> {
        let mut moves = self.moves_of(pairs)?;
        let mut spare = [T0, T1, T4, T3].iter();
        for _step in 0..u64::MAX {
            if moves.is_empty() {
                return Ok(());
            }
            match first_free(&moves) {
                Some(at) => {
                    if at >= moves.len() {
                        return Err(AllocError);
                    }
                    let this = moves.remove(at);
                    self.load(this.rd, this.source)?;
                }
                None => {
                    let spare = *spare.next().ok_or(AllocError)?;
                    self.step_aside(&mut moves, spare)?;
                }
            }
        }
        Err(AllocError)
    }

    /// The register for a value.
    pub fn place(&self, live: &low_terms::SlotSet, wanted: Wanted) -> Result<u8, AllocError> {
        match wanted {
            Wanted::Register(register) => Ok(register),
            Wanted::Tail => Ok(A0),
            Wanted::Any | Wanted::No => self.pick(live),
        }
    }

    /// Behind a value in a register: nothing, or the return.
    pub fn ends(&mut self, register: Option<u8>, wanted: Wanted) -> Result<(), AllocError> {
        if let Wanted::Tail = wanted {
            self.put_return()?;
        }
        self.register = register;
        Ok(())
    }

    /// The value of a form that left everything in the frame is in `a0`.
    pub fn moved(&mut self, wanted: Wanted) -> Result<(), AllocError> {
        self.register = Some(A0);
        if let Wanted::Register(register) = wanted {
            if register != A0 {
                self.put(Flat::Copy {
                    rd: register,
                    rs: A0,
                })?;
                self.register = Some(register);
            }
        }
        Ok(())
    }
}
