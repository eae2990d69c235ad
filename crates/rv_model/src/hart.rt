//! Harts, and what an instruction asks of the words.

ghost use Rattle.std.specs.Prelude.{◌≡◌, length, slice_index};

/// A hart's state: its registers, the byte address of its next instruction, and how many instructions
/// it has carried out.
#[derive(Clone, Copy, PartialEq, Eq, Debug)]
pub struct Hart {
    pub regs: [u64; 32],
    pub pc: u64,
    pub retired: u64,
    pub ghost count: { length regs ≡ 32 },
    pub ghost zero: { slice_index regs 0 ≡ 0 },
}

impl Hart {
    ghost use Rattle.std.specs.Prelude.{◌<◌};
    ghost use Rattle.rv_model.specs.Machine.{get, put, hart_of};
    ghost use Rattle.rv_model.specs.Start.{first_hart};

    /// The hart with this number at the start of a run: register 10 has the number.
    pub fn first(number: u64) -> Hart
        ensures { result ≡ first_hart number }
    {
        let mut regs = [0; 32];
        regs[10] = number;
        Hart {
            regs,
            pc: 0,
            retired: 0,
        }
    }

    /// The value of a register, whose number is below 32.
    pub fn register(&self, number: u8) -> u64
        requires { number < 32 }
        ensures { result ≡ get (hart_of self.now).regs number }
    {
        self.regs[number as usize]
    }

    /// Writes a register, whose number is below 32; a write to register 0 does nothing.
    pub fn set_register(&mut self, number: u8, value: u64)
        requires { number < 32 }
        ensures { hart_of self.new
            ≡ record (hart_of self.old) { regs = put (hart_of self.old).regs number value } }
    {
        if number != 0 {
            self.regs[number as usize] = value;
        }
    }
}

/// One access to one word, which is named by its number.
#[derive(Clone, Copy, PartialEq, Eq, Debug)]
pub enum Access {
    /// Reads the word.
    Loading(u64),
    /// Writes the word: its number, the value.
    Storing(u64, u64),
    /// Writes the word and gives what it was: its number, the value.
    Swapping(u64, u64),
    /// Adds to the word and gives what it was: its number, the value.
    Adding(u64, u64),
    /// Masks the word by AND and gives what it was: its number, the value.
    Masking(u64, u64),
    /// Writes the word where it was as expected, and gives what it was: its number, the expected value,
    /// the new value.
    Exchanging(u64, u64, u64),
}

/// The part of a word that a load puts into a register.
#[derive(Clone, Copy, PartialEq, Eq, Debug)]
pub enum Part {
    Word,
    /// The byte of this number, 0 for the least.
    Byte(u64),
}
