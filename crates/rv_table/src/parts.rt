//! The six parts of an instruction word.

ghost use Rattle.std.specs.Prelude.{◌<◌, ◌^◌};

/// The parts of an instruction word, from the lowest bits up.
#[derive(Clone, Copy, Debug)]
pub struct Parts {
    pub opcode: u32,
    pub rd: u32,
    pub funct3: u32,
    pub rs1: u32,
    pub rs2: u32,
    pub funct7: u32,
    pub ghost opcode_fits: { opcode < 2 ^ 7 },
    pub ghost rd_fits: { rd < 2 ^ 5 },
    pub ghost funct3_fits: { funct3 < 2 ^ 3 },
    pub ghost rs1_fits: { rs1 < 2 ^ 5 },
    pub ghost rs2_fits: { rs2 < 2 ^ 5 },
    pub ghost funct7_fits: { funct7 < 2 ^ 7 },
}

impl Parts {
    ghost use Rattle.std.specs.Prelude.{◌≡◌};
    ghost use Rattle.rv_model.specs.Format.{packed, parts_of, upper_bits, upper_parts};
    ghost use Rattle.rv_table.specs.Seen.{seen_parts};

    /// The parts of a word.
    pub fn of(word: u32) -> Parts
        ensures { seen_parts result ≡ parts_of word }
    {
        Parts {
            opcode: word % (1 << 7),
            rd: (word >> 7) % (1 << 5),
            funct3: (word >> 12) % (1 << 3),
            rs1: (word >> 15) % (1 << 5),
            rs2: (word >> 20) % (1 << 5),
            funct7: word >> 25,
        }
    }

    /// The word of these parts.
    pub fn packed(&self) -> u32
        ensures { result ≡ packed (seen_parts self.now) }
    {
        self.opcode
            + (self.rd << 7)
            + (self.funct3 << 12)
            + (self.rs1 << 15)
            + (self.rs2 << 20)
            + (self.funct7 << 25)
    }

    /// The parts of a word whose upper 20 bits are a number.
    pub fn with_upper(opcode: u32, rd: u32, upper: u32) -> Parts
        requires opcode { opcode < 2 ^ 7 }
        requires rd { rd < 2 ^ 5 }
        requires upper { upper < 2 ^ 20 }
        ensures { seen_parts result ≡ upper_parts opcode rd upper }
    {
        Parts {
            opcode,
            rd,
            funct3: upper % (1 << 3),
            rs1: (upper >> 3) % (1 << 5),
            rs2: (upper >> 8) % (1 << 5),
            funct7: upper >> 13,
        }
    }

    /// The upper 20 bits as a number.
    pub fn upper(&self) -> u32
        ensures { result ≡ upper_bits (seen_parts self.now) }
    {
        self.funct3 + (self.rs1 << 3) + (self.rs2 << 8) + (self.funct7 << 13)
    }
}
