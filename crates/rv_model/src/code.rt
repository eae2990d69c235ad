//! Code.

ghost use Rattle.std.specs.Prelude.{◌≡◌, ◌≤◌, ◌<◌, ◌++◌, ◌∷◌, [], length, OnOk, OnErr};
ghost use Rattle.rv_model.specs.Table.{AreWellFormed, IsWellFormed};

use crate::instr::Instr;
use std::alloc::{AllocError, Global};
use std::marker::Model;

/// At most 262,144 instructions, each of them well-formed. Contracts see the list of them.
#[derive(Debug, Drop)]
pub struct Code {
    instrs: Vec<Instr>,
}

impl Model for Code {
    ghost use Rattle.std.specs.Prelude.{List, ◌≤◌, length};
    ghost use Rattle.rv_model.specs.declared.instr.Instr.{Instr as InstrOf};
    ghost use Rattle.rv_model.specs.Table.{AreWellFormed};

    ghost Value = { List InstrOf };

    ghost view = { λ inside. inside.instrs.items };

    ghost invariant = { λ inside.
        (length inside.instrs.items ≤ 262144) × AreWellFormed inside.instrs.items };
}

impl Code {
    /// Takes the instructions; no memory is taken.
    pub fn new(instrs: Vec<Instr>) -> Code
        requires short { length instrs.items ≤ 262144 }
        requires well_formed { AreWellFormed instrs.items }
        ensures { result ≡ instrs.items }
    {
        Code { instrs }
    }

    pub fn empty(alloc: Global) -> Code
        ensures { result ≡ [] }
    {
        Code {
            instrs: Vec::new(alloc),
        }
    }

    /// Puts one more instruction at the end. Refused only for want of memory; nothing is changed then.
    pub fn push(&mut self, instr: Instr) -> Result<(), AllocError>
        requires short { length self.old < 262144 }
        requires well_formed { IsWellFormed instr }
        ensures ok { OnOk result (self.new ≡ self.old ++ instr ∷ []) }
        ensures err { OnErr result (self.new ≡ self.old) }
    {
        self.instrs.push(instr)?;
        Ok(())
    }

    pub fn instrs(&self) -> &[Instr]
        ensures list { result.now ≡ self.now }
        ensures short { length self.now ≤ 262144 }
        ensures well_formed { AreWellFormed self.now }
    {
        self.instrs.as_slice()
    }

    /// Gives the instructions back; no memory is taken.
    pub fn into_instrs(self) -> Vec<Instr>
        ensures { result.items ≡ self }
    {
        let Code { instrs } = self;
        instrs
    }
}
