//! Rows of an instruction table.

ghost use Rattle.std.specs.Prelude.{◌≡◌, position};
ghost use Rattle.rv_table.specs.Rows.{has_bits};

use rv_model::Op;

/// A row: the operation's fixed bits, and the mask that has ones where they stand.
#[derive(Clone, Copy, PartialEq, Eq, Debug)]
pub struct Row {
    pub mask: u32,
    pub bits: u32,
    pub op: Op,
}

/// The number of the first row whose bits equal the word under the row's mask; None where there is none.
pub fn find<const N: usize>(rows: &[Row; N], word: u32) -> Option<usize>
    ensures { result ≡ position (has_bits word) rows.now }
{
    rows.iter().position(|row| word & row.mask == row.bits)
}
