//! Instructions as bytes.

ghost use Rattle.std.specs.Prelude.{◌≡◌, ℕ, IfSome, Some};
ghost use Rattle.rv_model.specs.Table.{IsWellFormed, bits_of, bytes_of, decoded};
ghost use Rattle.rv_table.specs.Rows.{word_from};

use crate::table::{decode, encode};
use byteorder::{ByteOrder, LittleEndian};
use rv_model::Instr;

/// The four bytes of an instruction's word, least first.
pub fn encode_bytes(instr: &Instr) -> [u8; 4]
    requires { IsWellFormed instr.now }
    ensures is { result ≡ bytes_of (bits_of instr.now) }
    ensures back { decoded (word_from result) ≡ Some instr.now }
{
    let mut bytes = [0; 4];
    LittleEndian::write_u32(&mut bytes, encode(instr));
    bytes
}

/// The instruction of these four bytes, least first; None where no row has the bits of their word.
pub fn decode_bytes(bytes: &[u8; 4]) -> Option<Instr>
    ensures is { result ≡ decoded (word_from bytes.now) }
    ensures back { IfSome result (λ i. bytes_of (bits_of i) ≡ bytes.now) }
    ensures well_formed { IfSome result IsWellFormed }
{
    decode(LittleEndian::read_u32(bytes))
}
