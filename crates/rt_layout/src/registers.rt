//! The registers. Those that no comment tells apart hold nothing across a call.

/// Always 0.
pub const ZERO: u8 = 0;
/// Where compiled functions, the bodies of effect clauses and public routines return to.
pub const RA: u8 = 1;
/// The running function's frame begins 40 bytes below; slot i is 24 bytes below, plus 8 i.
pub const SP: u8 = 2;
/// The high end of the running fiber's stack.
pub const FIBER: u8 = 3;
/// The domain register: the test area of this hart's part.
pub const DOM: u8 = 4;
/// Where leaf routines return to.
pub const LINK: u8 = 5;
/// A temporary.
pub const T0: u8 = 6;
/// A temporary.
pub const T1: u8 = 7;
/// From the innermost exception frame up to the stack's high end, in bytes.
pub const EXN: u8 = 8;
/// The least that `SP` may be.
pub const LIMIT: u8 = 9;
/// A value: a result, a function's last argument. The first of the eight registers that values of slots
/// are kept in between calls.
pub const A0: u8 = 10;
/// The closure that is called, or the handler record.
pub const A1: u8 = 11;
/// An argument.
pub const A2: u8 = 12;
/// An argument; the fiber in a search for a handler.
pub const A3: u8 = 13;
/// An argument; scratch of routines.
pub const CUR: u8 = 14;
/// Scratch and an argument of routines.
pub const AUX: u8 = 15;
/// Where bytes are put.
pub const DST: u8 = 16;
/// The number of the environment's call. The last register that values of slots are kept in.
pub const CALL: u8 = 17;
/// One past the top frame of the domain's system stack.
pub const CSP: u8 = 18;
/// The domain register of slot 0; it stays.
pub const FIRST: u8 = 19;
/// The bytes of a domain's part; it stays.
pub const PART: u8 = 20;
/// The greatest number of words of a stack; it stays.
pub const STACK: u8 = 21;
/// Where `GROW` and `NEW_FIBER` return to; the body of the clause in a capture.
pub const LINK3: u8 = 22;
/// The address of the heap's cursor; it stays.
pub const HCUR: u8 = 23;
/// The word 1, which is 0, the unit, false, `[]` and `None`; it stays.
pub const ONE: u8 = 24;
/// The first byte of the static words; it stays.
pub const STATIC: u8 = 25;
/// The first byte of the heap, plus 8; it stays.
pub const HEAP: u8 = 26;
/// The words of the heap; it stays.
pub const HSIZE: u8 = 27;
/// A temporary.
pub const T3: u8 = 28;
/// A temporary.
pub const T4: u8 = 29;
/// A new block.
pub const NEW: u8 = 30;
/// Where `TAKE_STACK`, `FREE_FIBER`, `MAKE_CONT` and `NEW_STRING` return to.
pub const LINK2: u8 = 31;
