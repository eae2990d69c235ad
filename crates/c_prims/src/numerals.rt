//! Decimal texts of integers.

ghost use Rattle.std.specs.Prelude.{◌≡◌, ◌++◌, [], OnOk};
ghost use Rattle.c_prims.specs.Numerals.{digits_next_lines, digits_lines};

use rt_layout::labels::{DIGITS, DIGITS_BEGIN, DIGITS_END, DIGITS_NEXT};
use rt_layout::parts::M_DIGITS;
use rt_layout::registers::{A0, A3, AUX, CUR, DOM, LINK, NEW, T0, T1, T3, T4, ZERO};
use rt_layout::{assembly, put};
use rv_model::Line;
use std::alloc::AllocError;

// Puts the byte x15 before the others, of which x14 counts the bytes: they are in x6, x7 and x28,
// the first in the lowest byte of x6.
const PUT_DIGIT_LINES: [Line; 9] = assembly![
    slli T3, T3, 8;
    srli NEW, T1, 56;
    or T3, T3, NEW;
    slli T1, T1, 8;
    srli NEW, T0, 56;
    or T1, T1, NEW;
    slli T0, T0, 8;
    or T0, T0, AUX;
    addi CUR, CUR, 1;
];

// The decimal text of the integer x10: x13 is where it is, x14 how long. Linked by x5.
const DIGITS_BEGIN_LINES: [Line; 10] = assembly![
    label DIGITS;
    srai A0, A0, 1;
    slt T4, A0, ZERO;
    bge A0, ZERO, DIGITS_BEGIN;
    sub A0, ZERO, A0;
    label DIGITS_BEGIN;
    li T0, 0;
    li T1, 0;
    li T3, 0;
    li CUR, 0;
];

// The last digit of x10 goes before the others.
const DIGITS_NEXT_LINES: [Line; 5] = assembly![
    label DIGITS_NEXT;
    li NEW, 10;
    remu AUX, A0, NEW;
    divu A0, A0, NEW;
    addi AUX, AUX, 48;
];

const DIGITS_SIGN_LINES: [Line; 3] = assembly![
    bne A0, ZERO, DIGITS_NEXT;
    beq T4, ZERO, DIGITS_END;
    li AUX, 45;
];

fn put_digits_next(lines: &mut Vec<Line>) -> Result<(), AllocError>
    ensures more { OnOk result (lines.new.items ≡ lines.old.items ++ digits_next_lines []) }
{
    put(lines, &DIGITS_NEXT_LINES)?;
    put(lines, &PUT_DIGIT_LINES)?;
    put(lines, &DIGITS_SIGN_LINES)?;
    put(lines, &PUT_DIGIT_LINES)?;
    Ok(())
}

// The text is whole.
const DIGITS_END_LINES: [Line; 6] = assembly![
    label DIGITS_END;
    addi A3, DOM, M_DIGITS;
    sd T0, 0, A3;
    sd T1, 8, A3;
    sd T3, 16, A3;
    jr LINK, 0;
];

/// Writes the routine of decimal texts.
pub fn put_digits(lines: &mut Vec<Line>) -> Result<(), AllocError>
    ensures more { OnOk result (lines.new.items ≡ lines.old.items ++ digits_lines []) }
{
    put(lines, &DIGITS_BEGIN_LINES)?;
    put_digits_next(lines)?;
    put(lines, &DIGITS_END_LINES)?;
    Ok(())
}
