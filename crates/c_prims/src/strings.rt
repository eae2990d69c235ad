//! Strings are made, and exceptions with a text of the run's own.

ghost use Rattle.std.specs.Prelude.{◌≡◌, ◌++◌, [], OnOk};
ghost use Rattle.c_prims.specs.Strings.{sub_bad_lines, index_bad_lines, chr_bad_lines, strings_lines};

use rt_layout::blocks::{HEADER, TAG_STRING};
use rt_layout::labels::{
    ALLOC_LARGE, CHR_BAD, CONCAT, DIGITS, INDEX_BAD, NEW_STRING, PUT_BYTES, STRING_COPY,
    STRING_OF_INT, STRING_SUB, SUB_BAD,
};
use rt_layout::registers::{A0, A1, A2, A3, CUR, DST, LINK, LINK2, NEW, RA, T0, T1, T4};
use rt_layout::statics::{EXN_INVALID_ARGUMENT, S_CHAR_CHR, S_INDEX_OUT_OF_BOUNDS, S_STRING_SUB};
use rt_layout::{assembly, put, put_raise_text};
use rv_model::Line;
use std::alloc::AllocError;

// Makes a string of x14 bytes, all 0: x30, its bytes at x16. Linked by x31.
const NEW_STRING_LINES: [Line; 12] = assembly![
    label NEW_STRING;
    addi T4, CUR, 7;
    srli T4, T4, 3;
    addi T1, T4, 2;
    call LINK, ALLOC_LARGE;
    addi T4, T4, 1;
    slli T4, T4, 10;
    addi T4, T4, TAG_STRING;
    sd T4, HEADER, NEW;
    sd CUR, 0, NEW;
    addi DST, NEW, 8;
    jr LINK2, 0;
];

// The decimal text of an integer.
const STRING_OF_INT_LINES: [Line; 7] = assembly![
    label STRING_OF_INT;
    call LINK, DIGITS;
    call LINK2, NEW_STRING;
    label STRING_COPY;
    call LINK, PUT_BYTES;
    mv A0, NEW;
    jr RA, 0;
];

// The strings x10 and x11 one behind the other.
const CONCAT_LINES: [Line; 11] = assembly![
    label CONCAT;
    ld T0, 0, A0;
    ld CUR, 0, A1;
    add CUR, CUR, T0;
    call LINK2, NEW_STRING;
    ld CUR, 0, A0;
    addi A3, A0, 8;
    call LINK, PUT_BYTES;
    ld CUR, 0, A1;
    addi A3, A1, 8;
    jump STRING_COPY;
];

// The part of the string x10 that begins at x11 and has x12 bytes.
const STRING_SUB_LINES: [Line; 12] = assembly![
    label STRING_SUB;
    srai A1, A1, 1;
    srai A2, A2, 1;
    ld T0, 0, A0;
    // A negative number is a great one without sign.
    bltu T0, A1, SUB_BAD;
    sub T0, T0, A1;
    bltu T0, A2, SUB_BAD;
    mv CUR, A2;
    call LINK2, NEW_STRING;
    add A3, A0, A1;
    addi A3, A3, 8;
    jump STRING_COPY;
];

// It isn't within the string.
fn put_sub_bad(lines: &mut Vec<Line>) -> Result<(), AllocError>
    ensures more { OnOk result (lines.new.items ≡ lines.old.items ++ sub_bad_lines []) }
{
    put(lines, &assembly![label SUB_BAD;])?;
    put_raise_text(lines, EXN_INVALID_ARGUMENT, S_STRING_SUB)?;
    Ok(())
}

// Raises `Invalid_argument` for an index.
fn put_index_bad(lines: &mut Vec<Line>) -> Result<(), AllocError>
    ensures more { OnOk result (lines.new.items ≡ lines.old.items ++ index_bad_lines []) }
{
    put(lines, &assembly![label INDEX_BAD;])?;
    put_raise_text(lines, EXN_INVALID_ARGUMENT, S_INDEX_OUT_OF_BOUNDS)?;
    Ok(())
}

// Raises `Invalid_argument` for `Char.chr`.
fn put_chr_bad(lines: &mut Vec<Line>) -> Result<(), AllocError>
    ensures more { OnOk result (lines.new.items ≡ lines.old.items ++ chr_bad_lines []) }
{
    put(lines, &assembly![label CHR_BAD;])?;
    put_raise_text(lines, EXN_INVALID_ARGUMENT, S_CHAR_CHR)?;
    Ok(())
}

/// Writes the routines that make strings.
pub fn put_strings(lines: &mut Vec<Line>) -> Result<(), AllocError>
    ensures more { OnOk result (lines.new.items ≡ lines.old.items ++ strings_lines []) }
{
    put(lines, &NEW_STRING_LINES)?;
    put(lines, &STRING_OF_INT_LINES)?;
    put(lines, &CONCAT_LINES)?;
    put(lines, &STRING_SUB_LINES)?;
    put_sub_bad(lines)?;
    put_index_bad(lines)?;
    put_chr_bad(lines)?;
    Ok(())
}
