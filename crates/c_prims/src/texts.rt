//! The text of an uncaught exception, which is put into the words kept for it. It is never returned from, so it
//! uses registers that otherwise stay.

ghost use Rattle.std.specs.Prelude.{◌≡◌, ◌++◌, [], OnOk};
ghost use Rattle.c_prims.specs.Texts.{texts_lines};

use rt_layout::fixed::{BEFORE_TEXT, END_UNCAUGHT, PAST_TEXT, TEXT};
use rt_layout::labels::{
    DIGITS, PUT_BYTE, STOP_RUN, TEXT_BYTE, TEXT_CHAR, TEXT_CLOSE, TEXT_DIGITS, TEXT_END,
    TEXT_ESCAPE, TEXT_INSIDE, TEXT_NAME, TEXT_NEXT, TEXT_OPEN, TEXT_OTHER, TEXT_PART, TEXT_PLAIN,
    TEXT_QUOTE, TEXT_SHOWN, TEXT_STRING, TEXT_SYMBOL, UNCAUGHT,
};
use rt_layout::parts::SYSTEM_OFFSET;
use rt_layout::registers::{
    A0, A1, A2, A3, AUX, CALL, CSP, CUR, DOM, DST, LINK, LINK2, LINK3, RA, STATIC, T0, T1, T4, ZERO,
};
use rt_layout::statics::{S_EXNS, SHOW_OPEN, SHOW_STRING};
use rt_layout::{assembly, put};
use rv_model::Line;
use std::alloc::AllocError;

// Puts the byte x6 at x16 where the text has room. Linked by x31.
const TEXT_BYTE_LINES: [Line; 5] = assembly![
    label TEXT_BYTE;
    li T1, PAST_TEXT;
    beq DST, T1, TEXT_END;
    call LINK, PUT_BYTE;
    jr LINK2, 0;
];

// Ends the run by the exception x10.
const UNCAUGHT_LINES: [Line; 16] = assembly![
    label UNCAUGHT;
    li DST, TEXT;
    ld T0, 0, A0;
    ld T1, S_EXNS, STATIC;
    srai T0, T0, 1;
    slli T0, T0, 3;
    add T0, T0, T1;
    // The constructor's record.
    ld CALL, 0, T0;
    // Where the next field is.
    addi LINK3, A0, 8;
    ld CUR, 0, CALL;
    andi RA, CUR, 1;
    srli CUR, CUR, 1;
    addi A3, CALL, 8;
    addi CALL, CUR, 7;
    andi CALL, CALL, -8;
    add CALL, CALL, A3;
];

// The next byte of its name.
const TEXT_NAME_LINES: [Line; 10] = assembly![
    label TEXT_NAME;
    lbu T0, 0, A3;
    call LINK2, TEXT_BYTE;
    addi A3, A3, 1;
    addi CUR, CUR, -1;
    bne CUR, ZERO, TEXT_NAME;
    beq RA, ZERO, TEXT_END;
    li T0, b'(' as u64;
    call LINK2, TEXT_BYTE;
    // It is 1 after the first part.
    li A2, 0;
];

// The next symbol of its argument.
const TEXT_NEXT_LINES: [Line; 16] = assembly![
    label TEXT_NEXT;
    li T0, 1;
    bne RA, T0, TEXT_SYMBOL;
    ld RA, 0, CALL;
    addi CALL, CALL, 8;
    label TEXT_SYMBOL;
    andi A1, RA, 7;
    srli RA, RA, 3;
    andi T0, A1, 3;
    li T1, SHOW_OPEN;
    beq T0, T1, TEXT_OPEN;
    beq A2, ZERO, TEXT_PART;
    li T0, b',' as u64;
    call LINK2, TEXT_BYTE;
    li T0, b' ' as u64;
    call LINK2, TEXT_BYTE;
];

// Shows a part.
const TEXT_PART_LINES: [Line; 8] = assembly![
    label TEXT_PART;
    li A2, 1;
    ld A0, 0, LINK3;
    andi T0, A1, 3;
    li T1, SHOW_STRING;
    beq T0, T1, TEXT_STRING;
    bltu T1, T0, TEXT_OTHER;
    call LINK, DIGITS;
];

// The next digit.
const TEXT_DIGITS_LINES: [Line; 10] = assembly![
    label TEXT_DIGITS;
    lbu T0, 0, A3;
    call LINK2, TEXT_BYTE;
    addi A3, A3, 1;
    addi CUR, CUR, -1;
    bne CUR, ZERO, TEXT_DIGITS;
    jump TEXT_SHOWN;
    label TEXT_OTHER;
    li T0, b'_' as u64;
    call LINK2, TEXT_BYTE;
];

// The part is shown.
const TEXT_SHOWN_LINES: [Line; 10] = assembly![
    label TEXT_SHOWN;
    addi LINK3, LINK3, 8;
    andi T0, A1, 4;
    beq T0, ZERO, TEXT_NEXT;
    // The last part: back to the tuple that goes on.
    li T0, SYSTEM_OFFSET;
    add T0, T0, DOM;
    beq CSP, T0, TEXT_CLOSE;
    addi CSP, CSP, -8;
    ld LINK3, 0, CSP;
    jump TEXT_NEXT;
];

// A tuple.
const TEXT_OPEN_LINES: [Line; 9] = assembly![
    label TEXT_OPEN;
    andi T0, A1, 4;
    bne T0, ZERO, TEXT_INSIDE;
    addi T0, LINK3, 8;
    sd T0, 0, CSP;
    addi CSP, CSP, 8;
    label TEXT_INSIDE;
    ld LINK3, 0, LINK3;
    jump TEXT_NEXT;
];

// The bracket behind all parts.
const TEXT_CLOSE_LINES: [Line; 9] = assembly![
    label TEXT_CLOSE;
    li T0, b')' as u64;
    call LINK2, TEXT_BYTE;
    label TEXT_END;
    addi A3, DST, BEFORE_TEXT;
    li A2, END_UNCAUGHT;
    li CUR, 0;
    li AUX, 0;
    jump STOP_RUN;
];

// A string in quotes.
const TEXT_STRING_LINES: [Line; 6] = assembly![
    label TEXT_STRING;
    li T0, b'"' as u64;
    call LINK2, TEXT_BYTE;
    ld CUR, 0, A0;
    addi A3, A0, 8;
    beq CUR, ZERO, TEXT_QUOTE;
];

// Its next byte.
const TEXT_CHAR_LINES: [Line; 9] = assembly![
    label TEXT_CHAR;
    lbu T4, 0, A3;
    li T0, b'"' as u64;
    beq T4, T0, TEXT_ESCAPE;
    li T0, b'\\' as u64;
    beq T4, T0, TEXT_ESCAPE;
    li T0, 10;
    bne T4, T0, TEXT_PLAIN;
    li T4, b'n' as u64;
];

// A backslash before it.
const TEXT_ESCAPE_LINES: [Line; 9] = assembly![
    label TEXT_ESCAPE;
    li T0, b'\\' as u64;
    call LINK2, TEXT_BYTE;
    label TEXT_PLAIN;
    mv T0, T4;
    call LINK2, TEXT_BYTE;
    addi A3, A3, 1;
    addi CUR, CUR, -1;
    bne CUR, ZERO, TEXT_CHAR;
];

// The quote behind it.
const TEXT_QUOTE_LINES: [Line; 4] = assembly![
    label TEXT_QUOTE;
    li T0, b'"' as u64;
    call LINK2, TEXT_BYTE;
    jump TEXT_SHOWN;
];

/// Writes the routine that writes the text of an uncaught exception.
pub fn put_texts(lines: &mut Vec<Line>) -> Result<(), AllocError>
    ensures more { OnOk result (lines.new.items ≡ lines.old.items ++ texts_lines []) }
{
    put(lines, &TEXT_BYTE_LINES)?;
    put(lines, &UNCAUGHT_LINES)?;
    put(lines, &TEXT_NAME_LINES)?;
    put(lines, &TEXT_NEXT_LINES)?;
    put(lines, &TEXT_PART_LINES)?;
    put(lines, &TEXT_DIGITS_LINES)?;
    put(lines, &TEXT_SHOWN_LINES)?;
    put(lines, &TEXT_OPEN_LINES)?;
    put(lines, &TEXT_CLOSE_LINES)?;
    put(lines, &TEXT_STRING_LINES)?;
    put(lines, &TEXT_CHAR_LINES)?;
    put(lines, &TEXT_ESCAPE_LINES)?;
    put(lines, &TEXT_QUOTE_LINES)?;
    Ok(())
}
