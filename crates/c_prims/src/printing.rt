//! Printing.

ghost use Rattle.std.specs.Prelude.{◌≡◌, ◌++◌, [], OnOk};
ghost use Rattle.c_prims.specs.Printing.{print_text_lines, printing_lines};

use rt_layout::labels::{
    DIGITS, PRINT_BYTES, PRINT_CHAR, PRINT_ENDLINE, PRINT_INT, PRINT_NEWLINE, PRINT_STRING,
};
use rt_layout::parts::M_DIGITS;
use rt_layout::registers::{A0, A2, A3, CUR, DOM, LINK};
use rt_layout::{assembly, put};
use rv_model::Line;
use std::alloc::AllocError;

// Prints the string x10 and so many newlines.
fn put_print_text(lines: &mut Vec<Line>, start: u32, newlines: u64) -> Result<(), AllocError>
    ensures more { OnOk result (lines.new.items ≡ lines.old.items ++ print_text_lines start newlines []) }
{
    put(
        lines,
        &assembly![
            label start;
            ld CUR, 0, A0;
            addi A3, A0, 8;
            li A2, newlines;
            jump PRINT_BYTES;
        ],
    )
}

// Prints an integer.
const PRINT_INT_LINES: [Line; 4] = assembly![
    label PRINT_INT;
    call LINK, DIGITS;
    li A2, 0;
    jump PRINT_BYTES;
];

// Prints a character.
const PRINT_CHAR_LINES: [Line; 7] = assembly![
    label PRINT_CHAR;
    srai A0, A0, 1;
    sd A0, M_DIGITS, DOM;
    addi A3, DOM, M_DIGITS;
    li CUR, 1;
    li A2, 0;
    jump PRINT_BYTES;
];

// Prints a newline.
const PRINT_NEWLINE_LINES: [Line; 4] = assembly![
    label PRINT_NEWLINE;
    li CUR, 0;
    li A2, 1;
    jump PRINT_BYTES;
];

/// Writes the routines that print.
pub fn put_printing(lines: &mut Vec<Line>) -> Result<(), AllocError>
    ensures more { OnOk result (lines.new.items ≡ lines.old.items ++ printing_lines []) }
{
    put(lines, &PRINT_INT_LINES)?;
    put(lines, &PRINT_CHAR_LINES)?;
    put_print_text(lines, PRINT_STRING, 0)?;
    put_print_text(lines, PRINT_ENDLINE, 1)?;
    put(lines, &PRINT_NEWLINE_LINES)?;
    Ok(())
}
