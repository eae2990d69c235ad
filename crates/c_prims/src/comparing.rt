//! Strings are compared.

ghost use Rattle.std.specs.Prelude.{◌≡◌, ◌++◌, [], OnOk};
ghost use Rattle.c_prims.specs.Comparing.{comparing_lines};

use rt_layout::labels::{
    STR_BOTH, STR_BYTES, STR_DIFFER, STR_END, STR_EQUAL, STR_GREATER, STR_LESS, STR_ORDER,
    STR_SAME, STR_WORDS,
};
use rt_layout::parts::MINUS_ONE;
use rt_layout::registers::{LINK, LINK2, NEW, T0, T1, T3, T4, ZERO};
use rt_layout::{assembly, put};
use rv_model::Line;
use std::alloc::AllocError;

// x6 is 1 where the strings x30 and x7 are equal, else 0. Linked by x5.
const STR_SAME_LINES: [Line; 7] = assembly![
    label STR_SAME;
    ld T0, 0, NEW;
    ld T3, 0, T1;
    bne T0, T3, STR_DIFFER;
    addi T0, T0, 7;
    srli T0, T0, 3;
    beq T0, ZERO, STR_EQUAL;
];

// Looks at the next word.
const STR_WORDS_LINES: [Line; 14] = assembly![
    label STR_WORDS;
    addi NEW, NEW, 8;
    addi T1, T1, 8;
    ld T3, 0, NEW;
    ld T4, 0, T1;
    bne T3, T4, STR_DIFFER;
    addi T0, T0, -1;
    bne T0, ZERO, STR_WORDS;
    label STR_EQUAL;
    li T0, 1;
    jr LINK, 0;
    label STR_DIFFER;
    li T0, 0;
    jr LINK, 0;
];

// x6 is -1, 0 or 1 as the string x30 stands before, at or behind x31. Linked by x5.
const STR_ORDER_LINES: [Line; 5] = assembly![
    label STR_ORDER;
    ld T0, 0, NEW;
    ld T1, 0, LINK2;
    beq T0, ZERO, STR_END;
    beq T1, ZERO, STR_GREATER;
];

// Looks at the next byte.
const STR_BYTES_LINES: [Line; 11] = assembly![
    label STR_BYTES;
    lbu T3, 8, NEW;
    lbu T4, 8, LINK2;
    bltu T3, T4, STR_LESS;
    bltu T4, T3, STR_GREATER;
    addi NEW, NEW, 1;
    addi LINK2, LINK2, 1;
    addi T0, T0, -1;
    addi T1, T1, -1;
    beq T0, ZERO, STR_END;
    bne T1, ZERO, STR_BYTES;
];

// x30 is the greater one.
const STR_GREATER_LINES: [Line; 11] = assembly![
    label STR_GREATER;
    li T0, 1;
    jr LINK, 0;
    label STR_END;
    beq T1, ZERO, STR_BOTH;
    label STR_LESS;
    li T0, MINUS_ONE;
    jr LINK, 0;
    label STR_BOTH;
    li T0, 0;
    jr LINK, 0;
];

/// Writes the routines that compare strings.
pub fn put_comparing(lines: &mut Vec<Line>) -> Result<(), AllocError>
    ensures more { OnOk result (lines.new.items ≡ lines.old.items ++ comparing_lines []) }
{
    put(lines, &STR_SAME_LINES)?;
    put(lines, &STR_WORDS_LINES)?;
    put(lines, &STR_ORDER_LINES)?;
    put(lines, &STR_BYTES_LINES)?;
    put(lines, &STR_GREATER_LINES)?;
    Ok(())
}
