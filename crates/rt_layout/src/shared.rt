//! The lines that several routines have in common.

ghost use Rattle.std.specs.Prelude.{◌≡◌, ℕ, ℤ, List, [], ◌∷◌, ◌++◌, OnOk};
ghost use Rattle.rt_layout.specs.Shared.{save_lines, load_lines, enter_lines, root_fiber_lines, apply_closure_lines, raise_plain_lines, raise_text_lines};

use crate::allocation::put;
use crate::assembly;
use crate::blocks::{UNIT, tagged};
use crate::labels::{NEW_FIBER, RAISE_NEW, ROOT_EXN};
use crate::registers::{A1, A2, AUX, CUR, EXN, FIBER, LIMIT, LINK, LINK3, NEW, RA, SP, STATIC, T0};
use crate::stacks::{BASE_EXN, F_EXN, F_LIMIT, F_RA, F_SP, SP_START};
use rv_model::Line;
use std::alloc::AllocError;

const SAVE_LINES: [Line; 3] = assembly![
    sd SP, F_SP, FIBER;
    sd RA, F_RA, FIBER;
    sd EXN, F_EXN, FIBER;
];

const LOAD_LINES: [Line; 4] = assembly![
    ld SP, F_SP, FIBER;
    ld RA, F_RA, FIBER;
    ld EXN, F_EXN, FIBER;
    ld LIMIT, F_LIMIT, FIBER;
];

const ENTER_LINES: [Line; 4] = assembly![
    mv FIBER, NEW;
    addi SP, FIBER, SP_START;
    li EXN, BASE_EXN;
    ld LIMIT, F_LIMIT, FIBER;
];

const ROOT_FIBER_LINES: [Line; 4] = assembly![
    li A2, 0;
    li CUR, 0;
    code T0, ROOT_EXN;
    call LINK3, NEW_FIBER;
];

const APPLY_CLOSURE_LINES: [Line; 2] = assembly![
    ld LINK, 0, A1;
    jr LINK, 0;
];

/// Writes the code that saves the running fiber's registers in its stack: always these lines in this
/// order.
pub fn put_save(lines: &mut Vec<Line>) -> Result<(), AllocError>
    ensures more { OnOk result (lines.new.items ≡ lines.old.items ++ save_lines []) }
{
    put(lines, &SAVE_LINES)
}

/// Writes the code that loads the registers of the fiber in x3: always these lines in this order.
pub fn put_load(lines: &mut Vec<Line>) -> Result<(), AllocError>
    ensures more { OnOk result (lines.new.items ≡ lines.old.items ++ load_lines []) }
{
    put(lines, &LOAD_LINES)
}

/// Writes the code that makes x30, a fiber without frames, the running one.
pub fn put_enter(lines: &mut Vec<Line>) -> Result<(), AllocError>
    ensures more { OnOk result (lines.new.items ≡ lines.old.items ++ enter_lines []) }
{
    put(lines, &ENTER_LINES)
}

/// Writes the code that makes a fiber without parent and handler the running one.
pub fn put_root_fiber(lines: &mut Vec<Line>) -> Result<(), AllocError>
    ensures more { OnOk result (lines.new.items ≡ lines.old.items ++ root_fiber_lines []) }
{
    put(lines, &ROOT_FIBER_LINES)?;
    put_enter(lines)
}

/// Writes the jump into the closure in x11 with the argument in x10.
pub fn put_apply_closure(lines: &mut Vec<Line>) -> Result<(), AllocError>
    ensures more { OnOk result (lines.new.items ≡ lines.old.items ++ apply_closure_lines []) }
{
    put(lines, &APPLY_CLOSURE_LINES)
}

/// Writes the jump that raises the built-in exception of a number, which has no argument.
pub fn put_raise(lines: &mut Vec<Line>, number: u64) -> Result<(), AllocError>
    ensures more { OnOk result (lines.new.items ≡ lines.old.items ++ raise_plain_lines number []) }
{
    put(
        lines,
        &assembly![
            li CUR, tagged(number);
            li AUX, UNIT;
            jump RAISE_NEW;
        ],
    )
}

/// Writes the jump that raises the built-in exception of a number with a static text as its argument.
pub fn put_raise_text(lines: &mut Vec<Line>, number: u64, text: i64) -> Result<(), AllocError>
    ensures more { OnOk result (lines.new.items ≡ lines.old.items ++ raise_text_lines number text []) }
{
    put(
        lines,
        &assembly![
            li CUR, tagged(number);
            addi AUX, STATIC, text;
            jump RAISE_NEW;
        ],
    )
}
