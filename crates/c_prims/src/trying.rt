//! The C call that catches exceptions.

ghost use Rattle.std.specs.Prelude.{◌≡◌, ◌++◌, [], OnOk};
ghost use Rattle.c_prims.specs.Trying.{c_try_lines, some_lines, trying_lines};

use rt_layout::blocks::{NONE, TAG_PLAIN, UNIT};
use rt_layout::labels::{C_TRY, CALLBACK, ENTER_C, FREE_FIBER, LEAVE_C, SOME, TRY_EXN, TRY_VALUE};
use rt_layout::registers::{A0, A1, LINK, LINK2, NEW, RA, T0};
use rt_layout::{assembly, header, put, put_apply_closure, put_new_block};
use rv_model::Line;
use std::alloc::AllocError;

// Applies the function x10 to unit, in C: `Some` of its value, or `None` where it raises.
const C_TRY_LINES: [Line; 7] = assembly![
    label C_TRY;
    call LINK, ENTER_C;
    mv A1, A0;
    li A0, UNIT;
    code T0, TRY_EXN;
    call RA, CALLBACK;
    code RA, TRY_VALUE;
];

fn put_c_try(lines: &mut Vec<Line>) -> Result<(), AllocError>
    ensures more { OnOk result (lines.new.items ≡ lines.old.items ++ c_try_lines []) }
{
    put(lines, &C_TRY_LINES)?;
    // Step: c_try: its frame is put, a segment begins, the function is applied to ().
    put_apply_closure(lines)?;
    Ok(())
}

// The callback's exception.
const TRY_EXN_LINES: [Line; 5] = assembly![
    label TRY_EXN;
    call LINK2, FREE_FIBER;
    call LINK, LEAVE_C;
    // Step: c_try gives None.
    li A0, NONE;
    jr RA, 0;
];

// The callback's value.
const TRY_VALUE_LINES: [Line; 3] = assembly![
    label TRY_VALUE;
    call LINK2, FREE_FIBER;
    call LINK, LEAVE_C;
];

// x10 is `Some` of x10.
const SOME_LINES: [Line; 3] = assembly![
    sd A0, 0, NEW;
    mv A0, NEW;
    jr RA, 0;
];

fn put_some(lines: &mut Vec<Line>) -> Result<(), AllocError>
    ensures more { OnOk result (lines.new.items ≡ lines.old.items ++ some_lines []) }
{
    put(lines, &assembly![label SOME;])?;
    put_new_block(lines, NEW, 2, header!(1, TAG_PLAIN))?;
    put(lines, &SOME_LINES)?;
    Ok(())
}

/// Writes the C call that catches exceptions.
pub fn put_trying(lines: &mut Vec<Line>) -> Result<(), AllocError>
    ensures more { OnOk result (lines.new.items ≡ lines.old.items ++ trying_lines []) }
{
    put_c_try(lines)?;
    put(lines, &TRY_EXN_LINES)?;
    put(lines, &TRY_VALUE_LINES)?;
    put_some(lines)?;
    Ok(())
}
