//! Exceptions that a program asks for, and its exit.

ghost use Rattle.std.specs.Prelude.{◌≡◌, ◌++◌, [], OnOk};
ghost use Rattle.c_prims.specs.Arithmetic.{raise_given_lines, zero_divisor_lines, arithmetic_lines};

use rt_layout::fixed::END_EXITED;
use rt_layout::labels::{EXIT, FAILWITH, INVALID_ARG, RAISE_NEW, STOP_RUN, ZERO_DIVISOR};
use rt_layout::registers::{A0, A2, A3, AUX, CUR};
use rt_layout::statics::{EXN_DIVISION_BY_ZERO, EXN_FAILURE, EXN_INVALID_ARGUMENT};
use rt_layout::{assembly, put, put_raise, tagged};
use rv_model::Line;
use std::alloc::AllocError;

// Raises the exception of a number with the text x10.
fn put_raise_given(lines: &mut Vec<Line>, start: u32, number: u64) -> Result<(), AllocError>
    ensures more { OnOk result (lines.new.items ≡ lines.old.items ++ raise_given_lines start number []) }
{
    put(
        lines,
        &assembly![
            label start;
            li CUR, tagged(number);
            mv AUX, A0;
            jump RAISE_NEW;
        ],
    )
}

// Raises `Division_by_zero`.
fn put_zero_divisor(lines: &mut Vec<Line>) -> Result<(), AllocError>
    ensures more { OnOk result (lines.new.items ≡ lines.old.items ++ zero_divisor_lines []) }
{
    put(lines, &assembly![label ZERO_DIVISOR;])?;
    put_raise(lines, EXN_DIVISION_BY_ZERO)?;
    Ok(())
}

// Ends the run with the status x10.
const EXIT_LINES: [Line; 7] = assembly![
    label EXIT;
    srai A3, A0, 1;
    andi A3, A3, 255;
    li A2, END_EXITED;
    li CUR, 0;
    li AUX, 0;
    jump STOP_RUN;
];

/// Writes the exceptions and the exit that a program asks for.
pub fn put_arithmetic(lines: &mut Vec<Line>) -> Result<(), AllocError>
    ensures more { OnOk result (lines.new.items ≡ lines.old.items ++ arithmetic_lines []) }
{
    put_zero_divisor(lines)?;
    put_raise_given(lines, FAILWITH, EXN_FAILURE)?;
    put_raise_given(lines, INVALID_ARG, EXN_INVALID_ARGUMENT)?;
    put(lines, &EXIT_LINES)?;
    Ok(())
}
