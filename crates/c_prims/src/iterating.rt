//! The C calls that go over an array.

ghost use Rattle.std.specs.Prelude.{◌≡◌, ◌++◌, [], OnOk};
ghost use Rattle.c_prims.specs.Iterating.{iter_next_lines, fold_next_lines, fold_second_lines, iterating_lines};

use rt_layout::blocks::{HEADER, UNIT};
use rt_layout::labels::{
    C_AGAIN, C_DONE, C_FOLD, C_ITER, CALLBACK, ENTER_C, FOLD_NEXT, FOLD_SECOND, FOLD_VALUE,
    FREE_FIBER, ITER_NEXT, ITER_VALUE, LEAVE_C, RAISE,
};
use rt_layout::parts::{C_ARRAY, C_ELEM, C_F, C_INDEX};
use rt_layout::registers::{A0, A1, A2, CSP, LINK, LINK2, RA, T0, T1, ZERO};
use rt_layout::{assembly, put, put_apply_closure};
use rv_model::Line;
use std::alloc::AllocError;

// x11 becomes the address of the next element, or all are done; x10 stays.
const NEXT_ELEMENT_LINES: [Line; 9] = assembly![
    ld T0, C_INDEX, CSP;
    ld A1, C_ARRAY, CSP;
    ld T1, HEADER, A1;
    srli T1, T1, 10;
    bgeu T0, T1, C_DONE;
    addi T1, T0, 1;
    sd T1, C_INDEX, CSP;
    slli T0, T0, 3;
    add A1, A1, T0;
];

// Applies the function x10 to each element of the array x11, in C.
const C_ITER_LINES: [Line; 5] = assembly![
    label C_ITER;
    call LINK, ENTER_C;
    sd A0, C_F, CSP;
    sd A1, C_ARRAY, CSP;
    // Step: the C call's frame is put.
    sd ZERO, C_INDEX, CSP;
];

// The next element.
const ITER_NEXT_LINES: [Line; 2] = assembly![
    label ITER_NEXT;
    li A0, UNIT;
];

const ITER_APPLY_LINES: [Line; 5] = assembly![
    code T0, C_AGAIN;
    call RA, CALLBACK;
    // Step: the element is read, a segment with the foot Cut begins.
    // The word is shared.
    ld A0, 0, A1;
    ld A1, C_F, CSP;
    code RA, ITER_VALUE;
];

fn put_iter_next(lines: &mut Vec<Line>) -> Result<(), AllocError>
    ensures more { OnOk result (lines.new.items ≡ lines.old.items ++ iter_next_lines []) }
{
    put(lines, &ITER_NEXT_LINES)?;
    put(lines, &NEXT_ELEMENT_LINES)?;
    put(lines, &ITER_APPLY_LINES)?;
    // Step: the function is applied to the element.
    put_apply_closure(lines)?;
    Ok(())
}

// A callback's value.
const ITER_VALUE_LINES: [Line; 3] = assembly![
    label ITER_VALUE;
    call LINK2, FREE_FIBER;
    jump ITER_NEXT;
];

// The C call returns x10.
const C_DONE_LINES: [Line; 3] = assembly![
    label C_DONE;
    call LINK, LEAVE_C;
    // Step: all elements done: the C frame goes, its value is given.
    jr RA, 0;
];

// A callback's exception goes through the C call.
const C_AGAIN_LINES: [Line; 4] = assembly![
    label C_AGAIN;
    call LINK2, FREE_FIBER;
    call LINK, LEAVE_C;
    // Step: the segment with the foot Cut and the C frame go; the exception is raised on.
    jump RAISE;
];

// Folds the function x10 from x11 over the array x12, in C.
const C_FOLD_LINES: [Line; 6] = assembly![
    label C_FOLD;
    call LINK, ENTER_C;
    sd A0, C_F, CSP;
    sd A2, C_ARRAY, CSP;
    // Step: the C call's frame is put.
    sd ZERO, C_INDEX, CSP;
    mv A0, A1;
];

// The next element, with the value so far in x10.
const FOLD_CALLBACK_LINES: [Line; 6] = assembly![
    code T0, C_AGAIN;
    call RA, CALLBACK;
    // Step: the element is read, a segment with the foot Cut begins.
    // The word is shared.
    ld T0, 0, A1;
    sd T0, C_ELEM, CSP;
    ld A1, C_F, CSP;
    code RA, FOLD_SECOND;
];

fn put_fold_next(lines: &mut Vec<Line>) -> Result<(), AllocError>
    ensures more { OnOk result (lines.new.items ≡ lines.old.items ++ fold_next_lines []) }
{
    put(lines, &assembly![label FOLD_NEXT;])?;
    put(lines, &NEXT_ELEMENT_LINES)?;
    put(lines, &FOLD_CALLBACK_LINES)?;
    // Step: the function is applied to the first argument.
    put_apply_closure(lines)?;
    Ok(())
}

// The function's value at the first argument.
const FOLD_SECOND_LINES: [Line; 4] = assembly![
    label FOLD_SECOND;
    mv A1, A0;
    ld A0, C_ELEM, CSP;
    code RA, FOLD_VALUE;
];

fn put_fold_second(lines: &mut Vec<Line>) -> Result<(), AllocError>
    ensures more { OnOk result (lines.new.items ≡ lines.old.items ++ fold_second_lines []) }
{
    put(lines, &FOLD_SECOND_LINES)?;
    // Step: the result is applied to the element.
    put_apply_closure(lines)?;
    Ok(())
}

// A callback's value.
const FOLD_VALUE_LINES: [Line; 3] = assembly![
    label FOLD_VALUE;
    call LINK2, FREE_FIBER;
    jump FOLD_NEXT;
];

/// Writes the C calls that go over an array.
pub fn put_iterating(lines: &mut Vec<Line>) -> Result<(), AllocError>
    ensures more { OnOk result (lines.new.items ≡ lines.old.items ++ iterating_lines []) }
{
    put(lines, &C_ITER_LINES)?;
    put_iter_next(lines)?;
    put(lines, &ITER_VALUE_LINES)?;
    put(lines, &C_DONE_LINES)?;
    put(lines, &C_AGAIN_LINES)?;
    put(lines, &C_FOLD_LINES)?;
    put_fold_next(lines)?;
    put_fold_second(lines)?;
    put(lines, &FOLD_VALUE_LINES)?;
    Ok(())
}
