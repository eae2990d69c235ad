//! Arrays are made.

ghost use Rattle.std.specs.Prelude.{◌≡◌, ◌++◌, [], OnOk};
ghost use Rattle.c_prims.specs.Arrays.{make_bad_lines, arrays_lines};

use rt_layout::blocks::HEADER;
use rt_layout::labels::{ALLOC_LARGE, ARRAY_MAKE, MAKE_BAD, MAKE_END, MAKE_NEXT};
use rt_layout::registers::{A0, A1, LINK, NEW, RA, T0, T1, ZERO};
use rt_layout::statics::{EXN_INVALID_ARGUMENT, S_ARRAY_MAKE};
use rt_layout::{assembly, put, put_raise_text};
use rv_model::Line;
use std::alloc::AllocError;

// An array of x10 elements x11.
const ARRAY_MAKE_LINES: [Line; 17] = assembly![
    label ARRAY_MAKE;
    srai A0, A0, 1;
    blt A0, ZERO, MAKE_BAD;
    addi T1, A0, 1;
    call LINK, ALLOC_LARGE;
    slli T0, A0, 10;
    sd T0, HEADER, NEW;
    mv T1, NEW;
    beq A0, ZERO, MAKE_END;
    label MAKE_NEXT;
    sd A1, 0, T1;
    addi T1, T1, 8;
    addi A0, A0, -1;
    bne A0, ZERO, MAKE_NEXT;
    label MAKE_END;
    mv A0, NEW;
    jr RA, 0;
];

// The length is negative.
fn put_make_bad(lines: &mut Vec<Line>) -> Result<(), AllocError>
    ensures more { OnOk result (lines.new.items ≡ lines.old.items ++ make_bad_lines []) }
{
    put(lines, &assembly![label MAKE_BAD;])?;
    put_raise_text(lines, EXN_INVALID_ARGUMENT, S_ARRAY_MAKE)?;
    Ok(())
}

/// Writes the routine that makes arrays.
pub fn put_arrays(lines: &mut Vec<Line>) -> Result<(), AllocError>
    ensures more { OnOk result (lines.new.items ≡ lines.old.items ++ arrays_lines []) }
{
    put(lines, &ARRAY_MAKE_LINES)?;
    put_make_bad(lines)?;
    Ok(())
}
