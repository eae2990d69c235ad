//! The code that makes a block: the only code that moves the heap's cursor.

ghost use Rattle.std.specs.Prelude.{◌≡◌, ℕ, ◌≤◌, ◌<◌, ◌-◌, ◌^◌, List, [], ◌∷◌, ◌++◌, IfOk, IfErr, OnOk};
ghost use Rattle.rt_layout.specs.Allocation.{alloc_lines, header_line, header_lines, new_block_lines, alloc_large_lines, too_large_lines, heap_full_lines};

use crate::assembly;
use crate::blocks::HEADER;
use crate::fixed::END_HEAP_FULL;
use crate::labels::{ALLOC_LARGE, HEAP_FULL, STOP_RUN, TOO_LARGE};
use crate::registers::{A2, A3, AUX, CUR, HCUR, HEAP, HSIZE, LINK, NEW, T0, T1, T3};
use fx_base::Refusal;
use rv_model::Line;
use std::alloc::{AllocError, Global};

/// Writes lines behind those that are there.
pub fn put(lines: &mut Vec<Line>, more: &[Line]) -> Result<(), AllocError>
    ensures more { OnOk result (lines.new.items ≡ lines.old.items ++ more.now) }
{
    lines.extend_from_slice(more)
}

/// Writes the code that makes a block of x7 words, at most those of the heap, header included: `rd` gets
/// the address of the first word behind the header. It uses x28.
///
/// Its one access to a shared word is the AMOADD on the cursor.
pub fn put_alloc(lines: &mut Vec<Line>, rd: u8) -> Result<(), AllocError>
    ensures more { OnOk result (lines.new.items ≡ lines.old.items ++ alloc_lines rd []) }
{
    put(
        lines,
        &assembly![
            amoadd rd, T1, HCUR;
            add T3, rd, T1;
            bltu HSIZE, T3, HEAP_FULL;
            slli rd, rd, 3;
            add rd, rd, HEAP;
        ],
    )
}

fn header_line(words: u64, header: u64) -> Line
    requires more { words ≤ header }
    requires few { header < 2 ^ 62 }
    ensures { result ≡ header_line words header }
{
    if header - words <= 2047 {
        crate::assembly_line!(addi T0, T1, header - words)
    } else {
        crate::assembly_line!(li T0, header)
    }
}

/// Writes the code that puts a header into a new block of so many words, which x7 still is. It uses x6.
pub fn put_header(
    lines: &mut Vec<Line>,
    rd: u8,
    at: i64,
    words: u64,
    header: u64,
) -> Result<(), AllocError>
    requires more { words ≤ header }
    requires few { header < 2 ^ 62 }
    ensures more { OnOk result (lines.new.items ≡ lines.old.items ++ header_lines rd at words header []) }
{
    put(
        lines,
        &[
            header_line(words, header),
            crate::assembly_line!(sd T0, at, rd),
        ],
    )
}

/// Writes the code that makes a block of so many words with its header: `rd` gets its address. It uses
/// x6, x7 and x28.
pub fn put_new_block(
    lines: &mut Vec<Line>,
    rd: u8,
    words: u64,
    header: u64,
) -> Result<(), AllocError>
    requires more { words ≤ header }
    requires few { header < 2 ^ 62 }
    ensures more { OnOk result (lines.new.items ≡ lines.old.items ++ new_block_lines rd words header []) }
{
    put(lines, &assembly![li T1, words;])?;
    put_alloc(lines, rd)?;
    put_header(lines, rd, HEADER, words, header)
}

const ALLOC_LARGE_LINES: [Line; 2] = assembly![
    label ALLOC_LARGE;
    bltu HSIZE, T1, TOO_LARGE;
];

const FULL_LINES: [Line; 10] = assembly![
    jr LINK, 0;
    label TOO_LARGE;
    // The cursor is read and stays.
    ld T3, 0, HCUR;
    add T3, T3, T1;
    label HEAP_FULL;
    li A2, END_HEAP_FULL;
    sub A3, T3, T1;
    mv CUR, T1;
    mv AUX, HSIZE;
    jump STOP_RUN;
];

/// The routines that allocate: a block of any size, and the end of a run whose heap is full.
///
/// Refused only for want of memory.
pub fn lines(alloc: Global) -> Result<Vec<Line>, Refusal>
    ensures lines { IfOk result (λ lines. lines.items ≡ alloc_large_lines (too_large_lines (heap_full_lines []))) }
    ensures refused { IfErr result (λ refusal. refusal ≡ Refusal.Memory) }
{
    let mut lines = Vec::new(alloc);
    put(&mut lines, &ALLOC_LARGE_LINES)?;
    put_alloc(&mut lines, NEW)?;
    put(&mut lines, &FULL_LINES)?;
    Ok(lines)
}
