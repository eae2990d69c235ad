//! Which branches are long, and where each line begins.

ghost use Rattle.std.specs.Prelude.{◌≡◌, ℕ, ◌+◌, ◌*◌, ◌<◌, ◌≤◌, ◌^◌, true, false, map, length, slice_index, IfOk};
ghost use Rattle.rv_asm.specs.Lines.{size_of};
ghost use Rattle.rv_asm.specs.Layout as spec;
ghost use Rattle.rv_asm.specs.Found as found;
ghost use Rattle.rv_asm.specs.Found.{layout_of, line_named, is_far_at, grown, short_count, AreStarts, AreSettled};

use crate::constant::constant_size;
use rv_model::Line;
use std::alloc::{AllocError, Global};

/// The layout of some lines.
#[derive(Debug, Drop)]
pub struct Settled {
    /// Which branches stand for two instructions, by the number of the line.
    pub long: Vec<bool>,
    /// The number of the instruction with which each line begins, and the number of all instructions.
    pub starts: Vec<u64>,
}

// How many instructions a line stands for.
fn size(line: &Line, long: bool) -> u64
    ensures is { result ≡ size_of long line.now }
    ensures few { result ≤ 8 }
{
    match line {
        Line::Label(_) => 0,
        Line::Plain(_) | Line::Jump { .. } => 1,
        Line::Branch { .. } => 1 + u64::from(long),
        Line::Const { value, .. } => constant_size(*value),
        Line::CodeOf { .. } => 2,
    }
}

// Where each line begins.
fn place(starts: &mut [u64], lines: &[Line], long: &[bool])
    requires room { length starts.old ≡ length lines.now + 1 }
    requires all { length long.now ≡ length lines.now }
    requires first { slice_index starts.old 0 ≡ 0 }
    ensures starts { AreStarts (layout_of long.now) lines.now starts.new }
    ensures first { slice_index starts.new 0 ≡ 0 }
{
    for (k, line) in lines.iter().enumerate() {
        starts[k + 1] = starts[k] + size(line, long[k]);
    }
}

fn is_near(from: u64, to: u64) -> bool
    requires { (from < 2 ^ 63) × (to < 2 ^ 63) }
    ensures { result ≡ spec.is_near from to }
{
    to <= from + 1023 && from <= to + 1024
}

// A branch that isn't long, and whose label is out of its reach.
fn is_far(line: &Line, long: bool, from: u64, to: u64) -> bool
    requires { (from < 2 ^ 63) × (to < 2 ^ 63) }
    ensures { result ≡ found.is_far line.now long from to }
{
    matches!(line, Line::Branch { .. }) && !long && !is_near(from, to)
}

// Makes the branches long whose labels are out of their reach; whether there are any.
fn lengthen(long: &mut [bool], lines: &[Line], starts: &[u64], named: &[usize]) -> bool
    requires all { length long.old ≡ length lines.now }
    requires room { length starts.now ≡ length lines.now + 1 }
    requires starts { AreStarts (layout_of long.old) lines.now starts.now }
    requires few { (k : ℕ) → slice_index starts.now k < 2 ^ 63 }
    requires named { named.now ≡ map (line_named lines.now) lines.now }
    ensures grown { (k : ℕ) → k < length lines.now → layout_of long.new k ≡ grown lines.now (layout_of long.old) k }
    ensures none { result ≡ false → (k : ℕ) → k < length lines.now → is_far_at (layout_of long.old) lines.now k ≡ false }
    ensures same { result ≡ false → long.new ≡ long.old }
    ensures fewer { result ≡ true → short_count long.new < short_count long.old }
{
    let mut grew = false;
    for (k, line) in lines.iter().enumerate() {
        if is_far(line, long[k], starts[k], starts[named[k]]) {
            long[k] = true;
            grew = true;
        }
    }
    grew
}

/// The layout with as few long branches as possible: branches are made long until each other one has its
/// label in reach.
pub fn settle(alloc: Global, lines: &[Line], named: &[usize]) -> Result<Settled, AllocError>
    requires named { named.now ≡ map (line_named lines.now) lines.now }
    ensures { IfOk result (λ s. AreSettled lines.now s.long.items s.starts.items) }
{
    let mut long = vec![in alloc; false; lines.len()]?;
    let mut starts = vec![in alloc; 0; lines.len() + 1]?;
    place(&mut starts, lines, &long);
    while lengthen(&mut long, lines, &starts, named) {
        place(&mut starts, lines, &long);
    }
    Ok(Settled { long, starts })
}
