//! Which line defines the label that a line names.

ghost use Rattle.std.specs.Prelude.{◌≡◌, ℕ, map, length, unwrap_or, IfOk};
ghost use Rattle.std.specs.Ordering.{nat_cmp};
ghost use Rattle.std.specs.BTreeMap.{get};
ghost use Rattle.rv_asm.specs.Layout.{line_of, target_of as target_spec};
ghost use Rattle.rv_asm.specs.Found.{line_named};

use rv_model::Line;
use std::alloc::{AllocError, Global};
use std::collections::BTreeMap;

/// The number of the line that defines a label.
pub fn label_lines(alloc: Global, lines: &[Line]) -> Result<BTreeMap<u32, usize>, AllocError>
    ensures { IfOk result (λ m. (l : ℕ) → unwrap_or (get nat_cmp m l) (length lines.now) ≡ line_of lines.now l) }
{
    let mut numbers = BTreeMap::new(alloc);
    for (k, line) in lines.iter().enumerate() {
        if let Line::Label(label) = line {
            numbers.entry(*label)?.or_insert(k);
        }
    }
    Ok(numbers)
}

// The label that a line names; 0 where it names none.
fn target_of(line: &Line) -> u32
    ensures { result ≡ target_spec line.now }
{
    match line {
        Line::Branch { to, .. } | Line::Jump { to, .. } => *to,
        Line::CodeOf { label, .. } => *label,
        Line::Label(_) | Line::Plain(_) | Line::Const { .. } => 0,
    }
}

/// For each line the number of the line that defines the label which it names; the number of all lines
/// where there is none.
pub fn named_lines(alloc: Global, lines: &[Line]) -> Result<Vec<usize>, AllocError>
    ensures { IfOk result (λ named. named.items ≡ map (line_named lines.now) lines.now) }
{
    let numbers = label_lines(alloc, lines)?;
    let mut named = Vec::with_capacity(alloc, lines.len())?;
    for line in lines {
        let number = numbers
            .get(&target_of(line))
            .copied()
            .unwrap_or(lines.len());
        named.push(number)?;
    }
    Ok(named)
}
