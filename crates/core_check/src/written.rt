//! What the written types of an arena name: tables with a number for each of them.

ghost use Rattle.std.specs.Prelude.{◌≡◌, [], IfOk, slice_index_or};
ghost use Rattle.core_check.specs.Written.{greatest, reach_by, bound_by, reach_table, bound_table};

use effect_meaning::TypeExpression;
use std::alloc::{AllocError, Global};

// The number of a written type, or another one where it isn't there.
fn number_of(table: &[u64], other: u64, part: u32) -> u64
    ensures { result ≡ slice_index_or table.now part other }
{
    match table.get(part as usize) {
        Some(number) => *number,
        None => other,
    }
}

// The greatest of a number and of those of parts.
fn greatest(table: &[u64], other: u64, first: u64, parts: &[u32]) -> u64
    ensures { result ≡ greatest table.now other first parts.now }
{
    let mut last = first;
    for part in parts {
        last = last.max(number_of(table, other, *part));
    }
    last
}

fn reach_of(table: &[u64], node: &TypeExpression) -> u64
    ensures { result ≡ reach_by table.now node.now }
{
    match node {
        TypeExpression::Variable(_) => 0,
        TypeExpression::Any => 0,
        TypeExpression::Applied {
            constructor,
            arguments,
        } => greatest(table, 0, *constructor as u64 + 1, arguments.as_slice()),
    }
}

fn bound_of(table: &[u64], node: &TypeExpression) -> u64
    ensures { result ≡ bound_by table.now node.now }
{
    match node {
        TypeExpression::Variable(number) => *number as u64 + 1,
        TypeExpression::Any => 4_294_967_297,
        TypeExpression::Applied { arguments, .. } => greatest(
            table,
            4_294_967_297,
            0,
            arguments.as_slice(),
        ),
    }
}

/// For each written type a number above those of the types that it names.
pub fn reach_table(alloc: Global, types: &[TypeExpression]) -> Result<Vec<u64>, AllocError>
    ensures { IfOk result (λ table. table.items ≡ reach_table [] types.now) }
{
    let mut table = Vec::with_capacity(alloc, types.len())?;
    for node in types {
        let number = reach_of(table.as_slice(), node);
        table.push(number)?;
    }
    Ok(table)
}

/// For each written type a number above those of its type variables, which is above 4,294,967,296 where
/// it has a blank.
pub fn bound_table(alloc: Global, types: &[TypeExpression]) -> Result<Vec<u64>, AllocError>
    ensures { IfOk result (λ table. table.items ≡ bound_table [] types.now) }
{
    let mut table = Vec::with_capacity(alloc, types.len())?;
    for node in types {
        let number = bound_of(table.as_slice(), node);
        table.push(number)?;
    }
    Ok(table)
}
