//! The items that declare types, exceptions or effects.

ghost use Rattle.std.specs.Prelude.{◌≡◌, ◌+◌, ◌&&◌, [], true, nat_lt, map, drop, length, OnOk, IfOk, IfSome, IsTrue};
ghost use Rattle.std.specs.List.{list_all};
ghost use Rattle.effect_meaning.specs.Scoped.{go_up, texts_differ, type_name};
ghost use Rattle.effect_meaning.specs.declared.core_tables.ItemForm.TheVariants as item;
ghost use Rattle.core_check.specs.Texts.{told_apart};
ghost use Rattle.core_check.specs.Declares.{argument_test, effect_test, type_test, front, is_between, FormLeads};

use crate::effects::is_any_closed_by;
use crate::known::Known;
use crate::rows::{is_any_reached, is_reached};
use crate::tables::{Tables, type_name};
use crate::texts::{Texts, texts_apart};
use effect_meaning::{CoreArena, FieldRow, ItemForm, VariantRow};
use std::alloc::{AllocError, Global};

// Whether numbers go up from this one.
fn go_up(first: u32, rows: &[u32]) -> bool
    ensures { result ≡ go_up first rows.now }
{
    let mut next = first as u64;
    for row in rows {
        if *row as u64 != next {
            return false;
        }
        next += 1;
    }
    true
}

// The count behind so many further rows.
fn count_behind(count: u32, rows: &[u32]) -> Option<u32>
    ensures { IfSome result (λ later. later ≡ count + length rows.now) }
{
    count.checked_add(u32::try_from(rows.len()).ok()?)
}

// Whether the type of an argument is declared, without type variables, if there is one.
fn argument_holds(tables: &Tables, known: Known, argument: Option<u32>) -> bool
    ensures { result ≡ argument_test tables.now known argument }
{
    is_any_reached(known, tables.reach.as_slice(), argument)
        && is_any_closed_by(tables.bound.as_slice(), 0, argument)
}

fn exception_holds(arena: &CoreArena, tables: &Tables, known: Known, row: u32) -> Option<Known>
    ensures { IfSome result (λ later. FormLeads arena.now tables.now known (item.Exception row) later) }
{
    if row != known.exceptions {
        return None;
    }
    let exception = arena.exception_rows().get(row as usize)?;
    if !argument_holds(tables, known, exception.argument) {
        return None;
    }
    let exceptions = row.checked_add(1)?;
    Some(Known {
        exceptions,
        ..known
    })
}

fn effect_holds(arena: &CoreArena, tables: &Tables, known: Known, row: u32) -> bool
    ensures { result ≡ effect_test arena.now tables.now known row }
{
    match arena.effect_rows().get(row as usize) {
        Some(effect) => {
            is_reached(known, tables.reach.as_slice(), effect.result)
                && argument_holds(tables, known, effect.argument)
        }
        None => false,
    }
}

fn each_effect_holds(arena: &CoreArena, tables: &Tables, known: Known, rows: &[u32]) -> bool
    ensures { result ≡ list_all (effect_test arena.now tables.now known) rows.now }
{
    for row in rows {
        if !effect_holds(arena, tables, known, *row) {
            return false;
        }
    }
    true
}

fn effects_hold(
    arena: &CoreArena,
    tables: &Tables,
    known: Known,
    extended: u32,
    rows: &[u32],
) -> Option<Known>
    ensures { IfSome result (λ later. FormLeads arena.now tables.now known (item.Effects extended rows.now) later) }
{
    if extended >= known.types || !go_up(known.effects, rows) {
        return None;
    }
    if !each_effect_holds(arena, tables, known, rows) {
        return None;
    }
    let effects = count_behind(known.effects, rows)?;
    Some(Known { effects, ..known })
}

// Whether no two types of an item have the same name.
fn types_apart(alloc: Global, arena: &CoreArena, rows: &[u32]) -> Result<bool, AllocError>
    ensures { IfOk result (λ apart. IsTrue apart → told_apart (λ t. 0) (type_name arena.now) [] rows.now ≡ true) }
{
    let mut met = Texts::new(alloc);
    for row in rows {
        if !met.add(0, type_name(arena, *row))? {
            return Ok(false);
        }
    }
    Ok(true)
}

// Whether a type is one of those up to this count that are declared together, and its parameters differ.
fn type_holds(
    alloc: Global,
    arena: &CoreArena,
    tables: &Tables,
    count: u32,
    row: u32,
) -> Result<bool, AllocError>
    ensures { IfOk result (λ holds. IsTrue holds → type_test arena.now tables.now count row ≡ true) }
{
    if tables.limit(row) != count {
        return Ok(false);
    }
    let Some(row) = arena.type_rows().get(row as usize) else {
        return Ok(false);
    };
    if !texts_apart(alloc, row.parameters.as_slice())? {
        return Ok(false);
    }
    Ok(true)
}

fn each_type_holds(
    alloc: Global,
    arena: &CoreArena,
    tables: &Tables,
    count: u32,
    rows: &[u32],
) -> Result<bool, AllocError>
    ensures { IfOk result (λ holds. IsTrue holds → list_all (type_test arena.now tables.now count) rows.now ≡ true) }
{
    for row in rows {
        if !type_holds(alloc, arena, tables, count, *row)? {
            return Ok(false);
        }
    }
    Ok(true)
}

// The count behind the constructors of the types between two numbers, which stand behind so many.
fn variants_behind(rows: &[VariantRow], count: u32, low: u32, high: u32) -> Option<u32>
    ensures { IfSome result (λ later. later ≡ count + front (λ r. is_between low high r.of_type) (drop count rows.now)) }
{
    let mut later = count;
    for row in rows.get(count as usize..)? {
        if row.of_type < low || row.of_type >= high {
            return Some(later);
        }
        later = later.checked_add(1)?;
    }
    Some(later)
}

// The same of fields.
fn fields_behind(rows: &[FieldRow], count: u32, low: u32, high: u32) -> Option<u32>
    ensures { IfSome result (λ later. later ≡ count + front (λ r. is_between low high r.of_type) (drop count rows.now)) }
{
    let mut later = count;
    for row in rows.get(count as usize..)? {
        if row.of_type < low || row.of_type >= high {
            return Some(later);
        }
        later = later.checked_add(1)?;
    }
    Some(later)
}

// What is in scope behind the types up to this count.
fn behind_types(arena: &CoreArena, known: Known, types: u32) -> Option<Known>
    ensures types { IfSome result (λ later. later.types ≡ types) }
    ensures variants { IfSome result (λ later. later.variants ≡ known.variants + front (λ r. is_between known.types types r.of_type) (drop known.variants arena.now.variant_rows)) }
    ensures fields { IfSome result (λ later. later.fields ≡ known.fields + front (λ r. is_between known.types types r.of_type) (drop known.fields arena.now.field_rows)) }
    ensures exceptions { IfSome result (λ later. later.exceptions ≡ known.exceptions) }
    ensures effects { IfSome result (λ later. later.effects ≡ known.effects) }
{
    let variants = variants_behind(arena.variant_rows(), known.variants, known.types, types)?;
    let fields = fields_behind(arena.field_rows(), known.fields, known.types, types)?;
    Some(Known {
        types,
        variants,
        fields,
        ..known
    })
}

fn types_hold(
    alloc: Global,
    arena: &CoreArena,
    tables: &Tables,
    known: Known,
    rows: &[u32],
) -> Result<Option<Known>, AllocError>
    ensures { IfOk result (λ found. IfSome found (λ later. FormLeads arena.now tables.now known (item.Types rows.now) later)) }
{
    let Some(count) = count_behind(known.types, rows) else {
        return Ok(None);
    };
    if !go_up(known.types, rows) || !types_apart(alloc, arena, rows)? {
        return Ok(None);
    }
    if !each_type_holds(alloc, arena, tables, count, rows)? {
        return Ok(None);
    }
    let Some(later) = behind_types(arena, known, count) else {
        return Ok(None);
    };
    Ok(Some(later))
}

/// Whether the rules hold in what an item declares besides names. It gives what is in scope behind it.
pub fn declared_hold(
    alloc: Global,
    arena: &CoreArena,
    tables: &Tables,
    known: Known,
    form: &ItemForm,
) -> Result<Option<Known>, AllocError>
    ensures { IfOk result (λ found. IfSome found (λ later. FormLeads arena.now tables.now known form.now later)) }
{
    match form {
        ItemForm::Types(rows) => types_hold(alloc, arena, tables, known, rows.as_slice()),
        ItemForm::Exception(row) => Ok(exception_holds(arena, tables, known, *row)),
        ItemForm::Effects { extended, effects } => {
            Ok(effects_hold(arena, tables, known, *extended, effects.as_slice()))
        }
        _ => Ok(Some(known)),
    }
}
