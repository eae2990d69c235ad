//! Texts that are told apart.

ghost use Rattle.std.specs.Prelude.{◌≡◌, ◌∷◌, ◌++◌, [], true, false, IfOk, IsTrue};
ghost use Rattle.effect_meaning.specs.Scoped.{texts_differ};
ghost use Rattle.core_check.specs.Texts.{is_met, told_apart};

use effect_meaning::{FieldRow, Sequence, VariantRow};
use indexmap::IndexSet;
use std::alloc::{AllocError, Global};
use std::marker::Model;

/// The texts that have been met, each with a number that it belongs to.
#[derive(Drop)]
pub struct Texts<'a> {
    met: IndexSet<(u32, &'a [u8])>,
}

impl<'a> Model for Texts<'a> {
    ghost use Rattle.std.specs.Prelude.{List, ℕ, map};

    ghost Value = { List (ℕ × List ℕ) };

    ghost view = { λ a. map (λ k. (k.0, k.1.now)) a.met.keys };
}

impl<'a> Texts<'a> {
    /// No texts. It takes no memory.
    pub fn new(alloc: Global) -> Texts<'a>
        ensures { result ≡ [] }
    {
        Texts {
            met: IndexSet::new(alloc),
        }
    }

    /// Adds a text, if it isn't there with this number. It gives whether it was added.
    #[tactic(auto, using(crate::proofs::Apart::any_mapped))]
    pub fn add(&mut self, number: u32, text: &'a [u8]) -> Result<bool, AllocError>
        ensures new { IfOk result (λ new. IsTrue new → is_met self.old number text.now ≡ false) }
        ensures added { IfOk result (λ new. IsTrue new → self.new ≡ self.old ++ (number, text.now) ∷ []) }
    {
        Ok(self.met.insert((number, text))?)
    }
}

/// Whether no text stands twice in a list.
pub fn texts_apart(alloc: Global, texts: &[Sequence<u8>]) -> Result<bool, AllocError>
    ensures { IfOk result (λ apart. IsTrue apart → told_apart (λ t. 0) (λ t. t) [] texts.now ≡ true) }
{
    let mut met = Texts::new(alloc);
    for text in texts {
        if !met.add(0, text.as_slice())? {
            return Ok(false);
        }
    }
    Ok(true)
}

/// Whether no two constructors of a type have the same name.
pub fn variants_apart(alloc: Global, rows: &[VariantRow]) -> Result<bool, AllocError>
    ensures { IfOk result (λ apart. IsTrue apart → told_apart (λ r. r.of_type) (λ r. r.name) [] rows.now ≡ true) }
{
    let mut met = Texts::new(alloc);
    for row in rows {
        if !met.add(row.of_type, row.name.as_slice())? {
            return Ok(false);
        }
    }
    Ok(true)
}

/// Whether no two fields of a type have the same name.
pub fn fields_apart(alloc: Global, rows: &[FieldRow]) -> Result<bool, AllocError>
    ensures { IfOk result (λ apart. IsTrue apart → told_apart (λ r. r.of_type) (λ r. r.name) [] rows.now ≡ true) }
{
    let mut met = Texts::new(alloc);
    for row in rows {
        if !met.add(row.of_type, row.name.as_slice())? {
            return Ok(false);
        }
    }
    Ok(true)
}
