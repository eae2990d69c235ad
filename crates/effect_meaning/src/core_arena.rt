//! The nodes and the tables of a program, while it is built and when it is read.

ghost use Rattle.std.specs.Prelude.{◌≡◌, ◌∷◌, [], ◌++◌, length, OnOk, OnErr, IfOk};

use crate::core_nodes::{PatternNode, TermNode, TypeExpression};
use crate::core_sequence::Sequence;
use crate::core_tables::{EffectRow, ExceptionRow, FieldRow, Item, TypeRow, VariantRow};
use std::alloc::{AllocError, Global};
use std::marker::Model;

/// The nodes and the tables of a program, each in the order of its numbers, from 0.
///
/// A node's parts stand before it, and all that a node or a row names stands there. An arena holds
/// at most 4,294,967,295 nodes of a sort; a further one is refused as memory is.
#[derive(Drop)]
pub struct CoreArena {
    file: Sequence<u8>,
    literals: Vec<Sequence<u8>>,
    types: Vec<TypeExpression>,
    patterns: Vec<PatternNode>,
    terms: Vec<TermNode>,
    type_rows: Vec<TypeRow>,
    variant_rows: Vec<VariantRow>,
    field_rows: Vec<FieldRow>,
    exception_rows: Vec<ExceptionRow>,
    effect_rows: Vec<EffectRow>,
    items: Vec<Item>,
}

impl Model for CoreArena {
    ghost use Rattle.effect_meaning.specs.Arena.{Parts, IsArena};

    ghost Value = { Parts };

    ghost use Rattle.effect_meaning.specs.ArenaView.{parts_of};

    ghost view = { parts_of };

    ghost invariant = { λ a. IsArena (parts_of a) };
}

/// Puts an element at the end, and gives its number.
fn append<T: Drop>(elements: &mut Vec<T>, element: T) -> Result<u32, AllocError>
    ensures number { IfOk result (λ n. n ≡ length elements.old.items) }
    ensures ok { OnOk result (elements.new.items ≡ elements.old.items ++ element ∷ []) }
    ensures err { OnErr result (elements.new.items ≡ elements.old.items) }
{
    let number = elements.len();
    if number >= u32::MAX as usize {
        return Err(AllocError);
    }
    elements.push(element)?;
    Ok(number as u32)
}

impl CoreArena {
    ghost use Rattle.effect_meaning.specs.Arena.{Parts, IsArena, empty_parts, counts, TypeStands, PatternStands, TermStands, VariantStands, FieldStands, ExceptionStands, EffectStands, ItemStands};

    /// An arena without nodes, of a program whose file has this text. It takes no memory.
    pub fn new(alloc: Global, file: Sequence<u8>) -> CoreArena
        ensures { result ≡ empty_parts file }
    {
        CoreArena {
            file,
            literals: Vec::new(alloc),
            types: Vec::new(alloc),
            patterns: Vec::new(alloc),
            terms: Vec::new(alloc),
            type_rows: Vec::new(alloc),
            variant_rows: Vec::new(alloc),
            field_rows: Vec::new(alloc),
            exception_rows: Vec::new(alloc),
            effect_rows: Vec::new(alloc),
            items: Vec::new(alloc),
        }
    }

    /// A further string literal. It gives its number.
    pub fn push_literal(&mut self, text: Sequence<u8>) -> Result<u32, AllocError>
        ensures number { IfOk result (λ n. n ≡ length self.old.literals) }
        ensures ok { OnOk result (self.new ≡ record self.old { literals = self.old.literals ++ text ∷ [] }) }
        ensures err { OnErr result (self.new ≡ self.old) }
    {
        append(&mut self.literals, text)
    }

    /// A further written type, of earlier ones. It gives its number.
    pub fn push_type(&mut self, node: TypeExpression) -> Result<u32, AllocError>
        requires { TypeStands (counts self.old) node }
        ensures number { IfOk result (λ n. n ≡ length self.old.types) }
        ensures ok { OnOk result (self.new ≡ record self.old { types = self.old.types ++ node ∷ [] }) }
        ensures err { OnErr result (self.new ≡ self.old) }
    {
        append(&mut self.types, node)
    }

    /// A further pattern, of earlier ones. It gives its number.
    pub fn push_pattern(&mut self, node: PatternNode) -> Result<u32, AllocError>
        requires { PatternStands (counts self.old) node }
        ensures number { IfOk result (λ n. n ≡ length self.old.patterns) }
        ensures ok { OnOk result (self.new ≡ record self.old { patterns = self.old.patterns ++ node ∷ [] }) }
        ensures err { OnErr result (self.new ≡ self.old) }
    {
        append(&mut self.patterns, node)
    }

    /// A further term, of earlier ones. It gives its number.
    pub fn push_term(&mut self, node: TermNode) -> Result<u32, AllocError>
        requires { TermStands (counts self.old) node }
        ensures number { IfOk result (λ n. n ≡ length self.old.terms) }
        ensures ok { OnOk result (self.new ≡ record self.old { terms = self.old.terms ++ node ∷ [] }) }
        ensures err { OnErr result (self.new ≡ self.old) }
    {
        append(&mut self.terms, node)
    }

    /// A further type. It gives its number.
    pub fn push_type_row(&mut self, row: TypeRow) -> Result<u32, AllocError>
        ensures number { IfOk result (λ n. n ≡ length self.old.type_rows) }
        ensures ok { OnOk result (self.new ≡ record self.old { type_rows = self.old.type_rows ++ row ∷ [] }) }
        ensures err { OnErr result (self.new ≡ self.old) }
    {
        append(&mut self.type_rows, row)
    }

    /// A further constructor of a variant type. It gives its number.
    pub fn push_variant_row(&mut self, row: VariantRow) -> Result<u32, AllocError>
        requires { VariantStands (counts self.old) row }
        ensures number { IfOk result (λ n. n ≡ length self.old.variant_rows) }
        ensures ok { OnOk result (self.new ≡ record self.old { variant_rows = self.old.variant_rows ++ row ∷ [] }) }
        ensures err { OnErr result (self.new ≡ self.old) }
    {
        append(&mut self.variant_rows, row)
    }

    /// A further field of a record type. It gives its number.
    pub fn push_field_row(&mut self, row: FieldRow) -> Result<u32, AllocError>
        requires { FieldStands (counts self.old) row }
        ensures number { IfOk result (λ n. n ≡ length self.old.field_rows) }
        ensures ok { OnOk result (self.new ≡ record self.old { field_rows = self.old.field_rows ++ row ∷ [] }) }
        ensures err { OnErr result (self.new ≡ self.old) }
    {
        append(&mut self.field_rows, row)
    }

    /// A further exception. It gives its number.
    pub fn push_exception_row(&mut self, row: ExceptionRow) -> Result<u32, AllocError>
        requires { ExceptionStands (counts self.old) row }
        ensures number { IfOk result (λ n. n ≡ length self.old.exception_rows) }
        ensures ok { OnOk result (self.new ≡ record self.old { exception_rows = self.old.exception_rows ++ row ∷ [] }) }
        ensures err { OnErr result (self.new ≡ self.old) }
    {
        append(&mut self.exception_rows, row)
    }

    /// A further effect. It gives its number.
    pub fn push_effect_row(&mut self, row: EffectRow) -> Result<u32, AllocError>
        requires { EffectStands (counts self.old) row }
        ensures number { IfOk result (λ n. n ≡ length self.old.effect_rows) }
        ensures ok { OnOk result (self.new ≡ record self.old { effect_rows = self.old.effect_rows ++ row ∷ [] }) }
        ensures err { OnErr result (self.new ≡ self.old) }
    {
        append(&mut self.effect_rows, row)
    }

    /// A further item. It gives its number.
    pub fn push_item(&mut self, item: Item) -> Result<u32, AllocError>
        requires { ItemStands (counts self.old) item }
        ensures number { IfOk result (λ n. n ≡ length self.old.items) }
        ensures ok { OnOk result (self.new ≡ record self.old { items = self.old.items ++ item ∷ [] }) }
        ensures err { OnErr result (self.new ≡ self.old) }
    {
        append(&mut self.items, item)
    }

    /// The text that stands for the program's file.
    pub fn file(&self) -> &[u8]
        ensures { result.now ≡ self.now.file }
    {
        self.file.as_slice()
    }

    /// The texts of the string literals.
    pub fn literals(&self) -> &[Sequence<u8>]
        ensures { result.now ≡ self.now.literals }
    {
        self.literals.as_slice()
    }

    /// The written types.
    pub fn types(&self) -> &[TypeExpression]
        ensures types { result.now ≡ self.now.types }
        ensures stand { IsArena self.now }
    {
        self.types.as_slice()
    }

    /// The patterns.
    pub fn patterns(&self) -> &[PatternNode]
        ensures patterns { result.now ≡ self.now.patterns }
        ensures stand { IsArena self.now }
    {
        self.patterns.as_slice()
    }

    /// The terms.
    pub fn terms(&self) -> &[TermNode]
        ensures terms { result.now ≡ self.now.terms }
        ensures stand { IsArena self.now }
    {
        self.terms.as_slice()
    }

    /// The types, the built-in ones first.
    pub fn type_rows(&self) -> &[TypeRow]
        ensures { result.now ≡ self.now.type_rows }
    {
        self.type_rows.as_slice()
    }

    /// The constructors of variant types.
    pub fn variant_rows(&self) -> &[VariantRow]
        ensures variant_rows { result.now ≡ self.now.variant_rows }
        ensures stand { IsArena self.now }
    {
        self.variant_rows.as_slice()
    }

    /// The fields of record types.
    pub fn field_rows(&self) -> &[FieldRow]
        ensures field_rows { result.now ≡ self.now.field_rows }
        ensures stand { IsArena self.now }
    {
        self.field_rows.as_slice()
    }

    /// The exceptions, the built-in ones first.
    pub fn exception_rows(&self) -> &[ExceptionRow]
        ensures exception_rows { result.now ≡ self.now.exception_rows }
        ensures stand { IsArena self.now }
    {
        self.exception_rows.as_slice()
    }

    /// The effects.
    pub fn effect_rows(&self) -> &[EffectRow]
        ensures effect_rows { result.now ≡ self.now.effect_rows }
        ensures stand { IsArena self.now }
    {
        self.effect_rows.as_slice()
    }

    /// The items, in the order of the text, the prelude's first.
    pub fn items(&self) -> &[Item]
        ensures items { result.now ≡ self.now.items }
        ensures stand { IsArena self.now }
    {
        self.items.as_slice()
    }
}
