//! The tables and the items of a program.

use crate::core_nodes::Function;
use crate::core_sequence::Sequence;
use fx_base::Place;

/// A type constructor: its name, and the names of its parameters.
#[derive(Drop)]
pub struct TypeRow {
    pub place: Place,
    pub name: Sequence<u8>,
    pub parameters: Sequence<Sequence<u8>>,
}

/// A constructor of a variant type: its name, its type, and the type of its argument.
#[derive(Drop)]
pub struct VariantRow {
    pub place: Place,
    pub name: Sequence<u8>,
    pub of_type: u32,
    pub argument: Option<u32>,
}

/// A field of a record type: its name, its record type, its place there from 0, whether it is
/// mutable, and its type.
#[derive(Drop)]
pub struct FieldRow {
    pub place: Place,
    pub name: Sequence<u8>,
    pub of_type: u32,
    pub index: u32,
    pub is_mutable: bool,
    pub annotation: u32,
}

/// An exception: the name that its text begins with, and the type of its argument.
#[derive(Drop)]
pub struct ExceptionRow {
    pub place: Place,
    pub name: Sequence<u8>,
    pub argument: Option<u32>,
}

/// An effect: its name, the type of its argument, and its own type, as `int Effect.t`.
#[derive(Drop)]
pub struct EffectRow {
    pub place: Place,
    pub name: Sequence<u8>,
    pub argument: Option<u32>,
    pub result: u32,
}

/// An item, and where it stands.
#[derive(Drop)]
pub struct Item {
    pub place: Place,
    pub form: ItemForm,
}

/// The forms of items (OCaml manual, "Module items" and "Extensible variant types").
#[derive(Drop)]
pub enum ItemForm {
    /// The types of one `type` item, by their rows.
    Types(Sequence<u32>),
    /// An exception, by its row.
    Exception(u32),
    /// The effects of one item, by their rows, and the type that it extends.
    Effects {
        extended: u32,
        effects: Sequence<u32>,
    },
    /// A name for the value of a term.
    Define {
        name: u32,
        value: u32,
    },
    /// A pattern that the value of a term is matched with. The item's place is that of the failure
    /// where it doesn't match.
    Destructure {
        pattern: u32,
        value: u32,
    },
    /// Functions that may call each other.
    DefineRec(Sequence<Function>),
    /// A term whose value is dropped.
    Evaluate(u32),
}
