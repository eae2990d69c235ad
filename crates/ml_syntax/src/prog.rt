//! The items of a program, and the program.

ghost use Rattle.std.specs.Prelude.{◌≡◌};
ghost use Rattle.ml_syntax.specs.Depth.{depth as depth_of};

use crate::node::{Binding, LongName, Name};
use crate::nodes::Nodes;
use crate::sequence::Sequence;
use fx_base::Place;

/// A constructor of a variant type or of an exception, and the type of its argument.
#[derive(Drop)]
pub struct ConstructorDefinition {
    pub name: Name,
    pub argument: Option<u32>,
}

/// A field of a record type.
#[derive(Drop)]
pub struct FieldDefinition {
    pub is_mutable: bool,
    pub name: Name,
    pub annotation: u32,
}

/// What a type is defined as.
#[derive(Drop)]
pub enum TypeBody {
    Variant(Sequence<ConstructorDefinition>),
    Record(Sequence<FieldDefinition>),
}

/// A type definition, with the type variables that are its parameters.
#[derive(Drop)]
pub struct TypeDefinition {
    pub parameters: Sequence<Name>,
    pub name: Name,
    pub body: TypeBody,
}

/// A constructor of an effect: the type of its argument, and its own type, as `int Effect.t`.
#[derive(Drop)]
pub struct EffectDefinition {
    pub name: Name,
    pub argument: Option<u32>,
    pub result: u32,
}

/// An item, at its first token.
#[derive(Drop)]
pub enum Item {
    /// An expression that is evaluated.
    Expression {
        place: Place,
        expression: u32,
    },
    /// `let` bindings.
    Let {
        place: Place,
        is_recursive: bool,
        bindings: Sequence<Binding>,
    },
    /// `type` definitions.
    Types {
        place: Place,
        definitions: Sequence<TypeDefinition>,
    },
    /// `type _ name +=` effect constructors.
    Effects {
        place: Place,
        extended: LongName,
        definitions: Sequence<EffectDefinition>,
    },
    /// `exception`
    Exception {
        place: Place,
        definition: ConstructorDefinition,
    },
    /// `open`, with the path of upper names.
    Open {
        place: Place,
        path: LongName,
    },
}

/// A program: the nodes of its expressions, patterns and types, and its items in the order of the
/// text.
#[derive(Drop)]
pub struct Prog {
    pub nodes: Nodes,
    pub items: Sequence<Item>,
}

/// How deep the forms of a program stand in one another, brackets and `begin` included: 1 for a
/// name or a constant, and 0 for a program without expressions, patterns and types. It takes no
/// memory and no time that grows with the program.
pub fn depth(prog: &Prog) -> u64
    ensures { result ≡ depth_of prog.now.nodes }
{
    prog.nodes.depth()
}
