//! What is built so far.

ghost use Rattle.std.specs.Prelude.{◌≡◌};
ghost use Rattle.ml_builder.specs.Reduced.{nothing};

use crate::definitions::TypeHead;
use crate::stack::Stack;
use ml_syntax::{
    Binding, Clause, ConstructorDefinition, EffectDefinition, EffectRule, FieldDefinition, Item,
    LongName, Name, NamedPart, Nodes, Sequence, TypeDefinition,
};
use std::alloc::Global;

/// The nodes and the items that are made so far, and what no form has taken yet.
#[derive(Drop)]
pub struct Building {
    pub nodes: Nodes,
    /// The numbers of nodes.
    pub numbers: Stack<u32>,
    pub words: Stack<Name>,
    pub long_names: Stack<LongName>,
    pub parts: Stack<NamedPart>,
    pub clauses: Stack<Clause>,
    pub bindings: Stack<Binding>,
    pub rules: Stack<EffectRule>,
    pub constructors: Stack<ConstructorDefinition>,
    pub fields: Stack<FieldDefinition>,
    pub heads: Stack<TypeHead>,
    pub types: Stack<TypeDefinition>,
    pub effects: Stack<EffectDefinition>,
    pub items: Sequence<Item>,
}

impl Building {
    /// Nothing. It takes no memory.
    pub fn new(alloc: Global) -> Building
        ensures { result ≡ nothing }
    {
        Building {
            nodes: Nodes::new(alloc),
            numbers: Stack::new(alloc),
            words: Stack::new(alloc),
            long_names: Stack::new(alloc),
            parts: Stack::new(alloc),
            clauses: Stack::new(alloc),
            bindings: Stack::new(alloc),
            rules: Stack::new(alloc),
            constructors: Stack::new(alloc),
            fields: Stack::new(alloc),
            heads: Stack::new(alloc),
            types: Stack::new(alloc),
            effects: Stack::new(alloc),
            items: Sequence::empty(alloc),
        }
    }
}
