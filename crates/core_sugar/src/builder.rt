//! Core as it is built: each node of the program is made into what it stands for, the parts first.

use core_rules::{
    push_effect_row, push_exception_row, push_field_row, push_item, push_pattern, push_term,
    push_type, push_variant_row,
};
use effect_meaning::{
    Constant, Constructor, CoreArena, EffectRow, ExceptionRow, FieldRow, Item, ItemForm, Operation,
    PatternForm, PatternNode, Sequence, TermForm, TermNode, TypeExpression, TypeRow, VariantRow,
};
use fx_base::Place;
use ml_syntax::Node;
use name_uses::{Builtin, Use, Uses};
use std::alloc::{AllocError, Global};

/// What a node of the program was made into.
#[derive(Clone, Copy)]
pub enum Made {
    Nothing,
    Type(u32),
    Pattern(u32),
    Term(u32),
    /// A built-in name, whose term depends on what it is applied to.
    Builtin(Builtin),
    /// A function, which stands in a term or in a `let rec`.
    Function {
        place: Place,
        parameter: u32,
        body: u32,
    },
    /// A constructor, which stands in a pattern or in a clause of a handler.
    Constructor {
        place: Place,
        constructor: Constructor,
        argument: Option<u32>,
    },
}

/// Core as it is built.
#[derive(Drop)]
pub struct Builder<'a> {
    pub alloc: Global,
    pub uses: &'a Uses,
    pub append: Option<u32>,
    arena: CoreArena,
    nodes: &'a [Node],
    made: Vec<Made>,
    next_name: u32,
}

impl<'a> Builder<'a> {
    /// Nothing of these nodes is made yet. New names have numbers from `next_name` on.
    pub fn new(
        alloc: Global,
        arena: CoreArena,
        nodes: &'a [Node],
        uses: &'a Uses,
        append: Option<u32>,
        next_name: u32,
    ) -> Builder<'a> {
        Builder {
            alloc,
            uses,
            append,
            arena,
            nodes,
            made: Vec::new(alloc),
            next_name,
        }
    }

    /// What is kept for the nodes that come next: the arena, and the first number of new names.
    pub fn end(self) -> (CoreArena, u32) {
        let Builder {
            alloc: _,
            uses: _,
            append: _,
            arena,
            nodes: _,
            made: _,
            next_name,
        } = self;
        (arena, next_name)
    }

    /// The arena, to be read.
    pub fn arena(&self) -> &CoreArena {
        &self.arena
    }

    /// The node that is made next, and its number; none where all are made.
    pub fn next_node(&self) -> Option<(u32, &'a Node)> {
        let number = self.made.len();
        let node = self.nodes.get(number)?;
        if number < u32::MAX as usize {
            Some((number as u32, node))
        } else {
            None
        }
    }

    /// How many nodes are made.
    pub fn made_count(&self) -> usize {
        self.made.len()
    }

    /// The node of a number.
    pub fn node(&self, n: u32) -> Option<&'a Node> {
        self.nodes.get(n as usize)
    }

    /// Notes what the next node was made into.
    pub fn note(&mut self, made: Made) -> Result<(), AllocError> {
        self.made.push(made)?;
        Ok(())
    }

    /// What a node was made into.
    pub fn made(&self, n: u32) -> Made {
        match self.made.get(n as usize) {
            Some(made) => *made,
            None => Made::Nothing,
        }
    }

    /// What the name of a node stands for.
    pub fn meaning(&self, n: u32) -> Use {
        self.uses.of_node(n)
    }

    /// A number that no name has.
    pub fn new_name(&mut self) -> Result<u32, AllocError> {
        let number = self.next_name;
        self.next_name = number.checked_add(1).ok_or(AllocError)?;
        Ok(number)
    }

    /// A text.
    pub fn text(&self, bytes: &[u8]) -> Result<Sequence<u8>, AllocError> {
        Ok(Sequence::from_vec(Vec::from_slice(self.alloc, bytes)?))
    }

    /// Two parts.
    pub fn two(&self, first: u32, second: u32) -> Result<Sequence<u32>, AllocError> {
        Ok(Sequence::from_vec(Vec::from_slice(self.alloc, &[first, second])?))
    }

    /// A further string literal.
    pub fn literal(&mut self, text: Sequence<u8>) -> Result<u32, AllocError> {
        self.arena.push_literal(text)
    }

    /// A further written type.
    pub fn push_type(&mut self, node: TypeExpression) -> Result<u32, AllocError> {
        push_type(&mut self.arena, node)
    }

    /// A further pattern.
    pub fn push_pattern(&mut self, place: Place, form: PatternForm) -> Result<u32, AllocError> {
        push_pattern(&mut self.arena, PatternNode { place, form })
    }

    /// A further term.
    pub fn push_term(&mut self, place: Place, form: TermForm) -> Result<u32, AllocError> {
        push_term(&mut self.arena, TermNode { place, form })
    }

    /// A further type of the tables.
    pub fn push_type_row(&mut self, row: TypeRow) -> Result<u32, AllocError> {
        self.arena.push_type_row(row)
    }

    /// A further constructor of the tables.
    pub fn push_variant_row(&mut self, row: VariantRow) -> Result<u32, AllocError> {
        push_variant_row(&mut self.arena, row)
    }

    /// A further field of the tables.
    pub fn push_field_row(&mut self, row: FieldRow) -> Result<u32, AllocError> {
        push_field_row(&mut self.arena, row)
    }

    /// A further exception of the tables.
    pub fn push_exception_row(&mut self, row: ExceptionRow) -> Result<u32, AllocError> {
        push_exception_row(&mut self.arena, row)
    }

    /// A further effect of the tables.
    pub fn push_effect_row(&mut self, row: EffectRow) -> Result<u32, AllocError> {
        push_effect_row(&mut self.arena, row)
    }

    /// A further item.
    pub fn push_item(&mut self, place: Place, form: ItemForm) -> Result<(), AllocError> {
        push_item(&mut self.arena, Item { place, form })?;
        Ok(())
    }

    /// The use of a name.
    pub fn name(&mut self, place: Place, name: u32) -> Result<u32, AllocError> {
        self.push_term(place, TermForm::Name(name))
    }

    /// A constant.
    pub fn constant(&mut self, place: Place, constant: Constant) -> Result<u32, AllocError> {
        self.push_term(place, TermForm::Constant(constant))
    }

    /// An application.
    pub fn apply(&mut self, place: Place, function: u32, argument: u32) -> Result<u32, AllocError> {
        self.push_term(place, TermForm::Apply { function, argument })
    }

    /// An operation of two parts.
    pub fn operate(
        &mut self,
        place: Place,
        operation: Operation,
        first: u32,
        second: u32,
    ) -> Result<u32, AllocError> {
        let parts = self.two(first, second)?;
        self.push_term(place, TermForm::Primitive { operation, parts })
    }

    /// A function of one parameter.
    pub fn function(&mut self, place: Place, parameter: u32, body: u32) -> Result<u32, AllocError> {
        self.push_term(place, TermForm::Function { parameter, body })
    }

    // A built-in name that isn't applied to all its arguments: functions of new names round it.
    fn chain(&mut self, place: Place, builtin: Builtin) -> Result<u32, AllocError> {
        let mut names = Vec::with_capacity(self.alloc, builtin.arguments)?;
        let mut parts = Vec::with_capacity(self.alloc, builtin.arguments)?;
        for _ in 0..builtin.arguments {
            let name = self.new_name()?;
            names.push(name)?;
            parts.push(self.name(place, name)?)?;
        }
        let mut term = self.push_term(
            place,
            TermForm::Primitive {
                operation: builtin.operation,
                parts: Sequence::from_vec(parts),
            },
        )?;
        for name in names.iter().rev() {
            term = self.function(place, *name, term)?;
        }
        Ok(term)
    }

    /// The term of a node.
    pub fn term(&mut self, n: u32) -> Result<u32, AllocError> {
        match self.made(n) {
            Made::Term(term) => Ok(term),
            Made::Builtin(builtin) => self.chain(self.place(n), builtin),
            Made::Function {
                place,
                parameter,
                body,
            } => self.function(place, parameter, body),
            _ => Err(AllocError),
        }
    }

    /// The pattern of a node.
    pub fn pattern(&mut self, n: u32) -> Result<u32, AllocError> {
        match self.made(n) {
            Made::Pattern(pattern) => Ok(pattern),
            Made::Constructor {
                place,
                constructor,
                argument,
            } => {
                let form = match argument {
                    Some(argument) => PatternForm::Construct {
                        constructor,
                        argument,
                    },
                    None => PatternForm::Constructor(constructor),
                };
                self.push_pattern(place, form)
            }
            _ => Err(AllocError),
        }
    }

    /// The written type of a node.
    pub fn written(&self, n: u32) -> Result<u32, AllocError> {
        match self.made(n) {
            Made::Type(node) => Ok(node),
            _ => Err(AllocError),
        }
    }

    /// The written type of a node that there may be.
    pub fn any_written(&self, n: Option<u32>) -> Result<Option<u32>, AllocError> {
        match n {
            Some(n) => Ok(Some(self.written(n)?)),
            None => Ok(None),
        }
    }

    /// The name that a pattern is, if it is one.
    pub fn name_of(&self, pattern: u32) -> Option<u32> {
        match self.arena.patterns().get(pattern as usize)?.form {
            PatternForm::Name(name) => Some(name),
            _ => None,
        }
    }
}
