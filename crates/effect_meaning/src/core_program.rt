//! The type of whole programs.

ghost use Rattle.std.specs.Prelude.{◌≡◌};

use crate::core_arena::CoreArena;
use std::marker::Model;

/// A program in Core: its nodes, tables and items, the prelude's items first.
///
/// Each name, type, constructor and field is used within its scope, nothing is bound twice where
/// that is forbidden, both sides of an or-pattern bind the same names, each constant is in the
/// range of its type, and the types of each effect are closed.
#[derive(Drop)]
pub struct Core {
    arena: CoreArena,
}

impl Model for Core {
    ghost use Rattle.effect_meaning.specs.Arena.{Parts};
    ghost use Rattle.effect_meaning.specs.Scoped.{IsCore};

    ghost Value = { Parts };

    ghost view = { λ c. c.arena };

    ghost invariant = { λ c. IsCore c.arena };
}

impl Core {
    ghost use Rattle.effect_meaning.specs.Scoped.{IsCore};

    /// The program that an arena holds. It takes no memory.
    pub fn finish(arena: CoreArena) -> Core
        requires { IsCore arena }
        ensures { result ≡ arena }
    {
        Core { arena }
    }

    /// The nodes and the tables, to be read.
    pub fn arena(&self) -> &CoreArena
        ensures parts { result.now ≡ self.now }
        ensures scoped { IsCore self.now }
    {
        &self.arena
    }

    /// The nodes and the tables, to be changed.
    pub fn into_arena(self) -> CoreArena
        ensures parts { result ≡ self }
        ensures scoped { IsCore self }
    {
        let Core { arena } = self;
        arena
    }
}

#[cfg(test)]
mod tests {
    use super::*;
    use crate::{
        Constant, EffectRow, ExceptionRow, FieldRow, Item, ItemForm, Operation, PatternForm,
        PatternNode, Sequence, TermForm, TermNode, TypeExpression, TypeRow, VariantRow,
    };
    use fx_base::Place;
    use std::alloc::{AllocError, Global};
    use std::test::Fail;

    const HERE: Place = Place { line: 1, column: 1 };

    fn text(alloc: Global, bytes: &[u8]) -> Result<Sequence<u8>, AllocError> {
        Ok(Sequence::from_vec(Vec::from_slice(alloc, bytes)?))
    }

    // let () = print_int 7
    #[test]
    fn builds_a_program(rt: HostRuntime) -> Result<(), Fail> {
        let alloc = rt.alloc();
        let mut arena = CoreArena::new(alloc, Sequence::empty(alloc));
        arena.push_pattern(PatternNode {
            place: HERE,
            form: PatternForm::Constant(Constant::Unit),
        })?;
        arena.push_term(TermNode {
            place: HERE,
            form: TermForm::Constant(Constant::Integer(7)),
        })?;
        let printed = Sequence::from_vec(Vec::from_slice(alloc, &[0])?);
        arena.push_term(TermNode {
            place: HERE,
            form: TermForm::Primitive {
                operation: Operation::PrintInteger,
                parts: printed,
            },
        })?;
        arena.push_item(Item {
            place: HERE,
            form: ItemForm::Destructure {
                pattern: 0,
                value: 1,
            },
        })?;
        let core = Core::finish(arena);
        assert_eq!(rt; core.arena().terms().len(), 2);
        assert_eq!(rt; core.arena().patterns().len(), 1);
        assert_eq!(rt; core.arena().items().len(), 1);
        let TermForm::Constant(constant) = core.arena().terms()[0].form else {
            return Err("the first term is a constant".into());
        };
        assert_eq!(rt; constant, Constant::Integer(7));
        Ok(())
    }

    #[test]
    fn fills_the_tables(rt: HostRuntime) -> Result<(), Fail> {
        let alloc = rt.alloc();
        let mut arena = CoreArena::new(alloc, text(alloc, b"a.ml")?);
        assert_eq!(rt; arena.push_literal(text(alloc, b"hi")?)?, 0);
        let row = TypeRow {
            place: HERE,
            name: text(alloc, b"t")?,
            parameters: Sequence::empty(alloc),
        };
        assert_eq!(rt; arena.push_type_row(row)?, 0);
        let applied = TypeExpression::Applied {
            constructor: 0,
            arguments: Sequence::empty(alloc),
        };
        assert_eq!(rt; arena.push_type(applied)?, 0);
        let row = VariantRow {
            place: HERE,
            name: text(alloc, b"A")?,
            of_type: 0,
            argument: Some(0),
        };
        assert_eq!(rt; arena.push_variant_row(row)?, 0);
        assert_eq!(rt; arena.file(), b"a.ml".as_slice());
        assert_eq!(rt; arena.literals()[0].as_slice(), b"hi".as_slice());
        assert_eq!(rt; arena.type_rows()[0].name.len(), 1);
        assert_eq!(rt; arena.types().len(), 1);
        assert_eq!(rt; arena.variant_rows()[0].argument, Some(0));
        Ok(())
    }

    #[test]
    fn fills_the_other_tables(rt: HostRuntime) -> Result<(), Fail> {
        let alloc = rt.alloc();
        let mut arena = CoreArena::new(alloc, Sequence::empty(alloc));
        let row = TypeRow {
            place: HERE,
            name: text(alloc, b"t")?,
            parameters: Sequence::empty(alloc),
        };
        arena.push_type_row(row)?;
        arena.push_type(TypeExpression::Any)?;
        let row = FieldRow {
            place: HERE,
            name: text(alloc, b"x")?,
            of_type: 0,
            index: 0,
            is_mutable: true,
            annotation: 0,
        };
        assert_eq!(rt; arena.push_field_row(row)?, 0);
        let row = ExceptionRow {
            place: HERE,
            name: text(alloc, b"Stop")?,
            argument: None,
        };
        assert_eq!(rt; arena.push_exception_row(row)?, 0);
        let row = EffectRow {
            place: HERE,
            name: text(alloc, b"E")?,
            argument: None,
            result: 0,
        };
        assert_eq!(rt; arena.push_effect_row(row)?, 0);
        assert!(rt; arena.field_rows()[0].is_mutable);
        assert_eq!(rt; arena.exception_rows()[0].argument, None);
        assert_eq!(rt; arena.effect_rows()[0].result, 0);
        Ok(())
    }

    #[test]
    fn gives_the_arena_back(rt: HostRuntime) -> Result<(), Fail> {
        let alloc = rt.alloc();
        let core = Core::finish(CoreArena::new(alloc, text(alloc, b"a.ml")?));
        let arena = core.into_arena();
        assert_eq!(rt; arena.file(), b"a.ml".as_slice());
        let bytes = text(alloc, b"hi")?.into_vec();
        assert_eq!(rt; bytes.len(), 2);
        Ok(())
    }
}
