//! The definitions of types, exceptions and effects.

ghost use Rattle.std.specs.Prelude.{◌≡◌, Some, OnOk};
ghost use Rattle.ml_builder.specs.Definitions.{made_constructor, made_effect, made_field, made_head, made_record_type, made_variant_type};

use crate::reduction::Rule;
use crate::stack::Stack;
use ml_syntax::{
    ConstructorDefinition, EffectDefinition, FieldDefinition, Name, Sequence, TypeBody,
    TypeDefinition,
};
use std::alloc::AllocError;

/// A type that is about to be defined, with its parameters.
#[derive(Drop)]
pub struct TypeHead {
    pub parameters: Sequence<Name>,
    pub name: Name,
}

/// A constructor.
#[tactic(auto, unfolding(crate::specs::Definitions::made_constructor))]
pub fn build_constructor(
    rule: Rule,
    words: &mut Stack<Name>,
    numbers: &mut Stack<u32>,
    constructors: &mut Stack<ConstructorDefinition>,
) -> Result<(), AllocError>
    ensures { OnOk result (made_constructor rule words.old numbers.old constructors.old ≡ Some (words.new, numbers.new, constructors.new)) }
{
    match rule {
        Rule::PlainConstructor => {
            let name = words.pop()?;
            constructors.push(ConstructorDefinition {
                name,
                argument: None,
            })
        }
        Rule::ConstructorOf => {
            let argument = Some(numbers.pop()?);
            let name = words.pop()?;
            constructors.push(ConstructorDefinition { name, argument })
        }
        _ => Err(AllocError),
    }
}

/// A field of a record type.
#[tactic(auto, unfolding(crate::specs::Definitions::made_field))]
pub fn build_field(
    rule: Rule,
    words: &mut Stack<Name>,
    numbers: &mut Stack<u32>,
    fields: &mut Stack<FieldDefinition>,
) -> Result<(), AllocError>
    ensures { OnOk result (made_field rule words.old numbers.old fields.old ≡ Some (words.new, numbers.new, fields.new)) }
{
    match rule {
        Rule::FieldType => {
            let annotation = numbers.pop()?;
            let name = words.pop()?;
            fields.push(FieldDefinition {
                is_mutable: false,
                name,
                annotation,
            })
        }
        Rule::MutableFieldType => {
            let annotation = numbers.pop()?;
            let name = words.pop()?;
            fields.push(FieldDefinition {
                is_mutable: true,
                name,
                annotation,
            })
        }
        _ => Err(AllocError),
    }
}

/// A type that is about to be defined: so many words, the last of which is its name.
#[tactic(auto, unfolding(crate::specs::Definitions::made_head))]
pub fn build_head(
    count: usize,
    words: &mut Stack<Name>,
    heads: &mut Stack<TypeHead>,
) -> Result<(), AllocError>
    ensures { OnOk result (made_head count words.old heads.old ≡ Some (words.new, heads.new)) }
{
    if count == 0 {
        return Err(AllocError);
    }
    let name = words.pop()?;
    let parameters = words.take(count - 1)?;
    heads.push(TypeHead { parameters, name })
}

/// A variant type.
#[tactic(auto, unfolding(crate::specs::Definitions::made_variant_type))]
pub fn build_variant_type(
    count: usize,
    heads: &mut Stack<TypeHead>,
    constructors: &mut Stack<ConstructorDefinition>,
    types: &mut Stack<TypeDefinition>,
) -> Result<(), AllocError>
    ensures { OnOk result (made_variant_type count heads.old constructors.old types.old ≡ Some (heads.new, constructors.new, types.new)) }
{
    let TypeHead { parameters, name } = heads.pop()?;
    let body = TypeBody::Variant(constructors.take(count)?);
    types.push(TypeDefinition {
        parameters,
        name,
        body,
    })
}

/// A record type.
#[tactic(auto, unfolding(crate::specs::Definitions::made_record_type))]
pub fn build_record_type(
    count: usize,
    heads: &mut Stack<TypeHead>,
    fields: &mut Stack<FieldDefinition>,
    types: &mut Stack<TypeDefinition>,
) -> Result<(), AllocError>
    ensures { OnOk result (made_record_type count heads.old fields.old types.old ≡ Some (heads.new, fields.new, types.new)) }
{
    let TypeHead { parameters, name } = heads.pop()?;
    let body = TypeBody::Record(fields.take(count)?);
    types.push(TypeDefinition {
        parameters,
        name,
        body,
    })
}

/// An effect.
#[tactic(auto, unfolding(crate::specs::Definitions::made_effect))]
pub fn build_effect(
    rule: Rule,
    words: &mut Stack<Name>,
    numbers: &mut Stack<u32>,
    effects: &mut Stack<EffectDefinition>,
) -> Result<(), AllocError>
    ensures { OnOk result (made_effect rule words.old numbers.old effects.old ≡ Some (words.new, numbers.new, effects.new)) }
{
    match rule {
        Rule::PlainEffect => {
            let result = numbers.pop()?;
            let name = words.pop()?;
            effects.push(EffectDefinition {
                name,
                argument: None,
                result,
            })
        }
        Rule::EffectOf => {
            let result = numbers.pop()?;
            let argument = Some(numbers.pop()?);
            let name = words.pop()?;
            effects.push(EffectDefinition {
                name,
                argument,
                result,
            })
        }
        _ => Err(AllocError),
    }
}
