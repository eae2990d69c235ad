//! How items are spelled.

use crate::binding_pieces::bindings;
use crate::node::Name;
use crate::pieces::{Pieces, form, long_name, name, prefixed, word, words};
use crate::prog::{
    ConstructorDefinition, EffectDefinition, FieldDefinition, Item, TypeBody, TypeDefinition,
};
use std::alloc::AllocError;

fn constructor<'a>(
    pieces: &mut Pieces<'a>,
    definition: &'a ConstructorDefinition,
) -> Result<(), AllocError> {
    name(pieces, &definition.name)?;
    match definition.argument {
        Some(argument) => prefixed(pieces, b"of", argument),
        None => Ok(()),
    }
}

// Constructors, each behind a bar.
fn constructors<'a>(
    pieces: &mut Pieces<'a>,
    definitions: &'a [ConstructorDefinition],
) -> Result<(), AllocError> {
    for definition in definitions {
        word(pieces, b"|")?;
        constructor(pieces, definition)?;
    }
    Ok(())
}

// Fields between braces, with a semicolon behind each.
fn fields<'a>(
    pieces: &mut Pieces<'a>,
    definitions: &'a [FieldDefinition],
) -> Result<(), AllocError> {
    word(pieces, b"{")?;
    for field in definitions {
        if field.is_mutable {
            word(pieces, b"mutable")?;
        }
        name(pieces, &field.name)?;
        prefixed(pieces, b":", field.annotation)?;
        word(pieces, b";")?;
    }
    word(pieces, b"}")
}

// Type variables in brackets, unless there are none.
fn parameters<'a>(pieces: &mut Pieces<'a>, names: &'a [Name]) -> Result<(), AllocError> {
    let mut before: &[u8] = b"(";
    for each in names {
        word(pieces, before)?;
        name(pieces, each)?;
        before = b",";
    }
    if !names.is_empty() {
        word(pieces, b")")?;
    }
    Ok(())
}

fn types<'a>(pieces: &mut Pieces<'a>, definitions: &'a [TypeDefinition]) -> Result<(), AllocError> {
    let mut before: &[u8] = b"type";
    for definition in definitions {
        word(pieces, before)?;
        parameters(pieces, definition.parameters.as_slice())?;
        name(pieces, &definition.name)?;
        word(pieces, b"=")?;
        match &definition.body {
            TypeBody::Variant(definitions) => constructors(pieces, definitions.as_slice())?,
            TypeBody::Record(definitions) => fields(pieces, definitions.as_slice())?,
        }
        before = b"and";
    }
    Ok(())
}

// Effects, each behind a bar.
fn effects<'a>(
    pieces: &mut Pieces<'a>,
    definitions: &'a [EffectDefinition],
) -> Result<(), AllocError> {
    for definition in definitions {
        word(pieces, b"|")?;
        name(pieces, &definition.name)?;
        word(pieces, b":")?;
        if let Some(argument) = definition.argument {
            form(pieces, argument)?;
            word(pieces, b"->")?;
        }
        form(pieces, definition.result)?;
    }
    Ok(())
}

/// The pieces of an item, behind others.
pub(crate) fn item_pieces<'a>(pieces: &mut Pieces<'a>, item: &'a Item) -> Result<(), AllocError> {
    match item {
        Item::Expression { expression, .. } => form(pieces, *expression),
        Item::Let {
            is_recursive,
            bindings: bound,
            ..
        } => bindings(pieces, *is_recursive, bound.as_slice()),
        Item::Types { definitions, .. } => types(pieces, definitions.as_slice()),
        Item::Effects {
            extended,
            definitions,
            ..
        } => {
            words(pieces, b"type", b"_")?;
            long_name(pieces, extended)?;
            word(pieces, b"+=")?;
            effects(pieces, definitions.as_slice())
        }
        Item::Exception { definition, .. } => {
            word(pieces, b"exception")?;
            constructor(pieces, definition)
        }
        Item::Open { path, .. } => {
            word(pieces, b"open")?;
            long_name(pieces, path)
        }
    }
}
