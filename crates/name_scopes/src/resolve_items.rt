//! The names in items, and those that they declare.

use crate::resolver::{Resolver, Task, TypeSite};
use effect_meaning::Constructor;
use ml_syntax::{
    Binding, ConstructorDefinition, EffectDefinition, FieldDefinition, Item, LongName, Name,
    TypeBody, TypeDefinition,
};
use name_uses::{ItemUse, TypeValue};
use std::alloc::AllocError;

/// How many rows each table of declarations has.
#[derive(Clone, Copy, Debug, PartialEq, Eq)]
pub struct Rows {
    pub types: u32,
    pub variants: u32,
    pub fields: u32,
    pub exceptions: u32,
    pub effects: u32,
}

fn next(count: &mut u32) -> Result<u32, AllocError> {
    let number = *count;
    *count = number.checked_add(1).ok_or(AllocError)?;
    Ok(number)
}

impl<'a> Resolver<'a> {
    /// The names in the items of a program, from the first to the last.
    pub fn items(&mut self, items: &'a [Item], rows: &mut Rows) -> Result<(), AllocError> {
        for item in items {
            self.variables.leave(0);
            self.variable_count = 0;
            self.site = TypeSite::Item;
            let found = self.item(item, rows)?;
            self.uses.add_item(found)?;
        }
        Ok(())
    }

    fn item(&mut self, item: &'a Item, rows: &mut Rows) -> Result<ItemUse, AllocError> {
        match item {
            Item::Expression { expression, .. } => {
                self.push(Task::Expression(*expression))?;
                self.finish()?;
                Ok(ItemUse::Nothing)
            }
            Item::Let {
                is_recursive,
                bindings,
                ..
            } => self.let_item(*is_recursive, bindings.as_slice()),
            Item::Types { definitions, .. } => {
                self.type_item(definitions.as_slice(), rows)?;
                Ok(ItemUse::Nothing)
            }
            Item::Effects {
                extended,
                definitions,
                ..
            } => self.effect_item(extended, definitions.as_slice(), rows),
            Item::Exception { definition, .. } => {
                self.site = TypeSite::Declaration;
                self.argument(definition.argument)?;
                let row = next(&mut rows.exceptions)?;
                self.declare(&definition.name, Constructor::Exception(row))?;
                Ok(ItemUse::Nothing)
            }
            Item::Open { path, .. } => {
                match self.scopes.module(path) {
                    Some(module) => self.scopes.open(module)?,
                    None => self.groups.refuse(path.place),
                }
                Ok(ItemUse::Nothing)
            }
        }
    }

    fn let_item(
        &mut self,
        is_recursive: bool,
        bindings: &'a [Binding],
    ) -> Result<ItemUse, AllocError> {
        let bound = self.waiting();
        let first = self.uses.len();
        self.bindings(is_recursive, bindings, bound)?;
        self.finish()?;
        self.groups.keep(bound);
        Ok(ItemUse::Numbers(first))
    }

    // A constructor comes into scope.
    fn declare(&mut self, name: &'a Name, constructor: Constructor) -> Result<(), AllocError> {
        self.scopes
            .constructors
            .bind(name.text.as_slice(), constructor)
    }

    // The names in the type of an argument, if there is one.
    fn argument(&mut self, argument: Option<u32>) -> Result<(), AllocError> {
        if let Some(argument) = argument {
            self.push(Task::Type(argument))?;
        }
        self.finish()
    }

    fn type_item(
        &mut self,
        definitions: &'a [TypeDefinition],
        rows: &mut Rows,
    ) -> Result<(), AllocError> {
        self.groups.begin();
        for definition in definitions {
            let name = &definition.name;
            self.groups.list(name.text.as_slice(), name.place)?;
            let row = next(&mut rows.types)?;
            self.scopes
                .types
                .bind(name.text.as_slice(), TypeValue::Row(row))?;
        }
        self.site = TypeSite::Declaration;
        for definition in definitions {
            self.type_definition(definition, rows)?;
        }
        Ok(())
    }

    fn type_definition(
        &mut self,
        definition: &'a TypeDefinition,
        rows: &mut Rows,
    ) -> Result<(), AllocError> {
        self.variables.leave(0);
        self.groups.begin();
        let mut number = 0;
        for parameter in definition.parameters.as_slice() {
            self.groups
                .list(parameter.text.as_slice(), parameter.place)?;
            self.variables.bind(parameter.text.as_slice(), number)?;
            next(&mut number)?;
        }
        self.groups.begin();
        match &definition.body {
            TypeBody::Variant(constructors) => self.variant(constructors.as_slice(), rows),
            TypeBody::Record(fields) => self.record_type(fields.as_slice(), rows),
        }
    }

    fn variant(
        &mut self,
        constructors: &'a [ConstructorDefinition],
        rows: &mut Rows,
    ) -> Result<(), AllocError> {
        for constructor in constructors {
            let name = &constructor.name;
            self.groups.list(name.text.as_slice(), name.place)?;
            self.argument(constructor.argument)?;
            let row = next(&mut rows.variants)?;
            self.declare(name, Constructor::Variant(row))?;
        }
        Ok(())
    }

    fn record_type(
        &mut self,
        fields: &'a [FieldDefinition],
        rows: &mut Rows,
    ) -> Result<(), AllocError> {
        for field in fields {
            let name = &field.name;
            self.groups.list(name.text.as_slice(), name.place)?;
            self.argument(Some(field.annotation))?;
            let row = next(&mut rows.fields)?;
            self.scopes.fields.bind(name.text.as_slice(), row)?;
        }
        Ok(())
    }

    fn effect_item(
        &mut self,
        extended: &LongName,
        definitions: &'a [EffectDefinition],
        rows: &mut Rows,
    ) -> Result<ItemUse, AllocError> {
        let found = match self.scopes.type_named(extended) {
            Some(TypeValue::Row(row)) => ItemUse::Extended(row),
            _ => {
                self.groups.refuse(extended.place);
                ItemUse::Nothing
            }
        };
        for definition in definitions {
            self.argument(definition.argument)?;
            self.argument(Some(definition.result))?;
        }
        for definition in definitions {
            let row = next(&mut rows.effects)?;
            self.declare(&definition.name, Constructor::Effect(row))?;
        }
        Ok(found)
    }
}
