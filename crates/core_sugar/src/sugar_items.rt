//! What items are made into, and the rows of what they declare.

use crate::builder::{Builder, Made};
use effect_meaning::{EffectRow, ExceptionRow, FieldRow, ItemForm, Sequence, TypeRow, VariantRow};
use fx_base::Place;
use ml_syntax::{
    Binding, ConstructorDefinition, EffectDefinition, FieldDefinition, Item, TypeBody,
    TypeDefinition,
};
use name_uses::ItemUse;
use std::alloc::AllocError;

impl<'a> Builder<'a> {
    // Makes the node that comes next.
    fn make_next(&mut self) -> Result<(), AllocError> {
        let Some((n, node)) = self.next_node() else {
            return Err(AllocError);
        };
        let mut made = self.make_type(n, node)?;
        if let Made::Nothing = made {
            made = self.make_pattern(n, node)?;
        }
        if let Made::Nothing = made {
            made = self.make_term(n, node)?;
        }
        self.note(made)
    }

    // Makes the nodes up to this one.
    fn reach(&mut self, n: u32) -> Result<(), AllocError> {
        for _ in self.made_count()..n as usize + 1 {
            self.make_next()?;
        }
        Ok(())
    }

    /// The items of a program, from the first to the last.
    pub fn make_items(&mut self, items: &'a [Item]) -> Result<(), AllocError> {
        for (i, item) in items.iter().enumerate() {
            self.make_item(item, self.uses.of_item(i))?;
        }
        Ok(())
    }

    fn make_item(&mut self, item: &'a Item, found: ItemUse) -> Result<(), AllocError> {
        match item {
            Item::Expression { place, expression } => {
                self.reach(*expression)?;
                let term = self.term(*expression)?;
                self.push_item(*place, ItemForm::Evaluate(term))
            }
            Item::Let {
                place,
                is_recursive,
                bindings,
            } => self.make_let(*place, *is_recursive, bindings.as_slice(), found),
            Item::Types { place, definitions } => self.make_types(*place, definitions.as_slice()),
            Item::Effects {
                place,
                definitions,
                ..
            } => self.make_effects(*place, definitions.as_slice(), found),
            Item::Exception { place, definition } => self.make_exception(*place, definition),
            Item::Open { .. } => Ok(()),
        }
    }

    fn make_let(
        &mut self,
        place: Place,
        is_recursive: bool,
        bindings: &'a [Binding],
        found: ItemUse,
    ) -> Result<(), AllocError> {
        let ItemUse::Numbers(first) = found else {
            return Err(AllocError);
        };
        for binding in bindings {
            match binding {
                Binding::Pattern { body, .. } | Binding::Named { body, .. } => {
                    self.reach(*body)?
                }
            }
        }
        if is_recursive {
            let functions = self.rec_functions(place, bindings, first)?;
            return self.push_item(place, ItemForm::DefineRec(functions));
        }
        for (i, binding) in bindings.iter().enumerate() {
            self.make_binding(place, binding, self.uses.number_behind(first, i))?;
        }
        Ok(())
    }

    fn make_binding(
        &mut self,
        place: Place,
        binding: &'a Binding,
        name: u32,
    ) -> Result<(), AllocError> {
        let value = self.bound_term(place, binding)?;
        let pattern = self.bound_pattern(binding, name)?;
        if let Some(name) = self.name_of(pattern) {
            return self.push_item(place, ItemForm::Define { name, value });
        }
        self.push_item(place, ItemForm::Destructure { pattern, value })
    }

    fn make_types(
        &mut self,
        place: Place,
        definitions: &'a [TypeDefinition],
    ) -> Result<(), AllocError> {
        let mut rows = Vec::with_capacity(self.alloc, definitions.len())?;
        for definition in definitions {
            let row = self.make_type_row(definition)?;
            rows.push(row)?;
        }
        for (definition, row) in definitions.iter().zip(rows.as_slice()) {
            match &definition.body {
                TypeBody::Variant(constructors) => {
                    self.make_variants(*row, constructors.as_slice())?
                }
                TypeBody::Record(fields) => self.make_fields(*row, fields.as_slice())?,
            }
        }
        self.push_item(place, ItemForm::Types(Sequence::from_vec(rows)))
    }

    fn make_type_row(&mut self, definition: &TypeDefinition) -> Result<u32, AllocError> {
        let mut parameters = Vec::with_capacity(self.alloc, definition.parameters.len())?;
        for parameter in definition.parameters.as_slice() {
            parameters.push(self.text(parameter.text.as_slice())?)?;
        }
        let name = self.text(definition.name.text.as_slice())?;
        self.push_type_row(TypeRow {
            place: definition.name.place,
            name,
            parameters: Sequence::from_vec(parameters),
        })
    }

    // The type of an argument, if there is one.
    fn argument(&mut self, argument: Option<u32>) -> Result<Option<u32>, AllocError> {
        match argument {
            Some(argument) => {
                self.reach(argument)?;
                Ok(Some(self.written(argument)?))
            }
            None => Ok(None),
        }
    }

    fn make_variants(
        &mut self,
        of_type: u32,
        constructors: &'a [ConstructorDefinition],
    ) -> Result<(), AllocError> {
        for constructor in constructors {
            let argument = self.argument(constructor.argument)?;
            let name = self.text(constructor.name.text.as_slice())?;
            self.push_variant_row(VariantRow {
                place: constructor.name.place,
                name,
                of_type,
                argument,
            })?;
        }
        Ok(())
    }

    fn make_fields(
        &mut self,
        of_type: u32,
        fields: &'a [FieldDefinition],
    ) -> Result<(), AllocError> {
        let mut index = 0u32;
        for field in fields {
            self.reach(field.annotation)?;
            let annotation = self.written(field.annotation)?;
            let name = self.text(field.name.text.as_slice())?;
            self.push_field_row(FieldRow {
                place: field.name.place,
                name,
                of_type,
                index,
                is_mutable: field.is_mutable,
                annotation,
            })?;
            index = index.checked_add(1).ok_or(AllocError)?;
        }
        Ok(())
    }

    fn make_exception(
        &mut self,
        place: Place,
        definition: &ConstructorDefinition,
    ) -> Result<(), AllocError> {
        let argument = self.argument(definition.argument)?;
        let name = self.text(definition.name.text.as_slice())?;
        let row = self.push_exception_row(ExceptionRow {
            place: definition.name.place,
            name,
            argument,
        })?;
        self.push_item(place, ItemForm::Exception(row))
    }

    fn make_effects(
        &mut self,
        place: Place,
        definitions: &'a [EffectDefinition],
        found: ItemUse,
    ) -> Result<(), AllocError> {
        let ItemUse::Extended(extended) = found else {
            return Err(AllocError);
        };
        let mut effects = Vec::with_capacity(self.alloc, definitions.len())?;
        for definition in definitions {
            let argument = self.argument(definition.argument)?;
            self.reach(definition.result)?;
            let result = self.written(definition.result)?;
            let name = self.text(definition.name.text.as_slice())?;
            effects.push(self.push_effect_row(EffectRow {
                place: definition.name.place,
                name,
                argument,
                result,
            })?)?;
        }
        self.push_item(
            place,
            ItemForm::Effects {
                extended,
                effects: Sequence::from_vec(effects),
            },
        )
    }
}
