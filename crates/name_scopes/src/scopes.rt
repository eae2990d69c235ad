//! The names that are in scope, and the look-ups.

use crate::builtins::{
    Module, ModuleType, ModuleValue, constructors_of, find, module_named, module_within,
    plain_constructors, plain_types, plain_values, type_of, values_of,
};
use crate::names::Names;
use effect_meaning::Constructor;
use ml_syntax::LongName;
use name_uses::{TypeValue, Value};
use std::alloc::{AllocError, Global};

/// The names that are in scope.
#[derive(Drop)]
pub struct Scopes<'a> {
    pub values: Names<'a, Value>,
    pub constructors: Names<'a, Constructor>,
    pub fields: Names<'a, u32>,
    pub types: Names<'a, TypeValue>,
    prelude_values: Names<'a, Value>,
    prelude_types: Names<'a, TypeValue>,
    effect_opened: bool,
}

impl<'a> Scopes<'a> {
    /// The built-in names.
    pub fn new(alloc: Global) -> Result<Scopes<'a>, AllocError> {
        let mut values = Names::new(alloc);
        for named in plain_values() {
            values.bind(named.name, named.meaning)?;
        }
        let mut constructors = Names::new(alloc);
        for named in plain_constructors() {
            constructors.bind(named.name, named.meaning)?;
        }
        let mut types = Names::new(alloc);
        for named in plain_types() {
            types.bind(named.name, TypeValue::Row(named.meaning))?;
        }
        Ok(Scopes {
            values,
            constructors,
            fields: Names::new(alloc),
            types,
            prelude_values: Names::new(alloc),
            prelude_types: Names::new(alloc),
            effect_opened: false,
        })
    }

    // Keeps the prelude's definitions that a module's names stand for.
    fn keep_module(&mut self, module: Module) -> Result<(), AllocError> {
        for named in values_of(module) {
            if let ModuleValue::Prelude(name) = named.meaning
                && let Some(value) = self.values.meaning(name)
            {
                self.prelude_values.bind(name, value)?;
            }
        }
        if let Some(named) = type_of(module)
            && let ModuleType::Prelude(name) = named.meaning
            && let Some(row) = self.types.meaning(name)
        {
            self.prelude_types.bind(name, row)?;
        }
        Ok(())
    }

    /// Behind the prelude: its names are reached through modules alone.
    pub fn end_prelude(&mut self) -> Result<(), AllocError> {
        self.keep_module(Module::List)?;
        self.keep_module(Module::Queue)?;
        self.keep_module(Module::Fiberq)?;
        self.values.leave(plain_values().len());
        self.types.leave(plain_types().len());
        self.fields.leave(0);
        Ok(())
    }

    fn value_in(&self, module: Module, name: &[u8]) -> Option<Value> {
        match find(values_of(module), name)? {
            ModuleValue::Known(value) => Some(value),
            ModuleValue::Prelude(name) => self.prelude_values.meaning(name),
        }
    }

    fn module_type(&self, meaning: ModuleType) -> Option<TypeValue> {
        match meaning {
            ModuleType::Row(row) => Some(TypeValue::Row(row)),
            ModuleType::Prelude(name) => self.prelude_types.meaning(name),
        }
    }

    fn type_in(&self, module: Module, name: &[u8]) -> Option<TypeValue> {
        let named = type_of(module)?;
        if named.name == name {
            self.module_type(named.meaning)
        } else {
            None
        }
    }

    // The module of a path that isn't empty.
    fn module_of(&self, name: &LongName) -> Option<Module> {
        let (first, rest) = name.path.as_slice().split_first()?;
        let mut module = module_named(first.as_slice(), self.effect_opened)?;
        for part in rest {
            module = module_within(module, part.as_slice())?;
        }
        Some(module)
    }

    /// The module that a whole name stands for.
    pub fn module(&self, name: &LongName) -> Option<Module> {
        let last = name.last.text.as_slice();
        if name.path.len() == 0 {
            module_named(last, self.effect_opened)
        } else {
            module_within(self.module_of(name)?, last)
        }
    }

    /// What a lower name stands for as an expression.
    pub fn value(&self, name: &LongName) -> Option<Value> {
        let last = name.last.text.as_slice();
        if name.path.len() == 0 {
            self.values.meaning(last)
        } else {
            self.value_in(self.module_of(name)?, last)
        }
    }

    /// What an upper name stands for as a constructor.
    pub fn constructor(&self, name: &LongName) -> Option<Constructor> {
        let last = name.last.text.as_slice();
        if name.path.len() == 0 {
            self.constructors.meaning(last)
        } else {
            find(constructors_of(self.module_of(name)?), last)
        }
    }

    /// What a lower name stands for as a type.
    pub fn type_named(&self, name: &LongName) -> Option<TypeValue> {
        let last = name.last.text.as_slice();
        if name.path.len() == 0 {
            self.types.meaning(last)
        } else {
            self.type_in(self.module_of(name)?, last)
        }
    }

    /// The name of the prelude's function that appends two lists.
    pub fn append(&self) -> Option<u32> {
        match self.prelude_values.meaning(b"list_append".as_slice()) {
            Some(Value::Name(number)) => Some(number),
            _ => None,
        }
    }

    // Brings the values of a module into scope.
    fn open_values(&mut self, module: Module) -> Result<(), AllocError> {
        for named in values_of(module) {
            if let Some(value) = self.value_in(module, named.name) {
                self.values.bind(named.name, value)?;
            }
        }
        Ok(())
    }

    /// Brings the names of a module into scope.
    pub fn open(&mut self, module: Module) -> Result<(), AllocError> {
        self.open_values(module)?;
        for named in constructors_of(module) {
            self.constructors.bind(named.name, named.meaning)?;
        }
        if let Some(named) = type_of(module)
            && let Some(meaning) = self.module_type(named.meaning)
        {
            self.types.bind(named.name, meaning)?;
        }
        if module == Module::Effect {
            self.effect_opened = true;
        }
        Ok(())
    }
}
