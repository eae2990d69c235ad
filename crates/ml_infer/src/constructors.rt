//! The types of constructors and fields.

ghost use Rattle.std.specs.Prelude.{◌≡◌, OnOk, IfOk};
ghost use Rattle.ml_infer.specs.Inference.{gives, valued};
ghost use Rattle.ml_infer.specs.Constructors.{answer_of, constant_row, constructed, constructed_effect, constructed_exception, constructed_unknown, constructed_variant, declared_argument, field_owner, field_type, instance, is_owner, new_variables, parameter_count, unhandled};

use crate::inference::Inference;
use crate::written::Variables;
use effect_meaning::{Constant, Constructor, CoreArena};
use fx_base::Place;
use std::alloc::AllocError;
use type_graph::{BOOL, CHAR, EXN, INT, STRING, UNIT};

/// The types of a use of a constructor: that of its argument, if it has one, and that of its value.
#[derive(Clone, Copy)]
pub struct Constructed {
    pub argument: Option<u32>,
    pub value: u32,
}

/// The parameters of a type, and the type with these.
#[derive(Clone, Copy)]
pub struct Instance {
    pub variables: Variables,
    pub value: u32,
}

const CLOSED: Variables = Variables::Parameters { first: 0, count: 0 };

/// The type of a constant.
pub fn constant_type(constant: Constant) -> u32
    ensures { result ≡ constant_row constant }
{
    match constant {
        Constant::Integer(_) => INT,
        Constant::Character(_) => CHAR,
        Constant::Boolean(_) => BOOL,
        Constant::Unit => UNIT,
        Constant::Literal(_) => STRING,
    }
}

/// Whether it is `Effect.Unhandled`, by its number among the exceptions.
pub fn is_unhandled(constructor: Constructor) -> bool
    ensures { result ≡ unhandled constructor }
{
    match constructor {
        Constructor::Exception(n) => n == 6,
        _ => false,
    }
}

// How many parameters a type has.
fn parameter_count(arena: &CoreArena, of_type: u32) -> usize
    ensures { result ≡ parameter_count arena.now of_type }
{
    match arena.type_rows().get(of_type as usize) {
        Some(row) => row.parameters.len(),
        None => 0,
    }
}

/// The record type of a field.
pub fn field_owner(arena: &CoreArena, field: u32) -> Option<u32>
    ensures { result ≡ field_owner arena.now field }
{
    match arena.field_rows().get(field as usize) {
        Some(row) => Some(row.of_type),
        None => None,
    }
}

/// Whether a field is one of this record type.
pub fn is_owner(arena: &CoreArena, of_type: u32, field: u32) -> bool
    ensures { result ≡ is_owner arena.now of_type field }
{
    match field_owner(arena, field) {
        Some(owner) => owner == of_type,
        None => false,
    }
}

impl Inference {
    /// So many new types, of which nothing is known.
    pub fn new_variables(&mut self, count: usize) -> Result<Vec<u32>, AllocError>
        ensures { IfOk result (λ found. new_variables count self.old ≡ valued found.items self.new) }
    {
        let mut found = Vec::with_capacity(self.types.alloc(), count)?;
        for _made in 0..count {
            found.push(self.variable()?)?;
        }
        Ok(found)
    }

    /// New types for the parameters of a type, and the type with these.
    pub fn instance(&mut self, arena: &CoreArena, of_type: u32) -> Result<Instance, AllocError>
        ensures { IfOk result (λ made. instance arena.now of_type self.old ≡ valued made self.new) }
    {
        let count = parameter_count(arena, of_type);
        if count > u32::MAX as usize {
            return Err(AllocError);
        }
        let parameters = self.new_variables(count)?;
        let value = self.types.apply(of_type, parameters.as_slice())?;
        let first = match parameters.first() {
            Some(first) => *first,
            None => 0,
        };
        let count = count as u32;
        Ok(Instance {
            variables: Variables::Parameters { first, count },
            value,
        })
    }

    /// The type of an argument, if there is one.
    pub fn declared_argument(
        &mut self,
        arena: &CoreArena,
        argument: Option<u32>,
        variables: Variables,
        place: Place,
    ) -> Result<Option<u32>, AllocError>
        ensures { IfOk result (λ found. declared_argument arena.now argument variables place self.old ≡ valued found self.new) }
    {
        match argument {
            Some(argument) => {
                let found = self.written(arena, argument, variables, place)?;
                Ok(Some(found))
            }
            None => Ok(None),
        }
    }

    /// The types of a use of a constructor.
    #[tactic(auto, unfolding(crate::specs::Constructors::constructed))]
    pub fn constructed(
        &mut self,
        arena: &CoreArena,
        constructor: Constructor,
        place: Place,
    ) -> Result<Constructed, AllocError>
        ensures { IfOk result (λ made. constructed arena.now constructor place self.old ≡ valued made self.new) }
    {
        match constructor {
            Constructor::Variant(n) => self.constructed_variant(arena, n, place),
            Constructor::Exception(n) => self.constructed_exception(arena, n, place),
            Constructor::Effect(n) => self.constructed_effect(arena, n, place),
        }
    }

    // An arena has the rows of all its constructors.
    fn constructed_unknown(&mut self) -> Result<Constructed, AllocError>
        ensures { IfOk result (λ made. constructed_unknown self.old ≡ valued made self.new) }
    {
        let value = self.variable()?;
        Ok(Constructed {
            argument: None,
            value,
        })
    }

    fn constructed_variant(
        &mut self,
        arena: &CoreArena,
        n: u32,
        place: Place,
    ) -> Result<Constructed, AllocError>
        ensures { IfOk result (λ made. constructed_variant arena.now n place self.old ≡ valued made self.new) }
    {
        let Some(row) = arena.variant_rows().get(n as usize) else {
            return self.constructed_unknown();
        };
        let made = self.instance(arena, row.of_type)?;
        let argument = self.declared_argument(arena, row.argument, made.variables, place)?;
        Ok(Constructed {
            argument,
            value: made.value,
        })
    }

    fn constructed_exception(
        &mut self,
        arena: &CoreArena,
        n: u32,
        place: Place,
    ) -> Result<Constructed, AllocError>
        ensures { IfOk result (λ made. constructed_exception arena.now n place self.old ≡ valued made self.new) }
    {
        let Some(row) = arena.exception_rows().get(n as usize) else {
            return self.constructed_unknown();
        };
        let argument = self.declared_argument(arena, row.argument, CLOSED, place)?;
        Ok(Constructed {
            argument,
            value: EXN,
        })
    }

    fn constructed_effect(
        &mut self,
        arena: &CoreArena,
        n: u32,
        place: Place,
    ) -> Result<Constructed, AllocError>
        ensures { IfOk result (λ made. constructed_effect arena.now n place self.old ≡ valued made self.new) }
    {
        let Some(row) = arena.effect_rows().get(n as usize) else {
            return self.constructed_unknown();
        };
        let argument = self.declared_argument(arena, row.argument, CLOSED, place)?;
        let value = self.written(arena, row.result, CLOSED, place)?;
        Ok(Constructed { argument, value })
    }

    /// The type of the value that an effect gives.
    pub fn answer(&mut self, effect: u32) -> Result<u32, AllocError>
        ensures { IfOk result (λ found. answer_of effect self.old ≡ gives found self.new) }
    {
        match self.types.argument(self.types.form(effect), 0) {
            Some(answer) => Ok(answer),
            None => self.variable(),
        }
    }

    /// The type of a field where the parameters of its record type stand for these types.
    pub fn field_type(
        &mut self,
        arena: &CoreArena,
        field: u32,
        variables: Variables,
        place: Place,
    ) -> Result<u32, AllocError>
        ensures { IfOk result (λ found. field_type arena.now field variables place self.old ≡ gives found self.new) }
    {
        match arena.field_rows().get(field as usize) {
            Some(row) => self.written(arena, row.annotation, variables, place),
            None => self.variable(),
        }
    }
}
