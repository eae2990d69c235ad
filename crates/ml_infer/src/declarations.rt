//! What is asked of declarations: each type constructor has its number of arguments.

ghost use Rattle.std.specs.Prelude.{◌≡◌, map, OnOk, IfOk};
ghost use Rattle.ml_infer.specs.Declarations.{effect_declared, exception_declared, field_declared, type_declared, variant_declared};

use crate::constructors::Instance;
use crate::inference::Inference;
use crate::tasks::Task;
use crate::written::Variables;
use effect_meaning::CoreArena;
use std::alloc::AllocError;
use type_graph::EFFECT;

const CLOSED: Variables = Variables::Parameters { first: 0, count: 0 };

impl Inference {
    /// A type: its fields come first, and then its constructors.
    pub fn type_declared(&mut self, arena: &CoreArena, of_type: u32) -> Result<(), AllocError>
        ensures { OnOk result (self.new ≡ type_declared arena.now of_type self.old) }
    {
        let Instance { variables, .. } = self.instance(arena, of_type)?;
        let field = self.fields.first(of_type);
        let variant = self.variants.first(of_type);
        self.first(&[
            Task::FieldDeclared { field, variables },
            Task::VariantDeclared { variant, variables },
        ])
    }

    /// A field and those behind it.
    pub fn field_declared(
        &mut self,
        arena: &CoreArena,
        field: Option<u32>,
        variables: Variables,
    ) -> Result<(), AllocError>
        ensures { OnOk result (self.new ≡ field_declared arena.now field variables self.old) }
    {
        let Some(n) = field else {
            return Ok(());
        };
        let Some(row) = arena.field_rows().get(n as usize) else {
            return Ok(());
        };
        self.written(arena, row.annotation, variables, row.place)?;
        let field = self.fields.next(n);
        self.push(Task::FieldDeclared { field, variables })
    }

    /// A constructor and those behind it.
    pub fn variant_declared(
        &mut self,
        arena: &CoreArena,
        variant: Option<u32>,
        variables: Variables,
    ) -> Result<(), AllocError>
        ensures { OnOk result (self.new ≡ variant_declared arena.now variant variables self.old) }
    {
        let Some(n) = variant else {
            return Ok(());
        };
        let Some(row) = arena.variant_rows().get(n as usize) else {
            return Ok(());
        };
        self.declared_argument(arena, row.argument, variables, row.place)?;
        let variant = self.variants.next(n);
        self.push(Task::VariantDeclared { variant, variables })
    }

    /// An exception.
    pub fn exception_declared(&mut self, arena: &CoreArena, n: u32) -> Result<(), AllocError>
        ensures { OnOk result (self.new ≡ exception_declared arena.now n self.old) }
    {
        let Some(row) = arena.exception_rows().get(n as usize) else {
            return Ok(());
        };
        self.declared_argument(arena, row.argument, CLOSED, row.place)?;
        Ok(())
    }

    /// An effect, whose type is one of `Effect.t`.
    pub fn effect_declared(&mut self, arena: &CoreArena, n: u32) -> Result<(), AllocError>
        ensures { OnOk result (self.new ≡ effect_declared arena.now n self.old) }
    {
        let Some(row) = arena.effect_rows().get(n as usize) else {
            return Ok(());
        };
        self.declared_argument(arena, row.argument, CLOSED, row.place)?;
        let result = self.written(arena, row.result, CLOSED, row.place)?;
        if !self.types.form(result).is_of(EFFECT, 1) {
            self.refuse(row.place);
        }
        Ok(())
    }
}
