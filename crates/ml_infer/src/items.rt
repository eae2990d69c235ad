//! The equations of items, and which names are generalised.

ghost use Rattle.std.specs.Prelude.{◌≡◌, map, OnOk, IfOk};
ghost use Rattle.ml_infer.specs.Inference.{gives};
ghost use Rattle.ml_infer.specs.Items.{defined, defined_rec, destructured, effects_declared, generalised, generalised_each, is_function_at, item_of, item_taken, items_taken, literal, literal_at, term_found, types_declared};

use crate::inference::{Inference, NameType};
use crate::tasks::Task;
use effect_meaning::{CoreArena, Function, Item, ItemForm, TermForm};
use fx_base::Place;
use std::alloc::{AllocError, Global};
use std::mem;
use type_graph::{EFFECT, Stack};

// Declared types to be checked, in their order.
fn type_tasks(alloc: Global, rows: &[u32]) -> Result<Vec<Task>, AllocError>
    ensures { IfOk result (λ tasks. tasks.items ≡ map (λ t. Task.TypeDeclared t) rows.now) }
{
    rows.iter()
        .map(|row| Task::TypeDeclared(*row))
        .collect(alloc)
}

// Declared effects to be checked, in their order.
fn effect_tasks(alloc: Global, rows: &[u32]) -> Result<Vec<Task>, AllocError>
    ensures { IfOk result (λ tasks. tasks.items ≡ map (λ n. Task.EffectDeclared n) rows.now) }
{
    rows.iter()
        .map(|row| Task::EffectDeclared(*row))
        .collect(alloc)
}

// Whether a term is a function literal, or the term behind its type, which tells that.
fn literal(form: &TermForm) -> Result<bool, u32>
    ensures { result ≡ literal form.now }
{
    match form {
        TermForm::Function { .. } => Ok(true),
        TermForm::Annotated { term, .. } => Err(*term),
        _ => Ok(false),
    }
}

// The same of the term of a number.
fn literal_at(arena: &CoreArena, n: u32) -> Result<bool, u32>
    ensures { result ≡ literal_at arena.now n }
{
    match arena.terms().get(n as usize) {
        Some(node) => literal(&node.form),
        None => Ok(false),
    }
}

// Whether a term is a function literal, which may have a type written to it.
fn is_function(arena: &CoreArena, term: u32) -> bool
    ensures { result ≡ is_function_at u32.MAX arena.now term }
{
    let mut at = term;
    for _annotation in 0..u32::MAX {
        match literal_at(arena, at) {
            Ok(is) => return is,
            Err(inner) => at = inner,
        }
    }
    false
}

impl Inference {
    /// The items of a program, from the first to the last, as long as there is no fault.
    pub fn items(&mut self, arena: &CoreArena) -> Result<(), AllocError>
        ensures { OnOk result (self.new ≡ items_taken arena.now arena.now.items self.old) }
    {
        for item in arena.items() {
            self.next_item(arena, item)?;
        }
        Ok(())
    }

    fn next_item(&mut self, arena: &CoreArena, item: &Item) -> Result<(), AllocError>
        ensures { OnOk result (self.new ≡ item_taken arena.now item.now self.old) }
    {
        if self.end.is_some() {
            return Ok(());
        }
        self.take_item(arena, item.place, &item.form)?;
        self.types.end_item()?;
        self.item = self.item.saturating_add(1);
        Ok(())
    }

    #[tactic(auto, unfolding(crate::specs::Items::item_of))]
    fn take_item(
        &mut self,
        arena: &CoreArena,
        place: Place,
        form: &ItemForm,
    ) -> Result<(), AllocError>
        ensures { OnOk result (self.new ≡ item_of form.now arena.now place self.old) }
    {
        match form {
            ItemForm::Types(rows) => self.declare_types(arena, rows.as_slice()),
            ItemForm::Exception(row) => self.exception_declared(arena, *row),
            ItemForm::Effects { extended, effects } => {
                if *extended != EFFECT {
                    self.refuse(place);
                }
                self.declare_effects(arena, effects.as_slice())
            }
            ItemForm::Define { name, value } => self.define(arena, *name, *value),
            ItemForm::Destructure { pattern, value } => {
                self.destructure(arena, *pattern, *value)
            }
            ItemForm::DefineRec(functions) => self.define_rec(arena, functions.as_slice()),
            ItemForm::Evaluate(term) => {
                self.term_found(arena, *term)?;
                Ok(())
            }
        }
    }

    fn declare_types(&mut self, arena: &CoreArena, rows: &[u32]) -> Result<(), AllocError>
        ensures { OnOk result (self.new ≡ types_declared arena.now rows.now self.old) }
    {
        let tasks = type_tasks(self.types.alloc(), rows)?;
        self.first(tasks.as_slice())?;
        self.finish(arena)
    }

    fn declare_effects(&mut self, arena: &CoreArena, rows: &[u32]) -> Result<(), AllocError>
        ensures { OnOk result (self.new ≡ effects_declared arena.now rows.now self.old) }
    {
        let tasks = effect_tasks(self.types.alloc(), rows)?;
        self.first(tasks.as_slice())?;
        self.finish(arena)
    }

    // The type of a term, whose equations are taken.
    fn term_found(&mut self, arena: &CoreArena, term: u32) -> Result<u32, AllocError>
        ensures { IfOk result (λ found. term_found arena.now term self.old ≡ gives found self.new) }
    {
        self.push(Task::Term(term))?;
        self.finish(arena)?;
        self.take()
    }

    // A name that is bound to a function literal is generalised.
    fn define(&mut self, arena: &CoreArena, name: u32, value: u32) -> Result<(), AllocError>
        ensures { OnOk result (self.new ≡ defined arena.now name value self.old) }
    {
        let found = self.term_found(arena, value)?;
        self.types.end_item()?;
        self.definitions.push(found)?;
        if is_function(arena, value) {
            return self.set_name(name, NameType::Generalised(found));
        }
        self.types.make_outer(found)?;
        self.set_one(name, found)
    }

    // What a pattern binds isn't generalised.
    fn destructure(&mut self, arena: &CoreArena, pattern: u32, value: u32) -> Result<(), AllocError>
        ensures { OnOk result (self.new ≡ destructured arena.now pattern value self.old) }
    {
        let found = self.term_found(arena, value)?;
        self.whole_pattern(pattern, found)?;
        self.finish(arena)?;
        self.definitions.push(found)?;
        self.bound.push(found)?;
        let bound = mem::replace(&mut self.bound, Stack::new(self.types.alloc()));
        self.types.make_each_outer(bound)
    }

    // The functions of a group are generalised behind it.
    fn define_rec(&mut self, arena: &CoreArena, functions: &[Function]) -> Result<(), AllocError>
        ensures { OnOk result (self.new ≡ defined_rec arena.now functions.now self.old) }
    {
        self.functions(functions)?;
        self.finish(arena)?;
        self.types.end_item()?;
        self.generalise_each(functions)
    }

    fn generalise_each(&mut self, functions: &[Function]) -> Result<(), AllocError>
        ensures { OnOk result (self.new ≡ generalised_each functions.now self.old) }
    {
        for function in functions {
            self.generalise(function.name)?;
        }
        Ok(())
    }

    // A function of a group.
    fn generalise(&mut self, name: u32) -> Result<(), AllocError>
        ensures { OnOk result (self.new ≡ generalised name self.old) }
    {
        let found = self.one_type(name)?;
        self.definitions.push(found)?;
        self.set_name(name, NameType::Generalised(found))
    }
}
