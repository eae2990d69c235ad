//! The walk over a program that finds what each name stands for.
//!
//! The walk keeps what is still to be done on a stack of its own, so that no text is too long for it.

use crate::groups::Groups;
use crate::names::Names;
use crate::scopes::Scopes;
use fx_base::Place;
use ml_syntax::{Binding, Clause, EffectRule, LongName, Name, Node};
use name_uses::{TypeValue, Use, Uses, Value};
use std::alloc::{AllocError, Global};

/// Something that is still to be done.
#[derive(Clone, Copy)]
pub enum Task<'a> {
    /// An expression, in the scope that is then.
    Expression(u32),
    /// A pattern, whose names belong to the group that is then.
    Pattern(u32),
    Type(u32),
    Clause(&'a Clause),
    Rule(EffectRule),
    /// The pattern or the name of a binding. A name's number goes to a place among the numbers.
    Binder { binding: &'a Binding, at: usize },
    /// What a binding binds its names to.
    Bound(&'a Binding),
    /// A group of names begins.
    Group,
    /// Between the sides of an or-pattern, whose left side has bound the names from here on.
    Turn { left: usize },
    /// Behind an or-pattern.
    Join,
    /// An alias of the pattern before.
    Alias { node: u32, name: &'a Name },
    /// The variable of a `for`.
    Counter { node: u32, name: &'a Name },
    /// The names that were bound from here on come into scope.
    Enter { bound: usize },
    /// The names that were bound from here on go, and the bindings behind the first ones.
    Leave { bound: usize, values: usize },
    /// The type names go, but for the first ones.
    LeaveTypes { types: usize },
}

/// Where the types stand that are read.
#[derive(Clone, Copy, PartialEq, Eq)]
pub enum TypeSite {
    /// In an expression, a pattern or an effect, where each type variable is one of the item's.
    Item,
    /// In a declaration, where a type variable is a parameter and no blank stands.
    Declaration,
}

/// The walk.
#[derive(Drop)]
pub struct Resolver<'a> {
    pub scopes: Scopes<'a>,
    pub groups: Groups<'a>,
    /// The type variables of the item, or the parameters of the declaration.
    pub variables: Names<'a, u32>,
    pub variable_count: u32,
    pub site: TypeSite,
    pub uses: Uses,
    nodes: &'a [Node],
    tasks: Vec<Task<'a>>,
}

impl<'a> Resolver<'a> {
    /// The walk over these nodes.
    pub fn new(
        alloc: Global,
        scopes: Scopes<'a>,
        groups: Groups<'a>,
        nodes: &'a [Node],
    ) -> Result<Resolver<'a>, AllocError> {
        Ok(Resolver {
            scopes,
            groups,
            variables: Names::new(alloc),
            variable_count: 0,
            site: TypeSite::Item,
            uses: Uses::new(alloc, nodes.len())?,
            nodes,
            tasks: Vec::new(alloc),
        })
    }

    /// What is kept for the next walk, and what was found.
    pub fn end(self) -> (Scopes<'a>, Groups<'a>, Uses) {
        let Resolver {
            scopes,
            groups,
            variables: _,
            variable_count: _,
            site: _,
            uses,
            nodes: _,
            tasks: _,
        } = self;
        (scopes, groups, uses)
    }

    /// Puts tasks before all others, the first of them to be done first.
    pub fn first(&mut self, tasks: &[Task<'a>]) -> Result<(), AllocError> {
        for task in tasks.iter().rev() {
            self.tasks.push(*task)?;
        }
        Ok(())
    }

    /// Puts the parts of a form before all others.
    pub fn first_parts(&mut self, parts: &[u32]) -> Result<(), AllocError> {
        for part in parts.iter().rev() {
            self.tasks.push(Task::Expression(*part))?;
        }
        Ok(())
    }

    /// Puts one task before all others.
    pub fn push(&mut self, task: Task<'a>) -> Result<(), AllocError> {
        self.tasks.push(task)?;
        Ok(())
    }

    /// Does all that is still to be done.
    pub fn finish(&mut self) -> Result<(), AllocError> {
        for _ in 0..u64::MAX {
            let Some(task) = self.tasks.pop() else {
                return Ok(());
            };
            self.act(task)?;
        }
        Ok(())
    }

    fn act(&mut self, task: Task<'a>) -> Result<(), AllocError> {
        match task {
            Task::Expression(n) => self.expression(n),
            Task::Pattern(n) => self.pattern(n),
            Task::Type(n) => self.type_expression(n),
            Task::Clause(clause) => self.clause(clause),
            Task::Rule(rule) => self.rule(rule),
            Task::Binder { binding, at } => self.binder(binding, at),
            Task::Bound(binding) => self.bound(binding),
            Task::Alias { node, name } => self.bind_at(node, name.text.as_slice(), name.place),
            Task::Counter { node, name } => self.counter(node, name),
            other => self.turn(other),
        }
    }

    // Tasks that only change the scopes.
    fn turn(&mut self, task: Task<'a>) -> Result<(), AllocError> {
        match task {
            Task::Group => self.groups.begin(),
            Task::Turn { left } => self.groups.turn(left)?,
            Task::Join => self.groups.join()?,
            Task::Enter { bound } => self.enter(bound)?,
            Task::Leave { bound, values } => {
                self.scopes.values.leave(values);
                self.groups.keep(bound);
            }
            Task::LeaveTypes { types } => self.scopes.types.leave(types),
            _ => {}
        }
        Ok(())
    }

    /// The node of a number, if it is there.
    pub fn node(&self, n: u32) -> Option<&'a Node> {
        self.nodes.get(n as usize)
    }

    /// How many names are bound and wait for their scope.
    pub fn waiting(&self) -> usize {
        self.groups.bound().len()
    }

    /// Leaves the scope of the names that are bound from now on.
    pub fn leaving(&self) -> Task<'a> {
        Task::Leave {
            bound: self.waiting(),
            values: self.scopes.values.bindings(),
        }
    }

    /// Brings the names that were bound from here on into scope.
    pub fn enter(&mut self, bound: usize) -> Result<(), AllocError> {
        for i in bound..self.groups.bound().len() {
            if let Some(name) = self.groups.bound().get(i) {
                let (text, number) = (name.name, name.number);
                self.scopes.values.bind(text, Value::Name(number))?;
            }
        }
        Ok(())
    }

    /// Binds a name of a node in the group.
    pub fn bind_at(&mut self, node: u32, name: &'a [u8], place: Place) -> Result<(), AllocError> {
        let number = self.groups.bind(name, place)?;
        self.uses.set(node, Use::Name(number));
        Ok(())
    }

    // The variable of a `for` comes into scope.
    fn counter(&mut self, node: u32, name: &'a Name) -> Result<(), AllocError> {
        let number = self.groups.new_name()?;
        self.uses.set(node, Use::Name(number));
        self.scopes
            .values
            .bind(name.text.as_slice(), Value::Name(number))
    }

    /// Notes what a lower name stands for as an expression.
    pub fn use_value(&mut self, node: u32, name: &LongName) {
        match self.scopes.value(name) {
            Some(value) => self.uses.set(node, Use::Value(value)),
            None => self.groups.refuse(name.place),
        }
    }

    /// Notes what an upper name stands for.
    pub fn use_constructor(&mut self, node: u32, name: &LongName) {
        match self.scopes.constructor(name) {
            Some(constructor) => self.uses.set(node, Use::Constructor(constructor)),
            None => self.groups.refuse(name.place),
        }
    }

    /// Notes what a lower name stands for as a type.
    pub fn use_type(&mut self, node: u32, name: &LongName) {
        match self.scopes.type_named(name) {
            Some(meaning) => self.uses.set(node, Use::Type(meaning)),
            None => self.groups.refuse(name.place),
        }
    }

    /// The row of the field of this name; 0 where there is none, which is a breach.
    pub fn field(&mut self, name: &Name) -> u32 {
        match self.scopes.fields.meaning(name.text.as_slice()) {
            Some(row) => row,
            None => {
                self.groups.refuse(name.place);
                0
            }
        }
    }

    /// A new type variable of the item.
    pub fn new_variable(&mut self) -> Result<u32, AllocError> {
        let number = self.variable_count;
        self.variable_count = number.checked_add(1).ok_or(AllocError)?;
        Ok(number)
    }

    /// Brings the name of a handler's `(type a)` into scope.
    pub fn enter_type(&mut self, node: u32, name: &'a Name) -> Result<(), AllocError> {
        let number = self.new_variable()?;
        self.uses.set(node, Use::Variable(number));
        self.scopes
            .types
            .bind(name.text.as_slice(), TypeValue::Variable(number))
    }
}
