//! The names in expressions.

use crate::resolver::{Resolver, Task};
use ml_syntax::{Binding, Clause, EffectRule, NamedPart, Node};
use name_uses::Use;
use std::alloc::AllocError;

impl<'a> Resolver<'a> {
    /// The names in an expression.
    pub fn expression(&mut self, n: u32) -> Result<(), AllocError> {
        let Some(node) = self.node(n) else {
            return Ok(());
        };
        match node {
            Node::Variable { name } => {
                self.use_value(n, name);
                Ok(())
            }
            Node::Constructor { name } => {
                self.use_constructor(n, name);
                Ok(())
            }
            Node::Construct {
                constructor,
                argument,
            } => {
                self.use_constructor(n, constructor);
                self.push(Task::Expression(*argument))
            }
            Node::Annotated {
                inner,
                annotation,
                ..
            } => self.first(&[Task::Expression(*inner), Task::Type(*annotation)]),
            Node::Record { fields, .. } => self.record(n, fields.as_slice()),
            Node::Field { record, field } => {
                let row = self.field(field);
                self.uses.set(n, Use::Field(row));
                self.push(Task::Expression(*record))
            }
            Node::SetField {
                record,
                field,
                value,
                ..
            } => {
                let row = self.field(field);
                self.uses.set(n, Use::Field(row));
                self.first_parts(&[*record, *value])
            }
            other => self.plain_expression(n, other),
        }
    }

    // Expressions without names and scopes of their own.
    fn plain_expression(&mut self, n: u32, node: &'a Node) -> Result<(), AllocError> {
        match node {
            Node::Bracket { inner, .. } | Node::BeginEnd { inner, .. } => {
                self.push(Task::Expression(*inner))
            }
            Node::List { parts, .. }
            | Node::Array { parts, .. }
            | Node::Tuple { parts, .. }
            | Node::Sequence { parts, .. } => self.first_parts(parts.as_slice()),
            Node::While {
                condition,
                body,
                ..
            } => self.first_parts(&[*condition, *body]),
            Node::Dereference { operand, .. } | Node::Negate { operand, .. } => {
                self.push(Task::Expression(*operand))
            }
            Node::ArrayElement { array, index, .. } => self.first_parts(&[*array, *index]),
            Node::StringElement { string, index, .. } => self.first_parts(&[*string, *index]),
            Node::SetElement {
                array,
                index,
                value,
                ..
            } => self.first_parts(&[*array, *index, *value]),
            Node::Binary { left, right, .. } => self.first_parts(&[*left, *right]),
            Node::Apply {
                function,
                arguments,
            } => {
                self.first_parts(arguments.as_slice())?;
                self.push(Task::Expression(*function))
            }
            other => self.scoped_expression(n, other),
        }
    }

    // Expressions that bind names.
    fn scoped_expression(&mut self, n: u32, node: &'a Node) -> Result<(), AllocError> {
        match node {
            Node::If {
                condition,
                consequence,
                alternative,
                ..
            } => {
                if let Some(alternative) = alternative {
                    self.push(Task::Expression(*alternative))?;
                }
                self.first_parts(&[*condition, *consequence])
            }
            Node::For {
                name,
                first,
                last,
                body,
                ..
            } => {
                let leave = self.leaving();
                self.first(&[
                    Task::Expression(*first),
                    Task::Expression(*last),
                    Task::Counter { node: n, name },
                    Task::Expression(*body),
                    leave,
                ])
            }
            Node::Let {
                is_recursive,
                bindings,
                body,
                ..
            } => self.let_in(n, *is_recursive, bindings.as_slice(), *body),
            Node::Match {
                subject,
                clauses,
                ..
            } => {
                self.clauses(clauses.as_slice())?;
                self.push(Task::Expression(*subject))
            }
            Node::Try { body, clauses, .. } => {
                self.clauses(clauses.as_slice())?;
                self.push(Task::Expression(*body))
            }
            Node::Fun {
                parameters,
                body,
                ..
            } => self.function(parameters.as_slice(), None, *body),
            Node::Function { clauses, .. } => self.clauses(clauses.as_slice()),
            other => self.handler_expression(n, other),
        }
    }

    // The functions that take a handler, and handlers.
    fn handler_expression(&mut self, n: u32, node: &'a Node) -> Result<(), AllocError> {
        match node {
            Node::Handle {
                function,
                first,
                second,
                handler,
            } => {
                self.use_value(n, function);
                self.first_parts(&[*first, *second, *handler])
            }
            Node::Handler { fields, .. } => {
                for field in fields.as_slice().iter().rev() {
                    self.push(Task::Expression(field.part))?;
                }
                Ok(())
            }
            Node::EffectFunction {
                type_name,
                parameter,
                cases,
                ..
            } => {
                let types = self.scopes.types.bindings();
                if let Some(name) = type_name {
                    self.enter_type(n, name)?;
                }
                self.push(Task::LeaveTypes { types })?;
                self.push(Task::Expression(*cases))?;
                match self.node(*parameter) {
                    Some(Node::PatternAnnotated { annotation, .. }) => {
                        self.push(Task::Type(*annotation))
                    }
                    _ => Ok(()),
                }
            }
            Node::EffectCases { rules, .. } => {
                for rule in rules.as_slice().iter().rev() {
                    self.push(Task::Rule(*rule))?;
                }
                Ok(())
            }
            _ => Ok(()),
        }
    }

    fn record(&mut self, n: u32, fields: &'a [NamedPart]) -> Result<(), AllocError> {
        self.fields(n, fields)?;
        for field in fields.iter().rev() {
            self.push(Task::Expression(field.part))?;
        }
        Ok(())
    }

    fn clauses(&mut self, clauses: &'a [Clause]) -> Result<(), AllocError> {
        for clause in clauses.iter().rev() {
            self.push(Task::Clause(clause))?;
        }
        Ok(())
    }

    /// The names in a clause.
    pub fn clause(&mut self, clause: &'a Clause) -> Result<(), AllocError> {
        match clause {
            Clause::Value {
                pattern,
                guard,
                body,
            }
            | Clause::Exception {
                pattern,
                guard,
                body,
                ..
            } => {
                let bound = self.waiting();
                let leave = self.leaving();
                self.first(&[Task::Expression(*body), leave])?;
                if let Some(guard) = guard {
                    self.push(Task::Expression(*guard))?;
                }
                self.first(&[Task::Group, Task::Pattern(*pattern), Task::Enter { bound }])
            }
            Clause::Effect {
                pattern,
                continuation,
                body,
                ..
            } => self.resumption(*pattern, *continuation, *body),
        }
    }

    // The pattern of an effect, the name of the continuation, and the body behind them.
    fn resumption(&mut self, pattern: u32, continuation: u32, body: u32) -> Result<(), AllocError> {
        let bound = self.waiting();
        let leave = self.leaving();
        self.first(&[
            Task::Group,
            Task::Pattern(pattern),
            Task::Group,
            Task::Pattern(continuation),
            Task::Enter { bound },
            Task::Expression(body),
            leave,
        ])
    }

    /// The names in a rule of a handler.
    pub fn rule(&mut self, rule: EffectRule) -> Result<(), AllocError> {
        match self.node(rule.answer) {
            Some(
                Node::Resumption {
                    parameter,
                    body,
                    ..
                },
            ) => self.resumption(rule.pattern, *parameter, *body),
            _ => Ok(()),
        }
    }

    fn let_in(
        &mut self,
        n: u32,
        is_recursive: bool,
        bindings: &'a [Binding],
        body: u32,
    ) -> Result<(), AllocError> {
        let bound = self.waiting();
        let leave = self.leaving();
        self.uses.set(n, Use::Numbers(self.uses.len()));
        self.first(&[Task::Expression(body), leave])?;
        self.bindings(is_recursive, bindings, bound)
    }

    /// The names in the bindings of a `let`, which come into scope.
    pub fn bindings(
        &mut self,
        is_recursive: bool,
        bindings: &'a [Binding],
        bound: usize,
    ) -> Result<(), AllocError> {
        if !is_recursive {
            self.push(Task::Enter { bound })?;
        }
        for binding in bindings.iter().rev() {
            self.push(Task::Bound(binding))?;
        }
        if is_recursive {
            self.push(Task::Enter { bound })?;
        }
        let first = self.uses.len();
        for (i, binding) in bindings.iter().enumerate().rev() {
            let at = first.checked_add(i).ok_or(AllocError)?;
            self.push(Task::Binder { binding, at })?;
        }
        for _ in bindings {
            self.uses.add(0)?;
        }
        self.push(Task::Group)
    }

    /// The pattern or the name of a binding.
    pub fn binder(&mut self, binding: &'a Binding, at: usize) -> Result<(), AllocError> {
        match binding {
            Binding::Pattern { pattern, .. } => self.push(Task::Pattern(*pattern)),
            Binding::Named { name, .. } => {
                let number = self.groups.bind(name.text.as_slice(), name.place)?;
                self.uses.set_number(at, number);
                Ok(())
            }
        }
    }

    /// What a binding binds its names to.
    pub fn bound(&mut self, binding: &'a Binding) -> Result<(), AllocError> {
        match binding {
            Binding::Pattern { body, .. } => self.push(Task::Expression(*body)),
            Binding::Named {
                parameters,
                annotation,
                body,
                ..
            } => self.function(parameters.as_slice(), *annotation, *body),
        }
    }

    // A body behind parameters, each of which is a group of its own.
    fn function(
        &mut self,
        parameters: &[u32],
        annotation: Option<u32>,
        body: u32,
    ) -> Result<(), AllocError> {
        let bound = self.waiting();
        let leave = self.leaving();
        self.first(&[Task::Expression(body), leave])?;
        if let Some(annotation) = annotation {
            self.push(Task::Type(annotation))?;
        }
        self.push(Task::Enter { bound })?;
        for parameter in parameters.iter().rev() {
            self.first(&[Task::Group, Task::Pattern(*parameter)])?;
        }
        Ok(())
    }
}
