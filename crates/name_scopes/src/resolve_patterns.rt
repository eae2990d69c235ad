//! The names in patterns: those that they bind, and those that they use.

use crate::resolver::{Resolver, Task};
use ml_syntax::{NamedPart, Node};
use name_uses::Use;
use std::alloc::AllocError;

impl<'a> Resolver<'a> {
    /// The names in a pattern.
    pub fn pattern(&mut self, n: u32) -> Result<(), AllocError> {
        match self.node(n) {
            Some(Node::PatternName { place, name }) => self.bind_at(n, name.as_slice(), *place),
            Some(Node::PatternBracket { inner, .. }) => self.push(Task::Pattern(*inner)),
            Some(
                Node::PatternAnnotated {
                    inner,
                    annotation,
                    ..
                },
            ) => self.first(&[Task::Pattern(*inner), Task::Type(*annotation)]),
            Some(Node::PatternList { parts, .. } | Node::PatternTuple { parts, .. }) => {
                self.patterns(parts.as_slice())
            }
            Some(Node::PatternRecord { fields, .. }) => {
                self.pattern_record(n, fields.as_slice())
            }
            Some(Node::PatternCons { head, tail, .. }) => {
                self.first(&[Task::Pattern(*head), Task::Pattern(*tail)])
            }
            Some(other) => self.other_pattern(n, other),
            None => Ok(()),
        }
    }

    // Patterns with a constructor, and those that bind names together.
    fn other_pattern(&mut self, n: u32, node: &'a Node) -> Result<(), AllocError> {
        match node {
            Node::PatternConstructor { name } => {
                self.use_constructor(n, name);
                Ok(())
            }
            Node::PatternConstruct {
                constructor,
                argument,
            } => {
                self.use_constructor(n, constructor);
                self.push(Task::Pattern(*argument))
            }
            Node::PatternOr { left, right, .. } => {
                let turn = Task::Turn {
                    left: self.waiting(),
                };
                self.first(&[
                    Task::Pattern(*left),
                    turn,
                    Task::Pattern(*right),
                    Task::Join,
                ])
            }
            Node::PatternAlias { pattern, name, .. } => {
                self.first(&[Task::Pattern(*pattern), Task::Alias { node: n, name }])
            }
            _ => Ok(()),
        }
    }

    fn patterns(&mut self, parts: &[u32]) -> Result<(), AllocError> {
        for part in parts.iter().rev() {
            self.push(Task::Pattern(*part))?;
        }
        Ok(())
    }

    fn pattern_record(&mut self, n: u32, fields: &'a [NamedPart]) -> Result<(), AllocError> {
        self.fields(n, fields)?;
        for field in fields.iter().rev() {
            self.push(Task::Pattern(field.part))?;
        }
        Ok(())
    }

    /// The names of the fields of a record.
    pub fn fields(&mut self, n: u32, fields: &'a [NamedPart]) -> Result<(), AllocError> {
        self.uses.set(n, Use::Numbers(self.uses.len()));
        for field in fields {
            let row = self.field(&field.name);
            self.uses.add(row)?;
        }
        Ok(())
    }
}
