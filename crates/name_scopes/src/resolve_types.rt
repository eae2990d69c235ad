//! The names in written types.

use crate::resolver::{Resolver, Task, TypeSite};
use fx_base::Place;
use ml_syntax::Node;
use name_uses::Use;
use std::alloc::AllocError;

impl<'a> Resolver<'a> {
    /// The names in a written type.
    pub fn type_expression(&mut self, n: u32) -> Result<(), AllocError> {
        match self.node(n) {
            Some(Node::TypeVariable { place, name }) => {
                self.type_variable(n, *place, name.as_slice())
            }
            Some(Node::TypeAny { place }) => {
                if self.site == TypeSite::Declaration {
                    self.groups.refuse(*place);
                }
                Ok(())
            }
            Some(Node::TypeName { name }) => {
                self.use_type(n, name);
                Ok(())
            }
            Some(
                Node::TypeApply {
                    arguments,
                    constructor,
                },
            ) => {
                self.use_type(n, constructor);
                self.types(arguments.as_slice())
            }
            Some(Node::TypeBracket { inner, .. }) => self.push(Task::Type(*inner)),
            Some(Node::TypeTuple { parts, .. }) => self.types(parts.as_slice()),
            Some(
                Node::TypeArrow {
                    argument,
                    result,
                    ..
                },
            ) => self.first(&[Task::Type(*argument), Task::Type(*result)]),
            _ => Ok(()),
        }
    }

    fn types(&mut self, parts: &[u32]) -> Result<(), AllocError> {
        for part in parts.iter().rev() {
            self.push(Task::Type(*part))?;
        }
        Ok(())
    }

    // A type variable. In a declaration it is one of the parameters.
    fn type_variable(&mut self, n: u32, place: Place, name: &'a [u8]) -> Result<(), AllocError> {
        let number = match self.variables.meaning(name) {
            Some(number) => number,
            None if self.site == TypeSite::Declaration => {
                self.groups.refuse(place);
                return Ok(());
            }
            None => {
                let number = self.new_variable()?;
                self.variables.bind(name, number)?;
                number
            }
        };
        self.uses.set(n, Use::Variable(number));
        Ok(())
    }
}
