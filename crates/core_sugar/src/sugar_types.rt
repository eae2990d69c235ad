//! What written types are made into.

use crate::builder::{Builder, Made};
use effect_meaning::{Sequence, TypeExpression};
use ml_syntax::Node;
use name_uses::{FUNCTION_TYPE, INT_TYPE, TUPLE_TYPE, TypeValue, Use};
use std::alloc::AllocError;

impl<'a> Builder<'a> {
    /// What a written type is made into; nothing where the node is none.
    pub fn make_type(&mut self, n: u32, node: &'a Node) -> Result<Made, AllocError> {
        let made = match node {
            Node::TypeVariable { .. } => match self.meaning(n) {
                Use::Variable(number) => self.push_type(TypeExpression::Variable(number))?,
                _ => return Err(AllocError),
            },
            Node::TypeAny { .. } => self.push_type(TypeExpression::Any)?,
            Node::TypeName { .. } => self.named_type(n, &[])?,
            Node::TypeApply { arguments, .. } => self.named_type(n, arguments.as_slice())?,
            Node::TypeBracket { inner, .. } => self.written(*inner)?,
            Node::TypeTuple { parts, .. } => self.applied(TUPLE_TYPE, parts.as_slice())?,
            Node::TypeArrow {
                argument,
                result,
                ..
            } => self.applied(FUNCTION_TYPE, &[*argument, *result])?,
            _ => return Ok(Made::Nothing),
        };
        Ok(Made::Type(made))
    }

    // A type constructor with its arguments.
    fn applied(&mut self, constructor: u32, arguments: &[u32]) -> Result<u32, AllocError> {
        let mut parts = Vec::with_capacity(self.alloc, arguments.len())?;
        for argument in arguments {
            parts.push(self.written(*argument)?)?;
        }
        self.push_type(TypeExpression::Applied {
            constructor,
            arguments: Sequence::from_vec(parts),
        })
    }

    // A type name with its arguments. The name that a handler literal makes takes none: with some
    // it stands for `int` with these, which is no type either.
    fn named_type(&mut self, n: u32, arguments: &[u32]) -> Result<u32, AllocError> {
        match self.meaning(n) {
            Use::Type(TypeValue::Row(row)) => self.applied(row, arguments),
            Use::Type(TypeValue::Variable(number)) if arguments.is_empty() => {
                self.push_type(TypeExpression::Variable(number))
            }
            Use::Type(TypeValue::Variable(_)) => self.applied(INT_TYPE, arguments),
            _ => Err(AllocError),
        }
    }
}
