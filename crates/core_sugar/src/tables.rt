//! The rows of the built-in types, constructors and exceptions, which stand first in the tables.

use crate::builder::Builder;
use crate::places::NOWHERE;
use effect_meaning::{ExceptionRow, Sequence, TypeExpression, TypeRow, VariantRow};
use name_uses::TUPLE_TYPE;
use std::alloc::AllocError;

static TYPES: [(&[u8], usize); 17] = [
    (b"int", 0),
    (b"bool", 0),
    (b"char", 0),
    (b"string", 0),
    (b"unit", 0),
    (b"exn", 0),
    (b"list", 1),
    (b"option", 1),
    (b"ref", 1),
    (b"array", 1),
    (b"Effect.t", 1),
    (b"Effect.Deep.continuation", 2),
    (b"Effect.Shallow.continuation", 2),
    (b"Domain.t", 1),
    (b"Atomic.t", 1),
    (b"->", 2),
    (b"*", 0),
];

static PARAMETERS: [&[u8]; 2] = [b"'a", b"'b"];

const INT: u32 = 0;

const STRING: u32 = 3;

const LIST: u32 = 6;

const OPTION: u32 = 7;

impl<'a> Builder<'a> {
    fn builtin_type(&mut self, name: &[u8], count: usize) -> Result<(), AllocError> {
        let mut parameters = Vec::with_capacity(self.alloc, count)?;
        for parameter in PARAMETERS.iter().take(count) {
            parameters.push(self.text(parameter)?)?;
        }
        let name = self.text(name)?;
        self.push_type_row(TypeRow {
            place: NOWHERE,
            name,
            parameters: Sequence::from_vec(parameters),
        })?;
        Ok(())
    }

    fn builtin_variant(
        &mut self,
        name: &[u8],
        of_type: u32,
        argument: Option<u32>,
    ) -> Result<(), AllocError> {
        let name = self.text(name)?;
        self.push_variant_row(VariantRow {
            place: NOWHERE,
            name,
            of_type,
            argument,
        })?;
        Ok(())
    }

    fn builtin_exception(&mut self, name: &[u8], argument: Option<u32>) -> Result<(), AllocError> {
        let name = self.text(name)?;
        self.push_exception_row(ExceptionRow {
            place: NOWHERE,
            name,
            argument,
        })?;
        Ok(())
    }

    fn type_of(&mut self, constructor: u32, arguments: &[u32]) -> Result<u32, AllocError> {
        let arguments = Sequence::from_vec(Vec::from_slice(self.alloc, arguments)?);
        self.push_type(TypeExpression::Applied {
            constructor,
            arguments,
        })
    }

    fn builtin_variants(&mut self) -> Result<(), AllocError> {
        let element = self.push_type(TypeExpression::Variable(0))?;
        let list = self.type_of(LIST, &[element])?;
        let pair = self.type_of(TUPLE_TYPE, &[element, list])?;
        self.builtin_variant(b"None", OPTION, None)?;
        self.builtin_variant(b"Some", OPTION, Some(element))?;
        self.builtin_variant(b"[]", LIST, None)?;
        self.builtin_variant(b"::", LIST, Some(pair))
    }

    fn builtin_exceptions(&mut self) -> Result<(), AllocError> {
        let string = self.type_of(STRING, &[])?;
        let int = self.type_of(INT, &[])?;
        let failure = self.type_of(TUPLE_TYPE, &[string, int, int])?;
        let any = self.push_type(TypeExpression::Any)?;
        self.builtin_exception(b"Not_found", None)?;
        self.builtin_exception(b"Failure", Some(string))?;
        self.builtin_exception(b"Invalid_argument", Some(string))?;
        self.builtin_exception(b"Division_by_zero", None)?;
        self.builtin_exception(b"Match_failure", Some(failure))?;
        self.builtin_exception(b"Exit", None)?;
        self.builtin_exception(b"Effect.Unhandled", Some(any))?;
        self.builtin_exception(b"Effect.Continuation_already_resumed", None)?;
        self.builtin_exception(b"Queue.Empty", None)?;
        self.builtin_exception(b"Fiberq.Full", None)
    }

    /// The rows that each program's tables begin with.
    pub fn begin_tables(&mut self) -> Result<(), AllocError> {
        for (name, count) in TYPES {
            self.builtin_type(name, count)?;
        }
        self.builtin_variants()?;
        self.builtin_exceptions()
    }
}
