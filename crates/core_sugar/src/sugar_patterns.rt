//! What patterns are made into.

use crate::builder::{Builder, Made};
use effect_meaning::{Constant, FieldPart, PatternForm, Sequence};
use fx_base::Place;
use ml_lexer::{character_byte, integer_value, string_bytes};
use ml_syntax::{Literal, LiteralKind, NamedPart, Node};
use name_uses::{CONS, GREATEST, LEAST, NIL, Use};
use std::alloc::AllocError;

impl<'a> Builder<'a> {
    /// The constant that a literal stands for.
    pub fn literal_constant(&mut self, literal: &Literal) -> Result<Constant, AllocError> {
        let text = literal.text.as_slice();
        match literal.kind {
            LiteralKind::Integer => match integer_value(text) {
                Some(value) if value <= GREATEST as u64 => Ok(Constant::Integer(value as i64)),
                _ => Ok(Constant::Integer(LEAST)),
            },
            LiteralKind::Character => match character_byte(text) {
                Some(byte) => Ok(Constant::Character(byte)),
                None => Err(AllocError),
            },
            LiteralKind::Text => match string_bytes(self.alloc, text) {
                Ok(bytes) => Ok(Constant::Literal(self.literal(Sequence::from_vec(bytes))?)),
                Err(_) => Err(AllocError),
            },
            LiteralKind::True => Ok(Constant::Boolean(true)),
            LiteralKind::False => Ok(Constant::Boolean(false)),
        }
    }

    // The parameter of `effc` is no name of Core: nothing is made of its pattern.
    fn is_nothing(&self, n: u32) -> bool {
        matches!(self.made(n), Made::Nothing)
    }

    /// What a pattern is made into; nothing where the node is none, or the parameter of `effc`.
    pub fn make_pattern(&mut self, n: u32, node: &'a Node) -> Result<Made, AllocError> {
        let place = self.place(n);
        let form = match node {
            Node::PatternAny { .. } => PatternForm::Any,
            Node::PatternName { .. } => match self.meaning(n) {
                Use::Name(number) => PatternForm::Name(number),
                _ => return Ok(Made::Nothing),
            },
            Node::PatternConstant { literal, .. } => {
                PatternForm::Constant(self.literal_constant(literal)?)
            }
            Node::PatternUnit { .. } => PatternForm::Constant(Constant::Unit),
            Node::PatternAnnotated { inner, .. } if self.is_nothing(*inner) => {
                return Ok(Made::Nothing);
            }
            Node::PatternAnnotated {
                inner,
                annotation,
                ..
            } => PatternForm::Annotated {
                pattern: self.pattern(*inner)?,
                annotation: self.written(*annotation)?,
            },
            Node::PatternTuple { parts, .. } => {
                PatternForm::Tuple(self.pattern_parts(parts.as_slice())?)
            }
            Node::PatternRecord { fields, .. } => {
                PatternForm::Record(self.pattern_fields(n, fields.as_slice())?)
            }
            Node::PatternOr { left, right, .. } => PatternForm::Or {
                left: self.pattern(*left)?,
                right: self.pattern(*right)?,
            },
            Node::PatternAlias { pattern, .. } => PatternForm::Alias {
                pattern: self.pattern(*pattern)?,
                name: self.bound_name(n)?,
            },
            other => return self.make_other_pattern(n, place, other),
        };
        Ok(Made::Pattern(self.push_pattern(place, form)?))
    }

    // Patterns with constructors, and brackets.
    fn make_other_pattern(
        &mut self,
        n: u32,
        place: Place,
        node: &'a Node,
    ) -> Result<Made, AllocError> {
        match node {
            Node::PatternBracket { inner, .. } => Ok(self.made(*inner)),
            Node::PatternList { parts, .. } => {
                let list = self.pattern_list(place, parts.as_slice())?;
                Ok(Made::Pattern(list))
            }
            Node::PatternCons { head, tail, .. } => {
                let (head, tail) = (self.pattern(*head)?, self.pattern(*tail)?);
                Ok(Made::Pattern(self.pattern_cons(place, head, tail)?))
            }
            Node::PatternConstructor { .. } => self.construct_pattern(n, place, None),
            Node::PatternConstruct { argument, .. } => {
                let argument = self.pattern(*argument)?;
                self.construct_pattern(n, place, Some(argument))
            }
            _ => Ok(Made::Nothing),
        }
    }

    /// The name that a node binds.
    pub fn bound_name(&self, n: u32) -> Result<u32, AllocError> {
        match self.meaning(n) {
            Use::Name(number) => Ok(number),
            _ => Err(AllocError),
        }
    }

    fn pattern_parts(&mut self, parts: &[u32]) -> Result<Sequence<u32>, AllocError> {
        let mut made = Vec::with_capacity(self.alloc, parts.len())?;
        for part in parts {
            made.push(self.pattern(*part)?)?;
        }
        Ok(Sequence::from_vec(made))
    }

    fn pattern_fields(
        &mut self,
        n: u32,
        fields: &[NamedPart],
    ) -> Result<Sequence<FieldPart>, AllocError> {
        let Use::Numbers(first) = self.meaning(n) else {
            return Err(AllocError);
        };
        let mut made = Vec::with_capacity(self.alloc, fields.len())?;
        for (i, field) in fields.iter().enumerate() {
            made.push(FieldPart {
                field: self.uses.number_behind(first, i),
                part: self.pattern(field.part)?,
            })?;
        }
        Ok(Sequence::from_vec(made))
    }

    fn construct_pattern(
        &self,
        n: u32,
        place: Place,
        argument: Option<u32>,
    ) -> Result<Made, AllocError> {
        match self.meaning(n) {
            Use::Constructor(constructor) => Ok(Made::Constructor {
                place,
                constructor,
                argument,
            }),
            _ => Err(AllocError),
        }
    }

    fn pattern_cons(&mut self, place: Place, head: u32, tail: u32) -> Result<u32, AllocError> {
        let parts = self.two(head, tail)?;
        let argument = self.push_pattern(place, PatternForm::Tuple(parts))?;
        self.push_pattern(
            place,
            PatternForm::Construct {
                constructor: CONS,
                argument,
            },
        )
    }

    fn pattern_list(&mut self, place: Place, parts: &[u32]) -> Result<u32, AllocError> {
        let mut list = self.push_pattern(place, PatternForm::Constructor(NIL))?;
        for part in parts.iter().rev() {
            let head = self.pattern(*part)?;
            list = self.pattern_cons(self.place(*part), head, list)?;
        }
        Ok(list)
    }
}
