//! What expressions are made into.

use crate::builder::{Builder, Made};
use effect_meaning::{Comparison, Constant, Constructor, FieldPart, Operation, Sequence, TermForm};
use fx_base::Place;
use ml_syntax::{BinaryOperator, NamedPart, Node};
use name_uses::{Builtin, CONS, LEAST, NIL, Use, Value};
use std::alloc::AllocError;

// The operation that an infix operator stands for, if it is one.
fn arithmetic(operator: BinaryOperator) -> Option<Operation> {
    match operator {
        BinaryOperator::ShiftLeft => Some(Operation::ShiftLeft),
        BinaryOperator::ShiftRightLogical => Some(Operation::ShiftRightLogical),
        BinaryOperator::ShiftRightArithmetic => Some(Operation::ShiftRightArithmetic),
        BinaryOperator::Multiply => Some(Operation::Multiply),
        BinaryOperator::Divide => Some(Operation::Divide),
        BinaryOperator::Modulo => Some(Operation::Modulo),
        BinaryOperator::LogicalAnd => Some(Operation::LogicalAnd),
        BinaryOperator::LogicalOr => Some(Operation::LogicalOr),
        BinaryOperator::LogicalXor => Some(Operation::LogicalXor),
        BinaryOperator::Add => Some(Operation::Add),
        BinaryOperator::Subtract => Some(Operation::Subtract),
        _ => None,
    }
}

// The operation that an infix operator stands for, if it is one.
fn operation(operator: BinaryOperator) -> Option<Operation> {
    match operator {
        BinaryOperator::Concatenate => Some(Operation::Concatenate),
        BinaryOperator::Equal => Some(Operation::Compare(Comparison::Equal)),
        BinaryOperator::Different => Some(Operation::Compare(Comparison::Different)),
        BinaryOperator::Below => Some(Operation::Compare(Comparison::Below)),
        BinaryOperator::Above => Some(Operation::Compare(Comparison::Above)),
        BinaryOperator::AtMost => Some(Operation::Compare(Comparison::AtMost)),
        BinaryOperator::AtLeast => Some(Operation::Compare(Comparison::AtLeast)),
        BinaryOperator::Same => Some(Operation::Same),
        BinaryOperator::NotSame => Some(Operation::Other),
        BinaryOperator::Assign => Some(Operation::SetReference),
        other => arithmetic(other),
    }
}

impl<'a> Builder<'a> {
    /// What an expression is made into; nothing where the node is none.
    pub fn make_term(&mut self, n: u32, node: &'a Node) -> Result<Made, AllocError> {
        let place = self.place(n);
        let form = match node {
            Node::Variable { .. } => return self.variable(n, place),
            Node::Bracket { inner, .. } | Node::BeginEnd { inner, .. } => {
                return self.bracket(*inner);
            }
            Node::Constant { literal, .. } => TermForm::Constant(self.literal_constant(literal)?),
            Node::LeastInteger { .. } => TermForm::Constant(Constant::Integer(LEAST)),
            Node::Unit { .. } => TermForm::Constant(Constant::Unit),
            Node::Constructor { .. } => TermForm::Constructor(self.constructor(n)?),
            Node::Construct { argument, .. } => TermForm::Construct {
                constructor: self.constructor(n)?,
                argument: self.term(*argument)?,
            },
            Node::Annotated {
                inner,
                annotation,
                ..
            } => TermForm::Annotated {
                term: self.term(*inner)?,
                annotation: self.written(*annotation)?,
            },
            Node::Array { parts, .. } => TermForm::Array(self.parts(parts.as_slice())?),
            Node::Tuple { parts, .. } => TermForm::Tuple(self.parts(parts.as_slice())?),
            Node::Record { fields, .. } => {
                TermForm::Record(self.record_parts(n, fields.as_slice())?)
            }
            Node::Field { record, .. } => TermForm::Field {
                field: self.field(n)?,
                record: self.term(*record)?,
            },
            other => return self.make_operation(n, place, other),
        };
        Ok(Made::Term(self.push_term(place, form)?))
    }

    // Operations, and forms that are made into several.
    fn make_operation(&mut self, n: u32, place: Place, node: &'a Node) -> Result<Made, AllocError> {
        let made = match node {
            Node::SetField { record, value, .. } => {
                let form = TermForm::SetField {
                    field: self.field(n)?,
                    record: self.term(*record)?,
                    value: self.term(*value)?,
                };
                self.push_term(place, form)?
            }
            Node::Dereference { operand, .. } => {
                self.primitive(place, Operation::GetReference, &[*operand])?
            }
            Node::Negate { operand, .. } => {
                self.primitive(place, Operation::Negate, &[*operand])?
            }
            Node::ArrayElement { array, index, .. } => {
                self.primitive(place, Operation::ArrayGet, &[*array, *index])?
            }
            Node::StringElement { string, index, .. } => {
                self.primitive(place, Operation::StringGet, &[*string, *index])?
            }
            Node::SetElement {
                array,
                index,
                value,
                ..
            } => self.primitive(place, Operation::ArraySet, &[*array, *index, *value])?,
            Node::List { parts, .. } => self.list(place, parts.as_slice())?,
            Node::Sequence { parts, .. } => self.sequence(place, parts.as_slice())?,
            Node::Apply {
                function,
                arguments,
            } => self.application(place, *function, arguments.as_slice())?,
            Node::Binary {
                operator,
                left,
                right,
                ..
            } => self.binary(place, *operator, *left, *right)?,
            other => return self.make_control(n, place, other),
        };
        Ok(Made::Term(made))
    }

    // A name that is used.
    fn variable(&mut self, n: u32, place: Place) -> Result<Made, AllocError> {
        match self.meaning(n) {
            Use::Value(Value::Name(name)) => Ok(Made::Term(self.name(place, name)?)),
            Use::Value(Value::Builtin(builtin)) => Ok(Made::Builtin(builtin)),
            Use::Value(Value::Integer(value)) => {
                let constant = Constant::Integer(value);
                Ok(Made::Term(self.constant(place, constant)?))
            }
            _ => Err(AllocError),
        }
    }

    // What stands in brackets is a value.
    fn bracket(&mut self, inner: u32) -> Result<Made, AllocError> {
        match self.made(inner) {
            Made::Builtin(_) => Ok(Made::Term(self.term(inner)?)),
            made => Ok(made),
        }
    }

    fn constructor(&self, n: u32) -> Result<Constructor, AllocError> {
        match self.meaning(n) {
            Use::Constructor(constructor) => Ok(constructor),
            _ => Err(AllocError),
        }
    }

    fn field(&self, n: u32) -> Result<u32, AllocError> {
        match self.meaning(n) {
            Use::Field(row) => Ok(row),
            _ => Err(AllocError),
        }
    }

    /// The terms of nodes.
    pub fn parts(&mut self, parts: &[u32]) -> Result<Sequence<u32>, AllocError> {
        let mut made = Vec::with_capacity(self.alloc, parts.len())?;
        for part in parts {
            made.push(self.term(*part)?)?;
        }
        Ok(Sequence::from_vec(made))
    }

    fn primitive(
        &mut self,
        place: Place,
        operation: Operation,
        parts: &[u32],
    ) -> Result<u32, AllocError> {
        let parts = self.parts(parts)?;
        self.push_term(place, TermForm::Primitive { operation, parts })
    }

    fn record_parts(
        &mut self,
        n: u32,
        fields: &[NamedPart],
    ) -> Result<Sequence<FieldPart>, AllocError> {
        let Use::Numbers(first) = self.meaning(n) else {
            return Err(AllocError);
        };
        let mut made = Vec::with_capacity(self.alloc, fields.len())?;
        for (i, field) in fields.iter().enumerate() {
            made.push(FieldPart {
                field: self.uses.number_behind(first, i),
                part: self.term(field.part)?,
            })?;
        }
        Ok(Sequence::from_vec(made))
    }

    fn cons(&mut self, place: Place, head: u32, tail: u32) -> Result<u32, AllocError> {
        let parts = self.two(head, tail)?;
        let argument = self.push_term(place, TermForm::Tuple(parts))?;
        self.push_term(
            place,
            TermForm::Construct {
                constructor: CONS,
                argument,
            },
        )
    }

    fn list(&mut self, place: Place, parts: &[u32]) -> Result<u32, AllocError> {
        let mut list = self.push_term(place, TermForm::Constructor(NIL))?;
        for part in parts.iter().rev() {
            let head = self.term(*part)?;
            list = self.cons(self.place(*part), head, list)?;
        }
        Ok(list)
    }

    fn sequence(&mut self, place: Place, parts: &[u32]) -> Result<u32, AllocError> {
        let Some((last, before)) = parts.split_last() else {
            return Err(AllocError);
        };
        let mut second = self.term(*last)?;
        for part in before.iter().rev() {
            let first = self.term(*part)?;
            second = self.push_term(place, TermForm::Sequence { first, second })?;
        }
        Ok(second)
    }

    // The function of an application, and how many arguments it has taken.
    fn applied_function(
        &mut self,
        place: Place,
        function: u32,
        arguments: &[u32],
    ) -> Result<(u32, usize), AllocError> {
        if let Made::Builtin(builtin) = self.made(function)
            && let Some((taken, _)) = arguments.split_at_checked(builtin.arguments)
        {
            let term = self.primitive(place, builtin.operation, taken)?;
            return Ok((term, taken.len()));
        }
        Ok((self.term(function)?, 0))
    }

    fn application(
        &mut self,
        place: Place,
        function: u32,
        arguments: &[u32],
    ) -> Result<u32, AllocError> {
        let (mut term, taken) = self.applied_function(place, function, arguments)?;
        for argument in arguments.iter().skip(taken) {
            let argument = self.term(*argument)?;
            term = self.apply(place, term, argument)?;
        }
        Ok(term)
    }

    fn binary(
        &mut self,
        place: Place,
        operator: BinaryOperator,
        left: u32,
        right: u32,
    ) -> Result<u32, AllocError> {
        if let Some(operation) = operation(operator) {
            return self.primitive(place, operation, &[left, right]);
        }
        let (first, second) = (self.term(left)?, self.term(right)?);
        match operator {
            BinaryOperator::Pipe => self.apply(place, second, first),
            BinaryOperator::ApplyTo => self.apply(place, first, second),
            BinaryOperator::Cons => self.cons(place, first, second),
            BinaryOperator::And => {
                let other = self.constant(place, Constant::Boolean(false))?;
                self.choose(place, first, second, other)
            }
            BinaryOperator::Or => {
                let other = self.constant(place, Constant::Boolean(true))?;
                self.choose(place, first, other, second)
            }
            _ => self.append(place, first, second),
        }
    }

    // Two lists one after the other, by the prelude's function.
    fn append(&mut self, place: Place, first: u32, second: u32) -> Result<u32, AllocError> {
        let function = self.append.ok_or(AllocError)?;
        let function = self.name(place, function)?;
        let function = self.apply(place, function, first)?;
        self.apply(place, function, second)
    }

    /// A choice.
    pub fn choose(
        &mut self,
        place: Place,
        condition: u32,
        consequence: u32,
        alternative: u32,
    ) -> Result<u32, AllocError> {
        self.push_term(
            place,
            TermForm::If {
                condition,
                consequence,
                alternative,
            },
        )
    }
}
