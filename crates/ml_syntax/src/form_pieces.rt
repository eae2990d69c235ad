//! How each form is spelled.

use crate::binding_pieces::{bindings, clauses};
use crate::handler_pieces::handler_pieces;
use crate::node::{BinaryOperator, Node};
use crate::pieces::{
    Pieces, annotated, applied, enclosed, fields, form, forms, infix, listed, long_name, name,
    prefixed, separated, text, word, words,
};
use std::alloc::AllocError;

// The spelling of an operator.
fn operator_text(operator: BinaryOperator) -> &'static [u8] {
    match operator {
        BinaryOperator::ShiftLeft => b"lsl",
        BinaryOperator::ShiftRightLogical => b"lsr",
        BinaryOperator::ShiftRightArithmetic => b"asr",
        BinaryOperator::Multiply => b"*",
        BinaryOperator::Divide => b"/",
        BinaryOperator::Modulo => b"mod",
        BinaryOperator::LogicalAnd => b"land",
        BinaryOperator::LogicalOr => b"lor",
        BinaryOperator::LogicalXor => b"lxor",
        BinaryOperator::Add => b"+",
        BinaryOperator::Subtract => b"-",
        BinaryOperator::Cons => b"::",
        BinaryOperator::Concatenate => b"^",
        BinaryOperator::Append => b"@",
        BinaryOperator::ApplyTo => b"@@",
        BinaryOperator::Equal => b"=",
        BinaryOperator::Different => b"<>",
        BinaryOperator::Same => b"==",
        BinaryOperator::NotSame => b"!=",
        BinaryOperator::Below => b"<",
        BinaryOperator::Above => b">",
        BinaryOperator::AtMost => b"<=",
        BinaryOperator::AtLeast => b">=",
        BinaryOperator::Pipe => b"|>",
        BinaryOperator::And => b"&&",
        BinaryOperator::Or => b"||",
        BinaryOperator::Assign => b":=",
    }
}

// The arguments of a type: one as it is, several in brackets.
fn type_arguments(pieces: &mut Pieces<'_>, arguments: &[u32]) -> Result<(), AllocError> {
    if arguments.len() == 1 {
        return forms(pieces, arguments);
    }
    word(pieces, b"(")?;
    separated(pieces, arguments, b",")?;
    word(pieces, b")")
}

/// The pieces of a form, behind others.
pub(crate) fn node_pieces<'a>(pieces: &mut Pieces<'a>, node: &'a Node) -> Result<(), AllocError> {
    match node {
        Node::TypeVariable { name, .. } => text(pieces, name),
        Node::TypeAny { .. } => word(pieces, b"_"),
        Node::TypeName { name } => long_name(pieces, name),
        Node::TypeApply {
            arguments,
            constructor,
        } => {
            type_arguments(pieces, arguments.as_slice())?;
            long_name(pieces, constructor)
        }
        Node::TypeBracket { inner, .. } => enclosed(pieces, b"(", *inner, b")"),
        Node::TypeTuple { parts, .. } => separated(pieces, parts.as_slice(), b"*"),
        Node::TypeArrow {
            argument,
            result,
            ..
        } => infix(pieces, *argument, b"->", *result),
        _ => pattern_pieces(pieces, node),
    }
}

// The pieces of a pattern or of an expression.
fn pattern_pieces<'a>(pieces: &mut Pieces<'a>, node: &'a Node) -> Result<(), AllocError> {
    match node {
        Node::PatternAny { .. } => word(pieces, b"_"),
        Node::PatternName { name, .. } => text(pieces, name),
        Node::PatternConstant { literal, .. } => text(pieces, &literal.text),
        Node::PatternUnit { .. } => words(pieces, b"(", b")"),
        Node::PatternBracket { inner, .. } => enclosed(pieces, b"(", *inner, b")"),
        Node::PatternAnnotated {
            inner,
            annotation,
            ..
        } => annotated(pieces, *inner, *annotation),
        Node::PatternList { parts, .. } => listed(pieces, b"[", parts.as_slice(), b"]"),
        Node::PatternRecord {
            fields: parts,
            is_open,
            ..
        } => {
            fields(pieces, parts.as_slice())?;
            if *is_open {
                words(pieces, b";", b"_")?;
            }
            word(pieces, b"}")
        }
        Node::PatternConstructor { name } => long_name(pieces, name),
        Node::PatternConstruct {
            constructor,
            argument,
        } => applied(pieces, constructor, *argument),
        Node::PatternCons { head, tail, .. } => infix(pieces, *head, b"::", *tail),
        Node::PatternTuple { parts, .. } => separated(pieces, parts.as_slice(), b","),
        Node::PatternOr { left, right, .. } => infix(pieces, *left, b"|", *right),
        Node::PatternAlias {
            pattern,
            name: alias,
            ..
        } => {
            form(pieces, *pattern)?;
            word(pieces, b"as")?;
            name(pieces, alias)
        }
        _ => closed_pieces(pieces, node),
    }
}

// The pieces of an expression, where names, constants and what stands between brackets are told here.
fn closed_pieces<'a>(pieces: &mut Pieces<'a>, node: &'a Node) -> Result<(), AllocError> {
    match node {
        Node::Variable { name } | Node::Constructor { name } => long_name(pieces, name),
        Node::Constant { literal, .. } => text(pieces, &literal.text),
        Node::LeastInteger { text: digits, .. } => text(pieces, digits),
        Node::Unit { .. } => words(pieces, b"(", b")"),
        Node::Bracket { inner, .. } => enclosed(pieces, b"(", *inner, b")"),
        Node::BeginEnd { inner, .. } => enclosed(pieces, b"begin", *inner, b"end"),
        Node::Annotated {
            inner,
            annotation,
            ..
        } => annotated(pieces, *inner, *annotation),
        Node::List { parts, .. } => listed(pieces, b"[", parts.as_slice(), b"]"),
        Node::Array { parts, .. } => listed(pieces, b"[|", parts.as_slice(), b"|]"),
        Node::Record { fields: parts, .. } => {
            fields(pieces, parts.as_slice())?;
            word(pieces, b"}")
        }
        Node::While {
            condition,
            body,
            ..
        } => {
            enclosed(pieces, b"while", *condition, b"do")?;
            form(pieces, *body)?;
            word(pieces, b"done")
        }
        Node::For {
            name: counter,
            first,
            is_downward,
            last,
            body,
            ..
        } => {
            word(pieces, b"for")?;
            name(pieces, counter)?;
            prefixed(pieces, b"=", *first)?;
            prefixed(pieces, if *is_downward { b"downto" } else { b"to" }, *last)?;
            enclosed(pieces, b"do", *body, b"done")
        }
        _ => tight_pieces(pieces, node),
    }
}

// The pieces of an expression, where access, application and operators are told here.
fn tight_pieces<'a>(pieces: &mut Pieces<'a>, node: &'a Node) -> Result<(), AllocError> {
    match node {
        Node::Dereference { operand, .. } => prefixed(pieces, b"!", *operand),
        Node::Field { record, field } => {
            form(pieces, *record)?;
            word(pieces, b".")?;
            name(pieces, field)
        }
        Node::ArrayElement { array, index, .. } => element(pieces, *array, b"(", *index, b")"),
        Node::StringElement { string, index, .. } => element(pieces, *string, b"[", *index, b"]"),
        Node::Apply {
            function,
            arguments,
        } => {
            form(pieces, *function)?;
            forms(pieces, arguments.as_slice())
        }
        Node::Construct {
            constructor,
            argument,
        } => applied(pieces, constructor, *argument),
        Node::Negate { operand, .. } => prefixed(pieces, b"-", *operand),
        Node::Binary {
            operator,
            left,
            right,
            ..
        } => infix(pieces, *left, operator_text(*operator), *right),
        Node::Tuple { parts, .. } => separated(pieces, parts.as_slice(), b","),
        Node::Sequence { parts, .. } => separated(pieces, parts.as_slice(), b";"),
        _ => loose_pieces(pieces, node),
    }
}

// `e.(e)` and `e.[e]`.
fn element<'a>(
    pieces: &mut Pieces<'a>,
    whole: u32,
    opening: &'a [u8],
    index: u32,
    closing: &'a [u8],
) -> Result<(), AllocError> {
    form(pieces, whole)?;
    word(pieces, b".")?;
    enclosed(pieces, opening, index, closing)
}

// The pieces of an expression, where assignments, `if` and `let` are told here. A semicolon ends each
// body of level 17, since one may have to: in `let x = 1 in a; ; b` the second goes on with what stands
// around it.
fn loose_pieces<'a>(pieces: &mut Pieces<'a>, node: &'a Node) -> Result<(), AllocError> {
    match node {
        Node::SetField {
            record,
            field,
            value,
            ..
        } => {
            form(pieces, *record)?;
            word(pieces, b".")?;
            name(pieces, field)?;
            prefixed(pieces, b"<-", *value)
        }
        Node::SetElement {
            array,
            index,
            value,
            ..
        } => {
            element(pieces, *array, b"(", *index, b")")?;
            prefixed(pieces, b"<-", *value)
        }
        Node::If {
            condition,
            consequence,
            alternative,
            ..
        } => choice(pieces, *condition, *consequence, *alternative),
        Node::Let {
            is_recursive,
            bindings: bound,
            body,
            ..
        } => {
            bindings(pieces, *is_recursive, bound.as_slice())?;
            enclosed(pieces, b"in", *body, b";")
        }
        _ => clause_pieces(pieces, node),
    }
}

// The pieces of an expression, where functions and forms with clauses are told here.
fn clause_pieces<'a>(pieces: &mut Pieces<'a>, node: &'a Node) -> Result<(), AllocError> {
    match node {
        Node::Match {
            subject,
            clauses: cases,
            ..
        } => {
            enclosed(pieces, b"match", *subject, b"with")?;
            clauses(pieces, cases.as_slice())
        }
        Node::Try {
            body,
            clauses: cases,
            ..
        } => {
            enclosed(pieces, b"try", *body, b"with")?;
            clauses(pieces, cases.as_slice())
        }
        Node::Fun {
            parameters,
            body,
            ..
        } => {
            word(pieces, b"fun")?;
            forms(pieces, parameters.as_slice())?;
            enclosed(pieces, b"->", *body, b";")
        }
        Node::Function { clauses: cases, .. } => {
            word(pieces, b"function")?;
            clauses(pieces, cases.as_slice())
        }
        _ => handler_pieces(pieces, node),
    }
}

// `if e then e`, or with `else e`.
fn choice(
    pieces: &mut Pieces<'_>,
    condition: u32,
    consequence: u32,
    alternative: Option<u32>,
) -> Result<(), AllocError> {
    enclosed(pieces, b"if", condition, b"then")?;
    form(pieces, consequence)?;
    match alternative {
        Some(alternative) => prefixed(pieces, b"else", alternative),
        None => Ok(()),
    }
}
