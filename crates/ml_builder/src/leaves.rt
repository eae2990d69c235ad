//! The forms of one token.

ghost use Rattle.std.specs.Prelude.{◌≡◌, Some, IfOk, OnOk};
ghost use Rattle.ml_lexer.specs.Seen.{seen};
ghost use Rattle.ml_syntax.specs.Laid.{literal_kind, literal_of};
ghost use Rattle.ml_builder.specs.Leaves.{made_leaf};

use crate::finish::finish;
use crate::reduction::Rule;
use crate::stack::Stack;
use ml_lexer::TokenView;
use ml_syntax::{Literal, LiteralKind, Node, Nodes, Role, Text, role_of};
use std::alloc::{AllocError, Global};

// The sort of a constant.
fn literal_kind(role: Role) -> LiteralKind
    ensures { result ≡ literal_kind role }
{
    match role {
        Role::Character => LiteralKind::Character,
        Role::Text => LiteralKind::Text,
        Role::True => LiteralKind::True,
        Role::False => LiteralKind::False,
        _ => LiteralKind::Integer,
    }
}

// The constant that a token is.
fn literal_of(alloc: Global, token: &TokenView<'_>) -> Result<Literal, AllocError>
    ensures { IfOk result (λ literal. literal ≡ literal_of (seen token.now)) }
{
    let kind = literal_kind(role_of(token));
    let text = Text::new(alloc, token.text)?;
    Ok(Literal { kind, text })
}

/// A form of one token.
#[tactic(auto, unfolding(crate::specs::Leaves::made_leaf))]
pub fn build_leaf(
    alloc: Global,
    rule: Rule,
    token: &TokenView<'_>,
    numbers: &mut Stack<u32>,
    nodes: &mut Nodes,
) -> Result<(), AllocError>
    ensures { OnOk result (made_leaf rule (seen token.now) numbers.old nodes.old ≡ Some (numbers.new, nodes.new)) }
{
    let place = token.place;
    match rule {
        Rule::TypeVariable => {
            let name = Text::new(alloc, token.text)?;
            finish(Node::TypeVariable { place, name }, numbers, nodes)
        }
        Rule::TypeAny => finish(Node::TypeAny { place }, numbers, nodes),
        Rule::PatternAny => finish(Node::PatternAny { place }, numbers, nodes),
        Rule::PatternName => {
            let name = Text::new(alloc, token.text)?;
            finish(Node::PatternName { place, name }, numbers, nodes)
        }
        Rule::PatternConstant => {
            let literal = literal_of(alloc, token)?;
            finish(Node::PatternConstant { place, literal }, numbers, nodes)
        }
        Rule::PatternUnit => finish(Node::PatternUnit { place }, numbers, nodes),
        Rule::Constant => {
            let literal = literal_of(alloc, token)?;
            finish(Node::Constant { place, literal }, numbers, nodes)
        }
        Rule::LeastInteger => {
            let text = Text::new(alloc, token.text)?;
            finish(Node::LeastInteger { place, text }, numbers, nodes)
        }
        Rule::Unit => finish(Node::Unit { place }, numbers, nodes),
        _ => Err(AllocError),
    }
}
