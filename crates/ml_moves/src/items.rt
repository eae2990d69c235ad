//! What a token does between items.

ghost use Rattle.std.specs.Prelude.{◌≡◌};
ghost use Rattle.ml_moves.specs.Items.{begin_expression_item, begin_item, complete_first_item};

use crate::awaits::Awaits;
use crate::form::{Form, Position};
use crate::level::ends_item;
use crate::moves::{Change, Move, by, goes};
use ml_syntax::{Role, begins_expression};

// An expression that is an item.
#[tactic(auto, unfolding(crate::specs::Items::begin_expression_item))]
fn begin_expression_item(role: Role) -> Option<Move>
    ensures { result ≡ begin_expression_item role }
{
    if begins_expression(role) {
        by(Change::Open(Form::Evaluating, 1), Awaits::Expression)
    } else {
        None
    }
}

/// A token where an item or an expression may begin: the keyword of an item is left.
#[tactic(auto, unfolding(crate::specs::Items::complete_first_item))]
pub fn complete_first_item(role: Role) -> Option<Move>
    ensures { result ≡ complete_first_item role }
{
    if ends_item(role) {
        goes(Awaits::FirstItem)
    } else {
        begin_expression_item(role)
    }
}

/// The keyword of an item, or `;;`; a `let` stands in this position.
#[tactic(auto, unfolding(crate::specs::Items::begin_item))]
pub fn begin_item(role: Role, position: Position) -> Option<Move>
    ensures { result ≡ begin_item role position }
{
    match role {
        Role::DoubleSemicolon => goes(Awaits::FirstItem),
        Role::Let => by(Change::Open(Form::Let(position), 1), Awaits::FirstBinding),
        Role::Type => by(Change::Open(Form::Definitions, 0), Awaits::Definitions),
        Role::Exception => by(Change::Open(Form::Exception, 1), Awaits::Exception),
        Role::Open => by(Change::Open(Form::Open, 0), Awaits::Open),
        _ => None,
    }
}
