//! What a token does.

ghost use Rattle.std.specs.Prelude.{◌≡◌};
ghost use Rattle.ml_moves.specs.Moves.{by, by_three, by_two, goes};

use crate::awaits::Awaits;
use crate::form::Form;
use ml_builder::Rule;

/// A change of the open forms and of the reductions.
#[derive(Clone, Copy)]
pub enum Change {
    Nothing,
    /// A reduction at the token, of no parts.
    Leaf(Rule),
    /// The same at the token before.
    LeafBefore(Rule),
    /// The token is a word, and a reduction takes it alone.
    Name(Rule),
    /// A form opens at the token; so many of its parts have begun.
    Open(Form, usize),
    /// A form opens at the token before.
    OpenBefore(Form),
    /// A form opens at the token of the innermost one, with as many parts.
    OpenOver(Form),
    /// The innermost form goes on as another.
    Become(Form),
    /// A further part of the innermost form begins, which goes on as another.
    Count(Form),
    /// The innermost form goes on as another, which stands at the token.
    Restart(Form),
    /// The same at the token before.
    RestartBefore(Form),
    /// The innermost form ends by a reduction of its parts.
    Close(Rule),
    /// The innermost form ends by a reduction of no parts.
    Empty(Rule),
    /// The innermost form ends by a reduction, and another stands in its place.
    Turn(Rule, Form),
    /// The innermost form was none.
    Withdraw,
}

/// What a token does: changes in this order, and what may come next.
#[derive(Clone, Copy)]
pub struct Move {
    pub first: Change,
    pub second: Change,
    pub third: Change,
    pub next: Awaits,
}

/// What is left as it is.
#[tactic(auto, unfolding(crate::specs::Moves::goes))]
pub fn goes(next: Awaits) -> Option<Move>
    ensures { result ≡ goes next }
{
    by_three(Change::Nothing, Change::Nothing, Change::Nothing, next)
}

/// One change.
#[tactic(auto, unfolding(crate::specs::Moves::by))]
pub fn by(change: Change, next: Awaits) -> Option<Move>
    ensures { result ≡ by change next }
{
    by_three(change, Change::Nothing, Change::Nothing, next)
}

/// Two changes.
#[tactic(auto, unfolding(crate::specs::Moves::by_two))]
pub fn by_two(first: Change, second: Change, next: Awaits) -> Option<Move>
    ensures { result ≡ by_two first second next }
{
    by_three(first, second, Change::Nothing, next)
}

/// Three changes.
#[tactic(auto, unfolding(crate::specs::Moves::by_three))]
pub fn by_three(first: Change, second: Change, third: Change, next: Awaits) -> Option<Move>
    ensures { result ≡ by_three first second third next }
{
    Some(Move {
        first,
        second,
        third,
        next,
    })
}
