//! Where the forms of a program begin.

use crate::builder::Builder;
use fx_base::Place;
use ml_syntax::Node;

/// Where what has no place in the text stands.
pub const NOWHERE: Place = Place { line: 1, column: 1 };

// The place of a node that has one of its own.
fn own_place(node: &Node) -> Option<Place> {
    match node {
        Node::Variable { name } | Node::Constructor { name } | Node::PatternConstructor { name } =>
            { Some(name.place) }
        Node::Construct { constructor, .. } | Node::PatternConstruct { constructor, .. } => {
            Some(constructor.place)
        }
        Node::Handle { function, .. } => Some(function.place),
        Node::Constant { place, .. }
        | Node::LeastInteger { place, .. }
        | Node::Unit { place }
        | Node::Bracket { place, .. }
        | Node::BeginEnd { place, .. }
        | Node::Annotated { place, .. }
        | Node::List { place, .. }
        | Node::Array { place, .. }
        | Node::Record { place, .. }
        | Node::While { place, .. }
        | Node::For { place, .. }
        | Node::Dereference { place, .. }
        | Node::Handler { place, .. }
        | Node::EffectFunction { place, .. }
        | Node::EffectCases { place, .. }
        | Node::Resumption { place, .. }
        | Node::Negate { place, .. } => Some(*place),
        other => later_place(other),
    }
}

// The place of a form that has one of its own, which may not be its first token.
fn later_place(node: &Node) -> Option<Place> {
    match node {
        Node::ArrayElement { place, .. }
        | Node::StringElement { place, .. }
        | Node::Binary { place, .. }
        | Node::Tuple { place, .. }
        | Node::SetField { place, .. }
        | Node::SetElement { place, .. }
        | Node::If { place, .. }
        | Node::Sequence { place, .. }
        | Node::Let { place, .. }
        | Node::Match { place, .. }
        | Node::Try { place, .. }
        | Node::Fun { place, .. }
        | Node::Function { place, .. }
        | Node::PatternAny { place }
        | Node::PatternName { place, .. }
        | Node::PatternConstant { place, .. }
        | Node::PatternUnit { place }
        | Node::PatternBracket { place, .. }
        | Node::PatternAnnotated { place, .. }
        | Node::PatternList { place, .. }
        | Node::PatternRecord { place, .. }
        | Node::PatternCons { place, .. }
        | Node::PatternTuple { place, .. }
        | Node::PatternOr { place, .. }
        | Node::PatternAlias { place, .. } => Some(*place),
        _ => None,
    }
}

impl<'a> Builder<'a> {
    /// The place of a node: its own, or that of the form that it begins with.
    pub fn place(&self, n: u32) -> Place {
        let mut at = n;
        for _ in 0..u32::MAX {
            let Some(node) = self.node(at) else {
                return NOWHERE;
            };
            if let Some(place) = own_place(node) {
                return place;
            }
            at = match node {
                Node::Apply { function, .. } => *function,
                Node::Field { record, .. } => *record,
                _ => return NOWHERE,
            };
        }
        NOWHERE
    }
}
