//! How deep the forms of a program stand in one another.

ghost use Rattle.std.specs.Prelude.{◌≡◌, ◌+◌, [], ◌∷◌, ◌++◌, map, flat_map, option_map, IfSome, Some};
ghost use Rattle.ml_syntax.specs.Parts.{listed};
ghost use Rattle.ml_syntax.specs.Depth.{binding_parts, clause_parts, deepest, field_parts, forms, if_any, parts, rule_parts};

use crate::node::{Binding, Clause, EffectRule, NamedPart, Node};

// The parts of a node, as they stand in it.
#[derive(Clone, Copy)]
enum Parts<'a> {
    None,
    One(u32),
    Two(u32, u32),
    Three(u32, u32, u32),
    Many(&'a [u32]),
    OneAndMany(u32, &'a [u32]),
    ManyAndOne(&'a [u32], u32),
    TwoAndMaybe(u32, u32, Option<u32>),
    Fields(&'a [NamedPart]),
    Clauses(&'a [Clause]),
    OneAndClauses(u32, &'a [Clause]),
    BindingsAndOne(&'a [Binding], u32),
    RulesAndOne(&'a [EffectRule], u32),
}

// The parts of a node.
#[tactic(auto, unfolding(crate::specs::Depth::parts))]
fn parts_of(node: &Node) -> Parts<'_>
    ensures { listed result ≡ parts node.now }
{
    match node {
        Node::TypeVariable { place: _, name: _ }
        | Node::TypeAny { place: _ }
        | Node::TypeName { name: _ }
        | Node::PatternAny { place: _ }
        | Node::PatternName { place: _, name: _ }
        | Node::PatternConstant {
            place: _,
            literal: _,
        }
        | Node::PatternUnit { place: _ }
        | Node::PatternConstructor { name: _ }
        | Node::Variable { name: _ }
        | Node::Constructor { name: _ }
        | Node::Constant {
            place: _,
            literal: _,
        }
        | Node::LeastInteger { place: _, text: _ }
        | Node::Unit { place: _ } => Parts::None,
        Node::TypeApply {
            arguments,
            constructor: _,
        } => Parts::Many(arguments.as_slice()),
        Node::TypeTuple { place: _, parts }
        | Node::PatternList { place: _, parts }
        | Node::PatternTuple { place: _, parts }
        | Node::List { place: _, parts }
        | Node::Array { place: _, parts }
        | Node::Tuple { place: _, parts }
        | Node::Sequence { place: _, parts } => Parts::Many(parts.as_slice()),
        Node::TypeBracket { place: _, inner }
        | Node::PatternBracket { place: _, inner }
        | Node::Bracket { place: _, inner }
        | Node::BeginEnd { place: _, inner } => Parts::One(*inner),
        Node::TypeArrow {
            place: _,
            argument,
            result,
        } => Parts::Two(*argument, *result),
        Node::PatternAnnotated {
            place: _,
            inner,
            annotation,
        }
        | Node::Annotated {
            place: _,
            inner,
            annotation,
        } => Parts::Two(*inner, *annotation),
        Node::PatternRecord {
            place: _,
            fields,
            is_open: _,
        }
        | Node::Record { place: _, fields }
        | Node::Handler { place: _, fields } => Parts::Fields(fields.as_slice()),
        Node::PatternConstruct {
            constructor: _,
            argument,
        }
        | Node::Construct {
            constructor: _,
            argument,
        } => Parts::One(*argument),
        Node::PatternCons {
            place: _,
            head,
            tail,
        } => Parts::Two(*head, *tail),
        Node::PatternOr {
            place: _,
            left,
            right,
        }
        | Node::Binary {
            place: _,
            operator: _,
            left,
            right,
        } => Parts::Two(*left, *right),
        Node::PatternAlias {
            place: _,
            pattern,
            name: _,
        } => Parts::One(*pattern),
        Node::While {
            place: _,
            condition,
            body,
        } => Parts::Two(*condition, *body),
        Node::For {
            place: _,
            name: _,
            first,
            is_downward: _,
            last,
            body,
        } => Parts::Three(*first, *last, *body),
        Node::Dereference { place: _, operand } | Node::Negate { place: _, operand } => {
            Parts::One(*operand)
        }
        Node::Field { record, field: _ } => Parts::One(*record),
        Node::ArrayElement {
            place: _,
            array,
            index,
        } => Parts::Two(*array, *index),
        Node::StringElement {
            place: _,
            string,
            index,
        } => Parts::Two(*string, *index),
        Node::Apply {
            function,
            arguments,
        } => Parts::OneAndMany(*function, arguments.as_slice()),
        Node::Handle {
            function: _,
            first,
            second,
            handler,
        } => Parts::Three(*first, *second, *handler),
        Node::EffectFunction {
            place: _,
            type_name: _,
            parameter,
            cases,
        } => Parts::Two(*parameter, *cases),
        Node::EffectCases {
            place: _,
            subject: _,
            rules,
            otherwise,
        } => Parts::RulesAndOne(rules.as_slice(), *otherwise),
        Node::Resumption {
            place: _,
            parameter,
            body,
        } => Parts::Two(*parameter, *body),
        Node::SetField {
            place: _,
            record,
            field: _,
            value,
        } => Parts::Two(*record, *value),
        Node::SetElement {
            place: _,
            array,
            index,
            value,
        } => Parts::Three(*array, *index, *value),
        Node::If {
            place: _,
            condition,
            consequence,
            alternative,
        } => Parts::TwoAndMaybe(*condition, *consequence, *alternative),
        Node::Let {
            place: _,
            is_recursive: _,
            bindings,
            body,
        } => Parts::BindingsAndOne(bindings.as_slice(), *body),
        Node::Match {
            place: _,
            subject,
            clauses,
        } => Parts::OneAndClauses(*subject, clauses.as_slice()),
        Node::Try {
            place: _,
            body,
            clauses,
        } => Parts::OneAndClauses(*body, clauses.as_slice()),
        Node::Fun {
            place: _,
            parameters,
            body,
        } => Parts::ManyAndOne(parameters.as_slice(), *body),
        Node::Function { place: _, clauses } => Parts::Clauses(clauses.as_slice()),
    }
}

// How many forms a node is.
#[tactic(auto, unfolding(crate::specs::Depth::forms))]
fn forms(node: &Node) -> u32
    ensures { result ≡ forms node.now }
{
    match node {
        Node::Resumption {
            place: _,
            parameter: _,
            body: _,
        } => 3,
        _ => 1,
    }
}

// The greatest of a depth and of that of a part, if the part is there.
fn deeper(depths: &[u32], found: u32, part: u32) -> Option<u32>
    ensures { result ≡ deepest depths.now found (part ∷ []) }
{
    let depth = depths.get(part as usize)?;
    Some(found.max(*depth))
}

fn deepest_of(depths: &[u32], found: u32, parts: &[u32]) -> Option<u32>
    ensures { result ≡ deepest depths.now found parts.now }
{
    let mut most = found;
    for part in parts {
        most = deeper(depths, most, *part)?;
    }
    Some(most)
}

fn deepest_if(depths: &[u32], found: u32, part: Option<u32>) -> Option<u32>
    ensures { result ≡ deepest depths.now found (if_any part) }
{
    match part {
        Some(part) => deeper(depths, found, part),
        None => Some(found),
    }
}

fn deepest_field(depths: &[u32], found: u32, fields: &[NamedPart]) -> Option<u32>
    ensures { result ≡ deepest depths.now found (field_parts fields.now) }
{
    let mut most = found;
    for field in fields {
        most = deeper(depths, most, field.part)?;
    }
    Some(most)
}

#[tactic(auto, using(crate::proofs::Deepest::deepest_append))]
fn deepest_in_clause(depths: &[u32], found: u32, clause: &Clause) -> Option<u32>
    ensures { result ≡ deepest depths.now found (clause_parts clause.now) }
{
    match clause {
        Clause::Value {
            pattern,
            guard,
            body,
        }
        | Clause::Exception {
            place: _,
            pattern,
            guard,
            body,
        } => {
            let most = deeper(depths, found, *pattern)?;
            let most = deepest_if(depths, most, *guard)?;
            deeper(depths, most, *body)
        }
        Clause::Effect {
            place: _,
            pattern,
            continuation,
            body,
        } => deepest_of(depths, found, &[*pattern, *continuation, *body]),
    }
}

#[tactic(auto, using(crate::proofs::Deepest::deepest_append))]
fn deepest_in_clauses(depths: &[u32], found: u32, clauses: &[Clause]) -> Option<u32>
    ensures { result ≡ deepest depths.now found (flat_map clause_parts clauses.now) }
{
    let mut most = found;
    for clause in clauses {
        most = deepest_in_clause(depths, most, clause)?;
    }
    Some(most)
}

#[tactic(auto, using(crate::proofs::Deepest::deepest_append), unfolding(crate::specs::Depth::binding_parts))]
fn deepest_in_binding(depths: &[u32], found: u32, binding: &Binding) -> Option<u32>
    ensures { result ≡ deepest depths.now found (binding_parts binding.now) }
{
    match binding {
        Binding::Pattern { pattern, body } => deepest_of(depths, found, &[*pattern, *body]),
        Binding::Named {
            name: _,
            parameters,
            annotation,
            body,
        } => {
            let most = deepest_of(depths, found, parameters.as_slice())?;
            let most = deepest_if(depths, most, *annotation)?;
            deeper(depths, most, *body)
        }
    }
}

#[tactic(auto, using(crate::proofs::Deepest::deepest_append))]
fn deepest_in_bindings(depths: &[u32], found: u32, bindings: &[Binding]) -> Option<u32>
    ensures { result ≡ deepest depths.now found (flat_map binding_parts bindings.now) }
{
    let mut most = found;
    for binding in bindings {
        most = deepest_in_binding(depths, most, binding)?;
    }
    Some(most)
}

#[tactic(auto, using(crate::proofs::Deepest::deepest_append))]
fn deepest_in_rules(depths: &[u32], found: u32, rules: &[EffectRule]) -> Option<u32>
    ensures { result ≡ deepest depths.now found (flat_map rule_parts rules.now) }
{
    let mut most = found;
    for rule in rules {
        most = deepest_of(depths, most, &[rule.pattern, rule.answer])?;
    }
    Some(most)
}

#[tactic(auto, using(crate::proofs::Deepest::deepest_append))]
fn deepest_among(depths: &[u32], parts: Parts<'_>) -> Option<u32>
    ensures { result ≡ deepest depths.now 0 (listed parts.entry) }
{
    match parts {
        Parts::None => Some(0),
        Parts::One(part) => deeper(depths, 0, part),
        Parts::Two(first, second) => deepest_of(depths, 0, &[first, second]),
        Parts::Three(first, second, third) => deepest_of(depths, 0, &[first, second, third]),
        Parts::Many(parts) => deepest_of(depths, 0, parts),
        Parts::OneAndMany(first, parts) => deepest_of(depths, deeper(depths, 0, first)?, parts),
        Parts::ManyAndOne(parts, last) => deeper(depths, deepest_of(depths, 0, parts)?, last),
        Parts::TwoAndMaybe(first, second, third) => {
            deepest_if(depths, deepest_of(depths, 0, &[first, second])?, third)
        }
        Parts::Fields(fields) => deepest_field(depths, 0, fields),
        Parts::Clauses(clauses) => deepest_in_clauses(depths, 0, clauses),
        Parts::OneAndClauses(first, clauses) => {
            deepest_in_clauses(depths, deeper(depths, 0, first)?, clauses)
        }
        Parts::BindingsAndOne(bindings, last) => {
            deeper(depths, deepest_in_bindings(depths, 0, bindings)?, last)
        }
        Parts::RulesAndOne(rules, last) => {
            deeper(depths, deepest_in_rules(depths, 0, rules)?, last)
        }
    }
}

// The depth of a node behind others of these depths, if its parts are among those and it fits.
pub(crate) fn depth_behind(depths: &[u32], node: &Node) -> Option<u32>
    ensures { IfSome result (λ d. option_map (λ m. m + forms node.now) (deepest depths.now 0 (parts node.now)) ≡ Some d) }
{
    let found = deepest_among(depths, parts_of(node))?;
    found.checked_add(forms(node))
}
