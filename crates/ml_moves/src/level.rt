//! What an open form waits for, and which forms end before a token.

ghost use Rattle.std.specs.Prelude.{◌≡◌};
ghost use Rattle.ml_moves.specs.Level.{applied_to, begins_pattern, definition_of, ends_before, ends_item, goes_on_with, is_applied_to_one, is_bar, is_comma, is_else, is_semicolon, is_star, joined_pattern, joined_type, let_item, level_of, made_before, made_by, made_of, sort_of, sort_of_others, takes_in};

use crate::form::{Form, Position, Types};
use ml_builder::Rule;
use ml_syntax::{Role, begins_argument, right_level, takes};

/// A sort of forms, of one of which an open form waits for a part.
#[derive(Clone, Copy)]
pub enum Sort {
    Type(Types),
    Pattern,
    Expression,
    Other,
}

/// What the last reduction made, as far as it matters to what follows.
#[derive(Clone, Copy)]
pub enum Last {
    /// A form of level 17, or the value of `effc`: no left operand.
    Loose,
    /// A function with its handler, which takes no argument.
    Handled,
    /// A type name that is applied to a single type.
    AppliedToOne,
    Other,
}

/// What a reduction of so many parts made.
#[tactic(auto, unfolding(crate::specs::Level::made_by))]
pub fn made_by(rule: Rule, count: usize) -> Last
    ensures { result ≡ made_by rule count }
{
    match rule {
        Rule::Let => Last::Loose,
        Rule::LetRecursive => Last::Loose,
        Rule::Match => Last::Loose,
        Rule::Try => Last::Loose,
        Rule::Fun => Last::Loose,
        Rule::Function => Last::Loose,
        Rule::EffectFunction => Last::Loose,
        Rule::TypedEffectFunction => Last::Loose,
        Rule::FunctionCases => Last::Loose,
        Rule::Handle => Last::Handled,
        Rule::TypeApply => applied_to(count),
        _ => Last::Other,
    }
}

// A type name that is applied to so many types.
#[tactic(auto, unfolding(crate::specs::Level::applied_to))]
fn applied_to(count: usize) -> Last
    ensures { result ≡ applied_to count }
{
    if count == 1 {
        Last::AppliedToOne
    } else {
        Last::Other
    }
}

/// The sort of the part that a form waits for.
#[tactic(auto, unfolding(crate::specs::Level::sort_of))]
pub fn sort_of(form: Form) -> Sort
    ensures { result ≡ sort_of form }
{
    match form {
        Form::TypeParenthesis(types) => Sort::Type(types),
        Form::TypeArguments(types) => Sort::Type(types),
        Form::TypeTuple(types) => Sort::Type(types),
        Form::TypeArrow(types) => Sort::Type(types),
        Form::PatternAnnotation
        | Form::Annotation
        | Form::BindingAnnotation
        | Form::RecursiveAnnotation
        | Form::ConstructorArgument
        | Form::FieldType
        | Form::MutableFieldType
        | Form::EffectBracket
        | Form::ContinuationBracket => Sort::Type(Types::Any),
        Form::PlainEffect | Form::EffectOf => Sort::Type(Types::Closed),
        Form::PatternParenthesis
        | Form::EffectParenthesis
        | Form::PatternList
        | Form::PatternRecord
        | Form::PatternConstruct
        | Form::PatternCons
        | Form::PatternTuple
        | Form::PatternOr
        | Form::FunParameters
        | Form::ValueClause
        | Form::ExceptionClause
        | Form::EffectClause
        | Form::BindingParameters
        | Form::BindingPattern
        | Form::RulePattern => Sort::Pattern,
        _ => sort_of_others(form),
    }
}

// The sort of the part that any other form waits for.
#[tactic(auto, unfolding(crate::specs::Level::sort_of_others))]
fn sort_of_others(form: Form) -> Sort
    ensures { result ≡ sort_of_others form }
{
    match form {
        Form::Program => Sort::Other,
        Form::TypePath => Sort::Other,
        Form::ConstructorPath => Sort::Other,
        Form::TypeApplication => Sort::Other,
        Form::PatternPath => Sort::Other,
        Form::PatternAlias => Sort::Other,
        Form::Path => Sort::Other,
        Form::Select => Sort::Other,
        Form::MatchClauses => Sort::Other,
        Form::MatchValues => Sort::Other,
        Form::TryClauses => Sort::Other,
        Form::FunctionClauses => Sort::Other,
        Form::Let(_) => Sort::Other,
        Form::LetRecursive(_) => Sort::Other,
        Form::BindingName => Sort::Other,
        Form::RecursiveName => Sort::Other,
        Form::BindingHead => Sort::Other,
        Form::RecursiveHead => Sort::Other,
        Form::Definitions => Sort::Other,
        Form::TypeHead => Sort::Other,
        Form::Variant => Sort::Other,
        Form::RecordType => Sort::Other,
        Form::Effects => Sort::Other,
        Form::ExtendedPath => Sort::Other,
        Form::Exception => Sort::Other,
        Form::Open => Sort::Other,
        Form::EffectFunction => Sort::Other,
        Form::TypedEffectFunction => Sort::Other,
        Form::EffectParameter => Sort::Other,
        Form::EffectAnnotated => Sort::Other,
        Form::MatchRules => Sort::Other,
        Form::FunctionRules => Sort::Other,
        _ => Sort::Expression,
    }
}

/// The loosest level of the part that a form waits for: of types 1 for an application, 2 for a
/// tuple and 3 for an arrow; of patterns 1 for a constructor with its argument, 2 for `::`, 3 for a
/// tuple, 4 for `|` and 5 for `as`; of expressions 0 to 16.
#[tactic(auto, unfolding(crate::specs::Level::level_of))]
pub fn level_of(form: Form) -> u8
    ensures { result ≡ level_of form }
{
    match form {
        Form::Operating(operator) => right_level(operator),
        Form::TypeTuple(_)
        | Form::PlainEffect
        | Form::EffectOf
        | Form::EffectParenthesis
        | Form::PatternConstruct
        | Form::EffectClause
        | Form::RulePattern
        | Form::Dereference => 1,
        Form::PatternCons
        | Form::PatternTuple
        | Form::Apply
        | Form::Construct
        | Form::HandleFirst(_)
        | Form::HandleSecond(_) => 2,
        Form::TypeParenthesis(_)
        | Form::TypeArguments(_)
        | Form::TypeArrow(_)
        | Form::PatternAnnotation
        | Form::PatternOr
        | Form::Annotation
        | Form::BindingAnnotation
        | Form::RecursiveAnnotation
        | Form::ConstructorArgument
        | Form::FieldType
        | Form::MutableFieldType
        | Form::EffectBracket
        | Form::ContinuationBracket => 3,
        Form::Negate => 4,
        Form::PatternParenthesis
        | Form::PatternList
        | Form::PatternRecord
        | Form::ValueClause
        | Form::ExceptionClause
        | Form::BindingPattern => 5,
        Form::Tuple => 12,
        Form::SetField | Form::SetElement => 14,
        Form::List
        | Form::Array
        | Form::Record
        | Form::Sequence
        | Form::IfCondition
        | Form::IfThen
        | Form::IfElse
        | Form::WhileCondition
        | Form::ForFirst
        | Form::ForUpTo
        | Form::ForDownTo
        | Form::Evaluating
        | Form::HandlerFields(_) => 15,
        Form::Parenthesis
        | Form::Begin
        | Form::Index
        | Form::Pick
        | Form::WhileBody
        | Form::ForUpward
        | Form::ForDownward
        | Form::FunBody
        | Form::MatchSubject
        | Form::TryBody
        | Form::ValueGuard
        | Form::ExceptionGuard
        | Form::ValueAnswer
        | Form::GuardedAnswer
        | Form::ExceptionAnswer
        | Form::GuardedExceptionAnswer
        | Form::EffectAnswer
        | Form::BindingBody
        | Form::AnnotatedBody
        | Form::PatternBody
        | Form::LetBody
        | Form::LetRecursiveBody
        | Form::Answer => 16,
        _ => 0,
    }
}

/// What a form makes that ends with the part that it waits for; none where a token of its own has
/// to come.
#[tactic(auto, unfolding(crate::specs::Level::made_of))]
pub fn made_of(form: Form) -> Option<Rule>
    ensures { result ≡ made_of form }
{
    match form {
        Form::TypeApplication => Some(Rule::TypeApply),
        Form::TypeTuple(_) => Some(Rule::TypeTuple),
        Form::TypeArrow(_) => Some(Rule::TypeArrow),
        Form::PatternConstruct => Some(Rule::PatternConstruct),
        Form::PatternCons => Some(Rule::PatternCons),
        Form::PatternTuple => Some(Rule::PatternTuple),
        Form::PatternOr => Some(Rule::PatternOr),
        Form::Dereference => Some(Rule::Dereference),
        Form::Negate => Some(Rule::Negate),
        Form::Operating(operator) => Some(Rule::Binary(operator)),
        Form::Tuple => Some(Rule::Tuple),
        Form::Sequence => Some(Rule::Sequence),
        Form::Apply => Some(Rule::Apply),
        Form::Construct => Some(Rule::Construct),
        Form::SetField => Some(Rule::SetField),
        Form::SetElement => Some(Rule::SetElement),
        Form::IfThen => Some(Rule::If),
        Form::IfElse => Some(Rule::IfElse),
        Form::FunBody => Some(Rule::Fun),
        Form::MatchValues => Some(Rule::Match),
        Form::TryClauses => Some(Rule::Try),
        Form::FunctionClauses => Some(Rule::Function),
        Form::ValueAnswer => Some(Rule::ValueClause),
        Form::GuardedAnswer => Some(Rule::GuardedClause),
        Form::ExceptionAnswer => Some(Rule::ExceptionClause),
        Form::GuardedExceptionAnswer => Some(Rule::GuardedExceptionClause),
        Form::EffectAnswer => Some(Rule::EffectClause),
        Form::BindingBody => Some(Rule::NamedBinding),
        Form::FunctionBody => Some(Rule::NamedBinding),
        Form::AnnotatedBody => Some(Rule::AnnotatedBinding),
        Form::AnnotatedFunctionBody => Some(Rule::AnnotatedBinding),
        Form::PatternBody => Some(Rule::PatternBinding),
        Form::LetBody => Some(Rule::Let),
        Form::LetRecursiveBody => Some(Rule::LetRecursive),
        Form::EffectFunction => Some(Rule::EffectFunction),
        Form::TypedEffectFunction => Some(Rule::TypedEffectFunction),
        _ => definition_of(form),
    }
}

// What a part of an item, or an item, makes.
#[tactic(auto, unfolding(crate::specs::Level::definition_of))]
fn definition_of(form: Form) -> Option<Rule>
    ensures { result ≡ definition_of form }
{
    match form {
        Form::Variant => Some(Rule::VariantType),
        Form::ConstructorArgument => Some(Rule::ConstructorOf),
        Form::FieldType => Some(Rule::FieldType),
        Form::MutableFieldType => Some(Rule::MutableFieldType),
        Form::PlainEffect => Some(Rule::PlainEffect),
        Form::EffectOf => Some(Rule::EffectOf),
        Form::Let(position) => let_item(position, Rule::LetItem),
        Form::LetRecursive(position) => let_item(position, Rule::LetRecursiveItem),
        Form::Definitions => Some(Rule::TypesItem),
        Form::Effects => Some(Rule::EffectsItem),
        Form::Exception => Some(Rule::ExceptionItem),
        Form::Open => Some(Rule::OpenItem),
        Form::Evaluating => Some(Rule::ExpressionItem),
        _ => None,
    }
}

// The item that a `let` without an `in` is.
#[tactic(auto, unfolding(crate::specs::Level::let_item))]
fn let_item(position: Position, rule: Rule) -> Option<Rule>
    ensures { result ≡ let_item position rule }
{
    match position {
        Position::Inside => None,
        Position::Either => Some(rule),
        Position::Item => Some(rule),
    }
}

/// Whether an item ends before a token: before what begins the next one, and before `;;`.
#[tactic(auto, unfolding(crate::specs::Level::ends_item))]
pub fn ends_item(role: Role) -> bool
    ensures { result ≡ ends_item role }
{
    match role {
        Role::DoubleSemicolon => true,
        Role::Let => true,
        Role::Type => true,
        Role::Exception => true,
        Role::Open => true,
        _ => false,
    }
}

/// Whether a pattern that may be a parameter begins with a token.
#[tactic(auto, unfolding(crate::specs::Level::begins_pattern))]
pub fn begins_pattern(role: Role) -> bool
    ensures { result ≡ begins_pattern role }
{
    match role {
        Role::Lower => true,
        Role::Upper => true,
        Role::Integer => true,
        Role::Character => true,
        Role::Text => true,
        Role::True => true,
        Role::False => true,
        Role::Underscore => true,
        Role::LeftParenthesis => true,
        Role::LeftBracket => true,
        Role::LeftBrace => true,
        _ => false,
    }
}

// The level of the type that a token makes with the one before it, or 4.
#[tactic(auto, unfolding(crate::specs::Level::joined_type))]
fn joined_type(role: Role) -> u8
    ensures { result ≡ joined_type role }
{
    match role {
        Role::Lower => 1,
        Role::Upper => 1,
        Role::Star => 2,
        Role::RightArrow => 3,
        _ => 4,
    }
}

// The level of the pattern that a token makes with the one before it, or 6.
#[tactic(auto, unfolding(crate::specs::Level::joined_pattern))]
fn joined_pattern(role: Role) -> u8
    ensures { result ≡ joined_pattern role }
{
    match role {
        Role::DoubleColon => 2,
        Role::Comma => 3,
        Role::Bar => 4,
        Role::As => 5,
        _ => 6,
    }
}

// Whether a part of this sort and of levels up to `most` takes a token in.
#[tactic(auto, unfolding(crate::specs::Level::takes_in))]
fn takes_in(role: Role, sort: Sort, most: u8) -> bool
    ensures { result ≡ takes_in role sort most }
{
    match sort {
        Sort::Type(_) => joined_type(role) <= most,
        Sort::Pattern => joined_pattern(role) <= most,
        Sort::Expression => takes(role, most),
        Sort::Other => false,
    }
}

// Whether a token is `else`.
#[tactic(auto, unfolding(crate::specs::Level::is_else))]
fn is_else(role: Role) -> bool
    ensures { result ≡ is_else role }
{
    match role {
        Role::Else => true,
        _ => false,
    }
}

// Whether a token is `|`.
#[tactic(auto, unfolding(crate::specs::Level::is_bar))]
fn is_bar(role: Role) -> bool
    ensures { result ≡ is_bar role }
{
    match role {
        Role::Bar => true,
        _ => false,
    }
}

// Whether a token is `,`.
#[tactic(auto, unfolding(crate::specs::Level::is_comma))]
fn is_comma(role: Role) -> bool
    ensures { result ≡ is_comma role }
{
    match role {
        Role::Comma => true,
        _ => false,
    }
}

// Whether a token is `*`.
#[tactic(auto, unfolding(crate::specs::Level::is_star))]
fn is_star(role: Role) -> bool
    ensures { result ≡ is_star role }
{
    match role {
        Role::Star => true,
        _ => false,
    }
}

// Whether a token is `;`.
#[tactic(auto, unfolding(crate::specs::Level::is_semicolon))]
fn is_semicolon(role: Role) -> bool
    ensures { result ≡ is_semicolon role }
{
    match role {
        Role::Semicolon => true,
        _ => false,
    }
}

// Whether a further part of a form, or its next token, begins with a token.
#[tactic(auto, unfolding(crate::specs::Level::goes_on_with))]
fn goes_on_with(role: Role, form: Form) -> bool
    ensures { result ≡ goes_on_with role form }
{
    match form {
        Form::TypeTuple(_) => is_star(role),
        Form::PatternTuple => is_comma(role),
        Form::Tuple => is_comma(role),
        Form::Sequence => is_semicolon(role),
        Form::Apply => begins_argument(role),
        Form::IfThen => is_else(role),
        Form::MatchValues => is_bar(role),
        Form::TryClauses => is_bar(role),
        Form::FunctionClauses => is_bar(role),
        Form::Variant => is_bar(role),
        _ => false,
    }
}

// Whether the last reduction made a type name that is applied to a single type.
#[tactic(auto, unfolding(crate::specs::Level::is_applied_to_one))]
fn is_applied_to_one(last: Last) -> bool
    ensures { result ≡ is_applied_to_one last }
{
    match last {
        Last::AppliedToOne => true,
        _ => false,
    }
}

// Whether a form ends before a token.
#[tactic(auto, unfolding(crate::specs::Level::ends_before))]
fn ends_before(role: Role, form: Form, last: Last) -> bool
    ensures { result ≡ ends_before role form last }
{
    match form {
        Form::Let(_) => ends_item(role),
        Form::LetRecursive(_) => ends_item(role),
        Form::Definitions => ends_item(role),
        Form::Effects => ends_item(role),
        Form::Exception => ends_item(role),
        Form::Open => ends_item(role),
        Form::Evaluating => ends_item(role),
        Form::PlainEffect => is_applied_to_one(last) && (is_bar(role) || ends_item(role)),
        Form::EffectOf => is_applied_to_one(last) && (is_bar(role) || ends_item(role)),
        _ => !(goes_on_with(role, form) || takes_in(role, sort_of(form), level_of(form))),
    }
}

/// What a form makes that ends before a token; none where it doesn't end.
#[tactic(auto, unfolding(crate::specs::Level::made_before))]
pub fn made_before(role: Role, form: Form, last: Last) -> Option<Rule>
    ensures { result ≡ made_before role form last }
{
    if ends_before(role, form, last) {
        made_of(form)
    } else {
        None
    }
}
