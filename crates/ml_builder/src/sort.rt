//! The sorts of rules: what is built by one function.

ghost use Rattle.std.specs.Prelude.{◌≡◌};
ghost use Rattle.ml_builder.specs.Sort.{sort};

use crate::reduction::Rule;

/// The sorts of forms whose parts are all numbers.
#[derive(Clone, Copy)]
pub enum FormSort {
    /// A form of one token.
    Leaf,
    /// A type with parts.
    Type,
    /// A pattern of patterns.
    Pattern,
    /// A bracket round an expression.
    Bracket,
    /// So many expressions.
    Several,
    /// A `while` or an `if`.
    Control,
    /// A `fun`.
    Fun,
    /// An operator or an application.
    Operation,
    /// An element of an array or of a string.
    Element,
}

/// The sorts of forms that have a name.
#[derive(Clone, Copy)]
pub enum NamedSort {
    /// A long name alone.
    Name,
    /// A form with a word.
    WithWord,
    /// A `for`.
    For,
    /// A form with a long name.
    WithLongName,
}

/// The sorts of forms whose parts are no forms.
#[derive(Clone, Copy)]
pub enum CompoundSort {
    /// A form of named parts.
    Record,
    /// A form of clauses.
    Match,
    /// A form of bindings.
    Let,
}

/// The sorts of forms with a handler, and of its parts.
#[derive(Clone, Copy)]
pub enum HandlerSort {
    /// A call with a handler.
    Call,
    /// A rule.
    Rule,
    /// A function.
    Function,
    /// Rules with a subject.
    MatchCases,
    /// Rules without a subject.
    FunctionCases,
}

/// The sorts of what is no form of its own.
#[derive(Clone, Copy)]
pub enum PartSort {
    /// A word.
    Word,
    /// A long name.
    LongName,
    /// A named part.
    NamedPart,
    /// A clause.
    Clause,
    /// An exception clause.
    ExceptionClause,
    /// A binding.
    Binding,
}

/// The sorts of the parts of definitions.
#[derive(Clone, Copy)]
pub enum DefinitionSort {
    /// A constructor.
    Constructor,
    /// A field.
    Field,
    /// A type that is about to be defined.
    Head,
    /// A variant type.
    Variant,
    /// A record type.
    Record,
    /// An effect.
    Effect,
}

/// The sorts of items.
#[derive(Clone, Copy)]
pub enum ItemSort {
    /// An expression.
    Expression,
    /// A `let`.
    Let,
    /// Type definitions.
    Types,
    /// Effects.
    Effects,
    /// An exception.
    Exception,
    /// An `open`.
    Open,
}

/// The sort of a rule.
#[derive(Clone, Copy)]
pub enum Sort {
    Form(FormSort),
    Named(NamedSort),
    Compound(CompoundSort),
    Handler(HandlerSort),
    Part(PartSort),
    Definition(DefinitionSort),
    Item(ItemSort),
}

/// The sort of a rule.
#[tactic(auto, unfolding(crate::specs::Sort::sort))]
pub fn sort_of(rule: Rule) -> Sort
    ensures { result ≡ sort rule }
{
    match rule {
        Rule::TypeVariable
        | Rule::TypeAny
        | Rule::PatternAny
        | Rule::PatternName
        | Rule::PatternConstant
        | Rule::PatternUnit
        | Rule::Constant
        | Rule::LeastInteger
        | Rule::Unit => Sort::Form(FormSort::Leaf),
        Rule::TypeBracket | Rule::TypeTuple | Rule::TypeArrow => Sort::Form(FormSort::Type),
        Rule::PatternBracket
        | Rule::PatternAnnotated
        | Rule::PatternList
        | Rule::PatternCons
        | Rule::PatternTuple
        | Rule::PatternOr => Sort::Form(FormSort::Pattern),
        Rule::Bracket | Rule::BeginEnd | Rule::Annotated => Sort::Form(FormSort::Bracket),
        Rule::List | Rule::Array | Rule::Tuple | Rule::Sequence => Sort::Form(FormSort::Several),
        Rule::While | Rule::If | Rule::IfElse => Sort::Form(FormSort::Control),
        Rule::Fun => Sort::Form(FormSort::Fun),
        Rule::Dereference | Rule::Negate | Rule::Binary(_) | Rule::Apply => Sort::Form(
            FormSort::Operation,
        ),
        Rule::ArrayElement | Rule::StringElement | Rule::SetElement => Sort::Form(
            FormSort::Element,
        ),
        Rule::TypeName | Rule::PatternConstructor | Rule::Variable | Rule::Constructor =>
            Sort::Named(NamedSort::Name),
        Rule::PatternAlias | Rule::Field | Rule::SetField => Sort::Named(NamedSort::WithWord),
        Rule::ForUpward | Rule::ForDownward => Sort::Named(NamedSort::For),
        Rule::TypeApply | Rule::PatternConstruct | Rule::Construct => Sort::Named(
            NamedSort::WithLongName,
        ),
        Rule::PatternRecord | Rule::PatternRecordOpen | Rule::Record | Rule::Handler =>
            Sort::Compound(CompoundSort::Record),
        Rule::Match | Rule::Try | Rule::Function => Sort::Compound(CompoundSort::Match),
        Rule::Let | Rule::LetRecursive => Sort::Compound(CompoundSort::Let),
        Rule::Handle => Sort::Handler(HandlerSort::Call),
        Rule::EffectRule => Sort::Handler(HandlerSort::Rule),
        Rule::Resumption | Rule::EffectFunction | Rule::TypedEffectFunction => Sort::Handler(
            HandlerSort::Function,
        ),
        Rule::MatchCases => Sort::Handler(HandlerSort::MatchCases),
        Rule::FunctionCases => Sort::Handler(HandlerSort::FunctionCases),
        Rule::Word => Sort::Part(PartSort::Word),
        Rule::LongName => Sort::Part(PartSort::LongName),
        Rule::NamedPart => Sort::Part(PartSort::NamedPart),
        Rule::ValueClause | Rule::GuardedClause | Rule::EffectClause => Sort::Part(
            PartSort::Clause,
        ),
        Rule::ExceptionClause | Rule::GuardedExceptionClause => Sort::Part(
            PartSort::ExceptionClause,
        ),
        Rule::PatternBinding | Rule::NamedBinding | Rule::AnnotatedBinding => Sort::Part(
            PartSort::Binding,
        ),
        Rule::PlainConstructor | Rule::ConstructorOf => Sort::Definition(
            DefinitionSort::Constructor,
        ),
        Rule::FieldType | Rule::MutableFieldType => Sort::Definition(DefinitionSort::Field),
        Rule::TypeHead => Sort::Definition(DefinitionSort::Head),
        Rule::VariantType => Sort::Definition(DefinitionSort::Variant),
        Rule::RecordType => Sort::Definition(DefinitionSort::Record),
        Rule::PlainEffect | Rule::EffectOf => Sort::Definition(DefinitionSort::Effect),
        Rule::ExpressionItem => Sort::Item(ItemSort::Expression),
        Rule::LetItem | Rule::LetRecursiveItem => Sort::Item(ItemSort::Let),
        Rule::TypesItem => Sort::Item(ItemSort::Types),
        Rule::EffectsItem => Sort::Item(ItemSort::Effects),
        Rule::ExceptionItem => Sort::Item(ItemSort::Exception),
        Rule::OpenItem => Sort::Item(ItemSort::Open),
    }
}
