//! The reductions of a bottom-up parse.
//!
//! A parse from left to right makes each form once all its parts are made. The list of these steps is
//! the parse itself: the nodes of a program are built from it with stacks of what is made so far. What
//! a reduction takes is on top of these stacks, in the order of the text; what it makes is put there.

use ml_syntax::BinaryOperator;

/// What a reduction makes, and of what. A form makes a node, and takes the numbers of its parts.
#[derive(Clone, Copy, Debug, PartialEq, Eq)]
pub enum Rule {
    /// A name that a later reduction takes: the token is on top of the words.
    Word,
    /// A long name of so many words.
    LongName,

    /// A type variable, which is the token.
    TypeVariable,
    TypeAny,
    /// A type name of so many words.
    TypeName,
    /// A long name with so many arguments.
    TypeApply,
    TypeBracket,
    /// So many types.
    TypeTuple,
    /// An argument and a result.
    TypeArrow,

    PatternAny,
    /// A new name, which is the token.
    PatternName,
    PatternConstant,
    PatternUnit,
    PatternBracket,
    /// A pattern and a type.
    PatternAnnotated,
    /// So many patterns.
    PatternList,
    /// So many named parts.
    PatternRecord,
    /// So many named parts, with `; _` behind them.
    PatternRecordOpen,
    /// A constructor of so many words.
    PatternConstructor,
    /// A long name and a pattern.
    PatternConstruct,
    PatternCons,
    PatternTuple,
    PatternOr,
    /// A pattern and a word.
    PatternAlias,

    /// A variable of so many words.
    Variable,
    /// A constructor of so many words.
    Constructor,
    Constant,
    LeastInteger,
    Unit,
    Bracket,
    BeginEnd,
    /// An expression and a type.
    Annotated,
    List,
    Array,
    /// So many named parts.
    Record,
    /// A condition and a body.
    While,
    /// A word, two bounds and a body.
    ForUpward,
    ForDownward,
    Dereference,
    /// An expression and a word.
    Field,
    ArrayElement,
    StringElement,
    /// A function and so many arguments.
    Apply,
    /// A long name and an expression.
    Construct,
    Negate,
    Binary(BinaryOperator),
    Tuple,
    /// A record, a word and a value.
    SetField,
    /// An array, an index and a value.
    SetElement,
    /// A condition and an expression.
    If,
    /// A condition and two expressions.
    IfElse,
    /// So many expressions.
    Sequence,
    /// So many bindings and a body.
    Let,
    LetRecursive,
    /// An expression and so many clauses.
    Match,
    Try,
    /// So many patterns and a body.
    Fun,
    /// So many clauses.
    Function,

    /// What stands behind the name of a field: a word and a node make a named part.
    NamedPart,
    /// A pattern and a body make a clause.
    ValueClause,
    /// A pattern, a guard and a body.
    GuardedClause,
    /// The token is `exception`.
    ExceptionClause,
    GuardedExceptionClause,
    /// A pattern, a continuation and a body; the token is `effect`.
    EffectClause,
    /// A pattern and a body make a binding.
    PatternBinding,
    /// A word, so many patterns and a body.
    NamedBinding,
    /// A word, so many patterns, a type and a body.
    AnnotatedBinding,

    /// So many named parts; the token is `{`.
    Handler,
    /// A long name, two arguments and a handler.
    Handle,
    /// A parameter and cases; the token is `fun`.
    EffectFunction,
    /// The same with a word, the name of a type.
    TypedEffectFunction,
    /// A word, so many rules and the pattern `_`; the token is `match`.
    MatchCases,
    /// So many rules and the pattern `_`; the token is `function`.
    FunctionCases,
    /// A continuation and a body; the token is `Some`.
    Resumption,
    /// A pattern and a resumption make a rule.
    EffectRule,

    /// A word makes a constructor.
    PlainConstructor,
    /// A word and a type make a constructor.
    ConstructorOf,
    /// A word and a type make a field.
    FieldType,
    MutableFieldType,
    /// So many words, the last of which is the name of a type that is defined.
    TypeHead,
    /// A head and so many constructors make a type definition.
    VariantType,
    /// A head and so many fields.
    RecordType,
    /// A word and a type make an effect.
    PlainEffect,
    /// A word, an argument's type and a type.
    EffectOf,

    /// An expression that is evaluated; the token is its first one.
    ExpressionItem,
    /// So many bindings.
    LetItem,
    LetRecursiveItem,
    /// So many type definitions.
    TypesItem,
    /// A long name and so many effects; the token is `type`.
    EffectsItem,
    /// A constructor.
    ExceptionItem,
    /// So many words.
    OpenItem,
}

/// A step of a bottom-up parse.
#[derive(Clone, Copy, Debug, PartialEq, Eq)]
pub struct Reduction {
    pub rule: Rule,
    /// The number of the token at whose place the form stands.
    pub token: usize,
    /// How many parts there are, where the rule doesn't tell.
    pub count: usize,
}
