//! The forms that are open while a program is read.

use ml_syntax::BinaryOperator;

/// Which types may stand somewhere: any, or those without type variables and without `_`, which
/// alone stand in the type of an effect.
#[derive(Clone, Copy)]
pub enum Types {
    Any,
    Closed,
}

/// Where a `let` stands: inside an expression, where an expression or an item may begin, or where
/// only an item may.
#[derive(Clone, Copy)]
pub enum Position {
    Inside,
    Either,
    Item,
}

/// Which functions take a handler: those whose handler has three fields, or `try_with`.
#[derive(Clone, Copy)]
pub enum HandlerKind {
    Full,
    EffectsOnly,
}

/// The fields of a handler that are still to come.
#[derive(Clone, Copy)]
pub struct Missing {
    pub retc: bool,
    pub exnc: bool,
    pub effc: bool,
}

/// An open form, by the part that it waits for.
#[derive(Clone, Copy)]
pub enum Form {
    /// The whole text, below all open forms.
    Program,

    /// The words of a type name, up to a dot.
    TypePath,
    /// The words of a type constructor's name behind its arguments.
    ConstructorPath,
    /// `(`, before the first type.
    TypeParenthesis(Types),
    /// `(t, ..`
    TypeArguments(Types),
    /// Arguments, before the name of their type constructor.
    TypeApplication,
    TypeTuple(Types),
    TypeArrow(Types),

    PatternPath,
    PatternParenthesis,
    /// `(p :`
    PatternAnnotation,
    /// `(` round the pattern of an effect.
    EffectParenthesis,
    PatternList,
    PatternRecord,
    PatternConstruct,
    PatternCons,
    PatternTuple,
    PatternOr,
    /// `p as`
    PatternAlias,

    Path,
    Parenthesis,
    Begin,
    /// `(e :`
    Annotation,
    List,
    Array,
    Record,
    /// `e.`
    Select,
    /// `e.(`
    Index,
    /// `e.[`
    Pick,
    Dereference,
    Negate,
    Operating(BinaryOperator),
    Tuple,
    Sequence,
    Apply,
    Construct,
    /// `e.f <-`
    SetField,
    /// `e.(e) <-`
    SetElement,
    /// `if`
    IfCondition,
    /// `if e then`
    IfThen,
    /// `if e then e else`
    IfElse,
    /// `while`
    WhileCondition,
    /// `while e do`
    WhileBody,
    /// `for`, up to the first bound.
    ForFirst,
    /// `for x = e to`
    ForUpTo,
    /// `for x = e downto`
    ForDownTo,
    /// `for x = e to e do`
    ForUpward,
    /// `for x = e downto e do`
    ForDownward,
    /// `fun`, before the arrow.
    FunParameters,
    /// `fun p .. ->`
    FunBody,

    /// `match`
    MatchSubject,
    /// `try`
    TryBody,
    /// The clauses of a `match`, none of which is for values so far.
    MatchClauses,
    /// The same, one of which is for values.
    MatchValues,
    TryClauses,
    FunctionClauses,
    /// The pattern of a clause.
    ValueClause,
    /// `exception`, in a clause.
    ExceptionClause,
    /// `effect`, in a clause.
    EffectClause,
    /// `p when`
    ValueGuard,
    /// `exception p when`
    ExceptionGuard,
    /// `p ->`
    ValueAnswer,
    /// `p when e ->`
    GuardedAnswer,
    /// `exception p ->`
    ExceptionAnswer,
    /// `exception p when e ->`
    GuardedExceptionAnswer,
    /// `effect q, k ->`
    EffectAnswer,

    /// `let`
    Let(Position),
    /// `let rec`
    LetRecursive(Position),
    /// The name that a binding begins with.
    BindingName,
    /// The same behind `let rec`.
    RecursiveName,
    /// That name, where no parameter follows so far.
    BindingHead,
    /// The same behind `let rec`.
    RecursiveHead,
    /// A name and its parameters.
    BindingParameters,
    /// `x p .. :`
    BindingAnnotation,
    /// `x :` behind `let rec`.
    RecursiveAnnotation,
    /// `x p .. =`
    BindingBody,
    /// `x p .. : t =`
    AnnotatedBody,
    /// `x =` behind `let rec`: the body is a function.
    FunctionBody,
    /// `x : t =` behind `let rec`.
    AnnotatedFunctionBody,
    /// The pattern of a binding.
    BindingPattern,
    /// `p =`
    PatternBody,
    /// `let .. in`
    LetBody,
    /// `let rec .. in`
    LetRecursiveBody,

    /// `type`
    Definitions,
    /// The parameters and the name of a type that is defined.
    TypeHead,
    /// The constructors of a type.
    Variant,
    /// `C of`
    ConstructorArgument,
    /// The fields of a type.
    RecordType,
    /// A field's name.
    FieldType,
    /// `mutable` and a field's name.
    MutableFieldType,
    /// `type _`
    Effects,
    /// The words of the name of an extended type.
    ExtendedPath,
    /// `E :`
    PlainEffect,
    /// `E : t ->`
    EffectOf,
    /// `exception`
    Exception,
    /// `open`
    Open,
    /// An expression that is an item.
    Evaluating,

    /// A function that takes a handler, before its first argument.
    HandleFirst(HandlerKind),
    /// The same before its second argument.
    HandleSecond(HandlerKind),
    /// The fields of a handler.
    HandlerFields(Missing),
    /// `fun`, the value of `effc`.
    EffectFunction,
    /// `fun (type a)`, the value of `effc`.
    TypedEffectFunction,
    /// `(`, before the parameter of `effc`.
    EffectBracket,
    /// The parameter of `effc`.
    EffectParameter,
    /// The parameter of `effc` with its type, from the bracket on.
    EffectAnnotated,
    /// `match eff`
    MatchRules,
    /// `function`, the value of `effc`.
    FunctionRules,
    /// The pattern of a rule.
    RulePattern,
    /// `Some`, in a rule.
    Answer,
    /// `(`, before the continuation of a rule.
    ContinuationBracket,
}
