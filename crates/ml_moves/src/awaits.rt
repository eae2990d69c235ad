//! What may come next.

/// What may come next, where the innermost open form alone doesn't tell.
#[derive(Clone, Copy)]
pub enum Awaits {
    /// What follows a part of the innermost form that is whole.
    After,
    /// What follows an upper name and its dot, which is no longer name.
    AfterDot,

    /// A type.
    Type,
    /// The dot behind an upper name.
    TypeDot,
    /// The name behind that dot.
    TypeMember,
    /// The name of the type constructor behind its arguments.
    TypeConstructor,

    /// A pattern.
    Pattern,
    /// A pattern or `)`.
    PatternOrUnit,
    /// A pattern or `]`.
    PatternOrEmpty,
    /// What follows a constructor.
    PatternConstructed,
    /// The upper name behind a dot.
    PatternMember,
    /// The name behind `as`.
    PatternAlias,
    /// A field's name.
    PatternField,
    /// A field's name or `_`.
    PatternFieldOrRest,
    /// The `=` behind it.
    PatternFieldEquals,
    /// The `}` behind `_`.
    PatternRest,
    /// The pattern of an effect.
    EffectPattern,

    /// An expression.
    Expression,
    /// `fun` or `function`.
    Literal,
    /// An expression or `)`.
    ExpressionOrUnit,
    /// An expression or the closing bracket.
    ExpressionOrEmpty,
    /// What follows a constructor.
    Constructed,
    /// What follows a constructor and a dot.
    Member,
    /// What follows an expression and a dot.
    Selecting,
    /// What follows `e.f`.
    Selected,
    /// What follows `e.(e)`.
    Indexed,
    /// An expression, or the end of a sequence behind its semicolon.
    Sequel,
    /// A field's name.
    Field,
    /// The `=` behind it.
    FieldEquals,
    /// The name of a counter.
    Counter,
    /// The `=` behind it.
    CounterEquals,

    /// A clause, or a bar before it.
    FirstClause,
    /// A clause.
    Clause,
    /// The continuation of an effect clause.
    Continuation,
    /// The arrow behind it.
    ContinuationArrow,

    /// A binding or `rec`.
    FirstBinding,
    /// A binding.
    Binding,
    /// What follows the name that a binding begins with.
    Named,
    /// A parameter, `:` or `=`.
    BindingHead,

    /// An item or an expression.
    FirstItem,
    /// An item.
    NextItem,
    /// A type definition or `_`.
    Definitions,
    /// A type definition.
    Definition,
    /// Its parameters or its name.
    DefinitionHead,
    /// A parameter in brackets.
    Parameter,
    /// `,` or `)`.
    ParameterEnd,
    /// The name of a defined type.
    DefinitionName,
    /// The `=` behind it.
    DefinitionEquals,
    /// `{`, a constructor or a bar before it.
    DefinitionBody,
    /// A constructor's name.
    Constructor,
    /// What follows a constructor's name.
    ConstructorEnd,
    /// A field.
    FieldType,
    /// A field or `}`.
    FieldTypeOrEnd,
    /// The name behind `mutable`.
    FieldTypeName,
    /// The `:` behind a field's name.
    FieldTypeColon,
    /// The name of an extended type.
    Extended,
    /// The dot in it.
    ExtendedDot,
    /// The name behind that dot.
    ExtendedMember,
    /// The `+=` behind it.
    ExtendedPlus,
    /// An effect's name, or a bar before it.
    FirstEffect,
    /// An effect's name.
    Effect,
    /// The `:` behind it.
    EffectColon,
    /// The name of an exception.
    Exception,
    /// An upper name of `open`.
    Open,
    /// What follows it.
    OpenEnd,

    /// The name of a handler's field.
    HandlerField,
    /// The `=` behind `retc` or `exnc`.
    HandlerEquals,
    /// The `=` behind `effc`.
    EffectsEquals,
    /// `fun` or `function`.
    Effects,
    /// The parameter of `effc`, a bracket, or `(type a)`.
    EffectParameter,
    /// `type` or the parameter's name.
    EffectOpened,
    /// The name behind `type`.
    EffectType,
    /// The `)` behind it.
    EffectTypeEnd,
    /// The parameter of `effc` or a bracket.
    TypedParameter,
    /// The parameter's name.
    TypedOpened,
    /// The `:` behind it.
    ParameterColon,
    /// The `->` behind the parameter.
    ParameterArrow,
    /// `match`
    EffectMatch,
    /// The parameter's name.
    Subject,
    /// `with`
    SubjectWith,
    /// A rule, or a bar before it.
    FirstRule,
    /// A rule.
    Rule,
    /// `Some`
    Answer,
    /// The `(` behind it.
    AnswerBracket,
    /// `fun`
    AnswerFun,
    /// The continuation of a rule, or a bracket.
    Resumed,
    /// Its name.
    ResumedOpened,
    /// The `:` behind it.
    ResumedColon,
    /// The `->` behind the continuation.
    ResumedArrow,
    /// The bar between rules.
    RuleBar,
    /// The `->` behind the last rule's `_`.
    LastArrow,
    /// `None`
    LastAnswer,
}
