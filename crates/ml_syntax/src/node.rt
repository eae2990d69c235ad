//! The nodes of a program: one for each form of an expression, a pattern and a type.
//!
//! A node names its parts by their numbers in the arena. What is no form of its own (a clause, a
//! binding, the field of a record) stands inside the node of its form. Each place is that of the
//! first token that the form has for itself: a keyword, an opening bracket, an operator.

use crate::sequence::{Sequence, Text};
use fx_base::Place;

/// A name and its place.
#[derive(Drop)]
pub struct Name {
    pub place: Place,
    pub text: Text,
}

/// A name behind the upper names of its path, as in `Effect.Deep.continue`; the path may be empty.
/// The place is that of the first part.
#[derive(Drop)]
pub struct LongName {
    pub place: Place,
    pub path: Sequence<Text>,
    pub last: Name,
}

/// The sort of a literal.
#[derive(Clone, Copy, Debug, PartialEq, Eq)]
pub enum LiteralKind {
    /// An integer up to 4,611,686,018,427,387,903.
    Integer,
    Character,
    Text,
    True,
    False,
}

/// A constant, with the text of its token.
#[derive(Drop)]
pub struct Literal {
    pub kind: LiteralKind,
    pub text: Text,
}

/// A field of a record expression, of a record pattern or of a handler, and what stands for it.
#[derive(Drop)]
pub struct NamedPart {
    pub name: Name,
    pub part: u32,
}

/// The infix operators of two operands.
#[derive(Clone, Copy, Debug, PartialEq, Eq)]
pub enum BinaryOperator {
    /// `lsl`
    ShiftLeft,
    /// `lsr`
    ShiftRightLogical,
    /// `asr`
    ShiftRightArithmetic,
    /// `*`
    Multiply,
    /// `/`
    Divide,
    /// `mod`
    Modulo,
    /// `land`
    LogicalAnd,
    /// `lor`
    LogicalOr,
    /// `lxor`
    LogicalXor,
    /// `+`
    Add,
    /// `-`
    Subtract,
    /// `::`
    Cons,
    /// `^`
    Concatenate,
    /// `@`
    Append,
    /// `@@`
    ApplyTo,
    /// `=`
    Equal,
    /// `<>`
    Different,
    /// `==`
    Same,
    /// `!=`
    NotSame,
    /// `<`
    Below,
    /// `>`
    Above,
    /// `<=`
    AtMost,
    /// `>=`
    AtLeast,
    /// `|>`
    Pipe,
    /// `&&`
    And,
    /// `||`
    Or,
    /// `:=`
    Assign,
}

/// A clause of a `match`, a `try` or a `function`.
#[derive(Drop)]
pub enum Clause {
    /// `p -> e` or `p when e -> e`.
    Value {
        pattern: u32,
        guard: Option<u32>,
        body: u32,
    },
    /// `exception p -> e`, with or without a guard, at the place of `exception`.
    Exception {
        place: Place,
        pattern: u32,
        guard: Option<u32>,
        body: u32,
    },
    /// `effect q, k -> e`, at the place of `effect`. The continuation is the pattern k, a name or `_`.
    Effect {
        place: Place,
        pattern: u32,
        continuation: u32,
        body: u32,
    },
}

/// A binding of a `let`.
#[derive(Drop)]
pub enum Binding {
    /// `p = e`, where p is more than a name.
    Pattern {
        pattern: u32,
        body: u32,
    },
    /// `x p .. : t = e`.
    Named {
        name: Name,
        parameters: Sequence<u32>,
        annotation: Option<u32>,
        body: u32,
    },
}

/// A clause of a handler's `effc`: `q -> Some (fun k -> e)`, where the answer is a `Resumption`.
#[derive(Clone, Copy, Debug, PartialEq, Eq)]
pub struct EffectRule {
    pub pattern: u32,
    pub answer: u32,
}

/// A form of a type, of a pattern or of an expression (OCaml manual, chapter "The OCaml language").
#[derive(Drop)]
pub enum Node {
    /// `'a`
    TypeVariable {
        place: Place,
        name: Text,
    },
    /// `_` as a type.
    TypeAny {
        place: Place,
    },
    /// A type name without arguments.
    TypeName {
        name: LongName,
    },
    /// `t name` or `(t, t) name`.
    TypeApply {
        arguments: Sequence<u32>,
        constructor: LongName,
    },
    /// `(t)`
    TypeBracket {
        place: Place,
        inner: u32,
    },
    /// `t * t * t`, at the first `*`.
    TypeTuple {
        place: Place,
        parts: Sequence<u32>,
    },
    /// `t -> t`, at the arrow.
    TypeArrow {
        place: Place,
        argument: u32,
        result: u32,
    },

    /// `_`
    PatternAny {
        place: Place,
    },
    /// A new name.
    PatternName {
        place: Place,
        name: Text,
    },
    PatternConstant {
        place: Place,
        literal: Literal,
    },
    /// `()`
    PatternUnit {
        place: Place,
    },
    /// `(p)`
    PatternBracket {
        place: Place,
        inner: u32,
    },
    /// `(p : t)`
    PatternAnnotated {
        place: Place,
        inner: u32,
        annotation: u32,
    },
    /// `[p; p]`, which may have no part.
    PatternList {
        place: Place,
        parts: Sequence<u32>,
    },
    /// `{f = p; f = p}`. It is open if it ends with `; _`.
    PatternRecord {
        place: Place,
        fields: Sequence<NamedPart>,
        is_open: bool,
    },
    /// A constructor without argument.
    PatternConstructor {
        name: LongName,
    },
    /// A constructor with the pattern of its argument.
    PatternConstruct {
        constructor: LongName,
        argument: u32,
    },
    /// `p :: p`, at the `::`.
    PatternCons {
        place: Place,
        head: u32,
        tail: u32,
    },
    /// `p, p, p`, at the first comma.
    PatternTuple {
        place: Place,
        parts: Sequence<u32>,
    },
    /// `p | p`, at the bar.
    PatternOr {
        place: Place,
        left: u32,
        right: u32,
    },
    /// `p as x`, at `as`.
    PatternAlias {
        place: Place,
        pattern: u32,
        name: Name,
    },

    /// A lower name behind its path.
    Variable {
        name: LongName,
    },
    /// An upper name behind its path, which isn't applied.
    Constructor {
        name: LongName,
    },
    Constant {
        place: Place,
        literal: Literal,
    },
    /// The integer 4,611,686,018,427,387,904, which stands only directly after a prefix `-`.
    LeastInteger {
        place: Place,
        text: Text,
    },
    /// `()`
    Unit {
        place: Place,
    },
    /// `(e)`
    Bracket {
        place: Place,
        inner: u32,
    },
    /// `begin e end`
    BeginEnd {
        place: Place,
        inner: u32,
    },
    /// `(e : t)`
    Annotated {
        place: Place,
        inner: u32,
        annotation: u32,
    },
    /// `[e; e]`, which may have no part.
    List {
        place: Place,
        parts: Sequence<u32>,
    },
    /// `[|e; e|]`, which may have no part.
    Array {
        place: Place,
        parts: Sequence<u32>,
    },
    /// `{f = e; f = e}`
    Record {
        place: Place,
        fields: Sequence<NamedPart>,
    },
    /// `while e do e done`
    While {
        place: Place,
        condition: u32,
        body: u32,
    },
    /// `for x = e to e do e done`, or `downto`.
    For {
        place: Place,
        name: Name,
        first: u32,
        is_downward: bool,
        last: u32,
        body: u32,
    },
    /// `!e`
    Dereference {
        place: Place,
        operand: u32,
    },
    /// `e.f`
    Field {
        record: u32,
        field: Name,
    },
    /// `e.(e)`, at the dot.
    ArrayElement {
        place: Place,
        array: u32,
        index: u32,
    },
    /// `e.[e]`, at the dot.
    StringElement {
        place: Place,
        string: u32,
        index: u32,
    },
    /// `f a b`, with all its arguments. It begins where f does.
    Apply {
        function: u32,
        arguments: Sequence<u32>,
    },
    /// A constructor with its argument.
    Construct {
        constructor: LongName,
        argument: u32,
    },
    /// `match_with f x h`, and likewise the three other functions that take a handler.
    Handle {
        function: LongName,
        first: u32,
        second: u32,
        handler: u32,
    },
    /// The handler of a `Handle`: `retc`, `exnc` and `effc` in the order of the text, or `effc` alone.
    Handler {
        place: Place,
        fields: Sequence<NamedPart>,
    },
    /// `fun (type a) (eff : a t) -> match eff with ..`, the value of `effc`; the type name may be absent.
    EffectFunction {
        place: Place,
        type_name: Option<Name>,
        parameter: u32,
        cases: u32,
    },
    /// `match eff with` and rules, or `function` and rules, which has no subject. The last rule is
    /// `_ -> None`; its pattern `_` is a part.
    EffectCases {
        place: Place,
        subject: Option<Name>,
        rules: Sequence<EffectRule>,
        otherwise: u32,
    },
    /// `Some (fun k -> e)` in a rule of a handler, at `Some`. The parameter is the pattern k: a name
    /// or `_`, or one of them in brackets with its type.
    Resumption {
        place: Place,
        parameter: u32,
        body: u32,
    },
    /// The prefix `-`.
    Negate {
        place: Place,
        operand: u32,
    },
    /// An infix operator, at its place.
    Binary {
        place: Place,
        operator: BinaryOperator,
        left: u32,
        right: u32,
    },
    /// `e, e, e`, at the first comma.
    Tuple {
        place: Place,
        parts: Sequence<u32>,
    },
    /// `e.f <- e`, at the arrow.
    SetField {
        place: Place,
        record: u32,
        field: Name,
        value: u32,
    },
    /// `e.(e) <- e`, at the arrow.
    SetElement {
        place: Place,
        array: u32,
        index: u32,
        value: u32,
    },
    /// `if e then e`, or with `else e`.
    If {
        place: Place,
        condition: u32,
        consequence: u32,
        alternative: Option<u32>,
    },
    /// `e; e; e`, at the first semicolon. It has at least two parts.
    Sequence {
        place: Place,
        parts: Sequence<u32>,
    },
    /// `let .. in e`
    Let {
        place: Place,
        is_recursive: bool,
        bindings: Sequence<Binding>,
        body: u32,
    },
    /// `match e with` clauses.
    Match {
        place: Place,
        subject: u32,
        clauses: Sequence<Clause>,
    },
    /// `try e with` clauses.
    Try {
        place: Place,
        body: u32,
        clauses: Sequence<Clause>,
    },
    /// `fun p .. -> e`
    Fun {
        place: Place,
        parameters: Sequence<u32>,
        body: u32,
    },
    /// `function` clauses.
    Function {
        place: Place,
        clauses: Sequence<Clause>,
    },
}
