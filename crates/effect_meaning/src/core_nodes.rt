//! The nodes of a program: written types, patterns and terms.
//!
//! Each node stands in an arena of its sort and names others by their numbers there. A name of the
//! program is a number too: each binder has one of its own.

use crate::core_sequence::Sequence;
use fx_base::Place;

/// A type as it is written in the text (OCaml manual, "Type expressions").
#[derive(Drop)]
pub enum TypeExpression {
    /// A type variable. In a declaration it is the parameter of this number, from 0; elsewhere it
    /// is one variable within its item.
    Variable(u32),
    /// The blank `_`.
    Any,
    /// A type of the table of types, with its arguments.
    Applied {
        constructor: u32,
        arguments: Sequence<u32>,
    },
}

/// A constant (OCaml manual, "Constants").
#[derive(Clone, Copy, Debug, PartialEq, Eq)]
pub enum Constant {
    /// An integer of 63 bits.
    Integer(i64),
    /// A character, by its code.
    Character(u8),
    Boolean(bool),
    Unit,
    /// A string literal, by its number in the table of literals.
    Literal(u32),
}

/// A constructor, by its number in the table of its sort.
#[derive(Clone, Copy, Debug, PartialEq, Eq)]
pub enum Constructor {
    Variant(u32),
    Exception(u32),
    Effect(u32),
}

/// A field of a record, and the pattern or the term that stands for it.
#[derive(Clone, Copy, Debug, PartialEq, Eq)]
pub struct FieldPart {
    pub field: u32,
    pub part: u32,
}

/// A pattern, and where it stands.
#[derive(Drop)]
pub struct PatternNode {
    pub place: Place,
    pub form: PatternForm,
}

/// The forms of patterns (OCaml manual, "Patterns").
#[derive(Drop)]
pub enum PatternForm {
    Any,
    /// A new name.
    Name(u32),
    Constant(Constant),
    Tuple(Sequence<u32>),
    /// A constructor without argument.
    Constructor(Constructor),
    /// A constructor with the pattern of its argument.
    Construct {
        constructor: Constructor,
        argument: u32,
    },
    /// Fields, and the pattern of each, in the order of the text.
    Record(Sequence<FieldPart>),
    Or {
        left: u32,
        right: u32,
    },
    /// A pattern whose whole value has a new name.
    Alias {
        pattern: u32,
        name: u32,
    },
    Annotated {
        pattern: u32,
        annotation: u32,
    },
}

/// Which comparison.
#[derive(Clone, Copy, Debug, PartialEq, Eq)]
pub enum Comparison {
    Equal,
    Different,
    Below,
    Above,
    AtMost,
    AtLeast,
    /// `compare`, which gives -1, 0 or 1.
    Compare,
}

/// A built-in operation, named for the built-in name that stands for it.
#[derive(Clone, Copy, Debug, PartialEq, Eq)]
pub enum Operation {
    Add,
    Subtract,
    Multiply,
    Divide,
    Modulo,
    LogicalAnd,
    LogicalOr,
    LogicalXor,
    ShiftLeft,
    ShiftRightLogical,
    ShiftRightArithmetic,
    Minimum,
    Maximum,
    Negate,
    Absolute,
    Successor,
    Predecessor,
    Not,
    First,
    Second,
    Ignore,
    /// A comparison by content.
    Compare(Comparison),
    /// `==`.
    Same,
    /// `!=`.
    Other,
    MakeReference,
    GetReference,
    SetReference,
    IncrementReference,
    DecrementReference,
    Raise,
    FailWith,
    InvalidArgument,
    Exit,
    PrintInteger,
    PrintCharacter,
    PrintString,
    PrintLine,
    PrintNewline,
    StringOfInteger,
    Concatenate,
    StringLength,
    StringGet,
    StringSub,
    CharacterCode,
    CharacterOfCode,
    ArrayMake,
    ArrayLength,
    ArrayGet,
    ArraySet,
    /// `c_iter`, `c_fold` and `c_try`, which call back.
    CallIterate,
    CallFold,
    CallTry,
    Perform,
    Continue,
    Discontinue,
    /// `Effect.Shallow.fiber`.
    Fiber,
    Spawn,
    Join,
    Relax,
    AtomicMake,
    AtomicGet,
    AtomicSet,
    AtomicExchange,
    AtomicCompareAndSet,
    AtomicFetchAndAdd,
    AtomicIncrement,
    AtomicDecrement,
    QueuePush,
    QueueTake,
    QueueSelf,
    QueueSlots,
}

/// Which handler.
#[derive(Clone, Copy, Debug, PartialEq, Eq)]
pub enum HandlerKind {
    /// It stays round the continuations that it is given (`Effect.Deep`).
    Deep,
    /// Of `Effect.Shallow.continue_with`.
    ShallowContinue,
    /// Of `Effect.Shallow.discontinue_with`.
    ShallowDiscontinue,
}

/// A clause of a match, with its guard if it has one.
#[derive(Drop)]
pub struct Clause {
    pub pattern: u32,
    pub guard: Option<u32>,
    pub body: u32,
}

/// A clause of a handler: the constructor of the effect, the pattern of its argument if it has one,
/// and the name of the continuation, with its type where the text gives one. A constructor of another
/// sort has no type there.
#[derive(Drop)]
pub struct EffectClause {
    pub place: Place,
    pub effect: Constructor,
    pub argument: Option<u32>,
    pub continuation: u32,
    pub annotation: Option<u32>,
    pub body: u32,
}

/// The types that are written in a handler literal: the type variable that its `(type a)` makes,
/// which in a clause stands for the result type of that clause's effect, and the type of the
/// parameter of `effc`.
#[derive(Clone, Copy, Debug, PartialEq, Eq)]
pub struct HandlerTypes {
    pub variable: Option<u32>,
    pub effect: Option<u32>,
}

/// A function of a `let rec`, of one parameter, with its own type where the text gives one.
#[derive(Drop)]
pub struct Function {
    pub place: Place,
    pub name: u32,
    pub annotation: Option<u32>,
    pub parameter: u32,
    pub body: u32,
}

/// A term, and where it stands.
#[derive(Drop)]
pub struct TermNode {
    pub place: Place,
    pub form: TermForm,
}

/// The forms of terms (OCaml manual, "Expressions").
#[derive(Drop)]
pub enum TermForm {
    /// A use of a name.
    Name(u32),
    Constant(Constant),
    /// A function of one parameter.
    Function {
        parameter: u32,
        body: u32,
    },
    Apply {
        function: u32,
        argument: u32,
    },
    Let {
        name: u32,
        value: u32,
        body: u32,
    },
    LetRec {
        functions: Sequence<Function>,
        body: u32,
    },
    Sequence {
        first: u32,
        second: u32,
    },
    If {
        condition: u32,
        consequence: u32,
        alternative: u32,
    },
    /// A match. Its place is that of the failure where no clause matches.
    Match {
        subject: u32,
        clauses: Sequence<Clause>,
    },
    Tuple(Sequence<u32>),
    /// A constructor without argument.
    Constructor(Constructor),
    /// A constructor with its argument.
    Construct {
        constructor: Constructor,
        argument: u32,
    },
    /// Fields, and the value of each, in the order of the text.
    Record(Sequence<FieldPart>),
    Array(Sequence<u32>),
    Field {
        field: u32,
        record: u32,
    },
    SetField {
        field: u32,
        record: u32,
        value: u32,
    },
    /// An operation with all its parts.
    Primitive {
        operation: Operation,
        parts: Sequence<u32>,
    },
    /// A body whose exceptions are matched by the one list, and whose value by the other.
    Catch {
        body: u32,
        values: Sequence<Clause>,
        exceptions: Sequence<Clause>,
    },
    /// A handler. The subject is the function that runs under it, or the continuation where it is
    /// shallow; then follow its argument, and what is done with its value and its exception.
    Handle {
        kind: HandlerKind,
        types: HandlerTypes,
        subject: u32,
        argument: u32,
        on_value: u32,
        on_exception: u32,
        clauses: Sequence<EffectClause>,
    },
    Annotated {
        term: u32,
        annotation: u32,
    },
}
