//! Flat functions whose registers and stores are chosen: the tree that instructions are selected
//! from.
//!
//! There are three types of steps, one in the other. A [`Flat`] step calls nothing; it names the
//! registers that it reads and writes. A [`Low`] step stands in a frame and may call: the value of a
//! call is in `a0`. A [`Body`] step stands in front of the function's frame, which is made late, by
//! [`Body::Framed`]. A block is a list of steps of one type, done in order. The blocks of a form are of
//! the type of the step that it stands in, and blocks, conditions and clauses have lower numbers than
//! the steps that name them.
//!
//! Labels are made from the numbers of `node`s, each of which one step alone has.

use crate::operations::{Inline, WordComparison};
use crate::slot_terms::{Destination, FunctionKind, Handler, Leading};
use effect_meaning::{Operation, Sequence};
use fx_base::Place;

/// What becomes of the end of a form: what stands behind it goes on, or it leaves the function.
#[derive(Clone, Copy)]
pub enum Out {
    Falls,
    Leaves,
}

/// A word of the frame.
#[derive(Clone, Copy)]
pub enum Home {
    Slot(u32),
    /// The function's closure, or the record of a handler.
    Closure,
}

/// Where a value is read from.
#[derive(Clone, Copy)]
pub enum Source {
    Register(u8),
    Home(Home),
    /// A captured word of the closure, which is in the register, or else in the frame.
    Captured { number: u32, closure: Option<u8> },
    Global(u32),
    Word(u64),
    /// A static string, by its number.
    Text(u32),
    /// A cell of the test area.
    Cell(u32),
}

/// A step of a test. Where it fails, the code goes to the label of the clause.
#[derive(Clone, Copy)]
pub enum Check {
    /// The register has this word.
    Word {
        register: u8,
        word: u64,
    },
    /// The register has a string with the bytes of this static one.
    Text {
        register: u8,
        text: u32,
    },
    /// The register has a block, and one with this header.
    Header {
        register: u8,
        header: Option<u64>,
        mixed: bool,
    },
    /// The register has this exception.
    Exception {
        register: u8,
        constructor: u32,
    },
    /// Reads a part of the block in `base`.
    Part {
        rd: u8,
        base: u8,
        index: u32,
        mutable: bool,
    },
    /// Puts the register's value where its name, or a waiting value, has its place.
    Store {
        register: u8,
        destination: Destination,
    },
    /// Takes a waiting value back.
    Resume {
        rd: u8,
        cell: u32,
    },
    /// The checks of the first block, or where one fails those of the second. Its labels have the
    /// number of the test.
    Or {
        test: u32,
        left: u32,
        right: u32,
    },
}

/// A condition.
#[derive(Clone, Copy)]
pub enum Condition {
    /// Behind the steps of the block, a comparison of two registers.
    Compare {
        before: u32,
        comparison: WordComparison,
        left: u8,
        right: u8,
    },
    Not(u32),
    /// Both; the block is what is stored between them.
    Both {
        node: u32,
        first: u32,
        between: u32,
        second: u32,
    },
    Either {
        node: u32,
        first: u32,
        between: u32,
        second: u32,
    },
    /// Behind the steps of the block, whether a register has `true`.
    True {
        before: u32,
        register: u8,
    },
}

/// A form of two ways.
#[derive(Clone, Copy)]
pub struct If {
    pub node: u32,
    pub condition: u32,
    pub consequence: u32,
    /// None where no value is wanted and the second way has no code.
    pub alternative: Option<u32>,
    pub out: Out,
}

/// A guard: the block of what is stored in front of it, and the condition.
#[derive(Clone, Copy)]
pub struct Guard {
    pub before: u32,
    pub condition: u32,
}

/// A clause. The label behind it has the clause's own number.
#[derive(Clone, Copy)]
pub struct LowClause {
    /// The block of what is done in front of the test: stores, and the load of the value.
    pub before: u32,
    /// The block of the checks.
    pub checks: u32,
    pub guard: Option<Guard>,
    pub body: u32,
    /// Whether other code of the form follows, which the end of the body goes past.
    pub skips: bool,
}

/// What is done where no clause matches.
#[derive(Clone, Copy)]
pub enum Failure {
    /// It can't come.
    Never,
    /// `Match_failure` is raised for this place.
    Raise(Place),
    /// The exception is raised again.
    Reraise(Source),
    /// The steps of the block, which leave.
    Block(u32),
}

/// Clauses on one value, by their numbers, one after the other.
#[derive(Drop)]
pub struct Clauses {
    pub clauses: Sequence<u32>,
    pub failure: Failure,
}

/// A match on one value.
#[derive(Drop)]
pub struct Match {
    pub node: u32,
    pub clauses: Clauses,
    pub out: Out,
}

/// A body whose value meets the one list of clauses, and whose exceptions the other. The exception
/// frame is in `slot`; all three stand in the frame.
#[derive(Drop)]
pub struct Catch {
    pub node: u32,
    pub slot: u32,
    pub body: u32,
    pub values: Clauses,
    pub exceptions: Clauses,
    pub out: Out,
}

/// A form that goes to other code.
#[derive(Clone, Copy)]
pub struct Transfer {
    pub node: u32,
    pub target: Target,
    pub out: Out,
}

/// Where a transfer goes; arguments are in their registers.
#[derive(Clone, Copy)]
pub enum Target {
    /// The closure in `a1`.
    Closure,
    /// The code of a function.
    Known(u32),
    /// The running function once more, in its own frame.
    Again(u32),
    /// The routine of an operation.
    Routine(Operation),
    /// The search for a handler of this effect, by its row in Core.
    Perform(u32),
    /// The same for the effect in `a0`.
    PerformValue,
    /// The body under a new handler, by the function that its code is.
    HandleFunction(u32),
    /// The same by the closure in `a1`.
    HandleClosure,
    /// The continuation in `a0` under a new handler.
    ContinueWith,
    DiscontinueWith,
}

/// A step that calls nothing.
#[derive(Drop)]
pub enum Flat {
    /// Reads a value.
    Load {
        rd: u8,
        source: Source,
    },
    /// Copies a register.
    Copy {
        rd: u8,
        rs: u8,
    },
    /// An operation. None where its value `()` isn't wanted.
    Operation {
        node: u32,
        operation: Inline,
        rd: Option<u8>,
        operands: [u8; 3],
    },
    /// An operation whose second operand is a small number.
    OperationConstant {
        operation: Operation,
        rd: u8,
        operand: u8,
        number: i64,
    },
    /// `raise` and its like, on `a0`: nothing behind it is reached.
    End(Operation),
    /// A new block, made in `made_in` and then put into `rd`. Parts in no register go through `t0`.
    Block {
        rd: u8,
        made_in: u8,
        header: u64,
        leading: Leading,
        inner: Option<u64>,
        /// The place of each part of the block, from 0, and where its value is.
        parts: Sequence<(u32, Source)>,
    },
    /// A new closure for so many captured names, in `new`.
    Closure {
        function: u32,
        count: u32,
    },
    /// The captured names of the closure or record in `base`, from the first one on.
    Captures {
        base: u8,
        names: Sequence<Source>,
    },
    /// A new record of a handler, for so many captured names, in `new`.
    Record {
        first: u32,
        count: u32,
    },
    If(If),
    Match(Match),
    /// The parameters are in their registers.
    Loop {
        node: u32,
        body: u32,
    },
    /// The loop's next round: its parameters have their new values.
    Again {
        node: u32,
    },
}

/// A step in a frame.
#[derive(Drop)]
pub enum Low {
    Flat(Flat),
    /// Stores a register.
    Save { register: u8, home: Home },
    Transfer(Transfer),
    If(If),
    Match(Match),
    Catch(Catch),
    /// Leaves the function with the value in `a0`.
    Return,
}

/// A step in front of the frame.
#[derive(Drop)]
pub enum Body {
    Flat(Flat),
    Transfer(Transfer),
    If(If),
    Match(Match),
    /// Makes the frame; the steps of the block, of type [`Low`], follow.
    Framed { room: Room, rest: u32 },
    Return,
}

/// What makes a frame, for the label behind its test for room.
#[derive(Clone, Copy)]
pub enum Room {
    Node(u32),
    /// At the begin of the function's code.
    Entry,
}

/// Steps of one type.
#[derive(Drop)]
pub enum Block {
    Flat(Sequence<Flat>),
    Low(Sequence<Low>),
    Body(Sequence<Body>),
    Checks(Sequence<Check>),
}

/// A function, an effect clause, an item, or a handler without clauses.
#[derive(Drop)]
pub struct LowFunction {
    /// Its body is a block: of [`Low`] steps where the frame is kept, else of [`Body`] steps.
    pub kind: FunctionKind,
    pub slots: u32,
    pub closure: bool,
    pub head: Option<u32>,
    /// The frame is made at the begin, and calls of itself in tail position come back behind it.
    pub keeps_frame: bool,
    pub place: Place,
    /// The block of the checks of a clause's argument or of an item's value, which is in `t4`.
    pub checks: Option<u32>,
    /// Whether these can't fail.
    pub total: bool,
}

/// A program whose registers and stores are chosen.
#[derive(Drop)]
pub struct LowProgram {
    pub functions: Vec<LowFunction>,
    pub blocks: Vec<Block>,
    pub conditions: Vec<Condition>,
    pub clauses: Vec<LowClause>,
    pub handlers: Vec<Handler>,
    /// The functions in the order of their code.
    pub order: Vec<u32>,
    /// The first item's function, if there is an item.
    pub first_item: Option<u32>,
    pub strings: Vec<Sequence<u8>>,
    pub exceptions: Vec<u32>,
    pub globals: u32,
    pub scratch: u32,
}
