//! Flat functions whose values are in slots: programs before registers are chosen.
//!
//! A term is evaluated while the slots below its `depth` are in use. Parts of a form are listed as
//! they are evaluated, the last one of the text first: part `j` of the list begins with `depth + j`
//! slots in use, and its value is slot `depth + j`; a part that is an atom isn't evaluated.

use crate::operations::{Inline, WordComparison};
use crate::slot_set::SlotSet;
use effect_meaning::{HandlerKind, Operation, Sequence};
use fx_base::Place;

/// A value that is there already.
#[derive(Clone, Copy)]
pub enum Atom {
    /// The value of a slot.
    Slot(u32),
    /// A captured name, by its number in the closure, from 0.
    Captured(u32),
    /// The function itself.
    Own,
    /// A top-level name, by its number.
    Global(u32),
    /// A constant's word.
    Word(u64),
    /// A static string, by its number.
    Text(u32),
}

/// A closure to be made: its function and what it captures.
#[derive(Drop)]
pub struct Closure {
    pub function: u32,
    pub captures: Sequence<Atom>,
}

/// A clause: its test, its guard (a condition) and its body.
#[derive(Clone, Copy)]
pub struct SlotClause {
    pub test: u32,
    pub guard: Option<u32>,
    pub body: u32,
}

/// What stands in a block in front of its parts.
#[derive(Clone, Copy)]
pub enum Leading {
    Nothing,
    /// The word of an exception, by its row in Core.
    Exception(u32),
    /// The word of an effect, by its row in Core.
    Effect(u32),
}

/// The form of a term or of a condition.
#[derive(Drop)]
pub enum SlotForm {
    Atom(Atom),
    /// The value goes to slot `depth`.
    Let {
        value: u32,
        body: u32,
    },
    /// The closures go to the slots from `depth` on.
    LetRec {
        closures: Sequence<Closure>,
        body: u32,
    },
    /// Terms of which only the last one's value is looked at; no other one is an atom.
    Sequence(Sequence<u32>),
    /// On a condition.
    If {
        condition: u32,
        consequence: u32,
        alternative: u32,
    },
    /// The same, where the alternative is an atom.
    When {
        condition: u32,
        consequence: u32,
        alternative: u32,
    },
    Closure(Closure),
    /// A function and its argument.
    Call(Sequence<u32>),
    /// A function of the text with all its arguments; its closure, where it has one.
    Known {
        function: u32,
        closure: Option<Atom>,
        parts: Sequence<u32>,
    },
    Operation {
        operation: Inline,
        parts: Sequence<u32>,
    },
    /// The second operand is a small number.
    OperationConstant {
        operation: Operation,
        part: u32,
        number: i64,
    },
    /// `raise` and its like, which give no value.
    End {
        operation: Operation,
        parts: Sequence<u32>,
    },
    /// An operation that calls a routine of the runtime.
    Routine {
        operation: Operation,
        parts: Sequence<u32>,
    },
    /// An effect written at its `perform`: no block.
    Perform {
        effect: u32,
        parts: Sequence<u32>,
    },
    /// Any other effect.
    PerformValue(Sequence<u32>),
    /// A new block. `fields` has the place of each part, in the order of the text, where it isn't
    /// that order; `inner` is the header of the tuple that is the argument.
    Block {
        header: u64,
        leading: Leading,
        fields: Option<Sequence<u32>>,
        parts: Sequence<u32>,
        inner: Option<u64>,
    },
    /// The value goes to slot `depth`.
    Match {
        value: u32,
        clauses: Sequence<SlotClause>,
        place: Place,
    },
    /// A match on a slot, which the value stays in.
    Look {
        slot: u32,
        clauses: Sequence<SlotClause>,
        place: Place,
    },
    /// The exception frame is in slot `depth`.
    Catch {
        body: u32,
        values: Sequence<SlotClause>,
        exceptions: Sequence<SlotClause>,
        place: Place,
    },
    Handle {
        kind: HandlerKind,
        parts: Sequence<u32>,
        handler: u32,
    },
    /// The body with `count` parameters in the slots from `depth` on, which are first the parts'
    /// values.
    Loop {
        count: u32,
        parts: Sequence<u32>,
        body: u32,
    },
    /// Once more round the loop whose parameters are in the slots from `target` on.
    Again {
        target: u32,
        parts: Sequence<u32>,
    },
    /// Conditions: a comparison of two words,
    Compare {
        comparison: WordComparison,
        parts: Sequence<u32>,
    },
    /// the opposite,
    Not(u32),
    /// both,
    Both(u32, u32),
    /// either,
    Either(u32, u32),
    /// and any term whose value is tested.
    True(u32),
}

/// What code depends on.
#[derive(Clone, Copy)]
pub struct Facts {
    /// It calls nothing.
    pub flat: bool,
    /// The slots that it mentions and doesn't bind, and whether it looks at the closure.
    pub uses: SlotSet,
    /// The registers that its values take at once, where it is flat.
    pub width: u32,
}

/// A term or a condition.
#[derive(Drop)]
pub struct SlotNode {
    pub form: SlotForm,
    /// The slots in use where it begins.
    pub depth: u32,
    pub facts: Facts,
}

/// Where the value of a name goes.
#[derive(Clone, Copy)]
pub enum Destination {
    Slot(u32),
    Global(u32),
    /// A cell of the test area.
    Cell(u32),
}

/// A part of a tuple or a record, and its test.
#[derive(Clone, Copy)]
pub struct SlotPart {
    pub index: u32,
    pub mutable: bool,
    pub test: u32,
}

/// A test whose names have places.
#[derive(Drop)]
pub enum SlotTest {
    Any,
    Bind(Destination),
    Alias {
        destination: Destination,
        test: u32,
    },
    Word(u64),
    /// A static string, by its number.
    Text(u32),
    Block {
        header: Option<u64>,
        mixed: bool,
        argument: u32,
    },
    Exception {
        constructor: u32,
        argument: Option<u32>,
    },
    Effect {
        constructor: u32,
        argument: Option<u32>,
    },
    Parts(Sequence<SlotPart>),
    Or {
        left: u32,
        right: u32,
    },
}

/// What code depends on, of a test.
#[derive(Clone, Copy)]
pub struct SlotTestFacts {
    pub trivial: bool,
    pub total: bool,
    pub named_or: bool,
    /// The slots that values go to.
    pub names: SlotSet,
    /// The registers that a test on a register takes at once.
    pub width: u32,
}

/// What a handler does where its body ends.
#[derive(Clone, Copy)]
pub enum Way {
    /// The code of this function, which finds its captured names in the record.
    Function(u32),
    /// The closure in the record's captured word of this number.
    Captured(u32),
}

/// The record of a handler: the clauses' code, what it captures, and the two ways out of it.
#[derive(Drop)]
pub struct Handler {
    /// The function whose code tests the first clause.
    pub first: u32,
    pub captures: Sequence<Atom>,
    /// The function that runs under it, where it is a literal one.
    pub subject: Option<u32>,
    pub on_value: Way,
    pub on_exception: Way,
}

/// The next test where one of a handler's clauses, or an item, ends.
#[derive(Clone, Copy)]
pub enum Next {
    /// The code of this function.
    Function(u32),
    /// Behind the last item, or outward behind the last clause.
    End,
}

/// What a function's code is for. `body` is a term here, and a block once registers are chosen.
#[derive(Drop)]
pub enum FunctionKind {
    /// A function of `parameters` parameters, which have the slots from 0 on. `kept` has, for each
    /// number of arguments from 1 to `parameters - 1`, the parameters that a partial application to
    /// so many keeps.
    Function {
        parameters: u32,
        kept: Sequence<Sequence<u32>>,
        body: u32,
    },
    /// An effect clause: its test, whose `names` names go to the first cells of the test area; the
    /// continuation is slot 1, the names are the slots from 2 on.
    Clause {
        effect: u32,
        argument: Option<u32>,
        names: u32,
        shallow: bool,
        next: Next,
        body: u32,
    },
    /// An item: its value is tested, and names go to globals.
    Item {
        test: Option<u32>,
        next: Next,
        body: u32,
    },
    /// An item that defines functions alone: each with its global.
    Definitions {
        functions: Sequence<Definition>,
        next: Next,
    },
    /// A handler without clauses.
    Head,
}

/// A function, and the global that it goes to.
#[derive(Clone, Copy)]
pub struct Definition {
    pub function: u32,
    pub global: u32,
}

/// A function, an effect clause, an item, or a handler without clauses.
#[derive(Drop)]
pub struct SlotFunction {
    pub kind: FunctionKind,
    pub place: Place,
    pub in_prelude: bool,
    /// The slots of its frame.
    pub slots: u32,
    /// Whether it looks at its closure.
    pub closure: bool,
    /// The handler whose two ways stand in front of its test.
    pub head: Option<u32>,
}

/// A program of flat functions. Functions, terms, tests, handlers and strings are named by their
/// numbers here; a term's parts have lower numbers.
#[derive(Drop)]
pub struct SlotProgram {
    pub functions: Vec<SlotFunction>,
    pub nodes: Vec<SlotNode>,
    pub tests: Vec<SlotTest>,
    pub test_facts: Vec<SlotTestFacts>,
    pub handlers: Vec<Handler>,
    /// The functions in the order of their code.
    pub order: Vec<u32>,
    /// The first item's function, if there is an item.
    pub first_item: Option<u32>,
    /// The static strings; the first one is the text of the file.
    pub strings: Vec<Sequence<u8>>,
    /// The exceptions that the program makes or tests, by their rows in Core, each once.
    pub exceptions: Vec<u32>,
    /// How many top-level names there are.
    pub globals: u32,
    /// The greatest number of values that wait at once in a test.
    pub scratch: u32,
}
