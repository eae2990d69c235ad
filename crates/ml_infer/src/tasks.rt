//! What is still to be done in the walk over a program.

ghost use Rattle.std.specs.Prelude.{◌≡◌, OnOk, IfOk};
ghost use Rattle.ml_infer.specs.Tasks.{first, first_one, term_tasks};

use crate::inference::{Inference, KnownVariable};
use crate::written::Variables;
use effect_meaning::{Constructor, FieldPart, HandlerKind, HandlerTypes};
use fx_base::Place;
use std::alloc::{AllocError, Global};

/// A function of a `let rec`, of one parameter, with its own type where the text gives one.
#[derive(Clone, Copy)]
pub struct GroupFunction {
    pub place: Place,
    pub name: u32,
    pub annotation: Option<u32>,
    pub parameter: u32,
    pub body: u32,
}

/// A handler: the types of what it handles and of what it gives.
#[derive(Clone, Copy)]
pub struct Handling {
    pub kind: HandlerKind,
    pub types: HandlerTypes,
    pub handled: u32,
    pub given: u32,
}

/// A clause of a handler: its effect, the pattern of the argument if it has one, and the name of the
/// continuation, with its type where the text gives one.
#[derive(Clone, Copy)]
pub struct HandlerClause {
    pub place: Place,
    pub effect: Constructor,
    pub argument: Option<u32>,
    pub continuation: u32,
    pub annotation: Option<u32>,
    pub body: u32,
}

/// Something that is still to be done. What takes types takes those that were given last.
#[derive(Clone, Copy)]
pub enum Task {
    /// The equations of a term, which gives its type.
    Term(u32),
    /// The equations of a term, which has this type.
    TermIs {
        term: u32,
        expected: u32,
    },
    /// The equations of a pattern, which gives its type.
    Pattern(u32),
    /// The equations of a pattern, which has this type.
    PatternIs {
        pattern: u32,
        expected: u32,
    },
    /// Gives a type.
    Give(u32),
    /// Takes a type, which is this one.
    Is {
        place: Place,
        expected: u32,
    },
    /// Takes a type, which nothing is asked of.
    Forget,
    /// Takes two equal types and gives one of them. The place is that of the second one.
    Agree(Place),
    /// Takes a type and gives it. It is the one that is written.
    Annotated {
        place: Place,
        annotation: u32,
    },
    /// Takes a type, which is that of a name.
    Name(u32),
    /// Takes a type and gives it. It is that of a name in a pattern.
    Alias {
        place: Place,
        name: u32,
    },
    /// Takes the type of a body and gives that of the function with this argument.
    Lambda(u32),
    /// Takes the types of a function and of its argument, at their places, and gives the result's.
    Apply {
        function: Place,
        argument: Place,
    },
    /// A field of a record expression, where the parameters of its type stand for these.
    FieldIs {
        place: Place,
        part: FieldPart,
        variables: Variables,
    },
    /// A field of a pattern for records of this type, whose parameters stand for these.
    FieldPatternIs {
        place: Place,
        of_type: u32,
        part: FieldPart,
        variables: Variables,
    },
    /// A field is mutable.
    IsMutable {
        place: Place,
        field: u32,
    },
    /// Takes the type of a match's subject. The clauses of the term have this type.
    Clauses {
        term: u32,
        body_type: u32,
    },
    /// A clause for values of a type, whose body has the other one.
    Clause {
        pattern: u32,
        guard: Option<u32>,
        body: u32,
        subject: u32,
        body_type: u32,
    },
    /// A function of a `let rec`.
    Function(GroupFunction),
    /// Takes the type of its body. The argument has this type.
    EndFunction {
        function: GroupFunction,
        argument: u32,
    },
    /// A type that is declared.
    TypeDeclared(u32),
    /// A declared field and those behind it, where the parameters of their type stand for these.
    FieldDeclared {
        field: Option<u32>,
        variables: Variables,
    },
    /// A declared constructor and those behind it, likewise.
    VariantDeclared {
        variant: Option<u32>,
        variables: Variables,
    },
    /// An effect that is declared.
    EffectDeclared(u32),
    /// A handler without clauses.
    NoClause {
        place: Place,
        handling: Handling,
    },
    /// Behind a clause of a handler. A type variable stands again for what it stood for before the clause.
    VariableWas {
        variable: u32,
        known: Option<KnownVariable>,
    },
    /// A clause of a handler.
    EffectClause {
        handling: Handling,
        clause: HandlerClause,
    },
    /// The rest of a clause, behind its pattern. The effect gives a value of this type.
    Resumption {
        handling: Handling,
        clause: HandlerClause,
        answer: u32,
    },
}

/// Terms that have types, in their order.
pub fn term_tasks(alloc: Global, terms: &[u32], expected: &[u32]) -> Result<Vec<Task>, AllocError>
    ensures { IfOk result (λ tasks. tasks.items ≡ term_tasks terms.now expected.now) }
{
    let pairs = terms.iter().zip(expected);
    pairs
        .map(|(term, expected)| Task::TermIs {
            term: *term,
            expected: *expected,
        })
        .collect(alloc)
}

impl Inference {
    /// Puts tasks before all others, the first of them to be done first.
    pub fn first(&mut self, tasks: &[Task]) -> Result<(), AllocError>
        ensures { OnOk result (self.new ≡ first tasks.now self.old) }
    {
        self.tasks.push_first(tasks)
    }

    /// Puts one task before all others.
    pub fn push(&mut self, task: Task) -> Result<(), AllocError>
        ensures { OnOk result (self.new ≡ first_one task self.old) }
    {
        self.tasks.push(task)
    }
}
