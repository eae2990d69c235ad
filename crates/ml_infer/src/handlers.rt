//! The equations of handlers.

ghost use Rattle.std.specs.Prelude.{◌≡◌, map, OnOk, IfOk};
ghost use Rattle.ml_infer.specs.Inference.{gives, valued};
ghost use Rattle.ml_infer.specs.Handlers.{continuation_type, effect_clause, effect_clauses, handled, handler_clause, handler_parts, new_handling, no_clause, resumption, subject_type, types_entered, variable_leaves};

use crate::inference::Inference;
use crate::tasks::{HandlerClause, Handling, Task, term_tasks};
use crate::written::Variables;
use effect_meaning::{Constructor, CoreArena, EffectClause, HandlerKind, HandlerTypes, TermForm};
use fx_base::Place;
use std::alloc::{AllocError, Global};
use type_graph::{DEEP, EFFECT, EXN, SHALLOW};

// A clause of a handler.
fn handler_clause(clause: &EffectClause) -> HandlerClause
    ensures { result ≡ handler_clause clause.now }
{
    HandlerClause {
        place: clause.place,
        effect: clause.effect,
        argument: clause.argument,
        continuation: clause.continuation,
        annotation: clause.annotation,
        body: clause.body,
    }
}

// The clauses of a handler, in their order.
fn clause_tasks(
    alloc: Global,
    handling: Handling,
    clauses: &[EffectClause],
) -> Result<Vec<Task>, AllocError>
    ensures { IfOk result (λ tasks. tasks.items ≡ map (λ c. Task.EffectClause handling (handler_clause c)) clauses.now) }
{
    let clauses = clauses.iter();
    clauses
        .map(|clause| Task::EffectClause {
            handling,
            clause: handler_clause(clause),
        })
        .collect(alloc)
}

impl Inference {
    /// A handler. Other forms have no equations here.
    #[tactic(auto, unfolding(crate::specs::Handlers::handled))]
    pub fn handle(&mut self, place: Place, form: &TermForm) -> Result<(), AllocError>
        ensures { OnOk result (self.new ≡ handled form.now place self.old) }
    {
        match form {
            TermForm::Handle {
                kind,
                types,
                subject,
                argument,
                on_value,
                on_exception,
                clauses,
            } => {
                let handling = self.new_handling(*kind, *types)?;
                self.push(Task::Give(handling.given))?;
                self.effect_clauses(place, handling, clauses.as_slice())?;
                self.handler_parts(handling, [*subject, *argument, *on_value, *on_exception])
            }
            _ => Ok(()),
        }
    }

    // New types of what a handler handles and of what it gives.
    fn new_handling(
        &mut self,
        kind: HandlerKind,
        types: HandlerTypes,
    ) -> Result<Handling, AllocError>
        ensures { IfOk result (λ handling. new_handling kind types self.old ≡ valued handling self.new) }
    {
        let handled = self.variable()?;
        let given = self.variable()?;
        Ok(Handling {
            kind,
            types,
            handled,
            given,
        })
    }

    fn effect_clauses(
        &mut self,
        place: Place,
        handling: Handling,
        clauses: &[EffectClause],
    ) -> Result<(), AllocError>
        ensures { OnOk result (self.new ≡ effect_clauses place handling clauses.now self.old) }
    {
        if clauses.is_empty() {
            return self.push(Task::NoClause { place, handling });
        }
        let tasks = clause_tasks(self.types.alloc(), handling, clauses)?;
        self.first(tasks.as_slice())
    }

    // The type of the function or of the continuation that a handler takes.
    fn subject_type(&mut self, handling: Handling, taken: u32) -> Result<u32, AllocError>
        ensures { IfOk result (λ found. subject_type handling taken self.old ≡ gives found self.new) }
    {
        match handling.kind {
            HandlerKind::Deep => self.types.function(taken, handling.handled),
            _ => self.types.apply(SHALLOW, &[taken, handling.handled]),
        }
    }

    fn handler_parts(&mut self, handling: Handling, parts: [u32; 4]) -> Result<(), AllocError>
        ensures { OnOk result (self.new ≡ handler_parts handling parts self.old) }
    {
        let taken = self.variable()?;
        let subject = self.subject_type(handling, taken)?;
        let argument = match handling.kind {
            HandlerKind::ShallowDiscontinue => EXN,
            _ => taken,
        };
        let on_value = self.types.function(handling.handled, handling.given)?;
        let on_exception = self.types.function(EXN, handling.given)?;
        let expected = [subject, argument, on_value, on_exception];
        let tasks = term_tasks(self.types.alloc(), &parts, &expected)?;
        self.first(tasks.as_slice())
    }

    /// A handler without clauses, whose text may give the type of its parameter.
    pub fn no_clause(
        &mut self,
        arena: &CoreArena,
        place: Place,
        handling: Handling,
    ) -> Result<(), AllocError>
        ensures { OnOk result (self.new ≡ no_clause arena.now place handling self.old) }
    {
        let answer = self.variable()?;
        self.leave_variable(handling.types.variable)?;
        self.enter_types(arena, place, handling, answer)
    }

    // Behind a clause the type variable that its handler names stands for what it stood for before the
    // clause.
    fn leave_variable(&mut self, variable: Option<u32>) -> Result<(), AllocError>
        ensures { OnOk result (self.new ≡ variable_leaves variable self.old) }
    {
        let Some(variable) = variable else {
            return Ok(());
        };
        let known = self.variables.get(variable);
        self.push(Task::VariableWas { variable, known })
    }

    // In a clause the type name of its handler stands for what its effect gives, and so does the type
    // of the handler's parameter.
    fn enter_types(
        &mut self,
        arena: &CoreArena,
        place: Place,
        handling: Handling,
        answer: u32,
    ) -> Result<(), AllocError>
        ensures { OnOk result (self.new ≡ types_entered arena.now place handling answer self.old) }
    {
        if let Some(variable) = handling.types.variable {
            self.set_variable(variable, answer)?;
        }
        match handling.types.effect {
            Some(annotation) => {
                let found = self.written(arena, annotation, Variables::OfItem, place)?;
                let expected = self.types.apply(EFFECT, &[answer])?;
                self.equate(place, found, expected)
            }
            None => Ok(()),
        }
    }

    /// A clause of a handler, which names an effect.
    pub fn effect_clause(
        &mut self,
        arena: &CoreArena,
        handling: Handling,
        clause: HandlerClause,
    ) -> Result<(), AllocError>
        ensures { OnOk result (self.new ≡ effect_clause arena.now handling clause self.old) }
    {
        let Constructor::Effect(_) = clause.effect else {
            self.refuse(clause.place);
            return Ok(());
        };
        let constructed = self.constructed(arena, clause.effect, clause.place)?;
        let answer = self.answer(constructed.value)?;
        self.leave_variable(handling.types.variable)?;
        self.enter_types(arena, clause.place, handling, answer)?;
        self.push(Task::Resumption {
            handling,
            clause,
            answer,
        })?;
        match (clause.argument, constructed.argument) {
            (Some(pattern), Some(expected)) => self.whole_pattern(pattern, expected),
            (None, None) => Ok(()),
            _ => {
                self.refuse(clause.place);
                Ok(())
            }
        }
    }

    // The type of the continuation in a clause.
    fn continuation_type(&mut self, handling: Handling, answer: u32) -> Result<u32, AllocError>
        ensures { IfOk result (λ found. continuation_type handling answer self.old ≡ gives found self.new) }
    {
        match handling.kind {
            HandlerKind::Deep => self.types.apply(DEEP, &[answer, handling.given]),
            _ => self.types.apply(SHALLOW, &[answer, handling.handled]),
        }
    }

    /// The continuation and the body of a clause.
    pub fn resumption(
        &mut self,
        arena: &CoreArena,
        handling: Handling,
        clause: HandlerClause,
        answer: u32,
    ) -> Result<(), AllocError>
        ensures { OnOk result (self.new ≡ resumption arena.now handling clause answer self.old) }
    {
        let continuation = self.continuation_type(handling, answer)?;
        self.set_one(clause.continuation, continuation)?;
        self.annotate(arena, clause.place, continuation, clause.annotation)?;
        self.push(Task::TermIs {
            term: clause.body,
            expected: handling.given,
        })
    }
}
