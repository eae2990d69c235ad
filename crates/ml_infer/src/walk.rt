//! The walk over what is still to be done.

ghost use Rattle.std.specs.Prelude.{◌≡◌, OnOk};
ghost use Rattle.ml_infer.specs.Walk.{acted, acted_in_group, acted_on_data, finished, next, next_task};

use crate::inference::Inference;
use crate::tasks::Task;
use effect_meaning::CoreArena;
use std::alloc::AllocError;

impl Inference {
    // Takes the next task, as long as there is no fault.
    fn next_task(&mut self) -> Option<Task>
        ensures { next_task self.old ≡ next result self.new }
    {
        if self.end.is_some() {
            return None;
        }
        self.tasks.pop()
    }

    /// Does all that is still to be done, as long as there is no fault.
    pub fn finish(&mut self, arena: &CoreArena) -> Result<(), AllocError>
        ensures { OnOk result (self.new ≡ finished u64.MAX arena.now self.old) }
    {
        for _step in 0..u64::MAX {
            let Some(task) = self.next_task() else {
                return Ok(());
            };
            self.act(arena, task)?;
        }
        Err(AllocError)
    }

    #[tactic(auto, unfolding(crate::specs::Walk::acted))]
    fn act(&mut self, arena: &CoreArena, task: Task) -> Result<(), AllocError>
        ensures { OnOk result (self.new ≡ acted task arena.now self.old) }
    {
        match task {
            Task::Term(n) => self.term(arena, n),
            Task::TermIs { term, expected } => {
                let place = self.term_place(arena, term);
                self.first(&[Task::Term(term), Task::Is { place, expected }])
            }
            Task::Pattern(n) => self.pattern(arena, n),
            Task::PatternIs { pattern, expected } => {
                let place = self.pattern_place(arena, pattern);
                self.first(&[Task::Pattern(pattern), Task::Is { place, expected }])
            }
            Task::Give(found) => self.give(found),
            Task::Is { place, expected } => {
                let found = self.take()?;
                self.equate(place, found, expected)
            }
            Task::Forget => {
                self.take()?;
                Ok(())
            }
            Task::Agree(place) => self.agree(place),
            Task::Annotated { place, annotation } => self.annotated(arena, place, annotation),
            Task::Name(name) => {
                let found = self.take()?;
                self.set_one(name, found)
            }
            other => self.act_on_data(arena, other),
        }
    }

    // Tasks of functions, fields and declarations.
    #[tactic(auto, unfolding(crate::specs::Walk::acted_on_data))]
    fn act_on_data(&mut self, arena: &CoreArena, task: Task) -> Result<(), AllocError>
        ensures { OnOk result (self.new ≡ acted_on_data task arena.now self.old) }
    {
        match task {
            Task::Alias { place, name } => self.alias(place, name),
            Task::Lambda(argument) => self.lambda(argument),
            Task::Apply { function, argument } => self.application(function, argument),
            Task::FieldIs {
                place,
                part,
                variables,
            } => self.field_is(arena, place, part, variables),
            Task::FieldPatternIs {
                place,
                of_type,
                part,
                variables,
            } => self.field_pattern(arena, place, of_type, part, variables),
            Task::IsMutable { place, field } => {
                self.is_mutable(arena, place, field);
                Ok(())
            }
            Task::TypeDeclared(of_type) => self.type_declared(arena, of_type),
            Task::FieldDeclared { field, variables } => {
                self.field_declared(arena, field, variables)
            }
            Task::VariantDeclared { variant, variables } => {
                self.variant_declared(arena, variant, variables)
            }
            Task::EffectDeclared(n) => self.effect_declared(arena, n),
            other => self.act_in_group(arena, other),
        }
    }

    // Tasks of clauses, groups of functions and handlers.
    #[tactic(auto, unfolding(crate::specs::Walk::acted_in_group))]
    fn act_in_group(&mut self, arena: &CoreArena, task: Task) -> Result<(), AllocError>
        ensures { OnOk result (self.new ≡ acted_in_group task arena.now self.old) }
    {
        match task {
            Task::Clauses { term, body_type } => self.clauses(arena, term, body_type),
            Task::Clause {
                pattern,
                guard,
                body,
                subject,
                body_type,
            } => self.clause(pattern, guard, body, subject, body_type),
            Task::Function(function) => self.function(function),
            Task::EndFunction { function, argument } => {
                self.end_function(arena, function, argument)
            }
            Task::NoClause { place, handling } => self.no_clause(arena, place, handling),
            Task::EffectClause { handling, clause } => {
                self.effect_clause(arena, handling, clause)
            }
            Task::Resumption {
                handling,
                clause,
                answer,
            } => self.resumption(arena, handling, clause, answer),
            Task::VariableWas { variable, known } => self.variables.put(variable, known),
            _ => Ok(()),
        }
    }
}
