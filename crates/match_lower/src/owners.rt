//! The walk that finds the functions, effect clauses and items, and what they take from outside.

use crate::compared::Compared;
use crate::names::Names;
use effect_meaning::{
    Clause, CoreArena, EffectClause, FieldPart, Function, ItemForm, Operation, PatternForm,
    TermForm,
};
use fx_base::Place;
use indexmap::IndexSet;
use low_terms::Owner;
use std::alloc::{AllocError, Global};

/// Something that is still to be done.
#[derive(Clone, Copy)]
enum Task {
    Term(u32),
    /// A function with its parameter and its body.
    Function {
        place: Place,
        parameter: u32,
        body: u32,
    },
    /// An effect clause, of this many names.
    EffectClause {
        place: Place,
        argument: Option<u32>,
        continuation: u32,
        body: u32,
    },
    /// The body of the innermost owner is behind.
    Leave,
}

/// What the walk found.
#[derive(Drop)]
pub struct Found {
    pub uses: Vec<u32>,
    pub is_top: Vec<bool>,
    pub owners: Vec<Owner>,
    pub owner_of: Vec<u32>,
    /// The comparisons by content, as the walk came to them.
    pub comparisons: Vec<Compared>,
}

/// The walk over a program's items.
#[derive(Drop)]
pub struct Walk<'a> {
    alloc: Global,
    arena: &'a CoreArena,
    /// The slots that each term needs, and the names of each pattern.
    needs: &'a [u64],
    pattern_names: &'a [u32],
    names: Names,
    owners: Vec<Owner>,
    owner_of: Vec<u32>,
    comparisons: Vec<Compared>,
    item: usize,
    /// The owners round the place of the walk, the innermost last.
    around: Vec<u32>,
    tasks: Vec<Task>,
    patterns: Vec<u32>,
}

impl<'a> Walk<'a> {
    /// A walk that has come to no item yet.
    pub fn new(
        alloc: Global,
        arena: &'a CoreArena,
        needs: &'a [u64],
        pattern_names: &'a [u32],
    ) -> Result<Walk<'a>, AllocError> {
        let mut owner_of = Vec::new(alloc);
        owner_of.resize(arena.terms().len(), u32::MAX)?;
        Ok(Walk {
            alloc,
            arena,
            needs,
            pattern_names,
            names: Names::new(alloc),
            owners: Vec::new(alloc),
            owner_of,
            comparisons: Vec::new(alloc),
            item: 0,
            around: Vec::new(alloc),
            tasks: Vec::new(alloc),
            patterns: Vec::new(alloc),
        })
    }

    /// What was found.
    pub fn end(self) -> Found {
        let Walk {
            alloc: _,
            arena: _,
            needs: _,
            pattern_names: _,
            names,
            owners,
            owner_of,
            comparisons,
            item: _,
            around: _,
            tasks: _,
            patterns: _,
        } = self;
        let (uses, is_top) = names.end();
        Found {
            uses,
            is_top,
            owners,
            owner_of,
            comparisons,
        }
    }

    /// Goes over all items.
    pub fn items(&mut self) -> Result<(), AllocError> {
        let arena = self.arena;
        for item in arena.items() {
            self.item(item.place, &item.form)?;
            self.finish()?;
            self.around.clear();
            self.item = self.item.saturating_add(1);
        }
        Ok(())
    }

    // An item. Its names are bound while no owner is round the place.
    fn item(&mut self, place: Place, form: &ItemForm) -> Result<(), AllocError> {
        match form {
            ItemForm::Types(_) | ItemForm::Exception(_) | ItemForm::Effects { .. } => Ok(()),
            ItemForm::Define { name, value } => {
                self.bind(*name)?;
                self.value_item(place, *value)
            }
            ItemForm::Destructure { pattern, value } => {
                self.bind_pattern(*pattern)?;
                self.value_item(place, *value)
            }
            ItemForm::Evaluate(value) => self.value_item(place, *value),
            ItemForm::DefineRec(functions) => {
                self.bind_functions(functions.as_slice())?;
                self.enter(place, 0, None)?;
                self.functions(functions.as_slice())
            }
        }
    }

    fn value_item(&mut self, place: Place, value: u32) -> Result<(), AllocError> {
        let need = self.need(value)?;
        self.enter(place, need, Some(value))?;
        self.push(Task::Term(value))
    }

    fn push(&mut self, task: Task) -> Result<(), AllocError> {
        self.tasks.push(task)?;
        Ok(())
    }

    // Does all that is still to be done.
    fn finish(&mut self) -> Result<(), AllocError> {
        for _step in 0..u64::MAX {
            let Some(task) = self.tasks.pop() else {
                return Ok(());
            };
            self.act(task)?;
        }
        Err(AllocError)
    }

    fn act(&mut self, task: Task) -> Result<(), AllocError> {
        match task {
            Task::Term(term) => self.term(term),
            Task::Function {
                place,
                parameter,
                body,
            } => self.function(place, parameter, body),
            Task::EffectClause {
                place,
                argument,
                continuation,
                body,
            } => self.effect_clause(place, argument, continuation, body),
            Task::Leave => {
                self.around.pop();
                Ok(())
            }
        }
    }

    fn need(&self, term: u32) -> Result<u64, AllocError> {
        match self.needs.get(term as usize) {
            Some(need) => Ok(*need),
            None => Err(AllocError),
        }
    }

    // Goes into a new owner.
    fn enter(&mut self, place: Place, slots: u64, body: Option<u32>) -> Result<(), AllocError> {
        let number = self.owners.len();
        if number >= u32::MAX as usize {
            return Err(AllocError);
        }
        self.owners.push(Owner {
            place,
            slots,
            free: IndexSet::new(self.alloc),
        })?;
        self.around.push(number as u32)?;
        let Some(body) = body else {
            return Ok(());
        };
        match self.owner_of.get_mut(body as usize) {
            Some(owner) => {
                *owner = number as u32;
                Ok(())
            }
            None => Err(AllocError),
        }
    }

    fn function(&mut self, place: Place, parameter: u32, body: u32) -> Result<(), AllocError> {
        let slots = self.need(body)?.saturating_add(1);
        self.enter(place, slots, Some(body))?;
        self.bind(parameter)?;
        self.push(Task::Leave)?;
        self.push(Task::Term(body))
    }

    fn effect_clause(
        &mut self,
        place: Place,
        argument: Option<u32>,
        continuation: u32,
        body: u32,
    ) -> Result<(), AllocError> {
        let names = match argument {
            Some(pattern) => self.names_of(pattern)?,
            None => 0,
        };
        let slots = self.need(body)?.saturating_add(names).saturating_add(2);
        self.enter(place, slots, Some(body))?;
        if let Some(pattern) = argument {
            self.bind_pattern(pattern)?;
        }
        self.bind(continuation)?;
        self.push(Task::Leave)?;
        self.push(Task::Term(body))
    }

    fn names_of(&self, pattern: u32) -> Result<u64, AllocError> {
        match self.pattern_names.get(pattern as usize) {
            Some(names) => Ok(u64::from(*names)),
            None => Err(AllocError),
        }
    }

    // The innermost owner binds a name.
    fn bind(&mut self, name: u32) -> Result<(), AllocError> {
        let owner = self.around.last().copied();
        self.names.bind(name, owner)
    }

    // The innermost owner binds the names of a pattern.
    fn bind_pattern(&mut self, pattern: u32) -> Result<(), AllocError> {
        self.patterns.push(pattern)?;
        for _step in 0..u64::MAX {
            let Some(pattern) = self.patterns.pop() else {
                return Ok(());
            };
            self.bind_next(pattern)?;
        }
        Err(AllocError)
    }

    fn bind_next(&mut self, pattern: u32) -> Result<(), AllocError> {
        let Some(node) = self.arena.patterns().get(pattern as usize) else {
            return Err(AllocError);
        };
        match &node.form {
            PatternForm::Any | PatternForm::Constant(_) | PatternForm::Constructor(_) => Ok(()),
            PatternForm::Name(name) => self.bind(*name),
            PatternForm::Tuple(parts) => { self.patterns.extend_from_slice(parts.as_slice()) }
            PatternForm::Construct { argument, .. } => {
                self.patterns.push(*argument)?;
                Ok(())
            }
            PatternForm::Record(fields) => self.bind_fields(fields.as_slice()),
            PatternForm::Or { left, right } => { self.patterns.extend_from_slice(&[*left, *right]) }
            PatternForm::Alias { pattern, name } => {
                self.patterns.push(*pattern)?;
                self.bind(*name)
            }
            PatternForm::Annotated { pattern, .. } => {
                self.patterns.push(*pattern)?;
                Ok(())
            }
        }
    }

    fn bind_fields(&mut self, fields: &[FieldPart]) -> Result<(), AllocError> {
        for field in fields {
            self.patterns.push(field.part)?;
        }
        Ok(())
    }

    fn bind_functions(&mut self, functions: &[Function]) -> Result<(), AllocError> {
        for function in functions {
            self.bind(function.name)?;
        }
        Ok(())
    }

    // A use of a name. Each owner takes it from outside that stands within the one that binds it.
    fn use_name(&mut self, name: u32) -> Result<(), AllocError> {
        let Some(binder) = self.names.use_one(name)? else {
            return Ok(());
        };
        for owner in self.around.iter().rev() {
            if *owner == binder {
                return Ok(());
            }
            let Some(inner) = self.owners.get_mut(*owner as usize) else {
                return Err(AllocError);
            };
            if !inner.free.insert(name)? {
                return Ok(());
            }
        }
        Ok(())
    }

    // Terms, the first of them to be gone over first.
    fn first(&mut self, terms: &[u32]) -> Result<(), AllocError> {
        for term in terms.iter().rev() {
            self.push(Task::Term(*term))?;
        }
        Ok(())
    }

    fn fields(&mut self, fields: &[FieldPart]) -> Result<(), AllocError> {
        for field in fields.iter().rev() {
            self.push(Task::Term(field.part))?;
        }
        Ok(())
    }

    fn functions(&mut self, functions: &[Function]) -> Result<(), AllocError> {
        for function in functions.iter().rev() {
            self.push(Task::Function {
                place: function.place,
                parameter: function.parameter,
                body: function.body,
            })?;
        }
        Ok(())
    }

    // Clauses. Their names are bound at once, since each name has one binder.
    fn clauses(&mut self, clauses: &[Clause]) -> Result<(), AllocError> {
        for clause in clauses.iter().rev() {
            self.bind_pattern(clause.pattern)?;
            self.push(Task::Term(clause.body))?;
            if let Some(guard) = clause.guard {
                self.push(Task::Term(guard))?;
            }
        }
        Ok(())
    }

    fn effect_clauses(&mut self, clauses: &[EffectClause]) -> Result<(), AllocError> {
        for clause in clauses.iter().rev() {
            self.push(Task::EffectClause {
                place: clause.place,
                argument: clause.argument,
                continuation: clause.continuation,
                body: clause.body,
            })?;
        }
        Ok(())
    }

    fn term(&mut self, term: u32) -> Result<(), AllocError> {
        let Some(node) = self.arena.terms().get(term as usize) else {
            return Err(AllocError);
        };
        match &node.form {
            TermForm::Name(name) => self.use_name(*name),
            TermForm::Function { parameter, body } => {
                self.function(node.place, *parameter, *body)
            }
            TermForm::Let { name, value, body } => {
                self.bind(*name)?;
                self.first(&[*value, *body])
            }
            TermForm::LetRec { functions, body } => {
                self.bind_functions(functions.as_slice())?;
                self.push(Task::Term(*body))?;
                self.functions(functions.as_slice())
            }
            TermForm::Match { subject, clauses } => {
                self.clauses(clauses.as_slice())?;
                self.push(Task::Term(*subject))
            }
            TermForm::Catch {
                body,
                values,
                exceptions,
            } => {
                self.clauses(exceptions.as_slice())?;
                self.clauses(values.as_slice())?;
                self.push(Task::Term(*body))
            }
            TermForm::Primitive { operation, parts } => {
                if let Operation::Compare(_) = operation {
                    self.comparison(term, node.place)?;
                }
                self.first(parts.as_slice())
            }
            other => self.plain_term(other),
        }
    }

    fn comparison(&mut self, term: u32, place: Place) -> Result<(), AllocError> {
        self.comparisons.push(Compared {
            item: self.item,
            place,
            term,
        })?;
        Ok(())
    }

    // Terms that bind no names of their own.
    fn plain_term(&mut self, form: &TermForm) -> Result<(), AllocError> {
        match form {
            TermForm::Apply { function, argument } => self.first(&[*function, *argument]),
            TermForm::Sequence { first, second } => self.first(&[*first, *second]),
            TermForm::If {
                condition,
                consequence,
                alternative,
            } => self.first(&[*condition, *consequence, *alternative]),
            TermForm::Tuple(parts) | TermForm::Array(parts) => self.first(parts.as_slice()),
            TermForm::Construct { argument, .. } => self.push(Task::Term(*argument)),
            TermForm::Record(fields) => self.fields(fields.as_slice()),
            TermForm::Field { record, .. } => self.push(Task::Term(*record)),
            TermForm::SetField { record, value, .. } => self.first(&[*record, *value]),
            TermForm::Handle {
                subject,
                argument,
                on_value,
                on_exception,
                clauses,
                ..
            } => {
                self.effect_clauses(clauses.as_slice())?;
                self.first(&[*subject, *argument, *on_value, *on_exception])
            }
            TermForm::Annotated { term, .. } => self.push(Task::Term(*term)),
            _ => Ok(()),
        }
    }
}
