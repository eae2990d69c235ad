//! The equations of terms.

ghost use Rattle.std.specs.Prelude.{◌≡◌, map, OnOk, IfOk};
ghost use Rattle.ml_infer.specs.Inference.{valued};
ghost use Rattle.ml_infer.specs.Terms.{agreed, annotated, application, array, compared, construct, data_term, end_function, field_is, function_begun, functions_first, group_function, is_mutable, lambda, match_term, names_each, names_new, new_names, plain_term, primitive, read_field, record_term, set_field, term, term_of, tuple_term};

use crate::constructors::{constant_type, field_owner, is_owner, is_unhandled};
use crate::inference::{Compared, Inference};
use crate::tasks::{GroupFunction, Task, term_tasks};
use crate::written::Variables;
use effect_meaning::{Constructor, CoreArena, FieldPart, Function, Operation, TermForm};
use fx_base::Place;
use std::alloc::{AllocError, Global};
use type_graph::{ARRAY, BOOL, FUNCTION, Signature, TUPLE, UNIT};

// Terms that all have one type, in their order.
fn element_tasks(alloc: Global, expected: u32, terms: &[u32]) -> Result<Vec<Task>, AllocError>
    ensures { IfOk result (λ tasks. tasks.items ≡ map (λ n. Task.TermIs n expected) terms.now) }
{
    let terms = terms.iter();
    terms
        .map(|term| Task::TermIs {
            term: *term,
            expected,
        })
        .collect(alloc)
}

// The fields of a record expression, in their order.
fn field_tasks(
    alloc: Global,
    place: Place,
    variables: Variables,
    parts: &[FieldPart],
) -> Result<Vec<Task>, AllocError>
    ensures { IfOk result (λ tasks. tasks.items ≡ map (λ f. Task.FieldIs place f variables) parts.now) }
{
    let parts = parts.iter();
    parts
        .map(|part| Task::FieldIs {
            place,
            part: *part,
            variables,
        })
        .collect(alloc)
}

// A function of a `let rec`.
fn group_function(function: &Function) -> GroupFunction
    ensures { result ≡ group_function function.now }
{
    GroupFunction {
        place: function.place,
        name: function.name,
        annotation: function.annotation,
        parameter: function.parameter,
        body: function.body,
    }
}

// The functions of a `let rec`, in their order.
fn function_tasks(alloc: Global, functions: &[Function]) -> Result<Vec<Task>, AllocError>
    ensures { IfOk result (λ tasks. tasks.items ≡ map (λ f. Task.Function (group_function f)) functions.now) }
{
    let functions = functions.iter();
    functions
        .map(|function| Task::Function(group_function(function)))
        .collect(alloc)
}

impl Inference {
    /// The equations of a term. Those of its parts come first.
    pub fn term(&mut self, arena: &CoreArena, n: u32) -> Result<(), AllocError>
        ensures { OnOk result (self.new ≡ term arena.now n self.old) }
    {
        match arena.terms().get(n as usize) {
            Some(node) => self.term_of(arena, n, node.place, &node.form),
            None => self.give(UNIT),
        }
    }

    #[tactic(auto, unfolding(crate::specs::Terms::term_of))]
    fn term_of(
        &mut self,
        arena: &CoreArena,
        n: u32,
        place: Place,
        form: &TermForm,
    ) -> Result<(), AllocError>
        ensures { OnOk result (self.new ≡ term_of form.now arena.now n place self.old) }
    {
        match form {
            TermForm::Name(name) => {
                let found = self.name_type(*name)?;
                self.give(found)
            }
            TermForm::Constant(constant) => self.give(constant_type(*constant)),
            TermForm::Function { parameter, body } => {
                let argument = self.new_name(*parameter)?;
                self.first(&[Task::Term(*body), Task::Lambda(argument)])
            }
            TermForm::Apply { function, argument } => {
                let apply = Task::Apply {
                    function: self.term_place(arena, *function),
                    argument: self.term_place(arena, *argument),
                };
                self.first(&[Task::Term(*function), Task::Term(*argument), apply])
            }
            TermForm::Let { name, value, body } => self.first(&[
                Task::Term(*value),
                Task::Name(*name),
                Task::Term(*body),
            ]),
            TermForm::LetRec { functions, body } => {
                self.push(Task::Term(*body))?;
                self.functions(functions.as_slice())
            }
            other => self.plain_term(arena, n, place, other),
        }
    }

    // Terms that bind no names of their own.
    #[tactic(auto, unfolding(crate::specs::Terms::plain_term))]
    fn plain_term(
        &mut self,
        arena: &CoreArena,
        n: u32,
        place: Place,
        form: &TermForm,
    ) -> Result<(), AllocError>
        ensures { OnOk result (self.new ≡ plain_term form.now arena.now n place self.old) }
    {
        match form {
            TermForm::Sequence { first, second } => self.first(&[
                Task::Term(*first),
                Task::Forget,
                Task::Term(*second),
            ]),
            TermForm::If {
                condition,
                consequence,
                alternative,
            } => {
                let agree = Task::Agree(self.term_place(arena, *alternative));
                let test = Task::TermIs {
                    term: *condition,
                    expected: BOOL,
                };
                self.first(&[
                    test,
                    Task::Term(*consequence),
                    Task::Term(*alternative),
                    agree,
                ])
            }
            TermForm::Match { subject, .. } => self.match_term(n, *subject),
            TermForm::Catch { body, .. } => self.match_term(n, *body),
            TermForm::Annotated { term, annotation } => {
                let annotated = Task::Annotated {
                    place: self.term_place(arena, *term),
                    annotation: *annotation,
                };
                self.first(&[Task::Term(*term), annotated])
            }
            other => self.data_term(arena, place, other),
        }
    }

    // A match or a catch, with its subject.
    fn match_term(&mut self, n: u32, subject: u32) -> Result<(), AllocError>
        ensures { OnOk result (self.new ≡ match_term n subject self.old) }
    {
        let body_type = self.variable()?;
        self.first(&[
            Task::Term(subject),
            Task::Clauses { term: n, body_type },
            Task::Give(body_type),
        ])
    }

    // Tuples, arrays, constructors, records and operations.
    #[tactic(auto, unfolding(crate::specs::Terms::data_term))]
    fn data_term(
        &mut self,
        arena: &CoreArena,
        place: Place,
        form: &TermForm,
    ) -> Result<(), AllocError>
        ensures { OnOk result (self.new ≡ data_term form.now arena.now place self.old) }
    {
        match form {
            TermForm::Tuple(parts) => self.tuple_term(parts.as_slice()),
            TermForm::Array(parts) => self.array(parts.as_slice()),
            TermForm::Constructor(constructor) => {
                self.construct(arena, place, *constructor, None)
            }
            TermForm::Construct {
                constructor,
                argument,
            } => self.construct(arena, place, *constructor, Some(*argument)),
            TermForm::Record(parts) => self.record_term(arena, place, parts.as_slice()),
            TermForm::Field { field, record } => self.read_field(arena, place, *field, *record),
            TermForm::SetField {
                field,
                record,
                value,
            } => self.set_field(arena, place, *field, *record, *value),
            TermForm::Primitive { operation, parts } => {
                self.primitive(place, *operation, parts.as_slice())
            }
            other => self.handle(place, other),
        }
    }

    fn tuple_term(&mut self, parts: &[u32]) -> Result<(), AllocError>
        ensures { OnOk result (self.new ≡ tuple_term parts.now self.old) }
    {
        let expected = self.new_variables(parts.len())?;
        let found = self.types.apply(TUPLE, expected.as_slice())?;
        self.push(Task::Give(found))?;
        let tasks = term_tasks(self.types.alloc(), parts, expected.as_slice())?;
        self.first(tasks.as_slice())
    }

    fn array(&mut self, parts: &[u32]) -> Result<(), AllocError>
        ensures { OnOk result (self.new ≡ array parts.now self.old) }
    {
        let element = self.variable()?;
        let found = self.types.apply(ARRAY, &[element])?;
        self.push(Task::Give(found))?;
        let tasks = element_tasks(self.types.alloc(), element, parts)?;
        self.first(tasks.as_slice())
    }

    fn construct(
        &mut self,
        arena: &CoreArena,
        place: Place,
        constructor: Constructor,
        argument: Option<u32>,
    ) -> Result<(), AllocError>
        ensures { OnOk result (self.new ≡ construct constructor argument arena.now place self.old) }
    {
        let constructed = self.constructed(arena, constructor, place)?;
        self.push(Task::Give(constructed.value))?;
        if is_unhandled(constructor) {
            self.refuse(place);
            return Ok(());
        }
        match (argument, constructed.argument) {
            (Some(term), Some(expected)) => self.push(Task::TermIs { term, expected }),
            (None, None) => Ok(()),
            _ => {
                self.refuse(place);
                Ok(())
            }
        }
    }

    // A record expression names each field of one type once.
    fn record_term(
        &mut self,
        arena: &CoreArena,
        place: Place,
        parts: &[FieldPart],
    ) -> Result<(), AllocError>
        ensures { OnOk result (self.new ≡ record_term parts.now arena.now place self.old) }
    {
        let Some(first) = parts.first() else {
            self.refuse(place);
            return Ok(());
        };
        let Some(of_type) = field_owner(arena, first.field) else {
            return Ok(());
        };
        let made = self.instance(arena, of_type)?;
        self.push(Task::Give(made.value))?;
        if !self.names_each(arena, of_type, parts)? {
            self.refuse(place);
            return Ok(());
        }
        let tasks = field_tasks(self.types.alloc(), place, made.variables, parts)?;
        self.first(tasks.as_slice())
    }

    // Whether parts name each field of a type once.
    fn names_each(
        &mut self,
        arena: &CoreArena,
        of_type: u32,
        parts: &[FieldPart],
    ) -> Result<bool, AllocError>
        ensures { IfOk result (λ is. names_each arena.now of_type parts.now self.old ≡ valued is self.new) }
    {
        self.records = self.records.saturating_add(1);
        let mut is_right = parts.len() == self.fields.count(of_type) as usize;
        for part in parts {
            let is_new = self.names_new(arena, of_type, part.field)?;
            is_right = is_right && is_new;
        }
        Ok(is_right)
    }

    // Whether a field is one of a type, and the record expression at hand didn't name it yet.
    fn names_new(&mut self, arena: &CoreArena, of_type: u32, field: u32) -> Result<bool, AllocError>
        ensures { IfOk result (λ is. names_new arena.now of_type field self.old ≡ valued is self.new) }
    {
        let is_named = match self.naming.get(field) {
            Some(last) => last == self.records,
            None => false,
        };
        self.naming.set(field, self.records)?;
        Ok(is_owner(arena, of_type, field) && !is_named)
    }

    /// A field of a record expression.
    pub fn field_is(
        &mut self,
        arena: &CoreArena,
        place: Place,
        part: FieldPart,
        variables: Variables,
    ) -> Result<(), AllocError>
        ensures { OnOk result (self.new ≡ field_is arena.now place part variables self.old) }
    {
        let expected = self.field_type(arena, part.field, variables, place)?;
        self.push(Task::TermIs {
            term: part.part,
            expected,
        })
    }

    fn read_field(
        &mut self,
        arena: &CoreArena,
        place: Place,
        field: u32,
        subject: u32,
    ) -> Result<(), AllocError>
        ensures { OnOk result (self.new ≡ read_field arena.now place field subject self.old) }
    {
        let Some(of_type) = field_owner(arena, field) else {
            return Ok(());
        };
        let made = self.instance(arena, of_type)?;
        let found = self.field_type(arena, field, made.variables, place)?;
        self.first(&[
            Task::TermIs {
                term: subject,
                expected: made.value,
            },
            Task::Give(found),
        ])
    }

    fn set_field(
        &mut self,
        arena: &CoreArena,
        place: Place,
        field: u32,
        subject: u32,
        value: u32,
    ) -> Result<(), AllocError>
        ensures { OnOk result (self.new ≡ set_field arena.now place field subject value self.old) }
    {
        let Some(of_type) = field_owner(arena, field) else {
            return Ok(());
        };
        let made = self.instance(arena, of_type)?;
        let found = self.field_type(arena, field, made.variables, place)?;
        self.first(&[
            Task::TermIs {
                term: subject,
                expected: made.value,
            },
            Task::IsMutable { place, field },
            Task::TermIs {
                term: value,
                expected: found,
            },
            Task::Give(UNIT),
        ])
    }

    /// A field that is assigned to at a place is mutable.
    pub fn is_mutable(&mut self, arena: &CoreArena, place: Place, field: u32)
        ensures { self.new ≡ is_mutable arena.now place field self.old }
    {
        if let Some(row) = arena.field_rows().get(field as usize)
            && !row.is_mutable
        {
            self.refuse(place);
        }
    }

    // An operation with its parts. A comparison is noted before those in its parts.
    fn primitive(
        &mut self,
        place: Place,
        operation: Operation,
        parts: &[u32],
    ) -> Result<(), AllocError>
        ensures { OnOk result (self.new ≡ primitive operation place parts.now self.old) }
    {
        let signature = self.types.signature(operation)?;
        self.push(Task::Give(signature.gives))?;
        if parts.len() != signature.count {
            self.refuse(place);
            return Ok(());
        }
        self.note_comparison(place, operation, signature)?;
        let tasks = term_tasks(self.types.alloc(), parts, &signature.parts)?;
        self.first(tasks.as_slice())
    }

    // A comparison is noted with the type of its first part.
    fn note_comparison(
        &mut self,
        place: Place,
        operation: Operation,
        signature: Signature,
    ) -> Result<(), AllocError>
        ensures { OnOk result (self.new ≡ compared operation place signature self.old) }
    {
        if let Operation::Compare(_) = operation {
            let item = self.item;
            let found = signature.part(0);
            self.comparisons.push(Compared { item, place, found })?;
        }
        Ok(())
    }

    /// Puts the functions of a `let rec` before all others. Their names are in scope in all of them.
    pub fn functions(&mut self, functions: &[Function]) -> Result<(), AllocError>
        ensures { OnOk result (self.new ≡ functions_first functions.now self.old) }
    {
        self.new_names(functions)?;
        let tasks = function_tasks(self.types.alloc(), functions)?;
        self.first(tasks.as_slice())
    }

    // The names of the functions of a `let rec`.
    fn new_names(&mut self, functions: &[Function]) -> Result<(), AllocError>
        ensures { OnOk result (self.new ≡ new_names functions.now self.old) }
    {
        for function in functions {
            self.new_name(function.name)?;
        }
        Ok(())
    }

    /// A function of a `let rec`.
    pub fn function(&mut self, function: GroupFunction) -> Result<(), AllocError>
        ensures { OnOk result (self.new ≡ function_begun function self.old) }
    {
        let argument = self.new_name(function.parameter)?;
        self.first(&[
            Task::Term(function.body),
            Task::EndFunction { function, argument },
        ])
    }

    /// The type of a function of a `let rec`, behind its body.
    pub fn end_function(
        &mut self,
        arena: &CoreArena,
        function: GroupFunction,
        argument: u32,
    ) -> Result<(), AllocError>
        ensures { OnOk result (self.new ≡ end_function arena.now function argument self.old) }
    {
        let body = self.take()?;
        let found = self.types.function(argument, body)?;
        self.annotate(arena, function.place, found, function.annotation)?;
        let expected = self.one_type(function.name)?;
        self.equate(function.place, found, expected)
    }

    /// The type of a function, behind its body.
    pub fn lambda(&mut self, argument: u32) -> Result<(), AllocError>
        ensures { OnOk result (self.new ≡ lambda argument self.old) }
    {
        let body = self.take()?;
        let found = self.types.function(argument, body)?;
        self.give(found)
    }

    /// Two equal types. The place is that of the second one.
    pub fn agree(&mut self, place: Place) -> Result<(), AllocError>
        ensures { OnOk result (self.new ≡ agreed place self.old) }
    {
        let second = self.take()?;
        let first = self.take()?;
        self.give(first)?;
        self.equate(place, second, first)
    }

    /// A type that is written.
    pub fn annotated(
        &mut self,
        arena: &CoreArena,
        place: Place,
        annotation: u32,
    ) -> Result<(), AllocError>
        ensures { OnOk result (self.new ≡ annotated arena.now place annotation self.old) }
    {
        let found = self.take()?;
        self.give(found)?;
        self.annotate(arena, place, found, Some(annotation))
    }

    /// An application. A fault stands at the argument where the function is known to be one.
    pub fn application(&mut self, function: Place, argument: Place) -> Result<(), AllocError>
        ensures { OnOk result (self.new ≡ application function argument self.old) }
    {
        let given = self.take()?;
        let found = self.take()?;
        let form = self.types.form(found);
        if form.is_of(FUNCTION, 2)
            && let (Some(expected), Some(answer)) = (
                self.types.argument(form, 0),
                self.types.argument(form, 1),
            )
        {
            self.give(answer)?;
            return self.equate(argument, given, expected);
        }
        let answer = self.variable()?;
        self.give(answer)?;
        let expected = self.types.function(given, answer)?;
        self.equate(function, found, expected)
    }
}
