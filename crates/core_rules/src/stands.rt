//! Whether all that a node or a row names stands in the arena.

ghost use Rattle.std.specs.Prelude.{◌≡◌, ℕ, IsTrue, ◌∷◌, ◌++◌, [], Option, nat_lt, ◌&&◌, map, flat_map, length};
ghost use Rattle.std.specs.List.{list_all};
ghost use Rattle.effect_meaning.specs.Arena.{counts, Need, ATerm, APattern, constant_needs, constructor_need, record_needs, type_needs, pattern_needs, clause_needs, effect_clause_needs, function_needs, term_needs, item_needs, variant_needs, field_needs, exception_needs, effect_needs, AType, if_any};
ghost use Rattle.core_rules.specs.Stands.{are_met, is_met, is_some_below, all_below, fields_below};

use effect_meaning::{
    Clause, Constant, Constructor, CoreArena, EffectClause, EffectRow, ExceptionRow, FieldPart,
    FieldRow, Function, Item, ItemForm, PatternForm, PatternNode, TermForm, TermNode,
    TypeExpression, VariantRow,
};

fn is_there(n: u32, count: usize) -> bool
    ensures { result ≡ nat_lt n count }
{
    (n as usize) < count
}

fn each_is_there(numbers: &[u32], count: usize) -> bool
    ensures { result ≡ list_all (λ n. nat_lt n count) numbers.now }
{
    numbers.iter().all(|n| is_there(*n, count))
}

#[tactic(auto, using(crate::proofs::Needs::below_is))]
fn are_there(numbers: &[u32], count: usize) -> bool
    ensures { result ≡ all_below count numbers.now }
{
    each_is_there(numbers, count)
}

fn is_any_there(n: Option<u32>, count: usize) -> bool
    ensures { result ≡ is_some_below count n }
{
    match n {
        Some(n) => is_there(n, count),
        None => true,
    }
}

fn constant_stands(arena: &CoreArena, constant: Constant) -> bool
    ensures { result ≡ are_met (counts arena.now) (constant_needs constant) }
{
    match constant {
        Constant::Integer(value) => {
            -4_611_686_018_427_387_904 <= value && value <= 4_611_686_018_427_387_903
        }
        Constant::Literal(n) => is_there(n, arena.literals().len()),
        Constant::Character(_) | Constant::Boolean(_) | Constant::Unit => true,
    }
}

fn constructor_stands(arena: &CoreArena, constructor: Constructor) -> bool
    ensures { result ≡ is_met (counts arena.now) (constructor_need constructor) }
{
    match constructor {
        Constructor::Variant(n) => is_there(n, arena.variant_rows().len()),
        Constructor::Exception(n) => is_there(n, arena.exception_rows().len()),
        Constructor::Effect(n) => is_there(n, arena.effect_rows().len()),
    }
}

fn each_field_is_there(fields: &[FieldPart], count: usize, parts: usize) -> bool
    ensures { result ≡ list_all (λ f. nat_lt f.field count && nat_lt f.part parts) fields.now }
{
    fields.iter().all(|field| is_there(field.field, count) && is_there(field.part, parts))
}

fn fields_stand(arena: &CoreArena, fields: &[FieldPart], parts: usize) -> bool
    ensures { result ≡ fields_below (length arena.now.field_rows) parts fields.now }
{
    each_field_is_there(fields, arena.field_rows().len(), parts)
}

/// Whether a written type stands.
pub fn type_stands(arena: &CoreArena, node: &TypeExpression) -> bool
    ensures { result ≡ are_met (counts arena.now) (type_needs node.now) }
{
    match node {
        TypeExpression::Variable(_) | TypeExpression::Any => true,
        TypeExpression::Applied {
            constructor,
            arguments,
        } => {
            is_there(*constructor, arena.type_rows().len())
                && are_there(arguments.as_slice(), arena.types().len())
        }
    }
}

/// Whether a pattern stands.
pub fn pattern_stands(arena: &CoreArena, node: &PatternNode) -> bool
    ensures { result ≡ are_met (counts arena.now) (pattern_needs node.now.form) }
{
    let count = arena.patterns().len();
    match &node.form {
        PatternForm::Any | PatternForm::Name(_) => true,
        PatternForm::Constant(constant) => constant_stands(arena, *constant),
        PatternForm::Tuple(parts) => are_there(parts.as_slice(), count),
        PatternForm::Constructor(constructor) => constructor_stands(arena, *constructor),
        PatternForm::Construct {
            constructor,
            argument,
        } => constructor_stands(arena, *constructor) && is_there(*argument, count),
        PatternForm::Record(fields) => fields_stand(arena, fields.as_slice(), count),
        PatternForm::Or { left, right } => is_there(*left, count) && is_there(*right, count),
        PatternForm::Alias { pattern, .. } => is_there(*pattern, count),
        PatternForm::Annotated {
            pattern,
            annotation,
        } => is_there(*pattern, count) && is_there(*annotation, arena.types().len()),
    }
}

fn clause_stands(arena: &CoreArena, clause: &Clause) -> bool
    ensures { result ≡ are_met (counts arena.now) (clause_needs clause.now) }
{
    is_there(clause.pattern, arena.patterns().len())
        && is_there(clause.body, arena.terms().len())
        && is_any_there(clause.guard, arena.terms().len())
}

fn each_of_clauses_stands(arena: &CoreArena, clauses: &[Clause]) -> bool
    ensures { result ≡ list_all (λ k. are_met (counts arena.now) (clause_needs k)) clauses.now }
{
    clauses.iter().all(|clause| clause_stands(arena, clause))
}

fn clauses_stand(arena: &CoreArena, clauses: &[Clause]) -> bool
    ensures { result ≡ are_met (counts arena.now) (flat_map clause_needs clauses.now) }
{
    each_of_clauses_stands(arena, clauses)
}

// Whether the argument's pattern and the type of the continuation stand.
fn is_written(arena: &CoreArena, argument: Option<u32>, annotation: Option<u32>) -> bool
    ensures { result ≡ are_met (counts arena.now) (if_any APattern argument ++ if_any AType annotation) }
{
    is_any_there(argument, arena.patterns().len()) && is_any_there(annotation, arena.types().len())
}

fn effect_clause_stands(arena: &CoreArena, clause: &EffectClause) -> bool
    ensures { result ≡ are_met (counts arena.now) (effect_clause_needs clause.now) }
{
    constructor_stands(arena, clause.effect)
        && is_there(clause.body, arena.terms().len())
        && is_written(arena, clause.argument, clause.annotation)
}

fn each_of_effect_clauses_stands(arena: &CoreArena, clauses: &[EffectClause]) -> bool
    ensures { result ≡ list_all (λ k. are_met (counts arena.now) (effect_clause_needs k)) clauses.now }
{
    clauses
        .iter()
        .all(|clause| effect_clause_stands(arena, clause))
}

fn effect_clauses_stand(arena: &CoreArena, clauses: &[EffectClause]) -> bool
    ensures { result ≡ are_met (counts arena.now) (flat_map effect_clause_needs clauses.now) }
{
    each_of_effect_clauses_stands(arena, clauses)
}

fn function_stands(arena: &CoreArena, function: &Function) -> bool
    ensures { result ≡ are_met (counts arena.now) (function_needs function.now) }
{
    is_there(function.body, arena.terms().len())
        && is_any_there(function.annotation, arena.types().len())
}

fn each_of_functions_stands(arena: &CoreArena, functions: &[Function]) -> bool
    ensures { result ≡ list_all (λ k. are_met (counts arena.now) (function_needs k)) functions.now }
{
    functions
        .iter()
        .all(|function| function_stands(arena, function))
}

fn functions_stand(arena: &CoreArena, functions: &[Function]) -> bool
    ensures { result ≡ are_met (counts arena.now) (flat_map function_needs functions.now) }
{
    each_of_functions_stands(arena, functions)
}

/// Whether a term stands.
#[tactic(auto, using(crate::proofs::Needs::met_append))]
pub fn term_stands(arena: &CoreArena, node: &TermNode) -> bool
    ensures { IsTrue result → IsTrue (are_met (counts arena.now) (term_needs node.now.form)) }
{
    let count = arena.terms().len();
    match &node.form {
        TermForm::Name(_) => true,
        TermForm::Constant(constant) => constant_stands(arena, *constant),
        TermForm::Function { body, .. } => is_there(*body, count),
        TermForm::Apply { function, argument } => {
            is_there(*function, count) && is_there(*argument, count)
        }
        TermForm::Let { value, body, .. } => is_there(*value, count) && is_there(*body, count),
        TermForm::LetRec { functions, body } => {
            is_there(*body, count) && functions_stand(arena, functions.as_slice())
        }
        TermForm::Sequence { first, second } => {
            is_there(*first, count) && is_there(*second, count)
        }
        TermForm::If {
            condition,
            consequence,
            alternative,
        } => {
            is_there(*condition, count)
                && is_there(*consequence, count)
                && is_there(*alternative, count)
        }
        TermForm::Match { subject, clauses } => {
            is_there(*subject, count) && clauses_stand(arena, clauses.as_slice())
        }
        other => data_stands(arena, other),
    }
}

// Whether a term of the forms on data, exceptions and effects stands.
fn data_stands(arena: &CoreArena, form: &TermForm) -> bool
    ensures { IsTrue result → IsTrue (are_met (counts arena.now) (term_needs form.now)) }
{
    let count = arena.terms().len();
    match form {
        TermForm::Tuple(parts) => are_there(parts.as_slice(), count),
        TermForm::Array(parts) => are_there(parts.as_slice(), count),
        TermForm::Primitive { parts, .. } => are_there(parts.as_slice(), count),
        TermForm::Constructor(constructor) => constructor_stands(arena, *constructor),
        TermForm::Construct {
            constructor,
            argument,
        } => constructor_stands(arena, *constructor) && is_there(*argument, count),
        TermForm::Record(fields) => fields_stand(arena, fields.as_slice(), count),
        TermForm::Field { field, record } => {
            is_there(*field, arena.field_rows().len()) && is_there(*record, count)
        }
        TermForm::SetField {
            field,
            record,
            value,
        } => {
            is_there(*field, arena.field_rows().len())
                && is_there(*record, count)
                && is_there(*value, count)
        }
        TermForm::Annotated { term, annotation } => {
            is_there(*term, count) && is_there(*annotation, arena.types().len())
        }
        other => handler_stands(arena, other),
    }
}

// Whether a form that catches exceptions or handles effects stands.
#[tactic(auto, using(crate::proofs::Needs::met_append))]
fn handler_stands(arena: &CoreArena, form: &TermForm) -> bool
    ensures { IsTrue result → IsTrue (are_met (counts arena.now) (term_needs form.now)) }
{
    let count = arena.terms().len();
    match form {
        TermForm::Catch {
            body,
            values,
            exceptions,
        } => {
            is_there(*body, count)
                && clauses_stand(arena, values.as_slice())
                && clauses_stand(arena, exceptions.as_slice())
        }
        TermForm::Handle {
            types,
            subject,
            argument,
            on_value,
            on_exception,
            clauses,
            ..
        } => {
            are_there(&[*subject, *argument, *on_value, *on_exception], count)
                && is_any_there(types.effect, arena.types().len())
                && effect_clauses_stand(arena, clauses.as_slice())
        }
        _ => false,
    }
}

/// Whether a constructor of a variant stands.
pub fn variant_stands(arena: &CoreArena, row: &VariantRow) -> bool
    ensures { result ≡ are_met (counts arena.now) (variant_needs row.now) }
{
    is_there(row.of_type, arena.type_rows().len())
        && is_any_there(row.argument, arena.types().len())
}

/// Whether a field of a record type stands.
pub fn field_stands(arena: &CoreArena, row: &FieldRow) -> bool
    ensures { result ≡ are_met (counts arena.now) (field_needs row.now) }
{
    is_there(row.of_type, arena.type_rows().len()) && is_there(row.annotation, arena.types().len())
}

/// Whether an exception stands.
pub fn exception_stands(arena: &CoreArena, row: &ExceptionRow) -> bool
    ensures { result ≡ are_met (counts arena.now) (exception_needs row.now) }
{
    is_any_there(row.argument, arena.types().len())
}

/// Whether an effect stands.
pub fn effect_stands(arena: &CoreArena, row: &EffectRow) -> bool
    ensures { result ≡ are_met (counts arena.now) (effect_needs row.now) }
{
    is_there(row.result, arena.types().len()) && is_any_there(row.argument, arena.types().len())
}

/// Whether an item stands.
pub fn item_stands(arena: &CoreArena, item: &Item) -> bool
    ensures { result ≡ are_met (counts arena.now) (item_needs item.now.form) }
{
    let terms = arena.terms().len();
    match &item.form {
        ItemForm::Types(rows) => are_there(rows.as_slice(), arena.type_rows().len()),
        ItemForm::Exception(row) => is_there(*row, arena.exception_rows().len()),
        ItemForm::Effects { extended, effects } => {
            is_there(*extended, arena.type_rows().len())
                && are_there(effects.as_slice(), arena.effect_rows().len())
        }
        ItemForm::Define { value, .. } | ItemForm::Evaluate(value) => is_there(*value, terms),
        ItemForm::Destructure { pattern, value } => {
            is_there(*pattern, arena.patterns().len()) && is_there(*value, terms)
        }
        ItemForm::DefineRec(functions) => functions_stand(arena, functions.as_slice()),
    }
}
