//! Shapes of terms that are looked for.

use effect_meaning::{Clause, Constant, Function, TermForm};
use fx_base::Place;
use low_terms::{Core1, Owner, Test};
use std::alloc::{AllocError, Global};

/// The most parameters of one function. Further ones make closures.
pub const MOST_PARAMETERS: usize = 4;

/// A number of elements.
pub fn number_of(count: usize) -> Result<u32, AllocError> {
    if count >= u32::MAX as usize {
        return Err(AllocError);
    }
    Ok(count as u32)
}

/// The form of a term.
pub fn form_of<'a>(core1: &Core1<'a>, term: u32) -> Result<&'a TermForm, AllocError> {
    match core1.arena.terms().get(term as usize) {
        Some(node) => Ok(&node.form),
        None => Err(AllocError),
    }
}

/// The place of a term.
pub fn place_of(core1: &Core1<'_>, term: u32) -> Result<Place, AllocError> {
    match core1.arena.terms().get(term as usize) {
        Some(node) => Ok(node.place),
        None => Err(AllocError),
    }
}

/// The slots that a term needs.
pub fn need_of(core1: &Core1<'_>, term: u32) -> Result<u32, AllocError> {
    match core1.needs.get(term as usize) {
        Some(need) if *need < u64::from(u32::MAX) => Ok(*need as u32),
        _ => Err(AllocError),
    }
}

/// The function or effect clause whose body is this term.
pub fn owner_of<'a>(core1: &'a Core1<'_>, body: u32) -> Result<&'a Owner, AllocError> {
    let Some(number) = core1.owner_of.get(body as usize) else {
        return Err(AllocError);
    };
    match core1.owners.get(*number as usize) {
        Some(owner) => Ok(owner),
        None => Err(AllocError),
    }
}

/// The test of a pattern, by its number.
pub fn test_of(core1: &Core1<'_>, pattern: u32) -> Result<u32, AllocError> {
    match core1.test_of.get(pattern as usize) {
        Some(test) => Ok(*test),
        None => Err(AllocError),
    }
}

/// The name, if a pattern is one.
pub fn name_of(core1: &Core1<'_>, pattern: u32) -> Result<Option<u32>, AllocError> {
    match core1.tests.get(test_of(core1, pattern)? as usize) {
        Some(Test::Name(name)) => Ok(Some(*name)),
        Some(_) => Ok(None),
        None => Err(AllocError),
    }
}

/// Whether a pattern matches everything and has no names.
pub fn is_trivial(core1: &Core1<'_>, pattern: u32) -> Result<bool, AllocError> {
    match core1.facts.get(test_of(core1, pattern)? as usize) {
        Some(facts) => Ok(facts.trivial),
        None => Err(AllocError),
    }
}

/// The term without the annotations round it.
pub fn plain(core1: &Core1<'_>, term: u32) -> Result<u32, AllocError> {
    let mut term = term;
    for _step in 0..u64::MAX {
        let TermForm::Annotated { term: inner, .. } = form_of(core1, term)? else {
            return Ok(term);
        };
        term = *inner;
    }
    Err(AllocError)
}

/// Whether a term is this truth value.
pub fn is_truth(core1: &Core1<'_>, term: u32, truth: bool) -> Result<bool, AllocError> {
    match form_of(core1, plain(core1, term)?)? {
        TermForm::Constant(Constant::Boolean(found)) => Ok(*found == truth),
        _ => Ok(false),
    }
}

/// A function literal, or a function of a `let rec` with its own name.
#[derive(Clone, Copy)]
pub struct Literal {
    pub place: Place,
    pub parameter: u32,
    pub body: u32,
    pub own: Option<u32>,
}

/// A function of a `let rec`.
pub fn literal_of_function(function: &Function) -> Literal {
    Literal {
        place: function.place,
        parameter: function.parameter,
        body: function.body,
        own: Some(function.name),
    }
}

/// The function literal that a term is, if it is one.
pub fn literal_of(core1: &Core1<'_>, term: u32) -> Result<Option<Literal>, AllocError> {
    match form_of(core1, term)? {
        TermForm::Function { parameter, body } => Ok(Some(Literal {
            place: place_of(core1, term)?,
            parameter: *parameter,
            body: *body,
            own: None,
        })),
        _ => Ok(None),
    }
}

/// A parameter of a function, the name that its pattern gives it, and the body behind it.
#[derive(Clone, Copy)]
pub struct Level {
    pub parameter: u32,
    pub alias: Option<u32>,
    pub body: u32,
}

/// What stands behind a parameter.
#[derive(Clone, Copy)]
struct Remainder {
    alias: Option<u32>,
    inner: u32,
}

// What a clause on a parameter leaves of it, where it takes every value.
fn behind_clause(core1: &Core1<'_>, clause: &Clause) -> Result<Option<Remainder>, AllocError> {
    if clause.guard.is_some() {
        return Ok(None);
    }
    let alias = name_of(core1, clause.pattern)?;
    if alias.is_none() && !is_trivial(core1, clause.pattern)? {
        return Ok(None);
    }
    Ok(Some(Remainder {
        alias,
        inner: clause.body,
    }))
}

// What stands behind a parameter, and behind the match on it where this takes every value.
fn behind(core1: &Core1<'_>, parameter: u32, body: u32) -> Result<Remainder, AllocError> {
    let whole = Remainder {
        alias: None,
        inner: body,
    };
    let TermForm::Match { subject, clauses } = form_of(core1, body)? else {
        return Ok(whole);
    };
    match (form_of(core1, *subject)?, clauses.as_slice().first()) {
        (TermForm::Name(name), Some(clause)) if *name == parameter => {
            Ok(behind_clause(core1, clause)?.unwrap_or(whole))
        }
        _ => Ok(whole),
    }
}

/// The parameters, at most so many, that one function takes. A parameter may be a name with a type, `_`
/// or `()`.
pub fn unfold(
    alloc: Global,
    core1: &Core1<'_>,
    literal: Literal,
    most: usize,
) -> Result<Vec<Level>, AllocError> {
    let mut levels = Vec::new(alloc);
    let mut next = Some(literal);
    for _level in 0..most {
        let Some(literal) = next else {
            return Ok(levels);
        };
        let Remainder { alias, inner } = behind(core1, literal.parameter, literal.body)?;
        levels.push(Level {
            parameter: literal.parameter,
            alias,
            body: literal.body,
        })?;
        next = literal_of(core1, inner)?;
    }
    Ok(levels)
}

/// The body behind the last parameter.
pub fn last_body(levels: &[Level]) -> Result<u32, AllocError> {
    match levels.last() {
        Some(level) => Ok(level.body),
        None => Err(AllocError),
    }
}

/// What is applied, and to how many arguments.
#[derive(Clone, Copy)]
pub struct Application {
    pub head: u32,
    pub count: u32,
}

/// The head and the arguments of an application; a term that is none has no arguments.
pub fn application_of(core1: &Core1<'_>, term: u32) -> Result<Application, AllocError> {
    let mut head = term;
    let mut count = 0u32;
    for _step in 0..u64::MAX {
        let TermForm::Apply { function, .. } = form_of(core1, head)? else {
            return Ok(Application { head, count });
        };
        head = *function;
        count = count.saturating_add(1);
    }
    Err(AllocError)
}
