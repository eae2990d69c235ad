//! One reduction: which function builds what it makes.

ghost use Rattle.std.specs.Prelude.{◌≡◌, Some, IfOk, OnOk, slice_get};
ghost use Rattle.ml_lexer.specs.Seen.{seen};
ghost use Rattle.ml_builder.specs.Sort.{sort};
ghost use Rattle.ml_builder.specs.Reduced.{reduced, reduced_at, reduced_compound, reduced_definition, reduced_form, reduced_handler, reduced_item, reduced_named, reduced_part};

use crate::bindings::{build_binding, build_let};
use crate::building::Building;
use crate::clauses::{build_clause, build_exception_clause, build_match};
use crate::definitions::{
    build_constructor, build_effect, build_field, build_head, build_record_type, build_variant_type,
};
use crate::expressions::{build_bracket, build_control, build_fun, build_several};
use crate::handlers::{
    build_effect_function, build_effect_rule, build_function_cases, build_handle, build_match_cases,
};
use crate::items::{
    build_effects_item, build_exception_item, build_expression_item, build_let_item,
    build_open_item, build_types_item,
};
use crate::leaves::build_leaf;
use crate::named::{build_for, build_name, build_with_long_name, build_with_word};
use crate::names::{build_long_name, build_word};
use crate::operators::{build_element, build_operation};
use crate::patterns::build_pattern;
use crate::records::{build_part, build_record};
use crate::reduction::{Reduction, Rule};
use crate::sort::{
    CompoundSort, DefinitionSort, FormSort, HandlerSort, ItemSort, NamedSort, PartSort, Sort,
    sort_of,
};
use crate::stack::Stack;
use crate::types::build_type;
use ml_lexer::{TokenView, Tokens};
use ml_syntax::Nodes;
use std::alloc::{AllocError, Global};

// Forms whose parts are all numbers.
#[tactic(auto, unfolding(crate::specs::Reduced::reduced_form))]
fn reduce_form(
    alloc: Global,
    sort: FormSort,
    rule: Rule,
    token: &TokenView<'_>,
    count: usize,
    numbers: &mut Stack<u32>,
    nodes: &mut Nodes,
) -> Result<(), AllocError>
    ensures { OnOk result (reduced_form sort rule (seen token.now) count numbers.old nodes.old ≡ Some (numbers.new, nodes.new)) }
{
    match sort {
        FormSort::Leaf => build_leaf(alloc, rule, token, numbers, nodes),
        FormSort::Type => build_type(rule, token.place, count, numbers, nodes),
        FormSort::Pattern => build_pattern(rule, token.place, count, numbers, nodes),
        FormSort::Bracket => build_bracket(rule, token.place, numbers, nodes),
        FormSort::Several => build_several(rule, token.place, count, numbers, nodes),
        FormSort::Control => build_control(rule, token.place, numbers, nodes),
        FormSort::Fun => build_fun(token.place, count, numbers, nodes),
        FormSort::Operation => build_operation(rule, token.place, count, numbers, nodes),
        FormSort::Element => build_element(rule, token.place, numbers, nodes),
    }
}

// Forms that have a name.
#[tactic(auto, unfolding(crate::specs::Reduced::reduced_named))]
fn reduce_named(
    alloc: Global,
    sort: NamedSort,
    rule: Rule,
    token: &TokenView<'_>,
    count: usize,
    state: &mut Building,
) -> Result<(), AllocError>
    ensures { OnOk result (reduced_named sort rule (seen token.now) count state.old ≡ Some state.new) }
{
    match sort {
        NamedSort::Name => build_name(
            alloc,
            rule,
            count,
            &mut state.words,
            &mut state.numbers,
            &mut state.nodes,
        ),
        NamedSort::WithWord => build_with_word(
            rule,
            token.place,
            &mut state.words,
            &mut state.numbers,
            &mut state.nodes,
        ),
        NamedSort::For => build_for(
            rule,
            token.place,
            &mut state.words,
            &mut state.numbers,
            &mut state.nodes,
        ),
        NamedSort::WithLongName => build_with_long_name(
            rule,
            count,
            &mut state.long_names,
            &mut state.numbers,
            &mut state.nodes,
        ),
    }
}

// Forms whose parts are no forms.
#[tactic(auto, unfolding(crate::specs::Reduced::reduced_compound))]
fn reduce_compound(
    sort: CompoundSort,
    rule: Rule,
    token: &TokenView<'_>,
    count: usize,
    state: &mut Building,
) -> Result<(), AllocError>
    ensures { OnOk result (reduced_compound sort rule (seen token.now) count state.old ≡ Some state.new) }
{
    match sort {
        CompoundSort::Record => build_record(
            rule,
            token.place,
            count,
            &mut state.parts,
            &mut state.numbers,
            &mut state.nodes,
        ),
        CompoundSort::Match => build_match(
            rule,
            token.place,
            count,
            &mut state.clauses,
            &mut state.numbers,
            &mut state.nodes,
        ),
        CompoundSort::Let => build_let(
            rule,
            token.place,
            count,
            &mut state.bindings,
            &mut state.numbers,
            &mut state.nodes,
        ),
    }
}

// Forms with a handler, and of its parts.
#[tactic(auto, unfolding(crate::specs::Reduced::reduced_handler))]
fn reduce_handler(
    sort: HandlerSort,
    rule: Rule,
    token: &TokenView<'_>,
    count: usize,
    state: &mut Building,
) -> Result<(), AllocError>
    ensures { OnOk result (reduced_handler sort rule (seen token.now) count state.old ≡ Some state.new) }
{
    match sort {
        HandlerSort::Call => build_handle(
            &mut state.long_names,
            &mut state.numbers,
            &mut state.nodes,
        ),
        HandlerSort::Rule => build_effect_rule(&mut state.numbers, &mut state.rules),
        HandlerSort::Function => build_effect_function(
            rule,
            token.place,
            &mut state.words,
            &mut state.numbers,
            &mut state.nodes,
        ),
        HandlerSort::MatchCases => build_match_cases(
            token.place,
            count,
            &mut state.words,
            &mut state.rules,
            &mut state.numbers,
            &mut state.nodes,
        ),
        HandlerSort::FunctionCases => build_function_cases(
            token.place,
            count,
            &mut state.rules,
            &mut state.numbers,
            &mut state.nodes,
        ),
    }
}

// What is no form of its own.
#[tactic(auto, unfolding(crate::specs::Reduced::reduced_part))]
fn reduce_part(
    alloc: Global,
    sort: PartSort,
    rule: Rule,
    token: &TokenView<'_>,
    count: usize,
    state: &mut Building,
) -> Result<(), AllocError>
    ensures { OnOk result (reduced_part sort rule (seen token.now) count state.old ≡ Some state.new) }
{
    match sort {
        PartSort::Word => build_word(alloc, token, &mut state.words),
        PartSort::LongName => build_long_name(
            alloc,
            count,
            &mut state.words,
            &mut state.long_names,
        ),
        PartSort::NamedPart => build_part(&mut state.words, &mut state.numbers, &mut state.parts),
        PartSort::Clause => build_clause(rule, token.place, &mut state.numbers, &mut state.clauses),
        PartSort::ExceptionClause => build_exception_clause(
            rule,
            token.place,
            &mut state.numbers,
            &mut state.clauses,
        ),
        PartSort::Binding => build_binding(
            rule,
            count,
            &mut state.words,
            &mut state.numbers,
            &mut state.bindings,
        ),
    }
}

// The parts of definitions.
#[tactic(auto, unfolding(crate::specs::Reduced::reduced_definition))]
fn reduce_definition(
    sort: DefinitionSort,
    rule: Rule,
    count: usize,
    state: &mut Building,
) -> Result<(), AllocError>
    ensures { OnOk result (reduced_definition sort rule count state.old ≡ Some state.new) }
{
    match sort {
        DefinitionSort::Constructor => build_constructor(
            rule,
            &mut state.words,
            &mut state.numbers,
            &mut state.constructors,
        ),
        DefinitionSort::Field => build_field(
            rule,
            &mut state.words,
            &mut state.numbers,
            &mut state.fields,
        ),
        DefinitionSort::Head => build_head(count, &mut state.words, &mut state.heads),
        DefinitionSort::Variant => build_variant_type(
            count,
            &mut state.heads,
            &mut state.constructors,
            &mut state.types,
        ),
        DefinitionSort::Record => build_record_type(
            count,
            &mut state.heads,
            &mut state.fields,
            &mut state.types,
        ),
        DefinitionSort::Effect => build_effect(
            rule,
            &mut state.words,
            &mut state.numbers,
            &mut state.effects,
        ),
    }
}

// Items.
#[tactic(auto, unfolding(crate::specs::Reduced::reduced_item))]
fn reduce_item(
    alloc: Global,
    sort: ItemSort,
    rule: Rule,
    token: &TokenView<'_>,
    count: usize,
    state: &mut Building,
) -> Result<(), AllocError>
    ensures { OnOk result (reduced_item sort rule (seen token.now) count state.old ≡ Some state.new) }
{
    match sort {
        ItemSort::Expression => build_expression_item(
            token.place,
            &mut state.numbers,
            &mut state.items,
        ),
        ItemSort::Let => build_let_item(
            rule,
            token.place,
            count,
            &mut state.bindings,
            &mut state.items,
        ),
        ItemSort::Types => build_types_item(token.place, count, &mut state.types, &mut state.items),
        ItemSort::Effects => build_effects_item(
            token.place,
            count,
            &mut state.long_names,
            &mut state.effects,
            &mut state.items,
        ),
        ItemSort::Exception => build_exception_item(
            token.place,
            &mut state.constructors,
            &mut state.items,
        ),
        ItemSort::Open => build_open_item(
            alloc,
            token.place,
            count,
            &mut state.words,
            &mut state.items,
        ),
    }
}

// One reduction, at its token.
#[tactic(auto, unfolding(crate::specs::Reduced::reduced_at))]
fn reduce_at(
    alloc: Global,
    rule: Rule,
    token: &TokenView<'_>,
    count: usize,
    state: &mut Building,
) -> Result<(), AllocError>
    ensures { OnOk result (reduced_at (sort rule) rule (seen token.now) count state.old ≡ Some state.new) }
{
    match sort_of(rule) {
        Sort::Form(sort) => reduce_form(
            alloc,
            sort,
            rule,
            token,
            count,
            &mut state.numbers,
            &mut state.nodes,
        ),
        Sort::Named(sort) => reduce_named(alloc, sort, rule, token, count, state),
        Sort::Compound(sort) => reduce_compound(sort, rule, token, count, state),
        Sort::Handler(sort) => reduce_handler(sort, rule, token, count, state),
        Sort::Part(sort) => reduce_part(alloc, sort, rule, token, count, state),
        Sort::Definition(sort) => reduce_definition(sort, rule, count, state),
        Sort::Item(sort) => reduce_item(alloc, sort, rule, token, count, state),
    }
}

// The token of a number. One that isn't there is refused as memory is.
fn token_at(tokens: &Tokens, number: usize) -> Result<TokenView<'_>, AllocError>
    ensures { IfOk result (λ token. slice_get tokens.now.lexemes number ≡ Some (seen token)) }
{
    if number < tokens.len() {
        Ok(tokens.view(number))
    } else {
        Err(AllocError)
    }
}

/// One reduction of the parse of these tokens.
#[tactic(auto, unfolding(crate::specs::Reduced::reduced))]
pub fn reduce(
    alloc: Global,
    tokens: &Tokens,
    reduction: Reduction,
    building: &mut Building,
) -> Result<(), AllocError>
    ensures { OnOk result (reduced tokens.now.lexemes reduction building.old ≡ Some building.new) }
{
    let token = token_at(tokens, reduction.token)?;
    reduce_at(alloc, reduction.rule, &token, reduction.count, building)
}
