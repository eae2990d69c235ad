//! Items.

ghost use Rattle.std.specs.Prelude.{◌≡◌, Some, OnOk};
ghost use Rattle.ml_builder.specs.Items.{made_effects_item, made_exception_item, made_expression_item, made_let_item, made_open_item, made_types_item};

use crate::names::take_long_name;
use crate::reduction::Rule;
use crate::stack::Stack;
use fx_base::Place;
use ml_syntax::{
    Binding, ConstructorDefinition, EffectDefinition, Item, LongName, Name, Sequence,
    TypeDefinition,
};
use std::alloc::{AllocError, Global};

/// An expression.
#[tactic(auto, unfolding(crate::specs::Items::made_expression_item))]
pub fn build_expression_item(
    place: Place,
    numbers: &mut Stack<u32>,
    items: &mut Sequence<Item>,
) -> Result<(), AllocError>
    ensures { OnOk result (made_expression_item place numbers.old items.old ≡ Some (numbers.new, items.new)) }
{
    let expression = numbers.pop()?;
    items.push(Item::Expression { place, expression })
}

/// A `let`.
#[tactic(auto, unfolding(crate::specs::Items::made_let_item))]
pub fn build_let_item(
    rule: Rule,
    place: Place,
    count: usize,
    bindings: &mut Stack<Binding>,
    items: &mut Sequence<Item>,
) -> Result<(), AllocError>
    ensures { OnOk result (made_let_item rule place count bindings.old items.old ≡ Some (bindings.new, items.new)) }
{
    match rule {
        Rule::LetItem => {
            let bindings = bindings.take(count)?;
            items.push(Item::Let {
                place,
                is_recursive: false,
                bindings,
            })
        }
        Rule::LetRecursiveItem => {
            let bindings = bindings.take(count)?;
            items.push(Item::Let {
                place,
                is_recursive: true,
                bindings,
            })
        }
        _ => Err(AllocError),
    }
}

/// Type definitions.
#[tactic(auto, unfolding(crate::specs::Items::made_types_item))]
pub fn build_types_item(
    place: Place,
    count: usize,
    types: &mut Stack<TypeDefinition>,
    items: &mut Sequence<Item>,
) -> Result<(), AllocError>
    ensures { OnOk result (made_types_item place count types.old items.old ≡ Some (types.new, items.new)) }
{
    let definitions = types.take(count)?;
    items.push(Item::Types { place, definitions })
}

/// Effects.
#[tactic(auto, unfolding(crate::specs::Items::made_effects_item))]
pub fn build_effects_item(
    place: Place,
    count: usize,
    long_names: &mut Stack<LongName>,
    effects: &mut Stack<EffectDefinition>,
    items: &mut Sequence<Item>,
) -> Result<(), AllocError>
    ensures { OnOk result (made_effects_item place count long_names.old effects.old items.old ≡ Some (long_names.new, effects.new, items.new)) }
{
    let definitions = effects.take(count)?;
    let extended = long_names.pop()?;
    items.push(Item::Effects {
        place,
        extended,
        definitions,
    })
}

/// An exception.
#[tactic(auto, unfolding(crate::specs::Items::made_exception_item))]
pub fn build_exception_item(
    place: Place,
    constructors: &mut Stack<ConstructorDefinition>,
    items: &mut Sequence<Item>,
) -> Result<(), AllocError>
    ensures { OnOk result (made_exception_item place constructors.old items.old ≡ Some (constructors.new, items.new)) }
{
    let definition = constructors.pop()?;
    items.push(Item::Exception { place, definition })
}

/// An `open`.
#[tactic(auto, unfolding(crate::specs::Items::made_open_item))]
pub fn build_open_item(
    alloc: Global,
    place: Place,
    count: usize,
    words: &mut Stack<Name>,
    items: &mut Sequence<Item>,
) -> Result<(), AllocError>
    ensures { OnOk result (made_open_item place count words.old items.old ≡ Some (words.new, items.new)) }
{
    let path = take_long_name(alloc, count, words)?;
    items.push(Item::Open { place, path })
}
