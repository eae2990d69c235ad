//! Names and long names.

ghost use Rattle.std.specs.Prelude.{◌≡◌, ◌-◌, ◌∷◌, map, take, Some, IfOk, OnOk};
ghost use Rattle.ml_lexer.specs.Seen.{seen};
ghost use Rattle.ml_builder.specs.Names.{made_long_name, made_word, place_before, pushed_long_name};

use crate::stack::Stack;
use fx_base::Place;
use ml_lexer::TokenView;
use ml_syntax::{LongName, Name, Sequence, Text};
use std::alloc::{AllocError, Global};

// The place of the first of some names and one more.
fn place_before(path: &[Name], last: &Name) -> Place
    ensures { result ≡ place_before path.now last.now }
{
    match path {
        [] => last.place,
        [first, ..] => first.place,
    }
}

// The texts of names.
fn texts_of(alloc: Global, names: &[Name]) -> Result<Sequence<Text>, AllocError>
    ensures { IfOk result (λ texts. texts ≡ map (λ n. n.text) names.now) }
{
    let mut texts = Sequence::empty(alloc);
    for name in names {
        texts.push(Text::new(alloc, name.text.as_slice())?)?;
    }
    Ok(texts)
}

/// A long name of so many words, which are taken off.
#[tactic(auto, unfolding(crate::specs::Names::made_long_name))]
pub fn take_long_name(
    alloc: Global,
    count: usize,
    words: &mut Stack<Name>,
) -> Result<LongName, AllocError>
    ensures { IfOk result (λ name. made_long_name count words.old ≡ Some (name, words.new)) }
{
    if count == 0 {
        return Err(AllocError);
    }
    let last = words.pop()?;
    let names = words.take(count - 1)?;
    let place = place_before(names.as_slice(), &last);
    let path = texts_of(alloc, names.as_slice())?;
    Ok(LongName { place, path, last })
}

/// One more long name, of so many words.
#[tactic(auto, unfolding(crate::specs::Names::pushed_long_name))]
pub fn build_long_name(
    alloc: Global,
    count: usize,
    words: &mut Stack<Name>,
    long_names: &mut Stack<LongName>,
) -> Result<(), AllocError>
    ensures { OnOk result (pushed_long_name count words.old long_names.old ≡ Some (words.new, long_names.new)) }
{
    let name = take_long_name(alloc, count, words)?;
    long_names.push(name)
}

/// One more word.
#[tactic(auto, unfolding(crate::specs::Names::made_word))]
pub fn build_word(
    alloc: Global,
    token: &TokenView<'_>,
    words: &mut Stack<Name>,
) -> Result<(), AllocError>
    ensures { OnOk result (words.new ≡ made_word (seen token.now) words.old) }
{
    let text = Text::new(alloc, token.text)?;
    words.push(Name {
        place: token.place,
        text,
    })
}
