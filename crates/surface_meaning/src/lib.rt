//! What the text of a program means in Core: which names are visible where, and what each form stands for.
//!
//! The definitions stand in `specs/`. `core_of` in `CoreOf` is the whole: from the prelude, a program and the text of its
//! file to its Core, or to the place of the first breach of the rules on names. `Scope`, `BuiltinNames` and `Visible` say
//! what names stand for; `Meanings` says how a node means something by what its parts mean; `Types`, `Patterns`,
//! `Functions`, `Matches`, `Handlers`, `Applications` and `Expressions` say what each form stands for, `Breaches` where the
//! rules are broken, `Declarations` and `Items` what items do.
//!
//! Promised: a program has no Core exactly where there is a breach, and is refused at the first one in text order; the tables
//! of its Core begin with the built-in rows, its items with the prelude's; different nodes have no number of a name in common
//! ([`core_laws`]).
//!
//! Stands on: `fx_base`, `ml_lexer`, `ml_syntax`, `effect_meaning`.
#![tactic(auto)]

ghost use Rattle.std.specs.Prelude.{◌≡◌};
ghost use Rattle.surface_meaning.specs.CoreOf.{is_earlier};
ghost use Rattle.surface_meaning.specs.Laws.{BeginsWithBuiltins, BeginsWithPrelude, CoreWithoutBreach, FirstBreach, NumbersDiffer};

use fx_base::Place;

/// Whether a place stands before another one in the text.
pub fn is_earlier(first: Place, second: Place) -> bool
    ensures { result ≡ is_earlier first second }
{
    first.line < second.line || first.line == second.line && first.column < second.column
}

/// The laws of what programs mean, over every program behind every prelude.
pub fn core_laws()
    ensures without_breach { CoreWithoutBreach }
    ensures first_breach { FirstBreach }
    ensures builtins { BeginsWithBuiltins }
    ensures prelude { BeginsWithPrelude }
    ensures numbers { NumbersDiffer }
{}
