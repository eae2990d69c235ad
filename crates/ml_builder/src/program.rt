//! All reductions of a parse.

ghost use Rattle.std.specs.Prelude.{◌≡◌, Some, IfOk};
ghost use Rattle.ml_builder.specs.Reduced.{program};

use crate::building::Building;
use crate::reduce::reduce;
use crate::reduction::Reduction;
use ml_lexer::Tokens;
use ml_syntax::Prog;
use std::alloc::{AllocError, Global};

/// The program that the reductions of a parse of these tokens build, in their order. Refused for want
/// of memory, and so are reductions that take more than there is or name a token that isn't there.
#[tactic(auto, unfolding(crate::specs::Reduced::built))]
pub fn build(alloc: Global, tokens: &Tokens, reductions: &[Reduction]) -> Result<Prog, AllocError>
    ensures { IfOk result (λ prog. program tokens.now.lexemes reductions.now ≡ Some prog) }
{
    let mut building = Building::new(alloc);
    for reduction in reductions {
        reduce(alloc, tokens, *reduction, &mut building)?;
    }
    Ok(Prog {
        nodes: building.nodes,
        items: building.items,
    })
}
