//! From tokens to a program.

ghost use Rattle.std.specs.Prelude.{◌≡◌, ◌≤◌, IfOk, IfErr};
ghost use Rattle.ml_syntax.specs.Depth.{depth as depth_of};
ghost use Rattle.ml_parser.specs.Parsed.{IsTooDeep, Parsed, Refused};

use crate::reading::read;
use fx_base::{LimitKind, Refusal};
use ml_builder::build;
use ml_lexer::Tokens;
use ml_syntax::{Prog, depth};
use std::alloc::Global;

// The greatest depth that a program may have.
const DEEPEST: u64 = 400;

// The same program, unless it is too deep.
fn limited(prog: Prog) -> Result<Prog, Refusal>
    ensures same { IfOk result (λ same. same ≡ prog) }
    ensures depth { IfOk result (λ same. depth_of same.nodes ≤ 400) }
    ensures refused { IfErr result (IsTooDeep prog) }
{
    let found = depth(&prog);
    if found > DEEPEST {
        return Err(Refusal::Limit {
            kind: LimitKind::Depth,
            found,
            bound: DEEPEST,
        });
    }
    Ok(prog)
}

/// The program that the tokens are.
///
/// `Syntax` has the place of the first token with which no program can go on, or that of the end of
/// the text. `Limit` comes where the program has a depth above 400, which is found. Nothing else is
/// refused but want of memory.
pub fn parse(alloc: Global, tokens: &Tokens) -> Result<Prog, Refusal>
    ensures ok { IfOk result (Parsed tokens.now) }
    ensures depth { IfOk result (λ prog. depth_of prog.nodes ≤ 400) }
    ensures refused { IfErr result (Refused tokens.now) }
{
    match read(alloc, tokens)? {
        Ok(reductions) => limited(build(alloc, tokens, reductions.as_slice())?),
        Err(place) => Err(Refusal::Syntax(place)),
    }
}
