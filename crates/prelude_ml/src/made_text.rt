//! The made program: a chain of functions as long as is asked for.

ghost use Rattle.std.specs.Prelude.{◌≡◌, ◌≤◌, IfOk, IsOkUnless};
ghost use Rattle.std.specs.String.{string_bytes};
ghost use Rattle.prelude_ml.specs.MadeText.{next_line, functions, last_line, made_text};
ghost use Rattle.fx_base.specs.declared.refusal.Refusal.TheVariants.{Memory};

use fx_base::Refusal;
use std::alloc::{AllocError, Global};

fn next_line(alloc: Global, number: u32) -> Result<String, AllocError>
    requires { number ≤ 500 }
    ensures { IfOk result (λ line. string_bytes line ≡ next_line number) }
{
    let next = number + 1;
    format!(in alloc; "let f{next} x = (2 * f{number} x + {next}) mod 1000000\n")
}

fn last_line(alloc: Global, number: u32) -> Result<String, AllocError>
    ensures { IfOk result (λ line. string_bytes line ≡ last_line number) }
{
    format!(in alloc; "let () = print_int (f{number} 1)\n")
}

fn functions(alloc: Global, count: u32) -> Result<String, AllocError>
    requires { count ≤ 500 }
    ensures { IfOk result (λ text. string_bytes text ≡ functions count) }
{
    let mut text = String::from_str(alloc, "let f0 x = x\n")?;
    for number in 0..count {
        text.push_str(next_line(alloc, number)?.as_str())?;
    }
    Ok(text)
}

/// The program of this number, from 1 to 500: that many functions, each of which calls the one
/// before it, and a line that prints what the last one gives for 1.
///
/// # Errors
///
/// [`Refusal::Memory`] alone.
pub fn make_program(alloc: Global, count: u32) -> Result<Vec<u8>, Refusal>
    requires least { 1 ≤ count }
    requires most { count ≤ 500 }
    ensures text { IfOk result (λ program. program.items ≡ made_text count) }
    ensures refused { IsOkUnless result Refusal.Memory }
{
    let mut text = functions(alloc, count)?;
    text.push_str(last_line(alloc, count)?.as_str())?;
    Ok(text.into_bytes())
}
