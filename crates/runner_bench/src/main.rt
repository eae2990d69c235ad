//! A long loop for the serial runner: how fast it is.
//!
//! Its first argument says how often the loop goes round; each time is eight instructions. It prints the
//! end of the run, the instructions that the hart has retired, and what the loop has made; with the second
//! argument `listing` the image's listing, and runs nothing.
//!
//! Promised: the image keeps the machine's promise in every order of its harts' instructions.
//!
//! Stands on: `fx_base`, `rv_model`, `rv_asm`, `serial_runner`, and `anyhow` of the kit.
#![tactic(auto)]

ghost use Rattle.std.specs.Prelude.{◌≤◌, IfOk};

mod program;
#[cfg(test)]
mod tests;

use crate::program::{Gate, loop_image, settings};
use anyhow::Context;
use fx_base::Turns;
use rv_asm::listing;
use rv_model::Image;
use serial_runner::run_serial;
use std::env;
use std::io::Write;

/// The instructions that a hart may carry out.
const BUDGET: u64 = 4_294_967_295;

// How often the loop goes round.
fn count_from(word: Option<String>) -> anyhow::Result<u64>
    ensures { IfOk result (λ count. 1 ≤ count) }
{
    let count: u64 = word.context("no count")?.parse().context("the count")?;
    Ok(count.max(1))
}

fn print_run(rt: &HostRuntime, image: &Image) -> anyhow::Result<()> {
    let report = run_serial(rt.alloc(), image, Turns::usual())?;
    println!(rt; "end {:?}", report.end)?;
    for hart in report.harts.as_slice() {
        println!(rt; "retired {}", hart.retired)?;
        println!(rt; "x9 {}", hart.register(9))?;
        println!(rt; "x13 {}", hart.register(13))?;
    }
    Ok(())
}

fn main(rt: HostRuntime) -> anyhow::Result<()> {
    let count = count_from(env::args(&rt)?.nth(1))?;
    let image = loop_image(rt.alloc(), count, Gate::Open, settings(BUDGET, 1))?;
    match env::args(&rt)?.nth(2).as_deref() {
        Some("listing") => rt.stdout().write_all(&listing(rt.alloc(), &image)?)?,
        _ => print_run(&rt, &image)?,
    }
    Ok(())
}
