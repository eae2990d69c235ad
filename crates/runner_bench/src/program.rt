//! The image with the loop.

ghost use Rattle.std.specs.Prelude.{◌≡◌, ◌≤◌, IfOk};
ghost use Rattle.rv_model.specs.Run.{Runs};
ghost use Rattle.runner_bench.specs.Program.{bench_lines, bench_code, start_of};

use fx_base::{Refusal, Settings};
use rv_asm::assemble;
use rv_model::{Code, Image, Instr, Items, Line, Op, StartWord};
use std::alloc::{AllocError, Global};

// A line with one instruction: its operation, rd, rs1, rs2, and the immediate.
macro_rules! plain {
    ($op:ident, $rd:expr, $rs1:expr, $rs2:expr, $imm:expr) => {
        Line::Plain(Instr {
            op: Op::$op,
            rd: $rd,
            rs1: $rs1,
            rs2: $rs2,
            imm: $imm,
            aq: false,
            rl: false,
        })
    };
}

/// Word 17 says how often the loop goes round, and word 16 is the loop's own. Behind the loop the hart
/// waits while word 18 is 1; then the run exits with status 0.
const LINES: [Line; 18] = [
    plain!(Ld, 5, 0, 0, 136),
    Line::Label(0),
    plain!(Addi, 6, 6, 0, 1),
    plain!(Add, 7, 7, 6, 0),
    plain!(Xor, 9, 9, 7, 0),
    plain!(Sd, 0, 0, 9, 128),
    plain!(Ld, 11, 0, 0, 128),
    plain!(Srli, 12, 11, 0, 3),
    plain!(Mul, 13, 12, 6, 0),
    Line::Branch {
        op: Op::Bne,
        rs1: 6,
        rs2: 5,
        to: 0,
    },
    plain!(Addi, 10, 0, 0, 144),
    plain!(Addi, 11, 0, 0, 1),
    plain!(Addi, 17, 0, 0, 1),
    plain!(Ecall, 0, 0, 0, 0),
    plain!(Addi, 14, 0, 0, 1),
    plain!(Sd, 0, 0, 14, 8),
    plain!(Addi, 17, 0, 0, 0),
    plain!(Ecall, 0, 0, 0, 0),
];

/// Whether the wait behind the loop has an end.
#[derive(Clone, Copy, PartialEq, Eq, Debug)]
pub enum Gate {
    Shut,
    Open,
}

/// The settings with the least rooms, and with this budget and number of harts.
pub fn settings(budget: u64, domains: u32) -> Settings
    requires budget { (1 ≤ budget) × (budget ≤ 4294967295) }
    requires domains { (1 ≤ domains) × (domains ≤ 8) }
    ensures out { result.out ≡ 1024 }
    ensures budget { result.budget ≡ budget }
    ensures domains { result.domains ≡ domains }
{
    Settings {
        heap: 16_384,
        stack: 256,
        out: 1_024,
        budget,
        domains,
    }
}

fn code(alloc: Global) -> Result<Code, Refusal>
    ensures { IfOk result (λ code. code ≡ bench_code) }
{
    Ok(assemble(alloc, &LINES)?.code)
}

fn gate_word(gate: Gate) -> u64
    ensures { 1 ≤ result }
{
    match gate {
        Gate::Shut => 1,
        Gate::Open => 2,
    }
}

fn start(alloc: Global, count: u64, gate: u64) -> Result<Vec<StartWord>, AllocError>
    ensures { IfOk result (λ start. start.items ≡ start_of count gate) }
{
    let words = [
        StartWord {
            at: 17,
            value: count,
        },
        StartWord {
            at: 18,
            value: gate,
        },
    ];
    Ok(Vec::from_array(alloc, words)?)
}

/// The image that goes so many times round the loop. Its instructions keep all that the runner wants,
/// in every order.
pub fn loop_image(
    alloc: Global,
    count: u64,
    gate: Gate,
    settings: Settings,
) -> Result<Image, Refusal>
    requires some { 1 ≤ count }
    requires out { settings.out ≡ 1024 }
    ensures settings { IfOk result (λ image. image.settings ≡ settings) }
    ensures runs { IfOk result Runs }
{
    let code = code(alloc)?;
    let start = start(alloc, count, gate_word(gate))?;
    Ok(Image {
        settings,
        code,
        start: Items::from_vec(start),
        size: 272,
    })
}
