//! Runs of the loop's image: each end, with turns of one instruction and of many.

use super::*;
use fx_base::Refusal;
use rv_model::{Code, Image, Instr, Items, Op, Report, RunEnd};
use std::alloc::Global;
use std::test::Fail;

// How a run is made, and what it leaves: the end, the instructions that the first and the last hart have
// retired, and word 16.
struct Case {
    count: u64,
    gate: Gate,
    budget: u64,
    domains: u32,
    turns: u32,
    end: &'static str,
    retired: (u64, u64),
    word: u64,
}

const EXITS: Case = Case {
    count: 3,
    gate: Gate::Open,
    budget: 1000,
    domains: 1,
    turns: 1,
    end: "Exited(0)",
    retired: (31, 31),
    word: 4,
};

const WAITS: Case = Case {
    gate: Gate::Shut,
    end: "Deadlock",
    retired: (28, 28),
    ..EXITS
};

const SPENDS: Case = Case {
    budget: 10,
    end: "BudgetSpent { hart: 0, count: 10 }",
    retired: (10, 10),
    word: 1,
    ..EXITS
};

const TWO: Case = Case {
    count: 1,
    domains: 2,
    retired: (15, 14),
    word: 1,
    ..EXITS
};

const CASES: [Case; 12] = [
    EXITS,
    Case {
        turns: 1000,
        ..EXITS
    },
    WAITS,
    Case {
        turns: 1000,
        ..WAITS
    },
    SPENDS,
    Case {
        turns: 1000,
        ..SPENDS
    },
    // The last instruction of the budget sets the end word.
    Case {
        budget: 31,
        ..EXITS
    },
    Case {
        budget: 30,
        end: "BudgetSpent { hart: 0, count: 30 }",
        retired: (30, 30),
        ..EXITS
    },
    TWO,
    Case {
        turns: 1000,
        retired: (15, 0),
        ..TWO
    },
    Case {
        gate: Gate::Shut,
        end: "Deadlock",
        retired: (12, 12),
        ..TWO
    },
    Case {
        budget: 9,
        turns: 4,
        end: "BudgetSpent { hart: 0, count: 9 }",
        retired: (9, 8),
        ..TWO
    },
];

fn run_case(alloc: Global, case: &Case) -> Result<Report, Refusal> {
    let settings = settings(
        case.budget.clamp(1, 4_294_967_295),
        case.domains.clamp(1, 8),
    );
    let turns = Turns {
        count: case.turns.clamp(1, 1_000_000),
    };
    let image = loop_image(alloc, case.count.max(1), case.gate, settings)?;
    run_serial(alloc, &image, turns)
}

#[test]
fn runs_end_as_they_should(rt: HostRuntime) -> Result<(), Fail> {
    for case in CASES.iter() {
        let report = run_case(rt.alloc(), case)?;
        let end = format!(in rt.alloc(); "{:?}", report.end)?;
        assert_eq!(rt; end.as_str(), case.end);
        let first = report.harts.as_slice().first().map(|hart| hart.retired);
        let last = report.harts.as_slice().last().map(|hart| hart.retired);
        assert_eq!(rt; first, Some(case.retired.0));
        assert_eq!(rt; last, Some(case.retired.1));
        assert_eq!(rt; report.words.as_slice().get(16).copied(), Some(case.word));
        assert_eq!(rt; report.printed.as_slice().len(), 0);
    }
    Ok(())
}

// Puts 7 into x5.
const SEVEN: Instr = Instr {
    op: Op::Addi,
    rd: 5,
    rs1: 0,
    rs2: 0,
    imm: 7,
    aq: false,
    rl: false,
};

// Stores x5 into the end word.
const END: Instr = Instr {
    op: Op::Sd,
    rd: 0,
    rs1: 0,
    rs2: 5,
    imm: 8,
    aq: false,
    rl: false,
};

// A run of so many of these instructions, over so many words.
fn run_code(alloc: Global, count: usize, size: u64) -> Result<Report, Refusal> {
    let mut code = Code::empty(alloc);
    if count > 0 {
        code.push(SEVEN)?;
    }
    if count > 1 {
        code.push(END)?;
    }
    let image = Image {
        settings: settings(100, 2),
        code,
        start: Items::from_vec(Vec::new(alloc)),
        size,
    };
    run_serial(alloc, &image, Turns::usual())
}

// No room for the log, no instruction at the start or behind the first, and an end word of 7.
#[test]
fn broken_promises_end_runs(rt: HostRuntime) -> Result<(), Fail> {
    for (count, size, retired) in [(2, 271u64, 0), (0, 272, 0), (1, 272, 1), (2, 272, 2)] {
        let report = run_code(rt.alloc(), count, size)?;
        assert!(rt; matches!(report.end, RunEnd::Broken), "{count} {size}");
        assert_eq!(rt; report.printed.as_slice().len(), 0);
        assert_eq!(rt; report.words.as_slice().len() as u64, size);
        let counts = report.harts.as_slice().first().map(|hart| hart.retired);
        assert_eq!(rt; counts, Some(retired));
    }
    Ok(())
}
