ghost use Rattle.std.specs.Prelude.{◌≡◌, ◌++◌, replicate, IfOk};
ghost use Rattle.rv_asm.specs.Lines.{AreLines};

use super::*;
use crate::samples::{LISTING, WORDS};
use fx_base::{LimitKind, Refusal, Settings};
use rv_model::{Code, Image, Instr, Items, Line, Op, StartWord};
use rv_table::decode;
use std::alloc::{AllocError, Global};
use std::test::Fail;

macro_rules! instr {
    ($op:ident $rd:literal $rs1:literal $rs2:literal $imm:literal) => {
        Instr {
            op: Op::$op,
            rd: $rd,
            rs1: $rs1,
            rs2: $rs2,
            imm: $imm,
            aq: false,
            rl: false,
        }
    };
}

const NOP: Line = Line::Plain(instr!(Addi 0 0 0 0));

const STOP: Line = Line::Plain(instr!(Ecall 0 0 0 0));

macro_rules! branch {
    ($op:ident $rs1:literal $rs2:literal $to:literal) => {
        Line::Branch {
            op: Op::$op,
            rs1: $rs1,
            rs2: $rs2,
            to: $to,
        }
    };
}

fn between(
    alloc: Global,
    before: &[Line],
    count: usize,
    after: &[Line],
) -> Result<Vec<Line>, AllocError>
    ensures { IfOk result (λ lines. lines.items ≡ before.now ++ (replicate count NOP ++ after.now)) }
{
    let nops = vec![in alloc; NOP; count]?;
    let mut lines = Vec::from_slice(alloc, before)?;
    lines.extend_from_slice(nops.as_slice())?;
    lines.extend_from_slice(after)?;
    Ok(lines)
}

fn forward(alloc: Global, count: usize) -> Result<Vec<Line>, AllocError>
    ensures { IfOk result (λ lines. AreLines lines.items) }
{
    between(alloc, &[branch!(Beq 1 2 0)], count, &[Line::Label(0), STOP])
}

fn there_and_back(alloc: Global, count: usize) -> Result<Vec<Line>, AllocError>
    ensures { IfOk result (λ lines. AreLines lines.items) }
{
    between(
        alloc,
        &[Line::Label(0), branch!(Beq 1 2 1)],
        count,
        &[branch!(Bge 3 4 0), Line::Label(1), STOP],
    )
}

fn nothing(alloc: Global, count: usize) -> Result<Vec<Line>, AllocError>
    ensures { IfOk result (λ lines. AreLines lines.items) }
{
    between(alloc, &[], count, &[NOP])
}

fn kinds(alloc: Global, value: u64) -> Result<Vec<Line>, AllocError>
    ensures { IfOk result (λ lines. AreLines lines.items) }
{
    Vec::from_slice(
        alloc,
        &[
            Line::Const { rd: 5, value },
            Line::CodeOf { rd: 6, label: 7 },
            Line::Jump { rd: 1, to: 7 },
            Line::Label(7),
            STOP,
        ],
    )
}

#[test]
fn far_branch(rt: HostRuntime) -> Result<(), Fail> {
    let lines = forward(rt.alloc(), 2000)?;
    let assembled = assemble(rt.alloc(), &lines)?;
    let instrs = assembled.code.instrs();
    assert_eq!(rt; instrs.len(), 2003);
    assert_eq!(rt; instrs.first().copied(), Some(instr!(Bne 0 1 2 8)));
    assert_eq!(rt; instrs.get(1).copied(), Some(instr!(Jal 0 0 0 8004)));
    assert_eq!(rt;
        assembled.places.as_slice().first().copied(),
        Some(LabelPlace { label: 0, pc: 8008 })
    );
    Ok(())
}

// Forward 4,092, 4,096 and 4,104 bytes; backward 4,088, 4,096 and 4,100 bytes.
const EDGES: [(usize, usize, [(usize, Instr); 3], u64); 3] = [
    (
        1021,
        1024,
        [
            (0, instr!(Beq 0 1 2 4092)),
            (1, instr!(Addi 0 0 0 0)),
            (1022, instr!(Bge 0 3 4 -4088)),
        ],
        4092,
    ),
    (
        1022,
        1026,
        [
            (0, instr!(Bne 0 1 2 8)),
            (1, instr!(Jal 0 0 0 4096)),
            (1024, instr!(Bge 0 3 4 -4096)),
        ],
        4100,
    ),
    (
        1023,
        1028,
        [
            (0, instr!(Bne 0 1 2 8)),
            (1025, instr!(Blt 0 3 4 8)),
            (1026, instr!(Jal 0 0 0 -4104)),
        ],
        4108,
    ),
];

#[test]
fn branches_at_the_edge(rt: HostRuntime) -> Result<(), Fail> {
    for (count, size, some, pc) in EDGES.iter() {
        let lines = there_and_back(rt.alloc(), *count)?;
        let assembled = assemble(rt.alloc(), &lines)?;
        let instrs = assembled.code.instrs();
        assert_eq!(rt; instrs.len(), *size);
        for (at, instr) in some.iter() {
            assert_eq!(rt; instrs.get(*at).copied(), Some(*instr));
        }
        assert_eq!(rt;
            assembled.places.as_slice().last().copied(),
            Some(LabelPlace { label: 1, pc: *pc })
        );
    }
    Ok(())
}

#[test]
fn too_many_instructions(rt: HostRuntime) -> Result<(), Fail> {
    let lines = nothing(rt.alloc(), 262_144)?;
    let limit = Refusal::Limit {
        kind: LimitKind::Code,
        found: 262_145,
        bound: 262_144,
    };
    assert_eq!(rt; assemble(rt.alloc(), &lines).err(), Some(limit));
    let lines = nothing(rt.alloc(), 262_143)?;
    assert_eq!(rt; assemble(rt.alloc(), &lines)?.code.instrs().len(), 262_144);
    Ok(())
}

// A value, the number of instructions, and the address of the label.
const VALUES: [(u64, usize, i64); 6] = [
    (0, 5, 16),
    (u64::MAX, 5, 16),
    (2048, 6, 20),
    (0xFFFF_FFFF_8000_0000, 6, 20),
    (0x8000_0000, 12, 44),
    (0x0123_4567_89AB_CDEF, 12, 44),
];

#[test]
fn other_lines(rt: HostRuntime) -> Result<(), Fail> {
    for (value, size, label) in VALUES.iter() {
        let lines = kinds(rt.alloc(), *value)?;
        let assembled = assemble(rt.alloc(), &lines)?;
        let instrs = assembled.code.instrs();
        assert_eq!(rt; instrs.len(), *size);
        let last = size.saturating_sub(3);
        let low = Instr {
            imm: *label,
            ..instr!(Addiw 6 6 0 0)
        };
        assert_eq!(rt; instrs.get(last).copied(), Some(low));
        assert_eq!(rt; instrs.get(last + 1).copied(), Some(instr!(Jal 1 0 0 4)));
    }
    Ok(())
}

const LISTED: &[u8] = b"image 1048576 131072 1048576 1073741824 4 200000
00000000 00700513 addi x10, x0, 7
00000004 ff85b283 ld x5, -8(x11)
00000008 00513423 sd x5, 8(x2)
0000000c fe208ee3 beq x1, x2, -4
00000010 00c585b3 add x11, x11, x12
00000014 4012d293 srai x5, x5, 1
00000018 123452b7 lui x5, 74565
0000001c 004000ef jal x1, 4
00000020 0eb6352f amoswap.d.aqrl x10, x11, (x12)
00000024 00000073 ecall
word 7 00000000001000ff
word 11 8000000000000004
";

#[test]
fn listed(rt: HostRuntime) -> Result<(), Fail> {
    let swap = Instr {
        aq: true,
        rl: true,
        ..instr!(AmoswapD 10 12 11 0)
    };
    let code = [
        instr!(Addi 10 0 0 7),
        instr!(Ld 5 11 0 -8),
        instr!(Sd 0 2 5 8),
        instr!(Beq 0 1 2 -4),
        instr!(Add 11 11 12 0),
        instr!(Srai 5 5 0 1),
        instr!(Lui 5 0 0 74565),
        instr!(Jal 1 0 0 4),
        swap,
        instr!(Ecall 0 0 0 0),
    ];
    let image = Image {
        settings: Settings::usual(),
        code: Code::new(Vec::from_slice(rt.alloc(), &code)?),
        start: Items::from_vec(vec![in rt.alloc();
            StartWord {
                at: 7,
                value: 0x1000FF
            },
            StartWord {
                at: 11,
                value: 0x8000_0000_0000_0004
            },
        ]?),
        size: 200_000,
    };
    assert_eq!(rt; listing(rt.alloc(), &image)?.as_slice(), LISTED);
    let short = Image {
        settings: Settings::usual(),
        code: Code::new(Vec::from_slice(
            rt.alloc(),
            &[instr!(Addi 10 0 0 7), instr!(Ecall 0 0 0 0)],
        )?),
        start: Items::from_vec(Vec::new(rt.alloc())),
        size: 200_000,
    };
    let text = listing(rt.alloc(), &short)?;
    assert_eq!(rt;
        text.as_slice(),
        b"image 1048576 131072 1048576 1073741824 4 200000
00000000 00700513 addi x10, x0, 7
00000004 00000073 ecall
"
            .as_slice()
    );
    Ok(())
}

#[test]
fn all_operations(rt: HostRuntime) -> Result<(), Fail> {
    let mut code = Code::empty(rt.alloc());
    for word in WORDS.iter() {
        if let Some(instr) = decode(*word) {
            if code.instrs().len() < 262_144 {
                code.push(instr)?;
            }
        }
    }
    let image = Image {
        settings: Settings::usual(),
        code,
        start: Items::from_vec(Vec::new(rt.alloc())),
        size: 200_000,
    };
    assert_eq!(rt; listing(rt.alloc(), &image)?.as_slice(), LISTING);
    Ok(())
}

#[test]
fn which_are_lines(rt: HostRuntime) -> Result<(), Fail> {
    let alloc = rt.alloc();
    let last = Line::Const { rd: 31, value: 5 };
    let to_second = Line::Branch {
        op: Op::Bne,
        rs1: 1,
        rs2: 2,
        to: 2,
    };
    let good = [Line::Label(2), to_second, Line::Jump { rd: 0, to: 2 }, last];
    assert!(rt; are_lines(alloc, &good)?);
    assert!(rt; are_lines(alloc, &[last])?);
    assert!(rt; !are_lines(alloc, &[to_second, last])?);
    assert!(rt; !are_lines(alloc, &[last, Line::Label(2)])?);
    assert!(rt; !are_lines(alloc, &[Line::Label(2), Line::Label(2), last])?);
    assert!(rt; !are_lines(alloc, &[Line::Const { rd: 32, value: 5 }])?);
    Ok(())
}
