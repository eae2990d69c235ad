ghost use Rattle.std.specs.Prelude.{◌≡◌};

use super::*;
use rv_model::{Code, Hart, Instr, Op};
use std::test::Fail;

const ADD_TO_WORD: Instr = Instr {
    op: Op::AmoaddD,
    rd: 5,
    rs1: 7,
    rs2: 6,
    imm: 0,
    aq: true,
    rl: true,
};

const CALL: Instr = Instr {
    op: Op::Ecall,
    rd: 0,
    rs1: 0,
    rs2: 0,
    imm: 0,
    aq: false,
    rl: false,
};

// The hart adds 4 to word 1.
fn adding(number: u64) -> Hart
    ensures { result.retired ≡ 0 }
{
    let mut hart = Hart::first(number);
    hart.set_register(6, 4);
    hart.set_register(7, 8);
    hart
}

#[test]
fn two_harts_add_to_one_word(rt: HostRuntime) -> Result<(), Fail> {
    let mut code = Code::empty(rt.alloc());
    code.push(ADD_TO_WORD)?;
    for numbers in [(0, 1), (1, 0)] {
        let mut memory = VecMemory::new(vec![in rt.alloc(); 0; 2]?);
        let mut earlier = adding(numbers.0);
        let mut later = adding(numbers.1);
        assert_eq!(rt; step(&code, &mut earlier, &mut memory), Turn::Went);
        assert_eq!(rt; step(&code, &mut later, &mut memory), Turn::Went);
        assert_eq!(rt; earlier.register(5), 0);
        assert_eq!(rt; later.register(5), 4);
        assert_eq!(rt; memory.words()[1], 8);
        assert_eq!(rt; earlier.retired, 1);
    }
    Ok(())
}

#[test]
fn await_waits_for_a_change(rt: HostRuntime) -> Result<(), Fail> {
    let mut code = Code::empty(rt.alloc());
    code.push(CALL)?;
    let mut memory = VecMemory::new(vec![in rt.alloc(); 0; 2]?);
    let mut hart = Hart::first(0);
    hart.set_register(17, 1);
    hart.set_register(10, 8);
    assert_eq!(rt; step(&code, &mut hart, &mut memory), Turn::Waits);
    assert_eq!(rt; hart.retired, 0);
    let mut changed = VecMemory::new(vec![in rt.alloc(); 3; 2]?);
    assert_eq!(rt; step(&code, &mut hart, &mut changed), Turn::Went);
    assert_eq!(rt; hart.register(10), 3);
    assert_eq!(rt; step(&code, &mut hart, &mut changed), Turn::Fault);
    Ok(())
}

#[test]
fn results_of_operations(rt: HostRuntime) {
    let minus_seven = 0u64.wrapping_sub(7);
    let cases = [
        (Op::Div, minus_seven, 2, 0u64.wrapping_sub(3)),
        (Op::Rem, minus_seven, 2, u64::MAX),
        (Op::Div, 1 << 63, u64::MAX, 1 << 63),
        (Op::Divu, 5, 0, u64::MAX),
        (Op::Remu, 5, 0, 5),
        (Op::Mulh, u64::MAX, u64::MAX, 0),
        (Op::Mulhsu, u64::MAX, u64::MAX, u64::MAX),
        (Op::Mulhu, u64::MAX, u64::MAX, u64::MAX - 1),
        (Op::Sra, minus_seven, 65, 0u64.wrapping_sub(4)),
        (Op::Srl, minus_seven, 63, 1),
        (Op::Sll, 3, 66, 12),
        (Op::Addw, 0x7FFF_FFFF, 1, 0xFFFF_FFFF_8000_0000),
        (Op::Subw, 0, 1, u64::MAX),
        (Op::Slt, u64::MAX, 0, 1),
        (Op::Sltu, u64::MAX, 0, 0),
    ];
    for (op, a, b, result) in cases {
        let gives = effect(op, a, b, 0, 0) == Act::Sets(result);
        assert_eq!(rt; gives, true);
    }
}
