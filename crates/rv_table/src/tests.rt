use super::*;
use rv_model::{Instr, Op};
use std::test::Fail;

macro_rules! instr {
    ($op:ident $rd:literal $rs1:literal $rs2:literal $imm:literal) => {
        Instr {
            op: Op::$op,
            rd: $rd,
            rs1: $rs1,
            rs2: $rs2,
            imm: $imm,
            aq: false,
            rl: false,
        }
    };
}

const VECTORS: [(Instr, u32, [u8; 4]); 10] = [
    (instr!(Addi 10 0 0 7), 0x00700513, [0x13, 0x05, 0x70, 0x00]),
    (instr!(Ld 5 2 0 8), 0x00813283, [0x83, 0x32, 0x81, 0x00]),
    (instr!(Sd 0 2 5 8), 0x00513423, [0x23, 0x34, 0x51, 0x00]),
    (instr!(Mul 5 6 7 0), 0x027302B3, [0xB3, 0x02, 0x73, 0x02]),
    (instr!(Srai 5 5 0 1), 0x4012D293, [0x93, 0xD2, 0x12, 0x40]),
    (instr!(Addiw 5 5 0 -1), 0xFFF2829B, [0x9B, 0x82, 0xF2, 0xFF]),
    (instr!(Beq 0 1 2 8), 0x00208463, [0x63, 0x84, 0x20, 0x00]),
    (instr!(Jal 0 0 0 -4), 0xFFDFF06F, [0x6F, 0xF0, 0xDF, 0xFF]),
    (
        instr!(Lui 5 0 0 74565),
        0x123452B7,
        [0xB7, 0x52, 0x34, 0x12],
    ),
    (
        instr!(AmoswapD 10 12 11 0),
        0x08B6352F,
        [0x2F, 0x35, 0xB6, 0x08],
    ),
];

#[test]
fn words_both_ways(rt: HostRuntime) -> Result<(), Fail> {
    let swap = VECTORS[9].0;
    let ordered = Instr {
        aq: true,
        rl: true,
        ..swap
    };
    assert_eq!(rt; encode(&ordered), 0x0EB6352F);
    assert_eq!(rt; decode_bytes(&[0x2F, 0x35, 0xB6, 0x0E]), Some(ordered));
    let exchange = Instr {
        op: Op::AmocasD,
        ..swap
    };
    assert_eq!(rt; encode(&exchange), 0x28B6352F);
    assert_eq!(rt; decode_bytes(&[0x2F, 0x35, 0xB6, 0x28]), Some(exchange));
    assert_eq!(rt; decode(0), None);
    for (instr, word, bytes) in VECTORS.iter() {
        assert_eq!(rt; decode(*word), Some(*instr));
        assert_eq!(rt; decode_bytes(bytes), Some(*instr));
    }
    Ok(())
}

#[test]
fn bytes_of_an_instruction(rt: HostRuntime) {
    let (instr, word, bytes) = VECTORS[1];
    assert_eq!(rt; encode(&instr), word);
    assert_eq!(rt; encode_bytes(&instr).as_slice(), bytes.as_slice());
    assert_eq!(rt; find(&ROWS, word), Some(30));
    assert_eq!(rt; find(&[ROWS[1], ROWS[30], ROWS[30]], word), Some(1));
    assert_eq!(rt; find(&ROWS, 0xFFFF_FFFF), None);
}
