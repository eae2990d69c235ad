use super::*;
use fx_base::Settings;
use std::test::Fail;

const ADDI: Instr = Instr {
    op: Op::Addi,
    rd: 10,
    rs1: 0,
    rs2: 0,
    imm: -7,
    aq: false,
    rl: false,
};

#[test]
fn code_grows(rt: HostRuntime) -> Result<(), Fail> {
    let mut code = Code::empty(rt.alloc());
    code.push(ADDI)?;
    code.push(Instr {
        op: Op::AmocasD,
        rd: 1,
        rs1: 2,
        rs2: 31,
        imm: 0,
        aq: true,
        rl: true,
    })?;
    assert_eq!(rt; code.instrs().len(), 2);
    assert_eq!(rt; code.instrs()[1].rs2, 31);
    let again = Code::new(code.into_instrs());
    assert_eq!(rt; again.instrs().len(), 2);
    assert_eq!(rt; again.instrs()[0], ADDI);
    Ok(())
}

#[test]
fn items_of_a_vector(rt: HostRuntime) -> Result<(), Fail> {
    let items = Items::from_vec(vec![in rt.alloc(); 3u64, 4]?);
    assert_eq!(rt; items.as_slice(), [3, 4].as_slice());
    assert_eq!(rt; items.into_vec().as_slice(), [3, 4].as_slice());
    Ok(())
}

#[test]
fn hart_at_the_start(rt: HostRuntime) {
    let mut hart = Hart::first(5);
    assert_eq!(rt; hart.register(10), 5);
    assert_eq!(rt; hart.register(11), 0);
    assert_eq!(rt; hart.pc, 0);
    assert_eq!(rt; hart.retired, 0);
    hart.set_register(0, 7);
    hart.set_register(11, 8);
    assert_eq!(rt; hart.register(0), 0);
    assert_eq!(rt; hart.register(11), 8);
}

#[test]
fn image_at_the_start(rt: HostRuntime) -> Result<(), Fail> {
    let start = vec![in rt.alloc();
        StartWord { at: 2, value: 7 },
        StartWord { at: 5, value: 9 },
    ]?;
    let image = Image {
        settings: Settings::usual(),
        code: Code::empty(rt.alloc()),
        start: Items::from_vec(start),
        size: 8,
    };
    let words = image.first_words(rt.alloc())?;
    assert_eq!(rt; words.as_slice(), [0, 0, 7, 0, 0, 9, 0, 0].as_slice());
    let harts = image.first_harts(rt.alloc())?;
    assert_eq!(rt; harts.len(), 4);
    assert_eq!(rt; harts[3].register(10), 3);
    Ok(())
}
