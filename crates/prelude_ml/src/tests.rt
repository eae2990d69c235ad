//! Tests with the texts that are to come out.

use crate::{make_program, prelude};
use std::test::Fail;

#[test]
fn makes_programs(rt: HostRuntime) -> Result<(), Fail> {
    let one = "let f0 x = x\nlet f1 x = (2 * f0 x + 1) mod 1000000\nlet () = print_int (f1 1)\n";
    let made = make_program(rt.alloc(), 1)?;
    assert_eq!(rt; made.as_slice(), one.as_bytes());
    let made = make_program(rt.alloc(), 500)?;
    let end = b"let f500 x = (2 * f499 x + 500) mod 1000000\nlet () = print_int (f500 1)\n";
    assert!(rt; made.as_slice().ends_with(end));
    assert_eq!(rt; made.iter().filter(|byte| **byte == b'\n').count(), 502);
    Ok(())
}

#[test]
fn has_a_prelude(rt: HostRuntime) -> Result<(), Fail> {
    let text = prelude();
    assert!(rt;
        text.starts_with("let rec list_length_from n l = match l with [] -> n | _ :: r -> ")
    );
    assert!(rt; text.ends_with("fiberq_steal_from (Fiberq.self ()) (Fiberq.slots ())\n"));
    assert_eq!(rt;
        text.as_bytes()
            .iter()
            .filter(|byte| **byte == b'\n')
            .count(),
        24
    );
    Ok(())
}
