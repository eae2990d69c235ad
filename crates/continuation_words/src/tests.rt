use super::*;
use std::test::Fail;

#[test]
fn writes_its_lines(rt: HostRuntime) -> Result<(), Fail> {
    let written = lines(rt.alloc())?;
    assert_eq!(rt; written.len(), 20);
    Ok(())
}
