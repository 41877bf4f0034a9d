use std::io;

// Five bytes, three at a time: the second call fills the buffer in part, the third not at all.
#[test]
fn reads_until_full_or_ended(rt: HostRuntime) -> io::Result<()> {
    let mut input: &[u8] = b"abcde";
    let mut held = [0u8; 3];
    let first = crate::read_full(&mut input, &mut held)?;
    assert!(rt; first == 3, "the first call fills the buffer");
    let second = crate::read_full(&mut input, &mut held)?;
    assert!(rt; second == 2, "the second call reads what is left");
    assert!(rt; held[0] == b'd', "the bytes stand at the front");
    assert!(rt; held[1] == b'e', "in their order");
    let third = crate::read_full(&mut input, &mut held)?;
    assert!(rt; third == 0, "nothing is left");
    Ok(())
}
