use super::*;

// A file of the samples 0, 1 and -2, written apart from this code.
const FILE: &[u8; 50] =
    b"RIFF\x2a\0\0\0WAVEfmt \x10\0\0\0\x01\0\x01\0\x40\x1f\0\0\x80\x3e\0\0\x02\0\x10\0data\x06\0\0\0\0\0\x01\0\xfe\xff";

#[test]
fn small_file(rt: HostRuntime) {
    let mut out = [0xAA; 51];
    assert_eq!(rt; write_wave(&[0, 1, -2], &mut out), Ok(50));
    assert_eq!(rt; out.split_at(50).0, FILE.as_slice());
    assert_eq!(rt; out.last().copied(), Some(0xAA), "past the file");
}

#[test]
fn memory_too_short(rt: HostRuntime) {
    let mut out = [0xAA; 50];
    assert_eq!(rt;
        write_wave(&[], &mut out[0..43]),
        Err(Refusal::MemoryTooShort)
    );
    assert_eq!(rt;
        write_wave(&[0, 1, -2], &mut out[0..49]),
        Err(Refusal::MemoryTooShort)
    );
    assert_eq!(rt; out.contains(&0), false, "a refusal wrote");
}
