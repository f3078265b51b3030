use super::*;
use std::test::Fail;

#[test]
fn two_frames(rt: HostRuntime) {
    let mut out = [b'?'; 14];
    assert_eq!(rt; write_values(171, &[0, 1, 2, 1], &mut out), Ok(13));
    assert_eq!(rt; out.as_slice(), b"AB\n817F\n007F\n?".as_slice());
}

#[test]
fn refusals_in_order(rt: HostRuntime) -> Result<(), Fail> {
    let long = vec![in rt.alloc(); 0u8; 32_770]?;
    let mut out = [b'?'; 13];
    assert_eq!(rt;
        write_values(0, &[3], &mut out[0..0]),
        Err(Refusal::EmptyText)
    );
    assert_eq!(rt;
        write_values(241, &[3], &mut out[0..0]),
        Err(Refusal::TextTooLong)
    );
    assert_eq!(rt;
        write_values(1, &[0, 0, 3, 0], &mut out[0..0]),
        Err(Refusal::BadElements)
    );
    assert_eq!(rt;
        write_values(1, &[0, 0, 0], &mut out[0..0]),
        Err(Refusal::BadElements)
    );
    assert_eq!(rt;
        write_values(1, &long, &mut out[0..0]),
        Err(Refusal::BadLine)
    );
    assert_eq!(rt;
        write_values(1, &[0, 0, 0, 0], &mut out[0..12]),
        Err(Refusal::MemoryTooShort)
    );
    for octet in out {
        assert_eq!(rt; octet, b'?', "a refusal wrote");
    }
    Ok(())
}
