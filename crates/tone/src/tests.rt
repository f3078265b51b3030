use super::*;

// 8 * round(2047 * sin(2 * pi * f * k / 8000)) for k below 40 at 400, 600, 800 and 1000 Hz, worked out apart.
const SINES: [[i16; 40]; 4] = [
    [
        0, 5064, 9624, 13248, 15576, 16376, 15576, 13248, 9624, 5064, 0, -5064, -9624, -13248,
        -15576, -16376, -15576, -13248, -9624, -5064, 0, 5064, 9624, 13248, 15576, 16376, 15576,
        13248, 9624, 5064, 0, -5064, -9624, -13248, -15576, -16376, -15576, -13248, -9624, -5064,
    ],
    [
        0, 7432, 13248, 16176, 15576, 11576, 5064, -2560, -9624, -14592, -16376, -14592, -9624,
        -2560, 5064, 11576, 15576, 16176, 13248, 7432, 0, -7432, -13248, -16176, -15576, -11576,
        -5064, 2560, 9624, 14592, 16376, 14592, 9624, 2560, -5064, -11576, -15576, -16176, -13248,
        -7432,
    ],
    [
        0, 9624, 15576, 15576, 9624, 0, -9624, -15576, -15576, -9624, 0, 9624, 15576, 15576, 9624,
        0, -9624, -15576, -15576, -9624, 0, 9624, 15576, 15576, 9624, 0, -9624, -15576, -15576,
        -9624, 0, 9624, 15576, 15576, 9624, 0, -9624, -15576, -15576, -9624,
    ],
    [
        0, 11576, 16376, 11576, 0, -11576, -16376, -11576, 0, 11576, 16376, 11576, 0, -11576,
        -16376, -11576, 0, 11576, 16376, 11576, 0, -11576, -16376, -11576, 0, 11576, 16376, 11576,
        0, -11576, -16376, -11576, 0, 11576, 16376, 11576, 0, -11576, -16376, -11576,
    ],
];

#[test]
fn four_tones(rt: HostRuntime) {
    let mut out = [77; 161];
    assert_eq!(rt; play(&[0, 0, 0, 1, 1, 0, 1, 1], &mut out), Ok(160));
    for (frame, sine) in out.chunks(40).zip(&SINES) {
        assert_eq!(rt; frame, sine.as_slice());
    }
    assert_eq!(rt; out.last().copied(), Some(77), "past the samples");
}

#[test]
fn mutes(rt: HostRuntime) {
    let mut out = [77; 160];
    assert_eq!(rt; play(&[2, 2, 2, 0, 0, 2, 2, 1], &mut out), Ok(160));
    let silence = [0; 40];
    let expected = [silence, SINES[2], SINES[1], SINES[3]];
    for (frame, sine) in out.chunks(40).zip(&expected) {
        assert_eq!(rt; frame, sine.as_slice());
    }
}

#[test]
fn refusals_in_order(rt: HostRuntime) {
    let mut out = [77; 80];
    assert_eq!(rt; play(&[], &mut out), Ok(0));
    assert_eq!(rt; play(&[0], &mut out[0..0]), Err(Refusal::BadElements));
    assert_eq!(rt; play(&[0, 3], &mut out[0..0]), Err(Refusal::BadElements));
    assert_eq!(rt; play(&[0, 1, 255, 1], &mut out), Err(Refusal::BadElements));
    assert_eq!(rt;
        play(&[0, 1], &mut out[0..39]),
        Err(Refusal::MemoryTooShort)
    );
    assert_eq!(rt;
        play(&[0, 1, 2, 2], &mut out[0..79]),
        Err(Refusal::MemoryTooShort)
    );
    for sample in out {
        assert_eq!(rt; sample, 77, "a refusal wrote");
    }
}
