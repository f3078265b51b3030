// A line at the edges of its rules.
use crate::{Call, Line, Played, State, Wanted};

// Milliseconds, whether text waits, then what is wanted and the state after it.
const TICKS: [(u32, bool, Option<Wanted>, State); 12] = [
    (5000, false, None, State::New),
    (
        5000,
        true,
        Some(Wanted::EnquiryBurst),
        State::Asking {
            attempt: 1,
            milliseconds: 0,
        },
    ),
    (
        0,
        true,
        None,
        State::Asking {
            attempt: 1,
            milliseconds: 0,
        },
    ),
    (
        1319,
        true,
        None,
        State::Asking {
            attempt: 1,
            milliseconds: 1319,
        },
    ),
    (
        0,
        false,
        None,
        State::Asking {
            attempt: 1,
            milliseconds: 1319,
        },
    ),
    (
        1,
        true,
        Some(Wanted::EnquiryBurst),
        State::Asking {
            attempt: 2,
            milliseconds: 0,
        },
    ),
    (
        700,
        false,
        None,
        State::Asking {
            attempt: 2,
            milliseconds: 700,
        },
    ),
    (
        4294967295,
        false,
        Some(Wanted::EnquiryBurst),
        State::Asking {
            attempt: 3,
            milliseconds: 0,
        },
    ),
    (
        1319,
        true,
        None,
        State::Asking {
            attempt: 3,
            milliseconds: 1319,
        },
    ),
    (1320, true, None, State::Clear),
    (4294967295, true, None, State::Clear),
    (0, true, None, State::Clear),
];

#[test]
fn ticks(rt: HostRuntime) {
    let mut line = Line::open();
    for (milliseconds, waiting, wanted, state) in TICKS {
        assert_eq!(rt; line.tick(milliseconds, waiting), wanted);
        assert_eq!(rt; line.state(), state);
    }
}

#[test]
fn plays(rt: HostRuntime) {
    let calls = [
        Call::Tick {
            milliseconds: 10,
            waiting: true,
        },
        Call::Tick {
            milliseconds: 1320,
            waiting: true,
        },
        Call::Hear {
            burst: b"hello",
            waiting: true,
        },
        Call::Hear {
            burst: b"again",
            waiting: true,
        },
        Call::Hear {
            burst: b"\x05",
            waiting: false,
        },
        Call::Tick {
            milliseconds: 9999,
            waiting: true,
        },
    ];
    let expected = Played {
        state: State::Known,
        tries: 2,
        idles: 1,
        texts: 1,
    };
    assert_eq!(rt; Played::of(&calls), expected);
}
