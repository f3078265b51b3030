use crate::turned::Turned;
use either::Either;
use pile::Pile;
use refusal::Refusal;
use stage::{Content, MarkedStage, Marker, Stage};
use std::process::Abort;
use std::test::Fail;
use transmitter::write;
use wire::Wire;

// The stages of a pile of three, the lowest first: the bits that they put in front are 1, 1 and 0.
const LOW: Turned = Turned { front: true };

const MIDDLE: Turned = Turned { front: true };

const TOP: Turned = Turned { front: false };

// What such a pile has at each place: its top's bit, the middle's inverted once, the lowest's inverted twice, and each
// element inverted three times.
fn worked(place: usize) -> Content {
    match place {
        0 => Content::Fixed(false),
        1 => Content::Fixed(false),
        2 => Content::Fixed(true),
        p => Content::Inverted(p.saturating_sub(3)),
    }
}

// A pile of the three, however it is joined, answers as worked out by hand.
fn agrees<S: MarkedStage>(rt: &impl Abort, pile: &S) {
    for (n, length) in [
        (0, Ok(3)),
        (5, Ok(8)),
        (98, Ok(101)),
        (99, Err(Refusal::CountNotTaken)),
    ] {
        assert_eq!(rt; pile.length(n), length);
    }
    for place in 0..8 {
        assert_eq!(rt; pile.content(5, place), Ok(worked(place)));
    }
    for element in 0..5 {
        assert_eq!(rt; pile.home(5, element), Ok(element + 3));
    }
    assert_eq!(rt; pile.content(5, 8), Err(Refusal::NoSuchPlace));
    assert_eq!(rt; pile.content(99, 200), Err(Refusal::CountNotTaken));
    assert_eq!(rt; pile.home(5, 5), Err(Refusal::NoSuchPlace));
    assert_eq!(rt; pile.home(99, 200), Err(Refusal::CountNotTaken));
}

// Its markers are the top's, then the middle's, then the lowest's.
fn markers_agree<S: MarkedStage>(rt: &impl Abort, pile: &S) {
    assert_eq!(rt; pile.marker_count(5), Ok(3));
    for (index, bit) in [(0, false), (1, false), (2, true)] {
        assert_eq!(rt; pile.marker(5, index), Ok(Marker { place: index, bit }));
    }
    assert_eq!(rt; pile.marker(5, 3), Err(Refusal::NoSuchPlace));
    assert_eq!(rt; pile.marker_count(99), Err(Refusal::CountNotTaken));
    assert_eq!(rt; pile.marker(99, 3), Err(Refusal::CountNotTaken));
}

#[test]
fn pile_of_a_pile_below(rt: HostRuntime) {
    let pile = Pile::new(Pile::new(LOW, MIDDLE), TOP);
    agrees(&rt, &pile);
    markers_agree(&rt, &pile);
}

#[test]
fn pile_of_a_pile_above(rt: HostRuntime) {
    let pile = Pile::new(LOW, Pile::new(MIDDLE, TOP));
    agrees(&rt, &pile);
    markers_agree(&rt, &pile);
}

#[test]
fn wire_takes_up_to_ten_thousand(rt: HostRuntime) {
    for (n, length) in [
        (0, Ok(0)),
        (10_000, Ok(10_000)),
        (10_001, Err(Refusal::CountNotTaken)),
    ] {
        assert_eq!(rt; Wire.length(n), length);
    }
    assert_eq!(rt; Wire.content(10_000, 9_999), Ok(Content::Carried(9_999)));
    assert_eq!(rt; Wire.content(10_000, 10_000), Err(Refusal::NoSuchPlace));
    assert_eq!(rt; Wire.home(0, 0), Err(Refusal::NoSuchPlace));
    assert_eq!(rt; Wire.home(10_001, 0), Err(Refusal::CountNotTaken));
    assert_eq!(rt; Wire.marker_count(10_000), Ok(0));
    assert_eq!(rt; Wire.marker(10_000, 0), Err(Refusal::NoSuchPlace));
}

#[test]
fn one_list_of_two_kinds(rt: HostRuntime) -> Result<(), Fail> {
    let stages: [Either<Wire, Turned>; 2] = [Either::Left(Wire), Either::Right(LOW)];
    let mut total = 0usize;
    for stage in &stages {
        total = total.saturating_add(stage.length(40)?);
    }
    assert_eq!(rt; total, 81);
    Ok(())
}

// The burst of the octet 0x01 through the pile of three: its bits in front, and the 48 coded bits inverted.
const WORKED: &[u8; 51] = b"001000011000010100000001111111111111111111111111111";

#[test]
fn writes_a_burst(rt: HostRuntime) {
    let pile = Pile::new(Pile::new(LOW, MIDDLE), TOP);
    let mut out = [9u8; 60];
    assert_eq!(rt; write(&pile, &[0x01], &mut out), Ok(51));
    for (place, digit) in WORKED.iter().enumerate() {
        assert_eq!(rt; out[place], *digit & 1);
    }
    for octet in &out[51..60] {
        assert_eq!(rt; *octet, 9);
    }
}

// A text of so many zeros that the pile of three does not write, and memory that it leaves.
fn refuses(rt: &impl Abort, octets: usize, out: &mut [u8], refusal: Refusal) -> Result<(), Fail> {
    let zeros = [0u8; 241];
    let Some(text) = zeros.get(0..octets) else {
        return Err(Fail::new("the text is too long for this trial"));
    };
    assert_eq!(rt;
        write(&Pile::new(Pile::new(LOW, MIDDLE), TOP), text, out),
        Err(refusal)
    );
    for octet in out.iter() {
        assert_eq!(rt; *octet, 9);
    }
    Ok(())
}

#[test]
fn refuses_in_order(rt: HostRuntime) -> Result<(), Fail> {
    let mut short = [9u8; 50];
    refuses(&rt, 0, &mut short, Refusal::EmptyText)?;
    refuses(&rt, 241, &mut short, Refusal::TextTooLong)?;
    refuses(&rt, 3, &mut short, Refusal::CountNotTaken)?;
    refuses(&rt, 1, &mut short, Refusal::MemoryTooShort)
}
