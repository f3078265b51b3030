// The receiver on worked examples. Every expected answer is worked out from the rules, and none from a run.
use either::Either;
use receiver::{Accepted, Answer, Call, Receiver, play};
use refusal::Refusal;
use standard::Lead;
use std::test::Fail;
use wire::Wire;

// The stages that the examples mix in one list.
type Mixed = Either<Lead, Wire>;

// The markers of the lead at full strength.
const LEAD: [i8; 8] = [-127, -127, 127, -127, 127, 127, -127, 127];

// The same at the least strength that finds them.
const WEAK_LEAD: [i8; 8] = [-64, -64, 64, -64, 64, 64, -64, 64];

// Values of constant strength, with eight others from a place on.
fn noise_around(noise: i8, place: usize, burst: [i8; 8]) -> [i8; 80] {
    let mut values = [noise; 80];
    for (value, heard) in values.iter_mut().skip(place).zip(burst) {
        *value = heard;
    }
    values
}

#[test]
fn memory_fills_up(rt: HostRuntime) {
    let mut memory = [9i8; 4];
    let mut receiver = Receiver::open(&mut memory);
    assert_eq!(rt; receiver.hear(&[1, -127, 127]), Ok(()));
    assert_eq!(rt; receiver.hear(&[5, 6]), Err(Refusal::CapacityExceeded));
    assert_eq!(rt; receiver.hear(&[-128, 6]), Err(Refusal::ValueOutOfRange));
    assert_eq!(rt; receiver.lose(1, 1), Ok(()));
    assert_eq!(rt; receiver.lose(3, 0), Ok(()));
    assert_eq!(rt; receiver.lose(4, 0), Err(Refusal::NoSuchPlace));
    assert_eq!(rt;
        receiver.lose(usize::MAX, usize::MAX),
        Err(Refusal::NoSuchPlace)
    );
    assert_eq!(rt; memory, [1, 0, 127, 9]);
}

#[test]
fn full_memory_and_one_more(rt: HostRuntime) {
    let mut memory = [9i8; 4];
    let mut receiver = Receiver::open(&mut memory);
    assert_eq!(rt; receiver.hear(&[1, 2, 3, 4]), Ok(()));
    assert_eq!(rt; receiver.hear(&[]), Ok(()));
    assert_eq!(rt; receiver.hear(&[5]), Err(Refusal::CapacityExceeded));
}

#[test]
fn memory_longer_than_the_capacity(rt: HostRuntime) {
    let mut memory = [9i8; 32_769];
    let mut receiver = Receiver::open(&mut memory);
    assert_eq!(rt; receiver.hear(&[1i8; 32_768]), Ok(()));
    assert_eq!(rt; receiver.hear(&[1]), Err(Refusal::CapacityExceeded));
}

#[test]
fn a_burst_at_every_offset(rt: HostRuntime) -> Result<(), Fail> {
    for noise in [20, -20] {
        for offset in 0..25 {
            let mut memory = [0i8; 80];
            let mut receiver = Receiver::open(&mut memory);
            receiver.hear(&noise_around(noise, offset, LEAD))?;
            assert_eq!(rt; receiver.find(&Lead, 1), Ok((offset, 1016)));
        }
    }
    Ok(())
}

#[test]
fn the_earlier_of_two_bursts(rt: HostRuntime) -> Result<(), Fail> {
    let mut memory = [0i8; 160];
    let mut receiver = Receiver::open(&mut memory);
    receiver.hear(&noise_around(0, 3, LEAD))?;
    receiver.hear(&noise_around(0, 3, LEAD))?;
    assert_eq!(rt; receiver.find(&Lead, 1), Ok((3, 1016)));
    receiver.lose(3, 1)?;
    assert_eq!(rt; receiver.find(&Lead, 1), Ok((83, 1016)));
    Ok(())
}

#[test]
fn the_least_fit(rt: HostRuntime) -> Result<(), Fail> {
    let mut memory = [0i8; 80];
    let mut receiver = Receiver::open(&mut memory);
    receiver.hear(&noise_around(0, 24, WEAK_LEAD))?;
    assert_eq!(rt; receiver.find(&Lead, 1), Ok((24, 512)));
    receiver.lose(24, 1)?;
    assert_eq!(rt; receiver.find(&Lead, 1), Err(Refusal::PoorFit));
    Ok(())
}

// What an accepted call answers that finds nothing.
const DONE: Answer = Ok(Accepted::Done);

// What a find answers.
fn found(start: usize, fit: i32) -> Answer {
    Ok(Accepted::Found { start, fit })
}

// Calls of all kinds over 64 values, refused ones among them, each with what it has to answer.
#[test]
fn a_history(rt: HostRuntime) -> Result<(), Fail> {
    let lead = Mixed::Left(Lead);
    let wire = Mixed::Right(Wire);
    let weak = noise_around(0, 5, WEAK_LEAD);
    let history = [
        (Call::Begin, DONE),
        (Call::Hear(&[]), DONE),
        (Call::Lose { place: 0, n: 0 }, DONE),
        (Call::Lose { place: 0, n: 1 }, Err(Refusal::NoSuchPlace)),
        (Call::Find { pile: &lead, m: 0 }, Err(Refusal::EmptyText)),
        (
            Call::Find {
                pile: &lead,
                m: 241,
            },
            Err(Refusal::TextTooLong),
        ),
        (
            Call::Find { pile: &lead, m: 1 },
            Err(Refusal::BurstNotHeard),
        ),
        (
            Call::Find { pile: &wire, m: 1 },
            Err(Refusal::BurstNotHeard),
        ),
        (Call::Hear(&LEAD), DONE),
        (Call::Hear(&[1, -128, 2]), Err(Refusal::ValueOutOfRange)),
        (Call::Hear(&[0; 48]), DONE),
        (Call::Find { pile: &lead, m: 1 }, found(0, 1016)),
        (Call::Find { pile: &wire, m: 1 }, Err(Refusal::NoMarker)),
        (Call::Hear(&[0; 9]), Err(Refusal::CapacityExceeded)),
        (Call::Hear(&LEAD), DONE),
        (Call::Find { pile: &lead, m: 1 }, found(0, 1016)),
        (Call::Lose { place: 0, n: 4 }, DONE),
        (Call::Find { pile: &lead, m: 1 }, Err(Refusal::PoorFit)),
        (Call::Lose { place: 60, n: 4 }, DONE),
        (Call::Lose { place: 60, n: 5 }, Err(Refusal::NoSuchPlace)),
        (Call::Lose { place: 64, n: 0 }, DONE),
        (Call::Lose { place: 65, n: 0 }, Err(Refusal::NoSuchPlace)),
        (Call::Begin, DONE),
        (
            Call::Find { pile: &lead, m: 1 },
            Err(Refusal::BurstNotHeard),
        ),
        (Call::Hear(&weak[0..64]), DONE),
        (Call::Find { pile: &lead, m: 1 }, found(5, 512)),
        (Call::Find { pile: &wire, m: 1 }, Err(Refusal::NoMarker)),
        (Call::Lose { place: 5, n: 1 }, DONE),
        (Call::Find { pile: &lead, m: 1 }, Err(Refusal::PoorFit)),
        (Call::Hear(&[0; 9]), Err(Refusal::CapacityExceeded)),
        (Call::Hear(&[1, -128, 2]), Err(Refusal::ValueOutOfRange)),
        (Call::Begin, DONE),
    ];
    let mut memory = [7; 64];
    let mut answers = [DONE; 32];
    play(&mut memory, &history.map(|(call, _)| call), &mut answers)?;
    assert_eq!(rt; answers, history.map(|(_, answer)| answer));
    Ok(())
}
