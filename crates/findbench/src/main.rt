// Finds a burst among 32,768 values, for the shortest and for the longest text. With an argument, as `time`, it also
// prints how long each search took.
#![tactic(auto)]

use code::{LONGEST_TEXT, coded_count};
use receiver::{GREATEST_CAPACITY, Receiver};
use refusal::Refusal;
use stage::{MarkedStage, Marker, Stage};
use std::io;
use std::rt::Env;
use std::time::Instant;
use usual::usual_pile;

// Puts a burst's markers at full strength in the places where they stand.
fn imprint<M: MarkedStage>(burst: &mut [i8], pile: &M, n: usize) -> Result<(), Refusal> {
    // a stage tells one marker at a time, so there is no list of them to go over
    for index in 0..pile.marker_count(n)? {
        let Marker { place, bit } = pile.marker(n, index)?;
        if let Some(value) = burst.get_mut(place) {
            *value = if bit { 127 } else { -127 };
        }
    }
    Ok(())
}

// What is found where the markers of a burst stand at the last start there is, so that the search tries every one.
fn found_at_the_end<M: MarkedStage>(pile: &M, m: usize) -> Result<(usize, i32), Refusal> {
    let n = coded_count(m)?;
    let start = GREATEST_CAPACITY.saturating_sub(pile.length(n)?);
    let mut values = [0; GREATEST_CAPACITY];
    imprint(&mut values[start..], pile, n)?;
    let mut memory = [0; GREATEST_CAPACITY];
    let mut receiver = Receiver::open(&mut memory);
    receiver.hear(&values)?;
    receiver.find(pile, m)
}

fn main(rt: HostRuntime) -> io::Result<()> {
    // whatever the argument holds, and with no heap: `env::args` fails where any argument is no UTF-8
    let mut word = [0; 16];
    let timed = rt.arg(1, &mut word).is_ok();
    let pile = usual_pile();
    for m in [1, LONGEST_TEXT] {
        let begun = Instant::now(&rt)?;
        match found_at_the_end(&pile, m) {
            Ok((start, fit)) => println!(rt; "{m} octets: start {start}, fit {fit}")?,
            Err(refusal) => println!(rt; "{m} octets: {refusal}")?,
        }
        if timed {
            let took = begun.elapsed(&rt)?.as_millis();
            println!(rt; "{m} octets: {took} ms")?;
        }
    }
    Ok(())
}
