// Times the search for the nearest text. With no argument, or with 0, it searches once and prints what it found; with a
// number of rounds it searches so often and prints nanoseconds per bit of the text.
#![tactic(auto)]

mod levels;
#[cfg(test)]
mod trials;

use code::{LONGEST_TEXT, encode};
use levels::{LOST, Levels, full};
use refusal::Refusal;
use std::num::NonZeroU32;
use std::time::Instant;
use std::{array, env};
use trellis::nearest_text;

const CODED_BITS: usize = 32 * LONGEST_TEXT + 16;

const STEPS: usize = 8 * LONGEST_TEXT + 4;

// The octet at i of the text that is searched for.
fn octet(i: usize) -> u8 {
    (i.wrapping_mul(73).wrapping_add(41) % 256) as u8
}

// The level of coded bit i: every fifth is weak, every ninth lost, the others are at full strength.
fn level(bit: bool, i: usize) -> u8 {
    if i % 9 == 0 {
        LOST
    } else if i % 5 == 0 {
        if bit { 200 } else { 54 }
    } else {
        full(bit)
    }
}

// A search: the levels that were heard, the text found in them, and the memory that it works in.
#[derive(Drop)]
struct Search {
    heard: [u8; CODED_BITS],
    text: [u8; LONGEST_TEXT],
    work: [u16; STEPS],
}

impl Search {
    // Fills in the levels at which the text is heard. In place, since the stack is to hold them once.
    fn hear(&mut self) -> Result<(), Refusal> {
        let sent: [u8; LONGEST_TEXT] = array::from_fn(octet);
        let mut bits = [false; CODED_BITS];
        encode(&sent, &mut bits)?;
        for (i, (heard, bit)) in self.heard.iter_mut().zip(bits.iter()).enumerate() {
            *heard = level(*bit, i);
        }
        Ok(())
    }

    // Searches once, and answers the distance.
    fn run(&mut self) -> Result<u32, Refusal> {
        let levels = Levels {
            levels: &self.heard,
        };
        nearest_text(&levels, LONGEST_TEXT, &mut self.text, &mut self.work)
    }

    // Searches again and again, with one level a little changed each time.
    fn repeat(&mut self, rounds: u32) -> Result<(), Refusal> {
        for round in 0..rounds {
            self.heard[round as usize % CODED_BITS] ^= 1;
            self.run()?;
        }
        Ok(())
    }
}

// Searches once and prints the distance and the text found.
fn show(rt: &HostRuntime, search: &mut Search) -> anyhow::Result<()> {
    let distance = search.run()?;
    println!(rt; "distance {distance}")?;
    for octet in search.text {
        print!(rt; "{octet:02X}")?;
    }
    println!(rt)?;
    Ok(())
}

// Searches so often and prints how long a bit of the text takes.
fn time(rt: &HostRuntime, search: &mut Search, rounds: NonZeroU32) -> anyhow::Result<()> {
    let start = Instant::now(rt)?;
    search.repeat(rounds.get())?;
    let nanos = start.elapsed(rt)?.as_nanos();
    let bits = u128::from(rounds.get()) * 8 * LONGEST_TEXT as u128;
    println!(rt; "{} ns per text bit", nanos / bits)?;
    Ok(())
}

fn main(rt: HostRuntime) -> anyhow::Result<()> {
    let rounds = match env::args(&rt)?.nth(1) {
        Some(word) => NonZeroU32::new(word.as_str().parse::<u32>()?),
        None => None,
    };
    let mut search = Search {
        heard: [LOST; CODED_BITS],
        text: [0; LONGEST_TEXT],
        work: [0; STEPS],
    };
    search.hear()?;
    match rounds {
        Some(rounds) => time(&rt, &mut search, rounds),
        None => show(&rt, &mut search),
    }
}
