// Shows what a text becomes on its way out: reads its octets from standard input, and prints each layer or hands on
// the burst as values or as sound.
#![tactic(auto)]

mod outgoing;
mod report;

use anyhow::anyhow;
use code::LONGEST_TEXT;
use outgoing::{Failure, Outgoing};
use report::Report;
use std::alloc::Global;
use std::env;
use std::io::{Read, Write};
use std::str::FromStr;
use thiserror::Error;

const USAGE: &str = "usage: writeburst [values | sound] < TEXT";

// What is written of a text.
#[derive(Clone, Copy, PartialEq, Eq, Debug)]
enum Output {
    Report,
    Values,
    Sound,
}

// The arguments are not understood.
#[derive(Debug, Drop, Error)]
#[error("usage")]
struct NotUnderstood;

impl FromStr for Output {
    type Err = NotUnderstood;

    fn from_str(word: &str) -> Result<Output, NotUnderstood> {
        match word {
            "values" => Ok(Output::Values),
            "sound" => Ok(Output::Sound),
            _ => Err(NotUnderstood),
        }
    }
}

// What the first two arguments ask for.
fn asked(first: Option<String>, second: Option<String>) -> Result<Output, NotUnderstood> {
    match (first, second) {
        (None, _) => Ok(Output::Report),
        (Some(word), None) => word.parse(),
        (Some(_), Some(_)) => Err(NotUnderstood),
    }
}

// A text as it is asked for, before any of it is written.
#[derive(Drop)]
enum Prepared {
    Report(Outgoing),
    File(Vec<u8>),
}

fn prepare(heap: Global, text: Vec<u8>, output: Output) -> Result<Prepared, Failure> {
    let outgoing = Outgoing::of(heap, text)?;
    match output {
        Output::Report => Ok(Prepared::Report(outgoing)),
        Output::Values => Ok(Prepared::File(outgoing.values(heap)?)),
        Output::Sound => Ok(Prepared::File(outgoing.sound(heap)?)),
    }
}

fn main(rt: HostRuntime) -> anyhow::Result<()> {
    let mut arguments = env::args(&rt)?.skip(1);
    let output = match asked(arguments.next(), arguments.next()) {
        Ok(output) => output,
        Err(misuse) => {
            println!(rt; "{USAGE}")?;
            return Err(misuse.into());
        }
    };
    let mut text = Vec::new(rt.alloc());
    // One octet more than a text has is enough to refuse it. No `From` leads from a usize to a u64.
    rt.stdin()
        .take(LONGEST_TEXT as u64 + 1)
        .read_to_end(&mut text)?;
    match prepare(rt.alloc(), text, output) {
        Ok(Prepared::Report(outgoing)) => print!(rt; "{}", Report(&outgoing))?,
        Ok(Prepared::File(octets)) => rt.stdout().write_all(&octets)?,
        Err(failure) => {
            println!(rt; "{failure}")?;
            return Err(anyhow!("refused"));
        }
    }
    Ok(())
}

#[cfg(test)]
mod tests;
