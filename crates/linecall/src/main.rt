// Runs two lines through a call each: one whose far end answers, and one that stays silent for long.
// Prints what happened, the items of each burst, what was wanted, how each due was settled, and the state.
#![tactic(auto)]

ghost use Rattle.std.specs.Prelude.{◌≡◌, if◌then◌else◌, Some, None, codes};
ghost use Rattle.character.specs.Reader.{holds_enquiry};
ghost use Rattle.negotiation.specs.declared.State.TheVariants.{Known as KnownLine};
ghost use Rattle.negotiation.specs.Transitions.{calls_for_one, is_known, settled};

use character::{Characters, Item};
use negotiation::{Acknowledgement, Line, State, Wanted};
use std::{fmt, io};

// A value in the words that are printed of it.
#[derive(Drop)]
struct Words<T>(T);

impl fmt::Display for Words<State> {
    fn fmt<W: fmt::Write>(&self, f: &mut fmt::Formatter<W>) -> fmt::Result {
        match self.0 {
            State::New => write!(f, "the line is new"),
            State::Asking {
                attempt,
                milliseconds,
            } => write!(f, "asking, try {attempt}, at {milliseconds} ms"),
            State::Known => write!(f, "the line is known"),
            State::Clear => write!(f, "the line is clear"),
        }
    }
}

impl fmt::Display for Words<Item> {
    fn fmt<W: fmt::Write>(&self, f: &mut fmt::Formatter<W>) -> fmt::Result {
        match self.0 {
            Item::Enquiry => write!(f, "an enquiry"),
            Item::Idle => write!(f, "an idle"),
            Item::Character(c) => write!(f, "the character {c}"),
            Item::Broken(octet) => write!(f, "the broken octet {octet:02X}"),
        }
    }
}

impl fmt::Display for Words<Option<Wanted>> {
    fn fmt<W: fmt::Write>(&self, f: &mut fmt::Formatter<W>) -> fmt::Result {
        match self.0 {
            Some(Wanted::EnquiryBurst) => write!(f, "an enquiry burst"),
            None => write!(f, "nothing"),
        }
    }
}

impl fmt::Display for Words<Option<Acknowledgement>> {
    fn fmt<W: fmt::Write>(&self, f: &mut fmt::Formatter<W>) -> fmt::Result {
        match self.0 {
            Some(Acknowledgement::Idle) => write!(f, "by an idle"),
            Some(Acknowledgement::Text) => write!(f, "by the text"),
            None => write!(f, "no need"),
        }
    }
}

fn waits(waiting: bool) -> &'static str
    ensures { result.now ≡ (if waiting then codes "text waits" else codes "no text waits") }
{
    if waiting {
        "text waits"
    } else {
        "no text waits"
    }
}

// What is sent for a burst that was heard: each due is settled before anything else can fail.
fn acknowledge(line: &mut Line, burst: &[u8], waiting: bool) -> Option<Acknowledgement>
    ensures after { line.new.state ≡ KnownLine }
    ensures value { result ≡ (if calls_for_one (holds_enquiry burst.now) (is_known line.old.state) then Some (settled waiting) else None) }
{
    line.hear(burst).map(|due| due.settle(waiting))
}

// A line, and the runtime that prints what happens on it.
#[derive(Drop)]
struct Run<'a> {
    rt: &'a HostRuntime,
    line: Line,
}

impl<'a> Run<'a> {
    fn open(rt: &'a HostRuntime) -> Self {
        Run {
            rt,
            line: Line::open(),
        }
    }

    fn show_state(&self) -> io::Result<()> {
        println!(self.rt; "  {}", Words(self.line.state()))
    }

    // Some milliseconds pass.
    fn tick(&mut self, milliseconds: u32, waiting: bool) -> io::Result<()> {
        let wanted = self.line.tick(milliseconds, waiting);
        println!(self.rt; "{milliseconds} ms passed, {}", waits(waiting))?;
        println!(self.rt; "  wanted: {}", Words(wanted))?;
        self.show_state()
    }

    // A burst is heard.
    fn hear(&mut self, burst: &[u8], waiting: bool) -> io::Result<()> {
        let sent = acknowledge(&mut self.line, burst, waiting);
        println!(self.rt; "a burst heard, {}", waits(waiting))?;
        for placed in Characters::new(burst) {
            println!(self.rt; "  at {}: {}", placed.place, Words(placed.item))?;
        }
        println!(self.rt; "  acknowledged: {}", Words(sent))?;
        self.show_state()
    }
}

// The far end answers the second try.
fn answered(rt: &HostRuntime) -> io::Result<()> {
    println!(rt; "the far end answers")?;
    let mut run = Run::open(rt);
    run.show_state()?;
    run.tick(40, false)?;
    run.tick(40, true)?;
    run.tick(1319, true)?;
    run.tick(1, true)?;
    run.hear(b"\x16", true)?;
    run.hear(b"caf\xC3\xA9\xE2\x82", true)?;
    run.hear(b"\x05\x16", false)?;
    run.tick(60000, true)
}

// The far end is silent through all three tries, and is heard later.
fn silent(rt: &HostRuntime) -> io::Result<()> {
    println!(rt; "the far end is silent")?;
    let mut run = Run::open(rt);
    run.tick(2000, true)?;
    run.tick(1320, true)?;
    run.tick(4294967295, false)?;
    run.tick(700, false)?;
    run.tick(700, true)?;
    run.tick(5000, true)?;
    run.hear(b"GA", false)
}

fn main(rt: HostRuntime) -> io::Result<()> {
    answered(&rt)?;
    silent(&rt)
}
