// What a stage is: how elements on their way out are moved, inverted and joined by others.
#![tactic(auto)]

ghost use Rattle.std.specs.Prelude.{◌≡◌, ◌<◌, ℕ, Bool, List, not, nat_le, Ok, OnOk};
ghost use Rattle.refusal.specs.Answer.{refused_when};
ghost use Rattle.refusal.specs.declared.Refusal.TheVariants.{NoSuchPlace, CountNotTaken};
ghost use Rattle.stage.specs.declared.Content.{Content as ContentOf};
ghost use Rattle.stage.specs.Meaning.{Meaning, Homes, meaning_of, length_answer, content_answer, home_answer};
ghost use Rattle.stage.specs.declared.Marker.{Marker as MarkerOf};
ghost use Rattle.stage.specs.Elements.{octet_of, element_of, inverse};
ghost use Rattle.stage.specs.Marked.{Marked, count_answer, marker_answer};

mod one_of_two;

use refusal::Refusal;
use std::ops::Not;

// What stands at an outgoing place.
#[derive(Clone, Copy, PartialEq, Eq, Debug)]
pub enum Content {
    // the incoming element with this index
    Carried(usize),
    // the same, inverted; an inverted mute is a mute
    Inverted(usize),
    // a bit of the stage's own
    Fixed(bool),
    // silence
    Mute,
}

// `!content` inverts all that can stand there.
impl Not for Content {
    type Output = Content;

    ghost not_gives = { λ content r. r ≡ inverse content };

    fn not(self) -> Content {
        match self {
            Content::Carried(i) => Content::Inverted(i),
            Content::Inverted(i) => Content::Carried(i),
            Content::Fixed(bit) => Content::Fixed(!bit),
            Content::Mute => Content::Mute,
        }
    }
}

// An element on its way to the tones: a bit, or silence, each with the octet that stands for it in memory.
#[derive(Clone, Copy, PartialEq, Eq, Debug)]
pub enum Element {
    Zero = 0,
    One = 1,
    Mute = 2,
}

// The element of a bit.
impl From<bool> for Element {
    ghost from_gives = { λ bit r. r ≡ element_of bit };

    fn from(bit: bool) -> Element {
        if bit { Element::One } else { Element::Zero }
    }
}

// The octet of an element.
impl From<Element> for u8 {
    ghost from_gives = { λ element r. r ≡ octet_of element };

    fn from(element: Element) -> u8 {
        element as u8
    }
}

// A stage between the coder and the tones. Its meaning is a fixed rule, and its answers are that meaning.
pub trait Stage {
    // The exchange names these three, and a stage gives each.
    // which counts of incoming elements it takes
    ghost takes: { Self → ℕ → Bool };

    // how many elements leave it for each
    ghost size: { Self → ℕ → ℕ };

    // what stands at each outgoing place
    ghost at: { Self → ℕ → ℕ → ContentOf };

    // the three together: every promise above a stage speaks of its meaning
    ghost meaning: { Self → Meaning };

    // the meaning is the three and nothing else
    ghost whole: { (s : Self) → meaning s ≡ meaning_of (takes s) (size s) (at s) };

    // its homes fit
    ghost homes: { (s : Self) → Homes (meaning s) };

    // How many elements leave when n enter.
    fn length(&self, n: usize) -> Result<usize, Refusal>
        ensures { result ≡ length_answer (meaning self.now) n };

    // What stands at an outgoing place when n elements enter.
    fn content(&self, n: usize, place: usize) -> Result<Content, Refusal>
        ensures { result ≡ content_answer (meaning self.now) n place };

    // The place where an incoming element stands when n enter.
    fn home(&self, n: usize, element: usize) -> Result<usize, Refusal>
        ensures { result ≡ home_answer (meaning self.now) n element };
}

// A fixed bit of a stage's own by which a burst can be found.
#[derive(Clone, Copy, PartialEq, Eq, Debug)]
pub struct Marker {
    pub place: usize,
    pub bit: bool,
}

// A stage that also tells its markers. They stand beside the meaning, which a stage has that tells none.
pub trait MarkedStage: Stage {
    // its markers for each count of incoming elements, in order
    ghost markers: { Self → ℕ → List MarkerOf };

    // How many markers there are when n elements enter. They stand at different places, each of which holds its bit; the
    // exchange asks for that in the promises of both calls.
    fn marker_count(&self, n: usize) -> Result<usize, Refusal>
        ensures count { result ≡ count_answer (Self.Stage.meaning self.now) (markers self.now) n }
        ensures marked { Marked (Self.Stage.meaning self.now) (markers self.now) n };

    // The marker with an index when n elements enter.
    fn marker(&self, n: usize, index: usize) -> Result<Marker, Refusal>
        ensures value { result ≡ marker_answer (Self.Stage.meaning self.now) (markers self.now) n index }
        ensures marked { Marked (Self.Stage.meaning self.now) (markers self.now) n };
}

// Refuses a count of incoming elements above the most that a stage takes.
pub fn check_count(n: usize, most: usize) -> Result<(), Refusal>
    ensures { result ≡ refused_when (not (nat_le n most)) CountNotTaken (Ok tt) }
{
    if n > most {
        return Err(Refusal::CountNotTaken);
    }
    Ok(())
}

// Refuses an index that is not below the count of what it names: places, elements or markers.
pub fn check_index(index: usize, count: usize) -> Result<(), Refusal>
    ensures answer { result ≡ refused_when (nat_le count index) NoSuchPlace (Ok tt) }
    ensures below { OnOk result (index < count) }
{
    if index >= count {
        return Err(Refusal::NoSuchPlace);
    }
    Ok(())
}
