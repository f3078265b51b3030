// The one closed list of refusals, each with its number. Every call of the modem answers its result or one of these.
#![tactic(auto)]

ghost use Rattle.std.specs.Prelude.{◌≡◌, Some};
ghost use Rattle.refusal.specs.Table.{number_of, sentence_of};

use std::error::Error;
use std::fmt;

#[derive(Clone, Copy, PartialEq, Eq, Debug)]
pub enum Refusal {
    // the text has no octet
    EmptyText = 1,
    // the text has more than 240 octets
    TextTooLong = 2,
    // output or working memory is too short
    MemoryTooShort = 3,
    // a value is -128
    ValueOutOfRange = 4,
    // the receiver's capacity would be exceeded
    CapacityExceeded = 5,
    // a named place or item does not exist
    NoSuchPlace = 6,
    // the whole burst has not been heard
    BurstNotHeard = 7,
    // the pile has no marker
    NoMarker = 8,
    // the greatest fit is below 64 times the markers
    PoorFit = 9,
    // the stage or pile does not take that many elements
    CountNotTaken = 10,
    // an odd count of elements, or an octet above 2
    BadElements = 11,
    // a level or balance is outside its range
    ReadingOutOfRange = 12,
    // a bad line of the values file
    BadLine = 13,
}

impl Refusal {
    // The number of the refusal in the table.
    pub fn number(self) -> u8
        ensures { result ≡ number_of self }
    {
        self as u8
    }

    // What went wrong, in one sentence.
    pub fn sentence(self) -> &'static str
        ensures { result.now ≡ sentence_of self }
    {
        match self {
            Refusal::EmptyText => "the text has no octet",
            Refusal::TextTooLong => "the text has more than 240 octets",
            Refusal::MemoryTooShort => "the output or working memory is too short",
            Refusal::ValueOutOfRange => "a value is -128; values lie from -127 to 127",
            Refusal::CapacityExceeded => "the receiver has no room for so many values",
            Refusal::NoSuchPlace => "the named place or item does not exist",
            Refusal::BurstNotHeard => "the whole burst has not been heard",
            Refusal::NoMarker => "the pile has no marker to find a burst by",
            Refusal::PoorFit => "no start fits the markers well enough",
            Refusal::CountNotTaken => "the stage or pile does not take that many elements",
            Refusal::BadElements => "the elements have an odd count or an octet above 2",
            Refusal::ReadingOutOfRange => "a level or balance is outside its range",
            Refusal::BadLine => "a line of the values file is bad",
        }
    }
}

// Prints the sentence.
impl fmt::Display for Refusal {
    ghost output = { λ x. Some (sentence_of x) };

    fn fmt<W: fmt::Write>(&self, f: &mut fmt::Formatter<W>) -> fmt::Result {
        f.write_str(self.sentence())
    }
}

impl Error for Refusal {}
