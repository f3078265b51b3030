// A text's octets as a row of items: enquiries, idles, other characters in UTF-8, and broken octets.
#![tactic(auto)]

ghost use Rattle.std.specs.Prelude.{◌≡◌, ◌-◌, ◌∷◌, List, length, nat_lt};
ghost use Rattle.character.specs.Reader.{Next, OnlyReading, standing, front_item, octets_of, tally_of, holds_enquiry};
ghost use Rattle.character.specs.Forms.{Room, Within, one_more};
ghost use Rattle.character.specs.declared.Placed.{Placed as PlacedItem};
ghost use Rattle.std.specs.Iterator.{at_most};
ghost use Rattle.refusal.specs.Answer.{after};
ghost use Rattle.character.specs.Controls.{is_control, without_controls, removal_answer};

use refusal::Refusal;

mod decoder;

// The octet that asks whether the far end can hear us.
pub const ENQUIRY: u8 = 0x05;

// The octet that says nothing.
pub const IDLE: u8 = 0x16;

#[derive(Clone, Copy, PartialEq, Eq, Debug)]
pub enum Item {
    Enquiry,
    Idle,
    // any other character
    Character(char),
    // an octet at which no character begins
    Broken(u8),
}

impl Item {
    // How many octets the item takes.
    pub fn octets(self) -> usize
        ensures { result ≡ length (octets_of self) }
    {
        match self {
            Item::Enquiry | Item::Idle | Item::Broken(_) => 1,
            Item::Character(c) => c.len_utf8(),
        }
    }
}

// An item and the place of its first octet.
#[derive(Clone, Copy, PartialEq, Eq, Debug)]
pub struct Placed {
    pub place: usize,
    pub item: Item,
}

// The items of a text from a place on.
#[derive(Clone, Copy)]
pub struct Characters<'a> {
    text: &'a [u8],
    place: usize,
}

impl<'a> Characters<'a> {
    // The items of a text.
    pub fn new(text: &'a [u8]) -> Self
        ensures text { result.text.now ≡ text.now }
        ensures place { result.place ≡ 0 }
    {
        Characters { text, place: 0 }
    }
}

// The item at the front of octets, by the first of them and those behind it.
fn front(first: u8, behind: &[u8]) -> Item
    ensures { result ≡ front_item first (first ∷ behind.now) }
{
    match first {
        ENQUIRY => Item::Enquiry,
        IDLE => Item::Idle,
        _ => decoder::character(first, behind).map_or(Item::Broken(first), Item::Character),
    }
}

// What stands at a place.
fn read_at(text: &[u8], place: usize) -> Option<Placed>
    ensures value { result ≡ standing text.now place }
    ensures within { Within (length text.now) place result }
{
    let (&first, behind) = text.get(place..)?.split_first()?;
    let item = front(first, behind);
    Some(Placed { place, item })
}

impl<'a> Iterator for Characters<'a> {
    type Item = Placed;

    ghost next_gives = { Next };

    ghost remaining = { λ s. at_most (length s.text.now - s.place) };

    fn next(&mut self) -> Option<Placed> {
        let placed = read_at(self.text, self.place)?;
        self.place += placed.item.octets();
        Some(placed)
    }
}

// How many items of each kind a text has.
#[derive(Clone, Copy, PartialEq, Eq, Debug, Default)]
pub struct Tally {
    pub enquiries: usize,
    pub idles: usize,
    pub characters: usize,
    pub broken: usize,
}

impl Tally {
    // One item more.
    fn count(&mut self, item: Item)
        requires { Room self.old }
        ensures { self.new ≡ one_more self.old item }
    {
        match item {
            Item::Enquiry => self.enquiries += 1,
            Item::Idle => self.idles += 1,
            Item::Character(_) => self.characters += 1,
            Item::Broken(_) => self.broken += 1,
        }
    }

    // Reads a whole text and counts its items.
    pub fn of(text: &[u8]) -> Tally
        ensures items { (items : List PlacedItem) × OnlyReading text.now items × (result ≡ tally_of items) }
        ensures enquiry { holds_enquiry text.now ≡ nat_lt 0 result.enquiries }
    {
        let mut tally = Tally::default();
        for placed in Characters::new(text) {
            tally.count(placed.item);
        }
        tally
    }
}

// Whether one of a text's items is an enquiry. It counts the items that are read, so that the law over a text holds of what
// a line goes by.
pub fn holds_enquiry(text: &[u8]) -> bool
    ensures { result ≡ holds_enquiry text.now }
{
    Tally::of(text).enquiries > 0
}

// Whether an octet is a control character.
fn is_control(octet: u8) -> bool
    ensures { result ≡ is_control octet }
{
    octet == ENQUIRY || octet == IDLE
}

// How many octets a text has besides its control characters. Counted, here and where they are removed: a `filter` takes
// twice the time.
fn plain_length(text: &[u8]) -> usize
    ensures { result ≡ length (without_controls text.now) }
{
    let mut length = 0;
    for octet in text {
        if !is_control(*octet) {
            length += 1;
        }
    }
    length
}

// Copies a text without its enquiries and idles into the first places of memory, and answers how many octets stay.
pub fn remove_controls(text: &[u8], memory: &mut [u8]) -> Result<usize, Refusal>
    ensures answer { result ≡ removal_answer text.now (length memory.old) }
    ensures memory { memory.new ≡ after result (without_controls text.now) memory.old }
{
    if plain_length(text) > memory.len() {
        return Err(Refusal::MemoryTooShort);
    }
    let mut length = 0;
    for &octet in text {
        if !is_control(octet) {
            memory[length] = octet;
            length += 1;
        }
    }
    Ok(length)
}

#[cfg(test)]
mod tests;
