// The interleaver: elements are spread over eight columns, some of them inverted, behind a preamble.
ghost use Rattle.std.specs.Prelude.{◌≡◌, ◌<◌, true};
ghost use Rattle.std.proofs.Common.{refl};
ghost use Rattle.layout.specs.Places.{taken, how_many};
ghost use Rattle.layout.specs.Interleaver.{scrambled, in_preamble, preamble_bit, interleaver_size, interleaver_at, interleaver_meaning, interleaver_markers};
ghost use Rattle.layout.proofs.InterleaverLaws.{interleaver_homes};

use crate::MOST_ELEMENTS;
use refusal::Refusal;
use stage::{Content, MarkedStage, Marker, Stage, check_count, check_index};

// How many preamble bits stand before each row. A table, and no search in the places, so that each answer takes the same
// time.
const BEFORE_ROW: [u8; 14] = [0, 7, 14, 20, 26, 31, 36, 40, 44, 47, 50, 52, 54, 55];

// The places of the preamble, in order.
const PREAMBLE_PLACES: [u8; 56] = [
    1, 2, 3, 4, 5, 6, 7, 9, 10, 11, 12, 13, 14, 15, 18, 19, 20, 21, 22, 23, 26, 27, 28, 29, 30, 31,
    35, 36, 37, 38, 39, 43, 44, 45, 46, 47, 52, 53, 54, 55, 60, 61, 62, 63, 69, 70, 71, 77, 78, 79,
    86, 87, 94, 95, 103, 111,
];

// Spreads elements over the columns, behind its preamble of 56 bits. The preamble's first bit is the highest of its
// first octet.
#[derive(Clone, Copy)]
pub struct Interleaver {
    pub preamble: [u8; 7],
}

// Whether a column's elements are inverted.
fn is_scrambled(column: usize) -> bool
    ensures { result ≡ scrambled column }
{
    matches!(column, 0 | 2 | 3 | 6 | 7)
}

// The index of the preamble bit that stands at a place.
fn preamble_index(place: usize) -> usize
    requires { in_preamble place ≡ true }
    ensures index { result ≡ how_many in_preamble place }
    ensures below { result < 56 }
{
    let row = place / 8;
    let skipped = row / 2 + 1;
    usize::from(BEFORE_ROW[row]) + (place % 8 - skipped)
}

impl Interleaver {
    // The preamble bit with an index.
    fn bit(&self, index: usize) -> bool
        requires { index < 56 }
        ensures { result ≡ preamble_bit self.now.preamble index }
    {
        (self.preamble[index / 8] >> (7 - index % 8)) % 2 == 1
    }
}

impl Stage for Interleaver {
    ghost takes = { λ _. taken };

    ghost size = { λ _. interleaver_size };

    ghost at = { λ s. interleaver_at s.preamble };

    ghost meaning = { λ s. interleaver_meaning s.preamble };

    ghost whole = { λ _. refl };

    ghost homes = { λ s. interleaver_homes s.preamble };

    fn length(&self, n: usize) -> Result<usize, Refusal> {
        check_count(n, MOST_ELEMENTS)?;
        Ok(n + 112)
    }

    fn content(&self, n: usize, place: usize) -> Result<Content, Refusal> {
        check_index(place, self.length(n)?)?;
        let row = place / 8;
        let column = place % 8;
        if row < 2 * column {
            return Ok(Content::Fixed(self.bit(preamble_index(place))));
        }
        let element = 8 * (row - 2 * column) + column;
        let inverts = is_scrambled(column);
        Ok(if element >= n {
            Content::Fixed(inverts)
        } else if inverts {
            Content::Inverted(element)
        } else {
            Content::Carried(element)
        })
    }

    #[tactic(auto, using(layout::proofs::InterleaverLaws::interleaver_home))]
    fn home(&self, n: usize, element: usize) -> Result<usize, Refusal> {
        check_count(n, MOST_ELEMENTS)?;
        check_index(element, n)?;
        Ok(element + 16 * (element % 8))
    }
}

impl MarkedStage for Interleaver {
    ghost markers = { λ s. interleaver_markers s.preamble };

    #[tactic(auto, using(layout::proofs::InterleaverLaws::interleaver_count))]
    fn marker_count(&self, n: usize) -> Result<usize, Refusal> {
        check_count(n, MOST_ELEMENTS)?;
        Ok(PREAMBLE_PLACES.len())
    }

    #[tactic(auto, using(layout::proofs::InterleaverLaws::interleaver_count, layout::proofs::InterleaverLaws::interleaver_marker))]
    fn marker(&self, n: usize, index: usize) -> Result<Marker, Refusal> {
        check_count(n, MOST_ELEMENTS)?;
        check_index(index, PREAMBLE_PLACES.len())?;
        Ok(Marker {
            place: usize::from(PREAMBLE_PLACES[index]),
            bit: self.bit(index),
        })
    }
}
