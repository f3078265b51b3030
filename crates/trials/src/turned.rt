// A small stage for trials: it puts one fixed bit in front, which is its marker, and inverts all elements behind it.
ghost use Rattle.std.proofs.Common.{refl};
ghost use Rattle.trials.specs.Homes.{turned_homes};
ghost use Rattle.trials.specs.Turned.{turned, turned_markers};

use refusal::Refusal;
use stage::{Content, MarkedStage, Marker, Stage, check_count, check_index};

// The most elements that it takes.
const MOST_ELEMENTS: usize = 100;

#[derive(Clone, Copy)]
pub struct Turned {
    pub front: bool,
}

impl Stage for Turned {
    ghost takes = { λ s. (turned s.front).takes };

    ghost size = { λ s. (turned s.front).size };

    ghost at = { λ s. (turned s.front).at };

    ghost meaning = { λ s. turned s.front };

    ghost whole = { λ _. refl };

    ghost homes = { λ s. turned_homes s.front };

    fn length(&self, n: usize) -> Result<usize, Refusal> {
        check_count(n, MOST_ELEMENTS)?;
        Ok(n + 1)
    }

    fn content(&self, n: usize, place: usize) -> Result<Content, Refusal> {
        check_index(place, self.length(n)?)?;
        if place == 0 {
            return Ok(Content::Fixed(self.front));
        }
        Ok(Content::Inverted(place - 1))
    }

    fn home(&self, n: usize, element: usize) -> Result<usize, Refusal> {
        self.length(n)?;
        check_index(element, n)?;
        Ok(element + 1)
    }
}

impl MarkedStage for Turned {
    ghost markers = { λ s. turned_markers s.front };

    fn marker_count(&self, n: usize) -> Result<usize, Refusal> {
        self.length(n)?;
        Ok(1)
    }

    fn marker(&self, n: usize, index: usize) -> Result<Marker, Refusal> {
        check_index(index, self.marker_count(n)?)?;
        Ok(Marker {
            place: 0,
            bit: self.front,
        })
    }
}
