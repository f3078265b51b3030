// The wire: a stage that passes all elements on.
#![tactic(auto)]

ghost use Rattle.std.proofs.Common.{refl};
ghost use Rattle.wire.specs.Homes.{wire_homes};
ghost use Rattle.wire.specs.Wire.{wire, wire_markers};

use refusal::Refusal;
use stage::{Content, MarkedStage, Marker, Stage, check_count, check_index};

// The most elements that the wire takes.
pub const MOST_ELEMENTS: usize = 10_000;

#[derive(Clone, Copy)]
pub struct Wire;

impl Stage for Wire {
    ghost takes = { λ _. wire.takes };

    ghost size = { λ _. wire.size };

    ghost at = { λ _. wire.at };

    ghost meaning = { λ _. wire };

    ghost whole = { λ _. refl };

    ghost homes = { λ _. wire_homes };

    fn length(&self, n: usize) -> Result<usize, Refusal> {
        check_count(n, MOST_ELEMENTS)?;
        Ok(n)
    }

    fn content(&self, n: usize, place: usize) -> Result<Content, Refusal> {
        check_index(place, self.length(n)?)?;
        Ok(Content::Carried(place))
    }

    fn home(&self, n: usize, element: usize) -> Result<usize, Refusal> {
        check_count(n, MOST_ELEMENTS)?;
        check_index(element, n)?;
        Ok(element)
    }
}

impl MarkedStage for Wire {
    ghost markers = { λ _. wire_markers };

    fn marker_count(&self, n: usize) -> Result<usize, Refusal> {
        check_count(n, MOST_ELEMENTS)?;
        Ok(0)
    }

    fn marker(&self, n: usize, _index: usize) -> Result<Marker, Refusal> {
        self.marker_count(n)?;
        Err(Refusal::NoSuchPlace)
    }
}
