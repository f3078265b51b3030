// A pile of two stages is again a stage: what leaves the lower enters the upper.
#![tactic(auto)]

ghost use Rattle.std.specs.Prelude.{◌≡◌};
ghost use Rattle.std.proofs.Common.{refl};
ghost use Rattle.stage.specs.Meaning.{Homes, length_answer, content_answer, home_answer};
ghost use Rattle.stage.specs.Piled.{piled, piled_markers, moved_answer, Enters};
ghost use Rattle.stage.proofs.Homes.{piled_homes};

use refusal::Refusal;
use stage::{Content, MarkedStage, Marker, Stage, check_index};

// What leaves the lower stage enters the upper one.
#[derive(Drop)]
pub struct Pile<L, U> {
    pub lower: L,
    pub upper: U,
}

impl<L: Stage, U: Stage> Pile<L, U> {
    // The pile of two stages. What leaves it is what leaves the upper when what leaves the lower enters that.
    #[tactic(auto, using(stage::proofs::Leaving::enters))]
    pub fn new(lower: L, upper: U) -> Pile<L, U>
        ensures value { (result.lower ≡ lower) × (result.upper ≡ upper) }
        ensures enters { Enters (L.Stage.meaning lower) (U.Stage.meaning upper) }
    {
        Pile { lower, upper }
    }
}

impl<L: Stage, U: Stage> Stage for Pile<L, U> {
    ghost takes = { λ s. (piled (L.Stage.meaning s.lower) (U.Stage.meaning s.upper)).takes };

    ghost size = { λ s. (piled (L.Stage.meaning s.lower) (U.Stage.meaning s.upper)).size };

    ghost at = { λ s. (piled (L.Stage.meaning s.lower) (U.Stage.meaning s.upper)).at };

    ghost meaning = { λ s. piled (L.Stage.meaning s.lower) (U.Stage.meaning s.upper) };

    ghost whole = { λ _. refl };

    ghost homes = { λ s. piled_homes (L.Stage.meaning s.lower) (U.Stage.meaning s.upper) (L.Stage.homes s.lower) (U.Stage.homes s.upper) };

    fn length(&self, n: usize) -> Result<usize, Refusal> {
        self.upper.length(self.lower.length(n)?)
    }

    #[tactic(auto, using(stage::proofs::Answers::inverted_there))]
    fn content(&self, n: usize, place: usize) -> Result<Content, Refusal> {
        let middle = self.lower.length(n)?;
        match self.upper.content(middle, place)? {
            Content::Carried(j) => self.lower.content(n, j),
            Content::Inverted(j) => Ok(!self.lower.content(n, j)?),
            own => Ok(own),
        }
    }

    #[tactic(auto, using(stage::proofs::Answers::home_through))]
    fn home(&self, n: usize, element: usize) -> Result<usize, Refusal> {
        let middle = self.lower.length(n)?;
        // asked first, so that a count is refused before an element
        self.upper.length(middle)?;
        self.upper.home(middle, self.lower.home(n, element)?)
    }
}

// A marker among the elements that enter a stage, as it leaves: at its home, inverted where the stage inverts.
#[tactic(auto, using(stage::proofs::Answers::home_not_refused))]
fn moved_up<S: Stage>(stage: &S, n: usize, marker: Marker) -> Result<Marker, Refusal>
    ensures { result ≡ moved_answer (S.Stage.meaning stage.now) n marker }
{
    let place = stage.home(n, marker.place)?;
    let bit = match stage.content(n, place)? {
        Content::Inverted(_) => !marker.bit,
        _ => marker.bit,
    };
    Ok(Marker { place, bit })
}

impl<L: MarkedStage, U: MarkedStage> MarkedStage for Pile<L, U> {
    ghost markers = { λ s. piled_markers (L.Stage.meaning s.lower) (U.Stage.meaning s.upper) (L.MarkedStage.markers s.lower) (U.MarkedStage.markers s.upper) };

    #[tactic(auto, using(stage::proofs::Markers::counts_fit, stage::proofs::Markers::count_sum))]
    fn marker_count(&self, n: usize) -> Result<usize, Refusal> {
        let middle = self.lower.length(n)?;
        let above = self.upper.marker_count(middle)?;
        let below = self.lower.marker_count(n)?;
        Ok(above + below)
    }

    fn marker(&self, n: usize, index: usize) -> Result<Marker, Refusal> {
        check_index(index, self.marker_count(n)?)?;
        let middle = self.lower.length(n)?;
        let above = self.upper.marker_count(middle)?;
        if index < above {
            return self.upper.marker(middle, index);
        }
        moved_up(&self.upper, middle, self.lower.marker(n, index - above)?)
    }
}
