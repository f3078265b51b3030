// One of two stages is a stage, so that one list can mix stages of different types.
ghost use Rattle.either.specs.Either.{either};
ghost use Rattle.either.specs.declared.Either.TheVariants.{Left, Right};
ghost use Rattle.stage.specs.OneOfTwo.{either_homes};

use crate::{Content, MarkedStage, Marker, Stage};
use either::{Either, for_both};
use refusal::Refusal;

impl<L: Stage, R: Stage> Stage for Either<L, R> {
    ghost takes = { either L.Stage.takes R.Stage.takes };

    ghost size = { either L.Stage.size R.Stage.size };

    ghost at = { either L.Stage.at R.Stage.at };

    ghost meaning = { either L.Stage.meaning R.Stage.meaning };

    ghost whole = { elim [ Left s ↦ L.Stage.whole s | Right s ↦ R.Stage.whole s ] };

    ghost homes = { either_homes L.Stage.meaning R.Stage.meaning L.Stage.homes R.Stage.homes };

    fn length(&self, n: usize) -> Result<usize, Refusal> {
        for_both!(self, stage => stage.length(n))
    }

    fn content(&self, n: usize, place: usize) -> Result<Content, Refusal> {
        for_both!(self, stage => stage.content(n, place))
    }

    fn home(&self, n: usize, element: usize) -> Result<usize, Refusal> {
        for_both!(self, stage => stage.home(n, element))
    }
}

impl<L: MarkedStage, R: MarkedStage> MarkedStage for Either<L, R> {
    ghost markers = { either L.MarkedStage.markers R.MarkedStage.markers };

    fn marker_count(&self, n: usize) -> Result<usize, Refusal> {
        for_both!(self, stage => stage.marker_count(n))
    }

    fn marker(&self, n: usize, index: usize) -> Result<Marker, Refusal> {
        for_both!(self, stage => stage.marker(n, index))
    }
}
