// Where a burst stands among the values heard: the start at which a pile's markers fit best.
#![tactic(auto)]

ghost use Rattle.std.specs.Prelude.{◌≡◌, ◌+◌, ◌<◌, ◌≤◌, true, length, pos, negsuc, neg_ℤ, ◌≤ℤ◌, if◌then◌else◌, Ok};
ghost use Rattle.fit.specs.Fit.{fit, best_of, starts, best_start_answer};

use refusal::Refusal;
use stage::MarkedStage;

// The least fit that a marker has to bring for a start to be taken.
pub const LEAST_FIT: i32 = 64;

// How far a value speaks for a bit.
fn agreement(value: i8, bit: bool) -> i32
    ensures value { result ≡ (if bit then value else neg_ℤ value) }
    ensures least { negsuc 127 ≤ℤ result }
    ensures most { result ≤ℤ pos 128 }
{
    if bit {
        i32::from(value)
    } else {
        -i32::from(value)
    }
}

// A search for a burst of n elements through a stage that takes so many, among values long enough for it.
#[derive(Drop)]
struct Search<'a, M: MarkedStage> {
    values: &'a [i8],
    stage: &'a M,
    n: usize,
    // how long the burst is
    burst: usize,
    // how many markers it has
    markers: usize,
    ghost taken: { (M.Stage.meaning stage.now).takes n ≡ true },
    ghost places: { burst ≡ (M.Stage.meaning stage.now).size n },
    ghost heard: { burst ≤ length values.now },
    ghost all: { markers ≡ length (M.MarkedStage.markers stage.now n) },
    ghost few: { markers ≤ 32768 },
}

impl<M: MarkedStage> Search<'_, M> {
    // The fit at a start whose whole burst was heard. The only place where markers are asked for. Inlined, so that what
    // the stage answers is inlined into the sum: else a search takes about twice the time.
    #[inline(always)]
    fn fit_at(&self, start: usize) -> Result<i32, Refusal>
        requires { start + self.now.burst ≤ length self.now.values.now }
        ensures { result ≡ Ok (fit self.now.values.now (M.MarkedStage.markers self.now.stage.now self.now.n) start) }
    {
        let mut sum = 0;
        // a stage tells one marker at a time, so there is no list of them to go over
        for index in 0..self.markers {
            let marker = self.stage.marker(self.n, index)?;
            sum += agreement(self.values[start + marker.place], marker.bit);
        }
        Ok(sum)
    }

    // The earliest of the starts with the greatest fit, and that fit.
    fn earliest_best(&self) -> Result<(usize, i32), Refusal>
        ensures { result ≡ Ok (best_of (fit self.now.values.now (M.MarkedStage.markers self.now.stage.now self.now.n)) (starts (length self.now.values.now) self.now.burst)) }
    {
        let starts = self.values.len() - self.burst + 1;
        let mut best = (0, self.fit_at(0)?);
        // starts are numbers, and the best of them is answered
        for start in 1..starts {
            let fit = self.fit_at(start)?;
            if fit > best.1 {
                best = (start, fit);
            }
        }
        Ok(best)
    }
}

// Where a burst of n elements through a pile stands among the values heard: the earliest of the best
// starts, and the fit there.
pub fn best_start<M: MarkedStage>(
    values: &[i8],
    stage: &M,
    n: usize,
) -> Result<(usize, i32), Refusal>
    ensures { result ≡ best_start_answer (M.Stage.meaning stage.now) (M.MarkedStage.markers stage.now) n values.now }
{
    let length = stage.length(n)?;
    if values.len() < length {
        return Err(Refusal::BurstNotHeard);
    }
    let markers = stage.marker_count(n)?;
    if markers == 0 {
        return Err(Refusal::NoMarker);
    }
    let search = Search {
        values,
        stage,
        n,
        burst: length,
        markers,
    };
    let (start, fit) = search.earliest_best()?;
    // no `From` leads from a usize to an i32; the search knows that its markers are few
    if fit < LEAST_FIT * markers as i32 {
        return Err(Refusal::PoorFit);
    }
    Ok((start, fit))
}
