// The search for the text that lies nearest to what was heard, over any source of soft bits.
#![tactic(auto)]

ghost use Rattle.std.specs.Prelude.{◌≡◌, ℕ, ◌+◌, ◌*◌, ◌/◌, ◌%◌, ◌^◌, ◌<◌, ◌≤◌, Bool, true, false, ltb, List, [], ◌∷◌, length, take, OnOk, OnErr, if◌then◌else◌, nat_lt, slice_index};
ghost use Rattle.refusal.specs.Answer.{after};
ghost use Rattle.distance.specs.Nearest.{Nearest, distance};
ghost use Rattle.distance.specs.Apart.{Heard, HeardWithin};
ghost use Rattle.distance.specs.Trellis.{Best, Bounded, Chosen, back, four_back, label_cost, octet, path_cost, traced};
ghost use Rattle.trellis.specs.Search.{search_answer, steps_of};

use code::check_length;
use refusal::Refusal;
use std::array;

// A source of soft bits: what each coded bit costs, the greater the less it was heard.
pub trait SoftBits {
    // what it costs that the coded bit at an index is 0 (false) or 1 (true)
    ghost cost: { Self → ℕ → Bool → ℕ };

    // What it costs that coded bit i is 0, and that it is 1: at most 65,535, as the type says.
    fn costs(&self, i: usize) -> (u16, u16)
        ensures zero { result.0 ≡ cost self.now i false }
        ensures one { result.1 ≡ cost self.now i true };
}

// A state of the coder: the last four bits as a number, the oldest counting 1.
#[derive(Clone, Copy)]
struct State {
    number: usize,
    ghost within: { number < 16 },
}

impl State {
    // The state in which every text begins and, after its four zero bits, ends.
    const ZERO: State = State { number: 0 };

    // The state before, by the decision bit that this one has among those of its step.
    fn before(self, decisions: u16) -> State
        ensures { result.number ≡ back self.number decisions }
    {
        let state = self.number;
        State {
            number: 2 * (state % 8) + usize::from((decisions >> state) % 2),
        }
    }

    // The state before the four steps from `step` on.
    fn before_four(self, work: &[u16], step: usize) -> State
        requires { step + 4 ≤ length work.now }
        ensures { result.number ≡ four_back work.now step self.number }
    {
        work[step..step + 4]
            .iter()
            .rev()
            .fold(self, |state, decisions| state.before(*decisions))
    }
}

// What a path costs that did not begin in the zero state: more than any text.
const UNREACHED: u32 = 1 << 30;

// The coded bits of the branch from state 2j with a new 0, the first counting 1. A new 1 inverts all four, and so does
// a 1 that drops out.
const BRANCH: [usize; 8] = [0, 14, 11, 5, 12, 2, 7, 9];

// What each combination of two coded bits costs, the first counting 1.
fn pair_costs(first: (u16, u16), second: (u16, u16)) -> [u32; 4]
    ensures small { (i : ℕ) → slice_index result i < 2 ^ 17 }
    ensures sums { result ≡ (first.0 + second.0) ∷ (first.1 + second.0) ∷ (first.0 + second.1) ∷ (first.1 + second.1) ∷ [] }
{
    let [a0, a1, b0, b1] = [first.0, first.1, second.0, second.1].map(u32::from);
    [a0 + b0, a1 + b0, a0 + b1, a1 + b1]
}

// What each combination of the four coded bits of a step costs, the first counting 1.
fn label_costs<S: SoftBits>(source: &S, step: usize) -> [u32; 16]
    requires { step < 2 ^ 60 }
    ensures priced { (q : ℕ) → q < 16 → slice_index result q ≡ label_cost (S.SoftBits.cost source.now) step q }
    ensures bounded { Bounded (S.SoftBits.cost source.now) step 65535 → Bounded (S.SoftBits.cost source.now) (step + 1) 65535 }
{
    let first = pair_costs(source.costs(4 * step), source.costs(4 * step + 1));
    let last = pair_costs(source.costs(4 * step + 2), source.costs(4 * step + 3));
    array::from_fn(|q| first[q % 4] + last[q / 4])
}

// The cheaper of two ways into a state, and whether it is the second; a tie goes to the first.
fn cheaper(first: u32, second: u32) -> (u32, bool)
    ensures metric { result.0 ≡ (if ltb second first then second else first) }
    ensures turned { result.1 ≡ nat_lt second first }
{
    if second < first {
        (second, true)
    } else {
        (first, false)
    }
}

// What a step leaves: the metric of each state, and its decision bit.
#[derive(Drop)]
struct Step {
    metrics: [u32; 16],
    decisions: u16,
}

// One step: each state takes the cheaper of its two branches.
fn advance(metrics: &[u32; 16], costs: &[u32; 16]) -> Step
    requires { (((s : ℕ) → s < 16 → slice_index metrics.now s < 2 ^ 31)) × (((q : ℕ) → q < 16 → slice_index costs.now q < 2 ^ 20)) }
    ensures { (s : ℕ) → s < 16 → Chosen metrics.now costs.now result.metrics result.decisions s }
{
    let mut next = [0; 16];
    let mut low = 0u16;
    let mut high = 0u16;
    for (j, label) in BRANCH.iter().enumerate() {
        let same = costs[*label];
        let inverted = costs[15 - *label];
        let zero = metrics[2 * j];
        let one = metrics[2 * j + 1];
        let (to_zero, turned) = cheaper(zero + same, one + inverted);
        next[j] = to_zero;
        low += u16::from(turned) << j;
        let (to_one, turned) = cheaper(zero + inverted, one + same);
        next[j + 8] = to_one;
        high += u16::from(turned) << j;
    }
    Step {
        metrics: next,
        decisions: low + 256 * high,
    }
}

// The forward pass: writes the decisions of each step into `work`, and answers what the best path into the zero state
// costs.
fn forward<S: SoftBits>(source: &S, work: &mut [u16]) -> u32
    requires { length work.old ≤ 1924 }
    ensures best { Best (S.SoftBits.cost source.now) (length work.old) (traced work.new (length work.old) 0) }
    ensures metric { result ≡ path_cost (S.SoftBits.cost source.now) (length work.old) (traced work.new (length work.old) 0) }
    ensures bounded { Bounded (S.SoftBits.cost source.now) (length work.old) 65535 }
{
    let mut metrics = [UNREACHED; 16];
    metrics[0] = 0;
    for (step, place) in work.iter_mut().enumerate() {
        let costs = label_costs(source, step);
        let next = advance(&metrics, &costs);
        *place = next.decisions;
        metrics = next.metrics;
    }
    metrics[State::ZERO.number]
}

// The octet whose lower and upper four bits are two states.
fn octet_of(low: State, high: State) -> u8
    ensures { result ≡ low.number + 16 * high.number }
{
    (low.number + 16 * high.number) as u8
}

// The way back from the zero state: a state holds four bits of the text, so two of them make an octet.
fn trace_back(work: &[u16], text: &mut [u8])
    requires { length work.now ≡ 8 * length text.old + 4 }
    ensures { (i : ℕ) → i < length text.old → slice_index text.new i ≡ octet i (traced work.now (length work.now) 0) }
{
    let mut state = State::ZERO;
    // Over places: of what a reversed `iter_mut` wrote, a proof knows only the length.
    for i in (0..text.len()).rev() {
        let high = state.before_four(work, 8 * i + 8);
        let low = high.before_four(work, 8 * i + 4);
        text[i] = octet_of(low, high);
        state = low;
    }
}

// The search where the memory fits: both passes, over as many octets as `text` has places. `text` and `work` stay
// apart, since the caller lends them apart and the first pass takes `work` alone.
fn search<S: SoftBits>(source: &S, text: &mut [u8], work: &mut [u16]) -> u32
    requires { (length text.old ≤ 240) × (length work.old ≡ 8 * length text.old + 4) }
    ensures nearest { Nearest (S.SoftBits.cost source.now) (length text.old) text.new }
    ensures value { result ≡ distance (S.SoftBits.cost source.now) text.new }
{
    let metric = forward(source, work);
    trace_back(work, text);
    metric
}

// How many steps a text of m octets takes.
fn steps_for(m: usize) -> usize
    requires { m ≤ 240 }
    ensures { result ≡ steps_of m }
{
    8 * m + 4
}

// Searches for the text of m octets that lies nearest to what the source heard: of all strings of m octets the one that
// costs least, and of equally cheap ones the one with the smaller octet at the last place where they differ. Writes it
// into the first places of `text`, and answers its distance. It works in `work`, a place for each step.
pub fn nearest_text<S: SoftBits>(
    source: &S,
    m: usize,
    text: &mut [u8],
    work: &mut [u16],
) -> Result<u32, Refusal>
    ensures answer { result ≡ search_answer m (length text.old) (length work.old) (distance (S.SoftBits.cost source.now) (take m text.new)) }
    ensures memory { text.new ≡ after result (take m text.new) text.old }
    ensures working { (length work.new ≡ length work.old) × OnErr result (work.new ≡ work.old) }
    ensures nearest { OnOk result (Nearest (S.SoftBits.cost source.now) m (take m text.new)) }
    ensures only { OnOk result ((other : List ℕ) → Nearest (S.SoftBits.cost source.now) m other → take m text.new ≡ other) }
    ensures corrected { OnOk result ((sent : List ℕ) (heard : ℕ → Heard) → HeardWithin 15 (S.SoftBits.cost source.now) m sent heard → take m text.new ≡ sent) }
{
    check_length(m)?;
    let steps = steps_for(m);
    if text.len() < m || work.len() < steps {
        return Err(Refusal::MemoryTooShort);
    }
    Ok(search(source, &mut text[0..m], &mut work[0..steps]))
}
