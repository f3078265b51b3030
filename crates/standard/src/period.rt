// The inserter's period of 384 places, by arithmetic alone: where its mutes lie and which places carry elements.
ghost use Rattle.std.specs.Prelude.{◌≡◌, ◌<◌, ◌≤◌, true};
ghost use Rattle.layout.specs.Places.{how_many, terms_to};
ghost use Rattle.layout.specs.Inserter.{is_mute, is_carrier};

// How many of `count` numbers, the first and each a step further, are at most x.
#[tactic(auto, using(layout::proofs::Places::terms_none, layout::proofs::Places::terms_some))]
fn terms_up_to(x: usize, first: usize, step: usize, count: usize) -> usize
    requires { (x < 384) × (0 < step) }
    ensures value { result ≡ terms_to x first step count }
    ensures most { result ≤ count }
{
    if x < first {
        return 0;
    }
    count.min((x - first) / step + 1)
}

// Whether a place is a mute: 7 + 8a + 15b leaves the remainder 7 - b at a division by 8.
#[tactic(auto, using(layout::proofs::InserterLaws::mute_rule))]
pub(crate) fn is_silent(place: usize) -> bool
    ensures { result ≡ is_mute place }
{
    let spot = place % 384;
    let first = 7 + 15 * (7 - spot % 8);
    first <= spot && spot <= first + 24
}

// How many mutes of the period stand before a place of it: four rows of eight, each 15 after the one before. The numbers of
// a row stand in its call, and go no further.
#[tactic(auto, using(layout::proofs::InserterLaws::mutes_in_period))]
fn mutes_before(spot: usize) -> usize
    requires { spot < 384 }
    ensures { result ≡ how_many is_mute spot }
{
    terms_up_to(spot, 8, 15, 8)
        + terms_up_to(spot, 16, 15, 8)
        + terms_up_to(spot, 24, 15, 8)
        + terms_up_to(spot, 32, 15, 8)
}

// How many elements a stream carries before a place.
#[tactic(auto, using(layout::proofs::Places::how_many_most, layout::proofs::InserterLaws::carriers_rule))]
pub(crate) fn carried_before(place: usize) -> usize
    ensures { result ≡ how_many is_carrier place }
{
    let spot = place % 384;
    320 * (place / 384) + (spot - mutes_before(spot)).min(320)
}

// The place that carries an element. Counted in elements, the mutes of a period stand before its elements 7 and 14,
// twice before each of 20, 31, .. and 26, 37, .., and before 98 and 105.
pub(crate) fn carrier_of(element: usize) -> usize
    requires { element < 10000 }
    ensures carries { is_carrier result ≡ true }
    ensures order { how_many is_carrier result ≡ element }
    ensures low { result < 20000 }
{
    let e = element % 320;
    let ends = terms_up_to(e, 7, 7, 2) + terms_up_to(e, 98, 7, 2);
    let pairs = terms_up_to(e, 20, 11, 7) + terms_up_to(e, 26, 11, 7);
    384 * (element / 320) + e + ends + 2 * pairs
}
