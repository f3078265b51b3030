// How far apart coded texts lie, and what follows for the reading. The lemmas on the trellis stand here too.
#![tactic(auto)]

ghost use Rattle.std.specs.Prelude.{◌≡◌};
ghost use Rattle.distance.specs.Apart.{Apart, Corrects};

// The ones that the coded difference of two texts has at least: 4 where it begins, and 12 on its way back.
const LEAST_WEIGHT: u32 = 4 + 12;

// The least number of places in which the coded bits of two different texts of one length differ.
#[tactic(auto, using(crate::proofs::Separation::apart_sixteen))]
pub fn least_separation() -> u32
    ensures { (result ≡ 16) × Apart result }
{
    LEAST_WEIGHT
}

// How much noise is corrected, for every text: with twice the wrong coded bits plus the lost ones at most so much, the
// text sent is nearer than every other. One less than the separation.
#[tactic(auto, using(crate::proofs::Correction::corrects_fifteen))]
pub fn corrected_noise() -> u32
    ensures { (result ≡ 15) × Corrects result }
{
    LEAST_WEIGHT - 1
}
