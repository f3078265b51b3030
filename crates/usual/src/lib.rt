// The exchange's usual line setting: the standard pile with its usual preamble.
#![tactic(auto)]

ghost use Rattle.std.specs.Prelude.{◌≡◌};
ghost use Rattle.usual.specs.Worked.{usual_preamble, WorkedExamples};

use standard::{StandardPile, standard_pile};

const PREAMBLE: [u8; 7] = [0x56, 0x6E, 0xD2, 0x71, 0x56, 0x6E, 0xD2];

// The standard pile with the usual preamble. The worked examples hold of the rules that it and the calls above follow.
pub fn usual_pile() -> StandardPile
    ensures preamble { result.lower.upper.preamble ≡ usual_preamble }
    ensures worked { WorkedExamples }
{
    standard_pile(PREAMBLE)
}
