// The stages of a burst: mutes and resynchronisation, interleaving with scrambling and preamble, and the lead.
#![tactic(auto)]

ghost use Rattle.std.specs.Prelude.{◌≡◌};

use pile::Pile;

mod inserter;
mod interleaver;
mod lead;
mod period;

pub use inserter::Inserter;
pub use interleaver::Interleaver;
pub use lead::Lead;

// The greatest number of incoming elements that these stages take.
pub const MOST_ELEMENTS: usize = 10_000;

// The standard pile: the inserter, then the interleaver, then the lead on top.
pub type StandardPile = Pile<Pile<Inserter, Interleaver>, Lead>;

// The standard pile with a preamble of 56 bits.
pub fn standard_pile(preamble: [u8; 7]) -> StandardPile
    ensures { result.lower.upper.preamble ≡ preamble }
{
    Pile::new(Pile::new(Inserter, Interleaver { preamble }), Lead)
}

#[cfg(test)]
mod tests {
    use super::*;
    use refusal::Refusal;
    use stage::{Content, Stage};
    use std::test::Fail;

    // the preamble that tests and programs use
    const USUAL: [u8; 7] = [0x56, 0x6E, 0xD2, 0x71, 0x56, 0x6E, 0xD2];

    #[test]
    fn lengths(rt: HostRuntime) -> Result<(), Fail> {
        for (n, length) in [
            (0, 0),
            (8, 9),
            (48, 60),
            (320, 352),
            (321, 385),
            (336, 402),
            (10_000, 12_008),
        ] {
            assert_eq!(rt; Inserter.length(n)?, length);
        }
        for (n, length) in [(0, 112), (10_000, 10_112)] {
            assert_eq!(rt; Interleaver { preamble: USUAL }.length(n)?, length);
        }
        let pile = standard_pile(USUAL);
        for (n, length) in [(48, 180), (336, 522), (7_696, 9_354)] {
            assert_eq!(rt; pile.length(n)?, length);
        }
        assert_eq!(rt; Lead.length(10_000)?, 10_008);
        assert_eq!(rt; pile.length(10_000), Err(Refusal::CountNotTaken));
        Ok(())
    }

    #[test]
    fn refusals(rt: HostRuntime) {
        assert_eq!(rt; Inserter.length(10_001), Err(Refusal::CountNotTaken));
        assert_eq!(rt; Lead.home(10_001, 0), Err(Refusal::CountNotTaken));
        assert_eq!(rt;
            Interleaver { preamble: USUAL }.content(0, 112),
            Err(Refusal::NoSuchPlace)
        );
        assert_eq!(rt; Inserter.content(0, 0), Err(Refusal::NoSuchPlace));
        assert_eq!(rt; Inserter.home(48, 48), Err(Refusal::NoSuchPlace));
    }

    #[test]
    fn homes(rt: HostRuntime) -> Result<(), Fail> {
        let interleaver = Interleaver { preamble: USUAL };
        for (element, place) in [(7, 119), (22, 118), (112, 112)] {
            assert_eq!(rt; interleaver.home(120, element)?, place);
        }
        for (element, place) in [
            (6, 6),
            (7, 8),
            (20, 24),
            (104, 135),
            (105, 137),
            (319, 351),
            (320, 384),
            (9_999, 12_007),
        ] {
            assert_eq!(rt; Inserter.home(10_000, element)?, place);
        }
        Ok(())
    }

    #[test]
    fn contents(rt: HostRuntime) -> Result<(), Fail> {
        let interleaver = Interleaver { preamble: USUAL };
        for (place, content) in [
            (0, Content::Inverted(0)),
            (1, Content::Fixed(false)),
            (2, Content::Fixed(true)),
            (111, Content::Fixed(false)),
            (112, Content::Fixed(true)),
            (17, Content::Carried(1)),
            (119, Content::Inverted(7)),
        ] {
            assert_eq!(rt; interleaver.content(48, place)?, content);
        }
        for (place, content) in [
            (7, Content::Mute),
            (136, Content::Mute),
            (137, Content::Carried(105)),
            (352, Content::Fixed(false)),
            (383, Content::Fixed(true)),
            (391, Content::Mute),
        ] {
            assert_eq!(rt; Inserter.content(336, place)?, content);
        }
        Ok(())
    }
}
