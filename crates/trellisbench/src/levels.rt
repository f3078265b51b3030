// A source of soft bits for the benchmark and the trials: levels, one octet for each coded bit.
ghost use Rattle.std.specs.Prelude.{◌≡◌, ◌-◌, if◌then◌else◌, slice_index_or};

use trellis::SoftBits;

// The level of a 0 at full strength.
const FULL_ZERO: u8 = 0;

// The level of a 1 at full strength.
const FULL_ONE: u8 = 254;

// The level that says nothing.
pub const LOST: u8 = 127;

// The levels that were heard, a coded bit after the other.
#[derive(Drop)]
pub struct Levels<'a> {
    pub levels: &'a [u8],
}

// A coded bit costs how far its level is from the bit's full strength.
impl SoftBits for Levels<'_> {
    ghost cost = { λ s i b. (if b then 254 - slice_index_or s.levels.now i 127 else slice_index_or s.levels.now i 127) };

    fn costs(&self, i: usize) -> (u16, u16) {
        let level = self.levels.get(i).copied().unwrap_or(LOST);
        (u16::from(level), u16::from(inverted(level)))
    }
}

// The level at which a bit is heard at full strength.
pub fn full(bit: bool) -> u8
    ensures { result ≡ (if bit then 254 else 0) }
{
    if bit { FULL_ONE } else { FULL_ZERO }
}

// The level that says as much the other way, which is also how far a level is from a 1 at full strength.
pub fn inverted(level: u8) -> u8
    ensures { result ≡ 254 - level }
{
    FULL_ONE.saturating_sub(level)
}
