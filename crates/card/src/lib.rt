// Card readings to values: what a reading of the line card says of a frame's two elements.
#![tactic(auto)]

ghost use Rattle.std.specs.Prelude.{◌≡◌, true, false, T, pos, IfOk};
ghost use Rattle.std.specs.Float.{fin, binary32, float_max};
ghost use Rattle.std.specs.Float.Ieee.{mul, to_signed, le, lt};
ghost use Rattle.card.specs.Floats.{full, is_level, is_balance, share as share_of, strength as strength_of};
ghost use Rattle.card.specs.Readings.{in_range, first_one, first_zero, second_one, second_zero, greatest as greatest_of, levels_pair, answer, IsValue, Promised};

use refusal::Refusal;
use std::num::truncating_f32_to_i64;

// The greatest level that is taken; the least is 0.
const LOUDEST: f32 = 32768.0;

// The size of a value that is sure.
const FULL_STRENGTH: f32 = 127.0;

// The levels of the four tones.
#[derive(Clone, Copy, PartialEq, Debug)]
pub struct Levels {
    pub hz400: f32,
    pub hz600: f32,
    pub hz800: f32,
    pub hz1000: f32,
}

// What the card says of one frame.
#[derive(Clone, Copy, PartialEq, Debug)]
pub enum Reading {
    // how loud each tone is
    Levels(Levels),
    // for each element, from -1 for a sure 0 to 1 for a sure 1
    Balance(f32, f32),
    // the frame was not heard
    Lost,
}

// Whether a level may be told. This range and the one below differ in their ends, and each is a rule with a name.
fn is_level(x: f32) -> bool
    ensures { result ≡ is_level x }
{
    (0.0..=LOUDEST).contains(&x)
}

fn is_balance(x: f32) -> bool
    ensures { result ≡ is_balance x }
{
    (-1.0..=1.0).contains(&x)
}

// By how much one side is louder than the other, as a share of the greatest level.
fn share(ones: f32, zeros: f32, greatest: f32) -> f32
    ensures { result ≡ share_of ones zeros greatest }
{
    (ones - zeros) / greatest
}

// The value of a share. It fits without any clamping: 127 times a float from -1 to 1 rounds to at most 127 in size.
fn strength(part: f32) -> i8
    requires { T (is_balance part) }
    ensures is { result ≡ strength_of part }
    ensures value { IsValue result }
{
    truncating_f32_to_i64(part * FULL_STRENGTH) as i8
}

// The greater of two floats: the first where they are equal, and the other where one is no number. `f32::max` may
// answer either of two that are equal, as 0.0 and -0.0.
fn greater(x: f32, y: f32) -> f32
    ensures { result ≡ float_max x y }
{
    if y <= x || y.is_nan() { x } else { y }
}

impl Levels {
    fn in_range(&self) -> bool
        ensures { result ≡ in_range self.now }
    {
        is_level(self.hz400)
            && is_level(self.hz600)
            && is_level(self.hz800)
            && is_level(self.hz1000)
    }

    // For each element the louder tone for a 1 against the louder one for a 0, as a share of the loudest of all.
    fn pair(&self) -> (i8, i8)
        requires { T (in_range self.now) }
        ensures is { result ≡ levels_pair self.now }
        ensures promised { Promised (Reading.Levels self.now) result }
    {
        let first_one = greater(self.hz800, self.hz1000);
        let first_zero = greater(self.hz400, self.hz600);
        let second_one = greater(self.hz600, self.hz1000);
        let second_zero = greater(self.hz400, self.hz800);
        let greatest = greater(first_zero, first_one);
        if greatest == 0.0 {
            return (0, 0);
        }
        let first = share(first_one, first_zero, greatest);
        let second = share(second_one, second_zero, greatest);
        (strength(first), strength(second))
    }
}

impl Reading {
    // The values of the frame's two elements. A level or a balance outside its range is refused.
    pub fn values(self) -> Result<(i8, i8), Refusal>
        ensures is { result ≡ answer self }
        ensures promised { IfOk result (λ v. Promised self v) }
    {
        match self {
            Reading::Levels(levels) if levels.in_range() => Ok(levels.pair()),
            Reading::Balance(first, second) if is_balance(first) && is_balance(second) => {
                Ok((strength(first), strength(second)))
            }
            Reading::Lost => Ok((0, 0)),
            _ => Err(Refusal::ReadingOutOfRange),
        }
    }
}

#[cfg(test)]
mod tests {
    use super::*;

    // Levels and their pairs, worked out apart from this code, in exact fractions rounded to 24 binary digits.
    const LEVELS: [([f32; 4], (i8, i8)); 29] = [
        ([2.0, 0.0, 8.0, 0.0], (95, -127)),
        ([0.0, 0.0, 0.0, 0.0], (0, 0)),
        ([-0.0, 0.0, -0.0, -0.0], (0, 0)),
        ([32768.0, 0.0, 0.0, 0.0], (-127, -127)),
        ([0.0, 32768.0, -0.0, 0.0], (-127, 127)),
        ([-0.0, -0.0, 32768.0, -0.0], (127, -127)),
        ([0.0, 0.0, 0.0, 32768.0], (127, 127)),
        ([1e-45, 0.0, 0.0, 0.0], (-127, -127)),
        ([0.0, 0.0, 1e-45, 3e-45], (127, 63)),
        ([1e-45, 3e-45, 4e-45, 0.0], (42, -42)),
        ([1.1e-38, 1.2e-38, 1.3e-38, 1.4e-38], (18, 9)),
        ([1.0, 2.0, 3.0, 4.0], (63, 31)),
        ([4.0, 3.0, 2.0, 1.0], (-63, -31)),
        ([5.0, 5.0, 5.0, 5.0], (0, 0)),
        ([0.1, 0.2, 0.3, 0.7], (90, 72)),
        ([100.5, 200.25, 50.125, 12.0625], (-95, 63)),
        ([32767.998, 32768.0, 1.0, 0.5], (-126, 0)),
        ([1.0, 32768.0, 32767.998, 0.0], (0, 0)),
        ([0.001, 12345.678, 0.001, 12345.677], (0, 126)),
        ([3.0, 0.0, 0.0, 7.0], (72, 72)),
        ([127.0, 0.0, 126.0, 0.0], (-1, -127)),
        ([1e-30, 1e-38, 2e-30, 3e-45], (63, -127)),
        ([700.0, 0.0, 0.0, 300.0], (-72, -72)),
        ([6.0, 1.0, 49.0, 0.0], (111, -124)),
        (
            [10611.3516, 0.582787991, 7035.22998, 2972.48413],
            (-42, -91),
        ),
        (
            [31046.0312, 18910.5098, 0.419139057, 3859.81616],
            (-111, -49),
        ),
        (
            [0.383206069, 28926.7031, 4.45301056, 7288.61816],
            (-95, 126),
        ),
        (
            [0.900903106, 8.68363285, 0.211276367, 9.53455257],
            (11, 115),
        ),
        (
            [26870.3145, 17652.3613, 18618.8008, 0.689643025],
            (-39, -43),
        ),
    ];

    // Balances and their values, worked out in the same way.
    const BALANCES: [(f32, i8); 16] = [
        (0.0, 0),
        (-0.0, 0),
        (1.0, 127),
        (-1.0, -127),
        (0.5, 63),
        (-0.5, -63),
        (0.99999994, 126),
        (-0.99999994, -126),
        (0.0078740155, 1),
        (0.00787, 0),
        (-1e-45, 0),
        (0.2519685, 32),
        (0.25196847, 31),
        (-0.75, -95),
        (0.1, 12),
        (-0.9, -114),
    ];

    // The floats next to 0 and to 32768, and what is no finite number.
    const NO_LEVELS: [f32; 6] = [
        -1e-45,
        32768.004,
        -1.0,
        f32::INFINITY,
        f32::NEG_INFINITY,
        f32::NAN,
    ];

    // The floats next to -1 and to 1, and what is no finite number.
    const NO_BALANCES: [f32; 5] = [
        -1.0000001,
        1.0000001,
        f32::INFINITY,
        f32::NEG_INFINITY,
        f32::NAN,
    ];

    fn levels([hz400, hz600, hz800, hz1000]: [f32; 4]) -> Result<(i8, i8), Refusal> {
        let levels = Levels {
            hz400,
            hz600,
            hz800,
            hz1000,
        };
        Reading::Levels(levels).values()
    }

    #[test]
    fn worked_levels(rt: HostRuntime) {
        for (each, pair) in LEVELS {
            assert_eq!(rt; levels(each), Ok(pair));
        }
    }

    #[test]
    fn worked_balances(rt: HostRuntime) {
        for (x, value) in BALANCES {
            assert_eq!(rt; Reading::Balance(x, 1.0).values(), Ok((value, 127)));
            assert_eq!(rt; Reading::Balance(-1.0, x).values(), Ok((-127, value)));
        }
        assert_eq!(rt; Reading::Lost.values(), Ok((0, 0)));
    }

    #[test]
    fn outside_the_ranges(rt: HostRuntime) {
        let refused = Err(Refusal::ReadingOutOfRange);
        for x in NO_LEVELS {
            assert_eq!(rt; levels([x, 1.0, 1.0, 1.0]), refused);
            assert_eq!(rt; levels([1.0, x, 1.0, 1.0]), refused);
            assert_eq!(rt; levels([1.0, 1.0, x, 1.0]), refused);
            assert_eq!(rt; levels([0.0, 0.0, 0.0, x]), refused);
        }
        for x in NO_BALANCES {
            assert_eq!(rt; Reading::Balance(x, 0.0).values(), refused);
            assert_eq!(rt; Reading::Balance(0.0, x).values(), refused);
        }
    }
}
