// The one place that says how the layers are printed.
ghost use Rattle.std.specs.Prelude.{◌<◌};

use crate::outgoing::Outgoing;
use std::fmt;
use tone::Tone;

// A text with its octets, coded bits, elements and tones.
#[derive(Drop)]
pub struct Report<'a>(pub &'a Outgoing);

impl fmt::Display for Report<'_> {
    fn fmt<W: fmt::Write>(&self, f: &mut fmt::Formatter<W>) -> fmt::Result {
        let text = self.0.text.as_slice();
        let coded = self.0.coded.as_slice();
        let burst = self.0.burst.as_slice();
        writeln!(f, "octets: {}", text.len())?;
        for line in text.chunks(16) {
            writeln!(f, " {}", Octets(line))?;
        }
        // the four bits of a step together
        writeln!(f, "coded bits: {}", coded.len())?;
        for line in coded.chunks(32) {
            write_marks(f, line, 4, |bit| if *bit { '1' } else { '0' })?;
        }
        // eight together, a mute as a dot; they stand in memory as octets
        writeln!(f, "elements: {}", burst.len())?;
        for line in burst.chunks(64) {
            write_marks(f, line, 8, |element| match element {
                0 => '0',
                1 => '1',
                _ => '.',
            })?;
        }
        writeln!(f, "tones: {}", self.0.frames())?;
        for line in burst.chunks(32) {
            writeln!(f, " {}", Tones(line))?;
        }
        Ok(())
    }
}

// Writes a line of marks, so many together.
fn write_marks<T, W: fmt::Write, M: Fn(&T) -> char>(
    f: &mut fmt::Formatter<W>,
    line: &[T],
    together: usize,
    mark: M,
) -> fmt::Result
    requires some { 0 < together }
    requires callable { M.IsAlwaysCallable mark }
{
    f.write_str(" ")?;
    for group in line.chunks(together) {
        f.write_str(" ")?;
        for item in group {
            f.write_char(mark(item))?;
        }
    }
    f.write_str("\n")
}

// Octets in hexadecimal.
#[derive(Drop)]
struct Octets<'a>(&'a [u8]);

impl fmt::Display for Octets<'_> {
    fn fmt<W: fmt::Write>(&self, f: &mut fmt::Formatter<W>) -> fmt::Result {
        for octet in self.0 {
            write!(f, " {octet:02X}")?;
        }
        Ok(())
    }
}

// The frequency of each frame in hertz; silence is 0.
#[derive(Drop)]
struct Tones<'a>(&'a [u8]);

impl fmt::Display for Tones<'_> {
    fn fmt<W: fmt::Write>(&self, f: &mut fmt::Formatter<W>) -> fmt::Result {
        let (pairs, _) = self.0.as_chunks::<2>();
        for [first, second] in pairs {
            let hertz = Tone::of(*first, *second).frequency();
            write!(f, " {hertz:>4}")?;
        }
        Ok(())
    }
}
