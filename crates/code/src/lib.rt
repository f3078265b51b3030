// Octets to bits, and bits to coded bits: a convolutional code of rate 1/4 with a memory of four bits.
#![tactic(auto)]

ghost use Rattle.std.specs.Prelude.{◌≡◌, ℕ, ◌+◌, ◌*◌, Bool, false, List, map, length, Ok};
ghost use Rattle.refusal.specs.Answer.{after, text_checked};
ghost use Rattle.code.specs.Coder.{before, bit, coded_bits, coded_bit_answer, coded_count, encode_answer};
ghost use Rattle.code.specs.Register.{latest, shifted_in, four_sums};

use refusal::Refusal;
use std::array;

// The greatest number of octets of a text.
pub const LONGEST_TEXT: usize = 240;

// How many coded bits a step sends.
const SUMS: usize = 4;

// How many zero bits follow a text: they empty the register's memory.
const TAIL: usize = 4;

// Refuses a number of octets that no text has.
pub fn check_length(m: usize) -> Result<(), Refusal>
    ensures { result ≡ text_checked m (Ok tt) }
{
    if m == 0 {
        return Err(Refusal::EmptyText);
    }
    if m > LONGEST_TEXT {
        return Err(Refusal::TextTooLong);
    }
    Ok(())
}

// How many coded bits a text of m octets has.
pub fn coded_count(m: usize) -> Result<usize, Refusal>
    ensures { result ≡ text_checked m (Ok (coded_count m)) }
{
    check_length(m)?;
    Ok(SUMS * (8 * m + TAIL))
}

// The bit of the text that is sent at step k; zero bits follow the last octet.
pub fn bit_at(text: &[u8], k: usize) -> bool
    ensures { result ≡ bit text.now k }
{
    text.get(k / 8)
        .is_some_and(|octet| (*octet >> (k % 8)) & 1 == 1)
}

// The bit d steps before step k; zero bits stand before the first.
fn bit_before(text: &[u8], k: usize, d: usize) -> bool
    ensures { result ≡ before (bit text.now) k d }
{
    k.checked_sub(d).is_some_and(|step| bit_at(text, step))
}

// The coder's shift register: the last five bits, the newest first.
#[derive(Clone, Copy, PartialEq, Eq, Default, Debug)]
pub struct Register {
    pub bits: [bool; 5],
}

impl Register {
    // The register as step k of the text leaves it.
    pub fn at(text: &[u8], k: usize) -> Register
        ensures { result.bits ≡ latest (bit text.now) k }
    {
        Register {
            bits: array::from_fn(|d| bit_before(text, k, d)),
        }
    }

    // The register after one more bit.
    pub fn shifted(self, bit: bool) -> Register
        ensures { result.bits ≡ shifted_in bit self.bits }
    {
        let [b0, b1, b2, b3, _] = self.bits;
        Register {
            bits: [bit, b0, b1, b2, b3],
        }
    }

    // The four coded bits of the step whose bit came last.
    pub fn sums(self) -> [bool; 4]
        ensures { result ≡ four_sums self.bits }
    {
        let [b0, b1, b2, b3, b4] = self.bits;
        [
            b0 ^ b2 ^ b4,
            b0 ^ b2 ^ b3 ^ b4,
            b0 ^ b1 ^ b3 ^ b4,
            b0 ^ b1 ^ b2 ^ b3 ^ b4,
        ]
    }
}

// The coded bit of the text at index i, in constant time.
pub fn coded_bit(text: &[u8], i: usize) -> Result<bool, Refusal>
    ensures { result ≡ coded_bit_answer text.now i }
{
    if i >= coded_count(text.len())? {
        return Err(Refusal::NoSuchPlace);
    }
    let sums = Register::at(text, i / SUMS).sums();
    Ok(sums[i % SUMS])
}

// Writes the coded bits of the text into the first places of `out`, in one pass, and answers how many there are.
pub fn encode(text: &[u8], out: &mut [bool]) -> Result<usize, Refusal>
    ensures answer { result ≡ encode_answer text.now (length out.old) }
    ensures memory { out.new ≡ after result (coded_bits text.now) out.old }
{
    let count = coded_count(text.len())?;
    if out.len() < count {
        return Err(Refusal::MemoryTooShort);
    }
    let mut register = Register::default();
    // By place: of what is written through `chunks_exact_mut` or `as_chunks_mut` a proof knows nothing after the loop, and
    // to copy the four as a slice takes twice the time.
    for k in 0..count / SUMS {
        register = register.shifted(bit_at(text, k));
        let [s0, s1, s2, s3] = register.sums();
        out[SUMS * k] = s0;
        out[SUMS * k + 1] = s1;
        out[SUMS * k + 2] = s2;
        out[SUMS * k + 3] = s3;
    }
    Ok(count)
}

#[cfg(test)]
mod tests;
