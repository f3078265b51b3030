// The values file: what a burst at full strength is as values, a line for the text's length and a line a frame.
#![tactic(auto)]

ghost use Rattle.std.specs.Prelude.{◌≡◌, ◌<◌, length};
ghost use Rattle.refusal.specs.Answer.{after};
ghost use Rattle.values_file.specs.Values.{digit as digit_of, two_digits, value_octet, first_line as line_for, line_of, values_file, write_answer};

use code::check_length;
use refusal::Refusal;
use tone::check_elements;

// The most frame lines of a file.
pub const MOST_FRAMES: usize = 16_384;

// How many characters the first line has.
pub const FIRST_LINE: usize = 3;

// How many characters the line of a frame has.
pub const FRAME_LINE: usize = 5;

// The character of a hexadecimal digit. `char::from_digit` gives the small letters.
fn digit(n: u8) -> u8
    requires { n < 16 }
    ensures { result ≡ digit_of n }
{
    match n {
        0..=9 => b'0' + n,
        _ => b'A' + (n - 10),
    }
}

// An octet in two digits.
fn digits(octet: u8) -> [u8; 2]
    ensures { result ≡ two_digits octet }
{
    [digit(octet / 16), digit(octet % 16)]
}

// The full-strength value of an element, as an octet in two's complement. Elements are lent as octets: 0, 1 and a mute.
fn full_strength(element: u8) -> u8
    ensures { result ≡ value_octet element }
{
    match element {
        0 => 0x81,
        1 => 0x7f,
        _ => 0x00,
    }
}

// The first line, for a text of m octets.
fn first_line(m: u8) -> [u8; FIRST_LINE]
    ensures { result ≡ line_for m }
{
    let [a, b] = digits(m);
    [a, b, b'\n']
}

// The line of a frame.
fn frame_line(first: u8, second: u8) -> [u8; FRAME_LINE]
    ensures { result ≡ line_of first second }
{
    let [a, b] = digits(full_strength(first));
    let [c, d] = digits(full_strength(second));
    [a, b, c, d, b'\n']
}

// Writes the values file of a text of m octets and its burst's elements into the first places of `out`, and
// answers its length.
pub fn write_values(m: usize, elements: &[u8], out: &mut [u8]) -> Result<usize, Refusal>
    ensures answer { result ≡ write_answer m elements.now (length out.old) }
    ensures memory { out.new ≡ after result (values_file m elements.now) out.old }
{
    check_length(m)?;
    check_elements(elements)?;
    let (pairs, _) = elements.as_chunks::<2>();
    if pairs.len() > MOST_FRAMES {
        return Err(Refusal::BadLine);
    }
    let size = FIRST_LINE + FRAME_LINE * pairs.len();
    if out.len() < size {
        return Err(Refusal::MemoryTooShort);
    }
    // The cast is proved to lose nothing, where `u8::try_from` would need an answer for what cannot be.
    out[0..FIRST_LINE].copy_from_slice(&first_line(m as u8));
    // By its place: of what is written through `chunks_exact_mut` a proof knows nothing after the loop. Each writer has its
    // own such loop, since one for all would take the block by a closure and promise what the closure does.
    for (frame, [first, second]) in pairs.iter().enumerate() {
        let start = FIRST_LINE + FRAME_LINE * frame;
        let line = frame_line(*first, *second);
        out[start..start + FRAME_LINE].copy_from_slice(&line);
    }
    Ok(size)
}

#[cfg(test)]
mod tests;
