// Samples to a sound file that any player opens: RIFF/WAVE, 8,000 samples a second, 16 bits, one channel.
#![tactic(auto)]

ghost use Rattle.std.specs.Prelude.{◌≡◌, ◌+◌, ◌*◌, ◌^◌, ◌<◌, length};
ghost use Rattle.refusal.specs.Answer.{after};
ghost use Rattle.std.specs.Int.{w16};
ghost use Rattle.std.proofs.Common.{of_z};
ghost use Rattle.sound.specs.Wave.{header_of, two_octets, wave_file, wave_answer};

use refusal::Refusal;

// The most samples whose octets a header can tell.
const MOST_TOLD: usize = 2_147_483_629;

// How many octets a header has.
pub const HEADER: usize = 44;

// How many octets a sample has.
pub const SAMPLE: usize = 2;

// The header before so many octets of samples.
fn header(size: u32) -> [u8; HEADER]
    requires { size + 36 < 2 ^ 32 }
    ensures { result ≡ header_of size }
{
    let mut header =
        *b"RIFF....WAVEfmt \x10\0\0\0\x01\0\x01\0\x40\x1f\0\0\x80\x3e\0\0\x02\0\x10\0data....";
    header[4..8].copy_from_slice(&(size + 36).to_le_bytes());
    header[40..].copy_from_slice(&size.to_le_bytes());
    header
}

// A sample in two's complement, the lowest octet first.
fn octets(sample: i16) -> [u8; SAMPLE]
    ensures { result ≡ two_octets (of_z w16 sample) }
{
    sample.to_le_bytes()
}

// Writes the sound file of the samples into the first places of `out` and answers its length.
pub fn write_wave(samples: &[i16], out: &mut [u8]) -> Result<usize, Refusal>
    ensures answer { result ≡ wave_answer samples.now (length out.old) }
    ensures memory { out.new ≡ after result (wave_file samples.now) out.old }
{
    let count = samples.len();
    if out.len() < HEADER || (out.len() - HEADER) / SAMPLE < count {
        return Err(Refusal::MemoryTooShort);
    }
    // The cast is proved to lose nothing, where `u32::try_from` would need an answer for what cannot be.
    let told = count.min(MOST_TOLD) as u32;
    let header = header(2 * told);
    out[0..HEADER].copy_from_slice(&header);
    // By its place: of what is written through `chunks_exact_mut` a proof knows nothing after the loop. Each writer has its
    // own such loop, since one for all would take the block by a closure and promise what the closure does.
    for (i, sample) in samples.iter().enumerate() {
        let start = HEADER + SAMPLE * i;
        out[start..start + SAMPLE].copy_from_slice(&octets(*sample));
    }
    Ok(HEADER + SAMPLE * count)
}

#[cfg(test)]
mod tests;
