// Elements to tones: two elements sound for five milliseconds at one of four frequencies.
#![tactic(auto)]

ghost use Rattle.std.specs.Prelude.{◌≡◌, ℕ, ◌+◌, ◌/◌, ◌<◌, ◌≤◌, map, length, Ok};
ghost use Rattle.std.specs.List.{range_with_len};
ghost use Rattle.refusal.specs.Answer.{after, refused_when};
ghost use Rattle.refusal.specs.declared.Refusal.TheVariants.{BadElements};
ghost use Rattle.tone.specs.Tones.{hertz, tone_sample, tone_of, sample, samples, bad, play_answer};

use refusal::Refusal;
use std::array;

// The tone of one frame, with its frequency in hertz.
#[derive(Clone, Copy, PartialEq, Eq, Debug)]
pub enum Tone {
    Silence = 0,
    Hz400 = 400,
    Hz600 = 600,
    Hz800 = 800,
    Hz1000 = 1000,
}

// One period of the sine in 40 steps, eight times its rounded values at an amplitude of 2047.
const PERIOD: [i16; 40] = [
    0, 2560, 5064, 7432, 9624, 11576, 13248, 14592, 15576, 16176, 16376, 16176, 15576, 14592,
    13248, 11576, 9624, 7432, 5064, 2560, 0, -2560, -5064, -7432, -9624, -11576, -13248, -14592,
    -15576, -16176, -16376, -16176, -15576, -14592, -13248, -11576, -9624, -7432, -5064, -2560,
];

// How many samples a frame of two elements sounds for.
pub const FRAME: usize = 40;

// The mute among elements, which are octets since the memory that callers lend holds octets: 0, 1 and this.
const MUTE: u8 = 2;

impl Tone {
    // The tone of a pair of elements: two mutes are silence, and a single mute is read as 1. It takes any two octets, as
    // callers may hand it any.
    pub fn of(first: u8, second: u8) -> Tone
        ensures { result ≡ tone_of first second }
    {
        match (first, second) {
            (MUTE, MUTE) => Tone::Silence,
            (0, 0) => Tone::Hz400,
            (0, _) => Tone::Hz600,
            (_, 0) => Tone::Hz800,
            (_, _) => Tone::Hz1000,
        }
    }

    // Its frequency in hertz, 0 for silence.
    pub fn frequency(self) -> u16
        ensures { result ≡ hertz self }
    {
        self as u16
    }

    // How many steps of the period one sample goes on.
    fn stride(self) -> usize
        ensures { result ≡ hertz self / 200 }
    {
        usize::from(self.frequency() / 200)
    }

    // Its sample k, each frame starting at the period's start.
    fn sample(self, k: usize) -> i16
        requires { k < 40 }
        ensures { result ≡ tone_sample self k }
    {
        PERIOD[self.stride() * k % PERIOD.len()]
    }

    // The samples of its frame.
    fn samples(self) -> [i16; FRAME]
        ensures { result ≡ map (tone_sample self) (range_with_len 0 40) }
    {
        array::from_fn(|k| self.sample(k))
    }
}

// Refuses elements that cannot be played: an odd count, or an octet above 2.
pub fn check_elements(elements: &[u8]) -> Result<(), Refusal>
    ensures { result ≡ refused_when (bad elements.now) BadElements (Ok tt) }
{
    if elements.len() % 2 == 1 || elements.iter().any(|element| *element > MUTE) {
        return Err(Refusal::BadElements);
    }
    Ok(())
}

// Writes the samples of the elements into the first places of `out` and answers how many there are.
pub fn play(elements: &[u8], out: &mut [i16]) -> Result<usize, Refusal>
    ensures answer { result ≡ play_answer elements.now (length out.old) }
    ensures memory { out.new ≡ after result (samples elements.now) out.old }
{
    check_elements(elements)?;
    let (pairs, _) = elements.as_chunks::<2>();
    if out.len() / FRAME < pairs.len() {
        return Err(Refusal::MemoryTooShort);
    }
    // By its place: of what is written through `chunks_exact_mut` a proof knows nothing after the loop. Each writer has its
    // own such loop, since one for all would take the block by a closure and promise what the closure does.
    for (frame, [first, second]) in pairs.iter().enumerate() {
        let samples = Tone::of(*first, *second).samples();
        out[FRAME * frame..FRAME * frame + FRAME].copy_from_slice(&samples);
    }
    Ok(FRAME * pairs.len())
}

#[cfg(test)]
mod tests;
