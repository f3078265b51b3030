// A text and what it becomes, layer by layer.
ghost use Rattle.std.specs.Prelude.{◌≡◌, ◌/◌, vec_len};

use refusal::Refusal;
use sound::{HEADER, SAMPLE, write_wave};
use stage::Stage;
use std::alloc::{AllocError, Global};
use thiserror::Error;
use tone::FRAME;
use usual::usual_pile;
use values_file::{FIRST_LINE, FRAME_LINE, write_values};

#[derive(Drop)]
pub struct Outgoing {
    pub text: Vec<u8>,
    pub coded: Vec<bool>,
    pub burst: Vec<u8>,
}

impl Outgoing {
    // Takes a text through the coder and the standard pile.
    pub fn of(heap: Global, text: Vec<u8>) -> Result<Outgoing, Failure> {
        let count = code::coded_count(text.len())?;
        let mut coded = vec![in heap; false; count]?;
        code::encode(&text, &mut coded)?;
        let pile = usual_pile();
        let length = pile.length(count)?;
        let mut burst = vec![in heap; 0; length]?;
        transmitter::write(&pile, &text, &mut burst)?;
        Ok(Outgoing { text, coded, burst })
    }

    // The values file of the burst at full strength.
    pub fn values(&self, heap: Global) -> Result<Vec<u8>, Failure> {
        let lines = self.frames().saturating_mul(FRAME_LINE);
        let mut file = vec![in heap; 0; lines.saturating_add(FIRST_LINE)]?;
        write_values(self.text.len(), &self.burst, &mut file)?;
        Ok(file)
    }

    // The burst as a sound file.
    pub fn sound(&self, heap: Global) -> Result<Vec<u8>, Failure> {
        let mut samples = vec![in heap; 0; self.frames().saturating_mul(FRAME)]?;
        tone::play(&self.burst, &mut samples)?;
        let octets = samples.len().saturating_mul(SAMPLE);
        let mut file = vec![in heap; 0; octets.saturating_add(HEADER)]?;
        write_wave(&samples, &mut file)?;
        Ok(file)
    }

    // How many frames of two elements the burst has.
    pub fn frames(&self) -> usize
        ensures { result ≡ vec_len self.now.burst / 2 }
    {
        self.burst.len() / 2
    }
}

// Why a text did not get through.
#[derive(Debug, Drop, Error)]
pub enum Failure {
    // by its number and its sentence
    #[error("refused {}: {}", .0.number(), .0)]
    Refused(#[from] Refusal),
    #[error("out of memory")]
    Memory(#[from] AllocError),
}
