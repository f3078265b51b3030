// The calls of a receiver. Each answers what the rules say, and a refused one leaves everything as found.
ghost use Rattle.std.specs.Prelude.{◌≡◌, ◌+◌};
ghost use Rattle.receiver.specs.State.{opened, hear_answer, lose_answer, find_answer, begins, hears, loses, finds};
ghost use Rattle.receiver.specs.Held.{memory_of, room, held, Follows};

use crate::memory::{GREATEST_CAPACITY, Receiver};
use code::coded_count;
use fit::best_start;
use refusal::Refusal;
use stage::MarkedStage;

impl<'a> Receiver<'a> {
    // A receiver over this memory, with no value heard.
    pub fn open(values: &'a mut [i8]) -> Receiver<'a>
        ensures state { held result ≡ opened }
        ensures memory { memory_of result ≡ values.old }
        ensures same { result.values.ghost_name ≡ values.entry.ghost_name }
    {
        Receiver {
            values,
            count: 0,
            start: 0,
        }
    }

    // Forgets every value.
    pub fn begin(&mut self)
        ensures { Follows self.old begins self.new }
    {
        self.count = 0;
        self.start = 0;
    }

    // How many more values can be heard.
    fn free(&self) -> usize
        ensures { result + self.now.count ≡ room self.now }
    {
        self.values.len().min(GREATEST_CAPACITY) - self.count
    }

    // Appends values, or none of them.
    pub fn hear(&mut self, heard: &[i8]) -> Result<(), Refusal>
        ensures answer { result ≡ hear_answer (room self.old) (held self.old) heard.now }
        ensures after { Follows self.old (hears heard.now) self.new }
    {
        // the exchange asks for this loop: each value is looked at before any is appended
        for value in heard {
            if *value == i8::MIN {
                return Err(Refusal::ValueOutOfRange);
            }
        }
        if heard.len() > self.free() {
            return Err(Refusal::CapacityExceeded);
        }
        let end = self.count + heard.len();
        self.values[self.count..end].copy_from_slice(heard);
        self.count = end;
        Ok(())
    }

    // Sets n values from a place on to 0: nothing is known of them.
    pub fn lose(&mut self, place: usize, n: usize) -> Result<(), Refusal>
        ensures answer { result ≡ lose_answer (held self.old) place n }
        ensures after { Follows self.old (loses place n) self.new }
    {
        // by a difference, since place + n may be more than a usize holds
        if place > self.count || n > self.count - place {
            return Err(Refusal::NoSuchPlace);
        }
        self.values[place..place + n].fill(0);
        Ok(())
    }

    // The values standing.
    fn standing(&self) -> &[i8]
        ensures { result.now ≡ (held self.now).standing }
    {
        &self.values[..self.count]
    }

    // Where a burst of m octets through a pile stands: the start is set to it, and answered with the fit there.
    pub fn find<M: MarkedStage>(&mut self, stage: &M, m: usize) -> Result<(usize, i32), Refusal>
        ensures answer { result ≡ find_answer (held self.old) (M.Stage.meaning stage.now) (M.MarkedStage.markers stage.now) m }
        ensures after { Follows self.old (finds (M.Stage.meaning stage.now) (M.MarkedStage.markers stage.now) m) self.new }
    {
        let n = coded_count(m)?;
        let (start, fit) = best_start(self.standing(), stage, n)?;
        self.start = start;
        Ok((start, fit))
    }
}
