// Whole histories: a list of calls played on a receiver, each answer being the one that the rules give.
ghost use Rattle.std.specs.Prelude.{◌≡◌, true, map, length, is_ok, if◌then◌else◌, Ok, nat_lt};
ghost use Rattle.refusal.specs.declared.Refusal.TheVariants.{MemoryTooShort};
ghost use Rattle.refusal.specs.Answer.{refused_when, after};
ghost use Rattle.receiver.specs.State.{opened, capacity};
ghost use Rattle.receiver.specs.Held.{room, held, Follows};
ghost use Rattle.receiver.specs.History.{reply, replies, memory_after, as_request, as_reply, Lawful};

use crate::memory::Receiver;
use refusal::Refusal;
use stage::MarkedStage;

// A call of a receiver. The piles of one list have one type: stages of two types mix as a stage that is one of two.
#[derive_where(Clone, Copy)]
pub enum Call<'c, M> {
    Begin,
    Hear(&'c [i8]),
    Lose { place: usize, n: usize },
    Find { pile: &'c M, m: usize },
}

// What an accepted call answers: a case for each kind of answer, and no `Option`, whose `None` would read as a refusal.
#[derive(Clone, Copy, PartialEq, Eq, Debug)]
pub enum Accepted {
    Done,
    // fields lie in this order: with the fit before the start an answer takes 24 octets, and else 32
    Found { fit: i32, start: usize },
}

// What a call answers.
pub type Answer = Result<Accepted, Refusal>;

impl<'a> Receiver<'a> {
    // Makes a call.
    fn answer<M: MarkedStage>(&mut self, call: &Call<M>) -> Answer
        ensures answer { as_reply result ≡ reply (room self.old) (held self.old) (as_request M.Stage.meaning M.MarkedStage.markers call.now) }
        ensures after { Follows self.old (as_request M.Stage.meaning M.MarkedStage.markers call.now) self.new }
    {
        match *call {
            Call::Begin => {
                self.begin();
                Ok(Accepted::Done)
            }
            Call::Hear(heard) => self.hear(heard).map(|()| Accepted::Done),
            Call::Lose { place, n } => self.lose(place, n).map(|()| Accepted::Done),
            Call::Find { pile, m } => self
                .find(pile, m)
                .map(|(start, fit)| Accepted::Found { start, fit }),
        }
    }
}

// Opens a receiver over this memory and makes the calls in their order. The answers go into the first places.
pub fn play<M: MarkedStage>(
    memory: &mut [i8],
    calls: &[Call<M>],
    answers: &mut [Answer],
) -> Result<(), Refusal>
    ensures answer { result ≡ refused_when (nat_lt (length answers.old) (length calls.now)) MemoryTooShort (Ok tt) }
    ensures answers { map as_reply answers.new ≡ after result (replies (capacity (length memory.old)) opened (map (as_request M.Stage.meaning M.MarkedStage.markers) calls.now)) (map as_reply answers.old) }
    ensures memory { memory.new ≡ (if is_ok result then memory_after (capacity (length memory.old)) opened memory.old (map (as_request M.Stage.meaning M.MarkedStage.markers) calls.now) else memory.old) }
    ensures law { is_ok result ≡ true → Lawful (capacity (length memory.old)) (map (as_request M.Stage.meaning M.MarkedStage.markers) calls.now) (map as_reply answers.new) }
{
    if answers.len() < calls.len() {
        return Err(Refusal::MemoryTooShort);
    }
    let mut receiver = Receiver::open(memory);
    // by index: of answers written through `iter_mut` under a `zip` no proof knows what they became
    for (i, call) in calls.iter().enumerate() {
        answers[i] = receiver.answer(call);
    }
    Ok(())
}
