// Whether the far end can hear us: the states of a line, and the acknowledgements that it owes.
#![tactic(auto)]

ghost use Rattle.std.specs.Prelude.{◌≡◌};
ghost use Rattle.character.specs.Reader.{holds_enquiry};
ghost use Rattle.negotiation.specs.declared.State.TheVariants.{New as NewLine, Asking as AskingLine, Known as KnownLine};
ghost use Rattle.negotiation.specs.declared.Wanted.TheVariants.{EnquiryBurst};
ghost use Rattle.negotiation.specs.Calls.{Outcome};
ghost use Rattle.negotiation.specs.Steps.{Room, counted, stepped};
ghost use Rattle.negotiation.specs.Transitions.{ticked, starts_try, wanted, is_known, calls_for_one, due_of, settled};

use character::holds_enquiry;

// How many milliseconds a try lasts.
pub const TRY_MILLISECONDS: u32 = 1320;

// How many tries are made.
pub const TRIES: u8 = 3;

// What a line knows of its far end.
#[derive(Clone, Copy, PartialEq, Eq, Debug, Default)]
pub enum State {
    // nothing was sent or heard
    #[default]
    New,
    // we ask: which try it is, from 1, and the milliseconds in it
    Asking { attempt: u8, milliseconds: u32 },
    // the far end was heard
    Known,
    // three tries stayed without an answer
    Clear,
}

// What a call wants sent, where it wants anything.
#[derive(Clone, Copy, PartialEq, Eq, Debug)]
pub enum Wanted {
    EnquiryBurst,
}

// What an acknowledgement is made of.
#[derive(Clone, Copy, PartialEq, Eq, Debug)]
pub enum Acknowledgement {
    Idle,
    Text,
}

// An acknowledgement that is due. It is neither copied nor let go: only settling ends it.
pub struct Due {
    owed: (),
}

impl Due {
    // Settles the due: the text that waits acknowledges, else an idle does.
    pub fn settle(self, waiting: bool) -> Acknowledgement
        ensures { result ≡ settled waiting }
    {
        let Due { owed: () } = self;
        if waiting {
            Acknowledgement::Text
        } else {
            Acknowledgement::Idle
        }
    }
}

// One line.
#[derive(Drop)]
pub struct Line {
    state: State,
}

impl Line {
    // A line on which nothing was sent or heard.
    pub fn open() -> Line
        ensures { result.state ≡ NewLine }
    {
        Line {
            state: State::default(),
        }
    }

    // What the line knows of its far end.
    pub fn state(&self) -> State
        ensures { result ≡ self.now.state }
    {
        self.state
    }

    // So many milliseconds have passed, and text waits or not. Says what is wanted: an enquiry burst, where a try starts.
    pub fn tick(&mut self, milliseconds: u32, waiting: bool) -> Option<Wanted>
        ensures after { self.new.state ≡ ticked self.old.state milliseconds waiting }
        ensures value { result ≡ wanted (starts_try self.old.state milliseconds waiting) }
    {
        match self.state {
            State::New if waiting => Some(self.start(1)),
            State::Asking {
                attempt,
                milliseconds: before,
            } => {
                let sum = before.saturating_add(milliseconds);
                if sum < TRY_MILLISECONDS {
                    self.state = State::Asking {
                        attempt,
                        milliseconds: sum,
                    };
                    None
                } else if attempt < TRIES {
                    Some(self.start(attempt + 1))
                } else {
                    self.state = State::Clear;
                    None
                }
            }
            _ => None,
        }
    }

    // Starts a try.
    fn start(&mut self, attempt: u8) -> Wanted
        ensures after { self.new.state ≡ AskingLine attempt 0 }
        ensures value { result ≡ EnquiryBurst }
    {
        self.state = State::Asking {
            attempt,
            milliseconds: 0,
        };
        Wanted::EnquiryBurst
    }

    // A burst was heard. Gives out the acknowledgement that it calls for, if it does.
    pub fn hear(&mut self, burst: &[u8]) -> Option<Due>
        ensures after { self.new.state ≡ KnownLine }
        ensures value { result ≡ due_of (calls_for_one (holds_enquiry burst.now) (is_known self.old.state)) }
    {
        let first = self.state != State::Known;
        self.state = State::Known;
        (holds_enquiry(burst) || first).then(|| Due { owed: () })
    }
}

// A call to a line, as data.
#[derive(Clone, Copy)]
pub enum Call<'a> {
    // so many milliseconds have passed, and text waits or not
    Tick { milliseconds: u32, waiting: bool },
    // a burst was heard, and text waits or not when its due is settled
    Hear { burst: &'a [u8], waiting: bool },
}

// What a list of calls led to. It holds the state and no line, so that it can be copied and compared.
#[derive(Clone, Copy, PartialEq, Eq, Debug, Default)]
pub struct Played {
    pub state: State,
    pub tries: usize,
    pub idles: usize,
    pub texts: usize,
}

impl Played {
    // One acknowledgement more.
    fn count(&mut self, sent: Acknowledgement)
        requires { Room self.old }
        ensures { self.new ≡ counted self.old sent }
    {
        match sent {
            Acknowledgement::Idle => self.idles += 1,
            Acknowledgement::Text => self.texts += 1,
        }
    }

    // One call more.
    fn play(&mut self, call: &Call)
        requires { Room self.old }
        ensures { self.new ≡ stepped self.old call.now }
    {
        let mut line = Line { state: self.state };
        match *call {
            Call::Tick {
                milliseconds,
                waiting,
            } => {
                if line.tick(milliseconds, waiting).is_some() {
                    self.tries += 1;
                }
            }
            Call::Hear { burst, waiting } => {
                if let Some(due) = line.hear(burst) {
                    self.count(due.settle(waiting));
                }
            }
        }
        self.state = line.state;
    }

    // Plays a list of calls on a line that was just opened, and settles each due as it is given out.
    pub fn of(calls: &[Call]) -> Played
        ensures { Outcome calls.now result }
    {
        let line = Line::open();
        let mut played = Played {
            state: line.state,
            ..Played::default()
        };
        for call in calls {
            played.play(call);
        }
        played
    }
}

#[cfg(test)]
mod tests;
