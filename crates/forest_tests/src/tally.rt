// What came of events.
use crate::shown::Shown;
use shadow_forest::{CommitRefusal, Did, Forest, Given, Job, Stepped, WithdrawRefusal};

/// How many events were refused, by the cause.
#[derive(Clone, Copy, Debug, PartialEq, Eq)]
pub struct Refused {
    pub sealed: u32,
    pub unknown: u32,
    pub not_started: u32,
    pub no_shadow: u32,
    pub ended: u32,
    pub blocked: u32,
    pub not_ended: u32,
}

/// What came of the events.
#[derive(Clone, Copy, Debug, PartialEq, Eq)]
pub struct Tally {
    pub refused: Refused,
    /// How many steps shadows of guards made one by one.
    pub waited: u32,
    /// How many steps runs made.
    pub ran: u64,
    /// How many steps under a gate did something.
    pub gated: u32,
    /// How many jobs were taken, and how many steps they made.
    pub taken: u32,
    pub local: u32,
    /// How many were stored, and how many were gone.
    pub stored: u32,
    pub gone: u32,
    /// How many transactions were taken back to their starts.
    pub restarted: u32,
    /// How many were taken back to a later position.
    pub resumed: u32,
    /// How many transactions had waited and were started.
    pub started: u32,
    /// How many were withdrawn.
    pub withdrawn: u32,
    /// How many were committed before the drain.
    pub committed: u32,
    /// The positions of all shadows after each event, added up.
    pub stood: u32,
}

/// Nothing came of no events.
pub const NOTHING: Tally = Tally {
    refused: Refused {
        sealed: 0,
        unknown: 0,
        not_started: 0,
        no_shadow: 0,
        ended: 0,
        blocked: 0,
        not_ended: 0,
    },
    waited: 0,
    ran: 0,
    gated: 0,
    taken: 0,
    local: 0,
    stored: 0,
    gone: 0,
    restarted: 0,
    resumed: 0,
    started: 0,
    withdrawn: 0,
    committed: 0,
    stood: 0,
};

impl Tally {
    /// A begin that the seal refused.
    pub fn sealed(&mut self) {
        one_more(&mut self.refused.sealed);
    }

    pub fn stepped(&mut self, answer: Stepped, waiting: bool) {
        match answer {
            Stepped::Stepped { .. } => {
                if waiting {
                    one_more(&mut self.waited);
                }
            }
            Stepped::Unknown => one_more(&mut self.refused.unknown),
            Stepped::NotStarted => one_more(&mut self.refused.not_started),
            Stepped::NoShadow => one_more(&mut self.refused.no_shadow),
            Stepped::Ended => one_more(&mut self.refused.ended),
            Stepped::Blocked => one_more(&mut self.refused.blocked),
        }
    }

    pub fn committed(&mut self, answer: Result<(), CommitRefusal>, forest: &Forest) {
        match answer {
            Ok(()) => {
                one_more(&mut self.committed);
                self.end(forest);
            }
            Err(CommitRefusal::Unknown) => one_more(&mut self.refused.unknown),
            Err(CommitRefusal::NotStarted) => one_more(&mut self.refused.not_started),
            Err(CommitRefusal::NotEnded) => one_more(&mut self.refused.not_ended),
        }
    }

    pub fn withdrew(&mut self, answer: Result<(), WithdrawRefusal>, forest: &Forest) {
        match answer {
            Ok(()) => {
                one_more(&mut self.withdrawn);
                self.end(forest);
            }
            Err(WithdrawRefusal::Unknown) => one_more(&mut self.refused.unknown),
            Err(WithdrawRefusal::Sealed) => one_more(&mut self.refused.sealed),
        }
    }

    pub fn ran(&mut self, made: u64) {
        self.ran = self.ran.wrapping_add(made);
    }

    pub fn gated(&mut self, did: Did, forest: &Forest) {
        match did {
            Did::Committed { .. } => {
                one_more(&mut self.gated);
                one_more(&mut self.committed);
                self.end(forest);
            }
            Did::Stepped { .. } => one_more(&mut self.gated),
            Did::Nothing => {}
        }
    }

    pub fn took(&mut self, job: Option<Job>) {
        if job.is_some() {
            one_more(&mut self.taken);
        }
    }

    pub fn went_on(&mut self, made: u32) {
        self.local = self.local.wrapping_add(made);
    }

    pub fn gave(&mut self, given: Given) {
        match given {
            Given::Stored => one_more(&mut self.stored),
            Given::Gone => one_more(&mut self.gone),
        }
    }

    /// How the shadows stand after an event.
    pub fn look(&mut self, shown: &Shown) {
        self.stood = self.stood.wrapping_add(shown.stood());
    }

    // What the end of a transaction did to the others.
    fn end(&mut self, forest: &Forest) {
        if forest.started().is_some() {
            one_more(&mut self.started);
        }
        for resumed in forest.resumed() {
            if resumed.position == 0 {
                one_more(&mut self.restarted);
            } else {
                one_more(&mut self.resumed);
            }
        }
    }
}

fn one_more(count: &mut u32) {
    *count = count.wrapping_add(1);
}
