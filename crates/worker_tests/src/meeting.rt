// A gate at which two workers meet.
use scc_ports::Gate;
use std::sync::atomic::{AtomicU32, Ordering};
use std::thread;

/// How often a worker looks for the other one.
const MOST_LOOKS: u32 = 50_000_000;

/// After how many looks it lets others run.
const LOOKS_AT_ONCE: u32 = 1_000;

/// Whom each of the workers 0 and 1 had taken when it came first, and whether both were there at once.
#[derive(Drop)]
pub struct Meeting {
    first: AtomicU32,
    second: AtomicU32,
    met: AtomicU32,
}

impl Meeting {
    pub fn new() -> Meeting {
        Meeting {
            first: AtomicU32::new(0),
            second: AtomicU32::new(0),
            met: AtomicU32::new(0),
        }
    }

    /// Whether each worker waited until the other one came, with jobs of two transactions.
    pub fn have_met(&self) -> bool {
        self.met.load(Ordering::SeqCst) == 2
            && self.first.load(Ordering::SeqCst) != self.second.load(Ordering::SeqCst)
    }
}

impl Gate for Meeting {
    fn pass(&self, worker: u32, txn: u32) {
        let (mine, other) = if worker == 0 {
            (&self.first, &self.second)
        } else {
            (&self.second, &self.first)
        };
        if mine.load(Ordering::SeqCst) != 0 {
            return;
        }
        mine.store(txn, Ordering::SeqCst);
        for look in 0..MOST_LOOKS {
            if other.load(Ordering::SeqCst) != 0 {
                self.met.fetch_add(1, Ordering::SeqCst);
                return;
            }
            if look % LOOKS_AT_ONCE == 0 {
                thread::yield_now();
            }
        }
    }
}
