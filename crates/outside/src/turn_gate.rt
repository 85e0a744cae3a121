use crate::gate::Gate;
use std::sync::atomic::{AtomicBool, AtomicU64, Ordering};

/// How often a call looks at its flag before it goes on anyway.
const LOOKS: u64 = 1 << 28;

/// Lets a publication and the second query of a run take turns: a publication is held until query 2 asks to begin, and query 2 until a
/// publication has ended. No other query is held. So over two threads query 1 is answered before the publication, and query 2 after it.
#[derive(Drop)]
pub struct TurnGate {
    asked: AtomicBool,
    published: AtomicBool,
    ran_out: AtomicBool,
    first_version: AtomicU64,
    second_version: AtomicU64,
}

impl TurnGate {
    /// A gate that was notified of nothing. It takes no memory.
    pub fn new() -> TurnGate {
        TurnGate {
            asked: AtomicBool::new(false),
            published: AtomicBool::new(false),
            ran_out: AtomicBool::new(false),
            first_version: AtomicU64::new(0),
            second_version: AtomicU64::new(0),
        }
    }

    /// Whether some call had looked 2^28 times, and was held no longer.
    pub fn ran_out(&self) -> bool {
        self.ran_out.load(Ordering::SeqCst)
    }

    /// The version that was reported last for query 1 or 2, or 0 before one was. There is none for other queries: 0.
    pub fn answered_on(&self, n: u64) -> u64 {
        match n {
            1 => self.first_version.load(Ordering::SeqCst),
            2 => self.second_version.load(Ordering::SeqCst),
            _ => 0,
        }
    }

    fn wait_for(&self, flag: &AtomicBool) {
        for _ in 0..LOOKS {
            if flag.load(Ordering::SeqCst) {
                return;
            }
        }
        self.ran_out.store(true, Ordering::SeqCst);
    }
}

impl Gate for TurnGate {
    fn before_query(&self, n: u64) {
        if n == 2 {
            self.asked.store(true, Ordering::SeqCst);
            self.wait_for(&self.published);
        }
    }

    fn after_query(&self, n: u64, version: u64) {
        match n {
            1 => self.first_version.store(version, Ordering::SeqCst),
            2 => self.second_version.store(version, Ordering::SeqCst),
            _ => {}
        }
    }

    fn before_publish(&self, _n: u64) {
        self.wait_for(&self.asked);
    }

    fn after_publish(&self, _n: u64) {
        self.published.store(true, Ordering::SeqCst);
    }
}
