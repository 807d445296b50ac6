//! How many cases pass.

/// How many cases passed, and how many differed.
#[derive(Clone, Copy)]
pub struct Tally {
    /// How many passed.
    pub passed: usize,
    /// How many differed.
    pub failed: usize,
}

impl Tally {
    /// Of no cases.
    pub fn new() -> Tally {
        Tally {
            passed: 0,
            failed: 0,
        }
    }

    /// Of these cases and others.
    pub fn with(self, other: Tally) -> Tally {
        Tally {
            passed: self.passed.saturating_add(other.passed),
            failed: self.failed.saturating_add(other.failed),
        }
    }

    /// Of one more case.
    pub fn and(self, passed: bool) -> Tally {
        if passed {
            self.with(Tally {
                passed: 1,
                failed: 0,
            })
        } else {
            self.with(Tally {
                passed: 0,
                failed: 1,
            })
        }
    }
}
