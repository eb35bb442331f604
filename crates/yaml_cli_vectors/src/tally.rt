//! How many lines passed, and the report of those that failed.

// How many lines that fail are shown.
const SHOWN: u64 = 20;

/// The lines so far.
#[derive(Clone, Copy, Default)]
pub struct Tally {
    pub passed: u64,
    pub failed: u64,
}

impl Tally {
    /// Counts a line that failed, and shows it where it is one of the first: what is wrong, of what, and what was answered.
    pub fn tell(&mut self, rt: &HostRuntime, what: &str, of: &str, answered: &str) {
        self.failed = self.failed.wrapping_add(1);
        if self.failed <= SHOWN {
            let number = self.passed.wrapping_add(self.failed);
            // It is counted, whether or not it can be shown.
            let _ = println!(rt; "line {number}: {what}{of}{answered}");
        }
    }
}
