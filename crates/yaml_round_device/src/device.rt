//! What gives bytes, and what takes them.

ghost use Rattle.std.specs.Prelude.{◌≡◌, ℕ, List, Option, Bool, true, false, ◌<◌, ◌≤◌, length, Ok, IfOk, MatchResult};
ghost use Rattle.std.specs.Io.KnownBytes.{Keeps, ReadConsumes, WriteAppends};
ghost use Rattle.yaml_round_device.specs.Counts.{counted};

/// A device has failed. Why isn't known.
#[derive(Clone, Copy, PartialEq, Eq, Debug)]
pub struct yaml_device_fault_t;

/// A source of bytes. Its meaning is the bytes to come, where they are known, how many it has
/// given, and whether it has failed.
pub trait yaml_input_t {
    // The bytes to come, where they are known.
    ghost to_come: { Self → Option (List ℕ) };

    // How many bytes it has given, of which 2^64 - 1 are counted.
    ghost given: { Self → ℕ };

    // Whether it has failed.
    ghost has_failed: { Self → Bool };

    /// Puts the next bytes at the front of `buf` and answers how many, 0 only at the end or where `buf` has no room.
    /// An error takes no byte, and the device has failed from then on.
    fn get(&mut self, buf: &mut [u8]) -> Result<usize, yaml_device_fault_t>
        ensures bound { IfOk result (λ n. n ≤ length buf.new) }
        ensures bytes { ReadConsumes (to_come self.old) (to_come self.new) result buf.new }
        ensures count { MatchResult result (λ n. given self.new ≡ counted (given self.old) n)
            (λ _. given self.new ≡ given self.old) }
        ensures failure { MatchResult result (λ _. has_failed self.new ≡ has_failed self.old)
            (λ _. has_failed self.new ≡ true) };
}

/// A sink of bytes. Its meaning is the bytes received, where they are known, whether it has failed,
/// and whether what it received was passed on.
pub trait yaml_output_t {
    // The bytes received, where they are known.
    ghost received: { Self → Option (List ℕ) };

    // Whether it has failed.
    ghost has_failed: { Self → Bool };

    // Whether it was finished, and has taken nothing since.
    ghost is_finished: { Self → Bool };

    /// Takes a front of `piece` and answers how many bytes, at least one where there are any: an empty one changes
    /// nothing. An error takes no byte, and the device has failed from then on.
    fn put(&mut self, piece: &[u8]) -> Result<usize, yaml_device_fault_t>
        ensures bound { IfOk result (λ n. n ≤ length piece.now) }
        ensures some { IfOk result (λ n. 0 < length piece.now → 0 < n) }
        ensures bytes { WriteAppends (received self.old) (received self.new) result piece.now }
        ensures unfinished { 0 < length piece.now → is_finished self.new ≡ false }
        ensures nothing { length piece.now ≡ 0 → (result ≡ Ok 0) × (self.new ≡ self.old) }
        ensures failure { MatchResult result (λ _. has_failed self.new ≡ has_failed self.old)
            (λ _. has_failed self.new ≡ true) };

    /// Nothing more comes: what was taken is passed on.
    fn finish(&mut self) -> Result<(), yaml_device_fault_t>
        ensures bytes { Keeps (received self.old) (received self.new) }
        ensures finished { MatchResult result (λ _. is_finished self.new ≡ true)
            (λ _. is_finished self.new ≡ false) }
        ensures failure { MatchResult result (λ _. has_failed self.new ≡ has_failed self.old)
            (λ _. has_failed self.new ≡ true) };
}
