//! Readers that remember their failure.

ghost use Rattle.std.specs.Prelude.{◌≡◌, ◌≢◌, ℕ, ◌<◌, Bool, true, false, List, Option, OnOk, IfErr, length, nat_lt, not, ◌||◌};
ghost use Rattle.std.specs.Io.{ReadsAtMost};
ghost use Rattle.std.specs.IoError.{error_kind};
ghost use Rattle.lalrpop_grammar_streams.specs.Streams.{TakesFrom};
ghost use Rattle.lalrpop_grammar_streams.specs.Watching.{is_end};

use std::io::{self, ErrorKind};

/// A reader that remembers its failure, and has so many calls left.
///
/// Contracts name the bytes that it has left, where it tells them, as `remaining`.
pub trait Source {
    ghost remaining: { Self → Option (List ℕ) };

    ghost has_failed: { Self → Bool };

    ghost calls_left: { Self → ℕ };

    /// It has answered 0 to a buffer with room.
    ghost ended: { Self → Bool };

    /// It was called behind its end, or with no room.
    ghost misused: { Self → Bool };

    /// Reads into the buffer and answers how many bytes, as `std::io::Read::read` does: 0 only at the end, or with no
    /// room. An interrupted call took nothing, and may be made again. After any other error it has failed.
    fn read(&mut self, buf: &mut [u8]) -> io::Result<usize>
        ensures bound { ReadsAtMost result buf.new }
        ensures bytes { TakesFrom (λ e. error_kind e ≡ ErrorKind.Interrupted)
            (remaining self.old) (remaining self.new) result buf.new }
        ensures falls { has_failed self.new ≡ false → calls_left self.new < calls_left self.old }
        ensures keeps { OnOk result (has_failed self.new ≡ has_failed self.old) }
        ensures interrupted { IfErr result
            (λ e. error_kind e ≡ ErrorKind.Interrupted → has_failed self.new ≡ has_failed self.old) }
        ensures fails { IfErr result
            (λ e. error_kind e ≢ ErrorKind.Interrupted → has_failed self.new ≡ true) }
        ensures ends { ended self.new ≡ (ended self.old || is_end (nat_lt 0 (length buf.old)) result) }
        ensures uses { misused self.new
            ≡ (misused self.old || (ended self.old || not (nat_lt 0 (length buf.old)))) };

    /// Whether a call has failed.
    fn failed(&self) -> bool
        ensures { result ≡ has_failed self.now };

    /// How many calls are left. With none left it has failed.
    fn left(&self) -> u64
        ensures calls { result ≡ calls_left self.now }
        ensures none_left { result ≡ 0 → has_failed self.now ≡ true };
}
