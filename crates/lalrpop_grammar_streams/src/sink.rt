//! Writers that remember their failure.

ghost use Rattle.std.specs.Prelude.{◌≡◌, ◌≢◌, ℕ, ◌<◌, Bool, true, false, List, Option, OnOk, IfOk, IfErr, length};
ghost use Rattle.std.specs.Io.{WritesAtMost};
ghost use Rattle.std.specs.Io.KnownBytes.{WriteAppends};
ghost use Rattle.std.specs.IoError.{error_kind};

use std::io::{self, ErrorKind};

/// A writer that remembers its failure, and bears so many interruptions.
///
/// Contracts name the bytes that it holds, where it tells them, as `contents`.
pub trait Sink {
    ghost contents: { Self → Option (List ℕ) };

    ghost has_failed: { Self → Bool };

    ghost calls_left: { Self → ℕ };

    /// Writes from the buffer's front and answers how many bytes, as `std::io::Write::write` does, but never 0 for a
    /// buffer that holds some: that is a failure. An interrupted call wrote nothing, and may be made again. After any
    /// other error it has failed.
    fn write(&mut self, buf: &[u8]) -> io::Result<usize>
        ensures bound { WritesAtMost result buf.now }
        ensures bytes { WriteAppends (contents self.old) (contents self.new) result buf.now }
        ensures progress { IfOk result (λ n. 0 < length buf.now → 0 < n) }
        ensures left { OnOk result (calls_left self.new ≡ calls_left self.old) }
        ensures falls { IfErr result (λ e. has_failed self.new ≡ false → calls_left self.new < calls_left self.old) }
        ensures keeps { OnOk result (has_failed self.new ≡ has_failed self.old) }
        ensures interrupted { IfErr result
            (λ e. error_kind e ≡ ErrorKind.Interrupted → has_failed self.new ≡ has_failed self.old) }
        ensures fails { IfErr result
            (λ e. error_kind e ≢ ErrorKind.Interrupted → has_failed self.new ≡ true) };

    /// Whether a call has failed.
    fn failed(&self) -> bool
        ensures { result ≡ has_failed self.now };

    /// How many interruptions are left. With none left it has failed.
    fn left(&self) -> u64
        ensures calls { result ≡ calls_left self.now }
        ensures none_left { result ≡ 0 → has_failed self.now ≡ true };
}
