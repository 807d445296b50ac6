//! What is remembered of the calls of a reader or writer.

ghost use Rattle.std.specs.Prelude.{◌≡◌, ◌<◌, Err, false, nat_lt};
ghost use Rattle.std.specs.IoError.{error_kind};
ghost use Rattle.lalrpop_grammar_streams.specs.Watching.{after_call, is_over, IsRead, IsWrite};

use std::io::{self, Error, ErrorKind};

/// How many bytes a watched reader gives at most.
pub const MAX_BYTES: u64 = 16_777_216;

/// How many calls of read, or interrupted calls of write, are a failure.
pub const MAX_CALLS: u64 = 33_554_432;

/// What is remembered of the calls: whether one has failed, how many are left and how many bytes, whether a reader has
/// ended, and whether it was called behind its end or with no room.
#[derive(Clone, Copy, PartialEq, Eq)]
pub struct Watch {
    pub(crate) failed: bool,
    pub(crate) calls: u64,
    pub(crate) bytes: u64,
    pub(crate) ended: bool,
    pub(crate) misused: bool,
}

impl Watch {
    /// Nothing has failed or ended, and all calls and bytes are left.
    pub(crate) fn new() -> Watch
        ensures calls { result.calls ≡ 33554432 }
        ensures bytes { result.bytes ≡ 16777216 }
        ensures failed { result.failed ≡ false }
        ensures ended { result.ended ≡ false }
        ensures misused { result.misused ≡ false }
    {
        Watch {
            failed: false,
            calls: MAX_CALLS,
            bytes: MAX_BYTES,
            ended: false,
            misused: false,
        }
    }

    /// Whether a call has failed, or none is left.
    pub(crate) fn is_over(&self) -> bool
        ensures { result ≡ is_over self.now }
    {
        self.failed || self.calls == 0
    }

    /// How many calls are left.
    pub(crate) fn left(&self) -> u64
        ensures { result ≡ self.now.calls }
    {
        let left = self.calls;
        left
    }

    /// Counts a call of read, and answers whether it may be made.
    pub(crate) fn call(&mut self, room: bool) -> bool
        ensures watch { self.new ≡ after_call self.old room }
        ensures result { result ≡ nat_lt 1 self.old.calls }
    {
        let allowed = self.calls > 1;
        self.calls = self.calls.saturating_sub(1);
        self.misused = self.misused || self.ended || !room;
        allowed
    }

    /// What the inner reader's answer becomes; `room` says whether the buffer holds a byte.
    pub(crate) fn read(&mut self, room: bool, answer: io::Result<usize>) -> io::Result<usize>
        ensures { IsRead (λ e. error_kind e ≡ ErrorKind.Interrupted) self.old self.new room answer result }
    {
        match answer {
            Ok(count) if count as u64 <= self.bytes => {
                self.bytes -= count as u64;
                self.ended = self.ended || room && count == 0;
                Ok(count)
            }
            Ok(_) => {
                self.failed = true;
                Err(Error::other("too many bytes"))
            }
            Err(error) => {
                if error.kind() != ErrorKind::Interrupted {
                    self.failed = true;
                }
                Err(error)
            }
        }
    }

    /// What the inner writer's answer becomes; `empty` says that there was nothing to write.
    pub(crate) fn write(&mut self, empty: bool, answer: io::Result<usize>) -> io::Result<usize>
        ensures { IsWrite (λ e. error_kind e ≡ ErrorKind.Interrupted) self.old self.new empty answer result }
    {
        match answer {
            Ok(count) if count == 0 && !empty => {
                self.failed = true;
                Err(Error::other("nothing was written"))
            }
            Ok(count) => Ok(count),
            Err(error) => self.write_error(error),
        }
    }

    /// What an error of the inner writer becomes.
    fn write_error(&mut self, error: Error) -> io::Result<usize>
        ensures { IsWrite (λ e. error_kind e ≡ ErrorKind.Interrupted) self.old self.new false (Err error) result }
    {
        if error.kind() != ErrorKind::Interrupted {
            self.failed = true;
            return Err(error);
        }
        if self.calls > 1 {
            self.calls -= 1;
            return Err(error);
        }
        self.calls = 0;
        Err(Error::other("too many interrupted calls of write"))
    }
}
