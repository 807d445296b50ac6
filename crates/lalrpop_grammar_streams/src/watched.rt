//! Any reader or writer, watched.

ghost use Rattle.std.specs.Prelude.{◌≡◌, ◌+◌, ◌-◌, ◌||◌, ℕ, Bool, true, false, List, Option, OnOk, IfOk, IfErr, length, nat_lt, not, ◌<◌, ◌≢◌};
ghost use Rattle.std.specs.Io.{ReadsAtMost};
ghost use Rattle.std.specs.IoError.{error_kind};
ghost use Rattle.lalrpop_grammar_streams.specs.Streams.{TakesFrom};
ghost use Rattle.lalrpop_grammar_streams.specs.Watching.{inner_of, is_end, watch_of, is_over};

use crate::sink::Sink;
use crate::source::Source;
use crate::watch::Watch;
use std::io::{self, Error, ErrorKind, Read, Write};

/// A reader or a writer that is watched: it fails where what is inside fails, where a reader gives more than
/// 16,777,216 bytes, at the read number 33,554,432, at the interrupted write of that number, and where a write takes
/// no byte of some.
#[derive(Drop)]
pub struct Watched<T> {
    inner: T,
    watch: Watch,
}

impl<T> Watched<T> {
    /// A watch that hasn't failed and has all calls left.
    pub fn new(inner: T) -> Watched<T>
        ensures inner { inner_of result ≡ inner }
        ensures calls { (watch_of result).calls ≡ 33554432 }
        ensures bytes { (watch_of result).bytes ≡ 16777216 }
        ensures failed { (watch_of result).failed ≡ false }
        ensures ended { (watch_of result).ended ≡ false }
        ensures misused { (watch_of result).misused ≡ false }
    {
        Watched {
            inner,
            watch: Watch::new(),
        }
    }
}

impl<T: Read> Source for Watched<T> {
    ghost remaining = { λ w. T.remaining (inner_of w) };

    ghost has_failed = { λ w. is_over (watch_of w) };

    ghost calls_left = { λ w. (watch_of w).calls };

    ghost ended = { λ w. (watch_of w).ended };

    ghost misused = { λ w. (watch_of w).misused };

    fn read(&mut self, buf: &mut [u8]) -> io::Result<usize>
        ensures bound { ReadsAtMost result buf.new }
        ensures bytes { TakesFrom (λ e. error_kind e ≡ ErrorKind.Interrupted)
            (T.remaining (inner_of self.old)) (T.remaining (inner_of self.new)) result buf.new }
        ensures falls { is_over (watch_of self.new) ≡ false
            → (watch_of self.new).calls < (watch_of self.old).calls }
        ensures keeps { OnOk result (is_over (watch_of self.new) ≡ is_over (watch_of self.old)) }
        ensures interrupted { IfErr result (λ e. error_kind e ≡ ErrorKind.Interrupted
            → is_over (watch_of self.new) ≡ is_over (watch_of self.old)) }
        ensures fails { IfErr result
            (λ e. error_kind e ≢ ErrorKind.Interrupted → is_over (watch_of self.new) ≡ true) }
        ensures ends { (watch_of self.new).ended
            ≡ ((watch_of self.old).ended || is_end (nat_lt 0 (length buf.old)) result) }
        ensures uses { (watch_of self.new).misused
            ≡ ((watch_of self.old).misused || ((watch_of self.old).ended || not (nat_lt 0 (length buf.old)))) }
        // Each call counts once, an interrupted one too, and each byte that is given.
        ensures calls { (watch_of self.new).calls ≡ (watch_of self.old).calls - 1 }
        ensures given { IfOk result (λ n. n + (watch_of self.new).bytes ≡ (watch_of self.old).bytes) }
    {
        let room = !buf.is_empty();
        if !self.watch.call(room) {
            return Err(Error::other("too many calls of read"));
        }
        let answer = self.inner.read(buf);
        self.watch.read(room, answer)
    }

    fn failed(&self) -> bool {
        self.watch.is_over()
    }

    fn left(&self) -> u64 {
        self.watch.left()
    }
}

impl<T: Write> Sink for Watched<T> {
    ghost contents = { λ w. T.contents (inner_of w) };

    ghost has_failed = { λ w. is_over (watch_of w) };

    ghost calls_left = { λ w. (watch_of w).calls };

    fn write(&mut self, buf: &[u8]) -> io::Result<usize> {
        let answer = self.inner.write(buf);
        self.watch.write(buf.is_empty(), answer)
    }

    fn failed(&self) -> bool {
        self.watch.is_over()
    }

    fn left(&self) -> u64 {
        self.watch.left()
    }
}
