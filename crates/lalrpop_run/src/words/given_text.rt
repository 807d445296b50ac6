//! A text that is there as a whole, as a reader.

ghost use Rattle.std.specs.Prelude.{◌≡◌, ◌+◌, ◌||◌, Bool, Some, false, if◌then◌else◌, length};
ghost use Rattle.lalrpop_run.specs.GivenTexts.{calls_of, ended_of, misused_of, unread_of};

use lalrpop_grammar_streams::Source;
use std::io::{self, Error};

/// A reader of a text that fails only where it is misused.
#[derive(Drop)]
pub(crate) struct GivenText<'a> {
    rest: &'a [u8],
    ended: bool,
    misused: bool,
}

impl<'a> GivenText<'a> {
    pub(crate) fn new(text: &'a [u8]) -> GivenText<'a>
        ensures rest { unread_of result ≡ text.now }
        ensures ended { ended_of result ≡ false }
        ensures misused { misused_of result ≡ false }
    {
        GivenText {
            rest: text,
            ended: false,
            misused: false,
        }
    }
}

impl Source for GivenText<'_> {
    ghost remaining = { λ t. Some (unread_of t) };

    ghost has_failed = { misused_of };

    ghost calls_left = { calls_of };

    ghost ended = { ended_of };

    ghost misused = { misused_of };

    fn read(&mut self, buf: &mut [u8]) -> io::Result<usize> {
        self.misused = self.misused || self.ended || buf.is_empty();
        if self.misused {
            return Err(Error::other("the text was read behind its end"));
        }
        let count = self.rest.len().min(buf.len());
        let (front, rest) = self.rest.split_at(count);
        buf[..count].copy_from_slice(front);
        self.rest = rest;
        self.ended = count == 0;
        Ok(count)
    }

    fn failed(&self) -> bool {
        self.misused
    }

    fn left(&self) -> u64 {
        self.rest.len() as u64 + if self.ended { 1 } else { 2 }
    }
}
