//! A text that is too long to be read, as a reader.

ghost use Rattle.std.specs.Prelude.{◌≡◌, Some, false, true};
ghost use Rattle.lalrpop_run.specs.GivenTexts.{text_of_unreadable, unreadable_misused};

use lalrpop_grammar_streams::Source;
use std::io::{self, Error};

/// A reader that has failed.
#[derive(Drop)]
pub(crate) struct Unreadable<'a> {
    text: &'a [u8],
    misused: bool,
}

impl<'a> Unreadable<'a> {
    pub(crate) fn new(text: &'a [u8]) -> Unreadable<'a>
        ensures text { text_of_unreadable result ≡ text.now }
        ensures misused { unreadable_misused result ≡ false }
    {
        Unreadable {
            text,
            misused: false,
        }
    }
}

impl Source for Unreadable<'_> {
    ghost remaining = { λ t. Some (text_of_unreadable t) };

    ghost has_failed = { λ t. true };

    ghost calls_left = { λ t. 0 };

    ghost ended = { λ t. false };

    ghost misused = { unreadable_misused };

    fn read(&mut self, buf: &mut [u8]) -> io::Result<usize> {
        self.misused = self.misused || buf.is_empty();
        Err(Error::other("the text is too long"))
    }

    fn failed(&self) -> bool {
        true
    }

    fn left(&self) -> u64 {
        0
    }
}
