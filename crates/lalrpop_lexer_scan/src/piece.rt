//! The piece at the front of a text.

ghost use Rattle.std.specs.Prelude.{◌≡◌, ◌≤◌, IfSome, None, MatchOption, length, take, encode_utf8_all};
ghost use Rattle.std.specs.Str.{chars};
ghost use Rattle.lalrpop_lexer.specs.Simulation.{answer_of};
ghost use Rattle.lalrpop_lexer.specs.Answer.{IsAnswerFront};
ghost use Rattle.lalrpop_lexer.specs.Walks.{AreDeadEnds};
ghost use Rattle.lalrpop_lexer_scan.specs.Scanning.{HasNoPiece, IsFoundPiece, IsItsTerminal, found_terminal_view, skip_count};

use crate::blank::blank_front;
use crate::entry_terminal::{EntryTerminal, with_number};
use crate::scanner::Scanner;
use lalrpop_lexer::dfa::DeadEnds;

impl Scanner {
    /// The piece at the front of the text, and its entry with the terminal where it isn't skipped.
    /// `ends` are dead ends of the text, and get those that are found.
    pub(crate) fn piece<'t>(
        &self,
        text: &'t str,
        ends: &mut DeadEnds,
    ) -> Option<(&'t str, Option<EntryTerminal<'_>>)>
        requires { AreDeadEnds self.now.dfa text.now ends.old }
        ensures ends { AreDeadEnds self.now.dfa text.now ends.new }
        ensures piece { MatchOption result (HasNoPiece self.now text.now)
            (λ found. IsFoundPiece self.now text.now found.0.now (found_terminal_view found.1)) }
        ensures entry { IfSome result (λ found. IsItsTerminal self.now found.1) }
    {
        match ends.interpret(&self.dfa, text) {
            Some((entry, word)) => self.longer(text, entry.index(), word),
            None => self.blank_piece(text),
        }
    }

    /// The longer of the entry's word and of the whitespace at the front.
    fn longer<'t>(
        &self,
        text: &'t str,
        entry: usize,
        word: &'t str,
    ) -> Option<(&'t str, Option<EntryTerminal<'_>>)>
        requires { IsAnswerFront self.now.dfa text.now entry word.now }
        ensures piece { MatchOption result (HasNoPiece self.now text.now)
            (λ found. IsFoundPiece self.now text.now found.0.now (found_terminal_view found.1)) }
        ensures entry { IfSome result (λ found. IsItsTerminal self.now found.1) }
    {
        let blank = self.blank(text);
        if word.len() <= blank.len() {
            return Some((blank, None));
        }
        match self.terminals.get(entry) {
            Some(terminal) => Some((word, with_number(entry, terminal))),
            None => None,
        }
    }

    /// The whitespace at the front, where no entry matches.
    fn blank_piece<'t>(&self, text: &'t str) -> Option<(&'t str, Option<EntryTerminal<'_>>)>
        requires { answer_of self.now.dfa (chars text.now) ≡ None }
        ensures piece { MatchOption result (HasNoPiece self.now text.now)
            (λ found. IsFoundPiece self.now text.now found.0.now (found_terminal_view found.1)) }
        ensures entry { IfSome result (λ found. IsItsTerminal self.now found.1) }
    {
        let blank = self.blank(text);
        if blank.is_empty() {
            None
        } else {
            Some((blank, None))
        }
    }

    /// The whitespace that is skipped at the front.
    fn blank<'t>(&self, text: &'t str) -> &'t str
        ensures { result.now
            ≡ encode_utf8_all (take (skip_count self.now (chars text.now)) (chars text.now)) }
    {
        if self.skips_blanks {
            blank_front(text)
        } else {
            ""
        }
    }
}
