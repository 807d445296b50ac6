//! Tokens of a text, in a list, and given to a receiver.

use crate::check::check;
use crate::given::{parser_of, prepared_grammar};
use crate::parses::grammars::LISTS;
use lalrpop_grammar::{ScanToken, Span, TerminalString};
use lalrpop_lexer_scan::{ScanError, TokenReceiver};
use lalrpop_run_parser::Parser;
use std::alloc::{AllocError, Global};
use std::process::Abort;

/// Notes for each token that it is given from which byte to which byte it stands, its terminal, and its text.
#[derive(Drop)]
struct Notes {
    text: String,
}

impl TokenReceiver for Notes {
    ghost has_received = { λ _ _. Unit {0} };

    fn receive(
        &mut self,
        terminal: &TerminalString,
        text: &str,
        span: Span,
    ) -> Result<(), AllocError> {
        write!(self.text, "{}..{} {terminal} {text}; ", span.0, span.1)?;
        Ok(())
    }
}

/// The token of `a c` in front of the byte at which there is none, and the tokens of `aa b`.
const NOTED: &str = r#"0..1 "a" a; 0..1 "a" a; 1..2 "a" a; 3..4 "b" b; "#;

/// Notes the tokens.
fn note(rt: &impl Abort, tokens: &[ScanToken<'_>], notes: &mut Notes) {
    for token in tokens {
        let noted = notes.receive(&token.terminal, token.text, token.span);
        noted.expect(rt, "memory");
    }
}

/// Notes the tokens that the parser gives to a receiver, up to the byte without one.
fn note_given(rt: &impl Abort, parser: &Parser<'_>, notes: &mut Notes) {
    let given = parser.scan_into("a c", notes).err();
    check(rt, given == Some(ScanError::NoToken(2)));
}

/// Notes the tokens that the parser tells in a list.
fn note_told(rt: &impl Abort, alloc: Global, parser: &Parser<'_>, notes: &mut Notes) {
    let tokens = parser.scan(alloc, "aa b").expect(rt, "tokens");
    note(rt, tokens.as_slice(), notes);
}

/// That the parser gives tokens to a receiver, up to the byte without one, or tells them in a list.
fn scans(rt: &impl Abort, alloc: Global, parser: &Parser<'_>) {
    let told = parser.scan(alloc, "a c").err();
    check(rt, told == Some(ScanError::NoToken(2)));
    let mut notes = Notes {
        text: String::new(alloc),
    };
    note_given(rt, parser, &mut notes);
    note_told(rt, alloc, parser, &mut notes);
    check(rt, notes.text.as_str() == NOTED);
}

/// That the parser of lists scans so. Its laws are called.
fn lists_are_scanned(rt: &impl Abort, alloc: Global) {
    let prepared = prepared_grammar(rt, alloc, LISTS, "S");
    let parser = parser_of(rt, alloc, &prepared);
    scans(rt, alloc, &parser);
    parser.raising_the_limit();
    parser.canonical_states_tell_faults();
}

#[test]
fn tokens_are_told_in_a_list_or_given_up_to_the_byte_without_one(rt: HostRuntime) {
    lists_are_scanned(&rt, rt.alloc());
}
