//! What a call answers, as a value.

use crate::calls::automata::{dfa_answer, longest_front, matched_words, pieces};
use crate::calls::grammars::{symbol_text, terminal_text, tree_text, written_grammar};
use crate::calls::pattern::{regex_fault, regex_tree};
use crate::files::fields::only_member;
use anyhow::{Result, bail};
use serde_json::Value;
use std::alloc::Global;

/// What the call answers, which is an object of one member: the call's word, and what it is asked of.
///
/// - `parse_regex`: the tree of a pattern's text, as `Debug` prints it, or the text of its fault.
/// - `regex_fault`: the text of the fault of a pattern's text, `null` where it is a pattern.
/// - `matched_words`: the words that a pattern matches, of those that are listed.
/// - `longest_front`: the longest front of a text that a pattern matches, `null` where there is none.
/// - `build_dfa`: for each text the winner among patterns with precedences at its front, by its number, and the match, `null`
///   where there is none; or the first pattern that is refused, or the two that tie, as `Debug` prints it.
/// - `remove_overlap`: the pieces of ranges that may overlap, each range by its first and its last number.
/// - `symbol_text`: the text of a copy of a symbol, which has to equal it.
/// - `terminal_text`: the text of a terminal, and how many bytes it says to have.
/// - `write_grammar`: what a grammar is written as, `"itself"` where it is the value that it was read from.
/// - `print_tree`: the text of a tree.
pub(crate) fn answer_of(alloc: Global, call: &Value) -> Result<Value> {
    let (word, of) = only_member(call)?;
    match word {
        "parse_regex" => regex_tree(alloc, of),
        "regex_fault" => regex_fault(alloc, of),
        "remove_overlap" => pieces(alloc, of),
        _ => grammar_answer(alloc, word, of),
    }
}

/// The same of the calls that ask symbols, grammars, trees and automata.
fn grammar_answer(alloc: Global, word: &str, of: &Value) -> Result<Value> {
    match word {
        "symbol_text" => symbol_text(alloc, of),
        "terminal_text" => terminal_text(alloc, of),
        "write_grammar" => written_grammar(alloc, of),
        "print_tree" => tree_text(alloc, of),
        _ => automata_answer(alloc, word, of),
    }
}

/// The same of the calls that ask automata.
fn automata_answer(alloc: Global, word: &str, of: &Value) -> Result<Value> {
    match word {
        "matched_words" => matched_words(alloc, of),
        "longest_front" => longest_front(alloc, of),
        "build_dfa" => dfa_answer(alloc, of),
        _ => bail!("no such call: {word}"),
    }
}
