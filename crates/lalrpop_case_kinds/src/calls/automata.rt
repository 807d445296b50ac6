//! What automata find.

use crate::files::fields::{Fields, Form, Key, count_of, list_of, number_of, text_of};
use crate::files::values::{number, pair, text};
use anyhow::{Result, bail};
use lalrpop_lexer::dfa::{Dfa, DfaConstructionError, Precedence, build_dfa, remove_overlap};
use lalrpop_lexer::nfa::{Nfa, Test};
use lalrpop_lexer::{dfa, nfa};
use lalrpop_lexer_regex::parse_regex;
use serde_json::Value;
use std::alloc::{AllocError, Global};
use std::collections::BTreeSet;

/// The automaton of one pattern, made as that of a single pattern and as that of several.
#[derive(Drop)]
struct Automata {
    own: Nfa,
    shared: Dfa,
}

impl Automata {
    /// The automata of the pattern.
    fn new(alloc: Global, pattern: &str) -> Result<Automata> {
        let tree = parse_regex(alloc, pattern)?;
        let own = Nfa::from_re(alloc, &tree)?;
        let shared = build_dfa(alloc, &[tree], &[Precedence(0)])?;
        Ok(Automata { own, shared })
    }

    /// The longest front of the text. The automata have to agree, but that of several patterns finds no empty front.
    fn front<'t>(&self, alloc: Global, text: &'t str) -> Result<Option<&'t str>> {
        let own = nfa::interpret(alloc, &self.own, text)?;
        let shared = dfa::interpret(&self.shared, text).map(|(_, front)| front);
        if own.unwrap_or("") != shared.unwrap_or("") {
            bail!("the automata differ on {text:?}");
        }
        Ok(own)
    }

    /// The word, if the whole of it is matched.
    fn whole<'t>(&self, alloc: Global, word: &'t str) -> Result<Option<&'t str>> {
        let front = self.front(alloc, word)?;
        Ok(if front == Some(word) { front } else { None })
    }
}

/// A pattern, and words.
const WORDS: [Key; 2] = [("pattern", Form::Text), ("words", Form::List)];

/// A pattern, and a text.
const TEXT: [Key; 2] = [("pattern", Form::Text), ("text", Form::Text)];

/// Patterns with their precedences, and texts.
const TEXTS: [Key; 2] = [("patterns", Form::List), ("texts", Form::List)];

/// The words that a pattern matches, of those that are listed with it.
pub(crate) fn matched_words(alloc: Global, of: &Value) -> Result<Value> {
    let fields = Fields::of(of, &WORDS, &[])?;
    words_matched(alloc, fields.text("pattern"), fields.list("words"))
}

/// The words that the pattern matches.
fn words_matched(alloc: Global, pattern: &str, words: &[Value]) -> Result<Value> {
    let automata = Automata::new(alloc, pattern)?;
    words_of(alloc, &automata, words)
}

/// The words that the automata match.
fn words_of(alloc: Global, automata: &Automata, words: &[Value]) -> Result<Value> {
    let mut matched = Vec::new(alloc);
    for word in words {
        if let Some(word) = automata.whole(alloc, text_of(word)?)? {
            matched.push(text(alloc, word)?)?;
        }
    }
    Ok(Value::Array(matched))
}

/// The longest front of a text that a pattern matches.
pub(crate) fn longest_front(alloc: Global, of: &Value) -> Result<Value> {
    let fields = Fields::of(of, &TEXT, &[])?;
    let front = front_of(alloc, fields.text("pattern"), fields.text("text"))?;
    Ok(front_value(alloc, front)?)
}

/// The text of the front, `null` where there is none.
fn front_value(alloc: Global, front: Option<&str>) -> Result<Value, AllocError> {
    match front {
        Some(front) => text(alloc, front),
        None => Ok(Value::Null),
    }
}

/// The longest front of the text that the pattern matches, where there is one.
fn front_of<'t>(alloc: Global, pattern: &str, text: &'t str) -> Result<Option<&'t str>> {
    let automata = Automata::new(alloc, pattern)?;
    automata.front(alloc, text)
}

/// The text of a pattern, and its precedence.
fn pattern_of(value: &Value) -> Result<(&str, usize)> {
    match list_of(value)? {
        [text, precedence] => Ok((text_of(text)?, count_of(precedence)?)),
        _ => bail!("no pattern with its precedence"),
    }
}

/// What the automaton of patterns finds at the front of each text, or why there is none.
pub(crate) fn dfa_answer(alloc: Global, of: &Value) -> Result<Value> {
    let fields = Fields::of(of, &TEXTS, &[])?;
    winners_or_refusal(alloc, fields.list("patterns"), fields.list("texts"))
}

/// What the automaton of the patterns finds, or why there is none.
fn winners_or_refusal(alloc: Global, patterns: &[Value], texts: &[Value]) -> Result<Value> {
    match dfa_of(alloc, patterns)? {
        Ok(dfa) => winners(alloc, &dfa, texts),
        Err(error) => Ok(refusal(alloc, error)?),
    }
}

/// The automaton of the patterns.
fn dfa_of(alloc: Global, patterns: &[Value]) -> Result<Result<Dfa, DfaConstructionError>> {
    let mut trees = Vec::new(alloc);
    let mut precedences = Vec::new(alloc);
    for pattern in patterns {
        let (text, precedence) = pattern_of(pattern)?;
        trees.push(parse_regex(alloc, text)?)?;
        precedences.push(Precedence(precedence))?;
    }
    Ok(build_dfa(alloc, &trees, &precedences))
}

/// Why there is no automaton, as `Debug` prints it.
fn refusal(alloc: Global, error: DfaConstructionError) -> Result<Value, AllocError> {
    Ok(Value::from(format!(in alloc; "{error:?}")?))
}

/// The winner at the front of each text, and the match.
fn winners(alloc: Global, dfa: &Dfa, texts: &[Value]) -> Result<Value> {
    let mut winners = Vec::new(alloc);
    for text in texts {
        winners.push(winner(alloc, dfa, text_of(text)?)?)?;
    }
    Ok(Value::Array(winners))
}

fn winner(alloc: Global, dfa: &Dfa, of: &str) -> Result<Value, AllocError> {
    match dfa::interpret(dfa, of) {
        Some((pattern, front)) => pair(alloc, number(pattern.index()), text(alloc, front)?),
        None => Ok(Value::Null),
    }
}

/// The pieces of the ranges.
pub(crate) fn pieces(alloc: Global, ranges: &Value) -> Result<Value> {
    let tests = tests_of(alloc, list_of(ranges)?)?;
    Ok(pieces_value(alloc, &tests)?)
}

fn tests_of(alloc: Global, ranges: &[Value]) -> Result<BTreeSet<Test>> {
    let mut tests = BTreeSet::new(alloc);
    for range in ranges {
        tests.insert(test_of(range)?)?;
    }
    Ok(tests)
}

fn test_of(range: &Value) -> Result<Test> {
    match list_of(range)? {
        [start, end] => {
            let start = u32::try_from(number_of(start)?)?;
            let end = u32::try_from(number_of(end)?)?;
            Ok(Test::new(start..=end))
        }
        _ => bail!("no range"),
    }
}

fn pieces_value(alloc: Global, tests: &BTreeSet<Test>) -> Result<Value, AllocError> {
    let mut pieces = Vec::new(alloc);
    for piece in remove_overlap(alloc, tests)? {
        pieces.push(pair(alloc, Value::from(piece.start()), Value::from(piece.end()))?)?;
    }
    Ok(Value::Array(pieces))
}
