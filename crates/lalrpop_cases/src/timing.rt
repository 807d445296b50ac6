//! The tokens and the tree of standard input, under the grammar in a file: to be timed.

use anyhow::{Context, Result};
use lalrpop_grammar_streams::Watched;
use lalrpop_run::{Options, OptionsError, options, run};
use std::alloc::{AllocError, Global};
use std::rt::Files;
use std::{fs, io};

/// The status where the words are wrong.
const WRONG_WORDS: u8 = 4;

/// Answers the command `tokens` over the start, the grammar in the file, and standard input.
pub(crate) fn answer_tokens<R: Alloc<A = Global> + Files + Input + Print>(
    rt: &R,
    start: &str,
    file: &str,
) -> Result<u8> {
    answer_words(rt, &["lalrpop_cases", "tokens", "--start", start], file)
}

/// Answers the command `parse` over the start, the grammar in the file, the limit of moves, and standard input.
pub(crate) fn answer_parse<R: Alloc<A = Global> + Files + Input + Print>(
    rt: &R,
    start: &str,
    file: &str,
    limit: &str,
) -> Result<u8> {
    answer_words(
        rt,
        &["lalrpop_cases", "parse", "--start", start, "--limit", limit],
        file,
    )
}

/// Answers the words over the grammar in the file, and standard input.
fn answer_words<R: Alloc<A = Global> + Files + Input + Print>(
    rt: &R,
    words: &[&str],
    file: &str,
) -> Result<u8> {
    let grammar = fs::read_to_string(rt, file).context(format_args!("reading {file}"))?;
    Ok(answer_over(rt, words, grammar.as_str())?)
}

/// Answers the words over the grammar's JSON and standard input.
fn answer_over<R: Alloc<A = Global> + Input + Print>(
    rt: &R,
    words: &[&str],
    grammar: &str,
) -> Result<u8, AllocError> {
    match options(rt.alloc(), words) {
        Ok(found) => Ok(answer_options(rt, &found, grammar)),
        Err(OptionsError::Words(_)) => Ok(WRONG_WORDS),
        Err(OptionsError::Memory) => Err(AllocError),
    }
}

/// Answers the options over the grammar's JSON and standard input.
fn answer_options<R: Alloc<A = Global> + Input + Print>(
    rt: &R,
    options: &Options,
    grammar: &str,
) -> u8 {
    let mut grammar = Watched::new(grammar.as_bytes());
    let mut text = Watched::new(rt.reader());
    let mut out = Watched::new(io::writer(rt));
    run(rt.alloc(), options, &mut grammar, &mut text, &mut out)
}
