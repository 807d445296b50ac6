//! Table tests; the tokens and the tree of standard input, to be timed; and the tables of plain productions on standard input.
//!
//! The words name kinds of cases and files: a file's cases are of the kind that is named last before it. Behind the word `tokens`
//! stand a start and a file, behind `parse` a limit of moves, too: the program answers as `lalrpop_run` does, whose text is a word
//! and so no longer than a word may be. Behind `productions` stand a start, what is asked (`counts`, `check`, `lanes`, `tokens` or
//! `sentence`), and of what: how many copies lanes may make, tokens, the file of a sentence, or nothing. Behind `twice` stand a start, a
//! file and a text: each question is asked twice.
#![tactic(auto)]

mod case;
mod conflicts;
mod kind;
mod line;
mod outcome;
mod productions;
mod runs;
mod timing;
mod twice;

use crate::kind::Kind;
use crate::productions::answer_productions;
use crate::timing::{answer_parse, answer_tokens};
use crate::twice::answer_twice;
use anyhow::{Result, bail};
use lalrpop_case_kinds::files::Tally;
use std::alloc::Global;
use std::io::ErrorKind;
use std::process::ExitCode;
use std::rt::{Clock, Env, Files};
use std::{env, io};

/// The status where a case differs.
const DIFFERS: u8 = 1;

/// The status where there was no memory for the words.
const OUT_OF_MEMORY: u8 = 5;

fn main(rt: HostRuntime) -> Result<ExitCode> {
    Ok(ExitCode::from(respond(&rt)?))
}

/// Reads the words, and answers them.
fn respond<R: Alloc<A = Global> + Clock + Env + Eprint + Files + Input + Print>(
    rt: &R,
) -> Result<u8> {
    match words_of(rt) {
        Ok(words) => respond_to(rt, words.as_slice()),
        Err(error) if error.kind() == ErrorKind::OutOfMemory => {
            println!(rt; "out of memory")?;
            Ok(OUT_OF_MEMORY)
        }
        Err(error) => Err(error.into()),
    }
}

/// The words, the first of which names the program.
fn words_of<R: Alloc<A = Global> + Env>(rt: &R) -> io::Result<Vec<String>> {
    let words: Vec<String> = env::args(rt)?.collect(rt.alloc())?;
    Ok(words)
}

/// What the words ask for.
#[derive(Clone, Copy)]
enum Task<'w> {
    /// The tokens of standard input, under the grammar in the file.
    Tokens {
        start: &'w str,
        file: &'w str,
    },
    /// The tree of standard input, under the grammar in the file, in no more moves than the limit.
    Parse {
        start: &'w str,
        file: &'w str,
        limit: &'w str,
    },
    /// What the word asks of the productions on standard input.
    Productions {
        start: &'w str,
        word: &'w str,
        of: &'w str,
    },
    /// What a parser of the grammar in the file answers to the text, asked twice.
    Twice {
        start: &'w str,
        file: &'w str,
        text: &'w str,
    },
    /// The cases of files.
    Cases,
}

/// What the words ask for, the first of which names the program.
fn task_of(words: &[String]) -> Task<'_> {
    match words {
        [_, first, start, file] if first.as_str() == "tokens" => Task::Tokens {
            start: start.as_str(),
            file: file.as_str(),
        },
        [_, first, start, file, limit] if first.as_str() == "parse" => Task::Parse {
            start: start.as_str(),
            file: file.as_str(),
            limit: limit.as_str(),
        },
        [_, first, start, word, of] if first.as_str() == "productions" => Task::Productions {
            start: start.as_str(),
            word: word.as_str(),
            of: of.as_str(),
        },
        [_, first, start, file, text] if first.as_str() == "twice" => Task::Twice {
            start: start.as_str(),
            file: file.as_str(),
            text: text.as_str(),
        },
        _ => Task::Cases,
    }
}

/// Answers the words, the first of which names the program.
fn respond_to<R: Alloc<A = Global> + Clock + Eprint + Files + Input + Print>(
    rt: &R,
    words: &[String],
) -> Result<u8> {
    match task_of(words) {
        Task::Tokens { start, file } => answer_tokens(rt, start, file),
        Task::Parse { start, file, limit } => answer_parse(rt, start, file, limit),
        Task::Productions { start, word, of } => answer_productions(rt, start, word, of),
        Task::Twice { start, file, text } => answer_twice(rt, start, file, text),
        Task::Cases => run_tables(rt, words),
    }
}

/// Runs the files that the words name, each as the kind says that is named before it, and tells how many cases differ.
fn run_tables<R: Alloc<A = Global> + Files + Print>(rt: &R, words: &[String]) -> Result<u8> {
    let all = run_files(rt, words)?;
    println!(rt; "{} passed, {} failed", all.passed, all.failed)?;
    Ok(if all.failed == 0 { 0 } else { DIFFERS })
}

/// How many cases of these files pass; each of the others is told.
fn run_files<R: Alloc<A = Global> + Files + Print>(rt: &R, words: &[String]) -> Result<Tally> {
    let mut kind = None;
    let mut all = Tally::new();
    for word in words.iter().skip(1) {
        match Kind::from_name(word.as_str()) {
            Some(found) => kind = Some(found),
            None => all = all.with(run_file(rt, kind, word.as_str())?),
        }
    }
    Ok(all)
}

/// How many cases of the file pass, where their kind is known; each of the others is told.
fn run_file<R: Alloc<A = Global> + Files + Print>(
    rt: &R,
    kind: Option<Kind>,
    file: &str,
) -> Result<Tally> {
    match kind {
        Some(kind) => kind.run_tally(rt, file),
        None => bail!("{file}: no kind of cases is named before it"),
    }
}
