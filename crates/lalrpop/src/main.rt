//! The program: a grammar's JSON on standard input, the answer on standard output, faults of the words on standard
//! error.
#![tactic(auto)]

use lalrpop_grammar_streams::Watched;
use lalrpop_run::{Options, OptionsError, options, run_words};
use std::alloc::{AllocError, Global};
use std::process::ExitCode;
use std::rt::Env;
use std::{env, io};

/// The status where the words are wrong or call for help.
const WRONG_WORDS: u8 = 4;

/// The status where memory was wanting.
const OUT_OF_MEMORY: u8 = 5;

/// The status where a fault of the words couldn't be written.
const WRITE_FAULT: u8 = 6;

fn main(rt: HostRuntime) -> ExitCode {
    match respond(&rt) {
        Ok(status) => ExitCode::from(status),
        Err(error) => ExitCode::from(tell_fault(&rt, &error)),
    }
}

/// Reads the words and answers them.
fn respond<R: Env + Alloc<A = Global> + Input + Print + Eprint>(rt: &R) -> io::Result<u8> {
    match env::args(rt) {
        Ok(arguments) => {
            let arguments: Vec<String> = arguments.collect(rt.alloc())?;
            answer_arguments(rt, arguments.as_slice())
        }
        Err(error) if error.kind() == io::ErrorKind::InvalidData => {
            rt.eprint("error: a word isn't UTF-8\n")?;
            Ok(WRONG_WORDS)
        }
        Err(error) => Err(error),
    }
}

/// Answers the words, or says what is wrong with them.
fn answer_arguments<R: Alloc<A = Global> + Input + Print + Eprint>(
    rt: &R,
    arguments: &[String],
) -> io::Result<u8> {
    let alloc = rt.alloc();
    let words = texts(alloc, arguments)?;
    match options(alloc, words.as_slice()) {
        Ok(found) => Ok(answer_words(rt, &found)),
        Err(OptionsError::Words(error)) => {
            rt.eprint(&error)?;
            Ok(WRONG_WORDS)
        }
        Err(OptionsError::Memory) => Err(AllocError.into()),
    }
}

/// Answers over standard input and standard output.
fn answer_words<R: Alloc<A = Global> + Input + Print>(rt: &R, options: &Options) -> u8 {
    let mut grammar = Watched::new(rt.reader());
    let mut out = Watched::new(io::writer(rt));
    run_words(rt.alloc(), options, &mut grammar, &mut out)
}

fn texts(alloc: Global, words: &[String]) -> Result<Vec<&str>, AllocError> {
    words.iter().map(|word| word.as_str()).collect(alloc)
}

/// What is said where the words couldn't be read or a fault of theirs couldn't be written.
fn tell_fault(rt: &impl Print, error: &io::Error) -> u8 {
    if error.kind() != io::ErrorKind::OutOfMemory {
        return WRITE_FAULT;
    }
    match rt.print("out of memory\n") {
        Ok(()) => OUT_OF_MEMORY,
        Err(_) => WRITE_FAULT,
    }
}
