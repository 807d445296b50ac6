//! What is answered where each question is asked twice: whatever memory was refused to the first answer, the second is as ever.
//!
//! Each answer is a line. One for which memory ran out says so, and what stands behind it is asked all the same.

mod conflicts;
mod given;
mod tracing;

use crate::twice::conflicts::tell_conflicts;
use crate::twice::given::prepared_of_file;
use anyhow::Result;
use lalrpop_grammar::{ScanToken, WrittenTree};
use lalrpop_grammar_repr::methods::Method;
use lalrpop_json_grammar::print_tree;
use lalrpop_lr1_interpret::parse::ExpandedTree;
use lalrpop_run_parser::folding::{fold, unfold};
use lalrpop_run_parser::{ParseError, Parser, Prepared, generate};
use std::alloc::{AllocError, Global};
use std::rt::Files;

/// The status where nothing could be asked.
const NOTHING_ASKED: u8 = 5;

/// How many leaves and nodes a tree may have.
const LIMIT: u64 = 1_000_000;

/// Asks for the start's parser of the grammar in the file, and the parser for the tokens and the tree of the text, each twice. Where
/// there is no parser, the conflicts are asked for instead.
pub(crate) fn answer_twice<R: Alloc<A = Global> + Files + Print>(
    rt: &R,
    start: &str,
    file: &str,
    text: &str,
) -> Result<u8> {
    match prepared_of_file(rt, start, file) {
        Ok(prepared) => {
            tell_prepared(rt, &prepared, text)?;
            Ok(0)
        }
        Err(difference) => {
            println!(rt; "{difference}")?;
            Ok(NOTHING_ASKED)
        }
    }
}

/// Asks for a parser twice, and the second, where there is one, for all else.
fn tell_prepared<R: Alloc<A = Global> + Print>(
    rt: &R,
    prepared: &Prepared,
    text: &str,
) -> Result<()> {
    tell_generated(rt, prepared)?;
    match generate(rt.alloc(), prepared, Method::Canonical) {
        Ok(parser) => {
            println!(rt; "parser with {} states", parser.state_count())?;
            tell_answers(rt, prepared, &parser, text)?;
            tell_answers(rt, prepared, &parser, text)
        }
        Err(refusal) => {
            println!(rt; "{refusal}")?;
            tell_conflicts(rt, prepared)
        }
    }
}

/// Asks for a parser, and tells how many states it has, or why there is none.
fn tell_generated<R: Alloc<A = Global> + Print>(rt: &R, prepared: &Prepared) -> Result<()> {
    match generate(rt.alloc(), prepared, Method::Canonical) {
        Ok(parser) => println!(rt; "parser with {} states", parser.state_count())?,
        Err(refusal) => println!(rt; "{refusal}")?,
    }
    Ok(())
}

/// Asks the parser for the tokens and for the tree of the text.
fn tell_answers<R: Alloc<A = Global> + Print>(
    rt: &R,
    prepared: &Prepared,
    parser: &Parser<'_>,
    text: &str,
) -> Result<()> {
    match parser.scan(rt.alloc(), text) {
        Ok(tokens) => tell_tokens(rt, tokens.as_slice())?,
        Err(fault) => println!(rt; "{fault}")?,
    }
    match parser.parse(rt.alloc(), text, LIMIT) {
        Ok(tree) => tell_tree(rt, prepared, &tree),
        Err(ParseError::Memory) => tell(rt, "out of memory"),
        Err(_) => tell(rt, "no tree"),
    }
}

/// Tells the line.
pub(crate) fn tell(rt: &impl Print, line: &str) -> Result<()> {
    println!(rt; "{line}")?;
    Ok(())
}

/// Tells the texts of the tokens.
fn tell_tokens(rt: &impl Print, tokens: &[ScanToken<'_>]) -> Result<()> {
    print!(rt; "tokens")?;
    for token in tokens {
        print!(rt; " {}", token.text)?;
    }
    tell(rt, "")
}

/// Tells how many leaves and nodes the tree has when it is folded, and what that tree is unfolded to.
fn tell_tree<R: Alloc<A = Global> + Print>(
    rt: &R,
    prepared: &Prepared,
    tree: &WrittenTree,
) -> Result<()> {
    match fold(rt.alloc(), prepared, tree) {
        Ok(folded) => {
            println!(rt; "folded to {} leaves and nodes", folded.node_count())?;
            tell_unfolded(rt, prepared, &folded)
        }
        Err(_) => tell(rt, "out of memory"),
    }
}

/// Tells what the tree is unfolded to.
fn tell_unfolded<R: Alloc<A = Global> + Print>(
    rt: &R,
    prepared: &Prepared,
    folded: &ExpandedTree<'_>,
) -> Result<()> {
    match unfolded_text(rt.alloc(), prepared, folded) {
        Ok(text) => println!(rt; "{text}")?,
        Err(_) => println!(rt; "out of memory")?,
    }
    Ok(())
}

/// The text of what the tree is unfolded to.
fn unfolded_text(
    alloc: Global,
    prepared: &Prepared,
    folded: &ExpandedTree<'_>,
) -> Result<String, AllocError> {
    let tree = unfold(alloc, prepared, folded)?;
    print_tree(alloc, &tree)
}
