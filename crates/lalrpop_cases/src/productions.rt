//! The tables at work over plain productions, which are read from standard input: how many states they have, whether these may be
//! parsed with, the tree of tokens, or whether tokens are a sentence. On standard error stands how long the states, their test, or the
//! moves of the parse took.

ghost use Rattle.std.specs.Prelude.{IfOk};
ghost use Rattle.lalrpop_lr1_build.specs.CollapseAnswers.{AreCanonicalOf};
ghost use Rattle.lalrpop_lr1_first.specs.NumberedGrammars.{HasItsTerminals};
ghost use Rattle.lalrpop_lr1_interpret.specs.Ends.{MayRun};
ghost use Rattle.lalrpop_lr1_interpret.specs.Parses.{AreParsable};

use anyhow::{Context, Result, bail};
use lalrpop_grammar::ScanToken;
use lalrpop_grammar_repr::methods::Method;
use lalrpop_grammar_repr::{Grammar, TerminalSet};
use lalrpop_grammar_symbols::NonterminalString;
use lalrpop_lane::build_lr1_states;
use lalrpop_lr1_check::check_states;
use lalrpop_lr1_core::{Lr1Result, Lr1State, TableFault};
use lalrpop_lr1_interpret::parse::{ActionTable, NoTrees, Stop};
use lalrpop_plain_tables::answers::{
    Canonical, canonical_states, counts_of, parsable_states, read_productions, start_of,
};
use lalrpop_table_cases::{stop_text, tokens_of, tree_text};
use std::alloc::{AllocError, Global};
use std::rt::{Clock, Files};
use std::time::Instant;
use std::{fs, io};

/// Answers what is asked from the start of the productions on standard input, by the word and what stands behind it.
pub(crate) fn answer_productions<R: Alloc<A = Global> + Clock + Eprint + Files + Input + Print>(
    rt: &R,
    start: &str,
    word: &str,
    of: &str,
) -> Result<u8> {
    let start = start_of(rt.alloc(), start)?;
    let grammar = read_grammar(rt)?;
    tell(rt, &grammar, &start, word, of)?;
    Ok(0)
}

/// The grammar whose productions stand on standard input.
fn read_grammar<R: Alloc<A = Global> + Input>(rt: &R) -> Result<Grammar>
    ensures { IfOk result HasItsTerminals }
{
    let text = io::read_to_string(rt.alloc(), rt.reader())?;
    let grammar = read_productions(rt.alloc(), text.as_str())?;
    Ok(grammar)
}

/// Tells what the word asks of the grammar.
fn tell<R: Alloc<A = Global> + Clock + Eprint + Files + Print>(
    rt: &R,
    grammar: &Grammar,
    start: &NonterminalString,
    word: &str,
    of: &str,
) -> Result<()>
    requires { HasItsTerminals grammar.now }
{
    match word {
        "counts" => tell_counts(rt, grammar, start),
        "check" => tell_check(rt, grammar, start),
        "lanes" => tell_lanes(rt, grammar, start, of),
        "tokens" => tell_tree(rt, grammar, start, of),
        "sentence" => tell_sentence(rt, grammar, start, of),
        _ => bail!("nothing is asked by {word}"),
    }
}

/// Tells how many states and conflicts there are.
fn tell_counts<R: Alloc<A = Global> + Clock + Eprint + Print>(
    rt: &R,
    grammar: &Grammar,
    start: &NonterminalString,
) -> Result<()>
    requires { HasItsTerminals grammar.now }
{
    let began = Instant::now(rt)?;
    let canonical = canonical_states(rt.alloc(), grammar, start)?;
    tell_counts_of(rt, grammar, start, &canonical, began)
}

/// The same of a grammar whose canonical states are these, which took the time since then.
fn tell_counts_of<R: Alloc<A = Global> + Clock + Eprint + Print>(
    rt: &R,
    grammar: &Grammar,
    start: &NonterminalString,
    canonical: &Canonical<'_>,
    began: Instant,
) -> Result<()>
    requires { AreCanonicalOf grammar.now start.now grammar.now.terminals canonical.now.states.items }
{
    tell_time(rt, began)?;
    let counts = counts_of(rt.alloc(), grammar, start, canonical)?;
    println!(rt; "{counts}")?;
    Ok(())
}

/// Tells whether the canonical states may be parsed with.
fn tell_check<R: Alloc<A = Global> + Clock + Eprint + Print>(
    rt: &R,
    grammar: &Grammar,
    start: &NonterminalString,
) -> Result<()>
    requires { HasItsTerminals grammar.now }
{
    let canonical = canonical_states(rt.alloc(), grammar, start)?;
    tell_checked(rt, grammar, start, canonical.states.as_slice())
}

/// Tells whether these canonical states may be parsed with.
fn tell_checked<R: Alloc<A = Global> + Clock + Eprint + Print>(
    rt: &R,
    grammar: &Grammar,
    start: &NonterminalString,
    states: &[Lr1State<'_>],
) -> Result<()>
    requires { HasItsTerminals grammar.now }
{
    let began = Instant::now(rt)?;
    let checked = check_states(rt.alloc(), grammar, start, states)?;
    tell_time(rt, began)?;
    let count = states.len();
    println!(rt; "{count} canonical states, which may be parsed with: {checked}")?;
    Ok(())
}

/// Tells how many states there are by lanes, with at most so many copies.
fn tell_lanes<R: Alloc<A = Global> + Clock + Eprint + Print>(
    rt: &R,
    grammar: &Grammar,
    start: &NonterminalString,
    copies: &str,
) -> Result<()>
    requires { HasItsTerminals grammar.now }
{
    let copies = copies.parse::<usize>()?;
    let start = start.try_clone()?;
    let began = Instant::now(rt)?;
    let built = build_lr1_states(rt.alloc(), grammar, start, Method::Lane { copies });
    tell_time(rt, began)?;
    tell_built(rt, built)
}

/// Tells how many there are.
fn tell_count<R: Print>(rt: &R, count: usize, what: &str) -> Result<()> {
    println!(rt; "{count} {what}")?;
    Ok(())
}

/// Tells how many states were built, or how many conflicts there are.
fn tell_built<R: Print>(rt: &R, built: Lr1Result<'_>) -> Result<()> {
    match built {
        Ok(states) => tell_count(rt, states.len(), "states"),
        Err(TableFault::Conflicts(error)) => tell_count(rt, error.conflicts.len(), "conflicts"),
        Err(TableFault::Memory) => Err(AllocError.into()),
    }
}

/// Tells the tree of the tokens, or where they are stuck.
fn tell_tree<R: Alloc<A = Global> + Print>(
    rt: &R,
    grammar: &Grammar,
    start: &NonterminalString,
    tokens: &str,
) -> Result<()>
    requires { HasItsTerminals grammar.now }
{
    let text = tree_text(rt.alloc(), grammar, start, tokens)?;
    println!(rt; "{text}")?;
    Ok(())
}

/// Tells whether the tokens between blanks in the file are a sentence, by a parse that makes no tree.
fn tell_sentence<R: Alloc<A = Global> + Clock + Eprint + Files + Print>(
    rt: &R,
    grammar: &Grammar,
    start: &NonterminalString,
    file: &str,
) -> Result<()>
    requires { HasItsTerminals grammar.now }
{
    let tokens = read_sentence(rt, file)?;
    let states = parsable_states(rt.alloc(), grammar, start, Method::Canonical)?;
    tell_parse(rt, states.as_slice(), &grammar.terminals, tokens.as_slice())
}

/// The tokens between blanks in the file.
fn read_sentence<R: Alloc<A = Global> + Files>(
    rt: &R,
    file: &str,
) -> Result<Vec<ScanToken<'static>>> {
    let text = fs::read_to_string(rt, file).context(format_args!("reading {file}"))?;
    Ok(tokens_of(rt.alloc(), text.as_str())?)
}

/// Tells how the parse of the tokens by the states ends.
fn tell_parse<R: Alloc<A = Global> + Clock + Eprint + Print>(
    rt: &R,
    states: &[Lr1State<'_>],
    terminals: &TerminalSet,
    tokens: &[ScanToken<'_>],
) -> Result<()>
    requires { AreParsable terminals.now states.now }
{
    let table = ActionTable::new(rt.alloc(), states, terminals)?;
    tell_parse_by(rt, &table, tokens)
}

/// Tells how the parse of the tokens by the table ends.
fn tell_parse_by<R: Alloc<A = Global> + Clock + Eprint + Print>(
    rt: &R,
    table: &ActionTable<'_>,
    tokens: &[ScanToken<'_>],
) -> Result<()>
    requires { MayRun table.now }
{
    let began = Instant::now(rt)?;
    let parsed = table.parse_onto(rt.alloc(), tokens, u64::MAX, &mut NoTrees);
    tell_time(rt, began)?;
    tell_parsed(rt, parsed, tokens.len())
}

/// Tells how the parse of so many tokens ended.
fn tell_parsed<R: Alloc<A = Global> + Print>(
    rt: &R,
    parsed: Result<(), Stop>,
    count: usize,
) -> Result<()> {
    match parsed {
        Ok(()) => println!(rt; "a sentence of {count} tokens")?,
        Err(stop) => tell_stop(rt, stop)?,
    }
    Ok(())
}

/// Tells why the tokens are no sentence.
fn tell_stop<R: Alloc<A = Global> + Print>(rt: &R, stop: Stop) -> Result<()> {
    let why = stop_text(rt.alloc(), stop)?;
    println!(rt; "no sentence: {why}")?;
    Ok(())
}

/// Tells how long it took since then.
fn tell_time<R: Clock + Eprint>(rt: &R, began: Instant) -> Result<()> {
    let micros = began.elapsed(rt)?.as_micros();
    eprintln!(rt; "{}.{:03} ms", micros / 1000, micros % 1000)?;
    Ok(())
}
