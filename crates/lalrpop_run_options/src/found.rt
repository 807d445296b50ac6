//! What a parse found, as options.
ghost use Rattle.std.specs.Prelude.{◌≡◌, [], IfOk, IsSome, Some, codes, map, option_map, unwrap_or};
ghost use Rattle.std.specs.String.{string_bytes};
ghost use Rattle.clap.specs.Matches.{first_value, found_of};
ghost use Rattle.clap.specs.Walk.{rows_of, texts};
ghost use Rattle.lalrpop_run_options.specs.Given.{HasMethodWord, IsComplete, HasPassed};
ghost use Rattle.lalrpop_run_options.specs.Method.{lane_word};
ghost use Rattle.lalrpop_run_options.specs.Options.{AreOptionsOf, IsMethodOf, IsNumberOr, features_in};
ghost use Rattle.lalrpop_run_options.specs.Options.{text_of, tree_of};
ghost use Rattle.lalrpop_run_options.specs.Program.{parser_of_u16, parser_of_u64, parser_of_usize};
ghost use Rattle.lalrpop_run_options.specs.Task.{word_of};
ghost use Rattle.lalrpop_run_options.specs.declared.task.Task.{Task};

use crate::hidden::hidden_value;
use crate::method::from_word;
use crate::{Options, Task};
use clap::ArgMatches;
use lalrpop_grammar_repr::methods::Method;
use std::alloc::{AllocError, Global};

/// How deep macros may call macros where the words do not say.
const USUAL_MACRO_LIMIT: u16 = 200;

/// How many moves a parse may make where the words do not say.
const USUAL_LIMIT: u64 = 1_000_000;

/// How many states may be copied by lane tables where the words do not say.
const USUAL_COPIES: usize = 10_000;

/// The options that a parse found, with the values of `line` that were hidden from it.
pub(crate) fn read(
    alloc: Global,
    line: &[&str],
    matches: &ArgMatches<'_>,
) -> Result<Options, AllocError>
    requires { IsComplete (found_of matches.now) }
    ensures { IfOk result (AreOptionsOf (texts line.now) (rows_of (found_of matches.now))) }
{
    Ok(Options {
        task: task(matches),
        start: String::from_str(alloc, start(matches))?,
        text: text(alloc, line, matches)?,
        tree: tree(alloc, line, matches)?,
        features: features(alloc, matches.get_str("features").unwrap_or(""))?,
        macro_limit: macro_limit(matches),
        method: method(matches),
        limit: limit(matches),
    })
}

fn task(matches: &ArgMatches<'_>) -> Task
    requires { (t : Task) × (first_value (found_of matches.now) (codes "command")
        ≡ Some (word_of t)) }
    ensures { first_value (found_of matches.now) (codes "command") ≡ Some (word_of result) }
{
    Task::from_word(matches.get_str("command").unwrap())
}

fn start<'a>(matches: &ArgMatches<'a>) -> &'a str
    requires { IsSome (first_value (found_of matches.now) (codes "start")) }
    ensures { first_value (found_of matches.now) (codes "start") ≡ Some result.now }
{
    matches.get_str("start").unwrap()
}

fn text(alloc: Global, line: &[&str], matches: &ArgMatches<'_>) -> Result<String, AllocError>
    ensures { IfOk result (λ text. string_bytes text
        ≡ unwrap_or (text_of (texts line.now) (rows_of (found_of matches.now))) []) }
{
    let text = hidden_value("--text", line).or(matches.get_str("text"));
    String::from_str(alloc, text.unwrap_or(""))
}

fn tree(
    alloc: Global,
    line: &[&str],
    matches: &ArgMatches<'_>,
) -> Result<Option<String>, AllocError>
    ensures { IfOk result (λ tree. option_map string_bytes tree
        ≡ tree_of (texts line.now) (rows_of (found_of matches.now))) }
{
    match hidden_value("--tree", line).or(matches.get_str("tree")) {
        Some(tree) => Ok(Some(String::from_str(alloc, tree)?)),
        None => Ok(None),
    }
}

/// The parts of `list` between commas, but for empty ones.
fn features(alloc: Global, list: &str) -> Result<Vec<String>, AllocError>
    ensures { IfOk result (λ parts. map string_bytes parts.items ≡ features_in list.now) }
{
    let mut features = Vec::new(alloc);
    for part in list.split(',').filter(|part| !part.is_empty()) {
        features.push(String::from_str(alloc, part)?)?;
    }
    Ok(features)
}

fn macro_limit(matches: &ArgMatches<'_>) -> u16
    requires { HasPassed parser_of_u16 (codes "macro-limit") (found_of matches.now) }
    ensures { IsNumberOr USUAL_MACRO_LIMIT
        (first_value (found_of matches.now) (codes "macro-limit")) result }
{
    matches
        .get_one::<u16>("macro-limit")
        .unwrap_or(USUAL_MACRO_LIMIT)
}

fn limit(matches: &ArgMatches<'_>) -> u64
    requires { HasPassed parser_of_u64 (codes "limit") (found_of matches.now) }
    ensures { IsNumberOr USUAL_LIMIT (first_value (found_of matches.now) (codes "limit")) result }
{
    matches.get_one::<u64>("limit").unwrap_or(USUAL_LIMIT)
}

/// By lane tables where no word was given.
fn method(matches: &ArgMatches<'_>) -> Method
    requires method { HasMethodWord (found_of matches.now) }
    requires copies { HasPassed parser_of_usize (codes "copies") (found_of matches.now) }
    ensures { IsMethodOf (first_value (found_of matches.now) (codes "method"))
        (first_value (found_of matches.now) (codes "copies")) result }
{
    from_word(method_word(matches), copies(matches))
}

fn method_word<'a>(matches: &ArgMatches<'a>) -> &'a str
    ensures { result.now ≡ unwrap_or (first_value (found_of matches.now) (codes "method")) lane_word }
{
    matches.get_str("method").unwrap_or("lane")
}

fn copies(matches: &ArgMatches<'_>) -> usize
    requires { HasPassed parser_of_usize (codes "copies") (found_of matches.now) }
    ensures { IsNumberOr USUAL_COPIES (first_value (found_of matches.now) (codes "copies")) result }
{
    matches.get_one::<usize>("copies").unwrap_or(USUAL_COPIES)
}
