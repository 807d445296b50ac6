//! The command line of the program.
ghost use Rattle.std.specs.Prelude.{IfOk, codes};
ghost use Rattle.clap.specs.Built.{IsPlain};
ghost use Rattle.clap.specs.Simple.{app_of};
ghost use Rattle.lalrpop_run_options.specs.Program.{AddsRules, IsArgument, IsMethodArgument, IsMethodCommand, IsProgram, IsTaskArgument};
ghost use Rattle.lalrpop_run_options.specs.Program.{IsTaskCommand, copies_rule, input_rules, limit_rule, limit_rules, macro_limit_rule, option_rule};
ghost use Rattle.lalrpop_run_options.specs.Program.{start_rule};

use crate::method::METHOD_WORDS;
use crate::task::TASK_WORDS;
use clap::{Arg, ArgAction, Command};
use std::alloc::{AllocError, Global};

/// The version that `--version` tells.
const VERSION: &str = "0.1.0";

/// What the help says below the options: each task with an example, and what the statuses are.
const TASKS_AND_STATUSES: &str = "\
Commands, each with its options and an example:
  parse   the tree of a text: --start; [--text, --features, --macro-limit, --limit, --method, --copies]
          lalrpop_run parse --start Expr --text '1+2*3' < examples/calculator.grammar.json
  check   whether the grammar has a parser: --start; [--features, --macro-limit, --method, --copies]
          lalrpop_run check --start Expr < examples/calculator.grammar.json
  tokens  the tokens of a text: --start; [--text, --features, --macro-limit, --method, --copies]
          lalrpop_run tokens --start S --text 'a b' < examples/lists.grammar.json
  judge   whether the grammar admits a tree: --start, --tree; [--features]
          lalrpop_run judge --start S --tree \"$(cat examples/lists.tree.json)\" < examples/lists.grammar.json
  report  the tables of the grammar, state by state: --start; [--features, --macro-limit, --method, --copies]
          lalrpop_run report --start S < examples/lists.grammar.json

Methods:
  lane       the states without lookaheads, where these leave no conflict; else the canonical ones
  canonical  canonical LR(1) states

Status:
  0  an answer
  1  the answer no, or a text without a tree
  2  a parse would make more moves than --limit says
  3  the grammar is refused, or its tables are reported with conflicts
  4  wrong words, a call for help or the version, or a value that can't be read
  5  out of memory
  6  a read or a write failed";

/// The command line of the program.
pub(crate) fn command<'a>(alloc: Global) -> Result<Command<'a>, AllocError>
    ensures program { IfOk result (λ c. IsProgram (app_of c)) }
    ensures plain { IfOk result IsPlain }
{
    let command = with_task(alloc)?;
    let command = with_inputs(alloc, command)?;
    let command = with_limits(alloc, command)?;
    with_method(alloc, command)
}

/// The program's name, its version and what it is for, with the word that names the task.
fn with_task<'a>(alloc: Global) -> Result<Command<'a>, AllocError>
    ensures { IfOk result IsTaskCommand }
{
    Command::new(alloc, "lalrpop_run")
        .bin_name("lalrpop_run")?
        .version(VERSION)
        .about("Answers for a grammar, which is read as JSON from standard input")
        .after_help(TASKS_AND_STATUSES)
        .arg(task(alloc))
}

/// The command with `--start`, `--text` and `--tree`.
fn with_inputs<'a>(alloc: Global, command: Command<'a>) -> Result<Command<'a>, AllocError>
    ensures { IfOk result (AddsRules input_rules command.entry) }
{
    command
        .arg(start(alloc))?
        .arg(option(
            alloc,
            "text",
            "TEXT",
            "The text to read [default: the empty text]",
        ))?
        .arg(option(alloc, "tree", "JSON", "The tree to judge"))
}

/// The command with `--features`, `--macro-limit` and `--limit`.
fn with_limits<'a>(alloc: Global, command: Command<'a>) -> Result<Command<'a>, AllocError>
    ensures { IfOk result (AddsRules limit_rules command.entry) }
{
    command
        .arg(features(alloc))?
        .arg(macro_limit(alloc))?
        .arg(limit(alloc))
}

/// The command with `--method` and `--copies`.
fn with_method<'a>(alloc: Global, command: Command<'a>) -> Result<Command<'a>, AllocError>
    ensures { IfOk result (IsMethodCommand command.entry) }
{
    command.arg(method(alloc))?.arg(copies(alloc))
}

/// The word that names the task.
fn task<'a>(alloc: Global) -> Arg<'a>
    ensures { IsTaskArgument result }
{
    Arg::new(alloc, "command")
        .value_name("COMMAND")
        .help("What to do")
        .action(ArgAction::Set)
        .required(true)
        .value_parser(TASK_WORDS.as_slice())
}

fn start<'a>(alloc: Global) -> Arg<'a>
    ensures { IsArgument start_rule result }
{
    option(alloc, "start", "NAME", "The rule to start from").required(true)
}

fn features<'a>(alloc: Global) -> Arg<'a>
    ensures { IsArgument (option_rule (codes "features")) result }
{
    option(
        alloc,
        "features",
        "LIST",
        "The features that are on, between commas [default: none]",
    )
}

fn macro_limit<'a>(alloc: Global) -> Arg<'a>
    ensures { IsArgument macro_limit_rule result }
{
    option(
        alloc,
        "macro-limit",
        "N",
        "How deep macros may call macros [default: 200]",
    )
    .value_parser(clap::value_parser!(u16))
}

fn limit<'a>(alloc: Global) -> Arg<'a>
    ensures { IsArgument limit_rule result }
{
    option(
        alloc,
        "limit",
        "N",
        "How many moves a parse may make [default: 1000000]",
    )
    .value_parser(clap::value_parser!(u64))
}

fn method<'a>(alloc: Global) -> Arg<'a>
    ensures { IsMethodArgument result }
{
    option(
        alloc,
        "method",
        "METHOD",
        "How LR(1) states are built [default: lane]",
    )
    .value_parser(METHOD_WORDS.as_slice())
}

fn copies<'a>(alloc: Global) -> Arg<'a>
    ensures { IsArgument copies_rule result }
{
    option(
        alloc,
        "copies",
        "N",
        "How many states may be copied by lane tables [default: 10000]",
    )
    .value_parser(clap::value_parser!(usize))
}

/// The option `--name`, with one value.
fn option<'a>(alloc: Global, name: &'a str, value_name: &'a str, help: &'a str) -> Arg<'a>
    ensures { IsArgument (option_rule name.entry.now) result }
{
    Arg::new(alloc, name)
        .long(name)
        .value_name(value_name)
        .help(help)
        .action(ArgAction::Set)
}
