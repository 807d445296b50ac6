//! Replies in words.

ghost use Rattle.std.specs.Prelude.{◌≡◌, ◌++◌, Some, codes, decimal};
ghost use Rattle.std.specs.Fmt.{WritesOnOk};
ghost use Rattle.lalrpop_grammar.specs.Views.{tree_view};
ghost use Rattle.lalrpop_json_grammar.specs.Printing.{tree_text};
ghost use Rattle.lalrpop_json_values.specs.FaultText.{fault_text};
ghost use Rattle.lalrpop_json_values.specs.JsonText.{json_text};
ghost use Rattle.lalrpop_run.specs.ReplyTexts.{IsPlainReply, line, reply_text};

use crate::replies::reply::Reply;
use lalrpop_grammar::{Atom, WrittenTree};
use lalrpop_json_grammar::{Fault, JsonText, TreeText};
use lalrpop_run_parser::conflicts::write_conflicts;
use std::fmt::{self, Display, Formatter, Write};

/// Writes of which value the fault is, and the fault.
fn write_fault<W: Write>(value: &str, fault: &Fault, f: &mut Formatter<W>) -> fmt::Result
    ensures { WritesOnOk W.write_str_gives f.old result (line (value.now ++ codes " value: " ++ fault_text fault.now)) f.new }
{
    writeln!(f, "{value} value: {fault}")
}

/// Writes how many states the parser has.
fn write_states<W: Write>(states: usize, f: &mut Formatter<W>) -> fmt::Result
    ensures { WritesOnOk W.write_str_gives f.old result (line (codes "parser with " ++ decimal states ++ codes " states")) f.new }
{
    writeln!(f, "parser with {states} states")
}

/// Writes at which byte there is no token.
fn write_no_token<W: Write>(at: usize, f: &mut Formatter<W>) -> fmt::Result
    ensures { WritesOnOk W.write_str_gives f.old result (line (codes "no token at byte " ++ decimal at)) f.new }
{
    writeln!(f, "no token at byte {at}")
}

/// Writes the tree.
fn write_tree<W: Write>(tree: &WrittenTree, f: &mut Formatter<W>) -> fmt::Result
    ensures { WritesOnOk W.write_str_gives f.old result (line (tree_text (tree_view tree.now))) f.new }
{
    writeln!(f, "{}", TreeText(tree))
}

/// Writes the text of a token, and at which byte it stands.
fn write_token<W: Write>(at: usize, text: &Atom, f: &mut Formatter<W>) -> fmt::Result
    ensures { WritesOnOk W.write_str_gives f.old result
        (line (codes "token " ++ json_text text.now ++ codes " at byte " ++ decimal at)) f.new }
{
    writeln!(f, "token {} at byte {at}", JsonText(text.as_str()))
}

/// Writes how many moves there may be.
fn write_limit<W: Write>(limit: u64, f: &mut Formatter<W>) -> fmt::Result
    ensures { WritesOnOk W.write_str_gives f.old result (line (codes "limit of " ++ decimal limit ++ codes " moves used up")) f.new }
{
    writeln!(f, "limit of {limit} moves used up")
}

impl Reply {
    /// The text, where the reply alone tells it; else nothing.
    fn plain_text(&self) -> &'static str
        ensures { IsPlainReply self.now → result.now ≡ reply_text self.now }
    {
        match self {
            Reply::Judged(true) => "yes\n",
            Reply::Judged(false) => "no\n",
            Reply::WantsTree => "judge needs --tree\n",
            Reply::NotJson => "not JSON\n",
            Reply::ConditionLimit => "condition limit\n",
            Reply::NotUtf8 => "text isn't UTF-8\n",
            Reply::EarlyEnd => "end of input\n",
            Reply::GrammarFault(_)
            | Reply::TreeFault(_)
            | Reply::Refused(_)
            | Reply::Conflicts(_)
            | Reply::Parser(_)
            | Reply::Tokens(_)
            | Reply::NoToken(_)
            | Reply::Tree(_)
            | Reply::WrongToken(_, _)
            | Reply::OverLimit(_)
            | Reply::Report(_, _) => "",
        }
    }
}

/// Prints what the program writes for the reply: each line ends with a line feed.
impl Display for Reply {
    ghost output = { λ reply. Some (reply_text reply) };

    fn fmt<W: Write>(&self, f: &mut Formatter<W>) -> fmt::Result {
        match self {
            Reply::GrammarFault(fault) => write_fault("grammar", fault, f),
            Reply::TreeFault(fault) => write_fault("tree", fault, f),
            Reply::Refused(error) => writeln!(f, "{error}"),
            Reply::Conflicts(conflicts) => write_conflicts(conflicts.as_slice(), f),
            Reply::Parser(states) => write_states(*states, f),
            Reply::Tokens(text) | Reply::Report(text, _) => f.write_str(text.as_str()),
            Reply::NoToken(at) => write_no_token(*at, f),
            Reply::Tree(tree) => write_tree(tree, f),
            Reply::WrongToken(at, text) => write_token(*at, text, f),
            Reply::OverLimit(limit) => write_limit(*limit, f),
            _ => f.write_str(self.plain_text()),
        }
    }
}
