//! Reports of tables, byte for byte.

ghost use Rattle.lalrpop_lane_report.specs.TableReports.{IsNoMemory};
ghost use Rattle.lalrpop_lr1_first.specs.NumberedGrammars.{HasItsTerminals};

use crate::check::{check, text_is};
use crate::grammars::{grammar_of, name_of, terminal_of};
use lalrpop_grammar_repr::{Grammar, TerminalSet};
use lalrpop_grammar_streams::Watched;
use lalrpop_lane_report::{
    HasDisplayLen, ReportError, ReportGenerator, generate_report, report_text,
};
use lalrpop_lr1_build::build_lr1_states_canonical;
use lalrpop_lr1_core::{Lr1Result, TableFault};
use std::alloc::Global;
use std::io::{self, Error, Write};
use std::process::Abort;

/// What stands before each summary.
const HEAD: &str =
    "Lalrpop Report File\n========================================\n\nSummary\n----------------------------------------\n\n";

/// What stands before the states.
const SECTION: &str = "\nState Table\n----------------------------------------\n";

/// The summary where there are conflicts.
const FAILURE: &str =
    "Failure\nConstructed 3 states\nHas 1 conflicts\n    reduce/reduce: 1\nStates with conflicts:  2\n";

/// `__S = S; S = "a"`
const ALONE: &str = "__S: S\nS: \"a\"\n";

/// Its three states.
const ALONE_STATES: &str = r#"
State 0 {

    S   -> . "a"
        lookahead Eof

    __S -> . S
        lookahead Eof

    "a" shift and goto 2

    S   goto 1
}

State 1 {

    __S -> S .
        lookahead Eof


    reduction __S -> S
        lookahead Eof


}

State 2 {

    S -> "a" .
        lookahead Eof


    reduction S -> "a"
        lookahead Eof


}
"#;

/// `__S = S; S = "a" or "a"`
const TWICE: &str = "__S: S\nS: \"a\"\nS: \"a\"\n";

/// Its three states, the last one with a conflict.
const TWICE_STATES: &str = r#"
State 0 {

    S   -> . "a"
        lookahead Eof

    S   -> . "a"
        lookahead Eof

    __S -> . S
        lookahead Eof

    "a" shift and goto 2

    S   goto 1
}

State 1 {

    __S -> S .
        lookahead Eof


    reduction __S -> S
        lookahead Eof


}

State 2 {

    S -> "a" .
        lookahead Eof

    S -> "a" .
        lookahead Eof


    reduction S -> "a"
        lookahead Eof

    reduction S -> "a"
        lookahead Eof



    reduce/reduce conflict
        reduction S -> "a"
        reduction S -> "a"
        lookahead Eof
}
"#;

/// The canonical states, or those with conflicts.
fn tables_of<'g>(rt: &impl Abort, alloc: Global, grammar: &'g Grammar) -> Lr1Result<'g>
    requires { HasItsTerminals grammar.now }
    ensures { IsNoMemory result }
{
    match build_lr1_states_canonical(alloc, grammar, name_of(rt, alloc, "__S")) {
        Ok(states) => Ok(states),
        Err(TableFault::Conflicts(error)) => Err(TableFault::Conflicts(error)),
        Err(TableFault::Memory) => panic!(rt; "memory"),
    }
}

/// A writer that takes this text, a byte at a time, and no other. Then it fails.
#[derive(Drop)]
struct Expected<'a> {
    rest: &'a [u8],
}

impl Write for Expected<'_> {
    fn write(&mut self, buf: &[u8]) -> io::Result<usize> {
        match self.rest.split_first() {
            Some((wanted, rest)) if buf.first() == Some(wanted) => {
                self.rest = rest;
                Ok(1)
            }
            _ => Err(Error::other("the writer failed")),
        }
    }

    fn flush(&mut self) -> io::Result<()> {
        Ok(())
    }
}

/// What comes of the report to a writer that takes this text, and how much of that it hasn't taken.
fn report_to(
    alloc: Global,
    text: &[u8],
    tables: &Lr1Result<'_>,
    terminals: &TerminalSet,
) -> (Result<(), ReportError>, usize)
    requires { IsNoMemory tables.now }
{
    let mut out = Expected { rest: text };
    let mut writer = Watched::new(&mut out);
    let written = generate_report(alloc, &mut writer, tables, terminals);
    (written, out.rest.len())
}

/// That the report of the grammar's tables is this summary and these states.
fn reports(rt: &impl Abort, alloc: Global, lines: &str, summary: &str, states: &str) {
    let grammar = grammar_of(rt, alloc, lines);
    let tables = tables_of(rt, alloc, &grammar);
    let text = report_text(alloc, &tables, &grammar.terminals).expect(rt, "memory");
    let wanted = format!(in alloc; "{HEAD}{summary}{SECTION}{states}").expect(rt, "memory");
    check(rt, text_is(text, wanted.as_str()));
}

#[test]
fn states_and_conflicts(rt: HostRuntime) {
    reports(
        &rt,
        rt.alloc(),
        ALONE,
        "Constructed 3 states\n",
        ALONE_STATES,
    );
    reports(&rt, rt.alloc(), TWICE, FAILURE, TWICE_STATES);
}

/// That a writer that fails behind any front of the text gets that front.
fn breaks_off(
    rt: &impl Abort,
    alloc: Global,
    text: &[u8],
    tables: &Lr1Result<'_>,
    terminals: &TerminalSet,
)
    requires { IsNoMemory tables.now }
{
    let failed = (Err(ReportError::Write), 0);
    for room in 0..text.len() {
        let front = &text[..room];
        check(rt, report_to(alloc, front, tables, terminals) == failed);
    }
}

/// That a writer gets all of the text, or where memory is refused nothing of it.
fn is_whole_or_refused(
    rt: &impl Abort,
    alloc: Global,
    text: &[u8],
    tables: &Lr1Result<'_>,
    terminals: &TerminalSet,
)
    requires { IsNoMemory tables.now }
{
    let (written, left) = report_to(alloc, text, tables, terminals);
    let whole = (written == Ok(())) & (left == 0);
    let refused = (written == Err(ReportError::Memory)) & (left == text.len());
    check(rt, whole | refused);
}

/// That a generator writes the text.
fn is_generated(
    rt: &impl Abort,
    alloc: Global,
    text: &[u8],
    tables: &Lr1Result<'_>,
    terminals: &TerminalSet,
)
    requires { IsNoMemory tables.now }
{
    let mut out = Expected { rest: text };
    let mut writer = Watched::new(&mut out);
    let mut generator = ReportGenerator::new(&mut writer, terminals);
    let written = generator.report_lr_table_construction(alloc, tables);
    check(rt, written.is_ok());
    check(rt, out.rest.is_empty());
}

/// Run with each allocation refused in turn (`rt try --test --fail-alloc N`), this sees that nothing is written where memory is refused.
#[test]
fn reports_are_sent(rt: HostRuntime) {
    let alloc = rt.alloc();
    let grammar = grammar_of(&rt, alloc, TWICE);
    let tables = tables_of(&rt, alloc, &grammar);
    let text = report_text(alloc, &tables, &grammar.terminals).expect(&rt, "memory");
    is_whole_or_refused(&rt, alloc, text.as_bytes(), &tables, &grammar.terminals);
    breaks_off(&rt, alloc, text.as_bytes(), &tables, &grammar.terminals);
    is_generated(&rt, alloc, text.as_bytes(), &tables, &grammar.terminals);
}

#[test]
fn printed_lengths(rt: HostRuntime) {
    let name = name_of(&rt, rt.alloc(), "__S");
    check(&rt, HasDisplayLen::display_len(&name) == 3);
    let terminal = terminal_of(&rt, rt.alloc(), "a");
    check(&rt, HasDisplayLen::display_len(&terminal) == 3);
}
