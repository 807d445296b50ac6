//! Lane tables and their columns.

ghost use Rattle.std.specs.Prelude.{◌≡◌, ◌<◌, length};

use crate::check::{check, is_debug};
use crate::grammars::{grammar_of, token_of};
use lalrpop_grammar_repr::TerminalSet;
use lalrpop_lane_tables::{
    ConflictIndex, ContextFault, ContextSet, LaneTable, OverlappingLookahead, RowsFault,
};
use lalrpop_lr1_core::StateIndex;
use lalrpop_sets::{Collection, TokenSet};
use std::alloc::Global;
use std::process::Abort;

/// A grammar whose terminals are a, b and c, with the numbers 0, 1 and 2.
const LETTERS: &str = "S: \"c\" \"a\" \"b\"\n";

/// Why the columns refuse a set that has a token of another column.
const OVERLAP: ContextFault = ContextFault::Overlap(OverlappingLookahead);

/// The first of two columns, and the second.
const FIRST: ConflictIndex = ConflictIndex { index: 0 };

const SECOND: ConflictIndex = ConflictIndex { index: 1 };

/// The set of the terminal alone.
pub(crate) fn set_of(
    rt: &impl Abort,
    alloc: Global,
    letter: &str,
    terminals: &TerminalSet,
) -> TokenSet {
    let token = token_of(rt, alloc, letter);
    TokenSet::from_token(alloc, &token, terminals).expect(rt, "memory")
}

/// Two columns, of which the one with this number has the letter.
fn columns_with(
    rt: &impl Abort,
    alloc: Global,
    letter: &str,
    terminals: &TerminalSet,
    column: usize,
) -> ContextSet
    requires { column < 2 }
    ensures { length result ≡ 2 }
{
    let set = set_of(rt, alloc, letter, terminals);
    let mut columns = ContextSet::new(alloc, 2).expect(rt, "memory");
    let came = columns.insert(ConflictIndex::new(column), &set);
    check(rt, came == Ok(true));
    columns
}

/// That a copy of columns with `a` in the first takes `b` in the second and nothing of what it has.
fn copy_takes_more(rt: &impl Abort, alloc: Global, terminals: &TerminalSet) {
    let columns = columns_with(rt, alloc, "a", terminals, 0);
    let mut copy = columns.try_clone(alloc).expect(rt, "memory");
    let a = set_of(rt, alloc, "a", terminals);
    let b = set_of(rt, alloc, "b", terminals);
    check(rt, copy.insert(FIRST, &a) == Ok(false));
    check(rt, copy.insert(SECOND, &a) == Err(OVERLAP));
    check(rt, copy.insert(SECOND, &b) == Ok(true));
}

/// That both columns are held by a union, and refused where one has a token of the other.
fn unions_hold_both(rt: &impl Abort, alloc: Global, terminals: &TerminalSet) {
    let one = columns_with(rt, alloc, "a", terminals, 0);
    let other = columns_with(rt, alloc, "b", terminals, 1);
    let mut both = ContextSet::union(alloc, &one, &other).expect(rt, "columns apart");
    let b = set_of(rt, alloc, "b", terminals);
    check(rt, both.insert(FIRST, &b) == Err(OVERLAP));
    check(rt, both.insert(SECOND, &b) == Ok(false));
}

/// That a union is refused where a column of the one has a token of another column of the other.
fn union_is_refused(rt: &impl Abort, alloc: Global, terminals: &TerminalSet) {
    let one = columns_with(rt, alloc, "a", terminals, 0);
    let other = columns_with(rt, alloc, "a", terminals, 1);
    match ContextSet::union(alloc, &one, &other) {
        Err(fault) => check(rt, fault == OVERLAP),
        Ok(_) => panic!(rt; "columns meet"),
    }
}

/// That columns that were refused memory are as before: what comes then, came not at first.
fn comes_once(rt: &impl Abort, alloc: Global, terminals: &TerminalSet) {
    let mut columns = columns_with(rt, alloc, "a", terminals, 0);
    let c = set_of(rt, alloc, "c", terminals);
    let first = columns.insert(FIRST, &c);
    let again = columns.insert(FIRST, &c);
    check(rt, again.is_err() | (again == Ok(first.is_err())));
}

/// Run with each allocation refused in turn (`rt try --test --fail-alloc N`), this sees that a refused insertion changes nothing.
#[test]
fn a_column_takes_what_no_other_has(rt: HostRuntime) {
    let alloc = rt.alloc();
    let grammar = grammar_of(&rt, alloc, LETTERS);
    copy_takes_more(&rt, alloc, &grammar.terminals);
    unions_hold_both(&rt, alloc, &grammar.terminals);
    union_is_refused(&rt, alloc, &grammar.terminals);
    comes_once(&rt, alloc, &grammar.terminals);
}

/// Adds the tokens in the state, in the column.
fn enter(
    rt: &impl Abort,
    table: &mut LaneTable<'_>,
    state: usize,
    column: ConflictIndex,
    set: &TokenSet,
)
    requires { column.index < table.old.conflicts }
    ensures { table.new.conflicts ≡ table.old.conflicts }
{
    table
        .add_lookahead(StateIndex(state), column, set)
        .expect(rt, "memory");
}

/// Notes that the state leads on to state 2.
fn lead_to_2(rt: &impl Abort, table: &mut LaneTable<'_>, state: usize)
    ensures { table.new.conflicts ≡ table.old.conflicts }
{
    match table.add_successor(StateIndex(state), StateIndex(2)) {
        Ok(()) => {}
        Err(_) => panic!(rt; "memory"),
    }
}

/// State 1 with `a` in one column and an empty entry in the other leads on to state 2 with `b`, as does state 3, which has no entry.
fn fill(rt: &impl Abort, alloc: Global, terminals: &TerminalSet, table: &mut LaneTable<'_>)
    requires { table.old.conflicts ≡ 2 }
    ensures { table.new.conflicts ≡ 2 }
{
    enter(rt, table, 1, SECOND, &TokenSet::empty(alloc));
    enter(rt, table, 1, FIRST, &set_of(rt, alloc, "a", terminals));
    enter(rt, table, 2, FIRST, &set_of(rt, alloc, "b", terminals));
    lead_to_2(rt, table, 1);
    lead_to_2(rt, table, 3);
}

/// The table, padded to columns.
const TABLE: &str = "| State | C0  | C1 | Successors |\n\
                     | S1    | {0} | {} | {S2}       |\n\
                     | S2    | {1} |    |            |\n\
                     | S3    |     |    | {S2}       |\n";

/// That the table is shown so, has three rows and one beachhead.
fn has_rows(rt: &impl Abort, alloc: Global, table: &LaneTable<'_>) {
    check(rt, is_debug(rt, alloc, table, TABLE));
    let rows = table.rows();
    check(rt, rows.is_ok_and(|it| it.len() == 3));
    let beachheads = table.beachhead_states().expect(rt, "memory");
    check(rt, is_debug(rt, alloc, &beachheads, "{S1}"));
    check(rt, table.columns().is_ok());
}

/// That state 3 leads on to state 2, which leads nowhere and has just `b` in its first column.
fn leads_on(rt: &impl Abort, alloc: Global, terminals: &TerminalSet, table: &LaneTable<'_>)
    requires { table.now.conflicts ≡ 2 }
{
    let successors = table.successors(StateIndex(3)).expect(rt, "successors");
    check(rt, is_debug(rt, alloc, successors, "{S2}"));
    check(rt, table.successors(StateIndex(2)).is_none());
    let mut row = table.context_set(StateIndex(2)).expect(rt, "a row");
    let b = set_of(rt, alloc, "b", terminals);
    check(rt, row.insert(FIRST, &b) == Ok(false));
    check(rt, row.insert(SECOND, &b) == Err(OVERLAP));
}

#[test]
fn rows_beachheads_and_text_of_a_table(rt: HostRuntime) {
    let alloc = rt.alloc();
    let grammar = grammar_of(&rt, alloc, LETTERS);
    let mut table = LaneTable::new(alloc, &grammar, 2);
    fill(&rt, alloc, &grammar.terminals, &mut table);
    has_rows(&rt, alloc, &table);
    leads_on(&rt, alloc, &grammar.terminals, &table);
}

/// That the columns meet where the token is in one column in state 1 and in the other in state 2, though no row has it in both.
fn meet_in_two_rows(rt: &impl Abort, set: &TokenSet, table: &mut LaneTable<'_>)
    requires { table.old.conflicts ≡ 2 }
{
    enter(rt, table, 1, FIRST, set);
    enter(rt, table, 2, SECOND, set);
    check(rt, table.columns().is_err() & table.rows().is_ok());
}

/// That no rows come of a table where the token is in both columns in state 3.
fn meet_in_one_row(rt: &impl Abort, set: &TokenSet, table: &mut LaneTable<'_>)
    requires { table.old.conflicts ≡ 2 }
{
    enter(rt, table, 3, FIRST, set);
    enter(rt, table, 3, SECOND, set);
    let rows = table.rows();
    check(
        rt,
        rows.is_err_and(|it| it == RowsFault::Overlap(StateIndex(3))),
    );
}

#[test]
fn columns_meet_in_two_rows_or_in_one(rt: HostRuntime) {
    let alloc = rt.alloc();
    let grammar = grammar_of(&rt, alloc, LETTERS);
    let set = set_of(&rt, alloc, "b", &grammar.terminals);
    let mut apart = LaneTable::new(alloc, &grammar, 2);
    meet_in_two_rows(&rt, &set, &mut apart);
    let mut met = LaneTable::new(alloc, &grammar, 2);
    meet_in_one_row(&rt, &set, &mut met);
}
