//! What the words ask for, on worked lines.

use crate::check::check;
use lalrpop_run::{Method, Options, OptionsError, Task, options};
use std::alloc::{AllocError, Global};
use std::process::Abort;

/// The words of a line, which stand between single blanks.
fn words<'l>(rt: &impl Abort, alloc: Global, line: &'l str) -> Vec<&'l str> {
    let words: Result<Vec<&'l str>, AllocError> = line.split(' ').collect(alloc);
    words.expect(rt, "memory")
}

/// What the words of the line ask for.
fn options_of(rt: &impl Abort, alloc: Global, line: &str) -> Box<Options> {
    let words = words(rt, alloc, line);
    let found = options(alloc, words.as_slice()).expect(rt, "options");
    Box::new(alloc, found).expect(rt, "memory")
}

/// That what isn't given has its usual value, for `judge` of the start `S`.
fn has_usual_values(rt: &impl Abort, found: &Options) {
    check(rt, found.task == Task::Judge);
    check(rt, found.start.as_str() == "S");
    check(rt, found.text.as_str() == "");
    check(rt, found.tree.is_none());
    check(rt, found.features.len() == 0);
    check(rt, found.macro_limit == 200);
    check(rt, found.method == Method::Lane { copies: 10_000 });
    check(rt, found.limit == 1_000_000);
}

// Between the commas of a list stand no features.
#[test]
fn what_is_not_given_has_its_usual_value(rt: HostRuntime) {
    let found = options_of(&rt, rt.alloc(), "lalrpop_run judge --start S");
    has_usual_values(&rt, &found);
    let found = options_of(&rt, rt.alloc(), "r judge --start S --features ,,");
    has_usual_values(&rt, &found);
}

/// Whether it is this text, or none as there.
fn is_text(found: Option<&str>, wanted: Option<&str>) -> bool {
    found == wanted
}

/// Whether these are the two features.
fn has_features(found: &[String], one: &str, other: &str) -> bool {
    match found {
        [first, second] => (first.as_str() == one) & (second.as_str() == other),
        _ => false,
    }
}

/// That these are the texts of the line below.
fn has_texts(rt: &impl Abort, found: &Options) {
    check(rt, found.task.word() == "judge");
    check(rt, found.start.as_str() == "Expr");
    check(rt, found.text.as_str() == "1+2");
    check(rt, is_text(found.tree.as_deref(), Some("{}")));
    check(rt, has_features(found.features.as_slice(), "a", "b"));
}

/// That these are the numbers of the line below.
fn has_numbers(rt: &impl Abort, found: &Options) {
    check(rt, found.macro_limit == 65_535);
    check(rt, found.method == Method::Lane { copies: 7 });
    check(rt, found.limit == 18_446_744_073_709_551_615);
}

#[test]
fn each_option_is_read(rt: HostRuntime) {
    let line = "lalrpop_run --limit=18446744073709551615 --tree {} --macro-limit 65535 judge \
        --features a,,b --text 1+2 --start=Expr --copies=7 --method lane";
    let found = options_of(&rt, rt.alloc(), line);
    has_texts(&rt, &found);
    has_numbers(&rt, &found);
}

#[test]
fn the_canonical_way_has_no_copies(rt: HostRuntime) {
    let line = "lalrpop_run check --copies 7 --start S --method canonical";
    let found = options_of(&rt, rt.alloc(), line);
    check(&rt, found.task == Task::Check);
    check(&rt, found.method == Method::Canonical);
}

/// That the line's start, text and tree are these.
fn asks_for(
    rt: &impl Abort,
    alloc: Global,
    line: &str,
    start: &str,
    text: &str,
    tree: Option<&str>,
) {
    let found = options_of(rt, alloc, line);
    check(rt, found.start.as_str() == start);
    check(rt, found.text.as_str() == text);
    check(rt, is_text(found.tree.as_deref(), tree));
}

#[test]
fn texts_and_trees_may_begin_with_dashes(rt: HostRuntime) {
    let alloc = rt.alloc();
    let line = "r judge --text --tree --start S --tree -1";
    asks_for(&rt, alloc, line, "S", "--tree", Some("-1"));
    let line = "r --text=-x --start S --tree=-- judge";
    asks_for(&rt, alloc, line, "S", "-x", Some("--"));
    asks_for(&rt, alloc, "r judge --start  --text --", "", "--", None);
}

/// The text of the fault of the line's words.
fn fault_of(rt: &impl Abort, alloc: Global, line: &str) -> String {
    let words = words(rt, alloc, line);
    match options(alloc, words.as_slice()) {
        Err(OptionsError::Words(error)) => { format!(in alloc; "{error}").expect(rt, "memory") }
        _ => panic!(rt; "no fault"),
    }
}

/// That the fault of the line's words has this text, and tells of help.
fn is_worded(rt: &impl Abort, alloc: Global, line: &str, wanted: &str) {
    let found = fault_of(rt, alloc, line);
    let whole = format!(in alloc; "{wanted}\nFor more information, try '--help'.\n");
    let whole = whole.expect(rt, "memory");
    check(rt, found.as_str() == whole.as_str());
}

#[test]
fn faults_are_worded_by_clap(rt: HostRuntime) {
    let alloc = rt.alloc();
    let wanted = "error: invalid value 'x' for '--limit <N>': invalid digit found in string\n";
    is_worded(&rt, alloc, "r judge --start S --limit x", wanted);
    let wanted = "error: the following required arguments were not provided:\n  --start <NAME>\n\n\
        Usage: lalrpop_run --start <NAME> <COMMAND>\n";
    is_worded(&rt, alloc, "r judge", wanted);
}
