//! Readers and writers that fail or are interrupted, and the bounds on them, by runs over lists.

use crate::check::check;
use crate::program::grammars::{LISTS, MISSHAPEN, ONE_STEP, REFUSED};
use crate::program::streams::{Blanks, Pieces, Room};
use lalrpop_grammar_streams::{Source, Watched};
use lalrpop_run::{options, run};
use std::alloc::Global;
use std::io::Read;
use std::process::Abort;

/// The words of `judge` with a tree that the lists admit.
static JUDGE: [&str; 6] = ["lalrpop_run", "judge", "--start", "S", "--tree", ONE_STEP];

/// The words of `tokens`.
static TOKENS: [&str; 4] = ["lalrpop_run", "tokens", "--start", "S"];

/// The words of `check`.
static CHECK: [&str; 4] = ["lalrpop_run", "check", "--start", "S"];

/// The words of `parse`.
static PARSE: [&str; 4] = ["lalrpop_run", "parse", "--start", "S"];

/// What `parse` answers to `a b`.
const TREE: &str = "S#0(\"a\", S#1(\"b\"))\n";

/// That a run over these readers and this writer ends so.
pub(crate) fn ends<R1: Read + Drop, R2: Read + Drop>(
    rt: &impl Abort,
    words: &[&str],
    readers: (R1, R2),
    mut out: Room,
    text: &str,
    status: u8,
) {
    let alloc = *out.taken.allocator();
    let options = options(alloc, words).expect(rt, "options");
    let options = Box::new(alloc, options).expect(rt, "memory");
    let mut grammar = Watched::new(readers.0);
    let mut unread = Watched::new(readers.1);
    let found = {
        let mut writer = Watched::new(&mut out);
        run(alloc, &options, &mut grammar, &mut unread, &mut writer)
    };
    check(rt, found == status);
    check(rt, out.taken.as_slice() == text.as_bytes());
}

/// That `judge` over this reader of the grammar and this writer ends so. The text's reader would fail.
fn judge_ends<R: Read + Drop>(rt: &impl Abort, grammar: R, out: Room, text: &str, status: u8) {
    let unread = Pieces::failing(b"", 0);
    ends(rt, &JUDGE, (grammar, unread), out, text, status);
}

fn lists() -> &'static [u8] {
    LISTS.as_bytes()
}

/// A writer that takes all.
pub(crate) fn all_room(alloc: Global) -> Room {
    Room::new(alloc, usize::MAX, 0)
}

/// That `judge` ends so where its reader fails after so many calls.
fn judge_ends_after(rt: &impl Abort, alloc: Global, calls: u64, text: &str, status: u8) {
    let reader = Pieces::failing(lists(), calls);
    judge_ends(rt, reader, all_room(alloc), text, status);
}

// The last call finds the end.
#[test]
fn a_failing_read_is_a_read_fault(rt: HostRuntime) {
    for calls in 0..=lists().len() as u64 {
        judge_ends_after(&rt, rt.alloc(), calls, "read fault\n", 6);
    }
    let calls = lists().len() as u64 + 1;
    judge_ends_after(&rt, rt.alloc(), calls, "yes\n", 0);
}

/// That `judge` leaves this front where so many bytes are taken.
fn judge_leaves(rt: &impl Abort, alloc: Global, room: usize, front: &str) {
    judge_ends(rt, lists(), Room::new(alloc, room, 0), front, 6);
}

#[test]
fn a_failing_write_leaves_a_front(rt: HostRuntime) {
    judge_leaves(&rt, rt.alloc(), 0, "");
    judge_leaves(&rt, rt.alloc(), 1, "y");
    judge_leaves(&rt, rt.alloc(), 2, "ye");
    judge_leaves(&rt, rt.alloc(), 3, "yes");
    let out = Room::new(rt.alloc(), 4, 0);
    judge_ends(&rt, Pieces::failing(lists(), 0), out, "read", 6);
}

/// That `judge` ends so where its reader gives so many blanks, at most so many a call.
fn blanks_end(rt: &impl Abort, alloc: Global, blanks: Blanks, text: &str, status: u8) {
    judge_ends(rt, blanks, all_room(alloc), text, status);
}

/// So many blanks, at most so many a call.
fn blanks(left: usize, piece: usize) -> Blanks {
    Blanks { left, piece }
}

#[test]
fn bytes_beyond_the_bound_are_a_read_fault(rt: HostRuntime) {
    let few = blanks(16_777_216, usize::MAX);
    blanks_end(&rt, rt.alloc(), few, "not JSON\n", 4);
    let many = blanks(16_777_217, usize::MAX);
    blanks_end(&rt, rt.alloc(), many, "read fault\n", 6);
}

#[test]
fn a_reader_without_an_end_is_a_read_fault(rt: HostRuntime) {
    let endless = blanks(usize::MAX, usize::MAX);
    blanks_end(&rt, rt.alloc(), endless, "read fault\n", 6);
    let slow = blanks(usize::MAX, 1);
    blanks_end(&rt, rt.alloc(), slow, "read fault\n", 6);
}

/// That `judge` ends so where so many calls of its reader are interrupted.
fn interrupted_ends(rt: &impl Abort, alloc: Global, interruptions: u64, text: &str, status: u8) {
    let reader = Pieces::with_interruptions(lists(), interruptions);
    judge_ends(rt, reader, all_room(alloc), text, status);
}

// One call gives the bytes, and one finds the end.
#[test]
fn interrupted_reads_are_borne_up_to_the_bound(rt: HostRuntime) {
    interrupted_ends(&rt, rt.alloc(), 33_554_429, "yes\n", 0);
    interrupted_ends(&rt, rt.alloc(), 33_554_430, "read fault\n", 6);
    interrupted_ends(&rt, rt.alloc(), u64::MAX, "read fault\n", 6);
}

#[test]
fn interrupted_writes_are_borne_up_to_the_bound(rt: HostRuntime) {
    let out = Room::new(rt.alloc(), usize::MAX, 33_554_431);
    judge_ends(&rt, lists(), out, "yes\n", 0);
    let out = Room::new(rt.alloc(), usize::MAX, u64::MAX);
    judge_ends(&rt, lists(), out, "", 6);
}

// Also where a literal is refused.
#[test]
fn a_failing_read_of_the_text_is_a_read_fault(rt: HostRuntime) {
    for calls in 0..4 {
        let readers = (REFUSED.as_bytes(), Pieces::failing(b"aaa", calls));
        ends(
            &rt,
            &TOKENS,
            readers,
            all_room(rt.alloc()),
            "read fault\n",
            6,
        );
    }
}

#[test]
fn a_text_that_is_only_interrupted_is_a_read_fault(rt: HostRuntime) {
    let text = Pieces::with_interruptions(b"a", u64::MAX);
    let out = all_room(rt.alloc());
    ends(&rt, &TOKENS, (lists(), text), out, "read fault\n", 6);
}

/// That `parse` over the lists answers the tree of `a b` by this reader of the text.
fn parses<R: Read + Drop>(rt: &impl Abort, alloc: Global, text: &mut Watched<R>) {
    let options = options(alloc, &PARSE).expect(rt, "options");
    let options = Box::new(alloc, options).expect(rt, "memory");
    let mut grammar = Watched::new(lists());
    let mut out = all_room(alloc);
    let found = {
        let mut writer = Watched::new(&mut out);
        run(alloc, &options, &mut grammar, text, &mut writer)
    };
    check(rt, found == 0);
    check(rt, out.taken.as_slice() == TREE.as_bytes());
}

// It is asked for nothing before the run.
#[test]
fn an_empty_buffer_ends_no_text(rt: HostRuntime) {
    let mut text = Watched::new(Pieces::failing(b"a b", 5));
    check(&rt, text.read(&mut []).expect(&rt, "nothing") == 0);
    parses(&rt, rt.alloc(), &mut text);
}

/// That `tokens` ends so over this grammar, and reads no text.
fn refuses(rt: &impl Abort, alloc: Global, grammar: &str, text: &str) {
    let readers = (grammar.as_bytes(), Pieces::failing(b"", 0));
    ends(rt, &TOKENS, readers, all_room(alloc), text, 4);
}

#[test]
fn a_text_without_a_grammar_is_not_read(rt: HostRuntime) {
    refuses(&rt, rt.alloc(), "[", "not JSON\n");
    let text = "grammar value: missing key \"attributes\" at \"\"\n";
    refuses(&rt, rt.alloc(), "{}", text);
    let text = "grammar value: wrong shape at \"/attributes\"\n";
    refuses(&rt, rt.alloc(), MISSHAPEN, text);
}

#[test]
fn the_text_of_check_is_not_read(rt: HostRuntime) {
    let readers = (lists(), Pieces::failing(b"", 0));
    let out = all_room(rt.alloc());
    ends(&rt, &CHECK, readers, out, "parser with 5 states\n", 0);
}

/// That `parse` of `a b` ends so where the reader of the grammar fails after so many calls, and that of the text after so many.
fn parse_ends(rt: &impl Abort, calls: (u64, u64), out: Room, text: &str, status: u8) {
    let readers = (
        Pieces::failing(lists(), calls.0),
        Pieces::failing(b"a b", calls.1),
    );
    ends(rt, &PARSE, readers, out, text, status);
}

// Behind the three bytes one more call finds the end.
#[test]
fn a_failing_read_of_what_is_parsed_is_a_read_fault(rt: HostRuntime) {
    for calls in 0..=lists().len() as u64 {
        let out = all_room(rt.alloc());
        parse_ends(&rt, (calls, u64::MAX), out, "read fault\n", 6);
    }
    for calls in 0..4 {
        let out = all_room(rt.alloc());
        parse_ends(&rt, (u64::MAX, calls), out, "read fault\n", 6);
    }
    parse_ends(&rt, (u64::MAX, 4), all_room(rt.alloc()), TREE, 0);
}

/// That `parse` of `a b` ends so where so many bytes are taken.
fn parse_leaves(rt: &impl Abort, alloc: Global, room: usize, front: &str, status: u8) {
    let out = Room::new(alloc, room, 0);
    parse_ends(rt, (u64::MAX, u64::MAX), out, front, status);
}

#[test]
fn a_failing_write_of_a_tree_leaves_a_front(rt: HostRuntime) {
    for room in 0..TREE.len() {
        let front = TREE.get(..room).expect(&rt, "a front");
        parse_leaves(&rt, rt.alloc(), room, front, 6);
    }
    parse_leaves(&rt, rt.alloc(), TREE.len(), TREE, 0);
}
