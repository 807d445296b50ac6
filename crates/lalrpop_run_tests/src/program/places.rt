//! One byte at a time, and failures at each place, by the calculator and by a conflict.

use crate::program::ends::{all_room, ends};
use crate::program::grammars::{CALCULATOR, INLINED};
use crate::program::streams::{Pieces, Room};
use std::alloc::Global;
use std::process::Abort;

/// The words of `parse` by the calculator.
static PARSE: [&str; 4] = ["lalrpop_run", "parse", "--start", "Expr"];

/// The words of `check` of the two inlined alternatives.
static CHECK: [&str; 4] = ["lalrpop_run", "check", "--start", "S"];

/// What is parsed.
const SUM: &str = "1+2*3";

/// What `parse` answers to it.
const TREE: &str =
    "Expr#2(Expr#0(Num#0(\"1\")), \"+\", Expr#1(Expr#0(Num#0(\"2\")), \"*\", Expr#0(Num#0(\"3\"))))\n";

/// What `check` answers.
const CONFLICTS: &str =
    "conflicts: 1\nafter 2 trees before end of input\nreduce: S#0(Op#0(\"a\"), \"x\")\nreduce: S#0(Op#1(\"a\"), \"x\")\n";

/// That `parse` ends so where the reader of the grammar fails after so many calls, and that of the text after so many.
fn parse_ends(rt: &impl Abort, calls: (u64, u64), out: Room, text: &str, status: u8) {
    let grammar = Pieces::failing(CALCULATOR.as_bytes(), calls.0);
    let read = Pieces::failing(SUM.as_bytes(), calls.1);
    ends(rt, &PARSE, (grammar, read), out, text, status);
}

/// That `check` ends so where the reader of the grammar fails after so many calls. The text's reader would fail.
fn check_ends(rt: &impl Abort, calls: u64, out: Room, text: &str, status: u8) {
    let grammar = Pieces::failing(INLINED.as_bytes(), calls);
    let unread = Pieces::failing(b"", 0);
    ends(rt, &CHECK, (grammar, unread), out, text, status);
}

#[test]
fn runs_answer_byte_by_byte(rt: HostRuntime) {
    let grammar = Pieces::with_pauses(CALCULATOR.as_bytes(), 1);
    let read = Pieces::with_pauses(SUM.as_bytes(), 1);
    let out = Room::with_pauses(rt.alloc(), 1);
    ends(&rt, &PARSE, (grammar, read), out, TREE, 0);
    let grammar = Pieces::with_pauses(INLINED.as_bytes(), 1);
    let unread = Pieces::failing(b"", 0);
    let out = Room::with_pauses(rt.alloc(), 1);
    ends(&rt, &CHECK, (grammar, unread), out, CONFLICTS, 3);
}

// The last call finds the end.
#[test]
fn a_read_that_fails_anywhere_is_a_read_fault(rt: HostRuntime) {
    for calls in 0..=CALCULATOR.len() as u64 {
        let out = all_room(rt.alloc());
        parse_ends(&rt, (calls, u64::MAX), out, "read fault\n", 6);
    }
    for calls in 0..=SUM.len() as u64 {
        let out = all_room(rt.alloc());
        parse_ends(&rt, (u64::MAX, calls), out, "read fault\n", 6);
    }
    for calls in 0..=INLINED.len() as u64 {
        check_ends(&rt, calls, all_room(rt.alloc()), "read fault\n", 6);
    }
}

/// That `parse` leaves the front of the tree that has room, and fails.
fn parse_leaves(rt: &impl Abort, alloc: Global, room: usize) {
    let front = TREE.get(..room).expect(rt, "a front");
    let out = Room::new(alloc, room, 0);
    parse_ends(rt, (u64::MAX, u64::MAX), out, front, 6);
}

/// That `check` leaves the front of the conflict that has room, and fails.
fn check_leaves(rt: &impl Abort, alloc: Global, room: usize) {
    let front = CONFLICTS.get(..room).expect(rt, "a front");
    check_ends(rt, u64::MAX, Room::new(alloc, room, 0), front, 6);
}

#[test]
fn a_write_that_fails_anywhere_leaves_a_front(rt: HostRuntime) {
    for room in 0..TREE.len() {
        parse_leaves(&rt, rt.alloc(), room);
    }
    for room in 0..CONFLICTS.len() {
        check_leaves(&rt, rt.alloc(), room);
    }
    let enough = Room::new(rt.alloc(), CONFLICTS.len(), 0);
    check_ends(&rt, u64::MAX, enough, CONFLICTS, 3);
}

/// That a read fault of `check` leaves the front of its line that has room.
fn fault_leaves(rt: &impl Abort, alloc: Global, room: usize) {
    let front = "read fault\n".get(..room).expect(rt, "a front");
    check_ends(rt, 0, Room::new(alloc, room, 0), front, 6);
}

/// That `check` of what is no JSON leaves the front of its line that has room.
fn refusal_leaves(rt: &impl Abort, alloc: Global, room: usize) {
    let front = "not JSON\n".get(..room).expect(rt, "a front");
    let readers = (Pieces::failing(b"[", u64::MAX), Pieces::failing(b"", 0));
    let out = Room::new(alloc, room, 0);
    ends(rt, &CHECK, readers, out, front, 6);
}

#[test]
fn a_fault_that_cannot_be_written_leaves_a_front(rt: HostRuntime) {
    for room in 0.."read fault\n".len() {
        fault_leaves(&rt, rt.alloc(), room);
    }
    for room in 0.."not JSON\n".len() {
        refusal_leaves(&rt, rt.alloc(), room);
    }
}
