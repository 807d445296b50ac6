//! Reports over readers and writers that give and take one byte at a time.

use crate::check::check;
use crate::program::ends::{all_room, ends};
use crate::program::grammars::CALCULATOR;
use crate::program::streams::{Pieces, Room};
use lalrpop_grammar_streams::Watched;
use lalrpop_run::{options, run};
use std::alloc::Global;
use std::process::Abort;

/// The words of `report` of the calculator.
static REPORT: [&str; 4] = ["lalrpop_run", "report", "--start", "Expr"];

/// What `report` writes over whole pieces.
fn whole_report(rt: &impl Abort, alloc: Global) -> Vec<u8> {
    let options = options(alloc, &REPORT).expect(rt, "options");
    let options = Box::new(alloc, options).expect(rt, "memory");
    let mut out = Vec::new(alloc);
    let mut grammar = Watched::new(CALCULATOR.as_bytes());
    let mut unread = Watched::new(Pieces::failing(b"", 0));
    let status = {
        let mut writer = Watched::new(&mut out);
        run(alloc, &options, &mut grammar, &mut unread, &mut writer)
    };
    check(rt, status == 0);
    out
}

#[test]
fn a_report_is_the_same_byte_by_byte(rt: HostRuntime) {
    let whole = whole_report(&rt, rt.alloc());
    let text = str::from_utf8(whole.as_slice()).expect(&rt, "UTF-8");
    let grammar = Pieces::with_pauses(CALCULATOR.as_bytes(), 1);
    let unread = Pieces::failing(b"", 0);
    let out = Room::with_pauses(rt.alloc(), 1);
    ends(&rt, &REPORT, (grammar, unread), out, text, 0);
}

#[test]
fn a_report_that_cannot_be_read_or_written_is_a_fault(rt: HostRuntime) {
    let grammar = Pieces::failing(CALCULATOR.as_bytes(), 100);
    let unread = Pieces::failing(b"", 0);
    let out = all_room(rt.alloc());
    ends(&rt, &REPORT, (grammar, unread), out, "read fault\n", 6);
    let unread = Pieces::failing(b"", 0);
    let out = Room::new(rt.alloc(), 0, 0);
    ends(&rt, &REPORT, (CALCULATOR.as_bytes(), unread), out, "", 6);
}
