//! What a test sees.

ghost use Rattle.std.specs.Prelude.{IsTrue};

use lalrpop_grammar_repr::TerminalSet;
use lalrpop_sets::TokenSet;
use std::alloc::{AllocError, Global};
use std::fmt::Debug;
use std::process::Abort;

/// Stops the test where this doesn't hold. `assert!` writes its message out wherever it stands, and all of it is proved there. Several
/// answers are joined by `&`, since each `&&` parts the ways.
pub(crate) fn check(rt: &impl Abort, holds: bool)
    ensures { IsTrue holds }
{
    assert!(rt; holds);
}

/// Whether it is this text. The text is dropped here.
pub(crate) fn text_is(text: String, wanted: &str) -> bool {
    text.as_str() == wanted
}

/// Whether this is the text of the set.
pub(crate) fn is_shown(
    rt: &impl Abort,
    alloc: Global,
    set: &TokenSet,
    terminals: &TerminalSet,
    wanted: &str,
) -> bool {
    text_is(set.shown(alloc, terminals).expect(rt, "memory"), wanted)
}

/// That the set came, and this is its text.
pub(crate) fn shows(
    rt: &impl Abort,
    alloc: Global,
    set: Result<TokenSet, AllocError>,
    terminals: &TerminalSet,
    wanted: &str,
) {
    let set = set.expect(rt, "memory");
    check(rt, is_shown(rt, alloc, &set, terminals, wanted));
}

/// That the answer came, and is the one that is wanted.
pub(crate) fn says(rt: &impl Abort, answer: Result<bool, AllocError>, wanted: bool) {
    check(rt, answer.expect(rt, "memory") == wanted);
}

/// Whether `Debug` prints this of the value.
pub(crate) fn is_debug<T: Debug>(rt: &impl Abort, alloc: Global, value: &T, wanted: &str) -> bool {
    text_is(format!(in alloc; "{value:?}").expect(rt, "memory"), wanted)
}
