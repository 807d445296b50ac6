//! What a test sees.

ghost use Rattle.std.specs.Prelude.{IsTrue};

use lalrpop_grammar_symbols::{Atom, NonterminalString};
use std::alloc::{AllocError, Global};
use std::fmt::Display;
use std::process::Abort;

/// Stops the test where this doesn't hold. `assert!` writes its message out wherever it stands, and all of it is proved there.
pub(crate) fn check(rt: &impl Abort, holds: bool)
    ensures { IsTrue holds }
{
    assert!(rt; holds);
}

/// Whether the values are equal. The second is dropped here: of any type that is one call.
pub(crate) fn equals<T: PartialEq + Drop>(one: &T, other: T) -> bool {
    *one == other
}

/// The value in a box. Where a symbol is owned, its box is dropped by one call.
pub(crate) fn boxed<T: Drop>(rt: &impl Abort, alloc: Global, value: T) -> Box<T> {
    Box::new(alloc, value).expect(rt, "memory")
}

/// Whether the text came, and is this one. It is dropped here.
pub(crate) fn is_text(found: Result<String, AllocError>, wanted: &str) -> bool {
    match &found {
        Ok(text) => text.as_str() == wanted,
        Err(_) => false,
    }
}

/// Whether this is what the value prints.
pub(crate) fn is_shown<T: Display>(
    rt: &impl Abort,
    alloc: Global,
    value: &T,
    wanted: &str,
) -> bool {
    let shown = format!(in alloc; "{value}").expect(rt, "memory");
    shown.as_str() == wanted
}

/// The nonterminal of that name.
pub(crate) fn name_of(rt: &impl Abort, alloc: Global, name: &str) -> NonterminalString {
    NonterminalString(Atom::new(alloc, name).expect(rt, "memory"))
}
