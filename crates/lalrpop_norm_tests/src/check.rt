//! What a test sees.

ghost use Rattle.std.specs.Prelude.{IsTrue};

use std::alloc::Global;
use std::fmt::Debug;
use std::process::Abort;

/// Stops the test where this doesn't hold. `assert!` writes its message out wherever it stands, and all of it is proved there.
pub(crate) fn check(rt: &impl Abort, holds: bool)
    ensures { IsTrue holds }
{
    assert!(rt; holds);
}

/// Whether the values are equal. The second is dropped here: of any type that is one call.
pub(crate) fn equals<T: PartialEq + Drop>(one: &T, other: T) -> bool {
    *one == other
}

/// The value in a box, which is dropped by one call.
pub(crate) fn boxed<T: Drop>(rt: &impl Abort, alloc: Global, value: T) -> Box<T> {
    Box::new(alloc, value).expect(rt, "memory")
}

/// What `Debug` prints of the value.
pub(crate) fn debug_text<T: Debug>(rt: &impl Abort, alloc: Global, value: &T) -> String {
    format!(in alloc; "{value:?}").expect(rt, "memory")
}

/// Whether `Debug` prints this of the value.
pub(crate) fn is_debug<T: Debug>(rt: &impl Abort, alloc: Global, value: &T, wanted: &str) -> bool {
    let found = debug_text(rt, alloc, value);
    found.as_str() == wanted
}
