//! What a test sees.

ghost use Rattle.std.specs.Prelude.{IsTrue};

use std::alloc::Global;
use std::process::Abort;

/// Stops the test where this doesn't hold. `assert!` writes its message out wherever it stands, and all of it is proved there.
pub(crate) fn check(rt: &impl Abort, holds: bool)
    ensures { IsTrue holds }
{
    assert!(rt; holds);
}

/// Stops the test where this doesn't hold of the row of a table, and tells what the row is called.
pub(crate) fn check_row(rt: &impl Abort, row: &str, holds: bool) {
    assert!(rt; holds, "{row}");
}

/// The value in a box, which is dropped by one call.
pub(crate) fn boxed<T: Drop>(rt: &impl Abort, alloc: Global, value: T) -> Box<T> {
    Box::new(alloc, value).expect(rt, "memory")
}
