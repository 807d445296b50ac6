//! Lifetimes of written references.

ghost use Rattle.std.specs.Prelude.{◌≡◌, IfOk};

use lalrpop_grammar_symbols::Atom;
use std::alloc::AllocError;

/// A copy of the lifetime that a reference has, where it has one.
pub fn clone_lifetime(lifetime: &Option<Atom>) -> Result<Option<Atom>, AllocError>
    ensures { IfOk result (λ copy. copy ≡ lifetime.now) }
{
    match lifetime {
        None => Ok(None),
        Some(name) => Ok(Some(name.try_clone()?)),
    }
}
