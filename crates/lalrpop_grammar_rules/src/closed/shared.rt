//! Values with several owners that contracts see as the value.

ghost use Rattle.std.specs.Prelude.{◌≡◌, IfOk};

use lalrpop_grammar_symbols::List;
use std::alloc::{AllocError, Global};
use std::marker::Model;
use std::rc::Rc;

/// An `Rc` that contracts see as its value.
#[derive(Drop)]
pub struct Shared<T> {
    inner: Rc<T>,
}

impl<T> Model for Shared<T> {
    ghost Value = { T };

    ghost coded = { T.code };

    ghost view = { λ s. s.inner.value };
}

impl<T> Shared<T> {
    /// The value that its owners share.
    pub fn get(&self) -> &T
        ensures { result.now ≡ self.now }
    {
        Rc::as_ref(&self.inner)
    }
}

impl<T> Shared<List<T>> {
    /// The elements of a shared list.
    pub fn as_slice(&self) -> &[T]
        ensures { result.now ≡ self.now }
    {
        self.get().as_slice()
    }
}

impl<T: Drop> Shared<T> {
    /// The value, with one owner.
    pub fn new(alloc: Global, value: T) -> Result<Shared<T>, AllocError>
        ensures { IfOk result (λ s. s ≡ value) }
    {
        Ok(Shared {
            inner: Rc::new(alloc, value)?,
        })
    }

    /// One more owner of the value, which is not copied.
    pub fn try_clone(&self) -> Result<Shared<T>, AllocError>
        ensures { IfOk result (λ copy. copy ≡ self.now) }
    {
        let inner = self.inner.clone()?;
        Ok(Shared { inner })
    }
}

impl<T: PartialEq> PartialEq for Shared<T> {
    ghost eq = { T.eq };

    ghost laws = { T.laws };

    fn eq(&self, other: &Self) -> bool {
        *self.get() == *other.get()
    }
}

impl<T: Eq> Eq for Shared<T> {
    ghost laws = { T.Eq.laws };
}
