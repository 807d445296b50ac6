//! Lists that stand one behind another in one vector.

ghost use Rattle.std.specs.Prelude.{◌≡◌, ◌<◌, ◌++◌, ◌∷◌, [], length, OnOk, slice_index_or};
ghost use Rattle.lalrpop_lexer.specs.Slices.{slice_start};

use std::alloc::{AllocError, Global};
use std::marker::Model;

/// Lists one behind another in one vector: a short one takes no block of its own.
#[derive(Drop)]
pub(crate) struct Slices<T> {
    items: Vec<T>,
    // Where each list ends.
    ends: Vec<usize>,
}

impl<T> Model for Slices<T> {
    ghost use Rattle.std.specs.Prelude.{List, length};
    ghost use Rattle.lalrpop_lexer.specs.Slices.{lists_from, EndsAscend};

    ghost Value = { List (List T) };

    ghost view = { λ it. lists_from it.items.items 0 it.ends.items };

    ghost invariant = { λ it. EndsAscend 0 it.ends.items (length it.items.items) };
}

/// Where the list at a place begins.
fn start_of(ends: &[usize], place: usize) -> usize
    requires { place < length ends.now }
    ensures { result ≡ slice_start 0 ends.now place }
{
    if place == 0 { 0 } else { ends[place - 1] }
}

impl<T: Copy> Slices<T> {
    /// No lists.
    pub(crate) fn new(alloc: Global) -> Slices<T>
        ensures { result ≡ [] }
    {
        Slices {
            items: Vec::new(alloc),
            ends: Vec::new(alloc),
        }
    }

    /// How many lists there are.
    pub(crate) fn len(&self) -> usize
        ensures { result ≡ length self.now }
    {
        self.ends.len()
    }

    /// The list at a place.
    pub(crate) fn get(&self, place: usize) -> &[T]
        requires { place < length self.now }
        ensures { result.now ≡ slice_index_or self.now place [] }
    {
        let end = self.ends[place];
        &self.items[start_of(&self.ends, place)..end]
    }

    /// Adds a list behind the others.
    pub(crate) fn push(&mut self, list: &[T]) -> Result<(), AllocError>
        ensures { OnOk result (self.new ≡ self.old ++ list.now ∷ []) }
    {
        self.ends.reserve(1)?;
        self.items.extend_from_slice(list)?;
        self.ends.push_reserved(self.items.len());
        Ok(())
    }
}
