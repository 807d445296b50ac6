//! Copies of classes, sets of characters and pattern trees.

ghost use Rattle.std.specs.Prelude.{◌≡◌, IfOk, map, option_map};
ghost use Rattle.std.specs.String.{string_bytes};
ghost use Rattle.lalrpop_lexer_pattern.specs.Meaning.{meaning};
ghost use Rattle.lalrpop_lexer_pattern.specs.PlainHirs.{PlainHir, hir_view, plain_repeated};

use crate::class::Class;
use crate::set::CharacterSet;
use crate::tree::{Hir, Repeats};
use std::alloc::{AllocError, Global};

impl Class {
    /// A copy with the same ranges. Fails for want of memory alone.
    pub fn try_clone(&self, alloc: Global) -> Result<Class, AllocError>
        ensures { IfOk result (λ copy. copy.ranges.items ≡ self.now.ranges.items) }
    {
        let ranges = Vec::from_slice(alloc, &self.ranges)?;
        Ok(Class { ranges })
    }
}

impl CharacterSet {
    /// A copy with the same ranges. Fails for want of memory alone.
    pub fn try_clone(&self, alloc: Global) -> Result<CharacterSet, AllocError>
        ensures { IfOk result (λ copy. copy.ranges.items ≡ self.now.ranges.items) }
    {
        let ranges = Vec::from_slice(alloc, &self.ranges)?;
        Ok(CharacterSet { ranges })
    }
}

impl Hir {
    /// A copy with the same contents, and so of the same meaning. Fails for want of memory alone.
    pub fn try_clone(&self, alloc: Global) -> Result<Hir, AllocError>
        ensures same { IfOk result (λ copy. hir_view copy ≡ hir_view self.now) }
        ensures meaning { IfOk result (λ copy. meaning copy ≡ meaning self.now) }
    {
        self.copy(alloc)
    }

    /// A copy with the same contents. Repetitions of repetitions are gone through by a loop.
    #[cycle(copy)]
    fn copy(&self, alloc: Global) -> Result<Hir, AllocError>
        ensures { IfOk result (λ copy. hir_view copy ≡ hir_view self.now) }
    {
        let mut around = Vec::new(alloc);
        let mut tree = self;
        loop {
            let copy = match tree {
                Hir::Empty => Hir::Empty,
                Hir::Literal(characters) => Hir::Literal(Vec::from_slice(alloc, characters)?),
                Hir::Class(class) => Hir::Class(class.try_clone(alloc)?),
                Hir::Look(look) => Hir::Look(*look),
                Hir::Capture { name, sub } => group_of(alloc, name, sub.copy(alloc)?)?,
                Hir::Repetition { repeats, sub } => {
                    around.push(*repeats)?;
                    tree = sub;
                    continue;
                }
                Hir::Concat(subs) => Hir::Concat(clone_all(alloc, subs)?),
                Hir::Alternation(subs) => Hir::Alternation(clone_all(alloc, subs)?),
            };
            return wrap_in_repeats(alloc, around, copy);
        }
    }
}

/// Wraps the tree in the repeats of the list, whose last is the innermost.
fn wrap_in_repeats(alloc: Global, mut around: Vec<Repeats>, tree: Hir) -> Result<Hir, AllocError>
    ensures { IfOk result (λ whole. hir_view whole ≡ plain_repeated around.items (hir_view tree)) }
{
    let mut whole = tree;
    while let Some(repeats) = around.pop() {
        whole = Hir::Repetition {
            repeats,
            sub: Box::new(alloc, whole)?,
        };
    }
    Ok(whole)
}

/// The tree as a group, with a copy of the name.
fn group_of(alloc: Global, name: &Option<String>, tree: Hir) -> Result<Hir, AllocError>
    ensures { IfOk result (λ group.
        hir_view group ≡ PlainHir.capture (option_map string_bytes name.now) (hir_view tree)) }
{
    let sub = Box::new(alloc, tree)?;
    Ok(Hir::Capture {
        name: clone_name(alloc, name)?,
        sub,
    })
}

/// A copy of a name, if there is one.
fn clone_name(alloc: Global, name: &Option<String>) -> Result<Option<String>, AllocError>
    ensures { IfOk result (λ copy. option_map string_bytes copy ≡ option_map string_bytes name.now) }
{
    match name {
        None => Ok(None),
        Some(text) => Ok(Some(String::from_str(alloc, text)?)),
    }
}

/// Copies of some trees, in their order.
#[cycle(copy)]
fn clone_all(alloc: Global, subs: &[Hir]) -> Result<Vec<Hir>, AllocError>
    ensures { IfOk result (λ copies. map hir_view copies.items ≡ map hir_view subs.now) }
{
    let mut copies = Vec::new(alloc);
    for sub in subs {
        let copy = sub.copy(alloc)?;
        copies.push(copy)?;
    }
    Ok(copies)
}
