//! Pattern trees.

ghost use Rattle.std.specs.Prelude.{◌≤◌, IfSome};
ghost use Rattle.std.proofs.Props.{props};

use crate::class::Class;

/// An assertion of where in the text a pattern stands, without a character of its own.
#[derive(Clone, Copy, Debug, PartialEq, Eq)]
pub enum Look {
    /// The start of the text, `^` or `\A`.
    Start,
    /// The end of the text, `$` or `\z`.
    End,
    /// A word boundary, `\b`.
    WordBoundary,
    /// No word boundary, `\B`.
    NotWordBoundary,
}

/// How often a pattern is repeated.
#[derive(Clone, Copy, Debug, PartialEq, Eq)]
pub struct Repeats {
    /// The least count.
    pub min: u32,
    /// The greatest count; none where any count from `min` on will do.
    pub max: Option<u32>,
    /// Whether as many as can be are taken. Without effect on what is matched.
    pub greedy: bool,
    pub ghost ordered: { IfSome max (λ m. min ≤ m) } by { Prim.hlevel props },
}

/// A pattern as a tree.
#[derive(Debug)]
pub enum Hir {
    /// The word without characters.
    Empty,
    /// These characters, one after another.
    Literal(Vec<u32>),
    /// One character of a set.
    Class(Class),
    /// An assertion of where in the text the pattern stands.
    Look(Look),
    /// A group, with its name if it has one.
    Capture {
        /// The name that the pattern gives it.
        name: Option<String>,
        /// What stands in the group.
        sub: Box<Hir>,
    },
    /// A pattern some number of times.
    Repetition {
        /// How often.
        repeats: Repeats,
        /// What is repeated.
        sub: Box<Hir>,
    },
    /// Patterns one after another.
    Concat(Vec<Hir>),
    /// One of some patterns.
    Alternation(Vec<Hir>),
}

impl Drop for Hir {
    /// Takes repetitions of repetitions apart by a loop: of these a pattern may have more in one another than the stack
    /// has room for.
    fn drop(mut self) {
        loop {
            match self {
                Hir::Empty => return,
                Hir::Literal(_) => return,
                Hir::Class(_) => return,
                Hir::Look(_) => return,
                Hir::Capture { name: _, sub: _ } => return,
                Hir::Repetition { repeats: _, sub } => self = Box::into_inner(sub),
                Hir::Concat(_) => return,
                Hir::Alternation(_) => return,
            }
        }
    }
}

/// A pattern as it is read from text.
pub type Regex = Hir;
