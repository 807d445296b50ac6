//! What makes pattern trees, each with the meaning of the tree that it makes.

ghost use Rattle.std.specs.Prelude.{◌≡◌, ◌↔◌, ◌≤◌, ℕ, IfOk, IfSome, map};
ghost use Rattle.std.specs.Option.{option_map};
ghost use Rattle.std.specs.String.{string_bytes};
ghost use Rattle.lalrpop_lexer_pattern.specs.Meaning.{meaning};
ghost use Rattle.lalrpop_lexer_pattern.specs.Ranges.{HasRisingRanges, InRanges};
ghost use Rattle.lalrpop_lexer_pattern.specs.Matches.{concat_all, alternation_all, Pattern};

use crate::class::{Class, Range};
use crate::touching::join_touching;
use crate::tree::{Hir, Look, Repeats};
use std::alloc::{AllocError, Global};

impl Class {
    /// The set of the characters in `ranges`, which ascend, none of them empty, and have no character in common. Those that touch
    /// are joined, in place.
    pub fn new(ranges: Vec<Range>) -> Class
        requires { HasRisingRanges ranges.items }
        ensures { (n : ℕ) → InRanges result.ranges.items n ↔ InRanges ranges.items n }
    {
        let mut ranges = ranges;
        join_touching(&mut ranges);
        Class { ranges }
    }
}

impl Repeats {
    /// From `min` to `max` times, without an upper bound where `max` is none.
    pub fn new(min: u32, max: Option<u32>, greedy: bool) -> Repeats
        requires { IfSome max (λ m. min ≤ m) }
        ensures min { result.min ≡ min }
        ensures max { result.max ≡ max }
        ensures greedy { result.greedy ≡ greedy }
    {
        Repeats { min, max, greedy }
    }
}

impl Hir {
    /// The pattern of the word without characters.
    pub fn empty() -> Hir
        ensures { meaning result ≡ Pattern.empty }
    {
        Hir::Empty
    }

    /// The pattern of one word, its characters given as numbers.
    pub fn literal(characters: Vec<u32>) -> Hir
        ensures { meaning result ≡ Pattern.literal characters.items }
    {
        Hir::Literal(characters)
    }

    /// The pattern of the words of one character of the set.
    pub fn class(characters: Class) -> Hir
        ensures { meaning result ≡ Pattern.class characters.ranges.items }
    {
        Hir::Class(characters)
    }

    /// An assertion of where in the text the pattern stands.
    pub fn look(place: Look) -> Hir
        ensures { meaning result ≡ Pattern.look place }
    {
        Hir::Look(place)
    }

    /// A group, with its name if it has one. Fails for want of memory alone.
    pub fn capture(alloc: Global, name: Option<String>, sub: Hir) -> Result<Hir, AllocError>
        ensures { IfOk result (λ tree. meaning tree ≡ Pattern.capture (option_map string_bytes name) (meaning sub)) }
    {
        Ok(Hir::Capture {
            name,
            sub: Box::new(alloc, sub)?,
        })
    }

    /// A pattern some number of times. Fails for want of memory alone.
    pub fn repetition(alloc: Global, repeats: Repeats, sub: Hir) -> Result<Hir, AllocError>
        ensures { IfOk result (λ tree. meaning tree ≡ Pattern.repetition repeats.min repeats.max repeats.greedy (meaning sub)) }
    {
        Ok(Hir::Repetition {
            repeats,
            sub: Box::new(alloc, sub)?,
        })
    }

    /// Patterns one after another.
    pub fn concat(subs: Vec<Hir>) -> Hir
        ensures { meaning result ≡ concat_all (map meaning subs.items) }
    {
        Hir::Concat(subs)
    }

    /// One of some patterns; where there are none, nothing is matched.
    pub fn alternation(subs: Vec<Hir>) -> Hir
        ensures { meaning result ≡ alternation_all (map meaning subs.items) }
    {
        Hir::Alternation(subs)
    }
}
