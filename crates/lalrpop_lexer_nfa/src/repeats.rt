//! Repeats of repeats, and of the empty word: what needs no states of its own.

ghost use Rattle.std.specs.Prelude.{◌≡◌, ◌≤◌, ◌↔◌, ℕ, List, All, true, map};
ghost use Rattle.lalrpop_lexer_pattern.specs.Meaning.{meaning};
ghost use Rattle.lalrpop_lexer_pattern.specs.Matches.{Matches, Pattern, alternation_all};
ghost use Rattle.lalrpop_lexer_pattern.specs.declared.tree.Hir.{size-Hir};
ghost use Rattle.lalrpop_lexer_nfa.specs.Repeating.{HasEmptyWordAlone, HasOneCopy, copies_in, copy_count};

use lalrpop_lexer_pattern::{Hir, Repeats};

/// Whether the pattern is made of the empty word alone, at whatever depth. Then it matches this one word.
#[cycle(empty)]
pub(crate) fn is_empty_word(pattern: &Hir) -> bool
    ensures { result ≡ true → HasEmptyWordAlone (meaning pattern.now) }
{
    let mut tree = pattern;
    loop {
        match tree {
            Hir::Empty => return true,
            Hir::Literal(characters) => return characters.is_empty(),
            Hir::Class(_) => return false,
            Hir::Look(_) => return false,
            Hir::Capture { name: _, sub } => tree = sub,
            Hir::Repetition { repeats, sub } => {
                if repeats.max == Some(0) {
                    return true;
                }
                tree = sub;
            }
            Hir::Concat(subs) => return are_empty_words(subs),
            Hir::Alternation(subs) => return are_empty_branches(subs),
        }
    }
}

/// Whether each of the patterns is made of the empty word alone.
#[cycle(empty)]
fn are_empty_words(subs: &[Hir]) -> bool
    ensures { result ≡ true → All HasEmptyWordAlone (map meaning subs.now) }
{
    for i in 0..subs.len() {
        if !is_empty_word(&subs[i]) {
            return false;
        }
    }
    true
}

/// Whether there are branches, and each is made of the empty word alone.
#[cycle(empty)]
fn are_empty_branches(subs: &[Hir]) -> bool
    ensures { result ≡ true → HasEmptyWordAlone (alternation_all (map meaning subs.now)) }
{
    if subs.is_empty() {
        return false;
    }
    are_empty_words(subs)
}

/// Whether a repetition has one copy of its piece, which may perhaps be left out, or come again, or both.
fn has_one_copy(repeats: Repeats) -> bool
    ensures { result ≡ true ↔ HasOneCopy repeats.min repeats.max }
{
    repeats.min <= 1 && (repeats.max.is_none() || repeats.max == Some(1))
}

/// How often a piece is repeated by repeats of repeats of it, each of which has one copy.
fn joint_repeats(outer: Repeats, inner: Repeats) -> Repeats
    requires outer { HasOneCopy outer.min outer.max }
    requires inner { HasOneCopy inner.min inner.max }
    ensures one { HasOneCopy result.min result.max }
    ensures same { (p : Pattern) (w : List ℕ) → Matches (Pattern.repetition result.min result.max result.greedy p) w
        ↔ Matches (Pattern.repetition outer.min outer.max outer.greedy (Pattern.repetition inner.min inner.max inner.greedy p)) w }
{
    let min = if outer.min == 0 { 0 } else { inner.min };
    let max = if outer.max.is_none() { None } else { inner.max };
    Repeats::new(min, max, outer.greedy)
}

/// What is repeated, and how often, once repeats of repeats that have one copy each are taken as one: of those a pattern may
/// have more in one another than the stack has room for. Where each has more copies, memory runs out before the stack does.
pub(crate) fn merged(repeats: Repeats, sub: &Hir) -> (Repeats, &Hir)
    ensures same { (w : List ℕ) → Matches (Pattern.repetition result.0.min result.0.max result.0.greedy (meaning result.1.now)) w
        ↔ Matches (Pattern.repetition repeats.min repeats.max repeats.greedy (meaning sub.now)) w }
    ensures inside { size-Hir result.1.now ≤ size-Hir sub.now }
{
    let mut whole = repeats;
    let mut piece = sub;
    if !has_one_copy(repeats) {
        return (whole, piece);
    }
    while let Hir::Repetition {
        repeats: inner,
        sub: deeper,
    } = piece
    {
        if !has_one_copy(*inner) {
            break;
        }
        whole = joint_repeats(whole, *inner);
        piece = deeper;
    }
    (whole, piece)
}

/// How many copies of its piece a repetition has.
fn copies_of(repeats: Repeats) -> u32
    ensures { result ≡ copy_count repeats.min repeats.max }
{
    match repeats.max {
        Some(most) => most,
        None if repeats.min == 0 => 1,
        None => repeats.min,
    }
}

/// So many copies of the innermost piece repeats of repeats have, or the greatest number where that is less. Each copy has
/// states of its own, but for copies of the empty word.
pub(crate) fn copies(repeats: Repeats, sub: &Hir) -> usize
    ensures { result ≤ copies_in (Pattern.repetition repeats.min repeats.max repeats.greedy (meaning sub.now)) }
{
    let mut count = copies_of(repeats) as usize;
    let mut tree = sub;
    loop {
        match tree {
            Hir::Capture { name: _, sub } => tree = sub,
            Hir::Repetition { repeats, sub } => {
                count = count.saturating_mul(copies_of(*repeats) as usize);
                tree = sub;
            }
            Hir::Empty => return count,
            Hir::Literal(_) => return count,
            Hir::Class(_) => return count,
            Hir::Look(_) => return count,
            Hir::Concat(_) => return count,
            Hir::Alternation(_) => return count,
        }
    }
}
