//! The branches of a pattern, atoms with their repetitions, and groups.

ghost use Rattle.std.specs.Prelude.{◌≡◌, ◌+◌, ◌<◌, ◌≤◌, ◌++◌, ◌∷◌, [], length, IfOk, map};
ghost use Rattle.lalrpop_lexer_pattern.specs.Meaning.{meaning};
ghost use Rattle.lalrpop_lexer_regex.specs.Outcome.{GivesReading};
ghost use Rattle.lalrpop_lexer_regex.specs.Atoms.{tree_read};
ghost use Rattle.lalrpop_lexer_regex.specs.Patterns.{concat_of, one_of, atom_read, repeats_from, inner_at, pattern_at, factor_at, atom_at, pattern_group_at, special_group_at};

use crate::atom::plain_atom;
use crate::classes::{PatternError, PatternFaultKind, after, closing, first};
use crate::flags::{Flags, read_flags};
use crate::group_name::{group_name, name_mark};
use crate::repeat::{begins_repeat, repeat};
use lalrpop_lexer_pattern::Hir;
use std::alloc::Global;

/// The tree of factors one after another: of one factor that factor.
fn concat_of(mut factors: Vec<Hir>) -> Hir
    ensures { meaning result ≡ concat_of (map meaning factors.items) }
{
    if factors.len() == 1 {
        if let Some(only) = factors.pop() {
            return only;
        }
    }
    Hir::concat(factors)
}

/// The tree of branches of which one is taken: of one branch that branch.
fn one_of(mut branches: Vec<Hir>) -> Hir
    ensures { meaning result ≡ one_of (map meaning branches.items) }
{
    if branches.len() == 1 {
        if let Some(only) = branches.pop() {
            return only;
        }
    }
    Hir::alternation(branches)
}

/// The tree, with the repetitions that follow it, and the text after them.
fn repeats(alloc: Global, atom: Hir, text: &[char]) -> Result<(Hir, &[char]), PatternError>
    ensures gives { GivesReading tree_read result (repeats_from (length text.now + 1) (meaning atom) text.now) }
    ensures shorter { IfOk result (λ x. length x.1.now ≤ length text.now) }
{
    let mut tree = atom;
    let mut rest = text;
    while let Some((character, _)) = first(rest) {
        if !begins_repeat(character) {
            break;
        }
        let (repeats, following) = repeat(rest)?;
        tree = Hir::repetition(alloc, repeats, tree)?;
        rest = following;
    }
    Ok((tree, rest))
}

/// The tree of a pattern up to a closing bracket or the end, and the text from there on.
#[cycle(read)]
pub(crate) fn pattern(
    alloc: Global,
    depth: u32,
    before: Flags,
    text: &[char],
) -> Result<(Hir, &[char]), PatternError>
    ensures gives { GivesReading tree_read result (pattern_at depth before text.now) }
    ensures shorter { IfOk result (λ x. length x.1.now ≤ length text.now) }
{
    let mut branches = Vec::new(alloc);
    let mut factors = Vec::new(alloc);
    let mut flags = before;
    let mut rest = text;
    while let Some((character, more)) = first(rest) {
        if character == ')' {
            break;
        }
        if character == '|' {
            branches.push(concat_of(factors))?;
            factors = Vec::new(alloc);
            rest = more;
        } else {
            let ((factor, changed), following) = factor(alloc, depth, flags, rest)?;
            factors.push(factor)?;
            flags = changed;
            rest = following;
        }
    }
    branches.push(concat_of(factors))?;
    Ok((one_of(branches), rest))
}

/// The tree of an atom with its repetitions and the flags from there on, and the text after them.
#[cycle(read)]
#[tactic(auto, unfolding(crate::specs::Patterns::factor_with))]
fn factor(
    alloc: Global,
    depth: u32,
    flags: Flags,
    text: &[char],
) -> Result<((Hir, Flags), &[char]), PatternError>
    ensures gives { GivesReading atom_read result (factor_at depth flags text.now) }
    ensures shorter { IfOk result (λ x. length x.1.now < length text.now) }
{
    let ((atom, changed), following) = atom(alloc, depth, flags, text)?;
    let (tree, rest) = repeats(alloc, atom, following)?;
    Ok(((tree, changed), rest))
}

/// The tree of an atom and the flags from there on, and the text after it.
#[cycle(read)]
#[tactic(auto, unfolding(crate::specs::Patterns::atom_with))]
fn atom(
    alloc: Global,
    depth: u32,
    flags: Flags,
    text: &[char],
) -> Result<((Hir, Flags), &[char]), PatternError>
    ensures gives { GivesReading atom_read result (atom_at depth flags text.now) }
    ensures shorter { IfOk result (λ x. length x.1.now < length text.now) }
{
    if let Some(rest) = after('(', text) {
        let group = group(alloc, depth, flags, text.len(), rest)?;
        return Ok(group);
    }
    let (tree, rest) = plain_atom(alloc, depth, flags, text)?;
    Ok(((tree, flags), rest))
}

/// The tree of a group whose opening bracket is read and the flags from there on, and the text after it.
///
/// `left` is how much text is left at the bracket.
#[cycle(read)]
#[tactic(auto, unfolding(crate::specs::Patterns::pattern_group_with))]
fn group(
    alloc: Global,
    depth: u32,
    flags: Flags,
    left: usize,
    text: &[char],
) -> Result<((Hir, Flags), &[char]), PatternError>
    ensures gives { GivesReading atom_read result (pattern_group_at depth flags left text.now) }
    ensures shorter { IfOk result (λ x. length x.1.now ≤ length text.now) }
{
    if let Some(rest) = after('?', text) {
        let group = special_group(alloc, depth, flags, left, rest)?;
        return Ok(group);
    }
    let (sub, rest) = inner(alloc, depth, flags, left, text)?;
    let tree = Hir::capture(alloc, None, sub)?;
    Ok(((tree, flags), rest))
}

/// The tree of a group that begins with a question mark and the flags from there on, and the text after it.
#[cycle(read)]
#[tactic(auto, unfolding(crate::specs::Patterns::special_group_with))]
fn special_group(
    alloc: Global,
    depth: u32,
    flags: Flags,
    left: usize,
    text: &[char],
) -> Result<((Hir, Flags), &[char]), PatternError>
    ensures gives { GivesReading atom_read result (special_group_at depth flags left text.now) }
    ensures shorter { IfOk result (λ x. length x.1.now ≤ length text.now) }
{
    if let Some(rest) = name_mark(text) {
        let (name, following) = group_name(alloc, rest)?;
        let (sub, rest) = inner(alloc, depth, flags, left, following)?;
        let tree = Hir::capture(alloc, Some(name), sub)?;
        return Ok(((tree, flags), rest));
    }
    if let Some(following) = after(':', text) {
        let (tree, rest) = inner(alloc, depth, flags, left, following)?;
        return Ok(((tree, flags), rest));
    }
    let ((changed, has_pattern), following) = read_flags(flags, text)?;
    if !has_pattern {
        return Ok(((Hir::empty(), changed), following));
    }
    let (tree, rest) = inner(alloc, depth, changed, left, following)?;
    Ok(((tree, flags), rest))
}

/// The tree of the pattern in a group, and the text after its closing bracket.
///
/// `depth` is how many groups and classes may still be opened, this group one of them.
#[cycle(read)]
fn inner(
    alloc: Global,
    depth: u32,
    flags: Flags,
    left: usize,
    text: &[char],
) -> Result<(Hir, &[char]), PatternError>
    ensures gives { GivesReading tree_read result (inner_at depth flags left text.now) }
    ensures shorter { IfOk result (λ x. length x.1.now ≤ length text.now) }
{
    if depth == 0 {
        return Err(PatternError::Fault(PatternFaultKind::Unsupported, left));
    }
    let (tree, close) = pattern(alloc, depth - 1, flags, text)?;
    let rest = closing(')', close)?;
    Ok((tree, rest))
}
