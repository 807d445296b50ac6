//! The atoms of a pattern that are no groups.

ghost use Rattle.std.specs.Prelude.{◌≡◌, ◌∷◌, ◌<◌, ◌≤◌, [], Ok, length, IfOk, IfSome};
ghost use Rattle.lalrpop_lexer_pattern.specs.Matches.{Pattern};
ghost use Rattle.lalrpop_lexer_pattern.specs.Meaning.{meaning};
ghost use Rattle.lalrpop_lexer_regex.specs.Outcome.{GivesReading};
ghost use Rattle.lalrpop_lexer_regex.specs.Atoms.{is_special, look_of, one_character, any_character, tree_read, escaped_atom_at, plain_atom_at};

use crate::classes::{
    PatternError, class, escaped_character, escaped_set, first, is_set_letter, range_set, syntax,
};
use crate::flags::Flags;
use lalrpop_lexer_pattern::{CharacterSet, Hir, Look};
use std::alloc::Global;

/// Whether the character stands for something else than itself, a bracket aside that opens a group.
fn is_special(character: char) -> bool
    ensures { result ≡ is_special character }
{
    matches!(character, '*' | '+' | '?' | ')' | '|' | '{')
}

/// The place in the text that a letter after a backslash asks for.
fn look_of(letter: char) -> Option<Look>
    ensures { result ≡ look_of letter }
{
    match letter {
        'A' => Some(Look::Start),
        'z' => Some(Look::End),
        'b' => Some(Look::WordBoundary),
        'B' => Some(Look::NotWordBoundary),
        _ => None,
    }
}

/// The tree of one character, a class where characters share a folding.
#[tactic(auto, unfolding(crate::specs::Atoms::one_character))]
fn one_character(alloc: Global, fold: bool, character: u32) -> Result<Hir, PatternError>
    ensures { GivesReading meaning result (Ok (one_character fold character)) }
{
    if fold {
        let set = range_set(alloc, character, character)?.fold_case()?;
        return Ok(Hir::class(set.into_class()));
    }
    let mut characters = Vec::new(alloc);
    characters.push(character)?;
    Ok(Hir::literal(characters))
}

/// The tree of a dot: every character, or every one but the line feed.
#[tactic(auto, unfolding(crate::specs::Atoms::any_character))]
fn any_character(alloc: Global, dot_all: bool) -> Result<Hir, PatternError>
    ensures { GivesReading meaning result (Ok (any_character dot_all)) }
{
    let left_out = if dot_all {
        CharacterSet::empty(alloc)
    } else {
        range_set(alloc, 0x0A, 0x0A)?
    };
    let set = left_out.complement()?;
    Ok(Hir::class(set.into_class()))
}

/// The tree of what a backslash begins, and the text after it; `left` is how much text is left at the backslash.
#[tactic(auto, unfolding(crate::specs::Atoms::escaped_atom_at))]
fn escaped_atom(
    alloc: Global,
    left: usize,
    fold: bool,
    text: &[char],
) -> Result<(Hir, &[char]), PatternError>
    ensures gives { GivesReading tree_read result (escaped_atom_at left fold text.now) }
    ensures shorter { IfOk result (λ x. length x.1.now < length text.now) }
{
    let Some((letter, rest)) = first(text) else {
        return Err(syntax(text));
    };
    if is_set_letter(letter) {
        let (set, after) = escaped_set(alloc, left, fold, letter, rest)?;
        return Ok((Hir::class(set.into_class()), after));
    }
    if let Some(look) = look_of(letter) {
        return Ok((Hir::look(look), rest));
    }
    let (character, after) = escaped_character(left, text)?;
    let tree = one_character(alloc, fold, character)?;
    Ok((tree, after))
}

/// The tree of an atom that is no group, and the text after it.
#[tactic(auto, unfolding(crate::specs::Atoms::plain_atom_at))]
pub(crate) fn plain_atom(
    alloc: Global,
    depth: u32,
    flags: Flags,
    text: &[char],
) -> Result<(Hir, &[char]), PatternError>
    ensures gives { GivesReading tree_read result (plain_atom_at depth flags text.now) }
    ensures shorter { IfOk result (λ x. length x.1.now < length text.now) }
{
    let Some((character, rest)) = first(text) else {
        return Err(syntax(text));
    };
    if character == '.' {
        let tree = any_character(alloc, flags.dot_all)?;
        return Ok((tree, rest));
    }
    if character == '^' {
        return Ok((Hir::look(Look::Start), rest));
    }
    if character == '$' {
        return Ok((Hir::look(Look::End), rest));
    }
    if character == '[' {
        let (set, after) = class(alloc, depth, flags.insensitive, text.len(), rest)?;
        return Ok((Hir::class(set.into_class()), after));
    }
    if character == '\\' {
        let atom = escaped_atom(alloc, text.len(), flags.insensitive, rest)?;
        return Ok(atom);
    }
    if is_special(character) {
        return Err(syntax(text));
    }
    let tree = one_character(alloc, flags.insensitive, u32::from(character))?;
    Ok((tree, rest))
}
