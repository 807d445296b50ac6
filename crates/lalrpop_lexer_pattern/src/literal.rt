//! Patterns of a text's own characters.

ghost use Rattle.std.specs.Prelude.{◌≡◌, IfOk};
ghost use Rattle.std.specs.Str.{chars};
ghost use Rattle.lalrpop_lexer_pattern.specs.Matches.{Pattern};
ghost use Rattle.lalrpop_lexer_pattern.specs.Meaning.{meaning};

use crate::tree::{Hir, Regex};
use std::alloc::{AllocError, Global};

/// The pattern of the text's own characters, none of them special. Fails for want of memory alone.
pub fn parse_literal(alloc: Global, text: &str) -> Result<Regex, AllocError>
    ensures { IfOk result (λ tree. meaning tree ≡ Pattern.literal (chars text.now)) }
{
    let characters = characters_of(alloc, text)?;
    let numbers = numbers(alloc, &characters)?;
    Ok(Hir::literal(numbers))
}

/// The characters of a text. Fails for want of memory alone.
pub fn characters_of(alloc: Global, text: &str) -> Result<Vec<char>, AllocError>
    ensures { IfOk result (λ characters. characters.items ≡ chars text.now) }
{
    text.chars().collect(alloc)
}

/// Characters as numbers.
fn numbers(alloc: Global, characters: &[char]) -> Result<Vec<u32>, AllocError>
    ensures { IfOk result (λ numbers. numbers.items ≡ characters.now) }
{
    let mut numbers = Vec::new(alloc);
    for character in characters {
        numbers.push(u32::from(*character))?;
    }
    Ok(numbers)
}
