//! Pieces of the alphabet in groups.

ghost use Rattle.std.specs.Prelude.{◌≡◌, ◌<◌, length, All, IfOk};
ghost use Rattle.lalrpop_lexer.specs.Targets.{StartsAscend};
ghost use Rattle.lalrpop_lexer.specs.Groups.{AreMarkedGroups};

use lalrpop_lexer_nfa::Test;
use std::alloc::{AllocError, Global};

/// The pieces in groups.
#[derive(Drop)]
pub(crate) struct Groups {
    /// For each piece the number of its group.
    pub(crate) numbers: Vec<usize>,
    /// The first piece of each group, ascending.
    pub(crate) firsts: Vec<Test>,
}

/// The groups of the pieces that have one mark, numbered as they are first seen. Marks are below the bound.
pub(crate) fn marked_groups(
    alloc: Global,
    pieces: &[Test],
    marks: &[usize],
    bound: usize,
) -> Result<Groups, AllocError>
    requires size { length marks.now ≡ length pieces.now }
    requires bound { All (λ m. m < bound) marks.now }
    requires pieces { StartsAscend pieces.now }
    ensures { IfOk result (λ groups. AreMarkedGroups pieces.now marks.now groups.numbers.items groups.firsts.items) }
{
    let mut groups = Groups {
        numbers: Vec::new(alloc),
        firsts: Vec::new(alloc),
    };
    let mut known = vec![in alloc; None; bound]?;
    for i in 0..pieces.len() {
        let mark = marks[i];
        let group = match known[mark] {
            Some(group) => group,
            None => {
                let group = groups.firsts.len();
                known[mark] = Some(group);
                groups.firsts.push(pieces[i])?;
                group
            }
        };
        groups.numbers.push(group)?;
    }
    Ok(groups)
}
