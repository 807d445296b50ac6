//! The pieces of the alphabet that the edges of an automaton read alike.

ghost use Rattle.std.specs.Prelude.{◌≡◌, ◌<◌, length, IfOk};
ghost use Rattle.lalrpop_lexer_nfa.specs.Paths.{nfa_view};
ghost use Rattle.lalrpop_lexer.specs.Targets.{StartsAscend};
ghost use Rattle.lalrpop_lexer.specs.Groups.{AreGroups};

use crate::groups::{Groups, marked_groups};
use crate::partition::Partition;
use lalrpop_lexer_nfa::{Nfa, NfaStateIndex, Test};
use std::alloc::{AllocError, Global};

/// The groups of the pieces that the edges of the automaton read alike.
pub(crate) fn groups_of(alloc: Global, nfa: &Nfa, pieces: &[Test]) -> Result<Groups, AllocError>
    requires { StartsAscend pieces.now }
    ensures { IfOk result (λ groups. AreGroups (nfa_view nfa.now) pieces.now groups.numbers.items groups.firsts.items) }
{
    let mut partition = Partition::new(alloc, pieces.len())?;
    for state in 0..nfa.state_count() {
        for edge in nfa.edges::<Test>(NfaStateIndex(state)) {
            partition.split_by(edge, pieces)?;
        }
        partition.renumber(alloc, pieces)?;
    }
    let groups = marked_groups(alloc, pieces, &partition.numbers, partition.splits.len())?;
    Ok(groups)
}
