//! The alphabet classes: the ranges into which the ranges of all transitions fall.

ghost use Rattle.std.specs.Prelude.{◌≡◌, IfOk, vec_len};
ghost use Rattle.lalrpop_lexer_nfa.specs.Paths.{nfa_view};
ghost use Rattle.lalrpop_lexer.specs.Explore.{AreClassesOf};

use lalrpop_lexer_nfa::{Nfa, NfaStateIndex, Test, remove_overlap};
use std::alloc::{AllocError, Global};
use std::collections::BTreeSet;

/// What the edges of the automaton read, parted so that each edge reads all of a piece or nothing of it.
pub(crate) fn pieces_of(alloc: Global, nfa: &Nfa) -> Result<Vec<Test>, AllocError>
    ensures { IfOk result (λ pieces. AreClassesOf (nfa_view nfa.now) pieces.items) }
{
    let mut tests = BTreeSet::new(alloc);
    for state in 0..nfa.state_count() {
        for edge in nfa.edges::<Test>(NfaStateIndex(state)) {
            tests.insert(edge.label)?;
        }
    }
    let pieces = remove_overlap(alloc, &tests)?;
    Ok(pieces)
}
