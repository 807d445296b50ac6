//! Where the transitions from some states lead, for each of the alphabet classes.

ghost use Rattle.std.specs.Prelude.{◌≡◌, ◌==◌, ℕ, ◌+◌, ◌<◌, ◌≤◌, ◌⊎◌, ◌↔◌, List, [], length, map, filter, All, Contains, IfOk, OnOk, vec_len, slice_index_or};
ghost use Rattle.lalrpop_lexer_nfa.specs.Paths.{HasTransition, nfa_view};
ghost use Rattle.lalrpop_lexer_nfa.specs.Ranges.{TestHolds};
ghost use Rattle.lalrpop_lexer.specs.Targets.{items_at, start_at, StartsAscend, AddsTargets, AreTargets};

use lalrpop_lexer_nfa::{Edge, Nfa, NfaStateIndex, Test};
use std::alloc::{AllocError, Global};

/// The place of the first piece that begins at the number or above it.
pub(crate) fn first_from(pieces: &[Test], number: u32) -> usize
    requires { StartsAscend pieces.now }
    ensures within { result ≤ length pieces.now }
    ensures below { (i : ℕ) → i < result → start_at pieces.now i < number }
    ensures above { (i : ℕ) → result ≤ i → i < length pieces.now → number ≤ start_at pieces.now i }
{
    let mut low = 0;
    let mut high = pieces.len();
    while low < high {
        let middle = low + (high - low) / 2;
        if pieces[middle].start() < number {
            low = middle + 1;
        } else {
            high = middle;
        }
    }
    low
}

/// Adds where the edge leads to the targets of each piece that it reads. They stand one after another.
fn add_edge(
    edge: &Edge<Test>,
    pieces: &[Test],
    targets: &mut [Vec<usize>],
) -> Result<(), AllocError>
    requires size { length targets.old ≡ length pieces.now }
    requires pieces { StartsAscend pieces.now }
    ensures { OnOk result (AddsTargets edge.now pieces.now (length pieces.now) targets.old targets.new) }
{
    for i in first_from(pieces, edge.label.start())..pieces.len() {
        if edge.label.end() < pieces[i].start() {
            return Ok(());
        }
        targets[i].push(edge.to.0)?;
    }
    Ok(())
}

/// For each piece, where the edges from a set of states lead which read the piece's first number.
pub(crate) fn moves(
    alloc: Global,
    nfa: &Nfa,
    set: &[usize],
    pieces: &[Test],
) -> Result<Vec<Vec<usize>>, AllocError>
    requires set { All (λ q. q < vec_len nfa.now.states) set.now }
    requires pieces { StartsAscend pieces.now }
    ensures { IfOk result (λ targets. AreTargets (nfa_view nfa.now) set.now pieces.now targets.items) }
{
    let mut targets = Vec::new(alloc);
    for made in 0..pieces.len() {
        targets.push(Vec::new(alloc))?;
    }
    for i in 0..set.len() {
        for edge in nfa.edges::<Test>(NfaStateIndex(set[i])) {
            add_edge(edge, pieces, &mut targets)?;
        }
    }
    Ok(targets)
}
