//! Laws on automata: what their edges of all labels say together.

ghost use Rattle.std.specs.Prelude.{◌≡◌, ◌≢◌, ℕ, ◌↔◌, List, All};
ghost use Rattle.lalrpop_lexer_nfa.specs.Paths.{HasPath, nfa_view};
ghost use Rattle.lalrpop_lexer_nfa.specs.Taken.{IsLedTo};

use crate::automaton::{Nfa, REJECT};

/// Edges labelled `Other` lead to `REJECT`, and none leads on from there. So where a word leads but to `REJECT`, it leads
/// by epsilon edges and tests alone.
pub fn other_edges_reject(nfa: &Nfa)
    ensures targets { All (λ e. e.to.0 ≡ REJECT.0) nfa.now.edges.other_edges.items }
    ensures led { (s : ℕ) (w : List ℕ) (q : ℕ) → q ≢ REJECT.0 → IsLedTo nfa.now.edges s w q ↔ HasPath (nfa_view nfa.now) s w q }
{}
