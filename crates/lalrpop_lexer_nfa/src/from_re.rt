//! Automata made of the trees of one or several patterns, and why none is made.

ghost use Rattle.std.specs.Prelude.{◌≡◌, ℕ, ◌+◌, ◌<◌, ◌≤◌, List, ◌↔◌, IfOk, IfErr, None, length, map, slice_index_or, vec_len};
ghost use Rattle.lalrpop_lexer_pattern.specs.Meaning.{meaning};
ghost use Rattle.lalrpop_lexer_pattern.specs.Refused.{refusal};
ghost use Rattle.lalrpop_lexer_pattern.specs.Matches.{Matches, Pattern};
ghost use Rattle.lalrpop_lexer_nfa.specs.Kinds.{AreKinds};
ghost use Rattle.lalrpop_lexer_nfa.specs.Paths.{Accepts, HasKind, HasPath, IsCutOff, nfa_view};
ghost use Rattle.lalrpop_lexer_nfa.specs.Growth.{IsEmptyGraph};
ghost use Rattle.lalrpop_lexer_nfa.specs.Refusals.{IsNfaFault};

use crate::automaton::{ACCEPT, FIRST_ACCEPT, Nfa, REJECT, START};
use crate::state::{Edges, State, StateKind};
use lalrpop_lexer_pattern::{Hir, Refusal};
use std::alloc::{AllocError, AllocFailed, Global};
use thiserror::Error;

/// Why no automaton was made for a pattern.
#[derive(Clone, Copy, Debug, PartialEq, Eq, Error)]
pub enum NfaConstructionError {
    /// A group has a name.
    #[error("named captures are not supported")]
    NamedCaptures,
    /// A repetition takes as few as can be.
    #[error("non-greedy repetitions are not supported")]
    NonGreedy,
    /// The pattern asks where in the text it stands.
    #[error("look-around is not supported")]
    LookAround,
    /// The pattern is one of bytes. Never met by patterns of characters.
    #[error("patterns of bytes are not supported")]
    ByteRegex,
    /// Memory ran out.
    #[error("out of memory")]
    Memory,
}

impl From<AllocError> for NfaConstructionError {
    ghost use Rattle.lalrpop_lexer_nfa.specs.declared.from_re.NfaConstructionError.TheVariants.{Memory};

    ghost from_gives = { λ _ e. e ≡ Memory };

    fn from(_: AllocError) -> NfaConstructionError {
        NfaConstructionError::Memory
    }
}

impl<T: Drop> From<AllocFailed<T>> for NfaConstructionError {
    ghost use Rattle.lalrpop_lexer_nfa.specs.declared.from_re.NfaConstructionError.TheVariants.{Memory};

    ghost from_gives = { λ _ e. e ≡ Memory };

    fn from(_: AllocFailed<T>) -> NfaConstructionError {
        NfaConstructionError::Memory
    }
}

impl From<Refusal> for NfaConstructionError {
    ghost use Rattle.lalrpop_lexer_nfa.specs.Refusals.{error_of};

    ghost from_gives = { λ r e. e ≡ error_of r };

    fn from(refusal: Refusal) -> NfaConstructionError {
        match refusal {
            Refusal::NamedCaptures => NfaConstructionError::NamedCaptures,
            Refusal::NonGreedy => NfaConstructionError::NonGreedy,
            Refusal::LookAround => NfaConstructionError::LookAround,
        }
    }
}

impl Nfa {
    /// An automaton without edges, of the states `ACCEPT`, `REJECT` and `START`, and one more that accepts for each
    /// pattern to be joined.
    fn new(alloc: Global, joined: usize) -> Result<Nfa, AllocError>
        ensures empty { IfOk result (λ nfa. IsEmptyGraph (nfa_view nfa) (3 + joined)) }
        ensures kinds { IfOk result (λ nfa. AreKinds joined (nfa_view nfa).kinds) }
    {
        let mut states = Vec::new(alloc);
        states.push(State::new(StateKind::Accept))?;
        states.push(State::new(StateKind::Reject))?;
        states.push(State::new(StateKind::Neither))?;
        for made in 0..joined {
            states.push(State::new(StateKind::Accept))?;
        }
        Ok(Nfa {
            states,
            edges: Edges::new(alloc),
        })
    }

    /// The automaton that accepts just the words that the pattern matches. It accepts in the state `ACCEPT` alone.
    ///
    /// Errors: memory ran out, or the first thing in the tree's order, outside a greedy `{0}`, that no automaton is made
    /// for.
    pub fn from_re(alloc: Global, pattern: &Hir) -> Result<Nfa, NfaConstructionError>
        ensures accepts { IfOk result (λ nfa. (w : List ℕ) → Accepts nfa w ↔ Matches (meaning pattern.now) w) }
        ensures kinds { IfOk result (λ nfa. AreKinds 0 (nfa_view nfa).kinds) }
        ensures accepting { IfOk result (λ nfa. (q : ℕ) → HasKind (nfa_view nfa) q StateKind.Accept
            → (w : List ℕ) → HasPath (nfa_view nfa) START.0 w q → Matches (meaning pattern.now) w) }
        ensures rejecting { IfOk result (λ nfa. IsCutOff (nfa_view nfa) START.0 REJECT.0) }
        ensures accepted { IfOk result (λ _. refusal (meaning pattern.now) ≡ None) }
        ensures refused { IfErr result (IsNfaFault (refusal (meaning pattern.now))) }
    {
        if let Some(refusal) = pattern.refusal() {
            return Err(NfaConstructionError::from(refusal));
        }
        let mut nfa = Nfa::new(alloc, 0)?;
        let first = nfa.expr(pattern, ACCEPT.0)?;
        nfa.push_noops(START.0, &[first])?;
        Ok(nfa)
    }

    /// One automaton for several patterns: the words that the pattern at the index `k` matches are those that lead from
    /// `START` to the state `FIRST_ACCEPT + k`. It accepts in these states and in `ACCEPT`, to which no word leads. What
    /// no automaton is made for is taken to match nothing.
    ///
    /// Errors: memory ran out.
    pub fn from_all(alloc: Global, patterns: &[Hir]) -> Result<Nfa, AllocError>
        ensures accepts { IfOk result (λ nfa. (k : ℕ) → k < length patterns.now → (w : List ℕ)
            → HasPath (nfa_view nfa) START.0 w (3 + k) ↔ Matches (slice_index_or (map meaning patterns.now) k Pattern.empty) w) }
        ensures kinds { IfOk result (λ nfa. AreKinds (length patterns.now) (nfa_view nfa).kinds) }
        ensures accepting { IfOk result (λ nfa. (q : ℕ) → HasKind (nfa_view nfa) q StateKind.Accept
            → (w : List ℕ) → HasPath (nfa_view nfa) START.0 w q → (k : ℕ) × (k < length patterns.now) × (3 + k ≡ q)
            × Matches (slice_index_or (map meaning patterns.now) k Pattern.empty) w) }
        ensures rejecting { IfOk result (λ nfa. IsCutOff (nfa_view nfa) START.0 REJECT.0) }
        ensures count { IfOk result (λ nfa. 3 + length patterns.now ≤ vec_len nfa.states) }
    {
        let mut nfa = Nfa::new(alloc, patterns.len())?;
        let mut firsts = Vec::new(alloc);
        for i in 0..patterns.len() {
            firsts.push(nfa.expr(&patterns[i], FIRST_ACCEPT + i)?)?;
        }
        nfa.push_noops(START.0, &firsts)?;
        Ok(nfa)
    }
}
