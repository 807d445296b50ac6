//! The parts of an automaton that read the words of each kind of pattern tree.

ghost use Rattle.std.specs.Prelude.{◌≡◌, ℕ, ◌+◌, ◌<◌, ◌≤◌, ◌++◌, ◌∷◌, [], IfOk, OnOk, All, map, vec_len};
ghost use Rattle.lalrpop_lexer_pattern.specs.Meaning.{meaning};
ghost use Rattle.lalrpop_lexer_pattern.specs.Matches.{Matches, Power, concat_all, alternation_all, Pattern};
ghost use Rattle.lalrpop_lexer_nfa.specs.Paths.{nfa_view};
ghost use Rattle.lalrpop_lexer_nfa.specs.Fragments.{IsFragment, UpTo, AtLeast};

use crate::automaton::Nfa;
use crate::repeats::{copies, is_empty_word, merged};
use lalrpop_lexer_pattern::{Hir, Range, Repeats};
use std::alloc::AllocError;

impl Nfa {
    /// Adds states that read the words of the pattern and go on at `accept`, and answers the first.
    #[cycle(build)]
    pub(crate) fn expr(&mut self, pattern: &Hir, accept: usize) -> Result<usize, AllocError>
        requires { accept < vec_len self.old.states }
        ensures { IfOk result (λ s. IsFragment (nfa_view self.old) (nfa_view self.new) (Matches (meaning pattern.now)) s accept) }
    {
        match pattern {
            Hir::Empty => Ok(accept),
            Hir::Literal(characters) => self.literal(characters, accept),
            Hir::Class(class) => self.class(&class.ranges, accept),
            Hir::Look(_) => self.dead(accept),
            Hir::Capture { name: _, sub } => self.expr(sub, accept),
            Hir::Repetition { repeats, sub } => {
                let (whole, piece) = merged(*repeats, sub);
                self.repetition(whole, piece, accept)
            }
            Hir::Concat(subs) => self.concat(subs, accept),
            Hir::Alternation(subs) => self.alternation(subs, accept),
        }
    }

    /// Adds a state that nothing leads out of.
    fn dead(&mut self, accept: usize) -> Result<usize, AllocError>
        requires { accept < vec_len self.old.states }
        ensures { IfOk result (λ s. IsFragment (nfa_view self.old) (nfa_view self.new) (λ w. ⊥) s accept) }
    {
        let state = self.new_state()?;
        Ok(state)
    }

    /// Adds a state for each character, from the last to the first.
    fn literal(&mut self, characters: &[u32], accept: usize) -> Result<usize, AllocError>
        requires { accept < vec_len self.old.states }
        ensures { IfOk result (λ s. IsFragment (nfa_view self.old) (nfa_view self.new) (Matches (Pattern.literal characters.now)) s accept) }
    {
        let mut next = accept;
        for i in (0..characters.len()).rev() {
            let range = Range {
                start: characters[i],
                end: characters[i],
            };
            next = self.new_reader(&[range], next)?;
        }
        Ok(next)
    }

    /// Adds a state that reads one character of the ranges.
    fn class(&mut self, ranges: &[Range], accept: usize) -> Result<usize, AllocError>
        requires { accept < vec_len self.old.states }
        ensures { IfOk result (λ s. IsFragment (nfa_view self.old) (nfa_view self.new) (Matches (Pattern.class ranges.now)) s accept) }
    {
        let state = self.new_reader(ranges, accept)?;
        Ok(state)
    }

    /// Adds the parts from the last to the first, each of them going on at the one before.
    #[cycle(build)]
    fn concat(&mut self, subs: &[Hir], accept: usize) -> Result<usize, AllocError>
        requires { accept < vec_len self.old.states }
        ensures { IfOk result (λ s. IsFragment (nfa_view self.old) (nfa_view self.new) (Matches (concat_all (map meaning subs.now))) s accept) }
    {
        let mut next = accept;
        for i in (0..subs.len()).rev() {
            next = self.expr(&subs[i], next)?;
        }
        Ok(next)
    }

    /// Adds the branches, and a state that goes on at each.
    #[cycle(build)]
    fn alternation(&mut self, subs: &[Hir], accept: usize) -> Result<usize, AllocError>
        requires { accept < vec_len self.old.states }
        ensures { IfOk result (λ s. IsFragment (nfa_view self.old) (nfa_view self.new) (Matches (alternation_all (map meaning subs.now))) s accept) }
    {
        let mut targets = Vec::new(*self.states.allocator());
        for i in 0..subs.len() {
            targets.push(self.expr(&subs[i], accept)?)?;
        }
        let state = self.new_branch(&targets)?;
        Ok(state)
    }

    /// Adds what reads a pattern some number of times. The empty word is the same however often it is repeated. Room for all
    /// copies is asked for first, so that memory runs out before it is filled.
    #[cycle(build)]
    fn repetition(
        &mut self,
        repeats: Repeats,
        sub: &Hir,
        accept: usize,
    ) -> Result<usize, AllocError>
        requires { accept < vec_len self.old.states }
        ensures { IfOk result (λ s. IsFragment (nfa_view self.old) (nfa_view self.new) (Matches (Pattern.repetition repeats.min repeats.max repeats.greedy (meaning sub.now))) s accept) }
    {
        if is_empty_word(sub) {
            return Ok(accept);
        }
        self.make_room(copies(repeats, sub))?;
        self.times(repeats, sub, accept)
    }

    /// Adds `min` copies, and behind them what reads the other times.
    #[cycle(build)]
    fn times(&mut self, repeats: Repeats, sub: &Hir, accept: usize) -> Result<usize, AllocError>
        requires { accept < vec_len self.old.states }
        ensures { IfOk result (λ s. IsFragment (nfa_view self.old) (nfa_view self.new) (Matches (Pattern.repetition repeats.min repeats.max repeats.greedy (meaning sub.now))) s accept) }
    {
        match repeats.max {
            Some(0) => Ok(accept),
            Some(max) => {
                let rest = self.up_to(max - repeats.min, sub, accept)?;
                let state = self.copies(repeats.min, sub, rest)?;
                Ok(state)
            }
            None => self.at_least(repeats.min, sub, accept),
        }
    }

    /// Adds `count` copies, the last of which may be read again.
    #[cycle(build)]
    fn at_least(&mut self, count: u32, sub: &Hir, accept: usize) -> Result<usize, AllocError>
        requires { accept < vec_len self.old.states }
        ensures { IfOk result (λ s. IsFragment (nfa_view self.old) (nfa_view self.new) (AtLeast (Matches (meaning sub.now)) count) s accept) }
    {
        if count == 0 {
            return self.star(sub, accept);
        }
        let last = self.plus(sub, accept)?;
        let state = self.copies(count - 1, sub, last)?;
        Ok(state)
    }

    /// Adds the pattern `count` times.
    #[cycle(build)]
    fn copies(&mut self, count: u32, sub: &Hir, accept: usize) -> Result<usize, AllocError>
        requires { accept < vec_len self.old.states }
        ensures { IfOk result (λ s. IsFragment (nfa_view self.old) (nfa_view self.new) (Power (Matches (meaning sub.now)) count) s accept) }
    {
        let mut next = accept;
        for done in 0..count {
            next = self.expr(sub, next)?;
        }
        Ok(next)
    }

    /// Adds the pattern `count` times. In front of each copy stands a state that goes on at it, or behind them all: so what
    /// follows a copy stands inside what may be left out with it.
    #[cycle(build)]
    fn up_to(&mut self, count: u32, sub: &Hir, accept: usize) -> Result<usize, AllocError>
        requires { accept < vec_len self.old.states }
        ensures { IfOk result (λ s. IsFragment (nfa_view self.old) (nfa_view self.new) (UpTo (Matches (meaning sub.now)) count) s accept) }
    {
        let mut next = accept;
        for done in 0..count {
            let once = self.expr(sub, next)?;
            next = self.new_branch(&[accept, once])?;
        }
        Ok(next)
    }

    /// Adds the pattern, and a state behind it that goes on at `accept`, or at the pattern once more.
    #[cycle(build)]
    fn plus(&mut self, sub: &Hir, accept: usize) -> Result<usize, AllocError>
        requires { accept < vec_len self.old.states }
        ensures { IfOk result (λ s. IsFragment (nfa_view self.old) (nfa_view self.new) (AtLeast (Matches (meaning sub.now)) 1) s accept) }
    {
        let state = self.new_state()?;
        let first = self.expr(sub, state)?;
        self.push_noops(state, &[accept, first])?;
        Ok(first)
    }

    /// Adds a state that goes on behind the pattern, or at the pattern, which comes back to that state.
    #[cycle(build)]
    fn star(&mut self, sub: &Hir, accept: usize) -> Result<usize, AllocError>
        requires { accept < vec_len self.old.states }
        ensures { IfOk result (λ s. IsFragment (nfa_view self.old) (nfa_view self.new) (AtLeast (Matches (meaning sub.now)) 0) s accept) }
    {
        let state = self.new_state()?;
        let round = self.expr(sub, state)?;
        self.push_noops(state, &[accept, round])?;
        Ok(state)
    }
}
