//! What an automaton has read in vain: states from which no place of a text leads to a match.

ghost use Rattle.std.specs.Prelude.{◌≡◌, ◌<◌, ℕ, List, ◌++◌, None, true, length, IfSome, MatchOption};
ghost use Rattle.std.specs.Str.{chars};
ghost use Rattle.std.specs.HashSet.{PutsKey};
ghost use Rattle.lalrpop_lexer.specs.Simulation.{StateView, answer_of};
ghost use Rattle.lalrpop_lexer.specs.Answer.{IsAnswerFront};
ghost use Rattle.lalrpop_lexer.specs.Walks.{AreDeadEnds, IsDeadEnd, IsDeadEndAt};

use crate::automaton::Dfa;
use crate::kind::NfaIndex;
use crate::walk::walk_along;
use std::alloc::Global;
use std::collections::HashSet;

/// So few bytes read in vain are not counted.
const FEW: usize = 32;

/// States of an automaton and places of a text from which no match comes. A text that is cut into longest matches is read in
/// time linear in its length where they are kept.
///
/// They are noted once more was read in vain than the text has left, so not where this is rare.
#[derive(Drop)]
pub struct DeadEnds {
    // Each a state, and how many bytes the text has left.
    noted: HashSet<(usize, usize)>,
    // How many bytes were read in vain and not noted.
    vain: usize,
}

/// Whether the state is known to be a dead end where so many bytes are left.
pub(crate) fn is_dead_end(known: Option<&DeadEnds>, state: usize, left: usize) -> bool
    ensures { (nodes : List StateView) (text : List ℕ) → IfSome known.entry (λ ends. AreDeadEnds nodes text ends.now) → result ≡ true
        → IsDeadEndAt nodes text (state, left) }
{
    match known {
        Some(ends) => ends.noted.contains(&(state, left)),
        None => false,
    }
}

impl DeadEnds {
    /// None yet. Takes no memory.
    pub fn new(alloc: Global) -> DeadEnds
        ensures { (nodes : List StateView) (text : List ℕ) → AreDeadEnds nodes text result }
    {
        DeadEnds {
            noted: HashSet::new(alloc),
            vain: 0,
        }
    }

    /// These, unless there are none.
    fn unless_empty(&self) -> Option<&DeadEnds>
        ensures { IfSome result (λ ends. ends.now ≡ self.now) }
    {
        if self.noted.is_empty() {
            None
        } else {
            Some(self)
        }
    }

    /// What [`interpret`](crate::dfa::interpret) answers. `text` is what is left of one text from call to call.
    ///
    /// Where no memory is left to note what was read in vain, it may be read again.
    pub fn interpret<'t>(&mut self, dfa: &Dfa, text: &'t str) -> Option<(NfaIndex, &'t str)>
        requires { AreDeadEnds dfa.now text.now self.old }
        ensures answer { MatchOption result (answer_of dfa.now (chars text.now) ≡ None)
            (λ found. IsAnswerFront dfa.now text.now found.0.0 found.1.now) }
        ensures noted { AreDeadEnds dfa.now text.now self.new }
    {
        if dfa.state_count() == 0 {
            return None;
        }
        let (walk, left) = walk_along(dfa, text, self.unless_empty());
        let vain = walk.rest.len().saturating_sub(left);
        if self.is_to_note(vain, left) {
            self.note_from(dfa, walk.state, walk.rest);
        }
        walk.answer(text)
    }

    /// Whether to note so many bytes that were read in vain: whether more were already than are left. If not, they are counted.
    fn is_to_note(&mut self, vain: usize, left: usize) -> bool
        ensures { self.new.noted ≡ self.old.noted }
    {
        if vain <= FEW {
            return false;
        }
        let total = self.vain.saturating_add(vain);
        if self.vain > left {
            return true;
        }
        self.vain = total;
        false
    }

    /// Notes the state at the front of the text, and those that the text leads to from there, up to one that was noted.
    fn note_from(&mut self, dfa: &Dfa, state: usize, text: &str)
        requires inside { state < length dfa.now }
        requires end { IsDeadEnd dfa.now state text.now }
        ensures { (whole front : List ℕ) → whole ≡ front ++ text.now → AreDeadEnds dfa.now whole self.old
            → AreDeadEnds dfa.now whole self.new }
    {
        let mut state = state;
        let mut left = text.chars();
        while self.note(state, left.as_str().len()) {
            let Some(c) = left.next() else {
                return;
            };
            let Some(next) = dfa.next_state(state, c as u32) else {
                return;
            };
            state = next;
        }
    }

    /// Notes a dead end, and answers whether it was new and there was memory for it.
    fn note(&mut self, state: usize, left: usize) -> bool
        ensures { PutsKey self.old.noted self.new.noted (state, left) result }
    {
        match self.noted.insert((state, left)) {
            Ok(new) => new,
            Err(_) => false,
        }
    }
}
