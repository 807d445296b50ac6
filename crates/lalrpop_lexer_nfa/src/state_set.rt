//! Sets of numbers below a bound, such as the states of an automaton, to be filled and emptied again and again.

ghost use Rattle.std.specs.Prelude.{◌≡◌, ◌≢◌, ◌<◌, [], IfOk, OnOk, IsTrue, ◌↔◌, All, AllPairs, Contains, vec_len};
ghost use Rattle.lalrpop_lexer_nfa.specs.Sets.{Inserts};
ghost use Rattle.lalrpop_lexer_nfa.specs.Places.{ArePlaced};

use std::alloc::{AllocError, Global};

/// A set of numbers below a bound: its members, and for each number the index where it stands if it is one.
///
/// To empty it takes no time. To insert a number, or to ask for one, takes the same for every number.
#[derive(Drop)]
pub struct NfaStateSet {
    members: Vec<usize>,
    places: Vec<usize>,
    pub ghost below: { All (λ q. q < vec_len places) members.items },
    pub ghost placed: { ArePlaced members.items places.items },
}

impl NfaStateSet {
    /// The set without members, for numbers below `bound`.
    pub fn new(alloc: Global, bound: usize) -> Result<NfaStateSet, AllocError>
        ensures members { IfOk result (λ s. s.members.items ≡ []) }
        ensures bound { IfOk result (λ s. vec_len s.places ≡ bound) }
    {
        Ok(NfaStateSet {
            members: Vec::new(alloc),
            places: vec![in alloc; 0; bound]?,
        })
    }

    /// The number that all members are below.
    pub fn limit(&self) -> usize
        ensures { result ≡ vec_len self.now.places }
    {
        self.places.len()
    }

    /// The members, in the order in which they came. None stands twice.
    pub fn members(&self) -> &[usize]
        ensures members { result.now ≡ self.now.members.items }
        ensures once { AllPairs (λ x y. x ≢ y) result.now }
        ensures below { All (λ q. q < vec_len self.now.places) result.now }
    {
        &self.members
    }

    /// Whether the number is a member.
    pub fn contains(&self, number: usize) -> bool
        ensures { IsTrue result ↔ Contains self.now.members.items number }
    {
        if number >= self.places.len() {
            return false;
        }
        let place = self.places[number];
        place < self.members.len() && self.members[place] == number
    }

    /// Takes all members out.
    pub fn clear(&mut self)
        ensures members { self.new.members.items ≡ [] }
        ensures bound { vec_len self.new.places ≡ vec_len self.old.places }
    {
        self.members.clear();
    }

    /// Makes the number a member, after the others, unless it is one. Answers whether it is a new one.
    pub fn insert(&mut self, number: usize) -> Result<bool, AllocError>
        requires { number < vec_len self.old.places }
        ensures members { OnOk result (Inserts self.old.members.items number self.new.members.items) }
        ensures fresh { IfOk result (λ fresh. IsTrue fresh ↔ (Contains self.old.members.items number → ⊥)) }
        ensures bound { vec_len self.new.places ≡ vec_len self.old.places }
    {
        if self.contains(number) {
            return Ok(false);
        }
        self.places[number] = self.members.len();
        self.members.push(number)?;
        Ok(true)
    }
}
