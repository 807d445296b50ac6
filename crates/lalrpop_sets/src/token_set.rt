//! Sets of tokens.

ghost use Rattle.std.specs.Prelude.{◌≡◌, ◌||◌, ◌&&◌, ◌≤◌, ◌<◌, ◌^◌, ◌+◌, ℕ, not, true, false, IsTrue, IsFalse, List, [], ◌∷◌, length};
ghost use Rattle.std.specs.List.{range_with_len};
ghost use Rattle.std.specs.Prelude.{IfOk, IfErr, OnOk, nat_eq, eqb, vec_capacity};
ghost use Rattle.std.specs.Prelude.{◌==◌, Some, refl};
ghost use Rattle.std.specs.Cmp.{partial_equiv_from_equiv};
ghost use Rattle.std.specs.Cmp.Lexicographic.{pointwise, slice_cmp, nat_list_eq_equiv, nat_list_cmp_total, texts_ties, texts_po};
ghost use Rattle.std.specs.Cmp.Rules.{hashing};
ghost use Rattle.std.specs.Hash as fed;
ghost use Rattle.std.specs.Ordering.{nat_cmp};
ghost use Rattle.std.proofs.Common.{rules};
ghost use Rattle.lalrpop_sets.specs.AscendingLists.{Ascends, has};
ghost use Rattle.lalrpop_sets.specs.Ranges.{RangesFrom, covers_end, is_covered, most_ranges};
ghost use Rattle.lalrpop_sets.specs.RangeWalks.{numbers_to_come, ranges_to_come};
ghost use Rattle.lalrpop_sets.specs.TokenTexts.{number_set_text};
ghost use Rattle.lalrpop_sets.specs.Tokens.{eof_number, has_number, is_number, lacks_number, number_alone, number_of};

use crate::common::{common, missing, next_common};
use crate::joined::joined_ranges;
use crate::number_texts::write_numbers;
use crate::order::{compare, count, hash_numbers};
use crate::range_walk::RangeWalk;
use crate::ranges::{has_range, put_in, room_for, take_out};
use crate::token::Token;
use crate::token_range::TokenRange;
use crate::token_set_iter::TokenSetIter;
use lalrpop_grammar_repr::TerminalSet;
use std::alloc::{AllocError, Global};
use std::cmp::Ordering;
use std::fmt::{self, Debug, Formatter, Write};
use std::hash::{Hash, Hasher};
use std::marker::Model;

/// A set of tokens of one grammar, by their numbers.
pub struct TokenSet {
    // Its numbers but for the end's: ranges in order, between two of which a number is missing.
    ranges: Vec<TokenRange>,
    // The number of the end, where it is there. It stands apart, since it comes and goes while the others stay.
    end: Option<u32>,
}

impl Drop for TokenSet {
    /// Drops what it holds: where it is owned, that is one call.
    fn drop(self) {
        let TokenSet {
            ranges: _ranges,
            end: _,
        } = self;
    }
}

impl Model for TokenSet {
    ghost use Rattle.std.specs.Prelude.{ℕ, List, vec_capacity};
    ghost use Rattle.lalrpop_sets.specs.Ranges.{AreRanges, token_numbers};

    ghost Value = { List ℕ };

    ghost view = { λ it. token_numbers it.ranges.items it.end };

    ghost invariant = { λ it. AreRanges it.ranges.items it.end (vec_capacity it.ranges) };
}

/// The number of the end.
fn eof_bit(terminals: &TerminalSet) -> usize
    ensures number { result ≡ eof_number terminals.now }
    ensures small { result < 2 ^ 63 }
{
    terminals.all.as_slice().len()
}

/// The number of a token; none for a terminal that isn't the grammar's.
fn number(terminals: &TerminalSet, token: &Token) -> Option<usize>
    ensures { result ≡ number_of terminals.now token.now }
{
    match token {
        Token::Eof => Some(eof_bit(terminals)),
        Token::Error => Some(eof_bit(terminals) + 1),
        Token::Terminal(terminal) => terminals.bits.get(terminal).copied(),
    }
}

/// The number in half of its width, by asking for room that no memory has where it is too great.
fn narrow(alloc: Global, number: usize) -> Result<u32, AllocError>
    ensures { IfOk result (λ narrow. narrow ≡ number) }
{
    match u32::try_from(number) {
        Ok(narrow) => Ok(narrow),
        Err(_) => {
            let _room: Vec<TokenRange> = Vec::with_capacity(alloc, usize::MAX)?;
            Err(AllocError)
        }
    }
}

/// The set of the numbers that one of the walks has. Where the number is among them, it is taken for the end's.
fn set_of_both(
    alloc: Global,
    one: RangeWalk<'_>,
    other: RangeWalk<'_>,
    number: Option<u32>,
) -> Result<TokenSet, AllocError>
    requires one { RangesFrom 1 0 (ranges_to_come one) }
    requires other { RangesFrom 1 0 (ranges_to_come other) }
    ensures both { IfOk result (λ set. (k : ℕ) → has set k ≡ (is_covered (ranges_to_come one.entry) k || is_covered (ranges_to_come other.entry) k)) }
    ensures ordered { IfOk result (λ set. Ascends set) }
{
    let mut ranges = joined_ranges(alloc, one, other)?;
    let end = take_end(&mut ranges, number);
    Ok(TokenSet { ranges, end })
}

/// Takes the number out of the ranges, and gives it, where they have it.
fn take_end(ranges: &mut Vec<TokenRange>, number: Option<u32>) -> Option<u32>
    requires apart { RangesFrom 2 0 ranges.old.items }
    requires room { most_ranges ranges.old.items ≤ vec_capacity ranges.old }
    ensures same { (k : ℕ) → (is_number result k || is_covered ranges.new.items k) ≡ is_covered ranges.old.items k }
    ensures free { covers_end ranges.new.items result ≡ false }
    ensures apart { RangesFrom 2 0 ranges.new.items }
    ensures room { most_ranges ranges.new.items ≤ vec_capacity ranges.new }
{
    let end = number?;
    if take_out(ranges, end as usize) {
        return Some(end);
    }
    None
}

/// Whether it is that number.
fn is_end(end: Option<u32>, number: usize) -> bool
    ensures { result ≡ is_number end number }
{
    match end {
        Some(end) => number == end as usize,
        None => false,
    }
}

impl TokenSet {
    ghost use Rattle.lalrpop_sets.specs.IterLeft.{tokens_to_come};
    ghost use Rattle.lalrpop_sets.specs.TokensLeft.{tokens_of};

    /// A set without tokens. It takes memory with the first token that comes.
    pub fn new(alloc: Global, terminals: &TerminalSet) -> Result<TokenSet, AllocError>
        ensures { IfOk result (λ set. set ≡ []) }
    {
        let _ = terminals;
        Ok(TokenSet::without_room(alloc))
    }

    /// A set without tokens, and without room.
    pub(crate) fn without_room(alloc: Global) -> TokenSet
        ensures { result ≡ [] }
    {
        TokenSet {
            ranges: Vec::new(alloc),
            end: None,
        }
    }

    /// A walk over its numbers.
    fn walk(&self) -> RangeWalk<'_>
        ensures numbers { numbers_to_come result ≡ self.now }
        ensures covered { (k : ℕ) → is_covered (ranges_to_come result) k ≡ has self.now k }
        ensures ordered { RangesFrom 1 0 (ranges_to_come result) }
        ensures ascends { Ascends self.now }
    {
        RangeWalk::new(self.ranges.as_slice(), self.end)
    }

    fn contains_number(&self, number: usize) -> bool
        ensures answer { result ≡ has self.now number }
        ensures ordered { Ascends self.now }
    {
        is_end(self.end, number) || has_range(self.ranges.as_slice(), number)
    }

    fn insert_number(&mut self, number: usize) -> Result<bool, AllocError>
        ensures set { IfOk result (λ fresh. (j : ℕ) → has self.new j ≡ (nat_eq j number || has self.old j)) }
        ensures fresh { IfOk result (λ fresh. has self.old number ≡ not fresh) }
        ensures kept { IfErr result (λ _. self.new ≡ self.old) }
        ensures ordered { Ascends self.new }
    {
        if self.contains_number(number) {
            return Ok(false);
        }
        let number = narrow(*self.ranges.allocator(), number)?;
        let room = room_for(self.ranges.as_slice()) + 1;
        let more = room - self.ranges.len();
        self.ranges.reserve(more)?;
        put_in(&mut self.ranges, number);
        Ok(true)
    }

    /// The tokens that are in one of both sets.
    fn joined_with(&self, other: &TokenSet) -> Result<TokenSet, AllocError>
        ensures joined { IfOk result (λ set. (k : ℕ) → has set k ≡ (has self.now k || has other.now k)) }
        ensures ordered { IfOk result (λ set. Ascends set) }
    {
        let one = self.walk();
        let another = other.walk();
        // what comes to nothing is copied: that is one step, where joining takes two walks
        if one.head.is_none() {
            return other.try_clone();
        }
        let alloc = *self.ranges.allocator();
        set_of_both(alloc, one, another, self.end.or(other.end))
    }

    /// Whether the token is in the set.
    pub fn contains(&self, token: &Token, terminals: &TerminalSet) -> bool
        ensures { result ≡ has_number self.now (number_of terminals.now token.now) }
    {
        match number(terminals, token) {
            Some(k) => self.contains_number(k),
            None => false,
        }
    }

    /// Whether the end is in the set.
    pub fn contains_eof(&self, terminals: &TerminalSet) -> bool
        ensures { result ≡ has self.now (eof_number terminals.now) }
    {
        self.contains_number(eof_bit(terminals))
    }

    /// All terminals and the end, without the token of errors.
    pub fn all(alloc: Global, terminals: &TerminalSet) -> Result<TokenSet, AllocError>
        ensures { IfOk result (λ set. set ≡ range_with_len 0 (eof_number terminals.now + 1)) }
    {
        let last = narrow(alloc, eof_bit(terminals))?;
        let mut ranges = Vec::with_capacity(alloc, last as usize / 2 + 1)?;
        ranges.push(TokenRange { first: 0, last })?;
        let end = take_end(&mut ranges, Some(last));
        Ok(TokenSet { ranges, end })
    }

    /// The end alone.
    pub fn eof(alloc: Global, terminals: &TerminalSet) -> Result<TokenSet, AllocError>
        ensures { IfOk result (λ set. set ≡ eof_number terminals.now ∷ []) }
    {
        let mut set = TokenSet::new(alloc, terminals)?;
        set.insert_eof(terminals)?;
        Ok(set)
    }

    /// The token alone; nothing for a terminal that isn't the grammar's.
    pub fn from_token(
        alloc: Global,
        token: &Token,
        terminals: &TerminalSet,
    ) -> Result<TokenSet, AllocError>
        ensures { IfOk result (λ set. set ≡ number_alone (number_of terminals.now token.now)) }
    {
        let mut set = TokenSet::new(alloc, terminals)?;
        set.insert(token, terminals)?;
        Ok(set)
    }

    /// Makes room for the numbers below `len`: every second of them may be there.
    pub fn reserve(&mut self, len: usize) -> Result<(), AllocError>
        ensures { self.new ≡ self.old }
    {
        let count = len / 2 + 1;
        if count <= self.ranges.len() {
            return Ok(());
        }
        let more = count - self.ranges.len();
        self.ranges.reserve(more)?;
        Ok(())
    }

    /// How many tokens are in the set. Each set is seen as its numbers, ascending.
    pub fn len(&self) -> usize
        ensures length { result ≡ length self.now }
        ensures ordered { Ascends self.now }
    {
        count(self.walk())
    }

    /// Puts the token into the set, and says whether it came. A terminal that isn't the grammar's never comes. Where memory
    /// is refused, the set is as before.
    pub fn insert(&mut self, token: &Token, terminals: &TerminalSet) -> Result<bool, AllocError>
        ensures set { let n = number_of terminals.now token.now in
            IfOk result (λ came. (j : ℕ) → has self.new j ≡ (is_number n j || has self.old j)) }
        ensures came { IfOk result (λ came. came ≡ lacks_number self.old (number_of terminals.now token.now)) }
        ensures kept { IfErr result (λ _. self.new ≡ self.old) }
        ensures ordered { Ascends self.new }
    {
        let _ = &self.ranges;
        match token {
            Token::Eof => self.insert_eof(terminals),
            _ => match number(terminals, token) {
                Some(k) => self.insert_number(k),
                None => Ok(false),
            },
        }
    }

    /// As `insert`.
    pub fn insert_with(
        &mut self,
        token: &Token,
        terminals: &TerminalSet,
    ) -> Result<bool, AllocError>
        ensures set { let n = number_of terminals.now token.now in
            IfOk result (λ came. (j : ℕ) → has self.new j ≡ (is_number n j || has self.old j)) }
        ensures came { IfOk result (λ came. came ≡ lacks_number self.old (number_of terminals.now token.now)) }
        ensures kept { IfErr result (λ _. self.new ≡ self.old) }
        ensures ordered { Ascends self.new }
    {
        self.insert(token, terminals)
    }

    /// Puts the end into the set, and says whether it came. Where memory is refused, the set is as before.
    pub fn insert_eof(&mut self, terminals: &TerminalSet) -> Result<bool, AllocError>
        ensures set { let n = eof_number terminals.now in
            IfOk result (λ came. (j : ℕ) → has self.new j ≡ (nat_eq j n || has self.old j)) }
        ensures came { IfOk result (λ came. came ≡ not (has self.old (eof_number terminals.now))) }
        ensures kept { IfErr result (λ _. self.new ≡ self.old) }
        ensures ordered { Ascends self.new }
    {
        let number = eof_bit(terminals);
        if self.contains_number(number) {
            return Ok(false);
        }
        if self.end.is_some() {
            return self.insert_number(number);
        }
        let end = narrow(*self.ranges.allocator(), number)?;
        self.end = Some(end);
        Ok(true)
    }

    /// Takes the end out of the set, and says whether it was there.
    pub fn take_eof(&mut self, terminals: &TerminalSet) -> bool
        ensures was { result ≡ has self.old (eof_number terminals.now) }
        ensures gone { (j : ℕ) → has self.new j ≡ (not (nat_eq j (eof_number terminals.now)) && has self.old j) }
        ensures ordered { Ascends self.new }
    {
        let number = eof_bit(terminals);
        if is_end(self.end, number) {
            self.end = None;
            return true;
        }
        take_out(&mut self.ranges, number)
    }

    /// Puts the tokens of the other set in, and says whether some came. Where memory is refused, the set is as before.
    pub fn union_with(&mut self, other: &TokenSet) -> Result<bool, AllocError>
        ensures joined { IfOk result (λ changed. (k : ℕ) → has self.new k ≡ (has self.old k || has other.now k)) }
        ensures same { IfOk result (λ changed. IsFalse changed → self.new ≡ self.old) }
        ensures grown { IfOk result (λ changed. IsTrue changed → (k : ℕ) × (has self.new k ≡ true) × (has self.old k ≡ false)) }
        ensures kept { IfErr result (λ _. self.new ≡ self.old) }
        ensures ordered { Ascends self.new }
    {
        if missing(self.walk(), other.walk()).is_none() {
            return Ok(false);
        }
        let joined = self.joined_with(other)?;
        *self = joined;
        Ok(true)
    }

    /// The tokens that are in both sets.
    pub fn intersection(&self, alloc: Global, other: &TokenSet) -> Result<TokenSet, AllocError>
        ensures both { IfOk result (λ both. (k : ℕ) → has both k ≡ (has self.now k && has other.now k)) }
        ensures ordered { IfOk result (λ both. Ascends both) }
    {
        let ranges = common(alloc, self.walk(), other.walk())?;
        let walk = RangeWalk::new(ranges.as_slice(), None);
        set_of_both(alloc, walk, walk, self.end.or(other.end))
    }

    /// Whether no token is in both sets.
    pub fn is_disjoint(&self, other: &TokenSet) -> bool
        ensures yes { IsTrue result → (k : ℕ) → has self.now k && has other.now k ≡ false }
        ensures no { IsFalse result → (k : ℕ) × (has self.now k ≡ true) × (has other.now k ≡ true) }
    {
        let mut one = self.walk();
        let mut another = other.walk();
        next_common(&mut one, &mut another).is_none()
    }

    /// Whether some token is in both sets.
    pub fn is_intersecting(&self, other: &TokenSet) -> bool
        ensures yes { IsTrue result → (k : ℕ) × (has self.now k ≡ true) × (has other.now k ≡ true) }
        ensures no { IsFalse result → (k : ℕ) → has self.now k && has other.now k ≡ false }
    {
        !self.is_disjoint(other)
    }

    /// The tokens of the set, in order: terminals as the grammar has them, then the end, then the token of errors.
    pub fn iter<'s>(&'s self, terminals: &'s TerminalSet) -> TokenSetIter<'s>
        ensures { tokens_to_come result ≡ tokens_of terminals.now self.now }
    {
        TokenSetIter {
            walk: self.walk(),
            terminals,
        }
    }

    /// A copy that equals it.
    pub fn try_clone(&self) -> Result<TokenSet, AllocError>
        ensures { IfOk result (λ copy. copy ≡ self.now) }
    {
        let room = room_for(self.ranges.as_slice());
        let mut ranges = Vec::with_capacity(*self.ranges.allocator(), room)?;
        ranges.extend_from_slice(self.ranges.as_slice())?;
        Ok(TokenSet {
            ranges,
            end: self.end,
        })
    }
}

/// The numbers of the tokens, `{0, 3}`.
impl Debug for TokenSet {
    ghost debug_output = { λ set. Some (number_set_text set) };

    fn fmt<W: Write>(&self, f: &mut Formatter<W>) -> fmt::Result {
        f.write_str("{")?;
        write_numbers(self.walk(), f)?;
        f.write_str("}")
    }
}

impl PartialEq for TokenSet {
    ghost eq = { pointwise ◌==◌ };

    ghost laws = { partial_equiv_from_equiv nat_list_eq_equiv };

    fn eq(&self, other: &Self) -> bool {
        self.cmp(other).is_eq()
    }
}

impl Eq for TokenSet {
    ghost laws = { nat_list_eq_equiv };
}

impl PartialOrd for TokenSet {
    ghost partial_cmp = { λ x y. Some (slice_cmp nat_cmp x y) };

    ghost laws = { texts_po };

    fn partial_cmp(&self, other: &Self) -> Option<Ordering> {
        Some(self.cmp(other))
    }
}

impl Ord for TokenSet {
    ghost cmp = { slice_cmp nat_cmp };

    ghost total = { nat_list_cmp_total };

    ghost matches_partial_cmp = { λ x y. refl };

    ghost matches_eq = { texts_ties };

    fn cmp(&self, other: &Self) -> Ordering {
        compare(self.walk(), other.walk())
    }
}

impl Hash for TokenSet {
    ghost hash_input = { fed.slice fed.usize };

    ghost respects_eq = { Prim.search (hashing, rules) };

    fn hash<H: Hasher>(&self, state: &mut H) {
        hash_numbers(self.walk(), state);
    }
}
