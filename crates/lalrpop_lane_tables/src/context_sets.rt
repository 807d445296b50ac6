//! Sets of tokens for the conflicting actions of a state, a column for each.

ghost use Rattle.std.specs.Prelude.{◌≡◌, ◌⊎◌, ◌↔◌, ◌<◌, ◌≤◌, [], All, IfOk, IsTrue, OnErr, OnOk, length};
ghost use Rattle.lalrpop_lane_theory.specs.Columns.{GathersColumns, InColumn, MeetsAnother};
ghost use Rattle.lalrpop_lane_tables.specs.AppliedSets.{IsAmongActions, HasSetOfAction, HaveActions, HaveSetsOfActions, IsReductionBy};
ghost use Rattle.lalrpop_lane_tables.specs.ColumnAnswers.{ColumnsMeetComing, GatherAnswer, HasToken, IsColumnOfSet, IsOverlap, NewTokens};

use lalrpop_grammar_repr::Production;
use lalrpop_grammar_symbols::List;
use lalrpop_lr1_core::{Action, Lr1State};
use lalrpop_sets::{Collection, TokenSet};
use std::alloc::{AllocError, Global};
use std::collections::BTreeSet;
use std::marker::Model;
use std::mem;

/// The number of a column: the place of an action among those of a state that conflict.
#[derive(Clone, Copy, Debug, PartialEq, Eq, PartialOrd, Ord, Hash)]
pub struct ConflictIndex {
    /// The place of the action.
    pub index: usize,
}

/// Some token would stand in two columns.
#[derive(Clone, Copy, Debug, PartialEq, Eq)]
pub struct OverlappingLookahead;

/// Why no context set comes of columns.
#[derive(Clone, Copy, Debug, PartialEq, Eq)]
pub enum ContextFault {
    /// Some token would stand in two columns.
    Overlap(OverlappingLookahead),
    /// Memory is refused.
    Memory,
}

/// The tokens of each of the conflicting actions of a state: a set for each column. Where no token stands in two of them, the tokens
/// tell the actions apart. As in LALRPOP, of whose lane tables it holds a row, or all columns.
pub struct ContextSet {
    values: Vec<TokenSet>,
}

impl Model for ContextSet {
    ghost use Rattle.std.specs.Prelude.{ℕ, List};

    ghost Value = { List (List ℕ) };

    ghost view = { λ it. it.values.items };
}

impl Drop for ContextSet {
    /// Drops what it holds: where it is owned, that is one call.
    fn drop(self) {
        let ContextSet { values: _values } = self;
    }
}

impl ConflictIndex {
    /// The column with this number.
    pub fn new(index: usize) -> ConflictIndex
        ensures { result.index ≡ index }
    {
        ConflictIndex { index }
    }
}

impl From<AllocError> for ContextFault {
    ghost use Rattle.lalrpop_lane_tables.specs.declared.context_sets.ContextFault.TheVariants.{Memory};

    ghost from_gives = { λ _ fault. fault ≡ Memory };

    fn from(_: AllocError) -> ContextFault {
        ContextFault::Memory
    }
}

/// Whether another column has one of the tokens.
fn meets_another(columns: &[TokenSet], column: usize, set: &TokenSet) -> bool
    ensures { IsTrue result ↔ MeetsAnother HasToken columns.now column set.now }
{
    for other in 0..columns.len() {
        if other != column && columns[other].is_intersecting(set) {
            return true;
        }
    }
    false
}

/// Whether another column of either has one of the tokens.
fn meets_either(columns: &[TokenSet], others: &[TokenSet], column: usize, set: &TokenSet) -> bool
    ensures { IsTrue result ↔ (MeetsAnother HasToken columns.now column set.now ⊎ MeetsAnother HasToken others.now column set.now) }
{
    meets_another(columns, column, set) || meets_another(others, column, set)
}

/// Whether one of the others has a token in common with another column of what would come of both.
fn meet_coming(columns: &[TokenSet], others: &[TokenSet]) -> bool
    ensures { IsTrue result ↔ ColumnsMeetComing columns.now (InColumn HasToken others.now) }
{
    for (index, set) in others.iter().enumerate() {
        if meets_either(columns, others, index, set) {
            return true;
        }
    }
    false
}

/// Puts the sets into the columns with their places.
fn insert_sets(columns: &mut ContextSet, sets: &[TokenSet]) -> Result<(), ContextFault>
    requires { length sets.now ≤ length columns.old }
    ensures { GatherAnswer (InColumn HasToken sets.now) columns.old columns.new result }
{
    for (index, set) in sets.iter().enumerate() {
        columns.insert(ConflictIndex { index }, set)?;
    }
    Ok(())
}

/// Whether the action is the reduction by the production.
fn is_reduction_by(action: &Action<'_>, production: &Production) -> bool
    ensures { IsTrue result ↔ IsReductionBy action.now production.now }
{
    match action {
        Action::Shift(_, _) => false,
        Action::Reduce(own) => *own == production,
    }
}

/// The set of the column in which the reduction by the production stands.
fn set_of_reduction<'s>(
    sets: &'s [TokenSet],
    actions: &BTreeSet<Action<'_>>,
    production: &Production,
) -> &'s TokenSet
    requires sets { length sets.now ≡ length actions.now.keys }
    requires action { IsAmongActions actions.now.keys production.now }
    ensures { HasSetOfAction actions.now.keys sets.now production.now result.now }
{
    let mut place = 0;
    for action in actions.iter() {
        if is_reduction_by(action, production) {
            return &sets[place];
        }
        place += 1;
    }
    unreachable!()
}

/// The reductions, each with the set of its column.
fn reductions_with<'g>(
    alloc: Global,
    sets: &[TokenSet],
    actions: &BTreeSet<Action<'_>>,
    reductions: &[(TokenSet, &'g Production)],
) -> Result<List<(TokenSet, &'g Production)>, AllocError>
    requires sets { length sets.now ≡ length actions.now.keys }
    requires actions { HaveActions actions.now.keys reductions.now }
    ensures { IfOk result (λ applied. HaveSetsOfActions actions.now.keys sets.now reductions.now applied) }
{
    let mut applied = List::new(alloc);
    for reduction in reductions {
        let set = set_of_reduction(sets, actions, reduction.1).try_clone()?;
        applied.push((set, reduction.1))?;
    }
    Ok(applied)
}

impl ContextSet {
    /// So many columns without tokens.
    ///
    /// # Errors
    ///
    /// Memory is refused.
    pub fn new(alloc: Global, columns: usize) -> Result<ContextSet, AllocError>
        ensures count { IfOk result (λ set. length set ≡ columns) }
        ensures empty { IfOk result (λ set. All (λ tokens. tokens ≡ []) set) }
    {
        let mut values = Vec::new(alloc);
        while values.len() < columns {
            values.push(TokenSet::empty(alloc))?;
        }
        Ok(ContextSet { values })
    }

    /// Each column of the first with the tokens that it has in the second, which has no more columns.
    ///
    /// # Errors
    ///
    /// `Overlap` exactly where a column of the second has a token in common with another column of what would come of both; or
    /// memory is refused.
    pub fn union(
        alloc: Global,
        set1: &ContextSet,
        set2: &ContextSet,
    ) -> Result<ContextSet, ContextFault>
        requires { length set2.now ≤ length set1.now }
        ensures gathers { IfOk result (λ set. GathersColumns HasToken (InColumn HasToken set2.now) set1.now set) }
        ensures fits { OnOk result (ColumnsMeetComing set1.now (InColumn HasToken set2.now) → ⊥) }
        ensures refused { IsOverlap result → ColumnsMeetComing set1.now (InColumn HasToken set2.now) }
    {
        let mut columns = set1.try_clone(alloc)?;
        insert_sets(&mut columns, set2.values.as_slice())?;
        Ok(columns)
    }

    /// Whether a column of the other has a token in common with another column of what would come of both.
    pub(crate) fn meets(&self, other: &ContextSet) -> bool
        ensures { IsTrue result ↔ ColumnsMeetComing self.now (InColumn HasToken other.now) }
    {
        meet_coming(self.values.as_slice(), other.values.as_slice())
    }

    /// Puts the tokens into the column, one of those that there are, and says whether some came.
    ///
    /// # Errors
    ///
    /// `Overlap` exactly where another column has one of the tokens; or memory is refused. Either way the columns are as before.
    pub fn insert(&mut self, conflict: ConflictIndex, set: &TokenSet) -> Result<bool, ContextFault>
        requires { conflict.index < length self.old }
        ensures refused { IsOverlap result ↔ MeetsAnother HasToken self.old conflict.index set.now }
        ensures gathers { OnOk result (GathersColumns HasToken (IsColumnOfSet conflict.index set.now) self.old self.new) }
        ensures came { IfOk result (λ came. IsTrue came ↔ NewTokens self.old conflict.index set.now) }
        ensures kept { OnErr result (self.new ≡ self.old) }
    {
        if meets_another(self.values.as_slice(), conflict.index, set) {
            return Err(ContextFault::Overlap(OverlappingLookahead));
        }
        let came = self.values[conflict.index].union_with(set)?;
        Ok(came)
    }

    /// Gives each reduction of the state the set of its column, where the actions, in order, are those of the columns. Each
    /// reduction is one of the actions.
    ///
    /// # Errors
    ///
    /// Memory is refused; the state is as before.
    pub fn apply<'g>(
        &self,
        alloc: Global,
        state: &mut Lr1State<'g>,
        actions: &BTreeSet<Action<'g>>,
    ) -> Result<(), AllocError>
        requires sets { length self.now ≡ length actions.now.keys }
        requires actions { HaveActions actions.now.keys state.old.reductions }
        ensures sets { OnOk result (HaveSetsOfActions actions.now.keys self.now state.old.reductions state.new.reductions) }
        ensures rest { OnOk result (state.new ≡ record state.old { reductions = state.new.reductions }) }
        ensures kept { OnErr result (state.new ≡ state.old) }
    {
        let applied = reductions_with(
            alloc,
            self.values.as_slice(),
            actions,
            state.reductions.as_slice(),
        )?;
        let _before = mem::replace(&mut state.reductions, applied);
        Ok(())
    }

    /// The reductions, each with the set of its column, where the actions, in order, are those of the columns. Each reduction is one of
    /// the actions.
    ///
    /// # Errors
    ///
    /// Memory is refused.
    pub(crate) fn applied<'g>(
        &self,
        alloc: Global,
        reductions: &[(TokenSet, &'g Production)],
        actions: &BTreeSet<Action<'_>>,
    ) -> Result<List<(TokenSet, &'g Production)>, AllocError>
        requires sets { length self.now ≡ length actions.now.keys }
        requires actions { HaveActions actions.now.keys reductions.now }
        ensures { IfOk result (λ applied. HaveSetsOfActions actions.now.keys self.now reductions.now applied) }
    {
        reductions_with(alloc, self.values.as_slice(), actions, reductions)
    }

    /// A copy that equals it.
    ///
    /// # Errors
    ///
    /// Memory is refused.
    pub fn try_clone(&self, alloc: Global) -> Result<ContextSet, AllocError>
        ensures { IfOk result (λ copy. copy ≡ self.now) }
    {
        let mut values = Vec::new(alloc);
        for set in self.values.as_slice() {
            values.push(set.try_clone()?)?;
        }
        Ok(ContextSet { values })
    }
}
