//! Lane tables: what lanes add in each state, a column for each conflicting action, and to which states each leads on.

ghost use Rattle.std.specs.Prelude.{◌≡◌, ◌↔◌, ◌⊎◌, ◌<◌, ℕ, [], Contains, IfNone, IfOk, IfSome, IsTrue, OnErr, OnOk, length};
ghost use Rattle.lalrpop_lane_theory.specs.Columns.{TableHolds};
ghost use Rattle.lalrpop_lane_theory.specs.LaneTables.{IsBeachhead, NotesEdge};
ghost use Rattle.lalrpop_lane_tables.specs.ColumnAnswers.{ColumnsAnswer, GatherAnswer, HasToken};
ghost use Rattle.lalrpop_lane_tables.specs.ReachedStates.{ComesUnless, led_to, states_with};
ghost use Rattle.lalrpop_lane_tables.specs.RowColumns.{
  AddsEmptyRow,
  AddsMissingRow,
  AllRowsAnswer,
  AreRowsBelow,
  GainsEmptyRows,
  HoldsInRow,
  IsRowBelow,
  StateRowAnswer,
};
ghost use Rattle.lalrpop_lane_tables.specs.TableGains.{
  AddsNothing,
  AddsTokens,
  EntersAt,
  EntersNowhere,
  NotesNothing,
  NotesOne,
  TableGains,
};
ghost use Rattle.lalrpop_lane_tables.specs.TableViews.{IsStateKey, RowsAnswer, SomeRowHolds, rows_view};

mod table_text;

use crate::context_sets::{ConflictIndex, ContextFault, ContextSet};
use lalrpop_grammar_repr::{Grammar, Map};
use lalrpop_lr1_core::StateIndex;
use lalrpop_sets::{Multimap, TokenSet};
use std::alloc::{AllocError, Global};
use std::collections::BTreeSet;
use std::marker::Model;

/// The tokens of a state, for each column in which it has an entry.
type Row = Multimap<ConflictIndex, TokenSet>;

/// Why no rows come of a lane table.
#[derive(Clone, Copy, Debug, PartialEq, Eq)]
pub enum RowsFault {
    /// Some token would stand in two columns of the state's row.
    Overlap(StateIndex),
    /// Memory is refused.
    Memory,
}

/// A lane table, after Pager's of 1977: for each state that lanes pass, which tokens they add there, a column for each conflicting
/// action, and to which states it leads on.
#[derive(Drop)]
pub struct LaneTable<'g> {
    alloc: Global,
    _grammar: &'g Grammar,
    conflicts: usize,
    lookaheads: Multimap<StateIndex, Row>,
    successors: Multimap<StateIndex, BTreeSet<StateIndex>>,
}

impl<'g> Model for LaneTable<'g> {
    ghost use Rattle.lalrpop_lane_tables.specs.TableViews.{AreTableMaps, TableView, table_view};

    ghost Value = { TableView };

    ghost view = { λ it. table_view it.conflicts it.lookaheads it.successors };

    ghost invariant = { λ it. AreTableMaps it.conflicts it.lookaheads it.successors };
}

impl From<AllocError> for RowsFault {
    ghost use Rattle.lalrpop_lane_tables.specs.declared.lane_tables.RowsFault.TheVariants.{Memory};

    ghost from_gives = { λ _ fault. fault ≡ Memory };

    fn from(_: AllocError) -> RowsFault {
        RowsFault::Memory
    }
}

/// Puts the sets of a row into the columns.
fn insert_row(columns: &mut ContextSet, row: &Row) -> Result<(), ContextFault>
    requires { IsRowBelow (length columns.old) row.now }
    ensures { GatherAnswer (HoldsInRow row.now) columns.old columns.new result }
{
    for (column, set) in row.iter() {
        columns.insert(*column, set)?;
    }
    Ok(())
}

/// Puts the sets of all rows into the columns.
fn insert_rows(
    columns: &mut ContextSet,
    rows: &Multimap<StateIndex, Row>,
) -> Result<(), ContextFault>
    requires { AreRowsBelow (length columns.old) rows.now }
    ensures { GatherAnswer (SomeRowHolds (rows_view rows.now)) columns.old columns.new result }
{
    for (state, row) in rows.iter() {
        let _ = state;
        insert_row(columns, row)?;
    }
    Ok(())
}

/// The columns of a row.
fn columns_of_row(alloc: Global, conflicts: usize, row: &Row) -> Result<ContextSet, ContextFault>
    requires { IsRowBelow conflicts row.now }
    ensures { ColumnsAnswer conflicts (HoldsInRow row.now) result }
{
    let mut columns = ContextSet::new(alloc, conflicts)?;
    insert_row(&mut columns, row)?;
    Ok(columns)
}

/// The columns of the state's row.
fn columns_of_state(
    alloc: Global,
    conflicts: usize,
    state: StateIndex,
    row: &Row,
) -> Result<ContextSet, RowsFault>
    requires { IsRowBelow conflicts row.now }
    ensures { StateRowAnswer conflicts state row.now result }
{
    match columns_of_row(alloc, conflicts, row) {
        Ok(columns) => Ok(columns),
        Err(ContextFault::Overlap(_)) => Err(RowsFault::Overlap(state)),
        Err(ContextFault::Memory) => Err(RowsFault::Memory),
    }
}

/// Adds the columns of each row.
fn add_rows(
    alloc: Global,
    conflicts: usize,
    lookaheads: &Multimap<StateIndex, Row>,
    rows: &mut Map<StateIndex, ContextSet>,
) -> Result<(), RowsFault>
    requires within { AreRowsBelow conflicts lookaheads.now }
    requires empty { rows.old ≡ [] }
    ensures { AllRowsAnswer conflicts lookaheads.now rows.new result }
{
    for (state, row) in lookaheads.iter() {
        let columns = columns_of_state(alloc, conflicts, *state, row)?;
        rows.insert(*state, columns)?;
    }
    Ok(())
}

/// Whether the state has columns.
fn has_columns(rows: &Map<StateIndex, ContextSet>, state: StateIndex) -> bool
    ensures { IsTrue result ↔ IsStateKey rows.now state }
{
    rows.get(&state).is_some()
}

/// Adds columns without tokens for the state.
fn add_empty_row(
    alloc: Global,
    conflicts: usize,
    state: StateIndex,
    rows: &mut Map<StateIndex, ContextSet>,
) -> Result<(), AllocError>
    ensures { OnOk result (AddsEmptyRow conflicts state rows.old rows.new) }
{
    let columns = ContextSet::new(alloc, conflicts)?;
    rows.insert(state, columns)?;
    Ok(())
}

/// Adds columns without tokens for the state, if it has none.
fn add_missing_row(
    alloc: Global,
    conflicts: usize,
    state: StateIndex,
    rows: &mut Map<StateIndex, ContextSet>,
) -> Result<(), AllocError>
    ensures { OnOk result (AddsMissingRow conflicts state rows.old rows.new) }
{
    if has_columns(rows, state) {
        return Ok(());
    }
    add_empty_row(alloc, conflicts, state, rows)?;
    Ok(())
}

/// Adds columns without tokens for each state that leads on to others and has none yet.
fn add_empty_rows(
    alloc: Global,
    conflicts: usize,
    successors: &Multimap<StateIndex, BTreeSet<StateIndex>>,
    rows: &mut Map<StateIndex, ContextSet>,
) -> Result<(), AllocError>
    ensures { OnOk result (GainsEmptyRows conflicts successors.now [] rows.old rows.new) }
{
    for (state, states) in successors.iter() {
        let _ = states;
        add_missing_row(alloc, conflicts, *state, rows)?;
    }
    Ok(())
}

/// Puts the states into the set.
fn reach_all(
    reached: &mut BTreeSet<StateIndex>,
    states: &BTreeSet<StateIndex>,
) -> Result<(), AllocError>
    ensures { OnOk result (reached.new.keys ≡ states_with reached.old.keys states.now.keys) }
{
    for state in states.iter() {
        reached.insert(*state)?;
    }
    Ok(())
}

/// The states to which some state leads on.
fn reached_states(
    alloc: Global,
    successors: &Multimap<StateIndex, BTreeSet<StateIndex>>,
) -> Result<BTreeSet<StateIndex>, AllocError>
    ensures { IfOk result (λ reached. reached.keys ≡ states_with [] (led_to successors.now)) }
{
    let mut reached = BTreeSet::new(alloc);
    for (state, states) in successors.iter() {
        let _ = state;
        reach_all(&mut reached, states)?;
    }
    Ok(reached)
}

/// Whether the state is in the set.
fn is_reached(reached: &BTreeSet<StateIndex>, state: StateIndex) -> bool
    ensures { IsTrue result ↔ Contains reached.now.keys state }
{
    reached.contains(&state)
}

/// Puts the state into the set.
fn add_state(states: &mut BTreeSet<StateIndex>, state: StateIndex) -> Result<(), AllocError>
    ensures { OnOk result ((n : StateIndex) → Contains states.new.keys n ↔ (Contains states.old.keys n ⊎ (state ≡ n))) }
{
    states.insert(state)?;
    Ok(())
}

/// Puts the state into the set, if it isn't reached.
fn add_unreached(
    reached: &BTreeSet<StateIndex>,
    states: &mut BTreeSet<StateIndex>,
    state: StateIndex,
) -> Result<(), AllocError>
    ensures { OnOk result (ComesUnless reached.now.keys state states.old.keys states.new.keys) }
{
    if is_reached(reached, state) {
        return Ok(());
    }
    add_state(states, state)?;
    Ok(())
}

/// The states of the rows that aren't reached.
fn states_unreached(
    alloc: Global,
    lookaheads: &Multimap<StateIndex, Row>,
    reached: &BTreeSet<StateIndex>,
) -> Result<BTreeSet<StateIndex>, AllocError>
    ensures { IfOk result (λ states. (n : StateIndex) → Contains states.keys n
        ↔ (IsStateKey lookaheads.now n × (Contains reached.now.keys n → ⊥))) }
{
    let mut states = BTreeSet::new(alloc);
    for (state, row) in lookaheads.iter() {
        let _ = row;
        add_unreached(reached, &mut states, *state)?;
    }
    Ok(states)
}

impl<'g> LaneTable<'g> {
    /// A table without entries, of so many columns.
    pub fn new(alloc: Global, grammar: &'g Grammar, conflicts: usize) -> LaneTable<'g>
        ensures conflicts { result.conflicts ≡ conflicts }
        ensures rows { result.rows ≡ [] }
        ensures noted { result.noted ≡ [] }
    {
        LaneTable {
            alloc,
            _grammar: grammar,
            conflicts,
            lookaheads: Multimap::new(alloc),
            successors: Multimap::new(alloc),
        }
    }

    /// Adds the tokens in the state, in the column, one of those that there are. The state has an entry there from now on, even if
    /// no token was added.
    ///
    /// # Errors
    ///
    /// Memory is refused; the table is as before.
    pub fn add_lookahead(
        &mut self,
        state: StateIndex,
        conflict: ConflictIndex,
        tokens: &TokenSet,
    ) -> Result<(), AllocError>
        requires { conflict.index < self.old.conflicts }
        ensures gains { OnOk result (TableGains (AddsTokens state.0 tokens.now) (EntersAt state.0) NotesNothing conflict.index self.old self.new) }
        ensures kept { OnErr result (self.new ≡ self.old) }
    {
        let copy = tokens.try_clone()?;
        self.lookaheads.push(state, (conflict, copy))?;
        Ok(())
    }

    /// Notes that the state leads on to the successor.
    ///
    /// # Errors
    ///
    /// Memory is refused; the table is as before.
    pub fn add_successor(&mut self, state: StateIndex, succ: StateIndex) -> Result<(), AllocError>
        ensures gains { OnOk result ((c : ℕ) → TableGains AddsNothing EntersNowhere (NotesOne state.0 succ.0) c self.old self.new) }
        ensures kept { OnErr result (self.new ≡ self.old) }
    {
        self.successors.push(state, succ)?;
        Ok(())
    }

    /// The states to which the state leads on, if there are some.
    pub fn successors(&self, state: StateIndex) -> Option<&BTreeSet<StateIndex>>
        ensures some { IfSome result (λ states. (m : StateIndex) → Contains states.now.keys m ↔ NotesEdge self.now.noted state.0 m.0) }
        ensures none { IfNone result ((m : ℕ) → NotesEdge self.now.noted state.0 m → ⊥) }
    {
        self.successors.get(&state)
    }

    /// What each column holds in the state.
    ///
    /// # Errors
    ///
    /// `Overlap` exactly where two columns have a token in common there; or memory is refused.
    pub fn context_set(&self, state: StateIndex) -> Result<ContextSet, ContextFault>
        ensures { ColumnsAnswer self.now.conflicts (TableHolds HasToken self.now.rows state.0) result }
    {
        match self.lookaheads.get(&state) {
            Some(row) => columns_of_row(self.alloc, self.conflicts, row),
            None => Ok(ContextSet::new(self.alloc, self.conflicts)?),
        }
    }

    /// What each column holds in all states together.
    ///
    /// # Errors
    ///
    /// `Overlap` exactly where two columns have a token in common, be it in two states; or memory is refused.
    pub fn columns(&self) -> Result<ContextSet, ContextFault>
        ensures { ColumnsAnswer self.now.conflicts (SomeRowHolds self.now.rows) result }
    {
        let mut columns = ContextSet::new(self.alloc, self.conflicts)?;
        insert_rows(&mut columns, &self.lookaheads)?;
        Ok(columns)
    }

    /// For each state that has an entry or leads on to another what each column holds there.
    ///
    /// # Errors
    ///
    /// `Overlap` with a state in which two columns have a token in common, exactly where there is one; or memory is refused.
    pub fn rows(&self) -> Result<Map<StateIndex, ContextSet>, RowsFault>
        ensures { RowsAnswer self.now result }
    {
        let mut rows = Map::new(self.alloc);
        add_rows(self.alloc, self.conflicts, &self.lookaheads, &mut rows)?;
        add_empty_rows(self.alloc, self.conflicts, &self.successors, &mut rows)?;
        Ok(rows)
    }

    /// The states with an entry to which no state leads on: in these a merge begins.
    ///
    /// # Errors
    ///
    /// Memory is refused.
    pub fn beachhead_states(&self) -> Result<BTreeSet<StateIndex>, AllocError>
        ensures { IfOk result (λ states. (n : StateIndex) → Contains states.keys n ↔ IsBeachhead self.now.rows self.now.noted n.0) }
    {
        let reached = reached_states(self.alloc, &self.successors)?;
        let states = states_unreached(self.alloc, &self.lookaheads, &reached)?;
        Ok(states)
    }
}
