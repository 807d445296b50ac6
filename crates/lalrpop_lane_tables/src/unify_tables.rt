//! Classes of states that a merge keeps apart, with the tokens of the conflicting actions in each.

ghost use Rattle.std.specs.Prelude.{◌≡◌, ◌↔◌, ◌==◌, ◌<◌, [], ℕ, IfOk, IsTrue, OnErr, OnOk, if◌then◌else◌, length, map};
ghost use Rattle.lalrpop_lane_theory.specs.Columns.{GathersColumns, InColumn};
ghost use Rattle.lalrpop_lane_tables.specs.ColumnAnswers.{ColumnsMeetComing, HasToken, IsOverlap};
ghost use Rattle.lalrpop_lane_tables.specs.UnifiedClasses.{AddsClass, AreColumnsOfKey, ClassesOverlap, HaveSameCount, UnifiesClasses};

use crate::context_sets::{ContextFault, ContextSet, OverlappingLookahead};
use std::alloc::{AllocError, Global};
use std::marker::Model;
use std::mem;

/// A set of states that belong together in a merge: a key of a `UnifyTable`.
#[derive(Clone, Copy, Debug, PartialEq, Eq)]
pub struct StateSet {
    index: usize,
}

/// Sets of states, each with a context set. Two sets are unified into one, whose context set holds what both held.
#[derive(Drop)]
pub struct UnifyTable {
    alloc: Global,
    // For each key the number of its class.
    classes: Vec<usize>,
    // For each class its columns. A class that was joined to another keeps those that it had, and has no key.
    columns: Vec<ContextSet>,
}

impl Model for UnifyTable {
    ghost use Rattle.std.specs.Prelude.{List, ◌<◌, All, length};
    ghost use Rattle.lalrpop_lane_tables.specs.UnifiedClasses.{ClassEntry, class_entries};

    ghost Value = { List ClassEntry };

    ghost view = { λ it. class_entries it.classes.items it.columns.items };

    ghost invariant = { λ it. All (λ c. c < length it.columns.items) it.classes.items };
}

/// The columns with what those of the second hold, too.
fn joined_columns(
    alloc: Global,
    set1: &ContextSet,
    set2: &ContextSet,
) -> Result<ContextSet, ContextFault>
    requires { length set2.now ≡ length set1.now }
    ensures gathers { IfOk result (λ set. GathersColumns HasToken (InColumn HasToken set2.now) set1.now set) }
    ensures refused { IsOverlap result ↔ ColumnsMeetComing set1.now (InColumn HasToken set2.now) }
{
    if set1.meets(set2) {
        return Err(ContextFault::Overlap(OverlappingLookahead));
    }
    ContextSet::union(alloc, set1, set2)
}

/// The class of a key, where those of one class come to another.
fn moved_key(class: usize, from: usize, into: usize) -> usize
    ensures { result ≡ (if class == from then into else class) }
{
    if class == from { into } else { class }
}

/// Puts the keys of one class into another.
fn move_keys(classes: &mut Vec<usize>, from: usize, into: usize)
    ensures { classes.new.items ≡ map (λ c. if c == from then into else c) classes.old.items }
{
    for key in 0..classes.len() {
        classes[key] = moved_key(classes[key], from, into);
    }
}

impl UnifyTable {
    /// A table without sets.
    pub fn new(alloc: Global) -> UnifyTable
        ensures { result ≡ [] }
    {
        UnifyTable {
            alloc,
            classes: Vec::new(alloc),
            columns: Vec::new(alloc),
        }
    }

    /// A new set, apart from all others, with this context set.
    ///
    /// # Errors
    ///
    /// Memory is refused; the table is as before.
    pub fn new_key(&mut self, columns: ContextSet) -> Result<StateSet, AllocError>
        ensures added { IfOk result (λ key. AddsClass self.old columns key.index self.new) }
        ensures kept { OnErr result (self.new ≡ self.old) }
    {
        let class = self.columns.len();
        let index = self.classes.len();
        self.columns.push(columns)?;
        self.classes.push(class)?;
        Ok(StateSet { index })
    }

    /// The context set of one of the table's sets.
    pub fn probe_value(&self, key: StateSet) -> &ContextSet
        requires { key.index < length self.now }
        ensures { AreColumnsOfKey self.now key.index result.now }
    {
        &self.columns[self.classes[key.index]]
    }

    /// Unifies two of the table's sets. Their context sets have as many columns.
    ///
    /// # Errors
    ///
    /// `Overlap` exactly where they are two, and a column of the second has a token in common with another column of what would
    /// come of both; or memory is refused. Either way the table is as before.
    pub fn unify_var_var(&mut self, key1: StateSet, key2: StateSet) -> Result<(), ContextFault>
        requires key1 { key1.index < length self.old }
        requires key2 { key2.index < length self.old }
        requires lengths { HaveSameCount self.old key1.index key2.index }
        ensures unified { OnOk result (UnifiesClasses self.old key1.index key2.index self.new) }
        ensures refused { IsOverlap result ↔ ClassesOverlap self.old key1.index key2.index }
        ensures kept { OnErr result (self.new ≡ self.old) }
    {
        let into = self.classes[key1.index];
        let from = self.classes[key2.index];
        if into == from {
            return Ok(());
        }
        let joined = joined_columns(self.alloc, &self.columns[into], &self.columns[from])?;
        let _before = mem::replace(&mut self.columns[into], joined);
        move_keys(&mut self.classes, from, into);
        Ok(())
    }
}
