//! Merges: states that conflict are kept apart by copies, as lane tables tell.

ghost use Rattle.std.specs.Prelude.{◌≡◌, [], Err, None, OnErr, OnOk, Some, length};
ghost use Rattle.lalrpop_lane_tables.specs.MergeViews.{AreClasses, MergeKeeps, UnlessMemory};
ghost use Rattle.lalrpop_lane_tables.specs.PatchedTargets.{HaveTargetActions, PatchesTargets};

use crate::lane_tables::LaneTable;
use crate::merge_classes::MergeFault;
use crate::merge_targets::{patches_of, put_patches};
use crate::merge_walk::walk;
use crate::merged_states::Copying;
use crate::unify_tables::{StateSet, UnifyTable};
use lalrpop_grammar_repr::Map;
use lalrpop_lr1_core::{Action, Lr1State, StateIndex};
use std::alloc::{AllocError, Global};
use std::collections::BTreeSet;
use std::marker::Model;

/// A merge, after LALRPOP's: from beachheads it walks where the lanes of a state with conflicts lead, joins the classes of states where
/// their tokens don't overlap, and makes copies of states where they do, so that what comes to the state with the conflicts from
/// different sides comes to different copies of it.
#[derive(Drop)]
pub struct Merge {
    alloc: Global,
    target: StateIndex,
    copying: Copying,
    visited: BTreeSet<StateIndex>,
    fault: Option<MergeFault>,
}

impl Model for Merge {
    ghost use Rattle.lalrpop_lane_tables.specs.MergeViews.{MergeView};

    ghost Value = { MergeView };

    ghost view = { λ it. record {
      target = it.target;
      copies = it.copying.copies.items;
      firsts = it.copying.firsts;
      left = it.copying.left;
      fault = it.fault;
    } };
}

impl Merge {
    /// A merge for the state with this number, which has conflicts. It may make so many copies.
    pub fn new(alloc: Global, target: StateIndex, copies: usize) -> Merge
        ensures target { result.target ≡ target }
        ensures copies { result.copies ≡ [] }
        ensures firsts { result.firsts ≡ [] }
        ensures left { result.left ≡ copies }
        ensures fault { result.fault ≡ None }
    {
        Merge {
            alloc,
            target,
            copying: Copying::new(alloc, copies),
            visited: BTreeSet::new(alloc),
            fault: None,
        }
    }

    /// How many copies it may still make.
    pub fn copies_left(&self) -> usize
        ensures { result ≡ self.now.left }
    {
        self.copying.left
    }

    /// Walks from the state, depth first, each state once: at each of a state's successors their classes are joined where they don't
    /// overlap, else that of the first copy of the successor that fits, else that of a new copy, with the row that the table has for
    /// the successor; and the edges that lead from the state to the successor then lead to the copy. A copy has the edges that its
    /// original had when the merge began.
    ///
    /// States stay spread over whatever they were spread: each stands for the same original, with its items and reductions, a copy
    /// for that of what it is a copy of, and edges lead on alike. As many states come as copies are taken off.
    ///
    /// # Errors
    ///
    /// `Pair` with a state of the table and a successor whose row doesn't fit beside the class of the first, or of a copy of it, which
    /// is so too where one of them has no class or the second is no state; `Copies` where a copy is needed and no more may be made; or
    /// memory is refused. Each later call answers the same fault and changes nothing.
    pub fn start<'g>(
        &mut self,
        table: &LaneTable<'g>,
        unify: &mut UnifyTable,
        states: &mut Vec<Lr1State<'g>>,
        sets: &mut Map<StateIndex, StateSet>,
        from: StateIndex,
    ) -> Result<(), MergeFault>
        requires { AreClasses table.now.conflicts sets.old unify.old }
        ensures classes { AreClasses table.now.conflicts sets.new unify.new }
        ensures merged { UnlessMemory result (MergeKeeps self.old states.old.items self.new states.new.items) }
        ensures kept { (fault : _) → result ≡ Err fault → self.new.fault ≡ Some fault }
        ensures given { (fault : _) → self.old.fault ≡ Some fault → result ≡ Err fault }
        ensures unchanged { (fault : _) → self.old.fault ≡ Some fault →
            (self.new ≡ self.old) × (unify.new ≡ unify.old) × (states.new ≡ states.old) × (sets.new ≡ sets.old) }
        ensures open { OnOk result (self.new.fault ≡ None) }
        ensures target { self.new.target ≡ self.old.target }
    {
        if let Some(fault) = self.fault {
            return Err(fault);
        }
        let done = walk(
            self.alloc,
            table,
            unify,
            states,
            sets,
            &mut self.copying,
            &mut self.visited,
            from,
        );
        match done {
            Ok(()) => Ok(()),
            Err(fault) => {
                self.fault = Some(fault);
                Err(fault)
            }
        }
    }

    /// Gives the reductions of the state with the conflicts, and those of the copies of it that were made, the sets that their actions
    /// have in the state's class, as `ContextSet::apply` does. The actions, in order, are those of the columns, and each of these
    /// reductions is one of them. What is no state or has no class stays as it is, and so do all other states.
    ///
    /// # Errors
    ///
    /// Memory is refused; the states are as before.
    pub fn patch_target_starts<'g>(
        self,
        unify: &UnifyTable,
        states: &mut [Lr1State<'g>],
        sets: &Map<StateIndex, StateSet>,
        actions: &BTreeSet<Action<'g>>,
    ) -> Result<(), AllocError>
        requires classes { AreClasses (length actions.now.keys) sets.now unify.now }
        requires actions { HaveTargetActions self.target self.copies actions.now.keys states.old }
        ensures patched { OnOk result (PatchesTargets actions.now.keys sets.now unify.now self.target self.copies states.old states.new) }
        ensures kept { OnErr result (states.new ≡ states.old) }
    {
        let patches = patches_of(
            self.alloc,
            unify,
            states,
            sets,
            actions,
            self.target,
            self.copying.copies.as_slice(),
        )?;
        put_patches(states, patches);
        Ok(())
    }
}
