//! Productions by their flat labels.

ghost use Rattle.std.specs.Prelude.{◌≡◌, IfOk, OnOk, Vec};
ghost use Rattle.std.specs.declared.alloc.Global.{Global};
ghost use Rattle.lalrpop_run_trees.specs.LabelTables.{kept_place, label_places, last_place, place_from_here, place_under, places_from};
ghost use Rattle.lalrpop_run_trees.specs.FlatLabels.{marks_in};
ghost use Rattle.lalrpop_run_trees.specs.declared.flat_labels.mark.LabelMark.{LabelMark as Mark};

use crate::flat_labels::mark::LabelMark;
use crate::flat_labels::of_action::flat_label;
use lalrpop_grammar_repr::{ActionFnDefn, Grammar, Production};
use std::alloc::{AllocError, Global};
use std::collections::HashMap;

/// For each flat label of a grammar's productions the place of one with it among those of its nonterminal.
#[derive(Drop)]
pub struct LabelTable {
    places: HashMap<Vec<LabelMark>, usize>,
}

impl LabelTable {
    /// The labels of the grammar's productions, of whose actions the first `given` are given ones and the others made by inlining.
    ///
    /// # Errors
    ///
    /// Want of memory.
    pub fn new(alloc: Global, grammar: &Grammar, given: usize) -> Result<LabelTable, AllocError>
        ensures { IfOk result (λ table. (l : Vec Mark Global) → kept_place table l ≡ last_place l.items (label_places grammar.now given)) }
    {
        let mut table = LabelTable {
            places: HashMap::new(alloc),
        };
        let actions = grammar.action_fn_defns.as_slice();
        for (_, data) in grammar.nonterminals.iter() {
            table.add_productions(alloc, actions, given, data.productions.as_slice())?;
        }
        Ok(table)
    }

    /// Adds the labels of a nonterminal's productions.
    fn add_productions(
        &mut self,
        alloc: Global,
        actions: &[ActionFnDefn],
        given: usize,
        productions: &[Production],
    ) -> Result<(), AllocError>
        ensures { OnOk result ((l : Vec Mark Global) → kept_place self.new l
            ≡ place_from_here (kept_place self.old l) l.items (places_from actions.now given 0 productions.now)) }
    {
        for (place, production) in productions.iter().enumerate() {
            let count = production.symbols.len();
            let label = flat_label(alloc, actions, given, production.action, count)?;
            self.keep(label, place)?;
        }
        Ok(())
    }

    /// Keeps the place under the label, where there is one.
    fn keep(&mut self, label: Option<Vec<LabelMark>>, place: usize) -> Result<(), AllocError>
        ensures { OnOk result ((l : Vec Mark Global) → kept_place self.new l
            ≡ place_from_here (kept_place self.old l) l.items (place_under (marks_in label) place)) }
    {
        if let Some(label) = label {
            self.places.insert(label, place)?;
        }
        Ok(())
    }

    /// The place of the last of the productions with this label among those of its nonterminal; none where no production has it.
    pub fn place(&self, label: &Vec<LabelMark>) -> Option<usize>
        ensures { result ≡ kept_place self.now label.now }
    {
        self.places.get(label).copied()
    }
}
