//! Least trees of a grammar.

ghost use Rattle.std.specs.Prelude.{◌≡◌, ◌∷◌, [], IfOk, false, map, option_map};
ghost use Rattle.lalrpop_grammar_repr.specs.Maps.{at_name};
ghost use Rattle.lalrpop_lr1_theory.specs.Trees.{IsTreeOf};
ghost use Rattle.lalrpop_lr1_core.specs.Views.{production_view};
ghost use Rattle.lalrpop_lr1_first.specs.FirstNumbers.{name_count};
ghost use Rattle.lalrpop_lr1_first.specs.FirstSetsOf.{IsProductionOf};
ghost use Rattle.lalrpop_lr1_first.specs.NumberedGrammars.{HasItsTerminals, IsNumberTableOf};
ghost use Rattle.lalrpop_lr1_least_trees.specs.LeastTrees.{AreLeastMoves};
ghost use Rattle.lalrpop_lr1_least_trees.specs.GrammarTrees.{AreLeastTrees, entries_of, entry_of, number_rules};
ghost use Rattle.lalrpop_lr1_least_trees.specs.LeastForests.{CountsLeast, HasLeastRoot, HaveLeastMoves, IsTreeOfKind};
ghost use Rattle.lalrpop_lr1_least_trees.specs.MoveViews.{tree_move_view};

use crate::least_counts::{LeastTree, NumberMove, Rule, least_moves, least_trees};
use crate::name_numbers::numbers_of;
use crate::rules::rules_of;
use crate::table::production_at;
use crate::tree_move::{TreeMove, name_moves};
use lalrpop_grammar_repr::{Grammar, Map, Production};
use lalrpop_grammar_symbols::NonterminalString;
use lalrpop_lr1_first::Numbered;
use std::alloc::{AllocError, Global};

/// The least trees of a grammar's nonterminals, and those that have no leaves.
#[derive(Drop)]
pub struct LeastTrees<'g> {
    // The grammar by numbers.
    pub(crate) table: Numbered<'g>,
    // The number of each name.
    pub(crate) numbers: Map<NonterminalString, usize>,
    // The rules, with their right sides.
    pub(crate) rules: Vec<Rule>,
    // At each name's number its least tree.
    pub(crate) whole: Vec<Option<LeastTree>>,
    // The same of trees without leaves.
    pub(crate) empty: Vec<Option<LeastTree>>,
}

impl<'g> LeastTrees<'g> {
    ghost use Rattle.lalrpop_grammar_repr.specs.declared.grammar.Grammar.{Grammar};

    /// The least trees of the grammar. Its terminals are numbered by their places, and each terminal on a right side is one of them.
    ///
    /// # Errors
    ///
    /// Memory is refused.
    pub fn new(alloc: Global, grammar: &'g Grammar) -> Result<LeastTrees<'g>, AllocError>
        requires { HasItsTerminals grammar.now }
        ensures trees { IfOk result AreLeastTrees }
        ensures table { IfOk result (λ trees. IsNumberTableOf grammar.now trees.table) }
    {
        let table = Numbered::new(alloc, grammar)?;
        let numbers = numbers_of(alloc, table.names())?;
        let rules = rules_of(alloc, &table)?;
        let names = table.names().len();
        let whole = least_trees(alloc, names, rules.as_slice(), true)?;
        let empty = least_trees(alloc, names, rules.as_slice(), false)?;
        Ok(LeastTrees {
            table,
            numbers,
            rules,
            whole,
            empty,
        })
    }

    /// The grammar by numbers.
    pub fn table(&self) -> &Numbered<'g>
        ensures { result.now ≡ self.now.table }
    {
        &self.table
    }

    /// The grammar's rules, with their right sides, in the order of its productions.
    pub fn rules(&self) -> &[Rule]
        ensures { result.now ≡ self.now.rules.items }
    {
        self.rules.as_slice()
    }

    /// The number of the name, if it is one of the table's.
    pub fn number(&self, name: &NonterminalString) -> Option<usize>
        ensures { result ≡ at_name name.now self.now.numbers }
    {
        match self.numbers.get(name) {
            Some(number) => Some(*number),
            None => None,
        }
    }

    /// The trees with leaves, or those without.
    fn entries(&self, leaves: bool) -> &[Option<LeastTree>]
        ensures { result.now ≡ entries_of self.now leaves }
    {
        if leaves {
            self.whole.as_slice()
        } else {
            self.empty.as_slice()
        }
    }

    /// The entry of the name.
    fn entry(&self, leaves: bool, name: &NonterminalString) -> Option<LeastTree>
        ensures { result ≡ entry_of self.now leaves name.now }
    {
        match self.number(name) {
            None => None,
            Some(number) => match self.entries(leaves).get(number) {
                Some(entry) => *entry,
                None => None,
            },
        }
    }

    /// The production at the root of the least tree, with leaves or without.
    fn root(&self, leaves: bool, name: &NonterminalString) -> Option<&'g Production>
        requires { AreLeastTrees self.now }
        ensures { (g : Grammar) → IsNumberTableOf g self.now.table →
            HasLeastRoot (IsTreeOfKind (IsProductionOf g) name.now.0 leaves) (option_map (λ p. production_view p.now) result) }
    {
        match self.entry(leaves, name) {
            None => None,
            Some(tree) => Some(production_at(&self.table, tree.rule)),
        }
    }

    /// The moves by numbers of the least tree of the name with this number, with leaves or without.
    fn numbered_moves(
        &self,
        alloc: Global,
        leaves: bool,
        number: usize,
    ) -> Result<Option<Vec<NumberMove>>, AllocError>
        requires { AreLeastTrees self.now }
        ensures { IfOk result (λ found. AreLeastMoves (number_rules self.now.table) (name_count self.now.table) leaves (number ∷ [])
            (option_map (λ moves. moves.items) found)) }
    {
        let rules = self.rules.as_slice();
        let moves = least_moves(alloc, rules, self.entries(leaves), leaves, &[number])?;
        Ok(moves)
    }

    /// The moves of the least tree, with leaves or without.
    fn moves_of(
        &self,
        alloc: Global,
        leaves: bool,
        name: &NonterminalString,
    ) -> Result<Option<Vec<TreeMove<'g>>>, AllocError>
        requires { AreLeastTrees self.now }
        ensures { IfOk result (λ found. (g : Grammar) → IsNumberTableOf g self.now.table →
            HaveLeastMoves (IsTreeOfKind (IsProductionOf g) name.now.0 leaves)
            (option_map (λ moves. map tree_move_view moves.items) found)) }
    {
        let Some(number) = self.number(name) else {
            return Ok(None);
        };
        match self.numbered_moves(alloc, leaves, number)? {
            None => Ok(None),
            Some(numbers) => Ok(Some(name_moves(alloc, &self.table, numbers.as_slice())?)),
        }
    }

    /// How many leaves and nodes the least tree has, with leaves or without.
    fn count_of(&self, leaves: bool, name: &NonterminalString) -> Option<usize>
        requires { AreLeastTrees self.now }
        ensures { (g : Grammar) → IsNumberTableOf g self.now.table →
            CountsLeast (IsTreeOfKind (IsProductionOf g) name.now.0 leaves) result }
    {
        match self.entry(leaves, name) {
            None => None,
            Some(tree) => Some(tree.count),
        }
    }

    /// How many leaves and nodes the nonterminal's least tree has; the greatest number where they are as many or more. None where
    /// no tree over the productions has it at its root.
    pub fn count(&self, nonterminal: &NonterminalString) -> Option<usize>
        requires { AreLeastTrees self.now }
        ensures { (g : Grammar) → IsNumberTableOf g self.now.table →
            CountsLeast (IsTreeOf (IsProductionOf g) nonterminal.now.0) result }
    {
        self.count_of(true, nonterminal)
    }

    /// How many nodes the nonterminal's least tree without leaves has; the greatest number where they are as many or more. None where
    /// the nonterminal doesn't derive the empty sentence.
    pub fn empty_count(&self, nonterminal: &NonterminalString) -> Option<usize>
        requires { AreLeastTrees self.now }
        ensures { (g : Grammar) → IsNumberTableOf g self.now.table →
            CountsLeast (IsTreeOfKind (IsProductionOf g) nonterminal.now.0 false) result }
    {
        self.count_of(false, nonterminal)
    }

    /// The production at the root of the nonterminal's least tree; none where it has no tree.
    pub fn production(&self, nonterminal: &NonterminalString) -> Option<&'g Production>
        requires { AreLeastTrees self.now }
        ensures { (g : Grammar) → IsNumberTableOf g self.now.table →
            HasLeastRoot (IsTreeOf (IsProductionOf g) nonterminal.now.0) (option_map (λ p. production_view p.now) result) }
    {
        self.root(true, nonterminal)
    }

    /// The moves that build the nonterminal's least tree from the left; none where it has no tree.
    ///
    /// # Errors
    ///
    /// Memory is refused. It is where the least tree's count is the greatest number: that many moves fit in no memory.
    pub fn moves(
        &self,
        alloc: Global,
        nonterminal: &NonterminalString,
    ) -> Result<Option<Vec<TreeMove<'g>>>, AllocError>
        requires { AreLeastTrees self.now }
        ensures { IfOk result (λ found. (g : Grammar) → IsNumberTableOf g self.now.table →
            HaveLeastMoves (IsTreeOf (IsProductionOf g) nonterminal.now.0)
            (option_map (λ moves. map tree_move_view moves.items) found)) }
    {
        let moves = self.moves_of(alloc, true, nonterminal)?;
        Ok(moves)
    }

    /// The production at the root of the nonterminal's least tree without leaves; none where it doesn't derive the empty sentence.
    pub fn empty_production(&self, nonterminal: &NonterminalString) -> Option<&'g Production>
        requires { AreLeastTrees self.now }
        ensures { (g : Grammar) → IsNumberTableOf g self.now.table →
            HasLeastRoot (IsTreeOfKind (IsProductionOf g) nonterminal.now.0 false) (option_map (λ p. production_view p.now) result) }
    {
        self.root(false, nonterminal)
    }

    /// The moves that build the nonterminal's least tree without leaves; none where it doesn't derive the empty sentence.
    ///
    /// # Errors
    ///
    /// Memory is refused. It is where the tree has as many nodes as the greatest number or more.
    pub fn empty_moves(
        &self,
        alloc: Global,
        nonterminal: &NonterminalString,
    ) -> Result<Option<Vec<TreeMove<'g>>>, AllocError>
        requires { AreLeastTrees self.now }
        ensures { IfOk result (λ found. (g : Grammar) → IsNumberTableOf g self.now.table →
            HaveLeastMoves (IsTreeOfKind (IsProductionOf g) nonterminal.now.0 false)
            (option_map (λ moves. map tree_move_view moves.items) found)) }
    {
        let moves = self.moves_of(alloc, false, nonterminal)?;
        Ok(moves)
    }
}
