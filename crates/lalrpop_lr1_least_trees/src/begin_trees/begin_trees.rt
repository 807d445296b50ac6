//! Trees that begin with a terminal.

ghost use Rattle.std.specs.Prelude.{◌≡◌, ◌∷◌, [], IfOk, map, option_map, true};
ghost use Rattle.lalrpop_grammar_symbols.specs.Symbols.{Terminal};
ghost use Rattle.lalrpop_grammar_symbols.specs.Views.{terminal_view};
ghost use Rattle.lalrpop_grammar_repr.specs.declared.grammar.Grammar.{Grammar};
ghost use Rattle.lalrpop_lr1_core.specs.Views.{production_view};
ghost use Rattle.lalrpop_lr1_first.specs.FirstNumbers.{name_count};
ghost use Rattle.lalrpop_lr1_first.specs.FirstSetsOf.{IsProductionOf};
ghost use Rattle.lalrpop_lr1_first.specs.NumberedGrammars.{IsNumberTable, IsNumberTableOf};
ghost use Rattle.lalrpop_lr1_least_trees.specs.LeastTrees.{AreLeastMoves};
ghost use Rattle.lalrpop_lr1_least_trees.specs.NumberedTrees.{rule_views};
ghost use Rattle.lalrpop_lr1_least_trees.specs.GrammarTrees.{AreLeastTrees, symbols_by};
ghost use Rattle.lalrpop_lr1_least_trees.specs.MoveViews.{IsNumberedMove, SpellsMoves, tree_move_view};
ghost use Rattle.lalrpop_lr1_least_trees.specs.BeginForests.{CountsBegin, HasBeginRoot, HaveBeginMoves, IsWanted};
ghost use Rattle.lalrpop_lr1_least_trees.specs.BeginTables.{
  AreBeginTrees,
  HasDerivedName,
  HaveDerivedNames,
  begin_entry_of,
  begin_number_of,
  derived_production_by,
  derived_symbol_by,
  terminal_place as place_of,
};
ghost use Rattle.lalrpop_lr1_least_trees.specs.DerivedRules.{all_names};

use crate::begin_trees::derived::{Derived, derived_rules};
use crate::begin_trees::kinds::sum;
use crate::least_counts::{LeastTree, NumberMove, least_moves, least_trees};
use crate::{LeastTrees, TreeMove, production_at, terminal_at};
use lalrpop_grammar_repr::Production;
use lalrpop_grammar_symbols::{NonterminalString, TerminalString};
use lalrpop_lr1_first::Numbered;
use std::alloc::{AllocError, Global};

/// The trees of a grammar's nonterminals that begin with one terminal.
#[derive(Drop)]
pub struct BeginTrees<'t, 'g> {
    // The least trees of the grammar.
    pub(crate) trees: &'t LeastTrees<'g>,
    // The number of the terminal.
    pub(crate) wanted: usize,
    // The derived rules.
    pub(crate) derived: Derived,
    // At the numbers of their names their least trees.
    pub(crate) begins: Vec<Option<LeastTree>>,
}

/// The terminal's place, or the one behind all.
fn terminal_place(table: &Numbered<'_>, terminal: &TerminalString) -> usize
    ensures { result ≡ place_of table.now terminal.now }
{
    let terminals = table.terminals();
    match terminals.bits.get(terminal) {
        Some(place) => *place,
        None => terminals.all.as_slice().len(),
    }
}

/// The terminal's number, or one that no symbol has.
fn wanted_number(table: &Numbered<'_>, terminal: &TerminalString) -> Result<usize, AllocError>
    requires { IsNumberTable table.now }
    ensures { IfOk result (IsWanted (symbols_by table.now) (terminal_view terminal.now)) }
{
    let number = sum(table.names().len(), terminal_place(table, terminal))?;
    Ok(number)
}

impl<'t, 'g> BeginTrees<'t, 'g> {
    /// The trees that begin with the terminal, of the grammar whose least trees these are.
    ///
    /// # Errors
    ///
    /// Memory is refused.
    pub fn new(
        alloc: Global,
        trees: &'t LeastTrees<'g>,
        terminal: &TerminalString,
    ) -> Result<BeginTrees<'t, 'g>, AllocError>
        requires { AreLeastTrees trees.now }
        ensures begins { IfOk result AreBeginTrees }
        ensures trees { IfOk result (λ begins. begins.trees.now ≡ trees.now) }
        ensures wanted { IfOk result (λ begins. IsWanted (symbols_by trees.now.table) (terminal_view terminal.now) begins.wanted) }
    {
        let table = trees.table();
        let names = table.names().len();
        let wanted = wanted_number(table, terminal)?;
        let derived = derived_rules(alloc, names, wanted, trees.rules())?;
        let all = sum(sum(names, names)?, names)?;
        let begins = least_trees(alloc, all, derived.rules.as_slice(), true)?;
        Ok(BeginTrees {
            trees,
            wanted,
            derived,
            begins,
        })
    }

    /// The least trees of the grammar.
    pub fn trees(&self) -> &'t LeastTrees<'g>
        ensures { result.now ≡ self.now.trees.now }
    {
        self.trees
    }

    /// The number that stands for the name's trees that begin with the terminal.
    fn begin_number(&self, name: &NonterminalString) -> Option<usize>
        requires { AreBeginTrees self.now }
        ensures { result ≡ begin_number_of self.now name.now }
    {
        let names = self.trees.table().names().len();
        match self.trees.number(name) {
            None => None,
            Some(number) => Some(names + names + number),
        }
    }

    /// The entry of the name's trees that begin with the terminal.
    fn entry(&self, name: &NonterminalString) -> Option<LeastTree>
        requires { AreBeginTrees self.now }
        ensures { result ≡ begin_entry_of self.now name.now }
    {
        match self.begin_number(name) {
            None => None,
            Some(number) => match self.begins.as_slice().get(number) {
                Some(entry) => *entry,
                None => None,
            },
        }
    }

    /// The move with this number.
    fn name_move(&self, number: NumberMove) -> TreeMove<'g>
        requires begins { AreBeginTrees self.now }
        requires name { HasDerivedName self.now number }
        ensures { IsNumberedMove (derived_symbol_by self.now.trees.now.table) (derived_production_by self.now.trees.now.table self.now.derived)
            number (tree_move_view result) }
    {
        let table = self.trees.table();
        match number {
            NumberMove::Shift(symbol) => {
                let names = table.names().len();
                TreeMove::Shift(terminal_at(table, symbol - (names + names)))
            }
            NumberMove::Reduce(rule) => {
                TreeMove::Reduce(production_at(table, self.derived.origins[rule].rule))
            }
        }
    }

    /// The moves with these numbers.
    fn name_moves(
        &self,
        alloc: Global,
        numbers: &[NumberMove],
    ) -> Result<Vec<TreeMove<'g>>, AllocError>
        requires begins { AreBeginTrees self.now }
        requires names { HaveDerivedNames self.now numbers.now }
        ensures { IfOk result (λ moves. SpellsMoves (derived_symbol_by self.now.trees.now.table)
            (derived_production_by self.now.trees.now.table self.now.derived) numbers.now (map tree_move_view moves.items)) }
    {
        let mut moves = Vec::with_capacity(alloc, numbers.len())?;
        for number in numbers {
            moves.push(self.name_move(*number))?;
        }
        Ok(moves)
    }

    /// The production at the root of a tree of the nonterminal that begins with the terminal, and the place of its right side at
    /// which the tree does: what stands in front of the place has no leaves there. None where no tree of the nonterminal begins with
    /// the terminal.
    pub fn production(&self, nonterminal: &NonterminalString) -> Option<(&'g Production, usize)>
        requires { AreBeginTrees self.now }
        ensures { (g : Grammar) (t : Terminal) → IsNumberTableOf g self.now.trees.now.table →
            IsWanted (symbols_by self.now.trees.now.table) t self.now.wanted →
            HasBeginRoot (IsProductionOf g) nonterminal.now.0 t (option_map (λ r. (production_view r.0.now, r.1)) result) }
    {
        match self.entry(nonterminal) {
            None => None,
            Some(tree) => {
                let origin = self.derived.origins[tree.rule];
                Some((production_at(self.trees.table(), origin.rule), origin.place))
            }
        }
    }

    /// How many leaves and nodes the tree has that `moves` builds; the greatest number where they are as many or more. None where no
    /// tree of the nonterminal begins with the terminal.
    pub fn count(&self, nonterminal: &NonterminalString) -> Option<usize>
        requires { AreBeginTrees self.now }
        ensures { (g : Grammar) (t : Terminal) → IsNumberTableOf g self.now.trees.now.table →
            IsWanted (symbols_by self.now.trees.now.table) t self.now.wanted →
            CountsBegin (IsProductionOf g) nonterminal.now.0 t result }
    {
        match self.entry(nonterminal) {
            None => None,
            Some(tree) => Some(tree.count),
        }
    }

    /// The moves by numbers of the least tree that is found at the number.
    fn numbered_moves(
        &self,
        alloc: Global,
        number: usize,
    ) -> Result<Option<Vec<NumberMove>>, AllocError>
        requires { AreBeginTrees self.now }
        ensures { IfOk result (λ found. AreLeastMoves (rule_views self.now.derived.rules.items)
            (all_names (name_count self.now.trees.now.table)) true (number ∷ []) (option_map (λ moves. moves.items) found)) }
    {
        let rules = self.derived.rules.as_slice();
        let moves = least_moves(alloc, rules, self.begins.as_slice(), true, &[number])?;
        Ok(moves)
    }

    /// The moves that build a tree of the nonterminal which begins with the terminal; none where no tree of the nonterminal does.
    ///
    /// # Errors
    ///
    /// Memory is refused. It is where each such tree has as many leaves and nodes as the greatest number or more.
    pub fn moves(
        &self,
        alloc: Global,
        nonterminal: &NonterminalString,
    ) -> Result<Option<Vec<TreeMove<'g>>>, AllocError>
        requires { AreBeginTrees self.now }
        ensures { IfOk result (λ found. (g : Grammar) (t : Terminal) → IsNumberTableOf g self.now.trees.now.table →
            IsWanted (symbols_by self.now.trees.now.table) t self.now.wanted →
            HaveBeginMoves (IsProductionOf g) nonterminal.now.0 t (option_map (λ moves. map tree_move_view moves.items) found)) }
    {
        let Some(number) = self.begin_number(nonterminal) else {
            return Ok(None);
        };
        match self.numbered_moves(alloc, number)? {
            None => Ok(None),
            Some(numbers) => Ok(Some(self.name_moves(alloc, numbers.as_slice())?)),
        }
    }
}
