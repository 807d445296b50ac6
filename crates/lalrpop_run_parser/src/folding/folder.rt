//! The search for the tree over productions to which a written tree is folded.

ghost use Rattle.std.specs.Prelude.{◌≡◌, ◌↔◌, ℕ, Contains, IfNone, IfOk, IfSome, IsTrue, List, length, map};
ghost use Rattle.lalrpop_grammar_symbols.specs.Symbols.{TextSpan};
ghost use Rattle.lalrpop_grammar_symbols.specs.Views.{span_view, terminal_view};
ghost use Rattle.lalrpop_grammar.specs.Trees.{Tree};
ghost use Rattle.lalrpop_grammar_language.specs.Derivations.{leaf_token};
ghost use Rattle.lalrpop_lr1_core.specs.Views.{production_symbol_view, production_view};
ghost use Rattle.lalrpop_lr1_interpret.specs.ExpandedViews.{listed_views};
ghost use Rattle.lalrpop_lr1_theory.specs.Productions as theory;
ghost use Rattle.lalrpop_run_trees.specs.ActionLabels.{ChoiceLabel};
ghost use Rattle.lalrpop_run_parser.specs.FoldedTrees.{AreOfGrammar, PutsBeside, TellsAllFolded, TellsFolded, TellsFoldedBy};
ghost use Rattle.lalrpop_run_parser.specs.FoldedTrees.{TellsFoldedByAny, TellsOfGrammar, TellsPartFolded};
ghost use Rattle.lalrpop_run_trees.specs.PartViews.{shown_part};

use lalrpop_grammar::{Origin, WrittenTree};
use lalrpop_grammar_repr::{Grammar, Production, Symbol};
use lalrpop_grammar_symbols::{NonterminalString, Span, TerminalString};
use lalrpop_lr1_interpret::parse::TreeList;
use lalrpop_run_trees::flat_labels::LabelTable;
use lalrpop_run_trees::tree_parts::{Piece, TreePart, parts_by_action};
use std::alloc::{AllocError, Global};

/// The most productions by which one tree is passed down as it is: levels are below 2^32, and each passes down to a tighter one; one more
/// leads from a start.
pub(crate) const MOST_PASSES: usize = 4_294_967_298;

/// What trees are folded by: plain productions after inlining, and the written choices that their given actions stand for.
#[derive(Clone, Copy)]
pub(crate) struct Folder<'g, 'l> {
    pub(crate) alloc: Global,
    pub(crate) grammar: &'g Grammar,
    pub(crate) origins: &'g [Origin],
    /// The productions before inlining.
    pub(crate) lowered: &'g Grammar,
    /// Those after it by the choices that they stand for.
    pub(crate) labels: &'l LabelTable,
}

/// Puts the leaf to which the part is folded beside the trees, and tells whether there is one.
fn fold_leaf(
    terminal: &TerminalString,
    part: TreePart<'_>,
    trees: &mut TreeList<'_>,
) -> Result<bool, AllocError>
    ensures { IfOk result (PutsBeside 1 (λ found. (grammar : List theory.Production) (label_of : ℕ → ChoiceLabel) (most : ℕ)
        → TellsFolded (theory.terminal (terminal_view terminal.now)) part.entry most (Contains grammar) label_of found)
        (listed_views trees.old) (listed_views trees.new)) }
{
    match span_of_leaf(terminal, part) {
        Some(span) => {
            trees.push_leaf(terminal.try_clone()?, span)?;
            Ok(true)
        }
        None => Ok(false),
    }
}

/// Where the part stands, where it is a leaf of the terminal.
fn span_of_leaf(terminal: &TerminalString, part: TreePart<'_>) -> Option<Span>
    ensures found { IfSome result (λ span. shown_part part.entry
        ≡ Tree.terminal (leaf_token (terminal_view terminal.now) (span_view span))) }
    ensures none { IfNone result ((span : TextSpan) → shown_part part.entry
        ≡ Tree.terminal (leaf_token (terminal_view terminal.now) span) → ⊥) }
{
    match part.piece {
        Piece::Front(_) => None,
        Piece::Whole(tree) => match tree {
            WrittenTree::Terminal {
                terminal: other,
                text: _,
                span,
            } if is_same_terminal(other, terminal) => Some(*span),
            _ => None,
        },
    }
}

/// Whether the terminals are one.
fn is_same_terminal(a: &TerminalString, b: &TerminalString) -> bool
    ensures { IsTrue result ↔ (terminal_view a.now ≡ terminal_view b.now) }
{
    *a == *b
}

// Each call puts the tree or the trees that it finds beside those that stand in the list, and tells whether there are some. Where there
// are none, the list is what it was.
impl<'g> Folder<'g, '_> {
    /// Looks for the tree of the symbol to which the part is folded, by at most so many productions that pass it down.
    #[cycle(folding)]
    fn fold_symbol(
        self,
        symbol: &Symbol,
        part: TreePart<'_>,
        passes: usize,
        trees: &mut TreeList<'g>,
    ) -> Result<bool, AllocError>
        ensures { IfOk result (PutsBeside 1 (TellsOfGrammar self.entry.grammar.now self.entry.origins.now
            (TellsFolded (production_symbol_view symbol.now) part.entry passes)) (listed_views trees.old) (listed_views trees.new)) }
    {
        match symbol {
            Symbol::Terminal(terminal) => fold_leaf(terminal, part, trees),
            Symbol::Nonterminal(name) => self.fold_nonterminal(name, part, passes, trees),
        }
    }

    /// The same of a nonterminal. What the part's choices look like says which production is tried first.
    #[cycle(folding)]
    pub(crate) fn fold_nonterminal(
        self,
        name: &NonterminalString,
        part: TreePart<'_>,
        passes: usize,
        trees: &mut TreeList<'g>,
    ) -> Result<bool, AllocError>
        ensures { IfOk result (PutsBeside 1 (TellsOfGrammar self.entry.grammar.now self.entry.origins.now
            (TellsFolded (theory.nonterminal name.now.0) part.entry passes)) (listed_views trees.old) (listed_views trees.new)) }
    {
        let productions = self.grammar.productions_for(name);
        let likely = self.likely_place(name, part)?;
        let (before, from_likely) = productions.split_at(likely.min(productions.len()));
        if self.fold_by_any(from_likely, part, passes, trees)? {
            return Ok(true);
        }
        self.fold_by_any(before, part, passes, trees)
    }

    /// The same by the first of the productions that has one.
    #[cycle(folding)]
    fn fold_by_any(
        self,
        productions: &'g [Production],
        part: TreePart<'_>,
        passes: usize,
        trees: &mut TreeList<'g>,
    ) -> Result<bool, AllocError>
        ensures { IfOk result (PutsBeside 1 (TellsOfGrammar self.entry.grammar.now self.entry.origins.now
            (λ G label_of found. AreOfGrammar self.entry.grammar.now productions.now
            → TellsFoldedByAny productions.now part.entry passes G label_of found)) (listed_views trees.old) (listed_views trees.new)) }
    {
        for production in productions {
            if self.fold_by_production(production, part, passes, trees)? {
                return Ok(true);
            }
        }
        Ok(false)
    }

    /// The same by one production.
    #[cycle(folding)]
    fn fold_by_production(
        self,
        production: &'g Production,
        part: TreePart<'_>,
        passes: usize,
        trees: &mut TreeList<'g>,
    ) -> Result<bool, AllocError>
        ensures { IfOk result (PutsBeside 1 (TellsOfGrammar self.entry.grammar.now self.entry.origins.now
            (λ G label_of found. G (production_view production.now)
            → TellsFoldedBy (production_view production.now) part.entry passes G label_of found)) (listed_views trees.old) (listed_views trees.new)) }
    {
        let whole = TreePart {
            piece: part.piece,
            is_inside: false,
        };
        let actions = self.grammar.action_fn_defns.as_slice();
        let symbols = production.symbols.as_slice();
        let kept = parts_by_action(
            self.alloc,
            actions,
            self.origins,
            production.action,
            symbols.len(),
            whole,
        )?;
        let Some(parts) = kept else {
            return Ok(false);
        };
        if !self.fold_parts(symbols, parts.as_slice(), passes, trees)? {
            return Ok(false);
        }
        trees.push_node(production)?;
        Ok(true)
    }

    /// The same of trees of the symbols, one for each part.
    #[cycle(folding)]
    fn fold_parts(
        self,
        symbols: &[Symbol],
        parts: &[TreePart<'_>],
        passes: usize,
        trees: &mut TreeList<'g>,
    ) -> Result<bool, AllocError>
        ensures { IfOk result (PutsBeside (length symbols.now) (TellsOfGrammar self.entry.grammar.now self.entry.origins.now
            (TellsAllFolded (map production_symbol_view symbols.now) parts.now passes)) (listed_views trees.old) (listed_views trees.new)) }
    {
        if symbols.len() != parts.len() {
            return Ok(false);
        }
        let before = trees.len();
        for (place, symbol) in symbols.iter().enumerate() {
            if !self.fold_part(symbol, parts[place], passes, trees)? {
                trees.truncate(before);
                return Ok(false);
            }
        }
        Ok(true)
    }

    /// The same of one part; where it is the whole, by one production less that passes it down.
    #[cycle(folding)]
    fn fold_part(
        self,
        symbol: &Symbol,
        part: TreePart<'_>,
        passes: usize,
        trees: &mut TreeList<'g>,
    ) -> Result<bool, AllocError>
        ensures { IfOk result (PutsBeside 1 (TellsOfGrammar self.entry.grammar.now self.entry.origins.now
            (TellsPartFolded (production_symbol_view symbol.now) part.entry passes)) (listed_views trees.old) (listed_views trees.new)) }
    {
        if part.is_inside {
            self.fold_symbol(symbol, part, MOST_PASSES, trees)
        } else if passes == 0 {
            Ok(false)
        } else {
            self.fold_symbol(symbol, part, passes - 1, trees)
        }
    }
}
