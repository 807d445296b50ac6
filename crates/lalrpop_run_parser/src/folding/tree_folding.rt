//! From a written tree to the tree over productions that it stands for.

ghost use Rattle.lalrpop_grammar.specs.Views.{grammar_view, tree_view};
ghost use Rattle.lalrpop_norm_theory.specs.Premises.{IsReadGrammar};
ghost use Rattle.lalrpop_run_parser.specs.Foldings.{TellsFold};

use crate::folding::fold_error::FoldError;
use crate::folding::folder::{Folder, MOST_PASSES};
use lalrpop_grammar::WrittenTree;
use lalrpop_lr1_interpret::parse::{ExpandedTree, TreeList};
use lalrpop_run_prepare::Prepared;
use lalrpop_run_theory::answers::forests_correspond;
use lalrpop_run_trees::tree_parts::{Piece, TreePart};
use std::alloc::Global;

/// The tree over the prepared grammar's productions, from its start, that the written tree stands for. Its leaves have the spans of the
/// written tree's leaves, and no texts.
///
/// It is promised for a grammar as one is read.
///
/// # Errors
///
/// `NotAdmitted` where the start doesn't admit the tree over its own leaves; or `Memory`.
pub fn fold<'p>(
    alloc: Global,
    prepared: &'p Prepared,
    tree: &WrittenTree,
) -> Result<ExpandedTree<'p>, FoldError>
    ensures { IsReadGrammar (grammar_view prepared.now.written) → TellsFold prepared.now (tree_view tree.now) result }
{
    // the law and what is known of the grammar
    forests_correspond();
    prepared.known();
    let grammar = prepared.expansion();
    let labels = prepared.labels(alloc)?;
    let folder = Folder {
        alloc,
        grammar,
        origins: prepared.origins(),
        lowered: prepared.lowered(),
        labels: &labels,
    };
    let whole = TreePart {
        piece: Piece::Whole(tree),
        is_inside: false,
    };
    let mut trees = TreeList::new(alloc);
    if folder.fold_nonterminal(prepared.start_name(), whole, MOST_PASSES, &mut trees)? {
        Ok(trees.into_tree())
    } else {
        Err(FoldError::NotAdmitted)
    }
}
