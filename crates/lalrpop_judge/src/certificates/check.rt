//! The test of certificates.

ghost use Rattle.std.specs.Prelude.{◌≡◌, ◌↔◌, IsTrue, IfOk, option_map};
ghost use Rattle.lalrpop_grammar_symbols.specs.Views.{terminal_view};
ghost use Rattle.lalrpop_lr1_theory.specs.Spans.{leaf_spans};
ghost use Rattle.lalrpop_lr1_first.specs.FirstSetsOf.{IsProductionOf};
ghost use Rattle.lalrpop_lr1_interpret.specs.ExpandedViews.{expanded_view, expanded_views};
ghost use Rattle.lalrpop_judge.specs.Certificates.{AreCountedFrom, Certifies, MakesMove};
ghost use Rattle.lalrpop_judge.specs.CertificateViews.{certificate_view};
ghost use Rattle.lalrpop_judge.specs.MoveViews.{move_view};

use crate::certificates::certificate::Certificate;
use crate::certificates::entries::{are_counted, continue_by, is_same_name, place_behind};
use crate::certificates::moves::Move;
use crate::certificates::walk::{are_over, is_rooted};
use lalrpop_grammar_repr::Grammar;
use lalrpop_grammar_symbols::{NonterminalString, TerminalString};
use lalrpop_lr1_interpret::parse::ExpandedTree;
use std::alloc::{AllocError, Global};

/// Whether the tree, whole and from the start, makes the move behind the shared trees, with counted spans in them too.
fn makes_move(
    alloc: Global,
    grammar: &Grammar,
    start: &NonterminalString,
    shared: &[ExpandedTree<'_>],
    next: &Option<TerminalString>,
    name: &Move,
    tree: &ExpandedTree<'_>,
) -> Result<bool, AllocError>
    ensures { IfOk result (λ yes. IsTrue yes ↔ (MakesMove (IsProductionOf grammar.now) start.now.0 (expanded_views shared.now)
        (option_map terminal_view next.now) (move_view name.now) (expanded_view tree.now)
        × AreCountedFrom 0 (leaf_spans (expanded_views shared.now)))) }
{
    if !is_rooted(tree.root(), start) {
        return Ok(false);
    }
    let entries = tree.entries();
    if !are_counted(entries) {
        return Ok(false);
    }
    let Some(place) = place_behind(entries, shared) else {
        return Ok(false);
    };
    let (_, left) = entries.split_at(place);
    if !continue_by(left, next, name) {
        return Ok(false);
    }
    let over = are_over(alloc, grammar, entries)?;
    Ok(over)
}

/// Whether the certificate certifies a conflict of the grammar from the start. It reads the grammar's productions alone.
///
/// # Errors
///
/// Memory ran out.
pub fn check_conflict(
    alloc: Global,
    grammar: &Grammar,
    start: &NonterminalString,
    certificate: &Certificate<'_>,
) -> Result<bool, AllocError>
    ensures { IfOk result (λ yes. IsTrue yes
        ↔ Certifies (IsProductionOf grammar.now) start.now.0 (certificate_view certificate.now)) }
{
    if is_same_name(&certificate.move1, &certificate.move2) {
        return Ok(false);
    }
    let shared = certificate.shared.as_slice();
    let next = &certificate.next;
    let makes_first = makes_move(
        alloc,
        grammar,
        start,
        shared,
        next,
        &certificate.move1,
        &certificate.tree1,
    )?;
    if !makes_first {
        return Ok(false);
    }
    let makes_second = makes_move(
        alloc,
        grammar,
        start,
        shared,
        next,
        &certificate.move2,
        &certificate.tree2,
    )?;
    Ok(makes_second)
}
