//! From certificates to conflicts with trees of the written grammar.

ghost use Rattle.std.specs.Prelude.{◌≡◌, IfOk};
ghost use Rattle.lalrpop_grammar.specs.Views.{grammar_view};
ghost use Rattle.lalrpop_judge.specs.CertificateViews.{certificate_view};
ghost use Rattle.lalrpop_judge.specs.MoveViews.{move_view};
ghost use Rattle.lalrpop_norm_theory.specs.Premises.{IsReadGrammar};
ghost use Rattle.lalrpop_run_parser.specs.WrittenConflicts.{AreWrittenConflicts, HasTreesOf, HaveTreesOf, IsKindOf, IsWrittenConflict};

use crate::conflicts::written_conflict::{WrittenConflict, WrittenMove};
use crate::folding::{Prepared, unfold};
use lalrpop_grammar_symbols::TerminalString;
use lalrpop_judge::certificates::{Certificate, Move};
use std::alloc::{AllocError, Global};

/// A copy of what comes next.
fn next_copy(next: &Option<TerminalString>) -> Result<Option<TerminalString>, AllocError>
    ensures { IfOk result (λ copy. copy ≡ next.now) }
{
    match next {
        None => Ok(None),
        Some(terminal) => Ok(Some(terminal.try_clone()?)),
    }
}

/// The kind of the move.
fn kind_of(named: &Move) -> WrittenMove
    ensures { IsKindOf (move_view named.now) result }
{
    match named {
        Move::Shift(_) => WrittenMove::Shift,
        Move::Reduce(_) => WrittenMove::Reduce,
    }
}

/// The conflict that the certificate shows.
fn written_conflict(
    alloc: Global,
    prepared: &Prepared,
    certificate: &Certificate<'_>,
) -> Result<WrittenConflict, AllocError>
    ensures { IsReadGrammar (grammar_view prepared.now.written) → HasTreesOf prepared.now (certificate_view certificate.now)
        → IfOk result (IsWrittenConflict prepared.now (certificate_view certificate.now)) }
{
    let next = next_copy(&certificate.next)?;
    let tree1 = unfold(alloc, prepared, &certificate.tree1)?;
    let tree2 = unfold(alloc, prepared, &certificate.tree2)?;
    Ok(WrittenConflict {
        shared: certificate.shared.len(),
        next,
        move1: kind_of(&certificate.move1),
        tree1,
        move2: kind_of(&certificate.move2),
        tree2,
    })
}

/// The conflicts that the certificates show, in their order.
///
/// It is promised for a grammar as one is read, and for certificates whose trees are from its start over its productions.
///
/// # Errors
///
/// Memory is refused.
pub fn written_conflicts(
    alloc: Global,
    prepared: &Prepared,
    certificates: &[Certificate<'_>],
) -> Result<Vec<WrittenConflict>, AllocError>
    ensures { IsReadGrammar (grammar_view prepared.now.written)
        → HaveTreesOf prepared.now certificates.now → IfOk result (λ all. AreWrittenConflicts prepared.now certificates.now all.items) }
{
    let mut all = Vec::new(alloc);
    for certificate in certificates {
        let conflict = written_conflict(alloc, prepared, certificate)?;
        all.push(conflict)?;
    }
    Ok(all)
}
