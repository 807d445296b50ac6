//! Certificates that are held against the definitions they are of: the test of certificates, the judge, and folding.

use crate::conflicts::difference::Difference;
use lalrpop_grammar::WrittenTree;
use lalrpop_judge::judge_tree;
use lalrpop_lr1_interpret::parse::ExpandedTree;
use lalrpop_run_parser::conflicts::{FoldError, WrittenConflict, fold, written_conflicts};
use lalrpop_run_parser::{Certificate, Prepared, check_conflict};
use std::alloc::Global;

/// Sees that the certificates are accepted, and that both trees of each, unfolded, are admitted and folded again to as many leaves and nodes.
pub(crate) fn see_all(
    alloc: Global,
    prepared: &Prepared,
    certificates: &[Certificate<'_>],
) -> Result<(), Difference> {
    let written = written_conflicts(alloc, prepared, certificates)?;
    see_each(alloc, prepared, certificates, written.as_slice())
}

/// Sees each certificate with the conflict that it stands for.
fn see_each(
    alloc: Global,
    prepared: &Prepared,
    certificates: &[Certificate<'_>],
    conflicts: &[WrittenConflict],
) -> Result<(), Difference> {
    for (certificate, conflict) in certificates.iter().zip(conflicts) {
        see_one(alloc, prepared, certificate, conflict)?;
    }
    Ok(())
}

/// Sees that the certificate is accepted, and both trees of the conflict.
fn see_one(
    alloc: Global,
    prepared: &Prepared,
    certificate: &Certificate<'_>,
    conflict: &WrittenConflict,
) -> Result<(), Difference> {
    see_accepted(alloc, prepared, certificate)?;
    see_tree(alloc, prepared, &certificate.tree1, &conflict.tree1)?;
    see_tree(alloc, prepared, &certificate.tree2, &conflict.tree2)
}

/// Sees that the certificate is accepted.
pub(crate) fn see_accepted(
    alloc: Global,
    prepared: &Prepared,
    certificate: &Certificate<'_>,
) -> Result<(), Difference> {
    let grammar = prepared.expansion();
    if check_conflict(alloc, grammar, prepared.start_name(), certificate)? {
        Ok(())
    } else {
        Err(Difference::NotAccepted)
    }
}

/// Sees that the written tree is admitted, and folded to as many leaves and nodes as the tree has that it was unfolded from.
fn see_tree(
    alloc: Global,
    prepared: &Prepared,
    expanded: &ExpandedTree<'_>,
    tree: &WrittenTree,
) -> Result<(), Difference> {
    see_admitted(alloc, prepared, tree)?;
    match folded_count(alloc, prepared, tree) {
        Ok(count) if count == expanded.node_count() => Ok(()),
        Ok(_) | Err(FoldError::NotAdmitted) => Err(Difference::NotFolded),
        Err(FoldError::Memory) => Err(Difference::Memory),
    }
}

/// Sees that the written tree is admitted.
fn see_admitted(alloc: Global, prepared: &Prepared, tree: &WrittenTree) -> Result<(), Difference> {
    match judge_tree(alloc, prepared.grammar(), &[], prepared.start(), tree) {
        Ok(true) => Ok(()),
        _ => Err(Difference::NotAdmitted),
    }
}

/// How many leaves and nodes the tree has to which the written tree is folded.
fn folded_count(
    alloc: Global,
    prepared: &Prepared,
    tree: &WrittenTree,
) -> Result<usize, FoldError> {
    let folded = fold(alloc, prepared, tree)?;
    Ok(folded.node_count())
}
