//! What certificates show.

ghost use Rattle.lalrpop_judge.specs.Laws.{CertificatesRefute, CheckedConflictsRefute};

/// The law that a grammar is not LR(1) where a certificate shows a conflict of it: for any list of productions, and for
/// those of a grammar, as [`check_conflict`](crate::check_conflict) says yes of them.
pub fn certificates_refute()
    ensures lists { CertificatesRefute }
    ensures checked { CheckedConflictsRefute }
{}
