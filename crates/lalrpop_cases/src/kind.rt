//! Kinds of cases.

use crate::{conflicts, runs};
use anyhow::Result;
use lalrpop_case_kinds::files::Tally;
use std::alloc::Global;
use std::rt::Files;

/// A kind of cases.
#[derive(Clone, Copy)]
pub(crate) enum Kind {
    /// Runs of the program.
    Runs,
    /// Single calls.
    Calls,
    /// Written grammars, asked of the normalizer.
    Normalizing,
    /// Plain productions, asked of the tables.
    Tables,
    /// Grammars with conflicts, each shown by certificates.
    Conflicts,
}

impl Kind {
    /// The kind with the name.
    pub(crate) fn from_name(name: &str) -> Option<Kind> {
        match name {
            "runs" => Some(Kind::Runs),
            "calls" => Some(Kind::Calls),
            "normalizing" => Some(Kind::Normalizing),
            "tables" => Some(Kind::Tables),
            "conflicts" => Some(Kind::Conflicts),
            _ => None,
        }
    }

    /// How many cases of the file pass, which are of this kind; each of the others is told.
    pub(crate) fn run_tally<R: Alloc<A = Global> + Files + Print>(
        self,
        rt: &R,
        file: &str,
    ) -> Result<Tally> {
        match self {
            Kind::Runs => runs::run_tally(rt, file),
            Kind::Calls => lalrpop_case_kinds::calls::run_tally(rt, file),
            Kind::Normalizing => lalrpop_case_kinds::normalizing::run_tally(rt, file),
            Kind::Tables => lalrpop_table_cases::run_tally(rt, file),
            Kind::Conflicts => conflicts::run_tally(rt, file),
        }
    }
}
