//! The start.

ghost use Rattle.std.specs.Prelude.{◌≡◌, ◌⊎◌, Bool, IfErr, IfOk, List, Option, false, true};
ghost use Rattle.lalrpop_grammar_symbols.specs.Symbols.{Text};
ghost use Rattle.lalrpop_grammar.specs.Views.{grammar_view};
ghost use Rattle.lalrpop_grammar_language.specs.Enabled.{enabled_grammar};
ghost use Rattle.lalrpop_grammar_language.specs.Starts.{has_start};
ghost use Rattle.lalrpop_grammar_rules.specs.StartViews.{is_known, is_public_start};
ghost use Rattle.lalrpop_run_prepare.specs.Refused.{IsStartRefusal};

use crate::refusals::GenerateError;
use lalrpop_grammar::{Atom, Grammar};
use lalrpop_grammar_rules::{Rules, Start};
use std::alloc::{AllocError, Global};

/// Whether the name can be a start.
pub(crate) fn find_start(
    alloc: Global,
    features: &[Atom],
    start: &Atom,
    grammar: &Grammar,
) -> Result<Start, AllocError>
    ensures known { IfOk result (λ found. (finds : Text → Text → Option Bool) → is_known found
        ≡ has_start start.now false (enabled_grammar finds features.now (grammar_view grammar.now))) }
    ensures public { IfOk result (λ found. (finds : Text → Text → Option Bool) → is_public_start found
        ≡ has_start start.now true (enabled_grammar finds features.now (grammar_view grammar.now))) }
{
    let rules = Rules::new(alloc, grammar, features)?;
    Ok(rules.start(start.as_str()))
}

/// Refuses a name that can be no start, then one that no public rule has.
pub(crate) fn refuse_start(found: Start, start: &Atom) -> Result<(), GenerateError<'static>>
    ensures public { IfOk result (λ _. is_public_start found ≡ true) }
    ensures refused { IfErr result (λ error. (error ≡ GenerateError.Memory)
        ⊎ IsStartRefusal (is_known found) (is_public_start found) start.now error) }
{
    match found {
        Start::Unknown => Err(GenerateError::UnknownStart(start.try_clone()?)),
        Start::Private => Err(GenerateError::PrivateStart(start.try_clone()?)),
        Start::Public => Ok(()),
    }
}
