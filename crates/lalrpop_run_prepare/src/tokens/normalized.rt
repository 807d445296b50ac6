//! The refusals of a grammar and of its start, in their order, and the normalized grammar where none stands.

ghost use Rattle.std.specs.Prelude.{◌≡◌, ◌⊎◌, Bool, IfErr, IfOk, Option, false, true};
ghost use Rattle.lalrpop_grammar_symbols.specs.Symbols.{Text};
ghost use Rattle.lalrpop_grammar.specs.Views.{grammar_view};
ghost use Rattle.lalrpop_grammar_language.specs.Enabled.{enabled_grammar};
ghost use Rattle.lalrpop_grammar_language.specs.Starts.{has_start};
ghost use Rattle.lalrpop_grammar_rules.specs.Search.{finds, is_too_deep};
ghost use Rattle.lalrpop_grammar_rules.specs.StartViews.{is_known, is_public_start};
ghost use Rattle.lalrpop_norm_theory.specs.Premises.{IsReadGrammar};
ghost use Rattle.lalrpop_norm_lower.specs.TableReadiness.{IsReadyForTables};
ghost use Rattle.lalrpop_run_prepare.specs.Carried.{IsCarried};
ghost use Rattle.lalrpop_run_prepare.specs.Refused.{IsGrammarRefusal, IsUncarried};
ghost use Rattle.lalrpop_run_prepare.specs.Tokenizers.{IsNormalizedFor};

use crate::refusals::GenerateError;
use crate::tokens::carrying::refuse_uncarried;
use crate::tokens::starting::{find_start, refuse_start};
use lalrpop_grammar::{Atom, Grammar};
use lalrpop_grammar_repr::Session;
use lalrpop_grammar_rules::Start;
use lalrpop_lexer::dfa::Dfa;
use lalrpop_norm::{Normalized, normalize_with_dfa};
use std::alloc::Global;

/// Which rule can be the start, where nothing is there that isn't carried.
fn find_carried_start(
    alloc: Global,
    features: &[Atom],
    start: &Atom,
    grammar: &Grammar,
) -> Result<Start, GenerateError<'static>>
    ensures carried { IfOk result (λ _. (finds : Text → Text → Option Bool) → IsCarried finds features.now (grammar_view grammar.now)) }
    ensures known { IfOk result (λ found. (finds : Text → Text → Option Bool) → is_known found
        ≡ has_start start.now false (enabled_grammar finds features.now (grammar_view grammar.now))) }
    ensures public { IfOk result (λ found. (finds : Text → Text → Option Bool) → is_public_start found
        ≡ has_start start.now true (enabled_grammar finds features.now (grammar_view grammar.now))) }
    ensures refused { IfErr result (λ error. (error ≡ GenerateError.Memory)
        ⊎ ((finds : Text → Text → Option Bool) → IsUncarried finds features.now (grammar_view grammar.now) error)) }
{
    refuse_uncarried(alloc, features, grammar)?;
    Ok(find_start(alloc, features, start, grammar)?)
}

/// The normalized grammar and the automaton of its tokenizer's entries, where nothing is wrong with the grammar under the session's
/// features, nor with `start`, the rule to start from. Whatever grammar it is, tables can be made of its plain productions.
///
/// It is promised for a grammar as one is read, with any prefix of two or more underscores.
///
/// # Errors
///
/// The refusals in their order: an extern block, error recovery in an enabled alternative, a fault of the grammar with its place, a
/// start that no enabled rule without parameters can be, or no public one. `ConditionLimit` only where an alternative of a macro call
/// that is made is under `~~` or `!~`. Or `Memory`.
pub fn normalize_for_start(
    alloc: Global,
    session: &Session,
    start: &Atom,
    grammar: Grammar,
) -> Result<(Normalized, Dfa), GenerateError<'static>>
    ensures made { IfOk result (λ made. IsReadGrammar (grammar_view grammar)
        → IsNormalizedFor finds is_too_deep session.now.features.items session.now.macro_recursion_limit start.now
        (grammar_view grammar) made.0 made.1) }
    ensures ready { IfOk result (λ made. IsReadyForTables made.0.grammar) }
    ensures refused { IfErr result (λ error. IsReadGrammar (grammar_view grammar)
        → IsGrammarRefusal finds is_too_deep session.now.features.items session.now.macro_recursion_limit start.now
        (grammar_view grammar) error) }
{
    let features = session.features.as_slice();
    let found = find_carried_start(alloc, features, start, &grammar)?;
    let (made, dfa) = normalize_with_dfa(alloc, session, grammar)?;
    refuse_start(found, start)?;
    Ok((made, dfa))
}
