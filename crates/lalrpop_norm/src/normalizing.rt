//! All passes of the normalizer, one after the other.

ghost use Rattle.std.specs.Prelude.{IfErr, IfOk};
ghost use Rattle.lalrpop_grammar.specs.Views.{grammar_view};
ghost use Rattle.lalrpop_grammar_rules.specs.Search.{finds, is_too_deep};
ghost use Rattle.lalrpop_lexer.specs.Simulation.{Decides};
ghost use Rattle.lalrpop_norm_chain.specs.Normalized.{IsNormalized};
ghost use Rattle.lalrpop_norm_token_check.specs.Patterns.{entry_patterns, entry_precedences};
ghost use Rattle.lalrpop_norm_lower.specs.TableReadiness.{IsReadyForTables};
ghost use Rattle.lalrpop_norm_chain.specs.LoweredViews.{lowered_view};
ghost use Rattle.lalrpop_norm.specs.Normalizing.{HasNoWrittenFault, IsNormalizable, TellsOfWritten};

use crate::stages::finish_expanded;
use lalrpop_grammar::Grammar;
use lalrpop_grammar_repr::{NormResult, Session};
use lalrpop_lexer::dfa::Dfa;
use lalrpop_norm_lower::Normalized;
use lalrpop_norm_macros::expand_macros;
use lalrpop_norm_precedence::levels::expand_precedence;
use lalrpop_norm_prevalidate::prevalidate;
use lalrpop_norm_resolve::names::resolve;
use lalrpop_norm_resolve::remove_disabled_decls;
use lalrpop_norm_token_check::LiteralPlaces;
use std::alloc::Global;

/// The grammar's plain productions, one for each choice of the written grammar that the session's features leave, each with its
/// origin and an action of its own; and the tokenizer's entries, of exactly the literals that these productions use.
///
/// It is promised for a grammar as one is read, with any prefix of two or more underscores, in which no enabled alternative has `!`.
/// Of whatever grammar the productions are, tables can be made of them.
///
/// # Errors
///
/// A fault that stands in the written grammar, with its place, where none of an earlier pass stands; `ConditionLimit` only where a
/// macro call that is made has an alternative under `~~` or `!~`; or `Memory`.
pub fn normalize(alloc: Global, session: &Session, grammar: Grammar) -> NormResult<Normalized>
    ensures given { IfOk result (λ made.
        IsNormalizable finds session.now.features.items (grammar_view grammar)
        → IsNormalized finds session.now.features.items (grammar_view grammar) (lowered_view made)) }
    ensures ready { IfOk result (λ made. IsReadyForTables made.grammar) }
    ensures none { IfOk result (λ made.
        IsNormalizable finds session.now.features.items (grammar_view grammar)
        → HasNoWrittenFault finds is_too_deep session.now.features.items session.now.macro_recursion_limit
        (grammar_view grammar)) }
    ensures refused { IfErr result (λ fault.
        IsNormalizable finds session.now.features.items (grammar_view grammar)
        → TellsOfWritten finds is_too_deep session.now.features.items session.now.macro_recursion_limit
        (grammar_view grammar) fault) }
{
    let (made, _) = normalize_with_dfa(alloc, session, grammar)?;
    Ok(made)
}

/// The same with the automaton of the tokenizer's entries, which decides their patterns by their precedences.
///
/// # Errors
///
/// Those of [`normalize`].
pub fn normalize_with_dfa(
    alloc: Global,
    session: &Session,
    grammar: Grammar,
) -> NormResult<(Normalized, Dfa)>
    ensures given { IfOk result (λ made.
        IsNormalizable finds session.now.features.items (grammar_view grammar)
        → IsNormalized finds session.now.features.items (grammar_view grammar) (lowered_view made.0)) }
    ensures decides { IfOk result (λ made.
        IsNormalizable finds session.now.features.items (grammar_view grammar)
        → Decides made.1 (entry_patterns (lowered_view made.0).entries)
        (entry_precedences (lowered_view made.0).entries)) }
    ensures ready { IfOk result (λ made. IsReadyForTables made.0.grammar) }
    ensures none { IfOk result (λ made.
        IsNormalizable finds session.now.features.items (grammar_view grammar)
        → HasNoWrittenFault finds is_too_deep session.now.features.items session.now.macro_recursion_limit
        (grammar_view grammar)) }
    ensures refused { IfErr result (λ fault.
        IsNormalizable finds session.now.features.items (grammar_view grammar)
        → TellsOfWritten finds is_too_deep session.now.features.items session.now.macro_recursion_limit
        (grammar_view grammar) fault) }
{
    prevalidate::validate(alloc, &grammar)?;
    let enabled = remove_disabled_decls(alloc, session, grammar)?;
    let places = LiteralPlaces::new(alloc, &enabled)?;
    let resolved = resolve(alloc, enabled)?;
    let leveled = expand_precedence(alloc, resolved)?;
    let expanded = expand_macros(alloc, leveled, session.macro_recursion_limit)?;
    finish_expanded(alloc, session, expanded, &places)
}
