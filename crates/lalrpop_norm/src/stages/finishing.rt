//! The passes behind the one over macros.

ghost use Rattle.std.specs.Prelude.{IfErr, IfOk};
ghost use Rattle.lalrpop_grammar.specs.Views.{grammar_view};
ghost use Rattle.lalrpop_norm_token_check.specs.KeptPlaces.{first_places};
ghost use Rattle.lalrpop_norm_lower.specs.TableReadiness.{IsReadyForTables};
ghost use Rattle.lalrpop_norm_chain.specs.LoweredViews.{lowered_view};
ghost use Rattle.lalrpop_norm.specs.Stages.{DecidesEntriesOf, HasNoLaterFault, IsLaterFault, IsNormalizedWhereRead};

use lalrpop_grammar::Grammar;
use lalrpop_grammar_repr::{NormResult, Session};
use lalrpop_lexer::dfa::Dfa;
use lalrpop_norm_lower::{Normalized, lower};
use lalrpop_norm_token_check::{LiteralPlaces, token_check};
use lalrpop_norm_tyinfer::infer_types;
use std::alloc::Global;

/// What an expanded grammar is normalized to: its plain productions with their origins and the tokenizer's entries, and the
/// automaton of these entries. Whatever grammar it is, tables can be made of these productions. `places` says where literals stand
/// first in the written grammar without its disabled parts.
///
/// # Errors
///
/// What is wrong with tokens; where nothing is, what is wrong with types; where nothing is either, too many actions; each with its
/// place. Or `Memory`; never `ConditionLimit`.
pub fn finish_expanded(
    alloc: Global,
    session: &Session,
    grammar: Grammar,
    places: &LiteralPlaces,
) -> NormResult<(Normalized, Dfa)>
    ensures given { IfOk result (λ made. IsNormalizedWhereRead (grammar_view grammar) (lowered_view made.0)) }
    ensures decides { IfOk result (λ made. DecidesEntriesOf (grammar_view grammar) (lowered_view made.0) made.1) }
    ensures ready { IfOk result (λ made. IsReadyForTables made.0.grammar) }
    ensures none { IfOk result (λ made. HasNoLaterFault (first_places places.now) (grammar_view grammar)) }
    ensures refused { IfErr result (IsLaterFault (first_places places.now) (grammar_view grammar)) }
{
    let (checked, dfa) = token_check::validate_with_dfa(alloc, grammar, places)?;
    let types = infer_types(alloc, &checked)?;
    let made = lower(alloc, session, checked, types)?;
    Ok((made, dfa))
}
