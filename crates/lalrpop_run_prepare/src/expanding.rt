//! The plain productions of a grammar after inlining, with the name of the start among them, where the start may be parsed from.

ghost use Rattle.std.specs.Prelude.{◌≡◌, ◌↔◌, ◌++◌, Contains, IfErr, IfOk, IsTrue};
ghost use Rattle.std.specs.List.{list_all};
ghost use Rattle.lalrpop_lr1_barren.specs.LeastBarren.{IsLeastBarren};
ghost use Rattle.lalrpop_lr1_core.specs.TheoryGrammars.{theory_grammar};
ghost use Rattle.lalrpop_lr1_first.specs.NumberedGrammars.{HasItsTerminals};
ghost use Rattle.lalrpop_lr1_inline.specs.InlinedGrammars.{IsInlinedGrammar};
ghost use Rattle.lalrpop_lr1_inline.specs.InliningSteps.{is_place};
ghost use Rattle.lalrpop_lr1_theory.specs.ValidItems.{NoneBarren};
ghost use Rattle.lalrpop_norm_lower.specs.TableReadiness.{IsReadyForTables};
ghost use Rattle.lalrpop_run_prepare.specs.PrepareRefusals.{IsRefusedExpansion, IsRefusedStart};
ghost use Rattle.lalrpop_run_prepare.specs.PreparedGrammars.{MayBeParsedFrom};
ghost use Rattle.lalrpop_run_prepare.specs.StartRules as pure;
ghost use Rattle.lalrpop_run_prepare.specs.StartRules.{IsStartOf};

use crate::inlining::inline_rules;
use crate::refusals::GenerateError;
use lalrpop_grammar::Atom;
use lalrpop_grammar_repr::{Grammar, NormError, NormErrorKind, Production, Symbol};
use lalrpop_grammar_symbols::{NonterminalString, Span};
use lalrpop_lr1_barren::barren_nonterminal;
use std::alloc::{AllocError, Global};

/// The name of the start among the plain productions: the prefix before the name of the rule.
fn name_of_start(
    alloc: Global,
    prefix: &Atom,
    start: &Atom,
) -> Result<NonterminalString, AllocError>
    ensures { IfOk result (λ name. name.0 ≡ prefix.now ++ start.now) }
{
    let text = format!(in alloc; "{prefix}{start}")?;
    Ok(NonterminalString(Atom::new(alloc, text.as_str())?))
}

/// The least nonterminal by name that the one with the name reaches before inlining, and of which no finite sentence comes.
fn barren_before_inlining(
    alloc: Global,
    lowered: &Grammar,
    name: &NonterminalString,
) -> Result<Option<NonterminalString>, AllocError>
    requires { IsReadyForTables lowered.now }
    ensures { IfOk result (IsLeastBarren (Contains (theory_grammar lowered.now)) name.now.0) }
{
    let found = barren_nonterminal(alloc, lowered, name)?;
    Ok(found)
}

/// The plain productions with the inlined rules inlined, where nothing that the start reaches is barren. That is found before inlining,
/// and told after what is wrong with inlining.
fn inline_reached(
    alloc: Global,
    lowered: &Grammar,
    start: &Atom,
    whole: Span,
) -> Result<Grammar, GenerateError<'static>>
    requires { IsReadyForTables lowered.now }
    ensures inlined { IfOk result (IsInlinedGrammar lowered.now) }
    ensures none { IfOk result (λ _. NoneBarren (Contains (theory_grammar lowered.now)) start.now) }
    ensures refused { IfErr result (IsRefusedExpansion whole lowered.now start.now) }
{
    let name = NonterminalString(start.try_clone()?);
    let barren = barren_before_inlining(alloc, lowered, &name)?;
    let expansion = inline_rules(alloc, lowered, whole)?;
    match barren {
        Some(nonterminal) => Err(GenerateError::Barren(nonterminal.into_atom())),
        None => Ok(expansion),
    }
}

/// Whether the symbol is the rule.
fn is_rule(symbol: &Symbol, rule: &Atom) -> bool
    ensures { result ≡ is_place rule.now symbol.now }
{
    match symbol {
        Symbol::Nonterminal(name) => name.0.as_str() == rule.as_str(),
        Symbol::Terminal(_) => false,
    }
}

/// Whether the rule stands alone on the right side.
fn is_rule_alone(side: &[Symbol], rule: &Atom) -> bool
    ensures { result ≡ pure.is_rule_alone rule.now side.now }
{
    match side {
        [] => false,
        [only] => is_rule(only, rule),
        [_, _, ..] => false,
    }
}

/// Whether the rule stands alone on the right side of each.
fn are_rule_alone(productions: &[Production], rule: &Atom) -> bool
    ensures { result ≡ list_all (λ p. pure.is_rule_alone rule.now p.symbols) productions.now }
{
    productions.iter().all(|production| is_rule_alone(production.symbols.as_slice(), rule))
}

/// Whether there are productions, and on the right side of each the rule stands alone.
fn leads_to_rule(productions: &[Production], rule: &Atom) -> bool
    ensures { result ≡ pure.leads_to_rule rule.now productions.now }
{
    match productions {
        [] => false,
        [_, ..] => are_rule_alone(productions, rule),
    }
}

/// Whether the start stands on no right side after inlining, and what it produces before it is the rule alone. It is so with a grammar as
/// one is read, which has no name that begins with the prefix.
fn is_start_of(
    lowered: &Grammar,
    expansion: &Grammar,
    name: &NonterminalString,
    rule: &Atom,
) -> bool
    ensures { IsTrue result ↔ IsStartOf rule.now lowered.now expansion.now name.now }
{
    expansion.start_is_alone(name) && leads_to_rule(lowered.productions_for(name), rule)
}

/// The plain productions with the inlined rules inlined, and the start's name among them: the prefix before the name of the rule to start
/// from. `whole` is where the grammar is written.
pub(crate) fn expand(
    alloc: Global,
    lowered: &Grammar,
    prefix: &Atom,
    start: &Atom,
    whole: Span,
) -> Result<(Grammar, NonterminalString), GenerateError<'static>>
    requires { IsReadyForTables lowered.now }
    ensures name { IfOk result (λ made. made.1.0 ≡ prefix.now ++ start.now) }
    ensures inlined { IfOk result (λ made. IsInlinedGrammar lowered.now made.0) }
    ensures terminals { IfOk result (λ made. HasItsTerminals made.0) }
    ensures parsed { IfOk result (λ made. MayBeParsedFrom made.0 made.1) }
    ensures none { IfOk result (λ _. NoneBarren (Contains (theory_grammar lowered.now)) start.now) }
    ensures refused { IfErr result (IsRefusedStart whole lowered.now prefix.now start.now) }
{
    let expansion = inline_reached(alloc, lowered, start, whole)?;
    let name = name_of_start(alloc, prefix, start)?;
    if !is_start_of(lowered, &expansion, &name, start) {
        return Err(GenerateError::Norm(NormError {
            kind: NormErrorKind::ReservedPrefix,
            span: whole,
        }));
    }
    // the names of nonterminals ascend
    lowered.nonterminals.known();
    Ok((expansion, name))
}
