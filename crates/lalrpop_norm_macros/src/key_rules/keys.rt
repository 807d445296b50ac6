//! The rules of all keys of a table.

ghost use Rattle.std.specs.Prelude.{◌≡◌, IfErr, IfOk, map};
ghost use Rattle.lalrpop_grammar_symbols.specs.Views.{span_view};
ghost use Rattle.lalrpop_grammar.specs.Views.{grammar_view, nonterminal_view};
ghost use Rattle.lalrpop_grammar.specs.WrittenGrammar.{rules_of};
ghost use Rattle.lalrpop_grammar_rules.specs.RuleTable.{IsTable};
ghost use Rattle.lalrpop_norm_macros.specs.WrittenRules.{HasWritten};
ghost use Rattle.lalrpop_grammar_rules.specs.Views.{closed_view};
ghost use Rattle.lalrpop_norm_keys.specs.Tables.{IsKeyIndex, table_keys};
ghost use Rattle.lalrpop_norm_macros.specs.KeyRuleLaws.{AreRulesUnderNames, TellsOfRightKeys};
ghost use Rattle.lalrpop_norm_macros.specs.KeyNaming.{IsNameAt};
ghost use Rattle.lalrpop_norm_macros.specs.WrittenKeys.{AreReady, AreRulesOfKeys, TellsOfOneKey, span_of_key};

use crate::key_rules::rules::{KeyRules, key_rule};
use crate::key_symbols::{KeyNames, written_rules};
use lalrpop_grammar::{Grammar, NonterminalData};
use lalrpop_grammar_repr::NormFault;
use lalrpop_grammar_rules::Rules;
use lalrpop_grammar_rules::closed::{ClosedSymbol, Finder};
use lalrpop_grammar_symbols::{Atom, List, Span};
use lalrpop_norm_keys::key_table::KeyTable;
use std::alloc::Global;

/// The span at the place, or the other one where there is none.
fn span_of(spans: &[Span], place: usize, otherwise: Span) -> Span
    ensures { span_view result ≡ span_of_key spans.now (span_view otherwise) place }
{
    match spans.get(place) {
        Some(span) => *span,
        None => otherwise,
    }
}

/// The name of the key at the place.
fn name_at<'k>(names: &KeyNames<'k>, place: usize) -> Option<&'k Atom>
    ensures { IsNameAt names.now place result }
{
    names.names.get(place)
}

/// The rules of the keys, in order.
fn all_key_rules<F: Finder>(
    alloc: Global,
    finder: &F,
    tables: &KeyRules<'_, '_>,
    keys: &[ClosedSymbol],
    spans: &[Span],
    otherwise: Span,
) -> Result<List<NonterminalData>, NormFault>
    requires ready { AreReady tables.now }
    requires all { map closed_view keys.now ≡ table_keys tables.now.names.now.keys.now }
    ensures made { IfOk result (λ made. AreRulesOfKeys tables.now (F.finds finder.now) spans.now (span_view otherwise)
        (map closed_view keys.now) (map nonterminal_view made)) }
    ensures fault { IfErr result (TellsOfOneKey tables.now (F.finds finder.now) (F.too_deep finder.now)
        (map closed_view keys.now)) }
{
    let mut made = List::new(alloc);
    for place in 0..keys.len() {
        let Some(name) = name_at(tables.names, place) else {
            return Ok(made);
        };
        let span = span_of(spans, place, otherwise);
        made.push(key_rule(alloc, finder, tables, &keys[place], name, span)?)?;
    }
    Ok(made)
}

/// The rules of the keys of the grammar, by tables of it.
fn finished_rules<F: Finder>(
    alloc: Global,
    finder: &F,
    grammar: &Grammar,
    tables: &KeyRules<'_, '_>,
    spans: &[Span],
) -> Result<List<NonterminalData>, NormFault>
    requires ready { AreReady tables.now }
    requires of_grammar { grammar_view tables.now.rules.now.grammar.now ≡ grammar_view grammar.now }
    requires written { HasWritten tables.now.written.now (rules_of (grammar_view grammar.now).items) }
    ensures made { IfOk result (λ made. AreRulesUnderNames (F.finds finder.now) tables.now.rules.now.features.now
        (grammar_view grammar.now) (table_keys tables.now.names.now.keys.now) tables.now.names.now.names.now
        (span_of_key spans.now (span_view grammar.now.span)) (map nonterminal_view made)) }
    ensures fault { IfErr result (TellsOfRightKeys (F.finds finder.now) (F.too_deep finder.now)
        tables.now.rules.now.features.now (grammar_view grammar.now) (table_keys tables.now.names.now.keys.now)) }
{
    let keys = tables.names.keys.keys();
    all_key_rules(alloc, finder, tables, keys, spans, grammar.span)
}

/// The rules of the keys of a grammar between two passes, one for each in order, under these names. A call's rule is the called
/// macro's in an instance: it has the alternatives whose conditions hold for the arguments, and keeps the macro's span, attributes and
/// declared type with parameters put in; a rule without parameters keeps who may use it. `X+` is `X` or `X+ X`, `X*` is nothing or
/// `X+`, `X?` is `X` or nothing, a group is its symbols, and lookarounds have none; all of these but `X+` are inlined. The table is of
/// the grammar's rules, under features that disable nothing. `spans` says where each key is met first, in order; a key without one is
/// written where the grammar is.
///
/// # Errors
///
/// A condition can't be asked, or memory runs out.
pub fn key_rules<F: Finder>(
    alloc: Global,
    finder: &F,
    grammar: &Grammar,
    rules: &Rules<'_>,
    keys: &KeyTable,
    names: &[Atom],
    spans: &[Span],
) -> Result<List<NonterminalData>, NormFault>
    requires table { IsTable rules.now }
    requires of_grammar { grammar_view rules.now.grammar.now ≡ grammar_view grammar.now }
    requires index { IsKeyIndex keys.now }
    ensures made { IfOk result (λ made. AreRulesUnderNames (F.finds finder.now) rules.now.features.now (grammar_view grammar.now)
        (table_keys keys.now) names.now (span_of_key spans.now (span_view grammar.now.span)) (map nonterminal_view made)) }
    ensures fault { IfErr result (TellsOfRightKeys (F.finds finder.now) (F.too_deep finder.now) rules.now.features.now
        (grammar_view grammar.now) (table_keys keys.now)) }
{
    let written = written_rules(alloc, grammar)?;
    let names = KeyNames { keys, names };
    let tables = KeyRules {
        rules,
        written: &written,
        names: &names,
    };
    finished_rules(alloc, finder, grammar, &tables, spans)
}
