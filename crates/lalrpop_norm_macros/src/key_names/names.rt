//! Names for the keys of a grammar.

ghost use Rattle.std.specs.Prelude.{◌≡◌, Bool, IfOk, OnOk, Option, map, option_map};
ghost use Rattle.lalrpop_grammar_symbols.specs.Symbols.{Text};
ghost use Rattle.lalrpop_grammar.specs.Views.{grammar_view, nonterminal_view};
ghost use Rattle.lalrpop_grammar.specs.WrittenGrammar.{rules_of};
ghost use Rattle.lalrpop_grammar_rules.specs.Views.{closed_view};
ghost use Rattle.lalrpop_norm_theory.specs.Between.{grammar_between};
ghost use Rattle.lalrpop_norm_theory.specs.Keys.{before_tilde, flat_key_text, with_number};
ghost use Rattle.lalrpop_norm_keys.specs.Tables.{IsKeyIndex, table_keys};
ghost use Rattle.lalrpop_norm_theory.specs.LevelNames.{times_taken};
ghost use Rattle.lalrpop_norm_precedence.specs.GivenNames.{once_more};
ghost use Rattle.lalrpop_norm_macros.specs.KeyNames.{HasFoundKeys, HoldKeyNames, IsNameable};
ghost use Rattle.lalrpop_norm_macros.specs.OrderedNames.{key_name, key_names_from, key_names_of, rule_alone, rule_text, rule_texts};
ghost use Rattle.lalrpop_norm_macros.specs.OrderedNames.{taken_behind_key, taken_behind_keys};
ghost use Rattle.lalrpop_norm_macros.specs.TextTimes.{times_of_texts};

use lalrpop_grammar::{Grammar, NonterminalData};
use lalrpop_grammar_rules::closed::ClosedSymbol;
use lalrpop_grammar_symbols::{Atom, List};
use lalrpop_norm_keys::key_table::{KeyTable, key_text};
use lalrpop_norm_precedence::level_names::TakenTexts;
use std::alloc::{AllocError, Global};

/// The name without its tail from the first tilde on.
#[tactic(auto, using(lalrpop_norm_keys::proofs::TildeLemmas::cut_at_tilde, lalrpop_norm_keys::proofs::TildeLemmas::no_tilde))]
fn without_number(name: &str) -> &str
    ensures { result.now ≡ before_tilde name.now }
{
    match name.split_once('~') {
        Some((front, _)) => front,
        None => name,
    }
}

/// The text that the rule takes: a macro its name, another rule its name without the number behind the tilde.
fn text_of_rule(rule: &NonterminalData) -> &str
    ensures { result.now ≡ rule_text (nonterminal_view rule.now).parameters (nonterminal_view rule.now).name }
{
    let name = rule.name.0.as_str();
    match rule.args.as_slice() {
        [] => without_number(name),
        [_, ..] => name,
    }
}

/// The texts that the grammar's rules take.
fn texts_of_rules(alloc: Global, grammar: &Grammar) -> Result<TakenTexts, AllocError>
    ensures { IfOk result (λ taken. (text : Text) → times_of_texts taken text
        ≡ times_taken text (rule_texts (rules_of (grammar_view grammar.now).items))) }
{
    let mut taken = TakenTexts::new(alloc);
    for rule in grammar.rules() {
        let text = Atom::new(alloc, text_of_rule(rule))?;
        taken.take(&text)?;
    }
    Ok(taken)
}

/// The text with a number behind a tilde, where names have taken it so often before.
fn name_for(alloc: Global, text: Atom, before: u64) -> Result<Atom, AllocError>
    ensures { IfOk result (λ name. name ≡ with_number text before) }
{
    if before == 0 {
        return Ok(text);
    }
    let Some(time) = before.checked_add(1) else {
        return Err(AllocError);
    };
    let name = format!(in alloc; "{text}~{time}")?;
    Atom::new(alloc, name.as_str())
}

/// The key's text, with a number where it is taken; it is taken once more then.
fn text_as_name(
    alloc: Global,
    key: &ClosedSymbol,
    taken: &mut TakenTexts,
) -> Result<Atom, AllocError>
    ensures named { IfOk result (λ name. name ≡ with_number (flat_key_text (closed_view key.now))
        (times_of_texts taken.old (flat_key_text (closed_view key.now)))) }
    ensures taken { OnOk result (times_of_texts taken.new
        ≡ once_more (flat_key_text (closed_view key.now)) (times_of_texts taken.old)) }
{
    let printed = key_text(alloc, key)?;
    let text = Atom::new(alloc, printed.as_str())?;
    let before = taken.take(&text)? - 1;
    name_for(alloc, text, before)
}

/// The name of the rule that the key calls without arguments.
fn name_alone(key: &ClosedSymbol) -> Option<&Atom>
    ensures { option_map (λ name. name.now) result ≡ rule_alone (closed_view key.now) }
{
    match key {
        ClosedSymbol::Call(name, args, _) => match args.as_slice() {
            [] => Some(name),
            [_, ..] => None,
        },
        ClosedSymbol::Terminal(_) => None,
        ClosedSymbol::Repeat(_, _) => None,
        ClosedSymbol::Group(_) => None,
        ClosedSymbol::Choose(_) => None,
        ClosedSymbol::Name(_, _) => None,
        ClosedSymbol::Lookahead => None,
        ClosedSymbol::Lookbehind => None,
        ClosedSymbol::Faulty => None,
    }
}

/// The name of the key, and what is taken then.
fn name_of_key(
    alloc: Global,
    key: &ClosedSymbol,
    taken: &mut TakenTexts,
) -> Result<Atom, AllocError>
    ensures named { IfOk result (λ name. name ≡ key_name (times_of_texts taken.old) (closed_view key.now)) }
    ensures taken { OnOk result (times_of_texts taken.new
        ≡ taken_behind_key (times_of_texts taken.old) (closed_view key.now)) }
{
    match name_alone(key) {
        Some(name) => name.try_clone(),
        None => text_as_name(alloc, key, taken),
    }
}

/// The names of the keys, one after another.
fn names_of_keys(
    alloc: Global,
    keys: &[ClosedSymbol],
    taken: &mut TakenTexts,
) -> Result<List<Atom>, AllocError>
    ensures named { IfOk result (λ names. names ≡ key_names_from (times_of_texts taken.old) (map closed_view keys.now)) }
    ensures taken { OnOk result (times_of_texts taken.new
        ≡ taken_behind_keys (times_of_texts taken.old) (map closed_view keys.now)) }
{
    let mut names = List::new(alloc);
    for key in keys {
        let name = name_of_key(alloc, key, taken)?;
        names.push(name)?;
    }
    Ok(names)
}

/// The names of the grammar's keys, in order. A rule alone keeps its name. Each other key is called by its text, or by its text
/// with `~2`, `~3` and so on: the next number that is free for that text. What rules and macros are called is taken.
///
/// # Errors
///
/// Memory runs out.
pub fn key_names(
    alloc: Global,
    grammar: &Grammar,
    keys: &KeyTable,
) -> Result<List<Atom>, AllocError>
    requires { IsKeyIndex keys.now }
    ensures order { IfOk result (λ names.
        names ≡ key_names_of (rules_of (grammar_view grammar.now).items) (table_keys keys.now)) }
    ensures names { IfOk result (λ names. (finds : Text → Text → Option Bool)
        → IsNameable (grammar_between finds (grammar_view grammar.now))
        → HasFoundKeys (grammar_between finds (grammar_view grammar.now)) (table_keys keys.now)
        → HoldKeyNames (grammar_between finds (grammar_view grammar.now)) (table_keys keys.now) names) }
{
    let mut taken = texts_of_rules(alloc, grammar)?;
    names_of_keys(alloc, keys.keys(), &mut taken)
}
