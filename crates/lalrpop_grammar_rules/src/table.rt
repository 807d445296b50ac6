//! The enabled rules of a grammar and its mapped bare names, found by name.

ghost use Rattle.std.specs.Prelude.{◌≡◌, ◌||◌, [], ◌∷◌, IfOk, OnOk, if◌then◌else◌, option_map};
ghost use Rattle.std.specs.Str.{bytes_eq};
ghost use Rattle.lalrpop_grammar_symbols.specs.Symbols.{Text};
ghost use Rattle.lalrpop_grammar.specs.Views.{nonterminal_view, grammar_view};
ghost use Rattle.lalrpop_grammar.specs.WrittenGrammar.{rules_of};
ghost use Rattle.lalrpop_grammar_language.specs.Enabled.{bares_of, enabled_rule, has_text};
ghost use Rattle.lalrpop_grammar_rules.specs.Details.{kept_rule_view};
ghost use Rattle.lalrpop_grammar_rules.specs.RuleTable.{IsMeaning, IsOnlyRule, IsTable, rule_entry_at, rule_entry, entry_with_rules, IsOfGrammar, rules_named_in, one_more, only_of};

use crate::bares::bare_names;
use crate::enabling::cfg_active;
use crate::rule::EnabledRule;
use lalrpop_grammar::{Atom, Grammar, NonterminalData};
use std::alloc::{AllocError, Global};
use std::collections::HashMap;

/// The enabled rules of a grammar and its mapped bare names, found by name.
#[derive(Drop)]
pub struct Rules<'g> {
    pub(crate) grammar: &'g Grammar,
    pub(crate) features: &'g [Atom],
    /// The name of each enabled rule, with none where several rules have the name.
    by_name: HashMap<&'g str, Option<EnabledRule<'g>>>,
    bares: HashMap<&'g str, ()>,
}

/// What a name that is no parameter stands for.
#[derive(Clone, Copy)]
pub enum Meaning<'r, 'g> {
    /// The only rule of that name.
    Rule(&'r EnabledRule<'g>),
    /// A mapped bare name.
    Terminal,
    /// Several rules, or nothing.
    Unclear,
}

impl<'g> Rules<'g> {
    /// The rules that the features enable: `features` are the names for which `feature = "name"` holds.
    pub fn new(
        alloc: Global,
        grammar: &'g Grammar,
        features: &'g [Atom],
    ) -> Result<Rules<'g>, AllocError>
        ensures made { IfOk result IsTable }
        ensures of_grammar { IfOk result (IsOfGrammar features.now (grammar_view grammar.now)) }
    {
        let by_name = named_rules(alloc, features, grammar)?;
        let bares = bare_names(alloc, grammar.items.as_slice())?;
        Ok(Rules {
            grammar,
            features,
            by_name,
            bares,
        })
    }

    /// What the name stands for.
    pub fn meaning<'r>(&'r self, name: &Atom) -> Meaning<'r, 'g>
        requires { IsTable self.now }
        ensures { IsMeaning self.now name.now result }
    {
        match self.by_name.get(name.as_str()) {
            Some(entry) => match entry {
                Some(rule) => Meaning::Rule(rule),
                None => Meaning::Unclear,
            },
            None => {
                if self.is_bare(name) {
                    Meaning::Terminal
                } else {
                    Meaning::Unclear
                }
            }
        }
    }

    /// The rule of that name, where it is the only one.
    pub fn find<'r>(&'r self, name: &Atom) -> Option<&'r EnabledRule<'g>>
        requires { IsTable self.now }
        ensures { IsOnlyRule self.now name.now result }
    {
        match self.meaning(name) {
            Meaning::Rule(rule) => Some(rule),
            Meaning::Terminal => None,
            Meaning::Unclear => None,
        }
    }

    /// Whether a match block maps something to that bare name.
    pub fn is_bare(&self, name: &Atom) -> bool
        requires { IsTable self.now }
        ensures { result ≡ has_text name.now (bares_of (grammar_view self.now.grammar.now).items) }
    {
        self.bares.contains_key(name.as_str())
    }
}

/// The enabled rules by their names.
fn named_rules<'g>(
    alloc: Global,
    features: &[Atom],
    grammar: &'g Grammar,
) -> Result<HashMap<&'g str, Option<EnabledRule<'g>>>, AllocError>
    ensures { IfOk result (λ by_name. (n : Text) → rule_entry_at features.now by_name n
        ≡ only_of (rules_named_in features.now (rules_of (grammar_view grammar.now).items) n)) }
{
    let mut by_name = HashMap::new(alloc);
    for rule in grammar.rules() {
        add_enabled(alloc, features, rule, &mut by_name)?;
    }
    Ok(by_name)
}

/// Adds the rule, where it is an enabled one.
fn add_enabled<'g>(
    alloc: Global,
    features: &[Atom],
    rule: &'g NonterminalData,
    by_name: &mut HashMap<&'g str, Option<EnabledRule<'g>>>,
) -> Result<(), AllocError>
    ensures { OnOk result ((n : Text) → rule_entry_at features.now by_name.new n
        ≡ entry_with_rules (rule_entry_at features.now by_name.old n)
        (rules_named_in features.now (nonterminal_view rule.now ∷ []) n)) }
{
    if !cfg_active(features, rule.attributes.as_slice()) {
        return Ok(());
    }
    add_rule(alloc, features, rule, by_name)
}

/// Adds the rule, unless one of its name stands there.
fn add_rule<'g>(
    alloc: Global,
    features: &[Atom],
    written: &'g NonterminalData,
    by_name: &mut HashMap<&'g str, Option<EnabledRule<'g>>>,
) -> Result<(), AllocError>
    ensures { OnOk result ((n : Text) → rule_entry_at features.now by_name.new n
        ≡ (if bytes_eq written.now.name.0 n
        then one_more (rule_entry_at features.now by_name.old n)
        (enabled_rule features.now (nonterminal_view written.now))
        else rule_entry_at features.now by_name.old n)) }
{
    let name = written.name.0.as_str();
    let is_known = by_name.contains_key(name);
    let entry = new_entry(alloc, features, written, is_known)?;
    by_name.insert(name, entry)?;
    Ok(())
}

/// What a name stands for with the rule, where it stood for something or not.
fn new_entry<'g>(
    alloc: Global,
    features: &[Atom],
    written: &'g NonterminalData,
    is_known: bool,
) -> Result<Option<EnabledRule<'g>>, AllocError>
    ensures { IfOk result (λ entry. option_map (kept_rule_view features.now) entry
        ≡ rule_entry is_known (enabled_rule features.now (nonterminal_view written.now))) }
{
    if is_known {
        return Ok(None);
    }
    let rule = EnabledRule::new(alloc, features, written)?;
    Ok(Some(rule))
}
