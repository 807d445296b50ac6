//! What names stand for in a grammar: its rules and mapped bare names.

ghost use Rattle.std.specs.Prelude.{◌≡◌, IfOk};
ghost use Rattle.lalrpop_grammar.specs.Views.{grammar_view};
ghost use Rattle.lalrpop_grammar_language.specs.Enabled.{has_text};
ghost use Rattle.lalrpop_grammar_rules.specs.RuleTable.{HasBares};
ghost use Rattle.lalrpop_norm_tyinfer.specs.TypesByTable.{known_names};

use lalrpop_grammar::Grammar;
use lalrpop_grammar_rules::{add_name, bare_names, has_name};
use lalrpop_grammar_symbols::Atom;
use std::alloc::{AllocError, Global};
use std::collections::HashMap;

/// The names of a grammar's rules, and its mapped bare names.
#[derive(Drop)]
pub(crate) struct Names<'g> {
    /// The grammar.
    pub(crate) grammar: &'g Grammar,
    /// The names of its rules.
    rules: HashMap<&'g str, ()>,
    /// The bare names that its match blocks map to.
    bares: HashMap<&'g str, ()>,
    ghost rules_known: { HasBares rules (known_names (grammar_view grammar.now)).rules },
    ghost bares_known: { HasBares bares (known_names (grammar_view grammar.now)).bares },
}

/// The names of the grammar's rules.
fn rule_names<'g>(alloc: Global, grammar: &'g Grammar) -> Result<HashMap<&'g str, ()>, AllocError>
    ensures { IfOk result (λ made. HasBares made (known_names (grammar_view grammar.now)).rules) }
{
    let mut names = HashMap::new(alloc);
    for rule in grammar.rules() {
        add_name(&rule.name.0, &mut names)?;
    }
    Ok(names)
}

impl<'g> Names<'g> {
    ghost use Rattle.lalrpop_norm_tyinfer.specs.ProgramViews.{names_view};

    /// The names of the grammar.
    pub(crate) fn new(alloc: Global, grammar: &'g Grammar) -> Result<Names<'g>, AllocError>
        ensures { IfOk result (λ made. made.grammar.now ≡ grammar.now) }
    {
        let rules = rule_names(alloc, grammar)?;
        let bares = bare_names(alloc, grammar.items.as_slice())?;
        Ok(Names {
            grammar,
            rules,
            bares,
        })
    }

    /// Whether a rule has the name.
    pub(crate) fn is_rule(&self, name: &Atom) -> bool
        ensures { result ≡ has_text name.now (names_view self.now).rules }
    {
        has_name(&self.rules, name)
    }

    /// Whether a match block maps something to the name.
    pub(crate) fn is_bare(&self, name: &Atom) -> bool
        ensures { result ≡ has_text name.now (names_view self.now).bares }
    {
        has_name(&self.bares, name)
    }
}
