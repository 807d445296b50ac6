//! Which names can be a start.

ghost use Rattle.std.specs.Prelude.{◌≡◌, ◌||◌, ◌&&◌, map, not, true, false};
ghost use Rattle.std.specs.Str.{bytes_eq};
ghost use Rattle.std.specs.List.{list_any};
ghost use Rattle.lalrpop_grammar.specs.Views.{grammar_view, nonterminal_view, attribute_view, is_public};
ghost use Rattle.lalrpop_grammar.specs.WrittenGrammar.{rules_of};
ghost use Rattle.lalrpop_grammar_language.specs.Enabled.{enabled_rule, is_active};
ghost use Rattle.lalrpop_grammar_language.specs.Starts.{can_start, has_none, has_start};
ghost use Rattle.lalrpop_grammar_rules.specs.RuleTable.{rules_view};
ghost use Rattle.lalrpop_grammar_rules.specs.StartViews.{active_start, is_known, is_public_start};

use crate::enabling::cfg_active;
use crate::table::Rules;
use lalrpop_grammar::{Atom, Grammar, NonterminalData, Visibility};

/// Whether a name can be a start.
#[derive(Clone, Copy, PartialEq, Eq)]
pub enum Start {
    /// No enabled rule of that name is one without parameters.
    Unknown,
    /// Some is, but none of them is public.
    Private,
    /// Some public one is.
    Public,
}

impl<'g> Rules<'g> {
    /// Whether the name can be a start: whether some enabled rule of that name has no parameters, and whether one of
    /// these is public. Several rules may have the name.
    pub fn start(&self, name: &str) -> Start
        ensures known { is_known result ≡ has_start name.now false (rules_view self.now) }
        ensures public { is_public_start result ≡ has_start name.now true (rules_view self.now) }
    {
        if has_start(self.features, self.grammar, name, true) {
            return Start::Public;
        }
        if has_start(self.features, self.grammar, name, false) {
            return Start::Private;
        }
        Start::Unknown
    }
}

/// Whether an enabled rule that is no macro has the name; with `public`, whether a public one has it.
fn has_start(features: &[Atom], grammar: &Grammar, name: &str, public: bool) -> bool
    ensures { result ≡ list_any (active_start features.now name.now public) (rules_of (grammar_view grammar.now).items) }
{
    for rule in grammar.rules() {
        if can_start(features, rule, name, public) {
            return true;
        }
    }
    false
}

fn can_start(features: &[Atom], rule: &NonterminalData, name: &str, public: bool) -> bool
    ensures { result ≡ active_start features.now name.now public (nonterminal_view rule.now) }
{
    cfg_active(features, rule.attributes.as_slice())
        && rule.name.0.as_str() == name
        && has_no_parameters(rule)
        && is_open(rule, public)
}

fn has_no_parameters(rule: &NonterminalData) -> bool
    ensures { result ≡ has_none (map (λ n. n.0) rule.now.args) }
{
    rule.args.is_empty()
}

/// Whether the rule is public, where that is asked.
fn is_open(rule: &NonterminalData, public: bool) -> bool
    ensures { result ≡ (not public || is_public rule.now.visibility) }
{
    match rule.visibility {
        Visibility::Pub | Visibility::PubIn(_) => true,
        Visibility::Priv => !public,
    }
}
