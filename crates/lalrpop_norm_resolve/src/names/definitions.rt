//! What names stand for: the rules of a grammar, its macros and mapped bare names, and the parameters of a rule.

ghost use Rattle.std.specs.Prelude.{◌≡◌};
ghost use Rattle.lalrpop_grammar.specs.Views.{grammar_view, nonterminal_view};
ghost use Rattle.lalrpop_grammar_rules.specs.RuleTable.{HasBares};
ghost use Rattle.lalrpop_norm_theory.specs.Resolving.{defined_names};

use crate::names::rule_names::{add_rule, known_parameters};
use lalrpop_grammar::{Grammar, NonterminalData};
use lalrpop_grammar_repr::NormFault;
use lalrpop_grammar_rules::{bare_names, has_name};
use lalrpop_grammar_symbols::Atom;
use std::alloc::{AllocError, Global};
use std::collections::HashMap;

/// The names that a grammar defines.
#[derive(Drop)]
pub(crate) struct Definitions<'g> {
    /// The grammar.
    pub(crate) grammar: &'g Grammar,
    /// The rules that are no macros.
    plain: HashMap<&'g str, ()>,
    /// The macros.
    macros: HashMap<&'g str, ()>,
    /// The mapped bare names.
    pub(crate) bares: HashMap<&'g str, ()>,
    ghost plain_known: { HasBares plain (defined_names (grammar_view grammar.now)).plain },
    ghost macros_known: { HasBares macros (defined_names (grammar_view grammar.now)).macros },
    ghost bares_known: { HasBares bares (defined_names (grammar_view grammar.now)).bares },
}

/// What names stand for in a rule.
#[derive(Drop)]
pub(crate) struct Scope<'s, 'g> {
    /// The names that the grammar defines.
    pub(crate) definitions: &'s Definitions<'g>,
    /// The rule.
    pub(crate) rule: &'g NonterminalData,
    /// Its parameters.
    parameters: HashMap<&'g str, ()>,
    ghost parameters_known: { HasBares parameters (nonterminal_view rule.now).parameters },
}

/// What a name stands for.
#[derive(Clone, Copy)]
pub(crate) enum NameUse {
    /// A parameter of the rule.
    Parameter,
    /// A rule that is no macro.
    PlainRule,
    /// A macro.
    MacroRule,
    /// A mapped bare name.
    Mapped,
    /// Nothing.
    Nothing,
}

impl<'g> Definitions<'g> {
    ghost use Rattle.std.specs.Prelude.{[], IfOk};
    ghost use Rattle.lalrpop_grammar_language.specs.Enabled.{has_text};
    ghost use Rattle.lalrpop_norm_theory.specs.Resolving.{use_of_name};
    ghost use Rattle.lalrpop_norm_resolve.specs.NameViews.{definition_names, name_use_view};

    /// The names that the grammar defines.
    pub(crate) fn new(alloc: Global, grammar: &'g Grammar) -> Result<Definitions<'g>, AllocError>
        ensures { IfOk result (λ made. made.grammar.now ≡ grammar.now) }
    {
        let mut plain = HashMap::new(alloc);
        let mut macros = HashMap::new(alloc);
        for rule in grammar.rules() {
            add_rule(rule, &mut plain, &mut macros)?;
        }
        let bares = bare_names(alloc, grammar.items.as_slice())?;
        Ok(Definitions {
            grammar,
            plain,
            macros,
            bares,
        })
    }

    /// Whether a match block maps something to that bare name.
    pub(crate) fn is_bare(&self, name: &Atom) -> bool
        ensures { result ≡ has_text name.now (definition_names self.now).bares }
    {
        has_name(&self.bares, name)
    }

    /// What the name stands for, where no parameter hides it.
    pub(crate) fn use_of(&self, name: &Atom) -> NameUse
        ensures { name_use_view result ≡ use_of_name (definition_names self.now) [] name.now }
    {
        if has_name(&self.plain, name) {
            NameUse::PlainRule
        } else if has_name(&self.macros, name) {
            NameUse::MacroRule
        } else if self.is_bare(name) {
            NameUse::Mapped
        } else {
            NameUse::Nothing
        }
    }
}

impl<'s, 'g> Scope<'s, 'g> {
    ghost use Rattle.std.specs.Prelude.{IfErr, IfOk};
    ghost use Rattle.lalrpop_grammar_language.specs.Enabled.{has_text};
    ghost use Rattle.lalrpop_norm_theory.specs.Resolving.{use_of_name};
    ghost use Rattle.lalrpop_norm_resolve.specs.FoundFaults.{TellsOneOf, IsTwiceIn, HasNoTwice};
    ghost use Rattle.lalrpop_norm_resolve.specs.NameViews.{name_use_view, scope_names, scope_parameters};

    /// What names stand for in the rule.
    ///
    /// # Errors
    ///
    /// A parameter stands twice, or memory runs out.
    pub(crate) fn new(
        alloc: Global,
        definitions: &'s Definitions<'g>,
        rule: &'g NonterminalData,
    ) -> Result<Scope<'s, 'g>, NormFault>
        ensures definitions { IfOk result (λ made. made.definitions.now ≡ definitions.now) }
        ensures rule { IfOk result (λ made. made.rule.now ≡ rule.now) }
        ensures once { IfOk result (λ made. HasNoTwice (nonterminal_view rule.now).parameters) }
        ensures fault { IfErr result (TellsOneOf (IsTwiceIn (nonterminal_view rule.now))) }
    {
        let parameters = known_parameters(alloc, rule)?;
        Ok(Scope {
            definitions,
            rule,
            parameters,
        })
    }

    /// Whether it is a parameter of the rule.
    pub(crate) fn is_parameter(&self, name: &Atom) -> bool
        ensures { result ≡ has_text name.now (scope_parameters self.now) }
    {
        has_name(&self.parameters, name)
    }

    /// What the name stands for: a parameter hides all else, and a rule a mapped bare name.
    pub(crate) fn use_of(&self, name: &Atom) -> NameUse
        ensures { name_use_view result ≡ use_of_name (scope_names self.now) (scope_parameters self.now) name.now }
    {
        if self.is_parameter(name) {
            return NameUse::Parameter;
        }
        self.definitions.use_of(name)
    }
}
