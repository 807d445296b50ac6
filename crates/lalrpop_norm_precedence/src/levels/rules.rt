//! A rule with levels parted into a rule for each level.

ghost use Rattle.std.specs.Prelude.{◌≡◌, ◌++◌, ◌&&◌, ℕ, true, IfOk, OnOk, map};
ghost use Rattle.lalrpop_grammar_symbols.specs.Symbols.{Text, Closed};
ghost use Rattle.lalrpop_grammar.specs.Views.{alternative_view, is_public, nonterminal_view};
ghost use Rattle.lalrpop_grammar_language.specs.Levels.{has_levels};
ghost use Rattle.lalrpop_grammar_rules.specs.Scopes.{binding_view};
ghost use Rattle.lalrpop_grammar_rules.specs.Views.{binding_of, closed_view};
ghost use Rattle.lalrpop_norm_theory.specs.Between.{rule_between};
ghost use Rattle.lalrpop_norm_theory.specs.LeveledGrammar.{leveled_rules as leveled_rules_of};
ghost use Rattle.lalrpop_norm_precedence.specs.LevelTables.{named_level_view, named_levels};
ghost use Rattle.lalrpop_norm_precedence.specs.LevelBuckets.{bucket_at};
ghost use Rattle.lalrpop_norm_precedence.specs.NamedAlternatives.{alternative_by_naming, naming_view};
ghost use Rattle.lalrpop_norm_precedence.specs.RulesByNames.{
  naming_at,
  pass_downs_by_name,
  rule_by_name,
  rule_by_names,
  rules_by_names,
  all_rules_by_names,
};

use crate::level_names::NamedLevel;
use crate::levels::alternatives::{OccurrenceNames, pass_down};
use crate::levels::buckets::{Buckets, alternatives_at, by_levels};
use lalrpop_grammar::types::{TypeRef, clone_attributes};
use lalrpop_grammar::{Alternative, NonterminalData, Visibility};
use lalrpop_grammar_rules::closed::{Binding, ClosedSymbol};
use lalrpop_grammar_symbols::{List, NonterminalString};
use std::alloc::{AllocError, Global};

/// A rule with levels, and what is known of it.
#[derive(Clone, Copy)]
struct LeveledRule<'r, 'g> {
    /// The rule as it is written.
    rule: &'r NonterminalData,
    /// Its parameters, whatever they stand for.
    binding: Binding<'r>,
    /// Its loosest level.
    loosest: &'r NamedLevel,
    /// Its alternatives by their levels.
    buckets: &'r Buckets<'g>,
}

/// What occurrences of the rule are called in the alternatives of a level, of which these are the tighter ones.
fn names_at<'r>(
    leveled: &LeveledRule<'r, '_>,
    own: &'r NamedLevel,
    tighter: &'r [NamedLevel],
) -> OccurrenceNames<'r>
    ensures { naming_view result ≡ naming_at (nonterminal_view leveled.now.rule.now) (binding_view leveled.now.binding)
        (named_level_view leveled.now.loosest.now) (named_level_view own.now) (map named_level_view tighter.now) }
{
    match tighter.split_first() {
        None => OccurrenceNames {
            owner: &leveled.rule.name.0,
            binding: leveled.binding,
            reached: &leveled.loosest.name,
            others: &leveled.loosest.name,
        },
        Some((next, _)) => OccurrenceNames {
            owner: &leveled.rule.name.0,
            binding: leveled.binding,
            reached: &own.name,
            others: &next.name,
        },
    }
}

/// Puts the pass to the next tighter level behind the alternatives, where there is one.
fn put_pass_down(
    alloc: Global,
    rule: &NonterminalData,
    tighter: &[NamedLevel],
    alternatives: &mut List<Alternative>,
) -> Result<(), AllocError>
    ensures { OnOk result (map alternative_view alternatives.new ≡ map alternative_view alternatives.old
        ++ pass_downs_by_name (nonterminal_view rule.now) (map named_level_view tighter.now)) }
{
    match tighter.split_first() {
        None => Ok(()),
        Some((next, _)) => alternatives.push(pass_down(alloc, rule, &next.name)?),
    }
}

/// The alternatives of the rule of a level, of which these are the tighter ones.
fn level_alternatives(
    alloc: Global,
    leveled: &LeveledRule<'_, '_>,
    own: &NamedLevel,
    tighter: &[NamedLevel],
) -> Result<List<Alternative>, AllocError>
    ensures { IfOk result (λ made. map alternative_view made
        ≡ map (alternative_by_naming (naming_at (nonterminal_view leveled.now.rule.now) (binding_view leveled.now.binding)
        (named_level_view leveled.now.loosest.now) (named_level_view own.now) (map named_level_view tighter.now)))
        (bucket_at leveled.now.buckets.now own.now.level)
        ++ pass_downs_by_name (nonterminal_view leveled.now.rule.now) (map named_level_view tighter.now)) }
{
    let names = names_at(leveled, own, tighter);
    let mut alternatives = alternatives_at(alloc, &names, own.level, leveled.buckets)?;
    put_pass_down(alloc, leveled.rule, tighter, &mut alternatives)?;
    Ok(alternatives)
}

/// Who may use the rule of a level: who may use the rule, where it is the loosest one.
fn visibility_at(visibility: &Visibility, is_loosest: bool) -> Result<Visibility, AllocError>
    ensures { IfOk result (λ made. is_public made ≡ (is_public visibility.now && is_loosest)) }
{
    if is_loosest {
        visibility.try_clone()
    } else {
        Ok(Visibility::Priv)
    }
}

fn clone_names(
    alloc: Global,
    names: &[NonterminalString],
) -> Result<List<NonterminalString>, AllocError>
    ensures { IfOk result (λ copy. copy ≡ names.now) }
{
    let mut copy = List::new(alloc);
    for name in names {
        copy.push(name.try_clone()?)?;
    }
    Ok(copy)
}

fn clone_type(alloc: Global, type_decl: &Option<TypeRef>) -> Result<Option<TypeRef>, AllocError>
    ensures { IfOk result (λ copy. copy ≡ type_decl.now) }
{
    match type_decl {
        None => Ok(None),
        Some(type_ref) => Ok(Some(type_ref.try_clone(alloc)?)),
    }
}

/// The rule of a level, with these alternatives.
fn rule_with(
    alloc: Global,
    rule: &NonterminalData,
    loosest: &NamedLevel,
    own: &NamedLevel,
    alternatives: List<Alternative>,
) -> Result<NonterminalData, AllocError>
    ensures { IfOk result (λ made. nonterminal_view made ≡ rule_by_name (nonterminal_view rule.now)
        (named_level_view loosest.now) (named_level_view own.now) (map alternative_view alternatives)) }
{
    let visibility = visibility_at(&rule.visibility, own.level == loosest.level)?;
    let name = NonterminalString(own.name.try_clone()?);
    let attributes = clone_attributes(alloc, rule.attributes.as_slice())?;
    let args = clone_names(alloc, rule.args.as_slice())?;
    let type_decl = clone_type(alloc, &rule.type_decl)?;
    Ok(NonterminalData {
        visibility,
        name,
        attributes,
        span: rule.span,
        args,
        type_decl,
        alternatives,
    })
}

/// The rule of a level, of which these are the tighter ones.
fn rule_at_level(
    alloc: Global,
    leveled: &LeveledRule<'_, '_>,
    own: &NamedLevel,
    tighter: &[NamedLevel],
) -> Result<NonterminalData, AllocError>
    ensures { IfOk result (λ made. nonterminal_view made ≡ rule_by_names (nonterminal_view leveled.now.rule.now)
        (binding_view leveled.now.binding) (named_level_view leveled.now.loosest.now) (named_level_view own.now)
        (map named_level_view tighter.now) (bucket_at leveled.now.buckets.now own.now.level)) }
{
    let alternatives = level_alternatives(alloc, leveled, own, tighter)?;
    rule_with(alloc, leveled.rule, leveled.loosest, own, alternatives)
}

/// The rules of the levels, in order.
fn rules_at_levels(
    alloc: Global,
    leveled: &LeveledRule<'_, '_>,
    levels: &[NamedLevel],
) -> Result<List<NonterminalData>, AllocError>
    ensures { IfOk result (λ made. map nonterminal_view made ≡ rules_by_names (nonterminal_view leveled.now.rule.now)
        (binding_view leveled.now.binding) (named_level_view leveled.now.loosest.now)
        (bucket_at leveled.now.buckets.now) (map named_level_view levels.now)) }
{
    let mut made = List::new(alloc);
    let mut left = levels;
    while let Some((own, tighter)) = left.split_first() {
        made.push(rule_at_level(alloc, leveled, own, tighter)?)?;
        left = tighter;
    }
    Ok(made)
}

/// As many arguments as there are parameters, none of which stands for anything.
fn empty_arguments(
    alloc: Global,
    parameters: &[NonterminalString],
) -> Result<List<ClosedSymbol>, AllocError>
    ensures { IfOk result (λ args. map closed_view args ≡ map (λ p. Closed.faulty) parameters.now) }
{
    let mut args = List::new(alloc);
    for _parameter in parameters {
        args.push(ClosedSymbol::Faulty)?;
    }
    Ok(args)
}

/// The rules of the levels of a rule, in order, where its parameters stand for the arguments and the buckets hold its
/// alternatives.
fn rules_of_levels(
    alloc: Global,
    rule: &NonterminalData,
    args: &[ClosedSymbol],
    buckets: &Buckets<'_>,
    levels: &[NamedLevel],
) -> Result<List<NonterminalData>, AllocError>
    ensures { IfOk result (λ made. map nonterminal_view made
        ≡ all_rules_by_names (nonterminal_view rule.now) (binding_of rule.now.args args.now) (bucket_at buckets.now)
        (map named_level_view levels.now)) }
{
    match levels.split_first() {
        None => Ok(List::new(alloc)),
        Some((loosest, _)) => {
            let binding = Binding {
                parameters: rule.args.as_slice(),
                args,
            };
            let leveled = LeveledRule {
                rule,
                binding,
                loosest,
                buckets,
            };
            rules_at_levels(alloc, &leveled, levels)
        }
    }
}

/// The rules into which a rule with these levels is parted, the loosest level's first.
pub(crate) fn leveled_rules(
    alloc: Global,
    rule: &NonterminalData,
    levels: &[NamedLevel],
) -> Result<List<NonterminalData>, AllocError>
    ensures { IfOk result (λ made. (f : Text → ℕ → Text) → has_levels (rule_between (nonterminal_view rule.now)) ≡ true
        → map named_level_view levels.now ≡ named_levels f (nonterminal_view rule.now)
        → map nonterminal_view made ≡ leveled_rules_of f (nonterminal_view rule.now)) }
{
    let args = empty_arguments(alloc, rule.args.as_slice())?;
    let buckets = by_levels(alloc, rule.alternatives.as_slice())?;
    rules_of_levels(alloc, rule, args.as_slice(), &buckets, levels)
}
