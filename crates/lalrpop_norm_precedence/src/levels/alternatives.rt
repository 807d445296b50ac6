//! Alternatives of a level: with each occurrence of their rule renamed and without attributes of levels, and the pass to the
//! next tighter level.

ghost use Rattle.std.specs.Prelude.{◌≡◌, [], ◌∷◌, ◌++◌, IfOk, OnOk, map};
ghost use Rattle.lalrpop_grammar_symbols.specs.Views.{span_view, symbol_view};
ghost use Rattle.lalrpop_grammar.specs.Views.{alternative_view, attribute_view, nonterminal_view};
ghost use Rattle.lalrpop_grammar_rules.specs.Ranks.{assoc_view};
ghost use Rattle.lalrpop_norm_theory.specs.LeveledGrammar.{
  names_alone as names_of,
  own_call as call_of_own,
  says_rank as says_rank_in,
  without_ranks as attributes_left,
};
ghost use Rattle.lalrpop_norm_precedence.specs.NamedAlternatives.{
  alternative_by_naming,
  naming_view,
  pass_down_by_name,
  ranked_alternative_view,
  symbols_by_naming,
};

use crate::levels::renaming::{Occurrences, rename_each};
use lalrpop_grammar::types::Attribute;
use lalrpop_grammar::{ActionKind, Alternative, Condition, NonterminalData, Origin};
use lalrpop_grammar_rules::closed::{Binding, occurrences_in};
use lalrpop_grammar_rules::{ASSOC_ATTR, Assoc, PREC_ATTR, Rank, is_named};
use lalrpop_grammar_symbols::{
    Atom, List, MacroSymbol, NonterminalString, Span, Symbol, SymbolKind,
};
use std::alloc::{AllocError, Global};

/// What the occurrences of a rule in the alternatives of one of its levels are called.
#[derive(Clone, Copy)]
pub(crate) struct OccurrenceNames<'n> {
    /// The rule.
    pub(crate) owner: &'n Atom,
    /// Its parameters, whatever they stand for.
    pub(crate) binding: Binding<'n>,
    /// Those that may have the alternative's own level.
    pub(crate) reached: &'n Atom,
    /// The others.
    pub(crate) others: &'n Atom,
}

/// An alternative with its rank.
#[derive(Clone, Copy)]
pub(crate) struct RankedAlternative<'g> {
    /// The alternative as it is written.
    pub(crate) alternative: &'g Alternative,
    /// Its level and side.
    pub(crate) rank: Rank,
}

/// The symbols of an alternative of that side, with each occurrence of the rule renamed.
fn renamed_symbols(
    alloc: Global,
    names: &OccurrenceNames<'_>,
    side: Assoc,
    symbols: &[Symbol],
) -> Result<List<Symbol>, AllocError>
    ensures { IfOk result (λ made. map symbol_view made
        ≡ symbols_by_naming (naming_view names.now) (assoc_view side) (map symbol_view symbols.now)) }
{
    let count = occurrences_in(alloc, names.binding, names.owner, symbols)?;
    let occurrences = Occurrences {
        owner: names.owner,
        binding: names.binding,
        count,
        side,
        reached: names.reached,
        others: names.others,
    };
    rename_each(alloc, &occurrences, symbols)
}

/// Whether the attribute says a level or a side.
fn says_rank(attribute: &Attribute) -> bool
    ensures { result ≡ says_rank_in (attribute_view attribute.now) }
{
    is_named(attribute, PREC_ATTR) || is_named(attribute, ASSOC_ATTR)
}

/// Puts a copy of the attribute behind the others, unless it says a level or a side.
fn keep_attribute(
    alloc: Global,
    attribute: &Attribute,
    kept: &mut List<Attribute>,
) -> Result<(), AllocError>
    ensures { OnOk result (map attribute_view kept.new
        ≡ map attribute_view kept.old ++ attributes_left (attribute_view attribute.now ∷ [])) }
{
    if says_rank(attribute) {
        return Ok(());
    }
    kept.push(attribute.try_clone(alloc)?)
}

/// Copies of the attributes that say neither a level nor a side, in order.
fn without_ranks(alloc: Global, attributes: &[Attribute]) -> Result<List<Attribute>, AllocError>
    ensures { IfOk result (λ kept. map attribute_view kept ≡ attributes_left (map attribute_view attributes.now)) }
{
    let mut kept = List::new(alloc);
    for attribute in attributes {
        keep_attribute(alloc, attribute, &mut kept)?;
    }
    Ok(kept)
}

fn clone_condition(condition: &Option<Condition>) -> Result<Option<Condition>, AllocError>
    ensures { IfOk result (λ copy. copy ≡ condition.now) }
{
    match condition {
        None => Ok(None),
        Some(condition) => Ok(Some(condition.try_clone()?)),
    }
}

fn clone_action(action: &Option<ActionKind>) -> Result<Option<ActionKind>, AllocError>
    ensures { IfOk result (λ copy. copy ≡ action.now) }
{
    match action {
        None => Ok(None),
        Some(action) => Ok(Some(action.try_clone()?)),
    }
}

/// The alternative as it stands in the rule of its level.
fn leveled_alternative(
    alloc: Global,
    names: &OccurrenceNames<'_>,
    ranked: &RankedAlternative<'_>,
) -> Result<Alternative, AllocError>
    ensures { IfOk result (λ made. alternative_view made
        ≡ alternative_by_naming (naming_view names.now) (ranked_alternative_view ranked.now)) }
{
    let alternative = ranked.alternative;
    let expr = renamed_symbols(alloc, names, ranked.rank.side, alternative.expr.as_slice())?;
    let attributes = without_ranks(alloc, alternative.attributes.as_slice())?;
    let action = clone_action(&alternative.action)?;
    let condition = clone_condition(&alternative.condition)?;
    let origin = alternative.origin.try_clone(alloc)?;
    Ok(Alternative {
        span: alternative.span,
        expr,
        condition,
        action,
        attributes,
        origin,
    })
}

/// The alternatives as they stand in the rule of their level, in order.
pub(crate) fn leveled_alternatives(
    alloc: Global,
    names: &OccurrenceNames<'_>,
    ranked: &[RankedAlternative<'_>],
) -> Result<List<Alternative>, AllocError>
    ensures { IfOk result (λ made. map alternative_view made
        ≡ map (alternative_by_naming (naming_view names.now)) (map ranked_alternative_view ranked.now)) }
{
    let mut made = List::new(alloc);
    for alternative in ranked {
        made.push(leveled_alternative(alloc, names, alternative)?)?;
    }
    Ok(made)
}

/// The parameters as symbols, each by its name, in order.
fn names_alone(
    alloc: Global,
    span: Span,
    parameters: &[NonterminalString],
) -> Result<List<Symbol>, AllocError>
    ensures { IfOk result (λ made. map symbol_view made
        ≡ names_of (span_view span) (map (λ p. p.0) parameters.now)) }
{
    let mut made = List::new(alloc);
    for parameter in parameters {
        let kind = SymbolKind::AmbiguousId(parameter.0.try_clone()?);
        made.push(Symbol::new(span, kind))?;
    }
    Ok(made)
}

/// The rule of that name as a symbol, a macro with its own parameters as arguments.
fn own_call(
    alloc: Global,
    span: Span,
    name: &Atom,
    parameters: &[NonterminalString],
) -> Result<Symbol, AllocError>
    ensures { IfOk result (λ made. symbol_view made
        ≡ call_of_own (span_view span) name.now (map (λ p. p.0) parameters.now)) }
{
    let name = NonterminalString(name.try_clone()?);
    match parameters {
        [] => Ok(Symbol::new(span, SymbolKind::Nonterminal(name))),
        [_, ..] => {
            let args = names_alone(alloc, span, parameters)?;
            Ok(Symbol::new(span, SymbolKind::Macro(MacroSymbol { name, args })))
        }
    }
}

/// The alternative that passes to the level of that name.
pub(crate) fn pass_down(
    alloc: Global,
    rule: &NonterminalData,
    name: &Atom,
) -> Result<Alternative, AllocError>
    ensures { IfOk result (λ made. alternative_view made ≡ pass_down_by_name (nonterminal_view rule.now) name.now) }
{
    let call = own_call(alloc, rule.span, name, rule.args.as_slice())?;
    let mut expr = List::new(alloc);
    expr.push(call)?;
    Ok(Alternative {
        span: rule.span,
        expr,
        condition: None,
        action: None,
        attributes: List::new(alloc),
        origin: Origin::PassDown,
    })
}
