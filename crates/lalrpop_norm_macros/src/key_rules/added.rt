//! The rules of repeats, groups and lookarounds.

ghost use Rattle.std.specs.Prelude.{◌≡◌, [], ◌∷◌, false, IfOk, map, option_map};
ghost use Rattle.lalrpop_grammar_symbols.specs.Symbols.{Closed, Op};
ghost use Rattle.lalrpop_grammar_symbols.specs.Views.{repeat_op_view, span_view};
ghost use Rattle.lalrpop_grammar.specs.Views.{
  action_view,
  alternative_view,
  attribute_view,
  is_public,
  nonterminal_view,
  origin_view,
  type_view,
};
ghost use Rattle.lalrpop_grammar.specs.WrittenGrammar.{Action, Origin as WrittenOrigin};
ghost use Rattle.lalrpop_grammar_rules.specs.Views.{closed_view, closeds};
ghost use Rattle.lalrpop_norm_keys.specs.Tables.{IsKeyIndex};
ghost use Rattle.lalrpop_norm_macros.specs.AddedRules.{IsAddedAlternative, added_choices, inline_attributes};
ghost use Rattle.lalrpop_norm_macros.specs.RulesUnder.{AreAddedUnder, IsAddedRuleUnder, IsPartRuleUnder};
ghost use Rattle.lalrpop_norm_macros.specs.KeyNaming.{AreSymbolsFor};

use crate::key_rules::types::{place_type, repeat_type};
use crate::key_symbols::{KeyNames, written_side};
use lalrpop_grammar::types::{Attribute, AttributeArg, TypeRef};
use lalrpop_grammar::{ActionKind, Alternative, NonterminalData, Origin, Visibility};
use lalrpop_grammar_rules::INLINE;
use lalrpop_grammar_rules::closed::{ClosedSymbol, Shared};
use lalrpop_grammar_symbols::{Atom, List, NonterminalString, RepeatOp, Span};
use std::alloc::{AllocError, Global};
use std::slice;

/// What is added, where, and under which names.
#[derive(Clone, Copy)]
pub(crate) struct Added<'k> {
    /// The keys by their names.
    pub(crate) names: &'k KeyNames<'k>,
    /// Where the rule is written.
    pub(crate) span: Span,
}

/// An alternative for these closed symbols.
fn added_alternative(
    alloc: Global,
    added: &Added<'_>,
    action: Option<ActionKind>,
    origin: Origin,
    side: &[ClosedSymbol],
) -> Result<Alternative, AllocError>
    requires { IsKeyIndex added.now.names.now.keys.now }
    ensures { IfOk result (λ made. IsAddedAlternative (AreSymbolsFor added.now.names.now) (span_view added.now.span) (action_view action)
        (origin_view origin) (map closed_view side.now) (alternative_view made)) }
{
    let expr = written_side(alloc, added.names, added.span, side)?;
    Ok(Alternative {
        span: added.span,
        expr,
        condition: None,
        action,
        attributes: List::new(alloc),
        origin,
    })
}

/// The two alternatives, in order.
fn two_alternatives(
    alloc: Global,
    first: Alternative,
    second: Alternative,
) -> Result<List<Alternative>, AllocError>
    ensures { IfOk result (λ made. map alternative_view made ≡ alternative_view first ∷ alternative_view second ∷ []) }
{
    let mut made = List::new(alloc);
    made.push(first)?;
    made.push(second)?;
    Ok(made)
}

/// The repeat of a copy of the symbol, once or more.
fn plus_of(alloc: Global, inside: &ClosedSymbol) -> Result<ClosedSymbol, AllocError>
    ensures { IfOk result (λ made. closed_view made ≡ Closed.repeat Op.plus (closed_view inside.now)) }
{
    let copy = inside.try_clone()?;
    Ok(ClosedSymbol::Repeat(RepeatOp::Plus, Shared::new(alloc, copy)?))
}

/// The two symbols, in order.
fn two_symbols(
    alloc: Global,
    first: ClosedSymbol,
    second: ClosedSymbol,
) -> Result<List<ClosedSymbol>, AllocError>
    ensures { IfOk result (λ made. map closed_view made ≡ closed_view first ∷ closed_view second ∷ []) }
{
    let mut made = List::new(alloc);
    made.push(first)?;
    made.push(second)?;
    Ok(made)
}

/// `X+ X`.
fn more_alternative(
    alloc: Global,
    added: &Added<'_>,
    inside: &ClosedSymbol,
) -> Result<Alternative, AllocError>
    requires { IsKeyIndex added.now.names.now.keys.now }
    ensures { IfOk result (λ made. IsAddedAlternative (AreSymbolsFor added.now.names.now) (span_view added.now.span) Action.default
        WrittenOrigin.plus_more (Closed.repeat Op.plus (closed_view inside.now) ∷ closed_view inside.now ∷ [])
        (alternative_view made)) }
{
    let side = two_symbols(alloc, plus_of(alloc, inside)?, inside.try_clone()?)?;
    added_alternative(alloc, added, None, Origin::PlusMore, side.as_slice())
}

/// `X`, and `X+ X`.
fn plus_alternatives(
    alloc: Global,
    added: &Added<'_>,
    inside: &ClosedSymbol,
) -> Result<List<Alternative>, AllocError>
    requires { IsKeyIndex added.now.names.now.keys.now }
    ensures { IfOk result (λ made. AreAddedUnder added.now.names.now (span_view added.now.span)
        (added_choices (Closed.repeat Op.plus (closed_view inside.now))) (map alternative_view made)) }
{
    let one = added_alternative(alloc, added, None, Origin::PlusOne, slice::from_ref(inside))?;
    let more = more_alternative(alloc, added, inside)?;
    two_alternatives(alloc, one, more)
}

/// `X+`.
fn some_alternative(
    alloc: Global,
    added: &Added<'_>,
    inside: &ClosedSymbol,
) -> Result<Alternative, AllocError>
    requires { IsKeyIndex added.now.names.now.keys.now }
    ensures { IfOk result (λ made. IsAddedAlternative (AreSymbolsFor added.now.names.now) (span_view added.now.span) Action.default
        WrittenOrigin.star_some (Closed.repeat Op.plus (closed_view inside.now) ∷ []) (alternative_view made)) }
{
    let plus = plus_of(alloc, inside)?;
    added_alternative(alloc, added, None, Origin::StarSome, slice::from_ref(&plus))
}

/// Nothing, and `X+`.
fn star_alternatives(
    alloc: Global,
    added: &Added<'_>,
    inside: &ClosedSymbol,
) -> Result<List<Alternative>, AllocError>
    requires { IsKeyIndex added.now.names.now.keys.now }
    ensures { IfOk result (λ made. AreAddedUnder added.now.names.now (span_view added.now.span)
        (added_choices (Closed.repeat Op.star (closed_view inside.now))) (map alternative_view made)) }
{
    let none = added_alternative(alloc, added, None, Origin::StarNone, &[])?;
    let some = some_alternative(alloc, added, inside)?;
    two_alternatives(alloc, none, some)
}

/// `X`, and nothing.
fn option_alternatives(
    alloc: Global,
    added: &Added<'_>,
    inside: &ClosedSymbol,
) -> Result<List<Alternative>, AllocError>
    requires { IsKeyIndex added.now.names.now.keys.now }
    ensures { IfOk result (λ made. AreAddedUnder added.now.names.now (span_view added.now.span)
        (added_choices (Closed.repeat Op.question (closed_view inside.now))) (map alternative_view made)) }
{
    let some = added_alternative(alloc, added, None, Origin::OptSome, slice::from_ref(inside))?;
    let none = added_alternative(alloc, added, None, Origin::OptNone, &[])?;
    two_alternatives(alloc, some, none)
}

/// The alternatives of a repeat.
fn repeat_alternatives(
    alloc: Global,
    added: &Added<'_>,
    op: RepeatOp,
    inside: &ClosedSymbol,
) -> Result<List<Alternative>, AllocError>
    requires { IsKeyIndex added.now.names.now.keys.now }
    ensures { IfOk result (λ made. AreAddedUnder added.now.names.now (span_view added.now.span)
        (added_choices (Closed.repeat (repeat_op_view op) (closed_view inside.now))) (map alternative_view made)) }
{
    match op {
        RepeatOp::Plus => plus_alternatives(alloc, added, inside),
        RepeatOp::Star => star_alternatives(alloc, added, inside),
        RepeatOp::Question => option_alternatives(alloc, added, inside),
    }
}

/// One alternative for these closed symbols.
fn one_alternative(
    alloc: Global,
    added: &Added<'_>,
    action: Option<ActionKind>,
    origin: Origin,
    side: &[ClosedSymbol],
) -> Result<List<Alternative>, AllocError>
    requires { IsKeyIndex added.now.names.now.keys.now }
    ensures { IfOk result (λ made. AreAddedUnder added.now.names.now (span_view added.now.span)
        (record { action = action_view action; origin = origin_view origin; symbols = map closed_view side.now } ∷ [])
        (map alternative_view made)) }
{
    let only = added_alternative(alloc, added, action, origin, side)?;
    let mut made = List::new(alloc);
    made.push(only)?;
    Ok(made)
}

/// The attribute that says that a rule is inlined, where it is.
fn inline_attribute(
    alloc: Global,
    span: Span,
    is_inline: bool,
) -> Result<List<Attribute>, AllocError>
    ensures { IfOk result (λ made. map attribute_view made ≡ inline_attributes (span_view span) is_inline) }
{
    let mut made = List::new(alloc);
    if is_inline {
        let id = Atom::new(alloc, INLINE)?;
        made.push(Attribute {
            span,
            id,
            arg: AttributeArg::Empty,
        })?;
    }
    Ok(made)
}

/// Who may use a rule, its name and its attributes.
#[derive(Drop)]
pub(crate) struct RuleHead {
    pub(crate) visibility: Visibility,
    pub(crate) name: NonterminalString,
    pub(crate) attributes: List<Attribute>,
}

/// Those of a private rule.
fn private_head(
    alloc: Global,
    added: &Added<'_>,
    name: &Atom,
    is_inline: bool,
) -> Result<RuleHead, AllocError>
    ensures private { IfOk result (λ head. is_public head.visibility ≡ false) }
    ensures name { IfOk result (λ head. head.name.0 ≡ name.now) }
    ensures attributes { IfOk result (λ head. map attribute_view head.attributes
        ≡ inline_attributes (span_view added.now.span) is_inline) }
{
    let attributes = inline_attribute(alloc, added.span, is_inline)?;
    let name = NonterminalString(name.try_clone()?);
    Ok(RuleHead {
        visibility: Visibility::Priv,
        name,
        attributes,
    })
}

/// A private rule of these alternatives.
fn private_rule(
    alloc: Global,
    added: &Added<'_>,
    name: &Atom,
    is_inline: bool,
    type_decl: Option<TypeRef>,
    alternatives: List<Alternative>,
) -> Result<NonterminalData, AllocError>
    ensures { IfOk result (λ made. nonterminal_view made ≡ record {
      public = false;
      name = name.now;
      attributes = inline_attributes (span_view added.now.span) is_inline;
      span = span_view added.now.span;
      parameters = [];
      declared = option_map type_view type_decl;
      alternatives = map alternative_view alternatives;
    }) }
{
    let RuleHead {
        visibility,
        name,
        attributes,
    } = private_head(alloc, added, name, is_inline)?;
    Ok(NonterminalData {
        visibility,
        name,
        attributes,
        span: added.span,
        args: List::new(alloc),
        type_decl,
        alternatives,
    })
}

/// The rule of a repeat.
fn repeat_rule(
    alloc: Global,
    added: &Added<'_>,
    name: &Atom,
    op: RepeatOp,
    inside: &ClosedSymbol,
) -> Result<NonterminalData, AllocError>
    requires { IsKeyIndex added.now.names.now.keys.now }
    ensures { IfOk result (λ made. IsAddedRuleUnder added.now.names.now (Closed.repeat (repeat_op_view op) (closed_view inside.now))
        name.now (span_view added.now.span) (nonterminal_view made)) }
{
    let is_inline = match op {
        RepeatOp::Plus => false,
        RepeatOp::Star | RepeatOp::Question => true,
    };
    let alternatives = repeat_alternatives(alloc, added, op, inside)?;
    let declared = repeat_type(alloc, added.names, added.span, op, inside)?;
    private_rule(alloc, added, name, is_inline, Some(declared), alternatives)
}

/// The rule of a group.
fn group_rule(
    alloc: Global,
    added: &Added<'_>,
    name: &Atom,
    symbols: &[ClosedSymbol],
) -> Result<NonterminalData, AllocError>
    requires { IsKeyIndex added.now.names.now.keys.now }
    ensures { IfOk result (λ made. IsAddedRuleUnder added.now.names.now (Closed.group (closeds (map closed_view symbols.now)))
        name.now (span_view added.now.span) (nonterminal_view made)) }
{
    let alternatives = one_alternative(alloc, added, None, Origin::Group, symbols)?;
    private_rule(alloc, added, name, true, None, alternatives)
}

/// The rule of `@L`.
fn lookahead_rule(
    alloc: Global,
    added: &Added<'_>,
    name: &Atom,
) -> Result<NonterminalData, AllocError>
    requires { IsKeyIndex added.now.names.now.keys.now }
    ensures { IfOk result (λ made. IsAddedRuleUnder added.now.names.now Closed.lookahead name.now (span_view added.now.span)
        (nonterminal_view made)) }
{
    let action = Some(ActionKind::Lookahead);
    let alternatives = one_alternative(alloc, added, action, Origin::Look, &[])?;
    let declared = place_type(alloc)?;
    private_rule(alloc, added, name, true, Some(declared), alternatives)
}

/// The rule of `@R`.
fn lookbehind_rule(
    alloc: Global,
    added: &Added<'_>,
    name: &Atom,
) -> Result<NonterminalData, AllocError>
    requires { IsKeyIndex added.now.names.now.keys.now }
    ensures { IfOk result (λ made. IsAddedRuleUnder added.now.names.now Closed.lookbehind name.now (span_view added.now.span)
        (nonterminal_view made)) }
{
    let action = Some(ActionKind::Lookbehind);
    let alternatives = one_alternative(alloc, added, action, Origin::Look, &[])?;
    let declared = place_type(alloc)?;
    private_rule(alloc, added, name, true, Some(declared), alternatives)
}

/// A rule without alternatives, for what is no key.
pub(crate) fn empty_rule(
    alloc: Global,
    added: &Added<'_>,
    name: &Atom,
) -> Result<NonterminalData, AllocError>
    ensures { IfOk result (λ made. (nonterminal_view made).name ≡ name.now) }
{
    private_rule(alloc, added, name, false, None, List::new(alloc))
}

/// The rule of the key, where that is a repeat, a group or a lookaround; else one without alternatives.
pub(crate) fn part_rule(
    alloc: Global,
    added: &Added<'_>,
    name: &Atom,
    key: &ClosedSymbol,
) -> Result<NonterminalData, AllocError>
    requires { IsKeyIndex added.now.names.now.keys.now }
    ensures { IfOk result (λ made. IsPartRuleUnder added.now.names.now (closed_view key.now) name.now (span_view added.now.span)
        (nonterminal_view made)) }
{
    match key {
        ClosedSymbol::Repeat(op, inside) => repeat_rule(alloc, added, name, *op, inside.get()),
        ClosedSymbol::Group(symbols) => group_rule(alloc, added, name, symbols.as_slice()),
        ClosedSymbol::Lookahead => lookahead_rule(alloc, added, name),
        ClosedSymbol::Lookbehind => lookbehind_rule(alloc, added, name),
        ClosedSymbol::Terminal(_)
        | ClosedSymbol::Call(_, _, _)
        | ClosedSymbol::Choose(_)
        | ClosedSymbol::Name(_, _)
        | ClosedSymbol::Faulty => empty_rule(alloc, added, name),
    }
}
