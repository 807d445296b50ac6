//! What actions do, and which written choices they stand for, by their numbers.

ghost use Rattle.std.specs.Prelude.{◌≡◌, ◌++◌, IfOk, OnOk, map};
ghost use Rattle.lalrpop_grammar.specs.Views.{alternative_view, action_view, grammar_view, nonterminal_view, origin_view};
ghost use Rattle.lalrpop_grammar.specs.WrittenGrammar.{Action, rules_of};
ghost use Rattle.lalrpop_norm_lower.specs.Definitions.{definition_of, kind_of_action, may_fail, type_in_table, user_kind_of};
ghost use Rattle.lalrpop_norm_lower.specs.LoweredLists.{
  alternative_definitions,
  alternative_origins,
  rule_definitions,
  rule_origins,
  start_definitions,
  start_origins,
};
ghost use Rattle.lalrpop_norm_lower.specs.RuleLists.{rules_at};

use lalrpop_grammar::{ActionKind, Alternative, Grammar, NonterminalData, Origin};
use lalrpop_grammar_repr::{
    ActionFnDefn, ActionFnDefnKind, LookaroundActionFnDefn, TypeRepr, Types, UserActionFnDefn,
};
use lalrpop_grammar_symbols::{Atom, List, NonterminalString};
use std::alloc::{AllocError, Global};

/// The rule's type; the empty tuple where the table has none for it.
pub(crate) fn type_of_rule(
    alloc: Global,
    types: &Types,
    name: &NonterminalString,
) -> Result<TypeRepr, AllocError>
    ensures { IfOk result (λ ty. ty ≡ type_in_table types.now.nonterminal_types name.now.0) }
{
    match types.lookup_nonterminal_type(name) {
        Some(ty) => ty.try_clone(alloc),
        None => Ok(TypeRepr::Tuple(List::new(alloc))),
    }
}

/// An action with that code, or with none.
fn user_kind(code: Option<Atom>) -> ActionFnDefnKind
    ensures { result ≡ user_kind_of code }
{
    ActionFnDefnKind::User(UserActionFnDefn { code })
}

/// Where the code of the alternative's action comes from.
fn action_kind(action: &Option<ActionKind>) -> Result<ActionFnDefnKind, AllocError>
    ensures { IfOk result (λ kind. kind ≡ kind_of_action (action_view action.now)) }
{
    match action {
        None => Ok(user_kind(None)),
        Some(ActionKind::User(code)) => Ok(user_kind(Some(code.try_clone()?))),
        Some(ActionKind::Fallible(code)) => Ok(user_kind(Some(code.try_clone()?))),
        Some(ActionKind::Lookahead) => Ok(ActionFnDefnKind::Lookaround(
            LookaroundActionFnDefn::Lookahead,
        )),
        Some(ActionKind::Lookbehind) => Ok(ActionFnDefnKind::Lookaround(
            LookaroundActionFnDefn::Lookbehind,
        )),
    }
}

/// Whether the alternative's action may fail.
fn is_fallible(action: &Option<ActionKind>) -> bool
    ensures { result ≡ may_fail (action_view action.now) }
{
    match action {
        Some(ActionKind::Fallible(_)) => true,
        Some(ActionKind::User(_)) | Some(ActionKind::Lookahead) => false,
        Some(ActionKind::Lookbehind) | None => false,
    }
}

/// What the alternative's action does, in a rule of that type.
fn lower_action(
    alloc: Global,
    alternative: &Alternative,
    ty: &TypeRepr,
) -> Result<ActionFnDefn, AllocError>
    ensures { IfOk result (λ made. made ≡ definition_of ty.now (alternative_view alternative.now).action) }
{
    Ok(ActionFnDefn {
        fallible: is_fallible(&alternative.action),
        ret_type: ty.try_clone(alloc)?,
        kind: action_kind(&alternative.action)?,
    })
}

/// Adds what the actions of starts do: they give the value of their rule.
pub(crate) fn add_start_definitions(
    alloc: Global,
    rules: &[&NonterminalData],
    types: &Types,
    made: &mut List<ActionFnDefn>,
) -> Result<(), AllocError>
    ensures { OnOk result (made.new
        ≡ made.old ++ start_definitions types.now.nonterminal_types (rules_at rules.now)) }
{
    for rule in rules {
        made.push(ActionFnDefn {
            fallible: false,
            ret_type: type_of_rule(alloc, types, &rule.name)?,
            kind: user_kind(None),
        })?;
    }
    Ok(())
}

/// Adds what the actions of the alternatives do, in a rule of that type.
fn add_alternative_definitions(
    alloc: Global,
    alternatives: &[Alternative],
    ty: &TypeRepr,
    made: &mut List<ActionFnDefn>,
) -> Result<(), AllocError>
    ensures { OnOk result (made.new
        ≡ made.old ++ alternative_definitions ty.now (map alternative_view alternatives.now)) }
{
    for alternative in alternatives {
        made.push(lower_action(alloc, alternative, ty)?)?;
    }
    Ok(())
}

/// Adds what the actions of the grammar's rules do.
pub(crate) fn add_rule_definitions(
    alloc: Global,
    grammar: &Grammar,
    types: &Types,
    made: &mut List<ActionFnDefn>,
) -> Result<(), AllocError>
    ensures { OnOk result (made.new ≡ made.old
        ++ rule_definitions types.now.nonterminal_types (rules_of (grammar_view grammar.now).items)) }
{
    for rule in grammar.rules() {
        let ty = type_of_rule(alloc, types, &rule.name)?;
        add_alternative_definitions(alloc, rule.alternatives.as_slice(), &ty, made)?;
    }
    Ok(())
}

/// Adds the origins of starts.
pub(crate) fn add_start_origins(
    rules: &[&NonterminalData],
    made: &mut List<Origin>,
) -> Result<(), AllocError>
    ensures { OnOk result (map origin_view made.new ≡ map origin_view made.old ++ start_origins (rules_at rules.now)) }
{
    for _rule in rules {
        made.push(Origin::Start)?;
    }
    Ok(())
}

/// Adds the origins of the alternatives.
fn add_alternative_origins(
    alloc: Global,
    alternatives: &[Alternative],
    made: &mut List<Origin>,
) -> Result<(), AllocError>
    ensures { OnOk result (map origin_view made.new
        ≡ map origin_view made.old ++ alternative_origins (map alternative_view alternatives.now)) }
{
    for alternative in alternatives {
        made.push(alternative.origin.try_clone(alloc)?)?;
    }
    Ok(())
}

/// Adds the origins of the grammar's rules.
pub(crate) fn add_rule_origins(
    alloc: Global,
    grammar: &Grammar,
    made: &mut List<Origin>,
) -> Result<(), AllocError>
    ensures { OnOk result (map origin_view made.new
        ≡ map origin_view made.old ++ rule_origins (rules_of (grammar_view grammar.now).items)) }
{
    for rule in grammar.rules() {
        add_alternative_origins(alloc, rule.alternatives.as_slice(), made)?;
    }
    Ok(())
}
