//! The records of actions that inlining made.

ghost use Rattle.std.specs.Prelude.{◌≡◌, IfNone, IfSome, option_map};
ghost use Rattle.lalrpop_grammar_repr.specs.declared.action.InlineActionFnDefn.{InlineActionFnDefn};
ghost use Rattle.lalrpop_run_trees.specs.ActionLabels.{IsRecordOf};
ghost use Rattle.lalrpop_run_trees.specs.FlatLabels.{record_at};

use lalrpop_grammar_repr::{ActionFn, ActionFnDefn, ActionFnDefnKind, InlineActionFnDefn};

/// The record of the action, where it has one.
pub(crate) fn record_of(actions: &[ActionFnDefn], action: ActionFn) -> Option<&InlineActionFnDefn>
    ensures found { IfSome result (λ found. IsRecordOf actions.now action.0 found.now) }
    ensures none { IfNone result ((other : InlineActionFnDefn) → IsRecordOf actions.now action.0 other → ⊥) }
    ensures at { option_map (λ i. i.now) result ≡ record_at actions.now action.0 }
{
    match actions.get(action.index()) {
        Some(definition) => match &definition.kind {
            ActionFnDefnKind::Inline(record) => Some(record),
            _ => None,
        },
        None => None,
    }
}
