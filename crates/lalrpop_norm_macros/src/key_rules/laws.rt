//! What the grammar with a rule for each key is.

ghost use Rattle.lalrpop_norm_macros.specs.KeyRuleLaws.{CountsMakeRight, FinishedRulesExpand};

/// The law of the rules of keys: the grammar with a finished rule for each key, under names of their own, and with no other rule is
/// the one whose macros are expanded. Its expansion, what is inlined in it and its types are the same under the names of the keys.
/// What the rules rest on holds where names are resolved, no alternative has `!` and no wrong number of arguments is told.
pub fn key_rules_expand()
    ensures expanded { FinishedRulesExpand }
    ensures right { CountsMakeRight }
{}
