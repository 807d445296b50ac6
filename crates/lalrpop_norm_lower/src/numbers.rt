//! How many actions a grammar has.

ghost use Rattle.std.specs.Prelude.{◌≡◌, ◌↔◌, ◌<◌, ◌≤◌, ◌^◌, IsTrue};
ghost use Rattle.lalrpop_grammar.specs.Views.{grammar_view};
ghost use Rattle.lalrpop_grammar.specs.WrittenGrammar.{rules_of};
ghost use Rattle.lalrpop_norm_lower.specs.LoweredLists.{count_actions};

use crate::starts::is_start_rule;
use lalrpop_grammar::Grammar;

/// How many numbers of actions there are.
const MOST_ACTIONS: usize = 4_294_967_296;

/// Whether the grammar has more actions than there are numbers: one for each start and for each alternative.
pub(crate) fn has_too_many_actions(grammar: &Grammar) -> bool
    ensures { IsTrue result ↔ (2 ^ 32 < count_actions (rules_of (grammar_view grammar.now).items)) }
{
    let mut count: usize = 0;
    for rule in grammar.rules() {
        if is_start_rule(rule) {
            count += 1;
        }
        count = count.saturating_add(rule.alternatives.len());
        if count > MOST_ACTIONS {
            return true;
        }
    }
    false
}
