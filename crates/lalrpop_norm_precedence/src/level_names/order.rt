//! The levels of a rule in order.

ghost use Rattle.std.specs.Prelude.{◌≡◌, IfOk};
ghost use Rattle.lalrpop_grammar.specs.Views.{nonterminal_view};
ghost use Rattle.lalrpop_grammar_language.specs.Levels.{levels as levels_of};
ghost use Rattle.lalrpop_norm_theory.specs.Between.{rule_between};
ghost use Rattle.lalrpop_norm_theory.specs.LeveledGrammar.{levels_in_order as in_order};

use lalrpop_grammar::NonterminalData;
use lalrpop_grammar_rules::rank_after;
use std::alloc::{AllocError, Global};
use std::vec::Vec;

/// The levels of the rule's alternatives, in the order in which they are written.
fn written_levels(alloc: Global, rule: &NonterminalData) -> Result<Vec<u32>, AllocError>
    ensures { IfOk result (λ found. found.items ≡ levels_of (rule_between (nonterminal_view rule.now))) }
{
    let mut found = Vec::new(alloc);
    let mut last = None;
    let alternatives = rule.alternatives.as_slice();
    for alternative in alternatives {
        last = rank_after(last, alternative.attributes.as_slice());
        match last {
            Some(rank) => found.push(rank.level)?,
            None => {}
        }
    }
    Ok(found)
}

/// The levels of the rule, each once, the loosest first.
pub(crate) fn levels_in_order(alloc: Global, rule: &NonterminalData) -> Result<Vec<u32>, AllocError>
    ensures { IfOk result (λ order. order.items ≡ in_order (rule_between (nonterminal_view rule.now))) }
{
    let mut order = written_levels(alloc, rule)?;
    order.sort_unstable();
    order.dedup();
    order.reverse();
    Ok(order)
}
