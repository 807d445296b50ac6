//! The rules of a grammar, in order.

ghost use Rattle.std.specs.Prelude.{◌≡◌, [], ◌∷◌, MatchOption, map};
ghost use Rattle.lalrpop_grammar.specs.WrittenGrammar.{rules_of};
ghost use Rattle.lalrpop_grammar.specs.Views.{item_view, nonterminal_view};

use crate::grammar::{Grammar, GrammarItem};
use crate::nonterminal::NonterminalData;

/// The rules of a grammar, in order, macros too. `Grammar::rules` makes it.
#[derive(Clone, Copy)]
pub struct GrammarRules<'g> {
    // The items that are still to come.
    items: &'g [GrammarItem],
}

/// The first rule among the items, which become those behind it.
fn next_rule<'g>(items: &mut &'g [GrammarItem]) -> Option<&'g NonterminalData>
    ensures { let before = rules_of (map item_view items.old.now) in
        let after = rules_of (map item_view items.new.now) in
        MatchOption result ((before ≡ []) × (after ≡ [])) (λ rule. before ≡ nonterminal_view rule.now ∷ after) }
{
    while let Some((first, others)) = items.split_first() {
        *items = others;
        if let GrammarItem::Nonterminal(rule) = first {
            return Some(rule);
        }
    }
    None
}

impl<'g> Iterator for GrammarRules<'g> {
    ghost use Rattle.std.specs.Iterator.{YieldsFirstBy, item_count};
    ghost use Rattle.lalrpop_grammar.specs.RulesLeft.{rules_left};

    type Item = &'g NonterminalData;

    ghost next_gives = { YieldsFirstBy (λ r. nonterminal_view r.now) rules_left };

    ghost remaining = { item_count rules_left };

    fn next(&mut self) -> Option<&'g NonterminalData> {
        next_rule(&mut self.items)
    }
}

impl Grammar {
    ghost use Rattle.lalrpop_grammar.specs.RulesLeft.{rules_left};
    ghost use Rattle.lalrpop_grammar.specs.Views.{grammar_view};

    /// The rules, in order, macros too.
    pub fn rules(&self) -> GrammarRules<'_>
        ensures { rules_left result ≡ rules_of (grammar_view self.now).items }
    {
        GrammarRules {
            items: self.items.as_slice(),
        }
    }
}
