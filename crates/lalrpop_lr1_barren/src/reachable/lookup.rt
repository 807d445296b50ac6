//! The number of a name, found by searching names in order.

ghost use Rattle.std.specs.List.Sorted.{IsStrictlySortedBy};
ghost use Rattle.lalrpop_grammar_symbols.specs.contracts.names.NonterminalStringOrd.TheImpl as names_order;
ghost use Rattle.lalrpop_lr1_first.specs.Listings.{lent};
ghost use Rattle.lalrpop_lr1_barren.specs.NameMarks.{IsPlaceOfElement};

use lalrpop_grammar_symbols::NonterminalString;

/// The place of the name in a list in order, if it is there.
pub fn place_of<'p>(names: &[&'p NonterminalString], name: &'p NonterminalString) -> Option<usize>
    requires { IsStrictlySortedBy (names_order.ghosts).cmp (lent names.now) }
    ensures { IsPlaceOfElement (lent names.now) name.now result }
{
    match names.binary_search(&name) {
        Ok(place) => Some(place),
        Err(_) => None,
    }
}
