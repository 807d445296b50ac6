//! The number of a production, found by searching productions in order.

ghost use Rattle.std.specs.List.Sorted.{IsStrictlySortedBy};
ghost use Rattle.lalrpop_grammar_repr.specs.contracts.production.ProductionOrd.TheImpl as production_order;
ghost use Rattle.lalrpop_lr1_first.specs.Listings.{lent};
ghost use Rattle.lalrpop_lr1_barren.specs.NameMarks.{IsPlaceOfElement};

use lalrpop_grammar_repr::Production;

/// The place of the production in a list in order, if it is there.
pub(crate) fn place_of_production<'p>(
    productions: &[&'p Production],
    production: &'p Production,
) -> Option<usize>
    requires { IsStrictlySortedBy (production_order.ghosts).cmp (lent productions.now) }
    ensures { IsPlaceOfElement (lent productions.now) production.now result }
{
    match productions.binary_search(&production) {
        Ok(place) => Some(place),
        Err(_) => None,
    }
}
