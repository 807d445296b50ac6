//! Which productions are a grammar's.

ghost use Rattle.std.specs.Prelude.{◌≡◌, ◌↔◌, Contains, IsTrue};
ghost use Rattle.lalrpop_lr1_core.specs.Views.{production_view};
ghost use Rattle.lalrpop_lr1_first.specs.FirstSetsOf.{IsProductionOf};

use lalrpop_grammar_repr::{Grammar, Production};

/// Whether the production is one of these, with all its fields.
fn is_among(productions: &[Production], production: &Production) -> bool
    ensures { IsTrue result ↔ Contains productions.now production.now }
{
    for other in productions {
        if *other == *production {
            return true;
        }
    }
    false
}

/// Whether the production stands with some nonterminal of the grammar.
fn is_anywhere(grammar: &Grammar, production: &Production) -> bool
    ensures { IsTrue result ↔ IsProductionOf grammar.now (production_view production.now) }
{
    for (_, data) in grammar.nonterminals.iter() {
        if is_among(data.productions.as_slice(), production) {
            return true;
        }
    }
    false
}

/// Whether the production is one of the grammar's. Its own nonterminal is looked at first.
pub(crate) fn has_production(grammar: &Grammar, production: &Production) -> bool
    ensures { IsTrue result ↔ IsProductionOf grammar.now (production_view production.now) }
{
    is_among(grammar.productions_for(&production.nonterminal), production)
        || is_anywhere(grammar, production)
}
