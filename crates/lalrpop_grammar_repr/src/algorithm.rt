//! How tables are built.

ghost use Rattle.std.specs.Prelude.{◌≡◌, ◌||◌};
ghost use Rattle.lalrpop_grammar_repr.specs.Algorithms.{has_lalr, is_lalr as lalr_named};

use lalrpop_grammar::Attribute;

/// How tables are built.
#[derive(Clone, Copy, Debug, PartialEq, Eq)]
pub struct Algorithm {
    /// Whether states with the same LR(0) items are one.
    pub lalr: bool,
}

/// Sets `lalr` where an attribute is named `LALR`.
pub fn read_algorithm(attributes: &[Attribute], algorithm: &mut Algorithm)
    ensures { algorithm.new.lalr ≡ algorithm.old.lalr || has_lalr attributes.now }
{
    for attribute in attributes {
        algorithm.lalr = algorithm.lalr || is_lalr(attribute);
    }
}

fn is_lalr(attribute: &Attribute) -> bool
    ensures { result ≡ lalr_named attribute.now }
{
    attribute.id.as_str() == "LALR"
}
