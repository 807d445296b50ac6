//! A right side, parted at a dot.

ghost use Rattle.std.specs.Prelude.{◌≡◌, [], None};

use lalrpop_grammar_repr::Symbol;

/// The symbols of a right side: those before the dot, the one behind it, and those behind that one.
#[derive(Clone, Copy, PartialEq, Eq)]
pub struct SymbolSets<'g> {
    /// The symbols before the dot.
    pub prefix: &'g [Symbol],
    /// The symbol behind the dot, where one stands there.
    pub cursor: Option<&'g Symbol>,
    /// The symbols behind that one.
    pub suffix: &'g [Symbol],
}

impl<'g> SymbolSets<'g> {
    /// No symbols.
    pub fn new() -> SymbolSets<'g>
        ensures prefix { result.prefix.now ≡ [] }
        ensures cursor { result.cursor ≡ None }
        ensures suffix { result.suffix.now ≡ [] }
    {
        SymbolSets {
            prefix: &[],
            cursor: None,
            suffix: &[],
        }
    }
}
