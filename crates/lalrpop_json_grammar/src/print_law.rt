//! The law that printed trees tell trees apart.

ghost use Rattle.std.specs.Prelude.{Bool, List, Option};
ghost use Rattle.lalrpop_grammar_symbols.specs.Symbols.{Text};
ghost use Rattle.lalrpop_grammar.specs.WrittenGrammar.{Grammar};
ghost use Rattle.lalrpop_json_grammar.specs.Printed.{PrintsApart};

/// The law that printed trees tell trees apart: two trees that a grammar admits from one start print as the same bytes
/// exactly where they are equal up to the spans of their leaves.
pub fn prints_tell_trees_apart()
    ensures { (finds : Text → Text → Option Bool) (features : List Text) (g : Grammar)
        → PrintsApart finds features g }
{}
