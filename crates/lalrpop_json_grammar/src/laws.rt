//! Laws of the format, as contracts: reading and spelling are inverse.

ghost use Rattle.lalrpop_json_grammar.specs.Laws.{ReadGrammarsAreSpelled, SpelledGrammarsAreRead, ReadTreesAreSpelled, SpelledTreesAreRead};

/// What is read as a grammar is the spelling of that grammar, and the spelling of a grammar is read as that grammar.
pub fn grammar_laws()
    ensures read_is_spelled { ReadGrammarsAreSpelled }
    ensures spelled_is_read { SpelledGrammarsAreRead }
{}

/// What is read as a tree is the spelling of that tree, and the spelling of a tree is read as that tree.
pub fn tree_laws()
    ensures read_is_spelled { ReadTreesAreSpelled }
    ensures spelled_is_read { SpelledTreesAreRead }
{}
