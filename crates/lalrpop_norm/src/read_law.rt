//! The law that a grammar which is read looks as the normalizer's passes ask of one.

ghost use Rattle.lalrpop_norm.specs.ReadGrammars.{ReadableGrammarsAreRead};

/// The law that a grammar which is read has names for names, symbols and actions of written forms alone, alternatives that
/// tell the places at which they stand, no tokenizer, and a prefix of two or more underscores.
pub fn readable_grammars_are_read()
    ensures { ReadableGrammarsAreRead }
{}
