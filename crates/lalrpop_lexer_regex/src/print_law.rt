//! Laws of reading patterns: printed patterns are read back, and complements are what is left.
//!
//! The module has no code but laws. The definitions stand in `specs/`: `Printing` (the text that a pattern prints as),
//! `Printable` (of which patterns the first law speaks), `ReadBack` (what it says) and `Complements` (what the second one
//! says).

ghost use Rattle.std.specs.Prelude.{◌≡◌, ◌∷◌, ℕ, true, List};
ghost use Rattle.unicode.specs.Perl.{is_word_char, is_digit_char, is_space_char};
ghost use Rattle.lalrpop_lexer_pattern.specs.Matches.{Pattern};
ghost use Rattle.lalrpop_lexer_pattern.specs.Sets.{in_ranges};
ghost use Rattle.lalrpop_lexer_pattern.specs.declared.class.Range.{Range};
ghost use Rattle.lalrpop_lexer_regex.specs.Printing.{Place, print};
ghost use Rattle.lalrpop_lexer_regex.specs.Printable.{IsPrintable};
ghost use Rattle.lalrpop_lexer_regex.specs.ReadBack.{IsReadBackAs};
ghost use Rattle.lalrpop_lexer_regex.specs.Complements.{IsReadAsTest, IsReadAsRest, ArePrinted, caret_text, letter_text, is_plain_name, IsNameRead};

/// The law that what a pattern prints as is read as a pattern that matches the same words.
///
/// It holds of every pattern whose literals and ends of ranges are scalar values, whose counts are at most 1,000 and whose
/// text has at most 250 brackets open at once. Words don't tell of names, lazy repetitions and places in the text: of these,
/// where no name was left out and no bounds fall, the first in the order of the tree that an automaton is refused for is kept.
pub fn printed_patterns_are_read_back()
    ensures { (p : Pattern) → IsPrintable p → IsReadBackAs (print p Place.alone) p }
{}

/// The law that complements match the scalar values that are left.
///
/// `[^..]` is read as the class of those that none of its ranges holds; `\D`, `\S` and `\W` as the class of those that
/// `\d`, `\s` and `\w` don't match, and `\P{..}` as that of those without the property.
pub fn complements_match_what_is_left()
    ensures carets { (r : Range) (rs : List Range) → ArePrinted (r ∷ rs) → IsReadAsRest (caret_text (r ∷ rs)) (in_ranges (r ∷ rs)) }
    ensures digits { IsReadAsTest (letter_text 100) is_digit_char }
    ensures no_digits { IsReadAsRest (letter_text 68) is_digit_char }
    ensures spaces { IsReadAsTest (letter_text 115) is_space_char }
    ensures no_spaces { IsReadAsRest (letter_text 83) is_space_char }
    ensures words { IsReadAsTest (letter_text 119) is_word_char }
    ensures no_words { IsReadAsRest (letter_text 87) is_word_char }
    ensures properties { (name : List ℕ) → is_plain_name name ≡ true → IsNameRead name }
{}
