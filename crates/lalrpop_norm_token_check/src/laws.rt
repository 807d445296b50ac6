//! Laws of the tokenizer's entries.

ghost use Rattle.std.specs.Prelude.{◌≡◌, List, Some};
ghost use Rattle.lalrpop_grammar_symbols.specs.Symbols.{TextSpan, Terminal};
ghost use Rattle.lalrpop_grammar.specs.WrittenGrammar.{EntryMapping, Grammar, InternEntry};
ghost use Rattle.lalrpop_grammar_language.specs.Among.{Among};
ghost use Rattle.lalrpop_lexer_scan.specs.Literals.{first_span, uses_in_grammar};
ghost use Rattle.lalrpop_norm_token_check.specs.Entries.{AreEntries, AreFullEntries, AreUsed};

/// A law of entries: a grammar has one list of literals in use at most, and so one list of entries.
pub fn entries_are_unique()
    ensures literals { (g : Grammar) (us vs : List Terminal) → AreUsed g us → AreUsed g vs → us ≡ vs }
    ensures entries { (g : Grammar) (es fs : List InternEntry) → AreEntries g es → AreEntries g fs → es ≡ fs }
{}

/// A law of entries: where the match block lacks none of the literals in use, each of them is what the matches of some entry
/// become.
pub fn literals_have_entries()
    ensures { (g : Grammar) (es : List InternEntry) (l : Terminal) (p : TextSpan)
        → AreFullEntries g es → first_span (uses_in_grammar g) l ≡ Some p
        → (e : InternEntry) × (Among es e × (e.mapping ≡ EntryMapping.terminal l)) }
{}
