//! Laws of cuts and tokens.

ghost use Rattle.std.specs.Prelude.{◌≡◌, ℕ, List, [], encode_utf8_all};
ghost use Rattle.std.specs.List.{AllByRecursion};
ghost use Rattle.lalrpop_grammar_symbols.specs.Symbols.{Text};
ghost use Rattle.lalrpop_grammar.specs.Trees.{Token};
ghost use Rattle.lalrpop_lexer_scan.specs.Entries.{ScanEntry};
ghost use Rattle.lalrpop_lexer_scan.specs.Pieces.{Piece, IsCut};
ghost use Rattle.lalrpop_lexer_scan.specs.Tokens.{AreTokensOf, NoTokenAt, FillTheText, StandsIn};

/// A law of cuts: entries cut a whole text in one way at most, so it has one list of tokens at most, or else one place at
/// most where it has no token.
pub fn cuts_are_unique()
    ensures pieces { (es : List ScanEntry) (text : List ℕ) (ps qs : List Piece)
        → IsCut es text ps [] → IsCut es text qs [] → ps ≡ qs }
    ensures tokens { (es : List ScanEntry) (text : List ℕ) (ts us : List Token)
        → AreTokensOf es text ts → AreTokensOf es text us → ts ≡ us }
    ensures places { (es : List ScanEntry) (text : List ℕ) (m n : ℕ)
        → NoTokenAt es text m → NoTokenAt es text n → m ≡ n }
    ensures never_both { (es : List ScanEntry) (text : List ℕ) (ts : List Token) (n : ℕ)
        → AreTokensOf es text ts → NoTokenAt es text n → ⊥ }
{}

/// A law of tokens: they and the skipped parts, joined, are the text, each is nonempty, and each token stands in the text
/// where its span says.
pub fn tokens_fill_their_text()
    ensures filled { (es : List ScanEntry) (text : List ℕ) (ts : List Token)
        → AreTokensOf es text ts → FillTheText (encode_utf8_all text) ts }
    ensures placed { (text : Text) (ts : List Token)
        → FillTheText text ts → AllByRecursion (StandsIn text) ts }
{}
