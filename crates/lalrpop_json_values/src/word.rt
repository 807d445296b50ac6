//! The words that tell a form, and those that stand for signs.

ghost use Rattle.std.specs.Prelude.{◌≡◌};
ghost use Rattle.lalrpop_json_values.specs.Word.{word_text};

/// A word of the format.
#[derive(Clone, Copy, PartialEq, Eq)]
pub enum Word {
    /// A symbol that is chosen.
    Choose,
    /// A condition on another text.
    Differs,
    /// A condition on this text.
    Equals,
    /// Error recovery.
    Error,
    /// A grammar item that is an extern block.
    Extern,
    /// A symbol that is a group.
    Group,
    /// A symbol that is a name.
    Id,
    /// `@L`: the byte where the next token begins.
    Lookahead,
    /// `@R`: the byte where the last token ends.
    Lookbehind,
    /// A symbol that calls a macro.
    Macro,
    /// A grammar item that is a match block.
    Match,
    /// A condition on a pattern that is found.
    Matches,
    /// A condition on a pattern that isn't found.
    MatchesNot,
    /// A symbol with a name.
    Named,
    /// Once or more.
    Plus,
    /// A rule for this grammar alone.
    Priv,
    /// A rule that may be a start.
    Pub,
    /// At most once.
    Question,
    /// A symbol that is repeated.
    Repeat,
    /// A grammar item that is a rule.
    Rule,
    /// Matches that are left out.
    Skip,
    /// Any number of times.
    Star,
    /// A symbol that is a terminal.
    Terminal,
    /// A grammar item that is an import.
    Use,
}

impl Word {
    /// The word as it stands in the JSON text.
    #[tactic(auto, unfolding(crate::specs::Word::word_text))]
    pub fn text(self) -> &'static str
        ensures { result.now ≡ word_text self }
    {
        match self {
            Word::Choose => "choose",
            Word::Differs => "!=",
            Word::Equals => "==",
            Word::Error => "error",
            Word::Extern => "extern",
            Word::Group => "group",
            Word::Id => "id",
            Word::Lookahead => "lookahead",
            Word::Lookbehind => "lookbehind",
            Word::Macro => "macro",
            Word::Match => "match",
            Word::Matches => "~~",
            Word::MatchesNot => "!~",
            Word::Named => "named",
            Word::Plus => "+",
            Word::Priv => "priv",
            Word::Pub => "pub",
            Word::Question => "?",
            Word::Repeat => "repeat",
            Word::Rule => "rule",
            Word::Skip => "skip",
            Word::Star => "*",
            Word::Terminal => "terminal",
            Word::Use => "use",
        }
    }
}
