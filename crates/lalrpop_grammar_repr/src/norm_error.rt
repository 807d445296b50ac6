//! What may be wrong with a written grammar.

ghost use Rattle.std.specs.Prelude.{◌≡◌, ◌++◌, IfOk, Some, string_bytes};
ghost use Rattle.std.specs.Fmt.{WritesOnOk};
ghost use Rattle.lalrpop_grammar_repr.specs.NormErrorTexts.{IsPlainKind, norm_error_text};

use lalrpop_grammar::{Atom, NonterminalString, Span, TerminalLiteral};
use std::error::Error;
use std::fmt::{self, Debug, Display, Formatter, Write};

/// A fault of a written grammar, and where it stands.
#[derive(Debug, PartialEq, Eq)]
pub struct NormError {
    /// What is wrong.
    pub kind: NormErrorKind,
    /// Where.
    pub span: Span,
}

impl Drop for NormError {
    /// Drops what it holds: where it is owned, that is one call.
    fn drop(self) {
        let NormError {
            kind: _kind,
            span: _,
        } = self;
    }
}

/// What is wrong with a written grammar. It prints its message.
#[derive(PartialEq, Eq)]
pub enum NormErrorKind {
    /// N1: two rules, a rule and a mapped bare name, or two parameters of a macro have this name.
    DuplicateDefinition(Atom),
    /// N2: a second match block.
    SecondMatchBlock,
    /// N3: an attribute of this name where none such may stand, or one of another shape.
    UnknownAttribute(Atom),
    /// N4: a public rule is marked `inline`.
    PublicInline,
    /// N5: a rule has levels, and its first alternative has none.
    FirstWithoutLevel,
    /// N6: a level that is no number below 2^32.
    LevelIsNoNumber,
    /// N7: a side on the tightest level.
    SideOnTightestLevel,
    /// N8: a side that is none.
    UnknownSide,
    /// N9: a name that begins with the prefix.
    ReservedPrefix,
    /// N10: a named symbol beside a chosen one, in a group, or in an alternative without user code.
    NamedNotAllowed,
    /// N11: an entry stands twice in the match block.
    EntryTwice,
    /// N12: a name that names nothing.
    NoDefinition(Atom),
    /// N13: a macro with another number of arguments than parameters.
    WrongNumberOfArguments,
    /// N14: a macro without arguments, or arguments for a rule that is none.
    MacroAsRule,
    /// N15: macros within macros beyond this depth.
    MacroDepth(u16),
    /// N16: a condition on something else than a quoted literal.
    ConditionOnOther,
    /// N17: a condition whose pattern is none.
    ConditionPattern,
    /// N18: a literal that no entry of the match block takes.
    NotInMatchBlock(TerminalLiteral),
    /// N19: a literal that is no pattern, or one that no automaton is made for.
    PatternRefused(TerminalLiteral),
    /// N20: two literals match the same word, and none that matches it has a greater precedence.
    SameText(TerminalLiteral, TerminalLiteral),
    /// N21: the alternatives of a rule disagree in type.
    TypesDisagree,
    /// N22: a rule without a type.
    NoType(NonterminalString),
    /// N23: more than 2^32 actions.
    TooManyActions,
    /// N24: a rule that would have to be inlined into itself.
    CyclicInline(NonterminalString),
}

impl Drop for NormErrorKind {
    /// Drops what it holds: where it is owned, that is one call.
    fn drop(self) {
        match self {
            NormErrorKind::DuplicateDefinition(_part) => {}
            NormErrorKind::SecondMatchBlock => {}
            NormErrorKind::UnknownAttribute(_part) => {}
            NormErrorKind::PublicInline => {}
            NormErrorKind::FirstWithoutLevel => {}
            NormErrorKind::LevelIsNoNumber => {}
            NormErrorKind::SideOnTightestLevel => {}
            NormErrorKind::UnknownSide => {}
            NormErrorKind::ReservedPrefix => {}
            NormErrorKind::NamedNotAllowed => {}
            NormErrorKind::EntryTwice => {}
            NormErrorKind::NoDefinition(_part) => {}
            NormErrorKind::WrongNumberOfArguments => {}
            NormErrorKind::MacroAsRule => {}
            NormErrorKind::MacroDepth(_) => {}
            NormErrorKind::ConditionOnOther => {}
            NormErrorKind::ConditionPattern => {}
            NormErrorKind::NotInMatchBlock(_part) => {}
            NormErrorKind::PatternRefused(_part) => {}
            NormErrorKind::SameText(_part, _other) => {}
            NormErrorKind::TypesDisagree => {}
            NormErrorKind::NoType(_part) => {}
            NormErrorKind::TooManyActions => {}
            NormErrorKind::CyclicInline(_part) => {}
        }
    }
}

impl NormErrorKind {
    /// The message, where the kind alone tells it; else nothing.
    fn plain_message(&self) -> &'static str
        ensures { IsPlainKind self.now → result.now ≡ norm_error_text self.now }
    {
        match self {
            NormErrorKind::SecondMatchBlock => "second match block",
            NormErrorKind::PublicInline => "public rules can't be inlined",
            NormErrorKind::FirstWithoutLevel => "the first alternative needs a level",
            NormErrorKind::LevelIsNoNumber => "level is no number",
            NormErrorKind::SideOnTightestLevel => "no side on the tightest level",
            NormErrorKind::UnknownSide => "unknown side",
            NormErrorKind::ReservedPrefix => "reserved prefix",
            NormErrorKind::NamedNotAllowed => "named symbol not allowed here",
            NormErrorKind::EntryTwice => "entry listed twice",
            NormErrorKind::WrongNumberOfArguments => "wrong number of arguments",
            NormErrorKind::MacroAsRule => "macro used as a rule or rule as a macro",
            NormErrorKind::ConditionOnOther => "condition on something else than a literal",
            NormErrorKind::ConditionPattern => "condition pattern not read",
            NormErrorKind::TypesDisagree => "alternatives disagree in type",
            NormErrorKind::TooManyActions => "too many actions",
            NormErrorKind::DuplicateDefinition(_)
            | NormErrorKind::UnknownAttribute(_)
            | NormErrorKind::NoDefinition(_)
            | NormErrorKind::MacroDepth(_)
            | NormErrorKind::NotInMatchBlock(_)
            | NormErrorKind::PatternRefused(_)
            | NormErrorKind::SameText(_, _)
            | NormErrorKind::NoType(_)
            | NormErrorKind::CyclicInline(_) => "",
        }
    }
}

impl Display for NormErrorKind {
    ghost output = { λ kind. Some (norm_error_text kind) };

    fn fmt<W: Write>(&self, f: &mut Formatter<W>) -> fmt::Result {
        match self {
            NormErrorKind::DuplicateDefinition(name) => {
                write_name("duplicate definition of `", name, "`", f)
            }
            NormErrorKind::UnknownAttribute(name) => {
                write_name("unknown attribute `", name, "`", f)
            }
            NormErrorKind::NoDefinition(name) => {
                write_name("no definition found for `", name, "`", f)
            }
            NormErrorKind::MacroDepth(limit) => write!(f, "macro depth above {limit}"),
            NormErrorKind::NotInMatchBlock(literal) => {
                write!(f, "{literal} isn't in the match block")
            }
            NormErrorKind::PatternRefused(literal) => write!(f, "pattern refused: {literal}"),
            NormErrorKind::SameText(first, second) => {
                write!(f, "{first} and {second} match the same text")
            }
            NormErrorKind::NoType(name) => write_name("no type for `", &name.0, "`", f),
            NormErrorKind::CyclicInline(name) => write_name(
                "cyclic inline directive: `",
                &name.0,
                "` would have to be inlined into itself",
                f,
            ),
            _ => f.write_str(self.plain_message()),
        }
    }
}

/// Writes the name with a text before and behind it.
fn write_name<W: Write>(front: &str, name: &Atom, back: &str, f: &mut Formatter<W>) -> fmt::Result
    ensures { WritesOnOk W.write_str_gives f.old result (front.now ++ name.now ++ back.now) f.new }
{
    f.write_str(front)?;
    f.write_str(name.as_str())?;
    f.write_str(back)
}

/// Prints the message.
impl Debug for NormErrorKind {
    fn fmt<W: Write>(&self, f: &mut Formatter<W>) -> fmt::Result {
        Display::fmt(self, f)
    }
}

impl Error for NormErrorKind {}

impl Display for NormError {
    ghost output = { λ error. Some (norm_error_text error.kind) };

    fn fmt<W: Write>(&self, f: &mut Formatter<W>) -> fmt::Result {
        write!(f, "{}", self.kind)
    }
}

impl Error for NormError {}
