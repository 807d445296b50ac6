//! Refusals of a grammar.

ghost use Rattle.std.specs.Prelude.{◌≡◌, Some};
ghost use Rattle.lalrpop_run_prepare.specs.Refusals.{fault_number, refusal_for, refusal_text};

use lalrpop_grammar_repr::{NormError, NormErrorKind, NormFault};
use lalrpop_grammar_symbols::Atom;
use lalrpop_judge::certificates::Certificate;
use std::alloc::{AllocError, AllocFailed};
use std::error::Error;
use std::fmt::{self, Debug, Display, Formatter, Write};

/// Why a grammar is refused. What is refused for an earlier one of these isn't looked at for a later one; want of memory may come
/// in the place of any.
#[derive(Drop)]
pub enum GenerateError<'p> {
    /// It has an `extern` block.
    Extern,
    /// An enabled alternative has `!`, the symbol of error recovery.
    Recovery,
    /// Something is wrong with it.
    Norm(NormError),
    /// No enabled rule of this name is one without parameters.
    UnknownStart(Atom),
    /// Some enabled rule of this name has no parameters, but none of these is public.
    PrivateStart(Atom),
    /// The start reaches this nonterminal, and no finite sentence comes from it.
    Barren(Atom),
    /// It isn't LR(1): a certificate for each conflict of its canonical states, in their order.
    Conflicts(Vec<Certificate<'p>>),
    /// The search for a condition's pattern gave up for the pattern's size. It comes in the place of a later fault of the
    /// normalizer.
    ConditionLimit,
    /// Memory ran out.
    Memory,
}

/// Prints the line that the program writes first for the refusal, without a line feed. A fault is told by its number, the bytes from
/// which to which it stands, and its message; conflicts by how many there are.
impl Display for GenerateError<'_> {
    ghost output = { λ error. Some (refusal_text error) };

    fn fmt<W: Write>(&self, f: &mut Formatter<W>) -> fmt::Result {
        match self {
            GenerateError::Extern => f.write_str("extern block not carried"),
            GenerateError::Recovery => f.write_str("error recovery not carried"),
            GenerateError::Norm(error) => write!(
                f,
                "N{} at {}..{}: {error}",
                number_of(&error.kind),
                error.span.0,
                error.span.1
            ),
            GenerateError::UnknownStart(name) => write!(f, "unknown start: {name}"),
            GenerateError::PrivateStart(name) => write!(f, "private start: {name}"),
            GenerateError::Barren(name) => write!(f, "barren nonterminal: {name}"),
            GenerateError::Conflicts(certificates) => {
                write!(f, "conflicts: {}", certificates.len())
            }
            GenerateError::ConditionLimit => f.write_str("condition limit"),
            GenerateError::Memory => f.write_str("out of memory"),
        }
    }
}

/// The same line.
impl Debug for GenerateError<'_> {
    fn fmt<W: Write>(&self, f: &mut Formatter<W>) -> fmt::Result {
        write!(f, "{self}")
    }
}

impl Error for GenerateError<'_> {}

/// The number of a kind of fault.
fn number_of(kind: &NormErrorKind) -> u8
    ensures { result ≡ fault_number kind.now }
{
    match kind {
        NormErrorKind::DuplicateDefinition(_) => 1,
        NormErrorKind::SecondMatchBlock => 2,
        NormErrorKind::UnknownAttribute(_) => 3,
        NormErrorKind::PublicInline => 4,
        NormErrorKind::FirstWithoutLevel => 5,
        NormErrorKind::LevelIsNoNumber => 6,
        NormErrorKind::SideOnTightestLevel => 7,
        NormErrorKind::UnknownSide => 8,
        NormErrorKind::ReservedPrefix => 9,
        NormErrorKind::NamedNotAllowed => 10,
        NormErrorKind::EntryTwice => 11,
        NormErrorKind::NoDefinition(_) => 12,
        NormErrorKind::WrongNumberOfArguments => 13,
        NormErrorKind::MacroAsRule => 14,
        NormErrorKind::MacroDepth(_) => 15,
        NormErrorKind::ConditionOnOther => 16,
        NormErrorKind::ConditionPattern => 17,
        NormErrorKind::NotInMatchBlock(_) => 18,
        NormErrorKind::PatternRefused(_) => 19,
        NormErrorKind::SameText(_, _) => 20,
        NormErrorKind::TypesDisagree => 21,
        NormErrorKind::NoType(_) => 22,
        NormErrorKind::TooManyActions => 23,
        NormErrorKind::CyclicInline(_) => 24,
    }
}

impl From<NormFault> for GenerateError<'_> {
    ghost from_gives = { λ fault error. error ≡ refusal_for fault };

    fn from(fault: NormFault) -> Self {
        match fault {
            NormFault::Norm(error) => GenerateError::Norm(error),
            NormFault::ConditionLimit => GenerateError::ConditionLimit,
            NormFault::Memory => GenerateError::Memory,
        }
    }
}

impl From<AllocError> for GenerateError<'_> {
    ghost use Rattle.lalrpop_run_prepare.specs.declared.refusals.refusing.GenerateError.TheVariants.{Memory};

    ghost from_gives = { λ _ error. error ≡ Memory };

    fn from(_: AllocError) -> Self {
        GenerateError::Memory
    }
}

impl<T: Drop> From<AllocFailed<T>> for GenerateError<'_> {
    ghost use Rattle.lalrpop_run_prepare.specs.declared.refusals.refusing.GenerateError.TheVariants.{Memory};

    ghost from_gives = { λ _ error. error ≡ Memory };

    fn from(_: AllocFailed<T>) -> Self {
        GenerateError::Memory
    }
}
