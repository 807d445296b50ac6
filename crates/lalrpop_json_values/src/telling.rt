//! Faults as text: all words that a fault of a value prints.

ghost use Rattle.std.specs.Prelude.{Some};
ghost use Rattle.std.specs.Fmt.{WritesOnOk};
ghost use Rattle.lalrpop_json_values.specs.FaultText.{fault_text, kind_text, path_text, read_error_text, step_text};

use crate::fault::{Fault, FaultKind, ReadError, Step};
use crate::json_text::JsonText;
use std::error::Error;
use std::fmt::{self, Display, Formatter, Write};

/// A path that is printed: a slash before each key and each index.
#[derive(Clone, Copy)]
pub struct PathText<'p>(pub &'p [Step]);

impl Display for Step {
    ghost output = { λ s. Some (step_text s) };

    fn fmt<W: Write>(&self, f: &mut Formatter<W>) -> fmt::Result {
        match self {
            Step::Key(key) => f.write_str(key.text()),
            Step::Index(index) => index.fmt(f),
        }
    }
}

impl Display for PathText<'_> {
    ghost output = { λ path. Some (path_text path.0.now) };

    fn fmt<W: Write>(&self, f: &mut Formatter<W>) -> fmt::Result {
        for step in self.0 {
            write!(f, "/{step}")?;
        }
        Ok(())
    }
}

/// Prints `missing key "K"`, `unknown key "K"`, `wrong shape`, `bad name` or `bad number`.
impl Display for FaultKind {
    ghost output = { λ kind. Some (kind_text kind) };

    fn fmt<W: Write>(&self, f: &mut Formatter<W>) -> fmt::Result {
        match self {
            FaultKind::MissingKey(key) => write!(f, "missing key {}", JsonText(key.text())),
            FaultKind::UnknownKey(name) => write!(f, "unknown key {}", JsonText(name.as_str())),
            FaultKind::WrongShape => f.write_str("wrong shape"),
            FaultKind::BadName => f.write_str("bad name"),
            FaultKind::BadNumber => f.write_str("bad number"),
        }
    }
}

/// Prints what is wrong, ` at `, and the path as a JSON string: no byte of a path has an escape in JSON, so it stands in
/// quotes as it is.
impl Display for Fault {
    ghost output = { λ fault. Some (fault_text fault) };

    fn fmt<W: Write>(&self, f: &mut Formatter<W>) -> fmt::Result {
        write_fault(self.path.as_slice(), &self.kind, f)
    }
}

fn write_fault<W: Write>(path: &[Step], kind: &FaultKind, f: &mut Formatter<W>) -> fmt::Result
    ensures { WritesOnOk W.write_str_gives f.old result
        (fault_text (record { path = path.now; kind = kind.now })) f.new }
{
    write!(f, "{kind} at \"{}\"", PathText(path))
}

impl Error for Fault {}

impl Display for ReadError {
    ghost output = { λ e. Some (read_error_text e) };

    fn fmt<W: Write>(&self, f: &mut Formatter<W>) -> fmt::Result {
        match self {
            ReadError::Shape { path, kind } => write_fault(path.as_slice(), kind, f),
            ReadError::Memory => f.write_str("out of memory"),
        }
    }
}

impl Error for ReadError {}
