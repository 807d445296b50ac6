//! Names of rules and of named symbols.

ghost use Rattle.std.specs.Prelude.{◌≡◌, IfOk, length, true, false};

use crate::atom::Atom;
use std::alloc::AllocError;
use std::fmt::{self, Display, Formatter, Write};

/// The name of a rule, of a macro's parameter, or of a nonterminal.
#[derive(Debug, PartialEq, Eq, PartialOrd, Ord, Hash)]
pub struct NonterminalString(pub Atom);

impl Drop for NonterminalString {
    /// Drops what it holds: where it is owned, that is one call.
    fn drop(self) {
        let NonterminalString(_text) = self;
    }
}

/// The name that a symbol is given for the user's action, as in `<mut x:Expr>`.
#[derive(PartialEq, Eq, PartialOrd, Ord, Hash)]
pub struct Name {
    /// Whether `mut` stands before it.
    pub mutable: bool,
    /// The name itself.
    pub name: Atom,
}

impl Drop for Name {
    /// Drops what it holds: where it is owned, that is one call.
    fn drop(self) {
        let Name {
            mutable: _,
            name: _name,
        } = self;
    }
}

impl NonterminalString {
    /// How many bytes the name has.
    pub fn len(&self) -> usize
        ensures { result ≡ length self.now.0 }
    {
        self.0.as_str().len()
    }

    /// Its text.
    pub fn into_atom(self) -> Atom
        ensures { result ≡ self.0 }
    {
        let NonterminalString(text) = self;
        text
    }

    /// A copy that equals it.
    pub fn try_clone(&self) -> Result<NonterminalString, AllocError>
        ensures { IfOk result (λ copy. copy ≡ self.now) }
    {
        Ok(NonterminalString(self.0.try_clone()?))
    }
}

impl Name {
    /// A name with its `mut`, or without.
    pub fn new(mutable: bool, name: Atom) -> Name
        ensures mutable_as_given { result.mutable ≡ mutable }
        ensures name_as_given { result.name ≡ name }
    {
        Name { mutable, name }
    }

    /// A name without `mut`.
    pub fn immut(name: Atom) -> Name
        ensures not_mutable { result.mutable ≡ false }
        ensures name_as_given { result.name ≡ name }
    {
        Name {
            mutable: false,
            name,
        }
    }

    /// A copy that equals it.
    pub fn try_clone(&self) -> Result<Name, AllocError>
        ensures { IfOk result (λ copy. copy ≡ self.now) }
    {
        Ok(Name {
            mutable: self.mutable,
            name: self.name.try_clone()?,
        })
    }
}

impl Display for NonterminalString {
    ghost use Rattle.std.specs.Prelude.{Some};

    ghost output = { λ name. Some name.0 };

    fn fmt<W: Write>(&self, f: &mut Formatter<W>) -> fmt::Result {
        f.write_str(self.0.as_str())
    }
}

impl Display for Name {
    ghost use Rattle.std.specs.Prelude.{◌++◌, Some};
    ghost use Rattle.lalrpop_grammar_symbols.specs.Texts.{mutable_text};

    ghost output = { λ name. Some (mutable_text name.mutable ++ name.name) };

    fn fmt<W: Write>(&self, f: &mut Formatter<W>) -> fmt::Result {
        if self.mutable {
            f.write_str("mut ")?;
        }
        f.write_str(self.name.as_str())
    }
}
