//! Rules of a written grammar.

ghost use Rattle.std.specs.Prelude.{◌≡◌, ◌≢◌, ◌↔◌, [], IfOk, IsTrue};

use crate::alternative::Alternative;
use crate::types::{Attribute, TypeRef, clone_attributes};
use lalrpop_grammar_symbols::{Atom, List, NonterminalString, Span};
use std::alloc::{AllocError, Global};

/// Who may use a rule as a start.
#[derive(PartialEq, Eq, Drop)]
pub enum Visibility {
    /// `pub`.
    Pub,
    /// `pub(in path)`, which counts as public.
    PubIn(Atom),
    /// Neither.
    Priv,
}

/// A rule, or a macro where it has parameters.
#[derive(PartialEq, Eq)]
pub struct NonterminalData {
    /// Who may use it.
    pub visibility: Visibility,
    /// Its name.
    pub name: NonterminalString,
    /// Its attributes, in order.
    pub attributes: List<Attribute>,
    /// Where it is written.
    pub span: Span,
    /// Its parameters, in order.
    pub args: List<NonterminalString>,
    /// Its type, where one is declared.
    pub type_decl: Option<TypeRef>,
    /// Its alternatives, in order.
    pub alternatives: List<Alternative>,
}

impl Drop for NonterminalData {
    /// Drops what it holds: where it is owned, that is one call.
    fn drop(self) {
        let NonterminalData {
            visibility: _visibility,
            name: _name,
            attributes: _attributes,
            span: _,
            args: _args,
            type_decl: _type_decl,
            alternatives: _alternatives,
        } = self;
    }
}

impl Visibility {
    ghost use Rattle.lalrpop_grammar.specs.declared.nonterminal.Visibility.TheVariants.{Priv};

    /// Whether it is public: all but `Priv`.
    pub fn is_pub(&self) -> bool
        ensures { IsTrue result ↔ (self.now ≢ Priv) }
    {
        match self {
            Visibility::Pub | Visibility::PubIn(_) => true,
            Visibility::Priv => false,
        }
    }

    /// A copy that equals it.
    pub fn try_clone(&self) -> Result<Visibility, AllocError>
        ensures { IfOk result (λ copy. copy ≡ self.now) }
    {
        match self {
            Visibility::Pub => Ok(Visibility::Pub),
            Visibility::PubIn(path) => Ok(Visibility::PubIn(path.try_clone()?)),
            Visibility::Priv => Ok(Visibility::Priv),
        }
    }
}

impl NonterminalData {
    /// Whether it is a macro: it has parameters.
    pub fn is_macro_def(&self) -> bool
        ensures { IsTrue result ↔ (self.now.args ≢ []) }
    {
        !self.args.is_empty()
    }

    /// A copy that equals it.
    pub fn try_clone(&self, alloc: Global) -> Result<NonterminalData, AllocError>
        ensures { IfOk result (λ copy. copy ≡ self.now) }
    {
        let name = self.name.try_clone()?;
        let args = clone_names(alloc, self.args.as_slice())?;
        let attributes = clone_attributes(alloc, self.attributes.as_slice())?;
        let alternatives = clone_alternatives(alloc, self.alternatives.as_slice())?;
        let visibility = self.visibility.try_clone()?;
        Ok(NonterminalData {
            visibility,
            name,
            span: self.span,
            args,
            attributes,
            alternatives,
            type_decl: clone_type(alloc, &self.type_decl)?,
        })
    }
}

fn clone_names(
    alloc: Global,
    names: &[NonterminalString],
) -> Result<List<NonterminalString>, AllocError>
    ensures { IfOk result (λ copy. copy ≡ names.now) }
{
    let mut copy = List::new(alloc);
    for name in names {
        copy.push(name.try_clone()?)?;
    }
    Ok(copy)
}

fn clone_type(alloc: Global, type_decl: &Option<TypeRef>) -> Result<Option<TypeRef>, AllocError>
    ensures { IfOk result (λ copy. copy ≡ type_decl.now) }
{
    match type_decl {
        None => Ok(None),
        Some(type_ref) => Ok(Some(type_ref.try_clone(alloc)?)),
    }
}

fn clone_alternatives(
    alloc: Global,
    alternatives: &[Alternative],
) -> Result<List<Alternative>, AllocError>
    ensures { IfOk result (λ copy. copy ≡ alternatives.now) }
{
    let mut copy = List::new(alloc);
    for alternative in alternatives {
        copy.push(alternative.try_clone(alloc)?)?;
    }
    Ok(copy)
}
