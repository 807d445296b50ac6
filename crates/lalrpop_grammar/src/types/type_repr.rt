//! Types of nonterminals and terminals, with every name resolved.

ghost use Rattle.std.specs.Prelude.{◌≡◌, ◌↔◌, IfOk, IsTrue, codes};

use crate::types::lifetime::clone_lifetime;
use lalrpop_grammar_symbols::{Atom, Boxed, List};
use std::alloc::{AllocError, Global};

/// A type.
#[cycle(type_repr)]
#[derive(Debug, PartialEq, Eq, Drop)]
pub enum TypeRepr {
    /// `(A, B)`.
    Tuple(List<TypeRepr>),
    /// `path::Name<A, B>`.
    Nominal(NominalTypeRepr),
    /// `&'a mut A`.
    Ref {
        /// The lifetime, where there is one.
        lifetime: Option<Atom>,
        /// Whether `mut` is there.
        mutable: bool,
        /// What is referred to.
        referent: Boxed<TypeRepr>,
    },
    /// Any other type, as text.
    Opaque(Atom),
}

/// A type by its name.
#[cycle(type_repr)]
#[derive(Debug, PartialEq, Eq, Drop)]
pub struct NominalTypeRepr {
    /// The path, as text.
    pub path: Atom,
    /// The arguments, in order.
    pub types: List<TypeRepr>,
}

impl TypeRepr {
    ghost use Rattle.lalrpop_grammar.specs.TypeReprs.{IsUnit, named_type};

    /// Whether it is the empty tuple.
    pub fn is_unit(&self) -> bool
        ensures { IsTrue result ↔ IsUnit self.now }
    {
        match self {
            TypeRepr::Tuple(types) => types.is_empty(),
            TypeRepr::Nominal(_) | TypeRepr::Ref { .. } | TypeRepr::Opaque(_) => false,
        }
    }

    /// The type `usize`.
    pub fn usize(alloc: Global) -> Result<TypeRepr, AllocError>
        ensures { IfOk result (λ made. made ≡ named_type (codes "usize")) }
    {
        nominal_type(alloc, "usize")
    }

    /// The type `str`.
    pub fn str(alloc: Global) -> Result<TypeRepr, AllocError>
        ensures { IfOk result (λ made. made ≡ named_type (codes "str")) }
    {
        nominal_type(alloc, "str")
    }

    /// A copy that equals it.
    #[cycle(try_clone_types)]
    pub fn try_clone(&self, alloc: Global) -> Result<TypeRepr, AllocError>
        ensures { IfOk result (λ copy. copy ≡ self.now) }
    {
        match self {
            TypeRepr::Tuple(types) => Ok(TypeRepr::Tuple(clone_types(alloc, types.as_slice())?)),
            TypeRepr::Nominal(nominal) => Ok(TypeRepr::Nominal(nominal.try_clone(alloc)?)),
            TypeRepr::Ref {
                lifetime,
                mutable,
                referent,
            } => {
                let lifetime = clone_lifetime(lifetime)?;
                let copy = referent.get().try_clone(alloc)?;
                Ok(TypeRepr::Ref {
                    lifetime,
                    mutable: *mutable,
                    referent: Boxed::new(alloc, copy)?,
                })
            }
            TypeRepr::Opaque(text) => Ok(TypeRepr::Opaque(text.try_clone()?)),
        }
    }
}

impl NominalTypeRepr {
    /// A copy that equals it.
    #[cycle(try_clone_types)]
    pub fn try_clone(&self, alloc: Global) -> Result<NominalTypeRepr, AllocError>
        ensures { IfOk result (λ copy. copy ≡ self.now) }
    {
        Ok(NominalTypeRepr {
            path: self.path.try_clone()?,
            types: clone_types(alloc, self.types.as_slice())?,
        })
    }
}

ghost use Rattle.lalrpop_grammar.specs.TypeReprs.{named_type};

/// The type of that name, without arguments.
fn nominal_type(alloc: Global, name: &str) -> Result<TypeRepr, AllocError>
    ensures { IfOk result (λ made. made ≡ named_type name.now) }
{
    Ok(TypeRepr::Nominal(NominalTypeRepr {
        path: Atom::new(alloc, name)?,
        types: List::new(alloc),
    }))
}

/// Copies of the types, in order.
#[cycle(try_clone_types)]
fn clone_types(alloc: Global, types: &[TypeRepr]) -> Result<List<TypeRepr>, AllocError>
    ensures { IfOk result (λ copy. copy ≡ types.now) }
{
    let mut copy = List::new(alloc);
    for part in types {
        copy.push(part.try_clone(alloc)?)?;
    }
    Ok(copy)
}
