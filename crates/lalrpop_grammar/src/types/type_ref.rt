//! Types that a written rule declares.

ghost use Rattle.std.specs.Prelude.{◌≡◌, IfOk, map, option_map};
ghost use Rattle.lalrpop_grammar.specs.Grounding.{all_types, nominal_of, type_repr_of};
ghost use Rattle.lalrpop_grammar.specs.declared.types.type_ref.TypeRef.TheVariants.{Ref as ref_type};
ghost use Rattle.lalrpop_grammar.specs.declared.types.type_repr.TypeRepr.TheVariants as variants;

use crate::types::lifetime::clone_lifetime;
use crate::types::type_repr::{NominalTypeRepr, TypeRepr};
use lalrpop_grammar_symbols::{Atom, Boxed, List, Symbol};
use std::alloc::{AllocError, Global};

/// A type as it is written.
#[derive(PartialEq, Eq, Drop)]
pub enum TypeRef {
    /// `(A, B)`.
    Tuple(List<TypeRef>),
    /// `path::Name<A, B>`.
    Nominal {
        /// The path, as text.
        path: Atom,
        /// The arguments, in order.
        types: List<TypeRef>,
    },
    /// A name that may be a macro's parameter.
    Id(Atom),
    /// `#A#`: the type of a symbol.
    OfSymbol(Symbol),
    /// `&'a mut A`.
    Ref {
        /// The lifetime, where one is written.
        lifetime: Option<Atom>,
        /// Whether `mut` is written.
        mutable: bool,
        /// What is referred to.
        referent: Boxed<TypeRef>,
    },
    /// Any other type, as text.
    Opaque(Atom),
}

impl TypeRef {
    /// `&'a mut A`: the reference to that type.
    pub fn reference_to(
        alloc: Global,
        lifetime: &Option<Atom>,
        mutable: bool,
        referent: TypeRef,
    ) -> Result<TypeRef, AllocError>
        ensures { IfOk result (λ made. made ≡ ref_type lifetime.now mutable referent) }
    {
        let referent = Boxed::new(alloc, referent)?;
        let lifetime = clone_lifetime(lifetime)?;
        Ok(TypeRef::Ref {
            lifetime,
            mutable,
            referent,
        })
    }

    /// A copy that equals it.
    #[cycle(try_clone_types)]
    pub fn try_clone(&self, alloc: Global) -> Result<TypeRef, AllocError>
        ensures { IfOk result (λ copy. copy ≡ self.now) }
    {
        match self {
            TypeRef::Tuple(types) => Ok(TypeRef::Tuple(clone_types(alloc, types.as_slice())?)),
            TypeRef::Nominal { path, types } => {
                let path = path.try_clone()?;
                let types = clone_types(alloc, types.as_slice())?;
                Ok(TypeRef::Nominal { path, types })
            }
            TypeRef::Id(name) => Ok(TypeRef::Id(name.try_clone()?)),
            TypeRef::OfSymbol(symbol) => Ok(TypeRef::OfSymbol(symbol.try_clone(alloc)?)),
            TypeRef::Ref {
                lifetime,
                mutable,
                referent,
            } => {
                let referent = clone_boxed(alloc, referent)?;
                Ok(TypeRef::Ref {
                    lifetime: clone_lifetime(lifetime)?,
                    mutable: *mutable,
                    referent,
                })
            }
            TypeRef::Opaque(text) => Ok(TypeRef::Opaque(text.try_clone()?)),
        }
    }

    /// The type of the same shape, where a name is the type of that name without arguments. None where it is or holds the
    /// type of a symbol.
    #[cycle(type_reprs)]
    pub fn type_repr(&self, alloc: Global) -> Result<Option<TypeRepr>, AllocError>
        ensures { IfOk result (λ found. found ≡ type_repr_of self.now) }
    {
        match self {
            TypeRef::Tuple(types) => Ok(tuple_repr(type_reprs(alloc, types.as_slice())?)),
            TypeRef::Nominal { path, types } => {
                nominal_repr(path, type_reprs(alloc, types.as_slice())?)
            }
            TypeRef::Id(name) => nominal_repr(name, Some(List::new(alloc))),
            TypeRef::OfSymbol(_) => Ok(None),
            TypeRef::Ref {
                lifetime,
                mutable,
                referent,
            } => ref_repr(alloc, lifetime, *mutable, referent.get().type_repr(alloc)?),
            TypeRef::Opaque(text) => Ok(Some(TypeRepr::Opaque(text.try_clone()?))),
        }
    }
}

/// The tuple of the types, where there are some.
fn tuple_repr(types: Option<List<TypeRepr>>) -> Option<TypeRepr>
    ensures { result ≡ option_map variants.Tuple types }
{
    Some(TypeRepr::Tuple(types?))
}

/// The type of that name with these arguments, where there are some.
fn nominal_repr(path: &Atom, types: Option<List<TypeRepr>>) -> Result<Option<TypeRepr>, AllocError>
    ensures { IfOk result (λ found. found ≡ option_map (nominal_of path.now) types) }
{
    match types {
        None => Ok(None),
        Some(types) => {
            let path = path.try_clone()?;
            Ok(Some(TypeRepr::Nominal(NominalTypeRepr { path, types })))
        }
    }
}

/// The reference to that type, where there is one.
fn ref_repr(
    alloc: Global,
    lifetime: &Option<Atom>,
    mutable: bool,
    referent: Option<TypeRepr>,
) -> Result<Option<TypeRepr>, AllocError>
    ensures { IfOk result (λ found. found ≡ option_map (variants.Ref lifetime.now mutable) referent) }
{
    match referent {
        None => Ok(None),
        Some(referent) => {
            let referent = Boxed::new(alloc, referent)?;
            let lifetime = clone_lifetime(lifetime)?;
            Ok(Some(TypeRepr::Ref {
                lifetime,
                mutable,
                referent,
            }))
        }
    }
}

/// A copy of the boxed type.
#[cycle(try_clone_types)]
fn clone_boxed(alloc: Global, type_ref: &Boxed<TypeRef>) -> Result<Boxed<TypeRef>, AllocError>
    ensures { IfOk result (λ copy. copy ≡ type_ref.now) }
{
    let copy = type_ref.get().try_clone(alloc)?;
    Boxed::new(alloc, copy)
}

/// Copies of the types, in order.
#[cycle(try_clone_types)]
fn clone_types(alloc: Global, types: &[TypeRef]) -> Result<List<TypeRef>, AllocError>
    ensures { IfOk result (λ copy. copy ≡ types.now) }
{
    let mut copy = List::new(alloc);
    for type_ref in types {
        copy.push(type_ref.try_clone(alloc)?)?;
    }
    Ok(copy)
}

/// The types of the same shapes, in order; none where one of them has none.
#[cycle(type_reprs)]
fn type_reprs(alloc: Global, types: &[TypeRef]) -> Result<Option<List<TypeRepr>>, AllocError>
    ensures { IfOk result (λ found. found ≡ all_types (map type_repr_of types.now)) }
{
    let mut found = List::new(alloc);
    for written in types {
        match written.type_repr(alloc)? {
            None => return Ok(None),
            Some(ty) => found.push(ty)?,
        }
    }
    Ok(Some(found))
}
