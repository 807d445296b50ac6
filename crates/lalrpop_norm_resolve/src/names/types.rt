//! Names in the types that rules declare.

ghost use Rattle.std.specs.Prelude.{◌≡◌, IfOk, map, option_map};
ghost use Rattle.lalrpop_grammar.specs.Views.{type_view, tys};
ghost use Rattle.lalrpop_norm_theory.specs.Premises.{symbols_of_type, symbols_of_types};
ghost use Rattle.lalrpop_norm_theory.specs.Resolving.{resolved_type, resolved_types};
ghost use Rattle.lalrpop_norm_theory.specs.NameFaults.{name_faults_in, name_faults_in_declared};
ghost use Rattle.lalrpop_norm_resolve.specs.FoundFaults.{ChecksNames};
ghost use Rattle.lalrpop_norm_resolve.specs.NameViews.{scope_names, scope_parameters};

use crate::names::definitions::Scope;
use crate::names::faults::check_symbols;
use crate::names::rewriting::resolved_symbol;
use lalrpop_grammar::types::TypeRef;
use lalrpop_grammar_repr::NormFault;
use lalrpop_grammar_symbols::List;
use std::alloc::{AllocError, Global};
use std::slice;

/// Sees that nothing is wrong with the names in the type, at any depth.
#[cycle(check_types)]
fn check_type(alloc: Global, scope: &Scope<'_, '_>, written: &TypeRef) -> Result<(), NormFault>
    ensures { ChecksNames (name_faults_in (scope_names scope.now) (scope_parameters scope.now)
        (symbols_of_type (type_view written.now))) result }
{
    match written {
        TypeRef::Tuple(types) => check_types(alloc, scope, types.as_slice()),
        TypeRef::Nominal { path: _, types } => check_types(alloc, scope, types.as_slice()),
        TypeRef::Id(_) => Ok(()),
        TypeRef::OfSymbol(symbol) => check_symbols(alloc, scope, slice::from_ref(symbol)),
        TypeRef::Ref {
            lifetime: _,
            mutable: _,
            referent,
        } => check_type(alloc, scope, referent.get()),
        TypeRef::Opaque(_) => Ok(()),
    }
}

/// Sees that nothing is wrong with the names in the types, at any depth.
#[cycle(check_types)]
fn check_types(alloc: Global, scope: &Scope<'_, '_>, types: &[TypeRef]) -> Result<(), NormFault>
    ensures { ChecksNames (name_faults_in (scope_names scope.now) (scope_parameters scope.now)
        (symbols_of_types (tys (map type_view types.now)))) result }
{
    for written in types {
        check_type(alloc, scope, written)?;
    }
    Ok(())
}

/// Sees that nothing is wrong with the names in the type, where one is declared.
pub(crate) fn check_declared(
    alloc: Global,
    scope: &Scope<'_, '_>,
    declared: &Option<TypeRef>,
) -> Result<(), NormFault>
    ensures { ChecksNames (name_faults_in_declared (scope_names scope.now) (scope_parameters scope.now)
        (option_map type_view declared.now)) result }
{
    match declared {
        None => Ok(()),
        Some(written) => check_type(alloc, scope, written),
    }
}

/// The type with the names in its symbols resolved.
#[cycle(resolved_types)]
fn resolved_type(
    alloc: Global,
    scope: &Scope<'_, '_>,
    written: &TypeRef,
) -> Result<TypeRef, AllocError>
    ensures { IfOk result (λ made. type_view made
        ≡ resolved_type (scope_names scope.now) (scope_parameters scope.now) (type_view written.now)) }
{
    match written {
        TypeRef::Tuple(types) => {
            let types = resolved_types(alloc, scope, types.as_slice())?;
            Ok(TypeRef::Tuple(types))
        }
        TypeRef::Nominal { path, types } => {
            let path = path.try_clone()?;
            let types = resolved_types(alloc, scope, types.as_slice())?;
            Ok(TypeRef::Nominal { path, types })
        }
        TypeRef::Id(name) => Ok(TypeRef::Id(name.try_clone()?)),
        TypeRef::OfSymbol(symbol) => {
            let symbol = resolved_symbol(alloc, scope, symbol)?;
            Ok(TypeRef::OfSymbol(symbol))
        }
        TypeRef::Ref {
            lifetime,
            mutable,
            referent,
        } => {
            let referent = resolved_type(alloc, scope, referent.get())?;
            TypeRef::reference_to(alloc, lifetime, *mutable, referent)
        }
        TypeRef::Opaque(text) => Ok(TypeRef::Opaque(text.try_clone()?)),
    }
}

/// The types, in order, with the names in their symbols resolved.
#[cycle(resolved_types)]
fn resolved_types(
    alloc: Global,
    scope: &Scope<'_, '_>,
    types: &[TypeRef],
) -> Result<List<TypeRef>, AllocError>
    ensures { IfOk result (λ made. tys (map type_view made)
        ≡ resolved_types (scope_names scope.now) (scope_parameters scope.now) (tys (map type_view types.now))) }
{
    let mut made = List::new(alloc);
    for written in types {
        made.push(resolved_type(alloc, scope, written)?)?;
    }
    Ok(made)
}

/// The type with the names in its symbols resolved, where one is declared.
pub(crate) fn resolved_declared(
    alloc: Global,
    scope: &Scope<'_, '_>,
    declared: &Option<TypeRef>,
) -> Result<Option<TypeRef>, AllocError>
    ensures { IfOk result (λ made. option_map type_view made
        ≡ option_map (resolved_type (scope_names scope.now) (scope_parameters scope.now)) (option_map type_view declared.now)) }
{
    match declared {
        None => Ok(None),
        Some(written) => Ok(Some(resolved_type(alloc, scope, written)?)),
    }
}
