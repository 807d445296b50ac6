//! Comparison of types.

ghost use Rattle.std.specs.Prelude.{◌≡◌, ◌↔◌, IsTrue, map};
ghost use Rattle.lalrpop_norm_tyinfer.specs.GroundViews.{ground_types, type_repr_view};

use lalrpop_grammar_repr::TypeRepr;
use lalrpop_grammar_symbols::Atom;

/// Whether the lifetimes are equal.
fn same_lifetime(a: &Option<Atom>, b: &Option<Atom>) -> bool
    ensures { IsTrue result ↔ (a.now ≡ b.now) }
{
    match (a, b) {
        (None, None) => true,
        (Some(a), Some(b)) => *a == *b,
        _ => false,
    }
}

/// Whether the types are equal.
#[cycle(same_type)]
pub(crate) fn same_type(a: &TypeRepr, b: &TypeRepr) -> bool
    ensures { IsTrue result ↔ (type_repr_view a.now ≡ type_repr_view b.now) }
{
    match (a, b) {
        (TypeRepr::Tuple(a), TypeRepr::Tuple(b)) => same_types(a.as_slice(), b.as_slice()),
        (TypeRepr::Nominal(a), TypeRepr::Nominal(b)) => {
            a.path == b.path && same_types(a.types.as_slice(), b.types.as_slice())
        }
        (
            TypeRepr::Ref {
                lifetime: a_lifetime,
                mutable: a_mutable,
                referent: a,
            },
            TypeRepr::Ref {
                lifetime: b_lifetime,
                mutable: b_mutable,
                referent: b,
            },
        ) => {
            same_lifetime(a_lifetime, b_lifetime)
                && *a_mutable == *b_mutable
                && same_type(a.get(), b.get())
        }
        (TypeRepr::Opaque(a), TypeRepr::Opaque(b)) => *a == *b,
        _ => false,
    }
}

/// Whether the types are equal, one by one.
#[cycle(same_type)]
fn same_types(a: &[TypeRepr], b: &[TypeRepr]) -> bool
    ensures { IsTrue result
        ↔ (ground_types (map type_repr_view a.now) ≡ ground_types (map type_repr_view b.now)) }
{
    let mut others = b;
    for ty in a {
        match others.split_first() {
            None => return false,
            Some((other, rest)) => {
                if !same_type(ty, other) {
                    return false;
                }
                others = rest;
            }
        }
    }
    others.is_empty()
}
