//! The types that rules of keys declare: a macro's with its parameters put in, and those of repeats.

ghost use Rattle.std.specs.Prelude.{◌≡◌, ◌↔◌, [], ◌∷◌, Bool, IfOk, IsTrue, Option, codes, map, option_map};
ghost use Rattle.lalrpop_grammar_symbols.specs.Symbols.{Closed, Text};
ghost use Rattle.lalrpop_grammar_symbols.specs.Views.{repeat_op_view, symbol_view};
ghost use Rattle.lalrpop_grammar.specs.Views.{alternative_view, type_view};
ghost use Rattle.lalrpop_grammar.specs.WrittenGrammar.{Ty, Tys};
ghost use Rattle.lalrpop_grammar_language.specs.Closing.{close, parameter_value, sound_or_faulty};
ghost use Rattle.lalrpop_grammar_rules.specs.RuleTable.{rules_with};
ghost use Rattle.lalrpop_grammar_rules.specs.Views.{closed_view};
ghost use Rattle.lalrpop_norm_theory.specs.KeyTypes.{IsLeftAsWritten};
ghost use Rattle.lalrpop_norm_keys.specs.Tables.{IsKeyIndex};
ghost use Rattle.lalrpop_norm_macros.specs.KeyDeclarations.{
  ArePutUnder,
  IsDeclaredUnder,
  IsNamedTypeUnder,
  IsPutUnder,
  IsRepeatTypeUnder,
  IsSymbolTypeUnder,
  declaration_scope,
  repeat_path_of,
};
ghost use Rattle.lalrpop_norm_macros.specs.KeyInstances.{IsReady, instance_binding, instance_rule_view};

use crate::key_rules::alternatives::{Instance, binding_in, closed_side};
use crate::key_symbols::{KeyNames, written_or_error, written_symbol};
use lalrpop_grammar::types::TypeRef;
use lalrpop_grammar::{Alternative, Origin};
use lalrpop_grammar_rules::closed::{Bound, ClosedSymbol, bound_to};
use lalrpop_grammar_symbols::{Atom, List, RepeatOp, Span, Symbol, SymbolKind, TerminalString};
use std::alloc::{AllocError, Global};

/// The last of the symbols.
fn last_symbol(symbols: List<ClosedSymbol>) -> ClosedSymbol
    ensures { (x : Closed) → map closed_view symbols ≡ x ∷ [] → closed_view result ≡ x }
{
    match symbols.into_vec().pop() {
        Some(symbol) => symbol,
        None => ClosedSymbol::Faulty,
    }
}

/// An alternative of the symbol alone.
fn alternative_of(alloc: Global, symbol: &Symbol) -> Result<Alternative, AllocError>
    ensures { IfOk result (λ made. (alternative_view made).expr ≡ symbol_view symbol.now ∷ []) }
{
    let mut expr = List::new(alloc);
    expr.push(symbol.try_clone(alloc)?)?;
    Ok(Alternative {
        span: symbol.span,
        expr,
        condition: None,
        action: None,
        attributes: List::new(alloc),
        origin: Origin::Start,
    })
}

/// The closed symbol that the symbol of a declared type stands for.
fn closed_in_type(
    alloc: Global,
    instance: &Instance<'_, '_>,
    symbol: &Symbol,
) -> Result<ClosedSymbol, AllocError>
    requires { IsReady instance.now }
    ensures { IfOk result (λ x. (finds : Text → Text → Option Bool) → closed_view x
        ≡ sound_or_faulty (close (declaration_scope (rules_with finds instance.now.rules.now) (instance_rule_view instance.now)
        (instance_binding instance.now)) 0 (symbol_view symbol.now))) }
{
    let alone = alternative_of(alloc, symbol)?;
    let side = closed_side(alloc, instance, &alone)?;
    Ok(last_symbol(side))
}

/// Whether the symbol can be left as it is written: in an expanded grammar it has no type, and no name that means something else.
fn is_left(symbol: &Symbol) -> bool
    ensures { IsTrue result ↔ IsLeftAsWritten (symbol_view symbol.now) }
{
    match &symbol.kind {
        SymbolKind::Expr(_)
        | SymbolKind::Macro(_)
        | SymbolKind::Repeat(_)
        | SymbolKind::Lookahead
        | SymbolKind::Lookbehind
        | SymbolKind::Error => true,
        SymbolKind::Choose(inside) => is_left(inside.get()),
        SymbolKind::Name(_, inside) => is_left(inside.get()),
        SymbolKind::Terminal(terminal) => match terminal {
            TerminalString::Error => true,
            TerminalString::Literal(_) => false,
            TerminalString::Bare(_) => false,
        },
        SymbolKind::AmbiguousId(_) | SymbolKind::Nonterminal(_) => false,
    }
}

/// The symbol as it is written, or that of error recovery, where the symbol would mean something else.
fn left_symbol(alloc: Global, symbol: &Symbol) -> Result<Symbol, AllocError>
    ensures { IfOk result (λ made. IsLeftAsWritten (symbol_view made)) }
{
    if is_left(symbol) {
        symbol.try_clone(alloc)
    } else {
        Ok(Symbol::new(symbol.span, SymbolKind::Error))
    }
}

/// The type of the symbol that is written there for the closed one, or else that of the other symbol.
fn type_or_left(
    alloc: Global,
    names: &KeyNames<'_>,
    symbol: &ClosedSymbol,
    other: &Symbol,
) -> Result<TypeRef, AllocError>
    requires { IsKeyIndex names.now.keys.now }
    ensures { IfOk result (λ made. IsSymbolTypeUnder names.now (closed_view symbol.now) (type_view made)) }
{
    match written_symbol(alloc, symbol, names, other.span)? {
        Some(written) => Ok(TypeRef::OfSymbol(written)),
        None => Ok(TypeRef::OfSymbol(left_symbol(alloc, other)?)),
    }
}

/// The type of a symbol of a declared type.
fn symbol_type(
    alloc: Global,
    instance: &Instance<'_, '_>,
    symbol: &Symbol,
) -> Result<TypeRef, AllocError>
    requires { IsReady instance.now }
    ensures { IfOk result (λ made. (finds : Text → Text → Option Bool) → IsSymbolTypeUnder instance.now.names.now
        (sound_or_faulty (close (declaration_scope (rules_with finds instance.now.rules.now) (instance_rule_view instance.now)
        (instance_binding instance.now)) 0 (symbol_view symbol.now))) (type_view made)) }
{
    let closed = closed_in_type(alloc, instance, symbol)?;
    type_or_left(alloc, instance.names, &closed, symbol)
}

/// Error recovery, written where the instance's rule is: it has no type.
fn error_in(instance: &Instance<'_, '_>) -> Symbol
    ensures { IsLeftAsWritten (symbol_view result) }
{
    Symbol::new(instance.rule.written.span, SymbolKind::Error)
}

/// The type of the symbol that is written for the closed one, or else that of error recovery.
fn type_or_error(
    alloc: Global,
    instance: &Instance<'_, '_>,
    symbol: &ClosedSymbol,
) -> Result<TypeRef, AllocError>
    requires { IsReady instance.now }
    ensures { IfOk result (λ made. IsSymbolTypeUnder instance.now.names.now (closed_view symbol.now) (type_view made)) }
{
    let other = error_in(instance);
    type_or_left(alloc, instance.names, symbol, &other)
}

/// The type that a name stands for: a parameter's is that of the symbol that it is bound to.
fn named_type(
    alloc: Global,
    instance: &Instance<'_, '_>,
    name: &Atom,
) -> Result<TypeRef, AllocError>
    requires { IsReady instance.now }
    ensures { IfOk result (λ made. IsNamedTypeUnder instance.now.names.now name.now
        (parameter_value (instance_binding instance.now) name.now) (type_view made)) }
{
    match bound_to(binding_in(instance), name) {
        Bound::Free => Ok(TypeRef::Id(name.try_clone()?)),
        Bound::To(symbol) => type_or_error(alloc, instance, symbol),
        Bound::Unclear => Ok(TypeRef::OfSymbol(error_in(instance))),
    }
}

/// The declared type with its parameters put in, and its symbols by the names of their keys.
#[cycle(put)]
fn put_type(
    alloc: Global,
    declared: &TypeRef,
    instance: &Instance<'_, '_>,
) -> Result<TypeRef, AllocError>
    requires { IsReady instance.now }
    ensures { IfOk result (λ made. (finds : Text → Text → Option Bool) → IsPutUnder instance.now.names.now
        (rules_with finds instance.now.rules.now) (instance_rule_view instance.now) (instance_binding instance.now)
        (type_view declared.now) (type_view made)) }
{
    match declared {
        TypeRef::Tuple(types) => {
            let types = put_types(alloc, types.as_slice(), instance)?;
            Ok(TypeRef::Tuple(types))
        }
        TypeRef::Nominal { path, types } => {
            let types = put_types(alloc, types.as_slice(), instance)?;
            Ok(TypeRef::Nominal {
                path: path.try_clone()?,
                types,
            })
        }
        TypeRef::Id(name) => named_type(alloc, instance, name),
        TypeRef::OfSymbol(symbol) => symbol_type(alloc, instance, symbol),
        TypeRef::Ref {
            lifetime,
            mutable,
            referent,
        } => {
            let referent = put_type(alloc, referent.get(), instance)?;
            Ok(TypeRef::reference_to(alloc, lifetime, *mutable, referent)?)
        }
        TypeRef::Opaque(text) => Ok(TypeRef::Opaque(text.try_clone()?)),
    }
}

/// The same of several types, in order.
#[cycle(put)]
fn put_types(
    alloc: Global,
    declared: &[TypeRef],
    instance: &Instance<'_, '_>,
) -> Result<List<TypeRef>, AllocError>
    requires { IsReady instance.now }
    ensures { IfOk result (λ made. (finds : Text → Text → Option Bool) → ArePutUnder instance.now.names.now
        (rules_with finds instance.now.rules.now) (instance_rule_view instance.now) (instance_binding instance.now)
        (map type_view declared.now) (map type_view made)) }
{
    let mut made = List::new(alloc);
    for part in declared {
        made.push(put_type(alloc, part, instance)?)?;
    }
    Ok(made)
}

/// The declared type with its parameters put in, where there is one.
pub(crate) fn put_declaration(
    alloc: Global,
    instance: &Instance<'_, '_>,
    declared: &Option<TypeRef>,
) -> Result<Option<TypeRef>, AllocError>
    requires { IsReady instance.now }
    ensures { IfOk result (λ made. (finds : Text → Text → Option Bool) → IsDeclaredUnder instance.now.names.now
        (rules_with finds instance.now.rules.now) (instance_rule_view instance.now) (instance_binding instance.now)
        (option_map type_view declared.now) (option_map type_view made)) }
{
    match declared {
        None => Ok(None),
        Some(declared) => Ok(Some(put_type(alloc, declared, instance)?)),
    }
}

/// The name of the type of a repeat.
fn repeat_path(op: RepeatOp) -> &'static str
    ensures { result.now ≡ repeat_path_of (repeat_op_view op) }
{
    match op {
        RepeatOp::Star | RepeatOp::Plus => "Vec",
        RepeatOp::Question => "Option",
    }
}

/// The type of a repeat of the symbol.
pub(crate) fn repeat_type(
    alloc: Global,
    names: &KeyNames<'_>,
    span: Span,
    op: RepeatOp,
    inside: &ClosedSymbol,
) -> Result<TypeRef, AllocError>
    requires { IsKeyIndex names.now.keys.now }
    ensures { IfOk result (λ made. IsRepeatTypeUnder names.now (repeat_op_view op) (closed_view inside.now) (type_view made)) }
{
    let symbol = written_or_error(alloc, names, span, inside)?;
    let mut types = List::new(alloc);
    types.push(TypeRef::OfSymbol(symbol))?;
    Ok(TypeRef::Nominal {
        path: Atom::new(alloc, repeat_path(op))?,
        types,
    })
}

/// The type of a lookaround.
pub(crate) fn place_type(alloc: Global) -> Result<TypeRef, AllocError>
    ensures { IfOk result (λ made. type_view made ≡ Ty.nominal (codes "usize") Tys.none) }
{
    Ok(TypeRef::Nominal {
        path: Atom::new(alloc, "usize")?,
        types: List::new(alloc),
    })
}
