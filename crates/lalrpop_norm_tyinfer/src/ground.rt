//! Types by a table that has those of some rules: of symbols, of written types, of alternatives.

ghost use Rattle.std.specs.Prelude.{◌≡◌, Some, None, IfOk, map, filter, option_map, if◌then◌else◌};
ghost use Rattle.std.specs.List.{list_any};
ghost use Rattle.std.specs.Option.{option_copied};
ghost use Rattle.lalrpop_grammar_symbols.specs.Views.{symbol_view, terminal_view};
ghost use Rattle.lalrpop_grammar.specs.Views.{type_view, tys};
ghost use Rattle.lalrpop_norm_theory.specs.Types.{GroundType, text_type as text_ground_type};
ghost use Rattle.lalrpop_norm_tyinfer.specs.GroundViews.{ground_types, type_repr_view};
ghost use Rattle.lalrpop_norm_tyinfer.specs.TypesByTable.{counts_for, each_ground_type, is_chosen_symbol, name_ground_type};
ghost use Rattle.lalrpop_norm_tyinfer.specs.TypesByTable.{symbol_ground_type, symbols_ground_type, terminal_ground_type, tuple_of_types};
ghost use Rattle.lalrpop_norm_tyinfer.specs.TypesByTable.{written_ground_type, written_ground_types};
ghost use Rattle.lalrpop_norm_tyinfer.specs.Equations.{source_ground_type};
ghost use Rattle.lalrpop_norm_tyinfer.specs.ProgramViews.{names_view, rule_types, source_view};

use crate::equations::TypeSource;
use crate::names::Names;
use lalrpop_grammar::types::{TypeRef, clone_lifetime};
use lalrpop_grammar_repr::{Map, NominalTypeRepr, TypeRepr};
use lalrpop_grammar_symbols::{
    Atom, Boxed, List, NonterminalString, Symbol, SymbolKind, TerminalLiteral, TerminalString,
};
use std::alloc::{AllocError, Global};

/// The types of rules, by name.
pub(crate) type RuleTypes = Map<NonterminalString, TypeRepr>;

/// The type of a terminal: `&'input str`.
pub(crate) fn text_type(alloc: Global) -> Result<TypeRepr, AllocError>
    ensures { IfOk result (λ made. type_repr_view made ≡ text_ground_type) }
{
    let lifetime = Atom::new(alloc, "'input")?;
    let referent = TypeRepr::str(alloc)?;
    Ok(TypeRepr::Ref {
        lifetime: Some(lifetime),
        mutable: false,
        referent: Boxed::new(alloc, referent)?,
    })
}

/// The type of a terminal, where it is one.
fn text_type_where(alloc: Global, is_terminal: bool) -> Result<Option<TypeRepr>, AllocError>
    ensures { IfOk result (λ found. option_map type_repr_view found ≡ (if is_terminal then Some text_ground_type else None)) }
{
    if is_terminal {
        Ok(Some(text_type(alloc)?))
    } else {
        Ok(None)
    }
}

/// A copy of the type, where there is one.
fn copy_of(alloc: Global, ty: Option<&TypeRepr>) -> Result<Option<TypeRepr>, AllocError>
    ensures { IfOk result (λ copy. copy ≡ option_copied ty.entry) }
{
    match ty {
        None => Ok(None),
        Some(ty) => Ok(Some(ty.try_clone(alloc)?)),
    }
}

/// The type of what the name stands for.
fn name_type(
    alloc: Global,
    names: &Names<'_>,
    table: &RuleTypes,
    name: &NonterminalString,
) -> Result<Option<TypeRepr>, AllocError>
    ensures { IfOk result (λ found. option_map type_repr_view found
        ≡ name_ground_type (names_view names.now) (rule_types table.now) name.now.0) }
{
    if names.is_rule(&name.0) {
        copy_of(alloc, table.get(name))
    } else {
        text_type_where(alloc, names.is_bare(&name.0))
    }
}

/// The type of the terminal; that of error recovery and a name that isn't mapped have none.
fn terminal_type(
    alloc: Global,
    names: &Names<'_>,
    terminal: &TerminalString,
) -> Result<Option<TypeRepr>, AllocError>
    ensures { IfOk result (λ found. option_map type_repr_view found
        ≡ terminal_ground_type (names_view names.now) (terminal_view terminal.now)) }
{
    match terminal {
        TerminalString::Literal(literal) => match literal {
            TerminalLiteral::Quoted(_) | TerminalLiteral::Regex(_) => text_type_where(alloc, true),
        },
        TerminalString::Bare(name) => text_type_where(alloc, names.is_bare(name)),
        TerminalString::Error => Ok(None),
    }
}

/// The type of the symbol by the table.
fn symbol_type(
    alloc: Global,
    names: &Names<'_>,
    table: &RuleTypes,
    symbol: &Symbol,
) -> Result<Option<TypeRepr>, AllocError>
    ensures { IfOk result (λ found. option_map type_repr_view found
        ≡ symbol_ground_type (names_view names.now) (rule_types table.now) (symbol_view symbol.now)) }
{
    match &symbol.kind {
        SymbolKind::Terminal(terminal) => terminal_type(alloc, names, terminal),
        SymbolKind::Nonterminal(name) => name_type(alloc, names, table, name),
        SymbolKind::AmbiguousId(name) => {
            let name = NonterminalString(name.try_clone()?);
            name_type(alloc, names, table, &name)
        }
        SymbolKind::Choose(inside) => symbol_type(alloc, names, table, inside.get()),
        SymbolKind::Name(_, inside) => symbol_type(alloc, names, table, inside.get()),
        SymbolKind::Expr(_) | SymbolKind::Macro(_) | SymbolKind::Repeat(_) => Ok(None),
        SymbolKind::Lookahead | SymbolKind::Lookbehind | SymbolKind::Error => Ok(None),
    }
}

/// Whether the symbol is a chosen one.
fn is_chosen(symbol: &Symbol) -> bool
    ensures { result ≡ is_chosen_symbol (symbol_view symbol.now) }
{
    match &symbol.kind {
        SymbolKind::Choose(_) => true,
        SymbolKind::Terminal(_) | SymbolKind::Nonterminal(_) | SymbolKind::AmbiguousId(_) => false,
        SymbolKind::Name(_, _) | SymbolKind::Expr(_) | SymbolKind::Macro(_) => false,
        SymbolKind::Repeat(_) | SymbolKind::Lookahead | SymbolKind::Lookbehind => false,
        SymbolKind::Error => false,
    }
}

/// Whether one of the symbols is a chosen one.
pub(crate) fn has_chosen(symbols: &[Symbol]) -> bool
    ensures { result ≡ list_any is_chosen_symbol (map symbol_view symbols.now) }
{
    for symbol in symbols {
        if is_chosen(symbol) {
            return true;
        }
    }
    false
}

/// Whether the symbol counts for the type, where the chosen ones alone do or all.
pub(crate) fn counts(symbol: &Symbol, chosen_only: bool) -> bool
    ensures { result ≡ counts_for chosen_only (symbol_view symbol.now) }
{
    !chosen_only || is_chosen(symbol)
}

/// The types of the symbols that count, in order; none where one of them has none.
fn counted_types(
    alloc: Global,
    names: &Names<'_>,
    table: &RuleTypes,
    symbols: &[Symbol],
    chosen_only: bool,
) -> Result<Option<List<TypeRepr>>, AllocError>
    ensures { IfOk result (λ found. option_map (map type_repr_view) found
        ≡ each_ground_type (map (symbol_ground_type (names_view names.now) (rule_types table.now))
        (filter (counts_for chosen_only) (map symbol_view symbols.now)))) }
{
    let mut found = List::new(alloc);
    for symbol in symbols {
        if counts(symbol, chosen_only) {
            match symbol_type(alloc, names, table, symbol)? {
                None => return Ok(None),
                Some(ty) => found.push(ty)?,
            }
        }
    }
    Ok(Some(found))
}

/// One type as itself, several as a tuple, and none as the empty one.
fn tuple_type(types: List<TypeRepr>) -> TypeRepr
    ensures { type_repr_view result ≡ tuple_of_types (map type_repr_view types) }
{
    if types.len() == 1 {
        types.into_vec().pop().unwrap()
    } else {
        TypeRepr::Tuple(types)
    }
}

/// The type that the symbols of an alternative without user code give by the table.
fn symbols_type(
    alloc: Global,
    names: &Names<'_>,
    table: &RuleTypes,
    symbols: &[Symbol],
) -> Result<Option<TypeRepr>, AllocError>
    ensures { IfOk result (λ found. option_map type_repr_view found
        ≡ symbols_ground_type (names_view names.now) (rule_types table.now) (map symbol_view symbols.now)) }
{
    match counted_types(alloc, names, table, symbols, has_chosen(symbols))? {
        None => Ok(None),
        Some(types) => Ok(Some(tuple_type(types))),
    }
}

/// The tuple of the types, where they are there.
fn tuple_of(types: Option<List<TypeRepr>>) -> Option<TypeRepr>
    ensures { option_map type_repr_view result
        ≡ option_map (λ ts. GroundType.tuple (ground_types ts)) (option_map (map type_repr_view) types) }
{
    match types {
        None => None,
        Some(types) => Some(TypeRepr::Tuple(types)),
    }
}

/// The name with the types as its arguments, where they are there.
fn nominal_of(path: &Atom, types: Option<List<TypeRepr>>) -> Result<Option<TypeRepr>, AllocError>
    ensures { IfOk result (λ found. option_map type_repr_view found
        ≡ option_map (λ ts. GroundType.nominal path.now (ground_types ts)) (option_map (map type_repr_view) types)) }
{
    match types {
        None => Ok(None),
        Some(types) => {
            let path = path.try_clone()?;
            Ok(Some(TypeRepr::Nominal(NominalTypeRepr { path, types })))
        }
    }
}

/// The reference to the type, where that is there.
fn reference_to(
    alloc: Global,
    lifetime: &Option<Atom>,
    mutable: bool,
    referent: Option<TypeRepr>,
) -> Result<Option<TypeRepr>, AllocError>
    ensures { IfOk result (λ found. option_map type_repr_view found
        ≡ option_map (GroundType.ref lifetime.now mutable) (option_map type_repr_view referent)) }
{
    match referent {
        None => Ok(None),
        Some(referent) => {
            let referent = Boxed::new(alloc, referent)?;
            let lifetime = clone_lifetime(lifetime)?;
            Ok(Some(TypeRepr::Ref {
                lifetime,
                mutable,
                referent,
            }))
        }
    }
}

/// The type that the written one stands for, by the table.
#[cycle(written_types)]
fn written_type(
    alloc: Global,
    names: &Names<'_>,
    table: &RuleTypes,
    written: &TypeRef,
) -> Result<Option<TypeRepr>, AllocError>
    ensures { IfOk result (λ found. option_map type_repr_view found
        ≡ written_ground_type (names_view names.now) (rule_types table.now) (type_view written.now)) }
{
    match written {
        TypeRef::Tuple(types) => {
            let types = written_types(alloc, names, table, types.as_slice())?;
            Ok(tuple_of(types))
        }
        TypeRef::Nominal { path, types } => {
            let types = written_types(alloc, names, table, types.as_slice())?;
            nominal_of(path, types)
        }
        TypeRef::Id(name) => nominal_of(name, Some(List::new(alloc))),
        TypeRef::OfSymbol(symbol) => symbol_type(alloc, names, table, symbol),
        TypeRef::Ref {
            lifetime,
            mutable,
            referent,
        } => {
            let referent = written_type(alloc, names, table, referent.get())?;
            reference_to(alloc, lifetime, *mutable, referent)
        }
        TypeRef::Opaque(text) => Ok(Some(TypeRepr::Opaque(text.try_clone()?))),
    }
}

/// The types that the written ones stand for, in order; none where one of them has none.
#[cycle(written_types)]
fn written_types(
    alloc: Global,
    names: &Names<'_>,
    table: &RuleTypes,
    types: &[TypeRef],
) -> Result<Option<List<TypeRepr>>, AllocError>
    ensures { IfOk result (λ found. option_map (map type_repr_view) found
        ≡ written_ground_types (names_view names.now) (rule_types table.now) (tys (map type_view types.now))) }
{
    let mut found = List::new(alloc);
    for written in types {
        match written_type(alloc, names, table, written)? {
            None => return Ok(None),
            Some(ty) => found.push(ty)?,
        }
    }
    Ok(Some(found))
}

/// The type that the source gives by the table.
pub(crate) fn source_type(
    alloc: Global,
    names: &Names<'_>,
    table: &RuleTypes,
    source: TypeSource<'_>,
) -> Result<Option<TypeRepr>, AllocError>
    ensures { IfOk result (λ found. option_map type_repr_view found
        ≡ source_ground_type (names_view names.now) (rule_types table.now) (source_view source.entry)) }
{
    match source {
        TypeSource::Declared(written) => written_type(alloc, names, table, written),
        TypeSource::Symbols(symbols) => symbols_type(alloc, names, table, symbols),
    }
}
