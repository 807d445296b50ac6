//! Which equations wait for which rules. That decides the order of the work, and nothing else.

ghost use Rattle.std.specs.Prelude.{◌≡◌, ◌++◌, [], None, IfOk, IfSome, MatchOption, OnOk, filter, flat_map, is_some, map};
ghost use Rattle.lalrpop_grammar_symbols.specs.Views.{symbol_view};
ghost use Rattle.lalrpop_grammar.specs.Views.{type_view, tys};
ghost use Rattle.lalrpop_norm_tyinfer.specs.TypesByTable.{counts_for};
ghost use Rattle.lalrpop_norm_tyinfer.specs.NamedRules.{names_found, rule_of_name, rules_in_source, rules_in_symbol, rules_in_type};
ghost use Rattle.lalrpop_norm_tyinfer.specs.NamedRules.{rules_in_types};
ghost use Rattle.lalrpop_norm_tyinfer.specs.ProgramViews.{names_view, rule_types, source_view};

use crate::equations::{Equation, TypeSource};
use crate::ground::{RuleTypes, counts, has_chosen};
use crate::names::Names;
use lalrpop_grammar::types::TypeRef;
use lalrpop_grammar_symbols::{Atom, NonterminalString, Symbol, SymbolKind};
use std::alloc::{AllocError, Global};
use std::collections::HashMap;

/// The equations that wait, each for one rule that has no type yet.
#[derive(Drop)]
pub(crate) struct Waiting<'g> {
    /// By the number of an equation, the rules that it needs and that aren't known to have types.
    missing: Vec<Vec<&'g Atom>>,
    /// By the name of a rule, the numbers of the equations that wait for it.
    lists: HashMap<&'g str, Vec<usize>>,
}

/// Adds the name, where a rule has it.
fn add_name<'g>(
    names: &Names<'g>,
    name: &'g Atom,
    found: &mut Vec<&'g Atom>,
) -> Result<(), AllocError>
    ensures { OnOk result (names_found found.new.items
        ≡ names_found found.old.items ++ rule_of_name (names_view names.now) name.now) }
{
    if names.is_rule(name) {
        found.push(name)?;
    }
    Ok(())
}

/// Adds the rule that the symbol is, maybe named or chosen.
fn add_symbol<'g>(
    names: &Names<'g>,
    symbol: &'g Symbol,
    found: &mut Vec<&'g Atom>,
) -> Result<(), AllocError>
    ensures { OnOk result (names_found found.new.items
        ≡ names_found found.old.items ++ rules_in_symbol (names_view names.now) (symbol_view symbol.now)) }
{
    match &symbol.kind {
        SymbolKind::Nonterminal(name) => add_name(names, &name.0, found),
        SymbolKind::AmbiguousId(name) => add_name(names, name, found),
        SymbolKind::Choose(inside) => add_symbol(names, inside.get(), found),
        SymbolKind::Name(_, inside) => add_symbol(names, inside.get(), found),
        SymbolKind::Terminal(_) | SymbolKind::Expr(_) | SymbolKind::Macro(_) => Ok(()),
        SymbolKind::Repeat(_) | SymbolKind::Lookahead | SymbolKind::Lookbehind => Ok(()),
        SymbolKind::Error => Ok(()),
    }
}

/// Adds the rules among the symbols that count.
fn add_symbols<'g>(
    names: &Names<'g>,
    symbols: &'g [Symbol],
    chosen_only: bool,
    found: &mut Vec<&'g Atom>,
) -> Result<(), AllocError>
    ensures { OnOk result (names_found found.new.items ≡ names_found found.old.items
        ++ flat_map (rules_in_symbol (names_view names.now)) (filter (counts_for chosen_only) (map symbol_view symbols.now))) }
{
    for symbol in symbols {
        if counts(symbol, chosen_only) {
            add_symbol(names, symbol, found)?;
        }
    }
    Ok(())
}

/// Adds the rules in the written type.
#[cycle(add_types)]
fn add_type<'g>(
    names: &Names<'g>,
    written: &'g TypeRef,
    found: &mut Vec<&'g Atom>,
) -> Result<(), AllocError>
    ensures { OnOk result (names_found found.new.items
        ≡ names_found found.old.items ++ rules_in_type (names_view names.now) (type_view written.now)) }
{
    match written {
        TypeRef::Tuple(types) => add_types(names, types.as_slice(), found),
        TypeRef::Nominal { path: _, types } => add_types(names, types.as_slice(), found),
        TypeRef::OfSymbol(symbol) => add_symbol(names, symbol, found),
        TypeRef::Ref {
            lifetime: _,
            mutable: _,
            referent,
        } => add_type(names, referent.get(), found),
        TypeRef::Id(_) | TypeRef::Opaque(_) => Ok(()),
    }
}

/// Adds the rules in the written types.
#[cycle(add_types)]
fn add_types<'g>(
    names: &Names<'g>,
    types: &'g [TypeRef],
    found: &mut Vec<&'g Atom>,
) -> Result<(), AllocError>
    ensures { OnOk result (names_found found.new.items
        ≡ names_found found.old.items ++ rules_in_types (names_view names.now) (tys (map type_view types.now))) }
{
    for written in types {
        add_type(names, written, found)?;
    }
    Ok(())
}

/// Adds the rules whose types the source needs.
fn add_source<'g>(
    names: &Names<'g>,
    source: TypeSource<'g>,
    found: &mut Vec<&'g Atom>,
) -> Result<(), AllocError>
    ensures { OnOk result (names_found found.new.items
        ≡ names_found found.old.items ++ rules_in_source (names_view names.now) (source_view source.entry)) }
{
    match source {
        TypeSource::Declared(written) => add_type(names, written, found),
        TypeSource::Symbols(symbols) => add_symbols(names, symbols, has_chosen(symbols), found),
    }
}

/// The rules whose types the source needs.
fn needed_rules<'g>(
    alloc: Global,
    names: &Names<'g>,
    source: TypeSource<'g>,
) -> Result<Vec<&'g Atom>, AllocError>
    ensures { IfOk result (λ found. names_found found.items
        ≡ rules_in_source (names_view names.now) (source_view source.entry)) }
{
    let mut found = Vec::new(alloc);
    add_source(names, source, &mut found)?;
    Ok(found)
}

/// Whether the rule has a type by the table.
fn has_type(table: &RuleTypes, name: &Atom) -> Result<bool, AllocError>
    ensures { IfOk result (λ there. there ≡ is_some (rule_types table.now name.now)) }
{
    let name = NonterminalString(name.try_clone()?);
    Ok(table.get(&name).is_some())
}

/// The last of the rules that has no type by the table. Those behind it are dropped, and so is that one.
fn pop_untyped<'g>(
    rules: &mut Vec<&'g Atom>,
    table: &RuleTypes,
) -> Result<Option<&'g Atom>, AllocError>
    ensures { IfOk result (λ found. MatchOption found (rules.new.items ≡ []) (λ name. rule_types table.now name.now ≡ None)) }
{
    while let Some(name) = rules.pop() {
        if !has_type(table, name)? {
            return Ok(Some(name));
        }
    }
    Ok(None)
}

impl<'g> Waiting<'g> {
    /// No equation waits yet.
    pub(crate) fn new(
        alloc: Global,
        names: &Names<'g>,
        equations: &[Equation<'g>],
    ) -> Result<Waiting<'g>, AllocError> {
        let mut missing = Vec::new(alloc);
        for equation in equations {
            missing.push(needed_rules(alloc, names, equation.source)?)?;
        }
        let lists = HashMap::new(alloc);
        Ok(Waiting { missing, lists })
    }

    /// A rule without type that the equation of this number needs, where one isn't known to have a type.
    pub(crate) fn next_missing(
        &mut self,
        number: usize,
        table: &RuleTypes,
    ) -> Result<Option<&'g Atom>, AllocError>
        ensures { IfOk result (λ found. IfSome found (λ name. rule_types table.now name.now ≡ None)) }
    {
        match self.missing.get_mut(number) {
            None => Ok(None),
            Some(rules) => pop_untyped(rules, table),
        }
    }

    /// The equation of this number waits for the rule.
    pub(crate) fn add(
        &mut self,
        alloc: Global,
        name: &'g Atom,
        number: usize,
    ) -> Result<(), AllocError> {
        let mut list = match self.lists.remove(name.as_str()) {
            None => Vec::new(alloc),
            Some(list) => list,
        };
        list.push(number)?;
        self.lists.insert(name.as_str(), list)?;
        Ok(())
    }

    /// The numbers of the equations that wait for the rule, which they no longer do.
    pub(crate) fn take(&mut self, name: &Atom) -> Option<Vec<usize>> {
        self.lists.remove(name.as_str())
    }
}
