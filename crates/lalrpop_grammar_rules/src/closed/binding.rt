//! What the parameters of a macro stand for, and how often a rule occurs in a symbol of one of its alternatives.

ghost use Rattle.std.specs.Prelude.{◌≡◌, ◌+◌, IfOk, if◌then◌else◌};
ghost use Rattle.std.specs.Str.{bytes_eq};
ghost use Rattle.lalrpop_grammar_symbols.specs.SymbolWalks.{symbols_view};
ghost use Rattle.lalrpop_grammar_symbols.specs.Views.{symbol_view};
ghost use Rattle.lalrpop_grammar_language.specs.Closing.{parameter_value, names_owner, occurs_at, occurrences_in};
ghost use Rattle.lalrpop_grammar_rules.specs.Scopes.{binding_view, bound_view};

use crate::closed::closed_symbol::ClosedSymbol;
use lalrpop_grammar_symbols::{Atom, NonterminalString, Symbol, SymbolKind, subsymbols_of};
use std::alloc::{AllocError, Global};

/// The parameters of a macro with what each of them stands for, in order.
#[derive(Clone, Copy)]
pub struct Binding<'c> {
    /// The parameters.
    pub parameters: &'c [NonterminalString],
    /// What they stand for.
    pub args: &'c [ClosedSymbol],
}

/// What a name stands for as a parameter.
#[derive(Clone, Copy)]
pub enum Bound<'c> {
    /// No parameter has the name.
    Free,
    /// The symbol that the one parameter of that name is bound to.
    To(&'c ClosedSymbol),
    /// Several parameters have the name.
    Unclear,
}

/// What the name stands for as a parameter.
pub fn bound_to<'c>(binding: Binding<'c>, name: &Atom) -> Bound<'c>
    ensures { bound_view result ≡ parameter_value (binding_view binding.entry) name.now }
{
    match (binding.parameters.split_first(), binding.args.split_first()) {
        (Some((parameter, parameters)), Some((arg, args))) => {
            let behind = bound_to(Binding { parameters, args }, name);
            if name.as_str() == parameter.0.as_str() {
                match behind {
                    Bound::Free => Bound::To(arg),
                    Bound::To(_) => Bound::Unclear,
                    Bound::Unclear => Bound::Unclear,
                }
            } else {
                behind
            }
        }
        _ => Bound::Free,
    }
}

/// The sum of two counts of what stands in memory.
pub fn sum(a: u64, b: u64) -> Result<u64, AllocError>
    ensures { IfOk result (λ s. s ≡ a + b) }
{
    match a.checked_add(b) {
        Some(s) => Ok(s),
        None => Err(AllocError),
    }
}

/// 1 where the name is the owner's and no parameter hides it, else 0.
pub fn owner_count(binding: Binding<'_>, owner: &Atom, name: &Atom) -> u64
    ensures { result ≡ names_owner (binding_view binding.entry) owner.now name.now }
{
    if name.as_str() != owner.as_str() {
        return 0;
    }
    match bound_to(binding, name) {
        Bound::Free => 1,
        Bound::To(_) => 0,
        Bound::Unclear => 0,
    }
}

/// 1 where the name of a rule is the owner's, else 0.
pub fn rule_count(owner: &Atom, name: &Atom) -> u64
    ensures { result ≡ (if bytes_eq name.now owner.now then 1 else 0) }
{
    if name.as_str() == owner.as_str() {
        1
    } else {
        0
    }
}

/// 1 where the symbol itself is an occurrence of the owner, else 0.
fn occurs_at(binding: Binding<'_>, owner: &Atom, symbol: &Symbol) -> u64
    ensures { result ≡ occurs_at (binding_view binding.entry) owner.now (symbol_view symbol.now) }
{
    match &symbol.kind {
        SymbolKind::AmbiguousId(name) => owner_count(binding, owner, name),
        SymbolKind::Nonterminal(name) => rule_count(owner, &name.0),
        SymbolKind::Macro(call) => owner_count(binding, owner, &call.name.0),
        SymbolKind::Expr(_)
        | SymbolKind::Terminal(_)
        | SymbolKind::Repeat(_)
        | SymbolKind::Choose(_)
        | SymbolKind::Name(_, _)
        | SymbolKind::Lookahead
        | SymbolKind::Lookbehind
        | SymbolKind::Error => 0,
    }
}

/// How many occurrences of the owner the symbols have, at any depth.
pub fn occurrences_in(
    alloc: Global,
    binding: Binding<'_>,
    owner: &Atom,
    symbols: &[Symbol],
) -> Result<u64, AllocError>
    ensures { IfOk result (λ n. n
        ≡ occurrences_in (binding_view binding.entry) owner.now (symbols_view symbols.now)) }
{
    let mut count = 0;
    for symbol in subsymbols_of(alloc, symbols)? {
        count = sum(count, occurs_at(binding, owner, symbol))?;
    }
    Ok(count)
}
