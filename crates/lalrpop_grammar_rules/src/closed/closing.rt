//! The closed symbols that the written symbols of an alternative stand for.

ghost use Rattle.std.specs.Prelude.{◌≡◌, ◌+◌, ℕ, Bool, not, IfOk, IsTrue, Option, if◌then◌else◌, map, option_map};
ghost use Rattle.std.specs.Str.{bytes_eq};
ghost use Rattle.lalrpop_grammar_symbols.specs.Symbols.{Text, syms, Closed};
ghost use Rattle.lalrpop_grammar_symbols.specs.Views.{repeat_op_view, symbol_view, terminal_view};
ghost use Rattle.lalrpop_grammar.specs.WrittenGrammar.{Origin};
ghost use Rattle.lalrpop_grammar.specs.Views.{alternative_view};
ghost use Rattle.lalrpop_grammar_language.specs.Closing.{are_sound, is_sound, parameter_value, call_level, close as close_seen, close_all as close_all_seen, close_list, close_terminal, name_meaning, name_or, names_owner, occurrences, occurrences_in, plain_call, plain_name, right_side as right_side_of, sound_or_faulty};
ghost use Rattle.lalrpop_grammar_language.specs.Enabled.{choice_of};
ghost use Rattle.lalrpop_grammar_language.specs.Levels.{levels};
ghost use Rattle.lalrpop_grammar_rules.specs.Details.{enabled_rule_view, tighter_in};
ghost use Rattle.lalrpop_grammar_rules.specs.Ranks.{rank_view};
ghost use Rattle.lalrpop_grammar_rules.specs.Scopes.{KnowsSound, allowed_level_by, binding_view, level_view, scope_view};
ghost use Rattle.lalrpop_grammar_rules.specs.RuleTable.{IsKept, IsTable, rules_view, rules_with};
ghost use Rattle.lalrpop_grammar_rules.specs.Views.{binding_of, closed_view, closeds, is_faulty};

use crate::closed::binding::{
    Binding, Bound, bound_to, occurrences_in, owner_count, rule_count, sum,
};
use crate::closed::closed_symbol::{ClosedSymbol, sound_symbols};
use crate::closed::shared::Shared;
use crate::{Assoc, Choice, EnabledRule, Meaning, Rules};
use lalrpop_grammar_symbols::{Atom, List, Name, RepeatOp, Symbol, SymbolKind, TerminalString};
use std::alloc::{AllocError, Global};

/// Where a symbol is closed: in an alternative of the owner, with the levels that the owner's occurrences may have.
#[derive(Clone, Copy)]
struct Scope<'s, 'g> {
    rules: &'s Rules<'g>,
    binding: Binding<'s>,
    owner: &'s Atom,
    /// How many occurrences of the owner the alternative has.
    count: u64,
    /// Which of them may have the alternative's own level.
    side: Assoc,
    /// The greatest level of these.
    reached: Option<u32>,
    /// The greatest level of the others.
    others: Option<u32>,
    /// Whether no part of what the parameters stand for is faulty.
    has_sound_args: bool,
}

/// The closed symbols that an enabled alternative of the rule asks for, one for each of its symbols, where the rule's
/// parameters are bound to the arguments.
pub fn right_side(
    alloc: Global,
    rules: &Rules<'_>,
    rule: &EnabledRule<'_>,
    choice: &Choice<'_>,
    args: &[ClosedSymbol],
) -> Result<List<ClosedSymbol>, AllocError>
    requires table { IsTable rules.now }
    requires kept { IsKept rules.now.features.now rule.now }
    requires tighter { choice.now.tighter ≡ tighter_in
        (levels (enabled_rule_view rules.now.features.now rule.now)) (option_map rank_view choice.now.rank) }
    ensures { IfOk result (λ side. (finds : Text → Text → Option Bool) → map closed_view side
        ≡ right_side_of (rules_with finds rules.now) (enabled_rule_view rules.now.features.now rule.now)
        (binding_of rule.now.written.now.args args.now)
        (choice_of (Origin.start, alternative_view choice.now.alternative.now), option_map rank_view choice.now.rank)) }
{
    let symbols = choice.alternative.expr.as_slice();
    let binding = Binding {
        parameters: rule.written.args.as_slice(),
        args,
    };
    let owner = &rule.written.name.0;
    let count = occurrences_in(alloc, binding, owner, symbols)?;
    let scope = scope_of(rules, rule, choice, binding, count);
    close_each(alloc, &scope, symbols)
}

fn scope_of<'s, 'g>(
    rules: &'s Rules<'g>,
    rule: &'s EnabledRule<'g>,
    choice: &Choice<'g>,
    binding: Binding<'s>,
    count: u64,
) -> Scope<'s, 'g>
    ensures rules { result.rules.now ≡ rules.now }
    ensures binding { binding_view result.binding ≡ binding_view binding.entry }
    ensures owner { result.owner.now ≡ rule.now.written.now.name.0 }
    ensures levels { (k : ℕ) → level_view result k
        ≡ allowed_level_by rule.now.loosest (option_map rank_view choice.now.rank) choice.now.tighter count k }
    ensures knows { KnowsSound result }
{
    let owner = &rule.written.name.0;
    let (side, reached, others) = match choice.rank {
        Some(rank) => match choice.tighter {
            Some(tighter) => (rank.side, Some(rank.level), Some(tighter)),
            None => (rank.side, rule.loosest, rule.loosest),
        },
        None => (Assoc::FullyAssoc, rule.loosest, rule.loosest),
    };
    Scope {
        rules,
        binding,
        owner,
        count,
        side,
        reached,
        others,
        has_sound_args: sound_symbols(binding.args),
    }
}

/// The symbols of an alternative, closed. One with a faulty part is faulty.
fn close_each(
    alloc: Global,
    scope: &Scope<'_, '_>,
    symbols: &[Symbol],
) -> Result<List<ClosedSymbol>, AllocError>
    requires table { IsTable scope.now.rules.now }
    requires knows { KnowsSound scope.now }
    ensures { IfOk result (λ side. map closed_view side
        ≡ close_list (scope_view scope.now) 0 (map symbol_view symbols.now)) }
{
    let mut side = List::new(alloc);
    let mut count = 0;
    for symbol in symbols {
        let found = close(alloc, scope, count, symbol)?;
        count = found.next;
        side.push(found.sound_or_faulty())?;
    }
    Ok(side)
}

/// A closed symbol.
#[derive(Drop)]
struct Closing {
    symbol: ClosedSymbol,
    /// Whether no part of it is faulty.
    is_sound: bool,
    /// How many occurrences of the owner stand up to its end.
    next: u64,
}

impl Closing {
    /// The symbol, or the faulty one where a part of it is faulty.
    fn sound_or_faulty(self) -> ClosedSymbol
        requires { self.is_sound ≡ is_sound (closed_view self.symbol) }
        ensures { closed_view result ≡ sound_or_faulty (closed_view self.symbol) }
    {
        if self.is_sound {
            self.symbol
        } else {
            ClosedSymbol::Faulty
        }
    }
}

/// Closed symbols.
#[derive(Drop)]
struct Closings {
    symbols: List<ClosedSymbol>,
    /// Whether no part of them is faulty.
    are_sound: bool,
    /// How many occurrences of the owner stand up to their end.
    next: u64,
}

/// The closed symbol, where so many occurrences of the owner stand before it.
#[cycle(close)]
fn close(
    alloc: Global,
    scope: &Scope<'_, '_>,
    before: u64,
    symbol: &Symbol,
) -> Result<Closing, AllocError>
    requires table { IsTable scope.now.rules.now }
    requires knows { KnowsSound scope.now }
    ensures symbol { IfOk result (λ c. closed_view c.symbol
        ≡ close_seen (scope_view scope.now) before (symbol_view symbol.now)) }
    ensures sound { IfOk result (λ c. c.is_sound ≡ is_sound (closed_view c.symbol)) }
    ensures count { IfOk result (λ c. c.next
        ≡ before + occurrences (binding_view scope.now.binding) scope.now.owner.now (symbol_view symbol.now)) }
{
    match &symbol.kind {
        SymbolKind::Expr(group) => close_group(alloc, scope, before, group.symbols.as_slice()),
        SymbolKind::AmbiguousId(name) => close_name(alloc, scope, before, name),
        SymbolKind::Nonterminal(name) => close_nonterminal(alloc, scope, before, &name.0),
        SymbolKind::Terminal(terminal) => close_terminal(scope.rules, before, terminal),
        SymbolKind::Macro(call) => {
            let own = owner_count(scope.binding, scope.owner, &call.name.0);
            let args = close_all(alloc, scope, sum(before, own)?, call.args.as_slice())?;
            close_call(alloc, scope, before, &call.name.0, args)
        }
        SymbolKind::Repeat(repeat) => {
            let repeat = repeat.get();
            close_repeat(alloc, scope, before, repeat.op, &repeat.symbol)
        }
        SymbolKind::Choose(chosen) => close_chosen(alloc, scope, before, chosen.get()),
        SymbolKind::Name(name, named) => close_named(alloc, scope, before, name, named.get()),
        SymbolKind::Lookahead => Ok(Closing {
            symbol: ClosedSymbol::Lookahead,
            is_sound: true,
            next: before,
        }),
        SymbolKind::Lookbehind => Ok(Closing {
            symbol: ClosedSymbol::Lookbehind,
            is_sound: true,
            next: before,
        }),
        SymbolKind::Error => Ok(Closing {
            symbol: ClosedSymbol::Terminal(TerminalString::Error),
            is_sound: true,
            next: before,
        }),
    }
}

/// The group of the closed symbols.
#[cycle(close)]
fn close_group(
    alloc: Global,
    scope: &Scope<'_, '_>,
    before: u64,
    symbols: &[Symbol],
) -> Result<Closing, AllocError>
    requires table { IsTable scope.now.rules.now }
    requires knows { KnowsSound scope.now }
    ensures symbol { IfOk result (λ c. closed_view c.symbol
        ≡ Closed.group (close_all_seen (scope_view scope.now) before (syms (map symbol_view symbols.now)))) }
    ensures sound { IfOk result (λ c. c.is_sound ≡ is_sound (closed_view c.symbol)) }
    ensures count { IfOk result (λ c. c.next
        ≡ before + occurrences_in (binding_view scope.now.binding) scope.now.owner.now (syms (map symbol_view symbols.now))) }
{
    let inside = close_all(alloc, scope, before, symbols)?;
    Ok(Closing {
        symbol: ClosedSymbol::Group(Shared::new(alloc, inside.symbols)?),
        is_sound: inside.are_sound,
        next: inside.next,
    })
}

/// The closed symbol, repeated.
#[cycle(close)]
fn close_repeat(
    alloc: Global,
    scope: &Scope<'_, '_>,
    before: u64,
    op: RepeatOp,
    symbol: &Symbol,
) -> Result<Closing, AllocError>
    requires table { IsTable scope.now.rules.now }
    requires knows { KnowsSound scope.now }
    ensures symbol { IfOk result (λ c. closed_view c.symbol
        ≡ Closed.repeat (repeat_op_view op) (close_seen (scope_view scope.now) before (symbol_view symbol.now))) }
    ensures sound { IfOk result (λ c. c.is_sound ≡ is_sound (closed_view c.symbol)) }
    ensures count { IfOk result (λ c. c.next
        ≡ before + occurrences (binding_view scope.now.binding) scope.now.owner.now (symbol_view symbol.now)) }
{
    let inside = close(alloc, scope, before, symbol)?;
    Ok(Closing {
        symbol: ClosedSymbol::Repeat(op, Shared::new(alloc, inside.symbol)?),
        is_sound: inside.is_sound,
        next: inside.next,
    })
}

/// The closed symbol, chosen for the action.
#[cycle(close)]
fn close_chosen(
    alloc: Global,
    scope: &Scope<'_, '_>,
    before: u64,
    symbol: &Symbol,
) -> Result<Closing, AllocError>
    requires table { IsTable scope.now.rules.now }
    requires knows { KnowsSound scope.now }
    ensures symbol { IfOk result (λ c. closed_view c.symbol
        ≡ Closed.choose (close_seen (scope_view scope.now) before (symbol_view symbol.now))) }
    ensures sound { IfOk result (λ c. c.is_sound ≡ is_sound (closed_view c.symbol)) }
    ensures count { IfOk result (λ c. c.next
        ≡ before + occurrences (binding_view scope.now.binding) scope.now.owner.now (symbol_view symbol.now)) }
{
    let inside = close(alloc, scope, before, symbol)?;
    Ok(Closing {
        symbol: ClosedSymbol::Choose(Shared::new(alloc, inside.symbol)?),
        is_sound: inside.is_sound,
        next: inside.next,
    })
}

/// The closed symbol, with a name for the action.
#[cycle(close)]
fn close_named(
    alloc: Global,
    scope: &Scope<'_, '_>,
    before: u64,
    name: &Name,
    symbol: &Symbol,
) -> Result<Closing, AllocError>
    requires table { IsTable scope.now.rules.now }
    requires knows { KnowsSound scope.now }
    ensures symbol { IfOk result (λ c. closed_view c.symbol
        ≡ Closed.name name.now.mutable name.now.name (close_seen (scope_view scope.now) before (symbol_view symbol.now))) }
    ensures sound { IfOk result (λ c. c.is_sound ≡ is_sound (closed_view c.symbol)) }
    ensures count { IfOk result (λ c. c.next
        ≡ before + occurrences (binding_view scope.now.binding) scope.now.owner.now (symbol_view symbol.now)) }
{
    let inside = close(alloc, scope, before, symbol)?;
    let symbol = Shared::new(alloc, inside.symbol)?;
    Ok(Closing {
        symbol: ClosedSymbol::Name(name.try_clone()?, symbol),
        is_sound: inside.is_sound,
        next: inside.next,
    })
}

/// The closed symbols, in order.
#[cycle(close)]
fn close_all(
    alloc: Global,
    scope: &Scope<'_, '_>,
    before: u64,
    symbols: &[Symbol],
) -> Result<Closings, AllocError>
    requires table { IsTable scope.now.rules.now }
    requires knows { KnowsSound scope.now }
    ensures symbols { IfOk result (λ c. closeds (map closed_view c.symbols)
        ≡ close_all_seen (scope_view scope.now) before (syms (map symbol_view symbols.now))) }
    ensures sound { IfOk result (λ c. c.are_sound ≡ are_sound (closeds (map closed_view c.symbols))) }
    ensures count { IfOk result (λ c. c.next ≡ before
        + occurrences_in (binding_view scope.now.binding) scope.now.owner.now (syms (map symbol_view symbols.now))) }
{
    let mut closings = List::new(alloc);
    let mut are_sound = true;
    let mut count = before;
    for symbol in symbols {
        let found = close(alloc, scope, count, symbol)?;
        are_sound &= found.is_sound;
        count = found.next;
        closings.push(found.symbol)?;
    }
    Ok(Closings {
        symbols: closings,
        are_sound,
        next: count,
    })
}

/// What the name of a rule stands for, and how many occurrences of the owner stand up to its end.
fn close_nonterminal(
    alloc: Global,
    scope: &Scope<'_, '_>,
    before: u64,
    name: &Atom,
) -> Result<Closing, AllocError>
    requires { IsTable scope.now.rules.now }
    ensures symbol { IfOk result (λ c. closed_view c.symbol
        ≡ plain_name (scope_view scope.now) before name.now (name_meaning (rules_view scope.now.rules.now) name.now)) }
    ensures sound { IfOk result (λ c. c.is_sound ≡ is_sound (closed_view c.symbol)) }
    ensures count { IfOk result (λ c. c.next ≡ before + (if bytes_eq name.now scope.now.owner.now then 1 else 0)) }
{
    let next = sum(before, rule_count(scope.owner, name))?;
    let symbol = close_rule(alloc, scope, before, name)?;
    Ok(Closing {
        is_sound: symbol.is_sound(),
        symbol,
        next,
    })
}

/// Whether no part is faulty of what a name stands for. Where no part of an argument is, only the symbol itself can be.
fn is_sound_name(has_sound_args: bool, symbol: &ClosedSymbol) -> bool
    requires { IsTrue has_sound_args → is_sound (closed_view symbol.now) ≡ not (is_faulty (closed_view symbol.now)) }
    ensures { result ≡ is_sound (closed_view symbol.now) }
{
    if has_sound_args {
        !symbol.is_faulty()
    } else {
        symbol.is_sound()
    }
}

/// What a terminal stands for: a bare name has to be a mapped one.
fn close_terminal(
    rules: &Rules<'_>,
    before: u64,
    terminal: &TerminalString,
) -> Result<Closing, AllocError>
    requires { IsTable rules.now }
    ensures symbol { IfOk result (λ c. closed_view c.symbol
        ≡ close_terminal (rules_view rules.now) (terminal_view terminal.now)) }
    ensures sound { IfOk result (λ c. c.is_sound ≡ is_sound (closed_view c.symbol)) }
    ensures count { IfOk result (λ c. c.next ≡ before) }
{
    let is_sound = match terminal {
        TerminalString::Bare(name) => rules.is_bare(name),
        TerminalString::Literal(_) | TerminalString::Error => true,
    };
    let symbol = if is_sound {
        ClosedSymbol::Terminal(terminal.try_clone()?)
    } else {
        ClosedSymbol::Faulty
    };
    Ok(Closing {
        symbol,
        is_sound,
        next: before,
    })
}

/// What a name stands for: a parameter hides a rule.
fn close_name(
    alloc: Global,
    scope: &Scope<'_, '_>,
    before: u64,
    name: &Atom,
) -> Result<Closing, AllocError>
    requires table { IsTable scope.now.rules.now }
    requires knows { KnowsSound scope.now }
    ensures symbol { IfOk result (λ c. closed_view c.symbol
        ≡ name_or (parameter_value (binding_view scope.now.binding) name.now)
        (plain_name (scope_view scope.now) before name.now (name_meaning (rules_view scope.now.rules.now) name.now))) }
    ensures sound { IfOk result (λ c. c.is_sound ≡ is_sound (closed_view c.symbol)) }
    ensures count { IfOk result (λ c. c.next
        ≡ before + names_owner (binding_view scope.now.binding) scope.now.owner.now name.now) }
{
    match bound_to(scope.binding, name) {
        Bound::Free => close_nonterminal(alloc, scope, before, name),
        Bound::To(symbol) => Ok(Closing {
            is_sound: is_sound_name(scope.has_sound_args, symbol),
            symbol: symbol.try_clone()?,
            next: before,
        }),
        Bound::Unclear => Ok(Closing {
            symbol: ClosedSymbol::Faulty,
            is_sound: false,
            next: before,
        }),
    }
}

/// What a name that is no parameter stands for.
fn close_rule(
    alloc: Global,
    scope: &Scope<'_, '_>,
    before: u64,
    name: &Atom,
) -> Result<ClosedSymbol, AllocError>
    requires { IsTable scope.now.rules.now }
    ensures { IfOk result (λ c. closed_view c
        ≡ plain_name (scope_view scope.now) before name.now (name_meaning (rules_view scope.now.rules.now) name.now)) }
{
    match scope.rules.meaning(name) {
        Meaning::Rule(rule) => {
            if !rule.written.args.is_empty() {
                return Ok(ClosedSymbol::Faulty);
            }
            let level = level_carried(scope, before, name, rule);
            let name = name.try_clone()?;
            let args = Shared::new(alloc, List::new(alloc))?;
            Ok(ClosedSymbol::Call(name, args, level))
        }
        Meaning::Terminal => Ok(ClosedSymbol::Terminal(TerminalString::Bare(name.try_clone()?))),
        Meaning::Unclear => Ok(ClosedSymbol::Faulty),
    }
}

/// What a call of a macro with these arguments stands for. A parameter takes no arguments.
fn close_call(
    alloc: Global,
    scope: &Scope<'_, '_>,
    before: u64,
    name: &Atom,
    args: Closings,
) -> Result<Closing, AllocError>
    requires table { IsTable scope.now.rules.now }
    requires sound { args.are_sound ≡ are_sound (closeds (map closed_view args.symbols)) }
    ensures symbol { IfOk result (λ c. closed_view c.symbol
        ≡ name_or (option_map (λ b. Closed.faulty) (parameter_value (binding_view scope.now.binding) name.now))
        (plain_call (scope_view scope.now) before name.now (closeds (map closed_view args.symbols))
        (name_meaning (rules_view scope.now.rules.now) name.now))) }
    ensures sound { IfOk result (λ c. c.is_sound ≡ is_sound (closed_view c.symbol)) }
    ensures count { IfOk result (λ c. c.next ≡ args.next) }
{
    match bound_to(scope.binding, name) {
        Bound::Free => close_macro(alloc, scope, before, name, args),
        Bound::To(_) | Bound::Unclear => Ok(Closing {
            symbol: ClosedSymbol::Faulty,
            is_sound: false,
            next: args.next,
        }),
    }
}

/// What a call of a macro stands for that no parameter hides.
fn close_macro(
    alloc: Global,
    scope: &Scope<'_, '_>,
    before: u64,
    name: &Atom,
    args: Closings,
) -> Result<Closing, AllocError>
    requires table { IsTable scope.now.rules.now }
    requires sound { args.are_sound ≡ are_sound (closeds (map closed_view args.symbols)) }
    ensures symbol { IfOk result (λ c. closed_view c.symbol
        ≡ plain_call (scope_view scope.now) before name.now (closeds (map closed_view args.symbols))
        (name_meaning (rules_view scope.now.rules.now) name.now)) }
    ensures sound { IfOk result (λ c. c.is_sound ≡ is_sound (closed_view c.symbol)) }
    ensures count { IfOk result (λ c. c.next ≡ args.next) }
{
    match scope.rules.meaning(name) {
        Meaning::Rule(rule) => {
            if rule.written.args.is_empty() {
                return Ok(Closing {
                    symbol: ClosedSymbol::Faulty,
                    is_sound: false,
                    next: args.next,
                });
            }
            if args.symbols.len() != rule.written.args.len() {
                return Ok(Closing {
                    symbol: ClosedSymbol::Faulty,
                    is_sound: false,
                    next: args.next,
                });
            }
            let level = level_carried(scope, before, name, rule);
            let name = name.try_clone()?;
            let symbols = Shared::new(alloc, args.symbols)?;
            Ok(Closing {
                symbol: ClosedSymbol::Call(name, symbols, level),
                is_sound: args.are_sound,
                next: args.next,
            })
        }
        Meaning::Terminal | Meaning::Unclear => Ok(Closing {
            symbol: ClosedSymbol::Faulty,
            is_sound: false,
            next: args.next,
        }),
    }
}

/// The level that a call of the rule carries, where so many occurrences of the owner stand before it.
fn level_carried(
    scope: &Scope<'_, '_>,
    before: u64,
    name: &Atom,
    rule: &EnabledRule<'_>,
) -> Option<u32>
    requires { IsKept scope.now.rules.now.features.now rule.now }
    ensures { result ≡ call_level (scope_view scope.now) before name.now
        (enabled_rule_view scope.now.rules.now.features.now rule.now) }
{
    if name.as_str() != scope.owner.as_str() {
        return rule.loosest;
    }
    let reaches = match scope.side {
        Assoc::Left => before == 0,
        Assoc::Right => scope.count != 0 && before == scope.count - 1,
        Assoc::NonAssoc => false,
        Assoc::FullyAssoc => true,
    };
    if reaches { scope.reached } else { scope.others }
}
