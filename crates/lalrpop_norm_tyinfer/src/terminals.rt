//! The types of terminals.

ghost use Rattle.std.specs.Prelude.{◌≡◌, ◌++◌, IfOk, OnOk, map};
ghost use Rattle.lalrpop_grammar_symbols.specs.Views.{symbol_view};
ghost use Rattle.lalrpop_grammar.specs.Views.{grammar_view, intern_entry_view, item_view, nonterminal_view};
ghost use Rattle.lalrpop_grammar.specs.WrittenGrammar.{rules_of};
ghost use Rattle.lalrpop_norm_tyinfer.specs.TerminalTypes.{HasTerminalTypes, IsWithTerminal, found_terminals, grammar_terminals};
ghost use Rattle.lalrpop_norm_tyinfer.specs.TerminalTypes.{inner_terminals, terminal_list, terminals_of_alternatives};
ghost use Rattle.lalrpop_norm_tyinfer.specs.TerminalTypes.{terminals_of_entries, terminals_of_item, terminals_of_items, terminals_of_rules};
ghost use Rattle.lalrpop_norm_tyinfer.specs.TerminalTypes.{terminals_of_symbols};

use crate::ground::text_type;
use lalrpop_grammar::{Grammar, GrammarItem, MatchEntry, MatchMapping, NonterminalData};
use lalrpop_grammar_repr::{Map, TypeRepr};
use lalrpop_grammar_symbols::{Symbol, SymbolKind, TerminalString};
use std::alloc::{AllocError, Global};

/// The terminal that the symbol is, maybe named or chosen.
fn inner_terminal(symbol: &Symbol) -> Option<&TerminalString>
    ensures { terminal_list result ≡ inner_terminals (symbol_view symbol.now) }
{
    match &symbol.kind {
        SymbolKind::Terminal(terminal) => Some(terminal),
        SymbolKind::Choose(inside) => inner_terminal(inside.get()),
        SymbolKind::Name(_, inside) => inner_terminal(inside.get()),
        SymbolKind::Nonterminal(_) | SymbolKind::AmbiguousId(_) | SymbolKind::Expr(_) => None,
        SymbolKind::Macro(_) | SymbolKind::Repeat(_) | SymbolKind::Lookahead => None,
        SymbolKind::Lookbehind | SymbolKind::Error => None,
    }
}

/// Adds the terminals among the symbols.
fn add_symbols<'g>(
    symbols: &'g [Symbol],
    found: &mut Vec<&'g TerminalString>,
) -> Result<(), AllocError>
    ensures { OnOk result (found_terminals found.new.items
        ≡ found_terminals found.old.items ++ terminals_of_symbols (map symbol_view symbols.now)) }
{
    for symbol in symbols {
        if let Some(terminal) = inner_terminal(symbol) {
            found.push(terminal)?;
        }
    }
    Ok(())
}

/// Adds the terminals in the rule's alternatives.
fn add_rule<'g>(
    rule: &'g NonterminalData,
    found: &mut Vec<&'g TerminalString>,
) -> Result<(), AllocError>
    ensures { OnOk result (found_terminals found.new.items ≡ found_terminals found.old.items
        ++ terminals_of_alternatives (nonterminal_view rule.now).alternatives) }
{
    for alternative in rule.alternatives.as_slice() {
        add_symbols(alternative.expr.as_slice(), found)?;
    }
    Ok(())
}

/// Adds the terminals in the alternatives of the grammar's rules.
fn add_rules<'g>(
    grammar: &'g Grammar,
    found: &mut Vec<&'g TerminalString>,
) -> Result<(), AllocError>
    ensures { OnOk result (found_terminals found.new.items
        ≡ found_terminals found.old.items ++ terminals_of_rules (rules_of (grammar_view grammar.now).items)) }
{
    for rule in grammar.rules() {
        add_rule(rule, found)?;
    }
    Ok(())
}

/// Adds the terminals that the entries map to.
fn add_entries<'g>(
    entries: &'g [MatchEntry],
    found: &mut Vec<&'g TerminalString>,
) -> Result<(), AllocError>
    ensures { OnOk result (found_terminals found.new.items
        ≡ found_terminals found.old.items ++ terminals_of_entries (map intern_entry_view entries.now)) }
{
    for entry in entries {
        match &entry.user_name {
            MatchMapping::Terminal(terminal) => found.push(terminal)?,
            MatchMapping::Skip => {}
        }
    }
    Ok(())
}

/// Adds the terminals that the item's entries map to, where it is a tokenizer.
fn add_item<'g>(
    item: &'g GrammarItem,
    found: &mut Vec<&'g TerminalString>,
) -> Result<(), AllocError>
    ensures { OnOk result (found_terminals found.new.items
        ≡ found_terminals found.old.items ++ terminals_of_item (item_view item.now)) }
{
    match item {
        GrammarItem::InternToken(tokens) => add_entries(tokens.match_entries.as_slice(), found),
        GrammarItem::Nonterminal(_) | GrammarItem::MatchToken(_) => Ok(()),
        GrammarItem::ExternToken(_) | GrammarItem::Use(_) => Ok(()),
    }
}

/// Adds the terminals that entries of tokenizers among the items map to.
fn add_items<'g>(
    items: &'g [GrammarItem],
    found: &mut Vec<&'g TerminalString>,
) -> Result<(), AllocError>
    ensures { OnOk result (found_terminals found.new.items
        ≡ found_terminals found.old.items ++ terminals_of_items (map item_view items.now)) }
{
    for item in items {
        add_item(item, found)?;
    }
    Ok(())
}

/// The terminals in the grammar's alternatives, and those that entries of its tokenizer map to.
fn terminals_in<'g>(
    alloc: Global,
    grammar: &'g Grammar,
) -> Result<Vec<&'g TerminalString>, AllocError>
    ensures { IfOk result (λ found. found_terminals found.items ≡ grammar_terminals (grammar_view grammar.now)) }
{
    let mut found = Vec::new(alloc);
    add_rules(grammar, &mut found)?;
    add_items(grammar.items.as_slice(), &mut found)?;
    Ok(found)
}

/// Puts the terminal's type into the table, where it has none for it.
fn add_type(
    alloc: Global,
    terminal: &TerminalString,
    table: &mut Map<TerminalString, TypeRepr>,
) -> Result<(), AllocError>
    ensures { OnOk result (IsWithTerminal terminal.now table.old table.new) }
{
    if table.get(terminal).is_none() {
        let ty = text_type(alloc)?;
        table.insert(terminal.try_clone()?, ty)?;
    }
    Ok(())
}

/// The types of the terminals in the grammar's alternatives, and of those that entries of its tokenizer map to.
pub(crate) fn terminal_types(
    alloc: Global,
    grammar: &Grammar,
) -> Result<Map<TerminalString, TypeRepr>, AllocError>
    ensures { IfOk result (HasTerminalTypes (grammar_view grammar.now)) }
{
    let terminals = terminals_in(alloc, grammar)?;
    let mut table = Map::new(alloc);
    for terminal in terminals.as_slice() {
        add_type(alloc, terminal, &mut table)?;
    }
    Ok(table)
}
