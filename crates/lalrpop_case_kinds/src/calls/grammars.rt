//! Symbols, grammars and trees: their texts, and what they are written as.

use crate::files::values::{number, pair, text};
use anyhow::{Result, bail};
use lalrpop_grammar::{Grammar, Symbol, TerminalString};
use lalrpop_json_document::lend_value;
use lalrpop_json_grammar::writer::write_grammar;
use lalrpop_json_grammar::{print_tree, read_grammar, read_tree};
use lalrpop_json_symbols::{symbol_of, terminal_of};
use serde_json::Value;
use std::alloc::{AllocError, Global};

/// The text of a copy of the symbol, which has to equal it.
pub(crate) fn symbol_text(alloc: Global, symbol: &Value) -> Result<Value> {
    let symbol = spelled_symbol(alloc, symbol)?;
    written_symbol(alloc, &symbol)
}

/// The text of a copy of the symbol, which has to equal it, as a value.
fn written_symbol(alloc: Global, symbol: &Symbol) -> Result<Value> {
    let copy = Box::new(alloc, symbol.try_clone(alloc)?)?;
    if *copy == *symbol {
        Ok(Value::from(copy.canonical_form(alloc)?))
    } else {
        bail!("a copy that differs")
    }
}

/// The symbol that the value spells.
fn spelled_symbol(alloc: Global, value: &Value) -> Result<Symbol> {
    let document = lend_value(alloc, value)?;
    match symbol_of(alloc, &document) {
        Ok(symbol) => Ok(symbol),
        Err(_) => bail!("no symbol"),
    }
}

/// The text of the terminal, and the number of bytes that it says to have.
pub(crate) fn terminal_text(alloc: Global, terminal: &Value) -> Result<Value> {
    let terminal = spelled_terminal(alloc, terminal)?;
    Ok(written_terminal(alloc, &terminal)?)
}

/// The text of the terminal and the number of its bytes, as a value.
fn written_terminal(alloc: Global, terminal: &TerminalString) -> Result<Value, AllocError> {
    let written = Value::from(terminal.canonical_form(alloc)?);
    pair(alloc, written, number(terminal.display_len()))
}

/// The terminal that the value spells.
fn spelled_terminal(alloc: Global, value: &Value) -> Result<TerminalString> {
    let document = lend_value(alloc, value)?;
    match terminal_of(alloc, &document) {
        Ok(terminal) => Ok(terminal),
        Err(_) => bail!("no terminal"),
    }
}

/// The text of the tree.
pub(crate) fn tree_text(alloc: Global, tree: &Value) -> Result<Value> {
    let Ok(tree) = read_tree(alloc, tree) else {
        bail!("no tree");
    };
    Ok(Value::from(print_tree(alloc, &tree)?))
}

/// The grammar that the value spells.
pub(crate) fn grammar_of(alloc: Global, value: &Value) -> Result<Grammar> {
    match read_grammar(alloc, value) {
        Ok(grammar) => Ok(grammar),
        Err(_) => bail!("no grammar"),
    }
}

/// What the grammar is written as, `"itself"` where that is the value that it was read from.
pub(crate) fn written_grammar(alloc: Global, value: &Value) -> Result<Value> {
    let written = written_value(alloc, value)?;
    if is_same(alloc, &written, value)? {
        Ok(text(alloc, "itself")?)
    } else {
        Ok(written)
    }
}

/// What the grammar that the value spells is written as.
fn written_value(alloc: Global, value: &Value) -> Result<Value> {
    let grammar = grammar_of(alloc, value)?;
    match write_grammar(alloc, &grammar) {
        Ok(written) => Ok(written),
        Err(_) => bail!("not written"),
    }
}

/// Whether the values are the same, and written in the same order.
fn is_same(alloc: Global, one: &Value, other: &Value) -> Result<bool> {
    Ok(*one == *other && one.to_string(alloc)? == other.to_string(alloc)?)
}
