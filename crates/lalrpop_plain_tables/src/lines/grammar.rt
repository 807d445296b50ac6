//! Grammars of plain productions, and token lists.

ghost use Rattle.std.specs.Prelude.{◌≡◌, ◌≤◌, ◌⊎◌, ◌^◌, IfErr, IfNone, IfOk, OnOk, length, suc};
ghost use Rattle.lalrpop_plain_tables.specs.Lines.{AreSymbolWords, IsFaultOfLine, IsFaultOfLines, IsFaultOfProduction};

use crate::lines::error::LinesError;
use crate::lines::words::{is_name, symbol_of, words};
use lalrpop_grammar::types::TypeRepr;
use lalrpop_grammar_repr::{
    ActionFn, ActionFnDefn, ActionFnDefnKind, Algorithm, Grammar, Map, NonterminalData, Production,
    Symbol, TerminalSet, Types, UserActionFnDefn,
};
use lalrpop_grammar_symbols::{Atom, List, NonterminalString, Span, TerminalString};
use std::alloc::{AllocError, Global};
use std::collections::BTreeMap;

/// What the names of starts begin with.
const PREFIX: &str = "__";

/// How many actions can be numbered.
const MOST_ACTIONS: usize = 4_294_967_296;

/// The productions that were read.
#[derive(Drop)]
struct Reading {
    productions: BTreeMap<NonterminalString, Vec<Production>>,
    terminals: BTreeMap<TerminalString, ()>,
    actions: List<ActionFnDefn>,
}

/// The grammar whose productions stand in the lines of the text, one in each, blank lines aside. Each production has an action of
/// its own, numbered in order of the lines, and spans that tell the line, counted from 1.
///
/// # Errors
///
/// A line is no production, there are too many of them, or memory runs out.
pub fn read_lines(alloc: Global, text: &str) -> Result<Grammar, LinesError>
    ensures { IfErr result (IsFaultOfLines text.now) }
{
    let mut reading = Reading {
        productions: BTreeMap::new(alloc),
        terminals: BTreeMap::new(alloc),
        actions: List::new(alloc),
    };
    // No more lines than bytes.
    let _length = text.len();
    let mut number = 0usize;
    for line in text.lines() {
        number += 1;
        let line = line.trim();
        if !line.is_empty() {
            read_line(alloc, line, number, &mut reading)?;
        }
    }
    Ok(grammar_of(alloc, reading)?)
}

/// The terminals whose texts stand in the text, separated by blanks.
pub fn read_tokens(alloc: Global, text: &str) -> Result<Vec<TerminalString>, AllocError> {
    let mut tokens = Vec::new(alloc);
    for word in text.split_whitespace() {
        tokens.push(TerminalString::quoted(Atom::new(alloc, word)?))?;
    }
    Ok(tokens)
}

/// Reads the production of a line, which isn't blank.
fn read_line(
    alloc: Global,
    line: &str,
    number: usize,
    reading: &mut Reading,
) -> Result<(), LinesError>
    ensures fault { IfErr result (IsFaultOfLine line.now number (length reading.old.actions)) }
    ensures one_more { OnOk result (length reading.new.actions ≡ suc (length reading.old.actions)) }
{
    let Some((name, side)) = line.split_once(':') else {
        return Err(LinesError::Line(number));
    };
    let name = name.trim();
    if !is_name(name) {
        return Err(LinesError::Line(number));
    }
    match read_side(alloc, side.trim())? {
        Some(symbols) => {
            let name = NonterminalString(Atom::new(alloc, name)?);
            add_production(alloc, name, symbols, number, reading)
        }
        None => Err(LinesError::Line(number)),
    }
}

/// The symbols that the text spells.
fn read_side(alloc: Global, side: &str) -> Result<Option<List<Symbol>>, AllocError>
    ensures { IfOk result (λ symbols. IfNone symbols (AreSymbolWords side.now → ⊥)) }
{
    let mut symbols = List::new(alloc);
    let words = words(alloc, side)?;
    for word in words.as_slice() {
        let Some(symbol) = symbol_of(alloc, word)? else {
            return Ok(None);
        };
        symbols.push(symbol)?;
    }
    Ok(Some(symbols))
}

/// Puts the terminals among the symbols to the others.
fn add_terminals(
    symbols: &[Symbol],
    terminals: &mut BTreeMap<TerminalString, ()>,
) -> Result<(), AllocError> {
    for symbol in symbols {
        if let Symbol::Terminal(terminal) = symbol {
            terminals.insert(terminal.try_clone()?, ())?;
        }
    }
    Ok(())
}

/// Puts the production behind the others, and its terminals to theirs.
fn add_production(
    alloc: Global,
    name: NonterminalString,
    symbols: List<Symbol>,
    number: usize,
    reading: &mut Reading,
) -> Result<(), LinesError>
    ensures fault { IfErr result (IsFaultOfProduction (length reading.old.actions)) }
    ensures one_more { OnOk result (length reading.new.actions ≡ suc (length reading.old.actions)) }
{
    let action = reading.actions.len();
    if action >= MOST_ACTIONS {
        return Err(LinesError::TooMany);
    }
    let production = Production {
        nonterminal: name,
        symbols,
        action: ActionFn::new(action),
        span: line_span(number),
    };
    add_terminals(production.symbols.as_slice(), &mut reading.terminals)?;
    reading.actions.push(unit_action(alloc))?;
    add_to_nonterminal(production, &mut reading.productions)?;
    Ok(())
}

/// Puts the production behind those of its nonterminal.
fn add_to_nonterminal(
    production: Production,
    productions: &mut BTreeMap<NonterminalString, Vec<Production>>,
) -> Result<(), AllocError> {
    let name = production.nonterminal.try_clone()?;
    productions.entry(name)?.or_default().push(production)?;
    Ok(())
}

/// An action without code, of type `()`.
fn unit_action(alloc: Global) -> ActionFnDefn {
    ActionFnDefn {
        fallible: false,
        ret_type: TypeRepr::Tuple(List::new(alloc)),
        kind: ActionFnDefnKind::User(UserActionFnDefn { code: None }),
    }
}

/// The line's number, twice.
fn line_span(number: usize) -> Span {
    Span(number, number)
}

/// The grammar of what was read.
fn grammar_of(alloc: Global, reading: Reading) -> Result<Grammar, AllocError> {
    let Reading {
        productions,
        terminals,
        actions,
    } = reading;
    let prefix = Atom::new(alloc, PREFIX)?;
    let terminals = terminal_set(alloc, terminals)?;
    let names = names_of(alloc, productions)?;
    Ok(Grammar {
        prefix,
        terminals,
        nonterminals: names.nonterminals,
        start_nonterminals: names.starts,
        action_fn_defns: actions,
        types: Types::new(alloc),
        algorithm: Algorithm { lalr: false },
    })
}

/// The nonterminals of a grammar, and those to start from.
#[derive(Drop)]
struct Names {
    nonterminals: Map<NonterminalString, NonterminalData>,
    starts: Map<NonterminalString, NonterminalString>,
}

/// The nonterminals with these productions, and among them those to start from, whose names begin with the prefix.
fn names_of(
    alloc: Global,
    productions: BTreeMap<NonterminalString, Vec<Production>>,
) -> Result<Names, AllocError> {
    let mut names = Names {
        nonterminals: Map::new(alloc),
        starts: Map::new(alloc),
    };
    for (name, productions) in productions.into_iter() {
        add_nonterminal(alloc, name, productions, &mut names)?;
    }
    Ok(names)
}

/// Puts the nonterminal with these productions to the others, and to those to start from where it is one.
fn add_nonterminal(
    alloc: Global,
    name: NonterminalString,
    productions: Vec<Production>,
    names: &mut Names,
) -> Result<(), AllocError> {
    let data = nonterminal_of(alloc, &name, productions)?;
    add_start(alloc, &name, &mut names.starts)?;
    names.nonterminals.insert(name, data)?;
    Ok(())
}

/// Puts the nonterminal to those to start from, where its name begins with the prefix.
fn add_start(
    alloc: Global,
    name: &NonterminalString,
    starts: &mut Map<NonterminalString, NonterminalString>,
) -> Result<(), AllocError> {
    if let Some(rule) = name.0.as_str().strip_prefix(PREFIX) {
        let rule = NonterminalString(Atom::new(alloc, rule)?);
        starts.insert(rule, name.try_clone()?)?;
    }
    Ok(())
}

/// A nonterminal with these productions.
fn nonterminal_of(
    alloc: Global,
    name: &NonterminalString,
    productions: Vec<Production>,
) -> Result<NonterminalData, AllocError> {
    Ok(NonterminalData {
        name: name.try_clone()?,
        attributes: List::new(alloc),
        span: Span(0, 0),
        productions: List::from_vec(productions),
    })
}

/// The terminals, ascending, each with its place.
fn terminal_set(
    alloc: Global,
    terminals: BTreeMap<TerminalString, ()>,
) -> Result<TerminalSet, AllocError> {
    let mut set = TerminalSet {
        all: List::new(alloc),
        bits: Map::new(alloc),
    };
    for (terminal, ()) in terminals.into_iter() {
        add_terminal(terminal, &mut set)?;
    }
    Ok(set)
}

/// Puts the terminal behind the others, with the next place.
fn add_terminal(terminal: TerminalString, set: &mut TerminalSet) -> Result<(), AllocError> {
    let place = set.all.len();
    set.bits.insert(terminal.try_clone()?, place)?;
    set.all.push(terminal)
}
