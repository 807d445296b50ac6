//! The calls and the keys that stand in symbols.

ghost use Rattle.std.specs.Prelude.{◌≡◌, ◌++◌, ◌∷◌, [], IfOk, OnOk, map};
ghost use Rattle.lalrpop_grammar_symbols.specs.Symbols.{Closed};
ghost use Rattle.lalrpop_grammar_symbols.specs.Views.{repeat_op_view, terminal_view};
ghost use Rattle.lalrpop_norm_theory.specs.Depth.{calls_in, calls_in_all};
ghost use Rattle.lalrpop_norm_theory.specs.KeyTables.{keys_in, keys_in_all};
ghost use Rattle.lalrpop_grammar_rules.specs.Views.{closed_view, closeds};
ghost use Rattle.lalrpop_norm_keys.specs.Standing.{keys_of_repeat};

use lalrpop_grammar_rules::closed::{ClosedSymbol, Shared};
use lalrpop_grammar_symbols::{List, RepeatOp, TerminalLiteral, TerminalString};
use std::alloc::{AllocError, Global};

/// The calls of macros that stand in the symbols, in order, through groups, repeats, names and choices. One that stands as an
/// argument alone doesn't.
pub fn calls_in_symbols(
    alloc: Global,
    symbols: &[ClosedSymbol],
) -> Result<List<ClosedSymbol>, AllocError>
    ensures { IfOk result (λ calls. map closed_view calls ≡ calls_in_all (closeds (map closed_view symbols.now))) }
{
    let mut calls = List::new(alloc);
    note_calls_in(symbols, &mut calls)?;
    Ok(calls)
}

/// The keys that stand in the symbols, in order, through groups, repeats, names and choices. What stands in the arguments of a
/// call doesn't.
pub fn keys_in_symbols(
    alloc: Global,
    symbols: &[ClosedSymbol],
) -> Result<List<ClosedSymbol>, AllocError>
    ensures { IfOk result (λ keys. map closed_view keys ≡ keys_in_all (closeds (map closed_view symbols.now))) }
{
    let mut keys = List::new(alloc);
    note_keys_in(alloc, symbols, &mut keys)?;
    Ok(keys)
}

/// Puts a copy of the symbol behind the others.
fn push_copy(symbol: &ClosedSymbol, others: &mut List<ClosedSymbol>) -> Result<(), AllocError>
    ensures { OnOk result (map closed_view others.new ≡ map closed_view others.old ++ closed_view symbol.now ∷ []) }
{
    others.push(symbol.try_clone()?)
}

/// Puts the calls in the symbol behind the others.
#[cycle(calls)]
fn note_calls(symbol: &ClosedSymbol, calls: &mut List<ClosedSymbol>) -> Result<(), AllocError>
    ensures { OnOk result (map closed_view calls.new ≡ map closed_view calls.old ++ calls_in (closed_view symbol.now)) }
{
    match symbol {
        ClosedSymbol::Call(_, args, _) => match args.as_slice().split_first() {
            None => Ok(()),
            Some(_) => push_copy(symbol, calls),
        },
        ClosedSymbol::Repeat(_, inside) => note_calls(inside.get(), calls),
        ClosedSymbol::Group(symbols) => note_calls_in(symbols.as_slice(), calls),
        ClosedSymbol::Choose(inside) => note_calls(inside.get(), calls),
        ClosedSymbol::Name(_, inside) => note_calls(inside.get(), calls),
        ClosedSymbol::Terminal(_) => Ok(()),
        ClosedSymbol::Lookahead => Ok(()),
        ClosedSymbol::Lookbehind => Ok(()),
        ClosedSymbol::Faulty => Ok(()),
    }
}

/// Puts the calls in the symbols behind the others.
#[cycle(calls)]
fn note_calls_in(symbols: &[ClosedSymbol], calls: &mut List<ClosedSymbol>) -> Result<(), AllocError>
    ensures { OnOk result (map closed_view calls.new
        ≡ map closed_view calls.old ++ calls_in_all (closeds (map closed_view symbols.now))) }
{
    for symbol in symbols {
        note_calls(symbol, calls)?;
    }
    Ok(())
}

/// Puts the repeat of a copy of the symbol behind the others.
fn push_repeat(
    alloc: Global,
    op: RepeatOp,
    inside: &ClosedSymbol,
    keys: &mut List<ClosedSymbol>,
) -> Result<(), AllocError>
    ensures { OnOk result (map closed_view keys.new
        ≡ map closed_view keys.old ++ Closed.repeat (repeat_op_view op) (closed_view inside.now) ∷ []) }
{
    let copy = inside.try_clone()?;
    keys.push(ClosedSymbol::Repeat(op, Shared::new(alloc, copy)?))
}

/// Puts the repeat of the symbol behind the others, and what it is made of.
fn note_repeat(
    alloc: Global,
    op: RepeatOp,
    inside: &ClosedSymbol,
    keys: &mut List<ClosedSymbol>,
) -> Result<(), AllocError>
    ensures { OnOk result (map closed_view keys.new
        ≡ map closed_view keys.old ++ keys_of_repeat (repeat_op_view op) (closed_view inside.now)) }
{
    match op {
        RepeatOp::Star => {
            push_repeat(alloc, RepeatOp::Star, inside, keys)?;
            push_repeat(alloc, RepeatOp::Plus, inside, keys)
        }
        RepeatOp::Plus => push_repeat(alloc, RepeatOp::Plus, inside, keys),
        RepeatOp::Question => push_repeat(alloc, RepeatOp::Question, inside, keys),
    }
}

/// Puts the terminal behind the others, where it is that of error recovery.
fn note_terminal(terminal: &TerminalString, keys: &mut List<ClosedSymbol>) -> Result<(), AllocError>
    ensures { OnOk result (map closed_view keys.new
        ≡ map closed_view keys.old ++ keys_in (Closed.terminal (terminal_view terminal.now))) }
{
    match terminal {
        TerminalString::Literal(TerminalLiteral::Quoted(_)) => Ok(()),
        TerminalString::Literal(TerminalLiteral::Regex(_)) => Ok(()),
        TerminalString::Bare(_) => Ok(()),
        TerminalString::Error => keys.push(ClosedSymbol::Terminal(TerminalString::Error)),
    }
}

/// Puts the keys in the symbol behind the others.
#[cycle(keys)]
fn note_keys(
    alloc: Global,
    symbol: &ClosedSymbol,
    keys: &mut List<ClosedSymbol>,
) -> Result<(), AllocError>
    ensures { OnOk result (map closed_view keys.new ≡ map closed_view keys.old ++ keys_in (closed_view symbol.now)) }
{
    match symbol {
        ClosedSymbol::Terminal(terminal) => note_terminal(terminal, keys),
        ClosedSymbol::Call(_, _, _) => push_copy(symbol, keys),
        ClosedSymbol::Repeat(op, inside) => {
            note_repeat(alloc, *op, inside.get(), keys)?;
            note_keys(alloc, inside.get(), keys)
        }
        ClosedSymbol::Group(symbols) => {
            push_copy(symbol, keys)?;
            note_keys_in(alloc, symbols.as_slice(), keys)
        }
        ClosedSymbol::Choose(inside) => note_keys(alloc, inside.get(), keys),
        ClosedSymbol::Name(_, inside) => note_keys(alloc, inside.get(), keys),
        ClosedSymbol::Lookahead => push_copy(symbol, keys),
        ClosedSymbol::Lookbehind => push_copy(symbol, keys),
        ClosedSymbol::Faulty => push_copy(symbol, keys),
    }
}

/// Puts the keys in the symbols behind the others.
#[cycle(keys)]
fn note_keys_in(
    alloc: Global,
    symbols: &[ClosedSymbol],
    keys: &mut List<ClosedSymbol>,
) -> Result<(), AllocError>
    ensures { OnOk result (map closed_view keys.new
        ≡ map closed_view keys.old ++ keys_in_all (closeds (map closed_view symbols.now))) }
{
    for symbol in symbols {
        note_keys(alloc, symbol, keys)?;
    }
    Ok(())
}
