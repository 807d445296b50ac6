//! The texts of keys.

ghost use Rattle.std.specs.Prelude.{◌≡◌, ◌++◌, IfOk, OnOk, flat_map, map, string_bytes};
ghost use Rattle.lalrpop_grammar_symbols.specs.Texts.{choose_text, group_text, join_texts, named_text, repeat_text, sign_text};
ghost use Rattle.lalrpop_grammar_symbols.specs.Views.{repeat_op_view};
ghost use Rattle.lalrpop_norm_theory.specs.Keys.{before_tilde, flat_key_text};
ghost use Rattle.lalrpop_grammar_rules.specs.Views.{closed_view, closeds};
ghost use Rattle.lalrpop_norm_keys.specs.KeyTexts.{call_text, flat_key_texts};

use lalrpop_grammar_rules::closed::ClosedSymbol;
use lalrpop_grammar_symbols::{Atom, Name, RepeatOp};
use std::alloc::{AllocError, Global};

/// The text of a key: it prints as a symbol does, and a rule's name without its number behind the tilde.
pub fn key_text(alloc: Global, key: &ClosedSymbol) -> Result<String, AllocError>
    ensures { IfOk result (λ text. string_bytes text ≡ flat_key_text (closed_view key.now)) }
{
    let mut text = String::new(alloc);
    push_text(alloc, key, &mut text)?;
    Ok(text)
}

/// The name without its tail from the first tilde on.
#[tactic(auto, using(crate::proofs::TildeLemmas::cut_at_tilde, crate::proofs::TildeLemmas::no_tilde))]
fn without_number(name: &str) -> &str
    ensures { result.now ≡ before_tilde name.now }
{
    match name.split_once('~') {
        Some((front, _)) => front,
        None => name,
    }
}

/// The sign of a repeat.
fn sign(op: RepeatOp) -> &'static str
    ensures { result.now ≡ sign_text (repeat_op_view op) }
{
    match op {
        RepeatOp::Star => "*",
        RepeatOp::Plus => "+",
        RepeatOp::Question => "?",
    }
}

/// Puts a text behind another.
fn push(piece: &str, text: &mut String) -> Result<(), AllocError>
    ensures { OnOk result (string_bytes text.new ≡ string_bytes text.old ++ piece.now) }
{
    text.push_str(piece)
}

/// Puts the text of the symbol behind another.
#[cycle(texts)]
fn push_text(alloc: Global, symbol: &ClosedSymbol, text: &mut String) -> Result<(), AllocError>
    ensures { OnOk result (string_bytes text.new ≡ string_bytes text.old ++ flat_key_text (closed_view symbol.now)) }
{
    match symbol {
        ClosedSymbol::Terminal(terminal) => terminal.write_text(alloc, text),
        ClosedSymbol::Call(name, args, _) => push_call(alloc, name, args.as_slice(), text),
        ClosedSymbol::Repeat(op, inside) => push_repeated(alloc, *op, inside.get(), text),
        ClosedSymbol::Group(symbols) => push_group(alloc, symbols.as_slice(), text),
        ClosedSymbol::Choose(inside) => push_chosen(alloc, inside.get(), text),
        ClosedSymbol::Name(name, inside) => push_named(alloc, name, inside.get(), text),
        ClosedSymbol::Lookahead => push("@L", text),
        ClosedSymbol::Lookbehind => push("@R", text),
        ClosedSymbol::Faulty => push("!", text),
    }
}

/// Puts the text of a call behind another.
#[cycle(texts)]
fn push_call(
    alloc: Global,
    name: &Atom,
    args: &[ClosedSymbol],
    text: &mut String,
) -> Result<(), AllocError>
    ensures { OnOk result (string_bytes text.new
        ≡ string_bytes text.old ++ call_text (before_tilde name.now) (closeds (map closed_view args.now))) }
{
    push(without_number(name.as_str()), text)?;
    let Some((first, others)) = args.split_first() else {
        return Ok(());
    };
    push("<", text)?;
    push_text(alloc, first, text)?;
    push_others(alloc, others, ", ", text)?;
    push(">", text)
}

/// Puts the text of a group behind another.
#[cycle(texts)]
fn push_group(alloc: Global, symbols: &[ClosedSymbol], text: &mut String) -> Result<(), AllocError>
    ensures { OnOk result (string_bytes text.new
        ≡ string_bytes text.old ++ group_text (flat_key_texts (closeds (map closed_view symbols.now)))) }
{
    push("(", text)?;
    if let Some((first, others)) = symbols.split_first() {
        push_text(alloc, first, text)?;
        push_others(alloc, others, " ", text)?;
    }
    push(")", text)
}

/// Puts the text of a repeat behind another.
#[cycle(texts)]
fn push_repeated(
    alloc: Global,
    op: RepeatOp,
    inside: &ClosedSymbol,
    text: &mut String,
) -> Result<(), AllocError>
    ensures { OnOk result (string_bytes text.new
        ≡ string_bytes text.old ++ repeat_text (repeat_op_view op) (flat_key_text (closed_view inside.now))) }
{
    push_text(alloc, inside, text)?;
    push(sign(op), text)
}

/// Puts the text of a chosen symbol behind another.
#[cycle(texts)]
fn push_chosen(alloc: Global, inside: &ClosedSymbol, text: &mut String) -> Result<(), AllocError>
    ensures { OnOk result (string_bytes text.new
        ≡ string_bytes text.old ++ choose_text (flat_key_text (closed_view inside.now))) }
{
    push("<", text)?;
    push_text(alloc, inside, text)?;
    push(">", text)
}

/// Puts the text of a named symbol behind another.
#[cycle(texts)]
fn push_named(
    alloc: Global,
    name: &Name,
    inside: &ClosedSymbol,
    text: &mut String,
) -> Result<(), AllocError>
    ensures { OnOk result (string_bytes text.new ≡ string_bytes text.old
        ++ named_text name.now.mutable name.now.name (flat_key_text (closed_view inside.now))) }
{
    push("<", text)?;
    if name.mutable {
        push("mut ", text)?;
    }
    push(name.name.as_str(), text)?;
    push(":", text)?;
    push_text(alloc, inside, text)?;
    push(">", text)
}

/// Puts the texts of the symbols behind another text, each behind a separator.
#[cycle(texts)]
fn push_others(
    alloc: Global,
    symbols: &[ClosedSymbol],
    separator: &str,
    text: &mut String,
) -> Result<(), AllocError>
    ensures { OnOk result (string_bytes text.new ≡ string_bytes text.old
        ++ flat_map (λ t. separator.now ++ t) (flat_key_texts (closeds (map closed_view symbols.now)))) }
{
    for symbol in symbols {
        push(separator, text)?;
        push_text(alloc, symbol, text)?;
    }
    Ok(())
}
