//! How symbols are read from JSON values.

ghost use Rattle.std.specs.Prelude.{◌≡◌};
ghost use Rattle.lalrpop_json_document.specs.DocumentViews.{view};
ghost use Rattle.lalrpop_json_values.specs.Gives.{Gives, within};
ghost use Rattle.lalrpop_json_values.specs.Lists.{list_at};
ghost use Rattle.lalrpop_json_values.specs.Objects.{field_at};
ghost use Rattle.lalrpop_json_symbols.specs.Symbols.{form_of_symbol, look_at, look_span_at, choose_at, group_at, id_at, literal_symbol_at, macro_at, named_at, op_at, repeat_at, symbol_at};
ghost use Rattle.lalrpop_json_values.specs.declared.fault.Step.TheVariants as step;

use crate::literal::literal_field;
use lalrpop_grammar_symbols::{
    Boxed, ExprSymbol, List, MacroSymbol, Name, NonterminalString, RepeatOp, RepeatSymbol, Span,
    Symbol, SymbolKind, TerminalString,
};
use lalrpop_json_document::JsonValue;
use lalrpop_json_values::{
    FaultKind, Form, Key, ReadError, Step, Word, at_key, flag_field, form_of, here, keys, member,
    name_field, outside, span_field, word_field,
};
use std::alloc::Global;

/// How often a symbol is repeated.
#[tactic(auto, unfolding(crate::specs::Symbols::op_at))]
fn op_of(alloc: Global, value: &JsonValue<'_>) -> Result<RepeatOp, ReadError>
    ensures { Gives result (op_at (view value.now)) }
{
    let Some(text) = value.as_str() else {
        return Err(here(alloc, FaultKind::WrongShape));
    };
    if text == Word::Star.text() {
        Ok(RepeatOp::Star)
    } else if text == Word::Plus.text() {
        Ok(RepeatOp::Plus)
    } else if text == Word::Question.text() {
        Ok(RepeatOp::Question)
    } else {
        Err(here(alloc, FaultKind::WrongShape))
    }
}

/// The sign at a key.
#[tactic(auto, unfolding(lalrpop_json_values::specs::Objects::field_at, lalrpop_json_values::specs::Objects::member_at))]
fn op_field(alloc: Global, value: &JsonValue<'_>, key: Key) -> Result<RepeatOp, ReadError>
    ensures { Gives result (field_at key op_at (view value.now)) }
{
    let found = member(alloc, value, key)?;
    Ok(at_key(op_of(alloc, found), key)?)
}

#[tactic(auto, unfolding(crate::specs::Symbols::id_at))]
fn id_of(alloc: Global, value: &JsonValue<'_>) -> Result<Symbol, ReadError>
    ensures { Gives result (id_at (view value.now)) }
{
    keys(alloc, value, &[Key::Kind, Key::Name, Key::Span])?;
    word_field(alloc, value, Key::Kind, Word::Id)?;
    let name = name_field(alloc, value, Key::Name)?;
    let span = span_field(alloc, value, Key::Span)?;
    Ok(Symbol {
        span,
        kind: SymbolKind::AmbiguousId(name),
    })
}

#[tactic(auto, unfolding(crate::specs::Symbols::literal_symbol_at))]
fn literal_symbol_of(alloc: Global, value: &JsonValue<'_>) -> Result<Symbol, ReadError>
    ensures { Gives result (literal_symbol_at (view value.now)) }
{
    keys(alloc, value, &[Key::Kind, Key::Span, Key::Terminal])?;
    word_field(alloc, value, Key::Kind, Word::Terminal)?;
    let span = span_field(alloc, value, Key::Span)?;
    let literal = literal_field(alloc, value, Key::Terminal)?;
    Ok(Symbol {
        span,
        kind: SymbolKind::Terminal(TerminalString::Literal(literal)),
    })
}

/// The span of a symbol that has no parts.
#[tactic(auto, unfolding(crate::specs::Symbols::look_span_at))]
fn look_span(alloc: Global, value: &JsonValue<'_>, word: Word) -> Result<Span, ReadError>
    ensures { Gives result (look_span_at word (view value.now)) }
{
    keys(alloc, value, &[Key::Kind, Key::Span])?;
    word_field(alloc, value, Key::Kind, word)?;
    span_field(alloc, value, Key::Span)
}

/// A symbol that has no parts.
#[tactic(auto, unfolding(crate::specs::Symbols::look_at, crate::specs::Symbols::look_span_at))]
fn look_of(
    alloc: Global,
    value: &JsonValue<'_>,
    word: Word,
    kind: SymbolKind,
) -> Result<Symbol, ReadError>
    ensures { Gives result (look_at word kind (view value.now)) }
{
    let span = look_span(alloc, value, word)?;
    Ok(Symbol { span, kind })
}

#[cycle(symbols)]
#[tactic(auto, using(crate::proofs::SymbolNestingLemmas::symbol_nesting), unfolding(crate::specs::Symbols::group_at))]
fn group_of(alloc: Global, value: &JsonValue<'_>) -> Result<Symbol, ReadError>
    ensures { Gives result (group_at symbol_at (view value.now)) }
{
    keys(alloc, value, &[Key::Expr, Key::Kind, Key::Span])?;
    let symbols = symbols_field(alloc, value, Key::Expr)?;
    word_field(alloc, value, Key::Kind, Word::Group)?;
    let span = span_field(alloc, value, Key::Span)?;
    Ok(Symbol {
        span,
        kind: SymbolKind::Expr(ExprSymbol { symbols }),
    })
}

#[cycle(symbols)]
#[tactic(auto, using(crate::proofs::SymbolNestingLemmas::symbol_nesting), unfolding(crate::specs::Symbols::macro_at))]
fn macro_of(alloc: Global, value: &JsonValue<'_>) -> Result<Symbol, ReadError>
    ensures { Gives result (macro_at symbol_at (view value.now)) }
{
    keys(alloc, value, &[Key::Args, Key::Kind, Key::Name, Key::Span])?;
    let args = symbols_field(alloc, value, Key::Args)?;
    word_field(alloc, value, Key::Kind, Word::Macro)?;
    let name = name_field(alloc, value, Key::Name)?;
    let span = span_field(alloc, value, Key::Span)?;
    let name = NonterminalString(name);
    Ok(Symbol {
        span,
        kind: SymbolKind::Macro(MacroSymbol { name, args }),
    })
}

#[cycle(symbols)]
#[tactic(auto, using(crate::proofs::SymbolNestingLemmas::symbol_nesting), unfolding(crate::specs::Symbols::repeat_at))]
fn repeat_of(alloc: Global, value: &JsonValue<'_>) -> Result<Symbol, ReadError>
    ensures { Gives result (repeat_at symbol_at (view value.now)) }
{
    keys(alloc, value, &[Key::Kind, Key::Op, Key::Span, Key::Symbol])?;
    word_field(alloc, value, Key::Kind, Word::Repeat)?;
    let op = op_field(alloc, value, Key::Op)?;
    let span = span_field(alloc, value, Key::Span)?;
    let symbol = symbol_field(alloc, value, Key::Symbol)?;
    let repeat = Boxed::new(alloc, RepeatSymbol { op, symbol })?;
    Ok(Symbol {
        span,
        kind: SymbolKind::Repeat(repeat),
    })
}

#[cycle(symbols)]
#[tactic(auto, using(crate::proofs::SymbolNestingLemmas::symbol_nesting), unfolding(crate::specs::Symbols::choose_at))]
fn choose_of(alloc: Global, value: &JsonValue<'_>) -> Result<Symbol, ReadError>
    ensures { Gives result (choose_at symbol_at (view value.now)) }
{
    keys(alloc, value, &[Key::Kind, Key::Span, Key::Symbol])?;
    word_field(alloc, value, Key::Kind, Word::Choose)?;
    let span = span_field(alloc, value, Key::Span)?;
    let symbol = symbol_field(alloc, value, Key::Symbol)?;
    let symbol = Boxed::new(alloc, symbol)?;
    Ok(Symbol {
        span,
        kind: SymbolKind::Choose(symbol),
    })
}

#[cycle(symbols)]
#[tactic(auto, using(crate::proofs::SymbolNestingLemmas::symbol_nesting), unfolding(crate::specs::Symbols::named_at))]
fn named_of(alloc: Global, value: &JsonValue<'_>) -> Result<Symbol, ReadError>
    ensures { Gives result (named_at symbol_at (view value.now)) }
{
    keys(
        alloc,
        value,
        &[Key::Kind, Key::Mutable, Key::Name, Key::Span, Key::Symbol],
    )?;
    word_field(alloc, value, Key::Kind, Word::Named)?;
    let mutable = flag_field(alloc, value, Key::Mutable)?;
    let name = name_field(alloc, value, Key::Name)?;
    let span = span_field(alloc, value, Key::Span)?;
    let symbol = symbol_field(alloc, value, Key::Symbol)?;
    let symbol = Boxed::new(alloc, symbol)?;
    let name = Name { mutable, name };
    Ok(Symbol {
        span,
        kind: SymbolKind::Name(name, symbol),
    })
}

#[tactic(auto, unfolding(crate::specs::Symbols::form_of_symbol))]
fn form_of_symbol(value: &JsonValue<'_>) -> Option<Form>
    ensures { result ≡ form_of_symbol (view value.now) }
{
    let words = [
        (Word::Choose, Form::Choose),
        (Word::Error, Form::Error),
        (Word::Group, Form::Group),
        (Word::Id, Form::Id),
        (Word::Lookahead, Form::Lookahead),
        (Word::Lookbehind, Form::Lookbehind),
        (Word::Macro, Form::Macro),
        (Word::Named, Form::Named),
        (Word::Repeat, Form::Repeat),
        (Word::Terminal, Form::Terminal),
    ];
    let rows = [
        (Key::Args, Form::Macro),
        (Key::Expr, Form::Group),
        (Key::Mutable, Form::Named),
        (Key::Name, Form::Id),
        (Key::Op, Form::Repeat),
        (Key::Span, Form::Id),
        (Key::Symbol, Form::Repeat),
        (Key::Terminal, Form::Terminal),
    ];
    form_of(&words, &rows, value)
}

/// A symbol.
#[cycle(symbols)]
#[tactic(auto, using(crate::proofs::SymbolNestingLemmas::symbol_nesting), unfolding(crate::specs::Symbols::symbol_layer_at))]
pub fn symbol_of(alloc: Global, value: &JsonValue<'_>) -> Result<Symbol, ReadError>
    ensures { Gives result (symbol_at (view value.now)) }
{
    match form_of_symbol(value) {
        Some(Form::Choose) => choose_of(alloc, value),
        Some(Form::Error) => look_of(alloc, value, Word::Error, SymbolKind::Error),
        Some(Form::Group) => group_of(alloc, value),
        Some(Form::Id) => id_of(alloc, value),
        Some(Form::Lookahead) => look_of(alloc, value, Word::Lookahead, SymbolKind::Lookahead),
        Some(Form::Lookbehind) => look_of(alloc, value, Word::Lookbehind, SymbolKind::Lookbehind),
        Some(Form::Macro) => macro_of(alloc, value),
        Some(Form::Named) => named_of(alloc, value),
        Some(Form::Repeat) => repeat_of(alloc, value),
        Some(Form::Terminal) => literal_symbol_of(alloc, value),
        _ => Err(here(alloc, FaultKind::WrongShape)),
    }
}

#[cycle(symbols)]
fn symbol_in(alloc: Global, value: &JsonValue<'_>, index: usize) -> Result<Symbol, ReadError>
    ensures { Gives result (within (step.Index index) (symbol_at (view value.now))) }
{
    match symbol_of(alloc, value) {
        Ok(found) => Ok(found),
        Err(error) => Err(outside(error, Step::Index(index))),
    }
}

/// A list of symbols.
#[cycle(symbols)]
#[tactic(auto, using(crate::proofs::SymbolNestingLemmas::symbol_nesting, lalrpop_json_values::proofs::ListReadingLemmas::lists), unfolding(lalrpop_json_values::specs::Lists::list_at))]
fn symbols_of(alloc: Global, value: &JsonValue<'_>) -> Result<List<Symbol>, ReadError>
    ensures { Gives result (list_at (λ _. symbol_at) (view value.now)) }
{
    let Some(values) = value.as_array() else {
        return Err(here(alloc, FaultKind::WrongShape));
    };
    let mut symbols = List::new(alloc);
    for (index, value) in values.iter().enumerate() {
        let symbol = symbol_in(alloc, value, index)?;
        symbols.push(symbol)?;
    }
    Ok(symbols)
}

/// The symbol at a key.
#[cycle(symbols)]
#[tactic(auto, using(crate::proofs::SymbolNestingLemmas::symbol_nesting), unfolding(lalrpop_json_values::specs::Objects::field_at, lalrpop_json_values::specs::Objects::member_at))]
pub fn symbol_field(alloc: Global, value: &JsonValue<'_>, key: Key) -> Result<Symbol, ReadError>
    ensures { Gives result (field_at key symbol_at (view value.now)) }
{
    let found = member(alloc, value, key)?;
    Ok(at_key(symbol_of(alloc, found), key)?)
}

/// The symbols at a key.
#[cycle(symbols)]
#[tactic(auto, using(crate::proofs::SymbolNestingLemmas::symbol_nesting), unfolding(lalrpop_json_values::specs::Objects::field_at, lalrpop_json_values::specs::Objects::member_at))]
pub fn symbols_field(
    alloc: Global,
    value: &JsonValue<'_>,
    key: Key,
) -> Result<List<Symbol>, ReadError>
    ensures { Gives result (field_at key (list_at (λ _. symbol_at)) (view value.now)) }
{
    let found = member(alloc, value, key)?;
    Ok(at_key(symbols_of(alloc, found), key)?)
}
