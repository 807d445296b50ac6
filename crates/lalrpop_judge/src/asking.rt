//! What a closed symbol asks of a tree, under names and choices.

ghost use Rattle.std.specs.Prelude.{◌≡◌, ◌↔◌, ◌⊎◌, ℕ, IfNone, IfSome, IsTrue, Option, map};
ghost use Rattle.lalrpop_grammar_symbols.specs.Symbols.{Closed, Closeds, Op, Text};
ghost use Rattle.lalrpop_grammar_symbols.specs.Views.{terminal_view};
ghost use Rattle.lalrpop_grammar_language.specs.Admitting.{IsTokenTerminal};
ghost use Rattle.lalrpop_grammar_language.specs.Closing.{inner};
ghost use Rattle.lalrpop_grammar_rules.specs.Views.{closed_view, closeds};
ghost use Rattle.lalrpop_judge.specs.Admitted.{MayBe};

use lalrpop_grammar::{Atom, RepeatOp, TerminalString};
use lalrpop_grammar_rules::closed::{ClosedSymbol, same_terminal};

/// What an optional symbol repeats.
pub(crate) fn optional(symbol: &ClosedSymbol) -> Option<&ClosedSymbol>
    ensures some { IfSome result (λ y. inner (closed_view symbol.now) ≡ Closed.repeat Op.question (closed_view y.now)) }
    ensures none { IfNone result ((y : Closed) → inner (closed_view symbol.now) ≡ Closed.repeat Op.question y → ⊥) }
{
    match symbol.inner() {
        ClosedSymbol::Repeat(RepeatOp::Question, item) => Some(item.get()),
        _ => None,
    }
}

/// What a symbol repeats that may have a list, empty or not.
pub(crate) fn repeated_symbol(symbol: &ClosedSymbol, empty: bool) -> Option<&ClosedSymbol>
    ensures some { IfSome result (λ y. (op : Op)
        × (inner (closed_view symbol.now) ≡ Closed.repeat op (closed_view y.now)) × MayBe op empty) }
    ensures none { IfNone result ((op : Op) (y : Closed) →
        inner (closed_view symbol.now) ≡ Closed.repeat op y → MayBe op empty → ⊥) }
{
    match symbol.inner() {
        ClosedSymbol::Repeat(RepeatOp::Star, item) => Some(item.get()),
        ClosedSymbol::Repeat(RepeatOp::Plus, item) => {
            if empty { None } else { Some(item.get()) }
        }
        _ => None,
    }
}

/// The symbols of a group.
pub(crate) fn symbols_of_group(symbol: &ClosedSymbol) -> Option<&[ClosedSymbol]>
    ensures some { IfSome result (λ ys.
        inner (closed_view symbol.now) ≡ Closed.group (closeds (map closed_view ys.now))) }
    ensures none { IfNone result ((ys : Closeds) → inner (closed_view symbol.now) ≡ Closed.group ys → ⊥) }
{
    match symbol.inner() {
        ClosedSymbol::Group(symbols) => Some(symbols.as_slice()),
        _ => None,
    }
}

/// A called rule, with arguments and a level.
#[derive(Clone, Copy)]
pub(crate) struct AskedCall<'c> {
    pub(crate) name: &'c Atom,
    pub(crate) args: &'c [ClosedSymbol],
    pub(crate) level: Option<u32>,
}

/// The call that a symbol is.
pub(crate) fn call_of(symbol: &ClosedSymbol) -> Option<AskedCall<'_>>
    ensures some { IfSome result (λ it.
        inner (closed_view symbol.now) ≡ Closed.call it.name.now (closeds (map closed_view it.args.now)) it.level) }
    ensures none { IfNone result ((n : Text) (given : Closeds) (level : Option ℕ) →
        inner (closed_view symbol.now) ≡ Closed.call n given level → ⊥) }
{
    match symbol.inner() {
        ClosedSymbol::Call(name, args, level) => Some(AskedCall {
            name,
            args: args.as_slice(),
            level: *level,
        }),
        _ => None,
    }
}

/// Whether it asks for a leaf of that terminal. The terminal of error recovery is no leaf's.
pub(crate) fn is_literal(symbol: &ClosedSymbol, terminal: &TerminalString) -> bool
    ensures { IsTrue result
        ↔ ((inner (closed_view symbol.now) ≡ Closed.terminal (terminal_view terminal.now)) × IsTokenTerminal (terminal_view terminal.now)) }
{
    if !is_word(terminal) {
        return false;
    }
    match symbol.inner() {
        ClosedSymbol::Terminal(other) => same_terminal(other, terminal),
        _ => false,
    }
}

fn is_word(terminal: &TerminalString) -> bool
    ensures { IsTrue result ↔ IsTokenTerminal (terminal_view terminal.now) }
{
    match terminal {
        TerminalString::Literal(_) => true,
        TerminalString::Bare(_) => true,
        TerminalString::Error => false,
    }
}

/// Whether it asks for a place.
pub(crate) fn is_look(symbol: &ClosedSymbol) -> bool
    ensures { IsTrue result
        ↔ ((inner (closed_view symbol.now) ≡ Closed.lookahead) ⊎ (inner (closed_view symbol.now) ≡ Closed.lookbehind)) }
{
    match symbol.inner() {
        ClosedSymbol::Lookahead => true,
        ClosedSymbol::Lookbehind => true,
        _ => false,
    }
}
