//! Whether two closed symbols are the same.

ghost use Rattle.std.specs.Prelude.{◌≡◌, ◌↔◌, IsTrue, map};
ghost use Rattle.lalrpop_grammar_symbols.specs.Views.{repeat_op_view};
ghost use Rattle.lalrpop_grammar_rules.specs.Views.{closed_view, closeds};

use lalrpop_grammar_rules::closed::{ClosedSymbol, same_name, same_terminal};
use lalrpop_grammar_symbols::{Name, RepeatOp};

/// Whether the signs are equal.
fn same_op(a: RepeatOp, b: RepeatOp) -> bool
    ensures { IsTrue result ↔ (repeat_op_view a ≡ repeat_op_view b) }
{
    a == b
}

/// Whether the names for the action are equal.
fn same_label(a: &Name, b: &Name) -> bool
    ensures { IsTrue result ↔ (a.now ≡ b.now) }
{
    *a == *b
}

/// Whether the levels are equal.
fn same_level(a: Option<u32>, b: Option<u32>) -> bool
    ensures { IsTrue result ↔ (a ≡ b) }
{
    match (a, b) {
        (Some(a), Some(b)) => a == b,
        (None, None) => true,
        (Some(_), None) => false,
        (None, Some(_)) => false,
    }
}

/// Whether the closed symbols are the same, levels too.
#[cycle(same)]
pub fn same_symbol(a: &ClosedSymbol, b: &ClosedSymbol) -> bool
    ensures { IsTrue result ↔ (closed_view a.now ≡ closed_view b.now) }
{
    match (a, b) {
        (ClosedSymbol::Terminal(x), ClosedSymbol::Terminal(y)) => same_terminal(x, y),
        (ClosedSymbol::Call(x, xs, j), ClosedSymbol::Call(y, ys, k)) => {
            same_name(x, y) && same_level(*j, *k) && same_symbols(xs.as_slice(), ys.as_slice())
        }
        (ClosedSymbol::Repeat(op, x), ClosedSymbol::Repeat(other, y)) => {
            same_op(*op, *other) && same_symbol(x.get(), y.get())
        }
        (ClosedSymbol::Group(xs), ClosedSymbol::Group(ys)) => {
            same_symbols(xs.as_slice(), ys.as_slice())
        }
        (ClosedSymbol::Choose(x), ClosedSymbol::Choose(y)) => same_symbol(x.get(), y.get()),
        (ClosedSymbol::Name(name, x), ClosedSymbol::Name(other, y)) => {
            same_label(name, other) && same_symbol(x.get(), y.get())
        }
        (ClosedSymbol::Lookahead, ClosedSymbol::Lookahead) => true,
        (ClosedSymbol::Lookbehind, ClosedSymbol::Lookbehind) => true,
        (ClosedSymbol::Faulty, ClosedSymbol::Faulty) => true,
        _ => false,
    }
}

/// Whether the closed symbols are the same, one by one.
#[cycle(same)]
fn same_symbols(xs: &[ClosedSymbol], ys: &[ClosedSymbol]) -> bool
    ensures { IsTrue result ↔ (closeds (map closed_view xs.now) ≡ closeds (map closed_view ys.now)) }
{
    let mut others = ys;
    for x in xs {
        let Some((y, rest)) = others.split_first() else {
            return false;
        };
        if !same_symbol(x, y) {
            return false;
        }
        others = rest;
    }
    others.is_empty()
}
