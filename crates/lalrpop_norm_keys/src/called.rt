//! Calls of rules without levels, among closed symbols.

ghost use Rattle.std.specs.Prelude.{◌≡◌, IfNone, IfSome, None, map};
ghost use Rattle.lalrpop_grammar_symbols.specs.Symbols.{Closed, Closeds, Text};
ghost use Rattle.lalrpop_grammar_rules.specs.Views.{closed_view, closeds};

use lalrpop_grammar_rules::closed::ClosedSymbol;
use lalrpop_grammar_symbols::Atom;

/// A called rule, with arguments.
#[derive(Clone, Copy)]
pub(crate) struct Called<'c> {
    /// Its name.
    pub(crate) name: &'c Atom,
    /// The arguments.
    pub(crate) args: &'c [ClosedSymbol],
}

/// The call of a rule without levels that the symbol is.
pub(crate) fn unleveled_call(symbol: &ClosedSymbol) -> Option<Called<'_>>
    ensures some { IfSome result (λ it.
        closed_view symbol.now ≡ Closed.call it.name.now (closeds (map closed_view it.args.now)) None) }
    ensures none { IfNone result ((n : Text) (args : Closeds) → closed_view symbol.now ≡ Closed.call n args None → ⊥) }
{
    match symbol {
        ClosedSymbol::Call(name, args, level) => match level {
            None => Some(Called {
                name,
                args: args.as_slice(),
            }),
            Some(_) => None,
        },
        _ => None,
    }
}
