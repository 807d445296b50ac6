//! Closed symbols: symbols without macro parameters and spans.

ghost use Rattle.std.specs.Prelude.{◌≡◌, IfOk, map};
ghost use Rattle.lalrpop_grammar_language.specs.Closing.{inner, is_sound, are_sound};
ghost use Rattle.lalrpop_grammar_rules.specs.Views.{closed_view, closeds, is_faulty};

use crate::closed::shared::Shared;
use lalrpop_grammar_symbols::{Atom, List, Name, RepeatOp, TerminalString};
use std::alloc::AllocError;

/// A symbol without macro parameters and spans. A copy of it shares the parts.
#[cycle(closed)]
#[derive(PartialEq, Eq, Drop)]
pub enum ClosedSymbol {
    /// A terminal.
    Terminal(TerminalString),
    /// A call of the rule with these arguments, of at most that level where the rule has levels.
    Call(Atom, Shared<List<ClosedSymbol>>, Option<u32>),
    /// A repeated symbol.
    Repeat(RepeatOp, Shared<ClosedSymbol>),
    /// A group.
    Group(Shared<List<ClosedSymbol>>),
    /// A symbol chosen for the action.
    Choose(Shared<ClosedSymbol>),
    /// A symbol with a name for the action.
    Name(Name, Shared<ClosedSymbol>),
    /// The place where the next token begins.
    Lookahead,
    /// The place where the last token ended.
    Lookbehind,
    /// What names nothing, or names it in a shape that it hasn't.
    Faulty,
}

impl ClosedSymbol {
    /// The symbol under names and choices.
    pub fn inner(&self) -> &ClosedSymbol
        ensures { closed_view result.now ≡ inner (closed_view self.now) }
    {
        match self {
            ClosedSymbol::Choose(symbol) => symbol.get().inner(),
            ClosedSymbol::Name(_, symbol) => symbol.get().inner(),
            _ => self,
        }
    }

    /// Whether it is faulty itself.
    pub(crate) fn is_faulty(&self) -> bool
        ensures { result ≡ is_faulty (closed_view self.now) }
    {
        match self {
            ClosedSymbol::Terminal(_)
            | ClosedSymbol::Call(_, _, _)
            | ClosedSymbol::Repeat(_, _)
            | ClosedSymbol::Group(_)
            | ClosedSymbol::Choose(_)
            | ClosedSymbol::Name(_, _)
            | ClosedSymbol::Lookahead
            | ClosedSymbol::Lookbehind => false,
            ClosedSymbol::Faulty => true,
        }
    }

    /// Whether no part of it is faulty.
    #[cycle(sound)]
    pub fn is_sound(&self) -> bool
        ensures { result ≡ is_sound (closed_view self.now) }
    {
        match self {
            ClosedSymbol::Terminal(_) => true,
            ClosedSymbol::Call(_, args, _) => sound_symbols(args.as_slice()),
            ClosedSymbol::Repeat(_, symbol) => symbol.get().is_sound(),
            ClosedSymbol::Group(symbols) => sound_symbols(symbols.as_slice()),
            ClosedSymbol::Choose(symbol) => symbol.get().is_sound(),
            ClosedSymbol::Name(_, symbol) => symbol.get().is_sound(),
            ClosedSymbol::Lookahead => true,
            ClosedSymbol::Lookbehind => true,
            ClosedSymbol::Faulty => false,
        }
    }

    /// A copy that equals it, at once however large it is: the parts are shared.
    pub fn try_clone(&self) -> Result<ClosedSymbol, AllocError>
        ensures { IfOk result (λ copy. copy ≡ self.now) }
    {
        match self {
            ClosedSymbol::Terminal(terminal) => Ok(ClosedSymbol::Terminal(terminal.try_clone()?)),
            ClosedSymbol::Call(name, args, level) => {
                let name = name.try_clone()?;
                let args = args.try_clone()?;
                Ok(ClosedSymbol::Call(name, args, *level))
            }
            ClosedSymbol::Repeat(op, symbol) => Ok(ClosedSymbol::Repeat(*op, symbol.try_clone()?)),
            ClosedSymbol::Group(symbols) => Ok(ClosedSymbol::Group(symbols.try_clone()?)),
            ClosedSymbol::Choose(symbol) => Ok(ClosedSymbol::Choose(symbol.try_clone()?)),
            ClosedSymbol::Name(name, symbol) => {
                let name = name.try_clone()?;
                let symbol = symbol.try_clone()?;
                Ok(ClosedSymbol::Name(name, symbol))
            }
            ClosedSymbol::Lookahead => Ok(ClosedSymbol::Lookahead),
            ClosedSymbol::Lookbehind => Ok(ClosedSymbol::Lookbehind),
            ClosedSymbol::Faulty => Ok(ClosedSymbol::Faulty),
        }
    }
}

/// Whether no part of the symbols is faulty.
#[cycle(sound)]
pub(crate) fn sound_symbols(symbols: &[ClosedSymbol]) -> bool
    ensures { result ≡ are_sound (closeds (map closed_view symbols.now)) }
{
    for symbol in symbols {
        if !symbol.is_sound() {
            return false;
        }
    }
    true
}
