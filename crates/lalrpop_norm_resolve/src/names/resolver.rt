//! What stands for the names in the symbols of a rule.

ghost use Rattle.lalrpop_grammar_symbols.specs.Symbols.{Sym};
ghost use Rattle.lalrpop_grammar_symbols.specs.Views.{span_view, symbol_view};
ghost use Rattle.std.specs.Prelude.{◌≡◌, IfOk};
ghost use Rattle.lalrpop_norm_theory.specs.Resolving.{name_resolution, resolved_name};
ghost use Rattle.lalrpop_norm_resolve.specs.NameViews.{name_use_view, scope_names, scope_parameters};

use crate::names::definitions::{NameUse, Scope};
use lalrpop_grammar_symbols::{
    Atom, List, MacroSymbol, NonterminalString, Span, Symbol, SymbolKind, SymbolMap, TerminalString,
};
use std::alloc::AllocError;

/// Puts what a name stands for in the place of the name.
#[derive(Drop)]
pub(crate) struct Resolver<'r, 's, 'g> {
    /// What names stand for.
    pub(crate) scope: &'r Scope<'s, 'g>,
}

/// What is written in the place of a name that stands for this.
fn resolved_name(meaning: NameUse, span: Span, name: &Atom) -> Result<Symbol, AllocError>
    ensures { IfOk result (λ made.
        symbol_view made ≡ resolved_name (name_use_view meaning) (span_view span) name.now) }
{
    let name = name.try_clone()?;
    let kind = match meaning {
        NameUse::PlainRule => SymbolKind::Nonterminal(NonterminalString(name)),
        NameUse::Mapped => SymbolKind::Terminal(TerminalString::Bare(name)),
        NameUse::Parameter => SymbolKind::AmbiguousId(name),
        NameUse::MacroRule => SymbolKind::AmbiguousId(name),
        NameUse::Nothing => SymbolKind::AmbiguousId(name),
    };
    Ok(Symbol::new(span, kind))
}

impl SymbolMap for Resolver<'_, '_, '_> {
    type Error = AllocError;

    ghost mapping = { λ r. name_resolution (scope_names r.scope.now) (scope_parameters r.scope.now) };

    fn map_name(&mut self, span: Span, name: &Atom) -> Result<Symbol, AllocError> {
        resolved_name(self.scope.use_of(name), span, name)
    }

    fn map_nonterminal(
        &mut self,
        span: Span,
        name: &NonterminalString,
    ) -> Result<Symbol, AllocError> {
        let name = name.try_clone()?;
        Ok(Symbol::new(span, SymbolKind::Nonterminal(name)))
    }

    fn map_call(
        &mut self,
        span: Span,
        name: &NonterminalString,
        args: List<Symbol>,
    ) -> Result<Symbol, AllocError> {
        let name = name.try_clone()?;
        Ok(Symbol::new(span, SymbolKind::Macro(MacroSymbol { name, args })))
    }
}
