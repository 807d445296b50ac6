//! Which production is tried first for a part of a written tree.
//!
//! It is found by the choices that the part looks like, without a promise: all others are tried where it doesn't fit.

use crate::folding::folder::Folder;
use lalrpop_grammar_repr::{Grammar, Production, Symbol};
use lalrpop_grammar_rules::INLINE;
use lalrpop_grammar_symbols::NonterminalString;
use lalrpop_run_trees::flat_labels::LabelMark;
use lalrpop_run_trees::tree_parts::{TreePart, parts_by_action};
use std::alloc::AllocError;

/// Whether the grammar has a nonterminal of this name that is marked `inline`.
fn is_inlined(grammar: &Grammar, name: &NonterminalString) -> bool {
    match grammar.nonterminals.get(name) {
        None => false,
        Some(rule) => rule
            .attributes
            .as_slice()
            .iter()
            .any(|attribute| attribute.id.as_str() == INLINE),
    }
}

impl Folder<'_, '_> {
    /// The place, among those of the nonterminal, of the production that stands for the choices which the part looks like; 0 where there is
    /// none.
    pub(crate) fn likely_place(
        self,
        name: &NonterminalString,
        part: TreePart<'_>,
    ) -> Result<usize, AllocError> {
        let mut label = Vec::new(self.alloc);
        self.push_label(name, part, self.lowered.nonterminals.len(), &mut label)?;
        match self.labels.place(&label) {
            Some(place) => Ok(place),
            None => Ok(0),
        }
    }

    /// The parts of the part by the production before inlining, one for each symbol, where it is a tree by that.
    fn parts_of<'t>(
        self,
        production: &Production,
        part: TreePart<'t>,
    ) -> Result<Option<Vec<TreePart<'t>>>, AllocError> {
        parts_by_action(
            self.alloc,
            self.lowered.action_fn_defns.as_slice(),
            self.origins,
            production.action,
            production.symbols.len(),
            part,
        )
    }

    /// Adds the choices that the part looks like as a tree of the nonterminal, and of those inlined below it, so many deep.
    #[cycle(likely)]
    fn push_label(
        self,
        name: &NonterminalString,
        part: TreePart<'_>,
        depth: usize,
        label: &mut Vec<LabelMark>,
    ) -> Result<(), AllocError> {
        for production in self.lowered.productions_for(name) {
            if let Some(parts) = self.parts_of(production, part)? {
                label.push(LabelMark::Given(production.action.index()))?;
                return self.push_symbols(
                    production.symbols.as_slice(),
                    parts.as_slice(),
                    depth,
                    label,
                );
            }
        }
        Ok(())
    }

    /// The same of the production's symbols, one for each part.
    #[cycle(likely)]
    fn push_symbols(
        self,
        symbols: &[Symbol],
        parts: &[TreePart<'_>],
        depth: usize,
        label: &mut Vec<LabelMark>,
    ) -> Result<(), AllocError> {
        for (place, symbol) in symbols.iter().enumerate() {
            let Some(part) = parts.get(place) else {
                return Ok(());
            };
            self.push_symbol(symbol, *part, depth, label)?;
        }
        Ok(())
    }

    /// The same of one symbol.
    #[cycle(likely)]
    fn push_symbol(
        self,
        symbol: &Symbol,
        part: TreePart<'_>,
        depth: usize,
        label: &mut Vec<LabelMark>,
    ) -> Result<(), AllocError> {
        match symbol {
            Symbol::Nonterminal(name) if depth > 0 && is_inlined(self.lowered, name) => {
                self.push_label(name, part, depth - 1, label)
            }
            _ => {
                label.push(LabelMark::Kept)?;
                Ok(())
            }
        }
    }
}
