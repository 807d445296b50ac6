//! What rows of a table of actions are made of.

use lalrpop_grammar_repr::Production;

/// A part of a list: from one place up to another.
#[derive(Clone, Copy)]
pub(crate) struct PlaceRange {
    /// Its first place.
    pub(crate) first: usize,
    /// The place past its last.
    pub(crate) past: usize,
}

/// What a state does, by parts of the lists of all states.
#[derive(Clone, Copy)]
pub(crate) struct TableRow {
    /// What it does before terminals.
    pub(crate) actions: PlaceRange,
    /// By what it reduces before the end.
    pub(crate) ends: PlaceRange,
    /// Where nonterminals lead.
    pub(crate) gotos: PlaceRange,
}

/// A production with what a reduction by it asks for.
#[derive(Clone, Copy)]
pub(crate) struct NumberedProduction<'g> {
    /// The production.
    pub(crate) production: &'g Production,
    /// How many symbols it has.
    pub(crate) length: usize,
    /// The number of its nonterminal.
    pub(crate) nonterminal: usize,
}

/// What a state does before a terminal.
#[derive(Clone, Copy)]
pub(crate) enum TableAction<'g> {
    /// It shifts the terminal, and leads to the state with this number.
    Shift(usize),
    /// It reduces.
    Reduce(NumberedProduction<'g>),
}

/// What comes next, by its number.
#[derive(Clone, Copy)]
pub(crate) enum NextNumber {
    /// The terminal with this number.
    Terminal(usize),
    /// A terminal that the table doesn't know.
    Unknown,
    /// The end.
    End,
}
