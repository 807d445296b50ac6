//! Edges of the graph of states.

ghost use Rattle.std.specs.Prelude.{◌≡◌, IfOk};

use lalrpop_grammar_repr::Symbol;
use std::alloc::AllocError;

/// An edge: by the symbol, from one state to another.
#[derive(Drop)]
pub(crate) struct Edge {
    /// The number of the state from which it leads.
    pub(crate) source: usize,
    /// Its symbol.
    pub(crate) symbol: Symbol,
    /// The number of the state to which it leads.
    pub(crate) target: usize,
}

impl Edge {
    /// The same edge.
    pub(crate) fn try_clone(&self) -> Result<Edge, AllocError>
        ensures { IfOk result (λ edge. edge ≡ self.now) }
    {
        Ok(Edge {
            source: self.source,
            symbol: self.symbol.try_clone()?,
            target: self.target,
        })
    }
}
