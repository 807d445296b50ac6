//! The transitions of an automaton's states.

ghost use Rattle.std.specs.Prelude.{◌↔◌, IsTrue, OnOk};
ghost use Rattle.lalrpop_lexer.specs.Explore.{edge_view, edges_view};
ghost use Rattle.lalrpop_lexer.specs.Joined.{Continues, AddsDfaEdge};

use crate::kind::DfaStateIndex;
use lalrpop_lexer_nfa::Test;
use std::alloc::AllocError;

/// An edge of a state: the characters that it reads, and the state that it leads to.
#[derive(Clone, Copy)]
pub struct DfaEdge {
    /// The characters that it reads.
    pub test: Test,
    /// The state that it leads to.
    pub to: DfaStateIndex,
}

impl DfaEdge {
    /// Whether the edge reads what comes right behind another one, and leads to the same state.
    fn continues(&self, last: &DfaEdge) -> bool
        ensures { IsTrue result ↔ Continues (edge_view last.now) (edge_view self.now) }
    {
        last.to.0 == self.to.0
            && last.test.end() < self.test.start()
            && self.test.start() - last.test.end() == 1
    }
}

/// Adds an edge behind the others, joined to the last of them where it continues that.
pub(crate) fn push_edge(edges: &mut Vec<DfaEdge>, edge: DfaEdge) -> Result<(), AllocError>
    ensures { OnOk result (AddsDfaEdge (edge_view edge) (edges_view edges.old.items) (edges_view edges.new.items)) }
{
    let count = edges.len();
    if count > 0 && edge.continues(&edges[count - 1]) {
        edges[count - 1] = DfaEdge {
            test: Test::new(edges[count - 1].test.start()..=edge.test.end()),
            to: edge.to,
        };
        return Ok(());
    }
    edges.push(edge)?;
    Ok(())
}
