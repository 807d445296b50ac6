//! Where a state leads: by its edges, and for ASCII by a row.

ghost use Rattle.std.specs.Prelude.{◌≡◌, IfOk};
ghost use Rattle.lalrpop_lexer.specs.Explore.{edges_view};
ghost use Rattle.lalrpop_lexer.specs.Simulation.{AreApart, target_of};
ghost use Rattle.lalrpop_lexer.specs.Rows.{IsRow};

use crate::edge::DfaEdge;
use std::alloc::{AllocError, Global};

/// So many edges are looked through without a row.
const FEW: usize = 8;

/// How many characters ASCII has.
const ASCII: u32 = 128;

/// The number of the state that the edge leads to which reads the character, if there is one.
pub(crate) fn target_in(edges: &[DfaEdge], character: u32) -> Option<usize>
    requires { AreApart (edges_view edges.now) }
    ensures { result ≡ target_of (edges_view edges.now) character }
{
    let mut low = 0;
    let mut high = edges.len();
    while low < high {
        let middle = low + (high - low) / 2;
        if edges[middle].test.end() < character {
            low = middle + 1;
        } else {
            high = middle;
        }
    }
    if low < edges.len() && edges[low].test.start() <= character {
        return Some(edges[low].to.0);
    }
    None
}

/// For each ASCII character the number of the state that it leads to, if there is one; nothing where the edges are few.
pub(crate) fn row_of(alloc: Global, edges: &[DfaEdge]) -> Result<Vec<Option<usize>>, AllocError>
    requires { AreApart (edges_view edges.now) }
    ensures { IfOk result (λ row. IsRow (edges_view edges.now) row.items) }
{
    let mut row = Vec::new(alloc);
    if edges.len() <= FEW {
        return Ok(row);
    }
    for character in 0..ASCII {
        row.push(target_in(edges, character))?;
    }
    Ok(row)
}
