//! Counts of leaves and nodes by a table.

ghost use Rattle.std.specs.Prelude.{◌≡◌, ◌≤◌, Some, None, IsTrue, IsFalse, slice_index_or};
ghost use Rattle.lalrpop_lr1_least_trees.specs.Searches.{IsMetBy, IsMore, count_of, entry_count, node_count};

/// A least tree of a name: how many leaves and nodes it has, and the rule at its root.
#[derive(Clone, Copy)]
pub struct LeastTree {
    /// How many leaves and nodes it has; the greatest number where they are as many or more.
    pub count: usize,
    /// The number of the rule.
    pub rule: usize,
}

/// How many leaves and nodes the symbol's tree has by the table; none where it has no tree yet.
pub(crate) fn symbol_count(
    table: &[Option<LeastTree>],
    leaves: bool,
    symbol: usize,
) -> Option<usize>
    ensures { result ≡ count_of leaves table.now symbol }
{
    if symbol < table.len() {
        match table[symbol] {
            None => None,
            Some(tree) => Some(tree.count),
        }
    } else if leaves {
        Some(1)
    } else {
        None
    }
}

/// How many leaves and nodes a node over the symbols has by the table; none where one of them has no tree yet.
pub(crate) fn side_count(
    table: &[Option<LeastTree>],
    leaves: bool,
    symbols: &[usize],
) -> Option<usize>
    ensures { result ≡ node_count (count_of leaves table.now) symbols.now }
{
    let mut count = 1usize;
    for symbol in symbols {
        match symbol_count(table, leaves, *symbol) {
            None => return None,
            Some(more) => count = count.saturating_add(more),
        }
    }
    Some(count)
}

/// Whether the entry is none, or counts more.
pub(crate) fn is_more(entry: Option<LeastTree>, count: usize) -> bool
    ensures more { IsTrue result → IsMore entry count }
    ensures no_more { IsFalse result → IsMetBy (λ _. entry_count entry) 0 count }
{
    match entry {
        None => true,
        Some(tree) => count < tree.count,
    }
}
