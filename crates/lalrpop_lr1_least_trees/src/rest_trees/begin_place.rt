//! Places at which trees begin with a terminal.

ghost use Rattle.std.specs.Prelude.{◌≡◌};
ghost use Rattle.lalrpop_lr1_least_trees.specs.BeginPlaces.{
  IsEitherPlace,
  counts_beside as counts_of,
  place_behind as behind_at,
  place_here as here_at,
};

/// A place at which trees begin, with how many leaves and nodes they have.
#[derive(Clone, Copy)]
pub(crate) struct BeginPlace {
    /// The place.
    pub(crate) place: usize,
    /// The count.
    pub(crate) count: usize,
}

/// What trees beside each other count, where both are there.
pub(crate) fn counts_beside(one: Option<usize>, other: Option<usize>) -> Option<usize>
    ensures { result ≡ counts_of one other }
{
    match one {
        None => None,
        Some(count) => match other {
            None => None,
            Some(more) => Some(count.saturating_add(more)),
        },
    }
}

/// The place, where trees with so many leaves and nodes begin at it.
fn place_here(place: usize, count: Option<usize>) -> Option<BeginPlace>
    ensures { result ≡ here_at place count }
{
    match count {
        None => None,
        Some(count) => Some(BeginPlace { place, count }),
    }
}

/// The place behind trees with so many nodes and no leaves.
fn place_behind(empty: Option<usize>, later: Option<BeginPlace>) -> Option<BeginPlace>
    ensures { result ≡ behind_at empty later }
{
    match empty {
        None => None,
        Some(nodes) => match later {
            None => None,
            Some(found) => Some(BeginPlace {
                place: found.place,
                count: nodes.saturating_add(found.count),
            }),
        },
    }
}

/// The place with the lesser count; the first where they are equal.
fn lighter_place(one: Option<BeginPlace>, other: Option<BeginPlace>) -> Option<BeginPlace>
    ensures { IsEitherPlace one other result }
{
    match one {
        None => other,
        Some(first) => match other {
            None => one,
            Some(second) => {
                if second.count < first.count {
                    other
                } else {
                    one
                }
            }
        },
    }
}

/// The lighter place of those at a symbol and behind it: `here` is what trees that begin at it count, `empty` what its trees without
/// leaves do, and `later` the place behind it.
pub(crate) fn place_before(
    place: usize,
    here: Option<usize>,
    empty: Option<usize>,
    later: Option<BeginPlace>,
) -> Option<BeginPlace>
    ensures { IsEitherPlace (here_at place here) (behind_at empty later) result }
{
    lighter_place(place_here(place, here), place_behind(empty, later))
}
