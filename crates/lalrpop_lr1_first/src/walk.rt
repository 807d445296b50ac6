//! Walks over places, from the first on or from the last.

ghost use Rattle.std.specs.Prelude.{◌≡◌, ◌<◌};
ghost use Rattle.lalrpop_lr1_first.specs.Walks.{place_in_walk};

/// The place at a step of a walk over so many places: from the first on, or from the last.
pub(crate) fn place_at(count: usize, step: usize, forward: bool) -> usize
    requires { step < count }
    ensures at { result ≡ place_in_walk forward count step }
    ensures within { result < count }
{
    if forward { step } else { count - 1 - step }
}
