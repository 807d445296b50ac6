//! The shorter and the longer of two lists of symbols.

ghost use Rattle.std.specs.Prelude.{◌≡◌, [], Some, if◌then◌else◌, nat_lt, unwrap_or};
ghost use Rattle.std.specs.Option.{option_copied};
ghost use Rattle.lalrpop_lr1_core.specs.Dots.{either_by, longer_of, shorter_of};

use lalrpop_grammar_repr::Symbol;

/// The list, or the known one, where that is no longer.
fn shorter<'g>(known: Option<&'g [Symbol]>, next: &'g [Symbol]) -> Option<&'g [Symbol]>
    ensures { option_copied result ≡ either_by shorter_of (option_copied known.entry) (Some next.now) }
{
    match known {
        Some(list) if list.len() <= next.len() => Some(list),
        _ => Some(next),
    }
}

/// The list, or the known one, where that is longer.
pub(crate) fn longer<'g>(known: Option<&'g [Symbol]>, next: &'g [Symbol]) -> Option<&'g [Symbol]>
    ensures { option_copied result ≡ either_by longer_of (option_copied known.entry) (Some next.now) }
{
    match known {
        Some(list) if list.len() > next.len() => Some(list),
        _ => Some(next),
    }
}

/// The list or the known one, as `shorter`, where the dot isn't in front; the known one else.
pub(crate) fn shorter_if_moved<'g>(
    known: Option<&'g [Symbol]>,
    dot: usize,
    next: &'g [Symbol],
) -> Option<&'g [Symbol]>
    ensures { option_copied result ≡ (if nat_lt 0 dot
        then either_by shorter_of (option_copied known.entry) (Some next.now) else option_copied known.entry) }
{
    if dot > 0 { shorter(known, next) } else { known }
}

/// The list, or nothing where there is none.
pub(crate) fn list_or_nothing(list: Option<&[Symbol]>) -> &[Symbol]
    ensures { result.now ≡ unwrap_or (option_copied list.entry) [] }
{
    match list {
        Some(list) => list,
        None => &[],
    }
}
