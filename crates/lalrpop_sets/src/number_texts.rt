//! The texts of numbers of tokens.

ghost use Rattle.std.specs.Prelude.{◌≡◌};
ghost use Rattle.std.specs.Fmt.{WritesOnOk};
ghost use Rattle.lalrpop_sets.specs.RangeWalks.{numbers_to_come};
ghost use Rattle.lalrpop_sets.specs.TokenTexts.{number_behind, number_list_text};

use crate::range_walk::RangeWalk;
use std::fmt::{self, Formatter, Write};

/// Writes a number, behind a comma where it isn't the first.
fn write_number<W: Write>(number: usize, is_first: bool, f: &mut Formatter<W>) -> fmt::Result
    ensures { WritesOnOk W.write_str_gives f.old result (number_behind is_first number) f.new }
{
    if is_first {
        write!(f, "{number}")
    } else {
        write!(f, ", {number}")
    }
}

/// Writes the numbers of a walk, between commas.
pub(crate) fn write_numbers<W: Write>(mut walk: RangeWalk<'_>, f: &mut Formatter<W>) -> fmt::Result
    ensures { WritesOnOk W.write_str_gives f.old result (number_list_text (numbers_to_come walk.entry)) f.new }
{
    let mut is_first = true;
    while let Some(number) = walk.next_number() {
        write_number(number, is_first, f)?;
        is_first = false;
    }
    Ok(())
}
