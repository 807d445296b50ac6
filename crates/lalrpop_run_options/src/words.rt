//! The reading of the words.
ghost use Rattle.std.specs.Prelude.{IfErr};
ghost use Rattle.clap.specs.Walk.{texts};
ghost use Rattle.lalrpop_run_options.specs.Answer.{FollowsRules};
ghost use Rattle.lalrpop_run_options.specs.Refusal.{IsOwnRefusal};

use crate::command::command;
use crate::found::read;
use crate::hidden::hide_values;
use crate::{Options, OptionsError};
use std::alloc::Global;

/// What `words` ask for, of which the first is the program's name, by the rules of `clap`.
///
/// The words are looked at from the left. The word behind an option `--text` or `--tree` is its
/// value, whatever it is, and is not looked at as an option: in `--text --tree -x` the text is
/// `--tree`. Behind a word `--` none is an option. A word behind any other option is looked at, and
/// `clap` says what comes of it: in `--start --text -x` it misses the value of `--start`.
///
/// # Errors
///
/// `Words` where the words are wrong or call for help, and `Memory` where memory ran out.
pub fn options(alloc: Global, words: &[&str]) -> Result<Options, OptionsError>
    // `clap` would refuse a value that begins with `-`, so it is shown an empty one there.
    ensures rules { FollowsRules (texts words.now) result }
    ensures refused { IfErr result IsOwnRefusal }
{
    let shown = hide_values(alloc, words)?;
    let command = command(alloc)?;
    let matches = command.try_get_matches_from(shown.as_slice())?;
    Ok(read(alloc, words, &matches)?)
}
