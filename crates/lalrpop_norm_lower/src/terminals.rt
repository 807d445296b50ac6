//! The set of terminals.

ghost use Rattle.std.specs.Prelude.{◌≡◌, IfOk};
ghost use Rattle.std.specs.Map.{keys_of};
ghost use Rattle.lalrpop_norm_lower.specs.LoweredLists.{with_places};
ghost use Rattle.lalrpop_norm_lower.specs.MadeLists.{AreAscendingTerminals, IsMadeTerminalSet};

use crate::maps::put_all;
use lalrpop_grammar_repr::{Map, TerminalSet, TypeRepr};
use lalrpop_grammar_symbols::{List, TerminalString};
use std::alloc::{AllocError, Global};

/// The terminals that the table has types for, ascending.
fn all_terminals(
    alloc: Global,
    types: &Map<TerminalString, TypeRepr>,
) -> Result<List<TerminalString>, AllocError>
    ensures keys { IfOk result (λ all. all ≡ keys_of types.now) }
    ensures ascending { IfOk result AreAscendingTerminals }
{
    let mut all = List::new(alloc);
    for (terminal, _) in types.iter() {
        all.push(terminal.try_clone()?)?;
    }
    Ok(all)
}

/// The terminals, each with its place.
fn places_of(
    alloc: Global,
    terminals: &[TerminalString],
) -> Result<Vec<(TerminalString, usize)>, AllocError>
    ensures { IfOk result (λ places. places.items ≡ with_places 0 terminals.now) }
{
    let mut places = Vec::new(alloc);
    let mut place: usize = 0;
    for terminal in terminals {
        places.push((terminal.try_clone()?, place))?;
        place += 1;
    }
    Ok(places)
}

/// The set of the terminals that the table has types for.
pub(crate) fn terminal_set(
    alloc: Global,
    types: &Map<TerminalString, TypeRepr>,
) -> Result<TerminalSet, AllocError>
    ensures { IfOk result (λ set. IsMadeTerminalSet types.now set) }
{
    let all = all_terminals(alloc, types)?;
    let mut bits = Map::new(alloc);
    put_all(places_of(alloc, all.as_slice())?, &mut bits)?;
    Ok(TerminalSet { all, bits })
}
