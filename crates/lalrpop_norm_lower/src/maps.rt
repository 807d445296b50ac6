//! Entries put into a map.

ghost use Rattle.std.specs.Prelude.{◌≡◌, ◌++◌, OnOk};
ghost use Rattle.std.specs.List.Sorted.{IsStrictlySortedBy};
ghost use Rattle.std.specs.Map.{keys_of};
ghost use Rattle.lalrpop_norm_lower.specs.LoweredLists.{put_entries};

use lalrpop_grammar_repr::Map;
use std::alloc::AllocError;

/// Puts the entries into the map, one after the other. Where all their keys ascend, they stand behind those before.
pub(crate) fn put_all<K: Ord + Drop, V: Drop>(
    entries: Vec<(K, V)>,
    map: &mut Map<K, V>,
) -> Result<(), AllocError>
    ensures put { OnOk result (map.new ≡ put_entries K.cmp map.old entries.items) }
    ensures ascending { OnOk result (IsStrictlySortedBy K.cmp (keys_of (map.old ++ entries.items))
        → map.new ≡ map.old ++ entries.items) }
{
    for (key, value) in entries {
        map.insert(key, value)?;
    }
    Ok(())
}
