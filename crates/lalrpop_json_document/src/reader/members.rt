//! The members of an object that is read: a list as long as each key is greater than the last, and a map from then on.

ghost use Rattle.std.specs.Prelude.{◌≡◌, map, IfOk};
ghost use Rattle.serde_json.specs.Data.{no_members, put};
ghost use Rattle.lalrpop_json_document.specs.DocumentViews.{members_view, view};
ghost use Rattle.lalrpop_json_document.specs.MemberOrder.{is_above_last, put_all};

use crate::{JsonValue, Members};
use std::alloc::{AllocError, Global};
use std::collections::BTreeMap;

/// Members whose keys came in any order.
pub(crate) type MemberMap<'t> = BTreeMap<&'t str, JsonValue<'t>>;

/// Whether the key is greater than the last member's.
pub(crate) fn comes_last(members: &Members<'_>, key: &str) -> bool
    ensures { result ≡ is_above_last key.now (map (λ m. m.0.now) members.now.items) }
{
    match members.last() {
        Some((last, _)) => *last < key,
        None => true,
    }
}

/// The members in a map.
fn map_of(alloc: Global, members: Members<'_>) -> Result<MemberMap<'_>, AllocError>
    ensures { IfOk result (λ found.
        members_view found.entries ≡ put_all (members_view members.entry.items) no_members) }
{
    let mut found = MemberMap::new(alloc);
    for (key, value) in members {
        drop(found.insert(key, value)?);
    }
    Ok(found)
}

/// The members in a map, and one more: where its key is among theirs, its value takes the place of the other.
pub(crate) fn map_with<'t>(
    alloc: Global,
    members: Members<'t>,
    key: &'t str,
    value: JsonValue<'t>,
) -> Result<MemberMap<'t>, AllocError>
    ensures { IfOk result (λ found. members_view found.entries
        ≡ put key.now (view value.entry) (put_all (members_view members.entry.items) no_members)) }
{
    let mut found = map_of(alloc, members)?;
    drop(found.insert(key, value)?);
    Ok(found)
}

/// The members of a map, in byte order of their keys.
pub(crate) fn list_of(alloc: Global, members: MemberMap<'_>) -> Result<Members<'_>, AllocError>
    ensures { IfOk result (λ list. list.items ≡ members.entry.entries) }
{
    members.into_iter().collect(alloc)
}
