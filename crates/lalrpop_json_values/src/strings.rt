//! The longest run of underscores in the strings of a JSON value.

ghost use Rattle.std.specs.Prelude.{◌≡◌};
ghost use Rattle.lalrpop_json_document.specs.DocumentViews.{view, items_view, members_view};
ghost use Rattle.lalrpop_json_values.specs.Prefix.{longest_of};
ghost use Rattle.lalrpop_json_values.specs.Strings.{strings, items_strings, members_strings};

use crate::prefix::{larger, longest_run};
use lalrpop_json_document::{JsonValue, Members};

/// How long the longest run of underscores in the value's strings is. Keys don't count.
#[cycle(strings)]
#[tactic(auto, using(crate::proofs::StringRunLemmas::string_runs))]
pub fn longest_in(value: &JsonValue<'_>) -> usize
    ensures { result ≡ longest_of (strings (view value.now)) }
{
    if let Some(text) = value.as_str() {
        return longest_run(text);
    }
    if let Some(items) = value.as_array() {
        return longest_in_items(items.as_slice());
    }
    match value.as_object() {
        Some(members) => longest_in_members(members),
        None => 0,
    }
}

#[cycle(strings)]
#[tactic(auto, using(crate::proofs::StringRunLemmas::string_runs))]
fn longest_in_items(items: &[JsonValue<'_>]) -> usize
    ensures { result ≡ longest_of (items_strings (items_view items.now)) }
{
    let mut longest = 0;
    for item in items {
        longest = larger(longest_in(item), longest);
    }
    longest
}

#[cycle(strings)]
#[tactic(auto, using(crate::proofs::StringRunLemmas::string_runs))]
fn longest_in_members(members: &Members<'_>) -> usize
    ensures { result ≡ longest_of (members_strings (members_view members.now.items)) }
{
    let mut longest = 0;
    for (_, member) in members {
        longest = larger(longest_in(member), longest);
    }
    longest
}
