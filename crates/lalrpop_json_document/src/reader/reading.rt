//! A document from a text, in one pass over its tokens.

ghost use Rattle.std.specs.Prelude.{◌≡◌, ◌<◌, length, option_map, Some, None, Err, IfOk, OnOk};
ghost use Rattle.serde_json.specs.Read.{read};
ghost use Rattle.lalrpop_json_document.specs.DocumentViews.{items_view, members_view, view};
ghost use Rattle.lalrpop_json_document.specs.TokenData.{items_data, members_behind, members_data, value_data};
ghost use Rattle.lalrpop_json_document.specs.declared.reader.reading.Stop.TheVariants.{NotJson};

use crate::reader::members::{MemberMap, comes_last, list_of, map_with};
use crate::reader::number::number_of;
use crate::{JsonValue, Members};
use json::{Invalid, Reader, Scratch, Token};
use std::alloc::{AllocError, AllocFailed, Global};

/// How deep lists and objects nest at most.
const DEEPEST: usize = 127;

/// Why reading stops before its end.
#[derive(Drop)]
enum Stop {
    /// The text is no JSON.
    NotJson,
    /// Memory ran out.
    Memory,
}

impl From<AllocError> for Stop {
    ghost use Rattle.lalrpop_json_document.specs.declared.reader.reading.Stop.TheVariants.{Memory};

    ghost from_gives = { λ _ stop. stop ≡ Memory };

    fn from(_: AllocError) -> Stop {
        Stop::Memory
    }
}

impl<T: Drop> From<AllocFailed<T>> for Stop {
    ghost use Rattle.lalrpop_json_document.specs.declared.reader.reading.Stop.TheVariants.{Memory};

    ghost from_gives = { λ _ stop. stop ≡ Memory };

    fn from(_: AllocFailed<T>) -> Stop {
        Stop::Memory
    }
}

impl From<Invalid> for Stop {
    ghost from_gives = { λ _ stop. stop ≡ NotJson };

    fn from(_: Invalid) -> Stop {
        Stop::NotJson
    }
}

/// The value that the text spells, where it is JSON; an error only for want of memory.
///
/// Lists and objects nest at most 127 deep, a number fits 64 bits or is a finite float, and of doubled keys the last counts.
/// Keys and strings with escapes are lent by `scratch`, and all others by the text.
pub fn read_document<'t>(
    alloc: Global,
    text: &'t str,
    scratch: &'t mut Scratch,
) -> Result<Option<JsonValue<'t>>, AllocError>
    ensures { IfOk result (λ found. option_map view found ≡ read text.now) }
{
    let mut reader = Reader::new(text, scratch)?;
    match read_value(alloc, &mut reader, DEEPEST) {
        Ok(value) => if reader.next().is_none() {
            Ok(Some(value))
        } else {
            Ok(None)
        },
        Err(Stop::NotJson) => Ok(None),
        Err(Stop::Memory) => Err(AllocError),
    }
}

/// The value that comes next, with lists and objects nested no deeper than `depth`.
#[cycle(read_value)]
fn read_value<'t>(
    alloc: Global,
    reader: &mut Reader<'t>,
    depth: usize,
) -> Result<JsonValue<'t>, Stop>
    ensures read { IfOk result (λ v. value_data depth reader.old ≡ Some (view v, reader.new)) }
    ensures refused { result ≡ Err NotJson → value_data depth reader.old ≡ None }
    ensures shorter { OnOk result (length reader.new < length reader.old) }
{
    let Some(token) = reader.next() else {
        return Err(Stop::NotJson);
    };
    match token {
        Token::Null => Ok(JsonValue::Null),
        Token::Bool(flag) => Ok(JsonValue::Bool(flag)),
        Token::String(text) => Ok(JsonValue::String(text)),
        Token::Number(text) => match number_of(text) {
            Some(number) => Ok(JsonValue::Number(number)),
            None => Err(Stop::NotJson),
        },
        Token::BeginArray => {
            if depth == 0 {
                return Err(Stop::NotJson);
            }
            Ok(JsonValue::Array(read_items(alloc, reader, depth - 1)?))
        }
        Token::BeginObject => {
            if depth == 0 {
                return Err(Stop::NotJson);
            }
            Ok(JsonValue::Object(read_members(alloc, reader, depth - 1)?))
        }
        Token::EndArray | Token::EndObject | Token::Key(_) | Token::Bad => Err(Stop::NotJson),
    }
}

/// The values of a list up to its end, each nested no deeper than `depth`.
#[cycle(read_value)]
fn read_items<'t>(
    alloc: Global,
    reader: &mut Reader<'t>,
    depth: usize,
) -> Result<Vec<JsonValue<'t>>, Stop>
    ensures read { IfOk result
        (λ v. items_data depth reader.old ≡ Some (items_view v.items, reader.new)) }
    ensures refused { result ≡ Err NotJson → items_data depth reader.old ≡ None }
    ensures shorter { OnOk result (length reader.new < length reader.old) }
{
    // Room for two at first: nearly all lists of a grammar are spans.
    let mut found = Vec::with_capacity(alloc, 2)?;
    'items: while !reader.take_end_array() {
        let item = read_value(alloc, reader, depth)?;
        found.push(item)?;
    }
    Ok(found)
}

/// The members of an object up to its end, each value nested no deeper than `depth`.
#[cycle(read_value)]
fn read_members<'t>(
    alloc: Global,
    reader: &mut Reader<'t>,
    depth: usize,
) -> Result<Members<'t>, Stop>
    ensures read { IfOk result
        (λ m. members_data depth reader.old ≡ Some (members_view m.items, reader.new)) }
    ensures refused { result ≡ Err NotJson → members_data depth reader.old ≡ None }
    ensures shorter { OnOk result (length reader.new < length reader.old) }
{
    // Room for three at first: nearly all objects of a grammar have three members.
    let mut found = Members::with_capacity(alloc, 3)?;
    'members: while let Some(key) = reader.next_key()? {
        let member = read_value(alloc, reader, depth)?;
        if !comes_last(&found, key) {
            // From here on keys may come in any order and twice: of a doubled key the last value stays.
            let unordered = map_with(alloc, found, key, member)?;
            return read_unordered_members(alloc, reader, depth, unordered);
        }
        found.push((key, member))?;
    }
    Ok(found)
}

/// The members of an object up to its end, put among those of `before`: a map, so that no order of keys costs more than
/// sorting them.
#[cycle(read_value)]
fn read_unordered_members<'t>(
    alloc: Global,
    reader: &mut Reader<'t>,
    depth: usize,
    before: MemberMap<'t>,
) -> Result<Members<'t>, Stop>
    ensures read { IfOk result (λ m. members_behind depth (members_view before.entry.entries) reader.old
        ≡ Some (members_view m.items, reader.new)) }
    ensures refused { result ≡ Err NotJson
        → members_behind depth (members_view before.entry.entries) reader.old ≡ None }
    ensures shorter { OnOk result (length reader.new < length reader.old) }
{
    let mut found = before;
    'members: while let Some(key) = reader.next_key()? {
        let member = read_value(alloc, reader, depth)?;
        drop(found.insert(key, member)?);
    }
    Ok(list_of(alloc, found)?)
}
