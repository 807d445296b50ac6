//! Levels of alternatives, of which a smaller one binds tighter, and the sides to which they associate.

ghost use Rattle.std.specs.Prelude.{◌≡◌, ◌<◌, ◌^◌, IfSome, map, option_map};
ghost use Rattle.std.specs.Option.{option_copied};
ghost use Rattle.lalrpop_grammar.specs.Views.{attribute_view, attrs};
ghost use Rattle.lalrpop_grammar_language.specs.Levels as pure;
ghost use Rattle.lalrpop_grammar_rules.specs.Ranks.{IsSide, next_level, assoc_view, rank_view, said_level, said_assoc, side_in as side_in_attribute, side_named, text_in, only_text};

use crate::enabling::is_named;
use lalrpop_grammar::{Attribute, AttributeArg};
use lalrpop_grammar_symbols::Atom;
use std::str::FromStr;

/// The attribute that says an alternative's level: `precedence(level = "1")`.
pub const PREC_ATTR: &str = "precedence";

/// The key of the level in it.
pub const LVL_ARG: &str = "level";

/// The attribute that says an alternative's side: `assoc(side = "left")`.
pub const ASSOC_ATTR: &str = "assoc";

/// The key of the side in it.
pub const SIDE_ARG: &str = "side";

/// The attribute of a rule whose productions are put in where it is named.
pub const INLINE: &str = "inline";

/// Which occurrences of a rule in one of its alternatives may have the alternative's own level. It is read from `left`,
/// `right`, `none` or `all`.
#[derive(Clone, Copy, PartialEq, Eq)]
pub enum Assoc {
    /// The first.
    Left,
    /// The last.
    Right,
    /// None of them.
    NonAssoc,
    /// Each.
    FullyAssoc,
}

/// The level of an alternative, and its side.
#[derive(Clone, Copy, PartialEq, Eq)]
pub struct Rank {
    /// The level.
    pub level: u32,
    /// The side.
    pub side: Assoc,
}

/// A text that names no side.
#[derive(Clone, Copy, Debug, PartialEq, Eq)]
pub struct ParseAssocError;

impl FromStr for Assoc {
    type Err = ParseAssocError;

    ghost from_str_gives = { IsSide };

    fn from_str(text: &str) -> Result<Assoc, ParseAssocError> {
        if text == "left" {
            Ok(Assoc::Left)
        } else if text == "right" {
            Ok(Assoc::Right)
        } else if text == "none" {
            Ok(Assoc::NonAssoc)
        } else if text == "all" {
            Ok(Assoc::FullyAssoc)
        } else {
            Err(ParseAssocError)
        }
    }
}

/// The rank of an alternative with these attributes, after that of the enabled one before it in its rule.
pub fn rank_after(last: Option<Rank>, attributes: &[Attribute]) -> Option<Rank>
    ensures { option_map rank_view result ≡ pure.rank_after (option_map rank_view last)
        (said_level (map attribute_view attributes.now)) (said_assoc (map attribute_view attributes.now)) }
{
    let said = assoc_said(attributes);
    match (level_said(attributes), last) {
        (Some(Some(level)), _) => Some(Rank {
            level,
            side: assoc_or(said, Assoc::FullyAssoc),
        }),
        (Some(None), _) => None,
        (None, Some(before)) => Some(Rank {
            level: before.level,
            side: assoc_or(said, before.side),
        }),
        (None, None) => None,
    }
}

fn assoc_or(said: Option<Assoc>, other: Assoc) -> Assoc
    ensures { assoc_view result ≡ pure.or_assoc (option_map assoc_view said) (assoc_view other) }
{
    match said {
        Some(said) => said,
        None => other,
    }
}

/// The level that the attributes say: none where they say nothing, no number where it can't be read.
fn level_said(attributes: &[Attribute]) -> Option<Option<u32>>
    ensures { result ≡ said_level (map attribute_view attributes.now) }
{
    match first_named(PREC_ATTR, attributes) {
        Some(attribute) => Some(level_in(attribute)),
        None => None,
    }
}

/// The side that the attributes say.
fn assoc_said(attributes: &[Attribute]) -> Option<Assoc>
    ensures { option_map assoc_view result ≡ said_assoc (map attribute_view attributes.now) }
{
    match first_named(ASSOC_ATTR, attributes) {
        Some(attribute) => Some(assoc_in(attribute)),
        None => None,
    }
}

/// The level that the attribute says, if it says one that can be read.
pub fn level_in(attribute: &Attribute) -> Option<u32>
    ensures { result ≡ pure.level_in (attribute_view attribute.now) }
{
    match value_of(LVL_ARG, attribute) {
        Some(text) => level_of(text.as_str()),
        None => None,
    }
}

/// The side that the attribute says, if it says one of the four.
pub fn side_in(attribute: &Attribute) -> Option<Assoc>
    ensures { option_map assoc_view result ≡ side_in_attribute (attribute_view attribute.now) }
{
    match value_of(SIDE_ARG, attribute) {
        Some(text) => side_of(text.as_str()),
        None => None,
    }
}

/// The side that counts for the attribute. An unknown one gives the level to no one.
#[tactic(auto, using(crate::proofs::SideLemmas::side_counts))]
fn assoc_in(attribute: &Attribute) -> Assoc
    ensures { assoc_view result ≡ pure.assoc_in (attribute_view attribute.now) }
{
    assoc_or(side_in(attribute), Assoc::NonAssoc)
}

/// The first attribute of that name.
pub fn first_named<'a>(id: &str, attributes: &'a [Attribute]) -> Option<&'a Attribute>
    ensures { option_map (λ a. attribute_view a.now) result ≡ pure.first_attr id.now (map attribute_view attributes.now) }
{
    for attribute in attributes {
        if is_named(attribute, id) {
            return Some(attribute);
        }
    }
    None
}

/// The text in an attribute of the form `id(key = "text")`.
fn value_of<'a>(key: &str, attribute: &'a Attribute) -> Option<&'a Atom>
    ensures { option_copied result ≡ pure.value_of key.now (attribute_view attribute.now) }
{
    match &attribute.arg {
        AttributeArg::Paren(parts) => value_of_only(key, parts.as_slice()),
        AttributeArg::Empty => None,
        AttributeArg::Equal(_) => None,
    }
}

fn value_of_only<'a>(key: &str, parts: &'a [Attribute]) -> Option<&'a Atom>
    ensures { option_copied result ≡ only_text key.now (attrs (map attribute_view parts.now)) }
{
    match parts {
        [] => None,
        [only] => text_of(key, only),
        [_, _, ..] => None,
    }
}

/// The text in an attribute of the form `key = "text"`.
fn text_of<'a>(key: &str, attribute: &'a Attribute) -> Option<&'a Atom>
    ensures { option_copied result ≡ text_in key.now (attribute_view attribute.now) }
{
    match &attribute.arg {
        AttributeArg::Equal(text) => {
            if key == attribute.id.as_str() {
                Some(text)
            } else {
                None
            }
        }
        AttributeArg::Empty => None,
        AttributeArg::Paren(_) => None,
    }
}

/// The side that a text names.
fn side_of(text: &str) -> Option<Assoc>
    ensures { option_map assoc_view result ≡ side_named text.now }
{
    Assoc::from_str(text).ok()
}

/// The level that a text says: a number below 2^32, in decimal digits.
fn level_of(text: &str) -> Option<u32>
    ensures { result ≡ pure.level_of text.now }
{
    if text.is_empty() {
        return None;
    }
    let bytes = text.as_bytes();
    let mut number = 0;
    for byte in bytes {
        let Some(next) = with_digit(number, *byte) else {
            return None;
        };
        number = next;
    }
    Some(number)
}

/// The number with one decimal digit more, where it stays below 2^32.
#[tactic(auto, using(crate::proofs::DigitLemmas::next_small, crate::proofs::DigitLemmas::next_large, crate::proofs::DigitLemmas::next_below, crate::proofs::DigitLemmas::next_above))]
fn with_digit(number: u32, byte: u8) -> Option<u32>
    ensures value { result ≡ next_level number byte }
    ensures fits { IfSome result (λ n. n < 2 ^ 32) }
{
    if byte < 48 {
        return None;
    }
    if 57 < byte {
        return None;
    }
    let next = number as u64 * 10 + (byte - 48) as u64;
    if next < 4_294_967_296 {
        Some(next as u32)
    } else {
        None
    }
}
