//! The line that `clap` is shown. `clap` looks at a word that begins with `-` as an option, so
//! such a word is hidden where it is a value.
ghost use Rattle.std.specs.Prelude.{◌≡◌, IfOk, option_map};
ghost use Rattle.clap.specs.Walk.{texts};
ghost use Rattle.lalrpop_run_options.specs.Hidden.{begins_with_dash, hide_values, hidden_value, takes_dashes};
ghost use Rattle.lalrpop_run_options.specs.Place.{is_value_of, place_after, shown_at};

use std::alloc::{AllocError, Global};

/// As what a word of a line is looked at.
#[derive(Clone, Copy)]
enum Place<'a> {
    /// As the program's name.
    Name,
    /// As an option, or as a word by itself.
    Any,
    /// As the value of this option.
    Value(&'a str),
    /// As a word by itself, since it is behind `--`.
    Tail,
}

impl<'a> Place<'a> {
    /// The place behind `word`, which is at this one.
    fn after(self, word: &'a str) -> Place<'a>
        ensures { result ≡ place_after self.entry word.entry }
    {
        match self {
            Place::Any if word == "--" => Place::Tail,
            Place::Any if takes_dashes(word) => Place::Value(word),
            Place::Tail => Place::Tail,
            _ => Place::Any,
        }
    }

    /// Whether a word at this place is the value of `option`.
    fn is_value_of(self, option: &str) -> bool
        ensures { result ≡ is_value_of self.entry option.now }
    {
        match self {
            Place::Value(name) => name == option,
            _ => false,
        }
    }

    /// `word`, which is at this place, as `clap` is shown it.
    fn show_word(self, word: &'a str) -> &'a str
        ensures { result.now ≡ shown_at self.entry word.entry.now }
    {
        match self {
            Place::Value(_) if begins_with_dash(word) => "",
            _ => word,
        }
    }
}

/// The words of `line`, but for the values of `--text` and `--tree` that begin with `-`: they are
/// empty.
pub(crate) fn hide_values<'a>(alloc: Global, line: &[&'a str]) -> Result<Vec<&'a str>, AllocError>
    ensures { IfOk result (λ shown. texts shown.items ≡ hide_values (texts line.now)) }
{
    let mut shown = Vec::new(alloc);
    let mut place = Place::Name;
    for word in line {
        shown.push(place.show_word(word))?;
        place = place.after(word);
    }
    Ok(shown)
}

/// The value of `option` on `line`, where it is hidden from `clap`.
pub(crate) fn hidden_value<'a>(option: &str, line: &[&'a str]) -> Option<&'a str>
    ensures { option_map (λ value. value.now) result ≡ hidden_value option.now (texts line.now) }
{
    let mut place = Place::Name;
    for word in line {
        if place.is_value_of(option) {
            return begins_with_dash(word).then_some(*word);
        }
        place = place.after(word);
    }
    None
}

fn takes_dashes(word: &str) -> bool
    ensures { result ≡ takes_dashes word.now }
{
    word == "--text" || word == "--tree"
}

fn begins_with_dash(word: &str) -> bool
    ensures { result ≡ begins_with_dash word.now }
{
    word.starts_with('-')
}
