//! Telling which form a value has.

ghost use Rattle.std.specs.Prelude.{◌≡◌};
ghost use Rattle.lalrpop_json_document.specs.DocumentViews.{view};
ghost use Rattle.lalrpop_json_values.specs.Forms.{form_by_word, form_by_key, form_at};

use crate::key::Key;
use crate::word::Word;
use lalrpop_json_document::JsonValue;

/// A form of a value that has several.
#[derive(Clone, Copy, PartialEq, Eq)]
pub enum Form {
    /// A terminal that is a bare name.
    Bare,
    /// The entry of a match block for all literals that aren't listed.
    CatchAll,
    /// A symbol that is chosen.
    Choose,
    /// An entry of a match block for one literal.
    Entry,
    /// An attribute with a text.
    Equal,
    /// A symbol that is error recovery.
    Error,
    /// A grammar item that is an extern block.
    Extern,
    /// Code of the user that may fail.
    Fallible,
    /// A symbol or a tree that is a group.
    Group,
    /// A symbol that is a name, or a type that may be a parameter.
    Id,
    /// A tree of a repetition.
    List,
    /// A tree of `@L` or `@R`.
    Look,
    /// A symbol `@L`: the byte where the next token begins.
    Lookahead,
    /// A symbol `@R`: the byte where the last token ends.
    Lookbehind,
    /// A symbol that calls a macro.
    Macro,
    /// A grammar item that is a match block.
    Match,
    /// A symbol with a name.
    Named,
    /// A type with a path.
    Nominal,
    /// A tree of an option.
    Opt,
    /// A form that isn't read.
    Other,
    /// An attribute with attributes inside.
    Paren,
    /// A rule that is public in a path.
    PubIn,
    /// A quoted literal.
    Quoted,
    /// A type that is a reference.
    Ref,
    /// A literal that is a regular expression.
    Regex,
    /// A symbol that is repeated.
    Repeat,
    /// A rule of a grammar, or a tree of one.
    Rule,
    /// The type of a symbol.
    Symbol,
    /// A symbol that is a terminal, or a tree of one token.
    Terminal,
    /// A type as text.
    Text,
    /// A type that is a tuple.
    Tuple,
    /// A grammar item that is an import.
    Use,
    /// Code of the user.
    User,
}

fn form_by_word(words: &[(Word, Form)], text: &str) -> Option<Form>
    ensures { result ≡ form_by_word words.now text.now }
{
    for (word, form) in words {
        if text == word.text() {
            return Some(*form);
        }
    }
    None
}

/// The form that the first of these keys tells which the value has. The keys are in byte order.
pub fn form_by_key(rows: &[(Key, Form)], value: &JsonValue<'_>) -> Option<Form>
    ensures { result ≡ form_by_key rows.now (view value.now) }
{
    for (key, form) in rows {
        if value.get(key.text()).is_some() {
            return Some(*form);
        }
    }
    None
}

/// The form that `kind` tells, or without one the first key.
#[tactic(auto, unfolding(crate::specs::Forms::form_at))]
pub fn form_of(words: &[(Word, Form)], rows: &[(Key, Form)], value: &JsonValue<'_>) -> Option<Form>
    ensures { result ≡ form_at words.now rows.now (view value.now) }
{
    let Some(kind) = value.get(Key::Kind.text()) else {
        return form_by_key(rows, value);
    };
    match kind.as_str() {
        Some(text) => form_by_word(words, text),
        None => None,
    }
}
