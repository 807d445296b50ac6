//! Which terminals of tokens have a spelling, and the JSON value of each and of a literal.

ghost use Rattle.std.specs.Prelude.{◌≡◌, ◌↔◌, IfOk, IsTrue};
ghost use Rattle.serde_json.specs.View.{view};
ghost use Rattle.lalrpop_json_symbols.specs.Readable.{IsReadableTerminal};
ghost use Rattle.lalrpop_json_symbols.specs.Spelling.{literal_json, terminal_json};

use lalrpop_grammar_symbols::{TerminalLiteral, TerminalString};
use lalrpop_json_values::{JsonObject, Key, is_name};
use serde_json::Value;
use std::alloc::{AllocError, Global};

/// Whether the terminal has a spelling as that of a token.
pub fn is_readable_terminal(terminal: &TerminalString) -> bool
    ensures { IsTrue result ↔ IsReadableTerminal terminal.now }
{
    match terminal {
        TerminalString::Literal(_) => true,
        TerminalString::Bare(name) => is_name(name.as_str()),
        TerminalString::Error => false,
    }
}

/// The literal as an object.
#[tactic(auto, unfolding(lalrpop_json_values::specs::Key::key_text))]
pub fn literal_value(alloc: Global, literal: &TerminalLiteral) -> Result<Value, AllocError>
    ensures { IfOk result (λ value. view value ≡ literal_json literal.now) }
{
    match literal {
        TerminalLiteral::Quoted(text) => JsonObject::of_text(alloc, Key::Quoted, text.as_str()),
        TerminalLiteral::Regex(text) => JsonObject::of_text(alloc, Key::Regex, text.as_str()),
    }
}

/// The terminal as an object. One without a spelling gives `null`.
#[tactic(auto, unfolding(lalrpop_json_values::specs::Key::key_text))]
pub fn terminal_value(alloc: Global, terminal: &TerminalString) -> Result<Value, AllocError>
    ensures { IfOk result (λ value. view value ≡ terminal_json terminal.now) }
{
    match terminal {
        TerminalString::Literal(literal) => literal_value(alloc, literal),
        TerminalString::Bare(name) => JsonObject::of_text(alloc, Key::Bare, name.as_str()),
        TerminalString::Error => Ok(Value::Null),
    }
}
