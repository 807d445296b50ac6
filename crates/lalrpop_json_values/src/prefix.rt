//! Runs of underscores, and the prefix of the names that are made for a grammar.

ghost use Rattle.std.specs.Prelude.{◌≡◌, max, IfOk};
ghost use Rattle.lalrpop_json_values.specs.Prefix.{longest_run, prefix_past};

use lalrpop_grammar_symbols::Atom;
use std::alloc::{AllocError, Global};

/// The larger of two numbers.
pub fn larger(a: usize, b: usize) -> usize
    ensures { result ≡ max a b }
{
    if a < b { b } else { a }
}

/// How long the longest run of underscores in the text is.
pub fn longest_run(text: &str) -> usize
    ensures { result ≡ longest_run text.now }
{
    let bytes = text.as_bytes();
    let mut run = 0;
    let mut longest = 0;
    for byte in bytes {
        if *byte == b'_' {
            run += 1;
            longest = larger(longest, run);
        } else {
            run = 0;
        }
    }
    longest
}

/// A run of underscores, longer by one than that many, and of two at least.
pub fn prefix_past(alloc: Global, longest: usize) -> Result<Atom, AllocError>
    ensures { IfOk result (λ prefix. prefix ≡ prefix_past longest) }
{
    let shorter = larger(1, longest);
    let mut prefix = String::new(alloc);
    while prefix.len() <= shorter {
        prefix.push('_')?;
    }
    Atom::new(alloc, prefix.as_str())
}
