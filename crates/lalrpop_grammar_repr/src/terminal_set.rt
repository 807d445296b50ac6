//! The terminals of a grammar, with a number for each.

ghost use Rattle.std.specs.Prelude.{◌≡◌, IfOk};

use crate::map::Map;
use lalrpop_grammar::{List, TerminalString};
use std::alloc::{AllocError, Global};

/// The terminals of a grammar.
#[derive(Debug)]
pub struct TerminalSet {
    /// The terminals, ascending.
    pub all: List<TerminalString>,
    /// The place of each in the list.
    pub bits: Map<TerminalString, usize>,
}

impl Drop for TerminalSet {
    /// Drops what it holds: where it is owned, that is one call.
    fn drop(self) {
        let TerminalSet {
            all: _all,
            bits: _bits,
        } = self;
    }
}

impl TerminalSet {
    /// A copy that equals it.
    pub fn try_clone(&self, alloc: Global) -> Result<TerminalSet, AllocError>
        ensures { IfOk result (λ copy. copy ≡ self.now) }
    {
        Ok(TerminalSet {
            all: clone_terminals(alloc, self.all.as_slice())?,
            bits: self.bits.try_clone(alloc)?,
        })
    }
}

fn clone_terminals(
    alloc: Global,
    terminals: &[TerminalString],
) -> Result<List<TerminalString>, AllocError>
    ensures { IfOk result (λ copy. copy ≡ terminals.now) }
{
    let mut copy = List::new(alloc);
    for terminal in terminals {
        copy.push(terminal.try_clone()?)?;
    }
    Ok(copy)
}
