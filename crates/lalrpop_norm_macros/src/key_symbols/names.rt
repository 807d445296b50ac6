//! Keys by the names of their rules.

ghost use Rattle.std.specs.Prelude.{IfOk};
ghost use Rattle.lalrpop_grammar_rules.specs.Views.{closed_view};
ghost use Rattle.lalrpop_norm_keys.specs.Tables.{IsKeyIndex};
ghost use Rattle.lalrpop_norm_macros.specs.KeyNaming.{IsNameOfKey};

use lalrpop_grammar_rules::closed::ClosedSymbol;
use lalrpop_grammar_symbols::Atom;
use lalrpop_norm_keys::key_table::KeyTable;
use std::alloc::{AllocError, Global};

/// Keys with the names of their rules.
#[derive(Clone, Copy)]
pub struct KeyNames<'k> {
    /// The keys, each once.
    pub keys: &'k KeyTable,
    /// Their names, one for each in order.
    pub names: &'k [Atom],
}

/// The name of the key, where it is there.
pub(crate) fn name_of<'k>(
    alloc: Global,
    names: &KeyNames<'k>,
    key: &ClosedSymbol,
) -> Result<Option<&'k Atom>, AllocError>
    requires { IsKeyIndex names.now.keys.now }
    ensures { IfOk result (IsNameOfKey names.now (closed_view key.now)) }
{
    match names.keys.find(alloc, key)? {
        Some(place) => Ok(names.names.get(place)),
        None => Ok(None),
    }
}
