//! Sets of names.

ghost use Rattle.std.specs.Prelude.{◌≡◌, ◌||◌, OnOk};
ghost use Rattle.std.specs.Str.{bytes_eq};
ghost use Rattle.lalrpop_grammar_symbols.specs.Symbols.{Text};
ghost use Rattle.lalrpop_grammar_rules.specs.RuleTable.{knows};

use lalrpop_grammar_symbols::Atom;
use std::alloc::AllocError;
use std::collections::HashMap;

/// One name more in the set.
///
/// # Errors
///
/// Where memory ran out.
pub fn add_name<'g>(name: &'g Atom, names: &mut HashMap<&'g str, ()>) -> Result<(), AllocError>
    ensures { OnOk result ((n : Text) → knows names.new n ≡ (knows names.old n || bytes_eq n name.now)) }
{
    names.insert(name.as_str(), ())?;
    Ok(())
}

/// Whether the name is in the set.
pub fn has_name(names: &HashMap<&str, ()>, name: &Atom) -> bool
    ensures { result ≡ knows names.now name.now }
{
    names.contains_key(name.as_str())
}
