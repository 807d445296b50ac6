//! The productions of each name.

ghost use Rattle.std.specs.Prelude.{◌≡◌, ◌<◌, ◌++◌, ◌∷◌, ℕ, [], IfOk, OnOk, length, set, slice_index_or};
ghost use Rattle.lalrpop_lr1_first.specs.Listings.{lent};
ghost use Rattle.lalrpop_lr1_first.specs.NumberedGrammars.{IsNumberTable, table_productions};
ghost use Rattle.lalrpop_lr1_barren.specs.NamedLists.{
  AreNamedLists,
  AreListedByName,
  HoldsNamed,
  production_lists,
};

use crate::reachable::lookup::place_of;
use lalrpop_grammar_repr::Production;
use lalrpop_grammar_symbols::NonterminalString;
use lalrpop_lr1_first::Numbered;
use std::alloc::{AllocError, Global};

/// The productions of a table, for each name apart.
#[derive(Drop)]
pub struct NamedProductions<'t, 'g> {
    pub(crate) table: &'t Numbered<'g>,
    // Those of each name, by its number.
    pub(crate) lists: Vec<Vec<&'g Production>>,
}

/// As many lists without productions.
fn empty_lists<'g>(alloc: Global, count: usize) -> Result<Vec<Vec<&'g Production>>, AllocError>
    ensures count { IfOk result (λ lists. length lists.items ≡ count) }
    ensures empty { IfOk result (λ lists. (s : ℕ) → slice_index_or (production_lists lists.items) s [] ≡ []) }
{
    let mut lists = Vec::new(alloc);
    for _ in 0..count {
        lists.push(Vec::new(alloc))?;
    }
    Ok(lists)
}

/// Lists the production under the name with this number.
fn list_under<'g>(
    lists: &mut Vec<Vec<&'g Production>>,
    name: usize,
    production: &'g Production,
) -> Result<(), AllocError>
    requires { name < length lists.old.items }
    ensures { OnOk result (production_lists lists.new.items ≡ set (production_lists lists.old.items) name
        (slice_index_or (production_lists lists.old.items) name [] ++ production.now ∷ [])) }
{
    lists[name].push(production)?;
    Ok(())
}

/// The productions of each name, by the name's number.
fn named_lists<'g>(
    alloc: Global,
    table: &Numbered<'g>,
) -> Result<Vec<Vec<&'g Production>>, AllocError>
    requires { IsNumberTable table.now }
    ensures { IfOk result (λ lists. AreNamedLists table.now (production_lists lists.items) (length (table_productions table.now))) }
{
    let rules = table.rules();
    let productions = table.productions();
    let mut lists = empty_lists(alloc, table.names().len())?;
    for number in 0..productions.len() {
        list_under(&mut lists, rules[number].left, productions[number])?;
    }
    Ok(lists)
}

impl<'t, 'g> NamedProductions<'t, 'g> {
    /// The productions of the table.
    ///
    /// # Errors
    ///
    /// Memory is refused.
    pub fn new(
        alloc: Global,
        table: &'t Numbered<'g>,
    ) -> Result<NamedProductions<'t, 'g>, AllocError>
        requires { IsNumberTable table.now }
        ensures are { IfOk result AreListedByName }
        ensures table { IfOk result (λ named. named.table.now ≡ table.now) }
    {
        let lists = named_lists(alloc, table)?;
        Ok(NamedProductions { table, lists })
    }

    /// Those of the name; none where it isn't one of the table's.
    pub fn productions_of(&self, name: &NonterminalString) -> &[&'g Production]
        requires { AreListedByName self.now }
        ensures { HoldsNamed (table_productions self.now.table.now) name.now (lent result.now) }
    {
        match place_of(self.table.names(), name) {
            None => &[],
            Some(place) => self.lists[place].as_slice(),
        }
    }
}
