//! What is listed for each name: with which names its rules begin, and which rules it has.

ghost use Rattle.std.specs.Prelude.{IfOk};
ghost use Rattle.lalrpop_lr1_least_trees.specs.Searches.{number_lists};
ghost use Rattle.lalrpop_lr1_first.specs.NumberedGrammars.{IsNumberTable};
ghost use Rattle.lalrpop_lr1_check.specs.RuleLists.{AreNameLists, AreRuleLists};

use crate::closure::begins::{add_name, begin_lists};
use lalrpop_lr1_first::Numbered;
use lalrpop_lr1_least_trees::least_counts::empty_lists;
use std::alloc::{AllocError, Global};

/// Lists for each name, by its number.
#[derive(Drop)]
pub struct NameLists {
    // The names with which the right sides of its rules begin.
    pub(crate) begins: Vec<Vec<usize>>,
    // The numbers of its rules.
    pub(crate) rules: Vec<Vec<usize>>,
}

/// For each name, by its number, the numbers of its rules.
fn rule_lists(alloc: Global, table: &Numbered<'_>) -> Result<Vec<Vec<usize>>, AllocError>
    requires { IsNumberTable table.now }
    ensures { IfOk result (λ lists. AreRuleLists table.now (number_lists lists.items)) }
{
    let mut lists = empty_lists(alloc, table.names().len())?;
    let rules = table.rules();
    for number in 0..rules.len() {
        add_name(rules[number].left, Some(number), &mut lists)?;
    }
    Ok(lists)
}

impl NameLists {
    /// The lists of the table's names.
    pub(crate) fn new(alloc: Global, table: &Numbered<'_>) -> Result<NameLists, AllocError>
        requires { IsNumberTable table.now }
        ensures { IfOk result (λ lists. AreNameLists table.now lists) }
    {
        let begins = begin_lists(alloc, table)?;
        let rules = rule_lists(alloc, table)?;
        Ok(NameLists { begins, rules })
    }
}
