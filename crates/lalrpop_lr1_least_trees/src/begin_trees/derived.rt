//! Rules by whose trees those that begin with a terminal are found.

ghost use Rattle.std.specs.Prelude.{◌≡◌, ◌<◌, IfOk, OnOk, length};
ghost use Rattle.lalrpop_lr1_least_trees.specs.NumberedTrees.{rule_view, rule_views};
ghost use Rattle.lalrpop_lr1_least_trees.specs.DerivedRules.{
  AddsDerived,
  AreDerived,
  HaveOrigins,
  IsBeginAt,
  IsBeginOf,
  IsDerived,
  IsEmptyOf,
  IsDerivedPushed,
  IsWantedAt,
  IsWholeOf,
};

use crate::begin_trees::kinds::{begin_symbol, sum};
use crate::begin_trees::sides::{add_empty, add_whole, are_names, begin_side};
use crate::least_counts::Rule;
use std::alloc::{AllocError, Global};

/// Where a derived rule comes from.
#[derive(Clone, Copy)]
pub(crate) struct DerivedOrigin {
    /// The number of the rule.
    pub(crate) rule: usize,
    /// The place of its right side at which trees begin with the terminal, where it is derived for these.
    pub(crate) place: usize,
}

/// Derived rules.
#[derive(Drop)]
pub(crate) struct Derived {
    /// The rules.
    pub(crate) rules: Vec<Rule>,
    /// Where each comes from.
    pub(crate) origins: Vec<DerivedOrigin>,
}

impl Derived {
    ghost use Rattle.std.specs.Prelude.{ℕ, List};
    ghost use Rattle.lalrpop_lr1_least_trees.specs.NumberedTrees.{NumberRule};

    /// None.
    fn none(alloc: Global) -> Derived
        ensures { (names wanted : ℕ) (rules : List NumberRule) → AreDerived names wanted rules 0 result }
    {
        Derived {
            rules: Vec::new(alloc),
            origins: Vec::new(alloc),
        }
    }

    /// Adds a rule.
    fn push(&mut self, rule: Rule, origin: DerivedOrigin) -> Result<(), AllocError>
        ensures { OnOk result (IsDerivedPushed (rule_view rule) origin self.old self.new) }
    {
        self.rules.push(rule)?;
        self.origins.push(origin)?;
        Ok(())
    }

    /// Adds the rule for all trees.
    fn push_whole(
        &mut self,
        alloc: Global,
        names: usize,
        rule: &Rule,
        number: usize,
    ) -> Result<(), AllocError>
        requires { HaveOrigins self.old }
        ensures { OnOk result (AddsDerived number (IsWholeOf names (rule_view rule.now)) self.old self.new) }
    {
        let mut right = Vec::new(alloc);
        add_whole(names, rule.right.as_slice(), &mut right)?;
        let left = rule.left;
        self.push(
            Rule { left, right },
            DerivedOrigin {
                rule: number,
                place: 0,
            },
        )?;
        Ok(())
    }

    /// Adds the rule for trees without leaves, where only names stand on the right side.
    fn push_empty(
        &mut self,
        alloc: Global,
        names: usize,
        rule: &Rule,
        number: usize,
    ) -> Result<(), AllocError>
        requires { HaveOrigins self.old }
        ensures { OnOk result (AddsDerived number (IsEmptyOf names (rule_view rule.now)) self.old self.new) }
    {
        if !are_names(names, rule.right.as_slice()) {
            return Ok(());
        }
        let mut right = Vec::new(alloc);
        add_empty(names, rule.right.as_slice(), &mut right)?;
        let left = sum(names, rule.left)?;
        self.push(
            Rule { left, right },
            DerivedOrigin {
                rule: number,
                place: 0,
            },
        )?;
        Ok(())
    }

    /// Adds the rule for trees that begin with the wanted terminal at the place.
    fn push_begin(
        &mut self,
        alloc: Global,
        names: usize,
        rule: &Rule,
        number: usize,
        place: usize,
    ) -> Result<(), AllocError>
        requires origins { HaveOrigins self.old }
        requires place { place < length rule.now.right.items }
        ensures { OnOk result (AddsDerived number (IsBeginAt names (rule_view rule.now) place)
            self.old self.new) }
    {
        let right = begin_side(alloc, names, rule.right.as_slice(), place)?;
        let left = begin_symbol(names, rule.left)?;
        self.push(
            Rule { left, right },
            DerivedOrigin {
                rule: number,
                place,
            },
        )?;
        Ok(())
    }

    /// Adds the rule for trees that begin with the wanted terminal at the place, where it stands there.
    fn push_wanted(
        &mut self,
        alloc: Global,
        names: usize,
        wanted: usize,
        rule: &Rule,
        number: usize,
        place: usize,
    ) -> Result<(), AllocError>
        requires origins { HaveOrigins self.old }
        requires place { place < length rule.now.right.items }
        ensures { OnOk result (AddsDerived number (IsWantedAt names wanted (rule_view rule.now) place) self.old self.new) }
    {
        if rule.right[place] == wanted {
            self.push_begin(alloc, names, rule, number, place)?;
        }
        Ok(())
    }

    /// Adds the rules for trees that begin with the wanted terminal.
    fn push_begins(
        &mut self,
        alloc: Global,
        names: usize,
        wanted: usize,
        rule: &Rule,
        number: usize,
    ) -> Result<(), AllocError>
        requires { HaveOrigins self.old }
        ensures { OnOk result (AddsDerived number (IsBeginOf names wanted (rule_view rule.now)) self.old self.new) }
    {
        let right = rule.right.as_slice();
        for place in 0..right.len() {
            let symbol = right[place];
            if symbol >= names {
                self.push_wanted(alloc, names, wanted, rule, number, place)?;
                return Ok(());
            }
            self.push_begin(alloc, names, rule, number, place)?;
        }
        Ok(())
    }

    /// Adds all rules that are derived from the rule.
    fn push_derived(
        &mut self,
        alloc: Global,
        names: usize,
        wanted: usize,
        rule: &Rule,
        number: usize,
    ) -> Result<(), AllocError>
        requires { HaveOrigins self.old }
        ensures { OnOk result (AddsDerived number (IsDerived names wanted (rule_view rule.now)) self.old self.new) }
    {
        self.push_whole(alloc, names, rule, number)?;
        self.push_empty(alloc, names, rule, number)?;
        self.push_begins(alloc, names, wanted, rule, number)?;
        Ok(())
    }
}

/// The rules that are derived from the rules.
pub(crate) fn derived_rules(
    alloc: Global,
    names: usize,
    wanted: usize,
    rules: &[Rule],
) -> Result<Derived, AllocError>
    ensures { IfOk result (AreDerived names wanted (rule_views rules.now) (length rules.now)) }
{
    let mut derived = Derived::none(alloc);
    for number in 0..rules.len() {
        derived.push_derived(alloc, names, wanted, &rules[number], number)?;
    }
    Ok(derived)
}
