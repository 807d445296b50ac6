//! Rules that wait to be looked at.

ghost use Rattle.std.specs.Prelude.{◌≡◌, ◌<◌, ◌≤◌, ◌+◌, ◌⊎◌, ℕ, [], Contains, IfOk, MatchOption, OnOk, length};
ghost use Rattle.lalrpop_lr1_least_trees.specs.Searches.{IsPopped, IsPushed, IsQueue};

use std::alloc::{AllocError, Global};
use std::collections::VecDeque;

/// The rules that wait, each once, those first that have waited longest.
#[derive(Drop)]
pub(crate) struct Worklist {
    // The rules.
    rules: VecDeque<usize>,
    // Of each rule, whether it is among them.
    waits: Vec<bool>,
}

impl Worklist {
    /// Of so many rules none waits.
    fn none(alloc: Global, count: usize) -> Result<Worklist, AllocError>
        ensures { IfOk result (IsQueue count) }
    {
        let mut waits = Vec::new(alloc);
        for _ in 0..count {
            waits.push(false)?;
        }
        Ok(Worklist {
            rules: VecDeque::new(alloc),
            waits,
        })
    }

    /// So many rules wait, in order.
    pub(crate) fn all(alloc: Global, count: usize) -> Result<Worklist, AllocError>
        ensures queue { IfOk result (IsQueue count) }
        ensures all { IfOk result (λ waiting. (r : ℕ) → r < count → Contains waiting.rules.items r) }
    {
        let mut waiting = Worklist::none(alloc, count)?;
        for rule in 0..count {
            waiting.push(rule)?;
        }
        Ok(waiting)
    }

    /// Adds a rule, where it doesn't wait yet.
    fn push(&mut self, rule: usize) -> Result<(), AllocError>
        requires queue { IsQueue (length self.old.waits.items) self.old }
        requires within { rule < length self.old.waits.items }
        ensures { OnOk result (IsPushed rule self.old self.new) }
    {
        if !self.waits[rule] {
            self.rules.push_back(rule)?;
            self.waits[rule] = true;
        }
        Ok(())
    }

    /// Adds the rules, each where it doesn't wait yet.
    pub(crate) fn push_all(&mut self, rules: &[usize]) -> Result<(), AllocError>
        requires queue { IsQueue (length self.old.waits.items) self.old }
        requires within { (r : ℕ) → Contains rules.now r → r < length self.old.waits.items }
        ensures queue { OnOk result (IsQueue (length self.old.waits.items) self.new) }
        ensures kept { OnOk result ((r : ℕ) → Contains self.old.rules.items r → Contains self.new.rules.items r) }
        ensures added { OnOk result ((r : ℕ) → Contains rules.now r → Contains self.new.rules.items r) }
        ensures count { OnOk result (length self.new.rules.items ≤ length self.old.rules.items + length rules.now) }
    {
        for rule in rules {
            self.push(*rule)?;
        }
        Ok(())
    }

    /// Takes the rule that has waited longest; none where none waits.
    pub(crate) fn pop(&mut self) -> Option<usize>
        requires { IsQueue (length self.old.waits.items) self.old }
        ensures { IsPopped result self.old self.new }
    {
        let rule = self.rules.pop_front()?;
        self.waits[rule] = false;
        Some(rule)
    }
}
