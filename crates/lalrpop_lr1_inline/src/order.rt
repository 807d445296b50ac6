//! The order in which nonterminals are inlined.

ghost use Rattle.std.specs.Prelude.{◌≡◌, ◌+◌, ◌≤◌, ◌∷◌, ◌++◌, List, IfErr, IfOk, OnOk, true, map, reverse};
ghost use Rattle.lalrpop_lr1_inline.specs.InlinedNames.{inlined_in_productions, inlined_in_symbols, inlined_names, inlined_named_by};
ghost use Rattle.lalrpop_lr1_inline.specs.InlinedNames.{is_inlined_name};
ghost use Rattle.lalrpop_lr1_inline.specs.InliningOrders.{HasAllInlined, HasNameOnce, HasNamedFirst, IsInliningOrder};
ghost use Rattle.lalrpop_lr1_inline.specs.InlineFaults.{IsInlinedIntoItself, IsInlineCycle, IsOrderFault};
ghost use Rattle.lalrpop_lr1_inline.specs.OrderSearches.{IsOrderSearch, OrderTask, order_view, task_view, tasks_to_come, tasks_to_enter};
ghost use Rattle.lalrpop_lr1_inline.specs.OrderSearches.{tasks_view};
ghost use Rattle.lalrpop_grammar_symbols.specs.Symbols.{Text};

use crate::fault::InlineFault;
use crate::named::{add_name, has_name, is_inlined, is_marked};
use lalrpop_grammar_repr::{Grammar, NormError, NormErrorKind, Production, Symbol};
use lalrpop_grammar_symbols::{NonterminalString, Span};
use std::alloc::{AllocError, Global};
use std::collections::HashMap;

/// What is left to do with a name.
#[derive(Clone, Copy)]
pub(crate) enum Visit<'g> {
    /// To walk it.
    Enter(&'g NonterminalString),
    /// To put it behind those that it names.
    Leave(&'g NonterminalString),
}

/// How far the search for the order has come.
#[derive(Drop)]
pub(crate) struct OrderSearch<'g> {
    /// What is left to do, first task last.
    tasks: Vec<Visit<'g>>,
    /// The order so far.
    order: Vec<&'g NonterminalString>,
    /// The names that were entered.
    entered: HashMap<&'g str, ()>,
    /// Those that were left again.
    left: HashMap<&'g str, ()>,
}

/// Adds a task for each inlined nonterminal among the symbols.
fn enter_symbols<'g>(
    grammar: &Grammar,
    symbols: &'g [Symbol],
    tasks: &mut Vec<Visit<'g>>,
) -> Result<(), AllocError>
    ensures { OnOk result (map task_view tasks.new.items ≡ map task_view tasks.old.items
        ++ tasks_to_enter (inlined_in_symbols grammar.now.nonterminals symbols.now)) }
{
    for symbol in symbols {
        if let Symbol::Nonterminal(name) = symbol {
            if is_inlined(grammar, name) {
                tasks.push(Visit::Enter(name))?;
            }
        }
    }
    Ok(())
}

/// Adds a task for each inlined nonterminal on the right sides.
fn enter_productions<'g>(
    grammar: &Grammar,
    productions: &'g [Production],
    tasks: &mut Vec<Visit<'g>>,
) -> Result<(), AllocError>
    ensures { OnOk result (map task_view tasks.new.items ≡ map task_view tasks.old.items
        ++ tasks_to_enter (inlined_in_productions grammar.now.nonterminals productions.now)) }
{
    for production in productions {
        enter_symbols(grammar, production.symbols.as_slice(), tasks)?;
    }
    Ok(())
}

/// The tasks in turned order.
fn turn_round<'g>(alloc: Global, mut tasks: Vec<Visit<'g>>) -> Result<Vec<Visit<'g>>, AllocError>
    ensures { IfOk result (λ turned. turned.items ≡ reverse tasks.entry.items) }
{
    let mut turned = Vec::new(alloc);
    while let Some(task) = tasks.pop() {
        turned.push(task)?;
    }
    Ok(turned)
}

/// A task for each inlined nonterminal, first name last.
fn first_tasks<'g>(alloc: Global, grammar: &'g Grammar) -> Result<Vec<Visit<'g>>, AllocError>
    ensures tasks { IfOk result (λ made. tasks_view made.items ≡ tasks_to_enter (inlined_names grammar.now.nonterminals)) }
    ensures all { IfOk result (λ _. HasAllInlined grammar.now.nonterminals (inlined_names grammar.now.nonterminals)) }
{
    let mut tasks = Vec::new(alloc);
    for (name, found) in grammar.nonterminals.iter() {
        if is_marked(found) {
            tasks.push(Visit::Enter(name))?;
        }
    }
    let turned = turn_round(alloc, tasks)?;
    Ok(turned)
}

/// The fault that the nonterminal would have to be inlined into itself.
fn cycle_of(grammar: &Grammar, name: &NonterminalString) -> InlineFault
    requires { IsInlinedIntoItself grammar.now.nonterminals name.now.0 }
    ensures { IsOrderFault grammar.now.nonterminals result }
{
    let span = match grammar.nonterminals.get(name) {
        None => Span(0, 0),
        Some(found) => found.span,
    };
    match name.try_clone() {
        Err(_) => InlineFault::Memory,
        Ok(name) => InlineFault::Norm(NormError {
            kind: NormErrorKind::CyclicInline(name),
            span,
        }),
    }
}

impl<'g> OrderSearch<'g> {
    /// Walks a name that is met: what it names first, and then itself, unless it was met before.
    fn enter(
        &mut self,
        grammar: &'g Grammar,
        name: &'g NonterminalString,
    ) -> Result<(), InlineFault>
        requires { IsOrderSearch grammar.now.nonterminals (OrderTask.enter name.now.0 ∷ tasks_view self.old.tasks.items)
            (order_view self.old.order.items) self.old.entered self.old.left }
        ensures search { OnOk result (IsOrderSearch grammar.now.nonterminals (tasks_view self.new.tasks.items)
            (order_view self.new.order.items) self.new.entered self.new.left) }
        ensures fewer { OnOk result (tasks_to_come grammar.now.nonterminals (tasks_view self.new.tasks.items) self.new.entered + 1
            ≤ tasks_to_come grammar.now.nonterminals (OrderTask.enter name.now.0 ∷ tasks_view self.old.tasks.items)
            self.old.entered) }
        ensures fault { IfErr result (IsOrderFault grammar.now.nonterminals) }
    {
        if has_name(&self.left, name) {
            return Ok(());
        }
        if has_name(&self.entered, name) {
            return Err(cycle_of(grammar, name));
        }
        add_name(name, &mut self.entered)?;
        self.tasks.push(Visit::Leave(name))?;
        enter_productions(grammar, grammar.productions_for(name), &mut self.tasks)?;
        Ok(())
    }

    /// Puts a name behind those that it names.
    fn leave(
        &mut self,
        grammar: &'g Grammar,
        name: &'g NonterminalString,
    ) -> Result<(), InlineFault>
        requires { IsOrderSearch grammar.now.nonterminals (OrderTask.leave name.now.0 ∷ tasks_view self.old.tasks.items)
            (order_view self.old.order.items) self.old.entered self.old.left }
        ensures search { OnOk result (IsOrderSearch grammar.now.nonterminals (tasks_view self.new.tasks.items)
            (order_view self.new.order.items) self.new.entered self.new.left) }
        ensures fewer { OnOk result (tasks_to_come grammar.now.nonterminals (tasks_view self.new.tasks.items) self.new.entered + 1
            ≤ tasks_to_come grammar.now.nonterminals (OrderTask.leave name.now.0 ∷ tasks_view self.old.tasks.items)
            self.old.entered) }
        ensures fault { IfErr result (IsOrderFault grammar.now.nonterminals) }
    {
        add_name(name, &mut self.left)?;
        self.order.push(name)?;
        Ok(())
    }

    /// Does the task.
    fn perform(&mut self, grammar: &'g Grammar, task: Visit<'g>) -> Result<(), InlineFault>
        requires { IsOrderSearch grammar.now.nonterminals (task_view task ∷ tasks_view self.old.tasks.items)
            (order_view self.old.order.items) self.old.entered self.old.left }
        ensures search { OnOk result (IsOrderSearch grammar.now.nonterminals (tasks_view self.new.tasks.items)
            (order_view self.new.order.items) self.new.entered self.new.left) }
        ensures fewer { OnOk result (tasks_to_come grammar.now.nonterminals (tasks_view self.new.tasks.items) self.new.entered + 1
            ≤ tasks_to_come grammar.now.nonterminals (task_view task.entry ∷ tasks_view self.old.tasks.items)
            self.old.entered) }
        ensures fault { IfErr result (IsOrderFault grammar.now.nonterminals) }
    {
        match task {
            Visit::Enter(name) => self.enter(grammar, name),
            Visit::Leave(name) => self.leave(grammar, name),
        }
    }

    /// Does all tasks.
    fn finish(&mut self, grammar: &'g Grammar) -> Result<(), InlineFault>
        requires { IsOrderSearch grammar.now.nonterminals (tasks_view self.old.tasks.items)
            (order_view self.old.order.items) self.old.entered self.old.left }
        ensures order { OnOk result (IsInliningOrder grammar.now.nonterminals (order_view self.new.order.items)) }
        ensures fault { IfErr result (IsOrderFault grammar.now.nonterminals) }
    {
        while let Some(task) = self.tasks.pop() {
            self.perform(grammar, task)?;
        }
        Ok(())
    }
}

/// The order in which the search finds the nonterminals.
fn found_order<'g>(
    alloc: Global,
    grammar: &'g Grammar,
) -> Result<Vec<&'g NonterminalString>, InlineFault>
    ensures order { IfOk result (λ order. IsInliningOrder grammar.now.nonterminals (order_view order.items)) }
    ensures all { IfOk result (λ _. HasAllInlined grammar.now.nonterminals (inlined_names grammar.now.nonterminals)) }
    ensures fault { IfErr result (IsOrderFault grammar.now.nonterminals) }
{
    let mut search = OrderSearch {
        tasks: first_tasks(alloc, grammar)?,
        order: Vec::new(alloc),
        entered: HashMap::new(alloc),
        left: HashMap::new(alloc),
    };
    search.finish(grammar)?;
    Ok(search.order)
}

/// Copies of the names.
fn copies(alloc: Global, names: &[&NonterminalString]) -> Result<Vec<NonterminalString>, AllocError>
    ensures { IfOk result (λ made. map (λ n. n.0) made.items ≡ order_view names.now) }
{
    let mut made = Vec::new(alloc);
    for name in names {
        made.push(name.try_clone()?)?;
    }
    Ok(made)
}

/// The inlined nonterminals in the order in which they are inlined: by name, depth first, those that one names before it,
/// last named first. Refuses a grammar in which a chain of inlined nonterminals returns to its first (N24), with one of the
/// chain and the place of its rule.
pub fn inline_order(alloc: Global, grammar: &Grammar) -> Result<Vec<NonterminalString>, InlineFault>
    ensures order { IfOk result (λ order. IsInliningOrder grammar.now.nonterminals (map (λ n. n.0) order.items)) }
    ensures all { IfOk result (λ order. HasAllInlined grammar.now.nonterminals (map (λ n. n.0) order.items)) }
    ensures once { IfOk result (λ order. HasNameOnce (map (λ n. n.0) order.items)) }
    ensures named_first { IfOk result (λ order. HasNamedFirst grammar.now.nonterminals (map (λ n. n.0) order.items)) }
    ensures none { IfOk result (λ _. (n : Text) → IsInlinedIntoItself grammar.now.nonterminals n → ⊥) }
    ensures cycle { IfErr result (IsOrderFault grammar.now.nonterminals) }
{
    let order = found_order(alloc, grammar)?;
    Ok(copies(alloc, order.as_slice())?)
}
