//! The calls of macros that a grammar makes, found by least depth, round by round.

ghost use Rattle.std.specs.Prelude.{◌≡◌, [], ◌∷◌, IfErr, IfOk, OnOk, None, drop, length, map};
ghost use Rattle.lalrpop_grammar_symbols.specs.Symbols.{Closed};
ghost use Rattle.lalrpop_grammar.specs.Views.{grammar_view};
ghost use Rattle.lalrpop_grammar.specs.WrittenGrammar.{rules_of};
ghost use Rattle.lalrpop_grammar_language.specs.Among.{Among};
ghost use Rattle.lalrpop_grammar_rules.specs.RuleTable.{IsTable, rules_view, rules_with};
ghost use Rattle.lalrpop_grammar_rules.specs.Views.{closed_view, closeds};
ghost use Rattle.lalrpop_norm_keys.specs.Tables.{IsKeyIndex, table_keys};
ghost use Rattle.lalrpop_norm_keys.specs.FoundCalls.{FindsCalls, HasCallIndex, HasFoundCalls, IsToldAt, TellsOfAnyCall};
ghost use Rattle.lalrpop_norm_keys.specs.FoundCalls.{TellsOfMadeCall, TellsOfOneCall, plain_calls};
ghost use Rattle.lalrpop_norm_keys.specs.Instances.{TellsOfCall};
ghost use Rattle.lalrpop_norm_keys.specs.SearchPremises.{CanSearch};
ghost use Rattle.lalrpop_norm_keys.specs.StandingCalls.{CallStandsIn};
ghost use Rattle.lalrpop_norm_keys.specs.UseSearch.{AddsUsesOf, HasCallsByUse, UsesCalls};
ghost use Rattle.lalrpop_norm_theory.specs.Premises.{HasNoLevels};

use crate::called::unleveled_call;
use crate::callers::place_of_call;
use crate::instances::symbols_of;
use crate::key_table::{KeyTable, calls_in_symbols};
use crate::plain::plain_rules;
use lalrpop_grammar::Grammar;
use lalrpop_grammar_repr::NormFault;
use lalrpop_grammar_rules::Rules;
use lalrpop_grammar_rules::closed::{ClosedSymbol, Finder};
use lalrpop_grammar_symbols::{Atom, List, Span};
use std::alloc::{AllocError, Global};
use std::mem;

/// What the search for calls finds.
#[derive(Drop)]
pub enum FoundCalls {
    /// All calls, none of them deeper than the limit.
    All(KeyTable),
    /// A call that is deeper than the limit, and where it is written: the innermost symbol of an alternative that has it.
    TooDeep(ClosedSymbol, Span),
}

/// Puts the calls that stand in the call of a rule behind the known ones.
fn add_calls_of<F: Finder>(
    alloc: Global,
    finder: &F,
    rules: &Rules<'_>,
    name: &Atom,
    args: &[ClosedSymbol],
    calls: &mut KeyTable,
) -> Result<(), NormFault>
    requires table { IsTable rules.now }
    requires index { IsKeyIndex calls.old }
    ensures index { OnOk result (IsKeyIndex calls.new) }
    ensures found { OnOk result (FindsCalls (rules_with (F.finds finder.now) rules.now)
        (Closed.call name.now (closeds (map closed_view args.now)) None ∷ []) (table_keys calls.old) (table_keys calls.new)) }
    ensures order { OnOk result (HasNoLevels (rules_view rules.now)
        → AddsUsesOf (UsesCalls (rules_with (F.finds finder.now) rules.now))
        (Closed.call name.now (closeds (map closed_view args.now)) None ∷ []) (table_keys calls.old) (table_keys calls.new)) }
    ensures fault { IfErr result (TellsOfCall (rules_with (F.finds finder.now) rules.now) (F.too_deep finder.now)
        name.now (closeds (map closed_view args.now))) }
{
    let symbols = symbols_of(alloc, finder, rules, name, args)?;
    let found = calls_in_symbols(alloc, symbols.as_slice())?;
    calls.add_all(alloc, found.as_slice())?;
    Ok(())
}

/// Puts the calls that stand in the call behind the known ones. In one at a level nothing stands.
fn add_calls_of_call<F: Finder>(
    alloc: Global,
    finder: &F,
    rules: &Rules<'_>,
    call: &ClosedSymbol,
    calls: &mut KeyTable,
) -> Result<(), NormFault>
    requires table { IsTable rules.now }
    requires index { IsKeyIndex calls.old }
    ensures index { OnOk result (IsKeyIndex calls.new) }
    ensures found { OnOk result (FindsCalls (rules_with (F.finds finder.now) rules.now)
        (closed_view call.now ∷ []) (table_keys calls.old) (table_keys calls.new)) }
    ensures order { OnOk result (HasNoLevels (rules_view rules.now)
        → AddsUsesOf (UsesCalls (rules_with (F.finds finder.now) rules.now))
        (closed_view call.now ∷ []) (table_keys calls.old) (table_keys calls.new)) }
    ensures fault { IfErr result (TellsOfOneCall (rules_with (F.finds finder.now) rules.now) (F.too_deep finder.now)
        (closed_view call.now ∷ [])) }
{
    let Some(called) = unleveled_call(call) else {
        return Ok(());
    };
    add_calls_of(alloc, finder, rules, called.name, called.args, calls)
}

/// Puts the calls that stand in these behind the known ones.
fn add_round<F: Finder>(
    alloc: Global,
    finder: &F,
    rules: &Rules<'_>,
    callers: &[ClosedSymbol],
    calls: &mut KeyTable,
) -> Result<(), NormFault>
    requires table { IsTable rules.now }
    requires index { IsKeyIndex calls.old }
    ensures index { OnOk result (IsKeyIndex calls.new) }
    ensures found { OnOk result (FindsCalls (rules_with (F.finds finder.now) rules.now)
        (map closed_view callers.now) (table_keys calls.old) (table_keys calls.new)) }
    ensures order { OnOk result (HasNoLevels (rules_view rules.now)
        → AddsUsesOf (UsesCalls (rules_with (F.finds finder.now) rules.now))
        (map closed_view callers.now) (table_keys calls.old) (table_keys calls.new)) }
    ensures fault { IfErr result (TellsOfOneCall (rules_with (F.finds finder.now) rules.now) (F.too_deep finder.now)
        (map closed_view callers.now)) }
{
    for call in callers {
        add_calls_of_call(alloc, finder, rules, call, calls)?;
    }
    Ok(())
}

/// Copies of the symbols.
fn copies(alloc: Global, symbols: &[ClosedSymbol]) -> Result<List<ClosedSymbol>, AllocError>
    ensures { IfOk result (λ copies. copies ≡ symbols.now) }
{
    let mut copies = List::new(alloc);
    for symbol in symbols {
        copies.push(symbol.try_clone()?)?;
    }
    Ok(copies)
}

/// Copies of the symbols from that place on.
fn copies_from(
    alloc: Global,
    symbols: &[ClosedSymbol],
    from: usize,
) -> Result<List<ClosedSymbol>, AllocError>
    ensures { IfOk result (λ copies. copies ≡ drop from symbols.now) }
{
    if symbols.len() < from {
        return Ok(List::new(alloc));
    }
    copies(alloc, &symbols[from..])
}

/// One round: puts the calls that stand in these behind the known ones, and gives copies of those that weren't known.
fn next_round<F: Finder>(
    alloc: Global,
    finder: &F,
    rules: &Rules<'_>,
    callers: &[ClosedSymbol],
    calls: &mut KeyTable,
) -> Result<List<ClosedSymbol>, NormFault>
    requires table { IsTable rules.now }
    requires index { IsKeyIndex calls.old }
    ensures index { OnOk result (IsKeyIndex calls.new) }
    ensures found { OnOk result (FindsCalls (rules_with (F.finds finder.now) rules.now)
        (map closed_view callers.now) (table_keys calls.old) (table_keys calls.new)) }
    ensures order { OnOk result (HasNoLevels (rules_view rules.now)
        → AddsUsesOf (UsesCalls (rules_with (F.finds finder.now) rules.now))
        (map closed_view callers.now) (table_keys calls.old) (table_keys calls.new)) }
    ensures next { IfOk result (λ next. map closed_view next ≡ drop (length (table_keys calls.old)) (table_keys calls.new)) }
    ensures fault { IfErr result (TellsOfOneCall (rules_with (F.finds finder.now) rules.now) (F.too_deep finder.now)
        (map closed_view callers.now)) }
{
    let known = calls.keys().len();
    add_round(alloc, finder, rules, callers, calls)?;
    Ok(copies_from(alloc, calls.keys(), known)?)
}

/// The calls that were found last, and those in which they stand.
#[derive(Drop)]
struct LastCalls {
    callers: List<ClosedSymbol>,
    next: List<ClosedSymbol>,
}

impl LastCalls {
    /// The first round, where no call is known: the callers are the rules that are no macros.
    fn first<F: Finder>(
        alloc: Global,
        finder: &F,
        grammar: &Grammar,
        rules: &Rules<'_>,
        calls: &mut KeyTable,
    ) -> Result<LastCalls, NormFault>
        requires table { IsTable rules.now }
        requires index { IsKeyIndex calls.old }
        requires none { table_keys calls.old ≡ [] }
        ensures index { OnOk result (IsKeyIndex calls.new) }
        ensures found { OnOk result (FindsCalls (rules_with (F.finds finder.now) rules.now)
            (plain_calls (rules_of (grammar_view grammar.now).items)) [] (table_keys calls.new)) }
        ensures order { OnOk result (HasNoLevels (rules_view rules.now)
            → AddsUsesOf (UsesCalls (rules_with (F.finds finder.now) rules.now))
            (plain_calls (rules_of (grammar_view grammar.now).items)) [] (table_keys calls.new)) }
        ensures callers { IfOk result (λ last. map closed_view last.callers
            ≡ plain_calls (rules_of (grammar_view grammar.now).items)) }
        ensures next { IfOk result (λ last. map closed_view last.next ≡ table_keys calls.new) }
        ensures fault { IfErr result (TellsOfOneCall (rules_with (F.finds finder.now) rules.now) (F.too_deep finder.now)
            (plain_calls (rules_of (grammar_view grammar.now).items))) }
    {
        let callers = plain_rules(alloc, grammar)?;
        let next = next_round(alloc, finder, rules, callers.as_slice(), calls)?;
        Ok(LastCalls { callers, next })
    }

    /// One round further: what was found last are the callers then.
    fn go_on<F: Finder>(
        &mut self,
        alloc: Global,
        finder: &F,
        rules: &Rules<'_>,
        calls: &mut KeyTable,
    ) -> Result<(), NormFault>
        requires table { IsTable rules.now }
        requires index { IsKeyIndex calls.old }
        ensures index { OnOk result (IsKeyIndex calls.new) }
        ensures found { OnOk result (FindsCalls (rules_with (F.finds finder.now) rules.now)
            (map closed_view self.old.next) (table_keys calls.old) (table_keys calls.new)) }
        ensures order { OnOk result (HasNoLevels (rules_view rules.now)
            → AddsUsesOf (UsesCalls (rules_with (F.finds finder.now) rules.now))
            (map closed_view self.old.next) (table_keys calls.old) (table_keys calls.new)) }
        ensures callers { OnOk result (self.new.callers ≡ self.old.next) }
        ensures next { OnOk result (map closed_view self.new.next ≡ drop (length (table_keys calls.old)) (table_keys calls.new)) }
        ensures fault { IfErr result (TellsOfOneCall (rules_with (F.finds finder.now) rules.now) (F.too_deep finder.now)
            (map closed_view self.old.next)) }
    {
        let later = next_round(alloc, finder, rules, self.next.as_slice(), calls)?;
        self.callers = mem::replace(&mut self.next, later);
        Ok(())
    }
}

/// The call, as one that is too deep, with its place in the first of the others in which it stands.
fn tell_deep_call<F: Finder>(
    alloc: Global,
    finder: &F,
    rules: &Rules<'_>,
    callers: &[ClosedSymbol],
    call: &ClosedSymbol,
) -> Result<FoundCalls, NormFault>
    requires table { IsTable rules.now }
    requires stands { (y : Closed) × Among (map closed_view callers.now) y
        × CallStandsIn (rules_with (F.finds finder.now) rules.now) y (closed_view call.now) }
    ensures found { IfOk result (IsToldAt (rules_with (F.finds finder.now) rules.now) (map closed_view callers.now)
        (closed_view call.now)) }
    ensures fault { IfErr result (TellsOfOneCall (rules_with (F.finds finder.now) rules.now) (F.too_deep finder.now)
        (map closed_view callers.now)) }
{
    match place_of_call(alloc, finder, rules, callers, call)? {
        Some(span) => Ok(FoundCalls::TooDeep(call.try_clone()?, span)),
        None => unreachable!(),
    }
}

/// The calls that the grammar makes, by least depth: round by round those that stand in what was found before, each where it is used
/// first. They are all, unless one is deeper than the limit, which is told with its place. That rests on rules without levels, of
/// which no two share a name and the features disable none.
///
/// # Errors
///
/// A condition is asked of something else than a quoted literal, or its pattern isn't read, or the search for a pattern is refused,
/// or memory runs out.
pub fn find_calls<F: Finder>(
    alloc: Global,
    finder: &F,
    grammar: &Grammar,
    rules: &Rules<'_>,
    limit: u16,
) -> Result<FoundCalls, NormFault>
    requires table { IsTable rules.now }
    requires of_grammar { grammar_view rules.now.grammar.now ≡ grammar_view grammar.now }
    ensures index { IfOk result HasCallIndex }
    ensures found { IfOk result (λ found.
        CanSearch (rules_with (F.finds finder.now) rules.now) rules.now.features.now (grammar_view grammar.now)
        → HasFoundCalls (rules_with (F.finds finder.now) rules.now) limit found) }
    ensures order { IfOk result (λ found.
        CanSearch (rules_with (F.finds finder.now) rules.now) rules.now.features.now (grammar_view grammar.now)
        → HasCallsByUse (rules_with (F.finds finder.now) rules.now) found) }
    ensures fault { IfErr result (λ fault.
        CanSearch (rules_with (F.finds finder.now) rules.now) rules.now.features.now (grammar_view grammar.now)
        → TellsOfMadeCall (rules_with (F.finds finder.now) rules.now) (F.too_deep finder.now) fault) }
    ensures condition { IfErr result (TellsOfAnyCall (rules_with (F.finds finder.now) rules.now) (F.too_deep finder.now)) }
{
    let mut calls = KeyTable::new(alloc);
    let mut last = LastCalls::first(alloc, finder, grammar, rules, &mut calls)?;
    let mut round = 0;
    while round < limit {
        last.go_on(alloc, finder, rules, &mut calls)?;
        round += 1;
    }
    match last.next.as_slice().split_first() {
        None => Ok(FoundCalls::All(calls)),
        Some((call, _)) => tell_deep_call(alloc, finder, rules, last.callers.as_slice(), call),
    }
}
