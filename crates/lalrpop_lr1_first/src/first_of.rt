//! First sets by number: of each symbol, by sweeps over the rules, there and back, and of each place.

ghost use Rattle.std.specs.Prelude.{◌≡◌, ◌++◌, ℕ, [], true, IfOk, OnOk, drop, length, map};
ghost use Rattle.lalrpop_sets.specs.AscendingLists.{Ascends, has};
ghost use Rattle.lalrpop_sets.specs.Tokens.{eof_number};
ghost use Rattle.lalrpop_lr1_first.specs.FirstNumbers.{
  AreSoundSets,
  AreSymbolFirsts,
  AreSymbolsBelow,
  AreTableSets,
  ArePlaceFirsts,
  TableSweepsTo,
  symbol_count,
  terminal_set,
};
ghost use Rattle.lalrpop_lr1_first.specs.Flows.{comes};
ghost use Rattle.lalrpop_lr1_first.specs.NumberedGrammars.{IsNumberTable};
ghost use Rattle.lalrpop_lr1_first.specs.Numbers.{says, set_of_number};
ghost use Rattle.lalrpop_lr1_first.specs.Tables.{IsTerminalSet, symbols_until};

use crate::numbered::Numbered;
use crate::place::Place;
use crate::walk::place_at;
use lalrpop_grammar_repr::TerminalSet;
use lalrpop_sets::{Token, TokenSet};
use std::alloc::{AllocError, Global};

/// What stands from a place on; nothing where the place is past the end.
fn places_from(places: &[Place], start: usize) -> &[Place]
    ensures { result.now ≡ drop start places.now }
{
    if start < places.len() {
        &places[start..]
    } else {
        &[]
    }
}

/// The first set of the symbols up to the end of the right side, by the sets of symbols.
fn first_of_rest(
    alloc: Global,
    terminals: &TerminalSet,
    sets: &[TokenSet],
    rest: &[Place],
) -> Result<TokenSet, AllocError>
    requires { AreSymbolsBelow (length sets.now) rest.now }
    ensures { IfOk result (λ first. (k : ℕ) → has first k ≡ says sets.now (eof_number terminals.now) (symbols_until rest.now) k) }
{
    let mut first = TokenSet::new(alloc, terminals)?;
    for place in rest {
        match *place {
            Place::Symbol(symbol) => {
                first.union_with(&sets[symbol])?;
                if !first.take_eof(terminals) {
                    return Ok(first);
                }
            }
            Place::End(_) => {
                first.insert_eof(terminals)?;
                return Ok(first);
            }
        }
    }
    first.insert_eof(terminals)?;
    Ok(first)
}

/// Joins the first set of each rule's right side into its left side's, from the first rule on or from the last, and says whether
/// something came.
fn sweep(
    alloc: Global,
    table: &Numbered<'_>,
    forward: bool,
    sets: &mut Vec<TokenSet>,
) -> Result<bool, AllocError>
    requires table { IsNumberTable table.now }
    requires sets { AreTableSets table.now sets.old.items }
    ensures { IfOk result (λ changed. TableSweepsTo table.now forward (length table.now.rules.items)
        sets.old.items sets.new.items changed) }
{
    let mut changed = false;
    let rules = table.rules.as_slice();
    for step in 0..rules.len() {
        let number = place_at(rules.len(), step, forward);
        let rule = &rules[number];
        let rest = places_from(table.places.as_slice(), rule.start);
        let first = first_of_rest(alloc, table.terminals, sets.as_slice(), rest)?;
        if sets[rule.left].union_with(&first)? {
            changed = true;
        }
    }
    Ok(changed)
}

/// As many sets without tokens.
fn empty_sets(
    alloc: Global,
    terminals: &TerminalSet,
    count: usize,
) -> Result<Vec<TokenSet>, AllocError>
    ensures count { IfOk result (λ sets. length sets.items ≡ count) }
    ensures empty { IfOk result (λ sets. (s : ℕ) → set_of_number sets.items s ≡ []) }
{
    let mut sets = Vec::new(alloc);
    for _ in 0..count {
        sets.push(TokenSet::new(alloc, terminals)?)?;
    }
    Ok(sets)
}

/// Adds the set of each terminal.
fn add_terminal_sets(
    alloc: Global,
    terminals: &TerminalSet,
    sets: &mut Vec<TokenSet>,
) -> Result<(), AllocError>
    ensures { OnOk result (sets.new.items ≡ sets.old.items ++ map (terminal_set terminals.now) terminals.now.all) }
{
    for terminal in terminals.all.as_slice() {
        let token = Token::Terminal(terminal.try_clone()?);
        sets.push(TokenSet::from_token(alloc, &token, terminals)?)?;
    }
    Ok(())
}

/// The first set of each symbol, by its number. Sweeps go back and there in turn, so that names which lead to the next one, in their
/// order or against it, take two.
pub(crate) fn symbol_firsts(
    alloc: Global,
    table: &Numbered<'_>,
) -> Result<Vec<TokenSet>, AllocError>
    requires { IsNumberTable table.now }
    ensures { IfOk result (λ sets. AreSymbolFirsts table.now sets.items) }
{
    let mut sets = empty_sets(alloc, table.terminals, table.names.len())?;
    add_terminal_sets(alloc, table.terminals, &mut sets)?;
    let mut changed = true;
    let mut forward = false;
    while changed {
        changed = sweep(alloc, table, forward, &mut sets)?;
        forward = !forward;
    }
    Ok(sets)
}

/// The first set of what stands from each place on, and of nothing behind the last place.
pub(crate) fn place_firsts(
    alloc: Global,
    table: &Numbered<'_>,
    sets: &[TokenSet],
) -> Result<Vec<TokenSet>, AllocError>
    requires table { IsNumberTable table.now }
    requires sets { AreTableSets table.now sets.now }
    ensures { IfOk result (λ rests. ArePlaceFirsts table.now sets.now rests.items) }
{
    let mut rests = Vec::new(alloc);
    for place in 0..table.places.len() + 1 {
        let rest = places_from(table.places.as_slice(), place);
        rests.push(first_of_rest(alloc, table.terminals, sets, rest)?)?;
    }
    Ok(rests)
}

/// The first set with what may follow in place of the end.
pub(crate) fn first_before(
    first: TokenSet,
    terminals: &TerminalSet,
    lookahead: &TokenSet,
) -> Result<TokenSet, AllocError>
    ensures joined { IfOk result (λ set. (k : ℕ) → has set k ≡ comes true (eof_number terminals.now) first lookahead.now k) }
    ensures ordered { IfOk result (λ set. Ascends set) }
{
    let mut set = first;
    if set.take_eof(terminals) {
        set.union_with(lookahead)?;
    }
    Ok(set)
}
