//! First sets that are asked for by name.

ghost use Rattle.std.specs.Prelude.{◌≡◌, ◌≤◌, ◌||◌, ℕ, IfOk, OnOk, length, map};
ghost use Rattle.std.specs.List.Sorted.{IsStrictlySortedBy};
ghost use Rattle.lalrpop_grammar_symbols.specs.contracts.names.NonterminalStringOrd.TheImpl as names_order;
ghost use Rattle.lalrpop_sets.specs.AscendingLists.{has, Ascends};
ghost use Rattle.lalrpop_sets.specs.Tokens.{eof_number};
ghost use Rattle.lalrpop_lr1_core.specs.Views.{production_symbol_view};
ghost use Rattle.lalrpop_lr1_first.specs.FirstSetsOf.{
  AreFirstSetsOf,
  IsFirstSet,
  IsFirstSetBefore,
  named_from,
  set_at_name,
  set_of_symbol,
};
ghost use Rattle.lalrpop_lr1_first.specs.Listings.{lent};
ghost use Rattle.lalrpop_lr1_first.specs.NumberedGrammars.{HasItsTerminals};
ghost use Rattle.lalrpop_lr1_first.specs.Numbers.{says_by};

use crate::first_of::{first_before, symbol_firsts};
use crate::numbered::Numbered;
use lalrpop_grammar_repr::{Grammar, Map, Symbol, TerminalSet};
use lalrpop_grammar_symbols::NonterminalString;
use lalrpop_sets::{Token, TokenSet};
use std::alloc::{AllocError, Global};
use std::marker::Model;

/// The first sets of a grammar's nonterminals: what can come first in what each derives, and the end where it derives nothing.
#[derive(Drop)]
pub struct FirstSets {
    sets: Map<NonterminalString, TokenSet>,
}

impl Model for FirstSets {
    ghost use Rattle.std.specs.Prelude.{ℕ, List};
    ghost use Rattle.lalrpop_grammar_symbols.specs.declared.names.NonterminalString.{NonterminalString};

    ghost Value = { List (NonterminalString × List ℕ) };

    ghost view = { λ it. it.sets };
}

impl FirstSets {
    ghost use Rattle.lalrpop_grammar_repr.specs.declared.grammar.Grammar.{Grammar};

    /// The first sets of the grammar. Its terminals are numbered by their places, and each terminal on a right side is one of
    /// them.
    pub fn new(alloc: Global, grammar: &Grammar) -> Result<FirstSets, AllocError>
        requires { HasItsTerminals grammar.now }
        ensures { IfOk result (λ firsts. AreFirstSetsOf grammar.now firsts) }
    {
        let table = Numbered::new(alloc, grammar)?;
        let sets = symbol_firsts(alloc, &table)?;
        let sets = named_sets(alloc, table.names.as_slice(), sets.as_slice())?;
        Ok(FirstSets { sets })
    }

    /// The terminals that can begin what the symbols derive, and the end where they derive nothing. The terminals are those of
    /// the grammar; a nonterminal that it doesn't have derives nothing at all.
    pub fn first0(
        &self,
        alloc: Global,
        terminals: &TerminalSet,
        symbols: &[Symbol],
    ) -> Result<TokenSet, AllocError>
        ensures first { IfOk result (λ set. (g : Grammar) → AreFirstSetsOf g self.now → terminals.now ≡ g.terminals →
            IsFirstSet g (map production_symbol_view symbols.now) set) }
        ensures ordered { IfOk result (λ set. Ascends set) }
    {
        let first = first_of_named(alloc, &self.sets, terminals, symbols)?;
        Ok(first)
    }

    /// The same, with what may follow in place of the end.
    pub fn first1(
        &self,
        alloc: Global,
        terminals: &TerminalSet,
        symbols: &[Symbol],
        lookahead: &TokenSet,
    ) -> Result<TokenSet, AllocError>
        ensures first { IfOk result (λ set. (g : Grammar) → AreFirstSetsOf g self.now → terminals.now ≡ g.terminals →
            IsFirstSetBefore g (map production_symbol_view symbols.now) lookahead.now set) }
        ensures ordered { IfOk result (λ set. Ascends set) }
    {
        let first = self.first0(alloc, terminals, symbols)?;
        let set = first_before(first, terminals, lookahead)?;
        Ok(set)
    }

    /// A copy that equals it.
    pub fn try_clone(&self, alloc: Global) -> Result<FirstSets, AllocError>
        ensures { IfOk result (λ copy. copy ≡ self.now) }
    {
        let mut sets = Map::new(alloc);
        for (name, set) in self.sets.iter() {
            sets.insert(name.try_clone()?, set.try_clone()?)?;
        }
        Ok(FirstSets { sets })
    }
}

/// The sets of the names, which are in order, each under its name.
fn named_sets(
    alloc: Global,
    names: &[&NonterminalString],
    sets: &[TokenSet],
) -> Result<Map<NonterminalString, TokenSet>, AllocError>
    requires ordered { IsStrictlySortedBy (names_order.ghosts).cmp (lent names.now) }
    requires enough { length names.now ≤ length sets.now }
    ensures { IfOk result (λ named. named ≡ named_from 0 (lent names.now) sets.now) }
{
    let mut named = Map::new(alloc);
    for number in 0..names.len() {
        named.insert(names[number].try_clone()?, sets[number].try_clone()?)?;
    }
    Ok(named)
}

/// What the sets say of the symbols.
fn first_of_named(
    alloc: Global,
    sets: &Map<NonterminalString, TokenSet>,
    terminals: &TerminalSet,
    symbols: &[Symbol],
) -> Result<TokenSet, AllocError>
    ensures said { IfOk result (λ first. (k : ℕ) → has first k
        ≡ says_by (set_of_symbol terminals.now sets.now) (eof_number terminals.now) symbols.now k) }
    ensures ordered { IfOk result (λ first. Ascends first) }
{
    let mut first = TokenSet::new(alloc, terminals)?;
    for symbol in symbols {
        add_set_of(sets, terminals, symbol, &mut first)?;
        if !first.take_eof(terminals) {
            return Ok(first);
        }
    }
    first.insert_eof(terminals)?;
    Ok(first)
}

/// Adds the set of the symbol.
fn add_set_of(
    sets: &Map<NonterminalString, TokenSet>,
    terminals: &TerminalSet,
    symbol: &Symbol,
    first: &mut TokenSet,
) -> Result<(), AllocError>
    ensures { OnOk result ((k : ℕ) → has first.new k ≡ (has first.old k || has (set_of_symbol terminals.now sets.now symbol.now) k)) }
{
    match symbol {
        Symbol::Terminal(terminal) => {
            first.insert(&Token::Terminal(terminal.try_clone()?), terminals)?;
            Ok(())
        }
        Symbol::Nonterminal(name) => match sets.get(name) {
            Some(set) => {
                first.union_with(set)?;
                Ok(())
            }
            None => Ok(()),
        },
    }
}
