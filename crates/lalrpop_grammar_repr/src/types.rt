//! The types of a grammar's terminals and nonterminals.

ghost use Rattle.std.specs.Prelude.{◌≡◌, [], IfOk, OnOk, OnErr, None, Some, is_some, true};
ghost use Rattle.lalrpop_grammar_repr.specs.Maps.{at_name, at_terminal, with_name, with_terminal};
ghost use Rattle.lalrpop_grammar_repr.specs.SymbolTypes.{type_of_symbol};
ghost use Rattle.std.specs.Option.{option_copied};

use crate::map::Map;
use crate::production::Symbol;
use lalrpop_grammar::{NonterminalString, TerminalString, TypeRepr};
use std::alloc::{AllocError, Global};

/// Which type each terminal and each nonterminal has.
#[derive(Debug)]
pub struct Types {
    /// Those of terminals.
    pub terminal_types: Map<TerminalString, TypeRepr>,
    /// Those of nonterminals.
    pub nonterminal_types: Map<NonterminalString, TypeRepr>,
}

impl Drop for Types {
    /// Drops what it holds: where it is owned, that is one call.
    fn drop(self) {
        let Types {
            terminal_types: _terminal_types,
            nonterminal_types: _nonterminal_types,
        } = self;
    }
}

impl Types {
    /// A table without entries.
    pub fn new(alloc: Global) -> Types
        ensures terminals { result.terminal_types ≡ [] }
        ensures nonterminals { result.nonterminal_types ≡ [] }
    {
        Types {
            terminal_types: Map::new(alloc),
            nonterminal_types: Map::new(alloc),
        }
    }

    /// Puts a nonterminal's type into the table, which has none for it. Where memory is refused, the table is as before.
    pub fn add_type(
        &mut self,
        nonterminal: NonterminalString,
        ty: TypeRepr,
    ) -> Result<(), AllocError>
        requires { at_name nonterminal self.old.nonterminal_types ≡ None }
        ensures ok { OnOk result (self.new.nonterminal_types ≡ with_name self.old.nonterminal_types nonterminal ty) }
        ensures err { OnErr result (self.new.nonterminal_types ≡ self.old.nonterminal_types) }
        ensures others { self.new.terminal_types ≡ self.old.terminal_types }
    {
        self.nonterminal_types.insert(nonterminal, ty)
    }

    /// Puts a terminal's type into the table, which has none for it. Where memory is refused, the table is as before.
    pub fn add_term_type(
        &mut self,
        terminal: TerminalString,
        ty: TypeRepr,
    ) -> Result<(), AllocError>
        requires { at_terminal terminal self.old.terminal_types ≡ None }
        ensures ok { OnOk result (self.new.terminal_types ≡ with_terminal self.old.terminal_types terminal ty) }
        ensures err { OnErr result (self.new.terminal_types ≡ self.old.terminal_types) }
        ensures others { self.new.nonterminal_types ≡ self.old.nonterminal_types }
    {
        self.terminal_types.insert(terminal, ty)
    }

    /// A nonterminal's type, where the table has one.
    pub fn lookup_nonterminal_type(&self, nonterminal: &NonterminalString) -> Option<&TypeRepr>
        ensures { option_copied result ≡ at_name nonterminal.now self.now.nonterminal_types }
    {
        self.nonterminal_types.get(nonterminal)
    }

    /// A nonterminal's type. The table has one.
    pub fn nonterminal_type(&self, nonterminal: &NonterminalString) -> &TypeRepr
        requires { is_some (at_name nonterminal.now self.now.nonterminal_types) ≡ true }
        ensures { Some result.now ≡ at_name nonterminal.now self.now.nonterminal_types }
    {
        self.nonterminal_types.get(nonterminal).unwrap()
    }

    /// A terminal's type. The table has one.
    pub fn terminal_type(&self, terminal: &TerminalString) -> &TypeRepr
        requires { is_some (at_terminal terminal.now self.now.terminal_types) ≡ true }
        ensures { Some result.now ≡ at_terminal terminal.now self.now.terminal_types }
    {
        self.terminal_types.get(terminal).unwrap()
    }

    /// A copy that equals it.
    pub fn try_clone(&self, alloc: Global) -> Result<Types, AllocError>
        ensures { IfOk result (λ copy. copy ≡ self.now) }
    {
        Ok(Types {
            terminal_types: self.terminal_types.try_clone(alloc)?,
            nonterminal_types: self.nonterminal_types.try_clone(alloc)?,
        })
    }
}

impl Symbol {
    /// Its type. The table has one.
    pub fn ty<'types>(&self, types: &'types Types) -> &'types TypeRepr
        requires { is_some (type_of_symbol self.now types.now) ≡ true }
        ensures { Some result.now ≡ type_of_symbol self.now types.now }
    {
        match self {
            Symbol::Nonterminal(name) => types.nonterminal_type(name),
            Symbol::Terminal(terminal) => types.terminal_type(terminal),
        }
    }
}
