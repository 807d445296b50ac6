//! What is known of a grammar once nothing is wrong with it.

ghost use Rattle.std.specs.Prelude.{◌≡◌, ◌++◌, IfOk, length};
ghost use Rattle.std.specs.List.Sorted.{IsStrictlySortedBy};
ghost use Rattle.lalrpop_grammar.specs.Views.{grammar_view};
ghost use Rattle.lalrpop_grammar_symbols.specs.contracts.terminal.TerminalStringOrd.TheImpl as terminal_order;
ghost use Rattle.lalrpop_grammar_rules.specs.Search.{finds, is_too_deep};
ghost use Rattle.lalrpop_lr1_first.specs.NumberedGrammars.{HasItsTerminals};
ghost use Rattle.lalrpop_norm_theory.specs.Premises.{IsReadGrammar};
ghost use Rattle.lalrpop_run_prepare.specs.PreparedGrammars.{AreLabelsOf, HasNamedProductions, IsPrepared, MayBeParsedFrom};

use lalrpop_grammar::{Atom, Grammar, Origin};
use lalrpop_grammar_repr::{Grammar as LoweredGrammar, Session};
use lalrpop_grammar_symbols::{List, NonterminalString};
use lalrpop_lexer_scan::Scanner;
use lalrpop_run_trees::flat_labels::LabelTable;
use std::alloc::{AllocError, Global};
use std::marker::Model;

/// A written grammar in which nothing is wrong, for one of its starts: its plain productions, before and after inlining, with the
/// written choices that those before stand for, and the scanner of its tokens.
#[derive(Drop)]
pub struct Prepared {
    pub(crate) written: Grammar,
    pub(crate) session: Session,
    // The rule to start from, and its start among the plain productions.
    pub(crate) start: Atom,
    pub(crate) start_name: NonterminalString,
    pub(crate) lowered: LoweredGrammar,
    pub(crate) origins: List<Origin>,
    pub(crate) scanner: Scanner,
    pub(crate) expansion: LoweredGrammar,
}

impl Model for Prepared {
    ghost use Rattle.std.specs.Coded.{codes};
    ghost use Rattle.lalrpop_grammar.specs.contracts.grammar.Grammar as written_grammar;
    ghost use Rattle.lalrpop_grammar.specs.contracts.origin.Origin as written_choice;
    ghost use Rattle.lalrpop_grammar_repr.specs.contracts.grammar.Grammar as plain_grammar;
    ghost use Rattle.lalrpop_grammar_rules.specs.Search.{finds, is_too_deep};
    ghost use Rattle.lalrpop_run_prepare.specs.PreparedGrammars.{IsPreparedWhereRead, PreparedGrammar};

    ghost Value = { PreparedGrammar };

    ghost coded = { Prim.hlevel (codes, written_grammar.the_row.coded, written_choice.the_row.coded, plain_grammar.the_row.coded) };

    ghost view = { λ p. record {
      written = p.written;
      session = p.session;
      start = p.start;
      start_name = p.start_name;
      lowered = p.lowered;
      origins = p.origins;
      scanner = p.scanner;
      expansion = p.expansion;
    } };

    ghost invariant = { λ p. IsPreparedWhereRead finds is_too_deep (record {
      written = p.written;
      session = p.session;
      start = p.start;
      start_name = p.start_name;
      lowered = p.lowered;
      origins = p.origins;
      scanner = p.scanner;
      expansion = p.expansion;
    }) };
}

impl Prepared {
    /// The grammar's plain productions with its inlined rules inlined.
    pub fn expansion(&self) -> &LoweredGrammar
        ensures { result.now ≡ self.now.expansion }
    {
        &self.expansion
    }

    /// The grammar's plain productions before its inlined rules are inlined.
    pub fn lowered(&self) -> &LoweredGrammar
        ensures { result.now ≡ self.now.lowered }
    {
        &self.lowered
    }

    /// The productions after inlining by the choices before it that they stand for, which are sought anew by each call. A choice is given
    /// for each action that was there before.
    ///
    /// # Errors
    ///
    /// Memory is refused.
    pub fn labels(&self, alloc: Global) -> Result<LabelTable, AllocError>
        ensures { IfOk result (AreLabelsOf self.now.expansion (length self.now.origins)) }
    {
        let labels = LabelTable::new(alloc, &self.expansion, self.origins.len())?;
        Ok(labels)
    }

    /// For the number of each action of the plain productions before inlining the written choice that its production stands for.
    pub fn origins(&self) -> &[Origin]
        ensures { result.now ≡ self.now.origins }
    {
        self.origins.as_slice()
    }

    /// The rule to start from.
    pub fn start(&self) -> &Atom
        ensures { result.now ≡ self.now.start }
    {
        &self.start
    }

    /// The start's name among the plain productions: a nonterminal whose one production is the rule to start from.
    pub fn start_name(&self) -> &NonterminalString
        ensures { result.now ≡ self.now.start_name }
    {
        &self.start_name
    }

    /// The scanner of the grammar's tokens.
    pub fn scanner(&self) -> &Scanner
        ensures { result.now ≡ self.now.scanner }
    {
        &self.scanner
    }

    /// The grammar as it is written.
    pub fn grammar(&self) -> &Grammar
        ensures { result.now ≡ self.now.written }
    {
        &self.written
    }

    /// What is known of a prepared grammar: a law for proofs.
    pub fn known(&self)
        ensures prepared { IsReadGrammar (grammar_view self.now.written) → IsPrepared finds is_too_deep self.now }
        ensures prefixed { self.now.start_name.0 ≡ self.now.written.prefix ++ self.now.start }
        ensures terminals { HasItsTerminals self.now.expansion }
        ensures ascending { IsStrictlySortedBy (terminal_order.ghosts).cmp self.now.expansion.terminals.all }
        ensures named { HasNamedProductions self.now.expansion }
        ensures parsed { MayBeParsedFrom self.now.expansion self.now.start_name }
    {
        // the prover takes what holds of the parts from the first that is named
        let _ = &self.written;
    }
}
