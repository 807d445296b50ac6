//! Lookaheads: what may follow an item or a reduction.

use crate::conflict::Conflict;
use crate::state::State;
use lalrpop_grammar_repr::{Production, TerminalSet};
use lalrpop_sets::{Collection, Token};
use std::alloc::{AllocError, Global};
use std::fmt::{self, Debug, Formatter, Write};
use std::hash::Hash;

/// What may follow: nothing is said of it, or it is a set of tokens.
pub trait Lookahead: Collection<Item = Self> + Debug + Eq + Ord + Hash {
    ghost use Rattle.std.specs.Prelude.{◌≡◌, ℕ, IfOk, List, Option};
    ghost use Rattle.std.specs.Fmt.{DisplaysOnOk};
    ghost use Rattle.lalrpop_grammar_repr.specs.declared.terminal_set.TerminalSet.{TerminalSet};
    ghost use Rattle.lalrpop_lr1_theory.specs.States.{LookaheadSet};
    ghost use Rattle.lalrpop_lr1_core.specs.declared.conflict.Conflict.{Conflict};
    ghost use Rattle.lalrpop_lr1_core.specs.declared.state.State.{State};

    // What the theory of tables sees of it, over these terminals.
    ghost look: { TerminalSet → Self → LookaheadSet };

    // What it adds to an item's text; `None` where no clause says.
    ghost suffix: { Self → Option (List ℕ) };

    // The conflicts of a state over these terminals, in order.
    ghost conflicts_in: { TerminalSet → State Self → List (Conflict Self) };

    /// Writes what stands behind an item.
    fn fmt_as_item_suffix<W: Write>(&self, f: &mut Formatter<W>) -> fmt::Result
        ensures { DisplaysOnOk W.write_str_gives f.old result (suffix self.now) f.new };

    /// The conflicts of a state: each reduction with each other action that it can't stand beside.
    fn conflicts<'g>(
        alloc: Global,
        terminals: &TerminalSet,
        state: &State<'g, Self>,
    ) -> Result<Vec<Conflict<'g, Self>>, AllocError>
        ensures { IfOk result (λ conflicts. conflicts.items ≡ conflicts_in terminals.now state.now) };

    /// A copy that equals it.
    fn try_clone(&self) -> Result<Self, AllocError>
        ensures { IfOk result (λ copy. copy ≡ self.now) };
}

/// A lookahead by which a text is read.
pub trait LookaheadInterpret: Lookahead {
    ghost use Rattle.std.specs.Prelude.{◌≡◌, Option};
    ghost use Rattle.std.specs.Borrow.{Bor};
    ghost use Rattle.lalrpop_grammar_repr.specs.declared.production.Production.{Production};
    ghost use Rattle.lalrpop_grammar_repr.specs.declared.terminal_set.TerminalSet.{TerminalSet};
    ghost use Rattle.lalrpop_sets.specs.declared.token.Token.{Token};
    ghost use Rattle.lalrpop_lr1_core.specs.declared.state.State.{State};

    // The production by which a state over these terminals reduces before a token.
    ghost reduction_before: { TerminalSet → State Self → Token → Option (Bor Production) };

    /// The production by which a state reduces before the token: the first that may.
    fn reduction<'g>(
        state: &State<'g, Self>,
        token: &Token,
        terminals: &TerminalSet,
    ) -> Option<&'g Production>
        ensures { result ≡ reduction_before terminals.now state.now token.now };
}
