//! Parsing within a limit.

ghost use Rattle.std.specs.Prelude.{◌≡◌, [], List, map};
ghost use Rattle.lalrpop_grammar_symbols.specs.Symbols.{Text};
ghost use Rattle.lalrpop_lr1_theory.specs.CheckedStates.{AreCheckedStates, IsStartAlone};
ghost use Rattle.lalrpop_lr1_theory.specs.Productions.{Production};
ghost use Rattle.lalrpop_lr1_theory.specs.Spans.{none_at};
ghost use Rattle.lalrpop_lr1_theory.specs.States.{State};
ghost use Rattle.lalrpop_lr1_core.specs.Views.{lr_state_view, token_lookahead};
ghost use Rattle.lalrpop_lr1_interpret.specs.Columns.{ArePlacesOf, TellNumbers};
ghost use Rattle.lalrpop_lr1_interpret.specs.Ends.{MayRun};
ghost use Rattle.lalrpop_lr1_interpret.specs.Parses.{AreParsable, IsRightParse, IsRightParseOnto, IsStopOf, TellsLimit};
ghost use Rattle.lalrpop_lr1_interpret.specs.Tables.{IsTableOf};
ghost use Rattle.lalrpop_lr1_interpret.specs.declared.parse.stop.Stop.TheVariants.{Memory};

use crate::parse::action_table::ActionTable;
use crate::parse::columns::Columns;
use crate::parse::expanded_tree::ExpandedTree;
use crate::parse::machine::{Halt, run};
use crate::parse::stop::Stop;
use crate::parse::token_numbers::TokenNumbers;
use crate::parse::tree_list::TreeList;
use crate::parse::tree_stack::TreeStack;
use lalrpop_grammar::ScanToken;
use lalrpop_grammar_repr::TerminalSet;
use lalrpop_lr1_core::Lr1State;
use std::alloc::{AllocError, AllocFailed, Global};

impl From<AllocError> for Stop {
    ghost from_gives = { λ _ stop. stop ≡ Memory };

    fn from(_: AllocError) -> Stop {
        Stop::Memory
    }
}

impl<T: Drop> From<AllocFailed<T>> for Stop {
    ghost from_gives = { λ _ stop. stop ≡ Memory };

    fn from(_: AllocFailed<T>) -> Stop {
        Stop::Memory
    }
}

/// What the machine's halt says of so many tokens.
fn stop_of(halt: Halt, count: usize) -> Stop
    ensures { IsStopOf count halt result }
{
    match halt {
        Halt::Stuck { at, state: _ } if at < count => Stop::Token(at),
        Halt::Stuck { at: _, state: _ } => Stop::End,
        Halt::Limit => Stop::Limit,
        Halt::Memory => Stop::Memory,
    }
}

impl<'g> ActionTable<'g> {
    /// Parses the tokens onto the stack, on which nothing was made before: it then stands for the tree of the tokens, which has at
    /// most `limit` leaves and nodes. What the stack was given stays.
    ///
    /// # Errors
    ///
    /// The first token with which they begin no sentence, or that the end is wrong, or that more than `limit` moves would be made, or
    /// that memory ran out. `Limit` comes exactly where the states make more than `limit` moves over the tokens.
    pub fn parse_onto<S: TreeStack<'g>>(
        &self,
        alloc: Global,
        tokens: &[ScanToken<'_>],
        limit: u64,
        stack: &mut S,
    ) -> Result<(), Stop>
        requires checked { MayRun self.now }
        requires empty { S.stands stack.old none_at [] }
        ensures right { (grammar : List Production) (s : Text) (states : List State) → IsStartAlone grammar s
            → AreCheckedStates grammar s states → IsTableOf self.now states
            → IsRightParseOnto grammar s tokens.now limit (S.stands stack.new) result }
        ensures limit { (states : List State) → IsTableOf self.now states → TellsLimit states tokens.now limit result }
        ensures same { S.given stack.new ≡ S.given stack.old }
    {
        self.parse_numbered(alloc, tokens, TokenNumbers::ByTerminal, limit, stack)
    }

    /// Parses the tokens onto the stack as `parse_onto` does, and looks no terminal up: for each token `places` tells at which place its
    /// terminal's column stands.
    ///
    /// # Errors
    ///
    /// Those of `parse_onto`.
    pub fn parse_by_columns<S: TreeStack<'g>>(
        &self,
        alloc: Global,
        tokens: &[ScanToken<'_>],
        places: &[usize],
        columns: &Columns,
        limit: u64,
        stack: &mut S,
    ) -> Result<(), Stop>
        requires checked { MayRun self.now }
        requires places { ArePlacesOf self.now columns.now.numbers.items tokens.now places.now }
        requires empty { S.stands stack.old none_at [] }
        ensures right { (grammar : List Production) (s : Text) (states : List State) → IsStartAlone grammar s
            → AreCheckedStates grammar s states → IsTableOf self.now states
            → IsRightParseOnto grammar s tokens.now limit (S.stands stack.new) result }
        ensures limit { (states : List State) → IsTableOf self.now states → TellsLimit states tokens.now limit result }
        ensures same { S.given stack.new ≡ S.given stack.old }
    {
        let found = TokenNumbers::ByColumn { places, columns };
        self.parse_numbered(alloc, tokens, found, limit, stack)
    }

    /// Parses the tokens, whose numbers are so found, onto the stack.
    fn parse_numbered<S: TreeStack<'g>>(
        &self,
        alloc: Global,
        tokens: &[ScanToken<'_>],
        found: TokenNumbers<'_>,
        limit: u64,
        stack: &mut S,
    ) -> Result<(), Stop>
        requires checked { MayRun self.now }
        requires found { TellNumbers found self.now tokens.now }
        requires empty { S.stands stack.old none_at [] }
        ensures right { (grammar : List Production) (s : Text) (states : List State) → IsStartAlone grammar s
            → AreCheckedStates grammar s states → IsTableOf self.now states
            → IsRightParseOnto grammar s tokens.now limit (S.stands stack.new) result }
        ensures limit { (states : List State) → IsTableOf self.now states → TellsLimit states tokens.now limit result }
        ensures same { S.given stack.new ≡ S.given stack.old }
    {
        match run(alloc, self, tokens, found, limit, true, stack) {
            Ok(_) => Ok(()),
            Err(halt) => Err(stop_of(halt, tokens.len())),
        }
    }

    /// The tree of the tokens, with at most `limit` leaves and nodes; or the first token with which they begin no sentence, or that
    /// the end is wrong, or that more than `limit` moves would be made, exactly where they would.
    pub fn parse(
        &self,
        alloc: Global,
        tokens: &[ScanToken<'_>],
        limit: u64,
    ) -> Result<ExpandedTree<'g>, Stop>
        requires { MayRun self.now }
        ensures right { (grammar : List Production) (s : Text) (states : List State) → IsStartAlone grammar s
            → AreCheckedStates grammar s states → IsTableOf self.now states → IsRightParse grammar s tokens.now limit result }
        ensures limit { (states : List State) → IsTableOf self.now states → TellsLimit states tokens.now limit result }
    {
        let mut stack = TreeList::new(alloc);
        self.parse_onto(alloc, tokens, limit, &mut stack)?;
        Ok(stack.into_tree())
    }
}

/// The tree of the tokens by the states, whose sets of tokens are over these terminals: it has at most `limit` leaves and nodes, and
/// the tokens' spans at its leaves. Or the first token with which they begin no sentence, or that the end is wrong, or that more than
/// `limit` moves would be made, exactly where they would.
pub fn parse_limited<'g>(
    alloc: Global,
    states: &[Lr1State<'g>],
    terminals: &TerminalSet,
    tokens: &[ScanToken<'_>],
    limit: u64,
) -> Result<ExpandedTree<'g>, Stop>
    requires { AreParsable terminals.now states.now }
    ensures right { (grammar : List Production) (s : Text) → IsStartAlone grammar s
        → AreCheckedStates grammar s (map (lr_state_view (token_lookahead terminals.now)) states.now)
        → IsRightParse grammar s tokens.now limit result }
    ensures limit { TellsLimit (map (lr_state_view (token_lookahead terminals.now)) states.now) tokens.now limit result }
{
    let table = ActionTable::new(alloc, states, terminals)?;
    table.parse(alloc, tokens, limit)
}
