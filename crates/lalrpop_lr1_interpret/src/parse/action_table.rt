//! Tables of actions: what states do, by numbers of terminals, of nonterminals and of states.

ghost use Rattle.std.specs.Prelude.{◌≡◌, ◌<◌, ◌≤◌, ℕ, Some, IfNone, IfSome, drop, length, map, slice_get};
ghost use Rattle.lalrpop_grammar_symbols.specs.Views.{terminal_view};
ghost use Rattle.lalrpop_lr1_theory.specs.Productions.{first};
ghost use Rattle.lalrpop_lr1_interpret.specs.Tables.{AreRowsWithin, HasAction, HasEnd, HasGoto, IsActionBefore, IsNextBy, IsPlaceIn};
ghost use Rattle.lalrpop_lr1_interpret.specs.declared.parse.table_row.NumberedProduction.{NumberedProduction};
ghost use Rattle.lalrpop_lr1_interpret.specs.declared.parse.table_row.TableAction.{TableAction};

use crate::parse::table_row::{NextNumber, NumberedProduction, PlaceRange, TableAction, TableRow};
use indexmap::IndexSet;
use lalrpop_grammar::ScanToken;
use lalrpop_grammar_symbols::{NonterminalString, TerminalString};

/// What states do, by numbers: for each state, what it does before terminals, by what it reduces before the end, and where
/// nonterminals lead. It is made once, from states (`ActionTable::new`), and serves without them.
#[derive(Drop)]
pub struct ActionTable<'g> {
    // The terminals and the nonterminals, each at its number.
    pub(crate) terminals: IndexSet<TerminalString>,
    pub(crate) nonterminals: IndexSet<NonterminalString>,
    // One for each state.
    pub(crate) rows: Vec<TableRow>,
    // Numbers of terminals, and beside each what is done before it.
    pub(crate) keys: Vec<usize>,
    pub(crate) actions: Vec<TableAction<'g>>,
    pub(crate) ends: Vec<NumberedProduction<'g>>,
    // Numbers of nonterminals, and beside each the state to which it leads.
    pub(crate) goto_keys: Vec<usize>,
    pub(crate) targets: Vec<usize>,
}

/// The first place in the part of the list at which the key stands.
fn place_of(keys: &[usize], part: PlaceRange, key: usize) -> Option<usize>
    requires { part.past ≤ length keys.now }
    ensures found { IfSome result (λ place. IsPlaceIn part place × (slice_get keys.now place ≡ Some key)) }
    ensures none { IfNone result ((place : ℕ) → IsPlaceIn part place → slice_get keys.now place ≡ Some key → ⊥) }
{
    for place in part.first..part.past {
        if keys[place] == key {
            return Some(place);
        }
    }
    None
}

impl<'g> ActionTable<'g> {
    /// What the state does before the terminal with this number.
    fn action(&self, state: usize, key: usize) -> Option<TableAction<'g>>
        requires within { AreRowsWithin self.now }
        requires there { state < length self.now.rows.items }
        ensures found { IfSome result (HasAction self.now state key) }
        ensures none { IfNone result ((a : TableAction) → HasAction self.now state key a → ⊥) }
    {
        let row = self.rows[state];
        match place_of(self.keys.as_slice(), row.actions, key) {
            Some(place) => Some(self.actions[place]),
            None => None,
        }
    }

    /// By what the state reduces before the end.
    fn end(&self, state: usize) -> Option<NumberedProduction<'g>>
        requires within { AreRowsWithin self.now }
        requires there { state < length self.now.rows.items }
        ensures found { IfSome result (HasEnd self.now state) }
        ensures none { IfNone result ((r : NumberedProduction) → HasEnd self.now state r → ⊥) }
    {
        let part = self.rows[state].ends;
        if part.first < part.past {
            Some(self.ends[part.first])
        } else {
            None
        }
    }

    /// Where the nonterminal with this number leads from the state.
    pub(crate) fn goto(&self, state: usize, nonterminal: usize) -> Option<usize>
        requires within { AreRowsWithin self.now }
        requires there { state < length self.now.rows.items }
        ensures found { IfSome result (HasGoto self.now state nonterminal) }
        ensures none { IfNone result ((m : ℕ) → HasGoto self.now state nonterminal m → ⊥) }
    {
        let row = self.rows[state];
        match place_of(self.goto_keys.as_slice(), row.gotos, nonterminal) {
            Some(place) => Some(self.targets[place]),
            None => None,
        }
    }

    /// What the state does before what comes next.
    pub(crate) fn action_before(&self, state: usize, next: NextNumber) -> Option<TableAction<'g>>
        requires within { AreRowsWithin self.now }
        requires there { state < length self.now.rows.items }
        ensures { IsActionBefore self.now state next result }
    {
        match next {
            NextNumber::Terminal(key) => self.action(state, key),
            NextNumber::Unknown => None,
            NextNumber::End => match self.end(state) {
                Some(by) => Some(TableAction::Reduce(by)),
                None => None,
            },
        }
    }

    /// The number of the terminal.
    pub(crate) fn number_of(&self, terminal: &TerminalString) -> NextNumber
        ensures { IsNextBy self.now (Some (terminal_view terminal.now)) result }
    {
        match self.terminals.get_index_of(terminal) {
            Some(number) => NextNumber::Terminal(number),
            None => NextNumber::Unknown,
        }
    }

    /// The number of the token at the place; the end where there is none.
    pub(crate) fn next_number(&self, tokens: &[ScanToken<'_>], at: usize) -> NextNumber
        ensures { IsNextBy self.now (first (drop at (map (λ t. terminal_view t.terminal) tokens.now))) result }
    {
        if at < tokens.len() {
            self.number_of(&tokens[at].terminal)
        } else {
            NextNumber::End
        }
    }
}
