//! How the numbers of tokens are found.

ghost use Rattle.std.specs.Prelude.{drop, map};
ghost use Rattle.lalrpop_grammar_symbols.specs.Views.{terminal_view};
ghost use Rattle.lalrpop_lr1_theory.specs.Productions.{first};
ghost use Rattle.lalrpop_lr1_interpret.specs.Columns.{TellNumbers};
ghost use Rattle.lalrpop_lr1_interpret.specs.Tables.{IsNextBy};

use crate::parse::action_table::ActionTable;
use crate::parse::columns::Columns;
use crate::parse::table_row::NextNumber;
use lalrpop_grammar::ScanToken;

/// How the numbers of tokens are found.
#[derive(Clone, Copy)]
pub enum TokenNumbers<'c> {
    /// The table looks each terminal up.
    ByTerminal,
    /// They stand in columns.
    ByColumn {
        /// For each token the place of its column.
        places: &'c [usize],
        /// The columns.
        columns: &'c Columns,
    },
}

impl<'c> TokenNumbers<'c> {
    /// The number of the token at the place; the end where there is none.
    pub(crate) fn next_number(
        self,
        table: &ActionTable<'_>,
        tokens: &[ScanToken<'_>],
        at: usize,
    ) -> NextNumber
        requires { TellNumbers self table.now tokens.now }
        ensures { IsNextBy table.now (first (drop at (map (λ t. terminal_view t.terminal) tokens.now))) result }
    {
        match self {
            TokenNumbers::ByTerminal => table.next_number(tokens, at),
            TokenNumbers::ByColumn { places, columns } => {
                if at < places.len() {
                    columns.numbers[places[at]]
                } else {
                    NextNumber::End
                }
            }
        }
    }
}
