//! The columns of terminals in a table of actions.

ghost use Rattle.std.specs.Prelude.{IfOk};
ghost use Rattle.lalrpop_lr1_interpret.specs.Columns.{AreColumnsOf, IsColumnOf};

use crate::parse::action_table::ActionTable;
use crate::parse::table_row::NextNumber;
use lalrpop_grammar_symbols::TerminalString;
use std::alloc::{AllocError, Global};

/// The columns that a table of actions has for the terminals of a list, each at its terminal's place.
#[derive(Drop)]
pub struct Columns {
    pub(crate) numbers: Vec<NextNumber>,
}

impl<'g> ActionTable<'g> {
    /// The column of the terminal, if there is one.
    fn column_of(&self, terminal: &Option<TerminalString>) -> NextNumber
        ensures { IsColumnOf self.now terminal.now result }
    {
        match terminal {
            Some(terminal) => self.number_of(terminal),
            None => NextNumber::Unknown,
        }
    }

    /// The columns of the terminals, for `parse_by_columns`: each terminal is looked up once.
    pub fn columns_of(
        &self,
        alloc: Global,
        terminals: &[Option<TerminalString>],
    ) -> Result<Columns, AllocError>
        ensures { IfOk result (λ columns. AreColumnsOf self.now terminals.now columns.numbers.items) }
    {
        let mut numbers = Vec::new(alloc);
        for terminal in terminals {
            numbers.push(self.column_of(terminal))?;
        }
        Ok(Columns { numbers })
    }
}
