//! Lane tables as text, for debugging.

use crate::context_sets::ConflictIndex;
use crate::lane_tables::LaneTable;
use lalrpop_lr1_core::StateIndex;
use lalrpop_sets::Multimap;
use std::alloc::AllocError;
use std::fmt::{self, Debug, Formatter, Write};

/// The texts of each state's row, and above them those of the names of the columns.
type Texts = Multimap<Option<StateIndex>, Vec<String>>;

impl LaneTable<'_> {
    /// Adds the debug text of what is there to the row.
    fn add_cell<T: Debug>(
        &self,
        row: Option<StateIndex>,
        value: Option<&T>,
        texts: &mut Texts,
    ) -> Result<(), AllocError> {
        let text = match value {
            Some(value) => format!(in self.alloc; "{value:?}")?,
            None => String::new(self.alloc),
        };
        texts.push(row, text)?;
        Ok(())
    }

    /// Adds the names of the columns.
    fn add_names(&self, texts: &mut Texts) -> Result<(), AllocError> {
        self.add_cell(None, Some(&format_args!("State")), texts)?;
        for column in 0..self.conflicts {
            self.add_cell(None, Some(&format_args!("C{column}")), texts)?;
        }
        self.add_cell(None, Some(&format_args!("Successors")), texts)
    }

    /// Adds the state's row, if it isn't there: its number, the set of each column in which it has an entry, and where it leads.
    fn add_row(&self, state: StateIndex, texts: &mut Texts) -> Result<(), AllocError> {
        if texts.get(&Some(state)).is_some() {
            return Ok(());
        }
        self.add_cell(Some(state), Some(&state), texts)?;
        for column in 0..self.conflicts {
            let row = self.lookaheads.get(&state);
            let set = row.and_then(|row| row.get(&ConflictIndex::new(column)));
            self.add_cell(Some(state), set, texts)?;
        }
        self.add_cell(Some(state), self.successors.get(&state), texts)
    }

    /// Adds the names of the columns, and the rows of the states that have entries or lead on.
    fn add_rows(&self, texts: &mut Texts) -> Result<(), AllocError> {
        self.add_names(texts)?;
        let entered = self.lookaheads.iter().map(|it| *it.0);
        let leading = self.successors.iter().map(|it| *it.0);
        for state in entered.chain(leading) {
            self.add_row(state, texts)?;
        }
        Ok(())
    }
}

/// Writes the row, each text filled with blanks to the longest of its column.
fn write_row<W: Write>(row: &Vec<String>, texts: &Texts, f: &mut Formatter<W>) -> fmt::Result {
    for (column, text) in row.iter().enumerate() {
        let lengths = texts
            .iter()
            .map(|it| it.1.get(column).map_or(0, |it| it.len()));
        write!(f, "| {text:0$} ", lengths.max().unwrap_or(0))?;
    }
    f.write_str("|\n")
}

/// A row for each state, padded to columns, with the numbers of the tokens.
impl Debug for LaneTable<'_> {
    fn fmt<W: Write>(&self, f: &mut Formatter<W>) -> fmt::Result {
        let mut texts = Multimap::new(self.alloc);
        self.add_rows(&mut texts)?;
        for row in texts.iter() {
            write_row(row.1, &texts, f)?;
        }
        Ok(())
    }
}
