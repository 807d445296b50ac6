//! Conflicts in words.

ghost use Rattle.std.specs.Prelude.{Some};
ghost use Rattle.std.specs.Fmt.{WritesOnOk};
ghost use Rattle.lalrpop_grammar.specs.Views.{tree_view};
ghost use Rattle.lalrpop_run_parser.specs.ConflictTexts.{
  conflict_lines,
  conflict_text,
  conflicts_text,
  move_text,
  coming_text,
  place_text,
  tree_line,
};

use crate::conflicts::written_conflict::{WrittenConflict, WrittenMove};
use lalrpop_grammar::WrittenTree;
use lalrpop_grammar_symbols::TerminalString;
use lalrpop_json_grammar::TreeText;
use std::fmt::{self, Display, Formatter, Write};

/// Prints the kind of the move.
impl Display for WrittenMove {
    ghost output = { λ kind. Some (move_text kind) };

    fn fmt<W: Write>(&self, f: &mut Formatter<W>) -> fmt::Result {
        match self {
            WrittenMove::Shift => f.write_str("shift"),
            WrittenMove::Reduce => f.write_str("reduce"),
        }
    }
}

/// What comes next, in words.
#[derive(Clone, Copy)]
struct NextText<'t>(&'t Option<TerminalString>);

/// Prints the terminal that comes next, or that it is the end.
impl Display for NextText<'_> {
    ghost output = { λ next. Some (coming_text next.0.now) };

    fn fmt<W: Write>(&self, f: &mut Formatter<W>) -> fmt::Result {
        match self.0 {
            None => f.write_str("end of input"),
            Some(terminal) => write!(f, "{terminal}"),
        }
    }
}

/// Writes how many trees both sentences have in common, and what comes next.
fn write_place<W: Write>(conflict: &WrittenConflict, f: &mut Formatter<W>) -> fmt::Result
    ensures { WritesOnOk W.write_str_gives f.old result (place_text conflict.now) f.new }
{
    write!(f, "after {}", conflict.shared)?;
    writeln!(f, " trees before {}", NextText(&conflict.next))
}

/// Writes the kind of a move with its tree.
fn write_move<W: Write>(kind: WrittenMove, tree: &WrittenTree, f: &mut Formatter<W>) -> fmt::Result
    ensures { WritesOnOk W.write_str_gives f.old result (tree_line kind (tree_view tree.now)) f.new }
{
    writeln!(f, "{kind}: {}", TreeText(tree))
}

/// Prints three lines: how many trees both sentences have in common and what comes next, and each move with its tree.
impl Display for WrittenConflict {
    ghost output = { λ conflict. Some (conflict_text conflict) };

    fn fmt<W: Write>(&self, f: &mut Formatter<W>) -> fmt::Result {
        write_place(self, f)?;
        write_move(self.move1, &self.tree1, f)?;
        write_move(self.move2, &self.tree2, f)
    }
}

/// Writes the lines of all of them.
fn write_each<W: Write>(conflicts: &[WrittenConflict], f: &mut Formatter<W>) -> fmt::Result
    ensures { WritesOnOk W.write_str_gives f.old result (conflict_lines conflicts.now) f.new }
{
    for conflict in conflicts {
        write!(f, "{conflict}")?;
    }
    Ok(())
}

/// Writes how many there are, and the lines of all of them.
pub fn write_conflicts<W: Write>(conflicts: &[WrittenConflict], f: &mut Formatter<W>) -> fmt::Result
    ensures { WritesOnOk W.write_str_gives f.old result (conflicts_text conflicts.now) f.new }
{
    writeln!(f, "conflicts: {}", conflicts.len())?;
    write_each(conflicts, f)
}
