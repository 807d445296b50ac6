//! Pieces of the alphabet, told apart by one edge after another.

ghost use Rattle.std.specs.Prelude.{◌≡◌, ℕ, ◌<◌, List, [], length, All, IfOk, OnOk, vec_len};
ghost use Rattle.lalrpop_lexer.specs.Targets.{StartsAscend};
ghost use Rattle.lalrpop_lexer.specs.Splits.{HavePairs, ArePairs, SplitsOff, SplitsBy, KeepsPairs};

use crate::groups::{Groups, marked_groups};
use crate::moves::first_from;
use lalrpop_lexer_nfa::{Edge, Test};
use std::alloc::{AllocError, Global};

/// How often there are more numbers than pieces before groups are numbered anew.
const ROOM: usize = 16;

/// What became of the pieces of a group that edges between two states read.
#[derive(Clone, Copy)]
pub(crate) struct Split {
    /// The state that the edges come from.
    pub(crate) from: usize,
    /// The state that they lead to.
    pub(crate) to: usize,
    /// The group that these pieces went to.
    pub(crate) group: usize,
}

/// The groups of pieces under way: those of one group were read alike so far.
#[derive(Drop)]
pub(crate) struct Partition {
    /// For each piece the number of its group.
    pub(crate) numbers: Vec<usize>,
    /// For each group the last split of it.
    pub(crate) splits: Vec<Option<Split>>,
}

/// The group of those pieces of a group that edges between the two states read, made now if there is none yet.
fn split_off(
    splits: &mut Vec<Option<Split>>,
    group: usize,
    from: usize,
    to: usize,
) -> Result<usize, AllocError>
    requires group { group < vec_len splits.old }
    requires pairs { (pairs : ℕ → List (ℕ × ℕ)) × HavePairs pairs splits.old.items }
    ensures { IfOk result (λ found. SplitsOff group from to splits.old.items splits.new.items found) }
{
    if let Some(split) = splits[group] {
        if split.from == from && split.to == to {
            return Ok(split.group);
        }
    }
    let new = splits.len();
    splits.push(None)?;
    splits[group] = Some(Split {
        from,
        to,
        group: new,
    });
    Ok(new)
}

impl Partition {
    /// So many pieces in one group.
    pub(crate) fn new(alloc: Global, count: usize) -> Result<Partition, AllocError>
        ensures size { IfOk result (λ p. length p.numbers.items ≡ count) }
        ensures pairs { IfOk result (λ p. ArePairs (λ g. []) p.numbers.items p.splits.items) }
    {
        Ok(Partition {
            numbers: vec![in alloc; 0; count]?,
            splits: vec![in alloc; None; 1]?,
        })
    }

    /// Tells the pieces that the edge reads apart from the others of their groups.
    pub(crate) fn split_by(&mut self, edge: &Edge<Test>, pieces: &[Test]) -> Result<(), AllocError>
        requires size { length self.old.numbers.items ≡ length pieces.now }
        requires pieces { StartsAscend pieces.now }
        requires pairs { (pairs : ℕ → List (ℕ × ℕ)) × ArePairs pairs self.old.numbers.items self.old.splits.items }
        ensures { OnOk result (SplitsBy edge.now pieces.now (length pieces.now) self.old.numbers.items self.old.splits.items self.new.numbers.items self.new.splits.items) }
    {
        for i in first_from(pieces, edge.label.start())..pieces.len() {
            if edge.label.end() < pieces[i].start() {
                return Ok(());
            }
            let group = self.numbers[i];
            self.numbers[i] = split_off(&mut self.splits, group, edge.from.0, edge.to.0)?;
        }
        Ok(())
    }

    /// Numbers the groups from 0 on, once there are far more numbers than pieces.
    pub(crate) fn renumber(&mut self, alloc: Global, pieces: &[Test]) -> Result<(), AllocError>
        requires size { length self.old.numbers.items ≡ length pieces.now }
        requires pieces { StartsAscend pieces.now }
        requires inside { All (λ g. g < vec_len self.old.splits) self.old.numbers.items }
        ensures { OnOk result (KeepsPairs self.old.numbers.items self.old.splits.items self.new.numbers.items self.new.splits.items) }
    {
        if self.splits.len() / ROOM <= pieces.len() {
            return Ok(());
        }
        let Groups { numbers, firsts } = marked_groups(
            alloc,
            pieces,
            &self.numbers,
            self.splits.len(),
        )?;
        self.splits = vec![in alloc; None; firsts.len()]?;
        self.numbers = numbers;
        Ok(())
    }
}
