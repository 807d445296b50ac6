//! What a case may ask.

use anyhow::{Result, bail};
use lalrpop_case_kinds::files::fields::Fields;

/// What is asked of productions.
#[derive(Clone, Copy)]
pub(crate) enum Call {
    /// How many states and conflicts there are.
    Counts,
    /// The tree of the tokens, or where they are stuck.
    Tree,
    /// How many leaves and nodes the tree of the tokens has within the limit, or why there is none.
    Parse,
    /// What is made of the tokens within the limit, leaf by leaf and node by node, or why that ends.
    Onto,
    /// How many states there are by lanes, and whether these may be parsed with.
    Lanes,
    /// How many states there are by lanes, and how many without lookaheads.
    Fewest,
    /// Whether the states by lanes may be parsed with, and of how many texts both methods say the same.
    BothWays,
    /// Whether states may be parsed with: those that are written, or the canonical ones.
    Check,
    /// The conflicts of the canonical states.
    Conflicts,
    /// The conflicts of the states into which these collapse.
    CollapsedConflicts,
    /// The first set of the names.
    First,
    /// The start's least tree: how many leaves and nodes, and its moves.
    Least,
    /// Its least tree without leaves.
    Empty,
    /// A tree of it that begins with the first token, and the place of its production at which it does.
    Begin,
}

impl Call {
    /// The call that the members name.
    pub(crate) fn among(fields: &Fields<'_>) -> Result<Call> {
        Call::from_name(fields.text("call"))
    }

    /// The call with the name.
    fn from_name(name: &str) -> Result<Call> {
        match name {
            "counts" => Ok(Call::Counts),
            "tree" => Ok(Call::Tree),
            "parse" => Ok(Call::Parse),
            "onto" => Ok(Call::Onto),
            "lanes" => Ok(Call::Lanes),
            "fewest" => Ok(Call::Fewest),
            "both_ways" => Ok(Call::BothWays),
            "check" => Ok(Call::Check),
            "conflicts" => Ok(Call::Conflicts),
            "collapsed_conflicts" => Ok(Call::CollapsedConflicts),
            "first" => Ok(Call::First),
            "least" => Ok(Call::Least),
            "empty" => Ok(Call::Empty),
            "begin" => Ok(Call::Begin),
            _ => bail!("no such call: {name}"),
        }
    }
}
