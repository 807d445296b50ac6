//! The machine: it runs a table over tokens, and its stack makes what is to be made.

ghost use Rattle.std.specs.Prelude.{◌≡◌, ◌<◌, ◌-◌, ◌++◌, ◌∷◌, [], ℕ, IfNone, IfOk, IfSome, List, MatchResult, OnOk, length, map, take};
ghost use Rattle.lalrpop_grammar.specs.Trees.{Token};
ghost use Rattle.lalrpop_grammar.specs.Views.{token_view};
ghost use Rattle.lalrpop_grammar_symbols.specs.Symbols.{Text};
ghost use Rattle.lalrpop_grammar_symbols.specs.Views.{span_view, terminal_view};
ghost use Rattle.lalrpop_lr1_theory.specs.CheckedStates.{AreCheckedStates, IsStartAlone};
ghost use Rattle.lalrpop_lr1_theory.specs.Productions.{Production};
ghost use Rattle.lalrpop_lr1_theory.specs.Spans.{SpannedForest, leaf_at, none_at};
ghost use Rattle.lalrpop_lr1_theory.specs.States.{State};
ghost use Rattle.lalrpop_lr1_interpret.specs.Columns.{TellNumbers};
ghost use Rattle.lalrpop_lr1_interpret.specs.Ends.{IsDone, IsEndOfRun, MayRun};
ghost use Rattle.lalrpop_lr1_interpret.specs.Stacks.{◌beside◌};
ghost use Rattle.lalrpop_lr1_interpret.specs.Tables.{AreRowsWithin, HasGoto, IsTableOf, StandsUnder};

use crate::parse::action_table::ActionTable;
use crate::parse::table_row::TableAction;
use crate::parse::token_numbers::TokenNumbers;
use crate::parse::tree_stack::TreeStack;
use lalrpop_grammar::ScanToken;
use std::alloc::{AllocError, Global};

/// Why the machine stops before it accepts.
#[derive(Drop)]
pub enum Halt {
    /// The state does nothing before the token at this place, or before the end.
    Stuck {
        /// The place of the token; the number of all tokens at the end.
        at: usize,
        /// The number of the state.
        state: usize,
    },
    /// More moves would be made than the limit says.
    Limit,
    /// Memory ran out.
    Memory,
}

impl From<AllocError> for Halt {
    ghost use Rattle.lalrpop_lr1_interpret.specs.declared.parse.machine.Halt.TheVariants.{Memory};

    ghost from_gives = { λ _ halt. halt ≡ Memory };

    fn from(_: AllocError) -> Halt {
        Halt::Memory
    }
}

/// Puts the number behind the others.
fn push_number(numbers: &mut Vec<usize>, number: usize) -> Result<(), AllocError>
    ensures { OnOk result (numbers.new.items ≡ numbers.old.items ++ number ∷ []) }
{
    numbers.push(number)?;
    Ok(())
}

/// The number of state 0 alone.
fn first_numbers(alloc: Global) -> Result<Vec<usize>, AllocError>
    ensures { IfOk result (λ numbers. numbers.items ≡ 0 ∷ []) }
{
    let mut numbers = Vec::new(alloc);
    push_number(&mut numbers, 0)?;
    Ok(numbers)
}

/// Takes so many numbers off, and tells where the nonterminal leads from the state of the last of those that are left.
fn goto_under(
    table: &ActionTable<'_>,
    numbers: &mut Vec<usize>,
    count: usize,
    nonterminal: usize,
) -> Option<usize>
    requires within { AreRowsWithin table.now }
    requires fewer { count < length numbers.old.items }
    requires there { (n : ℕ) → StandsUnder numbers.old.items count n → n < length table.now.rows.items }
    ensures left { numbers.new.items ≡ take (length numbers.old.items - count) numbers.old.items }
    ensures found { IfSome result (λ m. (n : ℕ) × StandsUnder numbers.old.items count n × HasGoto table.now n nonterminal m) }
    ensures none { IfNone result ((n : ℕ) × StandsUnder numbers.old.items count n
        × ((m : ℕ) → HasGoto table.now n nonterminal m → ⊥)) }
{
    let kept = numbers.len() - count;
    numbers.truncate(kept);
    table.goto(numbers[kept - 1], nonterminal)
}

/// Puts a leaf of the token beside the trees, and the number of the state to which it leads behind the others.
fn shift_token<'g, S: TreeStack<'g>>(
    token: &ScanToken<'_>,
    target: usize,
    numbers: &mut Vec<usize>,
    stack: &mut S,
) -> Result<(), AllocError>
    ensures numbers { OnOk result (numbers.new.items ≡ numbers.old.items ++ target ∷ []) }
    ensures leaf_stands { (ts : SpannedForest) (ks : List Token) → S.stands stack.old ts ks
        → OnOk result (S.stands stack.new
        (ts beside leaf_at (terminal_view token.now.terminal) (span_view token.now.span) none_at)
        (ks ++ token_view token.now ∷ [])) }
    ensures same { S.given stack.new ≡ S.given stack.old }
{
    stack.leaf(token)?;
    push_number(numbers, target)
}

/// Makes the moves of the table over the tokens from state 0, whose number alone stands there, and from no tree: until it accepts,
/// or, where the parse isn't to be whole, until all tokens are shifted. The numbers are then those of the states on the stack.
fn make_moves<'g, S: TreeStack<'g>>(
    table: &ActionTable<'g>,
    tokens: &[ScanToken<'_>],
    found: TokenNumbers<'_>,
    limit: u64,
    whole: bool,
    numbers: &mut Vec<usize>,
    stack: &mut S,
) -> Result<(), Halt>
    requires checked { MayRun table.now }
    requires found { TellNumbers found table.now tokens.now }
    requires first { numbers.old.items ≡ 0 ∷ [] }
    requires empty { S.stands stack.old none_at [] }
    ensures ends { (grammar : List Production) (s : Text) (states : List State) → IsStartAlone grammar s
        → AreCheckedStates grammar s states → IsTableOf table.now states
        → MatchResult result (λ _. IsDone states s tokens.now limit (S.stands stack.new) numbers.new.items whole)
        (λ halt. IsEndOfRun states s tokens.now limit whole (S.stands stack.new) (Err halt)) }
    ensures same { S.given stack.new ≡ S.given stack.old }
{
    let mut at = 0;
    let mut left = limit;
    let mut next = found.next_number(table, tokens, 0);
    'moves: loop {
        if !whole && at == tokens.len() {
            return Ok(());
        }
        let state = numbers[numbers.len() - 1];
        let action = match table.action_before(state, next) {
            Some(action) => action,
            None => return Err(Halt::Stuck { at, state }),
        };
        if left == 0 {
            return Err(Halt::Limit);
        }
        left -= 1;
        match action {
            TableAction::Shift(target) => {
                shift_token(&tokens[at], target, numbers, stack)?;
                at += 1;
                next = found.next_number(table, tokens, at);
            }
            TableAction::Reduce(by) => {
                stack.node(by.production)?;
                match goto_under(table, numbers, by.length, by.nonterminal) {
                    Some(target) => push_number(numbers, target)?,
                    None => return Ok(()),
                }
            }
        }
    }
}

/// Runs the table over the tokens, whose numbers are so found, from no tree: until it accepts, where the parse is to be whole, or else
/// until all tokens are shifted. What is made stands on the stack, which keeps what it was given. Answers the states on the stack, by
/// their numbers.
pub fn run<'g, S: TreeStack<'g>>(
    alloc: Global,
    table: &ActionTable<'g>,
    tokens: &[ScanToken<'_>],
    found: TokenNumbers<'_>,
    limit: u64,
    whole: bool,
    stack: &mut S,
) -> Result<Vec<usize>, Halt>
    requires checked { MayRun table.now }
    requires found { TellNumbers found table.now tokens.now }
    requires empty { S.stands stack.old none_at [] }
    ensures ends { (grammar : List Production) (s : Text) (states : List State) → IsStartAlone grammar s
        → AreCheckedStates grammar s states → IsTableOf table.now states
        → IsEndOfRun states s tokens.now limit whole (S.stands stack.new) result }
    ensures same { S.given stack.new ≡ S.given stack.old }
{
    let mut numbers = first_numbers(alloc)?;
    make_moves(table, tokens, found, limit, whole, &mut numbers, stack)?;
    Ok(numbers)
}
