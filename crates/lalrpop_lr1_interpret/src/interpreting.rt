//! Interpreting states: the tree of terminals without productions, or the state in which they go wrong.

ghost use Rattle.std.specs.Prelude.{◌≡◌, List, IfOk, length, map, slice_get, true};
ghost use Rattle.lalrpop_grammar_repr.specs.declared.terminal_set.TerminalSet.{TerminalSet};
ghost use Rattle.lalrpop_grammar_symbols.specs.Symbols.{Text};
ghost use Rattle.lalrpop_lr1_theory.specs.CheckedStates.{AreCheckedStates, IsStartAlone};
ghost use Rattle.lalrpop_lr1_theory.specs.Productions.{Production};
ghost use Rattle.lalrpop_sets.specs.TokensLeft.{token_or};
ghost use Rattle.lalrpop_lr1_core.specs.Views.{lr_state_view, token_lookahead};
ghost use Rattle.lalrpop_lr1_interpret.specs.Interpretations.{AreRightStates, IsInterpretFaultOf, IsHaltWithin, IsRightInterpretation};
ghost use Rattle.lalrpop_lr1_interpret.specs.Interpretations.{MayInterpret};
ghost use Rattle.lalrpop_lr1_interpret.specs.Parses.{AreParsable};
ghost use Rattle.lalrpop_lr1_interpret.specs.Tables.{IsTableOf};

use crate::interpret_fault::{InterpretError, InterpretFault};
use crate::parse::{ActionTable, Halt, NoTrees, TokenNumbers, run};
use crate::parse_tree_stack::ParseTrees;
use crate::parse_trees::ParseTree;
use lalrpop_grammar::ScanToken;
use lalrpop_grammar_repr::TerminalSet;
use lalrpop_grammar_symbols::{Span, TerminalString};
use lalrpop_lr1_core::{Lr1State, StateIndex};
use lalrpop_sets::Token;
use std::alloc::{AllocError, Global};

/// The terminals as tokens without texts.
fn as_tokens(
    alloc: Global,
    terminals: Vec<TerminalString>,
) -> Result<Vec<ScanToken<'static>>, AllocError>
    ensures { IfOk result (λ tokens. map (λ t. t.terminal) tokens.items ≡ terminals.items) }
{
    let mut tokens = Vec::new(alloc);
    for terminal in terminals {
        tokens.push(ScanToken {
            terminal,
            text: "",
            span: Span(0, 0),
        })?;
    }
    Ok(tokens)
}

/// The token at the place; the end where there is none.
fn token_at(tokens: &[ScanToken<'_>], at: usize) -> Result<Token, AllocError>
    ensures { IfOk result (λ token. token ≡ token_or (slice_get (map (λ t. t.terminal) tokens.now) at) true) }
{
    match tokens.get(at) {
        Some(token) => Ok(Token::Terminal(token.terminal.try_clone()?)),
        None => Ok(Token::Eof),
    }
}

/// What the machine's halt says, with the state and the token.
fn fault_of<'g>(
    states: &'g [Lr1State<'g>],
    tokens: &[ScanToken<'_>],
    halt: Halt,
) -> InterpretFault<'g>
    requires { IsHaltWithin (length states.now) halt }
    ensures { IsInterpretFaultOf states.now tokens.now halt result }
{
    match halt {
        Halt::Stuck { at, state } => match token_at(tokens, at) {
            Ok(token) => InterpretFault::Stuck(InterpretError {
                state: &states[state],
                token,
            }),
            Err(_) => InterpretFault::Memory,
        },
        Halt::Limit => InterpretFault::Limit,
        Halt::Memory => InterpretFault::Memory,
    }
}

/// The tree of the tokens by the table of the states, or why there is none.
fn tree_by_table<'g>(
    alloc: Global,
    table: &ActionTable<'g>,
    states: &'g [Lr1State<'g>],
    tokens: &[ScanToken<'_>],
) -> Result<ParseTree, InterpretFault<'g>>
    requires { MayInterpret table.now states.now }
    ensures { (grammar : List Production) (s : Text) (ts : TerminalSet) → IsStartAlone grammar s
        → AreCheckedStates grammar s (map (lr_state_view (token_lookahead ts)) states.now)
        → IsTableOf table.now (map (lr_state_view (token_lookahead ts)) states.now)
        → IsRightInterpretation grammar s ts states.now (map (λ t. t.terminal) tokens.now) result }
{
    let mut stack = ParseTrees::new(alloc);
    let found = TokenNumbers::ByTerminal;
    match run(alloc, table, tokens, found, u64::MAX, true, &mut stack) {
        Ok(_) => match stack.into_last() {
            Some(tree) => Ok(tree),
            None => unreachable!(),
        },
        Err(halt) => Err(fault_of(states, tokens, halt)),
    }
}

/// The tree of the terminals by the states, whose sets of tokens are over `terminals`; or the state in which the first wrong one
/// stands, or the limit.
pub fn interpret<'g>(
    alloc: Global,
    states: &'g [Lr1State<'g>],
    terminals: &TerminalSet,
    tokens: Vec<TerminalString>,
) -> Result<ParseTree, InterpretFault<'g>>
    requires { AreParsable terminals.now states.now }
    ensures { (grammar : List Production) (s : Text) → IsStartAlone grammar s
        → AreCheckedStates grammar s (map (lr_state_view (token_lookahead terminals.now)) states.now)
        → IsRightInterpretation grammar s terminals.now states.now tokens.items result }
{
    let tokens = as_tokens(alloc, tokens)?;
    let table = ActionTable::new(alloc, states, terminals)?;
    tree_by_table(alloc, &table, states, tokens.as_slice())
}

/// The numbers as indexes of states.
fn indexes_of(alloc: Global, numbers: &[usize]) -> Result<Vec<StateIndex>, AllocError>
    ensures { IfOk result (λ indexes. map (λ i. i.0) indexes.items ≡ numbers.now) }
{
    let mut indexes = Vec::new(alloc);
    for number in numbers {
        indexes.push(StateIndex(*number))?;
    }
    Ok(indexes)
}

/// The states on the stack once all tokens are shifted, by the table of the states, or why there are none.
fn states_by_table<'g>(
    alloc: Global,
    table: &ActionTable<'g>,
    states: &'g [Lr1State<'g>],
    tokens: &[ScanToken<'_>],
) -> Result<Vec<StateIndex>, InterpretFault<'g>>
    requires { MayInterpret table.now states.now }
    ensures { (grammar : List Production) (s : Text) (ts : TerminalSet) → IsStartAlone grammar s
        → AreCheckedStates grammar s (map (lr_state_view (token_lookahead ts)) states.now)
        → IsTableOf table.now (map (lr_state_view (token_lookahead ts)) states.now)
        → AreRightStates grammar s ts states.now (map (λ t. t.terminal) tokens.now) result }
{
    let mut stack = NoTrees;
    let found = TokenNumbers::ByTerminal;
    match run(alloc, table, tokens, found, u64::MAX, false, &mut stack) {
        Ok(numbers) => Ok(indexes_of(alloc, numbers.as_slice())?),
        Err(halt) => Err(fault_of(states, tokens, halt)),
    }
}

/// The states on the stack once the last of the terminals is shifted, state 0 first; or the state in which the first wrong one
/// stands, or the limit.
pub fn interpret_partial<'g>(
    alloc: Global,
    states: &'g [Lr1State<'g>],
    terminals: &TerminalSet,
    tokens: Vec<TerminalString>,
) -> Result<Vec<StateIndex>, InterpretFault<'g>>
    requires { AreParsable terminals.now states.now }
    ensures { (grammar : List Production) (s : Text) → IsStartAlone grammar s
        → AreCheckedStates grammar s (map (lr_state_view (token_lookahead terminals.now)) states.now)
        → AreRightStates grammar s terminals.now states.now tokens.items result }
{
    let tokens = as_tokens(alloc, tokens)?;
    let table = ActionTable::new(alloc, states, terminals)?;
    states_by_table(alloc, &table, states, tokens.as_slice())
}
