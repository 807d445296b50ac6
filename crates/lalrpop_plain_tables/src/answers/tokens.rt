//! What states make of tokens.

ghost use Rattle.std.specs.Prelude.{◌≡◌, IfOk, string_bytes};
ghost use Rattle.lalrpop_lr1_interpret.specs.Parses.{AreParsable};
ghost use Rattle.lalrpop_plain_tables.specs.TokenAnswers.{TellsFault, TellsTokens, text_of_stuck};

use crate::answers::fault::AnswerFault;
use crate::lines::read_tokens;
use lalrpop_grammar_repr::TerminalSet;
use lalrpop_grammar_symbols::TerminalString;
use lalrpop_lr1_core::Lr1State;
use lalrpop_lr1_interpret::{InterpretError, InterpretFault, interpret};
use std::alloc::{AllocError, Global};

/// The text of what is stuck.
fn stuck_text(alloc: Global, error: &InterpretError<'_>) -> Result<String, AllocError>
    ensures { IfOk result (λ text. string_bytes text ≡ text_of_stuck error.now) }
{
    let number = error.state.index;
    Ok(format!(in alloc; "stuck in state {number} on {}", error.token)?)
}

/// The text of the fault, where it is the tokens'.
fn fault_text(alloc: Global, fault: InterpretFault<'_>) -> Result<String, AnswerFault>
    ensures { IfOk result (λ text. TellsFault fault.entry (string_bytes text)) }
{
    match fault {
        InterpretFault::Stuck(error) => Ok(stuck_text(alloc, &error)?),
        InterpretFault::Limit => Err(AnswerFault::Limit),
        InterpretFault::Memory => Err(AnswerFault::Memory),
    }
}

/// The text of the tree of the tokens; or in which state they are stuck, and on what.
///
/// # Errors
///
/// A parse would make too many moves, or memory runs out.
pub fn tell_tokens(
    alloc: Global,
    states: &[Lr1State<'_>],
    terminals: &TerminalSet,
    tokens: Vec<TerminalString>,
) -> Result<String, AnswerFault>
    requires { AreParsable terminals.now states.now }
    ensures { IfOk result (λ text. TellsTokens terminals.now states.now tokens.items (string_bytes text)) }
{
    match interpret(alloc, states, terminals, tokens) {
        Ok(tree) => Ok(tree.to_string(alloc)?),
        Err(fault) => fault_text(alloc, fault),
    }
}

/// The same of the tokens that stand in a text between blanks.
pub fn answer_tokens(
    alloc: Global,
    states: &[Lr1State<'_>],
    terminals: &TerminalSet,
    tokens: &str,
) -> Result<String, AnswerFault>
    requires { AreParsable terminals.now states.now }
{
    let tokens = read_tokens(alloc, tokens)?;
    tell_tokens(alloc, states, terminals, tokens)
}
