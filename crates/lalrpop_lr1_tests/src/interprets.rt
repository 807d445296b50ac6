//! Parse trees without productions, and stacks of states, by states that are put together.

ghost use Rattle.std.specs.Prelude.{Contains, IfOk, IsTrue};
ghost use Rattle.lalrpop_lr1_theory.specs.CheckedStates.{IsStartAlone};
ghost use Rattle.lalrpop_lr1_theory.specs.ValidItems.{NoneBarren};
ghost use Rattle.lalrpop_lr1_first.specs.NumberedGrammars.{HasItsTerminals};
ghost use Rattle.lalrpop_lr1_core.specs.TheoryGrammars.{theory_grammar};
ghost use Rattle.lalrpop_lr1_interpret.specs.Parses.{AreParsable};

use crate::check::{check, text_is};
use crate::grammars::{grammar_of, name_of};
use lalrpop_grammar_repr::{Grammar, TerminalSet};
use lalrpop_grammar_symbols::NonterminalString;
use lalrpop_lane::{Method, build_lalr_states};
use lalrpop_lr1_barren::barren_nonterminal;
use lalrpop_lr1_core::{Lr1State, TableFault};
use lalrpop_lr1_interpret::{InterpretFault, interpret_partial};
use lalrpop_plain_tables::answers::{AnswerFault, answer_tokens};
use lalrpop_plain_tables::lines::read_tokens;
use std::alloc::{AllocError, Global};
use std::process::Abort;

/// `S = E; E = E "-" T or T; T = "N" or "(" E ")"`
const DIFFERENCES: &str = "S: E\nE: E \"-\" T\nE: T\nT: \"N\"\nT: \"(\" E \")\"\n";

/// Whether the start stands on no right side.
fn is_alone(grammar: &Grammar, start: &NonterminalString) -> bool
    ensures { IsTrue result → IsStartAlone (theory_grammar grammar.now) start.now.0 }
{
    grammar.start_is_alone(start)
}

/// Whether the start reaches nothing barren.
fn reaches_trees(
    alloc: Global,
    grammar: &Grammar,
    start: &NonterminalString,
) -> Result<bool, AllocError>
    requires { HasItsTerminals grammar.now }
    ensures { IfOk result (λ reaches. IsTrue reaches → NoneBarren (Contains (theory_grammar grammar.now)) start.now.0) }
{
    match barren_nonterminal(alloc, grammar, start)? {
        None => Ok(true),
        Some(_) => Ok(false),
    }
}

/// The canonical states of the grammar for a start, put together.
fn collapsed_states<'g>(
    alloc: Global,
    grammar: &'g Grammar,
    start: &NonterminalString,
) -> Result<Vec<Lr1State<'g>>, AnswerFault>
    requires { HasItsTerminals grammar.now }
    ensures { IfOk result (λ states. AreParsable grammar.now.terminals states.items) }
{
    if !is_alone(grammar, start) {
        return Err(AnswerFault::NotAlone);
    }
    if !reaches_trees(alloc, grammar, start)? {
        return Err(AnswerFault::Barren);
    }
    match build_lalr_states(alloc, grammar, start.try_clone()?, Method::Canonical) {
        Ok(states) => Ok(states),
        Err(TableFault::Conflicts(_)) => Err(AnswerFault::Conflicts),
        Err(TableFault::Memory) => Err(AnswerFault::Memory),
    }
}

/// Where tokens are stuck, and on what.
fn stuck_text(alloc: Global, fault: InterpretFault<'_>) -> Result<String, AllocError> {
    match fault {
        InterpretFault::Stuck(error) => {
            Ok(format!(in alloc; "{} {}", error.state.index, error.token)?)
        }
        InterpretFault::Limit => String::from_str(alloc, "limit"),
        InterpretFault::Memory => Err(AllocError),
    }
}

/// The states on the stack once the last of the tokens is shifted; or where they are stuck, and on what.
fn stack_text(
    alloc: Global,
    states: &[Lr1State<'_>],
    terminals: &TerminalSet,
    tokens: &str,
) -> Result<String, AllocError>
    requires { AreParsable terminals.now states.now }
{
    match interpret_partial(alloc, states, terminals, read_tokens(alloc, tokens)?) {
        Ok(stack) => Ok(format!(in alloc; "{stack:?}")?),
        Err(fault) => stuck_text(alloc, fault),
    }
}

/// The tree of `N - ( N - N )`.
const TREE: &str =
    r#"[S: [E: [E: [T: "N"]], "-", [T: "(", [E: [E: [T: "N"]], "-", [T: "N"]], ")"]]]"#;

fn have_trees(rt: &impl Abort, alloc: Global, states: &[Lr1State<'_>], terminals: &TerminalSet)
    requires { AreParsable terminals.now states.now }
{
    let text = answer_tokens(alloc, states, terminals, "N - ( N - N )").expect(rt, "a tree");
    check(rt, text_is(text, TREE));
    let text = answer_tokens(alloc, states, terminals, "N N").expect(rt, "a state");
    check(rt, text_is(text, r#"stuck in state 4 on "N""#));
    let text = answer_tokens(alloc, states, terminals, "").expect(rt, "a state");
    check(rt, text_is(text, "stuck in state 0 on Eof"));
}

fn have_stacks(rt: &impl Abort, alloc: Global, states: &[Lr1State<'_>], terminals: &TerminalSet)
    requires { AreParsable terminals.now states.now }
{
    let text = stack_text(alloc, states, terminals, "N").expect(rt, "memory");
    check(rt, text_is(text, "[S0, S4]"));
    let text = stack_text(alloc, states, terminals, "").expect(rt, "memory");
    check(rt, text_is(text, "[S0]"));
    let text = stack_text(alloc, states, terminals, "N N").expect(rt, "memory");
    check(rt, text_is(text, r#"4 "N""#));
}

// State 0 leads by E to 1, by T to 2, by the parenthesis to 3, and by N to 4.
fn collapsed_states_answer(rt: &impl Abort, alloc: Global, grammar: &Grammar)
    requires { HasItsTerminals grammar.now }
{
    let start = name_of(rt, alloc, "S");
    let states = collapsed_states(alloc, grammar, &start).expect(rt, "states");
    have_trees(rt, alloc, states.as_slice(), &grammar.terminals);
    have_stacks(rt, alloc, states.as_slice(), &grammar.terminals);
}

#[test]
fn trees_and_stacks_by_collapsed_states(rt: HostRuntime) {
    let alloc = rt.alloc();
    let grammar = grammar_of(&rt, alloc, DIFFERENCES);
    collapsed_states_answer(&rt, alloc, &grammar);
}
