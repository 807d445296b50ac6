//! Paths to the canonical states of pairs, and completions of the first.

ghost use Rattle.lalrpop_lr1_first.specs.NumberedGrammars.{HasItsTerminals};
ghost use Rattle.lalrpop_lr1_least_trees.specs.GrammarTrees.{AreLeastTrees};
ghost use Rattle.lalrpop_lr1_paths.specs.CompletionGraphs.{AreCompletionGraphs};
ghost use Rattle.lalrpop_lr1_paths.specs.PathTables.{AreStatePaths};
ghost use Rattle.lalrpop_lr1_paths.specs.CompletionSearches.{IsAnyCompletion, IsWantedCompletion};

use crate::check::{check, text_is};
use crate::grammars::{PAIRS, grammar_of, name_of, production_at, terminal_of};
use lalrpop_grammar_repr::Grammar;
use lalrpop_grammar_symbols::NonterminalString;
use lalrpop_lr1_build::build_lr1_states_canonical;
use lalrpop_lr1_core::Lr1State;
use lalrpop_lr1_least_trees::{LeastTrees, TreeMove};
use lalrpop_lr1_paths::completions::{
    AnyCompletion, CompletionGraphs, EndCompletion, StatePaths, WantedCompletion, WantedSteps,
};
use std::alloc::{AllocError, Global};
use std::process::Abort;

/// The nonterminals of pairs.
#[derive(Clone, Copy)]
struct Names<'g> {
    start: &'g NonterminalString,
    pair: &'g NonterminalString,
    one: &'g NonterminalString,
}

/// Writes the move: the terminal that is shifted, or the nonterminal of the production, behind a blank.
fn push_move(rt: &impl Abort, step: &TreeMove<'_>, text: &mut String) {
    match step {
        TreeMove::Shift(terminal) => write!(text, " {terminal}").expect(rt, "memory"),
        TreeMove::Reduce(production) => {
            write!(text, " {}", production.nonterminal).expect(rt, "memory")
        }
    }
}

/// Writes the moves.
fn push_moves(rt: &impl Abort, moves: &[TreeMove<'_>], text: &mut String) {
    for step in moves {
        push_move(rt, step, text);
    }
}

/// That these are the moves; `-` stands for none.
fn are_moves(
    rt: &impl Abort,
    alloc: Global,
    found: Result<Option<Vec<TreeMove<'_>>>, AllocError>,
    wanted: &str,
) {
    let mut text = String::new(alloc);
    match found {
        Ok(None) => text.push_str("-").expect(rt, "memory"),
        Ok(Some(moves)) => push_moves(rt, moves.as_slice(), &mut text),
        Err(_) => {}
    }
    check(rt, text_is(text, wanted));
}

/// How many moves there are to the state, which are as many as are counted.
fn count_to(rt: &impl Abort, alloc: Global, paths: &StatePaths<'_, '_>, state: usize) -> u64
    requires { AreStatePaths paths.now }
{
    let count = paths.count(alloc, state).expect(rt, "memory");
    let moves = paths.moves(alloc, state).expect(rt, "memory");
    check(rt, moves.expect(rt, "moves").len() as u64 == count);
    count
}

// The states stand behind nothing, "c", "d", `C` and `S`, behind `C "c"`, `C "d"` and `C C`, and behind `"c" C` and `C "c" C`. A tree of
// `C` takes two moves, one of `S` five.
fn have_light_paths(rt: &impl Abort, alloc: Global, paths: &StatePaths<'_, '_>)
    requires { AreStatePaths paths.now }
{
    let mut all = 0u64;
    for state in 0..10 {
        all = all.saturating_add(count_to(rt, alloc, paths, state));
    }
    check(rt, all == (1 + 1 + 2 + 5) + (3 + 3 + 4) + (3 + 5));
}

/// The moves that are left behind a tree in the first state where "c" comes next.
fn lead_by(
    rt: &impl Abort,
    alloc: Global,
    wanted: &WantedCompletion<'_, '_, '_, '_>,
    names: Names<'_>,
)
    requires { IsWantedCompletion wanted.now }
{
    are_moves(rt, alloc, wanted.moves(alloc, 0, names.pair), "-");
    let found = wanted.moves(alloc, 0, names.one);
    are_moves(rt, alloc, found, r#" "c" "d" C C S __S"#);
}

fn lead_to_c(rt: &impl Abort, alloc: Global, out: &AnyCompletion<'_, '_, '_>, names: Names<'_>)
    requires { IsAnyCompletion out.now }
{
    let terminal = terminal_of(rt, alloc, "c");
    let steps = WantedSteps::new(alloc, out, &terminal).expect(rt, "memory");
    let wanted = WantedCompletion::new(alloc, &steps).expect(rt, "memory");
    lead_by(rt, alloc, &wanted, names);
}

/// The moves that are left where anything may come next, and those where "c" does.
fn lead_out(rt: &impl Abort, alloc: Global, ways: &CompletionGraphs<'_, '_>, names: Names<'_>)
    requires { AreCompletionGraphs ways.now }
{
    let out = AnyCompletion::new(alloc, ways).expect(rt, "memory");
    are_moves(rt, alloc, out.moves(alloc, 0, names.pair), " __S");
    let found = out.moves(alloc, 0, names.one);
    are_moves(rt, alloc, found, r#" "d" C S __S"#);
    lead_to_c(rt, alloc, &out, names);
}

/// The moves that are left where no terminal comes.
fn lead_to_end(rt: &impl Abort, alloc: Global, ways: &CompletionGraphs<'_, '_>, names: Names<'_>)
    requires { AreCompletionGraphs ways.now }
{
    let out = EndCompletion::new(alloc, ways).expect(rt, "memory");
    are_moves(rt, alloc, out.moves(alloc, 0, names.pair), " __S");
    are_moves(rt, alloc, out.moves(alloc, 0, names.one), "-");
}

fn have_completions(
    rt: &impl Abort,
    alloc: Global,
    paths: &StatePaths<'_, '_>,
    states: &[Lr1State<'_>],
    names: Names<'_>,
)
    requires { AreStatePaths paths.now }
{
    let ways = CompletionGraphs::new(alloc, paths, states, names.start).expect(rt, "memory");
    lead_out(rt, alloc, &ways, names);
    lead_to_end(rt, alloc, &ways, names);
}

fn have_paths_and_completions(
    rt: &impl Abort,
    alloc: Global,
    trees: &LeastTrees<'_>,
    states: &[Lr1State<'_>],
    names: Names<'_>,
)
    requires { AreLeastTrees trees.now }
{
    let paths = StatePaths::new(alloc, trees, states).expect(rt, "memory");
    have_light_paths(rt, alloc, &paths);
    have_completions(rt, alloc, &paths, states, names);
}

fn states_have_paths(rt: &impl Abort, alloc: Global, grammar: &Grammar, states: &[Lr1State<'_>])
    requires { HasItsTerminals grammar.now }
{
    let names = Names {
        start: &production_at(rt, alloc, grammar, "__S", 0).nonterminal,
        pair: &production_at(rt, alloc, grammar, "S", 0).nonterminal,
        one: &production_at(rt, alloc, grammar, "C", 0).nonterminal,
    };
    let trees = LeastTrees::new(alloc, grammar).expect(rt, "memory");
    have_paths_and_completions(rt, alloc, &trees, states, names);
}

fn pairs_have_paths(rt: &impl Abort, alloc: Global, grammar: &Grammar)
    requires { HasItsTerminals grammar.now }
{
    let start = name_of(rt, alloc, "__S");
    let states = build_lr1_states_canonical(alloc, grammar, start).expect(rt, "states");
    states_have_paths(rt, alloc, grammar, states.as_slice());
}

#[test]
fn pairs_have_light_paths_and_completions(rt: HostRuntime) {
    let alloc = rt.alloc();
    let grammar = grammar_of(&rt, alloc, PAIRS);
    pairs_have_paths(&rt, alloc, &grammar);
}
