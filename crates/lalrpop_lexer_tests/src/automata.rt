//! Automata, asked state by state.

use crate::check::check;
use lalrpop_lexer::dfa::{DeadEnds, DfaStateIndex, Kind, NfaIndex, Precedence, build_dfa};
use lalrpop_lexer::nfa::{
    ACCEPT, Edge, EdgeLabel, Edges, Nfa, NfaConstructionError, Noop, Other, REJECT, START, State,
    StateKind, Test,
};
use lalrpop_lexer::re::{Regex, parse_literal};
use lalrpop_lexer_nfa::{FIRST_ACCEPT, NfaStateSet};
use lalrpop_lexer_regex::parse_regex;
use std::alloc::Global;
use std::process::Abort;

/// The pattern of the text itself.
fn literal(rt: &impl Abort, alloc: Global, text: &str) -> Regex {
    parse_literal(alloc, text).expect(rt, "a pattern")
}

/// The pattern that the regular expression spells.
fn regex(rt: &impl Abort, alloc: Global, text: &str) -> Regex {
    parse_regex(alloc, text).expect(rt, "a pattern")
}

/// That the start is of no kind, and the two states that end are of theirs.
fn has_kinds(rt: &impl Abort, nfa: &Nfa) {
    check(rt, nfa.kind(START) == StateKind::Neither);
    check(
        rt,
        nfa.is_accepting_state(ACCEPT) & !nfa.is_accepting_state(START),
    );
    check(
        rt,
        nfa.is_rejecting_state(REJECT) & !nfa.is_rejecting_state(START),
    );
}

/// That from the start one reads nothing, then the one character, and is at the end.
fn reads_one_character(rt: &impl Abort, nfa: &Nfa) {
    check(rt, nfa.edges::<Test>(START).count() == 0);
    check(rt, nfa.edges::<Other>(START).count() == 0);
    let first = nfa.edges::<Noop>(START).next().expect(rt, "an edge");
    check(rt, first.to.0 < nfa.state_count());
    let mut read = nfa.edges::<Test>(first.to);
    let edge = read.next().expect(rt, "an edge that reads");
    check(rt, (edge.label, edge.to) == (Test::char('a'), ACCEPT));
    check(rt, read.next().is_none());
}

#[test]
fn states_and_edges_of_one_character(rt: HostRuntime) {
    let alloc = rt.alloc();
    let nfa = Nfa::from_re(alloc, &literal(&rt, alloc, "a")).expect(&rt, "an automaton");
    has_kinds(&rt, &nfa);
    reads_one_character(&rt, &nfa);
}

/// The list and the place of one kind are changed, and the others stay.
#[test]
fn lists_and_places_of_one_kind(rt: HostRuntime) {
    let mut edges = Edges::new(rt.alloc());
    let edge = Edge {
        from: START,
        label: Test::char('a'),
        to: ACCEPT,
    };
    Test::vec_mut(&mut edges).push(edge).expect(&rt, "memory");
    check(&rt, Test::vec(&edges).len() == 1);
    check(&rt, Noop::vec(&edges).len() == 0);
    let mut state = State::new(StateKind::Neither);
    *Other::first_mut(&mut state) = 1;
    check(&rt, *Other::first(&state) == 1);
    check(&rt, *Test::first(&state) == 0);
}

/// How many states the automaton of the pattern has.
fn count_of(rt: &impl Abort, alloc: Global, pattern: &str) -> usize {
    let nfa = Nfa::from_re(alloc, &regex(rt, alloc, pattern)).expect(rt, "an automaton");
    nfa.state_count()
}

/// Of the copies that may be left out only the next one is entered.
fn enters_the_next_copy(rt: &impl Abort, alloc: Global, counted: &Nfa) {
    let mut set = NfaStateSet::new(alloc, counted.state_count()).expect(rt, "memory");
    let mut next = NfaStateSet::new(alloc, set.limit()).expect(rt, "memory");
    let fresh = set.insert(START.0).expect(rt, "memory");
    let again = set.insert(START.0).expect(rt, "memory");
    check(rt, fresh & !again);
    counted.close(&mut set).expect(rt, "memory");
    check(rt, set.members().len() == 4);
    counted.step(&set, 97, &mut next).expect(rt, "memory");
    check(rt, next.members().len() == 3);
}

/// Plus signs behind one another are one, and copies that may be left out stand in a row.
#[test]
fn repetitions_stay_small(rt: HostRuntime) {
    let alloc = rt.alloc();
    check(&rt, count_of(&rt, alloc, "a++++++++++++++++") == 5);
    let counted = Nfa::from_re(alloc, &regex(&rt, alloc, "a{0,1000}")).expect(&rt, "an automaton");
    enters_the_next_copy(&rt, alloc, &counted);
}

/// That `b` leads from the start to the second pattern's end.
fn reads_the_second(rt: &impl Abort, alloc: Global, nfa: &Nfa) {
    let mut set = NfaStateSet::new(alloc, nfa.state_count()).expect(rt, "memory");
    let mut next = NfaStateSet::new(alloc, nfa.state_count()).expect(rt, "memory");
    set.insert(START.0).expect(rt, "memory");
    nfa.close(&mut set).expect(rt, "memory");
    check(rt, set.members().len() == 3);
    nfa.step(&set, 98, &mut next).expect(rt, "memory");
    check(
        rt,
        next.contains(FIRST_ACCEPT + 1) & !next.contains(FIRST_ACCEPT),
    );
    next.clear();
    check(rt, next.members().len() == 0);
}

#[test]
fn one_automaton_for_several(rt: HostRuntime) {
    let alloc = rt.alloc();
    let patterns = vec![in alloc; literal(&rt, alloc, "a"), literal(&rt, alloc, "b")];
    let patterns = patterns.expect(&rt, "memory");
    let nfa = Nfa::from_all(alloc, &patterns).expect(&rt, "an automaton");
    reads_the_second(&rt, alloc, &nfa);
}

/// Whether the automaton of the pattern is refused for this.
fn is_refused(rt: &impl Abort, alloc: Global, pattern: &str, why: &NfaConstructionError) -> bool {
    match Nfa::from_re(alloc, &regex(rt, alloc, pattern)) {
        Err(error) => error == *why,
        Ok(_) => false,
    }
}

#[test]
fn refused_patterns(rt: HostRuntime) {
    let alloc = rt.alloc();
    check(
        &rt,
        is_refused(&rt, alloc, "\\b", &NfaConstructionError::LookAround),
    );
    check(
        &rt,
        is_refused(&rt, alloc, "a+?", &NfaConstructionError::NonGreedy),
    );
    check(
        &rt,
        is_refused(&rt, alloc, "(?<n>a)", &NfaConstructionError::NamedCaptures),
    );
}

#[test]
fn kinds_of_the_states_of_one_text(rt: HostRuntime) {
    let patterns = [literal(&rt, rt.alloc(), "ab")];
    let dfa = build_dfa(rt.alloc(), &patterns, &[Precedence(7)]).expect(&rt, "an automaton");
    check(&rt, dfa.state_count() == 3);
    check(&rt, dfa.kind(DfaStateIndex(0)) == Kind::Neither);
    check(
        &rt,
        dfa.kind(DfaStateIndex(2)) == Kind::Accepts(NfaIndex(0)),
    );
}

#[test]
fn no_pattern_is_rejected_at_once(rt: HostRuntime) {
    let dfa = build_dfa(rt.alloc(), &[], &[]).expect(&rt, "an automaton");
    check(&rt, dfa.state_count() == 1);
    check(&rt, dfa.kind(DfaStateIndex(0)) == Kind::Reject);
    check(
        &rt,
        (DfaStateIndex(4).index(), NfaIndex(5).index()) == (4, 5),
    );
}

/// So many letters that what is read behind the first in vain is counted, and noted the second time.
const LETTERS: &str = "aaaaaaaaaaaaaaaaaaaaaaaaaaaaaaaaaaaaaaaaaaaaaaaaaaaaaaaaaaaa";

/// What was noted changes no answer.
#[test]
fn dead_ends_are_noted(rt: HostRuntime) {
    let alloc = rt.alloc();
    let patterns = [literal(&rt, alloc, "a"), regex(&rt, alloc, "a*b")];
    let precedences = [Precedence(0), Precedence(0)];
    let dfa = build_dfa(alloc, &patterns, &precedences).expect(&rt, "an automaton");
    let mut ends = DeadEnds::new(alloc);
    let first = ends.interpret(&dfa, LETTERS);
    let second = ends.interpret(&dfa, LETTERS);
    let third = ends.interpret(&dfa, LETTERS);
    check(&rt, first == Some((NfaIndex(0), "a")));
    check(&rt, (second == first) & (third == first));
}
