//! The pass over macros, by the judge's finder and by finders of the tests' own.

use crate::check::check;
use crate::finders::{FindsNothing, GivesUp, WithoutMemory};
use crate::grammars::{COMMAS, CONDITIONS, MACRO_LIMIT, expanded_grammar, leveled_grammar};
use crate::parts::has_sides;
use lalrpop_grammar::Grammar;
use lalrpop_grammar_rules::closed::Finder;
use lalrpop_grammar_rules::search::PatternFinder;
use lalrpop_norm::NormFault;
use lalrpop_norm_macros::expand_macros_by;
use std::alloc::Global;
use std::process::Abort;

/// The rules of the expanded comma grammar, and their alternatives.
static EXPANDED: [(&str, &str); 6] = [
    ("L", r#"| Comma<"n">"#),
    (r#"Comma<"n">"#, r#"| <(<"n"> ",")*> <"n"?>"#),
    (r#"(<"n"> ",")*"#, r#"|| (<"n"> ",")+"#),
    (
        r#"(<"n"> ",")+"#,
        r#"| (<"n"> ",")| (<"n"> ",")+ (<"n"> ",")"#,
    ),
    (r#"(<"n"> ",")"#, r#"| <"n"> ",""#),
    (r#""n"?"#, r#"| "n"|"#),
];

/// How many rules the grammar has.
fn rule_count(grammar: &Grammar) -> usize {
    let mut count = 0usize;
    for _ in grammar.rules() {
        count = count.saturating_add(1);
    }
    count
}

/// That the grammar has these rules.
fn is_expanded(rt: &impl Abort, alloc: Global, grammar: &Grammar) {
    for (name, sides) in EXPANDED.iter() {
        has_sides(rt, alloc, grammar, name, sides);
    }
}

#[test]
fn each_call_repeat_and_group_becomes_a_rule(rt: HostRuntime) {
    let grammar = expanded_grammar(&rt, rt.alloc(), COMMAS);
    check(&rt, rule_count(&grammar) == EXPANDED.len());
    is_expanded(&rt, rt.alloc(), &grammar);
}

/// What the finder makes of the grammar of conditions: it is expanded, or a fault is told.
type Expanded = Result<Grammar, NormFault>;

/// The grammar of conditions, expanded by the finder; or the fault.
fn expand_by<F: Finder>(rt: &impl Abort, alloc: Global, finder: &F) -> Box<Expanded> {
    let leveled = leveled_grammar(rt, alloc, CONDITIONS);
    let expanded = expand_macros_by(alloc, finder, Box::into_inner(leveled), MACRO_LIMIT);
    let boxed: Result<_, _> = Box::new(alloc, expanded);
    boxed.expect(rt, "memory")
}

/// That the finder leaves the macro these alternatives.
fn leaves<F: Finder>(rt: &impl Abort, alloc: Global, finder: &F, sides: &str) {
    match &*expand_by(rt, alloc, finder) {
        Ok(grammar) => has_sides(rt, alloc, grammar, r#"M<"ax">"#, sides),
        Err(_) => panic!(rt; "a fault"),
    }
}

/// Whether the finder has the grammar refused for this.
fn refuses<F: Finder>(rt: &impl Abort, alloc: Global, finder: &F, wanted: &NormFault) -> bool {
    match &*expand_by(rt, alloc, finder) {
        Ok(_) => false,
        Err(fault) => *fault == *wanted,
    }
}

#[test]
fn conditions_hold_as_the_finder_says(rt: HostRuntime) {
    leaves(&rt, rt.alloc(), &PatternFinder, r#"| "a""#);
    leaves(&rt, rt.alloc(), &FindsNothing, r#"| "b""#);
    check(
        &rt,
        refuses(&rt, rt.alloc(), &GivesUp, &NormFault::ConditionLimit),
    );
    check(
        &rt,
        refuses(&rt, rt.alloc(), &WithoutMemory, &NormFault::Memory),
    );
}
