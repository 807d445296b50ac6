//! Inlining: in which order, into which productions, and for which choices these stand.

use crate::check::{check, check_row};
use crate::given::{name_of, prepared_grammar, production_at};
use crate::parses::grammars::{NESTED, TWICE};
use lalrpop_grammar_repr::{Grammar, Symbol};
use lalrpop_lr1::inline_order;
use lalrpop_run_parser::Prepared;
use lalrpop_run_trees::flat_labels::{LabelMark, LabelTable};
use std::alloc::Global;
use std::process::Abort;

/// The names of the inlined rules in their order, as `Debug` prints them.
fn order_text(rt: &impl Abort, alloc: Global, grammar: &Grammar) -> String {
    let found = inline_order(alloc, grammar).expect(rt, "an order");
    format!(in alloc; "{found:?}").expect(rt, "memory")
}

/// The inner of two inlined rules comes first.
#[test]
fn a_rule_that_another_names_is_inlined_before_it(rt: HostRuntime) {
    let prepared = prepared_grammar(&rt, rt.alloc(), NESTED, "S");
    let text = order_text(&rt, rt.alloc(), prepared.lowered());
    let wanted = r#"[NonterminalString("B"), NonterminalString("A")]"#;
    check(&rt, text.as_str() == wanted);
}

/// Puts the symbols behind the text, a blank before each.
fn write_symbols(rt: &impl Abort, symbols: &[Symbol], text: &mut String) {
    for symbol in symbols {
        let written = match symbol {
            Symbol::Nonterminal(name) => write!(text, " {name}"),
            Symbol::Terminal(terminal) => write!(text, " {terminal}"),
        };
        written.expect(rt, "memory");
    }
}

/// The right sides of the nonterminal, in order, a bar before each.
fn right_sides(rt: &impl Abort, alloc: Global, grammar: &Grammar, name: &str) -> String {
    let mut text = String::new(alloc);
    let name = name_of(rt, alloc, name);
    for production in grammar.productions_for(&name) {
        text.push_str("|").expect(rt, "memory");
        write_symbols(rt, production.symbols.as_slice(), &mut text);
    }
    text
}

/// Nonterminals before inlining, with their right sides.
static SIDES_BEFORE: [(&str, &str); 2] = [("S", "| Op Op"), ("Op", r#"| "a"| "b""#)];

/// The same after it, where `S` has four choices, of which the last place changes first, and `Op` is left as it is.
static SIDES_AFTER: [(&str, &str); 3] = [
    ("__S", "| S"),
    ("S", r#"| "a" "a"| "a" "b"| "b" "a"| "b" "b""#),
    ("Op", r#"| "a"| "b""#),
];

/// That the nonterminals have these right sides.
fn has_sides(rt: &impl Abort, alloc: Global, grammar: &Grammar, wanted: &[(&str, &str)]) {
    for (name, sides) in wanted {
        let found = right_sides(rt, alloc, grammar, name);
        check_row(rt, name, found.as_str() == *sides);
    }
}

/// The mark of the choice that the nonterminal's production at that place is before inlining.
fn mark_of(
    rt: &impl Abort,
    alloc: Global,
    prepared: &Prepared,
    name: &str,
    place: usize,
) -> LabelMark {
    let production = production_at(rt, alloc, prepared.lowered(), name, place);
    LabelMark::Given(production.action.index())
}

/// That the table tells this place for the label with these marks.
fn finds(
    rt: &impl Abort,
    alloc: Global,
    labels: &LabelTable,
    marks: &[LabelMark],
    place: Option<usize>,
) {
    let label = Vec::from_slice(alloc, marks).expect(rt, "memory");
    check(rt, labels.place(&label) == place);
}

/// That the table tells these places for the choices of `S`, and of `Op`.
fn are_found(rt: &impl Abort, alloc: Global, labels: &LabelTable, marks: [LabelMark; 3]) {
    let [whole, a, b] = marks;
    let kept = LabelMark::Kept;
    finds(rt, alloc, labels, &[whole, a, kept, a, kept], Some(0));
    finds(rt, alloc, labels, &[whole, a, kept, b, kept], Some(1));
    finds(rt, alloc, labels, &[whole, b, kept, a, kept], Some(2));
    finds(rt, alloc, labels, &[whole, b, kept, b, kept], Some(3));
    finds(rt, alloc, labels, &[a, kept], Some(0));
    finds(rt, alloc, labels, &[b, kept], Some(1));
    finds(rt, alloc, labels, &[kept], None);
}

// A production of `S` stands for the choice of `S`, and in each of its places for one of `Op`, whose terminal is kept. None stands for a
// symbol that no choice keeps.
fn finds_productions(rt: &impl Abort, alloc: Global, prepared: &Prepared) {
    let whole = mark_of(rt, alloc, prepared, "S", 0);
    let a = mark_of(rt, alloc, prepared, "Op", 0);
    let b = mark_of(rt, alloc, prepared, "Op", 1);
    let labels = prepared.labels(alloc).expect(rt, "memory");
    are_found(rt, alloc, &labels, [whole, a, b]);
}

/// That choices are productions below the start, with labels by which they are found.
fn has_productions(rt: &impl Abort, alloc: Global, prepared: &Prepared) {
    check(rt, prepared.start_name().0.as_str() == "__S");
    has_sides(rt, alloc, prepared.lowered(), &SIDES_BEFORE);
    has_sides(rt, alloc, prepared.expansion(), &SIDES_AFTER);
    finds_productions(rt, alloc, prepared);
}

#[test]
fn each_choice_has_a_production_that_is_found_by_its_label(rt: HostRuntime) {
    let prepared = prepared_grammar(&rt, rt.alloc(), TWICE, "S");
    has_productions(&rt, rt.alloc(), &prepared);
}
