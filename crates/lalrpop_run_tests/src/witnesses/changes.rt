//! Certificates of two inlined alternatives that somebody makes: what is told, and what is changed in it or asked of it.

use crate::check::{boxed, check, check_row};
use crate::given::{name_of, prepared_grammar, production_at};
use crate::witnesses::copies::{NO_ACTION, Own, copy_with};
use crate::witnesses::given::{is_taken, terminal_of};
use crate::witnesses::grammars::{INLINED, OPERATORS};
use crate::witnesses::trees::{Shape, leaves_of, tree_of};
use lalrpop_grammar::TerminalString;
use lalrpop_grammar_repr::{ActionFn, Production};
use lalrpop_judge::certificates_refute;
use lalrpop_run_parser::{Certificate, Move, Prepared};
use std::alloc::Global;
use std::process::Abort;

/// What a move is.
#[derive(Clone, Copy)]
enum Told {
    /// The reduction by the first tree's production.
    First,
    /// That by the second's.
    Second,
    /// A reduction by no action of the grammar.
    Other,
    /// The shift of a quoted terminal.
    Shift(&'static str),
}

/// A certificate of two trees with a production that inlining makes of `S` each.
#[derive(Clone, Copy)]
struct Change {
    /// What is shown.
    shows: &'static str,
    /// What the first tree's production has of its own.
    own: Own,
    /// The tokens that both sentences have in common.
    shared: &'static str,
    /// The terminal that comes next, the end where it is empty.
    next: &'static str,
    /// The moves.
    moves: (Told, Told),
    /// The trees.
    trees: (Shape, Shape),
    /// What is asked of it.
    asked: Asked,
}

/// A grammar with its start, and the nonterminal from which there are to be two sentences.
type Asked = (&'static str, &'static str, &'static str);

/// The grammar whose productions the trees are over.
const ITSELF: Asked = (INLINED, "S", "__S");

/// The reductions by both productions.
const REDUCTIONS: (Told, Told) = (Told::First, Told::Second);

/// The trees of both sentences.
const WHOLE: (Shape, Shape) = (Shape::Whole("ax"), Shape::Whole("ax"));

/// What is told.
static TOLD: Change = Change {
    shows: "what is told",
    own: Own::Nothing,
    shared: "ax",
    next: "",
    moves: REDUCTIONS,
    trees: WHOLE,
    asked: ITSELF,
};

// "z" is no terminal of the grammar, "T" no nonterminal. Both sentences shift two tokens, and reduce twice.
static CHANGES: [Change; 20] = [
    Change {
        shows: "the first reduction twice",
        own: Own::Nothing,
        shared: "ax",
        next: "",
        moves: (Told::First, Told::First),
        trees: WHOLE,
        asked: ITSELF,
    },
    Change {
        shows: "a reduction by no action",
        own: Own::Nothing,
        shared: "ax",
        next: "",
        moves: (Told::First, Told::Other),
        trees: WHOLE,
        asked: ITSELF,
    },
    Change {
        shows: "the shift that both sentences make",
        own: Own::Nothing,
        shared: "",
        next: "a",
        moves: (Told::Shift("a"), Told::Shift("a")),
        trees: WHOLE,
        asked: ITSELF,
    },
    Change {
        shows: "that shift and another",
        own: Own::Nothing,
        shared: "",
        next: "a",
        moves: (Told::Shift("a"), Told::Shift("x")),
        trees: WHOLE,
        asked: ITSELF,
    },
    Change {
        shows: "another terminal next",
        own: Own::Nothing,
        shared: "ax",
        next: "x",
        moves: REDUCTIONS,
        trees: WHOLE,
        asked: ITSELF,
    },
    Change {
        shows: "no terminal of the grammar next",
        own: Own::Nothing,
        shared: "ax",
        next: "z",
        moves: REDUCTIONS,
        trees: WHOLE,
        asked: ITSELF,
    },
    Change {
        shows: "one token too few in common",
        own: Own::Nothing,
        shared: "a",
        next: "",
        moves: REDUCTIONS,
        trees: WHOLE,
        asked: ITSELF,
    },
    Change {
        shows: "no token in common",
        own: Own::Nothing,
        shared: "",
        next: "",
        moves: REDUCTIONS,
        trees: WHOLE,
        asked: ITSELF,
    },
    Change {
        shows: "one token too many",
        own: Own::Nothing,
        shared: "axx",
        next: "",
        moves: REDUCTIONS,
        trees: WHOLE,
        asked: ITSELF,
    },
    Change {
        shows: "more tokens than there are moves",
        own: Own::Nothing,
        shared: "axxxx",
        next: "",
        moves: REDUCTIONS,
        trees: WHOLE,
        asked: ITSELF,
    },
    Change {
        shows: "a token at another place in common",
        own: Own::Nothing,
        shared: "a x",
        next: "",
        moves: REDUCTIONS,
        trees: WHOLE,
        asked: ITSELF,
    },
    Change {
        shows: "a leaf at another place",
        own: Own::Nothing,
        shared: "ax",
        next: "",
        moves: REDUCTIONS,
        trees: (Shape::Whole("a x"), Shape::Whole("ax")),
        asked: ITSELF,
    },
    Change {
        shows: "a tree that isn't the start's",
        own: Own::Nothing,
        shared: "ax",
        next: "",
        moves: REDUCTIONS,
        trees: (Shape::Whole("ax"), Shape::Below("ax")),
        asked: ITSELF,
    },
    Change {
        shows: "leaves alone",
        own: Own::Nothing,
        shared: "",
        next: "a",
        moves: (Told::Shift("a"), Told::Second),
        trees: (Shape::Leaf("a"), Shape::Leaf("a")),
        asked: ITSELF,
    },
    Change {
        shows: "a production with another action",
        own: Own::Action,
        shared: "ax",
        next: "",
        moves: REDUCTIONS,
        trees: WHOLE,
        asked: ITSELF,
    },
    Change {
        shows: "a production at another place",
        own: Own::Place,
        shared: "ax",
        next: "",
        moves: REDUCTIONS,
        trees: WHOLE,
        asked: ITSELF,
    },
    Change {
        shows: "a production of another nonterminal",
        own: Own::Name,
        shared: "ax",
        next: "",
        moves: REDUCTIONS,
        trees: WHOLE,
        asked: ITSELF,
    },
    Change {
        shows: "sentences of a rule below the start",
        own: Own::Nothing,
        shared: "ax",
        next: "",
        moves: REDUCTIONS,
        trees: WHOLE,
        asked: (INLINED, "S", "S"),
    },
    Change {
        shows: "sentences of no rule",
        own: Own::Nothing,
        shared: "ax",
        next: "",
        moves: REDUCTIONS,
        trees: WHOLE,
        asked: (INLINED, "S", "T"),
    },
    Change {
        shows: "sentences of another grammar",
        own: Own::Nothing,
        shared: "ax",
        next: "",
        moves: REDUCTIONS,
        trees: WHOLE,
        asked: (OPERATORS, "E", "__S"),
    },
];

/// The quoted terminal that comes next, none where the text is empty.
fn next_of(rt: &impl Abort, alloc: Global, text: &str) -> Option<TerminalString> {
    if text.is_empty() {
        None
    } else {
        Some(terminal_of(rt, alloc, text))
    }
}

/// The move, where the reductions are by these actions.
fn move_of(rt: &impl Abort, alloc: Global, first: ActionFn, second: ActionFn, told: Told) -> Move {
    match told {
        Told::First => Move::Reduce(first),
        Told::Second => Move::Reduce(second),
        Told::Other => Move::Reduce(ActionFn::new(NO_ACTION)),
        Told::Shift(text) => Move::Shift(terminal_of(rt, alloc, text)),
    }
}

/// The row's certificate, with this production in the first tree.
fn certificate_over<'p>(
    rt: &impl Abort,
    alloc: Global,
    prepared: &'p Prepared,
    first: &'p Production,
    row: &Change,
) -> Box<Certificate<'p>> {
    let second = production_at(rt, alloc, prepared.expansion(), "S", 1);
    let certificate = Certificate {
        shared: leaves_of(rt, alloc, prepared, row.shared),
        next: next_of(rt, alloc, row.next),
        move1: move_of(rt, alloc, first.action, second.action, row.moves.0),
        tree1: tree_of(rt, alloc, prepared, first, row.trees.0),
        move2: move_of(rt, alloc, first.action, second.action, row.moves.1),
        tree2: tree_of(rt, alloc, prepared, second, row.trees.1),
    };
    boxed(rt, alloc, certificate)
}

/// Whether the row's certificate is taken for two sentences of what is asked.
fn is_taken_as(rt: &impl Abort, alloc: Global, prepared: &Prepared, row: &Change) -> bool {
    let first = production_at(rt, alloc, prepared.expansion(), "S", 0);
    let copy = copy_with(rt, alloc, first, row.own);
    let certificate = certificate_over(rt, alloc, prepared, &copy, row);
    let asked = prepared_grammar(rt, alloc, row.asked.0, row.asked.1);
    let name = name_of(rt, alloc, row.asked.2);
    is_taken(rt, alloc, &asked, &name, &certificate)
}

/// That what is told is taken, whoever makes it, and nothing that is changed.
fn takes_what_is_told(rt: &impl Abort, alloc: Global) {
    let prepared = prepared_grammar(rt, alloc, INLINED, "S");
    check(rt, is_taken_as(rt, alloc, &prepared, &TOLD));
    for row in CHANGES.iter() {
        check_row(rt, row.shows, !is_taken_as(rt, alloc, &prepared, row));
    }
}

#[test]
fn two_inlined_alternatives_are_told_apart_and_nothing_else_is_taken(rt: HostRuntime) {
    takes_what_is_told(&rt, rt.alloc());
}

#[test]
fn the_law_of_certificates_is_called() {
    certificates_refute();
}
