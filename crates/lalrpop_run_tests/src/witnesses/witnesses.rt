//! The certificate of one conflict alone.

ghost use Rattle.std.specs.Prelude.{◌<◌, length};
ghost use Rattle.lalrpop_run_parser.specs.Witnesses.{AreItsConflicts};

use crate::check::check;
use crate::given::{folded_of, prepared_grammar, stands_for};
use crate::witnesses::given::{certificates_of, is_taken};
use crate::witnesses::grammars::{INLINED, OPERATORS};
use lalrpop_lr1::{
    ExpandedTree, Lr1TableConstructionError, TableFault, build_lr1_states_canonical,
};
use lalrpop_run_parser::folding::unfold;
use lalrpop_run_parser::{Certificate, Prepared, witness};
use std::alloc::{AllocError, Global};
use std::process::Abort;

/// That the two trees stand for one written tree, which is admitted, is folded, and is unfolded to itself.
fn are_of_one(
    rt: &impl Abort,
    alloc: Global,
    prepared: &Prepared,
    made: &ExpandedTree<'_>,
    told: &ExpandedTree<'_>,
) {
    let written = unfold(alloc, prepared, told).expect(rt, "memory");
    check(rt, stands_for(rt, alloc, prepared, made, &written));
    let folded = folded_of(rt, alloc, prepared, &written);
    check(rt, stands_for(rt, alloc, prepared, &folded, &written));
}

/// That the told certificate is taken, and the two are one, whose trees stand for written ones.
fn agree(
    rt: &impl Abort,
    alloc: Global,
    prepared: &Prepared,
    made: &Certificate<'_>,
    told: &Certificate<'_>,
) {
    let start = prepared.start_name();
    check(rt, is_taken(rt, alloc, prepared, start, told));
    check(rt, made.next == told.next);
    check(rt, made.shared.len() == told.shared.len());
    check(rt, (made.move1 == told.move1) & (made.move2 == told.move2));
    are_of_one(rt, alloc, prepared, &made.tree1, &told.tree1);
    are_of_one(rt, alloc, prepared, &made.tree2, &told.tree2);
}

/// That the certificate that is made of the conflict with the number alone is the told one with that number.
fn agrees_at<'p>(
    rt: &impl Abort,
    alloc: Global,
    prepared: &'p Prepared,
    error: &Lr1TableConstructionError<'p>,
    number: usize,
    told: &[Certificate<'_>],
)
    requires conflicts { AreItsConflicts prepared.now error.now }
    requires number { number < length error.now.conflicts.items }
{
    let made = witness(alloc, prepared, error, number).expect(rt, "memory");
    let one = told.get(number).expect(rt, "a certificate");
    agree(rt, alloc, prepared, &made, one);
}

/// That so it is for each of the conflicts.
fn agree_in_order<'p>(
    rt: &impl Abort,
    alloc: Global,
    prepared: &'p Prepared,
    error: &Lr1TableConstructionError<'p>,
    told: &[Certificate<'_>],
)
    requires { AreItsConflicts prepared.now error.now }
{
    check(rt, error.conflicts.len() == told.len());
    for number in 0..error.conflicts.len() {
        agrees_at(rt, alloc, prepared, error, number, told);
    }
}

/// That so it is for each of the conflicts of the canonical states, where there are some.
fn agree_with_told(
    rt: &impl Abort,
    alloc: Global,
    prepared: &Prepared,
    told: &[Certificate<'_>],
) -> Result<(), AllocError> {
    prepared.known();
    let start = prepared.start_name().try_clone()?;
    match build_lr1_states_canonical(alloc, prepared.expansion(), start) {
        Ok(_) => Ok(()),
        Err(TableFault::Conflicts(error)) => {
            agree_in_order(rt, alloc, prepared, &error, told);
            Ok(())
        }
        Err(TableFault::Memory) => Err(AllocError),
    }
}

/// Grammars, their starts, and how many conflicts they have: each of two operators in each operand of each.
static GRAMMARS: [(&str, &str, usize); 2] = [(INLINED, "S", 1), (OPERATORS, "E", 4)];

/// That the grammar has so many conflicts, of each of which the certificate that is made of it alone is the told one.
fn makes_each(rt: &impl Abort, alloc: Global, json: &str, start: &str, count: usize) {
    let prepared = prepared_grammar(rt, alloc, json, start);
    let told = certificates_of(rt, alloc, &prepared);
    check(rt, told.len() == count);
    agree_with_told(rt, alloc, &prepared, told.as_slice()).expect(rt, "memory");
}

#[test]
fn the_witness_of_each_conflict_is_its_certificate_whose_trees_are_admitted(rt: HostRuntime) {
    for (json, start, count) in GRAMMARS.iter() {
        makes_each(&rt, rt.alloc(), json, start, *count);
    }
}
