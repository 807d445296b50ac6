//! The parser of a prepared grammar.

ghost use Rattle.std.specs.Prelude.{◌≡◌, Contains, IfErr, IfOk};
ghost use Rattle.lalrpop_grammar.specs.Views.{grammar_view};
ghost use Rattle.lalrpop_lr1_build.specs.CollapseAnswers.{states_over};
ghost use Rattle.lalrpop_lr1_core.specs.TheoryGrammars.{theory_grammar};
ghost use Rattle.lalrpop_lr1_theory.specs.Answers.{IsLr1};
ghost use Rattle.lalrpop_lr1_interpret.specs.Columns.{AreColumnsOf};
ghost use Rattle.lalrpop_lr1_interpret.specs.Tables.{IsTableOf};
ghost use Rattle.lalrpop_norm_theory.specs.Premises.{IsReadGrammar};
ghost use Rattle.lalrpop_run_parser.specs.Parsers.{HasOneTreeEach, HasStatesBy, HasTableBy};
ghost use Rattle.lalrpop_run_parser.specs.Parsers.{HaveShiftsAscending, IsGenerateRefusal, IsLalr1Refusal, ShowsConflicts};
ghost use Rattle.lalrpop_run_parser.specs.Witnesses.{AreItsConflicts};

use crate::parser::Parser;
use crate::witnesses::{Prepared, witnesses};
use lalrpop_grammar_repr::methods::Method;
use lalrpop_lane::build_lr1_states;
use lalrpop_lr1_core::{Lr1State, Lr1TableConstructionError, TableFault};
use lalrpop_lr1_interpret::parse::{ActionTable, Columns};
use lalrpop_run_prepare::refusals::GenerateError;
use lalrpop_run_theory::answers::one_written_tree;
use std::alloc::{AllocError, Global};

/// What is known of states: the terminals of each one's shifts ascend. A law for proofs.
fn shifts_known(states: &[Lr1State<'_>])
    ensures { HaveShiftsAscending states.now }
{
    for state in states {
        state.shifts.known();
    }
}

/// The refusal with a certificate for each of the conflicts, in their order; or `Memory`.
fn conflicts_refusal<'p>(
    alloc: Global,
    prepared: &'p Prepared,
    error: &Lr1TableConstructionError<'p>,
) -> GenerateError<'p>
    requires { AreItsConflicts prepared.now error.now }
    ensures { ShowsConflicts prepared.now error.now result }
{
    shifts_known(error.states.as_slice());
    match witnesses(alloc, prepared, error) {
        Ok(certificates) => GenerateError::Conflicts(certificates),
        Err(AllocError) => GenerateError::Memory,
    }
}

/// The table of the states, and for each entry of the scanner its column of the entry's terminal.
fn table_with_columns<'p>(
    alloc: Global,
    prepared: &'p Prepared,
    states: &[Lr1State<'p>],
) -> Result<(ActionTable<'p>, Columns), AllocError>
    ensures table { IfOk result (λ made. IsTableOf made.0 (states_over prepared.now.expansion.terminals states.now)) }
    ensures columns { IfOk result (λ made. AreColumnsOf made.0 prepared.now.scanner.terminals.items made.1.numbers.items) }
{
    let table = ActionTable::new(alloc, states, &prepared.expansion().terminals)?;
    let columns = table.columns_of(alloc, prepared.scanner().terminals())?;
    Ok((table, columns))
}

/// The parser of the grammar for its start, by LR(1) states. By lanes, where the expansion is LALR(1), it has one state for each nonempty
/// set of valid items, whatever may follow them (DeRemer, 1969), whichever number of copies is allowed, and no states that the expansion
/// may be parsed with are fewer.
///
/// # Errors
///
/// `Conflicts` where the grammar's expansion isn't LR(1), so never where it is LALR(1), with a certificate for each conflict of its canonical states, in their order; or
/// `Memory`.
pub fn generate<'p>(
    alloc: Global,
    prepared: &'p Prepared,
    method: Method,
) -> Result<Parser<'p>, GenerateError<'p>>
    ensures prepared { IfOk result (λ parser. parser.prepared ≡ prepared.now) }
    ensures states { IfOk result (λ parser. HasStatesBy method prepared.now parser.count) }
    ensures table { IfOk result (λ parser. HasTableBy method prepared.now parser.table parser.count) }
    ensures lr1 { IfOk result (λ _. IsLr1 (Contains (theory_grammar prepared.now.expansion)) prepared.now.start_name.0) }
    ensures one_tree { IfOk result (λ _. IsReadGrammar (grammar_view prepared.now.written) → HasOneTreeEach prepared.now) }
    ensures refused { IfErr result (IsGenerateRefusal prepared.now) }
    ensures lalr1 { IfErr result (IsLalr1Refusal prepared.now) }
{
    // the law and what is known of the grammar
    one_written_tree();
    prepared.known();
    let start = prepared.start_name().try_clone()?;
    match build_lr1_states(alloc, prepared.expansion(), start, method) {
        Ok(states) => {
            let built = states.as_slice();
            let (table, columns) = table_with_columns(alloc, prepared, built)?;
            Ok(Parser {
                prepared,
                table,
                columns,
                state_count: built.len(),
            })
        }
        Err(TableFault::Conflicts(error)) => { Err(conflicts_refusal(alloc, prepared, &error)) }
        Err(TableFault::Memory) => Err(GenerateError::Memory),
    }
}
