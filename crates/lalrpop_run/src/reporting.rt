//! What `report` replies.

ghost use Rattle.std.specs.Prelude.{◌≡◌, IfOk};
ghost use Rattle.lalrpop_grammar.specs.Views.{grammar_view};
ghost use Rattle.lalrpop_grammar.specs.declared.grammar.Grammar.{Grammar as WrittenGrammar};
ghost use Rattle.lalrpop_lane_report.specs.TableReports.{token_set_texts};
ghost use Rattle.lalrpop_norm_theory.specs.Premises.{IsReadGrammar};
ghost use Rattle.lalrpop_run.specs.Parsers.{IsPreparedFor};
ghost use Rattle.lalrpop_run.specs.Questions.{Question as AskedQuestion, question_view};
ghost use Rattle.lalrpop_run.specs.Report.{IsReportReply, TellsReport};

use crate::preparing::prepare_for;
use crate::questions::Question;
use crate::replies::{Reply, refusal_reply};
use lalrpop_grammar::Grammar;
use lalrpop_grammar_repr::TerminalSet;
use lalrpop_lane::build_lr1_states;
use lalrpop_lane_report::report_text;
use lalrpop_lr1_core::{Lr1Result, TableFault};
use lalrpop_run_options::Method;
use lalrpop_run_parser::Prepared;
use lalrpop_run_theory::answers::one_written_tree;
use std::alloc::{AllocError, Global};

/// What `report` replies to a grammar: the report of its tables, or why it is refused.
///
/// # Errors
///
/// Memory is refused.
pub(crate) fn report_reply(
    alloc: Global,
    question: Question<'_>,
    grammar: Grammar,
) -> Result<Reply, AllocError>
    ensures { IfOk result (λ reply. IsReadGrammar (grammar_view grammar)
        → IsReportReply (question_view question.entry) grammar reply) }
{
    let method = question.method;
    match prepare_for(alloc, question, grammar) {
        Ok(prepared) => tables_reply(alloc, &prepared, method),
        Err(error) => refusal_reply(error),
    }
}

/// The reply once the grammar is prepared: the report of its states, or of the canonical ones with their conflicts.
fn tables_reply(alloc: Global, prepared: &Prepared, method: Method) -> Result<Reply, AllocError>
    ensures { IfOk result (λ reply. (q : AskedQuestion) (g : WrittenGrammar) → q.method ≡ method
        → IsPreparedFor q g prepared.now → IsReportReply q g reply) }
{
    // the law and what is known of the grammar
    one_written_tree();
    prepared.known();
    let start = prepared.start_name().try_clone()?;
    let expansion = prepared.expansion();
    let tables = build_lr1_states(alloc, expansion, start, method);
    tell_tables(alloc, &tables, &expansion.terminals)
}

/// The reply that tells what was constructed. Want of memory is none.
fn tell_tables(
    alloc: Global,
    tables: &Lr1Result<'_>,
    terminals: &TerminalSet,
) -> Result<Reply, AllocError>
    ensures { IfOk result (λ reply. TellsReport (token_set_texts terminals.now) tables.now reply) }
{
    match tables {
        Ok(_) => Ok(Reply::Report(report_text(alloc, tables, terminals)?, false)),
        Err(TableFault::Conflicts(_)) => {
            Ok(Reply::Report(report_text(alloc, tables, terminals)?, true))
        }
        Err(TableFault::Memory) => Err(AllocError),
    }
}
