//! Conflicts as replies.

ghost use Rattle.std.specs.Prelude.{IfOk};
ghost use Rattle.lalrpop_grammar.specs.declared.grammar.Grammar.{Grammar as WrittenGrammar};
ghost use Rattle.lalrpop_run_parser.specs.Parsers.{IsGenerateRefusal};
ghost use Rattle.lalrpop_run.specs.Parsers.{IsNoParserReply, IsPreparedFor};
ghost use Rattle.lalrpop_run.specs.Questions.{Question as AskedQuestion};

use crate::replies::{Reply, written_conflicts};
use lalrpop_run_parser::Prepared;
use lalrpop_run_prepare::refusals::GenerateError;
use std::alloc::{AllocError, Global};

/// The reply that tells why a prepared grammar has no parser: its conflicts, with written trees. Want of memory is none.
pub(crate) fn conflicts_reply(
    alloc: Global,
    prepared: &Prepared,
    error: GenerateError<'_>,
) -> Result<Reply, AllocError>
    requires { IsGenerateRefusal prepared.now error }
    ensures { IfOk result (λ reply. (q : AskedQuestion) (g : WrittenGrammar) → IsPreparedFor q g prepared.now
        → IsNoParserReply q g reply) }
{
    // what is known of the grammar
    prepared.known();
    match error {
        GenerateError::Conflicts(certificates) => {
            let conflicts = written_conflicts(alloc, prepared, certificates.as_slice())?;
            Ok(Reply::Conflicts(conflicts))
        }
        GenerateError::Memory => Err(AllocError),
        GenerateError::Extern | GenerateError::Recovery | GenerateError::Norm(_) => unreachable!(),
        GenerateError::UnknownStart(_) | GenerateError::PrivateStart(_) => unreachable!(),
        GenerateError::Barren(_) | GenerateError::ConditionLimit => unreachable!(),
    }
}
