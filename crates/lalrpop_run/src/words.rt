//! The run over the text that the words give.

ghost use Rattle.std.specs.Prelude.{◌≡◌, Bool, Some, false, length, nat_lt, string_bytes};
ghost use Rattle.lalrpop_run.specs.Questions.{question_of, reads_grammar};
ghost use Rattle.lalrpop_run.specs.Runs.{IsRightRun};

mod given_text;
mod unreadable;

use crate::running::run;
use given_text::GivenText;
use lalrpop_grammar_streams::{MAX_BYTES, Sink, Source};
use lalrpop_run_options::Options;
use std::alloc::Global;
use unreadable::Unreadable;

/// Answers the words over the grammar's JSON, as [`run`] does; the text is the one that the words give. Where the answer needs it and it has
/// more than 16,777,216 bytes, that is a read fault.
pub fn run_words<R: Source, W: Sink>(
    alloc: Global,
    options: &Options,
    grammar: &mut R,
    out: &mut W,
) -> u8
    ensures right { W.has_failed out.old ≡ false → (text_ended : Bool) × IsRightRun
        (question_of options.now)
        (record {
          known = R.remaining grammar.old;
          had_ended = R.ended grammar.old;
          has_failed = R.has_failed grammar.new;
          has_ended = R.ended grammar.new;
        })
        (record {
          known = Some (string_bytes options.now.text);
          had_ended = false;
          has_failed = nat_lt 16777216 (length (string_bytes options.now.text));
          has_ended = text_ended;
        })
        (record { before = W.contents out.old; after = W.contents out.new; has_failed = W.has_failed out.new })
        result }
    ensures grammar_unread { reads_grammar (question_of options.now) ≡ false → grammar.new ≡ grammar.old }
    ensures grammar_uses { R.ended grammar.old ≡ false → R.misused grammar.new ≡ R.misused grammar.old }
{
    let text = options.text.as_bytes();
    if text.len() as u64 > MAX_BYTES {
        let mut unreadable = Unreadable::new(text);
        return run(alloc, options, grammar, &mut unreadable, out);
    }
    let mut given = GivenText::new(text);
    run(alloc, options, grammar, &mut given, out)
}
