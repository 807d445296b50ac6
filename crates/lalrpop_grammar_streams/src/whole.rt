//! Reading a source to its end, and writing a whole text.

ghost use Rattle.std.specs.Prelude.{◌≡◌, true, false, not, OnOk, IfOk, IfErr};
ghost use Rattle.std.specs.Bool.{OnTrue, OnFalse};
ghost use Rattle.lalrpop_grammar_streams.specs.Streams.{ReadsAll, Writes};

use crate::error::SourceError;
use crate::sink::Sink;
use crate::source::Source;
use std::alloc::Global;
use std::io::ErrorKind;

/// All that the source has left. An interrupted call is made again. It isn't read behind its end, and a failure is
/// told only where it failed before it ended.
pub fn read_all<R: Source>(alloc: Global, reader: &mut R) -> Result<Vec<u8>, SourceError>
    ensures all { IfOk result (λ bytes. ReadsAll (R.remaining reader.old) bytes.items) }
    ensures keeps { OnOk result (R.has_failed reader.new ≡ false) }
    ensures fault { IfErr result (λ e. e ≡ SourceError.Failed → R.has_failed reader.new ≡ true) }
    ensures before_the_end { IfErr result (λ e. e ≡ SourceError.Failed
        → R.ended reader.old ≡ false → R.ended reader.new ≡ false) }
    ensures uses { R.ended reader.old ≡ false → R.misused reader.new ≡ R.misused reader.old }
{
    let mut bytes = Vec::new(alloc);
    let mut buffer = [0u8; 8192];
    'reading: while !reader.failed() {
        match reader.read(&mut buffer) {
            Ok(0) => return Ok(bytes),
            Ok(count) => {
                bytes.extend_from_slice(&buffer[..count])?;
            }
            Err(error) => {
                if error.kind() != ErrorKind::Interrupted {
                    return Err(SourceError::Failed);
                }
            }
        }
    }
    Err(SourceError::Failed)
}

/// Writes the text as far as the sink takes it, and answers whether it took all of it. An interrupted call is made
/// again.
pub fn write_all<W: Sink>(text: &[u8], writer: &mut W) -> bool
    ensures writes { W.has_failed writer.old ≡ false
        → Writes (W.contents writer.old) (W.contents writer.new) text.now (not result) }
    ensures keeps { OnTrue result (W.has_failed writer.new ≡ W.has_failed writer.old) }
    ensures fault { OnFalse result (W.has_failed writer.new ≡ true) }
{
    let mut rest = text;
    'writing: while !rest.is_empty() {
        match writer.write(rest) {
            Ok(count) => {
                let (_, more) = rest.split_at(count);
                rest = more;
            }
            Err(error) => {
                if error.kind() != ErrorKind::Interrupted || writer.failed() {
                    return false;
                }
            }
        }
    }
    true
}
