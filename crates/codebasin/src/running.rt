//! One run of the program, from its arguments and its input to its output and its status.
ghost use Rattle.std.specs.Prelude.{◌≡◌, map, string_bytes, IfOk, OnErr};
ghost use Rattle.codebasin.specs.inner.Said.{said_bytes};
ghost use Rattle.codebasin.specs.Run.{Stream, Says, Ends};

use crate::answering::{Answer, answer_source};
use crate::texts::{UNREAD, USAGE};
use crate::words::asked;
use cb_outside::{ReadError, Sink, Source, put_all, take_up_to};
use cb_paths::{NoMemory, SOURCE_BYTE_LIMIT};
use std::alloc::Global;

/// The status where a write failed.
const UNWRITTEN: u8 = 5;

/// The status where there was not enough memory.
pub(crate) const OUT_OF_MEMORY: u8 = 6;

/// What a run with these arguments says of its input, whatever its output is.
fn reply<R: Source>(alloc: Global, arguments: &[String], input: &mut R) -> Result<Answer, NoMemory>
    ensures says { (o p : Stream) → IfOk result (λ answer. Says (map string_bytes arguments.now) (record {
      input = record { bytes = R.left input.old; faults = R.faults input.old };
      output = o;
    }) (record {
      input = record { bytes = R.left input.new; faults = R.faults input.new };
      output = p;
    }) answer.status (said_bytes answer.text)) }
    ensures wants { OnErr result (R.faults input.new ≡ R.faults input.old) }
    ensures refused { IfOk result (λ answer. answer.status ≡ 1 → input.new ≡ input.old) }
{
    let Some(words) = asked(alloc, arguments)? else {
        return Ok(Answer::fixed(1, USAGE));
    };
    match take_up_to(alloc, input, SOURCE_BYTE_LIMIT + 1) {
        Ok(source) => answer_source(alloc, words, source.as_slice()),
        Err(ReadError::Failed) => Ok(Answer::fixed(4, UNREAD)),
        Err(ReadError::NoMemory) => Err(NoMemory),
    }
}

/// Runs the program: reads its input, writes to `out`, and answers the status that the process is to end with.
pub fn run<T: AllocGlobal, R: Source, W: Sink>(
    rt: &T,
    arguments: &[String],
    input: &mut R,
    out: &mut W,
) -> u8
    ensures ends { Ends (map string_bytes arguments.now) (record {
      input = record { bytes = R.left input.old; faults = R.faults input.old };
      output = record { bytes = W.taken out.old; faults = W.faults out.old };
    }) (record {
      input = record { bytes = R.left input.new; faults = R.faults input.new };
      output = record { bytes = W.taken out.new; faults = W.faults out.new };
    }) result }
    ensures refused { result ≡ 1 → input.new ≡ input.old }
{
    match reply(rt.alloc(), arguments, input) {
        Ok(answer) => match put_all(out, answer.text.as_slice()) {
            Ok(()) => answer.status,
            Err(_) => UNWRITTEN,
        },
        Err(NoMemory) => OUT_OF_MEMORY,
    }
}
