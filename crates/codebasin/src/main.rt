//! `codebasin`: which lines of a C source a platform reaches.
#![tactic(auto)]

mod answering;
mod compiled;
mod laws;
mod number_line;
mod one_file;
mod reached;
mod running;
#[cfg(test)]
mod tests;
mod texts;
mod words;

ghost use Rattle.std.specs.Prelude.{◌≡◌, [], drop, map, string_bytes, IfOk, IfErr, IsOk, IsErr};
ghost use Rattle.std.specs.IoError.{error_kind};
ghost use Rattle.std.specs.declared.io.ErrorKind.TheVariants.{InvalidData};
ghost use Rattle.std.specs.Vec.Iter.{into_iter_items};
ghost use Rattle.std.specs.Process.{exit_status};
ghost use Rattle.codebasin.specs.Run.{Ends};

use cb_outside::{Sink, Source, StdSink, StdSource};
use running::{OUT_OF_MEMORY, run};
use std::alloc::{AllocError, Global};
use std::env::Args;
use std::process::ExitCode;
use std::{env, io};

/// All arguments but the first, which is the program's name.
fn rest_of(alloc: Global, all: Args<Global>) -> Result<Vec<String>, AllocError>
    ensures { IfOk result (λ arguments. arguments.items ≡ drop 1 (into_iter_items all)) }
{
    all.skip(1).collect(alloc)
}

/// The arguments behind the program's name. Where one is not UTF-8, which no command is, they count as none.
fn arguments_of(alloc: Global, all: io::Result<Args<Global>>) -> io::Result<Vec<String>>
    ensures all { IfOk all (λ all. IfOk result (λ arguments. arguments.items ≡ drop 1 (into_iter_items all))) }
    ensures none { IfErr all (λ error. IfOk result (λ arguments. arguments.items ≡ [])) }
    ensures known { IfErr all (λ error. error_kind error ≡ InvalidData → IsOk result) }
{
    match all {
        Ok(all) => Ok(rest_of(alloc, all)?),
        Err(error) if error.kind() == io::ErrorKind::InvalidData => Ok(Vec::new(alloc)),
        Err(error) => Err(error),
    }
}

/// Runs with the arguments, if there was memory for them, and gives the status of the run to the process.
fn end<T: AllocGlobal, R: Source, W: Sink>(
    rt: &T,
    arguments: io::Result<Vec<String>>,
    input: &mut R,
    out: &mut W,
) -> ExitCode
    ensures ends { IfOk arguments (λ arguments. Ends (map string_bytes arguments.items) (record {
      input = record { bytes = R.left input.old; faults = R.faults input.old };
      output = record { bytes = W.taken out.old; faults = W.faults out.old };
    }) (record {
      input = record { bytes = R.left input.new; faults = R.faults input.new };
      output = record { bytes = W.taken out.new; faults = W.faults out.new };
    }) (exit_status result)) }
    ensures no_memory { IsErr arguments → exit_status result ≡ 6 }
{
    match arguments {
        Ok(arguments) => ExitCode::from(run(rt, arguments.as_slice(), input, out)),
        Err(_) => ExitCode::from(OUT_OF_MEMORY),
    }
}

/// Makes the real objects, runs over them, and ends with the status of the run.
fn main(rt: HostRuntime) -> ExitCode {
    let arguments = arguments_of(rt.alloc(), env::args(&rt));
    let mut input = StdSource::new(rt.reader());
    let mut out = StdSink::new(io::writer(&rt));
    end(&rt, arguments, &mut input, &mut out)
}
