//! The words of a command line are read.
ghost use Rattle.std.specs.Prelude.{◌≡◌, ◌∷◌, bytes_eq, codes, map, string_bytes, Ok, Err, IfOk, IfErr};
ghost use Rattle.cb_words.specs.Faults.{Refuses, HasCause};
ghost use Rattle.cb_words.specs.Commands.{command_job};
ghost use Rattle.cb_words.specs.Says.{Says};

use crate::commands::{generate_job, report_job, serve_job, stdio_job};
use crate::fault::{BadWords, WordsFault};
use crate::job::Job;
use crate::specialise::defined;
use cb_paths::Dir;
use std::alloc::Global;

/// The job of a command other than `specialise` and the words behind it.
fn command_job(
    alloc: Global,
    command: &[u8],
    words: &[String],
    here: &Dir,
) -> Result<Job, WordsFault>
    ensures job { IfOk result (λ job. command_job here.now command.now (map string_bytes words.now) ≡ Ok job) }
    ensures bad { IfErr result (λ e. Refuses e (command_job here.now command.now (map string_bytes words.now))) }
{
    if command == b"report".as_slice() {
        return report_job(alloc, words, here);
    }
    if command == b"stdio".as_slice() {
        return stdio_job(alloc, words);
    }
    if command == b"serve".as_slice() {
        return serve_job(alloc, words);
    }
    if command == b"generate".as_slice() {
        return generate_job(alloc, words);
    }
    Err(WordsFault::Bad(BadWords::UnknownCommand))
}

/// Whether a word names the command `specialise`.
fn is_specialise(command: &[u8]) -> bool
    ensures { result ≡ bytes_eq command.now (codes "specialise") }
{
    command == b"specialise".as_slice()
}

/// The job of a command and the words behind it.
fn named_job(alloc: Global, command: &[u8], words: &[String], here: &Dir) -> Result<Job, WordsFault>
    ensures job { IfOk result (λ job. Says here.now (command.now ∷ map string_bytes words.now) (Ok job)) }
    ensures bad { IfErr result (λ e. HasCause e (λ bad. Says here.now (command.now ∷ map string_bytes words.now) (Err bad))) }
{
    if !is_specialise(command) {
        return command_job(alloc, command, words, here);
    }
    match defined(alloc, words) {
        Ok(words) => Ok(Job::Specialise(words)),
        Err(fault) => Err(fault),
    }
}

/// Reads the words of a command line behind the program's name, in a program that runs in the folder `here`. It answers the job
/// that they ask for, or why they ask for none; its other error is out of memory.
pub fn read(alloc: Global, words: &[String], here: &Dir) -> Result<Job, WordsFault>
    ensures job { IfOk result (λ job. Says here.now (map string_bytes words.now) (Ok job)) }
    ensures bad { IfErr result (λ e. HasCause e (λ bad. Says here.now (map string_bytes words.now) (Err bad))) }
{
    let Some((first, behind)) = words.split_first() else {
        return Err(WordsFault::Bad(BadWords::NoCommand));
    };
    named_job(alloc, first.as_bytes(), behind, here)
}
