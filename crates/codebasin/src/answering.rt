//! From a source to what is said of it.
ghost use Rattle.std.specs.Prelude.{◌≡◌, IfOk};
ghost use Rattle.codebasin.specs.Specialise.{command_of};
ghost use Rattle.codebasin.specs.inner.Answers.{Answers, Passes};
ghost use Rattle.codebasin.specs.inner.Said.{said_bytes};

use crate::compiled::command_of;
use crate::one_file::OneFile;
use crate::reached::reached_text;
use crate::texts::{TOO_LONG, malformed_text};
use cb_include::Command;
use cb_pass::{Meter, pass};
use cb_paths::{Bytes, NoMemory, SOURCE_BYTE_LIMIT};
use cb_tree::{BuildFault, Tree, build};
use std::alloc::Global;

/// A text that a run writes.
#[derive(Drop)]
pub(crate) enum Said {
    /// One that stands in the program.
    Fixed(&'static [u8]),
    /// One that was made for this run.
    Made(Vec<u8>),
}

impl Said {
    ghost use Rattle.codebasin.specs.inner.Said.{said_bytes};

    /// The bytes of the text.
    pub(crate) fn as_slice(&self) -> &[u8]
        ensures { result.now ≡ said_bytes self.now }
    {
        match self {
            Said::Fixed(text) => text,
            Said::Made(text) => text.as_slice(),
        }
    }
}

/// What a run says: the text that it writes, and the status that it then ends with.
#[derive(Drop)]
pub(crate) struct Answer {
    /// The status of a run whose text is written.
    pub(crate) status: u8,
    /// All that is written.
    pub(crate) text: Said,
}

impl Answer {
    /// The answer of a fixed text. It takes no memory.
    pub(crate) fn fixed(status: u8, text: &'static [u8]) -> Answer
        ensures status { result.status ≡ status }
        ensures text { said_bytes result.text ≡ text.now }
    {
        Answer {
            status,
            text: Said::Fixed(text),
        }
    }

    /// The answer of a text that was made.
    fn made(status: u8, text: Vec<u8>) -> Answer
        ensures status { result.status ≡ status }
        ensures text { said_bytes result.text ≡ text.items }
    {
        Answer {
            status,
            text: Said::Made(text),
        }
    }
}

/// The numbers of the lines that the pass of a command reaches in its source.
fn text_of(alloc: Global, tree: &Tree, command: &Command) -> Result<Vec<u8>, NoMemory>
    ensures { IfOk result (λ text. Passes command.now tree.now text.items) }
{
    let files = OneFile { tree };
    let mut meter = Meter::new();
    let passed = pass(alloc, &files, command, &mut meter)?;
    reached_text(alloc, tree, passed.row(0))
}

/// What is said of a sound source, with these words of `-D`.
fn answer_tree(alloc: Global, words: Vec<Bytes>, tree: &Tree) -> Result<Answer, NoMemory>
    ensures { IfOk result (λ answer. (answer.status ≡ 0)
        × Passes (command_of words.items) tree.now (said_bytes answer.text)) }
{
    let command = command_of(alloc, words)?;
    let text = text_of(alloc, tree, &command)?;
    Ok(Answer::made(0, text))
}

/// What is said of a source, with these words of `-D`.
pub(crate) fn answer_source(
    alloc: Global,
    words: Vec<Bytes>,
    source: &[u8],
) -> Result<Answer, NoMemory>
    ensures { IfOk result (λ answer. Answers words.items source.now answer.status (said_bytes answer.text)) }
{
    if source.len() > SOURCE_BYTE_LIMIT {
        return Ok(Answer::fixed(3, TOO_LONG));
    }
    match build(alloc, source) {
        Ok(tree) => answer_tree(alloc, words, &tree),
        Err(BuildFault::Bad(fault)) => {
            let text = malformed_text(alloc, fault)?;
            Ok(Answer::made(2, text))
        }
        Err(BuildFault::NoMemory) => Err(NoMemory),
    }
}
