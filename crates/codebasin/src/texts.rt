//! The texts that a run writes.
ghost use Rattle.std.specs.Prelude.{◌≡◌, ◌++◌, OnOk, IfOk};
ghost use Rattle.cb_lines.specs.Lines.{span_lines};
ghost use Rattle.codebasin.specs.Texts.{malformed_text, numbers_text};

use crate::number_line::NumberLine;
use cb_lines::{Lines, Span};
use cb_paths::NoMemory;
use cb_tree::BadSource;
use std::alloc::Global;

/// What is written where the arguments are no command.
pub(crate) const USAGE: &[u8] = b"usage: codebasin specialise|report|stdio|serve|generate\n";

/// What is written where the input has more bytes than a source may have.
pub(crate) const TOO_LONG: &[u8] = b"error input: limit bytes 4194304\n";

/// What is written where a read failed.
pub(crate) const UNREAD: &[u8] = b"error read\n";

/// What is written where the input is no sound source.
pub(crate) fn malformed_text(alloc: Global, fault: BadSource) -> Result<Vec<u8>, NoMemory>
    ensures { IfOk result (λ text. text.items ≡ malformed_text fault) }
{
    let mut text = Vec::from_slice(alloc, b"error input: ")?;
    fault.push_text(&mut text)?;
    text.extend_from_slice(b"\n")?;
    Ok(text)
}

/// Adds the numbers of a span, each on a line of its own.
fn push_span(text: &mut Vec<u8>, span: Span) -> Result<(), NoMemory>
    ensures { OnOk result (text.new.items ≡ text.old.items ++ numbers_text (span_lines span)) }
{
    let mut last = NumberLine::new(span.first);
    for line in u64::from(span.first)..u64::from(span.last) + 1 {
        last.go_on(line as u32);
        last.add_to(text, line as u32)?;
    }
    Ok(())
}

/// Adds the numbers of a set of lines, rising, each on a line of its own.
#[tactic(auto, using(crate::proofs::NumberTexts::numbers_text_append))]
pub(crate) fn push_numbers(text: &mut Vec<u8>, lines: &Lines) -> Result<(), NoMemory>
    ensures { OnOk result (text.new.items ≡ text.old.items ++ numbers_text lines.now) }
{
    for span in lines.spans() {
        push_span(text, *span)?;
    }
    Ok(())
}
