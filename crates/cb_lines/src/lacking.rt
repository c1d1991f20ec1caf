//! The lines of a span that a set lacks.
ghost use Rattle.std.specs.Prelude.{◌≡◌, ◌≤◌, ◌||◌, ◌&&◌, not, ℕ, OnOk};
ghost use Rattle.cb_lines.specs.Lines.{has_line, span_lines};

use crate::alike::Stretch;
use crate::line_set::{Lines, Span};
use cb_paths::NoMemory;

/// Adds the lines of a stretch to a set, unless they are held.
fn add_unless_held(lines: &mut Lines, first: u32, stretch: Stretch) -> Result<(), NoMemory>
    ensures { OnOk result ((line : ℕ) → has_line lines.new line
        ≡ (has_line lines.old line
        || (not stretch.is_held && has_line (span_lines (record { first = first; last = stretch.last })) line))) }
{
    if stretch.is_held {
        return Ok(());
    }
    let last = stretch.last;
    lines.add_span(Span { first, last })?;
    Ok(())
}

/// Adds the lines of a span that another set lacks to a set.
pub(crate) fn add_lacking(lines: &mut Lines, span: Span, other: &Lines) -> Result<(), NoMemory>
    requires { span.first ≤ span.last }
    ensures { OnOk result ((line : ℕ) → has_line lines.new line
        ≡ (has_line lines.old line || (has_line (span_lines span) line && not (has_line other.now line)))) }
{
    let mut first = span.first;
    'stretches: loop {
        let stretch = other.alike_from(first, span.last);
        add_unless_held(lines, first, stretch)?;
        if stretch.last == span.last {
            return Ok(());
        }
        first = stretch.last + 1;
    }
}
