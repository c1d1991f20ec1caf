//! How far a set of lines goes on as it begins.
ghost use Rattle.std.specs.Prelude.{◌≡◌, ◌≢◌, ◌+◌, ◌<◌, ◌≤◌, ℕ};
ghost use Rattle.cb_lines.specs.Lines.{has_line, span_lines, AreMaximal};
ghost use Rattle.std.specs.List.{flat_map};

use crate::line_set::Span;
use crate::spans::count_before;

/// Lines from one on of which a set holds each or none, as many as there are.
#[derive(Clone, Copy, Debug, PartialEq, Eq)]
pub struct Stretch {
    /// Whether the set holds them.
    pub is_held: bool,
    /// The last of them.
    pub last: u32,
}

/// How far maximal spans go on as they begin at a line, up to a last one.
pub(crate) fn stretch_from(spans: &[Span], first: u32, last: u32) -> Stretch
    requires maximal { AreMaximal spans.now }
    requires rising { first ≤ last }
    ensures from { first ≤ result.last }
    ensures within { result.last ≤ last }
    ensures alike { (line : ℕ) → first ≤ line → line ≤ result.last → has_line (flat_map span_lines spans.now) line
        ≡ result.is_held }
    ensures whole { result.last < last → has_line (flat_map span_lines spans.now) (result.last + 1) ≢ result.is_held }
{
    let at = count_before(spans, first);
    if at == spans.len() {
        return Stretch {
            is_held: false,
            last,
        };
    }
    let span = spans[at];
    if span.first <= first {
        return Stretch {
            is_held: true,
            last: span.last.min(last),
        };
    }
    Stretch {
        is_held: false,
        last: last.min(span.first - 1),
    }
}
