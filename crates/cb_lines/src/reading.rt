//! The marks of a source, one by one.
ghost use Rattle.std.specs.Prelude.{◌≡◌, [], ◌∷◌, MatchOption, IfNone};
ghost use Rattle.cb_lines.specs.Marks.{marks_of};

use crate::mark::Mark;
use crate::splicing::{is_taken_away, line_behind};
use std::marker::Model;

/// Reads the marks of a source one by one, and takes no memory. Contracts see it as the list of the marks that are
/// left.
#[derive(Drop)]
pub struct Marker<'a> {
    source: &'a [u8],
    /// The position of the next byte.
    at: usize,
    /// The line of this byte.
    line: u32,
}

impl<'a> Model for Marker<'a> {
    ghost use Rattle.std.specs.Prelude.{◌≡◌, ◌≤◌, List, length};
    ghost use Rattle.cb_lines.specs.declared.mark.Mark.{Mark};

    ghost Value = { List Mark };

    ghost use Rattle.cb_lines.specs.Marks.{line_at, marks_from};

    ghost view = { λ m. marks_from m.source.now m.at };

    ghost invariant = { λ m. (m.at ≤ length m.source.now) × (m.line ≡ line_at m.source.now m.at) };
}

impl<'a> Marker<'a> {
    /// A reader of the marks of a source.
    pub fn new(source: &'a [u8]) -> Marker<'a>
        ensures { result ≡ marks_of source.now }
    {
        Marker {
            source,
            at: 0,
            line: 1,
        }
    }

    /// The next mark; none where none is left.
    pub fn next(&mut self) -> Option<Mark>
        ensures mark { MatchOption result (self.old ≡ []) (λ mark. self.old ≡ mark ∷ self.new) }
        ensures ended { IfNone result (self.new ≡ []) }
    {
        let source = self.source;
        let mut at = self.at;
        let mut line = self.line;
        'positions: while at < source.len() {
            let place = at;
            let mark = Mark {
                byte: source[place],
                line,
            };
            at += 1;
            line = line_behind(line, mark.byte);
            if !is_taken_away(source, place) {
                self.at = at;
                self.line = line;
                return Some(mark);
            }
        }
        self.at = at;
        self.line = line;
        None
    }
}
