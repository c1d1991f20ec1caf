//! Line sets and setmaps that tests are made of.
use cb_lines::{Lines, Span};
use cb_paths::NoMemory;
use cb_sets::Setmap;
use std::alloc::Global;

/// Lines by their spans, each its first and last line.
pub(crate) type Spans = &'static [(u32, u32)];

/// The number of lines that a setmap stays below.
const MOST: u64 = 4_294_967_296;

/// The lines of spans.
pub(crate) fn lines_of(alloc: Global, spans: &[(u32, u32)]) -> Result<Lines, NoMemory> {
    let mut lines = Lines::new(alloc);
    for (first, last) in spans {
        lines.add_span(Span {
            first: *first,
            last: *last,
        })?;
    }
    Ok(lines)
}

/// The lines of each platform.
pub(crate) fn used_of(alloc: Global, used: &[Spans]) -> Result<Vec<Lines>, NoMemory> {
    let mut lists = Vec::new(alloc);
    for spans in used {
        lists.push(lines_of(alloc, *spans)?)?;
    }
    Ok(lists)
}

/// Adds a file, if it has as many platforms as the setmap and no more lines than fit.
pub(crate) fn add_file(map: &mut Setmap, counted: &Lines, used: &[Lines]) -> Result<(), NoMemory> {
    if used.len() != map.platforms() as usize || counted.count() >= MOST - map.total() {
        return Ok(());
    }
    map.add_file(counted, used)
}
