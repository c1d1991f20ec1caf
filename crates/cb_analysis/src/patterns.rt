//! The lists of patterns of an analysis.
ghost use Rattle.std.specs.Prelude.{◌≡◌, ◌≤◌, true, false, None, Some, map, length, IfOk, IfErr, IfSome, IfNone, option_map};
ghost use Rattle.std.specs.List.{list_all, filter_map};
ghost use Rattle.toml.specs.Data.{as_str};
ghost use Rattle.toml.specs.View.{view};
ghost use Rattle.cb_analysis.specs.Tables.{is_text, is_text_list, texts_of, texts_in};
ghost use Rattle.cb_analysis.specs.Faults.{first_of, pattern_faults, list_faults, Tells};
ghost use Rattle.cb_analysis.specs.Patterns.{pattern_of};

use crate::fault::{AnalysisFault, AnalysisKind};
use crate::pattern::Pattern;
use crate::place::{bad, bad_pattern};
use std::alloc::Global;
use toml::Value;

/// The patterns of a list at most.
const PATTERN_LIMIT: usize = 1_000;

/// Whether all values are texts.
fn are_texts(values: &[Value]) -> bool
    ensures { result ≡ list_all (λ value. is_text (view value)) values.now }
{
    values.iter().all(|value| value.is_str())
}

/// The items of a value that is a list of texts.
fn text_items(value: &Value) -> Option<&[Value]>
    ensures texts { IfSome result (λ items. is_text_list (view value.now) ≡ true) }
    ensures items { IfSome result (λ items. texts_of (view value.now) ≡ filter_map as_str (map view items.now)) }
    ensures all { IfSome result (λ items. list_all is_text (map view items.now) ≡ true) }
    ensures other { IfNone result (is_text_list (view value.now) ≡ false) }
{
    let Some(items) = value.as_array() else {
        return None;
    };
    if !are_texts(items.as_slice()) {
        return None;
    }
    Some(items.as_slice())
}

/// The patterns of a list of texts, or the first one that is none.
fn patterns_of(alloc: Global, place: &str, texts: &[Value]) -> Result<Vec<Pattern>, AnalysisFault>
    requires all { list_all is_text (map view texts.now) ≡ true }
    requires few { length texts.now ≤ 1000 }
    ensures fine { IfOk result (λ _. first_of (pattern_faults place.now 0 (filter_map as_str (map view texts.now)))
        ≡ None) }
    ensures patterns { IfOk result (λ patterns. patterns.items
        ≡ map pattern_of (filter_map as_str (map view texts.now))) }
    ensures bad { IfErr result (λ e. Tells e
        (first_of (pattern_faults place.now 0 (filter_map as_str (map view texts.now))))) }
{
    let mut patterns = Vec::new(alloc);
    let mut left = texts;
    let mut at = 0;
    'patterns: while let Some((value, values)) = left.split_first() {
        let Some(text) = value.as_str() else {
            unreachable!();
        };
        let Some(pattern) = Pattern::read(alloc, text.as_bytes())? else {
            return Err(bad_pattern(alloc, place, at));
        };
        patterns.push(pattern)?;
        left = values;
        at += 1;
    }
    Ok(patterns)
}

/// The patterns at a key, or the first fault of their list. Nothing at the key is a list without patterns.
pub(crate) fn read_patterns(
    alloc: Global,
    place: &str,
    value: Option<&Value>,
) -> Result<Vec<Pattern>, AnalysisFault>
    ensures fine { IfOk result (λ _. first_of (list_faults place.now (option_map (λ v. view v.now) value.entry))
        ≡ None) }
    ensures patterns { IfOk result (λ patterns. patterns.items
        ≡ map pattern_of (texts_in (option_map (λ v. view v.now) value.entry))) }
    ensures bad { IfErr result (λ e. Tells e
        (first_of (list_faults place.now (option_map (λ v. view v.now) value.entry)))) }
{
    let Some(value) = value else {
        return Ok(Vec::new(alloc));
    };
    let Some(texts) = text_items(value) else {
        return Err(bad(alloc, AnalysisKind::WrongType, place));
    };
    if texts.len() > PATTERN_LIMIT {
        return Err(bad(alloc, AnalysisKind::TooMany, place));
    }
    patterns_of(alloc, place, texts)
}
