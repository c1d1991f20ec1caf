//! What a word after `-D` defines, as a text.
use cb_macro::{DefineFault, Defined, Macro, define_word};
use cb_paste::{Part, Shape};
use cb_paths::NoMemory;
use std::alloc::Global;

/// A digit, or `?` for a larger number.
fn digit(number: usize) -> u8 {
    if number < 10 {
        b'0' + number as u8
    } else {
        b'?'
    }
}

/// Adds a part: a space where white space stands before it, `~` where `##` joins it to the part before, and then its
/// bytes, `$` with the place of a parameter, or `#` with the place of one that `#` turns into a string.
fn tell_part(text: &mut Vec<u8>, part: &Part) -> Result<(), NoMemory> {
    if part.spaced {
        text.push(b' ')?;
    }
    if part.glued {
        text.push(b'~')?;
    }
    match &part.shape {
        Shape::Fixed(_, bytes) => text.extend_from_slice(bytes.as_slice())?,
        Shape::Parameter(place) => text.extend_from_slice(&[b'$', digit(*place)])?,
        Shape::Quoted(place) => text.extend_from_slice(&[b'#', digit(*place)])?,
    }
    Ok(())
}

/// Adds, for each parameter, whether it is shown, raw, both or neither.
fn tell_uses(text: &mut Vec<u8>, body: &Macro) -> Result<(), NoMemory> {
    for place in 0..body.parameter_count() {
        let use_of = match (body.is_shown(place), body.is_raw(place)) {
            (true, true) => b'b',
            (true, false) => b's',
            (false, true) => b'r',
            (false, false) => b'n',
        };
        text.push(use_of)?;
    }
    Ok(())
}

/// Adds a definition: its name; for a function-like macro the uses of its parameters in parentheses, with `...` for a
/// variadic one; and `=` with its parts.
fn tell(text: &mut Vec<u8>, defined: &Defined) -> Result<(), NoMemory> {
    text.extend_from_slice(defined.name.as_slice())?;
    if defined.body.is_function() {
        text.push(b'(')?;
        tell_uses(text, &defined.body)?;
        if defined.body.is_variadic() {
            text.extend_from_slice(b"...")?;
        }
        text.push(b')')?;
    }
    text.push(b'=')?;
    for part in defined.body.parts() {
        tell_part(text, part)?;
    }
    Ok(())
}

/// Whether a word defines what a text tells; `bad` tells that it is no definition.
pub(crate) fn tells(alloc: Global, word: &str, expected: &str) -> Result<bool, NoMemory> {
    let mut text = Vec::new(alloc);
    match define_word(alloc, word.as_bytes()) {
        Ok(defined) => tell(&mut text, &defined)?,
        Err(DefineFault::Bad) => text.extend_from_slice(b"bad")?,
        Err(DefineFault::NoMemory) => return Err(NoMemory),
    }
    Ok(text.as_slice() == expected.as_bytes())
}
