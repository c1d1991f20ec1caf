//! A text of bytes, which need not be UTF-8.
ghost use Rattle.std.specs.Prelude.{◌≡◌, ◌==◌, ◌≤◌, [], length, take, IfOk, IfSome, IsSome};
ghost use Rattle.cb_paths.specs.inner.Texts.{text_of, IsText};

use crate::memory::NoMemory;
use std::alloc::Global;
use std::marker::Model;

/// The bytes that lie in a value itself beside their number.
const SHORT: usize = 14;

/// The bytes that fill a value.
const FULL: usize = 15;

/// How a text is kept.
#[derive(Drop)]
pub(crate) enum Text {
    /// In the value itself: the number of the bytes, and the bytes at the front.
    Short(u8, [u8; SHORT]),
    /// In the value itself, which these bytes fill.
    Full([u8; FULL]),
    /// Apart from it.
    Long(Box<Vec<u8>>),
}

/// A vector of bytes, which contracts see as the list of them. It takes 16 bytes: texts of up to 15 bytes lie in the value itself
/// and take no memory of their own.
#[derive(Drop)]
pub struct Bytes {
    text: Text,
}

impl Model for Bytes {
    ghost use Rattle.std.specs.Prelude.{List, ℕ};

    ghost Value = { List ℕ };

    ghost use Rattle.cb_paths.specs.inner.Texts.{text_of, IsText};

    ghost view = { λ b. text_of b.text };

    ghost invariant = { λ b. IsText b.text };
}

/// A text of few bytes.
fn few(bytes: &[u8]) -> Text
    requires { length bytes.now ≤ SHORT }
    ensures text { text_of result ≡ bytes.now }
    ensures kept { IsText result }
{
    let mut held = [0; SHORT];
    for i in 0..bytes.len() {
        held[i] = bytes[i];
    }
    Text::Short(bytes.len() as u8, held)
}

/// A text of more bytes. It stays out of the way of the short ones.
#[inline(never)]
fn long(alloc: Global, bytes: &[u8]) -> Result<Text, NoMemory>
    ensures text { IfOk result (λ text. text_of text ≡ bytes.now) }
    ensures kept { IfOk result IsText }
{
    if bytes.len() == FULL {
        return Ok(full(bytes));
    }
    let long = Vec::from_slice(alloc, bytes)?;
    let long = Box::new(alloc, long)?;
    Ok(Text::Long(long))
}

/// A text of as many bytes as fill a value.
fn full(bytes: &[u8]) -> Text
    requires { length bytes.now ≡ FULL }
    ensures text { text_of result ≡ bytes.now }
    ensures kept { IsText result }
{
    let mut held = [0; FULL];
    held.copy_from_slice(bytes);
    Text::Full(held)
}

/// A text of few bytes at the front of more. Those behind them are copied too, so that it takes the same time for any number of them.
#[inline]
fn front(bytes: &[u8], len: usize) -> Text
    requires few { len ≤ SHORT }
    requires more { SHORT ≤ length bytes.now }
    ensures text { text_of result ≡ take len bytes.now }
    ensures kept { IsText result }
{
    let mut held = [0; SHORT];
    held.copy_from_slice(&bytes[..SHORT]);
    Text::Short(len as u8, held)
}

impl Bytes {
    /// The empty text.
    pub fn new() -> Bytes
        ensures { result ≡ [] }
    {
        Bytes { text: few(&[]) }
    }

    /// A copy of these bytes.
    pub fn from_slice(alloc: Global, bytes: &[u8]) -> Result<Bytes, NoMemory>
        ensures { IfOk result (λ b. b ≡ bytes.now) }
    {
        if bytes.len() <= SHORT {
            return Ok(Bytes { text: few(bytes) });
        }
        let text = long(alloc, bytes)?;
        Ok(Bytes { text })
    }

    /// The bytes of a vector. Those of more than 15 bytes stay where they are, and only a small box for them is allocated.
    pub fn from_vec(alloc: Global, bytes: Vec<u8>) -> Result<Bytes, NoMemory>
        ensures { IfOk result (λ b. b ≡ bytes.items) }
    {
        if bytes.len() <= FULL {
            return Bytes::from_slice(alloc, bytes.as_slice());
        }
        let bytes = Box::new(alloc, bytes)?;
        Ok(Bytes {
            text: Text::Long(bytes),
        })
    }

    /// The bytes as a vector. More than 15 bytes stay where they are, and nothing is allocated for them.
    pub fn into_vec(self, alloc: Global) -> Result<Vec<u8>, NoMemory>
        ensures { IfOk result (λ v. v.items ≡ self) }
    {
        match self.text {
            Text::Long(bytes) => Ok(Box::into_inner(bytes)),
            text => {
                let short = Bytes { text };
                let bytes = Vec::from_slice(alloc, short.as_slice())?;
                Ok(bytes)
            }
        }
    }

    /// The text of so many bytes at the front of these, if they are at most 14, and these at least 14. It takes no memory, and the
    /// same time for any number of bytes.
    #[inline]
    pub fn short_front(bytes: &[u8], len: usize) -> Option<Bytes>
        requires { len ≤ length bytes.now }
        ensures text { IfSome result (λ b. b ≡ take len bytes.now) }
        ensures gives { len ≤ 14 → 14 ≤ length bytes.now → IsSome result }
    {
        if len > SHORT || bytes.len() < SHORT {
            return None;
        }
        Some(Bytes {
            text: front(bytes, len),
        })
    }

    /// A second text of the same bytes. One of up to 15 bytes takes no memory, and is copied as it lies.
    pub fn copy(&self, alloc: Global) -> Result<Bytes, NoMemory>
        ensures { IfOk result (λ b. b ≡ self.now) }
    {
        let text = match &self.text {
            Text::Short(len, bytes) => Text::Short(*len, *bytes),
            Text::Full(bytes) => Text::Full(*bytes),
            Text::Long(bytes) => long(alloc, bytes.as_slice())?,
        };
        Ok(Bytes { text })
    }

    /// The bytes in order.
    pub fn as_slice(&self) -> &[u8]
        ensures { result.now ≡ self.now }
    {
        match &self.text {
            Text::Short(len, bytes) => &bytes[..*len as usize],
            Text::Full(bytes) => bytes.as_slice(),
            Text::Long(bytes) => bytes.as_slice(),
        }
    }

    /// The number of bytes.
    pub fn len(&self) -> usize
        ensures { result ≡ length self.now }
    {
        self.as_slice().len()
    }

    /// Whether there is no byte.
    pub fn is_empty(&self) -> bool
        ensures { result ≡ (length self.now == 0) }
    {
        self.as_slice().is_empty()
    }
}
