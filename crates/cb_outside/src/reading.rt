//! Reading a source to its end, or up to a limit.
ghost use Rattle.std.specs.Prelude.{◌≡◌, ℕ, ◌+◌, ◌<◌, ◌≤◌, [], List, length, take, drop, vec_len, vec_capacity, IfOk, OnOk, OnErr, IfSome, IsErrOf};
ghost use Rattle.std.specs.Io.KnownBytes.{Consumes, Keeps, IsAtEnd};
ghost use Rattle.cb_outside.specs.Outside.{Rose};

use crate::failed::Failed;
use crate::read_error::ReadError;
use crate::source::Source;
use std::alloc::Global;

/// The most bytes that one read is asked for.
const LONGEST_READ: usize = 65_536;

/// Reads a source to its end, or until there are `limit` bytes, and answers the bytes. All the memory is taken before
/// the first read: where there is none, nothing was read. After `Failed` the bytes that were read are lost.
pub fn take_up_to<R: Source>(
    alloc: Global,
    source: &mut R,
    limit: usize,
) -> Result<Vec<u8>, ReadError>
    ensures within { IfOk result (λ bytes. vec_len bytes ≤ limit) }
    ensures content { IfOk result (λ bytes. Consumes (R.left source.old) (R.left source.new) bytes.items) }
    ensures end { IfOk result (λ bytes. vec_len bytes < limit → IsAtEnd (R.left source.new)) }
    ensures first { IfOk result (λ bytes. IfSome (R.left source.old) (λ left. bytes.items ≡ take limit left)) }
    ensures kept { OnOk result (R.faults source.new ≡ R.faults source.old) }

    ensures failed { IsErrOf result ReadError.Failed → Rose (R.faults source.old) (R.faults source.new) }
    ensures lost { IsErrOf result ReadError.Failed → (lost : List ℕ)
        × (length lost < limit)
        × Consumes (R.left source.old) (R.left source.new) lost }
    ensures no_memory { IsErrOf result ReadError.NoMemory → source.new ≡ source.old }
    ensures never_falls { R.faults source.old ≤ R.faults source.new }
{
    let mut bytes = Vec::with_capacity(alloc, limit)?;
    let filled = fill(source, &mut bytes, limit)?;
    bytes.truncate(filled);
    Ok(bytes)
}

/// Reads into a vector that has room for `limit` bytes, and answers how many at its front were read.
fn fill<R: Source>(source: &mut R, bytes: &mut Vec<u8>, limit: usize) -> Result<usize, Failed>
    requires empty { vec_len bytes.old ≡ 0 }
    requires room { limit ≤ vec_capacity bytes.old }
    ensures within { IfOk result (λ n. (n ≤ limit) × (n ≤ vec_len bytes.new)) }
    ensures content { IfOk result (λ n. Consumes (R.left source.old) (R.left source.new) (take n bytes.new.items)) }
    ensures end { IfOk result (λ n. n < limit → IsAtEnd (R.left source.new)) }
    ensures kept { OnOk result (R.faults source.new ≡ R.faults source.old) }
    ensures rose { OnErr result (Rose (R.faults source.old) (R.faults source.new)) }
    ensures lost { OnErr result ((lost : List ℕ)
        × (length lost < limit)
        × Consumes (R.left source.old) (R.left source.new) lost) }
    ensures never_falls { R.faults source.old ≤ R.faults source.new }
{
    let mut filled = 0;
    'reads: while filled < limit {
        lengthen(bytes, filled, limit);
        let count = read_after(source, bytes.as_mut_slice(), filled)?;
        if count == 0 {
            return Ok(filled);
        }
        filled += count;
    }
    Ok(filled)
}

/// Makes a vector longer than its filled front, within its capacity. What is filled stays.
fn lengthen(bytes: &mut Vec<u8>, filled: usize, limit: usize)
    requires filled { filled < limit }
    requires within { filled ≤ vec_len bytes.old }
    requires bound { vec_len bytes.old ≤ limit }
    requires room { limit ≤ vec_capacity bytes.old }
    ensures longer { filled < vec_len bytes.new }
    ensures bound { vec_len bytes.new ≤ limit }
    ensures room { limit ≤ vec_capacity bytes.new }
    ensures front { take filled bytes.new.items ≡ take filled bytes.old.items }
{
    if filled == bytes.len() {
        let longer = (limit - filled).min(LONGEST_READ) + filled;
        bytes.resize(longer, 0).unwrap();
    }
}

/// One read into a buffer after a place. What stands before the place stays.
fn read_after<R: Source>(source: &mut R, buf: &mut [u8], at: usize) -> Result<usize, Failed>
    requires { at < length buf.old }
    ensures front { take at buf.new ≡ take at buf.old }
    ensures fits { IfOk result (λ n. at + n ≤ length buf.new) }
    ensures content { IfOk result (λ n. Consumes (R.left source.old) (R.left source.new) (take n (drop at buf.new))) }
    ensures end { IfOk result (λ n. n ≡ 0 → IsAtEnd (R.left source.new)) }
    ensures failed { OnErr result (Keeps (R.left source.old) (R.left source.new)) }
    ensures kept { OnOk result (R.faults source.new ≡ R.faults source.old) }
    ensures rose { OnErr result (Rose (R.faults source.old) (R.faults source.new)) }
    ensures never_falls { R.faults source.old ≤ R.faults source.new }
{
    source.read(&mut buf[at..])
}
