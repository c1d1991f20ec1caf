//! Objects in memory and over std, as tables of their calls.
use cb_outside::{
    Failed, MemSink, MemSource, Numbers, ReadError, Sink, Source, StdSink, StdSource, put_all,
    take_up_to,
};
use cb_paths::{Bytes, NoMemory};
use std::alloc::Global;
use std::io;
use std::test::Fail;

/// A source of eight bytes, in pieces of these sizes, of which the reads of these numbers fail.
fn letters(alloc: Global, pieces: &[u64], fails: &[u64]) -> Result<MemSource, NoMemory> {
    let bytes = Bytes::from_slice(alloc, b"abcdefgh")?;
    let pieces = Numbers::from_slice(alloc, pieces)?;
    let fails = Numbers::from_slice(alloc, fails)?;
    Ok(MemSource::new(bytes, pieces, fails))
}

/// How many of these reads answer as wanted, and leave the buffer so, before the first that does not.
fn reads_as_wanted(source: &mut MemSource, rows: &[(Result<usize, Failed>, [u8; 4])]) -> usize {
    let mut buf = [0; 4];
    for at in 0..rows.len() {
        if source.read(&mut buf) != rows[at].0 || buf != rows[at].1 {
            return at;
        }
    }
    rows.len()
}

/// What reads answer, and the buffer behind each.
const READS: &[(Result<usize, Failed>, [u8; 4])] = &[
    (Ok(1), *b"a\0\0\0"),
    (Err(Failed), *b"a\0\0\0"),
    (Ok(2), *b"bc\0\0"),
    (Ok(4), *b"defg"),
    (Ok(1), *b"hefg"),
    (Ok(0), *b"hefg"),
];

#[test]
fn reads_give_pieces(rt: HostRuntime) -> Result<(), Fail> {
    let mut source = letters(rt.alloc(), &[0, 9, 2], &[2])?;
    assert!(rt; reads_as_wanted(&mut source, READS) == 6);
    Ok(())
}

/// How many of these writes answer as wanted before the first that does not.
fn writes_as_wanted(sink: &mut MemSink, rows: &[(&[u8], Result<usize, Failed>)]) -> usize {
    for at in 0..rows.len() {
        if sink.write(rows[at].0) != rows[at].1 {
            return at;
        }
    }
    rows.len()
}

/// Bytes that are written, and what each writing answers.
const WRITES: &[(&[u8], Result<usize, Failed>)] = &[
    (b"abc", Ok(3)),
    (b"d", Err(Failed)),
    (b"defg", Ok(2)),
    (b"f", Err(Failed)),
    (b"", Ok(0)),
];

#[test]
fn writes_fill_the_room(rt: HostRuntime) -> Result<(), Fail> {
    let mut sink = MemSink::new(rt.alloc(), 5, Numbers::from_slice(rt.alloc(), &[2])?)?;
    assert!(rt; writes_as_wanted(&mut sink, WRITES) == 5);
    assert!(rt; put_all(&mut sink, b"f") == Err(Failed) && sink.taken() == b"abcde".as_slice());
    Ok(())
}

/// What is read up to a limit, or the error.
fn taken(
    alloc: Global,
    pieces: &[u64],
    fails: &[u64],
    limit: usize,
) -> Result<Result<Vec<u8>, ReadError>, NoMemory> {
    Ok(take_up_to(alloc, &mut letters(alloc, pieces, fails)?, limit))
}

/// Whether so many bytes at the front are read up to a limit, one and two and then all at a time.
fn is_taken(alloc: Global, limit: usize, wanted: &[u8]) -> Result<bool, NoMemory> {
    match taken(alloc, &[1, 2], &[], limit)? {
        Ok(bytes) => Ok(bytes.as_slice() == wanted),
        Err(_error) => Ok(false),
    }
}

/// Whether the third read fails and ends the reading.
fn is_refused(alloc: Global) -> Result<bool, NoMemory> {
    match taken(alloc, &[1, 2], &[3], 8)? {
        Ok(_bytes) => Ok(false),
        Err(error) => Ok(error == ReadError::Failed),
    }
}

/// Limits, and what is read up to each.
const LIMITS: &[(usize, &[u8])] = &[
    (0, b""),
    (3, b"abc"),
    (4, b"abcd"),
    (8, b"abcdefgh"),
    (9, b"abcdefgh"),
];

#[test]
fn a_source_is_read_up_to_a_limit(rt: HostRuntime) -> Result<(), Fail> {
    for row in LIMITS {
        assert!(rt; is_taken(rt.alloc(), row.0, row.1)?, "up to {}", row.0);
    }
    assert!(rt; is_refused(rt.alloc())?);
    Ok(())
}

/// A writer that takes one byte a call, and none once it is full.
#[derive(Drop)]
struct OneByOne {
    taken: [u8; 3],
    len: usize,
}

impl io::Write for OneByOne {
    fn write(&mut self, bytes: &[u8]) -> io::Result<usize> {
        if bytes.is_empty() || self.len >= 3 {
            return Ok(0);
        }
        self.taken[self.len] = bytes[0];
        self.len += 1;
        Ok(1)
    }

    fn flush(&mut self) -> io::Result<()> {
        Ok(())
    }
}

/// The bytes that such a writer has after all of a text was written, or that the writing failed.
fn written(text: &[u8]) -> Result<[u8; 3], Failed> {
    let mut writer = OneByOne {
        taken: [b'-'; 3],
        len: 0,
    };
    put_all(&mut StdSink::new(&mut writer), text)?;
    Ok(writer.taken)
}

/// Texts, and what is written of each.
const SHORT: &[(&[u8], Result<[u8; 3], Failed>)] = &[
    (b"", Ok(*b"---")),
    (b"ab", Ok(*b"ab-")),
    (b"abc", Ok(*b"abc")),
    (b"abcd", Err(Failed)),
];

#[test]
fn short_writes_go_on(rt: HostRuntime) {
    for row in SHORT {
        assert!(rt; written(row.0) == row.1, "a text of {} bytes", row.0.len());
    }
}

#[test]
fn the_standard_streams_answer(rt: HostRuntime) {
    assert!(rt; StdSource::new(rt.reader()).read(&mut [0; 4]) == Ok(0));
    assert!(rt; put_all(&mut StdSink::new(io::writer(&rt)), b"ok\n") == Ok(()));
}
