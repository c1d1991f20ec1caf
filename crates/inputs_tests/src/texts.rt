//! The texts of faults.
use cb_analysis::AnalysisFault;
use cb_compdb::DatabaseFault;
use cb_inputs::{BodyFault, LimitName, Refused};
use cb_measure::CsvFault;
use cb_paths::NoMemory;
use std::alloc::Global;
use std::test::Fail;

/// How bytes are read.
#[derive(Clone, Copy)]
enum Input {
    /// As an analysis.
    Analysis,
    /// As a database.
    Database,
    /// As measurements.
    Measurements,
}

/// The fault of bytes, if they have one.
fn fault_of(alloc: Global, input: Input, bytes: &[u8]) -> Option<BodyFault> {
    match input {
        Input::Analysis => match cb_analysis::read(alloc, bytes) {
            Err(AnalysisFault::Bad(bad)) => Some(BodyFault::Analysis(bad)),
            _ => None,
        },
        Input::Database => match cb_compdb::read(alloc, bytes) {
            Err(DatabaseFault::Bad(bad)) => Some(BodyFault::Database(bad)),
            _ => None,
        },
        Input::Measurements => match cb_measure::read(alloc, bytes) {
            Err(CsvFault::Bad(bad)) => Some(BodyFault::Csv(bad)),
            _ => None,
        },
    }
}

/// Whether the fault of bytes has this text.
fn has_text(alloc: Global, input: Input, bytes: &[u8], expected: &[u8]) -> Result<bool, NoMemory> {
    let mut text = Vec::new(alloc);
    if let Some(fault) = fault_of(alloc, input, bytes) {
        fault.push_text(&mut text)?;
    }
    Ok(text.as_slice() == expected)
}

/// Bytes and how they are read, and the text of their fault.
const TEXTS: &[(Input, &[u8], &[u8])] = &[
    (Input::Analysis, b"=", b"bad analysis 1 NotToml"),
    (Input::Analysis, b"", b"bad analysis 2 NoPlatform platform"),
    (
        Input::Analysis,
        b"[platform.cpu]\n",
        b"bad analysis 4 NoCommands platform.cpu.commands",
    ),
    (Input::Database, b"", b"bad database 1 NotJson"),
    (Input::Database, b"[{}]", b"bad database 4 Field 0"),
    (
        Input::Database,
        b"[{\"directory\":\"\",\"file\":\"\",\"command\":\"'\"}]",
        b"bad database 5 OpenQuote 0",
    ),
    (Input::Measurements, b"", b"bad measurements 1 Header row 1"),
    (
        Input::Measurements,
        b"problem,platform,application,fom\na,b,c\n",
        b"bad measurements 2 Fields row 2",
    ),
];

/// The first bytes with another text.
fn wrong_text(alloc: Global) -> Result<Option<&'static [u8]>, NoMemory> {
    for row in TEXTS {
        if !has_text(alloc, row.0, row.1, row.2)? {
            return Ok(Some(row.1));
        }
    }
    Ok(None)
}

#[test]
fn faults_have_texts(rt: HostRuntime) -> Result<(), Fail> {
    assert_eq!(rt; wrong_text(rt.alloc())?, None);
    Ok(())
}

/// Whether a refusal has this text.
fn refused_has(alloc: Global, refused: &Refused, expected: &[u8]) -> Result<bool, NoMemory> {
    let mut text = Vec::new(alloc);
    refused.push_text(&mut text)?;
    Ok(text.as_slice() == expected)
}

/// The number of the first refusal with another text.
fn wrong_refusal(alloc: Global) -> Result<Option<usize>, NoMemory> {
    let rows: [(Refused, &[u8]); 5] = [
        (
            Refused::Limit(LimitName::Sources, 20_001),
            b"limit sources 20001 20000",
        ),
        (
            Refused::Limit(LimitName::SourceBytes, 268_435_457),
            b"limit source-bytes 268435457 268435456",
        ),
        (
            Refused::Limit(LimitName::DatabaseBytes, 300_000_000),
            b"limit database-bytes 300000000 268435456",
        ),
        (
            Refused::Limit(LimitName::Commands, 30_000),
            b"limit commands 30000 20000",
        ),
        (Refused::Store, b"store failed"),
    ];
    for at in 0..rows.len() {
        if !refused_has(alloc, &rows[at].0, rows[at].1)? {
            return Ok(Some(at));
        }
    }
    Ok(None)
}

#[test]
fn refusals_have_texts(rt: HostRuntime) -> Result<(), Fail> {
    assert_eq!(rt; wrong_refusal(rt.alloc())?, None);
    Ok(())
}
