//! The header of a file of measurements.
ghost use Rattle.std.specs.Prelude.{◌≡◌, codes, length};
ghost use Rattle.std.specs.List.{count_by, position_or_len};
ghost use Rattle.std.specs.Str.{bytes_eq};
ghost use Rattle.csv.specs.Records.{fields_of};
ghost use Rattle.cb_measure.specs.Header.{column_of, columns_of};

use crate::records::field;
use csv::ByteRecord;

/// Where the columns of a file stand.
#[derive(Clone, Copy, Drop)]
pub(crate) struct Columns {
    /// The number of fields of the header.
    pub(crate) width: usize,
    /// The place of the column of problems, from 0, as the others are.
    pub(crate) problem: usize,
    /// The place of the column of platforms.
    pub(crate) platform: usize,
    /// The place of the column of applications.
    pub(crate) application: usize,
    /// The place of the column of figures.
    pub(crate) fom: usize,
}

/// How often a name stands in a header.
fn count(header: &ByteRecord, name: &[u8]) -> usize
    ensures { result ≡ count_by (λ f. bytes_eq f name.now) (fields_of header.now) }
{
    let mut count = 0;
    for at in 0..header.len() {
        if field(header, at) == name {
            count += 1;
        }
    }
    count
}

/// The first place at which a name stands in a header, or the number of its fields.
fn place(header: &ByteRecord, name: &[u8]) -> usize
    ensures { result ≡ position_or_len (λ f. bytes_eq f name.now) (fields_of header.now) }
{
    for at in 0..header.len() {
        if field(header, at) == name {
            return at;
        }
    }
    header.len()
}

/// The place of the one field that is a name, where there is one.
#[tactic(auto, unfolding(crate::specs::Header::column_of))]
fn column_of(header: &ByteRecord, name: &[u8]) -> Option<usize>
    ensures { result ≡ column_of name.now (fields_of header.now) }
{
    if count(header, name) == 1 {
        Some(place(header, name))
    } else {
        None
    }
}

/// The places of the four columns, where each stands once in a header.
#[tactic(auto, unfolding(crate::specs::Header::columns_of))]
pub(crate) fn columns_of(header: &ByteRecord) -> Option<Columns>
    ensures { result ≡ columns_of (fields_of header.now) }
{
    let problem = column_of(header, b"problem")?;
    let platform = column_of(header, b"platform")?;
    let application = column_of(header, b"application")?;
    let fom = column_of(header, b"fom")?;
    Some(Columns {
        width: header.len(),
        problem,
        platform,
        application,
        fom,
    })
}
