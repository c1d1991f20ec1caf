//! Measurements: what is read of a file, and what it says.
use cb_measure::{BadCsv, CsvFault, Rows, one_reading, read};
use cb_paths::{NoMemory, Texts};
use std::alloc::Global;
use std::test::Fail;

/// The example of the application x, which runs on a and half as well on b, and of y, which runs on b alone.
const EXAMPLE: &[u8] = b"problem,platform,application,fom\np,a,x,1\np,b,x,2\np,b,y,1\n";

/// The same with a failed run of x on c.
const FAILING: &[u8] = b"problem,platform,application,fom\np,a,x,1\np,b,x,2\np,b,y,1\np,c,x,0\n";

/// Three platforms on which x takes 2, 4 and 5 of the best time 1, 1 and 2: the efficiencies are 1/2, 1/4 and 2/5,
/// and their harmonic mean is 3 / (2 + 4 + 5/2) = 6/17 = 0.352941176470(588..).
const WORKED: &[u8] =
    b"fom,other,application,platform,problem\n2,-,x,a,p\n1.0,-,y,a,p\n4,-,x,b,p\n3,-,z,b,p\n1,-,z,b,p\n5,,x,c,p\n2,,y,c,p\n7,,y,c,p\n";

/// Files, the number of the fault of each, and its row; or 0 and the number of rows.
const FILES: &[(&[u8], u32, u32)] = &[
    (b"", 1, 1),
    (b"problem,platform,fom\n", 1, 1),
    (b"problem,platform,application,fom,fom\n", 1, 1),
    (b"problem,platform,application,fom\n", 0, 0),
    (EXAMPLE, 0, 3),
    (
        b"\xef\xbb\xbfproblem,platform,application,fom\r\np,a,x,1\r\n\r\n\"p\",\"a\",x,\"2\"\r\n",
        0,
        2,
    ),
    (
        b"problem,platform,application,fom\np,a,x,1\np,a,x,1e3\n",
        3,
        3,
    ),
    (b"problem,platform,application,fom\np,a,x,0.0000001\n", 3, 2),
    (
        b"problem,platform,application,fom\np,a,x,0.0000010\np,a,x,0\np,a,x,\n",
        0,
        3,
    ),
    (
        b"problem,platform,application,fom\np,a,x,1234567890\n",
        3,
        2,
    ),
    (b"problem,platform,application,fom\np,a,x,1.\n", 3, 2),
    (b"problem,platform,application,fom\np,a,x,.5\n", 3, 2),
    (b"problem,platform,application,fom\np,a,x\n", 2, 2),
    (b"problem,platform,application,fom\np,a,,1\n", 4, 2),
    (b"problem,platform,application,fom\n\"p,q\",a,x,1e3\n", 4, 2),
];

/// The number of the fault of a file and its row, and 0 and the number of rows of one that is read.
fn outcome(alloc: Global, text: &[u8]) -> Result<(u32, u32), NoMemory> {
    match read(alloc, text) {
        Ok(rows) => Ok((0, rows.len().min(1000) as u32)),
        Err(CsvFault::Bad(BadCsv::Header)) => Ok((1, 1)),
        Err(CsvFault::Bad(BadCsv::Fields(row))) => Ok((2, row)),
        Err(CsvFault::Bad(BadCsv::Fom(row))) => Ok((3, row)),
        Err(CsvFault::Bad(BadCsv::Name(row))) => Ok((4, row)),
        Err(CsvFault::Bad(BadCsv::TooMany(row))) => Ok((5, row)),
        Err(CsvFault::NoMemory) => Err(NoMemory),
    }
}

#[test]
fn faults_are_told(rt: HostRuntime) -> Result<(), Fail> {
    one_reading();
    for (at, row) in FILES.iter().enumerate() {
        assert!(rt; outcome(rt.alloc(), row.0)? == (row.1, row.2), "{at}");
    }
    Ok(())
}

/// The outcome of a file with so many rows of each text.
fn repeated(alloc: Global, rows: &[(&[u8], u32)]) -> Result<(u32, u32), NoMemory> {
    let mut text = Vec::from_slice(alloc, b"problem,platform,application,fom\n")?;
    for (row, times) in rows {
        for _ in 0..*times {
            text.extend_from_slice(row)?;
        }
    }
    outcome(alloc, text.as_slice())
}

/// The outcome of a file with as many rows as there may be before one text.
fn ends_in(alloc: Global, last: &[u8]) -> Result<(u32, u32), NoMemory> {
    repeated(alloc, &[(b"p,a,x,1\n".as_slice(), 100_000), (last, 1)])
}

/// The outcome of a file with so many platforms.
fn on_platforms(alloc: Global, count: u8) -> Result<(u32, u32), NoMemory> {
    let mut text = Vec::from_slice(alloc, b"problem,platform,application,fom\n")?;
    for platform in 0..count {
        text.extend_from_slice(b"p,")?;
        text.push(b'0' + platform / 10)?;
        text.push(b'0' + platform % 10)?;
        text.extend_from_slice(b",x,1\n")?;
    }
    outcome(alloc, text.as_slice())
}

/// The text behind as many rows as there may be, the number of the fault, and its row or the number of rows.
const LAST: &[(&[u8], u32, u32)] = &[
    (b"", 0, 1000),
    (b"p,a,x,1\n", 5, 100_002),
    (b"p\n", 5, 100_002),
];

/// Numbers of platforms, the number of the fault of each, and its row or the number of rows.
const PLATFORMS: &[(u8, u32, u32)] = &[(64, 0, 64), (65, 5, 66)];

#[test]
fn limits_are_kept(rt: HostRuntime) -> Result<(), Fail> {
    for row in LAST {
        assert!(rt; ends_in(rt.alloc(), row.0)? == (row.1, row.2), "{}", row.1);
    }
    for row in PLATFORMS {
        assert!(rt;
            on_platforms(rt.alloc(), row.0)? == (row.1, row.2),
            "{} platforms",
            row.0
        );
    }
    Ok(())
}

/// Two figures that differ in their seventh digits alone, which are dropped.
const DROPPED: &[u8] = b"problem,platform,application,fom\np,a,x,1.0000019\np,a,y,1.000001\n";

/// Files, an application and a platform of each, the efficiency there, and the portability of the application for p.
const FIGURES: &[(&[u8], &[u8], &[u8], Option<u64>, u64)] = &[
    (
        EXAMPLE,
        b"x",
        b"a",
        Some(1_000_000_000_000),
        666_666_666_666,
    ),
    (EXAMPLE, b"x", b"b", Some(500_000_000_000), 666_666_666_666),
    (EXAMPLE, b"y", b"b", Some(1_000_000_000_000), 0),
    (EXAMPLE, b"y", b"a", None, 0),
    (FAILING, b"x", b"c", None, 0),
    (EXAMPLE, b"z", b"a", None, 0),
    (WORKED, b"x", b"b", Some(250_000_000_000), 352_941_176_470),
    (WORKED, b"x", b"c", Some(400_000_000_000), 352_941_176_470),
    (
        DROPPED,
        b"x",
        b"a",
        Some(1_000_000_000_000),
        1_000_000_000_000,
    ),
    (
        DROPPED,
        b"y",
        b"a",
        Some(1_000_000_000_000),
        1_000_000_000_000,
    ),
];

/// Whether a file has this efficiency of an application on a platform, and this portability.
fn says(
    alloc: Global,
    text: &[u8],
    application: &[u8],
    platform: &[u8],
    efficiency: Option<u64>,
    portability: u64,
) -> Result<bool, CsvFault> {
    let rows = read(alloc, text)?;
    Ok(
        rows.efficiency(b"p", application, platform) == efficiency
            && rows.portability(b"p", application) == portability,
    )
}

#[test]
fn figures_are_worked_out(rt: HostRuntime) -> Result<(), Fail> {
    for (at, row) in FIGURES.iter().enumerate() {
        assert!(rt;
            says(rt.alloc(), row.0, row.1, row.2, row.3, row.4)?,
            "{at}"
        );
    }
    Ok(())
}

/// Whether texts are these, each with a line end behind it.
fn are(texts: &Texts, lines: &[u8]) -> bool {
    let mut rest = lines;
    for text in texts.as_slice() {
        let Some(behind) = rest.strip_prefix(text.as_slice()) else {
            return false;
        };
        let Some(behind) = behind.strip_prefix(b"\n") else {
            return false;
        };
        rest = behind;
    }
    rest.is_empty()
}

/// Whether the cascade of x for the problem p has these steps: a platform, an efficiency and a portability.
fn falls(alloc: Global, text: &[u8], wanted: &[(&[u8], u64, u64)]) -> Result<bool, CsvFault> {
    let steps = read(alloc, text)?.cascade(alloc, b"p", b"x")?;
    let same = steps
        .as_slice()
        .iter()
        .zip(wanted)
        .filter(|(step, wanted)| step.platform.as_slice() == wanted.0
            && step.efficiency == wanted.1
            && step.portability == wanted.2)
        .count();
    Ok(steps.len() == wanted.len() && same == wanted.len())
}

/// Two efficiencies of one grid value, 666666666666: that on b, 200000000/299999999.999999, is a little above that on
/// a, 2/3, so that b stands first.
const CLOSE: &[u8] =
    b"problem,platform,application,fom\np,a,y,2\np,a,x,3\np,b,y,200000000\np,b,x,299999999.999999\n";

/// The steps of a cascade: a platform, an efficiency and a portability.
type Steps = &'static [(&'static [u8], u64, u64)];

/// Files, and the cascade of x for p of each.
const CASCADES: &[(&[u8], Steps)] = &[
    (
        FAILING,
        &[
            (b"a", 1_000_000_000_000, 1_000_000_000_000),
            (b"b", 500_000_000_000, 666_666_666_666),
            (b"c", 0, 0),
        ],
    ),
    (
        WORKED,
        &[
            (b"a", 500_000_000_000, 500_000_000_000),
            (b"c", 400_000_000_000, 444_444_444_444),
            (b"b", 250_000_000_000, 352_941_176_470),
        ],
    ),
    (
        CLOSE,
        &[
            (b"b", 666_666_666_666, 666_666_666_667),
            (b"a", 666_666_666_666, 666_666_666_666),
        ],
    ),
];

#[test]
fn cascades_fall(rt: HostRuntime) -> Result<(), Fail> {
    for (at, row) in CASCADES.iter().enumerate() {
        assert!(rt; falls(rt.alloc(), row.0, row.1)?, "{at}");
    }
    Ok(())
}

/// Whether a file has these problems, and these applications and platforms of the problem p.
fn names(
    alloc: Global,
    text: &[u8],
    problems: &[u8],
    applications: &[u8],
    platforms: &[u8],
) -> Result<bool, CsvFault> {
    let rows = read(alloc, text)?;
    Ok(
        are(&rows.problems(alloc)?, problems)
            && are(&rows.applications(alloc, b"p")?, applications)
            && are(&rows.platforms(alloc, b"p")?, platforms),
    )
}

/// Files, their problems, and the applications and platforms of p, each with a line end behind it.
const NAMES: &[(&[u8], &[u8], &[u8], &[u8])] = &[
    (EXAMPLE, b"p\n", b"x\ny\n", b"a\nb\n"),
    (WORKED, b"p\n", b"x\ny\nz\n", b"a\nb\nc\n"),
    (
        b"problem,platform,application,fom\nq,b,y,1\np,d,x,1\nq,a,y,1\nB,a,x,0\n",
        b"B\np\nq\n",
        b"x\n",
        b"d\n",
    ),
];

#[test]
fn names_are_listed(rt: HostRuntime) -> Result<(), Fail> {
    for (at, row) in NAMES.iter().enumerate() {
        assert!(rt; names(rt.alloc(), row.0, row.1, row.2, row.3)?, "{at}");
    }
    Ok(())
}
