//! One measurement.
ghost use Rattle.std.specs.Prelude.{◌≡◌, IfOk};

use cb_paths::{Bytes, NoMemory};
use std::alloc::Global;

/// One measurement: how long an application took for a problem on a platform.
#[derive(Drop)]
pub struct Row {
    /// The name of the problem.
    pub problem: Bytes,
    /// The name of the platform.
    pub platform: Bytes,
    /// The name of the application.
    pub application: Bytes,
    /// The figure of merit in millionths, of which less is better. It is 0 for a failed run.
    pub fom: u64,
}

impl Row {
    /// The measurement with copies of these names.
    pub(crate) fn new(
        alloc: Global,
        problem: &[u8],
        platform: &[u8],
        application: &[u8],
        fom: u64,
    ) -> Result<Row, NoMemory>
        ensures { IfOk result (λ row. row ≡ record { problem = problem.now; platform = platform.now; application = application.now; fom = fom }) }
    {
        Ok(Row {
            problem: Bytes::from_slice(alloc, problem)?,
            platform: Bytes::from_slice(alloc, platform)?,
            application: Bytes::from_slice(alloc, application)?,
            fom,
        })
    }
}
