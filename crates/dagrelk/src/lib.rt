// The run of a job, for programs in C: `include/dagrelk.h`.
#![tactic(auto)]

ghost use Rattle.dagrelk.specs.Outcomes.{RanForC};

use job::run;
use std::alloc::Global;

/// Each line of the job was answered.
pub const ANSWERED: u32 = 0;

/// The whole answer of the next line did not fit.
pub const NO_ROOM: u32 = 1;

/// There was no memory for the net, and nothing was done.
pub const NO_MEMORY: u32 = 2;

/// What a run did. It differs from the `Outcome` of `job` by how a stop is told: by one number, which also says that there was no memory, since C has
/// no `Result`.
#[repr(C)]
#[derive(Clone, Copy, Debug)]
pub struct DagrelkOutcome {
    /// How many lines were answered.
    pub lines: usize,
    /// How many bytes their answers have.
    pub bytes: usize,
    /// Why the run ended: `ANSWERED`, `NO_ROOM` or `NO_MEMORY`.
    pub stop: u32,
}

/// Runs a job, as `dagrelk_run(job, job_len, out, out_len)` in C. Memory is taken once, for the net that line 1 asks for, and given back at the end.
#[unsafe(no_mangle)]
pub extern "C" fn dagrelk_run(heap: Global, job: &[u8], out: &mut [u8]) -> DagrelkOutcome
    ensures { RanForC job.now out.old out.new result }
{
    match run(heap, job, out) {
        Ok(outcome) => DagrelkOutcome {
            lines: outcome.lines,
            bytes: outcome.bytes,
            stop: if outcome.stopped { NO_ROOM } else { ANSWERED },
        },
        Err(_) => DagrelkOutcome {
            lines: 0,
            bytes: 0,
            stop: NO_MEMORY,
        },
    }
}
