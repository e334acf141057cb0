ghost use Rattle.std.specs.Prelude.{◌≤◌, length};
ghost use Rattle.job.specs.Jobs.{Ran};

use crate::answering::Answerer;
use request::next_line;

/// What a run did. That there was no memory for the net is no outcome here but an error; for C, `dagrelk` tells it and a stop by one number.
#[derive(Clone, Copy, Debug, PartialEq, Eq)]
pub struct Outcome {
    /// How many lines were answered.
    pub lines: usize,
    /// How many bytes their answers have.
    pub bytes: usize,
    /// Whether the run stopped before the end of the job, since the whole answer of the next line did not fit.
    pub stopped: bool,
}

/// Answers the lines of a job from line 2 on, up to the first whose whole answer does not fit.
pub(crate) fn run_lines<A: Answerer>(answerer: &mut A, job: &[u8], out: &mut [u8]) -> Outcome
    ensures ran { Ran 2 (A.stage answerer.old) (A.stage answerer.new) job.now out.old out.new result }
    ensures few { result.lines ≤ length job.now }
    ensures room { result.bytes ≤ length out.old }
{
    let mut rest = job;
    let mut lines = 0;
    let mut bytes = 0;
    while let Some((line, behind)) = next_line(rest) {
        let Some(end) = answerer.answer_at(2 + lines as u64, line, out, bytes) else {
            return Outcome {
                lines,
                bytes,
                stopped: true,
            };
        };
        bytes = end;
        lines += 1;
        rest = behind;
    }
    Outcome {
        lines,
        bytes,
        stopped: false,
    }
}
