// What the lines of a job ask.
ghost use Rattle.std.specs.Prelude.{◌≡◌, ◌==◌, map, IfOk};
ghost use Rattle.std.specs.List.{slice_split};
ghost use Rattle.picture.specs.JobLine.{job_line_of, job_line_on, letter_line, space_of};

use std::alloc::{AllocError, Global};

/// The space that a W line names, as far as wires are drawn by it: square over plane, also under a lift; straight through air.
#[derive(Clone, Copy, Debug, PartialEq, Eq)]
pub enum SpaceWord {
    /// Wires go along x and then along y.
    Plane,
    /// Wires go straight.
    Air,
}

/// What a line of a job asks, as far as a picture depends on it.
#[derive(Clone, Copy, Debug, PartialEq, Eq)]
pub enum JobLine {
    /// A new net in a space, letter W.
    Net(SpaceWord),
    /// A pin, letter P.
    Pin,
    /// A Steiner point, letter V.
    Steiner,
    /// A new seed, letters U and M: Steiner points are dropped.
    Seed,
    /// Another change of the net, letters A, E, D, J, H and S.
    Change,
    /// The worst sink, letter X.
    Worst,
    /// All rows of the tree, letter T.
    Table,
    /// Anything else, which changes nothing.
    Other,
}

impl SpaceWord {
    /// The space that stands after the letter W; plane where it is not air.
    pub fn of(word: &[u8]) -> SpaceWord
        ensures { result ≡ space_of word.now }
    {
        if word.starts_with(b",air") {
            SpaceWord::Air
        } else {
            SpaceWord::Plane
        }
    }
}

impl JobLine {
    /// What a line of a job asks; its first byte decides.
    pub fn of(line: &[u8]) -> JobLine
        ensures { result ≡ job_line_of line.now }
    {
        match line.split_first() {
            Some((letter, word)) => JobLine::of_letter(*letter, word),
            None => JobLine::Other,
        }
    }

    /// What a letter asks with what stands after it.
    fn of_letter(letter: u8, word: &[u8]) -> JobLine
        ensures { result ≡ letter_line letter word.now }
    {
        match letter {
            b'W' => JobLine::Net(SpaceWord::of(word)),
            b'P' => JobLine::Pin,
            b'V' => JobLine::Steiner,
            b'U' | b'M' => JobLine::Seed,
            b'A' | b'E' | b'D' | b'J' | b'H' | b'S' => JobLine::Change,
            b'X' => JobLine::Worst,
            b'T' => JobLine::Table,
            _ => JobLine::Other,
        }
    }
}

/// What the lines of a job ask, in their order. The last line may lack its end; where it has one, a line `Other` follows it.
pub fn job_lines(alloc: Global, job: &[u8]) -> Result<Vec<JobLine>, AllocError>
    ensures { IfOk result (λ v. v.items ≡ map job_line_of (slice_split (λ b. b == 10) job.now)) }
{
    job.split(|b| *b == b'\n').map(JobLine::of).collect(alloc)
}

/// What is asked on a line of the job, where lines count from 1; `Other` where there is no such line.
pub fn job_line_at(lines: &[JobLine], line: u64) -> JobLine
    ensures { result ≡ job_line_on lines.now line }
{
    let Some(k) = line.checked_sub(1) else {
        return JobLine::Other;
    };
    match usize::try_from(k) {
        Ok(k) => lines.get(k).copied().unwrap_or(JobLine::Other),
        Err(_) => JobLine::Other,
    }
}
