#![tactic(auto)]

// Runs the stored jobs and compares their answers with the stored ones, with outputs of every short length: `names` lists the jobs, and
// NAME.job and NAME.out are a job and its answers.
use anyhow::{Result, ensure};
use std::fs;

/// What stands in the output before a run.
const MARK: u8 = b'#';

/// Jobs with longer answers are run only with outputs of about the right length.
const SHORT: usize = 600;

/// How many bytes of output more than enough are tried.
const SPARE: usize = 3;

fn main(rt: HostRuntime) -> Result<()> {
    let names = fs::read_to_string(&rt, "names")?;
    let mut jobs: u64 = 0;
    let mut runs: u64 = 0;
    for name in names.lines() {
        jobs = jobs.saturating_add(1);
        runs = runs.saturating_add(try_job(&rt, name)?);
    }
    println!(rt; "{jobs} jobs in {runs} runs: every byte as stored")?;
    Ok(())
}

/// Runs a job with outputs of many lengths, and answers with how many.
fn try_job(rt: &HostRuntime, name: &str) -> Result<u64> {
    let job = fs::read(rt, format!(in rt.alloc(); "{name}.job")?)?;
    let wanted = fs::read(rt, format!(in rt.alloc(); "{name}.out")?)?;
    let most = wanted.len().saturating_add(SPARE);
    let least = if wanted.len() <= SHORT {
        0
    } else {
        wanted.len().saturating_sub(SPARE)
    };
    let mut out = vec![in rt.alloc(); MARK; most]?;
    let mut runs: u64 = 0;
    for room in least..=most {
        try_room(rt, name, &job, &wanted, &mut out, room)?;
        runs = runs.saturating_add(1);
    }
    Ok(runs)
}

/// Runs a job with the first `room` bytes of the output, and compares every byte of it.
fn try_room(
    rt: &HostRuntime,
    name: &str,
    job: &[u8],
    wanted: &[u8],
    out: &mut [u8],
    room: usize,
) -> Result<()> {
    out.fill(MARK);
    let room = room.min(out.len());
    let outcome = job::run(rt.alloc(), job, &mut out[..room])?;
    let (lines, bytes) = whole_answers(wanted, room);
    ensure!(
        outcome.lines == lines,
        "{name} in {room} bytes: not {lines} lines"
    );
    ensure!(
        outcome.bytes == bytes,
        "{name} in {room} bytes: not {bytes} bytes"
    );
    ensure!(
        outcome.stopped == (room < wanted.len()),
        "{name} in {room} bytes: the wrong end"
    );
    ensure!(
        out.iter().take(bytes).eq(wanted.iter().take(bytes)),
        "{name} in {room} bytes: another answer"
    );
    ensure!(
        out.iter().skip(bytes).all(|b| *b == MARK),
        "{name} in {room} bytes: a byte behind the answers"
    );
    Ok(())
}

/// How many of the answers fit, and how many bytes they have. A line that begins with N belongs to the answer of the line behind it.
fn whole_answers(wanted: &[u8], room: usize) -> (usize, usize) {
    let mut lines: usize = 0;
    let mut bytes: usize = 0;
    let mut at: usize = 0;
    for line in wanted.split_inclusive(|b| *b == b'\n') {
        at = at.saturating_add(line.len());
        if at > room {
            break;
        }
        if line.first() != Some(&b'N') {
            lines = lines.saturating_add(1);
            bytes = at;
        }
    }
    (lines, bytes)
}
