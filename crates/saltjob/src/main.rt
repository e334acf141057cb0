#![tactic(auto)]

// Runs the job on standard input and writes its answers: the first 65,536 bytes of input, and as many of output.
use anyhow::Result;
use std::io;
use std::io::{Read, Write};

/// The most bytes of the job, and of its answers.
const ROOM: usize = 65_536;

fn main(rt: HostRuntime) -> Result<()> {
    let mut text = Vec::new(rt.alloc());
    rt.reader().take(ROOM as u64).read_to_end(&mut text)?;
    let mut answers = vec![in rt.alloc(); 0; ROOM]?;
    let outcome = job::run(rt.alloc(), &text, &mut answers)?;
    io::writer(&rt).write_all(&answers[..outcome.bytes])?;
    Ok(())
}
