// The spots of standard input.
ghost use Rattle.std.specs.Prelude.{IfOk};
ghost use Rattle.std.specs.List.Sorted.{IsNonDecreasingBy};

use space::{ParseSpotError, Spot};
use std::io;

/// A spot, and the number of the line that it stands on, from 1.
#[derive(Clone, Copy)]
pub struct Entry {
    /// The number of its line, from 1.
    pub line: u64,
    /// The spot that the line writes.
    pub spot: Spot,
}

/// The spots of standard input, in the order of their lines. A line that is no spot is reported and left out.
pub fn read(rt: &HostRuntime) -> io::Result<Vec<Entry>>
    ensures { IfOk result (λ v. IsNonDecreasingBy (λ e. e.line) v.items) }
{
    let mut entries = Vec::new(rt.alloc());
    let mut line: u64 = 0;
    for text in rt.lines(rt.alloc()) {
        line = line.saturating_add(1);
        match spot_on(text)? {
            Ok(spot) => entries.push(Entry { line, spot })?,
            Err(error) => println!(rt; "line {line}: {error}")?,
        }
    }
    Ok(entries)
}

/// The spot on a line, or that there is none; bytes that are no text have none.
fn spot_on(line: io::Result<String>) -> io::Result<Result<Spot, ParseSpotError>> {
    line.map(|text| text.parse::<Spot>())
        .or_else(|e| if e.kind() == io::ErrorKind::InvalidData {
            Ok(Err(ParseSpotError))
        } else {
            Err(e)
        })
}
