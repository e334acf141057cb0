// The shapes of a picture.
use crate::counts::Kind;
use crate::frame::Place;
use crate::job::SpaceWord;
use crate::row::DrawnRow;
use std::fmt;

/// Colours of wires by level, for levels 0 to 15.
const PALETTE: [&str; 16] = [
    "#1f77b4", "#d62728", "#2ca02c", "#9467bd", "#ff7f0e", "#8c564b", "#e377c2", "#17becf",
    "#bcbd22", "#7f7f7f", "#393b79", "#843c39", "#637939", "#7b4173", "#8c6d31", "#3182bd",
];

/// The colour of a wire at any other level, and of marks.
const INK: &str = "#222222";

/// The colour of the sheet.
pub const PAPER: &str = "#ffffff";

/// A row of a table with its number, as a shape's title has it.
#[derive(Clone, Copy)]
pub struct Title {
    /// The row's number; 0 is the driver.
    pub number: u64,
    /// What the row holds.
    pub row: DrawnRow,
}

/// A wire from a parent's place to a row's.
#[derive(Clone, Copy)]
pub struct Wire {
    /// The row that hangs by the wire.
    pub title: Title,
    /// The space, which says whether the wire bends.
    pub space: SpaceWord,
    /// The place of the parent.
    pub from: Place,
    /// The place of the row.
    pub to: Place,
}

/// The mark of a row at its place.
#[derive(Clone, Copy)]
pub struct Mark {
    /// The row that is marked.
    pub title: Title,
    /// What the row is, which gives the mark its shape.
    pub kind: Kind,
    /// The place of the row.
    pub at: Place,
}

/// The ring round the worst sink.
#[derive(Clone, Copy)]
pub struct Ring {
    /// The row of the worst sink.
    pub title: Title,
    /// The place of that row.
    pub at: Place,
}

/// The colour of a level.
fn colour(level: i32) -> &'static str {
    match usize::try_from(level) {
        Ok(k) => PALETTE.get(k).copied().unwrap_or(INK),
        Err(_) => INK,
    }
}

impl fmt::Display for Title {
    fn fmt<W: fmt::Write>(&self, f: &mut fmt::Formatter<W>) -> fmt::Result {
        let number = self.number;
        let DrawnRow {
            parent,
            spot,
            length,
        } = self.row;
        write!(
            f,
            "<title>row {number}, parent {parent}: {spot}, length {length}</title>"
        )
    }
}

impl fmt::Display for Wire {
    fn fmt<W: fmt::Write>(&self, f: &mut fmt::Formatter<W>) -> fmt::Result {
        let title = self.title;
        let stroke = colour(title.row.spot.level);
        let Place { x, y } = self.from;
        let Place { x: to_x, y: to_y } = self.to;
        match self.space {
            SpaceWord::Plane => writeln!(
                f,
                "<path d=\"M{x} {y}H{to_x}V{to_y}\" stroke=\"{stroke}\">{title}</path>"
            ),
            SpaceWord::Air => writeln!(
                f,
                "<path d=\"M{x} {y}L{to_x} {to_y}\" stroke=\"{stroke}\">{title}</path>"
            ),
        }
    }
}

impl fmt::Display for Mark {
    fn fmt<W: fmt::Write>(&self, f: &mut fmt::Formatter<W>) -> fmt::Result {
        let title = self.title;
        let Place { x, y } = self.at;
        match self.kind {
            Kind::Driver => {
                let left = x.saturating_sub(160);
                let upper = y.saturating_sub(160);
                writeln!(
                    f,
                    "<rect x=\"{left}\" y=\"{upper}\" width=\"320\" height=\"320\" fill=\"{INK}\">{title}</rect>"
                )
            }
            Kind::Pin => writeln!(
                f,
                "<circle cx=\"{x}\" cy=\"{y}\" r=\"130\" fill=\"{INK}\">{title}</circle>"
            ),
            Kind::Steiner => writeln!(
                f,
                "<circle cx=\"{x}\" cy=\"{y}\" r=\"110\" fill=\"{PAPER}\" stroke=\"{INK}\" stroke-width=\"40\">{title}</circle>"
            ),
            Kind::Meet => writeln!(
                f,
                "<circle cx=\"{x}\" cy=\"{y}\" r=\"60\" fill=\"{INK}\">{title}</circle>"
            ),
        }
    }
}

impl fmt::Display for Ring {
    fn fmt<W: fmt::Write>(&self, f: &mut fmt::Formatter<W>) -> fmt::Result {
        let title = self.title;
        let Place { x, y } = self.at;
        writeln!(
            f,
            "<circle cx=\"{x}\" cy=\"{y}\" r=\"260\" stroke=\"{INK}\" stroke-width=\"50\">{title}</circle>"
        )
    }
}
