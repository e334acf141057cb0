// A table as a picture.
ghost use Rattle.std.specs.Prelude.{◌↔◌, IsSome, IfSome};
ghost use Rattle.std.specs.Ordering.{nat_cmp};
ghost use Rattle.std.specs.BTreeMap.{get};
ghost use Rattle.picture.specs.Frame.{IsOnSheet};

use crate::counts::Kind;
use crate::frame::{Frame, Place};
use crate::row::DrawnRow;
use crate::shapes::{Mark, PAPER, Ring, Title, Wire};
use crate::table::DrawnTable;
use std::fmt;

/// A picture in SVG: the wires and the rows of a table; a picture of nothing where there is no table or no row.
#[derive(Clone, Copy)]
pub struct Picture<'a>(pub Option<&'a DrawnTable>);

/// A table on a sheet.
#[derive(Clone, Copy)]
struct Sheet<'a> {
    table: &'a DrawnTable,
    frame: Frame,
}

/// The place of a row's parent and of the row.
#[derive(Clone, Copy)]
struct Ends {
    from: Place,
    to: Place,
}

impl<'a> Sheet<'a> {
    /// Where a row's wire begins and ends; nothing where the table has no row for its parent.
    fn ends(&self, row: DrawnRow) -> Option<Ends>
        ensures parent { IsSome result ↔ IsSome (get nat_cmp self.now.table.now.rows row.parent) }
        ensures inside { IfSome result (λ e. IsOnSheet self.now.frame e.from × IsOnSheet self.now.frame e.to) }
    {
        let parent = self.table.parent(row)?;
        Some(Ends {
            from: self.frame.place(parent),
            to: self.frame.place(row.spot),
        })
    }

    /// Writes the wire of a row; none where it is the driver or is left out.
    fn write_wire<W: fmt::Write>(&self, f: &mut fmt::Formatter<W>, title: Title) -> fmt::Result {
        let net = self.table.net;
        match self.ends(title.row) {
            Some(Ends { from, to }) if net.counts.kind(title.number) != Kind::Driver => {
                let space = net.space;
                let wire = Wire {
                    title,
                    space,
                    from,
                    to,
                };
                write!(f, "{wire}")
            }
            _ => Ok(()),
        }
    }

    /// Writes the mark of a row, and the ring where it is the worst sink; none where it is left out.
    fn write_mark<W: fmt::Write>(&self, f: &mut fmt::Formatter<W>, title: Title) -> fmt::Result {
        let Some(Ends { to: at, .. }) = self.ends(title.row) else {
            return Ok(());
        };
        let kind = self.table.net.counts.kind(title.number);
        let mark = Mark { title, kind, at };
        write!(f, "{mark}")?;
        if self.table.is_worst(title.number) {
            let ring = Ring { title, at };
            write!(f, "{ring}")?;
        }
        Ok(())
    }

    /// Writes the wires of all rows.
    fn write_wires<W: fmt::Write>(&self, f: &mut fmt::Formatter<W>) -> fmt::Result {
        for (number, row) in &self.table.rows {
            let title = Title {
                number: *number,
                row: *row,
            };
            self.write_wire(f, title)?;
        }
        Ok(())
    }

    /// Writes the marks of all rows, which lie over the wires.
    fn write_marks<W: fmt::Write>(&self, f: &mut fmt::Formatter<W>) -> fmt::Result {
        for (number, row) in &self.table.rows {
            let title = Title {
                number: *number,
                row: *row,
            };
            self.write_mark(f, title)?;
        }
        Ok(())
    }
}

impl<'a> fmt::Display for Sheet<'a> {
    fn fmt<W: fmt::Write>(&self, f: &mut fmt::Formatter<W>) -> fmt::Result {
        let Place { x, y } = self.frame.corner();
        writeln!(
            f,
            "<svg xmlns=\"http://www.w3.org/2000/svg\" viewBox=\"0 0 {x} {y}\""
        )?;
        writeln!(f, "style=\"background:{PAPER}\" fill=\"none\"")?;
        writeln!(
            f,
            "stroke-width=\"70\" stroke-linecap=\"round\" stroke-linejoin=\"round\">"
        )?;
        self.write_wires(f)?;
        self.write_marks(f)?;
        writeln!(f, "</svg>")
    }
}

impl<'a> fmt::Display for Picture<'a> {
    fn fmt<W: fmt::Write>(&self, f: &mut fmt::Formatter<W>) -> fmt::Result {
        let Picture(table) = *self;
        let frame = table.and_then(|table| table.frame());
        match (table, frame) {
            (Some(table), Some(frame)) => {
                let sheet = Sheet { table, frame };
                write!(f, "{sheet}")
            }
            _ => writeln!(
                f,
                "<svg xmlns=\"http://www.w3.org/2000/svg\" viewBox=\"0 0 1 1\"></svg>"
            ),
        }
    }
}
