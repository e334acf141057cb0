// A complete table of rows.
ghost use Rattle.std.specs.Prelude.{◌≡◌, ◌↔◌, [], Some, IsTrue, MatchOption};
ghost use Rattle.std.specs.Ordering.{nat_cmp};
ghost use Rattle.std.specs.BTreeMap.{get, values};
ghost use Rattle.std.specs.Option.{option_map};
ghost use Rattle.picture.specs.Frame.{Holds, IsWithin};
ghost use Rattle.picture.specs.DrawnTable.{IsAround, IsBoxOf};

use crate::frame::Frame;
use crate::net::KnownNet;
use crate::row::DrawnRow;
use space::Spot;
use std::collections::BTreeMap;

/// A complete table: the rows of a tree by their numbers, and the net whose tree it is.
#[derive(Drop)]
pub struct DrawnTable {
    /// The rows by their numbers; row 0 is the driver.
    pub rows: BTreeMap<u64, DrawnRow>,
    /// What is known of the net.
    pub net: KnownNet,
}

impl DrawnTable {
    /// The least box that holds the spots of all rows; nothing where there are no rows.
    pub fn frame(&self) -> Option<Frame>
        ensures { MatchOption result (values self.now.rows ≡ []) (λ f. IsBoxOf f (values self.now.rows)) }
    {
        let mut frame = None;
        for row in self.rows.values() {
            frame = Some(around(frame, row.spot));
        }
        frame
    }

    /// The spot of a row's parent; nothing where the table has no such row.
    pub fn parent(&self, row: DrawnRow) -> Option<Spot>
        ensures { result ≡ option_map (λ r. r.spot) (get nat_cmp self.now.rows row.parent) }
    {
        self.rows.get(&row.parent).map(|parent| parent.spot)
    }

    /// Whether a number is that of the worst sink.
    pub fn is_worst(&self, number: u64) -> bool
        ensures { IsTrue result ↔ (self.now.net.worst ≡ Some number) }
    {
        self.net.worst == Some(number)
    }
}

/// The least box that holds a spot beside all that a box holds already.
fn around(frame: Option<Frame>, spot: Spot) -> Frame
    ensures holds { Holds result spot }
    ensures keeps { IsAround frame result }
    ensures least { (g : Frame) → IsAround frame g → Holds g spot → IsWithin result g }
{
    match frame {
        Some(frame) => frame.with(spot),
        None => Frame::at(spot),
    }
}
