// The answers read so far, and the table that is kept of them.
ghost use Rattle.std.specs.Prelude.{◌≡◌, Some, None, true, OnOk, OnErr, if◌then◌else◌};
ghost use Rattle.std.specs.Option.{option_map};
ghost use Rattle.std.specs.Ordering.{nat_cmp};
ghost use Rattle.std.specs.BTreeMap.{IsEmpty, IsUnchanged, insert_entry};
ghost use Rattle.picture.specs.KnownNet.{current_after, net_after};

use crate::job::JobLine;
use crate::net::KnownNet;
use crate::row::DrawnRow;
use crate::table::DrawnTable;
use std::alloc::{AllocError, Global};
use std::collections::BTreeMap;
use std::mem;

/// The answers read so far.
#[derive(Drop)]
pub struct Reading {
    /// The rows since the last answer.
    pub rows: BTreeMap<u64, DrawnRow>,
    /// The net as it is now.
    pub net: KnownNet,
    /// The last complete table.
    pub table: Option<DrawnTable>,
    /// Whether the table is of the net's tree as it is now.
    pub is_current: bool,
}

impl Reading {
    ghost use Rattle.picture.specs.Reading.{SameButRows, table_after, with_net};

    /// No answers.
    pub fn new(alloc: Global) -> Reading
        ensures rows { IsEmpty result.rows }
        ensures table { result.table ≡ None }
    {
        Reading {
            rows: BTreeMap::new(alloc),
            net: KnownNet::without_pins(),
            table: None,
            is_current: false,
        }
    }

    /// Reads a row. Of two rows with one number the later one counts.
    pub fn row(&mut self, number: u64, row: DrawnRow) -> Result<(), AllocError>
        ensures ok { OnOk result (self.new.rows.entries ≡ insert_entry nat_cmp self.old.rows.entries number row) }
        ensures err { OnErr result (IsUnchanged self.old.rows self.new.rows) }
        ensures rest { SameButRows self.old self.new }
    {
        self.rows.insert(number, row)?;
        Ok(())
    }

    /// Reads a refusal: the rows before it are of no complete table.
    pub fn refused(&mut self)
        ensures rows { IsEmpty self.new.rows }
        ensures rest { SameButRows self.old self.new }
    {
        self.rows.clear();
    }

    /// Reads that a call was accepted, with the first value of its answer.
    pub fn accepted(&mut self, call: JobLine, value: Option<u64>) -> Result<(), AllocError>
        ensures rows { OnOk result (IsEmpty self.new.rows) }
        ensures net { OnOk result (self.new.net ≡ net_after call value self.old.net) }
        ensures table { OnOk result (self.new.table ≡ table_after call value self.old) }
        ensures current { OnOk result (self.new.is_current ≡ current_after call self.old.is_current) }
        ensures err { OnErr result (self.new ≡ self.old) }
    {
        let rows = mem::try_take(&mut self.rows)?;
        self.net = self.net.after(call, value);
        match call {
            JobLine::Table => self.keep(rows),
            JobLine::Worst => self.mark(),
            JobLine::Other => {}
            JobLine::Net(_) | JobLine::Pin | JobLine::Steiner | JobLine::Seed | JobLine::Change => {
                self.is_current = false;
            }
        }
        Ok(())
    }

    /// Keeps rows as the table of the net's tree as it is now.
    fn keep(&mut self, rows: BTreeMap<u64, DrawnRow>)
        ensures { self.new ≡ record self.old {
          table = Some (record { rows = rows; net = self.old.net });
          is_current = true;
        } }
    {
        let net = self.net;
        self.table = Some(DrawnTable { rows, net });
        self.is_current = true;
    }

    /// Gives a table that is of the net's tree the net's worst sink.
    fn mark(&mut self)
        ensures { self.new ≡ record self.old {
          table = (if self.old.is_current
              then option_map (with_net self.old.net) self.old.table
              else self.old.table);
        } }
    {
        let net = self.net;
        if self.is_current {
            self.table = self.table.take().map(|table| DrawnTable {
                rows: table.rows,
                net,
            });
        }
    }
}
