ghost use Rattle.std.specs.Prelude.{◌≡◌, ◌≤◌, ◌<◌, ◌+◌, ◌*◌, ◌++◌, ◌⊎◌, length};
ghost use Rattle.std.specs.Bool.{OnFalse, OnTrue};
ghost use Rattle.job.specs.Places.{Puts, put_at};
ghost use Rattle.reply.specs.Texts.{answer_text, row_text, rows_text};
ghost use Rattle.tree_laws.specs.Trees.{row_of};
ghost use Rattle.job.specs.Jobs.{Counted, Sized};
ghost use Rattle.job.specs.Tabled.{rows_at, table_length};

use crate::places::{place, put};
use arrayvec::ArrayString;
use net::Net;
use reply::{LINE, Reply, last_line, row_line};
use request::TextFault;
use space::Space;

/// The line of the row `k`.
fn line_at<S: Space>(net: &Net<S>, k: usize) -> ArrayString<LINE>
    requires { k < length (rows_at net.now) }
    ensures { result.bytes ≡ row_text k (row_of (rows_at net.now) k) }
{
    let row = net.row(k).unwrap_or_default();
    row_line(k as u64, row)
}

/// How many bytes the lines of the rows take; nothing where that is more than `room`.
fn table_size<S: Space>(net: &Net<S>, count: usize, room: usize) -> Option<usize>
    requires { count ≡ length (rows_at net.now) }
    ensures { Sized room (table_length net.now) result }
{
    let mut size = 0;
    for k in 0..count {
        let line = line_at(net, k);
        if line.len() > room - size {
            return None;
        }
        size += line.len();
    }
    Some(size)
}

/// Puts the lines of the rows at a place where they fit, or where there is plenty of room for so many lines; answers the place behind them.
fn put_rows<S: Space>(net: &Net<S>, count: usize, out: &mut [u8], at: usize) -> usize
    requires count { count ≡ length (rows_at net.now) }
    requires fits { (at + table_length net.now ≤ length out.old) ⊎ (at + count * LINE ≤ length out.old) }
    ensures end { result ≡ at + table_length net.now }
    ensures most { result ≤ at + count * LINE }
    ensures bytes { out.new ≡ put_at out.old at (rows_text 0 (rows_at net.now)) }
{
    let mut end = at;
    for k in 0..count {
        let line = line_at(net, k);
        end = place(out, end, line.as_bytes());
    }
    end
}

/// Whether the lines of the rows and one line more fit in the room. Where there is plenty, no line is made to find out.
fn fits<S: Space>(net: &Net<S>, count: usize, more: usize, room: usize) -> bool
    requires count { count ≡ length (rows_at net.now) }
    requires line { more ≤ LINE }
    ensures some { OnTrue result ((table_length net.now + more ≤ room) ⊎ (count * LINE + LINE ≤ room)) }
    ensures none { OnFalse result (room < table_length net.now + more) }
{
    if count < room / LINE {
        return true;
    }
    match table_size(net, count, room) {
        Some(size) => more <= room - size,
        None => false,
    }
}

/// Puts the rows and the last line at a place, and answers the place behind them; nothing, with nothing changed, where they do not fit.
fn put_table<S: Space>(
    net: &Net<S>,
    count: usize,
    last: &[u8],
    out: &mut [u8],
    at: usize,
) -> Option<usize>
    requires count { count ≡ length (rows_at net.now) }
    requires at { at ≤ length out.old }
    requires line { length last.now ≤ LINE }
    ensures { Puts out.old at (rows_text 0 (rows_at net.now) ++ last.now) result out.new }
{
    if !fits(net, count, last.len(), out.len() - at) {
        return None;
    }
    let end = put_rows(net, count, out, at);
    put(out, end, last)
}

/// Puts the whole answer of a line at a place, and answers the place behind it; nothing, with nothing changed, where it does not fit.
pub(crate) fn put_answer<S: Space>(
    net: &Net<S>,
    number: u64,
    answer: Result<Reply, TextFault>,
    out: &mut [u8],
    at: usize,
) -> Option<usize>
    requires at { at ≤ length out.old }
    requires counted { Counted net.now.state answer }
    ensures { Puts out.old at (answer_text net.now.state number answer) result out.new }
{
    let last = last_line(number, answer);
    match answer {
        Ok(Reply::Rows(count)) => put_table(net, count, last.as_bytes(), out, at),
        _ => put(out, at, last.as_bytes()),
    }
}
