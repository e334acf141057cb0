// The lines of an answer.
ghost use Rattle.std.specs.Prelude.{◌≡◌, ◌≤◌, ◌+◌, ◌++◌, length};
ghost use Rattle.arrayvec.specs.ArrayString.{array_string_len};
ghost use Rattle.reply.specs.Texts.{comma, last_text, layer_letter, no_text, ok_text, row_text, values_of};
ghost use Rattle.net_laws.specs.Faults.{layer_of};

use crate::reply::Reply;
use arrayvec::ArrayString;
use itoa::{Buffer, Integer};
use net_laws::{Fault, Layer};
use request::TextFault;
use tree_laws::Row;

/// The room of a line: no line of an answer is longer.
pub const LINE: usize = 128;

/// Adds a comma and a number to a line.
fn push<I: Integer>(line: &mut ArrayString<LINE>, n: I)
    requires { array_string_len line.old + 1 + I.MAX_STR_LEN ≤ LINE }
    ensures bytes { line.new.bytes ≡ line.old.bytes ++ comma (I.text n) }
    ensures len { array_string_len line.new ≤ array_string_len line.old + 1 + I.MAX_STR_LEN }
{
    line.push_str(",");
    let mut buffer = Buffer::new();
    line.push_str(buffer.format(n));
}

/// The last line of the answer of the line `i`, its byte 10 at the end: `ok` with the values, or `no` with the refusal's layer, number and field.
pub fn last_line(i: u64, answer: Result<Reply, TextFault>) -> ArrayString<LINE>
    ensures { result.bytes ≡ last_text i answer }
{
    match answer {
        Ok(reply) => ok_line(i, reply),
        Err(TextFault::LongLine) => no_line(i, "t", 20, 0),
        Err(TextFault::NoLetter) => no_line(i, "t", 21, 0),
        Err(TextFault::WrongFields) => no_line(i, "t", 22, 0),
        Err(TextFault::BadField(field)) => no_line(i, "t", 23, field),
        Err(TextFault::OutOfPlace) => no_line(i, "t", 24, 0),
        Err(TextFault::NoCall) => no_line(i, "t", 25, 0),
        Err(TextFault::Net(fault)) => no_line(i, letter(fault), fault.number(), 0),
    }
}

/// Whose refusal it is, as a letter.
fn letter(fault: Fault) -> &'static str
    ensures text { result.now ≡ layer_letter (layer_of fault) }
    ensures short { length result.now ≤ 1 }
{
    match fault.layer() {
        Layer::Space => "s",
        Layer::Net => "n",
    }
}

/// The line of an accepted line.
fn ok_line(i: u64, reply: Reply) -> ArrayString<LINE>
    ensures { result.bytes ≡ ok_text i (values_of reply) }
{
    let mut line = ArrayString::<LINE>::new();
    line.push_str("ok");
    push(&mut line, i);
    match reply {
        Reply::Number(v) => push(&mut line, v),
        Reply::Path(reach) => {
            push(&mut line, reach.path);
            push(&mut line, reach.direct);
        }
        Reply::Worst(worst) => {
            push(&mut line, worst.pin as u64);
            push(&mut line, worst.figure);
        }
        Reply::Rows(count) => push(&mut line, count as u64),
    }
    line.push_str("\n");
    line
}

/// The line of a refusal.
fn no_line(i: u64, layer: &str, number: u8, field: u8) -> ArrayString<LINE>
    requires { length layer.now ≤ 1 }
    ensures { result.bytes ≡ no_text i (record { layer = layer.now; number = number; field = field }) }
{
    let mut line = ArrayString::<LINE>::new();
    line.push_str("no");
    push(&mut line, i);
    line.push_str(",");
    line.push_str(layer);
    push(&mut line, u64::from(number));
    push(&mut line, u64::from(field));
    line.push_str("\n");
    line
}

/// The line of the row `k`: its number, parent, spot and length, and a byte 10 at the end.
pub fn row_line(k: u64, row: Row) -> ArrayString<LINE>
    ensures { result.bytes ≡ row_text k row }
{
    let mut line = ArrayString::<LINE>::new();
    line.push_str("N");
    push(&mut line, k);
    push(&mut line, row.parent as u64);
    push(&mut line, row.spot.x);
    push(&mut line, row.spot.y);
    push(&mut line, row.spot.level);
    push(&mut line, row.length);
    line.push_str("\n");
    line
}
