ghost use Rattle.std.specs.Prelude.{◌≡◌, ◌↔◌, [], ◌∷◌, IsOk, codes, map};
ghost use Rattle.net_laws.specs.declared.call.JoinCall.TheVariants.{Wire};
ghost use Rattle.request.specs.Requests.{InGrammar, Reads, ReadsFields, ReadsOnly};
ghost use Rattle.request.specs.declared.requests.Request.TheVariants.{Change};

use crate::cutting::{PLACES, cut};
use crate::fault::TextFault;
use crate::fields::{read_number, read_pair, read_price, read_spot, read_word};
use crate::requests::Request;
use net_laws::{Call, JoinCall};

/// The most bytes of a line, without its byte 10.
pub const LONGEST_LINE: usize = 80;

/// The call as a request.
fn change(call: Call) -> Request
    ensures { result ≡ Change (Wire call) }
{
    Request::Change(JoinCall::Wire(call))
}

/// W: a net over the space that the word names.
fn read_space(word: &[u8]) -> Result<Request, TextFault>
    ensures { ReadsFields (codes "W" ∷ word.now ∷ []) result }
{
    let word = read_word(word)?;
    Ok(Request::Space(word, None))
}

/// W: a net in a lift over the space that the word names.
fn read_lift(word: &[u8], price: &[u8]) -> Result<Request, TextFault>
    ensures { ReadsFields (codes "W" ∷ word.now ∷ price.now ∷ []) result }
{
    let word = read_word(word)?;
    let price = read_price(price)?;
    Ok(Request::Space(word, Some(price)))
}

/// P: a pin.
fn read_pin(x: &[u8], y: &[u8], level: &[u8]) -> Result<Request, TextFault>
    ensures { ReadsFields (codes "P" ∷ x.now ∷ y.now ∷ level.now ∷ []) result }
{
    let spot = read_spot(x, y, level)?;
    Ok(change(Call::Pin(spot)))
}

/// A: an allowance.
fn read_allowance(p: &[u8], q: &[u8]) -> Result<Request, TextFault>
    ensures { ReadsFields (codes "A" ∷ p.now ∷ q.now ∷ []) result }
{
    let (p, q) = read_pair(p, q)?;
    Ok(change(Call::Allow(u64::from(p), u64::from(q))))
}

/// V: a Steiner point.
fn read_point(x: &[u8], y: &[u8], level: &[u8]) -> Result<Request, TextFault>
    ensures { ReadsFields (codes "V" ∷ x.now ∷ y.now ∷ level.now ∷ []) result }
{
    let spot = read_spot(x, y, level)?;
    Ok(change(Call::Steiner(spot)))
}

/// E: an edge.
fn read_edge(a: &[u8], b: &[u8]) -> Result<Request, TextFault>
    ensures { ReadsFields (codes "E" ∷ a.now ∷ b.now ∷ []) result }
{
    let (a, b) = read_pair(a, b)?;
    Ok(change(Call::Edge(usize::from(a), usize::from(b))))
}

/// K: the path of a pin.
fn read_path(k: &[u8]) -> Result<Request, TextFault>
    ensures { ReadsFields (codes "K" ∷ k.now ∷ []) result }
{
    let k = read_number(k)?;
    Ok(Request::Path(usize::from(k)))
}

/// What the fields ask.
fn read_fields(fields: &[&[u8]]) -> Result<Request, TextFault>
    ensures { ReadsFields (map (λ f. f.now) fields.now) result }
{
    match fields {
        [b"W", rest @ ..] => match rest {
            [word] => read_space(word),
            [word, price] => read_lift(word, price),
            _ => Err(TextFault::WrongFields),
        },
        [b"P", rest @ ..] => match rest {
            [x, y, level] => read_pin(x, y, level),
            _ => Err(TextFault::WrongFields),
        },
        [b"A", rest @ ..] => match rest {
            [p, q] => read_allowance(p, q),
            _ => Err(TextFault::WrongFields),
        },
        [b"V", rest @ ..] => match rest {
            [x, y, level] => read_point(x, y, level),
            _ => Err(TextFault::WrongFields),
        },
        [b"E", rest @ ..] => match rest {
            [a, b] => read_edge(a, b),
            _ => Err(TextFault::WrongFields),
        },
        [b"U", rest @ ..] => match rest {
            [] => Ok(change(Call::Unseed)),
            _ => Err(TextFault::WrongFields),
        },
        [b"M", rest @ ..] => match rest {
            [] => Ok(change(Call::Span)),
            _ => Err(TextFault::WrongFields),
        },
        [b"D", rest @ ..] => match rest {
            [] => Ok(change(Call::Straight)),
            _ => Err(TextFault::WrongFields),
        },
        [b"J", rest @ ..] => match rest {
            [] => Ok(Request::Change(JoinCall::Joined)),
            _ => Err(TextFault::WrongFields),
        },
        [b"H", rest @ ..] => match rest {
            [] => Ok(change(Call::Hook)),
            _ => Err(TextFault::WrongFields),
        },
        [b"S", rest @ ..] => match rest {
            [] => Ok(Request::Change(JoinCall::Share)),
            _ => Err(TextFault::WrongFields),
        },
        [b"T", rest @ ..] => match rest {
            [] => Ok(Request::Rows),
            _ => Err(TextFault::WrongFields),
        },
        [b"K", rest @ ..] => match rest {
            [k] => read_path(k),
            _ => Err(TextFault::WrongFields),
        },
        [b"X", rest @ ..] => match rest {
            [] => Ok(Request::Worst),
            _ => Err(TextFault::WrongFields),
        },
        _ => Err(TextFault::NoLetter),
    }
}

/// What a line asks, or its refusal as text. The line stands without its byte 10. Refused, in this order, where it has more than 80 bytes (20), field 1
/// is no known letter (21), it has not that letter's fields (22), or a field is not good (23).
pub fn read(line: &[u8]) -> Result<Request, TextFault>
    ensures reads { Reads line.now result }
    ensures only { ReadsOnly line.now result }
    ensures taken { IsOk result ↔ InGrammar line.now }
{
    if line.len() > LONGEST_LINE {
        return Err(TextFault::LongLine);
    }
    let mut fields: [&[u8]; 5] = [&[]; 5];
    let count = cut(line, &mut fields);
    read_fields(&fields[..count])
}
