// One field, read as what it has to be.
ghost use Rattle.std.specs.Prelude.{◌≡◌, ◌<◌, ◌^◌, [], ◌∷◌, IfErr, IfOk, decimal};
ghost use Rattle.request.specs.Requests.{FirstBad, RangedSpot, spot_fields, word_of};
ghost use Rattle.request.specs.Requests.Sort.{coordinate, price as priced, small, word as worded};

use crate::decimals::{read_i32, read_u16, read_u32};
use crate::fault::Unread;
use crate::requests::Word;
use space::Spot;

/// The space that field 2 names.
pub(crate) fn read_word(text: &[u8]) -> Result<Word, Unread>
    ensures ok { IfOk result (λ w. text.now ≡ word_of w) }
    ensures err { IfErr result (λ e. FirstBad (worded ∷ []) (text.now ∷ []) 2 e.0) }
{
    match text {
        b"plane" => Ok(Word::Plane),
        b"air" => Ok(Word::Air),
        _ => Err(Unread(2)),
    }
}

/// The price in field 3.
pub(crate) fn read_price(text: &[u8]) -> Result<u32, Unread>
    ensures ok { IfOk result (λ n. (n < 2 ^ 32) × (text.now ≡ decimal n)) }
    ensures err { IfErr result (λ e. FirstBad (priced ∷ []) (text.now ∷ []) 3 e.0) }
{
    read_u32(text).ok_or(Unread(3))
}

/// The number in field 2.
pub(crate) fn read_number(text: &[u8]) -> Result<u16, Unread>
    ensures ok { IfOk result (λ n. (n < 2 ^ 16) × (text.now ≡ decimal n)) }
    ensures err { IfErr result (λ e. FirstBad (small ∷ []) (text.now ∷ []) 2 e.0) }
{
    read_u16(text).ok_or(Unread(2))
}

/// The numbers in fields 2 and 3.
pub(crate) fn read_pair(a: &[u8], b: &[u8]) -> Result<(u16, u16), Unread>
    ensures ok { IfOk result (λ r. (r.0 < 2 ^ 16) × (r.1 < 2 ^ 16) × (a.now ≡ decimal r.0) × (b.now ≡ decimal r.1)) }
    ensures err { IfErr result (λ e. FirstBad (small ∷ small ∷ []) (a.now ∷ b.now ∷ []) 2 e.0) }
{
    let Some(a) = read_u16(a) else {
        return Err(Unread(2));
    };
    let Some(b) = read_u16(b) else {
        return Err(Unread(3));
    };
    Ok((a, b))
}

/// The spot in fields 2, 3 and 4.
pub(crate) fn read_spot(x: &[u8], y: &[u8], level: &[u8]) -> Result<Spot, Unread>
    ensures ok { IfOk result (λ z. RangedSpot z × (x.now ∷ y.now ∷ level.now ∷ [] ≡ spot_fields z)) }
    ensures err { IfErr result (λ e.
        FirstBad (coordinate ∷ coordinate ∷ coordinate ∷ []) (x.now ∷ y.now ∷ level.now ∷ []) 2 e.0) }
{
    let Some(x) = read_i32(x) else {
        return Err(Unread(2));
    };
    let Some(y) = read_i32(y) else {
        return Err(Unread(3));
    };
    let Some(level) = read_i32(level) else {
        return Err(Unread(4));
    };
    Ok(Spot { x, y, level })
}
