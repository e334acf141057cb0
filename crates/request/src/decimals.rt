// Numbers as job text has them: decimal, with no plus, no leading zero and no minus before 0.
ghost use Rattle.std.specs.Prelude.{◌^◌, ◌↔◌, IsTrue};
ghost use Rattle.request.specs.Decimals.{Begins, BeginsSigned, ReadsBelow, ReadsSigned};

/// Whether a text begins as a number does: with no plus, and with a zero only where nothing follows.
fn begins(text: &[u8]) -> bool
    ensures { IsTrue result ↔ Begins text.now }
{
    match text {
        [b'+', ..] | [b'0', _, ..] => false,
        _ => true,
    }
}

/// The same of a signed number: no zero behind a minus either.
fn begins_signed(text: &[u8]) -> bool
    ensures { IsTrue result ↔ BeginsSigned text.now }
{
    match text {
        [b'-', b'0', ..] => false,
        _ => begins(text),
    }
}

/// The number that a text writes, in unsigned 32 bits.
pub(crate) fn read_u32(text: &[u8]) -> Option<u32>
    ensures { ReadsBelow (2 ^ 32) result text.now }
{
    if !begins(text) {
        return None;
    }
    match std::str::from_utf8(text) {
        Ok(text) => text.parse::<u32>().ok(),
        Err(_) => None,
    }
}

/// The number that a text writes, in unsigned 16 bits.
pub(crate) fn read_u16(text: &[u8]) -> Option<u16>
    ensures { ReadsBelow (2 ^ 16) result text.now }
{
    let n = read_u32(text)?;
    u16::try_from(n).ok()
}

/// The number that a text writes, in signed 32 bits.
pub(crate) fn read_i32(text: &[u8]) -> Option<i32>
    ensures { ReadsSigned result text.now }
{
    if !begins_signed(text) {
        return None;
    }
    match std::str::from_utf8(text) {
        Ok(text) => text.parse::<i32>().ok(),
        Err(_) => None,
    }
}
