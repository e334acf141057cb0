// The numbers of a price and of a ratio, as text.
ghost use Rattle.space.specs.Lines.{Parsed};
ghost use Rattle.input.specs.Numbers.{WritesNatural, Ratio};

/// The number that the text writes, as a price is; nothing exactly when it writes no number in unsigned 32 bits.
pub fn price(text: &str) -> Option<u32>
    ensures { Parsed WritesNatural text.now result }
{
    text.parse::<u32>().ok()
}

/// The two numbers of a text `p/q`; nothing exactly when it is not two numbers in unsigned 32 bits with a slash between them.
pub fn ratio(text: &str) -> Option<(u32, u32)>
    ensures { Parsed Ratio text.now result }
{
    let (first, second) = text.split_once('/')?;
    let p = price(first)?;
    let q = price(second)?;
    Some((p, q))
}
