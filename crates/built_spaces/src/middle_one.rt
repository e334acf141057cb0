ghost use Rattle.std.specs.Prelude.{◌≡◌};
ghost use Rattle.built_spaces.specs.Shapes.{middle as middle_of, Middle};

/// The middle one of three numbers, which lies between each two of them.
pub fn middle(a: i32, b: i32, c: i32) -> i32
    ensures value { result ≡ middle_of a b c }
    ensures middle { Middle a b c result }
{
    let low = a.min(b);
    let high = a.max(b);
    low.max(high.min(c))
}
