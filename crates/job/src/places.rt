ghost use Rattle.std.specs.Prelude.{◌≡◌, ◌≤◌, ◌+◌, length};
ghost use Rattle.job.specs.Places.{Puts, put_at};

/// Puts a text at a place where it fits, and answers the place behind it.
pub(crate) fn place(out: &mut [u8], at: usize, text: &[u8]) -> usize
    requires { at + length text.now ≤ length out.old }
    ensures end { result ≡ at + length text.now }
    ensures bytes { out.new ≡ put_at out.old at text.now }
{
    let end = at + text.len();
    out[at..end].copy_from_slice(text);
    end
}

/// Puts a text at a place, and answers the place behind it; nothing, with nothing changed, where it does not fit.
pub(crate) fn put(out: &mut [u8], at: usize, text: &[u8]) -> Option<usize>
    requires { at ≤ length out.old }
    ensures { Puts out.old at text.now result out.new }
{
    if text.len() > out.len() - at {
        return None;
    }
    Some(place(out, at, text))
}
