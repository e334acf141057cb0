// A job cut into lines, and a line into fields.
ghost use Rattle.std.specs.Prelude.{◌≡◌, ◌<◌, ◌≤◌, [], ◌∷◌, map, length, take, IfSome, IfNone};
ghost use Rattle.request.specs.Lines.{FirstAt, Lacks, fields_behind, fields_of, lines_of};

/// The most fields that a line needs, and one more.
pub(crate) const PLACES: usize = 5;

/// The first place of a byte.
fn find(text: &[u8], byte: u8) -> Option<usize>
    ensures found { IfSome result (λ i. FirstAt byte text.now i) }
    ensures none { IfNone result (Lacks byte text.now (length text.now)) }
{
    for (i, b) in text.iter().enumerate() {
        if *b == byte {
            return Some(i);
        }
    }
    None
}

/// The first line of a job without its byte 10, and the bytes behind it; nothing where the job has no line.
pub fn next_line(job: &[u8]) -> Option<(&[u8], &[u8])>
    ensures none { IfNone result (job.now ≡ []) }
    ensures some { IfSome result (λ r. lines_of job.now ≡ r.0.now ∷ lines_of r.1.now) }
    ensures shorter { IfSome result (λ r. length r.1.now < length job.now) }
{
    if job.len() == 0 {
        return None;
    }
    match find(job, b'\n') {
        Some(i) => Some((&job[..i], &job[i + 1..])),
        None => Some((job, &job[job.len()..])),
    }
}

/// The first field of a line, and what is behind its comma, if it has one.
fn first_field(line: &[u8]) -> (&[u8], Option<&[u8]>)
    ensures { fields_of line.now ≡ result.0.now ∷ fields_behind result.1 }
{
    match find(line, b',') {
        Some(i) => (&line[..i], Some(&line[i + 1..])),
        None => (line, None),
    }
}

/// The fields of a line, or its first five, put into five places; how many they are.
pub(crate) fn cut<'a>(line: &'a [u8], fields: &mut [&'a [u8]; 5]) -> usize
    ensures few { result ≤ PLACES }
    ensures places { length fields.new ≡ PLACES }
    ensures parts { map (λ f. f.now) (take result fields.new) ≡ take PLACES (fields_of line.now) }
{
    let mut rest = Some(line);
    for count in 0..PLACES {
        let Some(behind) = rest else {
            return count;
        };
        let (field, more) = first_field(behind);
        fields[count] = field;
        rest = more;
    }
    PLACES
}
