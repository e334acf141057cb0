// Pictures that are not stored: through air, with a row left out, and of nothing.
use picture::{AnswerLine, JobLine, Picture, Reading, SpaceWord};
use std::test::Fail;

/// Reads a line of answers; an accepted call is `call`.
fn read(reading: &mut Reading, call: JobLine, line: &str) -> Result<(), Fail> {
    match line.parse::<AnswerLine>()? {
        AnswerLine::Row { number, row } => reading.row(number, row)?,
        AnswerLine::Refused => reading.refused(),
        AnswerLine::Accepted { value, .. } => reading.accepted(call, value)?,
    }
    Ok(())
}

#[test]
fn draws_the_rows_that_have_a_parent(rt: HostRuntime) -> Result<(), Fail> {
    let nothing = format!(in rt.alloc(); "{}", Picture(None))?;
    assert!(rt; nothing.contains("</svg>") && !nothing.contains("circle"));
    let mut reading = Reading::new(rt.alloc());
    for (call, line) in [
        (JobLine::Net(SpaceWord::Air), "ok,1,0"),
        (JobLine::Other, "N,0,0,-5,0,0,0"),
        (JobLine::Other, "N,1,0,5,4,1,11"),
        (JobLine::Other, "N,2,7,0,2,0,3"),
        (JobLine::Table, "ok,2,3"),
        (JobLine::Other, "N,0,0,9,9,0,0"),
    ] {
        read(&mut reading, call, line)?;
    }
    let picture = Picture(reading.table.as_ref());
    let text = format!(in rt.alloc(); "{picture}")?;
    assert!(rt; text.contains("viewBox=\"0 0 11200 5200\""));
    assert!(rt; text.contains("d=\"M600 4600L10600 600\""));
    assert!(rt; !text.contains("row 2") && !text.contains("9,9,0"));
    Ok(())
}
