// `judge change OLD NEW`: what becomes of each rule where one table takes the place of another.
use crate::source::{Trouble, load};
use arguments::files::Changed;
use std::io;
use verdicts::survey::Survey;

pub fn change<'a>(rt: &HostRuntime, asked: Changed<'a>) -> Result<(), Trouble<'a>> {
    let old = load(rt, asked.old)?;
    let new = load(rt, asked.new)?;
    let survey = Survey::of(rt.alloc(), old.as_slice(), new.as_slice())?;
    report(rt, &survey)?;
    Ok(())
}

fn report(rt: &HostRuntime, survey: &Survey<'_>) -> io::Result<()> {
    for line in survey.lines.as_slice() {
        rt.println(line)?;
    }
    rt.println(survey.census)
}
