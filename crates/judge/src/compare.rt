// `judge compare TABLE NAME NAME`: whether two rules of a table are the same.
use crate::source::{Source, Trouble, load};
use arguments::files::Compared;
use verdicts::comparison::{Uncompared, compare_named};

pub fn compare<'a>(rt: &HostRuntime, asked: Compared<'a>) -> Result<(), Trouble<'a>> {
    let entries = load(rt, asked.table)?;
    // Kept: with `map_err` there is no proof, since the trouble would join the lifetimes of the source and of the name in a closure.
    match compare_named(rt.alloc(), entries.as_slice(), asked.first, asked.second) {
        Ok(comparison) => rt.println(comparison)?,
        Err(Uncompared::Memory) => return Err(Trouble::Memory),
        Err(Uncompared::Unnamed(name)) => {
            let source = Source::from(asked.table);
            return Err(Trouble::Unnamed { source, name });
        }
    }
    Ok(())
}
