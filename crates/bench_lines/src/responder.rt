//! A responder: what is sent on which link, which links are shut, and what is kept, of what comes on its links and what fails
//! meanwhile.
//!
//! A line is a run, such as `deliver +1 1<0300 -1`, or many of them, as `responder/sweep.rt` says. A run is one life or more,
//! each after ` / `; how a life is told stands in `responder/life.rt`.
use crate::fault::Fault;
use crate::reading::text_of;
use crate::text::Text;
use std::alloc::Global;

mod deliver;
mod life;
mod run;
mod served;
mod sweep;
mod tables;

/// Appends what is answered to a line.
pub fn put_line(alloc: Global, line: &[u8], out: &mut Text) -> Result<(), Fault> {
    let words = sweep::answer(alloc, text_of(line)?)?;
    let words = words.as_slice();
    out.put_octets(words.strip_suffix(b" ").unwrap_or(words));
    out.put("\n");
    Ok(())
}
