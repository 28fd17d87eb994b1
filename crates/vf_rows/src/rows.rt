//! Rows of dialogues: a status, what is sent, `=` and what is printed, where `/` ends each line of these.
use std::alloc::Global;
use vf_base::NoMemory;

/// What is sent, what is printed, and the status.
#[derive(Clone, Copy)]
pub(crate) struct Row<'a> {
    pub(crate) sent: &'a str,
    pub(crate) printed: &'a str,
    pub(crate) status: u8,
}

/// The row of a line; none where it is a heading.
pub(crate) fn row_of(line: &str) -> Option<Row<'_>> {
    let (status, rest) = line.split_once(' ')?;
    let (sent, printed) = rest.split_once('=')?;
    let status = status.parse::<u8>().ok()?;
    Some(Row {
        sent: sent.trim(),
        printed: printed.trim(),
        status,
    })
}

/// Lines that end with `/`.
pub(crate) fn lines_of(alloc: Global, text: &str) -> Result<Vec<u8>, NoMemory> {
    let mut lines = Vec::new(alloc);
    for octet in text.as_bytes() {
        lines.push(if *octet == b'/' { b'\n' } else { *octet })?;
    }
    Ok(lines)
}
