//! Rows, and what they tell.
use std::alloc::Global;
use std::test::Fail;

/// Two ends that take rows.
pub(crate) trait Rows {
    /// Appends a row with what it tells.
    fn put_row(&mut self, alloc: Global, row: &str) -> Result<(), Fail>;
}

/// Appends rows with what they tell.
pub(crate) fn put_rows<R: Rows>(alloc: Global, ends: &mut R, rows: &str) -> Result<(), Fail> {
    for row in rows.lines() {
        ends.put_row(alloc, row)?;
    }
    Ok(())
}
