//! What a record of changes makes of tables.
ghost use Rattle.std.specs.Prelude.{◌≡◌, IfOk, true};
ghost use Rattle.vf_tables.specs.Changes.{after_all};
ghost use Rattle.vf_tables.specs.Making.{MayBeMade, fitted_by, made_of};
ghost use Rattle.vf_tables.specs.Staying.{AreValid};
ghost use Rattle.vf_tables.specs.Validity.{is_valid};
ghost use Rattle.vf_tables.specs.declared.tables.Tables.{Tables as TablesMeant};

use crate::{Change, Tables};
use std::alloc::Global;
use vf_base::NoMemory;

impl Tables {
    /// The tables that a record of these changes makes of these ones; `None` exactly where one of the changes doesn't
    /// fit the tables before it, or the tables after all of them aren't valid.
    pub fn made(&self, alloc: Global, changes: &[Change]) -> Result<Option<Tables>, NoMemory>
        ensures { IfOk result (λ made. made ≡ made_of self.now changes.now) }
    {
        let mut tables = self.copy(alloc)?;
        if !tables.make_record(alloc, changes, false)? {
            return Ok(None);
        }
        Ok(Some(tables))
    }

    /// Makes the changes of a record; `false` exactly where one doesn't fit the tables before it, or the tables after all
    /// of them aren't valid. Then they may be made in part, and so without memory. That the tables `were_valid` spares a
    /// look at the files that stay.
    pub(crate) fn make_record(
        &mut self,
        alloc: Global,
        changes: &[Change],
        were_valid: bool,
    ) -> Result<bool, NoMemory>
        requires { were_valid ≡ true → AreValid self.old }
        ensures { IfOk result (λ is_made. MayBeMade (made_of self.old changes.now) self.new is_made) }
    {
        if !self.make_fitting(alloc, changes)? {
            return Ok(false);
        }
        if !self.are_valid_after(changes, were_valid) {
            return Ok(false);
        }
        Ok(true)
    }

    /// Whether these tables are valid, to which the changes led from others.
    fn are_valid_after(&self, changes: &[Change], were_valid: bool) -> bool
        requires { were_valid ≡ true → (before : TablesMeant) × AreValid before × (self.now ≡ after_all before changes.now) }
        ensures { result ≡ is_valid self.now }
    {
        if were_valid {
            return self.stay_valid(changes);
        }
        self.is_valid()
    }

    /// Makes the changes; `false` exactly where one doesn't fit the tables before it.
    fn make_fitting(&mut self, alloc: Global, changes: &[Change]) -> Result<bool, NoMemory>
        ensures { IfOk result (λ is_made. MayBeMade (fitted_by self.old changes.now) self.new is_made) }
    {
        for change in changes {
            if !self.fits(change) {
                return Ok(false);
            }
            self.make(alloc, change)?;
        }
        Ok(true)
    }
}
