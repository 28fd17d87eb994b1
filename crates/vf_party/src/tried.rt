//! The tables on which the items of a group are tried.
ghost use Rattle.std.specs.Prelude.{◌≡◌, IfOk, IfSome, unwrap_or};
ghost use Rattle.vf_tables.specs.Changes.{after_all};

use std::alloc::Global;
use std::marker::Model;
use vf_base::NoMemory;
use vf_tables::{Change, Tables};

/// The tables of a filestore, which stay as they are, and a second of them, in which changes are made: one that was lent, or
/// a copy once something is changed.
pub(crate) struct Tried<'t> {
    kept: &'t Tables,
    /// The second, with all changes.
    own: Option<Tables>,
}

impl Drop for Tried<'_> {
    fn drop(self) {
        let Tried { kept: _, own } = self;
        drop(own);
    }
}

impl<'t> Model for Tried<'t> {
    ghost use Rattle.std.specs.Prelude.{unwrap_or};
    ghost use Rattle.vf_tables.specs.declared.tables.Tables.{Tables as TablesMeant};

    ghost Value = { TablesMeant };

    ghost view = { λ tried. unwrap_or tried.own tried.kept.now };
}

impl<'t> Tried<'t> {
    /// The tables before any change, over a second of them, if one is lent.
    pub(crate) fn of(kept: &'t Tables, lent: Option<Tables>) -> Tried<'t>
        requires { IfSome lent (λ second. second ≡ kept.now) }
        ensures { result ≡ kept.now }
    {
        Tried { kept, own: lent }
    }

    pub(crate) fn tables(&self) -> &Tables
        ensures { result.now ≡ self.now }
    {
        match &self.own {
            Some(own) => own,
            None => self.kept,
        }
    }

    /// The tables after these changes.
    pub(crate) fn after(self, alloc: Global, changes: &[Change]) -> Result<Tried<'t>, NoMemory>
        ensures { IfOk result (λ after. after ≡ after_all self.entry changes.now) }
    {
        if changes.is_empty() {
            return Ok(self);
        }
        let Tried { kept, own } = self;
        let mut own = own_or_copy(alloc, kept, own)?;
        own.make_all(alloc, changes)?;
        Ok(Tried {
            kept,
            own: Some(own),
        })
    }

    /// The second of the tables, with all changes, if there is one.
    pub(crate) fn into_second(self) -> Option<Tables>
        ensures { IfSome result (λ second. second ≡ self.entry) }
    {
        let Tried { kept: _, own } = self;
        own
    }
}

/// The second of the tables, which is copied where there is none yet.
fn own_or_copy(alloc: Global, kept: &Tables, own: Option<Tables>) -> Result<Tables, NoMemory>
    ensures { IfOk result (λ tables. tables ≡ unwrap_or own kept.now) }
{
    let Some(own) = own else {
        let copy = kept.copy(alloc)?;
        return Ok(copy);
    };
    Ok(own)
}
