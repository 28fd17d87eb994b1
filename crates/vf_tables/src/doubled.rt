ghost use Rattle.std.specs.Prelude.{◌≡◌, None, true, IfOk, IfSome, OnErr, OnOk};
ghost use Rattle.vf_tables.specs.Changes.{after_all};
ghost use Rattle.vf_tables.specs.Entries.{no_tables};
ghost use Rattle.vf_tables.specs.Making.{IsMade, made_of};
ghost use Rattle.vf_tables.specs.Staying.{AreValid};

use crate::{Change, Tables};
use std::alloc::Global;
use std::marker::Model;
use std::mem;
use vf_base::NoMemory;

/// Tables, and the same a second time: changes are made in the second, which takes the place of the first once all of
/// them are made. So all or none are made, and the tables aren't copied.
pub struct Doubled {
    tables: Tables,
    /// The same tables; none where memory was wanting for them, or changes of them were given up.
    second: Option<Tables>,
    /// They are known to be valid.
    are_valid: bool,
}

impl Drop for Doubled {
    fn drop(self) {
        let Doubled {
            tables,
            second,
            are_valid: _,
        } = self;
        drop(tables);
        drop(second);
    }
}

impl Model for Doubled {
    ghost use Rattle.std.specs.Prelude.{◌≡◌, IfSome, true};
    ghost use Rattle.vf_tables.specs.Staying.{AreValid};
    ghost use Rattle.vf_tables.specs.declared.tables.Tables.{Tables};

    ghost Value = { Tables };

    ghost view = { λ doubled. doubled.tables };

    ghost invariant = { λ doubled. IfSome doubled.second (λ second. second ≡ doubled.tables) × (doubled.are_valid ≡ true → AreValid doubled.tables) };
}

impl Doubled {
    /// The tables of a filestore that is just made.
    pub fn new(alloc: Global) -> Doubled
        ensures { result ≡ no_tables }
    {
        Doubled {
            tables: Tables::new(alloc),
            second: Some(Tables::new(alloc)),
            are_valid: true,
        }
    }

    /// The tables.
    pub fn tables(&self) -> &Tables
        ensures { result.now ≡ self.now }
    {
        &self.tables
    }

    /// Makes all of the changes in their order, or none.
    pub fn apply(&mut self, alloc: Global, changes: &[Change]) -> Result<(), NoMemory>
        ensures ok { OnOk result (self.new ≡ after_all self.old changes.now) }
        ensures err { OnErr result (self.new ≡ self.old) }
    {
        let mut next = second_of(alloc, &self.tables, &mut self.second)?;
        next.make_all(alloc, changes)?;
        self.take_up(alloc, next, changes, false);
        Ok(())
    }

    /// Lends the second of the tables, where there is one. While it is away, changes cost a copy.
    pub fn lend(&mut self) -> Option<Tables>
        ensures lent { IfSome result (λ second. second ≡ self.old) }
        ensures same { self.new ≡ self.old }
    {
        self.second.take()
    }

    /// Takes the second back, as it was lent.
    pub fn give_back(&mut self, second: Option<Tables>)
        requires { IfSome second (λ second. second ≡ self.old) }
        ensures { self.new ≡ self.old }
    {
        if second.is_some() {
            self.second = second;
        }
    }

    /// Makes all of the changes in their order, or none, as `apply` does. Where they are made in the second that was lent,
    /// it is what `ahead` is.
    pub fn apply_over(
        &mut self,
        alloc: Global,
        changes: &[Change],
        ahead: Option<Tables>,
    ) -> Result<(), NoMemory>
        requires { IfSome ahead (λ next. next ≡ after_all self.old changes.now) }
        ensures ok { OnOk result (self.new ≡ after_all self.old changes.now) }
        ensures err { OnErr result (self.new ≡ self.old) }
    {
        let Some(next) = ahead else {
            return self.apply(alloc, changes);
        };
        self.take_up(alloc, next, changes, false);
        Ok(())
    }

    /// Makes the changes of a record, and tells that it did; `false` exactly where one of them doesn't fit the tables
    /// before it, or the tables after all of them aren't valid. Then none is made, and so without memory.
    pub fn make(&mut self, alloc: Global, changes: &[Change]) -> Result<bool, NoMemory>
        ensures ok { IfOk result (λ is_made. IsMade (made_of self.old changes.now) self.old self.new is_made) }
        ensures err { OnErr result (self.new ≡ self.old) }
    {
        let mut next = second_of(alloc, &self.tables, &mut self.second)?;
        if !next.make_record(alloc, changes, self.are_valid)? {
            return Ok(false);
        }
        self.take_up(alloc, next, changes, true);
        Ok(true)
    }

    /// Puts the tables after these changes in the place of the first ones, in which they are then made too.
    fn take_up(&mut self, alloc: Global, next: Tables, changes: &[Change], are_valid: bool)
        requires after { next ≡ after_all self.old changes.now }
        requires valid { are_valid ≡ true → AreValid next }
        ensures { self.new ≡ next }
    {
        let last = mem::replace(&mut self.tables, next);
        self.second = brought_on(alloc, last, changes);
        self.are_valid = are_valid;
    }
}

/// The second of these tables, which is taken out, or a copy of the first where there is none.
fn second_of(
    alloc: Global,
    tables: &Tables,
    second: &mut Option<Tables>,
) -> Result<Tables, NoMemory>
    requires { IfSome second.old (λ second. second ≡ tables.now) }
    ensures same { IfOk result (λ made. made ≡ tables.now) }
    ensures taken { second.new ≡ None }
{
    match second.take() {
        Some(made) => Ok(made),
        None => tables.copy(alloc),
    }
}

/// The tables after the changes; none where memory is wanting.
fn brought_on(alloc: Global, tables: Tables, changes: &[Change]) -> Option<Tables>
    ensures { IfSome result (λ made. made ≡ after_all tables changes.now) }
{
    let mut tables = tables;
    match tables.make_all(alloc, changes) {
        Ok(()) => Some(tables),
        Err(NoMemory) => None,
    }
}
