//! The files, and the octets of all of them.
ghost use Rattle.std.specs.Prelude.{◌≡◌, ◌+◌, ◌++◌, ◌<◌, [], ◌∷◌, List, IsTrue, OnErr, OnOk, find, get_or, length, map, min, nat_eq, option_copied, slice_get, slice_set};
ghost use Rattle.std.specs.Cmp.Lexicographic.{pointwise};
ghost use Rattle.std.specs.List.{IsDistinct, position, remove};
ghost use Rattle.vf_attr.specs.declared.file.File.{File as FileValue};
ghost use Rattle.vf_tables.specs.Entries.{is_file};
ghost use Rattle.vf_tables.specs.Sums.{octets_of_file, octets_of_files};

use std::alloc::Global;
use std::marker::Model;
use vf_attr::File;
use vf_base::{Name, NoMemory};
use vf_named::Named;

/// The files, in the order in which they were made, found by their names. Places count from 0.
#[derive(Drop)]
pub struct Files {
    named: Named<File>,
    /// The octets of all strings, or the type's end where they are more.
    octets: u64,
}

impl Model for Files {
    ghost use Rattle.std.specs.Prelude.{◌≡◌, List, min};
    ghost use Rattle.vf_attr.specs.declared.file.File.{File};
    ghost use Rattle.vf_tables.specs.Sums.{octets_of_file, octets_of_files};

    ghost Value = { List File };

    ghost view = { λ files. files.named };

    ghost invariant = { λ files. files.octets ≡ min (octets_of_files files.named) 18446744073709551615 };
}

impl Files {
    /// No files; the allocator is kept for those that come.
    pub fn new(alloc: Global) -> Files
        ensures { result ≡ [] }
    {
        Files {
            named: Named::new(alloc),
            octets: 0,
        }
    }

    pub fn len(&self) -> usize
        ensures { result ≡ length self.now }
    {
        self.named.len()
    }

    /// The file at this place, which is absent exactly from the length on.
    pub fn get(&self, place: usize) -> Option<&File>
        ensures { option_copied result ≡ slice_get self.now place }
    {
        self.named.get(place)
    }

    pub fn as_slice(&self) -> &[File]
        ensures { result.now ≡ self.now }
    {
        self.named.as_slice()
    }

    /// The place of the file of this name; `None` exactly where there is none.
    pub fn place_of(&self, name: &Name) -> Option<usize>
        ensures { result ≡ position (is_file name.now) self.now }
    {
        self.named.place_of(name)
    }

    /// The file of this name; `None` exactly where there is none.
    pub fn with_name(&self, name: &Name) -> Option<&File>
        ensures { option_copied result ≡ find (is_file name.now) self.now }
    {
        self.named.with_name(name)
    }

    /// Whether no two names are known to be equal. Then no two are.
    pub fn are_distinct(&self) -> bool
        ensures { IsTrue result → IsDistinct (pointwise nat_eq) (map (λ (file : FileValue). file.name) self.now) }
    {
        self.named.are_distinct()
    }

    /// The octets of all strings, or the type's end where they are more.
    pub fn octets(&self) -> u64
        ensures { result ≡ min (octets_of_files self.now) 18446744073709551615 }
    {
        self.octets
    }

    /// Puts a file after the others; without memory the list stays as it is.
    pub fn push(&mut self, file: File) -> Result<(), NoMemory>
        ensures ok { OnOk result (self.new ≡ self.old ++ file ∷ []) }
        ensures err { OnErr result (self.new ≡ self.old) }
    {
        let more = file.tree.size();
        self.named.push(file)?;
        self.octets = self.octets.saturating_add(more);
        Ok(())
    }

    /// Puts a file in the place of another; without memory the list stays as it is.
    pub fn replace(&mut self, place: usize, file: File) -> Result<(), NoMemory>
        requires { place < length self.old }
        ensures ok { OnOk result (self.new ≡ slice_set self.old place file) }
        ensures err { OnErr result (self.new ≡ self.old) }
    {
        let more = file.tree.size();
        let less = octets_at(self.named.as_slice(), place);
        self.named.replace(place, file)?;
        self.octets = counted(self.named.as_slice(), self.octets, more, less);
        Ok(())
    }

    /// Takes the file at this place away; those after it keep their order.
    pub fn remove(&mut self, place: usize)
        requires { place < length self.old }
        ensures { self.new ≡ remove self.old place }
    {
        let less = octets_at(self.named.as_slice(), place);
        self.named.remove(place);
        self.octets = counted(self.named.as_slice(), self.octets, 0, less);
    }
}

/// The octets of the file at this place.
fn octets_at(files: &[File], place: usize) -> u64
    requires { place < length files.now }
    ensures { (file : FileValue) → result ≡ octets_of_file (get_or files.now place file) }
{
    files[place].tree.size()
}

/// The count for files that have so many octets more and so many less than those of this count.
fn counted(files: &[File], octets: u64, more: u64, less: u64) -> u64
    requires { (before : List FileValue) × (octets ≡ min (octets_of_files before) 18446744073709551615) × (octets_of_files files.now + less ≡ octets_of_files before + more) }
    ensures { result ≡ min (octets_of_files files.now) 18446744073709551615 }
{
    if octets == u64::MAX {
        return octets_of_all(files);
    }
    let Some(sum) = octets.checked_add(more) else {
        return octets_of_all(files);
    };
    sum - less
}

/// The octets of all strings of files, or the type's end where they are more.
fn octets_of_all(files: &[File]) -> u64
    ensures { result ≡ min (octets_of_files files.now) 18446744073709551615 }
{
    let mut octets: u64 = 0;
    for file in files {
        octets = octets.saturating_add(file.tree.size());
    }
    octets
}
