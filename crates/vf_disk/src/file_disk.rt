//! A disk over a real file: the trusted edge, which tells its length and nothing of content.
ghost use Rattle.std.specs.Prelude.{None, ◌≡◌, ◌≤◌, IfOk};
ghost use Rattle.vf_base.specs.Faults.{HasRisen};
ghost use Rattle.vf_disk.specs.Disk.{greatest_length};

use crate::file_rows::{block_of, write_rows};
use crate::{Disk, GREATEST_LENGTH, Parts};
use std::os::unix::fs::FileExt;
use std::{fs, io};
use vf_base::Failed;

/// A disk over a file that nobody else writes. A file that isn't there is an empty disk, and the first write makes it.
/// Where the file couldn't be opened each call fails. After a sync that failed each later one fails too, since the system
/// may have dropped what it could not write.
#[derive(Drop)]
pub struct FileDisk<'a> {
    rt: HostRuntime,
    file: Option<fs::File>,
    /// The path of the file, where it isn't there.
    missing: Option<&'a str>,
    length: u64,
    resized: bool,
    unsure: bool,
    broken: bool,
    faults: u64,
    /// Room to gather what one write takes.
    block: Vec<u8>,
    ghost bound: { length ≤ greatest_length },
}

impl<'a> FileDisk<'a> {
    /// Opens the file for reading and writing, where it is there.
    pub fn open(rt: &HostRuntime, path: &'a str) -> FileDisk<'a> {
        match open_measured(rt, path) {
            Ok((file, length)) => FileDisk::over(rt, Some(file), None, length),
            Err(error) if error.kind() == io::ErrorKind::NotFound => {
                FileDisk::over(rt, None, Some(path), 0)
            }
            Err(_) => FileDisk::over(rt, None, None, 0),
        }
    }

    /// A disk over no file, of which each call fails.
    pub fn none(rt: &HostRuntime) -> FileDisk<'a> {
        FileDisk::over(rt, None, None, 0)
    }

    fn over(
        rt: &HostRuntime,
        file: Option<fs::File>,
        missing: Option<&'a str>,
        length: u64,
    ) -> FileDisk<'a>
        requires { length ≤ greatest_length }
    {
        FileDisk {
            rt: *rt,
            file,
            missing,
            length,
            resized: true,
            unsure: false,
            broken: false,
            faults: 0,
            block: block_of(rt.alloc()),
        }
    }

    /// Makes the file, where it isn't there.
    fn make(&mut self) -> io::Result<()>
        ensures length { self.new.length ≡ self.old.length }
        ensures faults { self.new.faults ≡ self.old.faults }
    {
        if let Some(path) = self.missing {
            self.file = Some(made(&self.rt, path)?);
            self.missing = None;
        }
        Ok(())
    }

    fn fail(&mut self) -> Failed
        ensures length { self.new.length ≡ self.old.length }
        ensures risen { HasRisen self.old.faults self.new.faults }
    {
        self.faults = self.faults.saturating_add(1);
        Failed
    }

    /// A call failed that may have changed the file's length.
    fn fail_unsure(&mut self) -> Failed
        ensures length { self.new.length ≡ self.old.length }
        ensures risen { HasRisen self.old.faults self.new.faults }
    {
        self.resized = true;
        self.unsure = true;
        self.fail()
    }

    /// Gives the file the length that the disk tells, and writes all to the disk.
    fn flush(&mut self) -> io::Result<()>
        ensures length { self.new.length ≡ self.old.length }
        ensures faults { self.new.faults ≡ self.old.faults }
    {
        if self.missing.is_some() {
            return Ok(());
        }
        let Some(file) = &self.file else {
            return Err(io::ErrorKind::NotFound.into());
        };
        if self.unsure {
            file.set_len(self.length)?;
            self.unsure = false;
        }
        if self.resized {
            file.sync_all()?;
            self.resized = false;
        } else {
            file.sync_data()?;
        }
        Ok(())
    }
}

/// The file with its length.
fn open_measured(rt: &HostRuntime, path: &str) -> io::Result<(fs::File, u64)>
    ensures { IfOk result (λ opened. opened.1 ≤ greatest_length) }
{
    let file = fs::OpenOptions::new()
        .read(true)
        .write(true)
        .open(rt, path)?;
    let length = file.metadata()?.len();
    if length > GREATEST_LENGTH {
        return Err(io::ErrorKind::InvalidInput.into());
    }
    Ok((file, length))
}

/// A new file, which stands in its folder on the disk.
fn made(rt: &HostRuntime, path: &str) -> io::Result<fs::File> {
    let file = fs::OpenOptions::new()
        .read(true)
        .write(true)
        .create_new(true)
        .open(rt, path)?;
    file.sync_all()?;
    folder_of(rt, path)?.sync_all()?;
    Ok(file)
}

fn folder_of(rt: &HostRuntime, path: &str) -> io::Result<fs::File> {
    match path.rsplit_once('/') {
        Some(("", _)) => fs::File::open(rt, "/"),
        Some((folder, _)) => fs::File::open(rt, folder),
        None => fs::File::open(rt, "."),
    }
}

impl<'a> Disk for FileDisk<'a> {
    ghost shown = { λ disk. None };

    ghost size = { λ disk. disk.length };

    ghost may_leave = { λ disk image. ⊥ };

    ghost moment = { λ disk. 0 };

    ghost left_since = { λ disk since image. ⊥ };

    ghost fault_count = { λ disk. disk.faults };

    ghost plan = { λ disk. None };

    ghost state = { λ disk. None };

    ghost lack_count = { λ disk. 0 };

    ghost measured = { λ disk octets none. Prim.cc };

    ghost counts_now = { λ disk since image le none. none };

    ghost only_now = { λ disk image none. none };

    ghost told = { λ disk now none. Prim.cc };

    fn len(&mut self) -> Result<u64, Failed> {
        if self.file.is_none() && self.missing.is_none() {
            return Err(self.fail());
        }
        Ok(self.length)
    }

    fn read(&mut self, at: u64, into: &mut [u8]) -> Result<(), Failed> {
        if self.missing.is_some() {
            return Ok(());
        }
        let Some(file) = &self.file else {
            return Err(self.fail());
        };
        if file.read_exact_at(into, at).is_err() {
            return Err(self.fail());
        }
        Ok(())
    }

    fn write_at(&mut self, at: u64, octets: &[u8]) -> Result<(), Failed> {
        let count = octets.len() as u64;
        if count > GREATEST_LENGTH - at {
            return Err(self.fail());
        }
        if self.make().is_err() {
            return Err(self.fail());
        }
        let Some(file) = &self.file else {
            return Err(self.fail());
        };
        if file.write_all_at(octets, at).is_err() {
            return Err(self.fail_unsure());
        }
        if at + count > self.length {
            self.length = at + count;
            self.resized = true;
        }
        Ok(())
    }

    fn write_parts(&mut self, at: u64, octets: &Parts) -> Result<(), Failed> {
        let count = octets.len() as u64;
        if count > GREATEST_LENGTH - at {
            return Err(self.fail());
        }
        if self.make().is_err() {
            return Err(self.fail());
        }
        let Some(file) = &self.file else {
            return Err(self.fail());
        };
        if write_rows(file, at, octets, &mut self.block).is_err() {
            return Err(self.fail_unsure());
        }
        if at + count > self.length {
            self.length = at + count;
            self.resized = true;
        }
        Ok(())
    }

    fn cut(&mut self, to: u64) -> Result<(), Failed> {
        if self.missing.is_some() {
            self.length = to;
            return Ok(());
        }
        let Some(file) = &self.file else {
            return Err(self.fail());
        };
        if file.set_len(to).is_err() {
            return Err(self.fail_unsure());
        }
        self.length = to;
        self.resized = true;
        Ok(())
    }

    fn sync(&mut self) -> Result<(), Failed> {
        if self.broken || self.flush().is_err() {
            self.broken = true;
            return Err(self.fail());
        }
        Ok(())
    }

    fn faults(&self) -> u64 {
        self.faults
    }
}
