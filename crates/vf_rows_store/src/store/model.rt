//! A plain program beside the store: lists of entries, in which the key of an entry, its other fields and its pieces are
//! kept as the octets that docs/STORE.md gives them. It knows records by that page alone, and nothing of the tables.
use std::alloc::Global;
use vf_base::NoMemory;

/// A record of changes.
#[derive(Drop)]
pub struct Record {
    count: u32,
    changes: Vec<u8>,
    kinds: u32,
}

impl Record {
    pub fn new(alloc: Global) -> Record {
        Record {
            count: 0,
            changes: Vec::new(alloc),
            kinds: 0,
        }
    }

    /// Puts a change of this kind with these fields after the others.
    fn put(&mut self, kind: u8, fields: &[&[u8]]) -> Result<(), NoMemory> {
        self.count = self.count.saturating_add(1);
        self.kinds |= 1_u32.wrapping_shl(u32::from(kind));
        self.changes.push(kind)?;
        for octets in fields {
            self.changes.extend_from_slice(*octets)?;
        }
        Ok(())
    }

    /// Its octets.
    pub fn octets(&self, alloc: Global) -> Result<Vec<u8>, NoMemory> {
        let mut octets = self.count.to_be_bytes().to_vec(alloc)?;
        octets.extend_from_slice(&self.changes)?;
        Ok(octets)
    }

    /// Of each kind that a change has, the bit of this number, counted from 0.
    pub fn kinds(&self) -> u32 {
        self.kinds
    }
}

/// An entry, in octets.
#[derive(Drop)]
pub struct Entry {
    key: Vec<u8>,
    fields: Vec<u8>,
    /// Of a file one piece, its units.
    pieces: Vec<Vec<u8>>,
}

impl Entry {
    /// Its fields, but for the key.
    pub fn fields(&self) -> &[u8] {
        self.fields.as_slice()
    }
}

/// Entries in the order in which they were made.
#[derive(Drop)]
pub struct Entries {
    alloc: Global,
    items: Vec<Entry>,
}

impl Entries {
    fn new(alloc: Global) -> Entries {
        Entries {
            alloc,
            items: Vec::new(alloc),
        }
    }

    pub fn as_slice(&self) -> &[Entry] {
        self.items.as_slice()
    }

    fn place(&self, key: &[u8]) -> Option<usize> {
        self.items
            .iter()
            .position(|entry| entry.key.as_slice() == key)
    }

    /// The entry of this key.
    pub fn find(&self, key: &[u8]) -> Option<&Entry> {
        self.items.get(self.place(key)?)
    }

    /// The number of pieces of the entry of this key; 0 where there is none.
    pub fn pieces(&self, key: &[u8]) -> u32 {
        match self.find(key) {
            Some(entry) => u32::try_from(entry.pieces.len()).unwrap_or(0),
            None => 0,
        }
    }

    /// Puts fields into the entry of this key, whose pieces stay, or an entry with them after all others.
    fn put(&mut self, key: &[u8], fields: &[u8]) -> Result<(), NoMemory> {
        let fields = fields.to_vec(self.alloc)?;
        if let Some(place) = self.place(key) {
            if let Some(entry) = self.items.get_mut(place) {
                entry.fields = fields;
            }
            return Ok(());
        }
        let key = key.to_vec(self.alloc)?;
        let pieces = Vec::new(self.alloc);
        self.items.push(Entry {
            key,
            fields,
            pieces,
        })?;
        Ok(())
    }

    /// Gives the entry of this key another one.
    fn rename(&mut self, key: &[u8], new_key: &[u8]) -> Result<(), NoMemory> {
        let new_key = new_key.to_vec(self.alloc)?;
        if let Some(place) = self.place(key) {
            if let Some(entry) = self.items.get_mut(place) {
                entry.key = new_key;
            }
        }
        Ok(())
    }

    fn drop_at(&mut self, key: &[u8]) {
        let place = self
            .items
            .iter()
            .position(|entry| entry.key.as_slice() == key);
        if let Some(place) = place {
            self.items.remove(place);
        }
    }

    /// Puts a piece after those of the entry of this key.
    fn stage(&mut self, key: &[u8], piece: &[u8]) -> Result<(), NoMemory> {
        let piece = piece.to_vec(self.alloc)?;
        if let Some(place) = self.place(key) {
            if let Some(entry) = self.items.get_mut(place) {
                entry.pieces.push(piece)?;
            }
        }
        Ok(())
    }

    /// Leaves so many pieces of the entry of this key.
    fn cut(&mut self, key: &[u8], count: u32) {
        if let Some(place) = self.place(key) {
            if let Some(entry) = self.items.get_mut(place) {
                entry.pieces.truncate(count as usize);
            }
        }
    }
}

/// What a store keeps. Each change is made here, and put into a record.
#[derive(Drop)]
pub struct Model {
    pub users: Entries,
    pub files: Entries,
    pub dockets: Entries,
    pub tasks: Entries,
}

impl Model {
    pub fn new(alloc: Global) -> Model {
        Model {
            users: Entries::new(alloc),
            files: Entries::new(alloc),
            dockets: Entries::new(alloc),
            tasks: Entries::new(alloc),
        }
    }

    pub fn put_user(&mut self, to: &mut Record, key: &[u8], fields: &[u8]) -> Result<(), NoMemory> {
        to.put(1, &[key, fields])?;
        self.users.put(key, fields)
    }

    pub fn put_file(
        &mut self,
        to: &mut Record,
        key: &[u8],
        fields: &[u8],
        units: &[u8],
    ) -> Result<(), NoMemory> {
        to.put(2, &[key, fields, units])?;
        self.files.put(key, fields)?;
        self.files.cut(key, 0);
        self.files.stage(key, units)
    }

    pub fn put_attributes(
        &mut self,
        to: &mut Record,
        key: &[u8],
        new_key: &[u8],
        fields: &[u8],
    ) -> Result<(), NoMemory> {
        to.put(3, &[key, new_key, fields])?;
        self.files.put(key, fields)?;
        self.files.rename(key, new_key)
    }

    pub fn drop_file(&mut self, to: &mut Record, key: &[u8]) -> Result<(), NoMemory> {
        self.files.drop_at(key);
        to.put(4, &[key])
    }

    pub fn put_docket(
        &mut self,
        to: &mut Record,
        key: &[u8],
        fields: &[u8],
    ) -> Result<(), NoMemory> {
        to.put(5, &[key, fields])?;
        self.dockets.put(key, fields)
    }

    pub fn stage(&mut self, to: &mut Record, key: &[u8], piece: &[u8]) -> Result<(), NoMemory> {
        put_stage(to, key, self.dockets.pieces(key), piece)?;
        self.dockets.stage(key, piece)
    }

    pub fn cut_stage(&mut self, to: &mut Record, key: &[u8], point: u32) -> Result<(), NoMemory> {
        self.dockets.cut(key, point);
        to.put(7, &[key, point.to_be_bytes().as_slice()])
    }

    pub fn drop_docket(&mut self, to: &mut Record, key: &[u8]) -> Result<(), NoMemory> {
        self.dockets.drop_at(key);
        to.put(8, &[key])
    }

    pub fn put_task(&mut self, to: &mut Record, key: &[u8], fields: &[u8]) -> Result<(), NoMemory> {
        to.put(9, &[key, fields])?;
        self.tasks.put(key, fields)
    }

    pub fn stage_task(
        &mut self,
        to: &mut Record,
        key: &[u8],
        point: u32,
        piece: &[u8],
    ) -> Result<(), NoMemory> {
        put_task_stage(to, key, point, piece)?;
        self.tasks.stage(key, piece)
    }

    pub fn cut_task(&mut self, to: &mut Record, key: &[u8], point: u32) -> Result<(), NoMemory> {
        self.tasks.cut(key, point);
        to.put(11, &[key, point.to_be_bytes().as_slice()])
    }

    pub fn drop_task(&mut self, to: &mut Record, key: &[u8]) -> Result<(), NoMemory> {
        self.tasks.drop_at(key);
        to.put(12, &[key])
    }

    /// The record that makes all of it.
    pub fn whole(&self, alloc: Global) -> Result<Vec<u8>, NoMemory> {
        let mut to = Record::new(alloc);
        put_all(&mut to, 1, &self.users)?;
        put_files(&mut to, &self.files)?;
        put_all(&mut to, 5, &self.dockets)?;
        put_stages(&mut to, &self.dockets)?;
        put_all(&mut to, 9, &self.tasks)?;
        put_task_stages(&mut to, &self.tasks)?;
        to.octets(alloc)
    }
}

/// A piece of a docket after so many.
fn put_stage(to: &mut Record, key: &[u8], first: u32, piece: &[u8]) -> Result<(), NoMemory> {
    let last = first.saturating_add(1).to_be_bytes();
    let first = first.to_be_bytes();
    to.put(6, &[key, first.as_slice(), last.as_slice(), piece])
}

fn put_task_stage(to: &mut Record, key: &[u8], point: u32, piece: &[u8]) -> Result<(), NoMemory> {
    to.put(10, &[key, point.to_be_bytes().as_slice(), piece])
}

fn put_all(to: &mut Record, kind: u8, entries: &Entries) -> Result<(), NoMemory> {
    for entry in &entries.items {
        to.put(kind, &[entry.key.as_slice(), entry.fields.as_slice()])?;
    }
    Ok(())
}

fn put_files(to: &mut Record, files: &Entries) -> Result<(), NoMemory> {
    for file in &files.items {
        for units in &file.pieces {
            to.put(
                2,
                &[
                    file.key.as_slice(),
                    file.fields.as_slice(),
                    units.as_slice(),
                ],
            )?;
        }
    }
    Ok(())
}

fn put_stages(to: &mut Record, dockets: &Entries) -> Result<(), NoMemory> {
    for docket in &dockets.items {
        let mut first: u32 = 0;
        for piece in &docket.pieces {
            put_stage(to, docket.key.as_slice(), first, piece)?;
            first = first.saturating_add(1);
        }
    }
    Ok(())
}

/// The pieces of tasks. Those of a get, whose fields begin with 1, are numbered from 1; that of a put has 0.
fn put_task_stages(to: &mut Record, tasks: &Entries) -> Result<(), NoMemory> {
    for task in &tasks.items {
        let is_get = task.fields.as_slice().starts_with(&[1]);
        let mut point: u32 = 0;
        for piece in &task.pieces {
            if is_get {
                point = point.saturating_add(1);
            }
            put_task_stage(to, task.key.as_slice(), point, piece)?;
        }
    }
    Ok(())
}
