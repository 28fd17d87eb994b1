//! What the rules of the disk model allow a crash to leave, told from the calls alone: a plain program beside the one
//! that is proved.
use std::alloc::Global;
use vf_base::NoMemory;

/// No disk of these tests has so many octets.
const MANY: u64 = 8;

/// A disk between two syncs, and what the rules allow of it.
#[derive(Drop)]
pub struct Allowed {
    shown: Vec<u8>,
    synced: Vec<u8>,
    /// The length of the last sync, and those that a write or a cut gave since.
    lengths: Vec<u64>,
    /// The places that a write since had in its range, or a cut took away.
    loose: Vec<u64>,
}

impl Allowed {
    /// A disk that holds these octets as synced.
    pub fn of(alloc: Global, octets: &[u8]) -> Result<Allowed, NoMemory> {
        let shown = octets.to_vec(alloc)?;
        let synced = octets.to_vec(alloc)?;
        let lengths = [octets.len() as u64].to_vec(alloc)?;
        Ok(Allowed {
            shown,
            synced,
            lengths,
            loose: Vec::new(alloc),
        })
    }

    pub fn write(&mut self, at: u64, octets: &[u8], good: bool) -> Result<(), NoMemory> {
        let end = at.saturating_add(octets.len() as u64);
        self.loosen(at, end)?;
        let length = end.max(self.longest());
        self.lengths.push(length)?;
        if good {
            for (place, octet) in (at..end).zip(octets) {
                self.put(place, *octet)?;
            }
        }
        Ok(())
    }

    pub fn cut(&mut self, to: u64, good: bool) -> Result<(), NoMemory> {
        self.loosen(to, MANY)?;
        self.lengths.push(to)?;
        if good {
            self.shown.truncate(to as usize);
        }
        Ok(())
    }

    pub fn sync(&mut self, alloc: Global, good: bool) -> Result<(), NoMemory> {
        if good {
            *self = Allowed::of(alloc, self.shown.as_slice())?;
        }
        Ok(())
    }

    pub fn shown(&self) -> &[u8] {
        self.shown.as_slice()
    }

    /// Whether a crash now may leave the image.
    pub fn allows(&self, image: &[u8]) -> bool {
        let count = image.len() as u64;
        let long_enough = self.lengths.iter().any(|length| *length <= count);
        let short_enough = self.lengths.iter().any(|length| count <= *length);
        long_enough && short_enough && self.agrees(image)
    }

    /// Whether the octets of the last sync stand at each place that isn't loose.
    fn agrees(&self, image: &[u8]) -> bool {
        for (place, (found, stood)) in image.iter().zip(self.synced.iter()).enumerate() {
            if found != stood && !self.loose.contains(&(place as u64)) {
                return false;
            }
        }
        true
    }

    fn loosen(&mut self, from: u64, to: u64) -> Result<(), NoMemory> {
        for place in from..to {
            self.loose.push(place)?;
        }
        Ok(())
    }

    fn longest(&self) -> u64 {
        self.lengths.iter().copied().max().unwrap_or(0)
    }

    fn put(&mut self, place: u64, octet: u8) -> Result<(), NoMemory> {
        match self.shown.get_mut(place as usize) {
            Some(old) => *old = octet,
            None => self.shown.push(octet)?,
        }
        Ok(())
    }
}
