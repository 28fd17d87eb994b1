//! The images that a crash may leave between two syncs, told from the writes alone: a plain program beside the disk
//! model.
use std::alloc::Global;
use vf_base::NoMemory;

/// Octets at a place.
#[derive(Clone, Copy)]
pub struct Write {
    pub at: usize,
    pub octets: &'static [u8],
}

/// The images of one length after writes that aren't synced. Where up to six places may hold anything, each of them
/// holds 0, 255 or what was written, in all ways; where more may, in 243 ways of all.
#[derive(Drop)]
pub struct Images {
    /// All writes made, as far as the length goes.
    made: Vec<u8>,
    /// The places that may hold anything.
    loose: Vec<usize>,
}

/// In how many ways up to six places hold one of three octets.
const WAYS: [u32; 7] = [1, 3, 9, 27, 81, 243, 729];

impl Images {
    /// How many images there are.
    pub fn count(&self) -> u32 {
        WAYS.get(self.loose.len()).copied().unwrap_or(243)
    }

    /// The image of a number.
    pub fn image(&self, alloc: Global, number: u32) -> Result<Vec<u8>, NoMemory> {
        let mut image = self.made.as_slice().to_vec(alloc)?;
        let mut digits = number;
        for place in &self.loose {
            if let Some(octet) = image.get_mut(*place) {
                *octet = chosen(digits % 3, *octet);
            }
            digits = self.next(digits);
        }
        Ok(image)
    }

    /// The digits of the next place: those that are left, or any others where there are too many.
    fn next(&self, digits: u32) -> u32 {
        if self.loose.len() < WAYS.len() {
            digits / 3
        } else {
            digits.wrapping_mul(1_664_525).wrapping_add(1_013_904_223) / 7
        }
    }
}

fn chosen(digit: u32, written: u8) -> u8 {
    match digit {
        0 => 0,
        1 => 255,
        _ => written,
    }
}

/// The images of a length, after writes to a disk that was synced with these octets.
pub fn images_after(
    alloc: Global,
    synced: &[u8],
    writes: &[Write],
    length: usize,
) -> Result<Images, NoMemory> {
    let mut made = synced.to_vec(alloc)?;
    for write in writes {
        put(&mut made, *write)?;
    }
    made.truncate(length);
    let loose = loose_places(alloc, synced.len(), writes, made.len())?;
    Ok(Images { made, loose })
}

/// The places below a length that may hold anything, where so many octets were synced.
fn loose_places(
    alloc: Global,
    synced: usize,
    writes: &[Write],
    length: usize,
) -> Result<Vec<usize>, NoMemory> {
    let mut loose = Vec::new(alloc);
    for place in 0..length {
        if synced <= place || writes.iter().any(|write| covers(*write, place)) {
            loose.push(place)?;
        }
    }
    Ok(loose)
}

/// The greatest length after writes to a disk of so many octets.
pub fn longest(length: usize, writes: &[Write]) -> usize {
    let mut longest = length;
    for write in writes {
        longest = longest.max(write.at.saturating_add(write.octets.len()));
    }
    longest
}

/// Makes a write.
pub fn put(image: &mut Vec<u8>, write: Write) -> Result<(), NoMemory> {
    for (place, octet) in write.octets.iter().enumerate() {
        let at = write.at.saturating_add(place);
        match image.get_mut(at) {
            Some(old) => *old = *octet,
            None => image.push(*octet)?,
        }
    }
    Ok(())
}

fn covers(write: Write, place: usize) -> bool {
    write.at <= place && place - write.at < write.octets.len()
}
