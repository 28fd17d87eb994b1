//! What is drawn: fields and pieces in octets, as docs/STORE.md has them, by a row of numbers that look random. Names are
//! of one letter, and all actions are shared.
ghost use Rattle.std.specs.Prelude.{◌<◌};

use std::alloc::Global;
use vf_base::NoMemory;

/// A string of 64 octets.
const STRING: &[u8] = b"\0\0\0\x40abcdefghijklmnopqrstuvwxyz0123456789ABCDEFGHIJKLMNOPQRSTUVWXYZ-.";

/// Lists of elements: none, a binary, a start with a name, and two texts after a descriptor.
const PIECES: [&[u8]; 4] = [
    b"\0\0\0\0",
    b"\0\0\0\x01\x04\0\0\0\x02hi",
    b"\0\0\0\x03\x01\0\x01\0\x01n\x01\x02",
    b"\0\0\0\x03\0\0\0\x16\0\0\0\x01t\x1b\0\0\0\x40abcdefghijklmnopqrstuvwxyz0123456789ABCDEFGHIJKLMNOPQRSTUVWXYZ-.",
];

/// Access control lists: without terms, and with two.
const TERMS: [&[u8]; 2] = [
    b"\0\0\0\0",
    b"\0\0\0\x02\0\x01\x01\0\x02pw\x01\0\x03bob\x21\0",
];

/// The stamps of a file: the first alone, and all four.
const STAMPS: [&[u8]; 2] = [
    b"\0\0\0\0\0\0\0\x07\0\x03ann\0\0\0",
    b"\0\0\0\0\x38\xBB\x0C\0\0\x03ann\x01\0\0\0\0\0\0\0\x08\0\x01b\x01\0\0\0\x3A\xFF\xF4\x41\x7F\0\x01c\x01\0\0\0\0\0\0\0\0\0\x01d",
];

/// What a docket depends on of its file.
#[derive(Clone, Copy)]
pub struct Sort {
    /// The document type: 1 to 3, for FTAM-1 to FTAM-3.
    pub kind: u8,
    pub version: u32,
}

#[derive(Drop)]
pub struct Draw {
    alloc: Global,
    number: u32,
}

impl Draw {
    pub fn new(alloc: Global) -> Draw {
        Draw { alloc, number: 1 }
    }

    /// A number below another one.
    pub fn below(&mut self, most: u32) -> u32
        requires { 0 < most }
        ensures { result < most }
    {
        self.number = ((u64::from(self.number) * 75 + 74) % 65_537) as u32;
        self.number % most
    }

    /// One of four letters.
    pub fn letter(&mut self) -> u8 {
        97 + self.below(4) as u8
    }

    /// The number of a document type.
    pub fn kind(&mut self) -> u8 {
        1 + self.below(3) as u8
    }

    /// No password, or one of up to 255 octets.
    pub fn password(&mut self) -> Result<Vec<u8>, NoMemory> {
        let count = self.below(256) as u8;
        if count < 64 {
            return Ok([0].to_vec(self.alloc)?);
        }
        let (text, _) = [112; 255].as_slice().split_at(usize::from(count));
        let octets = [[1, 0, count].as_slice(), text].concat(self.alloc)?;
        Ok(octets)
    }

    /// The attributes of a file.
    pub fn attributes(&mut self, sort: Sort) -> Result<Vec<u8>, NoMemory> {
        let mut octets = [255, sort.kind, 25, 0, 0, 0, 0, 0].to_vec(self.alloc)?;
        octets.extend_from_slice(TERMS[self.below(2) as usize])?;
        octets.extend_from_slice(STAMPS[self.below(2) as usize])?;
        octets.extend_from_slice(&sort.version.to_be_bytes())?;
        Ok(octets)
    }

    /// The units of a file: of FTAM-2 up to three of a string each, and else one of up to three strings.
    pub fn units(&mut self, kind: u8) -> Result<Vec<u8>, NoMemory> {
        let count = self.below(4) as u8;
        let is_flat = kind == 2;
        let mut octets = Vec::new(self.alloc);
        if !is_flat {
            octets.extend_from_slice(b"\0\0\0\x01")?;
        }
        octets.extend_from_slice(&[0, 0, 0, count])?;
        for _ in 0..count {
            if is_flat {
                octets.extend_from_slice(b"\0\0\0\x01")?;
            }
            octets.extend_from_slice(STRING)?;
        }
        Ok(octets)
    }

    pub fn piece(&mut self) -> &'static [u8] {
        PIECES[self.below(4) as usize]
    }

    /// The fields of a docket on a file: idle (0), at a read of the whole (1), or at a write (2) up to a point.
    pub fn regime(
        &mut self,
        file: u8,
        sort: Sort,
        direction: u8,
        point: u32,
    ) -> Result<Vec<u8>, NoMemory> {
        let is_flat = sort.kind == 2;
        let mode = if is_flat { 19 } else { 29 };
        let opened = [0, 1, file, 255, 1, 1, 1, 1, 1, 1, 1, 1, mode];
        let password = self.password()?;
        let number = (1 + self.below(1_000)).to_be_bytes();
        let octets = [
            opened.as_slice(),
            password.as_slice(),
            [0, 0, 0, 0].as_slice(),
            number.as_slice(),
            [0, 11, 0, 3].as_slice(),
            transfer(direction, is_flat).as_slice(),
            [0, 0].as_slice(),
            point.to_be_bytes().as_slice(),
            [0].as_slice(),
            sort.version.to_be_bytes().as_slice(),
        ]
        .concat(self.alloc)?;
        Ok(octets)
    }

    /// The fields of a task, after its key: of a get (1) or a put (2), up to a point and in a phase.
    pub fn plan(&mut self, way: u8, point: u32, phase: u8) -> Result<Vec<u8>, NoMemory> {
        let begun = [
            way,
            self.kind(),
            0,
            0,
            39,
            16,
            0,
            1,
            self.letter(),
            0,
            1,
            self.letter(),
        ];
        let number = (1 + self.below(1_000)).to_be_bytes();
        let point = point.to_be_bytes();
        let octets = [
            begun.as_slice(),
            number.as_slice(),
            point.as_slice(),
            [phase, 0, 11].as_slice(),
        ]
        .concat(self.alloc)?;
        Ok(octets)
    }
}

/// Direction, FADU and method: idle; a read from the beginning, in context UA, or FA of a flat file; an extension at the
/// beginning, or an insertion at the end of a flat file.
fn transfer(direction: u8, is_flat: bool) -> [u8; 10] {
    match (direction, is_flat) {
        (0, _) => [0; 10],
        (1, false) => [1, 0, 0, 0, 0, 0, 0, 0, 0, 2],
        (1, true) => [1, 0, 0, 0, 0, 0, 0, 0, 0, 1],
        (_, false) => [2, 0, 0, 0, 0, 0, 0, 0, 0, 3],
        (_, true) => [2, 255, 255, 255, 255, 255, 255, 255, 255, 1],
    }
}
