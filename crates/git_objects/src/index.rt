//! The index of a pack, version 2 (gitformat-pack(5)).
ghost use Rattle.std.specs.Prelude.{◌≤◌, ◌<◌, IfOk, IfSome};

use crate::fault::ObjectsFault;
use crate::placed_file::PlacedFile;
use byte_path::ObjectId;

/// How many bytes are before the names: the signature, the version and the counts of names by their first byte.
const HEAD: u64 = 1032;

/// How many names are read at once.
const ROWS: u32 = 200;

/// The most bytes of an index that is kept in memory.
const MOST_KEPT: u64 = 64 << 20;

/// The bytes of an index, kept in memory or read by position.
#[derive(Drop)]
enum IndexBytes {
    Kept(Vec<u8>),
    Placed(PlacedFile),
}

impl IndexBytes {
    /// The bytes from a place on, as a file gives them.
    fn read(&self, place: u64, most: u64) -> Result<Vec<u8>, ObjectsFault> {
        match self {
            IndexBytes::Kept(bytes) => {
                let behind = bytes.get(place as usize..).unwrap_or(&[]);
                let (front, _) = behind.split_at((most as usize).min(behind.len()));
                Ok(front.to_vec(*bytes.allocator())?)
            }
            IndexBytes::Placed(source) => source.read(place, most),
        }
    }
}

/// The names of a pack's objects and where their entries begin.
#[derive(Drop)]
pub struct PackIndex {
    bytes: IndexBytes,
    head: Vec<u8>,
    pub count: u32,
}

/// The number of four bytes at a place.
fn number_at(bytes: &[u8], place: usize) -> Option<u32> {
    let rest = bytes.get(place..)?;
    Some(u32::from_be_bytes(*rest.first_chunk::<4>()?))
}

/// Which of these names, of 20 bytes each, this one is.
fn place_of(names: &[u8], name: &ObjectId) -> Option<usize> {
    names
        .chunks_exact(20)
        .position(|row| row == name.as_slice())
}

/// How many bytes an index has with so many objects, at the least.
fn least_len(count: u32) -> u64 {
    HEAD + 28 * u64::from(count) + 40
}

impl PackIndex {
    /// The index in a file. One of another version is for git alone.
    pub fn new(source: PlacedFile) -> Result<PackIndex, ObjectsFault> {
        let head = source.read(0, HEAD)?;
        let numbers = head.as_slice();
        let (Some(signature), Some(version), Some(count)) = (
            number_at(numbers, 0),
            number_at(numbers, 4),
            number_at(numbers, 1028),
        ) else {
            return Err(ObjectsFault::Broken);
        };
        if signature != 0xff74_4f63 || version != 2 {
            return Err(ObjectsFault::Elsewhere);
        }
        if source.len < least_len(count) {
            return Err(ObjectsFault::Broken);
        }
        let bytes = if source.len <= MOST_KEPT {
            IndexBytes::Kept(source.read(0, source.len)?)
        } else {
            IndexBytes::Placed(source)
        };
        Ok(PackIndex { bytes, head, count })
    }

    /// From where and up to where the names stand that begin with this byte.
    fn range_of(&self, first: u8) -> Option<(u32, u32)>
        ensures { IfSome result (λ r. (r.0 ≤ r.1) × (r.1 ≤ self.now.count)) }
    {
        let row = usize::from(first) * 4 + 8;
        let start = if first == 0 {
            0
        } else {
            number_at(self.head.as_slice(), row - 4)?
        };
        let end = number_at(self.head.as_slice(), row)?;
        if start <= end && end <= self.count {
            Some((start, end))
        } else {
            None
        }
    }

    /// Names from a place on.
    fn names(&self, start: u32, count: u32) -> Result<Vec<u8>, ObjectsFault> {
        self.bytes
            .read(HEAD + 20 * u64::from(start), 20 * u64::from(count))
    }

    /// Narrows a range of places until the names in it can be read at once.
    fn narrowed(&self, name: &ObjectId, range: (u32, u32)) -> Result<(u32, u32), ObjectsFault>
        requires { range.0 ≤ range.1 }
        ensures { IfOk result (λ r. (r.0 ≤ r.1) × (r.1 ≤ range.1)) }
    {
        let (mut low, mut high) = range;
        while high - low > ROWS {
            let middle = low + (high - low) / 2;
            if self.names(middle, 1)?.as_slice() <= name.as_slice() {
                low = middle;
            } else {
                high = middle;
            }
        }
        Ok((low, high))
    }

    /// Which object has this name. An index that counts names wrong is broken.
    fn number_of(&self, name: &ObjectId) -> Result<Option<u32>, ObjectsFault>
        ensures counted { IfOk result (λ found. IfSome found (λ n. n < self.now.count)) }
    {
        let Some(range) = self.range_of(name[0]) else {
            return Err(ObjectsFault::Broken);
        };
        let (low, high) = self.narrowed(name, range)?;
        let names = self.names(low, high - low)?;
        let Some(place) = place_of(names.as_slice(), name) else {
            return Ok(None);
        };
        match u32::try_from(place) {
            Ok(place) if place < high - low => Ok(Some(low + place)),
            _ => Err(ObjectsFault::Broken),
        }
    }

    /// The number at a place of the file, which has eight bytes.
    fn far_offset(&self, row: u32) -> Result<u64, ObjectsFault> {
        let place = HEAD + 28 * u64::from(self.count) + 8 * u64::from(row);
        match self.bytes.read(place, 8)?.as_slice().first_chunk::<8>() {
            Some(bytes) => Ok(u64::from_be_bytes(*bytes)),
            None => Err(ObjectsFault::Broken),
        }
    }

    /// Where the entry of the object with this number begins.
    fn offset_at(&self, number: u32) -> Result<u64, ObjectsFault>
        requires { number < self.now.count }
    {
        let place = HEAD + 24 * u64::from(self.count) + 4 * u64::from(number);
        let Some(offset) = number_at(self.bytes.read(place, 4)?.as_slice(), 0) else {
            return Err(ObjectsFault::Broken);
        };
        if offset < 0x8000_0000 {
            return Ok(u64::from(offset));
        }
        self.far_offset(offset - 0x8000_0000)
    }

    /// Where the entry of the object with this name begins in the pack, if it is there.
    pub fn offset_of(&self, name: &ObjectId) -> Result<Option<u64>, ObjectsFault> {
        match self.number_of(name)? {
            Some(number) => Ok(Some(self.offset_at(number)?)),
            None => Ok(None),
        }
    }
}
