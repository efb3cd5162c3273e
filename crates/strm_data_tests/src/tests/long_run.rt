//! A random run of `Data` beside plain vectors.
ghost use Rattle.std.specs.Prelude.{◌<◌};

use super::bench::Bench;
use super::info;
use std::alloc::Global;
use std::process::Abort;
use strm_data::{ClassSpec, MOST_REFERENCES, MsgType, Refusal};

// The number of bytes of the largest data blocks.
const LARGEST: u32 = 40;

const CLASSES: [ClassSpec; 3] = [
    ClassSpec { size: 4, count: 3 },
    ClassSpec { size: 16, count: 5 },
    ClassSpec {
        size: LARGEST,
        count: 4,
    },
];

// The number of data blocks.
const BLOCKS: u32 = CLASSES[0].count + CLASSES[1].count + CLASSES[2].count;

const MOST_BYTES: usize = LARGEST as usize;

const KINDS: [MsgType; 4] = [
    MsgType::MData,
    MsgType::MProto,
    MsgType::MPcproto,
    MsgType::MIocdata,
];

// The same data blocks twice: as `Data`, and as plain vectors.
#[derive(Drop)]
struct Twin {
    data: Bench,
    blocks: Vec<Plain>,
    // For each class its free data blocks, the next to be taken first.
    free: Vec<Vec<u32>>,
    // For each class the fewest that were free.
    least: [u32; 3],
}

#[derive(Drop)]
struct Plain {
    class: usize,
    kind: MsgType,
    count: u8,
    bytes: Vec<u8>,
}

impl Plain {
    // Makes a free data block of `size` bytes, all 0.
    fn free(rt: &impl Abort, alloc: Global, class: usize, size: u32) -> Plain {
        Plain {
            class,
            kind: MsgType::MData,
            count: 0,
            bytes: vec![in alloc; 0; size as usize].expect(rt, "memory"),
        }
    }

    // Says whether the data block has `len` bytes from place `at` on.
    fn has_room(&self, at: u32, len: u32) -> bool {
        at.saturating_add(len) as usize <= self.bytes.len()
    }

    // The bytes from place `at` on, then zeros.
    fn bytes_from(&self, at: u32) -> [u8; MOST_BYTES] {
        let mut bytes = [0; MOST_BYTES];
        for (place, byte) in bytes.iter_mut().enumerate() {
            let place = (at as usize).saturating_add(place);
            *byte = self.bytes.get(place).copied().unwrap_or(0);
        }
        bytes
    }

    // Writes the first `len` of these bytes, from place `at` on.
    fn write(&mut self, rt: &impl Abort, at: u32, bytes: &[u8], len: u32) {
        for (place, new) in bytes.iter().take(len as usize).enumerate() {
            let place = (at as usize).saturating_add(place);
            *self.bytes.get_mut(place).expect(rt, "a byte") = *new;
        }
    }
}

impl Twin {
    fn new(rt: &impl Abort, alloc: Global) -> Twin {
        let mut twin = Twin {
            data: Bench::opened(rt, alloc, &CLASSES),
            blocks: Vec::new(alloc),
            free: Vec::new(alloc),
            least: [CLASSES[0].count, CLASSES[1].count, CLASSES[2].count],
        };
        for (class, spec) in CLASSES.iter().enumerate() {
            twin.add_class(rt, alloc, class, *spec);
        }
        twin
    }

    // Adds the plain data blocks of a class, all free.
    fn add_class(&mut self, rt: &impl Abort, alloc: Global, class: usize, spec: ClassSpec) {
        let mut list = Vec::new(alloc);
        for _block in 0..spec.count {
            let plain = Plain::free(rt, alloc, class, spec.size);
            let number = u32::try_from(self.blocks.len()).unwrap_or(u32::MAX);
            list.push(number).expect(rt, "memory");
            self.blocks.push(plain).expect(rt, "memory");
        }
        self.free.push(list).expect(rt, "memory");
    }

    fn plain(&self, rt: &impl Abort, number: u32) -> &Plain {
        self.blocks.get(number as usize).expect(rt, "a block")
    }

    fn plain_mut(&mut self, rt: &impl Abort, number: u32) -> &mut Plain {
        self.blocks.get_mut(number as usize).expect(rt, "a block")
    }

    // The free data blocks of a class.
    fn free_mut(&mut self, rt: &impl Abort, class: usize) -> &mut Vec<u32> {
        self.free.get_mut(class).expect(rt, "a class")
    }

    // The number of free data blocks of a class.
    fn free_len(&self, rt: &impl Abort, class: usize) -> u32 {
        let list = self.free.get(class).expect(rt, "a class");
        u32::try_from(list.len()).unwrap_or(u32::MAX)
    }

    // Notes how many data blocks of a class are free.
    fn note(&mut self, rt: &impl Abort, class: usize) {
        let free = self.free_len(rt, class);
        let least = self.least.get_mut(class).expect(rt, "a class");
        *least = (*least).min(free);
    }

    // Makes those that are free now the fewest, in both forms.
    fn reset_least(&mut self, rt: &impl Abort) {
        self.data.reset_least();
        for class in 0..3 {
            let free = self.free_len(rt, class);
            *self.least.get_mut(class).expect(rt, "a class") = free;
        }
    }

    // The data block that the plain vectors take for a size.
    fn plain_take(&mut self, rt: &impl Abort, size: u32) -> Result<u32, Refusal> {
        for (class, spec) in CLASSES.iter().enumerate() {
            let list = self.free_mut(rt, class);
            if spec.size >= size && !list.is_empty() {
                return Ok(list.remove(0));
            }
        }
        Err(if size > LARGEST {
            Refusal::TooLarge
        } else {
            Refusal::NoData
        })
    }

    // Takes a data block, in both forms.
    fn take(&mut self, rt: &impl Abort, size: u32) {
        let answer = self.plain_take(rt, size);
        self.data
            .assert_fits(rt, size, size <= LARGEST, answer.is_ok());
        self.data.take(rt, size, answer);
        if let Ok(number) = answer {
            let plain = self.plain_mut(rt, number);
            plain.kind = MsgType::MData;
            plain.count = 1;
            let class = plain.class;
            self.note(rt, class);
        }
    }

    // Adds a reference to a data block that is in use and can have one more.
    fn name(&mut self, rt: &impl Abort, number: u32) {
        let plain = self.plain_mut(rt, number);
        if plain.count > 0 && plain.count < MOST_REFERENCES {
            plain.count = plain.count.saturating_add(1);
            self.data.name(rt, number);
        }
    }

    // Removes a reference from a data block that is in use.
    fn drop_name(&mut self, rt: &impl Abort, number: u32) {
        let plain = self.plain_mut(rt, number);
        if plain.count == 0 {
            return;
        }
        plain.count = plain.count.saturating_sub(1);
        let (class, count) = (plain.class, plain.count);
        self.data.drop_name(rt, number);
        if count == 0 {
            let list = self.free_mut(rt, class);
            list.insert(0, number).expect(rt, "memory");
        }
    }

    // Gives a data block another type.
    fn set_kind(&mut self, rt: &impl Abort, number: u32, kind: MsgType) {
        self.data.set_kind(rt, number, kind);
        self.plain_mut(rt, number).kind = kind;
    }

    // Writes a few bytes from a place drawn at random on, if they fit.
    fn write(&mut self, rt: &impl Abort, number: u32, draw: &mut u32) {
        let bytes = [below(draw, 256) as u8, below(draw, 256) as u8, 255];
        let len = below(draw, 4);
        let at = below(draw, LARGEST + 1);
        let plain = self.plain_mut(rt, number);
        if plain.has_room(at, len) {
            plain.write(rt, at, &bytes, len);
            self.data.write(rt, number, at, &bytes[..len as usize]);
        }
    }

    // Copies a few bytes of a data block to another, or to the same, if they fit. Both places are drawn at random.
    fn copy(&mut self, rt: &impl Abort, from: u32, draw: &mut u32) {
        let into = below(draw, BLOCKS);
        let at = below(draw, 6);
        let to = below(draw, 6);
        let len = below(draw, LARGEST);
        if self.plain(rt, from).has_room(at, len) && self.plain(rt, into).has_room(to, len) {
            let bytes = self.plain(rt, from).bytes_from(at);
            self.plain_mut(rt, into).write(rt, to, &bytes, len);
            self.data.copy(rt, (from, at), (into, to), len);
            self.compare_bytes(rt, into, 0);
        }
    }

    // Makes the next call of the run, drawn at random.
    fn step(&mut self, rt: &impl Abort, draw: &mut u32) {
        let number = below(draw, BLOCKS);
        match below(draw, 20) {
            0..5 => self.take(rt, below(draw, LARGEST + 4)),
            5..7 => self.name(rt, number),
            7..12 => self.drop_name(rt, number),
            12 => self.set_kind(rt, number, KINDS[below(draw, 4) as usize]),
            13 => self.compare_bytes(rt, number, below(draw, 5)),
            14..16 => self.copy(rt, number, draw),
            18 => self.compare_regions(rt),
            19 if below(draw, 6) == 0 => self.reset_least(rt),
            _ => self.write(rt, number, draw),
        }
        self.compare_block(rt, number);
        self.compare_classes(rt);
    }

    // Asserts that a data block is as its plain one.
    fn compare_block(&self, rt: &impl Abort, number: u32) {
        let plain = self.plain(rt, number);
        let block = (plain.count, plain.kind, plain.bytes.len());
        self.data.assert_block(rt, number, block);
        self.compare_bytes(rt, number, 0);
    }

    // Asserts that the bytes of a data block from a place on are those of its plain one.
    fn compare_bytes(&self, rt: &impl Abort, number: u32, at: u32) {
        let plain = self.plain(rt, number);
        let count = plain.bytes.len().saturating_sub(at as usize);
        assert!(rt; count <= MOST_BYTES);
        let mut bytes = [0; MOST_BYTES];
        self.data.read(rt, number, at, &mut bytes[..count]);
        assert!(rt; bytes == plain.bytes_from(at));
    }

    // Asserts that a class has the number of free data blocks of its plain list.
    fn compare_class(&self, rt: &impl Abort, class: u8, spec: ClassSpec) {
        let free = self.free_len(rt, usize::from(class));
        self.data
            .assert_class(rt, class, info(spec.size, free, spec.count));
        self.data
            .assert_least(rt, class, self.least.get(usize::from(class)).copied());
    }

    // Does the same for each class, and asserts that there are no others.
    fn compare_classes(&self, rt: &impl Abort) {
        for (class, spec) in CLASSES.iter().enumerate() {
            self.compare_class(rt, class as u8, *spec);
        }
        self.data.assert_class(rt, 3, None);
        self.data.assert_class(rt, u8::MAX, None);
    }

    // Asserts that a class has the bytes of its plain data blocks, one after the other.
    fn compare_region(&self, rt: &impl Abort, class: usize) {
        let mut rest = self.data.region(class as u8).expect(rt, "a class");
        for plain in self.blocks.iter().filter(|plain| plain.class == class) {
            let (bytes, others) = rest
                .split_at_checked(plain.bytes.len())
                .expect(rt, "its bytes");
            assert!(rt; bytes == plain.bytes.as_slice());
            rest = others;
        }
        assert!(rt; rest.is_empty());
    }

    // Does the same for each class.
    fn compare_regions(&self, rt: &impl Abort) {
        for class in 0..CLASSES.len() {
            self.compare_region(rt, class);
        }
    }

    // Asserts that everything is as in the plain vectors.
    fn compare_all(&self, rt: &impl Abort) {
        for number in 0..BLOCKS {
            self.compare_block(rt, number);
        }
        self.compare_classes(rt);
        self.compare_regions(rt);
    }

    // Asserts the number of references that the plain vectors have for a data block.
    fn assert_names(&self, rt: &impl Abort, number: u32, count: u8) {
        assert!(rt; self.plain(rt, number).count == count);
        self.compare_all(rt);
    }
}

// Draws the next number below `limit` of a fixed sequence.
fn below(draw: &mut u32, limit: u32) -> u32
    requires { 0 < limit }
    ensures { result < limit }
{
    *draw = draw.wrapping_mul(1_664_525).wrapping_add(1_013_904_223);
    (*draw >> 8) % limit
}

#[test]
fn long_run_beside_vectors(rt: HostRuntime) {
    let mut twin = Twin::new(&rt, rt.alloc());
    twin.compare_all(&rt);
    let mut draw = 1;
    for _ in 0..40 {
        for _ in 0..100 {
            twin.step(&rt, &mut draw);
        }
        twin.compare_all(&rt);
    }
}

#[test]
fn names_a_block_as_often_as_can_be(rt: HostRuntime) {
    let mut twin = Twin::new(&rt, rt.alloc());
    twin.take(&rt, 5);
    for _ in 1..MOST_REFERENCES {
        twin.name(&rt, 3);
    }
    twin.assert_names(&rt, 3, MOST_REFERENCES);
    for _ in 1..MOST_REFERENCES {
        twin.drop_name(&rt, 3);
    }
    twin.assert_names(&rt, 3, 1);
    twin.drop_name(&rt, 3);
    twin.compare_all(&rt);
}
