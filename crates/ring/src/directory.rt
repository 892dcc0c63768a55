// The descriptors of a ring block.
ghost use Rattle.std.specs.Prelude.{◌≡◌, ◌+◌, ◌*◌, ◌<◌, true, length, slice_index};
ghost use Rattle.ring.specs.Directories.{Decodes, Describes};

use crate::Sector;
use chip::{Block, Chip, fetch};

// The slots of a ring block: as a length, and as a number of positions.
pub const SLOTS: usize = 7;

pub const BLOCK_SLOTS: u16 = SLOTS as u16;

// The bytes of a descriptor, and of all that a block has.
pub const DESCRIPTOR: usize = 4;

pub const DESCRIPTORS: usize = SLOTS * DESCRIPTOR;

// What a directory says of a slot.
#[derive(Clone, Copy)]
pub struct Descriptor {
    pub flags: u8,
    pub sector: Sector,
}

// The descriptor at a byte of a directory.
fn describe(bytes: &[u8], at: usize) -> Descriptor
    requires inside { at < 25 }
    requires whole { length bytes.now ≡ 28 }
    ensures flags { result.flags ≡ slice_index bytes.now at }
    ensures sector { result.sector.0 ≡ slice_index bytes.now (at + 1) + 256 * slice_index bytes.now (at + 2) }
{
    Descriptor {
        flags: bytes[at],
        sector: Sector(u16::from_le_bytes([bytes[at + 1], bytes[at + 2]])),
    }
}

// The descriptors of a directory. One by one: by `array::from_fn` a proof does not learn that each call of the closure
// sees the same bytes.
fn describe_all(bytes: [u8; DESCRIPTORS]) -> [Descriptor; 7]
    ensures { Decodes bytes result }
{
    [
        describe(&bytes, 0),
        describe(&bytes, 4),
        describe(&bytes, 8),
        describe(&bytes, 12),
        describe(&bytes, 16),
        describe(&bytes, 20),
        describe(&bytes, 24),
    ]
}

// The seven descriptors of a block, in one read.
pub fn read_descriptors<C: Chip>(chip: &mut C, block: Block) -> [Descriptor; 7]
    requires { ((C.flash chip.old).on ≡ true) × (block.0 < (C.flash chip.old).blocks) }
    ensures describes { Describes (C.flash chip.old) block.0 result }
    ensures keeps { C.flash chip.new ≡ C.flash chip.old }
{
    describe_all(fetch(chip, block, 0))
}
