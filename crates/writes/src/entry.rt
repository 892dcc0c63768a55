// Slots as they are read.
ghost use Rattle.std.specs.Prelude.{◌≡◌};
ghost use Rattle.ring.specs.Places.{sector_at, page_at};
ghost use Rattle.ring.specs.Turns.{Ready};
ghost use Rattle.laid.specs.Sane.{Readable};

use chip::{Chip, ERASED, PAGE, fetch, fetch_into};
use ring::layout::Layout;
use ring::{Position, Sector};

// What a slot holds: a sector number, and a page.
#[derive(Clone, Copy)]
pub struct Entry {
    pub sector: Sector,
    pub page: [u8; PAGE],
}

impl Entry {
    // What an erased slot shows: the entry that a slot is read into.
    pub const BLANK: Entry = Entry {
        sector: Sector(u16::MAX),
        page: [ERASED; PAGE],
    };
}

// Fills an entry with the sector number of the slot at a position, and its page. The page is read where it stays, so
// that there is one page in memory at a time.
pub fn read_entry<C: Chip>(chip: &mut C, layout: Layout, at: Position, into: &mut Entry)
    requires { Ready (C.flash chip.old) layout.sizes layout.cleared }
    ensures number { into.new.sector.0 ≡ sector_at (C.flash chip.old) layout.sizes layout.cleared at.0 }
    ensures page { into.new.page ≡ page_at (C.flash chip.old) layout.sizes layout.cleared at.0 }
    ensures readable { Readable (C.flash chip.old) layout.sizes layout.cleared at.0 }
    ensures keeps { C.flash chip.new ≡ C.flash chip.old }
{
    let block = at.block(layout);
    let number = fetch(chip, block, at.descriptor() + 1);
    fetch_into(chip, block, at.page(), &mut into.page);
    into.sector = Sector(u16::from_le_bytes(number));
}
