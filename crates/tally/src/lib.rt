#![tactic(auto)]
// The reader of a volume's tally: how many of its bits are cleared.
ghost use Rattle.std.specs.Prelude.{◌≡◌, ℕ, ◌+◌, ◌*◌, ◌<◌, ◌≤◌, true, length, IfOk};
ghost use Rattle.chip.specs.Flash.{Flash};
ghost use Rattle.ring.specs.Tally.{tally_byte};
ghost use Rattle.tally.specs.Counts.{Fronts, Scanned, Holds, Advanced, Tallied};

use chip::{Block, Chip, PAGE, fetch};

// The pages of a block.
const PAGES: u16 = 8;

// The first byte of a tally that has a cleared bit behind an uncleared one.
#[derive(Clone, Copy, PartialEq, Eq, Debug)]
pub struct Disorder {
    pub byte: u16,
}

// How many bits are cleared at the front of a byte, or nothing where a cleared bit follows an uncleared one.
fn cleared_in(byte: u8) -> Option<u32>
    ensures { Fronts byte result }
{
    let front = byte.leading_zeros();
    if front + byte.trailing_ones() == 8 {
        Some(front)
    } else {
        None
    }
}

// Counts in the byte `at` of the tally, with `cleared` bits cleared before it; refuses a byte that is out of order.
// Behind an uncleared bit, a byte with any cleared bit is.
fn add_byte(cleared: u32, byte: u8, at: u16) -> Result<u32, Disorder>
    requires { cleared ≤ 8 * at }
    ensures most { IfOk result (λ c. c ≤ 8 * (at + 1)) }
    ensures advances { (s : Flash) (k : ℕ) → Scanned s at cleared → tally_byte s at ≡ byte → at < 4096 * k → Advanced s k (at + 1) result }
{
    let Some(front) = cleared_in(byte) else {
        return Err(Disorder { byte: at });
    };
    if front > 0 && cleared < 8 * u32::from(at) {
        return Err(Disorder { byte: at });
    }
    Ok(cleared + front)
}

// Counts in a page of the tally, from its byte `first` on.
fn add_page(mut cleared: u32, page: &[u8], first: u16) -> Result<u32, Disorder>
    requires { (cleared ≤ 8 * first) × (first + length page.now ≤ 32768) }
    ensures { (s : Flash) (k : ℕ) → Scanned s first cleared → Holds s first page.now → first + length page.now ≤ 4096 * k → Advanced s k (first + length page.now) result }
{
    for (i, byte) in page.iter().enumerate() {
        cleared = add_byte(cleared, *byte, first + i as u16)?;
    }
    Ok(cleared)
}

// A page of the tally, counted from the front of its first block.
fn read_page<C: Chip>(chip: &mut C, page: u16) -> [u8; PAGE]
    requires { ((C.flash chip.old).on ≡ true) × ((page < 64) × (8 + page < 8 * (C.flash chip.old).blocks)) }
    ensures bytes { Holds (C.flash chip.old) (512 * page) result }
    ensures keeps { C.flash chip.new ≡ C.flash chip.old }
{
    fetch(
        chip,
        Block(1 + page / PAGES),
        PAGE * usize::from(page % PAGES),
    )
}

// Reads the tally of `blocks` blocks: how many of its bits are cleared, two for each booked erase and one more for an
// erase that has begun; or the first byte that is out of order.
pub fn read_tally<C: Chip>(chip: &mut C, blocks: u16) -> Result<u32, Disorder>
    requires { ((C.flash chip.old).on ≡ true) × ((blocks ≤ 8) × (blocks < (C.flash chip.old).blocks)) }
    ensures answers { Tallied (C.flash chip.old) blocks result }
    ensures keeps { C.flash chip.new ≡ C.flash chip.old }
{
    let mut cleared = 0;
    for page in 0..PAGES * blocks {
        let bytes = read_page(chip, page);
        cleared = add_page(cleared, &bytes, PAGE as u16 * page)?;
    }
    Ok(cleared)
}
