#![tactic(auto)]
// A flash whose blocks lie one after another in one row of bytes: where each lies, and what a step does to the row.
ghost use Rattle.std.specs.Prelude.{◌≡◌, ℕ, ◌+◌, ◌*◌, ◌<◌, ◌≤◌, true, length};
ghost use Rattle.chip.specs.Flash.{home_at};
ghost use Rattle.chip.specs.Steps.{Reads};
ghost use Rattle.chip.specs.declared.Fault.TheVariants.{Cut};
ghost use Rattle.rows.specs.Rows.{count_of, flash_of, Bytes, Placed, Masked, Filled};

use chip::{BLOCK, Block, Fault, Home, MOST_BLOCKS, Span, admit};

// How many whole blocks a row has, up to the most that a chip shows. It also says that the row holds bytes, since no
// struct over a lent row can say so of itself.
pub fn whole_blocks(row: &[u8]) -> u16
    ensures count { result ≡ count_of row.now }
    ensures bytes { Bytes row.now }
{
    u16::try_from(row.len() / BLOCK).unwrap_or(MOST_BLOCKS)
}

// Where the byte `at` of a block lies in a row. The product is taken in `usize`: block 16 would wrap in 16 bits.
pub fn place_of(block: Block, at: usize) -> usize
    requires { at < 4096 }
    ensures { result ≡ block.0 * 4096 + at }
{
    usize::from(block.0) * BLOCK + at
}

// The home of a block of a row under a name; 0, 0 past the last block. Power has no part in it.
pub fn home_of(row: &[u8], name: u16, block: Block) -> Home
    ensures { result ≡ home_at (flash_of row.now true name) block.0 }
{
    if block.0 < whole_blocks(row) {
        Home {
            name,
            block: block.0,
        }
    } else {
        Home::NOWHERE
    }
}

// Tells that power was lost in a step on a block of a row under a name.
pub fn lost(name: u16, block: Block) -> Fault
    ensures { result ≡ Cut (record { name = name; block = block.0 }) }
{
    Fault::Cut(Home {
        name,
        block: block.0,
    })
}

// Copies a range of a row into a buffer of that length, as a chip of any name reads it.
pub fn read_range(row: &[u8], on: bool, span: Span, into: &mut [u8]) -> Result<(), Fault>
    ensures { (name : ℕ) → Reads (flash_of row.now on name) span.block.0 span.at span.len into.old result into.new }
{
    admit(span.is_within(whole_blocks(row), into.len()), on)?;
    let base = place_of(span.block, span.at);
    into.copy_from_slice(&row[base..base + into.len()]);
    Ok(())
}

// Writes `given` over the bytes from `base` on.
pub fn copy_in(row: &mut [u8], base: usize, given: &[u8])
    requires { base + length given.now ≤ length row.old }
    ensures { Placed row.old base given.now row.new }
{
    row[base..base + given.len()].copy_from_slice(given);
}

// Clears, from `base` on, the bits that neither `given` nor `mask` has.
// Tried: `iter_mut().zip(given)`; once that borrow is over, a proof knows the length of the row and not its bytes.
pub fn clear_bits(row: &mut [u8], base: usize, given: &[u8], mask: u8)
    requires { base + length given.now ≤ length row.old }
    ensures { Masked row.old base (length given.now) given.now mask row.new }
{
    for (k, byte) in given.iter().enumerate() {
        row[base + k] &= *byte | mask;
    }
}

// Writes `value` over `size` bytes from `base` on.
pub fn fill_range(row: &mut [u8], base: usize, size: usize, value: u8)
    requires { base + size ≤ length row.old }
    ensures { Filled row.old base size value row.new }
{
    row[base..base + size].fill(value);
}
