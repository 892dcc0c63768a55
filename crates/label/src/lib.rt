#![tactic(auto)]
// The label in the first page of a volume: its reader, its writer, and the sizes that it states.
ghost use Rattle.std.specs.Prelude.{◌≡◌, ◌+◌, ◌≤◌, ◌++◌, length};
ghost use Rattle.chip.specs.Ranges.{Tells};
ghost use Rattle.label.specs.Labels.{Sized, Labelled, FirstStray};
ghost use Rattle.label.specs.Found.{Gathered};
ghost use Rattle.label.specs.Written.{number_field, name_field, Writes};

mod bytes;
mod field;
mod found;
mod page;

pub use self::bytes::{LONGEST_LABEL, LabelBytes};
use self::field::{Field, field_at};
use self::found::Found;
pub use self::page::first_page;
use chip::ERASED;

// The format number that a label states.
pub const FORMAT: u16 = 1;

// The most bytes of a name.
pub const LONGEST_NAME: usize = 32;

// The most tally blocks of a volume, and the fewest and the most ring blocks.
const MOST_TALLY: u16 = 8;

const LEAST_RING: u16 = 5;

const MOST_RING: u16 = 4096;

// The tags of the fields; those from the first to the last that are skipped are free for others.
const TAG_END: u8 = 0;

const TAG_FORMAT: u8 = 1;

const TAG_RING: u8 = 2;

const TAG_SECTORS: u8 = 3;

const TAG_TALLY: u8 = 4;

const TAG_NAME: u8 = 5;

const TAG_FIRST_SKIPPED: u8 = 0x80;

const TAG_LAST_SKIPPED: u8 = 0xFE;

// The sizes of a volume: ring blocks, sectors, tally blocks.
#[derive(Clone, Copy, PartialEq, Eq, Debug)]
pub struct Sizes {
    pub ring: u16,
    pub sectors: u16,
    pub tally: u16,
}

impl Sizes {
    // Whether these sizes agree with each other and with a chip of `blocks` blocks.
    pub fn fits(&self, blocks: u16) -> bool
        ensures { Tells result (Sized blocks self.now) }
    {
        self.tally >= 1
            && self.tally <= MOST_TALLY
            && self.ring >= LEAST_RING
            && self.ring <= MOST_RING
            && self.sectors >= 1
            && u32::from(self.sectors) <= 7 * (u32::from(self.ring) - 4)
            && 1 + u32::from(self.tally) + u32::from(self.ring) == u32::from(blocks)
    }
}

// A label as it was read; the name is a part of the page.
#[derive(Clone, Copy)]
pub struct Label<'a> {
    pub sizes: Sizes,
    pub name: Option<&'a [u8]>,
}

// The byte of the page at which a label is at fault.
#[derive(Clone, Copy, PartialEq, Eq, Debug)]
pub struct LabelFault {
    pub at: usize,
}

// What the fields up to the end say, and the byte of the end field.
#[derive(Clone, Copy)]
struct Ended<'a> {
    found: Found<'a>,
    end: usize,
}

// Reads the fields from the page's first byte up to the end field.
fn gather<'a>(page: &'a [u8]) -> Result<Ended<'a>, LabelFault>
    ensures { Gathered page.now result }
{
    let mut found = Found::nothing();
    let mut at = 0;
    loop {
        let field = field_at(page, at)?;
        if let Field::End = field {
            return Ok(Ended { found, end: at });
        }
        found.take(field, at)?;
        at = field.end(at);
    }
}

// The first byte from `from` on that is not erased.
fn first_stray(page: &[u8], from: usize) -> Option<usize>
    ensures { FirstStray page.now from result }
{
    let skipped = page.get(from..)?.iter().position(|b| *b != ERASED)?;
    Some(from + skipped)
}

// Reads the label of a chip of `blocks` blocks, or says at which byte of the page it is at fault.
pub fn read_label<'a>(page: &'a [u8], blocks: u16) -> Result<Label<'a>, LabelFault>
    ensures { Labelled page.now blocks result }
{
    if blocks == 0 {
        return Err(LabelFault { at: 0 });
    }
    let Ended { found, end } = gather(page)?;
    if let Some(at) = first_stray(page, end + 3) {
        return Err(LabelFault { at });
    }
    let sizes = found.sizes().ok_or(LabelFault { at: end })?;
    if !sizes.fits(blocks) {
        return Err(LabelFault { at: end });
    }
    Ok(Label {
        sizes,
        name: found.name,
    })
}

// The field of a number, low byte first.
fn number_field(tag: u8, value: u16) -> [u8; 5]
    ensures { result ≡ number_field tag value }
{
    let [low, high] = value.to_le_bytes();
    [tag, 2, 0, low, high]
}

// Adds the field of a name; an empty name has none.
fn add_name(label: &mut LabelBytes, name: &[u8])
    requires short { length name.now ≤ 32 }
    requires room { length label.old + 3 + length name.now ≤ 58 }
    ensures { label.new ≡ label.old ++ name_field name.now }
{
    if name.is_empty() {
        return;
    }
    label.add(&[TAG_NAME, name.len() as u8, 0]);
    label.add(name);
}

// Writes the label of these sizes and this name, unless the name is too long.
pub fn write_label(sizes: Sizes, name: &[u8]) -> Option<LabelBytes>
    ensures { Writes sizes name.now result }
{
    if name.len() > LONGEST_NAME {
        return None;
    }
    let mut label = LabelBytes::empty();
    label.add(&number_field(TAG_FORMAT, FORMAT));
    label.add(&number_field(TAG_RING, sizes.ring));
    label.add(&number_field(TAG_SECTORS, sizes.sectors));
    label.add(&number_field(TAG_TALLY, sizes.tally));
    add_name(&mut label, name);
    label.add(&[TAG_END, 0, 0]);
    Some(label)
}
