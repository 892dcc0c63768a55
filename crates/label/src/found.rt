// What the fields of a label say, gathered one field at a time.
ghost use Rattle.label.specs.Found.{Nothing, Taken, Stated, Kept};

use crate::field::Field;
use crate::{FORMAT, LabelFault, Sizes};

// What was found so far under each tag.
#[derive(Clone, Copy)]
pub struct Found<'a> {
    pub format: Option<u16>,
    pub ring: Option<u16>,
    pub sectors: Option<u16>,
    pub tally: Option<u16>,
    pub name: Option<&'a [u8]>,
}

// Puts a value where none is yet; a second one is a fault at the byte `at`.
fn keep<T: Copy>(slot: &mut Option<T>, value: T, at: usize) -> Result<(), LabelFault>
    ensures { Kept slot.old value at result slot.new }
{
    if slot.is_some() {
        return Err(LabelFault { at });
    }
    *slot = Some(value);
    Ok(())
}

impl<'a> Found<'a> {
    // Before the first field.
    pub fn nothing() -> Found<'a>
        ensures { Nothing result }
    {
        Found {
            format: None,
            ring: None,
            sectors: None,
            tally: None,
            name: None,
        }
    }

    // Takes one more field, whose tag stands at the byte `at`, unless it repeats one that may stand only once.
    pub fn take(&mut self, field: Field<'a>, at: usize) -> Result<(), LabelFault>
        ensures { Taken self.old field.entry at result self.new }
    {
        match field {
            Field::Format(value) => keep(&mut self.format, value, at),
            Field::Ring(value) => keep(&mut self.ring, value, at),
            Field::Sectors(value) => keep(&mut self.sectors, value, at),
            Field::Tally(value) => keep(&mut self.tally, value, at),
            Field::Name(bytes) => keep(&mut self.name, bytes, at),
            Field::Skipped(_) | Field::End => Ok(()),
        }
    }

    // The sizes, where the format number is right and none of them is missing.
    pub fn sizes(&self) -> Option<Sizes>
        ensures { Stated self.now result }
    {
        if self.format? != FORMAT {
            return None;
        }
        Some(Sizes {
            ring: self.ring?,
            sectors: self.sectors?,
            tally: self.tally?,
        })
    }
}
