// One field of a label, read from the page where its tag stands.
ghost use Rattle.std.specs.Prelude.{◌≡◌, ◌^◌, ◌<◌, ◌≤◌, length};
ghost use Rattle.label.specs.Read.{FrontOf, HeadAt, Told, ReadAt, end_of};

use crate::{
    LONGEST_NAME, LabelFault, TAG_END, TAG_FIRST_SKIPPED, TAG_FORMAT, TAG_LAST_SKIPPED, TAG_NAME,
    TAG_RING, TAG_SECTORS, TAG_TALLY,
};

// The front of a field: its tag and its length, and all that follows them in the page.
#[derive(Clone, Copy)]
pub struct Head<'a> {
    pub tag: u8,
    pub len: usize,
    pub after: &'a [u8],
}

// What a field of a label says; a name and what is skipped are parts of the page.
#[derive(Clone, Copy)]
pub enum Field<'a> {
    Format(u16),
    Ring(u16),
    Sectors(u16),
    Tally(u16),
    Name(&'a [u8]),
    Skipped(&'a [u8]),
    End,
}

impl<'a> Field<'a> {
    // The byte after this field, whose tag stands at the byte `at`.
    pub fn end(self, at: usize) -> usize
        requires { end_of at self < 2 ^ 64 }
        ensures { result ≡ end_of at self.entry }
    {
        match self {
            Field::Format(_) | Field::Ring(_) | Field::Sectors(_) | Field::Tally(_) => at + 5,
            Field::Name(bytes) | Field::Skipped(bytes) => at + 3 + bytes.len(),
            Field::End => at + 3,
        }
    }
}

// The front of what is left of a page, unless that is shorter.
fn front<'a>(rest: &'a [u8]) -> Option<Head<'a>>
    ensures { FrontOf rest.now result }
{
    match rest {
        [tag, lo, hi, after @ ..] => Some(Head {
            tag: *tag,
            len: usize::from(u16::from_le_bytes([*lo, *hi])),
            after,
        }),
        _ => None,
    }
}

// The front of the field at the byte `at`.
fn head_at<'a>(page: &'a [u8], at: usize) -> Option<Head<'a>>
    requires { at ≤ length page.now }
    ensures { HeadAt page.now at result }
{
    front(&page[at..])
}

// The field with a tag and these bytes, if there is such a tag, and a field of it may be so long.
fn told<'a>(tag: u8, bytes: &'a [u8]) -> Option<Field<'a>>
    ensures { Told tag bytes.now result }
{
    match (tag, bytes) {
        (TAG_END, []) => Some(Field::End),
        (TAG_FORMAT, [low, high]) => Some(Field::Format(u16::from_le_bytes([*low, *high]))),
        (TAG_RING, [low, high]) => Some(Field::Ring(u16::from_le_bytes([*low, *high]))),
        (TAG_SECTORS, [low, high]) => Some(Field::Sectors(u16::from_le_bytes([*low, *high]))),
        (TAG_TALLY, [low, high]) => Some(Field::Tally(u16::from_le_bytes([*low, *high]))),
        (TAG_NAME, [_, ..]) if bytes.len() <= LONGEST_NAME => Some(Field::Name(bytes)),
        (TAG_FIRST_SKIPPED..=TAG_LAST_SKIPPED, _) => Some(Field::Skipped(bytes)),
        _ => None,
    }
}

// The field whose tag stands at the byte `at`; whether it repeats an earlier one is not asked here.
pub fn field_at<'a>(page: &'a [u8], at: usize) -> Result<Field<'a>, LabelFault>
    requires { at ≤ length page.now }
    ensures { ReadAt page.now at result }
{
    let fault = LabelFault { at };
    let head = head_at(page, at).ok_or(fault)?;
    let bytes = head.after.get(..head.len).ok_or(fault)?;
    told(head.tag, bytes).ok_or(fault)
}
