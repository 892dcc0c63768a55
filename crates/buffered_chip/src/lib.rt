#![tactic(auto)]
// A chip that programs through a page buffer: its blocks lie in bytes that are lent to it, and it loses power in the
// step that its plan names.
ghost use Rattle.std.specs.Prelude.{◌≡◌, replicate};

mod calls;
mod steps;

use chip::PAGE;

// Which step is cut, and how far it comes.
#[derive(Clone, Copy, PartialEq, Eq, Debug)]
pub struct Plan {
    // The number of the step, from 1 on, among the programs and erases that are begun; 0 is none.
    // No Option: a count that has run down ends at 0, so that would be a second none.
    pub step: u32,
    // How many bytes, of the range or of the block, a cut step finishes.
    pub done: usize,
}

impl Plan {
    // No step is cut.
    pub const WHOLE: Plan = Plan { step: 0, done: 0 };
}

// What a step goes by besides the bytes: the chip's name, its power, and what is left of its plan.
#[derive(Clone, Copy)]
struct Status {
    name: u16,
    on: bool,
    plan: Plan,
}

// The chip: the bytes that are lent to it, its page buffer, and its status.
#[derive(Drop)]
pub struct Buffered<'a> {
    image: &'a mut [u8],
    page: [u8; PAGE],
    status: Status,
    // The page buffer is all ones: so it begins, so a program leaves it, and no other call touches it.
    pub ghost ones: { page ≡ replicate 512 255 },
}
