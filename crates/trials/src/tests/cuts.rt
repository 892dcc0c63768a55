// Every step of the script, cut.
use super::running::{Progress, Script};
use crate::BLOCKS;
use bench_chip::{Bench, Plan};
use buffered_chip::Buffered;
use chip::{BLOCK, Chip};
use std::process::Abort;
use std::test::Fail;

// The step after those of the format, and the one after those of the script.
pub const FIRST: u32 = 9;

pub const END: u32 = 390;

// Runs the script on a chip that cuts a step, if the script comes to it.
fn cut_at<C: Chip + Drop>(rt: &impl Abort, chip: C, step: u32) -> Result<(), Fail> {
    let mut script = Script::new(chip, Progress::new());
    script.run_whole(rt)?;
    assert_eq!(rt; script.progress.cuts, u32::from(step < END), "{}", step);
    Ok(())
}

// Cuts the script at each step on the bench chip.
fn cut_bench(rt: &impl Abort, image: &mut [u8], mask: u8) -> Result<(), Fail> {
    for step in FIRST..=END {
        cut_at(rt, Bench::new(image, 1, Plan { step, mask }), step)?;
    }
    Ok(())
}

// Cuts it on the buffered chip, where a cut step finishes `done` bytes.
fn cut_buffered(rt: &impl Abort, image: &mut [u8], done: usize) -> Result<(), Fail> {
    for step in FIRST..=END {
        let plan = buffered_chip::Plan { step, done };
        cut_at(rt, Buffered::new(image, 1, plan), step)?;
    }
    Ok(())
}

// Cuts it at a step, and then at a step of what follows, on a chip over the same bytes.
fn cut_twice(rt: &impl Abort, image: &mut [u8], first: Plan, second: Plan) -> Result<(), Fail> {
    let progress = {
        let mut script = Script::new(Bench::new(image, 1, first), Progress::new());
        script.run_first(rt)?;
        script.progress
    };
    Script::new(Bench::new(image, 1, second), progress).run_out(rt)
}

// Cuts it at each step, and again at the step that is `second` steps on.
fn cut_repairs(rt: &impl Abort, image: &mut [u8], second: u32, mask: u8) -> Result<(), Fail> {
    for step in FIRST..END {
        let again = Plan { step: second, mask };
        cut_twice(rt, image, Plan { step, mask: 0x5A }, again)?;
    }
    Ok(())
}

#[test]
fn cuts_everywhere_on_the_bench_chip(rt: HostRuntime) -> Result<(), Fail> {
    let mut image = vec![in rt.alloc(); 0; BLOCKS * BLOCK]?;
    for mask in [0x00, 0xFF, 0xA5, 0x4F, 0x8F, 0x7F, 0x80] {
        cut_bench(&rt, image.as_mut_slice(), mask)?;
    }
    Ok(())
}

#[test]
fn cuts_everywhere_on_the_buffered_chip(rt: HostRuntime) -> Result<(), Fail> {
    let mut image = vec![in rt.alloc(); 0; BLOCKS * BLOCK]?;
    for done in [0, 1, 2, 255, 511, 512, 2048, 4096] {
        cut_buffered(&rt, image.as_mut_slice(), done)?;
    }
    Ok(())
}

#[test]
fn cuts_in_what_follows_a_cut(rt: HostRuntime) -> Result<(), Fail> {
    let mut image = vec![in rt.alloc(); 0; BLOCKS * BLOCK]?;
    for second in 1..=6 {
        cut_repairs(&rt, image.as_mut_slice(), second, 0x00)?;
        cut_repairs(&rt, image.as_mut_slice(), second, 0xFF)?;
    }
    Ok(())
}
