// A start on images that are at fault.
use crate::{BLOCKS, SECTORS};
use bench_chip::{Bench, Plan};
use chip::BLOCK;
use engine::Refusal;
use image::examine;
use std::process::Abort;
use std::test::Fail;
use volume::Volume;

// What a start answers on an image.
fn start_on(image: &mut [u8]) -> Result<(), Refusal> {
    Volume::new(Bench::new(image, 1, Plan::WHOLE)).start()
}

// What an examination says of it, as a start would.
fn examine_on(image: &mut [u8]) -> Result<(), Refusal> {
    examine(&mut Bench::new(image, 1, Plan::WHOLE))?;
    Ok(())
}

// Whether it is refused with these numbers.
fn refused(answer: Result<(), Refusal>, wanted: &[usize]) -> bool {
    answer.is_err_and(|refusal| refusal.as_numbers().as_slice() == wanted)
}

// Formats an image, sets one byte of it, and starts a volume on its first bytes.
fn spoil(
    rt: &impl Abort,
    image: &mut [u8],
    at: usize,
    byte: u8,
    len: usize,
    wanted: &[usize],
) -> Result<(), Fail> {
    Volume::new(Bench::new(image, 1, Plan::WHOLE)).format(SECTORS, 1, b"")?;
    assert!(rt; at < image.len() && len <= image.len());
    image[at] = byte;
    let examined = examine_on(&mut image[0..len]);
    let started = start_on(&mut image[0..len]);
    assert!(rt; refused(started, wanted), "start, byte {at}");
    assert!(rt; refused(examined, wanted), "examine, byte {at}");
    Ok(())
}

#[test]
fn a_start_on_a_label_at_fault(rt: HostRuntime) -> Result<(), Fail> {
    let mut bytes = vec![in rt.alloc(); 0; BLOCKS * BLOCK]?;
    let image = bytes.as_mut_slice();
    let all = BLOCKS * BLOCK;
    spoil(&rt, image, 5, 6, all, &[10, 5])?;
    spoil(&rt, image, 28, 0, all, &[10, 28])?;
    spoil(&rt, image, 23, 0xFF, all - BLOCK, &[10, 20])?;
    spoil(&rt, image, 23, 0xFF, 0, &[10, 0])
}

#[test]
fn a_start_on_a_broken_rule(rt: HostRuntime) -> Result<(), Fail> {
    let mut bytes = vec![in rt.alloc(); 0; BLOCKS * BLOCK]?;
    let image = bytes.as_mut_slice();
    let all = BLOCKS * BLOCK;
    spoil(&rt, image, BLOCK + 2, 0x7F, all, &[11, 1, 2])?;
    spoil(&rt, image, 4 * BLOCK + 28, 0, all, &[11, 2, 2])?;
    spoil(&rt, image, 2 * BLOCK + 4, 0x3F, all, &[11, 3, 1])?;
    spoil(&rt, image, 2 * BLOCK + 512, 0, all, &[11, 4, 0])?;
    spoil(&rt, image, 2 * BLOCK, 0x4F, all, &[11, 6, 0])
}
