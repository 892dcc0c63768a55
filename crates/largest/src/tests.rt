// The largest ring, blank and gone round.
use super::*;
use bench_chip::{Bench, Plan};
use image::{Flaw, examine, find_sector, survey_image};
use ring::{Sector, Slot};
use std::test::Fail;
use volume::Volume;

#[test]
fn a_ring_of_4096_blocks(rt: HostRuntime) -> Result<(), Fail> {
    let mut image = vec![in rt.alloc(); 0xFF; BLOCKS * BLOCK]?;
    Volume::new(Bench::new(image.as_mut_slice(), 1, Plan::WHOLE)).format(28644, 8, b"")?;
    // 8,184 bits are cleared: 4,092 erases are booked, and the log starts four blocks before the ring's end
    clear_bytes(image.as_mut_slice(), 1023);
    for p in 0..30 {
        set_slot(image.as_mut_slice(), 7 * 4092 + p, 0x4F, 28643, 7);
    }
    let mut chip = Bench::new(image.as_mut_slice(), 1, Plan::WHOLE);
    let log = examine(&mut chip)?;
    let found = survey_image(&mut chip, log);
    assert_eq!(rt; found.booked, 4092);
    assert_eq!(rt; found.left, 16384 * 8 - 4092);
    assert_eq!(rt; found.unclaimed, 28672 - 30);
    assert_eq!(rt; found.written, 1);
    assert_eq!(rt; find_sector(&mut chip, log, Sector(28643)), Some(Slot(1)));
    Ok(())
}
