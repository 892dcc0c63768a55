// The same volume over different chips.
use super::*;
use bench_chip::{Bench, Plan};
use buffered_chip::Buffered;
use chip::{BLOCK, Home};
use std::test::Fail;
use volume::Refusal;

#[test]
fn a_pile_formats_as_one_chip(rt: HostRuntime) -> Result<(), Fail> {
    let mut front = vec![in rt.alloc(); 0; 6 * BLOCK]?;
    let mut back = vec![in rt.alloc(); 0; 6 * BLOCK]?;
    let mut alone = vec![in rt.alloc(); 0; 8 * BLOCK]?;
    {
        let buffered = Buffered::new(front.as_mut_slice(), 1, buffered_chip::Plan::WHOLE);
        let bench = Bench::new(back.as_mut_slice(), 2, Plan::WHOLE);
        volume_on(buffered, bench, 8).format(14, 1, b"dock")?;
        Volume::new(Bench::new(alone.as_mut_slice(), 3, Plan::WHOLE)).format(14, 1, b"dock")?;
    }
    assert!(rt; front.len() == 6 * BLOCK && back.len() == 6 * BLOCK && alone.len() == 8 * BLOCK);
    assert!(rt;
        front[2 * BLOCK..] == alone[0..4 * BLOCK],
        "blocks 2 to 5 of the front"
    );
    assert!(rt;
        back[0..4 * BLOCK] == alone[4 * BLOCK..],
        "then blocks 0 to 3 of the back"
    );
    assert!(rt;
        front[2 * BLOCK - 1] == 0 && back[4 * BLOCK] == 0,
        "what lies outside is as it was"
    );
    Ok(())
}

#[test]
fn a_cut_tells_the_home_of_its_block(rt: HostRuntime) -> Result<(), Fail> {
    let mut front = vec![in rt.alloc(); 0; 6 * BLOCK]?;
    let mut back = vec![in rt.alloc(); 0; 6 * BLOCK]?;
    let buffered = Buffered::new(front.as_mut_slice(), 1, buffered_chip::Plan::WHOLE);
    let bench = Bench::new(back.as_mut_slice(), 2, Plan { step: 3, mask: 7 });
    let mut volume = volume_on(buffered, bench, 8);
    let home = Home { name: 2, block: 2 };
    assert_eq!(rt; volume.format(14, 1, b""), Err(Refusal::Cut(home)));
    assert_eq!(rt; volume.format(14, 1, b""), Ok(()), "the plan is spent");
    Ok(())
}
