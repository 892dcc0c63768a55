// A tally that is spent, or soon will be.
use crate::{BLOCKS, SECTORS};
use bench_chip::{Bench, Plan};
use chip::{BLOCK, Chip};
use engine::{Engine, Refusal, Report};
use ring::Sector;
use std::process::Abort;
use std::test::Fail;

// Formats an image, and clears its tally but for the last byte.
fn spend(rt: &impl Abort, image: &mut [u8], last: u8) -> Result<(), Fail> {
    Engine::new(Bench::new(image, 1, Plan::WHOLE)).format(SECTORS, 1, b"")?;
    assert!(rt; image.len() == BLOCKS * BLOCK);
    image[BLOCK..2 * BLOCK].fill(0);
    image[2 * BLOCK - 1] = last;
    Ok(())
}

// Writes all sectors twice, in one batch.
fn write_twice<C: Chip>(engine: &mut Engine<C>) -> Result<(), Refusal> {
    let ticket = engine.open(14)?;
    for put in 0..14 {
        engine.put(ticket, Sector(put % 7), &[9; 512])?;
    }
    engine.close(ticket)
}

// Compares a report with its figures.
fn weigh<C: Chip>(
    rt: &impl Abort,
    engine: &mut Engine<C>,
    booked: u32,
    unclaimed: u16,
) -> Result<(), Fail> {
    let wanted = Report {
        booked,
        unclaimed,
        written: SECTORS,
        left: 16384_u32.saturating_sub(booked),
    };
    assert_eq!(rt; engine.report()?, wanted);
    Ok(())
}

#[test]
fn a_spent_tally_serves_until_a_reclaim_is_due(rt: HostRuntime) -> Result<(), Fail> {
    let mut image = vec![in rt.alloc(); 0; BLOCKS * BLOCK]?;
    spend(&rt, image.as_mut_slice(), 0)?;
    let mut engine = Engine::new(Bench::new(image.as_mut_slice(), 1, Plan::WHOLE));
    engine.start()?;
    write_twice(&mut engine)?;
    write_twice(&mut engine)?;
    assert_eq!(rt; engine.open(1), Err(Refusal::Spent));
    engine.start()?;
    assert_eq!(rt; engine.open(1), Err(Refusal::Spent));
    weigh(&rt, &mut engine, 16384, 7)
}

#[test]
fn the_last_erase_is_booked(rt: HostRuntime) -> Result<(), Fail> {
    let mut image = vec![in rt.alloc(); 0; BLOCKS * BLOCK]?;
    spend(&rt, image.as_mut_slice(), 3)?;
    let mut engine = Engine::new(Bench::new(image.as_mut_slice(), 1, Plan::WHOLE));
    engine.start()?;
    write_twice(&mut engine)?;
    write_twice(&mut engine)?;
    weigh(&rt, &mut engine, 16383, 7)?;
    assert_eq!(rt; engine.open(14), Err(Refusal::Spent));
    weigh(&rt, &mut engine, 16384, 14)?;
    assert_eq!(rt; engine.open(7), Ok(3));
    Ok(())
}

// Goes on until the tally is spent; tells whether a step was cut. A flag and no error: a cut is counted, and the run goes on.
fn write_on<C: Chip>(engine: &mut Engine<C>) -> Result<bool, Fail> {
    engine.start()?;
    for _ in 0..4 {
        match write_twice(engine) {
            Ok(()) => {}
            Err(Refusal::Spent) => return Ok(false),
            Err(Refusal::Cut(_)) => return Ok(true),
            Err(refusal) => return Err(Fail::new(format_args!("refused: {refusal:?}"))),
        }
    }
    Err(Fail::new("the tally is not spent"))
}

// Cuts the last erase, or another step, and then goes on; tells whether one was cut, as `write_on` does.
fn cut_last(rt: &impl Abort, image: &mut [u8], step: u32, mask: u8) -> Result<bool, Fail> {
    spend(rt, image, 3)?;
    let mut engine = Engine::new(Bench::new(image, 1, Plan { step, mask }));
    let cut = write_on(&mut engine)?;
    if cut && write_on(&mut engine)? {
        return Err(Fail::new("a second cut"));
    }
    assert_eq!(rt; engine.report()?.booked, 16384);
    Ok(cut)
}

#[test]
fn cuts_up_to_the_last_erase(rt: HostRuntime) -> Result<(), Fail> {
    let mut image = vec![in rt.alloc(); 0; BLOCKS * BLOCK]?;
    let mut cuts: u32 = 0;
    for step in 1..200 {
        for mask in [0x00, 0xFF, 0xA5] {
            if cut_last(&rt, image.as_mut_slice(), step, mask)? {
                cuts = cuts.saturating_add(1);
            }
        }
    }
    // 28 puts of four steps each, two closes, and a reclaim of three steps
    assert_eq!(rt; cuts, 3 * 117);
    Ok(())
}
