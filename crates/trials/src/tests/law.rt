// A run of calls, many of them to be refused.
use crate::{BLOCKS, SECTORS};
use bench_chip::{Bench, Plan};
use chip::{BLOCK, Home};
use engine::{Engine, Refusal, Report};
use ring::Sector;
use runs::{Answer, Call, Reply, run_calls};
use std::process::Abort;
use std::test::Fail;

// The answer of a call that was served and has no result.
const DONE: Answer = Ok(Reply::Done);

// The answer of a read of a sector that is not written.
const UNWRITTEN: Answer = Ok(Reply::Shown(false, [0xFF; 512]));

// Calls before any batch.
fn first_calls<'a>(page: &'a [u8], short: &'a [u8]) -> [Call<'a>; 12] {
    [
        Call::Read(Sector(0), 512),
        Call::Open(0),
        Call::Start,
        Call::Report,
        Call::Put(1, Sector(0), page),
        Call::Put(0, Sector(9), short),
        Call::Open(15),
        Call::Open(0),
        Call::Read(Sector(7), 511),
        Call::Read(Sector(0), 513),
        Call::Read(Sector(7), 512),
        Call::Read(Sector(6), 512),
    ]
}

const FIRST: [Answer; 12] = [
    Err(Refusal::NotStarted),
    Err(Refusal::NotStarted),
    DONE,
    Ok(Reply::Figures(Report {
        booked: 0,
        unclaimed: 35,
        written: 0,
        left: 16384,
    })),
    Err(Refusal::OtherTicket),
    Err(Refusal::OtherTicket),
    Err(Refusal::Count),
    Err(Refusal::Count),
    Err(Refusal::Length),
    Err(Refusal::Length),
    Err(Refusal::NoSector),
    UNWRITTEN,
];

// A batch of two puts.
fn batch_calls<'a>(page: &'a [u8], short: &'a [u8]) -> [Call<'a>; 16] {
    [
        Call::Start,
        Call::Open(2),
        Call::Open(0),
        Call::Put(1, Sector(7), short),
        Call::Put(1, Sector(7), page),
        Call::Put(2, Sector(0), page),
        Call::Put(1, Sector(6), page),
        Call::Read(Sector(6), 512),
        Call::Put(1, Sector(6), page),
        Call::Put(1, Sector(0), short),
        Call::Put(1, Sector(7), page),
        Call::Put(1, Sector(0), page),
        Call::Close(2),
        Call::Close(1),
        Call::Drop(1),
        Call::Read(Sector(6), 512),
    ]
}

const BATCH: [Answer; 16] = [
    DONE,
    Ok(Reply::Opened(1)),
    Err(Refusal::BatchOpen),
    Err(Refusal::Length),
    Err(Refusal::NoSector),
    Err(Refusal::OtherTicket),
    DONE,
    UNWRITTEN,
    DONE,
    Err(Refusal::Length),
    Err(Refusal::NoSector),
    Err(Refusal::BatchFull),
    Err(Refusal::OtherTicket),
    DONE,
    Err(Refusal::OtherTicket),
    Ok(Reply::Shown(true, [7; 512])),
];

// Tickets one after another, of batches that are dropped or left.
fn ticket_calls<'a>(page: &'a [u8]) -> [Call<'a>; 14] {
    [
        Call::Start,
        Call::Open(14),
        Call::Close(1),
        Call::Open(14),
        Call::Put(2, Sector(0), page),
        Call::Put(1, Sector(0), page),
        Call::Drop(2),
        Call::Read(Sector(0), 512),
        Call::Open(1),
        Call::Put(3, Sector(3), page),
        Call::Start,
        Call::Close(3),
        Call::Report,
        Call::Open(1),
    ]
}

const TICKETS: [Answer; 14] = [
    DONE,
    Ok(Reply::Opened(1)),
    DONE,
    Ok(Reply::Opened(2)),
    DONE,
    Err(Refusal::OtherTicket),
    DONE,
    UNWRITTEN,
    Ok(Reply::Opened(3)),
    DONE,
    DONE,
    Err(Refusal::OtherTicket),
    Ok(Reply::Figures(Report {
        booked: 0,
        unclaimed: 33,
        written: 0,
        left: 16384,
    })),
    Ok(Reply::Opened(4)),
];

// A batch whose second put is cut.
fn cut_calls<'a>(page: &'a [u8]) -> [Call<'a>; 13] {
    [
        Call::Start,
        Call::Open(2),
        Call::Put(1, Sector(6), page),
        Call::Put(1, Sector(5), page),
        Call::Put(1, Sector(7), page),
        Call::Close(1),
        Call::Read(Sector(7), 511),
        Call::Report,
        Call::Open(0),
        Call::Start,
        Call::Close(1),
        Call::Read(Sector(6), 512),
        Call::Open(1),
    ]
}

// The cut is told by its home: on the chip 1, the first block of the ring.
const CUT: [Answer; 13] = [
    DONE,
    Ok(Reply::Opened(1)),
    DONE,
    Err(Refusal::Cut(Home { name: 1, block: 2 })),
    Err(Refusal::NotStarted),
    Err(Refusal::NotStarted),
    Err(Refusal::NotStarted),
    Err(Refusal::NotStarted),
    Err(Refusal::NotStarted),
    DONE,
    Err(Refusal::OtherTicket),
    UNWRITTEN,
    Ok(Reply::Opened(2)),
];

// Runs calls on a volume that is formatted, and compares the answers.
fn compare<'a>(
    rt: &impl Abort,
    image: &mut [u8],
    plan: Plan,
    calls: &[Call<'a>],
    wanted: &[Answer],
) -> Result<(), Fail> {
    let mut answers = [DONE; 16];
    let mut buffer = [0; 600];
    let mut engine = Engine::new(Bench::new(image, 1, plan));
    let count = run_calls(
        &mut engine,
        SECTORS,
        1,
        b"",
        calls,
        &mut answers,
        &mut buffer,
    )?;
    assert_eq!(rt; count, wanted.len());
    for (i, (answer, wanted)) in answers.iter().zip(wanted).enumerate() {
        assert_eq!(rt; answer, wanted, "call {i}");
    }
    Ok(())
}

#[test]
fn run_keeps_the_law(rt: HostRuntime) -> Result<(), Fail> {
    let mut bytes = vec![in rt.alloc(); 0; BLOCKS * BLOCK]?;
    let image = bytes.as_mut_slice();
    let page = [7; 512];
    let short = [7; 511];
    compare(&rt, image, Plan::WHOLE, &first_calls(&page, &short), &FIRST)?;
    compare(&rt, image, Plan::WHOLE, &batch_calls(&page, &short), &BATCH)?;
    compare(&rt, image, Plan::WHOLE, &ticket_calls(&page), &TICKETS)?;
    let second_put = Plan { step: 13, mask: 0 };
    compare(&rt, image, second_put, &cut_calls(&page), &CUT)
}

// Runs calls on a volume with a sector too many: none is made.
fn refuse<'a>(rt: &impl Abort, image: &mut [u8], calls: &[Call<'a>]) {
    let before = [Ok(Reply::Opened(9)); 16];
    let mut answers = before;
    let mut buffer = [0; 600];
    let mut engine = Engine::new(Bench::new(image, 1, Plan::WHOLE));
    let answer = run_calls(&mut engine, 8, 1, b"", calls, &mut answers, &mut buffer);
    assert_eq!(rt; answer, Err(Refusal::Sizes));
    assert_eq!(rt; answers, before, "no call is made");
}

#[test]
fn a_run_is_not_begun_on_sizes_that_do_not_fit(rt: HostRuntime) -> Result<(), Fail> {
    let mut bytes = vec![in rt.alloc(); 0; BLOCKS * BLOCK]?;
    let page = [7; 512];
    refuse(&rt, bytes.as_mut_slice(), &ticket_calls(&page));
    Ok(())
}
