// The script over different chips.
use super::cuts::{END, FIRST};
use super::running::{Progress, Script};
use crate::{BATCHES, End, SECTORS, batch_at, byte_of, sector_of};
use bench_chip::{Bench, Plan};
use buffered_chip::Buffered;
use chip::{BLOCK, Chip};
use engine::Engine;
use piles::pile;
use ring::Sector;
use runs::{Answer, Call, Reply, run_calls};
use std::process::Abort;
use std::test::Fail;

// Fills 256 pages, each with the byte of its number.
fn fill_pages(pages: &mut [u8]) {
    for (page, byte) in pages.chunks_exact_mut(512).zip(0..=255) {
        page.fill(byte);
    }
}

// The page of a byte.
fn page_of<'a>(pages: &'a [u8], byte: u8) -> &'a [u8] {
    let at = 512 * usize::from(byte);
    pages.get(at..at + 512).unwrap_or(pages)
}

// The calls of a batch, under its ticket; then reads of all sectors, and a report.
fn list_batch<'a>(calls: &mut Vec<Call<'a>>, pages: &'a [u8], at: u8) -> Result<(), Fail> {
    let batch = batch_at(at);
    let ticket = u32::from(at) + 1;
    calls.push(Call::Open(batch.limit))?;
    for put in 0..batch.puts {
        let page = page_of(pages, byte_of(at, put));
        calls.push(Call::Put(ticket, Sector(sector_of(at, put)), page))?;
    }
    match batch.end {
        End::Close => calls.push(Call::Close(ticket))?,
        End::Drop => calls.push(Call::Drop(ticket))?,
        End::Start => calls.push(Call::Start)?,
    }
    for x in 0..SECTORS {
        calls.push(Call::Read(Sector(x), 512))?;
    }
    calls.push(Call::Report)?;
    Ok(())
}

// What the calls answer on a volume.
fn answer_all<'a, C: Chip>(
    rt: &impl Abort,
    engine: &mut Engine<C>,
    calls: &[Call<'a>],
) -> Result<[Answer; 256], Fail> {
    let mut answers = [Ok(Reply::Done); 256];
    let mut buffer = [0; 512];
    let count = run_calls(engine, SECTORS, 1, b"", calls, &mut answers, &mut buffer)?;
    assert_eq!(rt; count, calls.len(), "all calls have room");
    Ok(answers)
}

// Compares all answers.
fn compare(rt: &impl Abort, one: &[Answer], other: &[Answer]) {
    assert_eq!(rt; one.len(), other.len());
    let differ = one.iter().zip(other).position(|(a, b)| a != b);
    assert_eq!(rt; differ, None);
}

// That none of the answers is a refusal, and that eight blocks were reclaimed.
fn judge(rt: &impl Abort, answers: &[Answer]) -> Result<(), Fail> {
    let mut booked = 0;
    for answer in answers {
        if let Reply::Figures(report) = (*answer)? {
            booked = report.booked;
        }
    }
    assert_eq!(rt; booked, 8, "booked erases");
    Ok(())
}

// Lists the calls of the whole script.
fn list_calls<'a>(calls: &mut Vec<Call<'a>>, pages: &'a [u8]) -> Result<(), Fail> {
    calls.push(Call::Start)?;
    for at in 0..BATCHES {
        list_batch(calls, pages, at)?;
    }
    Ok(())
}

// Runs the calls on a chip alone, and on another one.
fn run_alone<'a>(
    rt: &impl Abort,
    calls: &[Call<'a>],
    bench: &mut [u8],
    buffered: &mut [u8],
) -> Result<[Answer; 256], Fail> {
    let mut engine = Engine::new(Bench::new(bench, 1, Plan::WHOLE));
    let answers = answer_all(rt, &mut engine, calls)?;
    let mut other = Engine::new(Buffered::new(buffered, 1, buffered_chip::Plan::WHOLE));
    compare(rt, &answer_all(rt, &mut other, calls)?, &answers);
    Ok(answers)
}

// Runs the calls on a pile of two chips.
fn run_piled<'a>(
    rt: &impl Abort,
    calls: &[Call<'a>],
    front: &mut [u8],
    back: &mut [u8],
) -> Result<[Answer; 256], Fail> {
    let one = Buffered::new(front, 1, buffered_chip::Plan::WHOLE);
    let other = Bench::new(back, 2, Plan::WHOLE);
    let mut engine = Engine::new(pile(one, other, 7));
    answer_all(rt, &mut engine, calls)
}

// Compares the image on a chip alone with that on a pile.
fn compare_images(rt: &impl Abort, alone: &[u8], front: &[u8], back: &[u8]) {
    assert!(rt; alone.len() == 7 * BLOCK && front.len() == 6 * BLOCK && back.len() == 6 * BLOCK);
    assert!(rt;
        front[2 * BLOCK..] == alone[0..4 * BLOCK],
        "blocks 2 to 5 of the front"
    );
    assert!(rt;
        back[0..3 * BLOCK] == alone[4 * BLOCK..],
        "then blocks 0 to 2 of the back"
    );
    assert!(rt;
        front[2 * BLOCK - 1] == 0 && back[3 * BLOCK] == 0,
        "and nothing else"
    );
}

#[test]
fn same_answers(rt: HostRuntime) -> Result<(), Fail> {
    let mut pages = vec![in rt.alloc(); 0; 256 * 512]?;
    let mut bench = vec![in rt.alloc(); 0; 7 * BLOCK]?;
    let mut buffered = vec![in rt.alloc(); 0; 7 * BLOCK]?;
    let mut front = vec![in rt.alloc(); 0; 6 * BLOCK]?;
    let mut back = vec![in rt.alloc(); 0; 6 * BLOCK]?;
    fill_pages(pages.as_mut_slice());
    let mut calls = Vec::new(rt.alloc());
    list_calls(&mut calls, pages.as_slice())?;
    let alone = run_alone(
        &rt,
        calls.as_slice(),
        bench.as_mut_slice(),
        buffered.as_mut_slice(),
    )?;
    judge(&rt, &alone)?;
    let piled = run_piled(
        &rt,
        calls.as_slice(),
        front.as_mut_slice(),
        back.as_mut_slice(),
    )?;
    compare(&rt, &piled, &alone);
    assert!(rt;
        bench.as_slice() == buffered.as_slice(),
        "the image of the buffered chip"
    );
    compare_images(&rt, bench.as_slice(), front.as_slice(), back.as_slice());
    Ok(())
}

// Runs the script on a pile of chips with these plans; tells how often power went.
fn cut_pile(
    rt: &impl Abort,
    front: &mut [u8],
    back: &mut [u8],
    one: buffered_chip::Plan,
    other: Plan,
) -> Result<u32, Fail> {
    let chip = pile(Buffered::new(front, 1, one), Bench::new(back, 2, other), 7);
    let mut script = Script::new(chip, Progress::new());
    script.run_whole(rt)?;
    Ok(script.progress.cuts)
}

#[test]
fn cuts_everywhere_on_a_pile(rt: HostRuntime) -> Result<(), Fail> {
    let mut front = vec![in rt.alloc(); 0; 6 * BLOCK]?;
    let mut back = vec![in rt.alloc(); 0; 6 * BLOCK]?;
    let mut cuts: u32 = 0;
    // the format makes five steps on the front, and three on the back
    for step in 6..END {
        let plan = buffered_chip::Plan { step, done: 1 };
        let cut = cut_pile(
            &rt,
            front.as_mut_slice(),
            back.as_mut_slice(),
            plan,
            Plan::WHOLE,
        )?;
        cuts = cuts.saturating_add(cut);
    }
    for step in 4..END {
        let plan = Plan { step, mask: 0xA5 };
        let cut = cut_pile(
            &rt,
            front.as_mut_slice(),
            back.as_mut_slice(),
            buffered_chip::Plan::WHOLE,
            plan,
        )?;
        cuts = cuts.saturating_add(cut);
    }
    assert_eq!(rt;
        cuts,
        END - FIRST,
        "each step is one of the front or of the back"
    );
    Ok(())
}
