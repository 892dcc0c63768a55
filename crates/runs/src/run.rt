// A run of many calls, with what is promised of them all.
ghost use Rattle.std.specs.Prelude.{◌≡◌, length};
ghost use Rattle.runs.specs.declared.run.Call.TheVariants.{Read};
ghost use Rattle.runs.specs.Runs.{Calls};
ghost use Rattle.runs.specs.Law.{Runs, Noted};

use chip::Chip;
use engine::{Engine, Refusal, Report};
use ring::Sector;

// A call, with any numbers; a ticket by its number, and a read by the length of its buffer.
#[derive(Clone, Copy)]
pub enum Call<'a> {
    Start,
    Open(u16),
    Put(u32, Sector, &'a [u8]),
    Close(u32),
    Drop(u32),
    Read(Sector, usize),
    Report,
}

// What a call that was served answered.
#[derive(Clone, Copy, PartialEq, Eq, Debug)]
pub enum Reply {
    // It has no result.
    Done,
    // An open: the ticket's number.
    Opened(u32),
    // A read: whether the sector is written, and its page. No Option: the page of FF hex is promised of one that is not.
    Shown(bool, [u8; 512]),
    // A report.
    Figures(Report),
}

// What a call answered: it was served, or it was refused.
pub type Answer = Result<Reply, Refusal>;

// Makes a read of `len` bytes, or of all the buffer if that is less.
fn show<C: Chip>(engine: &mut Engine<C>, sector: Sector, len: usize, buffer: &mut [u8]) -> Answer
    ensures calls { Calls (length buffer.old) (C.flash engine.old.chip) engine.old.memory (Read sector len) result (C.flash engine.new.chip) engine.new.memory }
    ensures same { length buffer.new ≡ length buffer.old }
{
    let room = len.min(buffer.len());
    let into = &mut buffer[0..room];
    let found = engine.read(sector, into)?;
    let mut page = [0; 512];
    page.copy_from_slice(into);
    Ok(Reply::Shown(found, page))
}

// Makes one call.
fn serve<'a, C: Chip>(engine: &mut Engine<C>, call: Call<'a>, buffer: &mut [u8]) -> Answer
    ensures calls { Calls (length buffer.old) (C.flash engine.old.chip) engine.old.memory call.entry result (C.flash engine.new.chip) engine.new.memory }
    ensures same { length buffer.new ≡ length buffer.old }
{
    match call {
        Call::Start => engine.start().and(Ok(Reply::Done)),
        Call::Open(puts) => engine.open(puts).map(Reply::Opened),
        Call::Put(ticket, sector, page) => engine.put(ticket, sector, page).and(Ok(Reply::Done)),
        Call::Close(ticket) => engine.close(ticket).and(Ok(Reply::Done)),
        Call::Drop(ticket) => engine.abandon(ticket).and(Ok(Reply::Done)),
        Call::Read(sector, len) => show(engine, sector, len, buffer),
        Call::Report => engine.report().map(Reply::Figures),
    }
}

// Formats the volume and then makes the calls one after another, wherever power fails, each under any ticket number; the
// answer to each is noted at its place. The buffer is for the pages that are read. There is no heap, so that the caller
// lends both, and is told how many answers are noted.
pub fn run_calls<'a, C: Chip>(
    engine: &mut Engine<C>,
    sectors: u16,
    tally: u16,
    name: &[u8],
    calls: &[Call<'a>],
    answers: &mut [Answer],
    buffer: &mut [u8],
) -> Result<usize, Refusal>
    ensures law { Runs (length buffer.old) sectors tally name.now (C.flash engine.old.chip) engine.old.memory calls.now result answers.new (C.flash engine.new.chip) engine.new.memory }
    ensures noted { Noted calls.now answers.old result answers.new }
{
    engine.format(sectors, tally, name)?;
    let count = calls.len().min(answers.len());
    // Each answer is written by its index: of what is written through a zip with `iter_mut`, a proof knows nothing.
    for (k, call) in calls[..count].iter().enumerate() {
        let answer = serve(engine, *call, buffer);
        answers[k] = answer;
    }
    Ok(count)
}
