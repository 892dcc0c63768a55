// Runs the script on a volume, and compares what the sectors hold.
use crate::{BATCHES, Batch, End, Ledger, SECTORS, batch_at, byte_of, note_batch, sector_of};
use chip::{Chip, PAGE};
use engine::Refusal;
use ring::Sector;
use std::process::Abort;
use std::test::Fail;
use volume::{Ticket, Volume};

// How far the script has come: the next batch, what the sectors hold, and what they may hold instead where a close was
// cut; and how often power went.
#[derive(Clone, Copy)]
pub struct Progress {
    batch: u8,
    ledger: Ledger,
    after: Ledger,
    pub cuts: u32,
}

impl Progress {
    // Before the first batch.
    pub fn new() -> Progress {
        Progress {
            batch: 0,
            ledger: [None; 7],
            after: [None; 7],
            cuts: 0,
        }
    }
}

// Why the script stops: power went, or what was seen is wrong.
enum Stop {
    Cut,
    Wrong(Fail),
}

// Whatever was seen to be wrong stops the script.
impl From<Fail> for Stop {
    fn from(fail: Fail) -> Stop {
        Stop::Wrong(fail)
    }
}

// No refusal but a cut is expected.
impl From<Refusal> for Stop {
    fn from(refusal: Refusal) -> Stop {
        match refusal {
            Refusal::Cut(_) => Stop::Cut,
            _ => Stop::Wrong(Fail::new(format_args!("refused: {refusal:?}"))),
        }
    }
}

// Whether a part of the script was cut.
fn is_cut(ran: Result<(), Stop>) -> Result<bool, Fail> {
    match ran {
        Ok(()) => Ok(false),
        Err(Stop::Cut) => Ok(true),
        Err(Stop::Wrong(fail)) => Err(fail),
    }
}

// The script on a volume, with how far it has come.
#[derive(Drop)]
pub struct Script<C: Chip> {
    volume: Volume<C>,
    pub progress: Progress,
}

impl<C: Chip> Script<C> {
    // The script on a new volume, from where it was left.
    pub fn new(chip: C, progress: Progress) -> Self {
        Script {
            volume: Volume::new(chip),
            progress,
        }
    }

    // The byte that a sector's page is filled with, if it is written.
    fn look(&mut self, rt: &impl Abort, sector: u16) -> Result<Option<u8>, Fail> {
        let mut page = [0; 512];
        let found = self.volume.read(Sector(sector), &mut page)?;
        assert!(rt;
            page[0] == page[255] && page[0] == page[511],
            "one byte fills the page"
        );
        if found {
            return Ok(Some(page[0]));
        }
        assert!(rt; page[0] == 0xFF, "an unwritten page");
        Ok(None)
    }

    // What all sectors hold.
    fn survey(&mut self, rt: &impl Abort) -> Result<Ledger, Fail> {
        let mut found = [None; 7];
        for (held, sector) in found.iter_mut().zip(0..SECTORS) {
            *held = self.look(rt, sector)?;
        }
        Ok(found)
    }

    // Compares the report with what was read; all erases of the tally are booked or left.
    fn weigh(&mut self, rt: &impl Abort, written: usize) -> Result<(), Fail> {
        let report = self.volume.report()?;
        assert_eq!(rt; usize::from(report.written), written, "written sectors");
        assert_eq!(rt; report.booked.saturating_add(report.left), 16384, "erases");
        Ok(())
    }

    // Compares what the sectors hold. A close that was cut counts for its whole batch or not at all.
    fn settle(&mut self, rt: &impl Abort) -> Result<(), Fail> {
        let found = self.survey(rt)?;
        self.weigh(rt, found.iter().flatten().count())?;
        if found == self.progress.after {
            self.progress.ledger = found;
        }
        self.progress.after = self.progress.ledger;
        assert!(rt; found == self.progress.ledger, "what the sectors hold");
        Ok(())
    }

    // Makes the puts of a batch.
    fn put_all(&mut self, ticket: &Ticket, puts: u8) -> Result<(), Refusal> {
        let batch = self.progress.batch;
        for put in 0..puts {
            let page = [byte_of(batch, put); PAGE];
            self.volume
                .put(ticket, Sector(sector_of(batch, put)), &page)?;
        }
        Ok(())
    }

    // Makes the puts of a batch, of which no read sees anything yet.
    fn fill(&mut self, rt: &impl Abort, ticket: &Ticket, puts: u8) -> Result<(), Stop> {
        self.put_all(ticket, puts)?;
        self.settle(rt)?;
        Ok(())
    }

    // Closes a batch.
    fn close(&mut self, ticket: Ticket, puts: u8) -> Result<(), Stop> {
        note_batch(&mut self.progress.after, self.progress.batch, puts);
        self.volume.close(ticket)?;
        self.progress.ledger = self.progress.after;
        Ok(())
    }

    // Starts the volume while a batch is open; its ticket is of no use then.
    fn start_within(&mut self, rt: &impl Abort, ticket: Ticket) -> Result<(), Stop> {
        let started = self.volume.start();
        let refusal = match started {
            Ok(()) => Refusal::OtherTicket,
            Err(_) => Refusal::NotStarted,
        };
        assert_eq!(rt; self.volume.close(ticket), Err(refusal));
        started?;
        Ok(())
    }

    // Ends a batch of so many puts.
    fn end_batch(&mut self, rt: &impl Abort, ticket: Ticket, batch: Batch) -> Result<(), Stop> {
        match batch.end {
            End::Close => self.close(ticket, batch.puts),
            End::Drop => {
                self.volume.abandon(ticket)?;
                Ok(())
            }
            End::Start => self.start_within(rt, ticket),
        }
    }

    // Fills an open batch and ends it.
    fn serve_batch(&mut self, rt: &impl Abort, ticket: Ticket, batch: Batch) -> Result<(), Stop> {
        match self.fill(rt, &ticket, batch.puts) {
            Ok(()) => self.end_batch(rt, ticket, batch),
            Err(Stop::Cut) => {
                let dropped = self.volume.abandon(ticket);
                assert_eq!(rt; dropped, Err(Refusal::NotStarted), "off, until a start");
                Err(Stop::Cut)
            }
            Err(Stop::Wrong(fail)) => {
                let _ = self.volume.abandon(ticket);
                Err(Stop::Wrong(fail))
            }
        }
    }

    // Opens a batch and serves it.
    fn run_batch(&mut self, rt: &impl Abort) -> Result<(), Stop> {
        let batch = batch_at(self.progress.batch);
        let ticket = self.volume.open(batch.limit)?;
        self.serve_batch(rt, ticket, batch)
    }

    // Runs the batches that are left.
    fn run_batches(&mut self, rt: &impl Abort) -> Result<(), Stop> {
        for batch in self.progress.batch..BATCHES {
            self.progress.batch = batch;
            let ran = self.run_batch(rt);
            self.progress.batch = batch.saturating_add(1);
            ran?;
        }
        Ok(())
    }

    // Starts the volume, and runs the script on it from where it was left.
    fn run_on(&mut self, rt: &impl Abort) -> Result<(), Stop> {
        self.volume.start()?;
        self.settle(rt)?;
        self.run_batches(rt)?;
        self.settle(rt)?;
        Ok(())
    }

    // The same over at most one cut, and once more at the end.
    pub fn run_out(&mut self, rt: &impl Abort) -> Result<(), Fail> {
        if is_cut(self.run_on(rt))? {
            self.progress.cuts = self.progress.cuts.saturating_add(1);
            assert!(rt;
                matches!(self.volume.report(), Err(Refusal::NotStarted)),
                "off, until a start"
            );
            let cut = is_cut(self.run_on(rt))?;
            assert!(rt; !cut, "a second cut");
        }
        let cut = is_cut(self.run_on(rt))?;
        assert!(rt; !cut, "a cut in the last start");
        Ok(())
    }

    // Formats the volume, and runs the script up to its first cut.
    pub fn run_first(&mut self, rt: &impl Abort) -> Result<(), Fail> {
        self.volume.format(SECTORS, 1, b"")?;
        let cut = is_cut(self.run_on(rt))?;
        assert!(rt; cut, "no cut");
        Ok(())
    }

    // Formats the volume, and runs the script on it over at most one cut.
    pub fn run_whole(&mut self, rt: &impl Abort) -> Result<(), Fail> {
        self.volume.format(SECTORS, 1, b"")?;
        self.run_out(rt)
    }
}
