// Batches: how one is opened, puts, and how it ends.
ghost use Rattle.std.specs.Prelude.{◌≡◌, ℕ, List};
ghost use Rattle.chip.specs.Steps.{Step};
ghost use Rattle.chip.specs.Plans.{Performs};
ghost use Rattle.label.specs.declared.Sizes.{Sizes};
ghost use Rattle.ring.specs.Turns.{Ready};
ghost use Rattle.laid.specs.Writing.{closing, dropping};
ghost use Rattle.engine.specs.Calls.{Opens, Puts, Ends, Permitted, Joins};

use crate::Engine;
use crate::memory::{Batch, Started};
use crate::refusal::Refusal;
use crate::serve::{batch_of, check_sector};
use chip::{Chip, Fault, PAGE};
use ring::directory::BLOCK_SLOTS;
use ring::layout::{Layout, Log};
use ring::{Position, Sector};
use upkeep::{Room, make_room};
use writes::slot::{close_slot, drop_slot, put_slot};

// The most puts that a batch may have.
const LARGEST_BATCH: u16 = 14;

// The slots that stay free for the copies of a reclaim: as many as a block has.
const SPARE: u16 = BLOCK_SLOTS;

// Whether a batch of so many puts may be opened, after so many tickets.
fn check_open(started: Started, puts: u16, tickets: u32) -> Result<(), Refusal>
    ensures { Permitted started puts tickets result }
{
    if started.batch.is_some() {
        return Err(Refusal::BatchOpen);
    }
    if puts == 0 || puts > LARGEST_BATCH {
        return Err(Refusal::Count);
    }
    if tickets == u32::MAX {
        return Err(Refusal::NoTicket);
    }
    Ok(())
}

// The bytes of a put to a sector as a page, if it may join a batch.
fn check_put<'a>(
    started: Started,
    batch: Batch,
    sector: Sector,
    bytes: &'a [u8],
) -> Result<&'a [u8; PAGE], Refusal>
    ensures { Joins started batch sector.0 bytes.now result }
{
    let Ok(page) = bytes.try_into() else {
        return Err(Refusal::Length);
    };
    check_sector(started, sector)?;
    if batch.puts >= batch.limit {
        return Err(Refusal::BatchFull);
    }
    Ok(page)
}

impl<C: Chip> Engine<C> {
    // Opens a batch of so many puts, once there is room for them, and tells its ticket.
    pub fn open(&mut self, puts: u16) -> Result<u32, Refusal>
        ensures { Opens puts (C.flash self.old.chip) self.old.memory result (C.flash self.new.chip) self.new.memory }
    {
        let started = self.serving()?;
        check_open(started, puts, self.memory.tickets)?;
        self.memory.started = None;
        match make_room(&mut self.chip, started.log, puts + SPARE)? {
            Room::Made(log) => Ok(self.memory.open(log, puts)),
            Room::Spent(log) => {
                self.memory.idle(log);
                Err(Refusal::Spent)
            }
        }
    }

    // Puts a page for a sector, under the ticket of the open batch.
    pub fn put(&mut self, ticket: u32, sector: Sector, page: &[u8]) -> Result<(), Refusal>
        ensures { Puts ticket sector.0 page.now (C.flash self.old.chip) self.old.memory result (C.flash self.new.chip) self.new.memory }
    {
        let started = self.serving()?;
        let batch = batch_of(started, ticket)?;
        let whole = check_put(started, batch, sector, page)?;
        let log = started.log;
        self.memory.started = None;
        put_slot(
            &mut self.chip,
            log.layout,
            Position(log.claimed),
            sector,
            whole,
        )?;
        self.memory.started = Some(Started {
            log: Log {
                claimed: log.claimed + 1,
                ..log
            },
            batch: Some(Batch {
                puts: batch.puts + 1,
                ..batch
            }),
        });
        Ok(())
    }

    // Ends the open batch, by this step at its last slot; a batch without puts has none. Not by `Log::last`: no clause says
    // that a slot is claimed once there are puts, so a log without one would need an answer of its own.
    fn end_batch<E: FnOnce(&mut C, Layout, Position) -> Result<(), Fault>>(
        &mut self,
        ticket: u32,
        end: E,
    ) -> Result<(), Refusal>
        requires { (chip : _) (layout : _) (at : _) → Ready (C.flash chip.now) layout.sizes layout.cleared → E.pre end chip layout at }
        ensures { (plan : Sizes → ℕ → ℕ → List Step)
            → ((chip : _) (layout : _) (at : _) (answer : _) (left : _) → E.post end chip layout at answer left → Performs (plan layout.sizes layout.cleared at.0) (C.flash chip.now) answer (C.flash left.now))
            → Ends plan ticket (C.flash self.old.chip) self.old.memory result (C.flash self.new.chip) self.new.memory }
    {
        let started = self.serving()?;
        let batch = batch_of(started, ticket)?;
        let log = started.log;
        self.memory.started = None;
        if batch.puts > 0 {
            let last = Position(log.claimed.saturating_sub(1));
            end(&mut self.chip, log.layout, last)?;
        }
        self.memory.idle(log);
        Ok(())
    }

    // Closes the open batch: all its puts count from now on.
    pub fn close(&mut self, ticket: u32) -> Result<(), Refusal>
        ensures { Ends closing ticket (C.flash self.old.chip) self.old.memory result (C.flash self.new.chip) self.new.memory }
    {
        self.end_batch(ticket, close_slot)
    }

    // Drops the open batch: none of its puts counts.
    pub fn abandon(&mut self, ticket: u32) -> Result<(), Refusal>
        ensures { Ends dropping ticket (C.flash self.old.chip) self.old.memory result (C.flash self.new.chip) self.new.memory }
    {
        self.end_batch(ticket, drop_slot)
    }
}
