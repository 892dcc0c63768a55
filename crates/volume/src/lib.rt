#![tactic(auto)]
// The sector volume: batches of puts under tickets, which power cuts leave whole or undone.
ghost use Rattle.std.specs.Prelude.{◌≡◌, None};
ghost use Rattle.laid.specs.Writing.{closing, dropping};
ghost use Rattle.engine.specs.Formats.{Formats, Untouched};
ghost use Rattle.engine.specs.Memories.{Forgets};
ghost use Rattle.engine.specs.Calls.{Starts, Opens, Puts, Ends, Reads, Reports};
ghost use Rattle.volume.specs.Tickets.{numbered};

mod ticket;

pub use self::ticket::Ticket;
use chip::Chip;
use engine::Engine;
pub use engine::{Numbers, Refusal, Report};
use ring::Sector;

// A volume on a chip.
#[derive(Drop)]
pub struct Volume<C: Chip> {
    engine: Engine<C>,
}

impl<C: Chip> Volume<C> {
    // A volume that is not started, and has given no ticket.
    pub fn new(chip: C) -> Self
        ensures { (result.engine.chip ≡ chip) × (result.engine.memory ≡ record { tickets = 0; started = None }) }
    {
        Volume {
            engine: Engine::new(chip),
        }
    }

    // Erases the whole chip and writes the label of `sectors` sectors, `tally` tally blocks and this name; an empty
    // name is none. The blocks that are left are the ring. The volume is then not started.
    pub fn format(&mut self, sectors: u16, tally: u16, name: &[u8]) -> Result<(), Refusal>
        ensures formats { Formats sectors tally name.now (C.flash self.old.engine.chip) result (C.flash self.new.engine.chip) }
        ensures forgets { Forgets result self.old.engine.memory self.new.engine.memory }
        ensures untouched { Untouched result self.old self.new }
    {
        self.engine.format(sectors, tally, name)
    }

    // Switches the chip on, examines its image and repairs what a cut has left. A batch that was open is ended.
    pub fn start(&mut self) -> Result<(), Refusal>
        ensures { Starts (C.flash self.old.engine.chip) self.old.engine.memory result (C.flash self.new.engine.chip) self.new.engine.memory }
    {
        self.engine.start()
    }

    // Opens a batch of at most `puts` puts, once there is room for them.
    pub fn open(&mut self, puts: u16) -> Result<Ticket, Refusal>
        ensures { Opens puts (C.flash self.old.engine.chip) self.old.engine.memory (numbered result) (C.flash self.new.engine.chip) self.new.engine.memory }
    {
        let number = self.engine.open(puts)?;
        Ok(Ticket::given(number))
    }

    // Puts a page for a sector into the batch of a ticket. It counts once the batch is closed.
    pub fn put(&mut self, ticket: &Ticket, sector: Sector, page: &[u8]) -> Result<(), Refusal>
        ensures { Puts ticket.now.number sector.0 page.now (C.flash self.old.engine.chip) self.old.engine.memory result (C.flash self.new.engine.chip) self.new.engine.memory }
    {
        self.engine.put(ticket.number(), sector, page)
    }

    // Closes the batch of a ticket, and spends the ticket: all puts of the batch count from now on.
    pub fn close(&mut self, ticket: Ticket) -> Result<(), Refusal>
        ensures { Ends closing ticket.number (C.flash self.old.engine.chip) self.old.engine.memory result (C.flash self.new.engine.chip) self.new.engine.memory }
    {
        self.engine.close(ticket.spend())
    }

    // Drops the batch of a ticket, and spends the ticket: no put of the batch counts.
    pub fn abandon(&mut self, ticket: Ticket) -> Result<(), Refusal>
        ensures { Ends dropping ticket.number (C.flash self.old.engine.chip) self.old.engine.memory result (C.flash self.new.engine.chip) self.new.engine.memory }
    {
        self.engine.abandon(ticket.spend())
    }

    // Fills a page with what a sector holds, and says whether it is written; a page of FF hex stands for one that is not.
    // An open batch is not seen. No Option of a page: the buffer is the caller's, and is told of both ways.
    pub fn read(&mut self, sector: Sector, into: &mut [u8]) -> Result<bool, Refusal>
        ensures reads { Reads sector.0 (C.flash self.old.engine.chip) self.old.engine.memory into.old result into.new }
        ensures keeps { (C.flash self.new.engine.chip ≡ C.flash self.old.engine.chip) × (self.new.engine.memory ≡ self.old.engine.memory) }
    {
        self.engine.read(sector, into)
    }

    // Tells how a started volume stands.
    pub fn report(&mut self) -> Result<Report, Refusal>
        ensures reports { Reports (C.flash self.old.engine.chip) self.old.engine.memory result }
        ensures keeps { (C.flash self.new.engine.chip ≡ C.flash self.old.engine.chip) × (self.new.engine.memory ≡ self.old.engine.memory) }
    {
        self.engine.report()
    }
}
