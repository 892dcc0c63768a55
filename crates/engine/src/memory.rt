// What a volume keeps in memory, and how it changes as calls are served.
ghost use Rattle.std.specs.Prelude.{◌≡◌, ◌<◌};
ghost use Rattle.engine.specs.Memories.{most_tickets, idle, opened};

use ring::layout::Log;

// The open batch: its ticket, the most puts it may have, and those it has had.
#[derive(Clone, Copy)]
pub struct Batch {
    pub ticket: u32,
    pub limit: u16,
    pub puts: u16,
}

// A started volume: where its log stands, and its batch, if one is open.
#[derive(Clone, Copy)]
pub struct Started {
    pub log: Log,
    pub batch: Option<Batch>,
}

// The tickets that were given, and what is known while the volume is started.
#[derive(Clone, Copy)]
pub struct Memory {
    pub tickets: u32,
    pub started: Option<Started>,
}

impl Memory {
    // Notes where the log of a started volume stands, with no batch.
    pub(crate) fn idle(&mut self, log: Log)
        ensures { self.new ≡ idle self.old log }
    {
        self.started = Some(Started { log, batch: None });
    }

    // Notes a batch of so many puts, and tells its ticket, the next one.
    pub(crate) fn open(&mut self, log: Log, limit: u16) -> u32
        requires { self.old.tickets < most_tickets }
        ensures opened { self.new ≡ opened self.old log limit }
        ensures ticket { result ≡ self.new.tickets }
    {
        let ticket = self.tickets + 1;
        let batch = Batch {
            ticket,
            limit,
            puts: 0,
        };
        *self = Memory {
            tickets: ticket,
            started: Some(Started {
                log,
                batch: Some(batch),
            }),
        };
        ticket
    }
}
