#![tactic(auto)]
// A bench session: lines of a script, carried out on a volume over any chip.
ghost use Rattle.std.specs.Prelude.{◌≡◌, MatchOption};
ghost use Rattle.session.specs.Sessions.{Planned, Serves};

mod reply;

pub use self::reply::Reply;
use bench_chip::Plan;
use chip::Chip;
use script::{Line, read_line};
use volume::Volume;

// The blocks of the tally, of which a script says nothing.
const TALLY: u16 = 1;

// The plan that a first line gives, if it gives one.
pub fn plan_of(line: &[u8]) -> Option<Plan>
    ensures { Planned line.now result }
{
    match read_line(line)? {
        Line::Plan { step, mask } => Some(Plan {
            step: u32::from(step),
            mask,
        }),
        Line::Format { .. } => None,
    }
}

// A volume that a script works on.
#[derive(Drop)]
pub struct Session<C: Chip> {
    volume: Volume<C>,
}

impl<C: Chip> Session<C> {
    pub fn new(chip: C) -> Self
        ensures { result.volume.engine.chip ≡ chip }
    {
        Session {
            volume: Volume::new(chip),
        }
    }

    // Carries out one line. A plan comes too late here: it is only for the first line.
    pub fn serve(&mut self, line: &[u8]) -> Reply
        ensures { Serves line.now (C.flash self.old.volume.engine.chip) result (C.flash self.new.volume.engine.chip) }
    {
        match read_line(line) {
            Some(Line::Format { sectors }) => Reply::Served {
                letter: 'f',
                answer: self.volume.format(sectors, TALLY, b""),
            },
            Some(Line::Plan { .. }) => Reply::Unknown,
            None => Reply::Unknown,
        }
    }
}
