// The first seven positions of the log, each with the last slot that counts for its sector.
ghost use Rattle.std.specs.Prelude.{◌≡◌, ℕ, ◌<◌, None, length};
ghost use Rattle.lookup.specs.Fronts.{nowhere, Told, Noted, Own};

use crate::walk::Visit;
use ring::Sector;
use ring::directory::Descriptor;

// A position of the seven: its sector, and the position of the last slot that counts for it, once one is found.
#[derive(Clone, Copy)]
pub struct Place {
    sector: Sector,
    latest: Option<u16>,
}

// The seven.
#[derive(Drop)]
pub struct Front {
    places: [Place; 7],
    ghost whole: { length places ≡ 7 },
}

impl Front {
    // The seven positions, before any slot is noted.
    pub fn before(descriptors: [Descriptor; 7]) -> Front
        ensures { Told descriptors result.places }
    {
        Front {
            places: descriptors.map(|descriptor| Place {
                sector: descriptor.sector,
                latest: None,
            }),
        }
    }

    // Notes a slot for each position whose sector it counts for, unless a later slot was noted.
    pub fn note(&mut self, visit: Visit)
        ensures { Noted self.old.places visit self.new.places }
    {
        for place in self.places.iter_mut() {
            if place.latest.is_none() && visit.hits(place.sector) {
                place.latest = Some(visit.position);
            }
        }
    }

    // Which positions were found themselves. Told one by one: by `array::from_fn` a proof does not learn that each call of the
    // closure sees the same places.
    pub fn own_places(&self) -> [bool; 7]
        ensures { Own self.now.places result }
    {
        let mut own = [false; 7];
        for (j, place) in self.places.iter().enumerate() {
            own[j] = place.latest == Some(j as u16);
        }
        own
    }
}
