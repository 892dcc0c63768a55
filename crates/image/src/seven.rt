// Which of the first seven positions are live.
ghost use Rattle.std.specs.Prelude.{◌≡◌, false, slice_index_or};
ghost use Rattle.ring.specs.Searches.{count};
ghost use Rattle.image.specs.Sevens.{FirstOf};

use ring::Position;

// How many of seven are true. Counted one by one, as `lookup` counts its sectors, and for the same reason.
pub fn how_many(front: [bool; 7]) -> u16
    ensures { result ≡ count (λ j. slice_index_or front j false) 7 }
{
    let mut n = 0;
    for live in &front {
        if *live {
            n += 1;
        }
    }
    n
}

// The first of seven that is true.
pub fn first_of(front: [bool; 7]) -> Option<Position>
    ensures { FirstOf (λ j. slice_index_or front j false) result }
{
    match front.iter().position(|live| *live) {
        Some(first) => Some(Position(first as u16)),
        None => None,
    }
}
