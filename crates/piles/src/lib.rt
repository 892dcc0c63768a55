#![tactic(auto)]
// Piles of layers: what is built of chips is a chip.
ghost use Rattle.std.specs.Prelude.{◌≡◌};

use chip::{Block, Chip};
use layers::joint::Joint;
use layers::window::Window;
use volume::Volume;

// A window on a joint of a window and a chip.
pub type Pile<A, B> = Window<Joint<Window<A>, B>>;

// The blocks of `front` but the first, then those of `back`; of all these, `count` from the second on.
pub fn pile<A: Chip, B: Chip>(front: A, back: B, count: u16) -> Pile<A, B>
    ensures front { (result.chip.front.chip ≡ front) × ((result.chip.front.first.0 ≡ 1) × (result.chip.front.count ≡ 65535)) }
    ensures back { result.chip.back ≡ back }
    ensures window { (result.first.0 ≡ 1) × (result.count ≡ count) }
{
    let behind = Window::new(front, Block(1), u16::MAX);
    Window::new(Joint::new(behind, back), Block(1), count)
}

// A volume on such a pile: that it is a chip takes no more words.
pub fn volume_on<A: Chip, B: Chip>(front: A, back: B, count: u16) -> Volume<Pile<A, B>>
    ensures { (result.engine.chip.chip.front.chip ≡ front) × ((result.engine.chip.chip.back ≡ back) × (result.engine.chip.count ≡ count)) }
{
    Volume::new(pile(front, back, count))
}

#[cfg(test)]
mod tests;
