// What the flags of a slot say of its group.
ghost use Rattle.std.specs.Prelude.{◌≡◌, if◌then◌else◌};
ghost use Rattle.ring.specs.Logs.{closes, ends};

use ring::flags::{closes_group, ends_group};

// Whether a slot counts, where `counting` says it of the slot behind it.
pub fn group_counts(flags: u8, counting: bool) -> bool
    ensures { result ≡ (if ends flags then closes flags else counting) }
{
    if ends_group(flags) {
        closes_group(flags)
    } else {
        counting
    }
}
