// Ranges of a chip, compared.
ghost use Rattle.std.specs.Prelude.{◌≡◌, ◌+◌, true, length, slice_index};
ghost use Rattle.chip.specs.Ranges.{Tells, Within};
ghost use Rattle.image.specs.Bytes.{Over};

use chip::{Block, Chip, PAGE, fetch};

// Whether each byte of `upper` shows a 1 wherever that of `lower` does.
fn is_over(upper: &[u8], lower: &[u8]) -> bool
    requires { length upper.now ≡ length lower.now }
    ensures { Tells result (Over (λ k. slice_index upper.now k) (λ k. slice_index lower.now k) (length lower.now)) }
{
    upper
        .iter()
        .zip(lower)
        .all(|(above, below)| above & below == *below)
}

// The same of so many bytes of two blocks, each from an offset on, as `fetch` takes them.
pub fn range_is_over<C: Chip, const N: usize>(
    chip: &mut C,
    upper: Block,
    lower: Block,
    up: usize,
    low: usize,
) -> bool
    requires power { (C.flash chip.old).on ≡ true }
    requires above { Within (C.flash chip.old).blocks upper.0 up N N }
    requires below { Within (C.flash chip.old).blocks lower.0 low N N }
    ensures tells { Tells result (Over (λ k. (C.flash chip.old).byte upper.0 (up + k)) (λ k. (C.flash chip.old).byte lower.0 (low + k)) N) }
    ensures keeps { C.flash chip.new ≡ C.flash chip.old }
{
    let above = fetch::<C, N>(chip, upper, up);
    let below = fetch::<C, N>(chip, lower, low);
    is_over(&above, &below)
}

// The bytes of a page that are compared at a time: both pages whole would take a kibibyte of memory.
const CHUNK: usize = 64;

// The same of two pages.
pub fn page_is_over<C: Chip>(
    chip: &mut C,
    upper: Block,
    lower: Block,
    up: usize,
    low: usize,
) -> bool
    requires power { (C.flash chip.old).on ≡ true }
    requires above { Within (C.flash chip.old).blocks upper.0 up 512 512 }
    requires below { Within (C.flash chip.old).blocks lower.0 low 512 512 }
    ensures tells { Tells result (Over (λ k. (C.flash chip.old).byte upper.0 (up + k)) (λ k. (C.flash chip.old).byte lower.0 (low + k)) 512) }
    ensures keeps { C.flash chip.new ≡ C.flash chip.old }
{
    for i in 0..PAGE / CHUNK {
        let at = i * CHUNK;
        if !range_is_over::<C, CHUNK>(chip, upper, lower, up + at, low + at) {
            return false;
        }
    }
    true
}
