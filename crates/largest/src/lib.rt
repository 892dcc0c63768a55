#![tactic(auto)]
// Images that are too large to store, built in code.
use chip::BLOCK;

// The largest volume: a label, eight tally blocks and 4,096 ring blocks.
pub const BLOCKS: usize = 4105;

// Sets a byte of an image, if it is there.
pub fn set_byte(image: &mut [u8], at: usize, byte: u8) {
    if let Some(place) = image.get_mut(at) {
        *place = byte;
    }
}

// Writes a descriptor and the first byte of a page into a slot of the largest volume.
pub fn set_slot(image: &mut [u8], slot: usize, flags: u8, sector: u16, first: u8) {
    let block = (9 + slot % 28672 / 7) * BLOCK;
    let at = slot % 7;
    let [low, high] = sector.to_le_bytes();
    set_byte(image, block + 4 * at, flags);
    set_byte(image, block + 4 * at + 1, low);
    set_byte(image, block + 4 * at + 2, high);
    set_byte(image, block + 512 * (at + 1), first);
}

// Clears the first bits of the tally, eight at a time.
pub fn clear_bytes(image: &mut [u8], bytes: usize) {
    for byte in image.iter_mut().skip(BLOCK).take(bytes) {
        *byte = 0;
    }
}

#[cfg(test)]
mod tests;
