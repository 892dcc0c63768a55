#![tactic(auto)]
// A script of batches for a small volume, and what its sectors hold after each of them.

// The volume: seven sectors on a ring of five blocks, with a label and one tally block before it.
pub const SECTORS: u16 = 7;

pub const BLOCKS: usize = 7;

// The batches of the script.
pub const BATCHES: u8 = 14;

// How a batch ends: it is closed or dropped, or the volume is started again.
#[derive(Clone, Copy)]
pub enum End {
    Close,
    Drop,
    Start,
}

// A batch: the puts it is opened for, those it makes, and its end.
#[derive(Clone, Copy)]
pub struct Batch {
    pub limit: u16,
    pub puts: u8,
    pub end: End,
}

// A batch that is closed.
fn full(limit: u16, puts: u8) -> Batch {
    Batch {
        limit,
        puts,
        end: End::Close,
    }
}

// The batches one after another: seven kinds in turn, with 35 puts in all.
pub fn batch_at(batch: u8) -> Batch {
    match batch % 7 {
        0 => full(5, 5),
        1 => Batch {
            limit: 3,
            puts: 2,
            end: End::Drop,
        },
        2 => full(7, 7),
        3 => full(1, 1),
        4 => Batch {
            limit: 14,
            puts: 6,
            end: End::Start,
        },
        5 => full(2, 0),
        _ => full(14, 14),
    }
}

// The sector of a put. Sectors 4 to 6 are seldom written, so that reclaims have something to copy.
pub fn sector_of(batch: u8, put: u8) -> u16 {
    let sector = match batch {
        0 => put % 5 + 2,
        3 => 5,
        _ => (batch % 7 * 5 + put % 7 * 3) % 4,
    };
    u16::from(sector)
}

// The byte that its page is filled with: another one for each put.
pub fn byte_of(batch: u8, put: u8) -> u8 {
    batch % 15 * 16 + put % 15 + 1
}

// What the sectors hold: the byte of the page, or none for one that is not written.
pub type Ledger = [Option<u8>; 7];

// Notes what a batch holds once it is closed.
pub fn note_batch(ledger: &mut [Option<u8>], batch: u8, puts: u8) {
    for put in 0..puts {
        if let Some(held) = ledger.get_mut(usize::from(sector_of(batch, put))) {
            *held = Some(byte_of(batch, put));
        }
    }
}

#[cfg(test)]
mod tests;
