// Pictures, byte by byte. Counts stop at 131,072: half of it, a packed item's size, is above every limit.
#![tactic(auto)]

mod drawings; // one byte of a picture, and what a picture is where it ends
pub mod scan; // a picture in a text
pub mod tallies; // one byte of a repeated character and its counts

// Of one repeated character: whether the last one stands alone so far, or its count is being read.
#[derive(Debug, Clone, Copy, PartialEq, Eq)]
pub enum Pending {
    Settled,
    Last,
    Counting(u32),
}

#[derive(Debug, Clone, Copy, PartialEq, Eq)]
pub struct Tally {
    pub count: u32,
    pub pending: Pending,
}

// What has been read of a picture: nothing; X or A; 9s before V, signed or not; 9s after it, and how many
// digits stand before.
#[derive(Debug, Clone, Copy, PartialEq, Eq)]
pub enum Drawn {
    Nothing,
    Letters(u8, Tally),
    Whole(bool, Tally),
    Pointed(bool, u32, Tally),
}

// A picture in a text: how many bytes it goes on for, and what has been read of it there.
#[derive(Debug, Clone, Copy, PartialEq, Eq)]
pub struct Sketch {
    pub len: usize,
    pub drawn: Drawn,
}
