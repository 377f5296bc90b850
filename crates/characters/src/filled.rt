// Comparison by characters, the shorter side filled on the right with hex 20.
ghost use Rattle.std.specs.Prelude.{◌≡◌, true, ◌≤◌, max, min, length, get_or, take};
ghost use Rattle.content.specs.Content.{unsigned_last};
ghost use Rattle.compare.specs.Compared.{character_order};

use std::cmp::Ordering;

// Character i of a side, whose last byte may hold a sign beside its digit.
fn character_at(bytes: &[u8], signed_last: bool, i: usize) -> u8
    requires { 1 ≤ length bytes.now }
    ensures { result ≡ get_or (unsigned_last signed_last bytes.now) i 0x20 }
{
    if bytes.len() <= i {
        return 0x20;
    }
    if signed_last & (i + 1 == bytes.len()) {
        return 0x30 + bytes[i] % 16;
    }
    bytes[i]
}

fn longer(a: usize, b: usize) -> usize
    ensures { result ≡ max a b }
{
    if a < b {
        return b;
    }
    a
}

fn shorter(a: usize, b: usize) -> usize
    ensures { result ≡ min a b }
{
    if b < a {
        return b;
    }
    a
}

// Whether the first bytes are the same, as many as a block has. The loop has no exit, so that for a constant size it becomes a few compares of
// many bytes each.
fn block_same(left: &[u8], right: &[u8], size: usize) -> bool
    requires { (size ≤ length left.now) × (size ≤ length right.now) }
    ensures { result ≡ true → take size left.now ≡ take size right.now }
{
    let mut same = true;
    for k in 0..size {
        same = same & (left[k] == right[k]);
    }
    same
}

// Where the first block of this size that differs begins, of those from a place on before which all is the same.
fn same_blocks(left: &[u8], right: &[u8], size: usize, from: usize) -> usize
    requires le_size { 1 ≤ size }
    requires from_in_bounds { (from ≤ length left.now) × (from ≤ length right.now) × (take from left.now ≡ take from right.now) }
    ensures { (result ≤ length left.now) × (result ≤ length right.now) × (take result left.now ≡ take result right.now) }
{
    let n = shorter(left.len(), right.len());
    let mut i = from;
    // By place: where the block begins is the answer.
    while size <= n - i {
        if !block_same(&left[i..], &right[i..], size) {
            return i;
        }
        i += size;
    }
    i
}

// The longest blocks first. Most texts that differ do so at once, and there no long block is looked at.
fn same_long(left: &[u8], right: &[u8]) -> usize
    ensures { (result ≤ length left.now) × (result ≤ length right.now) × (take result left.now ≡ take result right.now) }
{
    if shorter(left.len(), right.len()) < 8 {
        return 0;
    }
    if !block_same(left, right, 8) {
        return 0;
    }
    let long = same_blocks(left, right, 256, 0);
    let short = same_blocks(left, right, 32, long);
    same_blocks(left, right, 8, short)
}

// Then byte by byte.
fn same_bytes(left: &[u8], right: &[u8]) -> usize
    ensures { (result ≤ length left.now) × (result ≤ length right.now) × (take result left.now ≡ take result right.now) }
{
    let long = same_long(left, right);
    same_blocks(left, right, 1, long)
}

// How many characters from the left need no look of their own: none where a last byte has a sign, since such a side is short.
fn same_start(left: &[u8], left_signed: bool, right: &[u8], right_signed: bool) -> usize
    ensures { (result ≤ length left.now) × (result ≤ length right.now) × (take result (unsigned_last left_signed left.now) ≡ take result (unsigned_last right_signed right.now)) }
{
    if left_signed | right_signed {
        return 0;
    }
    same_bytes(left, right)
}

pub fn compare_characters(
    left: &[u8],
    left_signed: bool,
    right: &[u8],
    right_signed: bool,
) -> Ordering
    requires { (1 ≤ length left.now) × (1 ≤ length right.now) }
    ensures { result ≡ character_order (unsigned_last left_signed left.now) (unsigned_last right_signed right.now) }
{
    let n = longer(left.len(), right.len());
    let start = same_start(left, left_signed, right, right_signed);
    for i in start..n {
        let x = character_at(left, left_signed, i);
        let y = character_at(right, right_signed, i);
        if x < y {
            return Ordering::Less;
        }
        if y < x {
            return Ordering::Greater;
        }
    }
    Ordering::Equal
}
