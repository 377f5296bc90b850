// The word of a field: a byte for each digit, the last digit lowest.
ghost use Rattle.std.specs.Prelude.{◌≡◌, [], ◌∷◌, ◌-◌, ◌*◌, ◌^◌, ◌≤◌, ◌<◌, length, take, drop};
ghost use Rattle.byte_words.specs.Words.{word_from, digit_of, digit_word};

// Eight bytes as one word. Written flat, with the bytes read one after another, it is one load.
fn join(a: u8, b: u8, c: u8, d: u8, e: u8, f: u8, g: u8, h: u8) -> u64
    ensures { result ≡ word_from 0 (a ∷ b ∷ c ∷ d ∷ e ∷ f ∷ g ∷ h ∷ []) }
{
    (a as u64) << 56
        | (b as u64) << 48
        | (c as u64) << 40
        | (d as u64) << 32
        | (e as u64) << 24
        | (f as u64) << 16
        | (g as u64) << 8
        | h as u64
}

// The word of the 8 bytes before an end.
pub fn word_before(bytes: &[u8], end: usize) -> u64
    requires { (8 ≤ end) × (end ≤ length bytes.now) }
    ensures { result ≡ word_from 0 (take 8 (drop (end - 8) bytes.now)) }
{
    let at = end - 8;
    join(
        bytes[at],
        bytes[at + 1],
        bytes[at + 2],
        bytes[at + 3],
        bytes[at + 4],
        bytes[at + 5],
        bytes[at + 6],
        bytes[at + 7],
    )
}

// The bits of a field's bytes, which are a word's last.
pub fn mask(size: usize) -> u64
    requires { (1 ≤ size) × (size ≤ 8) }
    ensures { result ≡ 2 ^ (8 * size) - 1 }
{
    0xffffffffffffffff >> (64 - 8 * size)
}

// The word of a field that ends at a place which has 8 bytes before it, in the field or not.
pub fn field_word(bytes: &[u8], end: usize, size: usize) -> u64
    requires le_end { (8 ≤ end) × (end ≤ length bytes.now) }
    requires le_size { (1 ≤ size) × (size ≤ 8) }
    ensures { result ≡ digit_word (take size (drop (end - size) bytes.now)) }
{
    (word_before(bytes, end) ^ 0x3030303030303030) & mask(size)
}

fn digit_of(b: u8) -> u64
    ensures { (result ≡ digit_of b) × (result < 256) }
{
    u64::from(b ^ 0x30)
}

// The word of a field's first 4 bytes, flat as well.
fn first_four(bytes: &[u8]) -> u64
    requires { 4 ≤ length bytes.now }
    ensures { result ≡ digit_word (take 4 bytes.now) }
{
    join(0, 0, 0, 0, bytes[0], bytes[1], bytes[2], bytes[3]) ^ 0x30303030
}

// What is left of a field after the word of its first bytes, byte by byte.
fn longer_word(bytes: &[u8], from: usize, first: u64) -> u64
    requires { (from ≤ length bytes.now) × (length bytes.now ≤ 8) × (first ≡ digit_word (take from bytes.now)) }
    ensures { result ≡ digit_word bytes.now }
{
    let mut word = first;
    for b in &bytes[from..] {
        word = word * 256 + digit_of(*b);
    }
    word
}

// The same of a field that may have fewer than 8 bytes before its end, as a part of a record or a literal.
pub fn short_word(bytes: &[u8]) -> u64
    requires { length bytes.now ≤ 8 }
    ensures { result ≡ digit_word bytes.now }
{
    if 4 <= bytes.len() {
        return longer_word(bytes, 4, first_four(bytes));
    }
    longer_word(bytes, 0, 0)
}
