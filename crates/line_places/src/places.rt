// Where a byte stands in a text: what is before it gives its line and column, what follows gives where its line ends.
ghost use Rattle.std.specs.Prelude.{◌≡◌};
ghost use Rattle.line_places.specs.Places.{line_number, line_start, line_rest, after_ink};

// The number of the line that comes after so much text, from 1 on.
pub fn line_number(before: &[u8]) -> usize
    ensures { result ≡ line_number before.now }
{
    let mut line: usize = 1;
    for byte in before {
        if *byte == 0x0A {
            line += 1;
        }
    }
    line
}

// Where that line starts.
pub fn line_start(before: &[u8]) -> usize
    ensures { result ≡ line_start before.now }
{
    let mut start: usize = 0;
    for (i, byte) in before.iter().enumerate() {
        if *byte == 0x0A {
            start = i + 1;
        }
    }
    start
}

// How many bytes of the line are left: up to its line feed, or all.
pub fn line_rest(rest: &[u8]) -> usize
    ensures { result ≡ line_rest rest.now }
{
    // Not `unwrap_or`: a must-fail edit of the place would be refused for a name alone, and not for the value.
    match rest.iter().position(|byte| *byte == 0x0A) {
        Some(i) => i,
        None => rest.len(),
    }
}

// What follows the characters with ink: the end of a word, or what nobody sees in it.
pub fn after_ink(rest: &[u8]) -> u8
    ensures { result ≡ after_ink rest.now }
{
    rest.iter()
        .copied()
        .find(|byte| *byte < 0x21 || 0x7E < *byte)
        .unwrap_or(0x0A)
}
