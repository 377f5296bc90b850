// Words with one space between.
ghost use Rattle.std.specs.Prelude.{◌≡◌, map, ◌≤◌, length};
ghost use Rattle.naming.specs.Named.{known_at};
ghost use Rattle.spelling.specs.Printing.{word_of, spaced, printed};
ghost use Rattle.literal_bytes.specs.Written.{written_over};
ghost use Rattle.printer.specs.Prints.{AllPrintable};

use crate::tokens::{put_token, token_size};

// The number of bytes of the words with a space before each.
fn spaced_size(
    description: &[u8],
    places: &[u32],
    items: usize,
    literals: &[u32],
    bytes: &[u8],
    tokens: &[u32],
) -> usize
    requires { AllPrintable description.now items places.now literals.now bytes.now tokens.now }
    ensures { result ≡ length (spaced (map (word_of (known_at description.now items places.now) literals.now bytes.now) tokens.now)) }
{
    let mut n: usize = 0;
    for token in tokens {
        n += 1 + token_size(description, places, items, literals, bytes, *token);
    }
    n
}

pub fn line_size(
    description: &[u8],
    places: &[u32],
    items: usize,
    literals: &[u32],
    bytes: &[u8],
    tokens: &[u32],
) -> usize
    requires { (1 ≤ length tokens.now) × AllPrintable description.now items places.now literals.now bytes.now tokens.now }
    ensures { result ≡ length (printed (known_at description.now items places.now) literals.now bytes.now tokens.now) }
{
    spaced_size(description, places, items, literals, bytes, tokens) - 1
}

// The words with a space before each.
fn put_spaced(
    description: &[u8],
    places: &[u32],
    items: usize,
    literals: &[u32],
    bytes: &[u8],
    tokens: &[u32],
    out: &mut [u8],
)
    requires all_printable { AllPrintable description.now items places.now literals.now bytes.now tokens.now }
    requires tokens_in_bounds { length (spaced (map (word_of (known_at description.now items places.now) literals.now bytes.now) tokens.now)) ≤ length out.old }
    ensures { out.new ≡ written_over (spaced (map (word_of (known_at description.now items places.now) literals.now bytes.now) tokens.now)) out.old }
{
    let mut n: usize = 0;
    for token in tokens {
        out[n] = b' ';
        n += 1;
        put_token(
            description,
            places,
            items,
            literals,
            bytes,
            *token,
            &mut out[n..],
        );
        n += token_size(description, places, items, literals, bytes, *token);
    }
}

pub fn put_line(
    description: &[u8],
    places: &[u32],
    items: usize,
    literals: &[u32],
    bytes: &[u8],
    tokens: &[u32],
    out: &mut [u8],
)
    requires in_bounds { (1 ≤ length tokens.now) × AllPrintable description.now items places.now literals.now bytes.now tokens.now }
    requires tokens_in_bounds { length (printed (known_at description.now items places.now) literals.now bytes.now tokens.now) ≤ length out.old }
    ensures { out.new ≡ written_over (printed (known_at description.now items places.now) literals.now bytes.now tokens.now) out.old }
{
    let token = tokens[0];
    let n = token_size(description, places, items, literals, bytes, token);
    put_token(description, places, items, literals, bytes, token, out);
    put_spaced(
        description,
        places,
        items,
        literals,
        bytes,
        &tokens[1..],
        &mut out[n..],
    );
}
