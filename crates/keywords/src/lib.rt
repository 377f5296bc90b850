// Words that are no names.
#![tactic(auto)]

ghost use Rattle.std.specs.Prelude.{◌≡◌, [], ◌∷◌};
ghost use Rattle.description.specs.Grammar.{same, within, keywords};
ghost use Rattle.keywords.specs.Initials.{beginning};

pub fn same_bytes(a: &[u8], b: &[u8]) -> bool
    ensures { result ≡ same a.now b.now }
{
    a == b
}

fn either(w: &[u8], a: &[u8], b: &[u8]) -> bool
    ensures { result ≡ within w.now (a.now ∷ b.now ∷ []) }
{
    same_bytes(w, a) | same_bytes(w, b)
}

fn one_of_four(w: &[u8], a: &[u8], b: &[u8], c: &[u8], d: &[u8]) -> bool
    ensures { result ≡ within w.now (a.now ∷ b.now ∷ c.now ∷ d.now ∷ []) }
{
    either(w, a, b) | either(w, c, d)
}

// The first byte tells which keywords a word may be.
pub fn is_keyword(w: &[u8]) -> bool
    ensures { result ≡ within w.now keywords }
{
    if w.len() == 0 {
        return false;
    }
    let b = w[0];
    match b {
        b'A' => keyword_a(w),
        b'C' => same_bytes(w, b"COMP-3"),
        b'E' => same_bytes(w, b"EQUAL"),
        b'F' => same_bytes(w, b"FILLER"),
        b'G' => same_bytes(w, b"GREATER"),
        b'I' => same_bytes(w, b"IS"),
        b'L' => keyword_l(w),
        b'N' => keyword_n(w),
        b'O' => same_bytes(w, b"OR"),
        b'P' => keyword_p(w),
        b'S' => keyword_s(w),
        b'T' => keyword_t(w),
        b'U' => keyword_u(w),
        b'V' => same_bytes(w, b"VALUE"),
        b'Z' => same_bytes(w, b"ZERO"),
        _ => false,
    }
}

fn keyword_a(w: &[u8]) -> bool
    ensures { result ≡ within w.now (beginning 0x41 keywords) }
{
    one_of_four(
        w,
        b"AND",
        b"ALPHABETIC",
        b"ALPHABETIC-LOWER",
        b"ALPHABETIC-UPPER",
    )
}

fn keyword_l(w: &[u8]) -> bool
    ensures { result ≡ within w.now (beginning 0x4c keywords) }
{
    either(w, b"LEADING", b"LESS")
}

fn keyword_n(w: &[u8]) -> bool
    ensures { result ≡ within w.now (beginning 0x4e keywords) }
{
    either(w, b"NOT", b"NUMERIC") | same_bytes(w, b"NEGATIVE")
}

fn keyword_p(w: &[u8]) -> bool
    ensures { result ≡ within w.now (beginning 0x50 keywords) }
{
    either(w, b"PIC", b"POSITIVE")
}

fn keyword_s(w: &[u8]) -> bool
    ensures { result ≡ within w.now (beginning 0x53 keywords) }
{
    either(w, b"SIGN", b"SEPARATE")
}

fn keyword_t(w: &[u8]) -> bool
    ensures { result ≡ within w.now (beginning 0x54 keywords) }
{
    one_of_four(w, b"TRAILING", b"THRU", b"THAN", b"TO")
}

fn keyword_u(w: &[u8]) -> bool
    ensures { result ≡ within w.now (beginning 0x55 keywords) }
{
    one_of_four(w, b"UPSI-0", b"UPSI-1", b"UPSI-2", b"UPSI-3")
        | one_of_four(w, b"UPSI-4", b"UPSI-5", b"UPSI-6", b"UPSI-7")
}
