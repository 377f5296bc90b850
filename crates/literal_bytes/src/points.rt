// The point of a numeric literal.
ghost use Rattle.std.specs.Prelude.{◌≡◌};
ghost use Rattle.spelling.specs.Literals.{point_place};

// The place of the first point, or the length.
#[tactic(auto, using(crate::proofs::Parting::place_here))]
pub fn point_place(word: &[u8]) -> usize
    ensures { result ≡ point_place word.now }
{
    for (i, b) in word.iter().enumerate() {
        if *b == b'.' {
            return i;
        }
    }
    word.len()
}
