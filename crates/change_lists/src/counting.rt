// How long the list of changes is.
ghost use Rattle.std.specs.Prelude.{◌≡◌, ◌≤◌, length};
ghost use Rattle.mending.specs.Mend.{changes_from};

// How many numbers the list of changes of an item has.
pub fn count_changes(old: &[u8], new: &[u8], at: usize) -> usize
    requires { (length new.now ≡ length old.now) × (length old.now ≤ 65535) }
    ensures { result ≡ length (changes_from at old.now new.now) }
{
    let mut count: usize = 0;
    for (i, was) in old.iter().enumerate() {
        if *was != new[i] {
            count += 3;
        }
    }
    count
}
