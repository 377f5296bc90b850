// The list of changes: offset, old byte and new byte of each.
ghost use Rattle.std.specs.Prelude.{◌≡◌, [], ◌∷◌, ◌++◌, ◌+◌, ◌≤◌, length, drop};
ghost use Rattle.std.proofs.lemmas.List.Edits.{sets};
ghost use Rattle.mending.specs.Mend.{changes_from};

// One change, at a place of the list.
fn put_change(list: &mut [u32], place: usize, offset: u32, old: u32, new: u32)
    requires { place + 3 ≤ length list.old }
    ensures { list.new ≡ sets list.old place (offset ∷ old ∷ new ∷ []) }
{
    list[place] = offset;
    list[place + 1] = old;
    list[place + 2] = new;
}

// The changes of an item at an offset, at the start of the output; and how many numbers they are.
pub fn list_changes(old: &[u8], new: &[u8], at: u32, list: &mut [u32]) -> usize
    requires { (length new.now ≡ length old.now) × (length old.now ≤ 65535) × (at ≤ 65535) × (length (changes_from at old.now new.now) ≤ length list.old) }
    ensures value { result ≡ length (changes_from at old.now new.now) }
    ensures list_after { list.new ≡ changes_from at old.now new.now ++ drop result list.old }
{
    let mut count: usize = 0;
    for (i, was) in old.iter().enumerate() {
        if *was != new[i] {
            put_change(
                list,
                count,
                at + i as u32,
                u32::from(*was),
                u32::from(new[i]),
            );
            count += 3;
        }
    }
    count
}
