// The groups that are open at an entry. `stack` has the level numbers of their members, outermost first;
// `waiting` is one more than the level of a group that has no member yet, or 0.
ghost use Rattle.std.specs.Prelude.{◌≡◌, ◌≤◌, length};
ghost use Rattle.levels.specs.Stack.{entered_by};

// How many groups are open at an entry, where its level may stand.
pub fn enter(stack: &[u32], depth: usize, waiting: u32, level: u32) -> Option<usize>
    requires { depth ≤ length stack.now }
    ensures { result ≡ entered_by stack.now depth waiting level }
{
    if waiting != 0 {
        if (waiting - 1 < level) & (level <= 49) {
            return Some(depth + 1);
        }
        return None;
    }
    if (level == 1) | (level == 77) {
        return Some(0);
    }
    // The innermost of the open groups whose members have this level.
    for d in (0..depth).rev() {
        if stack[d] == level {
            return Some(d + 1);
        }
    }
    None
}
