// The switch byte numbers its bits from the left: switch 0 is hex 80.
ghost use Rattle.std.specs.Prelude.{◌≡◌, ◌≤◌};
ghost use Rattle.compare.specs.Switches.{switch_on};

pub fn switch_on(switches: u8, v: u32) -> bool
    requires { v ≤ 7 }
    ensures { result ≡ switch_on switches v }
{
    switches >> (7 - v) & 1 == 1
}
