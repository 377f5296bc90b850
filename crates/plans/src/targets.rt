// The targets of a row: a verdict, or a later row.
ghost use Rattle.std.specs.Prelude.{◌≡◌, cond, ◌<◌};
ghost use Rattle.grammar.specs.Plan.{on_true, on_false};

use crate::Target;

impl Target {
    pub const FALSE: u32 = 65534;

    pub const TRUE: u32 = 65535;

    pub fn verdict(truth: bool) -> Target
        ensures { result.number ≡ cond truth on_true on_false }
    {
        if truth {
            return Target {
                number: Target::TRUE,
            };
        }
        Target {
            number: Target::FALSE,
        }
    }

    pub fn later(row: usize) -> Target
        requires { row < 65534 }
        ensures { result.number ≡ row }
    {
        Target { number: row as u32 }
    }
}
