// Refusals 7 to 9, and the rows of a condition that none of them refuses.
#![tactic(auto)]

ghost use Rattle.std.specs.Prelude.{◌≡◌, [], ◌≤◌, length};
ghost use Rattle.tables.specs.Operands.{lend};
ghost use Rattle.grammar.specs.Depth.{depth_check};
ghost use Rattle.rules.specs.Calls.{earlier};
ghost use Rattle.resolver.specs.Resolved.{parse_check, parsed_tokens, There, Resolves};

use brackets::check_depth;
use parser::cycle::parse;
use refusal_numbers::place_of;
use row_typing::rows::check_typing;
use tables::Refusal;

// Of 7 and 8 the one at the smaller place, and 7 on a tie.
fn earlier_of(parsed: Result<usize, usize>, depth: Result<(), Refusal>) -> Result<(), Refusal>
    ensures { result ≡ earlier (parse_check parsed) depth }
{
    match parsed {
        Ok(_) => depth,
        Err(seven) => match depth {
            Ok(()) => Err(Refusal::Grammar(seven)),
            Err(eight) => {
                if seven <= place_of(eight) {
                    Err(Refusal::Grammar(seven))
                } else {
                    Err(eight)
                }
            }
        },
    }
}

// How many tokens are parsed: no more than the first "(" that makes 17 open, so that the cycle goes no deeper. A 7 beyond it
// would give way to 8.
fn parsed_tokens(tokens: &[u32], depth: Result<(), Refusal>) -> usize
    requires { depth ≡ depth_check tokens.now }
    ensures { (result ≡ parsed_tokens tokens.now depth) × (result ≤ length tokens.now) }
{
    match depth {
        Ok(()) => tokens.len(),
        Err(eight) => place_of(eight) + 1,
    }
}

// 7 to 9, of tokens that 1 to 6 do not refuse: the names do not matter any more. Gives the number of the condition's rows.
pub fn resolve(
    items: &[u32],
    literals: &[u32],
    tokens: &[u32],
    rows: &mut [u32],
) -> Result<usize, Refusal>
    requires { (length tokens.now ≤ 256) × There items.now literals.now tokens.now × (640 ≤ length rows.old) }
    ensures { Resolves (lend items.now literals.now []) tokens.now result rows.old rows.new }
{
    let depth = check_depth(tokens);
    let end = parsed_tokens(tokens, depth);
    let parsed = parse(&tokens[..end], rows);
    earlier_of(parsed, depth)?;
    match parsed {
        Err(at) => Err(Refusal::Grammar(at)),
        Ok(count) => {
            check_typing(items, literals, rows, count)?;
            Ok(count)
        }
    }
}
