// A block of records goes through a plan: the least row at which one stands is judged for all that stand there.
ghost use Rattle.std.specs.Prelude.{◌≡◌, length};
ghost use Rattle.tables.specs.Operands.{lend_names};
ghost use Rattle.blocks.specs.Blocks.{place_of, Placed, Walkable, Walked};

use block_rows::judge_row;
use block_truths::Block;
use places::{AT_FALSE, AT_TRUE, advance, fill, least, start};
use plan_rows::rows::plan_row;
use plans::Target;

// The place of a target.
fn place_of(target: u32) -> u8
    requires { Placed target }
    ensures { result ≡ place_of target }
{
    if target == Target::TRUE {
        return AT_TRUE;
    }
    if target == Target::FALSE {
        return AT_FALSE;
    }
    target as u8
}

// From row to row, until no record of the first n stands at a row. The least row rises.
pub fn walk_block<'a>(
    items: &[u32],
    literals: &[u32],
    bytes: &'a [u8],
    names: &[u32],
    plan: &[u32],
    records: &'a [u8],
    block: Block,
    switches: u8,
    at: &mut [u8],
    counts: &mut [u8],
)
    requires walkable { Walkable (lend_names items.now literals.now bytes.now names.now) plan.now records.now block.from block.size block.n }
    requires at_len { (length at.old ≡ 64) × (length counts.old ≡ 64) }
    ensures { Walked (lend_names items.now literals.now bytes.now names.now) plan.now records.now block.from block.size block.n switches at.new counts.new }
{
    let rows = (plan.len() / 5) as u8;
    start(at, block.n);
    fill(counts, 0);
    let mut truths = [0u8; 64];
    let mut row = least(at);
    // Which row comes next depends on where the records stand.
    while row < rows {
        let condition = plan_row(plan, row as usize);
        judge_row(
            items,
            literals,
            bytes,
            names,
            records,
            block,
            switches,
            condition,
            at,
            row,
            &mut truths,
        );
        let holds = place_of(condition.holds);
        let fails = place_of(condition.fails);
        advance(at, counts, &truths, row, holds, fails);
        row = least(at);
    }
}
