// The calls on what is lent: a line for each answer, with the whole output of expand and plan, which held 7 everywhere.
ghost use Rattle.std.specs.Prelude.{◌≡◌};
ghost use Rattle.rules.specs.Calls.{expand_gives, plan_gives, Leaves};
ghost use Rattle.cases.specs.Plans.{lent_in, tokens_in, plan_kept, planned_in};

use crate::print;
use crate::store::{ITEMS, LITERALS, NAMES, PLAN, TOKENS, keep, part, switches};
use fronts::front;
use tables::Refusal;

// The most numbers of an output.
const ROOM: usize = 700;

fn expand_in(store: &[u32], bytes: &[u8], output: &mut [u32]) -> Result<usize, Refusal>
    ensures { Leaves (expand_gives (lent_in store.now bytes.now) (tokens_in store.now) output.old) result output.new }
{
    let items = part(store, ITEMS);
    let literals = part(store, LITERALS);
    let names = part(store, NAMES);
    let tokens = part(store, TOKENS);
    forms::calls::expand(items, literals, bytes, names, tokens, output)
}

pub(crate) fn expand(rt: &impl Print, store: &[u32], bytes: &[u8], room: usize) {
    let mut output = [7u32; ROOM];
    if room <= ROOM {
        let lent = &mut output[0..room];
        let given = expand_in(store, bytes, lent);
        print::written(rt, b"expand in ", given, lent);
    }
}

fn plan_in(store: &[u32], bytes: &[u8], output: &mut [u32]) -> Result<usize, Refusal>
    ensures { Leaves (plan_gives (lent_in store.now bytes.now) (tokens_in store.now) output.old) result output.new }
{
    let items = part(store, ITEMS);
    let literals = part(store, LITERALS);
    let names = part(store, NAMES);
    let tokens = part(store, TOKENS);
    forms::calls::plan(items, literals, bytes, names, tokens, output)
}

// What is written is the plan to run from now on.
fn plan_kept(rt: &impl Print, store: &mut [u32], bytes: &[u8], output: &mut [u32])
    ensures { (store.new ≡ plan_kept store.old (plan_gives (lent_in store.old bytes.now) (tokens_in store.old) output.old)) × (output.new ≡ (plan_gives (lent_in store.old bytes.now) (tokens_in store.old) output.old).output) }
{
    let given = plan_in(store, bytes, output);
    print::written(rt, b"plan in ", given, output);
    if let Ok(n) = given {
        keep(store, PLAN, front(output, n));
    }
}

pub(crate) fn plan(rt: &impl Print, store: &mut [u32], bytes: &[u8], room: usize)
    ensures { store.new ≡ planned_in store.old bytes.now room }
{
    let mut output = [7u32; ROOM];
    if room <= ROOM {
        plan_kept(rt, store, bytes, &mut output[0..room]);
    }
}

pub(crate) fn judge<'a>(rt: &impl Print, store: &[u32], bytes: &'a [u8], record: &'a [u8]) {
    let items = part(store, ITEMS);
    let literals = part(store, LITERALS);
    let names = part(store, NAMES);
    let tokens = part(store, TOKENS);
    let given = conditions::calls::judge(
        items,
        literals,
        bytes,
        names,
        tokens,
        record,
        switches(store),
    );
    print::judged(rt, b"judge: ", given);
}

pub(crate) fn run<'a>(rt: &impl Print, store: &[u32], bytes: &'a [u8], record: &'a [u8]) {
    let items = part(store, ITEMS);
    let literals = part(store, LITERALS);
    let names = part(store, NAMES);
    let plan = part(store, PLAN);
    let given = conditions::calls::run(
        items,
        literals,
        bytes,
        names,
        plan,
        record,
        switches(store),
    );
    print::judged(rt, b"run: ", given);
}

// All four; run only where there is a plan.
pub(crate) fn all<'a>(
    rt: &impl Print,
    store: &mut [u32],
    bytes: &'a [u8],
    record: &'a [u8],
    room: usize,
)
    ensures { store.new ≡ planned_in store.old bytes.now room }
{
    expand(rt, store, bytes, room);
    plan(rt, store, bytes, room);
    judge(rt, store, bytes, record);
    if part(store, PLAN).len() > 0 {
        run(rt, store, bytes, record);
    }
}
