// The expanded form, part by part: a word that stays as it is, or a simple condition with its omitted tokens inserted.
ghost use Rattle.std.specs.Prelude.{◌≡◌, ◌++◌, ◌≤◌, ◌<◌, length, drop};
ghost use Rattle.grammar.specs.Expanded.{stated, full_form};
ghost use Rattle.simples.specs.Reads.{carry_of, Reads};
ghost use Rattle.expander.specs.Spelled.{part, spelled};

use content::relations::NEGATED;
use simples::simple::{read_object, read_simple};
use simples::words::{is_order, peek};
use simples::{Carried, Single};
use tables::tokens::FIRST_WORD;
use tables::words::{AND, CLOSE, NOT, OPEN, OR};

// The words of a relation, at the start of the output; and how many there are.
fn write_relation(out: &mut [u32], relation: u32) -> usize
    requires { (relation < 64) × (length (stated relation) ≤ length out.old) }
    ensures value { result ≡ length (stated relation) }
    ensures out_after { out.new ≡ stated relation ++ drop result out.old }
{
    if relation < NEGATED {
        out[0] = FIRST_WORD + relation;
        return 1;
    }
    out[0] = NOT;
    out[1] = FIRST_WORD + (relation - NEGATED);
    2
}

// A simple condition in full, at the start of the output; and its length. A token without a relation stands alone.
fn write_simple(out: &mut [u32], subject: u32, relation: u32, object: u32) -> usize
    requires { (relation < 64) × (length (full_form subject relation object) ≤ length out.old) }
    ensures value { result ≡ length (full_form subject relation object) }
    ensures out_after { out.new ≡ full_form subject relation object ++ drop result out.old }
{
    out[0] = subject;
    if relation == 0 {
        return 1;
    }
    let end = 1 + write_relation(&mut out[1..], relation);
    if relation % 32 < 10 {
        out[end] = object;
        return end + 1;
    }
    end
}

// A word that stays as it is: a token alone, with the carry that it leaves.
fn copied(token: u32, next: usize, carry: Carried) -> Single
    ensures { result ≡ record { subject = token; relation = 0; object = 0; next = next; carry = carry } }
{
    Single {
        subject: token,
        relation: 0,
        object: 0,
        next,
        carry,
    }
}

// The next part. NOT before > < = belongs to the relation, where one is carried; any other NOT here is logical.
fn read_part(tokens: &[u32], at: usize, carry: Carried) -> Result<Single, usize>
    requires { at ≤ length tokens.now }
    ensures { Reads (part (carry_of carry)) 1 tokens.now at result }
{
    let here = peek(tokens, at);
    if (here == OPEN) | (here == CLOSE) {
        let nothing = Carried {
            subject: 0,
            relation: 0,
        };
        return Ok(copied(here, at + 1, nothing));
    }
    if (here == AND) | (here == OR) {
        return Ok(copied(here, at + 1, carry));
    }
    let relation = carry.relation;
    if here == NOT {
        let after = peek(tokens, at + 1);
        if is_order(after) & (relation != 0) {
            return read_object(tokens, at + 2, carry.subject, after - FIRST_WORD + NEGATED);
        }
        return Ok(copied(here, at + 1, carry));
    }
    if is_order(here) & (relation != 0) {
        return read_object(tokens, at + 1, carry.subject, here - FIRST_WORD);
    }
    read_simple(tokens, at, carry)
}

// The expanded form, at the start of the output; and its length.
pub fn write_expanded(tokens: &[u32], out: &mut [u32]) -> usize
    requires { length (spelled tokens.now) ≤ length out.old }
    ensures value { result ≡ length (spelled tokens.now) }
    ensures out_after { out.new ≡ spelled tokens.now ++ drop result out.old }
{
    let mut at = 0;
    let mut written = 0;
    let mut carry = Carried {
        subject: 0,
        relation: 0,
    };
    // The next place depends on what is read.
    while at < tokens.len() {
        let Ok(single) = read_part(tokens, at, carry) else {
            return written;
        };
        written += write_simple(
            &mut out[written..],
            single.subject,
            single.relation,
            single.object,
        );
        at = single.next;
        carry = single.carry;
    }
    written
}
