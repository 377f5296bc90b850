// One simple condition, resolved by what is carried.
ghost use Rattle.std.specs.Prelude.{◌≡◌, ◌+◌, ◌≤◌, ◌<◌, length};
ghost use Rattle.grammar.specs.Parser.{object, after_operand, parse_simple};
ghost use Rattle.simples.specs.Reads.{carry_of, Reads, Settled};

use crate::words::{is_bound, is_name, is_operand, is_order, is_switch, is_test, peek};
use crate::{Carried, Single};
use content::relations::NEGATED;
use tables::tokens::FIRST_WORD;
use tables::words::NOT;

// The object of a relation that has been read: the full relation, or the one that is stated, is carried on.
pub fn read_object(tokens: &[u32], at: usize, subject: u32, relation: u32) -> Result<Single, usize>
    requires { (at ≤ length tokens.now) × (0 < relation) }
    ensures reads { Reads (object subject relation) 1 tokens.now at result }
    ensures settled { Settled result }
{
    let token = peek(tokens, at);
    if is_operand(token) {
        return Ok(Single {
            subject,
            relation,
            object: token,
            next: at + 1,
            carry: Carried { subject, relation },
        });
    }
    Err(at)
}

// A class or sign word, a switch or a condition-name has been read: it drops the carry.
fn tested(subject: u32, relation: u32, next: usize) -> Single
    ensures { result ≡ record { subject = subject; relation = relation; object = 0; next = next; carry = record { subject = 0; relation = 0 } } }
{
    Single {
        subject,
        relation,
        object: 0,
        next,
        carry: Carried {
            subject: 0,
            relation: 0,
        },
    }
}

// What follows an operand, which is a subject if a relation or a class or sign word follows, else an object.
fn after_operand(tokens: &[u32], at: usize, carry: Carried, operand: u32) -> Result<Single, usize>
    requires { at ≤ length tokens.now }
    ensures reads { Reads (after_operand (carry_of carry) operand) 0 tokens.now at result }
    ensures settled { Settled result }
{
    let word = peek(tokens, at);
    if is_order(word) | is_bound(word) {
        return read_object(tokens, at + 1, operand, word - FIRST_WORD);
    }
    if is_test(word) {
        return Ok(tested(operand, word - FIRST_WORD, at + 1));
    }
    if word == NOT {
        let stated = peek(tokens, at + 1);
        if is_order(stated) {
            return read_object(tokens, at + 2, operand, stated - FIRST_WORD + NEGATED);
        }
        if is_test(stated) {
            return Ok(tested(operand, stated - FIRST_WORD + NEGATED, at + 2));
        }
        return Err(at + 1);
    }
    let relation = carry.relation;
    if relation == 0 {
        return Err(at);
    }
    Ok(Single {
        subject: carry.subject,
        relation,
        object: operand,
        next: at,
        carry,
    })
}

// A simple condition, but for one that begins with > < = or with NOT before these.
pub fn read_simple(tokens: &[u32], at: usize, carry: Carried) -> Result<Single, usize>
    requires { at ≤ length tokens.now }
    ensures reads { Reads (parse_simple (carry_of carry)) 1 tokens.now at result }
    ensures settled { Settled result }
{
    let token = peek(tokens, at);
    if is_operand(token) {
        return after_operand(tokens, at + 1, carry, token);
    }
    if is_switch(token) {
        return Ok(tested(token, 0, at + 1));
    }
    if is_name(token) {
        return Ok(tested(token, 0, at + 1));
    }
    let relation = carry.relation;
    if is_bound(token) & (relation != 0) {
        return read_object(tokens, at + 1, carry.subject, token - FIRST_WORD);
    }
    Err(at)
}
