//! Operations and replies read from their texts, from left to right.

ghost use Rattle.std.specs.Prelude.{◌≡◌, ◌<◌, ◌≤◌, ◌^◌, ℕ, pos, neg_ℤ, Result, Bool, true, false, List, length, take_while, Ok, IfOk, SomeIff, IsTrue};
ghost use Rattle.std.specs.List.{prefix_len};
ghost use Rattle.std.specs.Str.{all_ascii_digits};
ghost use Rattle.std.specs.Str.Parse.{digits_value};
ghost use Rattle.zy_tuple.specs.Values.{IsOp, IsReply};
ghost use Rattle.zy_tuple.specs.Texts.{op_text, reply_text};
ghost use Rattle.zy_tuple.specs.Reading.{Gives, in_token, is_numeral, int_of, int_at, quoted, short_text, is_plain, begins_field, after_field, fields_at, open_at, space_at, list_at, field_at, slot_at, in_word, tuple_part, template_part, finished, op_read, got_read, reply_read};

use crate::{Field, LineFault, Op, Reply, Slot, Template, Tuple};
use std::alloc::{AllocError, Global};
use zy_base::Bytes;

/// How many fields a tuple or a template may have.
const FIELD_LIMIT: usize = 8;

/// How many bytes a text field may have.
const TEXT_LIMIT: usize = 64;

/// How many bytes of a list are looked at for how much room it may take.
const LOOK_AHEAD: usize = 64;

// What stands between brackets: a field of a tuple or a slot of a template.
trait Item: Sized + Drop {
    ghost item_at: { List ℕ → Result (Self × List ℕ) ℕ };

    fn read<'a>(alloc: Global, line: &'a [u8]) -> Result<(Self, &'a [u8]), LineFault>
        ensures { Gives (λ x. (x.0, x.1.now)) result (item_at line.now) };
}

impl Item for Field {
    ghost item_at = { field_at };

    #[tactic(auto, unfolding(crate::specs::Reading::field_at))]
    fn read<'a>(alloc: Global, line: &'a [u8]) -> Result<(Field, &'a [u8]), LineFault> {
        match line {
            [b'"', text @ ..] => text_of(alloc, text),
            [b'-' | b'0'..=b'9', ..] => number(line),
            [b'*', ..] => Err(LineFault::Rule(7)),
            _ => Err(LineFault::Rule(2)),
        }
    }
}

impl Item for Slot {
    ghost item_at = { slot_at };

    #[tactic(auto, unfolding(crate::specs::Reading::slot_at))]
    fn read<'a>(alloc: Global, line: &'a [u8]) -> Result<(Slot, &'a [u8]), LineFault> {
        let [first, after @ ..] = line else {
            return Err(LineFault::Rule(2));
        };
        if *first == b'*' {
            return Ok((Slot::Any, after));
        }
        let (field, rest) = Field::read(alloc, line)?;
        Ok((Slot::Is(field), rest))
    }
}

// The value of decimal digits.
fn value_of(digits: &[u8]) -> Option<u64>
    ensures { SomeIff result (IsTrue (all_ascii_digits digits.now) × (digits_value 10 digits.now < 2 ^ 64)) (digits_value 10 digits.now) }
{
    let mut value = 0u64;
    for digit in digits {
        if !digit.is_ascii_digit() {
            return None;
        }
        value = value
            .checked_mul(10)?
            .checked_add(u64::from(*digit - b'0'))?;
    }
    Some(value)
}

/// The value of decimal digits without a leading zero, `0` itself allowed, where it is below 2^64.
pub fn numeral(digits: &[u8]) -> Option<u64>
    ensures { SomeIff result (IsTrue (is_numeral digits.now) × (digits_value 10 digits.now < 2 ^ 64)) (digits_value 10 digits.now) }
{
    match digits {
        [] | [b'0', _, ..] => None,
        _ => value_of(digits),
    }
}

fn negative(size: u64) -> i64
    requires above { 0 < size }
    requires fits { size ≤ 2 ^ 63 }
    ensures { result ≡ neg_ℤ (pos size) }
{
    -((size - 1) as i64) - 1
}

fn int(token: &[u8]) -> Option<i64>
    ensures { result ≡ int_of token.now }
{
    match token {
        [b'-', digits @ ..] => {
            let size = numeral(digits)?;
            if size == 0 || size > 1 << 63 {
                return None;
            }
            Some(negative(size))
        }
        _ => {
            let size = numeral(token)?;
            if size >= 1 << 63 {
                return None;
            }
            Some(size as i64)
        }
    }
}

fn token_len(line: &[u8]) -> usize
    ensures { result ≡ length (take_while in_token line.now) }
{
    line.iter()
        .take_while(|c| **c != b' ' && **c != b')')
        .count()
}

#[tactic(auto, unfolding(crate::specs::Reading::int_at))]
fn number(line: &[u8]) -> Result<(Field, &[u8]), LineFault>
    ensures { Gives (λ x. (x.0, x.1.now)) result (int_at line.now) }
{
    let (token, rest) = line.split_at(token_len(line));
    match int(token) {
        None => Err(LineFault::Rule(4)),
        Some(n) => Ok((Field::Int(n), rest)),
    }
}

fn is_plain(c: u8) -> bool
    ensures { result ≡ is_plain c }
{
    matches!(c, 0x20..=0x7E) && c != b'"' && c != b'\\'
}

fn plain_len(line: &[u8]) -> usize
    ensures { result ≡ prefix_len is_plain line.now }
{
    line.iter().take_while(|c| is_plain(**c)).count()
}

fn copy_with_room(alloc: Global, bytes: &[u8], room: usize) -> Result<Vec<u8>, AllocError>
    ensures { IfOk result (λ copy. copy.items ≡ bytes.now) }
{
    let mut copy = Vec::with_capacity(alloc, room)?;
    copy.extend_from_slice(bytes)?;
    Ok(copy)
}

// The text behind an opening quote.
#[tactic(auto, unfolding(crate::specs::Reading::quoted))]
fn text_of(alloc: Global, line: &[u8]) -> Result<(Field, &[u8]), LineFault>
    ensures { Gives (λ x. (x.0, x.1.now)) result (short_text (quoted false line.now)) }
{
    let (plain, mut rest) = line.split_at(plain_len(line));
    if plain.len() > TEXT_LIMIT {
        return Err(LineFault::Rule(5));
    }
    // Without escapes the text is just as long.
    let room = match rest {
        [b'"', ..] => plain.len(),
        _ => TEXT_LIMIT,
    };
    let mut text = copy_with_room(alloc, plain, room)?;
    'characters: loop {
        let (character, after) = match rest {
            [b'"', after @ ..] => {
                text.shrink_to_fit();
                return Ok((Field::Text(Bytes::from(text)), after));
            }
            [b'\\', c @ (b'"' | b'\\'), after @ ..] => (*c, after),
            [b'\\', ..] => return Err(LineFault::Rule(5)),
            [c @ 0x20..=0x7E, after @ ..] => (*c, after),
            _ => return Err(LineFault::Rule(5)),
        };
        if text.len() == TEXT_LIMIT {
            return Err(LineFault::Rule(5));
        }
        text.push(character)?;
        rest = after;
    }
}

fn begins(line: &[u8]) -> bool
    ensures { result ≡ begins_field line.now }
{
    matches!(line, [b'"' | b'-' | b'*' | b'0'..=b'9', ..])
}

// After a field: whether the bracket closes, or a space and a further field follow.
fn closes(line: &[u8]) -> Result<(bool, &[u8]), LineFault>
    ensures { Gives (λ x. (x.0, x.1.now)) result (after_field line.now) }
{
    match line {
        [b')', rest @ ..] => Ok((true, rest)),
        [b' ', rest @ ..] => Ok((false, rest)),
        _ => Err(LineFault::Rule(2)),
    }
}

// How many fields a short list has. Only a guess: it takes an escaped quote for the end of a text.
fn likely_count(line: &[u8]) -> usize {
    let mut count = 1;
    let mut quoted = false;
    for byte in &line[..line.len().min(LOOK_AHEAD)] {
        match byte {
            b'"' => quoted = !quoted,
            b' ' if !quoted => count += 1,
            b')' if !quoted => return count,
            _ => {}
        }
    }
    FIELD_LIMIT
}

fn items<T: Item>(alloc: Global, line: &[u8]) -> Result<(Vec<T>, &[u8]), LineFault>
    ensures { Gives (λ x. (x.0.items, x.1.now)) result (fields_at T.item_at 8 line.now) }
{
    let mut items = Vec::with_capacity(alloc, likely_count(line))?;
    let mut rest = line;
    for place in 0..FIELD_LIMIT {
        let (item, after) = T::read(alloc, rest)?;
        items.push(item)?;
        let (ends, after) = closes(after)?;
        if ends {
            // A script keeps each of its operations, so a list keeps no spare room.
            items.shrink_to_fit();
            return Ok((items, after));
        }
        rest = after;
    }
    if begins(rest) {
        Err(LineFault::Rule(3))
    } else {
        Err(LineFault::Rule(2))
    }
}

#[tactic(auto, unfolding(crate::specs::Reading::list_at))]
fn list<T: Item>(alloc: Global, line: &[u8]) -> Result<(Vec<T>, &[u8]), LineFault>
    ensures { Gives (λ x. (x.0.items, x.1.now)) result (list_at T.item_at line.now) }
{
    match line {
        [b'(', b')', ..] => Err(LineFault::Rule(3)),
        [b'(', inside @ ..] => items(alloc, inside),
        _ => Err(LineFault::Rule(2)),
    }
}

fn behind_space(line: &[u8]) -> Result<&[u8], LineFault>
    ensures { Gives (λ x. x.now) result (space_at line.now) }
{
    match line {
        [b' ', rest @ ..] => Ok(rest),
        _ => Err(LineFault::Rule(2)),
    }
}

#[tactic(auto, unfolding(crate::specs::Reading::tuple_part))]
fn tuple_behind_space(alloc: Global, line: &[u8]) -> Result<(Tuple, &[u8]), LineFault>
    ensures { Gives (λ x. (x.0, x.1.now)) result (tuple_part line.now) }
{
    let (fields, rest) = list(alloc, behind_space(line)?)?;
    Ok((Tuple::from(fields), rest))
}

#[tactic(auto, unfolding(crate::specs::Reading::template_part))]
fn template_behind_space(alloc: Global, line: &[u8]) -> Result<(Template, &[u8]), LineFault>
    ensures { Gives (λ x. (x.0, x.1.now)) result (template_part line.now) }
{
    let (slots, rest) = list(alloc, behind_space(line)?)?;
    Ok((Template::from(slots), rest))
}

fn whole(op: Op, rest: &[u8]) -> Result<Op, LineFault>
    ensures { Gives (λ x. x) result (finished op rest.now) }
{
    if rest.is_empty() {
        Ok(op)
    } else {
        Err(LineFault::Rule(6))
    }
}

fn word_len(line: &[u8]) -> usize
    ensures { result ≡ length (take_while in_word line.now) }
{
    line.iter().take_while(|c| **c != b' ').count()
}

#[tactic(auto, unfolding(crate::specs::Reading::op_read))]
fn op_of(alloc: Global, line: &[u8]) -> Result<Op, LineFault>
    ensures { Gives (λ x. x) result (op_read line.now) }
{
    let (word, rest) = line.split_at(word_len(line));
    if word == b"out".as_slice() {
        let (tuple, rest) = tuple_behind_space(alloc, rest)?;
        whole(Op::Out(tuple), rest)
    } else if word == b"rdp".as_slice() {
        let (template, rest) = template_behind_space(alloc, rest)?;
        whole(Op::Rdp(template), rest)
    } else if word == b"inp".as_slice() {
        let (template, rest) = template_behind_space(alloc, rest)?;
        whole(Op::Inp(template), rest)
    } else if word == b"cas".as_slice() {
        let (template, rest) = template_behind_space(alloc, rest)?;
        let (tuple, rest) = tuple_behind_space(alloc, rest)?;
        whole(Op::Cas(template, tuple), rest)
    } else {
        Err(LineFault::Rule(1))
    }
}

/// The operation that a line spells, all of the line.
pub fn op_text_read(alloc: Global, line: &[u8]) -> Result<Op, LineFault>
    // What is read is the text of an operation.
    ensures found { IfOk result (λ op. IsOp op × (line.now ≡ op_text op)) }
    // Each text of an operation is read, unless memory runs out.
    ensures only { (op : Op) → IsOp op → line.now ≡ op_text op → Gives (λ x. x) result (Ok op) }
    // Which rule it is.
    ensures exact { Gives (λ x. x) result (op_read line.now) }
{
    op_of(alloc, line)
}

#[tactic(auto, unfolding(crate::specs::Reading::reply_read))]
fn reply_of(alloc: Global, text: &[u8]) -> Result<Reply, LineFault>
    ensures { Gives (λ x. x) result (reply_read text.now) }
{
    if text == b"ok".as_slice() {
        Ok(Reply::Done)
    } else if text == b"none".as_slice() {
        Ok(Reply::Nothing)
    } else if text == b"true".as_slice() {
        Ok(Reply::True)
    } else if text == b"false".as_slice() {
        Ok(Reply::False)
    } else if text == b"full".as_slice() {
        Ok(Reply::Full)
    } else if text == b"bad".as_slice() {
        Ok(Reply::Bad)
    } else {
        got(alloc, text)
    }
}

// The reply with a tuple.
#[tactic(auto, unfolding(crate::specs::Reading::got_read))]
fn got(alloc: Global, text: &[u8]) -> Result<Reply, LineFault>
    ensures { Gives (λ x. x) result (got_read text.now) }
{
    let [b't', b'u', b'p', b'l', b'e', b' ', tuple @ ..] = text else {
        return Err(LineFault::Rule(10));
    };
    match list(alloc, tuple) {
        Ok((fields, [])) => Ok(Reply::Got(Tuple::from(fields))),
        Err(LineFault::Want) => Err(LineFault::Want),
        _ => Err(LineFault::Rule(10)),
    }
}

/// The reply whose text this is. Anything else is refused by rule 10.
pub fn reply_text_read(alloc: Global, text: &[u8]) -> Result<Reply, LineFault>
    ensures found { IfOk result (λ reply. IsReply reply × (text.now ≡ reply_text reply)) }
    ensures only { (reply : Reply) → IsReply reply → text.now ≡ reply_text reply → Gives (λ x. x) result (Ok reply) }
    ensures exact { Gives (λ x. x) result (reply_read text.now) }
{
    reply_of(alloc, text)
}
