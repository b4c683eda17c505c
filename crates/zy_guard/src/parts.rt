//! Parts of a line. A tuple or a template is read as a part of an operation of the tuple space.

ghost use Rattle.std.specs.Prelude.{◌≡◌, ◌<◌, ◌++◌, List, length, take_while, drop, Err, IfOk, IfSome};
ghost use Rattle.zy_tuple.specs.Reading.{Gives, in_word, space_at, template_part, op_read};
ghost use Rattle.zy_tuple.specs.Values.{IsOp, IsTuple, IsTemplate};
ghost use Rattle.zy_tuple.specs.declared.values.Field.{Field};
ghost use Rattle.zy_tuple.specs.declared.values.Op.TheVariants as ops;
ghost use Rattle.zy_tuple.specs.declared.values.Slot.{Slot};
ghost use Rattle.zy_guard.specs.Lines as lines;

use std::alloc::{AllocError, Global};
use zy_base::Want;
use zy_tuple::{LineFault, Op, Template, Tuple, op_text_read};

fn word_len(line: &[u8]) -> usize
    ensures { result ≡ length (take_while in_word line.now) }
{
    line.iter().take_while(|c| **c != b' ').count()
}

/// The first word and what stands behind it.
pub fn first_word(line: &[u8]) -> (&[u8], &[u8])
    ensures word { result.0.now ≡ take_while in_word line.now }
    ensures rest { result.1.now ≡ drop (length (take_while in_word line.now)) line.now }
{
    line.split_at(word_len(line))
}

pub fn behind_space(line: &[u8]) -> Result<&[u8], LineFault>
    ensures { Gives (λ x. x.now) result (space_at line.now) }
{
    match line {
        [b' ', rest @ ..] => Ok(rest),
        _ => Err(LineFault::Rule(2)),
    }
}

fn line_of(alloc: Global, word: &[u8], rest: &[u8]) -> Result<Vec<u8>, AllocError>
    ensures { IfOk result (λ line. line.items ≡ word.now ++ rest.now) }
{
    let mut line = Vec::with_capacity(alloc, rest.len().saturating_add(word.len()))?;
    line.extend_from_slice(word)?;
    line.extend_from_slice(rest)?;
    Ok(line)
}

// The operation of the tuple space with this word and what stands behind it.
fn op_with(alloc: Global, word: &[u8], rest: &[u8]) -> Result<Op, LineFault>
    ensures read { Gives (λ x. x) result (op_read (word.now ++ rest.now)) }
    ensures found { IfOk result IsOp }
{
    let line = line_of(alloc, word, rest)?;
    op_text_read(alloc, &line)
}

// The tuple of an `out`.
fn tuple_in(op: Op) -> Tuple
    requires { (tuple : List Field) × (op ≡ ops.Out tuple) }
    ensures { op ≡ ops.Out result }
{
    match op {
        Op::Out(tuple) => tuple,
        _ => unreachable!(),
    }
}

// The template of a `rdp`.
fn template_in(op: Op) -> Template
    requires { (template : List Slot) × (op ≡ ops.Rdp template) }
    ensures { op ≡ ops.Rdp result }
{
    match op {
        Op::Rdp(template) => template,
        _ => unreachable!(),
    }
}

/// The tuple behind a space that ends the line.
pub fn last_tuple(alloc: Global, line: &[u8]) -> Result<Tuple, LineFault>
    ensures read { Gives (λ x. x) result (lines.last_tuple line.now) }
    ensures found { IfOk result IsTuple }
{
    behind_space(line)?;
    match op_with(alloc, b"out", line) {
        Ok(op) => Ok(tuple_in(op)),
        Err(fault) => Err(fault),
    }
}

/// The template behind a space that ends the line.
pub fn last_template(alloc: Global, line: &[u8]) -> Result<Template, LineFault>
    ensures read { Gives (λ x. x) result (lines.last_template line.now) }
    ensures found { IfOk result IsTemplate }
{
    behind_space(line)?;
    match op_with(alloc, b"rdp", line) {
        Ok(op) => Ok(template_in(op)),
        Err(fault) => Err(fault),
    }
}

// The template that all of the text is, if it is one.
fn whole_template(alloc: Global, text: &[u8]) -> Result<Option<Template>, Want>
    ensures read { IfOk result (λ template. template ≡ lines.whole_template text.now) }
    ensures found { IfOk result (λ template. IfSome template IsTemplate) }
{
    match last_template(alloc, text) {
        Ok(template) => Ok(Some(template)),
        Err(LineFault::Rule(_)) => Ok(None),
        Err(LineFault::Want) => Err(Want),
    }
}

// The template that ends with a bracket at this place, if one does.
fn template_up_to(alloc: Global, line: &[u8], place: usize) -> Result<Option<Template>, Want>
    requires { place < length line.now }
    ensures read { IfOk result (λ template. template ≡ lines.template_up_to line.now place) }
    ensures found { IfOk result (λ template. IfSome template IsTemplate) }
{
    if line[place] == b')' {
        whole_template(alloc, &line[..place + 1])
    } else {
        Ok(None)
    }
}

// The template in front of a line that has more behind it. It ends with the bracket up to which the text is one.
fn front_template(alloc: Global, line: &[u8]) -> Result<(Template, &[u8]), LineFault>
    requires { lines.last_template line.now ≡ Err 6 }
    ensures read { Gives (λ x. (x.0, x.1.now)) result (template_part line.now) }
    ensures found { IfOk result (λ x. IsTemplate x.0) }
{
    for place in 0..line.len() {
        match template_up_to(alloc, line, place)? {
            Some(template) => return Ok((template, &line[place + 1..])),
            None => {}
        }
    }
    Err(LineFault::Rule(6))
}

/// The template behind a space, and what stands behind it.
pub fn template_behind_space(alloc: Global, line: &[u8]) -> Result<(Template, &[u8]), LineFault>
    ensures read { Gives (λ x. (x.0, x.1.now)) result (template_part line.now) }
    ensures found { IfOk result (λ x. IsTemplate x.0) }
{
    match last_template(alloc, line) {
        Ok(template) => Ok((template, &line[line.len()..])),
        Err(LineFault::Rule(rule)) => {
            if rule == 6 {
                front_template(alloc, line)
            } else {
                Err(LineFault::Rule(rule))
            }
        }
        Err(LineFault::Want) => Err(LineFault::Want),
    }
}
