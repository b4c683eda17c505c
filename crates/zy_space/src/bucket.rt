//! The buckets of tuples, by which a search walks one chain where the first field is given.

ghost use Rattle.std.specs.Prelude.{◌≡◌, ◌+◌, ◌*◌, ◌%◌, ◌<◌, ◌≤◌, length, option_map};
ghost use Rattle.std.specs.List.{sum};
ghost use Rattle.zy_space.specs.Bucket.{residue_of, bucket_of, wanted_bucket};

use zy_tuple::{Field, Slot, Template, Tuple};

// The sum of the bytes modulo 256.
fn byte_sum(text: &[u8]) -> u8
    ensures { result ≡ sum text.now % 256 }
{
    let mut sum: u8 = 0;
    for byte in text {
        sum = sum.wrapping_add(*byte);
    }
    sum
}

fn residue_of(field: &Field) -> u8
    ensures value { result ≡ residue_of field.now }
    ensures below { result < 8 }
{
    match field {
        Field::Int(number) => (number.cast_unsigned() % 8) as u8,
        Field::Text(text) => byte_sum(text.as_slice()) % 8,
    }
}

// The bucket of tuples with this first field and so many others.
fn bucket_with(first: &Field, others: usize) -> u8
    requires { others < 8 }
    ensures value { result ≡ 8 * others + residue_of first.now }
    ensures below { result < 64 }
{
    8 * others as u8 + residue_of(first)
}

pub fn bucket_of(tuple: &Tuple) -> u8
    requires { length tuple.now ≤ 8 }
    ensures value { result ≡ bucket_of tuple.now }
    ensures below { result < 64 }
{
    match tuple.fields().split_first() {
        Some((first, others)) => bucket_with(first, others.len()),
        None => 0,
    }
}

/// The bucket of each match, where the first slot names a field.
pub fn wanted_bucket(template: &Template) -> Option<u8>
    requires { length template.now ≤ 8 }
    ensures { result ≡ wanted_bucket template.now }
{
    match template.slots().split_first() {
        Some((Slot::Is(first), others)) => Some(bucket_with(first, others.len())),
        Some((Slot::Any, _)) | None => None,
    }
}
