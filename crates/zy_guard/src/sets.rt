//! Sets of clients, as words of a line.

ghost use Rattle.std.specs.Prelude.{◌≡◌, ◌==◌, ℕ, length, take_while, option_map};
ghost use Rattle.std.specs.List.{slice_split};
ghost use Rattle.zy_tuple.specs.Reading.{Gives};
ghost use Rattle.zy_guard.specs.Lines as lines;

use crate::ClientSet;
use crate::parts::{behind_space, first_word};
use zy_tuple::{LineFault, numeral};

/// How many clients there are.
const CLIENTS: u64 = 64;

fn comma_at(text: &[u8]) -> usize
    ensures { result ≡ length (take_while lines.in_number text.now) }
{
    text.iter().take_while(|c| **c != b',').count()
}

// Numbers that rise, each below 64, with a comma between two.
fn rising(text: &[u8]) -> Option<ClientSet>
    ensures { option_map (λ set. set.0) result ≡ lines.rising 0 (slice_split (λ (c : ℕ). c == 44) text.now) }
{
    let mut set = 0;
    let mut least = 0;
    let mut rest = text;
    for step in 0..CLIENTS {
        let (digits, behind) = rest.split_at(comma_at(rest));
        let client = numeral(digits)?;
        if client < least || client >= CLIENTS {
            return None;
        }
        set += 1 << client;
        least = client + 1;
        match behind {
            [_, others @ ..] => rest = others,
            [] => return Some(ClientSet(set)),
        }
    }
    None
}

fn set_of(word: &[u8]) -> Option<ClientSet>
    ensures { option_map (λ set. set.0) result ≡ lines.set_of word.now }
{
    if word == b"all".as_slice() {
        Some(ClientSet(u64::MAX))
    } else if word == b"none".as_slice() {
        Some(ClientSet(0))
    } else {
        rising(word)
    }
}

/// The set behind a space.
#[tactic(auto, unfolding(crate::specs::Lines::set_part))]
pub fn set_behind_space(line: &[u8]) -> Result<(ClientSet, &[u8]), LineFault>
    ensures { Gives (λ x. (x.0, x.1.now)) result (lines.set_part line.now) }
{
    let (word, rest) = first_word(behind_space(line)?);
    if word.is_empty() {
        return Err(LineFault::Rule(2));
    }
    match set_of(word) {
        Some(set) => Ok((set, rest)),
        None => Err(LineFault::Rule(4)),
    }
}
