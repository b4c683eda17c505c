ghost use Rattle.std.specs.Prelude.{◌≡◌, codes, IfOk, string_bytes, IsUtf8};

use std::alloc::Global;
use std::env::FillError;
use std::rt::Env;
use zy_base::Want;

/// The words of the command line, without the program's name.
pub fn line_words(rt: &impl Env, alloc: Global) -> Result<Vec<String>, Want> {
    let mut words = Vec::new(alloc);
    for number in 1..usize::MAX {
        let Some(bytes) = word_bytes(rt, alloc, number)? else {
            break;
        };
        words.push(word_of(alloc, bytes)?)?;
    }
    Ok(words)
}

/// The word with these bytes. One that isn't UTF-8 is given as `-`, which no command allows, so that it is refused at its
/// place.
fn word_of(alloc: Global, bytes: Vec<u8>) -> Result<String, Want>
    ensures text { IsUtf8 bytes.items → IfOk result (λ word. string_bytes word ≡ bytes.items) }
    ensures other { ¬ IsUtf8 bytes.items → IfOk result (λ word. string_bytes word ≡ codes "-") }
{
    match String::from_utf8(bytes) {
        Ok(word) => Ok(word),
        Err(_) => Ok(String::from_str(alloc, "-")?),
    }
}

/// The word with this number, if there is one. The buffer doubles until it fits.
fn word_bytes(rt: &impl Env, alloc: Global, number: usize) -> Result<Option<Vec<u8>>, Want> {
    let mut room = 256usize;
    for _ in 0..usize::BITS {
        let mut bytes = vec![in alloc; 0u8; room]?;
        match rt.arg(number, &mut bytes) {
            Ok(len) => {
                bytes.truncate(len);
                return Ok(Some(bytes));
            }
            Err(FillError::NotPresent) => return Ok(None),
            Err(FillError::TooLong) => room = room.saturating_mul(2),
        }
    }
    Err(Want)
}
