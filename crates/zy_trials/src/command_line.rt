// The words of a command line that is a double: in their order, long ones and ones that aren't UTF-8 too.

use std::env::FillError;
use std::rt::Env;
use std::test::Fail;
use zy_top_words::line_words;

/// A command line of these words, of which the first is the program's name.
#[derive(Clone, Copy)]
struct Line<'a>(&'a [&'a [u8]]);

impl Env for Line<'_> {
    fn arg(&self, i: usize, buf: &mut [u8]) -> Result<usize, FillError> {
        match self.0.get(i) {
            None => Err(FillError::NotPresent),
            Some(word) if word.len() > buf.len() => Err(FillError::TooLong),
            Some(word) => {
                buf[..word.len()].copy_from_slice(word);
                Ok(word.len())
            }
        }
    }

    fn var(&self, _name: &str, _buf: &mut [u8]) -> Result<usize, FillError> {
        Err(FillError::NotPresent)
    }

    fn var_at(&self, _i: usize, _buf: &mut [u8]) -> Result<usize, FillError> {
        Err(FillError::NotPresent)
    }
}

/// A command line, and its words.
#[derive(Clone, Copy)]
struct Row {
    shows: &'static str,
    line: &'static [&'static [u8]],
    words: &'static [&'static [u8]],
}

/// As long as the buffer that is tried first.
const LONG: &[u8] = &[b'w'; 256];

const LONGER: &[u8] = &[b'w'; 1_025];

const ROWS: [Row; 6] = [
    Row {
        shows: "no word",
        line: &[b"zyzzyva"],
        words: &[],
    },
    Row {
        shows: "an empty word",
        line: &[b"zyzzyva", b"space", b"", b"s"],
        words: &[b"space", b"", b"s"],
    },
    Row {
        shows: "words that aren't UTF-8",
        line: &[b"zyzzyva", b"\xff", b"a\xc3", b"a\xc3\xa9", b"-"],
        words: &[b"-", b"-", b"a\xc3\xa9", b"-"],
    },
    Row {
        shows: "six words",
        line: &[b"zyzzyva", b"1", b"2", b"3", b"4", b"5", b"6"],
        words: &[b"1", b"2", b"3", b"4", b"5", b"6"],
    },
    Row {
        shows: "a word as long as the first buffer",
        line: &[b"zyzzyva", LONG, b"2"],
        words: &[LONG, b"2"],
    },
    Row {
        shows: "a word longer than the second buffer",
        line: &[b"zyzzyva", LONGER, b"2"],
        words: &[LONGER, b"2"],
    },
];

fn are_words(read: &[String], wanted: &[&[u8]]) -> bool {
    read.len() == wanted.len()
        && read
            .iter()
            .zip(wanted)
            .all(|(word, wanted)| word.as_bytes() == *wanted)
}

#[test]
fn words_come_in_their_order(rt: HostRuntime) -> Result<(), Fail> {
    for row in &ROWS {
        let read = line_words(&Line(row.line), rt.alloc())?;
        assert!(rt; are_words(&read, row.words), "{}", row.shows);
    }
    Ok(())
}
