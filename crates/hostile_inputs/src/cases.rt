//! The cases of the table.
use std::alloc::{AllocError, Global};

/// A case: its name, of what kind it is, the words that are asked, and the bytes that are given.
#[derive(Drop)]
pub struct Case<'a> {
    pub name: &'a str,
    pub kind: &'a str,
    pub words: Vec<String>,
    pub bytes: Vec<u8>,
}

impl<'a> Case<'a> {
    /// The case with this name, kind and words, and with the bytes that the text stands for.
    pub fn read(alloc: Global, asked: &'a str, text: &str) -> Result<Case<'a>, AllocError> {
        let (name, words) = asked.split_once(": ").unwrap_or((asked, ""));
        let (kind, words) = words.split_once(' ').unwrap_or((words, ""));
        Ok(Case {
            name,
            kind,
            words: words_of(alloc, words)?,
            bytes: bytes_of(alloc, text)?,
        })
    }

    /// The number that the word at the place spells; None where it spells none below 256.
    pub fn number(&self, place: usize) -> Option<u8> {
        self.words.get(place)?.as_str().parse::<u8>().ok()
    }
}

fn words_of(alloc: Global, text: &str) -> Result<Vec<String>, AllocError> {
    let mut words = Vec::new(alloc);
    for word in text.split_whitespace() {
        words.push(String::from_str(alloc, word)?)?;
    }
    Ok(words)
}

/// The bytes of the text's parts, which bars separate. A part `N*PART` is written N times.
fn bytes_of(alloc: Global, text: &str) -> Result<Vec<u8>, AllocError> {
    let mut bytes = Vec::new(alloc);
    for part in text.split('|') {
        match times(part) {
            Some((count, repeated)) => append_times(alloc, count, repeated, &mut bytes)?,
            None => append(alloc, part, 0, &mut bytes)?,
        }
    }
    Ok(bytes)
}

/// How often which part is written, where the part says so.
fn times(part: &str) -> Option<(u32, &str)> {
    let (count, repeated) = part.split_once('*')?;
    Some((count.parse::<u32>().ok()?, repeated))
}

fn append_times(
    alloc: Global,
    count: u32,
    part: &str,
    bytes: &mut Vec<u8>,
) -> Result<(), AllocError> {
    for number in 0..count {
        append(alloc, part, number, bytes)?;
    }
    Ok(())
}

/// A character stands for the byte of its number; behind a backslash it stands for what `append_escaped` says.
fn append(alloc: Global, part: &str, number: u32, bytes: &mut Vec<u8>) -> Result<(), AllocError> {
    let mut is_escaped = false;
    for character in part.chars() {
        if is_escaped {
            append_escaped(alloc, character, number, bytes)?;
            is_escaped = false;
        } else if character == '\\' {
            is_escaped = true;
        } else {
            append_character(character, bytes)?;
        }
    }
    Ok(())
}

/// `n` stands for a line feed, `r` for a carriage return, `0` for the byte 0, and `#` for how often the part was written before.
fn append_escaped(
    alloc: Global,
    character: char,
    number: u32,
    bytes: &mut Vec<u8>,
) -> Result<(), AllocError> {
    match character {
        'n' => append_byte(b'\n', bytes),
        'r' => append_byte(b'\r', bytes),
        '0' => append_byte(0, bytes),
        '#' => bytes.extend_from_slice(format!(in alloc; "{number}")?.as_bytes()),
        _ => append_character(character, bytes),
    }
}

fn append_character(character: char, bytes: &mut Vec<u8>) -> Result<(), AllocError> {
    append_byte(u8::try_from(u32::from(character)).unwrap_or(b'?'), bytes)
}

fn append_byte(byte: u8, bytes: &mut Vec<u8>) -> Result<(), AllocError> {
    bytes.push(byte)?;
    Ok(())
}
