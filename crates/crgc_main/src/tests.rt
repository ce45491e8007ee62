use super::words;
use std::env::{Env, FillError};
use std::test::Fail;

/// A command line of the program's name and one word, as bytes.
#[derive(Drop)]
struct CommandLine {
    word: Vec<u8>,
}

impl Env for CommandLine {
    fn arg(&self, i: usize, buf: &mut [u8]) -> Result<usize, FillError> {
        let bytes = match i {
            0 => b"crgc".as_slice(),
            1 => self.word.as_slice(),
            _ => return Err(FillError::NotPresent),
        };
        if buf.len() < bytes.len() {
            return Err(FillError::TooLong);
        }
        buf[..bytes.len()].copy_from_slice(bytes);
        Ok(bytes.len())
    }

    fn var(&self, _name: &str, _buf: &mut [u8]) -> Result<usize, FillError> {
        Err(FillError::NotPresent)
    }

    fn var_at(&self, _i: usize, _buf: &mut [u8]) -> Result<usize, FillError> {
        Err(FillError::NotPresent)
    }
}

#[test]
fn words_are_those_after_the_name(rt: HostRuntime) -> Result<(), Fail> {
    let word = b"play".to_vec(rt.alloc())?;
    let env = (CommandLine { word }, rt.alloc());
    let found = words(&env, rt.alloc()).ok().ok_or("memory")?;
    assert_eq!(rt; found.len(), 1);
    assert_eq!(rt; found[0].as_str(), "play");
    Ok(())
}

#[test]
fn a_word_that_is_no_text_leaves_none(rt: HostRuntime) -> Result<(), Fail> {
    let word = b"play\xff".to_vec(rt.alloc())?;
    let env = (CommandLine { word }, rt.alloc());
    let found = words(&env, rt.alloc()).ok().ok_or("memory")?;
    assert_eq!(rt; found.len(), 0);
    Ok(())
}
