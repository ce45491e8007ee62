//! Words that are commands, and words that are none.
use crate::{Command, read_command, wants_workers};
use std::alloc::{AllocError, Global};
use std::test::Fail;

/// The command that the words of a line spell, between its spaces.
fn read(alloc: Global, line: &str) -> Result<Option<Command>, AllocError> {
    let mut words = Vec::new(alloc);
    for word in line.split(' ') {
        words.push(String::from_str(alloc, word)?)?;
    }
    Ok(read_command(words.as_slice()))
}

#[test]
fn commands_are_read_in_each_spelling(rt: HostRuntime) -> Result<(), Fail> {
    let run = Some(Command::Run {
        workers: 32,
        brief: true,
    });
    let made = Some(Command::Gen {
        seed: u64::MAX,
        size: 10_000,
    });
    let table = [
        ("play", Some(Command::Play { brief: false })),
        ("play --brief", Some(Command::Play { brief: true })),
        (
            "run --workers 0",
            Some(Command::Run {
                workers: 0,
                brief: false,
            }),
        ),
        ("run --workers=32 --brief", run),
        ("run --brief --workers 32", run),
        ("gen --seed 18446744073709551615 --size=10000", made),
        ("gen --size 10000 --seed=18446744073709551615", made),
    ];
    for (line, command) in table {
        assert_eq!(rt; read(rt.alloc(), line)?, command);
    }
    Ok(())
}

#[test]
fn other_words_are_no_command(rt: HostRuntime) -> Result<(), Fail> {
    let lines = [
        "",
        "plays",
        "play --help",
        "play --brief --brief",
        "play --brief=1",
        "run",
        "run --workers",
        "run --workers 33",
        "run --workers +1",
        "run --workers 1 --workers=1",
        "run --workers 1 --",
        "gen --seed 07 --size 1",
        "gen --seed 18446744073709551616 --size 1",
        "gen --seed 7 --size 0",
        "gen --seed 7 --size 10001",
        "gen --seed 7",
        "gen -s 7 --size 1",
    ];
    for line in lines {
        assert_eq!(rt; read(rt.alloc(), line)?, None);
    }
    Ok(())
}

#[test]
fn a_run_of_one_worker_wants_workers(rt: HostRuntime) -> Result<(), Fail> {
    let words = vec![in rt.alloc();
        String::from_str(rt.alloc(), "run")?,
        String::from_str(rt.alloc(), "--workers=1")?,
    ]?;
    assert!(rt; wants_workers(words.as_slice()));
    Ok(())
}
