//! Writing lines word by word.
ghost use Rattle.std.specs.Prelude.{◌≡◌, [], ◌∷◌, ◌++◌, map, decimal, OnOk, OnErr};
ghost use Rattle.journal_model.specs.Lines.{actor_word};
ghost use Rattle.event_lines.specs.Words.{BeginsWith, bytes_of, line_with, spaced};

use crgc_ids::{ActorId, NoMemory, NodeId};
use itoa::Buffer;

/// One word of a line.
#[derive(Drop)]
pub enum Word<'a> {
    Name(&'a [u8]),
    Number(u64),
    ActorName(ActorId),
}

impl Word<'_> {
    /// The word of a node.
    pub fn of_node(node: NodeId) -> Word<'static>
        ensures { result ≡ Word.Number node }
    {
        Word::Number(node.get() as u64)
    }
}

/// Appends a line of a first word, words and actors, with its line feed. After `NoMemory` the bytes are as before.
#[inline(always)]
pub fn append_line(
    out: &mut Vec<u8>,
    name: &[u8],
    words: &[Word<'_>],
    actors: &[ActorId],
) -> Result<(), NoMemory>
    ensures ok { OnOk result (out.new.items ≡ out.old.items ++ line_with name.now words.now actors.now) }
    ensures err { OnErr result (out.new.items ≡ out.old.items) }
{
    let start = out.len();
    match write_line(out, name, words, actors) {
        Ok(()) => Ok(()),
        Err(_) => {
            out.truncate(start);
            Err(NoMemory)
        }
    }
}

#[inline(always)]
fn write_line(
    out: &mut Vec<u8>,
    name: &[u8],
    words: &[Word<'_>],
    actors: &[ActorId],
) -> Result<(), NoMemory>
    ensures ok { OnOk result (out.new.items ≡ out.old.items ++ line_with name.now words.now actors.now) }
    ensures err { OnErr result (BeginsWith out.old.items out.new.items) }
{
    write(out, name)?;
    write_words(out, words)?;
    write_actors(out, actors)?;
    write_byte(out, b'\n')
}

/// Each word after a space.
#[inline(always)]
fn write_words(out: &mut Vec<u8>, words: &[Word<'_>]) -> Result<(), NoMemory>
    ensures ok { OnOk result (out.new.items ≡ out.old.items ++ spaced (map bytes_of words.now)) }
    ensures err { OnErr result (BeginsWith out.old.items out.new.items) }
{
    for word in words {
        write_word(out, word)?;
    }
    Ok(())
}

/// Each actor after a space.
#[inline(always)]
fn write_actors(out: &mut Vec<u8>, actors: &[ActorId]) -> Result<(), NoMemory>
    ensures ok { OnOk result (out.new.items ≡ out.old.items ++ spaced (map actor_word actors.now)) }
    ensures err { OnErr result (BeginsWith out.old.items out.new.items) }
{
    for actor in actors {
        write_word(out, &Word::ActorName(*actor))?;
    }
    Ok(())
}

/// A space and the word.
#[inline(always)]
pub fn write_word(out: &mut Vec<u8>, word: &Word<'_>) -> Result<(), NoMemory>
    ensures ok { OnOk result (out.new.items ≡ out.old.items ++ 32 ∷ bytes_of word.now) }
    ensures err { OnErr result (BeginsWith out.old.items out.new.items) }
{
    write_byte(out, b' ')?;
    match word {
        Word::Name(text) => write(out, text),
        Word::Number(n) => write_number(out, *n),
        Word::ActorName(actor) => write_actor(out, *actor),
    }
}

#[inline(always)]
fn write_actor(out: &mut Vec<u8>, actor: ActorId) -> Result<(), NoMemory>
    ensures ok { OnOk result (out.new.items ≡ out.old.items ++ actor_word actor) }
    ensures err { OnErr result (BeginsWith out.old.items out.new.items) }
{
    write_number(out, actor.node().get() as u64)?;
    write_byte(out, b'.')?;
    write_number(out, actor.serial() as u64)
}

#[tactic(auto, using(std::proofs::lemmas::Fmt::decimal_digit))]
#[inline(always)]
fn write_number(out: &mut Vec<u8>, n: u64) -> Result<(), NoMemory>
    ensures ok { OnOk result (out.new.items ≡ out.old.items ++ decimal n) }
    ensures err { OnErr result (BeginsWith out.old.items out.new.items) }
{
    if n < 10 {
        return write_byte(out, b'0' + n as u8);
    }
    let mut buffer = Buffer::new();
    write(out, buffer.format(n).as_bytes())
}

/// The bytes as they are. Here as in the functions above, what was there still stands first after `NoMemory`.
#[inline(always)]
pub fn write(out: &mut Vec<u8>, bytes: &[u8]) -> Result<(), NoMemory>
    ensures ok { OnOk result (out.new.items ≡ out.old.items ++ bytes.now) }
    ensures err { OnErr result (BeginsWith out.old.items out.new.items) }
{
    match out.extend_from_slice(bytes) {
        Ok(()) => Ok(()),
        Err(_) => Err(NoMemory),
    }
}

/// One byte, by a single push. What was there still stands first after `NoMemory`.
#[inline(always)]
pub fn write_byte(out: &mut Vec<u8>, byte: u8) -> Result<(), NoMemory>
    ensures ok { OnOk result (out.new.items ≡ out.old.items ++ byte ∷ []) }
    ensures err { OnErr result (BeginsWith out.old.items out.new.items) }
{
    match out.push(byte) {
        Ok(()) => Ok(()),
        Err(_) => Err(NoMemory),
    }
}
