//! Reading a line.
ghost use Rattle.std.specs.Prelude.{◌≡◌};
ghost use Rattle.std.specs.Str.{bytes_eq};
ghost use Rattle.journal_model.specs.Reading.{actor_line, any_line, link_line, node_line, pair_line, read_line};
ghost use Rattle.event_lines.specs.Reads.{Reads};

use crate::fault::LineRead;
use crate::pieces::Pieces;
use history_model::Event;
use journal_model::{Line, LineFault};
use std::alloc::Global;

/// What the line says, without its line feed, or its first fault. Linear time and memory in the line.
pub fn read(alloc: Global, line: &[u8]) -> Result<Line, LineRead>
    ensures { Reads result (read_line line.now) }
{
    let mut words = Pieces::of(line, b' ');
    match words.next() {
        Some(word) => any_line(alloc, word, words),
        None => Err(LineRead::Fault(LineFault::Word)),
    }
}

/// What the line with this first word and these fields says.
#[tactic(auto, unfolding(journal_model::specs::Reading::any_line))]
fn any_line(alloc: Global, word: &[u8], fields: Pieces<'_>) -> Result<Line, LineRead>
    ensures { Reads result (any_line word.now fields.entry) }
{
    if is(word, b"send") {
        let (from, to, refs) = fields.message(alloc)?;
        return Ok(Line::Event(Event::Send { from, to, refs }));
    }
    if is(word, b"cut") {
        let (node, counts, lost) = fields.cut_fields(alloc)?;
        return Ok(Line::Cut { node, counts, lost });
    }
    if is(word, b"stop") {
        let (by, stop) = fields.stop_fields(alloc)?;
        return Ok(Line::Stop { by, stop });
    }
    Ok(actor_line(word, fields)?)
}

/// The same for the forms with one actor, and for all below.
#[tactic(auto, unfolding(journal_model::specs::Reading::actor_line))]
fn actor_line(word: &[u8], fields: Pieces<'_>) -> Result<Line, LineFault>
    ensures { result ≡ actor_line word.now fields.entry }
{
    if is(word, b"wake") {
        let actor = fields.one_actor()?;
        return Ok(Line::Event(Event::Wake { actor }));
    }
    if is(word, b"take") {
        let actor = fields.one_actor()?;
        return Ok(Line::Event(Event::Take { actor }));
    }
    if is(word, b"spawn") {
        let parent = fields.one_actor()?;
        return Ok(Line::Event(Event::Spawn { parent }));
    }
    if is(word, b"retire") {
        let actor = fields.one_actor()?;
        return Ok(Line::Event(Event::Retire { actor }));
    }
    if is(word, b"rest") {
        let actor = fields.one_actor()?;
        return Ok(Line::Event(Event::Rest { actor }));
    }
    if is(word, b"flush") {
        let actor = fields.one_actor()?;
        return Ok(Line::Event(Event::Flush { actor }));
    }
    node_line(word, fields)
}

/// The same for the forms with one node, and for all below.
#[tactic(auto, unfolding(journal_model::specs::Reading::node_line))]
fn node_line(word: &[u8], fields: Pieces<'_>) -> Result<Line, LineFault>
    ensures { result ≡ node_line word.now fields.entry }
{
    if is(word, b"seed") {
        let node = fields.one_node()?;
        return Ok(Line::Event(Event::Seed { node }));
    }
    if is(word, b"publish") {
        let node = fields.one_node()?;
        return Ok(Line::Event(Event::Publish { node }));
    }
    if is(word, b"crash") {
        let node = fields.one_node()?;
        return Ok(Line::Event(Event::Crash { node }));
    }
    if is(word, b"sweep") {
        let node = fields.one_node()?;
        return Ok(Line::Event(Event::Sweep { node }));
    }
    pair_line(word, fields)
}

/// The same for the forms with two actors or two nodes, and for all below.
#[tactic(auto, unfolding(journal_model::specs::Reading::pair_line))]
fn pair_line(word: &[u8], fields: Pieces<'_>) -> Result<Line, LineFault>
    ensures { result ≡ pair_line word.now fields.entry }
{
    if is(word, b"tie") {
        let (owner, target) = fields.two_actors()?;
        return Ok(Line::Event(Event::Tie { owner, target }));
    }
    if is(word, b"drop") {
        let (actor, target) = fields.two_actors()?;
        return Ok(Line::Event(Event::Drop { actor, target }));
    }
    if is(word, b"window") {
        let (at, from) = fields.two_nodes()?;
        return Ok(Line::Event(Event::Window { at, from }));
    }
    if is(word, b"remove") {
        let (at, gone) = fields.two_nodes()?;
        return Ok(Line::Event(Event::Remove { at, gone }));
    }
    link_line(word, fields)
}

/// The same for the forms with a link and a number, or with two numbers.
#[tactic(auto, unfolding(journal_model::specs::Reading::link_line))]
fn link_line(word: &[u8], fields: Pieces<'_>) -> Result<Line, LineFault>
    ensures { result ≡ link_line word.now fields.entry }
{
    if is(word, b"admit") {
        let (from, at, number) = fields.link_number()?;
        return Ok(Line::Event(Event::Admit { from, at, number }));
    }
    if is(word, b"lose") {
        let (from, at, number) = fields.link_number()?;
        return Ok(Line::Event(Event::Lose { from, at, number }));
    }
    if is(word, b"repeat") {
        let (from, at, number) = fields.link_number()?;
        return Ok(Line::Event(Event::Repeat { from, at, number }));
    }
    if is(word, b"hand") {
        let (to, origin, number) = fields.link_number()?;
        return Ok(Line::Event(Event::Hand { to, origin, number }));
    }
    if is(word, b"end") {
        let (events, stopped) = fields.end_fields()?;
        return Ok(Line::End { events, stopped });
    }
    Err(LineFault::Word)
}

/// Whether the word is this one. Linear time in it; its length or its first byte tells most words apart.
#[inline(always)]
fn is(word: &[u8], name: &[u8]) -> bool
    ensures { result ≡ bytes_eq word.now name.now }
{
    if word.len() != name.len() {
        return false;
    }
    for (i, byte) in name.iter().enumerate() {
        if word[i] != *byte {
            return false;
        }
    }
    true
}
