//! Playing a journal: from its bytes to its report.
ghost use Rattle.std.specs.Prelude.{◌≡◌, ◌≤◌, ◌<◌, ◌+◌, ◌^◌, drop, length, Ok, IfOk, IfErr, OnOk};
ghost use Rattle.history_model.specs.Legal.{IsLegal};
ghost use Rattle.history_model.specs.Story.{Story};
ghost use Rattle.cluster_course.specs.Collected.{IsRightlyCollected};
ghost use Rattle.journal_model.specs.Journals.{after_lines, journal_of};
ghost use Rattle.journal_model.specs.Lines.{lines_of};
ghost use Rattle.journal_model.specs.Verdicts.{report_text};
ghost use Rattle.journal_player.specs.Faults.{IsPlayFault};
ghost use Rattle.run_model.specs.Schedule.{IsWithinLimits};
ghost use Rattle.crgc_ids.specs.declared.limits.TheConstants.{MOST_BYTES};

use crate::fault::{Cause, PlayFault};
use crate::header::read_header;
use crate::lines::next_line;
use crate::player::Player;
use cluster_course::laws::a_legal_history_is_rightly_collected;
use crgc_ids::{MOST_BYTES, Which};
use std::alloc::Global;

const NO_HEADER: PlayFault = PlayFault::Journal {
    line: 1,
    cause: Cause::Header,
};

/// A text that is no longer than this is followed in one part, with nothing given up on the way.
const LEAST_PART: usize = 65_536;

/// A report, and the cluster of its history, of which nothing more is asked. Who gives the cluster back does so allocation by
/// allocation, in time in proportion to its actors and bulletins; a program that ends with the report may forget it.
#[derive(Drop)]
pub struct Played {
    pub report: Vec<u8>,
    pub cluster: Player,
}

/// The report of the history that the journal tells, in brief or in full, or why it tells none: its first faulty line with what
/// is wrong there, or the limit that it passes. The text is given up part by part as it is followed: a report in full grows as
/// the text is given up, and one in brief is made when it is gone. Linear in the text, beyond what the world and the collectors take
/// for its events.
pub fn play(alloc: Global, text: Vec<u8>, brief: bool) -> Result<Played, PlayFault>
    ensures report { IfOk result (λ played. (s : Story) × (journal_of text.items ≡ Ok s) × IsLegal s.cluster s.past
        × IsWithinLimits s.cluster s.past × IsRightlyCollected s.cluster s.past × (played.report.items ≡ report_text s.cluster s.past brief)) }
    ensures fault { IfErr result (λ f. IsPlayFault f (journal_of text.items)) }
{
    a_legal_history_is_rightly_collected();
    let mut cluster = followed(alloc, text, brief)?;
    let report = cluster.report(alloc, brief)?;
    Ok(Played { report, cluster })
}

/// The player after all lines of the journal, for a report in brief or in full, or why it tells no history.
fn followed(alloc: Global, text: Vec<u8>, brief: bool) -> Result<Player, PlayFault>
    ensures told { IfOk result (λ player. journal_of text.items ≡ Ok (record { cluster = player.cluster; past = player.replay.past })) }
    ensures fault { IfErr result (λ f. IsPlayFault f (journal_of text.items)) }
{
    if text.len() > MOST_BYTES {
        return Err(PlayFault::Limit(Which::Input));
    }
    let Some((first, rest)) = next_line(text.as_slice()) else {
        return Err(NO_HEADER);
    };
    let Some((nodes, version)) = read_header(first) else {
        return Err(NO_HEADER);
    };
    let read = text.len() - rest.len();
    let mut player = Player::begin(alloc, nodes, version, brief)?;
    match follow_all(alloc, &mut player, text, read) {
        Ok(()) => Ok(player),
        Err(fault) => Err(fault),
    }
}

/// All lines of the text after the part that was read are followed, of which the first is line 2, or the answer is the first
/// fault. What was followed of a long text is given up each time that it is half of what was left.
fn follow_all(
    alloc: Global,
    player: &mut Player,
    text: Vec<u8>,
    read: usize,
) -> Result<(), PlayFault>
    requires short { length text.items ≤ MOST_BYTES }
    requires read { read ≤ length text.items }
    ensures cluster { player.new.cluster ≡ player.old.cluster }
    ensures ok { OnOk result (after_lines player.old.cluster 2 player.old.replay (lines_of (drop read text.items)) ≡ Ok player.new.replay) }
    ensures fault { IfErr result (λ f. IsPlayFault f (after_lines player.old.cluster 2 player.old.replay (lines_of (drop read text.items)))) }
{
    let mut left = text;
    let mut start = read;
    let mut number = 2;
    while start < left.len() {
        let part = &left.as_slice()[start..];
        match follow_part(alloc, player, part, number) {
            Ok((end, next)) => {
                give_up(&mut left, start + end);
                start = 0;
                number = next;
            }
            Err(fault) => return Err(fault),
        }
    }
    Ok(())
}

/// The lines of the first half of a long text are followed, or all lines of a short one, of which the first has this number. The
/// answer is how many bytes were read, and the number of the next line, or the first fault.
fn follow_part(
    alloc: Global,
    player: &mut Player,
    text: &[u8],
    number: u64,
) -> Result<(usize, u64), PlayFault>
    requires { number + length text.now < 2 ^ 64 }
    ensures cluster { player.new.cluster ≡ player.old.cluster }
    ensures ok { IfOk result (λ r. after_lines player.old.cluster number player.old.replay (lines_of text.now)
        ≡ after_lines player.old.cluster r.1 player.new.replay (lines_of (drop r.0 text.now))) }
    ensures within { IfOk result (λ r. r.0 ≤ length text.now) }
    ensures some { IfOk result (λ r. 0 < length text.now → 0 < r.0) }
    ensures number { IfOk result (λ r. r.1 ≤ number + r.0) }
    ensures fault { IfErr result (λ f. IsPlayFault f (after_lines player.old.cluster number player.old.replay (lines_of text.now))) }
{
    let least = part_left(text.len());
    let mut rest = text;
    let mut next = number;
    while let Some((line, more)) = next_line(rest) {
        match player.follow(alloc, line) {
            Ok(()) => {}
            Err(halt) => return Err(halt.at(next)),
        }
        rest = more;
        next += 1;
        if rest.len() <= least {
            return Ok((text.len() - rest.len(), next));
        }
    }
    Ok((text.len(), next))
}

/// How much of a text of this length may be left when a part of it was followed.
fn part_left(length: usize) -> usize {
    if length > LEAST_PART { length / 2 } else { 0 }
}

/// The first so many bytes of the text are given up, and their room with them. Linear in the bytes that are left.
fn give_up(text: &mut Vec<u8>, read: usize)
    requires { read ≤ length text.old.items }
    ensures { text.new.items ≡ drop read text.old.items }
{
    let left = text.len() - read;
    text.copy_within(read.., 0);
    text.truncate(left);
    text.shrink_to_fit();
}
