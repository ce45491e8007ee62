//! A set of the serials of one node.
ghost use Rattle.std.specs.Prelude.{◌≡◌, ◌<◌, ◌==◌, if◌then◌else◌, ℕ, not, true, false, [], length, IfNone, IfOk, IfSome, OnErr, OnOk};
ghost use Rattle.crgc_ids.specs.declared.limits.TheConstants.{MOST_ACTORS};
ghost use Rattle.ready_actors.specs.Flags.{IsFirstOf, IsNoneOf, has_flag, has_word};

use crate::flags;
use crgc_ids::NoMemory;
use std::alloc::Global;
use std::marker::Model;

/// Serials, by their flags. Above the words of these, each of which has 64 serials, are the flags of the words that are not 0, and
/// above the words of those, one word of the flags of these. Contracts see the words of the serials.
#[derive(Drop)]
pub struct SerialSet {
    serials: Vec<u64>,
    groups: Vec<u64>,
    top: u64,
}

impl Model for SerialSet {
    ghost use Rattle.std.specs.Prelude.{List, ℕ, ◌≤◌, length};
    ghost use Rattle.ready_actors.specs.Flags.{Summarizes, has_flag, has_one};

    ghost Value = { List ℕ };

    ghost view = { λ s. s.serials.items };

    ghost invariant = { λ s. (length s.serials.items ≤ 4096)
        × Summarizes (has_flag s.groups.items) s.serials.items
        × Summarizes (has_one s.top) s.groups.items };
}

impl SerialSet {
    /// No serial.
    pub fn new(alloc: Global) -> SerialSet
        ensures { result ≡ [] }
    {
        SerialSet {
            serials: Vec::new(alloc),
            groups: Vec::new(alloc),
            top: 0,
        }
    }

    /// The serial is one of them from now on; the answer is whether it was none before. After `NoMemory`, which comes only
    /// then, all is as before. It touches a word of each level; where room is missing, linear time in the serial, amortized.
    pub fn put(&mut self, serial: u32) -> Result<bool, NoMemory>
        requires { serial < MOST_ACTORS }
        ensures ok { OnOk result ((k : ℕ) → has_flag self.new k ≡ (if serial == k then true else has_flag self.old k)) }
        ensures added { IfOk result (λ added. added ≡ not (has_flag self.old serial)) }
        ensures err { OnErr result (self.new ≡ self.old) }
    {
        let group = serial / 64;
        flags::reach(&mut self.groups, group)?;
        flags::reach(&mut self.serials, serial)?;
        self.top = flags::with_one(self.top, group / 64);
        flags::set(&mut self.groups, group);
        Ok(flags::set(&mut self.serials, serial))
    }

    /// The serial is none of them from now on. It touches a word of each level at most.
    pub fn take_out(&mut self, serial: u32)
        requires { serial < MOST_ACTORS }
        ensures serials { (k : ℕ) → has_flag self.new k ≡ (if serial == k then false else has_flag self.old k) }
        ensures room { length self.new ≡ length self.old }
    {
        let group = serial / 64;
        if !flags::unset(&mut self.serials, serial) {
            return;
        }
        if !flags::unset(&mut self.groups, group) {
            return;
        }
        self.top = flags::without_one(self.top, group / 64);
    }

    /// Whether the serial is one of them.
    pub fn contains(&self, serial: u32) -> bool
        ensures { result ≡ has_flag self.now serial }
    {
        flags::is_set(&self.serials, serial)
    }

    /// The lowest of them from this serial on. It looks at two words of each level at most.
    pub fn first_from(&self, from: u32) -> Option<u32>
        ensures some { IfSome result (IsFirstOf (has_flag self.now) from) }
        ensures in_range { IfSome result (λ serial. serial < MOST_ACTORS) }
        ensures none { IfNone result (IsNoneOf (has_flag self.now) from) }
    {
        match flags::first_in_word(&self.serials, from) {
            Some(serial) => Some(serial),
            None => flags::first_in_word(&self.serials, self.group_from(from / 64 + 1)? * 64),
        }
    }

    /// The lowest place of a word of serials that is not 0, from this one on.
    fn group_from(&self, from: u32) -> Option<u32>
        ensures some { IfSome result (IsFirstOf (has_word self.now) from) }
        ensures in_range { IfSome result (λ group. group < 4096) }
        ensures none { IfNone result (IsNoneOf (has_word self.now) from) }
    {
        match flags::first_in_word(&self.groups, from) {
            Some(group) => Some(group),
            None => flags::first_in_word(
                &self.groups,
                flags::first_one(self.top, from / 64 + 1)? * 64,
            ),
        }
    }

    /// None of them is left. The room stays.
    pub fn clear(&mut self)
        ensures { (k : ℕ) → has_flag self.new k ≡ false }
    {
        self.serials.clear();
        self.groups.clear();
        self.top = 0;
    }
}
