//! Partitions by place, in pages.
ghost use Rattle.std.specs.Prelude.{◌≡◌, ◌≢◌, ◌<◌, ◌^◌, ℕ, None, Some, [], IfNone, IfSome, OnOk, length};
ghost use Rattle.std.specs.Borrow.{sem};
ghost use Rattle.edge_table.specs.Lends.{LendsIn, LendsOf};
ghost use Rattle.edge_table.specs.Partition.{Parted, kept_in, kept_of};

use crate::partition::Partition;
use crgc_ids::NoMemory;
use std::alloc::Global;
use std::marker::Model;

/// How many places have their partitions in one page.
pub const PAGE: usize = 64;

/// The partitions of the places of one page, by index. It takes no memory until one is kept, and then 16 bytes for each index up to
/// the highest at which one was. Contracts see the entries.
#[derive(Drop)]
struct Page {
    entries: Vec<Option<Box<Partition>>>,
}

impl Model for Page {
    ghost use Rattle.edge_table.specs.Partition.{KeptPage};

    ghost Value = { KeptPage };

    ghost view = { λ p. p.entries.items };
}

impl Page {
    /// Nothing is kept.
    fn new(alloc: Global) -> Page
        ensures { result ≡ [] }
    {
        Page {
            entries: Vec::new(alloc),
        }
    }

    /// What is kept at the index.
    #[inline(always)]
    fn get(&self, index: usize) -> Option<&Partition>
        ensures some { IfSome result (λ s. kept_in self.now index ≡ Some s.now) }
        ensures none { IfNone result (kept_in self.now index ≡ None) }
    {
        match self.entries.get(index) {
            Some(Some(partition)) => Some(partition),
            _ => None,
        }
    }

    /// What is kept at the index, to be changed.
    #[inline(always)]
    fn get_mut(&mut self, index: usize) -> Option<&mut Partition>
        ensures* writes_back { sem 𝓛 (LendsIn self.entry index result) }
        ensures some { IfSome result (λ s. kept_in self.old index ≡ Some s.now) }
        ensures none { IfNone result (kept_in self.old index ≡ None) }
    {
        match self.entries.get_mut(index) {
            Some(Some(partition)) => Some(partition),
            _ => None,
        }
    }

    /// This is kept at the index from now on, if there is memory for it; before, nothing was.
    fn put(&mut self, alloc: Global, index: usize, partition: Partition)
        requires within { index < PAGE }
        requires none { kept_in self.old index ≡ None }
        ensures kept { (s : Parted) → kept_in self.new index ≡ Some s → s ≡ partition }
        ensures others { (i : ℕ) → i ≢ index → kept_in self.new i ≡ kept_in self.old i }
    {
        let Ok(partition) = Box::new(alloc, partition) else {
            return;
        };
        if self.reach(index).is_ok() {
            self.entries[index] = Some(partition);
        }
    }

    /// There is an entry for the index. After `NoMemory` all is as before.
    fn reach(&mut self, index: usize) -> Result<(), NoMemory>
        requires { index < PAGE }
        ensures ok { OnOk result (index < length self.new) }
        ensures kept { (i : ℕ) → kept_in self.new i ≡ kept_in self.old i }
    {
        if index < self.entries.len() {
            return Ok(());
        }
        if self.entries.resize_with(index + 1, || None).is_err() {
            return Err(NoMemory);
        }
        Ok(())
    }

    /// Nothing is kept at the index from now on.
    fn clear(&mut self, index: usize)
        ensures none { kept_in self.new index ≡ None }
        ensures others { (i : ℕ) → i ≢ index → kept_in self.new i ≡ kept_in self.old i }
    {
        if let Some(entry) = self.entries.get_mut(index) {
            *entry = None;
        }
    }
}

/// For each place a partition, or nothing: that of a place is kept in page `place / 64` at index `place % 64`. It takes 24 bytes for
/// each page up to that of the highest place of which something was kept, so a place takes under half a byte where nothing was
/// kept of one near it. Contracts see the pages.
#[derive(Drop)]
pub struct Pages {
    alloc: Global,
    pages: Vec<Page>,
}

impl Model for Pages {
    ghost use Rattle.edge_table.specs.Partition.{Kept};

    ghost Value = { Kept };

    ghost view = { λ p. p.pages.items };
}

impl Pages {
    /// Nothing is kept of any place.
    pub fn new(alloc: Global) -> Pages
        ensures { result ≡ [] }
    {
        Pages {
            alloc,
            pages: Vec::new(alloc),
        }
    }

    /// What is kept of the place. Constant time.
    #[inline(always)]
    pub fn get(&self, place: u32) -> Option<&Partition>
        ensures some { IfSome result (λ s. kept_of self.now place ≡ Some s.now) }
        ensures none { IfNone result (kept_of self.now place ≡ None) }
    {
        match self.pages.get(place as usize / PAGE) {
            Some(page) => page.get(place as usize % PAGE),
            None => None,
        }
    }

    /// What is kept of the place, to be changed. Constant time.
    #[inline(always)]
    pub fn get_mut(&mut self, place: u32) -> Option<&mut Partition>
        ensures* writes_back { sem 𝓛 (LendsOf self.entry place result) }
        ensures some { IfSome result (λ s. kept_of self.old place ≡ Some s.now) }
        ensures none { IfNone result (kept_of self.old place ≡ None) }
    {
        match self.pages.get_mut(place as usize / PAGE) {
            Some(page) => page.get_mut(place as usize % PAGE),
            None => None,
        }
    }

    /// This is kept of the place from now on, if there is memory for it; before, nothing was. Constant time, or linear time in the
    /// place where it is the first so high: all calls together take linear time in the highest place.
    pub fn put(&mut self, place: u32, partition: Partition)
        requires { kept_of self.old place ≡ None }
        ensures kept { (s : Parted) → kept_of self.new place ≡ Some s → s ≡ partition }
        ensures others { (p : ℕ) → p ≢ place → kept_of self.new p ≡ kept_of self.old p }
    {
        let page = place as usize / PAGE;
        if self.reach(page).is_ok() {
            self.pages[page].put(self.alloc, place as usize % PAGE, partition);
        }
    }

    /// There is a page with this number. After `NoMemory` all is as before.
    fn reach(&mut self, page: usize) -> Result<(), NoMemory>
        requires { page < 2 ^ 32 }
        ensures ok { OnOk result (page < length self.new) }
        ensures kept { (p : ℕ) → kept_of self.new p ≡ kept_of self.old p }
    {
        if page < self.pages.len() {
            return Ok(());
        }
        let grown = self.pages.resize_with(page + 1, || Page::new(self.alloc));
        if grown.is_err() {
            return Err(NoMemory);
        }
        Ok(())
    }

    /// Nothing is kept of the place from now on. Constant time.
    pub fn clear(&mut self, place: u32)
        ensures none { kept_of self.new place ≡ None }
        ensures others { (p : ℕ) → p ≢ place → kept_of self.new p ≡ kept_of self.old p }
    {
        if let Some(page) = self.pages.get_mut(place as usize / PAGE) {
            page.clear(place as usize % PAGE);
        }
    }
}
