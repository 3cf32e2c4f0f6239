//! The guessed positions of items in the list of items with names. A guess may be wrong: each lookup verifies it.
ghost use Rattle.std.specs.Prelude.{◌≡◌, ◌<◌, ◌≤◌, ◌+◌, ◌-◌, [], length, max, OnOk, OnErr, IsOk};

use crate::names::{Key, StoredName};
use std::alloc::{AllocError, Global};

/// The positions of the items of a subsection, by the function or type in which they are numbered.
#[derive(Drop)]
struct FirstPositions {
    /// The first function or type that has items.
    first: u64,
    /// The start of its items, of those of the next function or type, and so on. A function or type without items has
    /// the start of the next items.
    begins: Vec<usize>,
    /// The end of the last items.
    end: usize,
}

impl FirstPositions {
    /// Adds an item after the items so far. `limit` is the number of names, and at most that many functions or types get
    /// a start of their own: a module may name a local of its last function only, and memory must grow with the names,
    /// not with the functions.
    ///
    /// # Errors
    ///
    /// If an allocation fails. Some starts may have been added.
    fn add(&mut self, outer: u64, position: usize, limit: usize) -> Result<(), AllocError>
        ensures added { OnOk result (outer - self.old.first < limit
            → length self.new.begins.items ≡ max (length self.old.begins.items) (outer - self.old.first + 1)) }
        ensures stopped { OnErr result ((length self.old.begins.items ≤ length self.new.begins.items)
            × (length self.new.begins.items < outer - self.old.first + 1) × (outer - self.old.first < limit)) }
        ensures kept { limit ≤ outer - self.old.first → self.new.begins.items ≡ self.old.begins.items }
        ensures bound { length self.new.begins.items ≤ max (length self.old.begins.items) limit }
    {
        let ahead = outer.saturating_sub(self.first) as usize;
        if ahead < limit {
            for _ in self.begins.len()..ahead + 1 {
                self.begins.push(position)?;
            }
        }
        self.end = position.saturating_add(1);
        Ok(())
    }

    /// Returns the start of the items of a function or type, given its distance from the first one.
    fn begin(&self, ahead: usize) -> usize {
        self.begins.get(ahead).copied().unwrap_or(self.end)
    }

    /// Returns the position of an item if the indices in its function or type have no gaps, and the position where it
    /// would be if it has no name.
    fn guess(&self, entries: &[(Key, StoredName<'_>)], key: Key) -> usize {
        let Some(ahead) = key.outer.checked_sub(self.first) else {
            return self.begin(0);
        };
        let begin = self.begin(ahead as usize);
        let end = self.begin((ahead as usize).saturating_add(1));
        let lowest = entries.get(begin).map_or(0, |entry| entry.0.index);
        let after = key.index.saturating_sub(lowest) as usize;
        begin.saturating_add(after).min(end)
    }
}

/// The guessed positions of items, by subsection.
#[derive(Drop)]
pub struct Guesses {
    subsections: Vec<FirstPositions>,
}

impl Guesses {
    /// Returns the guessed positions of the items with names, which are given in the order of their keys.
    ///
    /// # Errors
    ///
    /// If an allocation fails. Without items nothing is allocated.
    pub(crate) fn new(
        alloc: Global,
        entries: &[(Key, StoredName<'_>)],
    ) -> Result<Guesses, AllocError>
        ensures { entries.now ≡ [] → IsOk result }
    {
        let mut guesses = Guesses {
            subsections: Vec::new(alloc),
        };
        for (position, entry) in entries.iter().enumerate() {
            guesses.add(alloc, entry.0, position, entries.len())?;
        }
        Ok(guesses)
    }

    /// Adds an item after the items so far.
    fn add(
        &mut self,
        alloc: Global,
        key: Key,
        position: usize,
        limit: usize,
    ) -> Result<(), AllocError> {
        for _ in self.subsections.len()..usize::from(key.subsection) + 1 {
            self.subsections.push(FirstPositions {
                first: key.outer,
                begins: Vec::new(alloc),
                end: position,
            })?;
        }
        match self.subsections.last_mut() {
            Some(last) => last.add(key.outer, position, limit),
            None => Ok(()),
        }
    }

    /// Returns the guessed position of an item, or the position where it would be.
    pub(crate) fn guess(&self, entries: &[(Key, StoredName<'_>)], key: Key) -> usize {
        match self.subsections.get(usize::from(key.subsection)) {
            Some(beginnings) => beginnings.guess(entries, key),
            None => entries.len(),
        }
    }
}
