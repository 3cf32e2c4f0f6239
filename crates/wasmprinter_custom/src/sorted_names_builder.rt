//! The names of a module, ordered by the keys of its items, while they are added.
ghost use Rattle.std.specs.Prelude.{◌≡◌, ◌<◌, ◌++◌, ◌↔◌, List, [], length, is_some, true};
ghost use Rattle.std.specs.Prelude.{slice_index_or, slice_set, IfSome, IfOk, OnOk, OnErr, IsOk, IsTrue, MatchOption, Some, None, false};
ghost use Rattle.std.specs.Ordering.{is_lt};
ghost use Rattle.wasmprinter_custom.specs.Lookups.{Ascends, AllAreBefore, AreDisjoint, Gains, stored_at};
ghost use Rattle.wasmprinter_custom.specs.Views.{key_cmp};
ghost use Rattle.std.specs.declared.cmp.Ordering.TheVariants.{Less};
ghost use Rattle.wasmprinter_custom.specs.declared.names.Key.{Key};
ghost use Rattle.wasmprinter_custom.specs.declared.names.StoredName.{StoredName};

use crate::names::{Key, StoredName};
use crate::sorted_names_search::{all_before, position_of};
use std::alloc::{AllocError, Global};
use std::collections::BTreeMap;
use std::marker::Model;

/// Names, ordered by their keys.
#[derive(Drop)]
pub(crate) struct SortedNames<'a> {
    /// The names whose key, when they were added, was above all keys before it. In nearly every
    /// module these are all names.
    ascending: Vec<(Key, StoredName<'a>)>,
    /// The names of all other keys. Inserting them in the middle of the list would take linear time.
    late: BTreeMap<Key, StoredName<'a>>,
}

impl<'a> Model for SortedNames<'a> {
    ghost Value = { List (Key × StoredName) };

    ghost view = { λ n. n.late.entries ++ n.ascending.items };

    // A key has one entry: a second name replaces the first one, which is freed.
    ghost invariant = { λ n. Ascends n.ascending.items × AreDisjoint n.ascending.items n.late.entries };
}

impl<'a> SortedNames<'a> {
    /// Returns an empty collection.
    pub(crate) fn new(alloc: Global) -> Self
        ensures { result ≡ [] }
    {
        SortedNames {
            ascending: Vec::new(alloc),
            late: BTreeMap::new(alloc),
        }
    }

    /// Gives a key a name, which replaces the name that the key has.
    ///
    /// # Errors
    ///
    /// If an allocation fails. The names are then as before. Replacing a name allocates nothing.
    pub(crate) fn insert(&mut self, key: Key, stored: StoredName<'a>) -> Result<(), AllocError>
        ensures gains { OnOk result (Gains self.old self.new key stored.entry) }
        ensures err { OnErr result (self.new ≡ self.old) }
        ensures replaces { is_some (stored_at self.old key) ≡ true → IsOk result }
    {
        if in_order(&self.ascending, &self.late, key) {
            self.ascending.push((key, stored))?;
        } else if let Some(position) = position_of(&self.ascending, key) {
            replace(&mut self.ascending, position, stored);
        } else {
            self.late.insert(key, stored)?;
        }
        Ok(())
    }

    /// Returns all names in a list, in the order of their keys.
    ///
    /// # Errors
    ///
    /// If an allocation fails. Without names nothing is allocated. Giving back spare capacity may fail without an
    /// error.
    pub(crate) fn into_list(self, alloc: Global) -> Result<Vec<(Key, StoredName<'a>)>, AllocError>
        ensures all { IfOk result (λ list. (q : Key) → stored_at list.items q ≡ stored_at self.entry q) }
        ensures ascend { IfOk result (λ list. Ascends list.items) }
        ensures succeeds { self.entry ≡ [] → IsOk result }
    {
        let SortedNames { ascending, late } = self;
        if late.is_empty() {
            let mut names = ascending;
            names.shrink_to_fit();
            Ok(names)
        } else {
            merge(alloc, ascending, late)
        }
    }
}

/// Reports whether no name was added late and this key is above the keys of all names.
fn in_order(
    ascending: &[(Key, StoredName<'_>)],
    late: &BTreeMap<Key, StoredName<'_>>,
    key: Key,
) -> bool
    requires { Ascends ascending.now }
    ensures { IsTrue result ↔ ((late.now.entries ≡ []) × AllAreBefore ascending.now (length ascending.now) key) }
{
    late.is_empty() && all_before(ascending, ascending.len(), key)
}

/// Replaces the name in the entry at a position.
fn replace<'a>(list: &mut Vec<(Key, StoredName<'a>)>, position: usize, stored: StoredName<'a>)
    requires { position < length list.old.items }
    ensures items { (e : Key × StoredName) → list.new.items
        ≡ slice_set list.old.items position ((slice_index_or list.old.items position e).0, stored.entry) }
{
    list[position].1 = stored;
}

/// Merges the names of a list and those of a tree by the order of their keys.
///
/// # Errors
///
/// If an allocation fails.
fn merge<'a>(
    alloc: Global,
    list: Vec<(Key, StoredName<'a>)>,
    tree: BTreeMap<Key, StoredName<'a>>,
) -> Result<Vec<(Key, StoredName<'a>)>, AllocError>
    requires ascend { Ascends list.items }
    requires disjoint { AreDisjoint list.items tree.entries }
    ensures all { IfOk result (λ all. (q : Key) → stored_at all.items q ≡ stored_at (tree.entry.entries ++ list.entry.items) q) }
    ensures ascend { IfOk result (λ all. Ascends all.items) }
{
    let mut all = Vec::with_capacity(alloc, list.len() + tree.len())?;
    let mut late = tree.into_iter();
    let mut next = late.next();
    for entry in list {
        while let Some(earlier) = take_before(&mut next, entry.0) {
            all.push(earlier)?;
            next = late.next();
        }
        all.push(entry)?;
    }
    while let Some(last) = next {
        all.push(last)?;
        next = late.next();
    }
    Ok(all)
}

/// Takes the name in `next` if its key is below this one.
fn take_before<'a>(
    next: &mut Option<(Key, StoredName<'a>)>,
    key: Key,
) -> Option<(Key, StoredName<'a>)>
    ensures { MatchOption result ((next.new ≡ next.old) × IfSome next.old (λ entry. is_lt (key_cmp entry.0 key) ≡ false))
        (λ entry. (next.old ≡ Some entry) × (next.new ≡ None) × (key_cmp entry.0 key ≡ Less)) }
{
    match next {
        Some(entry) if entry.0 < key => next.take(),
        _ => None,
    }
}
