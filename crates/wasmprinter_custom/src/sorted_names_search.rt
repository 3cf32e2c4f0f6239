//! Lookup of a key in a list of names whose keys ascend.
ghost use Rattle.std.specs.Prelude.{◌≡◌, ◌<◌, ◌≤◌, length, None, IsTrue, IfSome, IfNone, option_copied};
ghost use Rattle.std.specs.List.{HoldsAt};
ghost use Rattle.std.specs.declared.cmp.Ordering.TheVariants.{Equal};
ghost use Rattle.wasmprinter_custom.specs.Lookups.{Ascends, AllAreBefore, AllAreAfter, stored_at};
ghost use Rattle.wasmprinter_custom.specs.Views.{key_cmp};

use crate::names::{Key, StoredName};

/// Reports whether the last entry before a position shows that all entries before it have lower keys than this one.
pub(crate) fn all_before(entries: &[(Key, StoredName<'_>)], position: usize, key: Key) -> bool
    requires { Ascends entries.now }
    ensures before { IsTrue result → AllAreBefore entries.now position key }
    ensures all { position ≤ length entries.now → AllAreBefore entries.now position key → IsTrue result }
{
    let Some(before) = position.checked_sub(1) else {
        return true;
    };
    match entries.get(before) {
        Some((at, _)) => *at < key,
        None => false,
    }
}

/// Reports whether the first entry from a position on shows that all of these have higher keys than this one.
fn all_after(entries: &[(Key, StoredName<'_>)], position: usize, key: Key) -> bool
    requires { Ascends entries.now }
    ensures { IsTrue result → AllAreAfter entries.now position key }
{
    match entries.get(position) {
        Some((at, _)) => key < *at,
        None => true,
    }
}

/// Returns the position of the entry of a key.
pub(crate) fn position_of(entries: &[(Key, StoredName<'_>)], key: Key) -> Option<usize>
    requires { Ascends entries.now }
    ensures bound { IfSome result (λ position. position < length entries.now) }
    ensures at { IfSome result (HoldsAt (λ e. key_cmp e.0 key ≡ Equal) entries.now) }
    ensures none { IfNone result (stored_at entries.now key ≡ None) }
{
    entries.binary_search_by_key(&key, |entry| entry.0).ok()
}

/// Returns the name of a key by a binary search.
fn search<'e, 'a>(entries: &'e [(Key, StoredName<'a>)], key: Key) -> Option<&'e StoredName<'a>>
    requires { Ascends entries.now }
    ensures { option_copied result ≡ stored_at entries.now key }
{
    let position = position_of(entries, key)?;
    Some(&entries[position].1)
}

/// Returns the name of a key. `guess` is a guessed position: a good guess makes the lookup fast,
/// and no guess changes the result.
pub(crate) fn find<'e, 'a>(
    entries: &'e [(Key, StoredName<'a>)],
    guess: usize,
    key: Key,
) -> Option<&'e StoredName<'a>>
    requires { Ascends entries.now }
    ensures { option_copied result ≡ stored_at entries.now key }
{
    match entries.get(guess) {
        Some((at, stored)) if *at == key => Some(stored),
        _ if all_before(entries, guess, key) && all_after(entries, guess, key) => None,
        _ => search(entries, key),
    }
}
