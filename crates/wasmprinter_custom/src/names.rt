//! The names of a module, by item.
ghost use Rattle.std.specs.Prelude.{◌≡◌, ◌++◌, ◌∷◌, [], ℕ, List, map, not};
ghost use Rattle.std.specs.Prelude.{IfOk, OnOk, IsOk, option_map, option_copied};
ghost use Rattle.wasmprinter_spec.specs.LabelNames.{is_clean, label_content};
ghost use Rattle.wasmprinter_spec.specs.Names.Section.{Entry, entry_of, module_subsection, label_subsection};
ghost use Rattle.wasmprinter_spec.specs.Names.Content.{is_among, content, name_of};
ghost use Rattle.wasmprinter_custom.specs.Spaces.{id_of, outer_of};
ghost use Rattle.wasmprinter_custom.specs.Views.{content_or, stored_view, item_view, name_view, NamedItem, items_view, name_at};
ghost use Rattle.wasmprinter_custom.specs.Lookups.{Ascends, AreUsed};
ghost use Rattle.wasmprinter_custom.specs.Labels.{labels_in, Ascend, HaveLabelIdentifiers};
ghost use Rattle.wasmprinter_custom.specs.LabelViews.{label_view};

use crate::index_space::Space;
use crate::name_position_guesses::Guesses;
use crate::name_subsection_ids;
use crate::sorted_names_builder::SortedNames;
use crate::sorted_names_search::find;
use crate::subsections_with_names::{SUBSECTIONS, used_subsections};
use std::alloc::{AllocError, Global};
use std::collections::BTreeSet;
use std::marker::Model;

/// A name, and the identifier of the named item in the text.
#[derive(Clone, Copy, Debug, PartialEq, Eq)]
pub struct Name<'a> {
    /// The name as a name section gives it.
    pub given: &'a str,
    /// The identifier without its dollar sign. It begins with `#` if it is not the name itself.
    pub content: &'a str,
}

/// The name of a label.
#[derive(Clone, Copy, Debug, PartialEq, Eq)]
pub struct LabelName<'a> {
    /// The index of the function whose body has the label, imports counted.
    pub function: u64,
    /// The position of its block among the function's blocks, from 0, in the order in which they are opened.
    pub number: u64,
    /// The name of the label.
    pub name: Name<'a>,
}

/// A name that was given in an index space.
#[derive(Clone, Copy, PartialEq, Eq, PartialOrd, Ord)]
pub struct Given<'a> {
    /// The id of the subsection that gives the name.
    subsection: u8,
    /// The function of a local or a label, the type of a field, and 0 for all other items.
    outer: u64,
    /// The name.
    name: &'a str,
}

/// The key of a name: an item of an index space.
#[derive(Clone, Copy, PartialEq, Eq, PartialOrd, Ord)]
pub struct Key {
    /// The id of the subsection that names items of the space.
    pub(crate) subsection: u8,
    /// The function of a local or a label, the type of a field, and 0 for all other items.
    pub(crate) outer: u64,
    /// The index of the item or, for a label, its number.
    pub(crate) index: u64,
}

/// A stored name.
#[derive(Drop)]
pub struct StoredName<'a> {
    /// The name as a name section gives it.
    given: &'a str,
    /// The identifier without its dollar sign, if it is not the name itself.
    marked: Option<String>,
}

impl StoredName<'_> {
    /// Returns the name as it was given, with the identifier for it.
    fn name(&self) -> Name<'_>
        ensures { name_view result ≡ stored_view self.now }
    {
        let content = match &self.marked {
            Some(text) => text.as_str(),
            None => self.given,
        };
        Name {
            given: self.given,
            content,
        }
    }
}

/// Reports whether a name is not empty and does not begin with `#`.
fn is_clean(name: &str) -> bool
    ensures { result ≡ is_clean name.now }
{
    !name.is_empty() && name.as_bytes()[0] != b'#'
}

/// Returns the identifier for a name, without its dollar sign, or `None` if it is the name itself. `is_new` says that
/// the name was not given before in its space.
fn marked_content(
    alloc: Global,
    subsection: u8,
    index: u64,
    name: &str,
    is_new: bool,
) -> Result<Option<String>, AllocError>
    ensures content { IfOk result (λ x. (outer : ℕ) (given : List (List ℕ)) → is_new ≡ not (is_among name.now given)
        → content_or x name.now ≡ content subsection given (entry_of subsection outer (index, name.now))) }
    ensures label { IfOk result (λ x. subsection ≡ label_subsection → content_or x name.now ≡ label_content index name.now) }
{
    if is_clean(name) && (is_new || !name_subsection_ids::is_counted(subsection)) {
        Ok(None)
    } else {
        let group = name_subsection_ids::group(subsection);
        Ok(Some(format!(in alloc; "#{group}{index} {name}")?))
    }
}

/// Collects the names of a module while its name sections are read.
#[derive(Drop)]
pub struct NamesBuilder<'a> {
    /// All names that were given so far, including replaced ones.
    given: BTreeSet<Given<'a>>,
    names: SortedNames<'a>,
    ghost identifiers_of_labels: { HaveLabelIdentifiers (items_view names) },
}

impl<'a> NamesBuilder<'a> {
    ghost use Rattle.wasmprinter_custom.specs.HoldsEntries.{HoldsEntries};

    /// Returns an empty builder: it holds no entries (`[]`).
    pub fn new(alloc: Global) -> Self
        ensures { HoldsEntries [] result }
    {
        NamesBuilder {
            given: BTreeSet::new(alloc),
            names: SortedNames::new(alloc),
        }
    }

    /// Gives an item a name, which replaces the name that the item has. Returns an error if an allocation fails; the
    /// contract then says nothing of the builder.
    pub(crate) fn add(
        &mut self,
        alloc: Global,
        subsection: u8,
        outer: u64,
        index: u64,
        name: &'a str,
    ) -> Result<(), AllocError>
        ensures { OnOk result ((entries : List Entry) → HoldsEntries entries self.old
            → HoldsEntries (entries ++ entry_of subsection outer (index, name.now) ∷ []) self.new) }
    {
        let is_new = self.given.insert(Given {
            subsection,
            outer,
            name,
        })?;
        let marked = marked_content(alloc, subsection, index, name, is_new)?;
        let key = Key {
            subsection,
            outer,
            index,
        };
        let stored = StoredName {
            given: name,
            marked,
        };
        self.names.insert(key, stored)?;
        Ok(())
    }

    /// Returns the names that were added, each with its identifier (`names`). If entries give several names to an item,
    /// the last one counts. The identifier is the name, or `#`, the word for the items of the space, the index, a space
    /// and the name (`#func3 f`) if the name is empty, begins with `#` or, except for modules and labels, was added
    /// before in the same space. After a failed [`read_names`](crate::read_names) the contract says nothing of the
    /// names.
    ///
    /// # Errors
    ///
    /// If an allocation fails. If the builder holds no entries, there is no error (`succeeds`).
    pub fn finish(self, alloc: Global) -> Result<Names<'a>, AllocError>
        ensures names { IfOk result (λ names. (entries : List Entry) → HoldsEntries entries self.entry
            → (s outer index : ℕ) → name_at names s outer index ≡ name_of entries s outer index) }

        // Only names need memory.
        ensures succeeds { HoldsEntries [] self.entry → IsOk result }
    {
        let entries = self.names.into_list(alloc)?;
        let guesses = Guesses::new(alloc, &entries)?;
        let named = used_subsections(&entries);
        Ok(Names {
            entries,
            guesses,
            named,
        })
    }
}

/// The names of a module, which borrow from its bytes.
#[derive(Drop)]
pub struct Names<'a> {
    /// The items that have names, in ascending order of their keys.
    entries: Vec<(Key, StoredName<'a>)>,
    /// The guessed positions of items in the list.
    guesses: Guesses,
    /// For each subsection, by its id, whether one of the items belongs to it.
    named: [bool; SUBSECTIONS],
}

impl<'a> Model for Names<'a> {
    ghost Value = { List NamedItem };

    ghost view = { λ n. map item_view n.entries.items };

    ghost invariant = { λ n. Ascends n.entries.items × HaveLabelIdentifiers (map item_view n.entries.items) × AreUsed n.entries.items n.named };
}

impl Names<'_> {
    /// Returns the name of a key. Returns at once if its subsection gives no names: each use of a local looks its
    /// name up, and many modules name only functions.
    #[inline]
    fn get(&self, key: Key) -> Option<Name<'_>>
        ensures { option_map name_view result ≡ name_at self.now key.subsection key.outer key.index }
    {
        if !self.named[usize::from(key.subsection)] {
            return None;
        }
        self.look_up(key)
    }

    /// Searches for the name of a key.
    #[inline(never)]
    fn look_up(&self, key: Key) -> Option<Name<'_>>
        ensures { option_map name_view result ≡ name_at self.now key.subsection key.outer key.index }
    {
        let guess = self.guesses.guess(&self.entries, key);
        find(&self.entries, guess, key).map(|stored| stored.name())
    }

    /// Returns the identifier of an item, without its dollar sign, or `None` if the item has no name. `outer` is the
    /// index of the function of a local or a label (imports counted) or of the type of a field; for other items it is
    /// ignored. The index of a label is its [`LabelName::number`].
    pub fn identifier(&self, space: Space, outer: u32, index: u32) -> Option<&str>
        ensures { option_copied result ≡ option_map (λ n. n.content) (name_at self.now (id_of space) (outer_of space outer) index) }
    {
        self.name(space, u64::from(outer), u64::from(index))
            .map(|name| name.content)
    }

    /// Returns the identifier of the module, without its dollar sign, or `None` if the module has no name. The clause
    /// looks the name up in `module_subsection`, in no function or type (`0`), at index 0.
    pub fn module(&self) -> Option<&str>
        ensures { option_copied result ≡ option_map (λ n. n.content) (name_at self.now module_subsection 0 0) }
    {
        self.module_name().map(|name| name.content)
    }
}

/// The names of a module as they were given, each with its identifier in the text.
pub trait NameEntries {
    /// Returns the name of an item, or `None` if it has none. `outer` is the function of a local or a label or the
    /// type of a field; for other items it is ignored. The index of a label is its [`LabelName::number`].
    fn name(&self, space: Space, outer: u64, index: u64) -> Option<Name<'_>>;

    /// Returns the labels that have names (`all`), in ascending order of function, then number, each once (`ascend`).
    /// The identifier of each depends only on its name and number (`identifiers_of_labels`): it is the name, or
    /// `#label`, the number and the name if the name is empty or begins with `#`.
    ///
    /// # Errors
    ///
    /// If an allocation fails. If no label has a name, there is no error (`succeeds`).
    fn labels(&self, alloc: Global) -> Result<Vec<LabelName<'_>>, AllocError>;

    /// Returns the name of the module, or `None` if it has none.
    fn module_name(&self) -> Option<Name<'_>>;
}

impl NameEntries for Names<'_> {
    fn name(&self, space: Space, outer: u64, index: u64) -> Option<Name<'_>>
        ensures { option_map name_view result ≡ name_at self.now (id_of space) (outer_of space outer) index }
    {
        self.get(Key {
            subsection: space.subsection(),
            outer: if space.is_indirect() { outer } else { 0 },
            index,
        })
    }

    fn labels(&self, alloc: Global) -> Result<Vec<LabelName<'_>>, AllocError>
        ensures all { IfOk result (λ labels. map label_view labels.items ≡ labels_in self.now) }
        ensures ascend { Ascend (labels_in self.now) }
        ensures identifiers_of_labels { HaveLabelIdentifiers self.now }
        ensures succeeds { labels_in self.now ≡ [] → IsOk result }
    {
        let mut labels = Vec::new(alloc);
        for (key, stored) in &self.entries {
            if key.subsection == name_subsection_ids::LABEL {
                labels.push(LabelName {
                    function: key.outer,
                    number: key.index,
                    name: stored.name(),
                })?;
            }
        }
        Ok(labels)
    }

    fn module_name(&self) -> Option<Name<'_>>
        ensures { option_map name_view result ≡ name_at self.now module_subsection 0 0 }
    {
        self.get(Key {
            subsection: name_subsection_ids::MODULE,
            outer: 0,
            index: 0,
        })
    }
}
