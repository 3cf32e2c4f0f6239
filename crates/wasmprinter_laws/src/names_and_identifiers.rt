//! Laws of names: which names a name section gives, that identifiers are distinct and resolve, and which block a label
//! means.

ghost use Rattle.wasmprinter_laws.specs.NameLaws.{NamesAreOneList, EntriesAreGiven, NameMapsEndAtFirstError, BytesGiveEntries};
ghost use Rattle.wasmprinter_laws.specs.NameLaws.{IdentifiersAreApart, IdentifiersAreNamed, ModulesHaveIdentifiers, IdentifiersResolve};
ghost use Rattle.wasmprinter_laws.specs.LabelLaws.{LabelsMeanTheirBlocks};

/// Any bytes, taken as the data of a name section, give exactly one list of entries (appendix "Name Section" of the
/// standard). An entry gives a name to one item. Malformed data gives the entries before its first error: reading ends
/// there, also for all later subsections. A subsection with an unknown id gives no entries.
pub fn name_sections_give_one_list()
    ensures { NamesAreOneList }
{}

/// The entries that give a module's items their names, for the data of one name section, are those that the grammar of
/// name sections gives for this data. The data may be malformed, as in [`name_sections_give_one_list`].
pub fn entries_are_given()
    ensures { EntriesAreGiven }
{}

/// The entries that a name map gives are encoded one after the other, directly after the map's count. Either their
/// number is that count, or they are fewer, the bytes after them encode no further entry, and reading ends there with
/// an error.
pub fn name_maps_end_at_the_first_error()
    ensures { NameMapsEndAtFirstError }
{}

/// Each entry that the bytes of a name section give has an index of 32 bits and a name in UTF-8. For a local, a label
/// or a field this is the index within its function or type. The index of that function or type itself (`outer`) is
/// not bounded by this law.
pub fn name_sections_give_entries()
    ensures { BytesGiveEntries }
{}

/// If the entries of name sections have indices of 32 bits and names in UTF-8, no identifier means two items of one
/// index space, two locals of one function or two fields of one type. If two labels of a function, whose blocks are at
/// different nesting depths, have the same identifier, both were given the same name. This holds for indices and nesting
/// depths below 2^64, and whether identifiers are synthesized for items without names or not.
pub fn identifiers_are_apart()
    ensures { IdentifiersAreApart }
{}

/// If the entries of name sections have indices of 32 bits and names in UTF-8, each identifier that the module, its
/// items and labels get is UTF-8 and not empty, and each name is UTF-8. This holds whether identifiers are synthesized
/// for items without names or not.
pub fn identifiers_are_named()
    ensures { IdentifiersAreNamed }
{}

/// For each module that bytes encode, the name sections give names that are UTF-8, and identifiers that are UTF-8 and
/// not empty. Identifiers of items and labels are distinct as in [`identifiers_are_apart`]: labels may share one. This
/// holds whether identifiers are synthesized for items without names or not.
pub fn modules_have_identifiers()
    ensures { ModulesHaveIdentifiers }
{}

/// If no two items of an index space have the same identifier, the reader accepts the declarations of the identifiers
/// as distinct and resolves each identifier to the index of its item. The space has at most 2^64 items.
pub fn identifiers_resolve()
    ensures { IdentifiersResolve }
{}

/// A label whose block has an identifier is printed by that identifier, and the reader resolves it to that block. If a
/// block further in was given the same name, the label is printed by its number instead. The conditions: if two blocks
/// have the same identifier, and one may be within the other, both were given the same name; and at most 2^64 blocks
/// are open.
pub fn labels_mean_their_blocks()
    ensures { LabelsMeanTheirBlocks }
{}
