//! What the text of a module does not show.

/// A part of a module. A number is the id of a section (section 5.5, "Sections").
#[derive(Clone, Copy, Debug, PartialEq, Eq)]
pub enum Part {
    /// A section without entries.
    Section(u8),
    /// The number that encodes the size of a section.
    SectionSize(u8),
    /// The number that encodes how many entries a section has. In the code section, it is one part with the size of the
    /// first body.
    Count(u8),
    /// The contents of a section: of the function section, the start section or the data count section.
    Contents(u8),
    /// An entry of a section.
    Entry(u8),
    /// The length and the bytes of the name of a custom section.
    CustomName,
    /// A name section without data, or a section with branch hints without hints, from its name on.
    EmptyCustom,
    /// The data of a custom section with text of its own (`producers`, `dylink.0`), or of the section with branch hints that
    /// counts. It is compared with the shortest encoding of its fields with values, its subsections with lines in the text,
    /// or its functions with hints; if `dylink.0` can't be printed, with no bytes.
    CustomData,
    /// The number that encodes the size of a body.
    BodySize,
    /// The number that encodes how many groups of locals a body has.
    LocalCount,
    /// A group of locals. One without locals needs no bytes.
    LocalGroup,
    /// An instruction.
    Instruction,
    /// A subsection of a name section that is not read because its id is unknown, or that is a list without entries: its id.
    NameSubsection(u8),
    /// The number that encodes the size of a subsection of a name section with this id.
    NameSubsectionSize(u8),
    /// The number that encodes how many names follow, or how many functions or types with names.
    NameCount,
    /// The index of a function or type, before names of its locals, labels or fields.
    NameOwner,
    /// A function or type without names, among names of locals, labels or fields.
    OwnerWithoutNames,
    /// A name with its index.
    Name,
    /// A name of something that the module does not have, with its index.
    NameOfNothing,
    /// A name, with its index if it has one, of an item that has another name: the last one that is given counts.
    ReplacedName,
    /// Bytes of a name section that are not read.
    UnreadNames,
    /// The end of a name section at which a name, or a count of names, is missing.
    MissingNames,
    /// A branch hint that no instruction takes. Hints are taken in order: one that is not taken blocks the later ones.
    Hint,
    /// The data of a section with branch hints that is malformed, or that a later section with branch hints replaces.
    HintSection,
}

/// A part of a module that its text does not show.
#[derive(Clone, Copy, Debug, PartialEq, Eq)]
pub struct Finding {
    /// The byte offset of the part from the start of the module.
    pub place: u64,
    /// The part.
    pub part: Part,
    /// The number of bytes that the shortest encoding of the part does not have. Of a section, subsection, function or type
    /// that gives nothing, a name of nothing, a replaced name, bytes that are not read and a hint section, the number of all
    /// bytes; of a hint, that of its shortest encoding; 0 for missing names.
    pub extra: u64,
}
