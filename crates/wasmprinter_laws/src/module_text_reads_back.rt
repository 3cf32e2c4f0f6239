//! Laws of reading: bytes encode at most one module, and the text of a module and of operators reads back, flat and
//! folded.

ghost use Rattle.wasmprinter_spec.specs.Laws.{SpellsAtMostOne, TakesNested, ReadsBack, TokensStay, HintsStay};
ghost use Rattle.wasmprinter_laws.specs.OperatorLaws.{OperatorsReadBack, NamedOperatorsReadBack};
ghost use Rattle.wasmprinter_laws.specs.FoldedLaws.{FoldedOperatorsReadBack, FoldedModulesReadAsFlat};
ghost use Rattle.wasmprinter_laws.specs.AnyFolding.{FoldedAnyhowReadsAsFlat};

/// The same bytes do not encode two different modules (section 5.5 of the standard, "Modules"). The byte offsets of
/// the module's parts are included: they are equal too.
pub fn bytes_spell_at_most_one_module()
    ensures { SpellsAtMostOne }
{}

/// The test of nesting that the reader of text uses accepts operators exactly if they are well nested: each block ends
/// with `end`, or a `try` with `delegate`; `else`, `catch` and `catch_all` occur only where their block allows them.
pub fn reader_takes_nested_operators()
    ensures { TakesNested }
{}

/// The reading law: the text that is laid out for a module that some bytes encode, flat or folded, reads as exactly
/// that module, including the custom sections that are printed as raw bytes.
///
/// The premises: every index that the module uses is declared, as in each valid module: it refers to an item, and to a
/// function type or a field of a structure type where one is required. Labels may refer to nothing. The text is not a
/// skeleton and has no colors. Its indent consists of spaces and tabs. The printer claims no custom section. No table
/// has an empty initialiser: its text would equal that of a table without one. If operators are folded, no `try`,
/// `catch`, `catch_all` or `delegate` is printed, and no branch hint that folded text can't hold: the module is
/// *foldable*. No `dylink.0` section is refused.
pub fn printed_text_reads_back()
    ensures { ReadsBack }
{}

/// Two texts of one module that some bytes encode have the same tokens if their options differ only in places at the
/// start of lines and in the indent. So places and the indent change only white space and comments. Both texts have no
/// colors, and both indents consist of spaces and tabs. Operators are folded in both texts or in none. The printer
/// claims the same custom sections.
pub fn places_and_indent_keep_tokens()
    ensures { TokensStay }
{}

/// The branch hints of a module that some bytes encode are those of its text, each once, directly before its operator
/// or the group of its operator.
///
/// The premises: the module's hints are valid, that is, the functions of its last hint section are defined and
/// increase, and so do the offsets in a function, each of which is that of an operator before the last `end`. The text
/// is not a skeleton and has no colors. Its indent consists of spaces and tabs. If operators are folded, the module is
/// foldable, as in [`printed_text_reads_back`]. No `dylink.0` section is refused. The printer may claim sections.
pub fn hints_stay()
    ensures { HintsStay }
{}

/// The text that is laid out for nested operators, over several lines or in one, with or without branch hints before
/// them, reads as exactly these operators. The hints are not part of what is read.
///
/// The premises: the operators are in the table, with the immediates that it lists and with numbers in range. There are
/// at most 2^64 of them. Every index that they or signatures use is declared; a label may have any index. The reader
/// has the types and the identifiers of the layout. An index space has at most 2^64 items, and a type at most 2^64
/// fields. Each identifier and each name is UTF-8, and no identifier is empty. Identifiers are distinct as in
/// `identifiers_are_apart`. The indent consists of spaces and tabs.
pub fn printed_operators_read_back()
    ensures { OperatorsReadBack }
{}

/// The text that is laid out for nested operators reads as exactly these operators also if items and labels have the
/// names that name sections give, and the others synthesized identifiers or none. The entries of the name sections
/// have indices of 32 bits and names in UTF-8; this replaces the premises that identifiers are distinct, UTF-8 and not
/// empty. The other premises are those of [`printed_operators_read_back`].
pub fn named_operators_read_back()
    ensures { NamedOperatorsReadBack }
{}

/// The text that is laid out for folded operators, over several lines or in one, with or without branch hints before
/// them, reads as exactly these operators, for any numbers of operands and results by which they are folded. No
/// operator is `try`, `catch`, `catch_all` or `delegate`. The text has no colors. The other premises are those of
/// [`printed_operators_read_back`].
pub fn folded_operators_read_back()
    ensures { FoldedOperatorsReadBack }
{}

/// The text of a module whose operators are folded reads as its flat text does. The premises are those of the reading
/// law with folding ([`printed_text_reads_back`]): also no branch hint is on an operator whose folded text can't hold it.
pub fn folded_text_reads_as_flat()
    ensures { FoldedModulesReadAsFlat }
{}

/// After the escape sequences are deleted, the folded text and the flat text of a module both read as that module.
/// This holds for any arities that opcodes are folded by, and for any types of the functions, tags, labels and
/// structures that they name. The folded text has colors or not.
///
/// The module is as in the reading law ([`printed_text_reads_back`]): some bytes encode
/// it, every index that it uses is declared, and no table has an empty initialiser. The text is not a skeleton, its
/// indent consists of spaces and tabs, and the printer claims no custom section. No `try`, `catch`, `catch_all` or
/// `delegate` is printed, and no `dylink.0` section is refused.
pub fn folded_text_reads_as_flat_by_any_arities()
    ensures { FoldedAnyhowReadsAsFlat }
{}
