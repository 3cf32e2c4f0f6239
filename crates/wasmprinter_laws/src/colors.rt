//! Laws of colors in printed text: colors add only ANSI escape sequences. In each law of modules the indent consists of
//! spaces and tabs.

ghost use Rattle.wasmprinter_spec.specs.Laws.{ColorAddsSequences, TextsContainColors, ColoredTextKeeps};
ghost use Rattle.wasmprinter_laws.specs.ColoredLaws.{ColoredGroupsAreNodes, ColoredModulesHaveTrees};
ghost use Rattle.wasmprinter_laws.specs.PlainLaws.{ColorsKeepText};

/// Deleting the ANSI escape sequences from the colored text of any calls on a printer gives their text without
/// colors, if that text contains only tabs, line feeds and the characters from the space to the tilde.
pub fn colors_keep_text()
    ensures { ColorsKeepText }
{}

/// For each module that bytes encode: deleting the ANSI escape sequences from its text gives its text without colors.
/// The text has colors only within folded operators. The indent consists of spaces and tabs.
pub fn color_adds_sequences()
    ensures { ColorAddsSequences }
{}

/// For each module that bytes encode: deleting the ANSI escape sequences from the text of each call on the printer
/// gives the calls of the layout without colors, one for one. So each sequence is within the text of one call. The
/// indent consists of spaces and tabs.
pub fn sequences_stay_within_calls()
    ensures { TextsContainColors }
{}

/// For each module that bytes encode: deleting the ANSI escape sequences from the text that a color printer writes
/// gives the text without colors. Such a printer writes the sequences of every style, not only those within folded
/// operators. The indent consists of spaces and tabs.
pub fn colored_text_keeps()
    ensures { ColoredTextKeeps }
{}

/// After the escape sequences are deleted, the groups of folded text are the nodes of its tree. The text has colors
/// within folded operators or not (`color`), and the sequences of every style or not (`styles`).
/// [`folded_groups_are_nodes`](crate::folded_groups_are_nodes) says the same of the text without colors.
///
/// The premises: the operators have a tree. The table lists each with immediates of its shape, whose numbers are in
/// range. Type indices in function types are below 2^32. Names and identifiers are UTF-8, and no identifier is empty.
/// The indent consists of spaces and tabs. Operators are folded by any numbers of operands and results.
pub fn colored_groups_are_nodes()
    ensures { ColoredGroupsAreNodes }
{}

/// After the escape sequences are deleted, the groups of the text of a module with folded operators are the nodes
/// of its trees, field by field. The text has colors within folded operators or not (`color` of the options), and the
/// sequences of every style or not (`styles`). The other conditions are those of
/// [`folded_modules_have_trees`](crate::folded_modules_have_trees).
pub fn colored_modules_have_trees()
    ensures { ColoredModulesHaveTrees }
{}
