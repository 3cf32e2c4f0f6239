//! Laws of folding: which operators become which nodes, that folding loses no operator, and that the groups of folded
//! text are the nodes.

ghost use Rattle.wasmprinter_spec.specs.Folding.Arities.{Signatures};
ghost use Rattle.wasmprinter_spec.specs.Folding.Code.{TreesRepresentLists, TreesAreUnique, NestedOperatorsHaveTrees, TreesAreNested};
ghost use Rattle.wasmprinter_spec.specs.Folding.Tree.{OperandRule};
ghost use Rattle.wasmprinter_spec.specs.Folding.Unfolding.{UnfoldingRule};
ghost use Rattle.wasmprinter_spec.specs.Layout.Folded.{NestedListsAreFolded, FoldedListsAreNested};
ghost use Rattle.wasmprinter_spec.specs.Layout.Operators.{Setting};
ghost use Rattle.wasmprinter_laws.specs.AnyFolding.{FoldsByOwnArities};
ghost use Rattle.wasmprinter_laws.specs.NodeLaws.{FoldedGroupsAreNodes};
ghost use Rattle.wasmprinter_laws.specs.TreeLaws.{FoldedModulesHaveTrees};

/// An operator that needs `n` operands, with `n` above 0, takes the shortest run of last nodes before it whose
/// results sum up to exactly `n`. It takes none if the first sum that reaches `n` is greater than `n`, or if all
/// nodes together have fewer than `n` results. The sums saturate at 2^32 - 1.
pub fn operands_are_the_shortest_run()
    ensures { OperandRule }
{}

/// If a list of operators has a tree, the operators of the tree, in their flat order, are that list, and each has the
/// position that its role requires (`says`). Any tree with such positions is the one that the list of its operators
/// has, so no other tree represents that list (`unique`). A role is, for example, to open or to end a block.
pub fn trees_say_their_lists()
    ensures says { TreesRepresentLists }
    ensures unique { TreesAreUnique }
{}

/// Operators have a tree if they are well nested and none is `try`, `catch`, `catch_all` or `delegate` (`nested`), and
/// only then (`only`).
pub fn nested_operators_have_trees()
    ensures nested { NestedOperatorsHaveTrees }
    ensures only { TreesAreNested }
{}

/// Take a tree whose operators have the roles that their positions require, with any numbers of operands and results.
/// Unfolding the nodes into which it folds gives its operators in their flat order: each with its place, word,
/// immediates and hint, but of an `end` only that there is one. By [`trees_say_their_lists`], the tree of any list of
/// operators has these roles.
pub fn folding_loses_nothing()
    ensures { UnfoldingRule }
{}

/// A list of operators, without the `end` after the list, has a folded layout if it is well nested and no operator is
/// `try`, `catch`, `catch_all` or `delegate` (`folded`), and only then (`only`). This holds for any options, names, hints,
/// numbers of operands and results, and types of the items that the operators name, with colors in the text or without.
pub fn nested_operators_are_folded()
    ensures folded { (s : Setting) (signatures : Signatures) → NestedListsAreFolded s signatures }
    ensures only { (s : Setting) (signatures : Signatures) → FoldedListsAreNested s signatures }
{}

/// If the options ask for folded operators, the layout of any module is the one that folds them by the arities of the
/// table of operators and by the types of the module's items that they name. An arity is a number of operands and
/// results. This is one of the ways of folding that
/// [`folded_text_reads_as_flat_by_any_arities`](crate::folded_text_reads_as_flat_by_any_arities) covers.
pub fn folded_text_is_by_own_arities()
    ensures { FoldsByOwnArities }
{}

/// The groups of folded text are the nodes of its tree: one group for each node, in the same order and at the same
/// depth. The items of a group before its inner nodes are those that the text of its operator reads as, or the word
/// `then` or `else`. This holds for any numbers of operands and results by which operators are folded.
///
/// The premises: the operators are well nested and in the table, with the immediates that it lists. Their numbers and
/// the type indices in signatures are in range. None is `try`, `catch`, `catch_all` or `delegate`. Each identifier and
/// each name is UTF-8, and no identifier is empty. The text has no colors, and its indent consists of spaces and tabs.
/// Indices need not be declared, nor identifiers distinct.
pub fn folded_groups_are_nodes()
    ensures { FoldedGroupsAreNodes }
{}

/// The groups of the text of a module whose operators are folded are the nodes of its trees, field by field: a
/// function has those of its body, a global and a table those of their initialisers, and a segment those of its
/// offset and of its items. The items of each group are those of [`folded_groups_are_nodes`].
///
/// The premises: some bytes encode the module, and it is foldable, as in
/// [`printed_text_reads_back`](crate::printed_text_reads_back). The text is not a skeleton and has no colors. Its
/// indent consists of spaces and tabs. No `dylink.0` section is refused. The printer may claim sections, and indices
/// need not be declared.
pub fn folded_modules_have_trees()
    ensures { FoldedModulesHaveTrees }
{}
