//! Tests of the labels of a few functions. The names and the expected labels are typed by hand.
ghost use Rattle.std.specs.Prelude.{◌≤◌};

use crate::parts::printing::names_of;
use std::alloc::Global;
use std::test::Fail;
use wasmprinter_custom::{Identifier, Identifiers, Name, Space};
use wasmprinter_flat::open_labels::{LabelRef, OpenLabels};
use wasmprinter_ops::opcode_shapes_arities_and_roles::Role;

/// The name `a`, whose identifier is the name itself.
const A: Identifier<'static> = Identifier::Given(Name {
    given: "a",
    content: "a",
});

/// The name `b`, whose identifier is the name itself.
const B: Identifier<'static> = Identifier::Given(Name {
    given: "b",
    content: "b",
});

/// The identifier that is synthesized for a block outside all other blocks.
const OUTERMOST: Identifier<'static> = Identifier::Synthesized {
    space: Space::Label,
    number: 0,
};

/// The identifier that is synthesized for a block within one other block.
const INNER: Identifier<'static> = Identifier::Synthesized {
    space: Space::Label,
    number: 1,
};

/// A step of a test: a change of the open labels, or an expected fact about them.
#[derive(Clone, Copy)]
enum Step {
    /// Start an expression of this function.
    Begin(u64),
    /// Advance past an operator with this role.
    Advance(Role),
    /// Expect this identifier for the block that would be opened next.
    Own(Option<Identifier<'static>>),
    /// Expect this number of open blocks.
    Depth(u64),
    /// Expect the label to mean this in an operator with this role.
    Find(Role, u32, LabelRef<'static>),
}

/// Open labels, with an upper bound on the number of operators that they advanced past.
#[derive(Drop)]
struct Walk<'n, 'a> {
    labels: OpenLabels<'n, 'a>,
    operators: u32,
    ghost counted: { labels.count ≤ operators },
}

impl<'n, 'a> Walk<'n, 'a> {
    /// Starts an expression of this function.
    fn begin(&mut self, function: u64) {
        self.labels.begin(function);
    }

    /// Advances past an operator with this role. Returns false, and does not advance, if the number of operators would
    /// exceed 32 bits.
    fn advance(&mut self, role: Role) -> bool {
        if self.operators == u32::MAX {
            return false;
        }
        self.operators += 1;
        self.labels.advance(role);
        true
    }

    /// Performs a step. Returns whether the step could be made, or its expected fact holds.
    fn takes(&mut self, step: &Step) -> bool {
        match step {
            Step::Begin(function) => {
                self.begin(*function);
                true
            }
            Step::Advance(role) => self.advance(*role),
            Step::Own(own) => self.labels.own() == *own,
            Step::Depth(depth) => self.labels.depth() == *depth,
            Step::Find(role, label, meant) => self.labels.find(*role, *label) == *meant,
        }
    }

    /// Performs the steps in order. Returns the number of the first that fails, or `None` if none fails.
    fn first_wrong(&mut self, steps: &[Step]) -> Option<usize> {
        for (number, step) in steps.iter().enumerate() {
            if !self.takes(step) {
                return Some(number);
            }
        }
        None
    }
}

/// Three nested blocks: `a`, `b` in it, and another `a` in that.
const HIDDEN: &[Step] = &[
    Step::Begin(0),
    Step::Own(Some(A)),
    Step::Advance(Role::Opens),
    Step::Own(Some(B)),
    Step::Advance(Role::OpensIf),
    Step::Advance(Role::Else),
    Step::Find(Role::Plain, 1, LabelRef::ByName(A)),
    Step::Own(Some(A)),
    Step::Advance(Role::OpensTry),
    Step::Depth(3),
    Step::Own(None),
    Step::Find(Role::Plain, 0, LabelRef::ByName(A)),
    Step::Find(Role::Plain, 1, LabelRef::ByName(B)),
    // The outer `a`, which the inner one shadows
    Step::Find(Role::Plain, 2, LabelRef::ByNumber),
    // The body
    Step::Find(Role::Plain, 3, LabelRef::ByNumber),
    Step::Find(Role::Plain, 4, LabelRef::ToNothing),
    Step::Advance(Role::Ends),
    Step::Depth(2),
    Step::Find(Role::Plain, 0, LabelRef::ByName(B)),
    Step::Find(Role::Plain, 1, LabelRef::ByName(A)),
];

/// Blocks that end in `delegate`, with the labels of all blocks around them.
const DELEGATED: &[Step] = &[
    Step::Begin(0),
    Step::Find(Role::Delegates, 0, LabelRef::ByNumber),
    Step::Find(Role::Delegates, 1, LabelRef::ToNothing),
    Step::Advance(Role::Opens),
    Step::Advance(Role::OpensTry),
    // The `try` is `b`
    Step::Find(Role::Delegates, 0, LabelRef::ByName(A)),
    Step::Advance(Role::Delegates),
    Step::Depth(1),
    Step::Find(Role::Plain, 0, LabelRef::ByName(A)),
    Step::Advance(Role::OpensTry),
    // The `try` is `a`, and so shadows the label of the block around it
    Step::Find(Role::Delegates, 0, LabelRef::ByNumber),
    Step::Find(Role::Delegates, 1, LabelRef::ByNumber),
    Step::Find(Role::Delegates, 2, LabelRef::ToNothing),
    Step::Advance(Role::Catches),
    Step::Advance(Role::CatchesAll),
    Step::Depth(2),
];

/// A block without a name that contains the block `a` and then another block without a name.
const NAMELESS: &[Step] = &[
    Step::Begin(0),
    Step::Own(None),
    Step::Advance(Role::Opens),
    Step::Advance(Role::Opens),
    Step::Find(Role::Plain, 0, LabelRef::ByName(A)),
    Step::Find(Role::Plain, 1, LabelRef::ToBlock(1)),
    Step::Advance(Role::Ends),
    Step::Advance(Role::Opens),
    Step::Find(Role::Plain, 0, LabelRef::ToBlock(2)),
];

/// The identifier of label 1, whose name is `#q`.
const SECOND: Identifier<'static> = Identifier::Given(Name {
    given: "#q",
    content: "#label1 #q",
});

/// The identifier of label 2, whose name is empty.
const THIRD: Identifier<'static> = Identifier::Given(Name {
    given: "",
    content: "#label2 ",
});

/// Blocks whose names are not used as identifiers, and blocks without names, with identifiers synthesized.
const SYNTHESIZED: &[Step] = &[
    Step::Begin(0),
    Step::Own(Some(OUTERMOST)),
    Step::Advance(Role::Opens),
    Step::Own(Some(SECOND)),
    Step::Advance(Role::Opens),
    Step::Advance(Role::Ends),
    Step::Own(Some(THIRD)),
    Step::Advance(Role::Opens),
    Step::Advance(Role::Ends),
    // The third block in the outermost one
    Step::Own(Some(INNER)),
    Step::Advance(Role::Opens),
    Step::Find(Role::Plain, 0, LabelRef::ByName(INNER)),
    Step::Find(Role::Plain, 1, LabelRef::ByName(OUTERMOST)),
];

/// Blocks of several functions, two of which have a label `a`.
const FUNCTIONS: &[Step] = &[
    Step::Begin(1),
    Step::Own(Some(A)),
    Step::Advance(Role::Opens),
    Step::Advance(Role::Opens),
    // A new expression starts without open blocks
    Step::Begin(3),
    Step::Depth(0),
    Step::Find(Role::Plain, 1, LabelRef::ToNothing),
    Step::Own(Some(A)),
    Step::Advance(Role::Opens),
    Step::Find(Role::Plain, 0, LabelRef::ByName(A)),
    // A function may follow one with a greater index
    Step::Begin(2),
    Step::Own(None),
    Step::Begin(1),
    Step::Own(Some(A)),
    Step::Begin(0),
    Step::Own(None),
    Step::Begin(4),
    Step::Own(None),
    // An `end` without an open block changes nothing
    Step::Begin(1),
    Step::Advance(Role::Ends),
    Step::Depth(0),
];

/// Labels: the name of the row, the content of a section with the names of labels, whether identifiers are
/// synthesized, and the steps.
type Row = (&'static str, &'static [u8], bool, &'static [Step]);

/// The labels of function 0: 0 `a`, 1 `b`, 2 `a`.
const A_B_A: &[u8] = b"\x03\x0c\x01\x00\x03\x00\x01a\x01\x01b\x02\x01a";

const ROWS: &[Row] = &[
    ("a label is hidden for a while", A_B_A, false, HIDDEN),
    ("`delegate` leaves its block out", A_B_A, false, DELEGATED),
    (
        "blocks without names go by depth",
        // Label 1 of function 0: `a`
        b"\x03\x06\x01\x00\x01\x01\x01a",
        false,
        NAMELESS,
    ),
    (
        "identifiers are synthesized by depth",
        // Labels of function 0: 1 `#q`, 2 the empty name
        b"\x03\x09\x01\x00\x02\x01\x02#q\x02\x00",
        true,
        SYNTHESIZED,
    ),
    (
        "labels are those of the function",
        // Label 0 of function 1: `a`; label 0 of function 3: `a`
        b"\x03\x0b\x02\x01\x01\x00\x01a\x03\x01\x00\x01a",
        false,
        FUNCTIONS,
    ),
];

/// Checks that all steps succeed, for labels with the names of this section.
///
/// # Errors
///
/// - A step fails.
fn expect_steps(alloc: Global, (name, section, synthesizes, steps): Row) -> Result<(), Fail> {
    let names = names_of(alloc, section)?;
    let identifiers = Identifiers {
        names: &names,
        synthesizes,
    };
    let labels = OpenLabels::new(alloc, identifiers)?;
    if labels.identifiers().synthesizes != synthesizes {
        return Err((name, "the identifiers differ"))?;
    }
    let mut walk = Walk {
        labels,
        operators: 0,
    };
    match walk.first_wrong(steps) {
        None => Ok(()),
        Some(step) => Err((name, step))?,
    }
}

/// Checks that all steps of each row succeed.
///
/// # Errors
///
/// - A step fails.
fn expect_rows(alloc: Global, rows: &[Row]) -> Result<(), Fail> {
    for row in rows {
        expect_steps(alloc, *row)?;
    }
    Ok(())
}

#[test]
fn labels_refer_to_open_blocks(rt: HostRuntime) -> Result<(), Fail> {
    expect_rows(rt.alloc(), ROWS)
}
