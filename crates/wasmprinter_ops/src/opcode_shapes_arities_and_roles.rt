//! Opcodes, and the entries of the table of operators.
ghost use Rattle.std.specs.Prelude.{◌≡◌, map};
ghost use Rattle.wasmprinter_spec.specs.Operator.{opcode};
ghost use Rattle.wasmprinter_spec.specs.Table.{word_of, role_of, shape_of, arity_of};
ghost use Rattle.wasmprinter_spec.specs.Folding.Code.{is_try};
ghost use Rattle.wasmprinter_spec.specs.Instructions.{is_prefix as is_prefix_byte};
ghost use Rattle.wasmprinter_ops.specs.Arities.{optional_arity_view};
ghost use Rattle.wasmprinter_ops.specs.ByNumber.{entry_of, each_entry, each_role};
ghost use Rattle.wasmprinter_ops.specs.Shapes.{optional_shape_view, entry_view, role_view};

use crate::opcode_tables;
use crate::opcode_tables::Entry;
use std::marker::Model;

/// The prefix of operators on structures, arrays and references.
const GC: u8 = 0xfb;

/// The prefix of saturating truncation, of bulk operators on memories and tables, and of wide arithmetic.
const BULK: u8 = 0xfc;

/// The prefix of operators on vectors.
const VECTORS: u8 = 0xfd;

/// The prefix of atomic memory accesses.
const ATOMICS: u8 = 0xfe;

/// The index spaces that immediates refer to (section 2.5, "Indices"). In an index space that imports may
/// extend, the imports come first.
#[derive(Clone, Copy, Debug, PartialEq, Eq)]
pub enum Space {
    /// Types, counted over all recursion groups.
    Types,
    /// Functions.
    Func,
    /// Tables.
    Table,
    /// Memories.
    Memory,
    /// Exception tags.
    Tag,
    /// Globals.
    Global,
    /// Element segments.
    Elem,
    /// Data segments.
    Data,
    /// The parameters and locals of a function.
    Local,
    /// The labels of the blocks around an operator, the innermost first.
    Label,
}

/// The immediates after an opcode, and how the text writes them (sections 5.4 and 6.5).
#[derive(Clone, Copy, Debug, PartialEq, Eq)]
pub enum Shape {
    /// No immediates.
    None,
    /// A byte 00, which the text omits.
    Fence,
    /// A block type.
    Block,
    /// A block type and catch clauses.
    TryTable,
    /// An index in the index space.
    Index(Space),
    /// An index in the index space, which the text omits if it is 0.
    DefaultIndex(Space),
    /// Two indices, in these index spaces.
    Pair(Space, Space),
    /// A structure type and the index of one of its fields.
    Field,
    /// A type index and a number.
    Count,
    /// A function type and a table. The text writes the table first, and omits it if its index is 0.
    Call,
    /// A segment in the first index space and an index in the second. The text writes the index
    /// first, and omits it if it is 0.
    Segment(Space, Space),
    /// Two indices in the index space, which the text omits if both are 0.
    Copy(Space),
    /// The labels of a `br_table`, and its default label.
    BranchTable,
    /// Value types.
    Select,
    /// A heap type.
    Heap,
    /// A heap type, which the text writes as a reference type. The flag says whether the reference may be null.
    Ref(bool),
    /// A label and two reference types.
    Cast,
    /// A memory operand. The number is the exponent of the operator's natural alignment in bytes, a power of two.
    Memory(u32),
    /// A memory operand as above, and a lane.
    MemoryLane(u32),
    /// A lane.
    Lane,
    /// A signed 32-bit integer.
    I32,
    /// A signed 64-bit integer.
    I64,
    /// A 32-bit floating-point number.
    F32,
    /// A 64-bit floating-point number.
    F64,
    /// A 128-bit vector.
    Vector,
    /// Sixteen lanes.
    Lanes,
}

/// The operand and result counts of an operator (section 5.4): fixed numbers, or the item that they depend on, which is
/// a type or label that the operator names, the enclosing function, or an immediate. P and Q are the numbers of
/// parameters and results of the type of the function or tag; v is the number of operands of a branch to the label.
#[derive(Clone, Copy, Debug, PartialEq, Eq)]
pub enum Arity {
    /// The operator takes the first number of operands, and has the second number of results.
    Fixed(u32, u32),
    /// P operands, Q results: `call`.
    OfCall,
    /// P operands: `return_call`.
    OfReturnCall,
    /// P + 1 operands, Q results: `call_indirect`, `call_ref`.
    OfIndirectCall,
    /// P + 1 operands: `return_call_indirect`, `return_call_ref`.
    OfReturnIndirectCall,
    /// P operands: `throw`.
    OfThrow,
    /// As many operands as the enclosing function has results: `return`.
    OfReturn,
    /// v operands: `br`.
    OfBranch,
    /// v + 1 operands, v results: `br_if`.
    OfBranchIf,
    /// v + 1 operands, where v is that of the last label: `br_table`.
    OfBranchTable,
    /// v + 1 operands, v + 1 results: `br_on_null`.
    OfBranchOnNull,
    /// v operands, and v - 1 results, or no results if v is 0: `br_on_non_null`.
    OfBranchOnNonNull,
    /// v operands, v results: `br_on_cast`, `br_on_cast_fail`.
    OfBranchOnCast,
    /// The operator opens, divides or ends a block.
    OfBlock,
    /// As many operands as the structure type has fields, one result: `struct.new`.
    OfStruct,
    /// As many operands as the second immediate says, one result: `array.new_fixed`.
    OfCount,
}

/// The role of an operator among blocks (section 5.4, "Control Instructions", and legacy exception handling).
#[derive(Clone, Copy, Debug, PartialEq, Eq)]
pub enum Role {
    /// The operator neither opens nor closes a block.
    Plain,
    /// The operator opens a block that only `end` closes: `block`, `loop`, `try_table`.
    Opens,
    /// The operator opens a block that may have an `else`: `if`.
    OpensIf,
    /// The operator opens a block that may have handlers: `try`.
    OpensTry,
    /// The operator ends the first arm of an `if` and starts the second: `else`.
    Else,
    /// The operator starts a handler of a `try`: `catch`.
    Catches,
    /// The operator starts the last handler of a `try`: `catch_all`.
    CatchesAll,
    /// The operator closes a `try` that has no handlers: `delegate`.
    Delegates,
    /// The operator closes a block: `end`.
    Ends,
}

impl Role {
    /// Reports whether this is the role of `try`, `catch`, `catch_all` or `delegate` (legacy exception handling).
    pub fn is_of_try(self) -> bool
        ensures { result ≡ is_try (role_view self) }
    {
        match self {
            Role::OpensTry | Role::Catches | Role::CatchesAll | Role::Delegates => true,
            Role::Plain | Role::Opens | Role::OpensIf | Role::Else | Role::Ends => false,
        }
    }
}

/// An opcode: a prefix byte and a number, or a single byte.
#[derive(Clone, Copy, Debug, PartialEq, Eq)]
pub struct Opcode {
    /// The prefix, 0xfb to 0xfe, or 0 if there is no prefix.
    pub prefix: u8,
    /// The number after the prefix or, without a prefix, the byte.
    pub number: u32,
}

impl Model for Opcode {
    ghost use Rattle.wasmprinter_spec.specs.Operator.{Opcode as OpcodeValue};

    ghost Value = { OpcodeValue };

    ghost view = { λ o. record { prefix = o.prefix; number = o.number } };

    ghost inverse = { λ o. record { prefix = o.prefix; number = o.number } };
}

/// Returns the table of one-byte opcodes.
fn one_byte() -> &'static [Option<Entry>]
    ensures { map entry_view result.now ≡ each_entry 0 }
{
    &opcode_tables::ONE_BYTE
}

/// Returns the table of the opcodes with the prefix `GC`.
fn gc() -> &'static [Option<Entry>]
    ensures { map entry_view result.now ≡ each_entry 0xfb }
{
    &opcode_tables::GC
}

/// Returns the table of the opcodes with the prefix `BULK`.
fn bulk() -> &'static [Option<Entry>]
    ensures { map entry_view result.now ≡ each_entry 0xfc }
{
    &opcode_tables::BULK
}

/// Returns the table of the opcodes with the prefix `VECTORS`.
fn vectors() -> &'static [Option<Entry>]
    ensures { map entry_view result.now ≡ each_entry 0xfd }
{
    &opcode_tables::VECTORS
}

/// Returns the table of the opcodes with the prefix `ATOMICS`.
fn atomics() -> &'static [Option<Entry>]
    ensures { map entry_view result.now ≡ each_entry 0xfe }
{
    &opcode_tables::ATOMICS
}

/// Returns the roles of the one-byte opcodes. All opcodes with a prefix have the role `Plain`.
fn one_byte_roles() -> &'static [Role]
    ensures { map role_view result.now ≡ each_role 0 }
{
    &opcode_tables::ROLES
}

/// Returns the words, immediate shapes and arities of the opcodes with the prefix, by their numbers.
fn entries_of(prefix: u8) -> &'static [Option<Entry>]
    ensures { map entry_view result.now ≡ each_entry prefix }
{
    match prefix {
        0 => one_byte(),
        GC => gc(),
        BULK => bulk(),
        VECTORS => vectors(),
        ATOMICS => atomics(),
        _ => &[],
    }
}

/// Returns the roles of the opcodes with the prefix, by their numbers.
fn roles_of(prefix: u8) -> &'static [Role]
    ensures { map role_view result.now ≡ each_role prefix }
{
    match prefix {
        0 => one_byte_roles(),
        _ => &[],
    }
}

/// Reports whether the byte is a prefix, which a number follows.
pub(crate) fn is_prefix(byte: u8) -> bool
    ensures { result ≡ is_prefix_byte byte }
{
    matches!(byte, GC | BULK | VECTORS | ATOMICS)
}

impl Opcode {
    /// Returns the opcode of a single byte.
    pub(crate) fn of_byte(byte: u8) -> Opcode
        ensures { result ≡ opcode 0 byte }
    {
        Opcode {
            prefix: 0,
            number: u32::from(byte),
        }
    }

    /// Returns the opcode of a prefix and a number.
    pub(crate) fn after(prefix: u8, number: u32) -> Opcode
        ensures { result ≡ opcode prefix number }
    {
        Opcode { prefix, number }
    }

    /// Returns the word, the shape and the arity, or `None` for an opcode that the table does not list.
    fn entry(&self) -> Option<Entry>
        ensures { entry_view result ≡ entry_of self.now }
    {
        match entries_of(self.prefix).get(self.number as usize) {
            Some(entry) => *entry,
            None => None,
        }
    }

    /// Returns the word in the text, which is empty for an opcode that the table does not list.
    pub fn word(&self) -> &'static str
        ensures { result.now ≡ word_of self.now }
    {
        match self.entry() {
            Some((word, _, _)) => word,
            None => "",
        }
    }
}

/// Returns the word in the text, as [`Opcode::word`] does, and the shape of the immediates, as [`Listed::shape`] does, by
/// one look-up.
pub fn word_and_shape(opcode: Opcode) -> (&'static str, Option<Shape>)
    ensures word { result.0.now ≡ word_of opcode }
    ensures shape { optional_shape_view result.1 ≡ shape_of opcode }
{
    match opcode.entry() {
        Some((word, shape, _)) => (word, Some(shape)),
        None => ("", None),
    }
}

/// The entry of an opcode in the table of operators, without its word.
pub trait Listed {
    /// Returns the shape of the immediates, or `None` for an opcode that the table does not list.
    fn shape(&self) -> Option<Shape>;

    /// Returns the arity: the operand and result counts, or the items that they depend on. `None` for an opcode that
    /// the table does not list.
    fn arity(&self) -> Option<Arity>;

    /// Returns the role among blocks, which is `Plain` for an opcode that the table does not list.
    fn role(&self) -> Role;
}

impl Listed for Opcode {
    fn shape(&self) -> Option<Shape>
        ensures { optional_shape_view result ≡ shape_of self.now }
    {
        match self.entry() {
            Some((_, shape, _)) => Some(shape),
            None => None,
        }
    }

    fn arity(&self) -> Option<Arity>
        ensures { optional_arity_view result ≡ arity_of self.now }
    {
        match self.entry() {
            Some((_, _, arity)) => Some(arity),
            None => None,
        }
    }

    fn role(&self) -> Role
        ensures { role_view result ≡ role_of self.now }
    {
        match roles_of(self.prefix).get(self.number as usize) {
            Some(role) => *role,
            None => Role::Plain,
        }
    }
}
