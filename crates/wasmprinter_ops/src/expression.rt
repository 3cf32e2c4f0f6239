//! Expressions (section 5.4, "Expressions"): operators up to the `end` that closes them. The operators are not kept;
//! each operator is read again from the bytes when it is requested.
ghost use Rattle.std.specs.Prelude.{◌≡◌, ◌↔◌, ◌<◌, ◌≤◌, ◌^◌, [], length, IsTrue};
ghost use Rattle.wasmprinter_spec.specs.Instructions.{expression, roles};
ghost use Rattle.wasmprinter_spec.specs.Nesting.{Nests, Sequence};
ghost use Rattle.wasmprinter_bytes.specs.Reads.{end_of};
ghost use Rattle.wasmprinter_bytes.specs.Lists.{DecodesWithAllocation, reader};
ghost use Rattle.wasmprinter_ops.specs.Operators.{SkipsOperators, ReachesBlock};

use crate::open_blocks::{Blocks, Step};
use crate::operator::{Operator, pass_operator, read_placed};
use std::alloc::Global;
use std::marker::Model;
use wasmprinter_bytes::Error;
use wasmprinter_bytes::cursor::Cursor;
use wasmprinter_bytes::decode_traits::GrownIn;

/// An iterator over the remaining operators, each with its place.
#[derive(Drop)]
pub struct OperatorsReader<'a> {
    cursor: Cursor<'a>,
}

impl<'a> Model for OperatorsReader<'a> {
    ghost use Rattle.std.specs.Prelude.{List};
    ghost use Rattle.wasmprinter_spec.specs.Grammar.{Placed};
    ghost use Rattle.wasmprinter_spec.specs.Operator.{Operator as OperatorValue};
    ghost use Rattle.wasmprinter_ops.specs.Operators.{operators_in, HasOperators};

    ghost Value = { List (Placed OperatorValue) };

    ghost view = { λ r. operators_in r.cursor };

    ghost invariant = { λ r. HasOperators r.cursor };
}

impl<'a> Iterator for OperatorsReader<'a> {
    ghost use Rattle.std.specs.Iterator.{YieldsFirst, item_count};
    ghost use Rattle.wasmprinter_ops.specs.Operators.{pairs};

    type Item = (u64, Operator<'a>);

    ghost next_gives = { YieldsFirst pairs };

    ghost remaining = { item_count pairs };

    #[inline(always)]
    fn next(&mut self) -> Option<(u64, Operator<'a>)> {
        if self.cursor.is_empty() {
            return None;
        }
        match read_placed(&mut self.cursor) {
            Ok(operator) => Some(operator),
            Err(_) => unreachable!(),
        }
    }
}

/// Operators and the `end` that closes them, as bytes whose encoding was checked.
#[derive(Drop)]
pub struct Expression<'a> {
    /// The bytes before the last `end`.
    operators: Cursor<'a>,
}

impl<'a> Model for Expression<'a> {
    ghost use Rattle.wasmprinter_spec.specs.Grammar.{Placed};
    ghost use Rattle.wasmprinter_spec.specs.Operator.{Operator as OperatorValue};
    ghost use Rattle.wasmprinter_spec.specs.Instructions.{Closed};
    ghost use Rattle.wasmprinter_bytes.specs.Reads.{end_of};
    ghost use Rattle.wasmprinter_ops.specs.Operators.{operators_in, HasExpression};

    ghost Value = { Closed (Placed OperatorValue) };

    ghost view = { λ e. record { items = operators_in e.operators; end = end_of e.operators } };

    ghost invariant = { λ e. HasExpression e.operators };
}

/// Reads operators up to the `end` that closes them, and returns the place of that `end`.
fn skip_operators(alloc: Global, cursor: &mut Cursor) -> Result<u64, Error>
    ensures reads { SkipsOperators cursor.old result cursor.new }
    ensures end { end_of cursor.new ≡ end_of cursor.old }
    ensures forward { cursor.old.place ≤ cursor.new.place }
{
    let mut blocks = Blocks::new(alloc);
    loop {
        let place = cursor.place();
        let role = pass_operator(cursor)?;
        match blocks.advance(role)? {
            Step::On => {}
            Step::Stop => return Ok(place),
            Step::Refused => return Err(Error::Malformed { place }),
        }
    }
}

impl<'a> Expression<'a> {
    /// Reads operators and the `end` that closes them. On `Ok`, the cursor is then after that `end`. After an error,
    /// the cursor may have advanced.
    ///
    /// # Errors
    ///
    /// - `Malformed` if the bytes do not encode well-nested operators with their `end`, with a place as
    ///   [`Error::Malformed`](wasmprinter_bytes::Error::Malformed) describes it. The contract only says that this place
    ///   is not before the cursor's and not after the end of the bytes; tests check it.
    /// - `Memory` if an allocation fails, which happens only if the bytes encode operators up to one that opens a block
    ///   (`ReachesBlock`).
    ///
    /// No other error is returned.
    pub fn read(alloc: Global, cursor: &mut Cursor<'a>) -> Result<Self, Error>
        ensures { DecodesWithAllocation (λ e. e) (reader expression.parse ReachesBlock) cursor.old result cursor.new }
    {
        let start = cursor.fork();
        let end = skip_operators(alloc, cursor)?;
        let len = end - start.place();
        Ok(Expression {
            operators: start.front(len as usize),
        })
    }

    /// Returns the same expression again, as a second view of its bytes.
    pub fn fork(&self) -> Expression<'a>
        ensures { result ≡ self.now }
    {
        Expression {
            operators: self.operators.fork(),
        }
    }

    /// Returns the operators in order, each with its place, without the last `end` (`all`). They are well nested
    /// (`nested`), and fewer than 2^64, since each takes at least one byte in memory (`few`).
    pub fn operators(&self) -> OperatorsReader<'a>
        ensures all { result ≡ self.now.items }
        ensures nested { Nests Sequence (roles self.now.items) }
        ensures few { length self.now.items < 2 ^ 64 }
    {
        OperatorsReader {
            cursor: self.operators.fork(),
        }
    }

    /// Reports whether there is no operator before the last `end`.
    pub fn is_empty(&self) -> bool
        ensures { IsTrue result ↔ (self.now.items ≡ []) }
    {
        self.operators.is_empty()
    }

    /// Returns the place of the byte of the last `end` itself, not that of the byte after it: a byte offset from the
    /// start of the module.
    pub fn end(&self) -> u64
        ensures { result ≡ self.now.end }
    {
        self.operators.end()
    }
}

impl<'a> GrownIn<'a> for Expression<'a> {
    ghost parse = { expression.parse };

    ghost grows = { ReachesBlock };

    fn read(alloc: Global, cursor: &mut Cursor<'a>) -> Result<Expression<'a>, Error> {
        Expression::read(alloc, cursor)
    }
}
