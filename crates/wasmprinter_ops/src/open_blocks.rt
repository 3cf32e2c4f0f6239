//! The nesting of operators (section 5.4, "Control Instructions"): the blocks that are open
//! after the operators read so far.
ghost use Rattle.std.specs.Prelude.{◌≡◌, IfOk};
ghost use Rattle.wasmprinter_spec.specs.Nesting.{Enter, Become, at_start, move_outwards, move_by_turn};
ghost use Rattle.wasmprinter_ops.specs.Nesting.{frame_view, Steps, Advances};
ghost use Rattle.wasmprinter_ops.specs.Shapes.{role_view};

use crate::opcode_shapes_arities_and_roles::Role;
use std::alloc::{AllocError, Global};
use std::marker::Model;

/// An open block, by the operators that may close or continue it.
#[derive(Clone, Copy, Debug, PartialEq, Eq)]
enum Frame {
    /// A block that only `end` closes.
    Block,
    /// An `if` that may still have an `else`.
    If,
    /// A `try` before its first handler, which `delegate` may close.
    Try,
    /// A `catch`, after which other handlers may follow.
    Catch,
}

/// The effect of an operator on the open blocks.
#[derive(Clone, Copy, Debug, PartialEq, Eq)]
pub(crate) enum Step {
    /// Blocks are open after the operator.
    On,
    /// The operator closes the last open block.
    Stop,
    /// The operator is not allowed here.
    Refused,
}

/// The open blocks.
#[derive(Drop)]
pub(crate) struct Blocks {
    innermost: Frame,
    /// The blocks around the innermost, outermost first.
    outer: Vec<Frame>,
}

impl Model for Blocks {
    ghost use Rattle.wasmprinter_spec.specs.Nesting.{Open, open_frames};
    ghost use Rattle.wasmprinter_ops.specs.Nesting.{frame_view, frames_view};

    ghost Value = { Open };

    ghost view = { λ b. open_frames (frame_view b.innermost) (frames_view b.outer.items) };
}

impl Blocks {
    /// Returns the state at the start of an expression.
    pub(crate) fn new(alloc: Global) -> Self
        ensures { result ≡ at_start }
    {
        Blocks {
            innermost: Frame::Block,
            outer: Vec::new(alloc),
        }
    }

    /// Opens a block.
    fn enter(&mut self, frame: Frame) -> Result<Step, AllocError>
        ensures { IfOk result (λ s. Steps (move_by_turn (Enter (frame_view frame)) self.old) s self.new) }
    {
        self.outer.push(self.innermost)?;
        self.innermost = frame;
        Ok(Step::On)
    }

    /// Continues the innermost block as `frame`.
    fn go_on(&mut self, frame: Frame) -> Step
        ensures { Steps (move_by_turn (Become (frame_view frame)) self.old) result self.new }
    {
        self.innermost = frame;
        Step::On
    }

    /// Closes the innermost block.
    fn leave(&mut self) -> Step
        ensures { Steps (move_outwards self.old.outer) result self.new }
    {
        match self.outer.pop() {
            Some(frame) => {
                self.innermost = frame;
                Step::On
            }
            None => Step::Stop,
        }
    }

    /// Applies the role of the next operator. Only an operator that opens a block allocates.
    pub(crate) fn advance(&mut self, role: Role) -> Result<Step, AllocError>
        ensures { Advances self.old (role_view role) result self.new }
    {
        match role {
            Role::Plain => Ok(Step::On),
            Role::Opens => self.enter(Frame::Block),
            Role::OpensIf => self.enter(Frame::If),
            Role::OpensTry => self.enter(Frame::Try),
            Role::Ends => Ok(self.leave()),
            Role::Else => match self.innermost {
                Frame::If => Ok(self.go_on(Frame::Block)),
                Frame::Block | Frame::Try | Frame::Catch => Ok(Step::Refused),
            },
            Role::Catches => match self.innermost {
                Frame::Try | Frame::Catch => Ok(self.go_on(Frame::Catch)),
                Frame::Block | Frame::If => Ok(Step::Refused),
            },
            Role::CatchesAll => match self.innermost {
                Frame::Try | Frame::Catch => Ok(self.go_on(Frame::Block)),
                Frame::Block | Frame::If => Ok(Step::Refused),
            },
            Role::Delegates => match self.innermost {
                Frame::Try => Ok(self.leave()),
                Frame::Block | Frame::If | Frame::Catch => Ok(Step::Refused),
            },
        }
    }
}
