//! The frames of a transformation, the top first.

ghost use Rattle.std.specs.Prelude.{◌≡◌, [], ◌∷◌, ◌≤◌, option_map, IfOk, OnOk, OnErr, MatchOption};
ghost use Rattle.frames.specs.Apart.{base};
ghost use Rattle.frames.specs.Depth.{HasRoom, depth, deeper};

use crate::frame::Frame;
use lists::List;
use result_events::Buffer;
use std::alloc::{AllocError, Global};
use std::marker::Model;

/// The frames of a transformation, which contracts see as their list, the top first. At most 500 templates are open.
#[derive(Drop)]
pub struct Stack<'s> {
    items: List<Frame<'s>>,
    nested: u32,
}

impl<'s> Model for Stack<'s> {
    ghost use Rattle.std.specs.Prelude.{◌≡◌, ◌≤◌, List, reverse};
    ghost use Rattle.frames.specs.declared.frame.Frame.{Frame};
    ghost use Rattle.frames.specs.Depth.{depth};
    ghost use Rattle.sheet_ast.specs.contracts.instruction.Instruction as i;
    ghost use Rattle.sheet_ast.specs.contracts.instruction.Variable as v;
    ghost use Rattle.sheet_ast.specs.contracts.instruction.When as w;
    ghost use Rattle.xpath_syntax.specs.contracts.expression.Expr as e;
    ghost use Rattle.std.specs.Coded.{codes};

    ghost Value = { List Frame };

    ghost coded = { Prim.hlevel (codes, i.the_row.coded, v.the_row.coded, w.the_row.coded, e.the_row.coded) };

    ghost view = { λ s. reverse s.items };

    ghost invariant = { λ s. (s.nested ≡ depth (reverse s.items)) × (s.nested ≤ 500) };
}

impl<'s> Stack<'s> {
    /// No frame.
    pub fn start(alloc: Global) -> Result<Stack<'s>, AllocError>
        ensures { IfOk result (λ stack. stack ≡ []) }
    {
        Ok(Stack {
            items: List::new(alloc),
            nested: 0,
        })
    }

    /// How many templates are open: at most 500.
    pub fn depth(&self) -> u32
        ensures count { result ≡ depth self.now }
        ensures most { result ≤ 500 }
    {
        self.nested
    }

    /// Puts a frame on top; that of a template only where fewer than 500 are open. Fails only for want of memory, and
    /// then the stack stays.
    pub fn push(&mut self, frame: Frame<'s>) -> Result<(), AllocError>
        requires { HasRoom frame (depth self.old) }
        ensures ok { OnOk result (self.new ≡ frame.entry ∷ self.old) }
        ensures err { OnErr result (self.new ≡ self.old) }
    {
        let nested = deeper(&frame, self.nested);
        self.items.push(frame)?;
        self.nested = nested;
        Ok(())
    }

    /// The result events outside of the outermost body that is run apart; none, where no body is. Takes at most as many
    /// steps as there are frames.
    pub fn outermost(&self) -> Option<&Buffer>
        ensures { option_map (λ buffer. buffer.now) result ≡ base self.now }
    {
        for frame in self.items.as_slice() {
            if let Frame::Apart { outer, .. } = frame {
                return Some(outer);
            }
        }
        None
    }

    /// Takes the top frame off.
    pub fn pop(&mut self) -> Option<Frame<'s>>
        ensures { MatchOption result ((self.old ≡ []) × (self.new ≡ [])) (λ top. self.old ≡ top ∷ self.new) }
    {
        let top = self.items.pop()?;
        if let Frame::Template { .. } = &top {
            self.nested -= 1;
        }
        Some(top)
    }
}

// How many templates are open with this frame on top.
fn deeper(frame: &Frame, nested: u32) -> u32
    requires few { nested ≤ 500 }
    requires room { HasRoom frame.now nested }
    ensures count { result ≡ deeper frame.now nested }
    ensures most { result ≤ 500 }
{
    match frame {
        Frame::Template { .. } => nested + 1,
        _ => nested,
    }
}
