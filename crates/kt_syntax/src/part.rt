//! The parts of lines in blocks, found from the first line to the last.
ghost use Rattle.std.specs.Prelude.{◌≡◌, ◌≤◌, ◌<◌, ◌^◌, ℕ, None, IfOk};
ghost use Rattle.kt_syntax.specs.Parts.{after, after_else, body_part, define_after, else_part, missing_in};
ghost use Rattle.kt_syntax.specs.inner.Blocks.{depth_of};
ghost use Rattle.kt_syntax.specs.Parts.{block_part, nothing_open};
ghost use Rattle.kt_syntax.specs.declared.role.Role.TheVariants as role;

use crate::role::{NumberedRole, Role};
use std::alloc::{AllocError, Global};
use std::collections::VecDeque;
use std::marker::Model;

/// A line that continues or ends a block where it can't.
#[derive(Clone, Copy, Debug, PartialEq, Eq)]
pub enum Stray {
    /// An `else` outside conditionals.
    Else,
    /// An `else` after the plain `else` of its conditional, met after the branch that is chosen.
    LateElse,
    /// An `endif` outside conditionals.
    Endif,
    /// An `endef` outside defines.
    Endef,
}

/// The end that is missing, with the number of the line that opens its block.
#[derive(Clone, Copy, Debug, PartialEq, Eq)]
pub enum Missing {
    /// No `endif`.
    Endif(u64),
    /// No `endef`.
    Endef(u64),
}

/// The part of a line in the blocks of its text.
#[derive(Clone, Copy, Debug, PartialEq, Eq)]
pub(crate) enum BlockPart {
    /// It is in no define, and opens, continues and ends nothing.
    Line,
    /// It is in the body of a define.
    Body,
    /// It opens a define.
    Define,
    /// It ends one.
    Endef,
    /// It opens a conditional.
    Conditional,
    /// It begins a further branch, with a condition or without.
    Branch(bool),
    /// It ends a conditional.
    Endif,
    /// It is stray.
    Stray(Stray),
}

/// An open conditional: the number of its line, and whether its plain `else` has come.
#[derive(Clone, Copy, Debug, PartialEq, Eq)]
pub struct OpenConditional {
    pub number: u64,
    pub plain_else: bool,
}

/// An open define: the number of its line, and how many defines are open in its body.
#[derive(Clone, Copy, Debug, PartialEq, Eq)]
pub(crate) struct OpenDefine {
    pub number: u64,
    pub depth: usize,
}

// The blocks that are open at a line, of the conditionals the innermost first.
#[derive(Drop)]
pub(crate) struct Scan {
    define: Option<OpenDefine>,
    conditionals: VecDeque<OpenConditional>,
}

impl Model for Scan {
    ghost use Rattle.kt_syntax.specs.Parts.{Scan};

    ghost Value = { Scan };

    ghost view = { λ scan. record { define = scan.define; conditionals = scan.conditionals.items } };
}

impl Scan {
    pub(crate) fn new(alloc: Global) -> Scan
        ensures { result ≡ nothing_open }
    {
        Scan {
            define: None,
            conditionals: VecDeque::new(alloc),
        }
    }

    // The part of a line that opens, continues and ends nothing, and changes nothing.
    #[tactic(auto, unfolding(crate::specs::Parts::block_part, crate::specs::Parts::after))]
    pub(crate) fn ordinary_part(&self) -> BlockPart
        ensures part { result ≡ block_part self.now role.Ordinary }
        ensures same { (number : ℕ) → self.now ≡ after self.now (record { role = role.Ordinary; number = number }) }
    {
        match self.define {
            Some(_) => BlockPart::Body,
            None => BlockPart::Line,
        }
    }

    // The part of the next line.
    #[tactic(auto, unfolding(crate::specs::Parts::block_part, crate::specs::Parts::after))]
    pub(crate) fn advance(&mut self, head: NumberedRole) -> Result<BlockPart, AllocError>
        requires { depth_of self.old < 2 ^ 63 }
        ensures part { IfOk result (λ part. part ≡ block_part self.old head.role) }
        ensures scan { IfOk result (λ _. self.new ≡ after self.old head) }
    {
        match self.define {
            Some(define) => {
                let (part, still_open) = in_define(define, head.role);
                self.define = still_open;
                Ok(part)
            }
            None => self.advance_outside(head),
        }
    }

    #[tactic(auto, unfolding(crate::specs::Parts::block_part, crate::specs::Parts::after))]
    fn advance_outside(&mut self, head: NumberedRole) -> Result<BlockPart, AllocError>
        requires { self.old.define ≡ None }
        ensures part { IfOk result (λ part. part ≡ block_part self.old head.role) }
        ensures scan { IfOk result (λ _. self.new ≡ after self.old head) }
    {
        match head.role {
            Role::Ordinary => Ok(BlockPart::Line),
            Role::Define => {
                self.define = Some(OpenDefine {
                    number: head.number,
                    depth: 0,
                });
                Ok(BlockPart::Define)
            }
            Role::Endef => Ok(BlockPart::Stray(Stray::Endef)),
            Role::Conditional => {
                self.conditionals.push_front(OpenConditional {
                    number: head.number,
                    plain_else: false,
                })?;
                Ok(BlockPart::Conditional)
            }
            Role::Else(condition) => self.branch(condition),
            Role::Endif => match self.conditionals.pop_front() {
                Some(_) => Ok(BlockPart::Endif),
                None => Ok(BlockPart::Stray(Stray::Endif)),
            },
        }
    }

    // The part of an `else` outside defines.
    fn branch(&mut self, condition: bool) -> Result<BlockPart, AllocError>
        requires { self.old.define ≡ None }
        ensures part { IfOk result (λ part. part ≡ else_part self.old.conditionals condition) }
        ensures scan { IfOk result (λ _. self.new
            ≡ record self.old { conditionals = after_else self.old.conditionals condition }) }
    {
        let Some(innermost) = self.conditionals.pop_front() else {
            return Ok(BlockPart::Stray(Stray::Else));
        };
        self.conditionals.push_front(OpenConditional {
            number: innermost.number,
            plain_else: innermost.plain_else || !condition,
        })?;
        if innermost.plain_else {
            Ok(BlockPart::Stray(Stray::LateElse))
        } else {
            Ok(BlockPart::Branch(condition))
        }
    }

    // The end that is missing where the text ends here.
    pub(crate) fn missing(&self) -> Option<Missing>
        ensures { result ≡ missing_in self.now }
    {
        match (self.define, self.conditionals.front()) {
            (Some(define), _) => Some(Missing::Endef(define.number)),
            (None, Some(innermost)) => Some(Missing::Endif(innermost.number)),
            (None, None) => None,
        }
    }
}

// The part of a line of a define's body, or of its end, and the define if it is still open.
fn in_define(define: OpenDefine, role: Role) -> (BlockPart, Option<OpenDefine>)
    requires { define.depth < 2 ^ 63 }
    ensures part { result.0 ≡ body_part role define.depth }
    ensures left { result.1 ≡ define_after define.number define.depth role }
{
    let depth = match role {
        Role::Define => define.depth + 1,
        Role::Endef if define.depth == 0 => return (BlockPart::Endef, None),
        Role::Endef => define.depth - 1,
        _ => define.depth,
    };
    let still_open = OpenDefine {
        number: define.number,
        depth,
    };
    (BlockPart::Body, Some(still_open))
}
