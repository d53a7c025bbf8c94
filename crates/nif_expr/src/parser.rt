//! Parts to trees, with a stack of what waits for an operand.
ghost use Rattle.std.specs.Prelude.{◌≡◌, ◌∷◌, false, true, Some, IfOk, MatchOption};
ghost use Rattle.std.specs.Option.{option_map};
ghost use Rattle.nif_schema.specs.Expression as spec;
ghost use Rattle.nif_schema.specs.Expression.{tree};
ghost use Rattle.nif_expr.specs.Grammar.{level};
ghost use Rattle.nif_expr.specs.Steps as steps;
ghost use Rattle.nif_expr.specs.Steps.{reduced, around};
ghost use Rattle.nif_expr.specs.Kept.{binds, frame_of, frames, part_of, state_of};

use nif_base::NoMemory;
use nif_schema::{Expr, Op};
use sqlite_items::Boxed;
use std::alloc::Global;

/// A part of a text: a number, a path or the argument; `!`; a parenthesis; a two-sided operator.
#[derive(Drop)]
pub(crate) enum Token {
    Operand(Expr),
    Negation,
    Opening,
    Closing,
    Operator(Op),
}

/// What waits for an operand: `!`, an open parenthesis, or an operator with its left operand.
#[derive(Drop)]
pub(crate) enum Frame {
    Negating,
    Grouping,
    Applying { op: Op, left: Expr },
}

/// What was read so far: an operand is wanted next, or one is there.
#[derive(Drop)]
pub(crate) enum State {
    Wants { stack: Vec<Frame> },
    Has { stack: Vec<Frame>, operand: Expr },
}

/// The level of a two-sided operator, 1 for the loosest.
fn level_of(op: Op) -> u8
    ensures { result ≡ level op }
{
    match op {
        Op::Or => 1,
        Op::And => 2,
        Op::BitOr => 3,
        Op::BitAnd => 4,
        Op::Eq | Op::Ne => 5,
        Op::Lt | Op::Le | Op::Gt | Op::Ge => 6,
        Op::Shl | Op::Shr => 7,
        Op::Add | Op::Sub => 8,
        Op::Mul | Op::Div => 9,
    }
}

fn boxed(alloc: Global, expr: Expr) -> Result<Boxed<Expr>, NoMemory>
    ensures { IfOk result (λ b. b ≡ expr) }
{
    match Boxed::new(alloc, expr) {
        Ok(b) => Ok(b),
        Err(_) => Err(NoMemory),
    }
}

fn negated(alloc: Global, operand: Expr) -> Result<Expr, NoMemory>
    ensures { IfOk result (λ e. tree e ≡ spec.Not (tree operand)) }
{
    let of = boxed(alloc, operand)?;
    Ok(Expr::Not { of })
}

fn applied(alloc: Global, op: Op, left: Expr, right: Expr) -> Result<Expr, NoMemory>
    ensures { IfOk result (λ e. tree e ≡ spec.Two op (tree left) (tree right)) }
{
    let left = boxed(alloc, left)?;
    let right = boxed(alloc, right)?;
    Ok(Expr::Two { op, left, right })
}

/// Whether the top of the stack binds an operand at least as tightly as this level.
fn top_binds(stack: &[Frame], least: u8) -> bool
    ensures { result ≡ binds least (frames stack.now) }
{
    match stack.last() {
        Some(Frame::Negating) => true,
        Some(Frame::Applying { op, .. }) => least <= level_of(*op),
        Some(Frame::Grouping) | None => false,
    }
}

/// Takes the top of the stack where it binds an operand at least as tightly as this level.
fn pop_bound(stack: &mut Vec<Frame>, least: u8) -> Option<Frame>
    ensures stays { MatchOption result
        (frames stack.new.items ≡ frames stack.old.items)
        (λ frame. frames stack.old.items ≡ frame_of frame ∷ frames stack.new.items) }
    ensures bound { MatchOption result
        (binds least (frames stack.old.items) ≡ false)
        (λ _. binds least (frames stack.old.items) ≡ true) }
{
    if top_binds(stack.as_slice(), least) {
        stack.pop()
    } else {
        None
    }
}

/// The operand inside what waited for it.
fn wrapped(alloc: Global, frame: Frame, operand: Expr) -> Result<Expr, NoMemory>
    ensures { IfOk result (λ e. tree e ≡ around (frame_of frame) (tree operand)) }
{
    match frame {
        Frame::Negating => negated(alloc, operand),
        Frame::Grouping => Ok(operand),
        Frame::Applying { op, left } => applied(alloc, op, left, operand),
    }
}

/// Puts all that binds at least as tightly as this level round the operand.
fn reduce(
    alloc: Global,
    mut stack: Vec<Frame>,
    least: u8,
    mut operand: Expr,
) -> Result<(Vec<Frame>, Expr), NoMemory>
    ensures { IfOk result (λ r.
        (frames r.0.items, tree r.1) ≡ reduced least (frames stack.items) (tree operand)) }
{
    while let Some(frame) = pop_bound(&mut stack, least) {
        operand = wrapped(alloc, frame, operand)?;
    }
    Ok((stack, operand))
}

/// An operand is wanted under this frame.
fn waiting(mut stack: Vec<Frame>, frame: Frame) -> Result<Option<State>, NoMemory>
    ensures { IfOk result (λ next.
        option_map state_of next ≡ Some (steps.Wants (frame_of frame ∷ frames stack.items))) }
{
    match stack.push(frame) {
        Ok(()) => Ok(Some(State::Wants { stack })),
        Err(_) => Err(NoMemory),
    }
}

/// The operand, which has just been closed by a parenthesis, where one is open.
fn closed(mut stack: Vec<Frame>, operand: Expr) -> Option<State>
    ensures { MatchOption result
        (steps.closed (frames stack.items) (tree operand) ≡ steps.Fails)
        (λ next. state_of next ≡ steps.closed (frames stack.items) (tree operand)) }
{
    match stack.pop() {
        Some(Frame::Grouping) => Some(State::Has { stack, operand }),
        Some(Frame::Negating | Frame::Applying { .. }) | None => None,
    }
}

/// Reads one part more, or answers None where no expression begins with these parts.
pub(crate) fn step(alloc: Global, state: State, token: Token) -> Result<Option<State>, NoMemory>
    ensures { IfOk result (λ next. MatchOption next
        (steps.step (state_of state) (part_of token) ≡ steps.Fails)
        (λ s. state_of s ≡ steps.step (state_of state) (part_of token))) }
{
    match state {
        State::Wants { stack } => match token {
            Token::Operand(operand) => Ok(Some(State::Has { stack, operand })),
            Token::Negation => waiting(stack, Frame::Negating),
            Token::Opening => waiting(stack, Frame::Grouping),
            Token::Closing | Token::Operator(_) => Ok(None),
        },
        State::Has { stack, operand } => match token {
            Token::Closing => {
                let (stack, operand) = reduce(alloc, stack, 1, operand)?;
                Ok(closed(stack, operand))
            }
            Token::Operator(op) => {
                let (stack, left) = reduce(alloc, stack, level_of(op), operand)?;
                waiting(stack, Frame::Applying { op, left })
            }
            Token::Operand(_) | Token::Negation | Token::Opening => Ok(None),
        },
    }
}

/// The expression that was read, where nothing waits any more.
pub(crate) fn finish(alloc: Global, state: State) -> Result<Option<Expr>, NoMemory>
    ensures { IfOk result (λ e. option_map tree e ≡ steps.finish (state_of state)) }
{
    match state {
        State::Wants { .. } => Ok(None),
        State::Has { stack, operand } => {
            let (stack, operand) = reduce(alloc, stack, 1, operand)?;
            Ok(if stack.is_empty() {
                Some(operand)
            } else {
                None
            })
        }
    }
}
