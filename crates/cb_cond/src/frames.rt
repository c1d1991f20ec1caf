//! Reading a condition from the left, in a room of fixed size.
//!
//! What waits for its end lies in frames, the innermost first: from `top` on in a slice whose front is free.
ghost use Rattle.std.specs.Prelude.{◌≡◌, ℕ, ◌<◌, ◌≤◌, ◌∷◌, length, drop, IfSome};
ghost use Rattle.cb_cond.specs.Grammar.{level};
ghost use Rattle.cb_cond.specs.inner.Frames.{ends, joined, closed, prefix_of, awaiting, holding, step, held_of, read_of, whole_of};

use crate::meaning::{Meaning, Value};
use crate::operations::{binary_meaning, choice_meaning};
use crate::prefixes::Prefixes;
use crate::symbol::{Operator, Prefix, Symbol};

/// What waits for its end.
#[derive(Clone, Copy, Debug, PartialEq, Eq)]
pub(crate) enum Frame {
    /// An operator with its left operand.
    Left(Operator, Meaning),
    /// An open parenthesis behind a run of operators.
    Inside(Prefixes),
    /// A condition behind which `?` stands.
    Asked(Meaning),
    /// A condition and its first branch, behind which `:` stands.
    Answered(Meaning, Meaning),
}

/// What stands at the end of what was read.
#[derive(Clone, Copy, Debug, PartialEq, Eq)]
pub(crate) enum Held {
    /// A run of operators: an operand is to come.
    Awaits(Prefixes),
    /// An operand.
    Has(Meaning),
}

/// How far a condition was read. The parts of both cases lie side by side, so that each has a place of its own, and the case
/// that does not hold keeps what it had.
#[derive(Clone, Copy, Debug, PartialEq, Eq)]
pub(crate) struct Position {
    /// Where the innermost frame lies.
    pub(crate) top: usize,
    /// Whether an operand is to come.
    awaits: bool,
    /// The run of operators before the operand that is to come.
    run: Prefixes,
    /// The operand at the end, where none is to come.
    operand: Meaning,
}

impl Position {
    /// Nothing was read: an operand is to come.
    #[tactic(auto, unfolding(crate::specs::inner::Frames::held_of))]
    pub(crate) fn start(top: usize) -> Position
        ensures top { result.top ≡ top }
        ensures held { held_of result ≡ Held.Awaits Prefixes.NONE }
    {
        let value = Value::Bits(0);
        Position {
            top,
            awaits: true,
            run: Prefixes::NONE,
            operand: Meaning {
                unsigned: false,
                value,
            },
        }
    }

    /// An operand is to come behind a run of operators.
    #[inline(always)]
    #[tactic(auto, unfolding(crate::specs::inner::Frames::held_of))]
    fn before(self, top: usize, run: Prefixes) -> Position
        ensures top { result.top ≡ top }
        ensures held { held_of result ≡ Held.Awaits run }
    {
        Position {
            top,
            awaits: true,
            run,
            operand: self.operand,
        }
    }

    /// An operand stands at the end.
    #[inline(always)]
    #[tactic(auto, unfolding(crate::specs::inner::Frames::held_of))]
    fn behind(self, top: usize, operand: Meaning) -> Position
        ensures top { result.top ≡ top }
        ensures held { held_of result ≡ Held.Has operand }
    {
        Position {
            top,
            awaits: false,
            run: self.run,
            operand,
        }
    }

    /// What stands at the end.
    #[inline(always)]
    #[tactic(auto, unfolding(crate::specs::inner::Frames::held_of))]
    fn held(self) -> Held
        ensures { result ≡ held_of self }
    {
        if self.awaits {
            Held::Awaits(self.run)
        } else {
            Held::Has(self.operand)
        }
    }
}

/// The level of an operator's production: the tighter it binds, the higher.
#[inline(always)]
#[tactic(auto, unfolding(crate::specs::Grammar::level))]
fn level_of(operator: Operator) -> u8
    ensures { result ≡ level operator }
{
    match operator {
        Operator::Or => 2,
        Operator::And => 3,
        Operator::BitOr => 4,
        Operator::BitXor => 5,
        Operator::BitAnd => 6,
        Operator::Equal | Operator::Unequal => 7,
        Operator::Less | Operator::Greater | Operator::AtMost | Operator::AtLeast => 8,
        Operator::ShiftLeft | Operator::ShiftRight => 9,
        Operator::Add | Operator::Subtract => 10,
        Operator::Multiply | Operator::Divide | Operator::Remainder => 11,
    }
}

impl Frame {
    /// Whether what binds at a level ends the frame.
    #[inline(always)]
    #[tactic(auto, unfolding(crate::specs::inner::Frames::ends))]
    fn ends_at(&self, level: u8) -> bool
        ensures { result ≡ ends level self.now }
    {
        match self {
            Frame::Left(operator, _) => level <= level_of(*operator),
            Frame::Answered(_, _) => level == 0,
            Frame::Inside(_) | Frame::Asked(_) => false,
        }
    }

    /// The frame with its last operand.
    #[inline(always)]
    #[tactic(auto, unfolding(crate::specs::inner::Frames::joined))]
    fn join(&self, operand: Meaning) -> Meaning
        ensures { result ≡ joined self.now operand }
    {
        match self {
            Frame::Left(operator, left) => binary_meaning(*operator, *left, operand),
            Frame::Answered(condition, first) => choice_meaning(*condition, *first, operand),
            Frame::Inside(_) | Frame::Asked(_) => operand,
        }
    }
}

/// Ends the frames that what follows ends: where the next one lies, and the operand that they make.
#[inline(always)]
fn close(frames: &[Frame], top: usize, level: u8, operand: Meaning) -> (usize, Meaning)
    requires { top ≤ length frames.now }
    ensures value { record { frames = drop result.0 frames.now; operand = result.1 } ≡ closed level (drop top frames.now) operand }
    ensures above { top ≤ result.0 }
    ensures within { result.0 ≤ length frames.now }
{
    let mut top = top;
    let mut operand = operand;
    'frames: while top < frames.len() {
        let frame = &frames[top];
        if !frame.ends_at(level) {
            return (top, operand);
        }
        operand = frame.join(operand);
        top += 1;
    }
    (top, operand)
}

/// Ends the frames that what follows ends, as `close` does, for what follows seldom.
#[inline(never)]
fn close_apart(frames: &[Frame], top: usize, level: u8, operand: Meaning) -> (usize, Meaning)
    requires { top ≤ length frames.now }
    ensures value { record { frames = drop result.0 frames.now; operand = result.1 } ≡ closed level (drop top frames.now) operand }
    ensures above { top ≤ result.0 }
    ensures within { result.0 ≤ length frames.now }
{
    close(frames, top, level, operand)
}

/// Puts a frame on the others; an operand is to come.
#[inline(always)]
fn put(frames: &mut [Frame], position: Position, top: usize, frame: Frame) -> Position
    requires room { 0 < top }
    requires within { top ≤ length frames.old }
    ensures frames { drop result.top frames.new ≡ frame ∷ drop top frames.old }
    ensures held { held_of result ≡ Held.Awaits Prefixes.NONE }
    ensures within { result.top ≤ length frames.new }
{
    frames[top - 1] = frame;
    position.before(top - 1, Prefixes::NONE)
}

/// The operator that a symbol is before an operand.
#[tactic(auto, unfolding(crate::specs::inner::Frames::prefix_of))]
fn prefix_operator(symbol: Symbol) -> Option<Prefix>
    ensures { result ≡ prefix_of symbol }
{
    match symbol {
        Symbol::Exclamation => Some(Prefix::Not),
        Symbol::Tilde => Some(Prefix::Complement),
        Symbol::Between(Operator::Add) => Some(Prefix::Plus),
        Symbol::Between(Operator::Subtract) => Some(Prefix::Minus),
        _ => None,
    }
}

/// Reads a symbol where an operand is to come.
#[tactic(auto, using(crate::proofs::Closing::frame_steps), unfolding(crate::specs::inner::Frames::awaiting, crate::specs::inner::Frames::prefixed, crate::specs::inner::Frames::opened, crate::specs::inner::Frames::read_of))]
fn read_operand(
    frames: &mut [Frame],
    position: Position,
    run: Prefixes,
    symbol: Symbol,
) -> Option<Position>
    requires room { 0 < position.top }
    requires within { position.top ≤ length frames.old }
    ensures read { read_of frames.new result ≡ awaiting (drop position.top frames.old) run symbol }
    ensures within { IfSome result (λ p. p.top ≤ length frames.new) }
{
    match symbol {
        Symbol::Number { bits, unsigned } => {
            let value = Value::Bits(bits);
            let operand = run.apply(Meaning { unsigned, value });
            Some(position.behind(position.top, operand))
        }
        Symbol::OpenParenthesis => Some(put(frames, position, position.top, Frame::Inside(run))),
        _ => match prefix_operator(symbol) {
            Some(operator) => Some(position.before(position.top, run.then(operator))),
            None => None,
        },
    }
}

/// Reads a `:` behind a first branch.
#[tactic(auto, unfolding(crate::specs::inner::Frames::holding, crate::specs::inner::Frames::answered, crate::specs::inner::Frames::opened, crate::specs::inner::Frames::read_of))]
fn answer(frames: &mut [Frame], position: Position, operand: Meaning) -> Option<Position>
    requires { position.top ≤ length frames.old }
    ensures read { read_of frames.new result ≡ holding (drop position.top frames.old) operand Symbol.Colon }
    ensures within { IfSome result (λ p. p.top ≤ length frames.new) }
{
    let (top, first) = close_apart(frames, position.top, 0, operand);
    if top == frames.len() {
        return None;
    }
    let Frame::Asked(condition) = frames[top] else {
        return None;
    };
    Some(put(frames, position, top + 1, Frame::Answered(condition, first)))
}

/// Reads a closing parenthesis.
#[tactic(auto, unfolding(crate::specs::inner::Frames::holding, crate::specs::inner::Frames::parenthesized, crate::specs::inner::Frames::read_of))]
fn leave(frames: &[Frame], position: Position, operand: Meaning) -> Option<Position>
    requires { position.top ≤ length frames.now }
    ensures read { read_of frames.now result ≡ holding (drop position.top frames.now) operand Symbol.CloseParenthesis }
    ensures within { IfSome result (λ p. p.top ≤ length frames.now) }
{
    let (top, inner) = close(frames, position.top, 0, operand);
    if top == frames.len() {
        return None;
    }
    let Frame::Inside(run) = frames[top] else {
        return None;
    };
    Some(position.behind(top + 1, run.apply(inner)))
}

/// Reads a symbol behind an operand.
#[tactic(auto, unfolding(crate::specs::inner::Frames::holding, crate::specs::inner::Frames::answered, crate::specs::inner::Frames::parenthesized, crate::specs::inner::Frames::opened, crate::specs::inner::Frames::read_of))]
fn read_behind(
    frames: &mut [Frame],
    position: Position,
    operand: Meaning,
    symbol: Symbol,
) -> Option<Position>
    requires room { 0 < position.top }
    requires within { position.top ≤ length frames.old }
    ensures read { read_of frames.new result ≡ holding (drop position.top frames.old) operand symbol }
    ensures within { IfSome result (λ p. p.top ≤ length frames.new) }
{
    match symbol {
        Symbol::Between(operator) => {
            let (top, left) = close(frames, position.top, level_of(operator), operand);
            Some(put(frames, position, top, Frame::Left(operator, left)))
        }
        Symbol::Question => {
            let (top, condition) = close_apart(frames, position.top, 1, operand);
            Some(put(frames, position, top, Frame::Asked(condition)))
        }
        Symbol::Colon => answer(frames, position, operand),
        Symbol::CloseParenthesis => leave(frames, position, operand),
        _ => None,
    }
}

/// Reads one symbol more.
#[tactic(auto, unfolding(crate::specs::inner::Frames::step))]
pub(crate) fn read_symbol(
    frames: &mut [Frame],
    position: Position,
    symbol: Symbol,
) -> Option<Position>
    requires room { 0 < position.top }
    requires within { position.top ≤ length frames.old }
    ensures read { read_of frames.new result ≡ step (drop position.top frames.old) (held_of position) symbol }
    ensures within { IfSome result (λ p. p.top ≤ length frames.new) }
{
    match position.held() {
        Held::Awaits(run) => read_operand(frames, position, run, symbol),
        Held::Has(operand) => read_behind(frames, position, operand, symbol),
    }
}

/// The meaning of all that was read, where nothing waits for its end.
#[tactic(auto, using(crate::proofs::Closing::frame_steps), unfolding(crate::specs::inner::Frames::whole_of, crate::specs::inner::Frames::alone))]
pub(crate) fn whole(frames: &[Frame], position: Position) -> Option<Meaning>
    requires { position.top ≤ length frames.now }
    ensures { result ≡ whole_of (drop position.top frames.now) (held_of position) }
{
    let Held::Has(operand) = position.held() else {
        return None;
    };
    let (top, operand) = close_apart(frames, position.top, 0, operand);
    if top < frames.len() {
        return None;
    }
    Some(operand)
}
