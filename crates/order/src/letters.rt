//! What the letters of the order line stand for.

ghost use Rattle.std.specs.Prelude.{◌≡◌};
ghost use Rattle.std.specs.Result.{result_ok};
ghost use Rattle.order.specs.Letters.{dispatch_by, preemption_by, delay_by, line_end_by};

/// By what the task to run is chosen.
#[derive(Clone, Copy, PartialEq, Eq, Debug)]
pub enum Dispatch {
    FixedPriority,
    EarliestDeadline,
}

/// Whether the running job may be interrupted before it is finished.
#[derive(Clone, Copy, PartialEq, Eq, Debug)]
pub enum Preemption {
    Preemptive,
    NonPreemptive,
}

/// What a job pays when it goes on after an interruption.
#[derive(Clone, Copy, PartialEq, Eq, Debug)]
pub enum DelayKind {
    NoDelay,
    FixedDelay,
    UsefulBlocks,
    LoadedBlocks,
}

/// The newline that ends the line.
#[derive(Clone, Copy)]
pub(crate) struct LineEnd;

/// A letter that names nothing in its place.
#[derive(Clone, Copy, PartialEq, Eq, Debug)]
pub struct UnknownLetter;

impl TryFrom<char> for Dispatch {
    type Error = UnknownLetter;

    ghost try_from_gives = { λ letter named. result_ok named ≡ dispatch_by letter };

    fn try_from(letter: char) -> Result<Self, UnknownLetter> {
        match letter {
            'F' => Ok(Dispatch::FixedPriority),
            'E' => Ok(Dispatch::EarliestDeadline),
            _ => Err(UnknownLetter),
        }
    }
}

impl TryFrom<char> for Preemption {
    type Error = UnknownLetter;

    ghost try_from_gives = { λ letter named. result_ok named ≡ preemption_by letter };

    fn try_from(letter: char) -> Result<Self, UnknownLetter> {
        match letter {
            '-' => Ok(Preemption::Preemptive),
            'N' => Ok(Preemption::NonPreemptive),
            _ => Err(UnknownLetter),
        }
    }
}

impl TryFrom<char> for DelayKind {
    type Error = UnknownLetter;

    ghost try_from_gives = { λ letter named. result_ok named ≡ delay_by letter };

    fn try_from(letter: char) -> Result<Self, UnknownLetter> {
        match letter {
            'Z' => Ok(DelayKind::NoDelay),
            'A' => Ok(DelayKind::FixedDelay),
            'U' => Ok(DelayKind::UsefulBlocks),
            'L' => Ok(DelayKind::LoadedBlocks),
            _ => Err(UnknownLetter),
        }
    }
}

impl TryFrom<char> for LineEnd {
    type Error = UnknownLetter;

    ghost try_from_gives = { λ letter named. result_ok named ≡ line_end_by letter };

    fn try_from(letter: char) -> Result<Self, UnknownLetter> {
        match letter {
            '\n' => Ok(LineEnd),
            _ => Err(UnknownLetter),
        }
    }
}
