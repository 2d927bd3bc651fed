//! A refusal: the layer in which it arose, its cause, and the place that it names.

#![tactic(auto)]

ghost use Rattle.std.specs.Prelude.{◌≡◌, Some, None};
ghost use Rattle.fault.specs.Numbers.{letter_of, number_of};

/// Where a refusal arose.
#[derive(Clone, Copy, PartialEq, Eq, Debug)]
pub enum Layer {
    Order,
    Bytes,
    Plan,
    Writer,
    Run,
}

/// Why something was refused. The numbers are part of the report's format.
#[derive(Clone, Copy, PartialEq, Eq, Debug)]
pub enum Cause {
    EndsEarly = 1,
    ExtraBytes = 2,
    UnknownRevision = 3,
    SpareBitsSet = 4,
    ZeroPeriod = 5,
    TimesOutOfOrder = 6,
    UsefulNotEvicting = 7,
    HyperperiodTooLong = 8,
    AdvanceTooLong = 9,
    RunClosed = 10,
    PastLastInstant = 11,
    BufferTooShort = 12,
    OutsideField = 13,
    RowCountMismatch = 14,
    NoSuchEntry = 15,
    UnknownLetter = 16,
}

/// One refusal, handed up whole. A place that the refusal does not name is `None`.
#[derive(Clone, Copy, PartialEq, Eq, Debug)]
pub struct Fault {
    pub layer: Layer,
    pub cause: Cause,
    pub row: Option<u8>,
    pub bit: Option<u64>,
}

impl Layer {
    /// The letter that stands for this layer in a report.
    // no `From<Layer> for u8`: that would not say that the number is a letter
    pub fn letter(self) -> u8
        ensures { result ≡ letter_of self }
    {
        match self {
            Layer::Order => b'O',
            Layer::Bytes => b'B',
            Layer::Plan => b'P',
            Layer::Writer => b'W',
            Layer::Run => b'R',
        }
    }
}

impl From<Cause> for u8 {
    ghost from_gives = { λ cause number. number ≡ number_of cause };

    /// The number of the cause in a report.
    fn from(cause: Cause) -> u8 {
        cause as u8
    }
}

impl Fault {
    /// A refusal that names no place.
    pub fn new(layer: Layer, cause: Cause) -> Fault
        ensures { result ≡ record { layer = layer; cause = cause; row = None; bit = None } }
    {
        Fault {
            layer,
            cause,
            row: None,
            bit: None,
        }
    }

    /// The same refusal, with its row.
    pub fn at_row(self, row: u8) -> Fault
        ensures { result ≡ record { layer = self.layer; cause = self.cause; row = Some row; bit = self.bit } }
    {
        Fault {
            row: Some(row),
            ..self
        }
    }

    /// The same refusal, with the bit at which it lies.
    pub fn at_bit(self, bit: u64) -> Fault
        ensures { result ≡ record { layer = self.layer; cause = self.cause; row = self.row; bit = Some bit } }
    {
        Fault {
            bit: Some(bit),
            ..self
        }
    }
}
