// Faults: what a refused call tells.
ghost use Rattle.std.specs.Prelude.{◌≡◌};
ghost use Rattle.samples.specs.Faults.{refusal};

// The rules that a call can find broken.
#[derive(Clone, Copy, PartialEq, Eq, Debug)]
pub enum Rule {
    // The type is none of the six.
    UnknownType,
    // The width or the height is not allowed.
    Size,
    // A content is not allowed: a code width, or a pair of fields and detail.
    Content,
    // The image buffer has the wrong length.
    ImageLength,
    // The shape has no such site or line.
    NoSite,
    // A line has the wrong count of codes.
    CodeCount,
    // The component does not admit a code.
    CodeNotAdmitted,
    // A line is laid when every line has come.
    EveryLineCome,
    // A code is put on a line that has not come.
    LineNotCome,
}

// A refusal in plain numbers, so that it goes up through every layer whole. Only `Fault::of` builds one, so that a new field touches one place.
#[derive(Clone, Copy, PartialEq, Eq, Debug)]
pub struct Fault {
    number: u8,
    layer: u8,
    place: u32,
    letters: u32,
}

impl Fault {
    // The fault of a broken rule, with no letters.
    pub fn of(rule: Rule, place: u32) -> Fault
        ensures { result ≡ refusal rule place }
    {
        let (number, layer) = match rule {
            Rule::UnknownType => (2, 3),
            Rule::Size => (4, 3),
            Rule::Content => (9, 2),
            Rule::ImageLength => (11, 1),
            Rule::NoSite => (12, 2),
            Rule::CodeCount => (13, 2),
            Rule::CodeNotAdmitted => (15, 2),
            Rule::EveryLineCome => (31, 3),
            Rule::LineNotCome => (32, 3),
        };
        Fault {
            number,
            layer,
            place,
            letters: 0,
        }
    }

    // Which rule was broken.
    pub fn number(self) -> u8
        ensures { result ≡ self.number }
    {
        self.number
    }

    // Where the rule belongs: 1 bytes, 2 fields and samples, 3 labels and frames.
    pub fn layer(self) -> u8
        ensures { result ≡ self.layer }
    {
        self.layer
    }

    // Where the rule was broken, counted as the rule says.
    pub fn place(self) -> u32
        ensures { result ≡ self.place }
    {
        self.place
    }

    // The letters of a missing extension, as one big-endian number; else 0.
    pub fn letters(self) -> u32
        ensures { result ≡ self.letters }
    {
        self.letters
    }
}

// The place is 0 unless a rule tells another.
impl From<Rule> for Fault {
    ghost from_gives = { λ rule fault. fault ≡ refusal rule 0 };

    fn from(rule: Rule) -> Fault {
        Fault::of(rule, 0)
    }
}

// A refused call that was given a value to use up: the fault, and the value as it was.
#[derive(Drop)]
pub struct Declined<T> {
    pub fault: Fault,
    pub back: T,
}

// So that a call can be refused by `?`, with what it was given let go.
impl<T: Drop> From<Declined<T>> for Fault {
    ghost from_gives = { λ declined fault. fault ≡ declined.fault };

    fn from(declined: Declined<T>) -> Fault {
        declined.fault
    }
}
