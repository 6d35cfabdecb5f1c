// Why an operation refuses: a case for each row of 01's table, and for those of 02's requests 2, 8 and 9.
ghost use Rattle.std.specs.Prelude.{◌≡◌};
ghost use Rattle.formats.specs.Refusals.{text_number, told};

// In which text the fault is.
#[derive(Clone, Copy, Debug, PartialEq, Eq)]
pub enum Text {
    InNet,
    InListing,
}

impl From<Text> for u8 {
    fn from(text: Text) -> Self
        ensures { result ≡ text_number text }
    {
        match text {
            Text::InNet => 1,
            Text::InListing => 2,
        }
    }
}

#[derive(Clone, Copy, Debug, PartialEq, Eq)]
pub enum Refusal {
    TooLong { text: Text },
    NotDue { text: Text, line: usize },
    OutOfRange { text: Text, line: usize },
    BytesFollow { text: Text, line: usize },
    Unreachable,
    TooShort,
    OtherCount,
    SinkParent { line: usize },
    WrongChildren { line: usize },
    NotReached { line: usize },
    OtherSlack,
    OtherWire,
    FarPin { line: usize },
    NotScored,
    NotASink,
    OnlySink,
}

// A refusal by its number, its text (1 the net, 2 the listing, 0 neither) and its line.
#[derive(Clone, Copy, Debug, PartialEq, Eq)]
pub struct Told {
    pub number: u8,
    pub text: u8,
    pub line: usize,
}

impl Refusal {
    // What callers are told of a refusal.
    pub fn told(self) -> Told
        ensures { result ≡ told self }
    {
        match self {
            Refusal::TooLong { text } => Told {
                number: 1,
                text: u8::from(text),
                line: 0,
            },
            Refusal::NotDue { text, line } => Told {
                number: 2,
                text: u8::from(text),
                line,
            },
            Refusal::OutOfRange { text, line } => Told {
                number: 3,
                text: u8::from(text),
                line,
            },
            Refusal::BytesFollow { text, line } => Told {
                number: 4,
                text: u8::from(text),
                line,
            },
            Refusal::Unreachable => Told {
                number: 5,
                text: 1,
                line: 4,
            },
            Refusal::TooShort => Told {
                number: 6,
                text: 0,
                line: 0,
            },
            Refusal::OtherCount => Told {
                number: 7,
                text: 2,
                line: 3,
            },
            Refusal::SinkParent { line } => Told {
                number: 8,
                text: 2,
                line,
            },
            Refusal::WrongChildren { line } => Told {
                number: 9,
                text: 2,
                line,
            },
            Refusal::NotReached { line } => Told {
                number: 10,
                text: 2,
                line,
            },
            Refusal::OtherSlack => Told {
                number: 11,
                text: 2,
                line: 1,
            },
            Refusal::OtherWire => Told {
                number: 12,
                text: 2,
                line: 2,
            },
            Refusal::FarPin { line } => Told {
                number: 13,
                text: 1,
                line,
            },
            Refusal::NotScored => Told {
                number: 14,
                text: 0,
                line: 0,
            },
            Refusal::NotASink => Told {
                number: 15,
                text: 0,
                line: 0,
            },
            Refusal::OnlySink => Told {
                number: 16,
                text: 0,
                line: 0,
            },
        }
    }
}
