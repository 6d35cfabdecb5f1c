// The refusals in plain words: a row for each.
ghost use Rattle.std.specs.Prelude.{◌≡◌};
ghost use Rattle.console.specs.Words.{words};

use formats::refusal::Refusal;

pub fn words(refusal: Refusal) -> &'static [u8]
    ensures { result.now ≡ words refusal }
{
    match refusal {
        Refusal::TooLong { .. } => b"the text is over its length",
        Refusal::NotDue { .. } =>
            b"the line due here is missing, lacks its newline, or is misspelt",
        Refusal::OutOfRange { .. } => b"a number is out of range",
        Refusal::BytesFollow { .. } => b"bytes follow the last line",
        Refusal::Unreachable => b"no legal tree has the needed slack",
        Refusal::TooShort => b"the output is shorter than the listing",
        Refusal::OtherCount => b"the number of sinks is not the net's",
        Refusal::SinkParent { .. } => b"the parent is a sink",
        // 9 is about the root where no line is meant.
        Refusal::WrongChildren { line: 0 } => b"the root has not exactly one child",
        Refusal::WrongChildren { .. } => b"this branch point has not exactly two children",
        Refusal::NotReached { .. } => b"this vertex is not reached from the root",
        Refusal::OtherSlack => b"the stated slack is not the tree's worst slack",
        Refusal::OtherWire => b"the stated wire is not the tree's wire",
        Refusal::FarPin { .. } => b"the sink is too far from the root",
        Refusal::NotScored => b"alpha, beta or the cap is out of range, or the slack too low",
        Refusal::NotASink => b"the net has no sink of this number",
        Refusal::OnlySink => b"the net has no other sink",
    }
}
