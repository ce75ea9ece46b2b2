// The numbered refusals of the doors.
#![tactic(auto)]

ghost use Rattle.std.specs.Prelude.{◌≡◌};
ghost use Rattle.refusals.specs.Numbers as spec;

/// Why a door, or a call of a list, serves nothing. The order is that of the numbers.
#[derive(Clone, Copy, Debug, PartialEq, Eq)]
pub enum Refusal {
    /// Kind, variables, capacity or maxima out of range.
    Sizes,
    /// An image shorter than its length.
    ShortImage,
    /// An image that is not sound.
    Unsound,
    /// Bytes that are no list of calls.
    NoList,
    /// A buffer with no room for the answer.
    ShortBuffer,
    /// A call that this index does not serve.
    NotServed,
    /// Words that are not as they must be.
    BadWords,
    /// No room for one more entry or value.
    Full,
    /// A product with a power that is too large.
    TooLarge,
    /// No label free between the neighbours of a value.
    NoLabel,
}

/// The number of a refusal.
#[tactic(auto, unfolding(crate::specs::Numbers::number))]
pub fn number(r: Refusal) -> u32
    ensures { result ≡ spec.number r }
{
    match r {
        Refusal::Sizes => 1,
        Refusal::ShortImage => 2,
        Refusal::Unsound => 3,
        Refusal::NoList => 4,
        Refusal::ShortBuffer => 5,
        Refusal::NotServed => 6,
        Refusal::BadWords => 7,
        Refusal::Full => 8,
        Refusal::TooLarge => 9,
        Refusal::NoLabel => 10,
    }
}

/// What a door tells C: 0 where it was served, else the number of the refusal.
#[tactic(auto, unfolding(crate::specs::Numbers::told))]
pub fn told(r: Result<(), Refusal>) -> u32
    ensures { result ≡ spec.told r }
{
    match r {
        Ok(()) => 0,
        Err(e) => number(e),
    }
}
