// The divisor index: opening, call lists and the listing, exported to C. A door asks document 01's questions in their order and returns 0,
// or the number of the first whose reply is no, which changes no byte.
#![tactic(auto)]

ghost use Rattle.std.specs.Prelude.{◌≡◌};
ghost use Rattle.refusals.specs.Numbers.{told};
ghost use Rattle.divisor_index.specs.Doors.{opening_good, length_of, length_number, open_number, open_bytes, RunIs, ListingIs};

use index_image::Shape;
use refusals::Refusal;

// What an opening is asked by, as C lends it. The kind is a number, since any can be given.
#[derive(Clone, Copy)]
pub struct Opening<'a> {
    pub kind: u32,
    pub variables: u32,
    pub capacity: u32,
    pub maxima: &'a [u8],
}

impl Opening<'_> {
    // Question 1.
    #[tactic(auto, unfolding(crate::specs::Doors::opening_good))]
    fn is_good(&self) -> bool
        ensures { result ≡ opening_good self.now.kind self.now.variables self.now.capacity self.now.maxima.now }
    {
        self.kind <= 1
            && monomial::sizes::sizes_fit(self.variables as usize, self.capacity as usize)
            && divmask::tracker::maxima_good(self.maxima, self.variables)
    }

    // The length in bytes of the image of the index.
    pub fn length(&self) -> Result<usize, Refusal>
        ensures { result ≡ length_of self.now.kind self.now.variables self.now.capacity self.now.maxima.now }
    {
        if !self.is_good() {
            return Err(Refusal::Sizes);
        }
        let (variables, capacity) = (self.variables as usize, self.capacity as usize);
        Ok(index_image::length(self.kind as usize, variables, capacity))
    }

    // Opens the index, which holds nothing.
    pub fn open(&self, image: &mut [u8]) -> Result<(), Refusal>
        ensures value { told result ≡ open_number self.now.kind self.now.variables self.now.capacity self.now.maxima.now image.old }
        ensures image_after { image.new ≡ open_bytes self.now.kind self.now.variables self.now.capacity self.now.maxima.now image.old }
    {
        let n = self.length()?;
        if image.len() < n {
            return Err(Refusal::ShortImage);
        }
        let s = Shape {
            kind: self.kind as usize,
            variables: self.variables as usize,
            capacity: self.capacity as usize,
            entries: 0,
            nodes: 1,
        };
        index_opening::open_tables(image, s, self.maxima);
        Ok(())
    }
}

// Runs a list of calls and writes one answer word a call.
pub fn run(image: &mut [u8], list: &[u8], answers: &mut [u8]) -> Result<(), Refusal>
    ensures { RunIs image.old list.now answers.old image.new answers.new (told result) }
{
    if !index_sound::sound(image) {
        return Err(Refusal::Unsound);
    }
    if !call_list::is_list(list) {
        return Err(Refusal::NoList);
    }
    if answers.len() / 4 < call_list::count(list) {
        return Err(Refusal::ShortBuffer);
    }
    index_run::run(image, list, answers);
    Ok(())
}

// Lists the monomials of a monomial index.
pub fn list(image: &[u8], answers: &mut [u8]) -> Result<(), Refusal>
    ensures { ListingIs image.now answers.old answers.new (told result) }
{
    if !index_sound::sound(image) {
        return Err(Refusal::Unsound);
    }
    let s = indices::shape(image);
    if s.kind != 0 {
        return Err(Refusal::NotServed);
    }
    if answers.len() / 4 < listing::listing_words(image, s) {
        return Err(Refusal::ShortBuffer);
    }
    listing::to_vec(image, s, answers);
    Ok(())
}

// The length in bytes of the image of an index, or 1.
#[unsafe(no_mangle)]
pub extern "C" fn divisor_index_length(
    kind: u32,
    variables: u32,
    capacity: u32,
    maxima: &[u8],
) -> u32
    ensures { result ≡ length_number kind variables capacity maxima.now }
{
    let opening = Opening {
        kind,
        variables,
        capacity,
        maxima,
    };
    match opening.length() {
        Ok(n) => n as u32,
        Err(e) => refusals::number(e),
    }
}

// Opens an index that holds nothing: 0, 1 or 2.
#[unsafe(no_mangle)]
pub extern "C" fn divisor_index_open(
    kind: u32,
    variables: u32,
    capacity: u32,
    maxima: &[u8],
    image: &mut [u8],
) -> u32
    ensures value { result ≡ open_number kind variables capacity maxima.now image.old }
    ensures image_after { image.new ≡ open_bytes kind variables capacity maxima.now image.old }
{
    let opening = Opening {
        kind,
        variables,
        capacity,
        maxima,
    };
    refusals::told(opening.open(image))
}

// Runs a list of calls and writes one answer word a call: 0, 3, 4 or 5.
#[unsafe(no_mangle)]
pub extern "C" fn divisor_index_run(image: &mut [u8], list: &[u8], answers: &mut [u8]) -> u32
    ensures { RunIs image.old list.now answers.old image.new answers.new result }
{
    refusals::told(run(image, list, answers))
}

// Lists the monomials of a monomial index: 0, 3, 6 or 5.
#[unsafe(no_mangle)]
pub extern "C" fn divisor_index_list(image: &[u8], answers: &mut [u8]) -> u32
    ensures { ListingIs image.now answers.old answers.new result }
{
    refusals::told(list(image, answers))
}
