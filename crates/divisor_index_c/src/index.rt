// The divisor index: length, opening, the check of an image, call lists and the listing.
ghost use Rattle.std.specs.Prelude.{◌≡◌};
ghost use Rattle.index_sound.specs.Checks as check;
ghost use Rattle.divisor_index.specs.Doors.{length_number, open_number, open_bytes, RunIs, ListingIs};

// The length in bytes of the image of an index, or 1.
#[unsafe(no_mangle)]
pub extern "C" fn divisor_index_length(
    kind: u32,
    variables: u32,
    capacity: u32,
    maxima: &[u8],
) -> u32
    ensures { result ≡ length_number kind variables capacity maxima.now }
{
    divisor_index::divisor_index_length(kind, variables, capacity, maxima)
}

// Opens an index that holds nothing: 0, 1 or 2.
#[unsafe(no_mangle)]
pub extern "C" fn divisor_index_open(
    kind: u32,
    variables: u32,
    capacity: u32,
    maxima: &[u8],
    image: &mut [u8],
) -> u32
    ensures value { result ≡ open_number kind variables capacity maxima.now image.old }
    ensures image_after { image.new ≡ open_bytes kind variables capacity maxima.now image.old }
{
    divisor_index::divisor_index_open(kind, variables, capacity, maxima, image)
}

// The door of question 3 alone: 0 where the bytes begin with the image of a valid index, else 3. It reads only.
#[unsafe(no_mangle)]
pub extern "C" fn divisor_index_check(image: &[u8]) -> u32
    ensures { check.Judged image.now result }
{
    index_sound::divisor_index_check(image)
}

// Runs a list of calls and writes one answer word a call: 0, 3, 4 or 5.
#[unsafe(no_mangle)]
pub extern "C" fn divisor_index_run(image: &mut [u8], list: &[u8], answers: &mut [u8]) -> u32
    ensures { RunIs image.old list.now answers.old image.new answers.new result }
{
    divisor_index::divisor_index_run(image, list, answers)
}

// Lists the monomials of a monomial index: 0, 3, 6 or 5.
#[unsafe(no_mangle)]
pub extern "C" fn divisor_index_list(image: &[u8], answers: &mut [u8]) -> u32
    ensures { ListingIs image.now answers.old answers.new result }
{
    divisor_index::divisor_index_list(image, answers)
}
