// The label map.
ghost use Rattle.std.specs.Prelude.{◌≡◌, length};
ghost use Rattle.label_work.specs.Door as Door;

// The length of a map's image in bytes, which is above 16; or 1, for question 1.
#[unsafe(no_mangle)]
pub extern "C" fn divisor_index_fast_compare_length(variables: u32, capacity: u32) -> u32
    ensures { result ≡ Door.length_for variables capacity }
{
    label_work::divisor_index_fast_compare_length(variables, capacity)
}

// Writes an empty map; 0, or the number of the question that says no.
#[unsafe(no_mangle)]
pub extern "C" fn divisor_index_fast_compare_open(
    variables: u32,
    capacity: u32,
    image: &mut [u8],
) -> u32
    ensures { (result ≡ Door.opening_for variables capacity (length image.old)) × (image.new ≡ Door.opened_bytes variables capacity image.old) }
{
    label_work::divisor_index_fast_compare_open(variables, capacity, image)
}

// The label of a value, which is stored where it is new; or a refusal's number in the upper half.
#[unsafe(no_mangle)]
pub extern "C" fn divisor_index_fast_compare_get_comparer(
    image: &mut [u8],
    index: u32,
    ratio: &[u8],
) -> u64
    ensures { Door.Replied index ratio.now result image.old image.new }
{
    label_work::divisor_index_fast_compare_get_comparer(image, index, ratio)
}

// Spaces the labels evenly; 0, or 3.
#[unsafe(no_mangle)]
pub extern "C" fn divisor_index_fast_compare_rebuild(image: &mut [u8]) -> u32
    ensures { Door.Rebuilt result image.old image.new }
{
    label_work::divisor_index_fast_compare_rebuild(image)
}
