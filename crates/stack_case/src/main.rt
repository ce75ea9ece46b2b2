// Judges the deepest tree that an image can hold, a chain of 4,096 levels. A program cannot limit its stack, so its own frames use up most
// of the 8 MiB that it has by default. What they leave has to do for either compiler: as LLVM builds it a level takes 128 bytes, as Rattle's
// own compiler does some 450. `.ci/run` runs LLVM's build, which the archive for C is of, once more on less stack, which leaves it 1,088 KiB:
// the C header promises that 1 MiB suffices.
//
// Standard input is the image of a full index of one variable (rust/make-replay).
#![tactic(auto)]

ghost use Rattle.std.specs.Prelude.{◌≤◌};

use std::io;
use std::io::Read;

// The answer, asked below as many frames of 64 KiB as are wanted. Each lends its array to a read, at the end of the input, and looks at it
// behind the call: so no compiler leaves it out.
fn below(reader: &mut impl Read, image: &[u8], frames: usize) -> io::Result<bool>
    requires { frames ≤ 1000 }
{
    let mut used = [0u8; 65536];
    let n = program_io::read_full(reader, &mut used)?;
    if n != 0 {
        return Ok(false);
    }
    if frames == 0 {
        return Ok(index_sound::sound(image));
    }
    if below(reader, image, frames - 1)? {
        Ok(used[frames] == 0)
    } else {
        Ok(false)
    }
}

// The image stands on the stack and not on the heap, since the frames are counted with it there.
fn main(rt: HostRuntime) -> io::Result<()> {
    let mut image = [0u8; 327680];
    let mut reader = rt.stdin();
    let n = program_io::read_full(&mut reader, &mut image)?;
    if below(&mut reader, &image[..n], 74)? {
        return println!(rt; "sound");
    }
    println!(rt; "not sound")
}
