// The calls of a list, each on the image as the last left it.
#![tactic(auto)]

ghost use Rattle.std.specs.Prelude.{◌≡◌, IfOk, ◌*◌, ◌≤◌, ◌<◌, length};
ghost use Rattle.words.specs.Words.{words};
ghost use Rattle.index_theory.specs.Calls.{calls};
ghost use Rattle.index_image.specs.Layout.{Sound};
ghost use Rattle.call_list.specs.Bodies.{IsList};
ghost use Rattle.index_replies.specs.Replied.{word_of};
ghost use Rattle.index_run.specs.Ran.{Ran};

use refusals::Refusal;
use word_reader::Reader;

// The word of a reply.
fn word(reply: Result<u32, Refusal>) -> u32
    requires { IfOk reply (λ n. n < 268435456) }
    ensures { result ≡ word_of reply }
{
    match reply {
        Ok(n) => words::answer_word(n),
        Err(e) => words::refusal_word(refusals::number(e)),
    }
}

// Serves all calls, and writes their answer words at the front of `out`.
pub fn run(image: &mut [u8], list: &[u8], out: &mut [u8])
    requires sound { Sound image.old }
    requires list { IsList list.now }
    requires list_in_bounds { 4 * length (calls (words list.now)) ≤ length out.old }
    ensures { Ran (calls (words list.now)) image.old image.new out.old out.new }
{
    let mut q = [0u8; 368];
    for (i, call) in Reader::new(list).enumerate() {
        let reply = indices::call(image, &mut q, call);
        words::put(&mut out[4 * i..], 0, word(reply));
    }
}
