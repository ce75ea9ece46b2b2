// The word reader: a lent call list and a place in it, which is a call's or the end.
#![tactic(auto)]

ghost use Rattle.std.specs.Prelude.{◌≡◌};
ghost use Rattle.std.specs.Iterator.{item_count};
ghost use Rattle.word_reader.specs.Reading.{calls_left, Reads};

use call_list::Call;

// A list, and the word of it at which the next call begins.
#[derive(Clone, Copy)]
pub struct Reader<'a> {
    pub list: &'a [u8],
    pub at: usize,
}

impl<'a> Reader<'a> {
    // A reader of the calls of the list.
    pub fn new(list: &'a [u8]) -> Reader<'a>
        ensures { (result.list ≡ list.entry) × (result.at ≡ 0) }
    {
        Reader { list, at: 0 }
    }
}

impl<'a> Iterator for Reader<'a> {
    type Item = Call<'a>;

    ghost next_gives = { Reads };

    ghost remaining = { item_count calls_left };

    fn next(&mut self) -> Option<Call<'a>> {
        let at = self.at;
        if self.list.len() / 4 <= at {
            return None;
        }
        let number = words::payload(words::get(self.list, at));
        let body = call_list::body(&self.list[4 * (at + 1)..]);
        self.at = at + 1 + body.len() / 4;
        Some(Call { number, body })
    }
}
