// The words of the variables of a monomial or ratio, from a slice that begins with it.
ghost use Rattle.std.specs.Prelude.{◌≡◌};
ghost use Rattle.words.specs.Words.{words};
ghost use Rattle.monomial.specs.Walk.{variable_words, words_left};

/// The words of a slice up to the first end word, in order: those of the variables, where a monomial or ratio starts there.
#[derive(Clone, Copy, Debug)]
pub struct Variables<'a> {
    rest: &'a [u8],
}

/// The variables' words of the monomial or ratio at the front of m.
#[tactic(auto, unfolding(crate::specs::Walk::words_left))]
pub fn variables_of(m: &[u8]) -> Variables<'_>
    ensures { words_left result ≡ variable_words (words m.now) }
{
    Variables { rest: m }
}

impl Iterator for Variables<'_> {
    ghost use Rattle.std.specs.Iterator.{YieldsFirst, item_count};

    type Item = u32;

    ghost next_gives = { YieldsFirst words_left };

    ghost remaining = { item_count words_left };

    fn next(&mut self) -> Option<u32> {
        if self.rest.len() < 4 {
            return None;
        }
        let w = words::get(self.rest, 0);
        if words::is_end(w) {
            return None;
        }
        self.rest = &self.rest[4..];
        Some(w)
    }
}
