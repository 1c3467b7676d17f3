// Lines cut into words: after a word that they begin with, at the first of a mark, and at each of it.
ghost use Rattle.std.specs.Prelude.{◌≡◌};
ghost use Rattle.std.specs.Iterator.{YieldsFirstBy, item_count};
ghost use Rattle.std.specs.Option.{option_map};
ghost use Rattle.text.specs.Marks.{rest_after, cut_at, split, pieces_left};

// What follows a word that the line begins with.
pub fn after<'a>(line: &'a [u8], word: &[u8]) -> Option<&'a [u8]>
    ensures { option_map (λ x. x.now) result ≡ rest_after word.now line.now }
{
    line.strip_prefix(word)
}

// What stands before the first `mark`, and what follows it.
pub fn cut<'a>(s: &'a [u8], mark: u8) -> Option<(&'a [u8], &'a [u8])>
    ensures { option_map (λ p. (p.0.now, p.1.now)) result ≡ cut_at mark s.now }
{
    let i = s.iter().position(|b| *b == mark)?;
    Some((&s[..i], &s[i + 1..]))
}

// The pieces that a mark separates, as an iterator over parts of the caller's bytes. The library's `split` tells its steps, and not the list of
// pieces that contracts speak of.
#[derive(Drop)]
pub struct Split<'a> {
    // what no piece was cut off yet; none after the last piece
    rest: Option<&'a [u8]>,
    mark: u8,
}

// The pieces of a text that a mark separates, first to last; a text without the mark is one piece.
pub fn pieces<'a>(s: &'a [u8], mark: u8) -> Split<'a>
    ensures { pieces_left result ≡ split mark s.now }
{
    Split {
        rest: Some(s),
        mark,
    }
}

impl<'a> Iterator for Split<'a> {
    type Item = &'a [u8];

    ghost next_gives = { YieldsFirstBy (λ x. x.now) pieces_left };

    ghost remaining = { item_count pieces_left };

    fn next(&mut self) -> Option<&'a [u8]> {
        let rest = self.rest.take()?;
        let Some((piece, more)) = cut(rest, self.mark) else {
            return Some(rest);
        };
        self.rest = Some(more);
        Some(piece)
    }
}
