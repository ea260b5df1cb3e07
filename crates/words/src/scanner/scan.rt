// The words of a text, one by one.
ghost use Rattle.std.specs.Prelude.{◌≡◌, position};
ghost use Rattle.std.specs.List.{prefix_len};
ghost use Rattle.std.specs.Iterator.{item_count};
ghost use Rattle.words.specs.Words.{ink, onward, left, words_of, GivesWord};

use super::{Line, Scanner, Word};

// Whether a byte belongs to a word.
fn is_ink(b: u8) -> bool
    ensures { result ≡ ink b }
{
    b != b' ' && b != b'\n'
}

// What a byte makes of a line ahead of the first word; none if the word begins there.
fn line_on(line: Line, b: u8) -> Option<Line>
    ensures { result ≡ onward line b }
{
    match (line, char::from(b)) {
        (_, '\n') => Some(Line::Start),
        (Line::Comment, _) | (Line::Start, 'c') => Some(Line::Comment),
        (_, ' ') => Some(Line::Blank),
        _ => None,
    }
}

// How many bytes stand ahead of the next word; none if no word is left.
fn gap_len(bytes: &[u8]) -> Option<usize>
    ensures { result ≡ position ink bytes.now }
{
    bytes.iter().position(|b| is_ink(*b))
}

// How many bytes the word at the front has.
fn word_len(bytes: &[u8]) -> usize
    ensures { result ≡ prefix_len ink bytes.now }
{
    bytes.iter().take_while(|b| is_ink(**b)).count()
}

impl<'a> Scanner<'a> {
    // Past the comments and the blank lines ahead of the first word.
    pub fn new(text: &'a [u8]) -> Scanner<'a>
        ensures { left result ≡ words_of text.now }
    {
        let mut line = Line::Start;
        for (pos, b) in text.iter().enumerate() {
            match line_on(line, *b) {
                Some(next) => line = next,
                None => {
                    return Scanner {
                        text,
                        pos,
                        fresh: true,
                    };
                }
            }
        }
        Scanner {
            text,
            pos: text.len(),
            fresh: true,
        }
    }
}

impl<'a> Iterator for Scanner<'a> {
    type Item = Word<'a>;

    ghost next_gives = { GivesWord };

    ghost remaining = { item_count left };

    // The next word, if any is left.
    fn next(&mut self) -> Option<Word<'a>> {
        let rest = &self.text[self.pos..];
        let Some(gap) = gap_len(rest) else {
            // A later call does not go over the gap again.
            self.pos = self.text.len();
            return None;
        };
        let (skipped, word) = rest.split_at(gap);
        let at = self.pos + gap;
        let bytes = &word[..word_len(word)];
        let first = self.fresh || skipped.contains(&b'\n');
        self.pos = at + bytes.len();
        self.fresh = false;
        Some(Word { at, bytes, first })
    }
}
