// UHF words to text. `Code40` of crate `words` says what a word means, `Calls` what the call comes to.
#![tactic(auto)]

ghost use Rattle.std.specs.Prelude.{◌≡◌, true, [], ◌∷◌, ◌+◌, ◌≤◌, ◌<◌, length};
ghost use Rattle.format.specs.Answers.{in_order};
ghost use Rattle.format.specs.Bytes.{all};
ghost use Rattle.format.specs.Numbers.{given};
ghost use Rattle.format.specs.Pieces.{Stored};
ghost use Rattle.words.specs.Code40.{character_of, unpadded, characters_of, meaningful, text_of};
ghost use Rattle.words.specs.Calls.{decode_steps, decoding, Fills};
ghost use Rattle.decoding.specs.Alphabet.{Alphabet};
ghost use Rattle.decoding.specs.Counting.{counted};

use format::Reason;
use words::ALPHABET;

// How many characters three values have: none where a pad stands before a character, or all are pads.
#[tactic(auto, using(words::proofs::Words::by_tests), unfolding(crate::specs::Counting::counted))]
fn count_values(a: u16, b: u16, c: u16) -> Option<usize>
    ensures { result ≡ counted (unpadded (a ∷ b ∷ c ∷ [])) }
{
    match (a, b, c) {
        (0, _, _) => None,
        (_, 0, 0) => Some(1),
        (_, 0, _) => None,
        (_, _, 0) => Some(2),
        _ => Some(3),
    }
}

// How many characters a word has: none where it has no meaning.
#[tactic(auto, unfolding(crate::specs::Counting::counted, words::specs::Code40::characters_of))]
fn count_characters(w: u16) -> Option<usize>
    ensures { result ≡ counted (characters_of w) }
{
    match w {
        0x0001..=0xFA00 => {
            let v = w - 1;
            count_values(v / 1600, v / 40 % 40, v % 40)
        }
        0xFC00..=0xFC7F => Some(1),
        _ => None,
    }
}

// What the call answers, with `room` bytes for the text; nothing is stored yet.
fn judge(words: &[u16], room: usize) -> Result<usize, Reason>
    ensures { given result ≡ in_order (decode_steps room words.now) (length (text_of words.now)) }
{
    let mut n: usize = 0;
    for w in words {
        n += count_characters(*w).ok_or(Reason::Word)?;
    }
    if room < n {
        return Err(Reason::Room);
    }
    Ok(n)
}

// The 39 characters. They are lent: a constant array is laid out anew wherever it is named.
#[derive(Clone, Copy)]
struct Characters<'a> {
    in_order: &'a [u8; 39],
    ghost ordered: { Alphabet in_order.now },
}

impl Characters<'_> {
    // The character of a value that is no pad.
    fn of(&self, v: u16) -> u8
        requires { (0 < v) × (v < 40) }
        ensures { result ≡ character_of v }
    {
        self.in_order[usize::from(v - 1)]
    }

    // Stores the characters of a word that has a meaning, from `at` on; answers the place behind them.
    // An array of them to copy, a loop over the values and the word taken as two bytes are all slower.
    fn put_word(&self, text: &mut [u8], at: usize, w: u16) -> usize
        requires { (meaningful w ≡ true) × (at + length (characters_of w) ≤ length text.old) }
        ensures { Stored text.old at (characters_of w) result text.new }
    {
        if 0xFC00 <= w {
            text[at] = (w - 0xFC00) as u8;
            return at + 1;
        }
        let v = w - 1;
        text[at] = self.of(v / 1600);
        match (v / 40 % 40, v % 40) {
            (0, _) => at + 1,
            (b, 0) => {
                text[at + 1] = self.of(b);
                at + 2
            }
            (b, c) => {
                text[at + 1] = self.of(b);
                text[at + 2] = self.of(c);
                at + 3
            }
        }
    }

    // Stores the text of words that have a meaning at the front of a buffer that has the room.
    fn put_text(&self, words: &[u16], text: &mut [u8]) -> usize
        requires { (all meaningful words.now ≡ true) × (length (text_of words.now) ≤ length text.old) }
        ensures { Stored text.old 0 (text_of words.now) result text.new }
    {
        let mut end: usize = 0;
        for w in words {
            end = self.put_word(text, end, *w);
        }
        end
    }
}

// The text of words: its length, and just that much of the buffer filled; or refusal 20 or 2, and nothing changed.
pub fn words_to_text(words: &[u16], text: &mut [u8]) -> Result<usize, Reason>
    ensures { Fills (decoding words.now text.old) result text.new }
{
    let length = judge(words, text.len())?;
    let characters = Characters {
        in_order: &ALPHABET,
    };
    characters.put_text(words, text);
    Ok(length)
}
