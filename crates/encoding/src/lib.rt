// Text to UHF words. `Code40` of crate `words` says what a text becomes, `Calls` what the call comes to.
#![tactic(auto)]

ghost use Rattle.std.specs.Prelude.{◌≡◌, true, ◌<◌, length, get_or};
ghost use Rattle.std.specs.Iterator.{YieldsFirst, item_count};
ghost use Rattle.format.specs.Answers.{need};
ghost use Rattle.format.specs.Bytes.{all};
ghost use Rattle.format.specs.Numbers.{given};
ghost use Rattle.words.specs.Code40.{value_of, is646, words_of};
ghost use Rattle.words.specs.Calls.{encoding, Fills};
ghost use Rattle.encoding.specs.Walk.{marked, Table, Takes};

use format::Reason;
use words::ALPHABET;

// Marks each character of the alphabet with its value, 1 for the first.
fn mark_values(alphabet: &[u8; 39], values: &mut [u8; 128])
    requires { all is646 alphabet.now ≡ true }
    ensures { values.new ≡ marked 1 alphabet.now values.old }
{
    for (i, c) in alphabet.iter().enumerate() {
        values[usize::from(*c)] = i as u8 + 1;
    }
}

// The words of a text, one after another: the table of values, and the characters that are left. A copy of it counts them.
#[derive(Clone, Copy)]
struct Words<'a> {
    values: &'a [u8; 128],
    text: &'a [u8],
    ghost marked: { Table values.now },
    ghost low: { all is646 text.now ≡ true },
}

// A word, and how many characters it is made of.
#[derive(Clone, Copy)]
struct Taken {
    word: u16,
    characters: usize,
}

impl Words<'_> {
    // The value of the character at i: 0, the pad's, where it is outside the 39 or behind the end.
    fn value_at(&self, i: usize) -> u16
        ensures { (result ≡ value_of (get_or self.now.text.now i 0)) × (result < 40) }
    {
        match self.text.get(i) {
            Some(c) => u16::from(self.values[usize::from(*c)]),
            None => 0,
        }
    }

    // The first word: up to three of the 39, or one character outside them.
    fn first(&self) -> Taken
        requires { 0 < length self.now.text.now }
        ensures { Takes self.now.text.now result.word result.characters }
    {
        let a = self.value_at(0);
        if a == 0 {
            return Taken {
                word: 0xFC00 + u16::from(self.text[0]),
                characters: 1,
            };
        }
        let b = self.value_at(1);
        if b == 0 {
            return Taken {
                word: 1600 * a + 1,
                characters: 1,
            };
        }
        let c = self.value_at(2);
        if c == 0 {
            return Taken {
                word: 1600 * a + 40 * b + 1,
                characters: 2,
            };
        }
        Taken {
            word: 1600 * a + 40 * b + c + 1,
            characters: 3,
        }
    }
}

impl<'a> Iterator for Words<'a> {
    type Item = u16;

    ghost next_gives = { YieldsFirst (λ w. words_of w.text.now) };

    ghost remaining = { item_count (λ w. words_of w.text.now) };

    fn next(&mut self) -> Option<u16> {
        if self.text.is_empty() {
            return None;
        }
        let taken = self.first();
        self.text = &self.text[taken.characters..];
        Some(taken.word)
    }
}

// 21 where a character is above 7F.
fn character_stage(text: &[u8]) -> Result<(), Reason>
    ensures { given result ≡ need 21 (all is646 text.now) }
{
    let low = text.iter().all(|c| *c <= 0x7F);
    if low { Ok(()) } else { Err(Reason::Character) }
}

// The words of a text: how many, and just that much of the buffer filled; or refusal 21 or 2, and nothing changed.
pub fn text_to_words(text: &[u8], words: &mut [u16]) -> Result<usize, Reason>
    ensures { Fills (encoding text.now words.old) result words.new }
{
    character_stage(text)?;
    let mut values = [0u8; 128];
    mark_values(&ALPHABET, &mut values);
    let coded = Words {
        values: &values,
        text,
    };
    let count = coded.count();
    if words.len() < count {
        return Err(Reason::Room);
    }
    for (n, word) in coded.enumerate() {
        words[n] = word;
    }
    Ok(count)
}
