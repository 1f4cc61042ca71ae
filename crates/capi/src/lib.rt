// The calls that a C host links: `include/urpanella.h` documents them. Each takes the answer of the call that does the work apart and does
// nothing else: by `let .. else`, the project's form for an answer whose number goes out early.
#![tactic(auto)]

ghost use Rattle.std.specs.Prelude.{◌≡◌, not, eqb};
ghost use Rattle.format.specs.Numbers.{given, told, number_of, place_of, ReadsC, WritesC, EditsC};
ghost use Rattle.words.specs.Calls.{decoding, encoding, FillsC};
ghost use Rattle.identifier.specs.Elements.{three};
ghost use Rattle.identifier.specs.Calls.{parting, joining, FillsThreeC};

use format::{Reason, Refusal};

// What a call returns whose work is done.
const DONE: u32 = 0;

// The number of an answer's refusal, 0 for none.
fn number_of<T: Drop>(answer: Result<T, Reason>) -> u32
    ensures { result ≡ number_of (given answer) }
{
    match answer {
        Ok(_) => 0,
        Err(reason) => u32::from(reason),
    }
}

// The same of an answer that may have a place. `place` becomes it; without one, it stays as it is.
fn tell<T: Drop>(answer: Result<T, Refusal>, place: &mut usize) -> u32
    ensures { (result ≡ number_of (told answer)) × (place.new ≡ place_of (told answer) place.old) }
{
    match answer {
        Ok(_) => 0,
        Err(Refusal::Plain(reason)) => u32::from(reason),
        Err(Refusal::Placed { damage, place: at }) => {
            *place = at;
            u32::from(damage)
        }
    }
}

// Reads a tag into a sheet. `used` becomes the sheet's length; or, where the tag is damaged, `place` the byte where the damaged block
// begins.
#[unsafe(no_mangle)]
pub extern "C" fn urp_read(tag: &[u8], sheet: &mut [u8], used: &mut usize, place: &mut usize) -> u32
    ensures { ReadsC tag.now sheet.old used.old place.old result sheet.new used.new place.new }
{
    let answer = reading::read(tag, sheet);
    let Ok(length) = answer else {
        return tell(answer, place);
    };
    *used = length;
    DONE
}

// Writes a sheet onto a tag. `pages` becomes the count of pages changed.
#[unsafe(no_mangle)]
pub extern "C" fn urp_write(sheet: &[u8], tag: &mut [u8], locks: &[u8], pages: &mut usize) -> u32
    ensures { WritesC sheet.now tag.old locks.now pages.old result tag.new pages.new }
{
    let answer = writing::write(sheet, tag, locks);
    let Ok(count) = answer else {
        return number_of(answer);
    };
    *pages = count;
    DONE
}

// Edits one element of a tag. `pages` becomes the count of pages changed, `used` the old element's length; `place` as for `urp_read`.
#[unsafe(no_mangle)]
pub extern "C" fn urp_edit(
    tag: &mut [u8],
    locks: &[u8],
    number: u32,
    value: &[u8],
    old: &mut [u8],
    pages: &mut usize,
    used: &mut usize,
    place: &mut usize,
) -> u32
    ensures { EditsC tag.old locks.now number value.now old.old pages.old used.old place.old result tag.new old.new pages.new used.new place.new }
{
    let edited = editing::edit(tag, locks, number, value, old);
    let Ok(done) = edited else {
        return tell(edited, place);
    };
    *pages = done.pages;
    *used = done.old;
    DONE
}

// The text of UHF words. `used` becomes its length.
#[unsafe(no_mangle)]
pub extern "C" fn urp_words_to_text(words: &[u16], text: &mut [u8], used: &mut usize) -> u32
    ensures { FillsC (decoding words.now text.old) used.old result text.new used.new }
{
    let answer = decoding::words_to_text(words, text);
    let Ok(length) = answer else {
        return number_of(answer);
    };
    *used = length;
    DONE
}

// The UHF words of a text. `used` becomes their count.
#[unsafe(no_mangle)]
pub extern "C" fn urp_text_to_words(text: &[u8], words: &mut [u16], used: &mut usize) -> u32
    ensures { FillsC (encoding text.now words.old) used.old result words.new used.new }
{
    let answer = encoding::text_to_words(text, words);
    let Ok(count) = answer else {
        return number_of(answer);
    };
    *used = count;
    DONE
}

// The elements 1, 3 and 4 of a UHF tag's identifier; `leads` is 0 where no ISIL leads. `used1`, `used3` and `used4` become their lengths.
#[unsafe(no_mangle)]
pub extern "C" fn urp_take_apart(
    text: &[u8],
    leads: u32,
    item: &mut [u8],
    isil: &mut [u8],
    set: &mut [u8],
    used1: &mut usize,
    used3: &mut usize,
    used4: &mut usize,
) -> u32
    ensures { FillsThreeC (parting (not (eqb leads 0)) text.now (three item.old isil.old set.old)) (three used1.old used3.old used4.old) result (three item.new isil.new set.new) (three used1.new used3.new used4.new) }
{
    let answer = parting::take_apart(text, leads != 0, item, isil, set);
    let Ok(lengths) = answer else {
        return number_of(answer);
    };
    *used1 = lengths.item;
    *used3 = lengths.isil;
    *used4 = lengths.set;
    DONE
}

// The identifier of a UHF tag with the elements 1, 3 and 4; no `isil` is none. `used` becomes its length.
#[unsafe(no_mangle)]
pub extern "C" fn urp_put_together(
    item: &[u8],
    isil: &[u8],
    set: &[u8],
    text: &mut [u8],
    used: &mut usize,
) -> u32
    ensures { FillsC (joining (three item.now isil.now set.now) text.old) used.old result text.new used.new }
{
    let answer = joining::put_together(item, isil, set, text);
    let Ok(length) = answer else {
        return number_of(answer);
    };
    *used = length;
    DONE
}
