// Where the parts of an identifier stand.
ghost use Rattle.std.specs.Prelude.{◌≡◌, ◌≤◌, length, drop};
ghost use Rattle.format.specs.Numbers.{given};
ghost use Rattle.parting.specs.Places.{sixteen, dot_at, Skips, cut_from, Begins, cut_in};

use format::Reason;

// The identifier stands from `item` to `end`. Before it stand an ISIL of `isil` bytes and a dot, or nothing; behind it a dot and a part, or
// nothing.
#[derive(Clone, Copy)]
pub struct Cut {
    pub isil: usize,
    pub item: usize,
    pub end: usize,
}

// The identifier begins at `item`. Before it stand an ISIL of `isil` bytes and a dot, or nothing.
#[derive(Clone, Copy)]
struct Begin {
    isil: usize,
    item: usize,
}

// The place of the first dot from `at` on.
fn dot_from(text: &[u8], at: usize) -> Option<usize>
    requires { at ≤ length text.now }
    ensures { result ≡ dot_at text.now at }
{
    let before = text[at..].iter().position(|c| *c == b'.')?;
    Some(at + before)
}

// Are there 16 bytes from `at` on, and no dot among them?
#[tactic(auto, unfolding(crate::specs::Places::sixteen))]
fn sixteen_dotless(text: &[u8], at: usize) -> bool
    requires { at ≤ length text.now }
    ensures { result ≡ sixteen (drop at text.now) }
{
    16 <= text.len() - at && identifier::is_dotless(&text[at..at + 16])
}

// A place from `at` on, up to which there is no dot: 16 bytes a turn, since the compiler looks at all of them at once.
fn skip_dotless(text: &[u8], at: usize) -> usize
    requires { at ≤ length text.now }
    ensures { Skips text.now at result }
{
    let mut i = at;
    while sixteen_dotless(text, i) {
        i += 16;
    }
    i
}

// Where an identifier stands that begins at `item`, behind an ISIL of `isil` bytes.
fn cut_from(text: &[u8], isil: usize, item: usize) -> Result<Cut, Reason>
    requires { item ≤ length text.now }
    ensures { given result ≡ cut_from text.now isil item }
{
    let Some(end) = dot_from(text, skip_dotless(text, item)) else {
        return Ok(Cut {
            isil,
            item,
            end: text.len(),
        });
    };
    match dot_from(text, end + 1) {
        Some(_) => Err(Reason::Parts),
        None => Ok(Cut { isil, item, end }),
    }
}

// Where the identifier begins: at the text's beginning or, if an ISIL leads, behind the first dot.
fn begin_in(text: &[u8], leads: bool) -> Result<Begin, Reason>
    ensures { Begins leads text.now result }
{
    if !leads {
        return Ok(Begin { isil: 0, item: 0 });
    }
    let isil = dot_from(text, 0).ok_or(Reason::Parts)?;
    Ok(Begin {
        isil,
        item: isil + 1,
    })
}

// Where the identifier stands. One call of `cut_from`, so that what it answers does not go over the stack.
pub fn cut_text(text: &[u8], leads: bool) -> Result<Cut, Reason>
    ensures { given result ≡ cut_in leads text.now }
{
    let begin = begin_in(text, leads)?;
    cut_from(text, begin.isil, begin.item)
}
