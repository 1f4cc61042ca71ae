// The pages of a tag: its size, its lock map, and storing an image on it page by page.
#![tactic(auto)]

ghost use Rattle.std.specs.Prelude.{◌≡◌, not, ◌&&◌, ◌+◌, ◌*◌, ◌≤◌, ◌<◌, eqb, length};
ghost use Rattle.format.specs.Answers.{need};
ghost use Rattle.format.specs.Bytes.{all, same};
ghost use Rattle.format.specs.Numbers.{given};
ghost use Rattle.format.specs.Pages.{page_size, good_size, lock_map, differs, locked_changed};
ghost use Rattle.pages.specs.Storing.{is_open, number_at, lock_judged, SharedPage, SharedPages, with_page, count_stored, tag_stored};

use format::Reason;

const PAGE: usize = 4;

// Can a tag have n bytes: 32, or whole pages from 36 to 2,048.
#[tactic(auto, unfolding(format::specs::Pages::good_size))]
pub fn good_size(n: usize) -> bool
    ensures { result ≡ good_size page_size n }
{
    n == 32 || n % PAGE == 0 && 36 <= n && n <= 2048
}

// Is this a lock map for a tag of n bytes: one byte for each page, each 0 or 1.
#[tactic(auto, unfolding(format::specs::Pages::lock_map))]
pub fn good_locks(locks: &[u8], n: usize) -> bool
    ensures { result ≡ lock_map page_size locks.now n }
{
    locks.len() == n / PAGE && locks.iter().all(|lock| *lock <= 1)
}

// 1: the tag's length, and its lock map.
#[tactic(auto, unfolding(format::specs::Answers::need))]
pub fn size_stage(n: usize, locks: &[u8]) -> Result<(), Reason>
    ensures { given result ≡ need 1 (good_size page_size n && lock_map page_size locks.now n) }
{
    if !good_size(n) || !good_locks(locks, n) {
        return Err(Reason::Size);
    }
    Ok(())
}

// Are the two equally long, with the same bytes.
#[tactic(auto, using(crate::proofs::Comparing::pointwise_same))]
pub fn same(a: &[u8], b: &[u8]) -> bool
    ensures { result ≡ same a.now b.now }
{
    a == b
}

// The bytes of the page at `at` as one number, low byte first: the compiler makes it one load.
fn word(s: &[u8], at: usize) -> u32
    requires { at + page_size ≤ length s.now }
    ensures { result ≡ number_at s.now at }
{
    u32::from_le_bytes([s[at], s[at + 1], s[at + 2], s[at + 3]])
}

// Do the bytes of page i differ.
fn page_differs(tag: &[u8], image: &[u8], i: usize) -> bool
    requires { SharedPage image.now tag.now i }
    ensures { result ≡ differs page_size tag.now image.now i }
{
    let at = i * PAGE;
    word(tag, at) != word(image, at)
}

// Stores page i of the image on the tag, and leaves the tag's other pages as they are.
fn store_page(image: &[u8], tag: &mut [u8], i: usize)
    requires { SharedPage image.now tag.old i }
    ensures { tag.new ≡ with_page page_size image.now tag.old i }
{
    let at = i * PAGE;
    let end = at + PAGE;
    strings::copy(&image[at..end], &mut tag[at..end]);
}

// Is some page locked. All bytes are looked at, past a locked one too: so the compiler looks at many at once.
fn any_locked(locks: &[u8]) -> bool
    ensures { result ≡ not (all is_open locks.now) }
{
    locks.iter().fold(false, |some, lock| some | (*lock == 1))
}

// Would a locked page of the tag get other bytes. Pages that the lock map does not reach are open.
#[tactic(auto, using(crate::proofs::Counting::none_locked), unfolding(format::specs::Pages::locked_differs))]
fn locked_differs(image: &[u8], tag: &[u8], locks: &[u8]) -> bool
    requires { length image.now ≡ length tag.now }
    ensures { result ≡ not (eqb (locked_changed page_size locks.now tag.now image.now) 0) }
{
    let pages = tag.len() / PAGE;
    for i in 0..pages.min(locks.len()) {
        if locks[i] == 1 && page_differs(tag, image, i) {
            return true;
        }
    }
    false
}

// 12: a locked page would get other bytes. It is refused 1 where the image is not as long as the tag.
#[tactic(auto, using(crate::proofs::Counting::all_open), unfolding(crate::specs::Storing::lock_judged, format::specs::Answers::in_order, format::specs::Answers::need))]
pub fn lock_stage(image: &[u8], tag: &[u8], locks: &[u8]) -> Result<(), Reason>
    ensures { given result ≡ lock_judged page_size image.now tag.now locks.now }
{
    if image.len() != tag.len() {
        return Err(Reason::Size);
    }
    // where no page is locked, the pages need not be compared twice
    if any_locked(locks) && locked_differs(image, tag, locks) {
        return Err(Reason::Locked);
    }
    Ok(())
}

// How many pages both have.
#[tactic(auto, unfolding(crate::specs::Storing::shared_pages))]
fn shared_pages(image: &[u8], tag: &[u8]) -> usize
    ensures { SharedPages image.now tag.now result }
{
    (tag.len() / PAGE).min(image.len() / PAGE)
}

// Stores the pages that both have, page by page, and counts those whose bytes it changes.
pub fn store(image: &[u8], tag: &mut [u8]) -> usize
    ensures { (result ≡ count_stored page_size image.now tag.old) × (tag.new ≡ tag_stored page_size image.now tag.old) }
{
    let mut n: usize = 0;
    for i in 0..shared_pages(image, tag) {
        if page_differs(tag, image, i) {
            store_page(image, tag, i);
            n += 1;
        }
    }
    n
}
