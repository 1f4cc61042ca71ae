// What `listing::list` lays down for some tags, compared byte by byte with what `taglist` is to print of them.
#![tactic(auto)]

ghost use Rattle.std.specs.Prelude.{◌≡◌, true};
ghost use Rattle.listing.specs.Listing.{listing};

// Is this text what is listed of the tag?
fn lists(tag: &[u8], text: &[u8]) -> bool
    ensures { (result ≡ true → listing tag.now ≡ text.now) × (listing tag.now ≡ text.now → result ≡ true) }
{
    let mut out = [0u8; 20480];
    let n = listing::list(tag, &mut out);
    check::same(&out[0..n], text)
}

fn main() {
    // The whole case of document 01.
    let whole = b"\x11\x01\x01B1\0\0\0\0\0\0\0\0\0\0\0\0\0\0\xD9K\0\0\0\0\0\0\0\0\0\0\0\0\0\0\0";
    check::expect(lists(whole, b"elements 3\n1 4231\n4 01000100\n5 10\n"));
    // Example B.2 of the standard: a book, with block 1 and an acquisition block.
    let book =
        b"\x11\x01\x011000000136\0\0\0\0\0\06\x15DK718500\0\0\0\0\0\x05\x01\0\x05\x01\x22\x02\0qBogvognen\01234567890\0\0a789656c\0\0\0";
    check::expect(lists(
        book,
        b"elements 6\n1 31303030303030313336\n3 444B2D373138353030\n4 01000100\n5 10\n19 01\n255 22020071426F67766F676E656E003132333435363738393000006137383936353663\n",
    ));
    // A tag of 00 bytes, no input, and a byte too many.
    check::expect(lists(&[0u8; 36], b"refused 3\n"));
    check::expect(lists(b"", b"refused 1\n"));
    check::expect(lists(&[0u8; 2049], b"refused 1\n"));
    // The whole case's basic block, a filler, and a block that runs past the end.
    let damaged =
        b"\x11\x01\x01B1\0\0\0\0\0\0\0\0\0\0\0\0\0\0\xD9K\0\0\0\0\0\0\0\0\0\0\0\0\0\x01\x03";
    check::expect(lists(damaged, b"refused 16 35\n"));
}
