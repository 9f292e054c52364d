//! What no contract says: that the calls succeed, and the rows of the grammar on whole inputs.
ghost use Rattle.std.specs.Prelude.{◌<◌};

use crate::{Deck, DeckFault, DeckReader, NoMemory, parse};
use std::alloc::{AllocError, Global};
use std::test::Fail;

/// An input laid out as Parthenon's are.
const TWO_DYES: &str = "# two dyes in a square, laid out after a Parthenon input
<parthenon/job>
problem_id = advection

<parthenon/mesh>
refinement = adaptive
numlevel = 3
nx1 = 64
x1min = -0.5
x1max = 0.5
ix1_bc = periodic
ox1_bc = periodic
nx2 = 64
x2min = -0.5
x2max = 0.5
ix2_bc = periodic
ox2_bc = periodic
nx3 = 1

<parthenon/meshblock>
nx1 = 16
nx2 = 16
nx3 = 1

<parthenon/time>
nlim = 20
tlim = 1.0        # not read here
integrator = rk2  # not read here

<parthenon/output0>
file_type = hdf5
dt = 0.05

<parthenon/sparse>
dealloc_count = 5

<Advection>
cfl = 0.45

<field/dye>
flags = Cell, Independent, FillGhost, WithFluxes, Sparse
ids = 1,2
v1 = 10
v2 = 10

<box/first>
field = dye_1
lo1 = 8
hi1 = 15
lo2 = 8
hi2 = 15
amount = 100

<box/second>
field = dye_2
lo1 = 40
hi1 = 47
lo2 = 40
hi2 = 47
amount = 50
";

fn fault_of(alloc: Global, bytes: &[u8]) -> Option<DeckFault> {
    parse(alloc, bytes).err()
}

/// Whether the text of a deck with an override is this one.
fn prints(alloc: Global, bytes: &[u8], word: &str, text: &[u8]) -> Result<bool, DeckFault> {
    let mut deck = parse(alloc, bytes)?;
    deck.apply(word)?;
    Ok(deck.print()?.as_slice() == text)
}

/// The deck of some bytes that come in pieces of this many bytes.
fn read_in_pieces(alloc: Global, bytes: &[u8], size: usize) -> Result<Deck, DeckFault>
    requires { 0 < size }
{
    let mut reader = DeckReader::new(alloc);
    for piece in bytes.chunks(size) {
        reader.feed(piece)?;
    }
    reader.finish()
}

/// Whether two answers are the same fault, or decks of the same text.
fn same_answer(
    one: Result<Deck, DeckFault>,
    other: Result<Deck, DeckFault>,
) -> Result<bool, NoMemory> {
    match (one, other) {
        (Ok(one), Ok(other)) => Ok(one.print()?.as_slice() == other.print()?.as_slice()),
        (Err(one), Err(other)) => Ok(one == other),
        _ => Ok(false),
    }
}

fn same_in_pieces(alloc: Global, bytes: &[u8], size: usize) -> Result<bool, NoMemory>
    requires { 0 < size }
{
    same_answer(read_in_pieces(alloc, bytes, size), parse(alloc, bytes))
}

fn applied(alloc: Global, word: &str) -> Result<(), DeckFault> {
    let mut deck = parse(alloc, b"<n>\nb = 1\n")?;
    deck.apply(word)
}

fn many_keys(alloc: Global) -> Result<String, AllocError> {
    let mut text = String::from_str(alloc, "<m>\n")?;
    for i in 0..60_000u32 {
        writeln!(text, "k{i} = {i}")?;
    }
    Ok(text)
}

/// The keys that many decks of this test repeat. Under the hash that maps have by default they all have one place.
fn colliding_key(alloc: Global, number: u32) -> Result<String, AllocError> {
    format!(in alloc; "k000000000004204)l`fdXZ\\{number:08}")
}

fn colliding_keys(alloc: Global) -> Result<String, AllocError> {
    let mut text = String::from_str(alloc, "<m>\n")?;
    for number in 0..30_000u32 {
        let key = colliding_key(alloc, number)?;
        writeln!(text, "{key}=")?;
    }
    Ok(text)
}

#[test]
fn each_fault_has_its_place(rt: HostRuntime) {
    let rows: [(&[u8], DeckFault); 17] = [
        (b"nx1 = 4", DeckFault::NoBlock { line: 1 }),
        (b"# first\n\n nx1 = 4\n<a>", DeckFault::NoBlock { line: 3 }),
        (b"<a", DeckFault::Syntax { line: 1 }),
        (b"<a>\n<>\n", DeckFault::Syntax { line: 2 }),
        (b"<a> b", DeckFault::Syntax { line: 1 }),
        (b"<a>\nb", DeckFault::Syntax { line: 2 }),
        (b"<a>\n= 1", DeckFault::Syntax { line: 2 }),
        (b"<a>\nb/c = 1", DeckFault::Syntax { line: 2 }),
        (b"<a>\nb # = 1", DeckFault::Syntax { line: 2 }),
        (b"<a>\nb = 1\r # x", DeckFault::Syntax { line: 2 }),
        (b"<a>\nb = 1\r\r\n", DeckFault::Syntax { line: 2 }),
        (b"\xEF\xBB\xBF<a>", DeckFault::Syntax { line: 1 }),
        (b"b/c = 1", DeckFault::Syntax { line: 1 }),
        (b"<a>\n\xFF", DeckFault::NotText { place: 4 }),
        (b"<a\n\xFF", DeckFault::NotText { place: 3 }),
        (b"<a> # \xC3", DeckFault::NotText { place: 6 }),
        (b"<a> # \xC3\n", DeckFault::NotText { place: 6 }),
    ];
    for (bytes, fault) in rows {
        assert_eq!(rt; fault_of(rt.alloc(), bytes), Some(fault));
    }
}

#[test]
fn pieces_of_any_length_give_the_deck_of_the_whole(rt: HostRuntime) -> Result<(), Fail> {
    let decks: [&[u8]; 9] = [
        TWO_DYES.as_bytes(),
        b"<a>\r\nb = 1 # one\r\nc = 2\r\n",
        b"<k\xC3\xA9> # \xE2\x82\xAC\nv = \xF0\x9F\x8C\x8A",
        b"<a>\nb = \xE2\x82",
        b"<a>\nb\n<a\n\xC3\n\xFF",
        b"<a>\nb = 1\r\r\n",
        b"a = 1\n<b",
        b"\n\n\r\n",
        b"",
    ];
    for deck in decks {
        for size in [1usize, 2, 3, 7, 65_536] {
            assert!(rt; same_in_pieces(rt.alloc(), deck, size)?);
        }
    }
    Ok(())
}

#[test]
fn decks_print_in_order(rt: HostRuntime) -> Result<(), Fail> {
    let rows = [
        ("", "m/a=1", "<m>\na = 1\n"),
        (
            "<m>\na = 1\n<n>\nb = 2\n<m>\na = 3\nc = 4",
            "n/b=5",
            "<m>\na = 3\nc = 4\n<n>\nb = 5\n",
        ),
        ("<m>\na = 1\n", "q/r/x=1", "<m>\na = 1\n<q/r>\nx = 1\n"),
        ("<m>\na = 1\n", " m / d = x=y ", "<m>\na = 1\nd = x=y\n"),
        (
            "\t< m >\r\n  a=1\t\r\n<n>\r\n",
            "m/b=",
            "<m>\na = 1\nb =\n<n>\n",
        ),
        ("# x\n<m> # y\na = 1 # = 2\n#", "m/a=1", "<m>\na = 1\n"),
        (
            "<\u{e9} x>\nk\u{e9}=a = b/c # \u{e9}\r",
            "n/b=",
            "<\u{e9} x>\nk\u{e9} = a = b/c\n<n>\nb =\n",
        ),
    ];
    for (input, word, text) in rows {
        assert!(rt; prints(rt.alloc(), input.as_bytes(), word, text.as_bytes())?);
    }
    Ok(())
}

#[test]
fn other_words_are_no_overrides(rt: HostRuntime) {
    let words = [
        "", "b=5", "n/b", "/b=5", "n/=5", "=", "/=", "n/b=5#", "n#/b=5", "n/<b=5", "<n>/b=5",
        "n=b/c", "n/b=5\n6", "n\r/b=5", "n/ =5",
    ];
    for word in words {
        assert_eq!(rt; applied(rt.alloc(), word), Err(DeckFault::BadOverride));
    }
}

#[test]
fn an_input_as_parthenon_has_them_is_read(rt: HostRuntime) -> Result<(), Fail> {
    let deck = parse(rt.alloc(), TWO_DYES.as_bytes())?;
    let names = [
        "parthenon/job",
        "parthenon/mesh",
        "parthenon/meshblock",
        "parthenon/time",
        "parthenon/output0",
        "parthenon/sparse",
        "Advection",
        "field/dye",
        "box/first",
        "box/second",
    ];
    for (i, name) in names.iter().enumerate() {
        assert_eq!(rt; deck.block_name(i), Some(*name));
    }
    assert_eq!(rt; deck.block_name(10), None);
    let values = [
        ("parthenon/mesh", "x1min", Some("-0.5")),
        ("parthenon/time", "tlim", Some("1.0")),
        ("parthenon/time", "integrator", Some("rk2")),
        (
            "field/dye",
            "flags",
            Some("Cell, Independent, FillGhost, WithFluxes, Sparse"),
        ),
        ("box/second", "amount", Some("50")),
        ("box/second", "v1", None),
        ("box", "amount", None),
    ];
    for (block, key, value) in values {
        assert_eq!(rt; deck.get(block, key), value);
    }
    Ok(())
}

#[test]
fn a_deck_is_made_by_code(rt: HostRuntime) -> Result<(), Fail> {
    let mut deck = Deck::new(rt.alloc());
    deck.set("m", "a", "1")?;
    deck.set("m", "a", "3")?;
    assert_eq!(rt; deck.get("m", "a"), Some("3"));
    Ok(())
}

#[test]
fn a_megabyte_is_read(rt: HostRuntime) -> Result<(), Fail> {
    let headers = vec![in rt.alloc(); b'<'; 1_048_576]?;
    assert_eq!(rt;
        fault_of(rt.alloc(), headers.as_slice()),
        Some(DeckFault::Syntax { line: 1 })
    );
    let blanks = vec![in rt.alloc(); b' '; 1_048_577]?;
    assert_eq!(rt; fault_of(rt.alloc(), &blanks[1..]), None);
    assert_eq!(rt;
        fault_of(rt.alloc(), blanks.as_slice()),
        Some(DeckFault::TooLong)
    );
    Ok(())
}

#[test]
fn a_block_of_many_keys_is_read(rt: HostRuntime) -> Result<(), Fail> {
    let text = many_keys(rt.alloc())?;
    assert!(rt; prints(rt.alloc(), text.as_bytes(), "m/k0=0", text.as_bytes())?);
    Ok(())
}

#[test]
fn keys_that_collide_under_a_common_hash_are_read(rt: HostRuntime) -> Result<(), Fail> {
    let alloc = rt.alloc();
    let text = colliding_keys(alloc)?;
    let mut deck = parse(alloc, text.as_bytes())?;
    let last = colliding_key(alloc, 29_999)?;
    assert_eq!(rt; deck.get("m", last.as_str()), Some(""));
    for number in 0..30_000u32 {
        let word = format!(in alloc; "m/k000000000004204)l`fdXZ\\{number:08}=x")?;
        deck.apply(word.as_str())?;
    }
    assert_eq!(rt; deck.get("m", last.as_str()), Some("x"));
    Ok(())
}

#[test]
fn a_megabyte_in_pieces_of_one_byte_is_read(rt: HostRuntime) -> Result<(), Fail> {
    let text = many_keys(rt.alloc())?;
    assert!(rt; same_in_pieces(rt.alloc(), text.as_bytes(), 1)?);
    let blanks = vec![in rt.alloc(); b' '; 1_048_576]?;
    assert!(rt; same_in_pieces(rt.alloc(), blanks.as_slice(), 1)?);
    Ok(())
}
