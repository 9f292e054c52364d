// Decks that are listed and not run.
use mesh_cli::Status;
use std::alloc::{AllocError, Global};
use std::test::Fail as TestFail;
use worked_calls::{ONE_BLOCK, SEED_SEVEN, TWO_DYES, call};

/// The end of the large deck that is made of the seed 7: its last box, and what follows.
const LAST_OF_SEED_SEVEN: &str =
    "<box/255>\nfield = s_255\nlo1 = 1120\nhi1 = 1121\nlo2 = 1525\nhi2 = 1526\namount = 1255\n<reaction/r>\nfrom = s_0\nto = s_1\nnum = 1\nden = 10\n<criterion/c>\nfield = s_0\nmethod = peak\nrefine_tol = 500\nderefine_tol = 50\n";

// Blocks and keys keep their places, later values take the places of earlier ones, and overrides
// add what is new at the end.
#[test]
fn the_deck_is_listed_with_its_overrides(rt: HostRuntime) -> Result<(), TestFail> {
    assert!(rt; is_listed_with_overrides(rt.alloc())?);
    Ok(())
}

fn is_listed_with_overrides(alloc: Global) -> Result<bool, AllocError> {
    let deck = with(alloc, "<m>\na = 1\n<n>\nb = 2\n<m>\na = 3\nc = 4\n")?;
    let listed = with(alloc, "<m>\na = 3\nc = 4\n<n>\nb = 5\n<q/r>\nx = 1\n")?;
    let words = ["-n", "-i", "deck", "n/b=5", "q/r/x=1"];
    let called = call(alloc, &words, deck.as_bytes())?;
    Ok(called.ended(Status::Done, listed.as_str(), 0))
}

// The deck of one block with more lines.
fn with(alloc: Global, more: &str) -> Result<String, AllocError> {
    let mut deck = String::from_str(alloc, ONE_BLOCK)?;
    deck.push_str(more)?;
    Ok(deck)
}

// A deck is listed where its problem is accepted, and not where it is refused.
#[test]
fn what_is_accepted_is_listed(rt: HostRuntime) -> Result<(), TestFail> {
    let start = b"<parthenon/job>\nproblem_id = advection\n<parthenon/mesh>\n";
    let accepted = call(rt.alloc(), &["-n", "-i", "deck"], TWO_DYES.as_bytes())?;
    assert_eq!(rt; accepted.status, Status::Done);
    assert!(rt; accepted.out.printed().starts_with(start));
    assert_eq!(rt; accepted.depot.written().len(), 0);
    Ok(())
}

#[test]
fn what_is_refused_is_not_listed(rt: HostRuntime) -> Result<(), TestFail> {
    let words = ["-n", "-i", "deck", "parthenon/time/nlim=-1"];
    let refused = call(rt.alloc(), &words, TWO_DYES.as_bytes())?;
    assert!(rt; refused.ended(Status::Refused, "refused: value parthenon/time nlim\n", 0));
    Ok(())
}

// A deck that is made of a seed is listed like one of a file, with its overrides; its file is not read.
#[test]
fn the_deck_of_a_seed_is_listed(rt: HostRuntime) -> Result<(), TestFail> {
    let small = call(rt.alloc(), &["-n", "-g", "7"], b"<")?;
    assert!(rt; small.ended(Status::Done, SEED_SEVEN, 0));
    Ok(())
}

#[test]
fn the_large_deck_of_a_seed_is_listed(rt: HostRuntime) -> Result<(), TestFail> {
    let large = call(rt.alloc(), &["-g", "7", "-ln"], b"<")?;
    assert_eq!(rt; large.out.printed().len(), 21636);
    assert!(rt; large.out.printed().ends_with(LAST_OF_SEED_SEVEN.as_bytes()));
    Ok(())
}

#[test]
fn a_refused_deck_of_a_seed_is_not_listed(rt: HostRuntime) -> Result<(), TestFail> {
    let refused = call(rt.alloc(), &["-n", "-g", "7", "box/0/amount=-1"], b"<")?;
    assert!(rt; refused.ended(Status::Refused, "refused: value box/0 amount\n", 0));
    Ok(())
}

// The large decks of some seeds are accepted; they are not run yet.
#[test]
fn large_decks_of_seeds_are_accepted(rt: HostRuntime) -> Result<(), TestFail> {
    for seed in ["0", "1", "7", "1103515245", "2147483647"] {
        assert!(rt; is_not_built(rt.alloc(), seed)?, "{seed}");
    }
    Ok(())
}

fn is_not_built(alloc: Global, seed: &str) -> Result<bool, AllocError> {
    let large = call(alloc, &["-l", "-g", seed], b"<")?;
    Ok(large.ended(Status::Refused, "refused: not built\n", 0))
}
