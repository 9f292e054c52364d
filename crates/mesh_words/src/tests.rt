//! What no contract says: that the calls succeed, and what clap makes of words that are written out.
use crate::{Arguments, Source, UsageFault, read_arguments};
use std::alloc::{AllocError, Global};
use std::test::Fail;

fn words_in(alloc: Global, line: &str) -> Result<Vec<String>, AllocError> {
    let mut words = Vec::new(alloc);
    for word in line.split_whitespace() {
        words.push(String::from_str(alloc, word)?)?;
    }
    Ok(words)
}

fn fault_of(alloc: Global, line: &str) -> Result<Option<UsageFault>, AllocError> {
    let words = words_in(alloc, line)?;
    Ok(read_arguments(alloc, words.as_slice()).err())
}

fn says(words: &Arguments<'_>, input: &str, prefix: &str, workers: u32, prints_deck: bool) -> bool {
    matches!(&words.source, Source::File(name) if *name == input)
        && words.prefix == prefix
        && words.workers == workers
        && words.prints_deck == prints_deck
}

fn is_seed(words: &Arguments<'_>, number: u32, form: bool) -> bool {
    matches!(&words.source, Source::Seed { seed, large } if *seed == number && *large == form)
}

#[test]
fn the_first_rule_refuses(rt: HostRuntime) -> Result<(), Fail> {
    let rows = [
        ("", UsageFault::NoInput),
        ("-l", UsageFault::NoInput),
        ("-i", UsageFault::NotTheCommand),
        ("-i f -i f", UsageFault::NotTheCommand),
        ("-i f -n -n", UsageFault::NotTheCommand),
        ("-i f -w -1", UsageFault::NotTheCommand),
        ("-i f -x", UsageFault::NotTheCommand),
        ("--help", UsageFault::NotTheCommand),
        ("-h", UsageFault::NotTheCommand),
        ("-i f -g 1 -l -w 0", UsageFault::TwoInputs),
        ("-i f -l -w 0", UsageFault::Large),
        ("-i f -w 0 -d=", UsageFault::Workers),
        ("-i f -w 65", UsageFault::Workers),
        ("-i f -w 00000000001", UsageFault::Workers),
        ("-i f -w 1x", UsageFault::Workers),
        ("-g 2147483648", UsageFault::Seed),
        ("-i f -d=", UsageFault::Prefix),
        ("-i f -t", UsageFault::NotBuilt),
    ];
    for (line, fault) in rows {
        assert_eq!(rt; fault_of(rt.alloc(), line)?, Some(fault));
    }
    Ok(())
}

#[test]
fn words_say_what_they_give(rt: HostRuntime) -> Result<(), Fail> {
    let rows = [
        ("-i f", "f", "mesh", 1, false),
        ("-i=f", "f", "mesh", 1, false),
        ("-if a/b=1", "f", "mesh", 1, false),
        ("a/b=1 -n -i - c", "-", "mesh", 1, true),
        ("-w 64 -d out -ni f", "f", "out", 64, true),
        ("-i f -w 0000000007 -- -x", "f", "mesh", 7, false),
    ];
    for (line, input, prefix, workers, prints_deck) in rows {
        let list = words_in(rt.alloc(), line)?;
        match read_arguments(rt.alloc(), list.as_slice()) {
            Ok(words) => assert!(rt; says(&words, input, prefix, workers, prints_deck)),
            Err(_) => assert!(rt; false),
        }
    }
    Ok(())
}

#[test]
fn a_seed_stands_for_a_file(rt: HostRuntime) -> Result<(), Fail> {
    let rows = [
        ("-g 7", 7, false),
        ("-l -g 0000000012", 12, true),
        ("-g 2147483647 -ln", 2_147_483_647, true),
    ];
    for (line, number, form) in rows {
        let list = words_in(rt.alloc(), line)?;
        match read_arguments(rt.alloc(), list.as_slice()) {
            Ok(words) => assert!(rt; is_seed(&words, number, form)),
            Err(_) => assert!(rt; false),
        }
    }
    Ok(())
}

#[test]
fn overrides_come_in_order(rt: HostRuntime) -> Result<(), Fail> {
    let list = words_in(rt.alloc(), "a/b=1 -i f c -- -i")?;
    match read_arguments(rt.alloc(), list.as_slice()) {
        Ok(words) => assert_eq!(rt; words.overrides.as_slice(), ["a/b=1", "c", "-i"].as_slice()),
        Err(_) => assert!(rt; false),
    }
    Ok(())
}
