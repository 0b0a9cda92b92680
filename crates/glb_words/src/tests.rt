ghost use Rattle.std.specs.Prelude.{◌<◌, length, vec_len, ◌≡◌, IfOk};

use super::{Driver, FabricKind, Job, OrderFault, Settings, WordFault, WordKind, read_settings};
use std::alloc::{AllocError, Global};
use std::test::Fail;

fn words_of(alloc: Global, texts: &[&str]) -> Result<Vec<String>, AllocError>
    ensures { IfOk result (λ v. vec_len v ≡ length texts.now) }
{
    let mut words = Vec::new(alloc);
    for text in texts {
        words.push(String::from_str(alloc, text)?)?;
    }
    Ok(words)
}

#[test]
fn options_are_read_in_both_forms(rt: HostRuntime) -> Result<(), Fail> {
    let alloc = rt.alloc();
    let texts = [
        "queens",
        "08",
        "--places",
        "8",
        "--batch=1",
        "--seed=18446744073709551615",
        "--stats",
        "--fabric",
        "inbox",
        "--driver=turns",
    ];
    let words = words_of(alloc, &texts)?;
    let settings = Settings {
        job: Job::Queens { n: 8 },
        places: 8,
        batch: 1,
        tries: 1,
        base: 2,
        seed: 18446744073709551615,
        limit: 1099511627776,
        driver: Driver::Turns,
        fabric: FabricKind::Inbox,
        stats: true,
        spread: false,
    };
    assert_eq!(rt; read_settings(alloc, words.as_slice(), false), Ok(settings));
    Ok(())
}

#[test]
fn each_option_has_the_other_form(rt: HostRuntime) -> Result<(), Fail> {
    let alloc = rt.alloc();
    let texts = [
        "trial",
        "4294967295",
        "--places=64",
        "--batch",
        "65536",
        "--tries",
        "0",
        "--base=64",
        "--seed",
        "1",
        "--limit=1000",
        "--spread",
        "--driver",
        "threads",
        "--fabric=inbox",
    ];
    let words = words_of(alloc, &texts)?;
    let settings = Settings {
        job: Job::Trial { k: 4294967295 },
        places: 64,
        batch: 65536,
        tries: 0,
        base: 64,
        seed: 1,
        limit: 1000,
        driver: Driver::Threads,
        fabric: FabricKind::Inbox,
        stats: false,
        spread: true,
    };
    assert_eq!(rt; read_settings(alloc, words.as_slice(), false), Ok(settings));
    Ok(())
}

#[test]
fn the_fabric_is_of_cells_unless_inboxes_are_named(rt: HostRuntime) -> Result<(), Fail> {
    let alloc = rt.alloc();
    let cases: [(&[&str], FabricKind); 5] = [
        (&["queens", "8"], FabricKind::Cells),
        (&["queens", "8", "--fabric", "cells"], FabricKind::Cells),
        (&["queens", "8", "--fabric=cells"], FabricKind::Cells),
        (&["queens", "8", "--fabric", "inbox"], FabricKind::Inbox),
        (&["queens", "8", "--fabric=inbox"], FabricKind::Inbox),
    ];
    for (texts, fabric) in cases {
        let words = words_of(alloc, texts)?;
        let settings = Settings {
            job: Job::Queens { n: 8 },
            places: 4,
            batch: 64,
            tries: 1,
            base: 2,
            seed: 0,
            limit: 1099511627776,
            driver: Driver::One,
            fabric,
            stats: false,
            spread: false,
        };
        assert!(rt; words.len() < 100);
        assert_eq!(rt; read_settings(alloc, words.as_slice(), true), Ok(settings));
    }
    Ok(())
}

#[test]
fn a_search_has_its_own_options(rt: HostRuntime) -> Result<(), Fail> {
    let alloc = rt.alloc();
    let texts = ["knap", "--driver", "turns", "--places=2", "--limit", "9"];
    let words = words_of(alloc, &texts)?;
    let settings = Settings {
        job: Job::Knap,
        places: 2,
        batch: 64,
        tries: 1,
        base: 2,
        seed: 0,
        limit: 9,
        driver: Driver::Turns,
        fabric: FabricKind::Cells,
        stats: false,
        spread: false,
    };
    assert_eq!(rt; read_settings(alloc, words.as_slice(), true), Ok(settings));
    Ok(())
}

#[test]
fn the_first_fault_is_told(rt: HostRuntime) -> Result<(), Fail> {
    let alloc = rt.alloc();
    let cases: [(&[&str], WordKind, u32); 50] = [
        (&[], WordKind::Missing, 0),
        (&["queen", "8"], WordKind::UnknownJob, 0),
        (&["", "8"], WordKind::UnknownJob, 0),
        (&["--help"], WordKind::UnknownJob, 0),
        (&["queens"], WordKind::Missing, 1),
        (&["queens", "0"], WordKind::OutOfRange, 1),
        (&["queens", "17"], WordKind::OutOfRange, 1),
        (&["queens", "08x"], WordKind::NotNumber, 1),
        (&["queens", "+8"], WordKind::NotNumber, 1),
        (&["queens", "٨"], WordKind::NotNumber, 1),
        (&["queens", "000000000000000000008"], WordKind::NotNumber, 1),
        (&["queens", "99999999999999999999"], WordKind::OutOfRange, 1),
        (&["queens", "8", "9"], WordKind::UnknownOption, 2),
        (&["queens", "8", ""], WordKind::UnknownOption, 2),
        (&["queens", "8", "--"], WordKind::UnknownOption, 2),
        (&["queens", "8", "-p"], WordKind::UnknownOption, 2),
        (&["queens", "8", "--="], WordKind::UnknownOption, 2),
        (&["queens", "8", "places=3"], WordKind::UnknownOption, 2),
        (&["queens", "8", "--plätze=3"], WordKind::UnknownOption, 2),
        (&["queens", "8", "--places"], WordKind::Missing, 3),
        (&["queens", "8", "--places="], WordKind::NotNumber, 2),
        (
            &["queens", "8", "--places", "--batch"],
            WordKind::NotNumber,
            3,
        ),
        (&["queens", "8", "--places", "65"], WordKind::OutOfRange, 3),
        (&["queens", "8", "--places=65"], WordKind::OutOfRange, 2),
        (&["queens", "8", "--base=1"], WordKind::OutOfRange, 2),
        (&["queens", "8", "--limit=0"], WordKind::OutOfRange, 2),
        (
            &["queens", "8", "--seed", "18446744073709551616"],
            WordKind::OutOfRange,
            3,
        ),
        (
            &["queens", "8", "--tries=0", "--tries=0"],
            WordKind::Repeated,
            3,
        ),
        (
            &["queens", "8", "--batch=1", "--batch", "2"],
            WordKind::Repeated,
            3,
        ),
        (&["queens", "8", "--driver", "two"], WordKind::BadChoice, 3),
        (&["queens", "8", "--driver=turn"], WordKind::BadChoice, 2),
        (&["queens", "8", "--driver", "threads"], WordKind::Calm, 3),
        (&["queens", "8", "--driver=threads"], WordKind::Calm, 2),
        (&["queens", "8", "--stats=1"], WordKind::UnknownOption, 2),
        (
            &["queens", "8", "--stats", "--stats"],
            WordKind::Repeated,
            3,
        ),
        (&["queens", "8", "--spread=1"], WordKind::UnknownOption, 2),
        (
            &["queens", "8", "--spread", "--stats", "--spread"],
            WordKind::Repeated,
            4,
        ),
        (
            &["queens", "8", "--fabric", "lanes"],
            WordKind::BadChoice,
            3,
        ),
        (&["queens", "8", "--fabric=lanes"], WordKind::BadChoice, 2),
        (&["queens", "8", "--fabric"], WordKind::Missing, 3),
        (
            &["queens", "8", "--fabric=inbox", "--fabric", "inbox"],
            WordKind::Repeated,
            3,
        ),
        (&["trial"], WordKind::Missing, 1),
        (&["trial", "4294967296"], WordKind::OutOfRange, 1),
        (&["trial", "7", "8"], WordKind::UnknownOption, 2),
        (&["uts", "3", "8", "0"], WordKind::Missing, 4),
        (&["dist", "1"], WordKind::UnknownOption, 1),
        (&["knap", "3"], WordKind::UnknownOption, 1),
        (&["knap", "--batch=1"], WordKind::UnknownOption, 1),
        (&["knap", "--stats"], WordKind::UnknownOption, 1),
        (&["trace", "8"], WordKind::UnknownJob, 0),
    ];
    for (texts, kind, word) in cases {
        let words = words_of(alloc, texts)?;
        let fault = OrderFault::Bad(WordFault { kind, word });
        assert!(rt; words.len() < 100);
        assert_eq!(rt;
            read_settings(alloc, words.as_slice(), true),
            Err(fault),
            "{kind:?} {word}"
        );
    }
    Ok(())
}
