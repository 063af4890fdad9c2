//! The tests: each goes through a table.
use crate::boards::*;
use crate::desk::Desk;
use crate::tables::*;
use faults::piece;
use grid::{Mask, Sheet};
use keys::name::NameKey;
use keys::number::NumberKey;
use keys::{Key, KeyRefusal, Spelled, reread};
use std::alloc::{AllocError, Global};
use std::process::Abort;
use std::test::Fail;
use survey::summary::summarize;
use text::reader::read;

/// What the program prints of a text, and the piece that its fault names.
fn told(heap: Global, text: &[u8]) -> Result<(String, &[u8]), AllocError> {
    match summarize(text) {
        Ok(summary) => Ok((summary.to_string(heap)?, b"")),
        Err(fault) => Ok((fault.to_string(heap)?, piece(&fault, text, b""))),
    }
}

fn tell(rt: &impl Abort, heap: Global, cases: &[(&str, &str, &str)]) -> Result<(), Fail> {
    for (text, line, part) in cases {
        let (shown, found) = told(heap, text.as_bytes())?;
        assert_eq!(rt; shown.as_str(), *line, "{}", *text);
        assert_eq!(rt; found, part.as_bytes(), "{}", *text);
    }
    Ok(())
}

// one test to a table, so that a failure names its table
#[test]
fn headers(rt: HostRuntime) -> Result<(), Fail> {
    tell(&rt, rt.alloc(), &HEADERS)
}

#[test]
fn forms(rt: HostRuntime) -> Result<(), Fail> {
    tell(&rt, rt.alloc(), &FORMS)
}

#[test]
fn malformed_keys(rt: HostRuntime) -> Result<(), Fail> {
    tell(&rt, rt.alloc(), &MALFORMED_KEYS)
}

#[test]
fn malformed_weights(rt: HostRuntime) -> Result<(), Fail> {
    tell(&rt, rt.alloc(), &MALFORMED_WEIGHTS)
}

#[test]
fn accepted(rt: HostRuntime) -> Result<(), Fail> {
    tell(&rt, rt.alloc(), &ACCEPTED)
}

/// A text of 5452 short lines and this last line.
fn long(heap: Global, last: &[u8]) -> Result<Vec<u8>, AllocError> {
    let mut text = b"board names\n".to_vec(heap)?;
    for _ in 0..5452 {
        text.extend_from_slice(b"join a b 1\n")?;
    }
    text.extend_from_slice(last)?;
    Ok(text)
}

#[test]
fn lengths(rt: HostRuntime) -> Result<(), Fail> {
    let most = long(rt.alloc(), b"join aaaaaa b 1\n")?;
    assert_eq!(rt; most.len(), 60_000);
    assert_eq!(rt;
        told(rt.alloc(), most.as_slice())?.0.as_str(),
        "board names\njoins 5453\nsizes 5453"
    );
    let over = long(rt.alloc(), b"join aaaaaaa b 1\n")?;
    assert_eq!(rt; over.len(), 60_001);
    assert_eq!(rt;
        told(rt.alloc(), over.as_slice())?.0.as_str(),
        "fault text 14 0 0 0"
    );
    Ok(())
}

#[test]
fn bytes(rt: HostRuntime) -> Result<(), Fail> {
    let texts: [(&[u8], &str); 4] = [
        (&[0, 255, 10], "fault text 11 1 0 2"),
        (b"board names\n\0", "fault text 11 2 12 1"),
        (b"board names\njoin a\xff b 1\n", "fault text 12 2 17 2"),
        (b"board names\njoin a b 1\x00\n", "fault text 13 2 21 2"),
    ];
    for (text, line) in texts {
        assert_eq!(rt; told(rt.alloc(), text)?.0.as_str(), line);
    }
    Ok(())
}

/// What comes of a text at a desk, and how many joins it then holds.
fn at_desk(
    rt: &impl Abort,
    heap: Global,
    text: &str,
    line: &str,
    part: &str,
    joins: u8,
) -> Result<(), Fail> {
    let mut desk = Desk { joins: 0 };
    match read(text.as_bytes(), &mut desk) {
        Ok(n) => assert_eq!(rt; n, usize::from(joins), "{}", text),
        Err(fault) => {
            assert_eq!(rt; fault.to_string(heap)?.as_str(), line, "{}", text);
            assert_eq!(rt;
                piece(&fault, text.as_bytes(), b""),
                part.as_bytes(),
                "{}",
                text
            );
        }
    }
    assert_eq!(rt; desk.joins, joins, "{}", text);
    Ok(())
}

#[test]
fn refused_joins(rt: HostRuntime) -> Result<(), Fail> {
    let cases = [
        ("board names\njoin a b 1\njoin b c 2\n", "", "", 2),
        (
            "board names\njoin a A 1\n",
            "fault job 22 2 12 10",
            "join a A 1",
            0,
        ),
        (
            "board names\njoin a b 1\njoin x_9 X_9 2\njoin c d 3\n",
            "fault job 22 3 23 14",
            "join x_9 X_9 2",
            1,
        ),
        (
            "board names\njoin a b 1\njoin b c 2\njoin c d -3\n",
            "fault job 24 4 34 11",
            "join c d -3",
            2,
        ),
        (
            "board names\njoin a b 1\njoin b c 2\njoin c d- 3\n",
            "fault text 12 4 41 2",
            "d-",
            2,
        ),
        (
            "board numbers\njoin 1 2 3\n",
            "fault text 11 1 0 13",
            "board numbers",
            0,
        ),
    ];
    for (text, line, part, joins) in cases {
        at_desk(&rt, rt.alloc(), text, line, part, joins)?;
    }
    Ok(())
}

/// Whether two names are the same net, with the same home.
fn same_net(a: &str, b: &str) -> Result<bool, KeyRefusal> {
    let a = NameKey::read(a.as_bytes())?;
    let b = NameKey::read(b.as_bytes())?;
    Ok(a.is_same(&b) && a.home() == b.home())
}

#[test]
fn names(rt: HostRuntime) -> Result<(), Fail> {
    let pairs = [
        ("gnd", "GND", true),
        ("Clk_1", "cLK_1", true),
        ("a", "b", false),
        ("a", "aa", false),
        ("a_b", "a_c", false),
        ("1", "01", false),
    ];
    for (a, b, same) in pairs {
        assert_eq!(rt; same_net(a, b)?, same, "{}", a);
    }
    for word in ["", "abcdefghijklm", "a-b", "a b", "\n"] {
        assert!(rt; NameKey::read(word.as_bytes()).is_err(), "{}", word);
    }
    Ok(())
}

/// Words that spell keys, which spell them again.
fn respell<K: Spelled>(rt: &impl Abort, words: &[&str]) -> Result<(), Fail> {
    for word in words {
        let key = K::read(word.as_bytes())?;
        assert_eq!(rt;
            reread(&key)?.spelling().bytes(),
            word.as_bytes(),
            "{}",
            *word
        );
    }
    Ok(())
}

#[test]
fn spellings(rt: HostRuntime) -> Result<(), Fail> {
    respell::<NameKey>(&rt, &["a", "Gnd", "abcdefghijkl", "_", "007"])?;
    respell::<NumberKey>(
        &rt,
        &["1", "9", "10", "99", "100", "999999999", "123456789"],
    )
}

#[test]
fn numbers(rt: HostRuntime) -> Result<(), Fail> {
    for n in [0, 1_000_000_000, 18_446_744_073_709_551_615] {
        assert!(rt; NumberKey::try_from(n).is_err());
    }
    for n in [1, 7, 999_999_999] {
        let key = NumberKey::try_from(n)?;
        assert_eq!(rt; key.home(), n);
        assert!(rt; key.is_same(&key));
    }
    assert!(rt; !NumberKey::try_from(1)?.is_same(&NumberKey::try_from(2)?));
    assert_eq!(rt; KeyRefusal::Malformed.number(), 12);
    Ok(())
}

#[test]
fn values(rt: HostRuntime) -> Result<(), Fail> {
    for (nets, pairs, sides, value) in &VALUES {
        let Some(kernel) = built(*nets, pairs) else {
            return Err(Fail::new(*sides));
        };
        assert_eq!(rt; kernel.value(&masked(*sides)), *value, "{}", *sides);
        let bytes = sheet(*sides);
        assert_eq!(rt;
            kernel.value(&Sheet { bytes: &bytes[..] }),
            *value,
            "{}",
            *sides
        );
    }
    Ok(())
}

#[test]
fn merging(rt: HostRuntime) {
    for (nets, pairs) in &MERGED {
        assert_eq!(rt; all_exact(*nets, pairs), Some(true));
    }
}

#[test]
fn full_boards(rt: HostRuntime) -> Result<(), Fail> {
    let Some(mut kernel) = ring(120, 800_000) else {
        return Err(Fail::new("a ring of 120 nets"));
    };
    assert!(rt; kernel.add().is_none());
    assert_eq!(rt; kernel.value(&Mask { bits: ALTERNATE }), 96_000_000);
    assert_eq!(rt; kernel.value(&Mask { bits: 1 }), 1_600_000);
    assert_eq!(rt; kernel.sizes(), 96_000_000);
    Ok(())
}

#[test]
fn settings(rt: HostRuntime) -> Result<(), Fail> {
    let Some(mut kernel) = built(3, &[]) else {
        return Err(Fail::new("three nets"));
    };
    for (v, u, weight, answer, sizes) in &SETTINGS {
        let before = kernel;
        assert_eq!(rt; set(&mut kernel, *v, *u, *weight), Some(*answer));
        assert!(rt; kernel.is_same(&before) == answer.is_err());
        assert_eq!(rt; kernel.sizes(), *sizes);
    }
    Ok(())
}

#[test]
fn readings(rt: HostRuntime) -> Result<(), Fail> {
    let Some(kernel) = built(4, FOUR) else {
        return Err(Fail::new("four nets"));
    };
    for (number, connections, sizes, others) in &READINGS {
        assert_eq!(rt;
            read_off(&kernel, *number),
            Some((*connections, *sizes, *others))
        );
    }
    assert!(rt; stand(&kernel, &[1, 2, 3, 4]));
    Ok(())
}

#[test]
fn gone_nets(rt: HostRuntime) {
    assert_eq!(rt; without_fourth(), Some((false, true, false, None, true)));
}
