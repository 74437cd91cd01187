ghost use Rattle.std.specs.Prelude.{◌≤◌};

use super::*;
use std::process::Abort;
use txn_runs::TableRef;

#[test]
fn words(rt: HostRuntime) {
    let names: [&[u8]; 8] = [
        b"a",
        b"r",
        b"rx",
        b"r1x",
        b"if_",
        b"sum1",
        b"r_1",
        b"a234567890123456",
    ];
    for name in names {
        assert!(rt; is_table_name(name) && !is_reserved(name));
    }
    let others: [&[u8]; 14] = [
        b"", b"A", b"1a", b"_a", b"a-b", b"r0", b"r00", b"r16", b"r016", b"if", b"min", b"max",
        b"sum", b"emit",
    ];
    for other in others {
        assert!(rt; !is_table_name(other));
    }
    assert!(rt; !is_table_name(b"a2345678901234567"));
}

#[test]
fn registers(rt: HostRuntime) {
    assert_eq!(rt; register_of(b"r0"), Some(0));
    assert_eq!(rt; register_of(b"r9"), Some(9));
    assert_eq!(rt; register_of(b"r10"), Some(10));
    assert_eq!(rt; register_of(b"r15"), Some(15));
    let others: [&[u8]; 7] = [b"r", b"r16", b"r00", b"r015", b"r1x", b"s1", b"X7"];
    for other in others {
        assert_eq!(rt; register_of(other), None);
    }
}

// Adds a table, and compares the answer.
fn expect(
    rt: &impl Abort,
    names: &mut Names,
    name: &[u8],
    size: u32,
    answer: Result<TableRef, NameRefusal>,
)
    requires some { 1 ≤ size }
    requires most { size ≤ 1024 }
{
    assert!(rt; names.add(name, size) == answer);
}

fn table(number: u32, base: u32, size: u32) -> TableRef {
    TableRef { number, base, size }
}

#[test]
fn refusals(rt: HostRuntime) {
    let mut names = Names::new(rt.alloc());
    expect(&rt, &mut names, b"a", 4, Ok(table(0, 0, 4)));
    expect(&rt, &mut names, b"min", 4, Err(NameRefusal::Name));
    expect(&rt, &mut names, b"a", 4, Err(NameRefusal::Twice));
    expect(&rt, &mut names, b"b", 1021, Err(NameRefusal::Full));
    expect(&rt, &mut names, b"b", 1020, Ok(table(1, 4, 1020)));
    expect(&rt, &mut names, b"sum", 1, Err(NameRefusal::Name));
    expect(&rt, &mut names, b"b", 1, Err(NameRefusal::Twice));
    expect(&rt, &mut names, b"c", 1, Err(NameRefusal::Full));
    assert_eq!(rt; names.items(), 1024);
}

#[test]
fn found(rt: HostRuntime) {
    let mut names = Names::new(rt.alloc());
    expect(&rt, &mut names, b"ab", 4, Ok(table(0, 0, 4)));
    expect(&rt, &mut names, b"c", 2, Ok(table(1, 4, 2)));
    assert_eq!(rt; names.find(b"c"), Some(table(1, 4, 2)));
    assert_eq!(rt; names.find(b"a"), None);
    assert_eq!(rt; names.count(), 2);
    assert!(rt; names.name(1) == b"c".as_slice());
    assert_eq!(rt; names.table(1), table(1, 4, 2));
}

#[test]
fn sixteen_tables(rt: HostRuntime) {
    let mut names = Names::new(rt.alloc());
    for letter in b"abcdefghijklmnop" {
        assert!(rt; names.add(&[*letter], 1).is_ok());
    }
    expect(&rt, &mut names, b"q", 1, Err(NameRefusal::Full));
    assert_eq!(rt; names.find(b"p"), Some(table(15, 15, 1)));
}
