use crate::{ReadRefusal, Which, read_program};
use std::alloc::Global;
use std::test::Fail;
use txn_names::Names;

fn refusal_of(alloc: Global, names: &Names, text: &str) -> Option<ReadRefusal> {
    match read_program(alloc, names, text.as_bytes()) {
        Ok(_) => None,
        Err(refusal) => Some(refusal),
    }
}

// A table `a` of four items.
fn one_table(alloc: Global) -> Option<Names> {
    let mut names = Names::new(alloc);
    match names.add(b"a", 4) {
        Ok(_) => Some(names),
        Err(_) => None,
    }
}

#[test]
fn programs(rt: HostRuntime) -> Result<(), Fail> {
    let alloc = rt.alloc();
    let names = one_table(alloc).ok_or("memory")?;
    let cases: [&str; 20] = [
        "{ }",
        "{}",
        " {\t}\r",
        "{ r0 = r1 - -1; }",
        "{ r0 = 5 - - 3; }",
        "{ r0 = - 5; }",
        "{ r0 = r0 -1; }",
        "{ if r0 >=-1 { } }",
        "{ if 1 < 2 { } else { } }",
        "{ if 1<2 { if 1<2 { } else { } } else { } }",
        "{ r15 = 007; a[r15] = 1; }",
        "{ r0 = -9223372036854775808; }",
        "{ r0 = 5 - -9223372036854775808; }",
        "{ r0 = 9223372036854775807; }",
        "{ loop 1000 { } }",
        "{ loop 64 { emit 1; } }",
        "{ r0 = a[0]; a[r0] = r0; emit r0; fail -1; r1 = r0 min 3; r1 = r1 % r0; }",
        "{ if r0 != r1 { } if r0 == 1 { } if 1 <= 2 { } if 1 > 2 { } }",
        "{ loop 1 { loop 1 { loop 1 { loop 1 { loop 1 { loop 1 { loop 1 { loop 1 { } } } } } } } } }",
        "{ fail 1; fail 1; fail 1; fail 1; fail 1; fail 1; fail 1; fail 1; fail 1; fail 1; fail 1; fail 1; fail 1; fail 1; fail 1; fail 1; fail 1; fail 1; fail 1; fail 1; fail 1; fail 1; fail 1; fail 1; fail 1; fail 1; fail 1; fail 1; fail 1; fail 1; fail 1; fail 1; fail 1; fail 1; fail 1; fail 1; fail 1; fail 1; fail 1; fail 1; fail 1; fail 1; fail 1; fail 1; fail 1; fail 1; fail 1; fail 1; fail 1; fail 1; fail 1; fail 1; fail 1; fail 1; fail 1; fail 1; fail 1; fail 1; fail 1; fail 1; fail 1; fail 1; fail 1; fail 1; fail 1; fail 1; fail 1; fail 1; fail 1; fail 1; fail 1; fail 1; fail 1; fail 1; fail 1; fail 1; fail 1; fail 1; fail 1; fail 1; fail 1; fail 1; fail 1; fail 1; fail 1; fail 1; fail 1; fail 1; fail 1; fail 1; fail 1; fail 1; fail 1; fail 1; fail 1; fail 1; fail 1; fail 1; fail 1; fail 1; fail 1; fail 1; fail 1; fail 1; fail 1; fail 1; fail 1; fail 1; fail 1; fail 1; fail 1; fail 1; fail 1; fail 1; fail 1; fail 1; fail 1; fail 1; fail 1; fail 1; fail 1; fail 1; fail 1; fail 1; fail 1; fail 1; fail 1; fail 1; fail 1; fail 1; fail 1; fail 1; fail 1; fail 1; fail 1; fail 1; fail 1; fail 1; fail 1; fail 1; fail 1; fail 1; fail 1; fail 1; fail 1; fail 1; fail 1; fail 1; fail 1; fail 1; fail 1; fail 1; fail 1; fail 1; fail 1; fail 1; fail 1; fail 1; fail 1; fail 1; fail 1; fail 1; fail 1; fail 1; fail 1; fail 1; fail 1; fail 1; fail 1; fail 1; fail 1; fail 1; fail 1; fail 1; fail 1; fail 1; fail 1; fail 1; fail 1; fail 1; fail 1; fail 1; fail 1; fail 1; fail 1; fail 1; fail 1; fail 1; fail 1; fail 1; fail 1; fail 1; fail 1; fail 1; fail 1; fail 1; fail 1; fail 1; fail 1; fail 1; fail 1; fail 1; fail 1; fail 1; fail 1; fail 1; fail 1; fail 1; fail 1; fail 1; fail 1; fail 1; fail 1; fail 1; fail 1; fail 1; fail 1; fail 1; fail 1; fail 1; fail 1; fail 1; fail 1; fail 1; fail 1; fail 1; fail 1; fail 1; fail 1; fail 1; fail 1; fail 1; fail 1; fail 1; fail 1; fail 1; fail 1; fail 1; fail 1; fail 1; fail 1; fail 1; fail 1; fail 1; fail 1; fail 1; fail 1; fail 1; fail 1; fail 1; fail 1; fail 1; fail 1; fail 1; fail 1; fail 1; }",
    ];
    for text in &cases {
        assert_eq!(rt; refusal_of(alloc, &names, text), None, "in {text}");
    }
    Ok(())
}

#[test]
fn syntax(rt: HostRuntime) -> Result<(), Fail> {
    let alloc = rt.alloc();
    let names = one_table(alloc).ok_or("memory")?;
    let cases: [(&str, usize); 45] = [
        ("{ emit r0 -1; }", 10),
        ("{ a[r0 -1] = 2; }", 7),
        ("{ if r0 -1 < 2 { } }", 8),
        ("{ a[0] = r1 - 1; }", 12),
        ("{ loop -1 { } }", 7),
        ("{ r0 = a - -1; }", 9),
        ("{ r0 = - r1; }", 9),
        ("{ r0 = - - 1; }", 9),
        ("{ r0 = a[0] + 1; }", 12),
        ("{ r0 = 1 + a[0]; }", 11),
        ("{ loop2 { } }", 8),
        ("{ emit5; }", 7),
        ("{ r0 = 1min2; }", 8),
        ("{ r0 == 1; }", 5),
        ("{ if r0 ! = 1 { } }", 8),
        ("{ if r0 !1 { } }", 8),
        ("{ r0 = 1a; }", 8),
        ("{ r0 = r16; }", 7),
        ("{ r16 = 1; }", 2),
        ("{ r0 = r00; }", 7),
        ("{ r0 = r016; }", 7),
        ("{ r0 = sum a[0..2]; }", 7),
        ("{ r0 = min; }", 7),
        ("{ min = 1; }", 2),
        ("{ } x", 4),
        ("{ } }", 4),
        ("", 0),
        (" ", 1),
        ("{", 1),
        ("{ ", 2),
        ("{ r0 = 1;  ", 11),
        ("{ if 1 < 2 { } else { } else { } }", 24),
        ("{ else { } }", 2),
        ("{ if 1 < 2 { } else if 1 < 2 { } }", 20),
        ("{ if 1<2 { } emit 1; else { } }", 21),
        ("{ loop 1 { } else { } }", 13),
        ("{ if 1<2 { if 1<2 { } } else { } else { } }", 33),
        ("x", 0),
        ("{ ; }", 2),
        ("{ b[0] = 1; x }", 14),
        ("{ loop 1001 { r0 = ; } }", 19),
        (
            "{ loop 1 { loop 1 { loop 1 { loop 1 { loop 1 { loop 1 { loop 1 { loop 1 { loop 1 { loop 1 { loop 1 { loop 1 { loop 1 { loop 1 { loop 1 { loop 1 { loop 1 { loop 1 { loop 1 { loop 1 { loop 1 { loop 1 { loop 1 { loop 1 { loop 1 { loop 1 { loop 1 { loop 1 { loop 1 { loop 1 { loop 1 { loop 1 { loop 1 { loop 1 { loop 1 { loop 1 { loop 1 { loop 1 { loop 1 { loop 1 { loop 1 { loop 1 { loop 1 { loop 1 { loop 1 { loop 1 { loop 1 { loop 1 { loop 1 { loop 1 { loop 1 { loop 1 { loop 1 { loop 1 { loop 1 { loop 1 { loop 1 { loop 1 { loop 1 { loop 1 { loop 1 { loop 1 { loop 1 { loop 1 { loop 1 { loop 1 { loop 1 { loop 1 { loop 1 { loop 1 { loop 1 { loop 1 { loop 1 { loop 1 { loop 1 { loop 1 { loop 1 { loop 1 { loop 1 { loop 1 { loop 1 { loop 1 { loop 1 { loop 1 { loop 1 { loop 1 { loop 1 { loop 1 { loop 1 { loop 1 { loop 1 { loop 1 { loop 1 { loop 1 { loop 1 { loop 1 { loop 1 { loop 1 { loop 1 { loop 1 { loop 1 { loop 1 { loop 1 { loop 1 { loop 1 { loop 1 { loop 1 { loop 1 { loop 1 { loop 1 { loop 1 { loop 1 { loop 1 { loop 1 { loop 1 { loop 1 { loop 1 { loop 1 { loop 1 { loop 1 { loop 1 { loop 1 { loop 1 { loop 1 { loop 1 { loop 1 { loop 1 { loop 1 { loop 1 { loop 1 { loop 1 { loop 1 { loop 1 { loop 1 { loop 1 { loop 1 { loop 1 { loop 1 { loop 1 { loop 1 { loop 1 { loop 1 { loop 1 { loop 1 { loop 1 { loop 1 { loop 1 { loop 1 { loop 1 { loop 1 { loop 1 { loop 1 { loop 1 { loop 1 { loop 1 { loop 1 { loop 1 { loop 1 { loop 1 { loop 1 { loop 1 { loop 1 { loop 1 { loop 1 { loop 1 { loop 1 { loop 1 { loop 1 { loop 1 { loop 1 { loop 1 { loop 1 { loop 1 { loop 1 { loop 1 { loop 1 { loop 1 { loop 1 { loop 1 { loop 1 { loop 1 { loop 1 { loop 1 { loop 1 { loop 1 { loop 1 { loop 1 { loop 1 { loop 1 { loop 1 { loop 1 { loop 1 { loop 1 { loop 1 { loop 1 { loop 1 { loop 1 { loop 1 { loop 1 { loop 1 { loop 1 { loop 1 { loop 1 { loop 1 { loop 1 { loop 1 { loop 1 { loop 1 { loop 1 { loop 1 { loop 1 { loop 1 { loop 1 { loop 1 { loop 1 { loop 1 { loop 1 { loop 1 { loop 1 { loop 1 { loop 1 { loop 1 { loop 1 { loop 1 { loop 1 { loop 1 { loop 1 { loop 1 { loop 1 { loop 1 { loop 1 { loop 1 { loop 1 { loop 1 { loop 1 { loop 1 { loop 1 { loop 1 { loop 1 { loop 1 { loop 1 { loop 1 { loop 1 { loop 1 { loop 1 { loop 1 { loop 1 { loop 1 { loop 1 { loop 1 { loop 1 { loop 1 { loop 1 { loop 1 { loop 1 { loop 1 { loop 1 { loop 1 { loop 1 { loop 1 { loop 1 { loop 1 { loop 1 { loop 1 { loop 1 { loop 1 { loop 1 { loop 1 { loop 1 { loop 1 { loop 1 { loop 1 { loop 1 { loop 1 { loop 1 { loop 1 { loop 1 { loop 1 { loop 1 { loop 1 { loop 1 { loop 1 { loop 1 { loop 1 { loop 1 { loop 1 { loop 1 { loop 1 { loop 1 { loop 1 { loop 1 { loop 1 { loop 1 { loop 1 { loop 1 { loop 1 { loop 1 { loop 1 { loop 1 { loop 1 { loop 1 { loop 1 { loop 1 { loop 1 { loop 1 { loop 1 { loop 1 { loop 1 { loop 1 { loop 1 { loop 1 { loop 1 { loop 1 { loop 1 { loop 1 { loop 1 { loop 1 { loop 1 { loop 1 { loop 1 { loop 1 { loop 1 { loop 1 { loop 1 { loop 1 { loop 1 { loop 1 { loop 1 { loop 1 { loop 1 { loop 1 { loop 1 { loop 1 { loop 1 { loop 1 { loop 1 { loop 1 { loop 1 { loop 1 { loop 1 { loop 1 { loop 1 { loop 1 { loop 1 { loop 1 { loop 1 { loop 1 { loop 1 { loop 1 { loop 1 { loop 1 { loop 1 { loop 1 { loop 1 { loop 1 { loop 1 { loop 1 { loop 1 { loop 1 { loop 1 { loop 1 { loop 1 { loop 1 { loop 1 { loop 1 { loop 1 { loop 1 { loop 1 { loop 1 { loop 1 { loop 1 { loop 1 { loop 1 { loop 1 { loop 1 { loop 1 { loop 1 { loop 1 { loop 1 { loop 1 { loop 1 { loop 1 { loop 1 { loop 1 { loop 1 { loop 1 { loop 1 { loop 1 { loop 1 { loop 1 { loop 1 { loop 1 { loop 1 { loop 1 { loop 1 { loop 1 { loop 1 { loop 1 { loop 1 { loop 1 { loop 1 { loop 1 { loop 1 { loop 1 { loop 1 { loop 1 { loop 1 { loop 1 { loop 1 { loop 1 { loop 1 { loop 1 { loop 1 { loop 1 { loop 1 { loop 1 { loop 1 { loop 1 { loop 1 { loop 1 { loop 1 { loop 1 { loop 1 { loop 1 { loop 1 { loop 1 { loop 1 { loop 1 { loop 1 { loop 1 { loop 1 { loop 1 { loop 1 { loop 1 { loop 1 { loop 1 { loop 1 { loop 1 { loop 1 { loop 1 { loop 1 { loop 1 { loop 1 { loop 1 { loop 1 { loop 1 { loop 1 { loop 1 { loop 1 { loop 1 { loop 1 { loop 1 { loop 1 { loop 1 { loop 1 { loop 1 { loop 1 { loop 1 { loop 1 { loop 1 { loop 1 { loop 1 { loop 1 { loop 1 { loop 1 { loop 1 { loop 1 { loop 1 { loop 1 { loop 1 { loop 1 { loop 1 { loop 1 { loop 1 { loop 1 { loop 1 { loop 1 { loop 1 { loop 1 { loop 1 { loop 1 { loop 1 { loop 1 { loop 1 { loop 1 { loop 1 { loop 1 { loop 1 { loop 1 { loop 1 { loop 1 { loop 1 { loop 1 { loop 1 { loop 1 { loop 1 { loop 1 { loop 1 { loop 1 { loop 1 { loop 1 { loop 1 { loop 1 { loop 1 { loop 1 { loop 1 { loop 1 { loop 1 { loop 1 { loop 1 { loop 1 { loop 1 { loop 1 { loop 1 { loop 1 { loop 1 { loop 1 { loop 1 { loop 1 { loop 1 { loop 1 { loop 1 { loop 1 { loop 1 { loop 1 { loop 1 { loop 1 { loop 1 { loop 1 { loop 1 { loop 1 { loop 1 { loop 1 { loop 1 { loop 1 { loop 1 { loop 1 { loop 1 { loop 1 { loop 1 { loop 1 { loop 1 { loop 1 { loop 1 { loop 1 { loop 1 { loop 1 { loop 1 { loop 1 { loop 1 { loop 1 { loop 1 { loop 1 { loop 1 { loop 1 { loop 1 { loop 1 { loop 1 { loop 1 { loop 1 { loop 1 { loop 1 { loop 1 { loop 1 { loop 1 { loop 1 { loop 1 { loop 1 { loop 1 { loop 1 { loop 1 { loop 1 { loop 1 { loop 1 { loop 1 { loop 1 { loop 1 { loop 1 { loop 1 { loop 1 { loop 1 { loop 1 { loop 1 { loop 1 { loop 1 { loop 1 { loop 1 { loop 1 { loop 1 { loop 1 { loop 1 { loop 1 { loop 1 { loop 1 { loop 1 { loop 1 { loop 1 { loop 1 { loop 1 { loop 1 { else",
            5402,
        ),
        ("{ @ }", 2),
        ("{ r0 = 1.5; }", 8),
        ("{ a } }", 4),
    ];
    for (text, at) in &cases {
        let at = *at;
        assert_eq!(rt;
            refusal_of(alloc, &names, text),
            Some(ReadRefusal::Syntax { at }),
            "in {text}"
        );
    }
    Ok(())
}

#[test]
fn unknown_tables(rt: HostRuntime) -> Result<(), Fail> {
    let alloc = rt.alloc();
    let names = one_table(alloc).ok_or("memory")?;
    let cases: [(&str, usize); 7] = [
        ("{ r[0] = 1; }", 2),
        ("{ rx[0] = 1; }", 2),
        ("{ r1x[0] = 1; }", 2),
        ("{ b[0] = 1; c[0] = 1; }", 2),
        ("{ loop 1001 { b[0] = 1; } }", 14),
        ("{ r0 = abcdefghijklmnopq[0]; }", 7),
        ("{ a[0] = 1; r0 = ab[0]; r0 = 9223372036854775808; }", 17),
    ];
    for (text, at) in &cases {
        let at = *at;
        assert_eq!(rt;
            refusal_of(alloc, &names, text),
            Some(ReadRefusal::UnknownTable { at }),
            "in {text}"
        );
    }
    Ok(())
}

#[test]
fn limits(rt: HostRuntime) -> Result<(), Fail> {
    let alloc = rt.alloc();
    let names = one_table(alloc).ok_or("memory")?;
    let cases: [(&str, Which); 14] = [
        ("{ r0 = 5 - 9223372036854775808; }", Which::Literal),
        ("{ r0 = 9223372036854775808; }", Which::Literal),
        ("{ r0 = -9223372036854775809; }", Which::Literal),
        ("{ emit 99999999999999999999999; }", Which::Literal),
        ("{ loop 99999999999999999999999 { } }", Which::Loops),
        ("{ loop 1001 { } }", Which::Loops),
        (
            "{ loop 1001 { } r0 = 9223372036854775808; }",
            Which::Literal,
        ),
        ("{ loop 0 { loop 1001 { } } }", Which::Loops),
        (
            "{ fail 1; fail 1; fail 1; fail 1; fail 1; fail 1; fail 1; fail 1; fail 1; fail 1; fail 1; fail 1; fail 1; fail 1; fail 1; fail 1; fail 1; fail 1; fail 1; fail 1; fail 1; fail 1; fail 1; fail 1; fail 1; fail 1; fail 1; fail 1; fail 1; fail 1; fail 1; fail 1; fail 1; fail 1; fail 1; fail 1; fail 1; fail 1; fail 1; fail 1; fail 1; fail 1; fail 1; fail 1; fail 1; fail 1; fail 1; fail 1; fail 1; fail 1; fail 1; fail 1; fail 1; fail 1; fail 1; fail 1; fail 1; fail 1; fail 1; fail 1; fail 1; fail 1; fail 1; fail 1; fail 1; fail 1; fail 1; fail 1; fail 1; fail 1; fail 1; fail 1; fail 1; fail 1; fail 1; fail 1; fail 1; fail 1; fail 1; fail 1; fail 1; fail 1; fail 1; fail 1; fail 1; fail 1; fail 1; fail 1; fail 1; fail 1; fail 1; fail 1; fail 1; fail 1; fail 1; fail 1; fail 1; fail 1; fail 1; fail 1; fail 1; fail 1; fail 1; fail 1; fail 1; fail 1; fail 1; fail 1; fail 1; fail 1; fail 1; fail 1; fail 1; fail 1; fail 1; fail 1; fail 1; fail 1; fail 1; fail 1; fail 1; fail 1; fail 1; fail 1; fail 1; fail 1; fail 1; fail 1; fail 1; fail 1; fail 1; fail 1; fail 1; fail 1; fail 1; fail 1; fail 1; fail 1; fail 1; fail 1; fail 1; fail 1; fail 1; fail 1; fail 1; fail 1; fail 1; fail 1; fail 1; fail 1; fail 1; fail 1; fail 1; fail 1; fail 1; fail 1; fail 1; fail 1; fail 1; fail 1; fail 1; fail 1; fail 1; fail 1; fail 1; fail 1; fail 1; fail 1; fail 1; fail 1; fail 1; fail 1; fail 1; fail 1; fail 1; fail 1; fail 1; fail 1; fail 1; fail 1; fail 1; fail 1; fail 1; fail 1; fail 1; fail 1; fail 1; fail 1; fail 1; fail 1; fail 1; fail 1; fail 1; fail 1; fail 1; fail 1; fail 1; fail 1; fail 1; fail 1; fail 1; fail 1; fail 1; fail 1; fail 1; fail 1; fail 1; fail 1; fail 1; fail 1; fail 1; fail 1; fail 1; fail 1; fail 1; fail 1; fail 1; fail 1; fail 1; fail 1; fail 1; fail 1; fail 1; fail 1; fail 1; fail 1; fail 1; fail 1; fail 1; fail 1; fail 1; fail 1; fail 1; fail 1; fail 1; fail 1; fail 1; fail 1; fail 1; fail 1; fail 1; fail 1; fail 1; fail 1; fail 1; fail 1; fail 1; fail 1; fail 1; fail 1; fail 1; fail 1; fail 1; fail 1; fail 1; fail 1; fail 1; }",
            Which::Statements,
        ),
        (
            "{ loop 1 { loop 1 { loop 1 { loop 1 { loop 1 { loop 1 { loop 1 { loop 1 { loop 1 { } } } } } } } } } }",
            Which::Depth,
        ),
        ("{ loop 1000 { loop 100 { } } }", Which::Steps),
        (
            "{ loop 1000 { loop 1000 { loop 1000 { loop 1000 { loop 1000 { loop 1000 { loop 1000 { loop 1000 { } } } } } } } } }",
            Which::Steps,
        ),
        ("{ loop 65 { emit 1; } }", Which::Emits),
        (
            "{ if 1 < 2 { if 1 < 2 { if 1 < 2 { if 1 < 2 { if 1 < 2 { if 1 < 2 { if 1 < 2 { if 1 < 2 { if 1 < 2 { if 1 < 2 { if 1 < 2 { if 1 < 2 { if 1 < 2 { if 1 < 2 { if 1 < 2 { if 1 < 2 { if 1 < 2 { if 1 < 2 { if 1 < 2 { if 1 < 2 { if 1 < 2 { if 1 < 2 { if 1 < 2 { if 1 < 2 { if 1 < 2 { if 1 < 2 { if 1 < 2 { if 1 < 2 { if 1 < 2 { if 1 < 2 { if 1 < 2 { if 1 < 2 { if 1 < 2 { if 1 < 2 { if 1 < 2 { if 1 < 2 { if 1 < 2 { if 1 < 2 { if 1 < 2 { if 1 < 2 { if 1 < 2 { if 1 < 2 { if 1 < 2 { if 1 < 2 { if 1 < 2 { if 1 < 2 { if 1 < 2 { if 1 < 2 { if 1 < 2 { if 1 < 2 { if 1 < 2 { if 1 < 2 { if 1 < 2 { if 1 < 2 { if 1 < 2 { if 1 < 2 { if 1 < 2 { if 1 < 2 { if 1 < 2 { if 1 < 2 { if 1 < 2 { if 1 < 2 { if 1 < 2 { if 1 < 2 { if 1 < 2 { if 1 < 2 { if 1 < 2 { if 1 < 2 { if 1 < 2 { if 1 < 2 { if 1 < 2 { if 1 < 2 { if 1 < 2 { if 1 < 2 { if 1 < 2 { if 1 < 2 { if 1 < 2 { if 1 < 2 { if 1 < 2 { if 1 < 2 { if 1 < 2 { if 1 < 2 { if 1 < 2 { if 1 < 2 { if 1 < 2 { if 1 < 2 { if 1 < 2 { if 1 < 2 { if 1 < 2 { if 1 < 2 { if 1 < 2 { if 1 < 2 { if 1 < 2 { if 1 < 2 { if 1 < 2 { if 1 < 2 { if 1 < 2 { if 1 < 2 { if 1 < 2 { if 1 < 2 { if 1 < 2 { if 1 < 2 { if 1 < 2 { if 1 < 2 { if 1 < 2 { if 1 < 2 { if 1 < 2 { if 1 < 2 { if 1 < 2 { if 1 < 2 { if 1 < 2 { if 1 < 2 { if 1 < 2 { if 1 < 2 { if 1 < 2 { if 1 < 2 { if 1 < 2 { if 1 < 2 { if 1 < 2 { if 1 < 2 { if 1 < 2 { if 1 < 2 { if 1 < 2 { if 1 < 2 { if 1 < 2 { if 1 < 2 { if 1 < 2 { if 1 < 2 { if 1 < 2 { if 1 < 2 { if 1 < 2 { if 1 < 2 { if 1 < 2 { if 1 < 2 { if 1 < 2 { if 1 < 2 { if 1 < 2 { if 1 < 2 { if 1 < 2 { if 1 < 2 { if 1 < 2 { if 1 < 2 { if 1 < 2 { if 1 < 2 { if 1 < 2 { if 1 < 2 { if 1 < 2 { if 1 < 2 { if 1 < 2 { if 1 < 2 { if 1 < 2 { if 1 < 2 { if 1 < 2 { if 1 < 2 { if 1 < 2 { if 1 < 2 { if 1 < 2 { if 1 < 2 { if 1 < 2 { if 1 < 2 { if 1 < 2 { if 1 < 2 { if 1 < 2 { if 1 < 2 { if 1 < 2 { if 1 < 2 { if 1 < 2 { if 1 < 2 { if 1 < 2 { if 1 < 2 { if 1 < 2 { if 1 < 2 { if 1 < 2 { if 1 < 2 { if 1 < 2 { if 1 < 2 { if 1 < 2 { if 1 < 2 { if 1 < 2 { if 1 < 2 { if 1 < 2 { if 1 < 2 { if 1 < 2 { if 1 < 2 { if 1 < 2 { if 1 < 2 { if 1 < 2 { if 1 < 2 { if 1 < 2 { if 1 < 2 { if 1 < 2 { if 1 < 2 { if 1 < 2 { if 1 < 2 { if 1 < 2 { if 1 < 2 { if 1 < 2 { if 1 < 2 { if 1 < 2 { if 1 < 2 { if 1 < 2 { if 1 < 2 { if 1 < 2 { if 1 < 2 { if 1 < 2 { if 1 < 2 { if 1 < 2 { if 1 < 2 { if 1 < 2 { if 1 < 2 { if 1 < 2 { if 1 < 2 { if 1 < 2 { if 1 < 2 { if 1 < 2 { if 1 < 2 { if 1 < 2 { if 1 < 2 { if 1 < 2 { if 1 < 2 { if 1 < 2 { if 1 < 2 { if 1 < 2 { if 1 < 2 { if 1 < 2 { if 1 < 2 { if 1 < 2 { if 1 < 2 { if 1 < 2 { if 1 < 2 { if 1 < 2 { if 1 < 2 { if 1 < 2 { if 1 < 2 { if 1 < 2 { if 1 < 2 { if 1 < 2 { if 1 < 2 { if 1 < 2 { if 1 < 2 { if 1 < 2 { if 1 < 2 { if 1 < 2 { if 1 < 2 { if 1 < 2 { if 1 < 2 { if 1 < 2 { if 1 < 2 { if 1 < 2 { if 1 < 2 { if 1 < 2 { if 1 < 2 { if 1 < 2 { if 1 < 2 { if 1 < 2 { if 1 < 2 { if 1 < 2 { if 1 < 2 { if 1 < 2 { if 1 < 2 { if 1 < 2 { if 1 < 2 { if 1 < 2 { if 1 < 2 { if 1 < 2 { if 1 < 2 { if 1 < 2 { if 1 < 2 { if 1 < 2 { if 1 < 2 { if 1 < 2 { if 1 < 2 { if 1 < 2 { if 1 < 2 { if 1 < 2 { if 1 < 2 { if 1 < 2 { if 1 < 2 { if 1 < 2 { if 1 < 2 { if 1 < 2 { if 1 < 2 { if 1 < 2 { if 1 < 2 { if 1 < 2 { if 1 < 2 { if 1 < 2 { if 1 < 2 { if 1 < 2 { if 1 < 2 { if 1 < 2 { if 1 < 2 { if 1 < 2 { if 1 < 2 { if 1 < 2 { if 1 < 2 { if 1 < 2 { if 1 < 2 { if 1 < 2 { if 1 < 2 { if 1 < 2 { if 1 < 2 { if 1 < 2 { if 1 < 2 { if 1 < 2 { if 1 < 2 { if 1 < 2 { if 1 < 2 { if 1 < 2 { if 1 < 2 { if 1 < 2 { if 1 < 2 { if 1 < 2 { if 1 < 2 { if 1 < 2 { if 1 < 2 { if 1 < 2 { if 1 < 2 { if 1 < 2 { if 1 < 2 { if 1 < 2 { if 1 < 2 { if 1 < 2 { if 1 < 2 { if 1 < 2 { if 1 < 2 { if 1 < 2 { if 1 < 2 { if 1 < 2 { if 1 < 2 { if 1 < 2 { if 1 < 2 { if 1 < 2 { if 1 < 2 { if 1 < 2 { if 1 < 2 { if 1 < 2 { if 1 < 2 { if 1 < 2 { if 1 < 2 { if 1 < 2 { if 1 < 2 { if 1 < 2 { if 1 < 2 { if 1 < 2 { if 1 < 2 { if 1 < 2 { if 1 < 2 { if 1 < 2 { if 1 < 2 { if 1 < 2 { if 1 < 2 { if 1 < 2 { if 1 < 2 { if 1 < 2 { if 1 < 2 { if 1 < 2 { if 1 < 2 { if 1 < 2 { if 1 < 2 { if 1 < 2 { if 1 < 2 { if 1 < 2 { if 1 < 2 { if 1 < 2 { if 1 < 2 { if 1 < 2 { if 1 < 2 { if 1 < 2 { if 1 < 2 { if 1 < 2 { if 1 < 2 { if 1 < 2 { if 1 < 2 { if 1 < 2 { if 1 < 2 { if 1 < 2 { if 1 < 2 { if 1 < 2 { if 1 < 2 { if 1 < 2 { if 1 < 2 { if 1 < 2 { if 1 < 2 { if 1 < 2 { if 1 < 2 { if 1 < 2 { if 1 < 2 { if 1 < 2 { if 1 < 2 { if 1 < 2 { if 1 < 2 { if 1 < 2 { if 1 < 2 { if 1 < 2 { if 1 < 2 { if 1 < 2 { if 1 < 2 { if 1 < 2 { if 1 < 2 { if 1 < 2 { if 1 < 2 { if 1 < 2 { if 1 < 2 { if 1 < 2 { if 1 < 2 { if 1 < 2 { if 1 < 2 { if 1 < 2 { if 1 < 2 { if 1 < 2 { if 1 < 2 { if 1 < 2 { if 1 < 2 { if 1 < 2 { if 1 < 2 { if 1 < 2 { if 1 < 2 { if 1 < 2 { if 1 < 2 { if 1 < 2 { if 1 < 2 { if 1 < 2 { if 1 < 2 { if 1 < 2 { if 1 < 2 { if 1 < 2 { if 1 < 2 { if 1 < 2 { if 1 < 2 { if 1 < 2 { if 1 < 2 { if 1 < 2 { if 1 < 2 { if 1 < 2 { if 1 < 2 { if 1 < 2 { if 1 < 2 { if 1 < 2 { if 1 < 2 { if 1 < 2 { if 1 < 2 { if 1 < 2 { if 1 < 2 { if 1 < 2 { if 1 < 2 { if 1 < 2 { if 1 < 2 { if 1 < 2 { if 1 < 2 { if 1 < 2 { if 1 < 2 { if 1 < 2 { if 1 < 2 { if 1 < 2 { if 1 < 2 { if 1 < 2 { if 1 < 2 { if 1 < 2 { if 1 < 2 { if 1 < 2 { if 1 < 2 { if 1 < 2 { if 1 < 2 { if 1 < 2 { if 1 < 2 { if 1 < 2 { if 1 < 2 { if 1 < 2 { if 1 < 2 { if 1 < 2 { if 1 < 2 { if 1 < 2 { if 1 < 2 { if 1 < 2 { if 1 < 2 { if 1 < 2 { if 1 < 2 { if 1 < 2 { if 1 < 2 { if 1 < 2 { if 1 < 2 { if 1 < 2 { if 1 < 2 { if 1 < 2 { if 1 < 2 { if 1 < 2 { if 1 < 2 { if 1 < 2 { if 1 < 2 { if 1 < 2 { if 1 < 2 { if 1 < 2 { if 1 < 2 { if 1 < 2 { if 1 < 2 { if 1 < 2 { if 1 < 2 { if 1 < 2 { if 1 < 2 { if 1 < 2 { if 1 < 2 { if 1 < 2 { if 1 < 2 { if 1 < 2 { if 1 < 2 { if 1 < 2 { if 1 < 2 { if 1 < 2 { if 1 < 2 { if 1 < 2 { if 1 < 2 { if 1 < 2 { if 1 < 2 { if 1 < 2 { if 1 < 2 { if 1 < 2 { if 1 < 2 { if 1 < 2 { if 1 < 2 { if 1 < 2 { if 1 < 2 { if 1 < 2 { if 1 < 2 { if 1 < 2 { if 1 < 2 { if 1 < 2 { if 1 < 2 { if 1 < 2 { if 1 < 2 { if 1 < 2 { if 1 < 2 { if 1 < 2 { if 1 < 2 { if 1 < 2 { if 1 < 2 { if 1 < 2 { if 1 < 2 { if 1 < 2 { if 1 < 2 { if 1 < 2 { if 1 < 2 { if 1 < 2 { if 1 < 2 { if 1 < 2 { if 1 < 2 { if 1 < 2 { if 1 < 2 { if 1 < 2 { if 1 < 2 { if 1 < 2 { if 1 < 2 { if 1 < 2 { if 1 < 2 { if 1 < 2 { if 1 < 2 { if 1 < 2 { if 1 < 2 { if 1 < 2 { if 1 < 2 { if 1 < 2 { if 1 < 2 { if 1 < 2 { if 1 < 2 { if 1 < 2 { if 1 < 2 { if 1 < 2 { if 1 < 2 { if 1 < 2 { if 1 < 2 { if 1 < 2 { if 1 < 2 { if 1 < 2 { if 1 < 2 { if 1 < 2 { if 1 < 2 { if 1 < 2 { if 1 < 2 { if 1 < 2 { if 1 < 2 { if 1 < 2 { if 1 < 2 { if 1 < 2 { if 1 < 2 { if 1 < 2 { if 1 < 2 { if 1 < 2 { if 1 < 2 { if 1 < 2 { if 1 < 2 { if 1 < 2 { if 1 < 2 { if 1 < 2 { if 1 < 2 { if 1 < 2 { if 1 < 2 { if 1 < 2 { if 1 < 2 { if 1 < 2 { if 1 < 2 { } } } } } } } } } } } } } } } } } } } } } } } } } } } } } } } } } } } } } } } } } } } } } } } } } } } } } } } } } } } } } } } } } } } } } } } } } } } } } } } } } } } } } } } } } } } } } } } } } } } } } } } } } } } } } } } } } } } } } } } } } } } } } } } } } } } } } } } } } } } } } } } } } } } } } } } } } } } } } } } } } } } } } } } } } } } } } } } } } } } } } } } } } } } } } } } } } } } } } } } } } } } } } } } } } } } } } } } } } } } } } } } } } } } } } } } } } } } } } } } } } } } } } } } } } } } } } } } } } } } } } } } } } } } } } } } } } } } } } } } } } } } } } } } } } } } } } } } } } } } } } } } } } } } } } } } } } } } } } } } } } } } } } } } } } } } } } } } } } } } } } } } } } } } } } } } } } } } } } } } } } } } } } } } } } } } } } } } } } } } } } } } } } } } } } } } } } } } } } } } } } } } } } } } } } } } } } } } } } } } } } } } } } } } } } } } } } } } } } } } } } } } } } } } } } } } } } } } } } } } } } } } } } } } } } } } } } } } } } } } } } } } } } } } } } } } } } } } } } } } } } } } } } } } } } } } } } } } } } } } } } } } } } } } } } } } } } } } } } } } } } } } } } } } } } } } } } } } } } } } } } } } } } } } } } } } } } } } } } } } } } } } } } } } } } } } } } } } } } } } } }",
            Which::Statements,
        ),
    ];
    for (text, which) in &cases {
        let which = *which;
        assert_eq!(rt;
            refusal_of(alloc, &names, text),
            Some(ReadRefusal::Limit { which }),
            "in {text}"
        );
    }
    Ok(())
}
