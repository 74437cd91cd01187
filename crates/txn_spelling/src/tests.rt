use crate::write_program;
use std::alloc::{AllocError, Global};
use std::test::Fail;
use txn_names::Names;
use txn_syntax::read_program;

// Tables `a` and `tab_2` of four and of two items.
fn two_tables(alloc: Global) -> Option<Names> {
    let mut names = Names::new(alloc);
    if names.add(b"a", 4).is_err() {
        return None;
    }
    match names.add(b"tab_2", 2) {
        Ok(_) => Some(names),
        Err(_) => None,
    }
}

// The canonical spelling of the program that a text spells.
fn spelled(alloc: Global, names: &Names, text: &[u8]) -> Option<Vec<u8>> {
    let Ok(program) = read_program(alloc, names, text) else {
        return None;
    };
    let mut out = Vec::new(alloc);
    match write_program(names, &program, &mut out) {
        Ok(()) => Some(out),
        Err(_) => None,
    }
}

#[test]
fn spellings(rt: HostRuntime) -> Result<(), Fail> {
    let alloc = rt.alloc();
    let names = two_tables(alloc).ok_or("memory")?;
    let cases: [(&[u8], &[u8]); 24] = [
        (b"{}", b"{ }"),
        (b" \t{\r } ", b"{ }"),
        (b"{ r0 = r0 -1; }", b"{ r0 = r0 - 1; }"),
        (b"{r15=007;}", b"{ r15 = 7; }"),
        (b"{ r0 = -0; r1 = - 00; }", b"{ r0 = 0; r1 = 0; }"),
        (b"{ r0 = - 5; }", b"{ r0 = -5; }"),
        (b"{ r0 = 5 - - 3; }", b"{ r0 = 5 - -3; }"),
        (
            b"{ r0 = r1 --9223372036854775808; }",
            b"{ r0 = r1 - -9223372036854775808; }",
        ),
        (
            b"{ r0 = 9223372036854775807; }",
            b"{ r0 = 9223372036854775807; }",
        ),
        (
            b"{r1=r2+3;r1=r2*3;r1=r2/3;r1=r2%3;}",
            b"{ r1 = r2 + 3; r1 = r2 * 3; r1 = r2 / 3; r1 = r2 % 3; }",
        ),
        (
            b"{ r1 = r2 min 3; r10 = 4 max r11; }",
            b"{ r1 = r2 min 3; r10 = 4 max r11; }",
        ),
        (
            b"{r0=a[ 3 ];r1=tab_2 [r1] ;}",
            b"{ r0 = a[3]; r1 = tab_2[r1]; }",
        ),
        (
            b"{a[0]=r0;tab_2[-1]=-1;}",
            b"{ a[0] = r0; tab_2[-1] = -1; }",
        ),
        (b"{ if 1 < 2 { } else { } }", b"{ if 1 < 2 { } }"),
        (
            b"{if 1<=2{}else{emit 1;}}",
            b"{ if 1 <= 2 { } else { emit 1; } }",
        ),
        (b"{ if r0>=-1{ fail 7; } }", b"{ if r0 >= -1 { fail 7; } }"),
        (
            b"{ if r0==1{emit r1;}else{fail -2;} emit 3; }",
            b"{ if r0 == 1 { emit r1; } else { fail -2; } emit 3; }",
        ),
        (
            b"{if 1!=2{if 1>2{}else{}}else{if 2<1{}else{emit 0;}}}",
            b"{ if 1 != 2 { if 1 > 2 { } } else { if 2 < 1 { } else { emit 0; } } }",
        ),
        (b"{ loop 0003 { } }", b"{ loop 3 { } }"),
        (
            b"{loop 2{loop 0{emit 1;}r0=1;}}",
            b"{ loop 2 { loop 0 { emit 1; } r0 = 1; } }",
        ),
        (
            b"{emit 1;emit -1;emit r9;}",
            b"{ emit 1; emit -1; emit r9; }",
        ),
        (b"{fail 0;}", b"{ fail 0; }"),
        (b"{ r0 = r0; }", b"{ r0 = r0; }"),
        (
            b"{loop 1{loop 1{loop 1{loop 1{loop 1{loop 1{loop 1{loop 1{}}}}}}}}}",
            b"{ loop 1 { loop 1 { loop 1 { loop 1 { loop 1 { loop 1 { loop 1 { loop 1 { } } } } } } } } }",
        ),
    ];
    for (text, canonical) in cases {
        let first = spelled(alloc, &names, text).ok_or("not written")?;
        assert_eq!(rt; first.as_slice(), canonical);
        // The canonical spelling is its own.
        let second = spelled(alloc, &names, canonical).ok_or("not written again")?;
        assert_eq!(rt; second.as_slice(), canonical);
    }
    Ok(())
}

// Appends behind what is there.
#[test]
fn appended(rt: HostRuntime) -> Result<(), Fail> {
    let alloc = rt.alloc();
    let names = two_tables(alloc).ok_or("memory")?;
    let Ok(program) = read_program(alloc, &names, b"{ fail 1; }") else {
        return Err(Fail::from("not read"));
    };
    let mut out = Vec::from_slice(alloc, b"begin 7 ")?;
    write_program(&names, &program, &mut out)?;
    let want: &[u8] = b"begin 7 { fail 1; }";
    assert_eq!(rt; out.as_slice(), want);
    Ok(())
}

// A text that is put together by chance, and what its canonical spelling has to be.
#[derive(Drop)]
struct Draft {
    chance: u32,
    text: Vec<u8>,
    want: Vec<u8>,
}

impl Draft {
    fn roll(&mut self) -> u32 {
        self.chance = self
            .chance
            .wrapping_mul(1_664_525)
            .wrapping_add(1_013_904_223);
        self.chance >> 8
    }

    fn put(&mut self, text: &[u8], want: &[u8]) -> Result<(), AllocError> {
        self.text.extend_from_slice(text)?;
        self.want.extend_from_slice(want)
    }

    fn put_operand(&mut self) -> Result<(), AllocError> {
        match self.roll() % 6 {
            0 => self.put(b"r0", b"r0"),
            1 => self.put(b"r15\t", b"r15"),
            2 => self.put(b" - 007", b"-7"),
            3 => self.put(b"-9223372036854775808", b"-9223372036854775808"),
            4 => self.put(b"-000 ", b"0"),
            _ => self.put(b"0042", b"42"),
        }
    }

    fn put_op(&mut self) -> Result<(), AllocError> {
        match self.roll() % 7 {
            0 => self.put(b"+", b" + "),
            1 => self.put(b"-", b" - "),
            2 => self.put(b" * ", b" * "),
            3 => self.put(b"/", b" / "),
            4 => self.put(b"%", b" % "),
            5 => self.put(b"  min\t", b" min "),
            _ => self.put(b" max ", b" max "),
        }
    }

    fn put_cmp(&mut self) -> Result<(), AllocError> {
        match self.roll() % 6 {
            0 => self.put(b"==", b" == "),
            1 => self.put(b"!=", b" != "),
            2 => self.put(b"<", b" < "),
            3 => self.put(b"<=", b" <= "),
            4 => self.put(b" >", b" > "),
            _ => self.put(b">= ", b" >= "),
        }
    }

    fn put_statement(&mut self) -> Result<(), AllocError> {
        match self.roll() % 6 {
            0 => {
                self.put(b"r3=", b"r3 = ")?;
                self.put_operand()?;
                self.put_op()?;
            }
            1 => self.put(b"r12 =", b"r12 = ")?,
            2 => {
                self.put(b"r1=tab_2[", b"r1 = tab_2[")?;
                self.put_operand()?;
                return self.put(b" ] ;", b"]; ");
            }
            3 => {
                self.put(b"a [", b"a[")?;
                self.put_operand()?;
                self.put(b"]=", b"] = ")?;
            }
            4 => self.put(b"emit\r", b"emit ")?,
            _ => self.put(b"fail ", b"fail ")?,
        }
        self.put_operand()?;
        self.put(b" ;", b"; ")
    }

    fn put_if(&mut self) -> Result<(), AllocError> {
        self.put(b"if ", b"if ")?;
        self.put_operand()?;
        self.put_cmp()?;
        self.put_operand()?;
        self.put(b"{", b" { ")
    }
}

// A text with about 40 statements in blocks of up to 8 in one another.
fn drafted(alloc: Global, seed: u32) -> Result<Draft, AllocError> {
    let mut draft = Draft {
        chance: seed,
        text: Vec::new(alloc),
        want: Vec::new(alloc),
    };
    // For each open block, whether it is the first one of an `if`.
    let mut open: Vec<bool> = Vec::new(alloc);
    draft.put(b"{", b"{ ")?;
    for _ in 0..40 {
        match draft.roll() % 6 {
            0 if open.len() < 8 => {
                draft.put_if()?;
                open.push(true)?;
            }
            1 if open.len() < 8 => {
                draft.put(b"loop 01{", b"loop 1 { ")?;
                open.push(false)?;
            }
            2 => match open.pop() {
                Some(true) => {
                    draft.put(b"}else{", b"} else { ")?;
                    draft.put_statement()?;
                    open.push(false)?;
                }
                Some(false) => draft.put(b"}", b"} ")?,
                None => draft.put_statement()?,
            },
            3 => match open.pop() {
                Some(true) => draft.put(b"}else{}", b"} ")?,
                Some(false) => draft.put(b" }", b"} ")?,
                None => draft.put_statement()?,
            },
            _ => draft.put_statement()?,
        }
    }
    for _ in 0..open.len() {
        draft.put(b"}", b"} ")?;
    }
    draft.put(b"}", b"}")?;
    Ok(draft)
}

#[test]
fn drafts(rt: HostRuntime) -> Result<(), Fail> {
    let alloc = rt.alloc();
    let names = two_tables(alloc).ok_or("memory")?;
    for seed in 0..200 {
        let draft = drafted(alloc, seed)?;
        let first = spelled(alloc, &names, &draft.text).ok_or("not written")?;
        assert_eq!(rt; first.as_slice(), draft.want.as_slice());
        let second = spelled(alloc, &names, &first).ok_or("not written again")?;
        assert_eq!(rt; second.as_slice(), draft.want.as_slice());
    }
    Ok(())
}
