use super::*;
use std::test::Fail;
use txn_names::Names;
use txn_runs::{Cmp, Op, TableRef};

#[test]
fn longest_tokens(rt: HostRuntime) -> Result<(), Fail> {
    let mut names = Names::new(rt.alloc());
    names.add(b"loop2", 2)?;
    let table = Some(TableRef {
        number: 0,
        base: 0,
        size: 2,
    });
    let mut tokens = Tokens::new(&names, b" loop2\t>=-01a\r!r15 r16 99999999999999999999 ");
    let expected = [
        (1, Token::Name(table)),
        (7, Token::Cmp(Cmp::Ge)),
        (9, Token::Op(Op::Sub)),
        (10, Token::Number(1)),
        (12, Token::Name(None)),
        (14, Token::Stray),
        (15, Token::Register(15)),
        (19, Token::Stray),
        (23, Token::Number(u64::MAX)),
    ];
    for (at, token) in expected {
        assert_eq!(rt; tokens.next(), Some(Placed { at, token }));
    }
    assert_eq!(rt; tokens.next(), None);
    Ok(())
}
