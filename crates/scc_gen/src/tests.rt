// Texts of the generator over memory.
use crate::put_gen;
use std::test::Fail;

// The text behind another one; the greatest seed draws itself again and again.
#[test]
fn a_text_is_appended(rt: HostRuntime) -> Result<(), Fail> {
    let mut out = Vec::new(rt.alloc());
    out.extend_from_slice(b"# two\n")?;
    put_gen(7, 2, &mut out)?;
    assert!(rt;
        out.as_slice()
            == b"# two\ntable acct 64\nbegin 61 { r0 = acct[23]; r1 = r0 - 6; acct[23] = r1; r2 = acct[7]; r3 = r2 + 6; acct[7] = r3; loop 1 { r4 = r4 + 1; } emit 6; }\nbegin 607 { r0 = acct[14]; r1 = r0 - 7; acct[14] = r1; r2 = acct[62]; r3 = r2 + 7; acct[62] = r3; loop 2 { r4 = r4 + 1; } emit 7; }\n".as_slice()
    );
    out.clear();
    put_gen(65_536, 1, &mut out)?;
    assert!(rt;
        out.as_slice()
            == b"table acct 64\nbegin 536 { r0 = acct[0]; r1 = r0 - 8; acct[0] = r1; r2 = acct[0]; r3 = r2 + 8; acct[0] = r3; loop 0 { r4 = r4 + 1; } emit 8; }\n".as_slice()
    );
    Ok(())
}
