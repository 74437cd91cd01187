// Journals as tables, and what an audit says of them.
ghost use Rattle.std.specs.Prelude.{◌≡◌};
ghost use Rattle.txn_names.specs.Tables.{items_of};

use crate::opening::one_table;
use item_table::Table;
use serial_audit::{Verdict, audit_journal};
use std::alloc::{AllocError, Global};
use std::marker::Brand;
use std::sync::ledger::{Blank, Ledger};
use std::test::Fail;
use step_count::Steps;
use txn_names::Names;

fn told<L: Ledger>(
    blank: Blank,
    alloc: Global,
    names: &Names,
    bytes: &[u8],
) -> Result<Verdict, AllocError>
    requires name { blank.name ≡ L.name }
    requires parts { blank.parts ≡ L.parts }
    requires one { blank.parts ≡ 1 }
    requires items { items_of names.now ≡ 4 }
{
    let mut steps = Steps::<L>::new(blank);
    audit_journal(alloc, names, Table::new(alloc, 4)?, bytes, &mut steps)
}

fn judged(alloc: Global, names: &Names, bytes: &[u8]) -> Result<Verdict, AllocError>
    requires { items_of names.now ≡ 4 }
{
    let blank = Blank::new(1);
    told::<Brand>(blank, alloc, names, bytes)
}

const fn no(line: u64) -> Verdict {
    Verdict::No { line }
}

#[test]
fn journals_are_judged(rt: HostRuntime) -> Result<(), Fail> {
    let alloc = rt.alloc();
    let names = one_table(alloc)?;
    let rows: [(&[u8], Verdict); 14] = [
        (b"", no(1)),
        (b"\n\n", no(1)),
        (b"began,1,10,{ }\n", no(1)),
        (b"entry,txn,deadline,detail,\n", no(1)),
        (b"entry,txn,deadline,detail\n", Verdict::Yes { commits: 0 }),
        (
            b"\xef\xbb\xbfentry,txn,deadline,detail",
            Verdict::Yes { commits: 0 },
        ),
        (
            b"entry,txn,deadline,detail\nbegan,1,10,{ r0 = a[0]; emit r0; }\nbegan,2,20,{ a[0] = 5; }\ncommitted,2,,done\ncommitted,1,,done 5\n",
            Verdict::Yes { commits: 2 },
        ),
        (
            b"entry,txn,deadline,detail\nbegan,1,10,{ r0 = a[0]; emit r0; }\nbegan,2,20,{ a[0] = 5; }\ncommitted,2,,done\ncommitted,1,,done 4\n",
            no(5),
        ),
        (
            b"entry,txn,deadline,detail\rbegan,1,10,\"{ }\"\r\n\n\ncommitted,1,,done",
            Verdict::Yes { commits: 1 },
        ),
        (
            b"entry,txn,deadline,detail\n\xef\xbb\xbfbegan,1,10,{ }\n",
            no(2),
        ),
        (b"entry,txn,deadline,detail\nsealed\n", no(2)),
        (
            b"entry,txn,deadline,detail\nsealed,,,\nbegan,1,10,{ }\n",
            no(3),
        ),
        (
            b"entry,txn,deadline,detail\nbegan,1,10,{ }\nsealed,,,\nwithdrawn,1,,\n",
            no(4),
        ),
        (
            b"entry,txn,deadline,detail\nbegan,1,10,{ b[0] = 1; }\n",
            no(2),
        ),
    ];
    assert_eq!(rt; names.items(), 4);
    if names.items() != 4 {
        return Ok(());
    }
    for (bytes, verdict) in rows {
        let said = judged(alloc, &names, bytes)?;
        assert!(rt; said == verdict);
    }
    Ok(())
}
