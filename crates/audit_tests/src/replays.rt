// Rows taken in one after another.
ghost use Rattle.std.specs.Prelude.{◌≡◌};
ghost use Rattle.txn_names.specs.Tables.{items_of};

use crate::opening::one_table;
use item_table::Table;
use journal_table::Replay;
use std::alloc::{AllocError, Global};
use std::marker::Brand;
use std::sync::ledger::{Blank, Ledger};
use std::test::Fail;
use step_count::Steps;
use txn_names::Names;

// The place of the first row that isn't answered so; the journal opens with four items.
fn first_wrong<L: Ledger>(
    blank: Blank,
    alloc: Global,
    names: &Names,
    rows: &[(&[u8], bool)],
) -> Result<Option<usize>, AllocError>
    requires name { blank.name ≡ L.name }
    requires parts { blank.parts ≡ L.parts }
    requires one { blank.parts ≡ 1 }
    requires items { items_of names.now ≡ 4 }
{
    let mut steps = Steps::<L>::new(blank);
    let mut replay = Replay::open(alloc, Table::new(alloc, 4)?)?;
    'rows: for place in 0..rows.len() {
        let (bytes, taken) = rows[place];
        if replay.push(names, bytes, &mut steps)? != taken {
            return Ok(Some(place));
        }
    }
    Ok(None)
}

fn wrong_in(
    alloc: Global,
    names: &Names,
    rows: &[(&[u8], bool)],
) -> Result<Option<usize>, AllocError>
    requires { items_of names.now ≡ 4 }
{
    let blank = Blank::new(1);
    first_wrong::<Brand>(blank, alloc, names, rows)
}

#[test]
fn rows_are_taken_in_or_refused(rt: HostRuntime) -> Result<(), Fail> {
    let alloc = rt.alloc();
    let names = one_table(alloc)?;
    let rows: [(&[u8], bool); 24] = [
        (b"", false),
        (b"\n", false),
        (b"entry,txn,deadline,detail", false),
        (b"began,2,10,{ }", false),
        (b"began,01,10,{ }", false),
        (b"began,1,1000000000001,{ }", false),
        (b"began,1,10,{ r0 = b[0]; }", false),
        (b"began,1,10,{ r0 = a[0]; emit r0; }\nbegan,2,10,{ }", false),
        (b"began,1,10,{r0=a[0];emit r0;}", true),
        (b"\xef\xbb\xbfbegan,2,20,\"{ a[0] = 5; }\"\r\n\n", true),
        (b"began,3,0,{ fail 7; }", true),
        (b"began,4,0,{ }", true),
        (b"committed,2,,done 5", false),
        (b"committed,2,,done", true),
        (b"committed,2,,done", false),
        (b"committed,1,,done 0", false),
        (b"committed,1,,done 5", true),
        (b"committed,99999999999999999999,,done", false),
        (b"withdrawn,4,,", true),
        (b"sealed", false),
        (b"sealed,,,", true),
        (b"sealed,,,", false),
        (b"withdrawn,3,,", false),
        (b"committed,3,,failed 7", true),
    ];
    if names.items() == 4 {
        let wrong = wrong_in(alloc, &names, &rows)?;
        assert!(rt; wrong == None);
    }
    assert_eq!(rt; names.items(), 4);
    Ok(())
}
