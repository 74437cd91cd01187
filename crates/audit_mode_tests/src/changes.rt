// One byte changed in what is audited, and what is said of it: tools/plain_model.py made the tables.
use crate::said::{answer, joined, said};
use std::alloc::{AllocError, Global};
use std::test::Fail;

// A place behind the head, the byte that stands there instead, and the line that is told; 0 where the answer is still yes.
type Change = (u16, u8, u64);

// Two of five programs change the table; one fails, and one divides by nothing.
const HEAD: [&[u8]; 7] = [
    b"table a 4\n",
    b"put a 1 7\n",
    b"begin 10 { r0 = a[0]; emit r0; }\n",
    b"begin 20 { a[0] = 5; emit 1; emit -2; }\n",
    b"begin 5 { r1 = a[r0]; r0 = r1 / 0; }\n",
    b"begin 30 { fail 3; }\n",
    b"begin 7 { loop 2 { r0 = a[1]; r1 = r0 + 1; a[1] = r1; } }\n",
];

// A report of theirs.
const REPORT: [&[u8]; 7] = [
    b"commit 2 done 1 -2\n",
    b"commit 5 done\n",
    b"commit 1 done 5\n",
    b"commit 4 failed 3\n",
    b"commit 3 fault zero\n",
    b"final a 5 9 0 0\n",
    b"end 5\n",
];

// A journal over the same table.
const JOURNAL: [&[u8]; 10] = [
    b"entry,txn,deadline,detail\n",
    b"began,1,10,{ r0 = a[0]; emit r0; }\n",
    b"began,2,20,{ a[0] = 5; emit 1; emit -2; }\n",
    b"began,3,5,{ r1 = a[r0]; r0 = r1 / 0; }\n",
    b"withdrawn,3,,\n",
    b"committed,2,,done 1 -2\n",
    b"began,4,30,{ fail 3; }\n",
    b"sealed,,,\n",
    b"committed,4,,failed 3\n",
    b"committed,1,,done 5\n",
];

const REPORT_CHANGES: [Change; 100] = [
    (0, 13, 9),
    (1, 234, 9),
    (3, 48, 9),
    (3, 255, 9),
    (4, 52, 9),
    (4, 54, 9),
    (9, 49, 9),
    (12, 100, 9),
    (13, 33, 9),
    (13, 55, 9),
    (13, 122, 9),
    (13, 182, 9),
    (16, 102, 9),
    (17, 53, 9),
    (22, 49, 10),
    (23, 104, 10),
    (25, 22, 10),
    (28, 14, 10),
    (29, 112, 10),
    (32, 11, 10),
    (33, 98, 11),
    (33, 100, 11),
    (34, 99, 11),
    (34, 120, 11),
    (36, 5, 11),
    (37, 104, 11),
    (38, 117, 11),
    (39, 76, 11),
    (40, 48, 11),
    (40, 50, 11),
    (41, 33, 11),
    (43, 54, 11),
    (43, 102, 11),
    (44, 32, 11),
    (44, 44, 11),
    (45, 100, 11),
    (45, 251, 11),
    (46, 204, 11),
    (49, 100, 12),
    (50, 56, 12),
    (52, 108, 12),
    (52, 255, 12),
    (53, 69, 12),
    (53, 215, 12),
    (54, 97, 12),
    (56, 53, 12),
    (58, 52, 12),
    (59, 45, 12),
    (60, 104, 12),
    (62, 44, 12),
    (62, 102, 12),
    (63, 13, 12),
    (64, 120, 12),
    (65, 52, 12),
    (65, 102, 12),
    (66, 11, 12),
    (69, 56, 13),
    (70, 45, 13),
    (70, 49, 13),
    (71, 120, 13),
    (72, 45, 13),
    (76, 103, 13),
    (77, 102, 13),
    (78, 49, 13),
    (79, 109, 13),
    (79, 119, 13),
    (79, 251, 13),
    (80, 240, 13),
    (82, 44, 13),
    (82, 97, 13),
    (82, 123, 13),
    (85, 57, 13),
    (86, 51, 13),
    (87, 98, 14),
    (88, 106, 14),
    (88, 122, 14),
    (90, 50, 14),
    (90, 122, 14),
    (91, 98, 14),
    (91, 120, 14),
    (92, 33, 14),
    (92, 52, 14),
    (94, 33, 14),
    (95, 5, 14),
    (95, 97, 14),
    (98, 10, 14),
    (98, 52, 14),
    (99, 49, 14),
    (100, 33, 14),
    (100, 97, 14),
    (102, 53, 14),
    (103, 48, 15),
    (103, 102, 15),
    (104, 111, 15),
    (105, 97, 15),
    (106, 33, 15),
    (107, 32, 15),
    (107, 50, 15),
    (107, 54, 15),
    (108, 11, 15),
];

const JOURNAL_CHANGES: [Change; 100] = [
    (2, 56, 1),
    (9, 45, 1),
    (18, 154, 1),
    (25, 48, 1),
    (26, 99, 2),
    (27, 255, 2),
    (30, 111, 2),
    (32, 138, 2),
    (33, 125, 2),
    (34, 4, 2),
    (34, 48, 2),
    (37, 98, 2),
    (38, 101, 2),
    (39, 13, 2),
    (45, 90, 2),
    (46, 50, 10),
    (47, 98, 2),
    (48, 98, 2),
    (52, 101, 2),
    (53, 117, 2),
    (59, 32, 2),
    (59, 98, 2),
    (64, 98, 3),
    (67, 52, 3),
    (76, 44, 3),
    (78, 33, 3),
    (79, 60, 3),
    (80, 33, 3),
    (83, 34, 3),
    (84, 32, 3),
    (86, 51, 3),
    (87, 117, 3),
    (88, 33, 3),
    (91, 125, 3),
    (94, 50, 3),
    (94, 56, 3),
    (94, 78, 3),
    (103, 99, 4),
    (104, 100, 4),
    (109, 97, 4),
    (117, 11, 4),
    (117, 33, 4),
    (121, 125, 4),
    (124, 48, 4),
    (125, 32, 4),
    (125, 52, 4),
    (130, 204, 4),
    (131, 56, 4),
    (131, 120, 4),
    (133, 54, 0),
    (133, 120, 4),
    (136, 123, 4),
    (137, 97, 4),
    (140, 124, 4),
    (142, 183, 5),
    (143, 150, 5),
    (152, 52, 5),
    (156, 100, 6),
    (157, 59, 6),
    (162, 51, 6),
    (163, 13, 6),
    (164, 101, 6),
    (165, 45, 6),
    (165, 120, 6),
    (168, 45, 6),
    (169, 53, 6),
    (170, 123, 6),
    (174, 250, 6),
    (180, 213, 7),
    (183, 32, 7),
    (185, 120, 7),
    (187, 52, 0),
    (194, 104, 7),
    (198, 58, 7),
    (199, 33, 7),
    (202, 57, 8),
    (207, 101, 8),
    (208, 0, 8),
    (208, 13, 8),
    (213, 112, 9),
    (215, 200, 9),
    (216, 102, 9),
    (217, 117, 9),
    (217, 255, 9),
    (218, 97, 9),
    (220, 50, 9),
    (221, 122, 9),
    (221, 131, 9),
    (230, 101, 9),
    (233, 45, 9),
    (236, 10, 10),
    (236, 45, 10),
    (241, 102, 10),
    (249, 44, 10),
    (250, 52, 10),
    (250, 100, 10),
    (250, 113, 10),
    (251, 33, 10),
    (251, 45, 10),
    (253, 55, 10),
];

// Whether the audit says of each change what is stated, and of the unchanged lines that they are right.
fn are_judged(
    alloc: Global,
    form: &[u8],
    lines: &[&[u8]],
    commits: u64,
    changes: &[Change],
) -> Result<bool, AllocError> {
    let head = joined(alloc, &[&joined(alloc, &HEAD)?, form])?;
    let behind = joined(alloc, lines)?;
    if said(alloc, &joined(alloc, &[&head, &behind])?)? != answer(alloc, b"yes ", commits)? {
        return Ok(false);
    }
    for (place, byte, line) in changes {
        let place = *place as usize;
        let front = behind.get(..place).unwrap_or(b"");
        let back = behind.get(place + 1..).unwrap_or(b"");
        let changed = joined(alloc, &[&head, front, &[*byte], back])?;
        let wanted = if *line == 0 {
            answer(alloc, b"yes ", commits)?
        } else {
            answer(alloc, b"no ", *line)?
        };
        if said(alloc, &changed)? != wanted {
            return Ok(false);
        }
    }
    Ok(true)
}

#[test]
fn changed_reports_are_refused(rt: HostRuntime) -> Result<(), Fail> {
    assert!(rt; are_judged(rt.alloc(), b"report\n", &REPORT, 5, &REPORT_CHANGES)?);
    Ok(())
}

#[test]
fn changed_journals_are_judged(rt: HostRuntime) -> Result<(), Fail> {
    assert!(rt; are_judged(rt.alloc(), b"journal\n", &JOURNAL, 3, &JOURNAL_CHANGES)?);
    Ok(())
}
