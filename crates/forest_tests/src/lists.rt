// Forty lists of events as data: with up to four shadows a transaction and up to four lanes. They were drawn once, so that
// most of their events are accepted, and stand as they are.
use crate::tally::{Refused, Tally};

/// A list of events, and the forest to which they happen.
pub struct List {
    pub k: u32,
    pub lanes: u32,
    /// A word an event, as `Event::read` reads them.
    pub events: &'static str,
}

/// What comes of the events of all lists.
pub const CAME: Tally = Tally {
    refused: Refused {
        sealed: 6,
        unknown: 104,
        not_started: 42,
        no_shadow: 35,
        ended: 261,
        blocked: 89,
        not_ended: 259,
    },
    waited: 52,
    ran: 1_163,
    gated: 0,
    taken: 0,
    local: 0,
    stored: 0,
    gone: 0,
    restarted: 30,
    resumed: 77,
    started: 177,
    withdrawn: 47,
    committed: 179,
    stood: 30_591,
};

/// The values of the forest's table before the first event of each list.
pub const OPENING: [i64; 4] = [0, 1, 2, 3];

/// The programs that begin in the lists, by their numbers.
pub const PROGRAMS: [&str; 8] = [
    "{ r5 = 3; r6 = r5 + 1; r0 = a[0]; r1 = a[1]; r7 = r6 + 1; r2 = a[2]; emit r2; }",
    "{ a[1] = 7; a[0] = 2; r0 = a[3]; emit r0; a[2] = r0; }",
    "{ r1 = 1 + 1; r2 = 5; r0 = a[0]; r0 = r0 + r1; a[0] = r0; emit r0; }",
    "{ r5 = 1; r0 = a[1]; a[0] = r0; r6 = 2; r1 = a[2]; a[3] = r1; }",
    "{ loop 2 { r2 = a[r1]; r1 = r1 + 1; } if r2 > 1 { a[1] = 3; } else { r3 = a[3]; } a[2] = r1; emit r2; }",
    "{ r2 = 9; r3 = 2; r0 = a[3]; a[3] = 9; r1 = r2 / r0; emit r1; }",
    "{ a[0] = 4; r0 = a[1]; r1 = a[2]; fail r0; }",
    "{ a[2] = 1; r3 = 1 + 1; r4 = 1; r0 = a[1]; r1 = a[3]; a[r0] = 2; r1 = a[r1]; }",
];

/// The lists, each over the same programs and opening values.
pub static LISTS: [List; 40] = [
    List {
        k: 1,
        lanes: 1,
        events: "s1.1 b2.0 c1 b6.0 b1.1 b7.3 b6.0 s1 b0.3 b0.0 b1.3 b5.1 c1 c5 recall b6.3 c1 s1 s1 s1 s1 s1 c1 s2 s2 s2 s2 s7.10 \
            c2 c5 s5 s5 s5 s5 s5 b7.2 s5 s5 s5 s10.5 run recall s8.5 s5.10 s5 s5 recall c5 c7 s7 s7 s7 s7 s7 c7 c7 s7 s7 s7 \
            s7 s7 s7 s7 s7 s7 c7 c3 s3 s3 s3 s3 run",
    },
    List {
        k: 2,
        lanes: 1,
        events: "b1.0 b2.3 b6.1 b3.2 b0.2 b2.3 b5.3 s1 b2.0 s1 b4.2 s1 s1 c1 s1 s1 s1 c1 b1.2 s8 s8 s8 c8 s8 s8 s8 recall s8 b7.3 \
            s8 s8 b5.3 c8 c3 run s3 s3 c3 c4 c4 s4 run c4 s5 s5 s5 s5 s5 c5 s5 s5 s5 s5 s5 b1.3 c14 s5 c5 s9 s9 s9 s9 c9 s9 \
            c13 s9 s9 s9 c9 seal s9 c9",
    },
    List {
        k: 3,
        lanes: 1,
        events: "b2.0 b7.3 b6.1 b7.2 b2.0 b2.1 b7.0 b4.2 s1 b4.0 s1 b0.1 b4.2 s1 s1 c1 s1 c1 c1 run c1 b5.3 b5.2 s5 c5 s5 s5 s5 \
            c5 s5 s5 s5 s5 c5 w7 b6.3 s9 s9 s9 c9 s9 s9 s9 b2.3 b4.3 s9 b4.2 s9 c9 s9 s9 s9 s9 s9 s9 s9 c9 c3 s3 s3 s3 s3 \
            s18.15 c3 s6 s6 s6 s6 s6 s6 s6 s6",
    },
    List {
        k: 4,
        lanes: 1,
        events: "c1 b3.3 c1 b0.1 b1.3 s1 c1 s1 b1.1 b3.1 s1 b2.2 c1 c1 recall s4.1 c1 s1 s1 c3 s1 s1 run run s1 s1 b2.0 s1 s1 \
            b3.3 s1 b1.2 s1 s1 s1 s6.1 s1 c1 s7 s7 s7 recall c7 recall s7 s7 s7 s7 s7 b0.1 s7.7 s7 s7 s7.9 s7 w7 s2 s2 c2 c2 \
            c2 s2 s2 s2 s2 s2 c2 c4 c4 s4 s4 s4",
    },
    List {
        k: 1,
        lanes: 2,
        events: "b4.2 s1 b2.3 b2.1 b6.1 c1 s2 b7.0 b3.2 s1 b6.1 s2 s1 s1 s2 b0.1 s1 s2 recall s2 b1.0 s1 s1 s2 s1 s1 s1 s1 s1 s1 \
            c1 w5 c2 b6.2 s3 s9 c3 s3 s3 s3 s3 s9 s3 c3 s4.4 b0.1 run s4 s9 s4 s9 b2.1 s12.4 s4 c4 s7 s7 w10 s7 s7 s11.9 s7 \
            s7.7 s9.11 s7 s9 s7 s7 s9 s9 c7 s8",
    },
    List {
        k: 2,
        lanes: 2,
        events: "b5.2 s1 s1 c1 c1 s1 b0.0 s1 b1.3 b4.1 b0.2 s2 run s3.5 c1 c2 c1 s4 s4 s4 s4 s4 s5 b2.3 s5 s4 c4 s4 s4 s4 s4 s5 \
            s5 c4 w5 s4 c4 b3.2 w3 s7 s6 c7 s7 s6 s7 c6 s7 s6 s6 recall s6 s7 c7 s7 s6 s6 s7 s7 run s6 c7 s6 b4.0 c5 s6 s6 \
            b0.0 c8 run s8.6 s8.6 s8.6",
    },
    List {
        k: 3,
        lanes: 2,
        events: "s0.1 c1 b1.0 b1.2 s1 s2 s2 b1.1 b0.3 s2 b7.1 s1 s1 c1 s1 s2 s1 run c1 c6 b4.1 c3 s3 s3 c2 s2.5 run s5 b7.3 s5 s3 \
            c5 s6 run c3 s4 run s6 c4 run s7.6 c6 c7 s7 c7 s7 c7 b4.2 b3.1 s8 c7 s7 s7 c7 b2.0 b1.0 c9 c9 s9 s9 s8 s8 s9 \
            seal s8.9 s9 c9 run s9 s9.8 s8.9 c8",
    },
    List {
        k: 4,
        lanes: 2,
        events: "b7.1 s1 c1 b5.0 b1.1 b0.1 b3.1 s1 s2 c2 b3.0 b1.2 c1 recall s1 s1 s2 s1 s2 s1 c4 b6.3 c1 c2 s2 s1.2 s1.2 s1.2 s2 \
            s1.2 s1 recall c1 s2 s6 s6 s6 s6 s6 c2 s3 b6.2 c3 c3 s6.3 run recall b2.2 s3 s3 s11.3 s3 s3.6 s3.6 c3 recall s6 \
            w6 s5 s4 s5 s5 s6.11 s4 s4 c5 s5 s4 s5 s5 s5 s4",
    },
    List {
        k: 1,
        lanes: 2,
        events: "b0.0 c1 s1 b5.2 b3.3 run s2 b4.3 b3.1 s1 b0.0 s7.1 s1 s1 s2 b5.0 s2 s6.2 s1 s2 s2 s1 s2.3 s2 s2 c2 s6 s6 s6 s6 \
            b2.2 c1 s7 c7 s6 c7 s6 run b7.2 s6 s6 s7 b1.3 s7 s6.6 s7 s6 s7 s11.7 s7 s6 s6 b1.0 c7 s11 s11 s11 c6 s5 s5 c11 \
            b4.3 run c5 s8 b7.3 b7.1 s8 s8 s8 c11 c8",
    },
    List {
        k: 2,
        lanes: 2,
        events: "s1.1 s1.1 b3.3 b4.0 b6.0 s1 b5.0 s1 b2.2 b4.0 s1 c2 s1 s1 s2 s1 s2 b3.2 b1.0 s5.2 s2 s2 s2 c1 s3 recall b5.3 c2 \
            s3 s3 s3 c3 s2 s2 s4 s4 s4 c2 s4 s4 c2 s2 recall recall s4 s2 s2 s2 s2 s2 c2 s2 s2 c2 s6 c4 s6 s8 s6 s6 s8 s6.8 \
            s8 s8 s8 s6 s6 s6 s6 s6 s6 s6",
    },
    List {
        k: 3,
        lanes: 2,
        events: "s1.1 s0.1 b3.1 b5.0 s1 s1 b4.0 b5.3 b0.1 c2 w1 b7.0 s2 b2.1 s3 s3 s2 s3 c3 b0.1 c2 s9.3 s3 s2 run c3 c2 s6 run \
            s9.5 c6 s7 s7 s7 s7 c4 s7 run s7 s7 s7 s5 s5 s4.5 c5 s8 s8 s8 s8 s8.7 s8 s8 s8 s8.7 s5.7 s7 s8.7 b1.0 c7 s9 s9 \
            s8 c8 s8 s9 c9 s9 s9 c9 b5.1 s8 run",
    },
    List {
        k: 4,
        lanes: 2,
        events: "b3.3 b6.3 s2 s2 s1 b3.2 s2 c2 c2 b4.1 b2.2 s1 s2 c1 c2 c4 s4 s1 s1 c5 c1 s4 c4 b6.1 s1 s1 s4 s4 s4 s4 s4 s4 s4 \
            s4 s1.4 s1.4 s1.4 s1.4 s4 run s4.1 s4.1 c1 s4 s6 s4.6 run run s4.6 s6.4 s6.4 w6 s3 s3 s3 c4 recall s5 s3 s3 s5 \
            s3 s5 s5 s5 s5 s3 s3 s5 s5 s5.3 s3",
    },
    List {
        k: 1,
        lanes: 3,
        events: "s1.1 s1.1 s1.0 b3.3 b5.1 b4.1 b3.3 s2 b6.3 b0.3 b5.1 s2 run b0.1 c1 s3 s3 s7 s7 c7 s3 s3 w2 s7 c3 s8 b1.1 s3 s3 \
            s7 b6.3 s8 c8 w8 s9 s9 s3 s9 s9 s9 s7 s3 s3 s3 s7 c7 b3.1 b6.0 s9 c9 c3 recall s3 s9 s4 c8 s4 s9 b2.1 s3 run w4 \
            c3 s12 run s9 run c9 s13 c13 s12 c12",
    },
    List {
        k: 2,
        lanes: 3,
        events: "s1.0 s1.1 s0.1 s1.1 c1 b5.1 b1.3 b7.0 w3 b3.2 b5.2 b3.3 s1 s1 s2 s2 s4 s4 s1 s4 s1 c4 b7.2 s1 c1 c1 s4 s2 s1 s2 \
            run s3.4 s7.2 s1.2 s7.1 s1 s2 s1 s1.4 s4 s2 c1 s2 recall s2.4 run s2 c2 s4 s7 s4 s4 s7 s7 c5 s4 s7 s4 s6 s7 s7 \
            s6 s6 c7 s6 c4 c6 s6 s6 s6 s6 s4.6",
    },
    List {
        k: 3,
        lanes: 3,
        events: "b6.1 s1 recall b2.0 b1.2 b0.0 b3.2 b2.1 b0.3 s2 c1 b2.1 s2 c1 s3 s2 s2 c3 c4 s1 s2 s2 s1 s1 c1 c3 recall s4 c2 \
            s4 run c3 s4 s6 run s6 s8.4 s6.8 run s7.8 s6 s8.6 c4 c6 run s8 s7 s7.5 s5 c5 run s7.8 s7 s8 c7 run s8 s8 c8 s6.1 \
            c1 b5.2 c9 b3.2 s9 s9 s9 c10 s10 s10 s10 c9",
    },
    List {
        k: 4,
        lanes: 3,
        events: "c1 b3.2 s1.1 b2.3 w1 b6.3 s3 b5.2 b2.2 c2 s2 recall s4 s4 s4 s3 s2 s1.2 run s6.2 s2.3 run s2.3 run s2 c3 s5 s5 \
            c4 s4.2 s5 s5 s5 s5 s2.5 s2.5 s3.5 b7.3 s5.2 c2 s5 s5 s6 c6 s5 s5 s6 s6 b0.0 s7 s6 s7 run c6 c5 s7 s7 s7 c7 s7 \
            s7 s7 b6.3 c7 s8 c8 s8 s8 s8 b6.3 s9 run",
    },
    List {
        k: 1,
        lanes: 3,
        events: "s1.0 s1.0 s1.1 c1 s0.1 s1.1 b2.0 c1 s1 s1 b7.1 b7.2 s2 c3 s2 s1 s3 s2 c1 s2 b1.1 s3 s3 c1 s3 s3 s2 s1 c3 b0.3 c2 \
            s3 s3 s1 s1 s2 run s2 s3 b0.2 s1 s2 s1 c2 s3 s3 c3 b2.2 s4 c1 c4 c8 s3 s4 c4 c6 s4 s3 s3 s6 s4 s4 c4 c6 c6 c7 c7 \
            c6 s6 s6 s7 w7",
    },
    List {
        k: 2,
        lanes: 3,
        events: "b1.0 s1 c1 s1 s1 s1 c1 s1 b5.1 c1 b4.0 b3.2 s3 s3 s4 s3 s2 c3 c4 b5.3 recall s2 c3 s4 c4 s4 s2 c3 s3.4 c3 s2 s3 \
            s3 s4 s4 s4 s2.4 s3.4 b7.1 c3 b4.1 s3 b0.2 run b7.1 s3.4 s2.3 s6.2 s2.4 s2.4 s3 s3.3 c2 s6 s6.4 s6 s6 run c3 s4 \
            s6 s7 c4 s7 b1.2 b0.1 s7 c4 s7 s7 s6 s7",
    },
    List {
        k: 3,
        lanes: 3,
        events: "s1.1 c1 b7.2 s1 s1 run s1 b1.3 s2 b0.0 b4.0 s1.2 s1.2 s1.2 s2 c1 s2 s3 s3 s4 s3 b0.0 s3.2 s3 c4 b6.0 s4 recall \
            b4.1 s2 run s3.2 s3.2 c2 s5 s4 run s5 s5.4 s6.5 c4 c5 s5 c6 s6 s5.6 s3.6 s3.6 w6 s3 c7 s7 run s5 s3 s3.7 s7.5 \
            recall s7 s7 b7.2 c3 s8 s8 c5 s8 run s6.7 s7 run c7 s8",
    },
    List {
        k: 4,
        lanes: 3,
        events: "c1 s1.0 b7.1 recall b6.3 b2.3 s3 b1.3 b0.3 b3.2 b2.0 s2 recall s1 s3 s1 b4.3 b2.0 c2 s3 b6.2 s3 s1 s2 s3 s1 b2.2 \
            recall c1 w1 s7 s2 s3 b1.0 s2 s7 run s2 s7.2 c2 s9 c7 c9 c3 s12 c8 c12 s3 s12 s3 s3.12 s3.12 s3 run c3 b4.2 b5.2 \
            s9 s6 b5.0 s9 recall s6 s6 s9.12 b4.0 s6 s9 s12 s9 s6 s9",
    },
    List {
        k: 1,
        lanes: 3,
        events: "b4.2 b4.0 b7.3 s3 b7.3 s3.1 s2 b3.3 b1.3 s3 b0.1 b4.2 c2 s2 c3 run s1 recall s2 b6.1 b6.2 s3 s1 c2 s7 s7 run run \
            s1 s8.1 s7 run s7.3 s3 s3 s1 s11.7 s1 s3 b5.1 s1 s3 s1 w7 run s9 c1 s9 s11 s9 s9 s3 s9 s11 s9 s11 s11 s11 c7 s11 \
            b0.2 s11 b6.0 s3 s3 s3 s3 s9 s9 s3 s3 s9",
    },
    List {
        k: 2,
        lanes: 3,
        events: "s1.1 s1.1 s1.1 b5.0 b0.3 s1 b6.1 b5.0 s1 s1 s3 s3 c1 s2 s3 c2 s2 s2 s1 s3 c3 w2 b0.3 s5 s1 s4 w4 s5 b0.1 c6 s1 \
            s6 b3.3 s5 b7.0 c1 s8 s6 s9.6 s8 b3.2 s5 c8 s5 c6 s6 s5 s5.8 c6 c6 b1.0 s8 s6 s5.8 c8 c10 s6 s6 c6 b2.2 s8 s5 s8 \
            s8 c5 b0.1 s6.8 c6 s8 s10 s6.8 s6.8",
    },
    List {
        k: 3,
        lanes: 3,
        events: "s0.0 s0.1 b7.1 b7.2 b5.3 b1.1 b7.2 b7.2 s7.1 b0.3 b1.1 b5.3 s1 b5.0 s2 recall s3 s3 c2 s2 w3 s10 c1 s1 s2 c8 c2 \
            s1 s1 run s10 s2.1 s10.1 s10 s10 s2 s2.1 c1 c7 run s10 c4 c10 c8 c11 b2.0 w11 c8 s12.10 c5 s2 s5 s5 s2 c2 s5.8 \
            s2 s5 c2 s6 run c5 seal b7.0 b0.3 run s6.7 c8 s7 s9 s9 w7",
    },
    List {
        k: 4,
        lanes: 3,
        events: "b7.0 w1 b0.3 b4.0 w2 b1.1 b1.0 s5 b1.2 s4 s3 s3 s3 s3 c5 c5 b3.0 b2.0 s5 b7.0 run s8.3 s3.5 run s8.5 s3 recall \
            s5 s5.4 s4 s3 b1.0 b0.1 s7.3 recall c3 s7 s7 s7 b6.0 b3.2 s7 s7 s7 s4.7 s4.7 b4.2 s12.4 s5.7 c4 s7 s7 b5.0 s8 s7 \
            s8 s7 s8 c12 s8 s8 c5 c7 s8 run s8.7 s8 s9.7 run s8.8 c8 s10",
    },
    List {
        k: 1,
        lanes: 4,
        events: "b4.3 w1 b2.0 b6.0 b4.3 b2.3 b2.3 run b1.3 s3 s4 c2 s4 s4 s5 s5 s6 s4 c3 c7 s4 w5 s6 s4 s6 b1.2 c7 s8 c4 s8 b2.0 \
            s6 s7 b0.1 c4 s7 s4 run b5.3 c8 s4 c7 s6 b6.0 s6 s4 c9 s10 s6 s9 w10 s4 s6 b4.2 c6 s4 s9 s4 s9 s4 c13 c12 s6 c6 \
            s12 s6 s6 s4 b1.1 s4 s12 seal",
    },
    List {
        k: 2,
        lanes: 4,
        events: "b7.1 b4.1 s2 s2 b1.1 b1.2 b7.0 b1.2 b0.2 s1 s3 b7.1 s1 c3 s4 s1 s1 s4 s1 c9 recall run s1 s3 s1.3 s4 s4 s9.6 s3 \
            s7.7 s4 s4 s2 s2 s2 s1.3 b6.1 b4.0 s2.3 s4 s1 s2.3 s2 c2 s5 c1 s10 s5 b3.0 s10 s10 c3 s10 s11 s11 s11 s10.4 b1.2 \
            c5 s11 c4 s8 seal s5 c11 s10 run c8 s9 s9 w11 b1.1",
    },
    List {
        k: 3,
        lanes: 4,
        events: "b2.3 s1 s1 s1 c1 s1 b0.3 b0.3 b2.2 b1.1 b7.1 b3.1 s1 b7.2 c9 s3 s1 s4 c4 s4 c1 s3 s2 s3 c3 s4 s4 s5 s2 b6.0 s5 \
            s3.5 s5 c5 s4 s3.5 c4 w5 s3.4 s9 s4.9 c4 s4.9 c10 s4 s4.9 b2.3 c8 s9 s9 s2 c4 c9 s2 c9 s2 s3 s2 s2 w2 s7 s6 c3 \
            s9.6 s9.6 s3 s9 b3.2 s6 c9 c6 s6",
    },
    List {
        k: 4,
        lanes: 4,
        events: "c1 b4.2 b1.0 b5.0 b3.3 c4 c2 s3 s3 c0 b6.1 b5.3 s1 b3.0 s2 c2 s3 s2 c2 c2 s4 s2 s2 s1 s4 s1 s1 s2 s3 c3 c2 b3.2 \
            s4 s4 s1 s1 s1 s7 c4 s7 s3 s1 w3 s4 s5 s4 c7 s5 s4 c1 c5 s1 run s1.7 s5.1 s4 s4.1 run c4 s1 s8 s1 s1 run s5.7 \
            b4.0 s8 s1.8 b3.3 c1 run b7.3",
    },
    List {
        k: 1,
        lanes: 4,
        events: "s1.1 b3.1 b1.2 b1.2 s1 b1.3 b1.0 b1.0 b2.0 b4.0 w2 b1.1 s4 s5 s4 s1 s4 c4 c1 s4 s5 b4.3 c1 s5 s5 s1 s1 s1 s1 s4 \
            c4 s6 s6 b0.1 s6 s5 s3 c5 recall run s3 s6 recall s3 s7 s3 s11.3 s7 b0.1 c1 run c3 s9 c6 c8 w11 s8 s9 c8 c9 s7 \
            c7 s7 b6.0 c7 s9 s12 s7 s7 c12 s8 s7",
    },
    List {
        k: 2,
        lanes: 4,
        events: "b5.1 b3.0 s2 b0.3 b2.3 b3.0 s4 b6.1 b5.2 b7.1 b5.3 s1 run c1 s5 c2 s5 s6 c6 s4 s6 s6 c3 s6 c5 s4 s5 c6 s4 c5 s3 \
            s8 s4 s3 s5 s3 s5 b5.1 b2.1 s3 recall s3 s8 s8 s8 s5 b7.1 s8 s8 s8 s8 c5 c4 s3 s3 s3 s10 s3 s4.8 c3 s4 s10 c4 \
            s8.3 s10 c10 s4 c10 w9 s8 s3 s8",
    },
    List {
        k: 3,
        lanes: 4,
        events: "b6.1 b0.0 s2 c1 b4.1 b2.3 w3 b1.0 b4.2 c2 b1.2 b4.3 c1 s4 b6.0 c5 s5 s2 s2 b6.2 b6.1 s1 s2.1 s2.1 s1 s1 s5 s5 c2 \
            s1 c1 w5 run c9 s6 s6 run b0.0 s6.11 s6 s2 s2.4 s11.6 s6.11 c4 b3.2 s6 s6 c11 s7 s6 s12 s12 b3.2 s2 s2 s2 s12 s6 \
            s12 c14 s7 s12.7 s12.7 s2.7 c2 s2.7 c6 s2 b3.2 b1.1 s6.7",
    },
    List {
        k: 4,
        lanes: 4,
        events: "c1 s1.1 b6.3 s1 b0.1 s1 b5.3 b6.2 c3 b2.3 s4 s3 s2 s2 s1 s4 s3 s3 s2 b6.2 s3 s2 run s4 s3 c3 c1 c4 s6 s5 c3 s2.6 \
            recall run s2.5 b5.2 s7 s7 s7 run b4.1 s5.6 c6 s8 s8 s8 run c2 s8.7 s7 s8 w5 s7 c7 s8 run s8 s8 s8 c8 s1.1 c1 c1 \
            s1.1 s1.1 s1.6 c1 c1 w1 s1.8 s1.1 s1.1",
    },
    List {
        k: 1,
        lanes: 4,
        events: "b0.0 s1 s1 s1 b2.0 s2 b6.1 b4.2 b4.1 s3 s2 b0.0 s2 s2 s3 run w1 s6 s6 recall s6 run s3.2 s4 run s3 b4.3 s6 s2 \
            recall s5.2 c2 c3 s7 b6.1 s6 s7 b3.2 s5 s6 c5 s4 s6.5 s5 s6 c5 s7 c7 c6 s4 s6 s7 s5 run s6 c4 recall s8 s6 b7.0 \
            s8 s6 s6 s6 s8 s8 s6 s6 c6 c5 seal s8",
    },
    List {
        k: 2,
        lanes: 4,
        events: "b1.3 run b4.2 s1 recall run c1 w0 b5.2 b4.2 b3.2 s4 s5 s3 b1.1 c2 c5 s5 s4 c3 s3 c5 c2 s4 s3 s3 s2 run recall c2 \
            s4 s5 s6 s4 c3 c6 b5.0 c6 s5 s4.5 s5 s5.6 s7 s6 c6 s6 s4 s4 s6 s4 s5 s7 s7 s5 run s4 c5 c8 s4 c7 w4 s7 s7 s7 c6 \
            s6 s7 s6 s6 s8.6 s7.7 c6",
    },
    List {
        k: 3,
        lanes: 4,
        events: "s1.1 b6.3 s1 run b7.2 b4.3 s2 b0.0 s3 s2 s1.2 b2.3 s3 s3 c1 s4 s3 c6 s3 s2 b5.3 s5 recall s2 s3 s3 s3 b4.3 run \
            s3 s5 c2 s3 s3 s3 s4 s6 s4 b2.3 s3 s4 c5 c6 b2.3 s3 s7 w7 b4.0 s8 s3 c6 b2.2 s4 s3 s3 s4 s3 run run s6 s3.8 s4.3 \
            b1.3 s3 c6 s10 s10 run b7.2 c8 s11 s4",
    },
    List {
        k: 4,
        lanes: 4,
        events: "b3.2 c1 b2.0 c1 s1 s1 b0.1 b6.3 s4.1 s2 b6.2 s2 s2 s1 s2.1 run s4 b4.3 s3.2 s1 s2.4 s3 s3.2 s2 c2 s3 s5 s3 c1 c4 \
            s3 s3 c5 s6 run c3 c5 b3.3 b3.0 s8 s8 s8 s7 c6 s7 s7 s8 c7 s7 s7 s7 s8 s8 s7 s8 run s8 s8 c7 c8 s1.1 c1 c1 s1.1 \
            seal c1 s1.1 s1.1 s1.1 s1.1 c1 s1.1",
    },
    List {
        k: 1,
        lanes: 4,
        events: "b4.2 s1 b6.0 s1 s1 b4.0 b3.1 s2 b4.3 s3 b6.3 b6.2 s3 s3 recall run s2 c1 s7 s7 s4 s4 s7 s7 s4 s2 s2 s2 s2.2 c4 \
            s4 s4 s2 s4 run c2 s5 s5 s5 c3 c4 s5 s6 s4 c7 s7 b0.2 c4 run s6 s4 s5 s6 c4 s5 s8 s8 s8 s8 s8 s8 c6 s8 s5 c8 s5 \
            s5 s5 run s7 s7.5 s5",
    },
    List {
        k: 2,
        lanes: 4,
        events: "recall s1.1 w1 b7.2 c1 s1 b5.0 s1 s2 b5.3 b0.0 s1 s4 s2 c2 c4 c1 s4 s3 recall s4 s4 s2 s3 s3 c4 s2 run s3.2 b3.0 \
            run s1 s3 s2 s1.2 c2 s3 s5 s1 s5 s1 c1 s1 run s5.1 s3 s3.3 b2.1 s3.5 s4.5 s5.5 s5.1 s5.1 c1 s6 c3 s6 s6 b7.2 c5 \
            s7 c4 s4 s7 s7 seal s6 b6.0 s6 s7 s4 c4",
    },
    List {
        k: 3,
        lanes: 4,
        events: "b6.1 b1.0 b0.0 b0.2 b6.0 b0.3 b1.2 w8 s4 b2.3 run s4 s4.2 s4.1 s1 b3.3 s3.1 run s3.1 s2 b5.1 s2 b4.0 c1 s5 s5 \
            s5.2 s5 w11 s5 s2 s2 s4.4 s4 s4.2 s3.5 s8.2 b3.3 s4.4 s3.5 w12 run s9.4 s5 s11.3 s2 s3 s4.5 s3.2 s3.5 s5 w2 s10 \
            s10 c3 recall s7 s5.7 s10 s4.7 run s4.5 w7 s6 run run s10 b1.3 run s5 s4.5 s10",
    },
    List {
        k: 4,
        lanes: 4,
        events: "b7.0 b6.0 b7.1 s3 b5.2 b6.0 w3 s2 b2.0 b3.3 b3.3 s1 c7 b4.1 s1 s2 s2 c1 c5 s2 c5 s4 s4 s5 s1 s5 s1 s4 s4 s1 c2 \
            run s1 s5.1 run w4 s9 s9 s9 s9 s9 c1 s9 s9 s5 s5 s9 s9 s7 s9 s9 w7 b0.1 s8 c9 b3.0 s5 b2.0 s5.9 w5 c6 c12 s11 \
            run run s9.11 s9.11 s8 c9 s10 s8 s8",
    },
];
