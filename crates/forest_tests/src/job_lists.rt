// Forty lists of events as data, in which up to three benches take jobs and give them back. They were drawn once, so that many of
// the jobs are stored and many are gone, and stand as they are.
use crate::lists::List;
use crate::tally::{NOTHING, Refused, Tally};

/// What comes of the events of all these lists.
pub const JOBS_CAME: Tally = Tally {
    refused: Refused {
        sealed: 7,
        unknown: 53,
        not_started: 17,
        no_shadow: 0,
        ended: 64,
        blocked: 0,
        not_ended: 210,
    },
    waited: 11,
    ran: 1_265,
    gated: 191,
    taken: 272,
    local: 100,
    stored: 93,
    gone: 135,
    restarted: 23,
    resumed: 52,
    started: 168,
    withdrawn: 50,
    committed: 190,
    stood: 18_336,
};

/// What comes of the events of the worked lists.
pub const WORKED_CAME: Tally = Tally {
    ran: 9,
    taken: 6,
    local: 6,
    stored: 3,
    gone: 3,
    restarted: 2,
    committed: 5,
    stood: 208,
    ..NOTHING
};

/// Lists whose jobs meet another shadow than the one that was taken, with what must come of them reckoned by hand.
pub static WORKED_LISTS: [List; 3] = [
    // a job of before a commit is gone, though a shadow stands where it was taken, and is out
    List {
        k: 1,
        lanes: 2,
        events: "b0.1 b1.2 s1 s1 s1 s1 t0 s2 s2 s2 s2 s2 c2 s1 s1 s1 s1 t1 l0.9 l1.9 g0 g1 run c1",
    },
    // of two jobs of one shadow the first that comes back is stored
    List {
        k: 2,
        lanes: 2,
        events: "b0.1 s1 s1 s1 s1 t0 recall t1 l0.1 l1.1 g0 g1 run c1",
    },
    // the job of a shadow that waited is stored where it was promoted
    List {
        k: 2,
        lanes: 2,
        events: "b0.1 b1.2 s1 s1 s1 s1 s2 s2 t0 t1 l1.9 s2 s2 s2 c2 g1 g0 run c1",
    },
];

/// The lists, over the programs and opening values of the others.
pub static JOB_LISTS: [List; 40] = [
    List {
        k: 1,
        lanes: 1,
        events: "c1 gate b0.3 t0 b7.1 b5.2 b3.1 g0 b1.0 b7.0 gate gate t0 s1 gate b0.1 l0.4 b1.3 s1 l0.2 l0.4 s1 run gate b5.0 s5 \
            b6.2 g0 t0 c10 g0 s5 t0 c5 g0 c5 gate t0 g0 s5 s5 t0 s5 b7.2 run w5 t0 s6 s6 s6 s6 l0.4 g0 c6 t0 recall s6 g0 \
            b2.1 c6 t0 run g0 seal s6 t0 c8 b0.3 c6 c6 s6 gate",
    },
    List {
        k: 2,
        lanes: 1,
        events: "c1 t0 b3.0 b4.2 b0.2 b4.0 b4.0 s1 b0.2 b5.3 t0 s1 g0 s1 t0 g0 c1 t0 s1 l0.1 s1 g0 s1 c1 c4 t0 c4 recall s4 s4 \
            l0.2 l0.1 recall b6.3 s4 g0 t0 c4 g0 s4 t0 gate gate s4 gate gate s4 s4 g0 s4 gate gate c8 t0 l0.1 s4 gate s5 s5 \
            g0 c5 s5 gate t0 c5 s5 g0 s5 s5 s5 b4.3 s5",
    },
    List {
        k: 3,
        lanes: 1,
        events: "b5.0 b0.1 s1 c1 b6.3 t0 l0.2 b1.3 s1 b2.3 c1 g0 c1 c1 c4 s1 s1 s1 gate t0 b3.1 s1 g0 t0 s1 t0 t0 gate s2 b3.1 c2 \
            t0 s2 l0.3 gate s2 l0.2 l0.1 l0.3 gate l0.4 l0.2 c4 l0.3 g0 s2 s2 b0.3 b3.3 s2 c2 b1.0 gate b2.0 s6 t0 l0.1 g0 \
            c6 s6 t0 b4.3 c6 l0.4 g0 s6 t0 s6 g0 s6 s6 c6",
    },
    List {
        k: 4,
        lanes: 1,
        events: "t0 b5.1 run b3.2 w1 run b6.3 t0 gate b3.0 b7.1 s3 recall gate t0 g0 b5.2 gate t0 c3 s3 s3 b7.0 g0 c3 s4 c4 gate \
            t0 g0 s4 t0 g0 t0 s4 gate s4 s4 s4 s4 l0.3 s4 gate s7 s7 l0.2 g0 gate s7 t0 gate s7 s7 gate s7 s7 gate c5 gate \
            b4.2 run w6 g0 w5 s8 t0 l0.2 s8 s8 s8 gate c8",
    },
    List {
        k: 1,
        lanes: 2,
        events: "s1 b2.3 c1 b1.3 b4.1 b5.1 b7.3 b3.3 b6.0 gate c1 t0 t1 gate gate g1 s2 l0.3 run l0.2 gate t1 l0.4 s7 g0 l1.2 t0 \
            s7 l0.3 g1 b3.1 t1 g0 run recall t0 gate l1.1 b1.0 gate c7 g0 s3 gate c6 s7 s3 s3 w7 b0.0 s3 c3 s9 c3 l1.2 \
            recall c9 b4.3 s9 l1.1 l1.4 t0 s9 b0.0 s9 l0.2 l0.1 s3 c9 l1.2 s9 c9",
    },
    List {
        k: 2,
        lanes: 2,
        events: "b0.3 s1 b1.0 s1 b4.0 b6.3 s2 s2 run s2 gate c1 run t0 t1 run c1 b0.3 s4 c3 gate gate t0 l0.2 b3.3 run t1 l0.3 w5 \
            g0 t0 run s6 t1 b2.1 gate gate g1 s6 t1 g0 c6 run g1 s7 b4.2 c6 s7 b4.2 b1.2 run gate s8 b5.1 c9 c8 t0 g0 run \
            b5.1 b3.3 c8 s11 c9 s9 run seal b1.2 c9 s12 s12 gate",
    },
    List {
        k: 3,
        lanes: 2,
        events: "b1.2 t1 b6.1 b6.1 recall b0.1 b2.0 b6.1 gate b5.1 gate g1 t0 b6.1 l0.2 c2 gate t1 gate s2.1 b6.3 gate s1 g1 c1 \
            l0.2 l0.2 b3.3 t1 c1 g1 l0.3 s2 s2 s1 s1 gate t1 b5.3 gate s5 run g0 g1 s3 s3 t1 t0 s3 s5 recall s3 t1 t0 t1 s3 \
            run c3 b5.0 s4 s4 gate c12 s4 c12 b1.2 s4 t0 s12 s4 l0.3 gate",
    },
    List {
        k: 4,
        lanes: 2,
        events: "t0 s1 t1 c1 b1.0 gate b1.0 b6.0 s1 b0.1 b6.1 s1 b3.0 t0 b3.3 t1 l1.1 s1 run g0 t0 s2 s2 s2 gate t0 g1 t1 s3 b6.1 \
            c2 g0 c3 t0 run s2 s2 g0 t0 l1.2 l1.1 run c2 t0 gate c6 s6 s6 s6 s6 c4 c6 g1 g0 t0 t1 s6 c6 c6 gate gate s3 gate \
            s3 l0.4 s4 c6 c3 run gate b2.2 gate",
    },
    List {
        k: 1,
        lanes: 2,
        events: "b3.1 t2 g2 b5.3 s2 b2.0 b1.2 b0.0 b1.1 t0 s2 t1 l1.3 t2 l1.3 s2 c2 s1 c2 l0.4 gate s1 s2 s1 g1 s1 s1 t2 gate s2 \
            gate s2 s2 c3 s2 s3 t1 g0 l2.3 run s3 gate s3 s5 t0 g1 t1 s3 c5 l1.2 s3 l0.3 l0.2 s5 g2 w3 run s5 s5 gate c6 t2 \
            g0 g2 t2 c4 gate s4 t0 s4 l1.3 s4",
    },
    List {
        k: 2,
        lanes: 2,
        events: "b4.1 b4.1 t2 b2.1 b2.3 s1 b1.1 b7.0 s2 b1.3 gate l2.2 s2 run s2 w2 c6 t0 g0 b6.0 s6 g2 s6 c6 t1 s6 gate s8 w6 \
            gate b5.1 s8 b1.3 c3 s8 b5.0 gate s11 gate c11 s11 s11 gate c11 s11 s11 b3.2 s3 c11 t0 gate c3 g1 s5 c5 t2 s5 c5 \
            c5 gate gate s3 g0 run s5 s3 c3 gate g2 c12 c10 b5.3",
    },
    List {
        k: 3,
        lanes: 2,
        events: "gate b0.1 s1 gate b3.3 gate b7.1 b7.1 b2.3 c2 t2 gate t1 l1.2 s1 l2.4 gate s2 c3 s2 g1 t1 c2 c1 g2 t0 s1 run s2 \
            gate s3 gate c3 s2 s2 c4 s2 s3 w2 l1.2 c4 s3 s4 run b7.3 run b6.3 c3 gate s4 run s4 s4 b4.1 t2 s4 run gate c5 \
            gate recall run gate s7 l1.3 seal g1 b2.1 b6.3 t2 s7 s6",
    },
    List {
        k: 4,
        lanes: 2,
        events: "b6.0 b6.1 b4.2 b5.1 run s2 gate b2.2 s4 t0 s4 gate b2.2 g0 s3 c3 w4 c5 t2 gate t1 g2 g1 c5 run c3 t1 recall gate \
            t0 gate c6 l0.3 t2 c6 t2 c6 b4.1 c7 s7 t2 gate l0.1 s6 c7 gate c6 gate l2.2 l2.1 gate g1 gate gate l2.1 run c6 \
            w7 c1 g2 s3 t2 gate s1 gate b3.3 c8 s8 s8 s8 s8 t1",
    },
    List {
        k: 1,
        lanes: 3,
        events: "b7.3 b3.1 b4.3 b6.2 t0 c2 b7.2 b0.3 b2.3 s1 g0 s1 gate t0 gate g0 t0 l0.2 g0 w1 s3 t0 c4 c3 l0.2 gate s4 l0.1 \
            gate l0.2 b0.1 gate c9 gate gate c2 s4 w2 c4 g0 gate run t0 t0 gate w3 b1.2 s7 t0 s6 g0 t0 c5 g0 s7 gate s9 t0 \
            l0.1 b6.2 c8 run gate g0 b2.1 gate run s10 t0 b4.0 run gate",
    },
    List {
        k: 2,
        lanes: 3,
        events: "c1 s0 recall b5.0 b6.0 b7.2 b0.2 b2.3 gate run gate s2.3 gate c5 recall b2.0 t0 l0.3 c5 l0.2 g0 t0 c5 g0 t0 b6.2 \
            g0 b2.1 c4 w5 c4 t0 b1.1 b4.0 l0.4 l0.2 c4 s4 recall g0 s6 s4 t0 g0 b1.0 t0 g0 recall gate c3 s3 t0 s6 s3 g0 t0 \
            b3.2 gate s6 g0 s3 s4 c3 t0 gate s10 s6 g0 s6 t0 l0.3 s4",
    },
    List {
        k: 3,
        lanes: 3,
        events: "b1.2 w1 s1 b0.3 b3.2 s2 s3 gate b3.1 gate w4 t0 c2 s3 l0.1 run w3 run s2 c2 gate gate s1 s1 gate gate s1 l0.1 \
            b4.2 l0.3 b4.1 g0 s6 t0 s6 s5 gate c6 g0 gate c5 t0 s6 c5 l0.2 s6 l0.4 gate l0.3 g0 s5 gate b4.2 t0 g0 t0 run \
            l0.1 gate gate s6 b1.0 l0.3 l0.4 gate gate s6 s6.8 s8 s8 s8 seal",
    },
    List {
        k: 4,
        lanes: 3,
        events: "b2.2 t0 gate b2.2 b5.0 c1 b3.1 s1 b0.0 b0.1 s2 g0 s2 t0 recall c7 run c1 l0.3 gate g0 gate gate run t0 t0 c4 \
            b1.3 gate gate gate gate t0 s2 g0 s6 gate c5 w8 run t0 t0 t0 recall t0 w2 t0 l0.2 s7 g0 t0 s5.7 s7 s5.7 c5 s7 s7 \
            w7 gate gate gate s1 s1 l0.4 c1 s1 s1 g0 t0 s1 c1 s1",
    },
    List {
        k: 1,
        lanes: 3,
        events: "b1.3 b5.1 b0.1 b6.3 t1 g1 b4.3 b1.0 t1 c2 s1 s1 c2 t0 g1 g0 t1 w1 t0 b2.1 w8 l0.3 s2 s2 s2 s6 gate s6 s3 s2 g0 \
            t0 l0.2 run s6 s6 w3 g0 s7 c6 s4 s4 t0 l1.4 g0 recall gate g1 s4 b2.0 b4.3 b4.0 t1 t0 s7 run c5 c7 run b5.2 b0.3 \
            s4 seal seal l1.4 s12 gate run l1.2 c4 b2.3 g1",
    },
    List {
        k: 2,
        lanes: 3,
        events: "b4.1 s1 s1 b2.3 s1 t1 b7.1 w2 s3 g1 s3 s1 s3 t1 s1 t0 l1.3 s3 s3 c1 l0.3 s3 gate b3.2 g1 s1 b6.0 g0 gate recall \
            b3.2 t1 t0 s1 w4 s3 g1 s5 l0.2 t1 c3 gate s5 c1 g0 g1 recall gate s6 t0 run b0.0 c1 b5.0 g0 c9 s5 s7 t1 t0 g1 c5 \
            c6 t1 run c6 s5 run gate g0 t0 c8",
    },
    List {
        k: 3,
        lanes: 3,
        events: "b5.0 b2.1 b1.1 b6.2 s2 b3.0 b7.0 b0.1 s1 b7.1 t1 s1 c3 s3 c3 gate gate s3 run s3 run g1 s2 run b0.1 s6 s3 t0 s1 \
            c1 t1 c2 c6 s5 c5 w9 s3 s3 b2.3 s5 c6 b7.3 gate gate g1 s6 t0 gate c6 s3 s5 s5 s5 c3 s6 s6 s5 l0.4 w5 s7 gate s7 \
            l0.1 s7 c6 s8 c6 t1 s8 gate l0.2 s6",
    },
    List {
        k: 4,
        lanes: 3,
        events: "t0 b0.1 b1.1 c2 s2 t1 b7.1 b7.0 b3.2 s1 s3 c1 recall l1.2 t0 l1.2 l1.4 b1.0 l1.1 g0 s3 g1 run t1 gate c2 s6 s4 \
            s6 gate gate run b6.1 c3 s7 s7 gate t0 recall gate t1 s5 l0.4 l1.3 c5 gate b3.3 l1.2 s5 b3.3 g0 g1 s7 c8 c5 t0 \
            gate s7 run c8 b0.2 gate t1 l1.2 g1 gate s10 b6.1 run g0 gate c9",
    },
    List {
        k: 1,
        lanes: 3,
        events: "b7.3 b5.2 b1.1 b6.2 run t0 gate w2 b1.2 s5 s1 s5 gate s5 gate s4 b6.2 s1 b0.0 s1 t2 t0 run b4.2 c1 s5 s5 s4 c4 \
            g2 gate t1 c7 t2 g2 l0.3 c7 s8 recall l1.2 s7 run s7 l1.1 g0 s7 c8 t2 run c6 gate b5.2 gate g1 c7 s9 s9 s7 s9 \
            b6.2 gate s9 run gate run g2 run w10 t2 c9 t0 b6.2",
    },
    List {
        k: 2,
        lanes: 3,
        events: "b0.2 b2.2 s1 b7.1 b1.3 b0.0 b5.0 t0 b7.3 b5.0 t1 gate s2 g1 s1 gate b4.2 t1 s3 run gate run s1 t2 gate c2 g2 s8 \
            c1 t2 s8 s1 s6 s1 l1.3 gate l1.1 l0.4 s6 l1.2 c1 c6 g0 g2 s6 t0 gate w8 s6 l0.3 s1 l0.3 b3.3 l0.4 run g0 s6 t2 \
            s9 w9 gate s7 b4.1 t2 l2.3 c1 run l1.1 s7 gate c7 b4.2",
    },
    List {
        k: 3,
        lanes: 3,
        events: "gate b6.3 b3.0 b5.2 b7.0 c1 t2 s1 s3 b6.2 t0 l0.4 c2 s1 s2 run gate gate s4 s4 w4 g2 c5 s5 s5 gate run b7.1 s6 \
            gate b1.1 t1 s6 g1 b6.0 s6 c6 s3 recall run c3 s7 gate s6 b2.2 b0.3 t2 gate s8 s6 l2.2 t1 s7 l2.1 g0 g2 s7 \
            recall s8 gate gate s8 gate l1.3 t2 gate l2.4 t0 l1.1 seal s10 l0.3",
    },
    List {
        k: 4,
        lanes: 3,
        events: "b2.1 t2 s1 s1 gate b7.2 b5.1 b7.1 b3.1 t1 b2.2 s1 g2 l1.1 s1 gate t2 c3 gate c1 t0 l0.4 c2 c1 gate b3.3 gate \
            b4.2 s1 s3 gate w2 s5 run s3 gate s4 l2.4 s6 s5.4 s5.4 l1.3 c5 b4.0 run c4 g1 c6 t1 s7 b6.1 g2 c7 c8 g0 gate \
            b7.1 s7 gate b1.0 l1.3 c9 s9 t2 s7 c8 g2 s8.7 t2 s8 g1 s8",
    },
    List {
        k: 1,
        lanes: 4,
        events: "b3.1 s1 t0 b5.0 l0.3 b1.2 b2.3 b7.0 b2.3 b1.3 run g0 b3.1 gate b6.1 b3.3 s1 t0 s5 c4 c8 recall gate s1 g0 t0 c3 \
            recall b7.3 l0.1 s5 b0.0 l0.1 b6.2 gate s1 s1 s8 s1 l0.3 l0.3 b7.0 s8 s5 g0 t0 b2.3 g0 s8 gate run s8 c8 c12 s3 \
            t0 s5 g0 b7.3 b3.0 t0 l0.2 gate gate s3 gate g0 c5 s5 s12 s3 t0",
    },
    List {
        k: 2,
        lanes: 4,
        events: "t0 t0 b7.3 s1 s1 gate gate b7.1 b0.0 b6.3 t0 l0.4 c2 s4 g0 t0 b1.2 l0.3 recall g0 b2.0 b2.1 recall s4 s1 b1.1 s1 \
            run s2 t0 s3 b1.0 run recall s1 s1 t0 t0 c2 t0 s6 s3 l0.2 recall g0 t0 s4 c6 g0 s6 b6.1 b2.1 t0 b3.0 g0 t0 run \
            c4 l0.1 gate gate s9 s3 c12 c9 c7 s12 g0 t0 gate w7 s3.9",
    },
    List {
        k: 3,
        lanes: 4,
        events: "s1 b4.3 b2.0 b6.3 c3 b2.3 b3.3 b7.3 b3.3 b2.3 s1 t0 gate s4 s1 gate l0.1 c3 c1 gate gate b5.1 s1 s1 l0.1 c6 s3 \
            gate s1.3 gate b7.0 g0 t0 l0.1 gate gate gate w4 s3 l0.1 l0.4 c10 g0 s1 s1 b2.3 t0 c3 s1 w3 g0 b3.2 b3.2 gate \
            run s1 c1 t0 c2 s12 l0.3 l0.1 l0.2 g0 s13 t0 w9 s12 s5 w10 s6 s6",
    },
    List {
        k: 4,
        lanes: 4,
        events: "b6.3 s1 t0 s1 l0.3 b6.0 b6.3 b6.0 b4.2 b4.2 c4 recall c1 b6.3 b5.1 l0.1 b3.1 c4 run b2.3 gate c3 gate gate b3.2 \
            b5.1 b0.1 l0.1 gate l0.3 s6 l0.3 s6 gate b6.0 recall l0.3 s6 l0.2 l0.1 l0.4 s5 g0 s6 t0 s6 l0.3 l0.3 l0.2 s9 \
            gate g0 gate t0 c9 run l0.2 gate s14 s6 s14 s5 s6 run s12 c5 seal s12 g0 t0 gate s14",
    },
    List {
        k: 1,
        lanes: 4,
        events: "run b6.2 t0 s1 b5.3 b3.2 gate gate s2 gate g0 t0 recall recall s3 w3 b1.0 s1 s4 s4 c1 l0.4 c4 s2 run s2 s0 c0 t1 \
            c2 s4 recall c4 l0.2 b2.0 w4 s5 b3.3 b1.0 gate l0.1 s6 recall s7 l0.3 b1.3 w8 t1 run s5 c7 s5 l0.2 c6 c7 s6 gate \
            g0 gate s5 s6 recall b4.1 c9 gate c6 g1 run s5 s9 s9 t1",
    },
    List {
        k: 2,
        lanes: 4,
        events: "c1 w1 b0.3 s1 b4.3 b7.0 gate b6.2 b1.3 s2 t0 c1 gate s1 l0.4 t1 g1 s3 g0 t1 s2 b6.1 run gate t0 c1 g0 s5 recall \
            t0 gate s3 s6 run c5 l0.1 s6 s3 c3 c3 g1 s6 t1 s3 gate g1 t1 s6 s3 c3 l1.3 g0 s6 t0 g1 s6 t0 b1.2 b3.3 run t1 s8 \
            gate s8 gate w8 t0 t0 gate b6.3 t1 gate",
    },
    List {
        k: 3,
        lanes: 4,
        events: "b1.2 b0.2 t0 s1 s2 b1.2 l0.4 b1.2 b3.3 s2 gate c3 c4 gate g0 s4 s3 t0 b1.3 l0.3 b7.0 t1 g1 s2 t1 s4 s1 s4 s3 g0 \
            s4 g1 s1 t1 t0 b5.3 gate l0.1 s2 b6.2 s4 g1 s3 gate l0.3 c3 run b7.1 s7 s9 c2 s10 l0.2 run s3 g0 gate t0 s5 c10 \
            t1 s6 run s5 l0.3 seal c6 run b3.3 s9 s8 l0.2",
    },
    List {
        k: 4,
        lanes: 4,
        events: "t1 b6.2 b4.1 b3.3 t0 s3 b3.0 b3.2 b1.1 c4 b4.2 t1 s4 c3 s4 l1.1 g0 b2.0 g1 b7.3 t0 s4 l0.4 s3 s4 s3 l0.3 l0.1 c7 \
            s2 s3 gate t1 g1 t1 b7.3 c4 l1.4 c4 l1.2 l0.2 b3.0 b2.0 g0 g1 s1 b1.2 s4 recall gate t1 s1 g1 recall b7.0 c15 s3 \
            b5.1 s8 t1 c8 c1 g1 gate c3 t1 s3 g1 b7.3 s2 t0 t1",
    },
    List {
        k: 1,
        lanes: 4,
        events: "b1.3 s1 b3.3 b5.2 t2 b5.0 s2 l2.4 t1 c1 l2.1 s4 s1 s3 t0 b0.2 l0.4 g0 gate gate l1.4 g2 t0 l1.2 gate s4 gate g0 \
            s1 run gate s1 t0 l1.3 t2 gate s1 s5 s5 c5 s3 gate gate c5 c5 gate s1 c3 g2 gate s3 s3 gate s3 s3 l0.2 gate b2.0 \
            s1 run c1 gate c5 s6 s5 l1.2 s6 w5 b1.2 c8 c6 s6",
    },
    List {
        k: 2,
        lanes: 4,
        events: "b4.0 c1 b5.1 t2 b0.1 s3 b6.1 b1.2 gate b1.0 t0 s3 g0 t1 s4 t0 s4 gate s4 s2 s1 c4 s3 gate l2.3 g0 l2.4 s1 run \
            gate s3 t0 s5 gate l1.1 s5 run s2 c2 c3 g2 s5 g0 t0 s5 g1 gate t1 s5 b1.0 g0 s7 t2 t0 c5 b3.0 run g2 t0 gate \
            gate run s7 t2 g0 t1 s7 b7.1 b4.0 l2.2 b3.3 s7",
    },
    List {
        k: 3,
        lanes: 4,
        events: "c0 s1 b5.3 b6.0 b2.0 b2.3 gate c4 b3.2 gate c3 s4 s3 t1 t2 s4 s4 c2 s1 t0 s1 s3 s2 s1 l0.4 g0 run g2 t0 c1 s5 \
            gate s5 gate s5 c5 run s5 t2 c4 g1 b6.3 s6 b7.2 t2 w7 s6 gate s6 c6 s6 c6 t1 t0 w8 s1 gate t0 b6.3 s8 t0 l0.2 \
            l2.2 g0 s8 s8 gate b3.3 run g2 c9 run",
    },
    List {
        k: 4,
        lanes: 4,
        events: "w1 b6.1 s1 s1 recall c1 c1 b0.3 b3.1 b6.1 t2 t0 l0.3 gate s4 c2 g0 s3 s1 s4 s1 s2 t1 s2 s3 s3 w1 l1.2 s2 gate g2 \
            gate c3 gate t0 s4 s2 l0.3 gate s2 s2 l1.4 s2 s2 l1.4 s1 l1.2 t2 w2 s1 l1.3 s1 gate g1 t2 c1 b4.0 gate c5 gate \
            s5 s5 c5 t1 l1.1 c5 s5 gate l1.4 gate c5 s5",
    },
    List {
        k: 1,
        lanes: 4,
        events: "b7.3 s1 t0 c1 gate b2.2 run b1.3 gate b5.2 gate gate recall b4.1 g0 w5 s3 gate s1 s4 s3 gate run t0 gate c3 t0 \
            s3 g0 s1 c4 t0 s3 b2.3 s6 s3 s6 s1 g0 s1 s3 s6 s3 s6 s1 s1 t0 c3 s6 l0.3 g0 b6.1 b7.2 t0 g0 s8 s1 s7 c1 s8 t0 s1 \
            b5.0 l0.4 g0 b7.3 run seal t0 seal c7 c1",
    },
    List {
        k: 2,
        lanes: 4,
        events: "s1 b1.3 s1 t0 b0.1 b1.1 g0 c1 b7.0 b0.0 c3 t0 c1 l0.1 s1 l0.2 gate b7.2 run w3 l0.1 l0.3 c1 c5 g0 t0 gate l0.3 \
            w6 run gate s4 l0.2 l0.1 b6.3 b6.1 s7 s8 l0.4 g0 s2.7 c2 b3.3 t0 gate b3.2 c9 s4 g0 run b3.0 s9 c4 gate recall \
            gate c9 c10 t0 b2.0 s11 c10 seal s10 gate s12 s11 w10 l0.4 gate s11 s12",
    },
    List {
        k: 3,
        lanes: 4,
        events: "s1 c1 c0 run w1 b3.1 b4.1 b3.2 b6.1 c1 b2.2 s3 s4 c4 t0 l0.4 b4.0 l0.2 gate c3 s3 s1 b3.2 g0 t0 s4 s1 gate l0.2 \
            g0 t0 g0 s3 t0 s2 gate g0 c1 c3 s2 t0 s1 g0 gate t0 s4 g0 c3 t0 l0.4 l0.4 s4 s2 g0 b6.1 c4 gate run t0 gate s1 \
            gate b5.3 b1.3 s8 gate c1 t0 s3 b3.2 s3 s8",
    },
    List {
        k: 4,
        lanes: 4,
        events: "b2.1 b7.2 b1.3 c1 c1 t0 b0.2 b0.1 s1 g0 s1 c4 s3 t0 b2.2 s1 g0 c6 run s1 s4 s3 t0 t0 gate t0 gate l0.3 c3 g0 t0 \
            gate g0 s6 gate b1.2 c4 c4 s7 s6 s5 b1.3 s4 s4 b4.1 b6.2 gate c5 gate t0 g0 s4 s5 w6 t0 g0 c6 t0 gate l0.3 s9 g0 \
            t0 g0 t0 run s5 g0 t0 seal s5 s10",
    },
];
