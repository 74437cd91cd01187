// The shadows that plain walks ask for.
use block_rule::{Role, Standing};
use plain_walk::Walk;
use shadow_forest::{Forest, ShadowView};

/// A started transaction, and the walk to where its optimistic shadow stands.
#[derive(Drop)]
pub struct Reader {
    pub txn: u32,
    pub walk: Walk,
}

/// Whether each of these, which are all that are started, has exactly the shadows that it wants, and they stand as they may.
pub fn are_wanted(forest: &Forest, readers: &[Reader]) -> bool {
    for reader in readers {
        if !is_optimistic(forest, reader) || !has_wanted(forest, readers, reader) {
            return false;
        }
    }
    true
}

fn is_optimistic(forest: &Forest, reader: &Reader) -> bool {
    let wanted = if reader.walk.cut {
        Standing::Runnable
    } else {
        Standing::Ended
    };
    match forest.shadow(reader.txn, 0) {
        Some(view) => {
            view.role == Role::Optimistic && view.point.is_none() && view.standing == wanted
        }
        None => false,
    }
}

// Whether the guards and points are the first in order, as many as may be.
fn has_wanted(forest: &Forest, readers: &[Reader], reader: &Reader) -> bool {
    let mut last = None;
    for place in 1..forest.k() {
        let next = next_conflict(readers, reader, last);
        if !is_held(forest.shadow(reader.txn, place), next) {
            return false;
        }
        if next.is_none() {
            return true;
        }
        last = next;
    }
    true
}

// Whether a shadow is there exactly where there is a conflict, with its guard and its point, and stands as it may.
fn is_held(shadow: Option<ShadowView<'_>>, conflict: Option<(u32, u32)>) -> bool {
    match (shadow, conflict) {
        (None, None) => true,
        (Some(view), Some((point, guard))) => {
            let wanted = if view.position < point {
                Standing::Runnable
            } else {
                Standing::Blocked
            };
            view.role == Role::Guard(guard)
                && view.point == Some(point)
                && view.position <= point
                && view.standing == wanted
        }
        _ => false,
    }
}

// The first conflict after another one, by point and guard.
fn next_conflict(
    readers: &[Reader],
    reader: &Reader,
    last: Option<(u32, u32)>,
) -> Option<(u32, u32)> {
    let mut best = None;
    for other in readers {
        match point(&reader.walk, &other.walk) {
            Some(at) if other.txn != reader.txn && is_after((at, other.txn), last) => {
                best = Some(first(best, (at, other.txn)));
            }
            _ => {}
        }
    }
    best
}

fn is_after(new: (u32, u32), last: Option<(u32, u32)>) -> bool {
    match last {
        None => true,
        Some(old) => is_before(old, new),
    }
}

fn first(best: Option<(u32, u32)>, new: (u32, u32)) -> (u32, u32) {
    match best {
        None => new,
        Some(old) => { if is_before(new, old) { new } else { old } }
    }
}

fn is_before(a: (u32, u32), b: (u32, u32)) -> bool {
    a.0 < b.0 || (a.0 == b.0 && a.1 < b.1)
}

// The position of the first read of what the other one has written.
fn point(reader: &Walk, writer: &Walk) -> Option<u32> {
    for read in reader.reads.as_slice() {
        if writer
            .writes
            .get(read.1 as usize)
            .copied()
            .flatten()
            .is_some()
        {
            return Some(read.0);
        }
    }
    None
}
