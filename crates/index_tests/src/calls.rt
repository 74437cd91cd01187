// Calls of an index, how a word tells one, and how a list of them is set beside a plain search.
ghost use Rattle.std.specs.Prelude.{◌≡◌, ◌≤◌, ◌<◌};
ghost use Rattle.index_tests.specs.Shape.{IsOf};

use crate::plain::Plain;
use conflict_index::Index;
use std::alloc::Global;
use std::test::Fail;

/// How often a call marked a lane that wasn't, and how many points stood after each call, over all calls.
#[derive(Clone, Copy, PartialEq, Debug)]
pub struct Came {
    pub marked: u64,
    pub stood: u64,
}

#[derive(Clone, Copy)]
enum Call {
    Read(u32, u32, u32),
    Write(u32, u32),
    Forget(u32),
    Settled,
}

impl Call {
    // The call that a word tells: `r0.3.1` that the lane 0 reads at 3 the item 1, `w1.2` that 1 writes 2, `f1` that 1 is
    // forgotten, `s` that the marks are settled.
    fn read(word: &str) -> Option<Call> {
        if word == "s" {
            return Some(Call::Settled);
        }
        let (letter, numbers) = word.split_at_checked(1)?;
        let Some((lane, rest)) = numbers.split_once('.') else {
            let lane = numbers.parse::<u32>().ok()?;
            return if letter == "f" {
                Some(Call::Forget(lane))
            } else {
                None
            };
        };
        let lane = lane.parse::<u32>().ok()?;
        let Some((position, item)) = rest.split_once('.') else {
            let item = rest.parse::<u32>().ok()?;
            return if letter == "w" {
                Some(Call::Write(lane, item))
            } else {
                None
            };
        };
        let position = position.parse::<u32>().ok()?;
        let item = item.parse::<u32>().ok()?;
        if letter == "r" {
            Some(Call::Read(lane, position, item))
        } else {
            None
        }
    }
}

/// The place of the first call of a list after which an index isn't as the plain search says.
pub fn first_wrong(alloc: Global, list: &str, came: &mut Came) -> Result<Option<usize>, Fail> {
    let Some((shape, calls)) = list.split_once(':') else {
        return Ok(Some(0));
    };
    let Some((items, lanes)) = shape.trim().split_once('.') else {
        return Ok(Some(0));
    };
    let (Ok(items), Ok(lanes)) = (items.parse::<u32>(), lanes.parse::<u32>()) else {
        return Ok(Some(0));
    };
    if items > 1024 || lanes < 1 || lanes > 64 {
        return Ok(Some(0));
    }
    let mut index = Index::open(alloc, items, lanes)?;
    let mut plain = Plain::new(alloc);
    goes_wrong(&mut index, &mut plain, items, lanes, calls, came)
}

// The place of the first call after which the index isn't right.
fn goes_wrong(
    index: &mut Index,
    plain: &mut Plain,
    items: u32,
    lanes: u32,
    calls: &str,
    came: &mut Came,
) -> Result<Option<usize>, Fail>
    requires { IsOf index.old items lanes }
{
    let mut place = 0usize;
    for word in calls.split_whitespace() {
        if !is_right_after(index, plain, items, lanes, word, came)? {
            return Ok(Some(place));
        }
        place = place.wrapping_add(1);
    }
    Ok(None)
}

// Makes a call. Whether the index is right after it.
fn is_right_after(
    index: &mut Index,
    plain: &mut Plain,
    items: u32,
    lanes: u32,
    word: &str,
    came: &mut Came,
) -> Result<bool, Fail>
    requires { IsOf index.old items lanes }
    ensures { IsOf index.new items lanes }
{
    let Some(call) = Call::read(word) else {
        return Ok(false);
    };
    let before = plain.points(lanes)?;
    if !does(index, items, lanes, call) {
        return Ok(false);
    }
    happens(plain, call)?;
    let after = plain.points(lanes)?;
    marks(plain, lanes, &before, &after, came)?;
    Ok(is_right(index, plain, items, lanes, came))
}

// Makes the call of the index, if it is one of its lanes and items.
fn does(index: &mut Index, items: u32, lanes: u32, call: Call) -> bool
    requires { IsOf index.old items lanes }
    ensures { IsOf index.new items lanes }
{
    match call {
        Call::Read(lane, position, item) if lane < lanes && item < items => {
            index.note_read(lane, position, item);
            true
        }
        Call::Write(lane, item) if lane < lanes && item < items => {
            index.note_write(lane, item);
            true
        }
        Call::Forget(lane) if lane < lanes => {
            index.forget(lane);
            true
        }
        Call::Settled => {
            index.settled();
            true
        }
        _ => false,
    }
}

fn happens(plain: &mut Plain, call: Call) -> Result<(), Fail> {
    match call {
        Call::Read(lane, position, item) => plain.note_read(lane, position, item)?,
        Call::Write(lane, item) => plain.note_write(lane, item)?,
        Call::Forget(lane) => plain.forget(lane)?,
        Call::Settled => plain.settled(),
    }
    Ok(())
}

// Marks each lane of which a point is another one now.
fn marks(
    plain: &mut Plain,
    lanes: u32,
    before: &[Option<u32>],
    after: &[Option<u32>],
    came: &mut Came,
) -> Result<(), Fail> {
    let width = (lanes as usize).wrapping_sub(1);
    let mut place = 0usize;
    for lane in 0..lanes {
        for _ in 0..width {
            if before.get(place) != after.get(place) && plain.mark(lane)? {
                came.marked = came.marked.wrapping_add(1);
            }
            place = place.wrapping_add(1);
        }
    }
    Ok(())
}

// Whether each point and each mark is as the plain search says.
fn is_right(index: &Index, plain: &Plain, items: u32, lanes: u32, came: &mut Came) -> bool
    requires { IsOf index.now items lanes }
{
    for reader in 0..lanes {
        if index.changed(reader) != plain.is_marked(reader) {
            return false;
        }
        for writer in 0..lanes {
            if reader != writer {
                let point = index.point_of(reader, writer);
                if point != plain.point_of(reader, writer) {
                    return false;
                }
                if point.is_some() {
                    came.stood = came.stood.wrapping_add(1);
                }
            }
        }
    }
    true
}
