// Regions as their callers meet them: they are filled, joined, written, released and dropped.
use region_alloc::{Mark, Region};
use std::alloc::{AllocError, Global};
use std::cell::Cell;
use std::process::Abort;
use std::test::Fail;

// Which values were made, and how often each was dropped, in hexadecimal digits: each value has its own.
#[derive(Drop)]
struct Counts {
    made: Cell<u64>,
    dropped: Cell<u64>,
}

// A value that counts one more at its digit where it is dropped.
struct Counted<'a> {
    digit: u64,
    counts: &'a Counts,
}

impl<'a> Counted<'a> {
    fn new(digit: u64, counts: &'a Counts) -> Counted<'a> {
        counts.made.set(counts.made.get().saturating_add(digit));
        Counted { digit, counts }
    }
}

impl Drop for Counted<'_> {
    fn drop(self) {
        let Counted { digit, counts } = self;
        counts
            .dropped
            .set(counts.dropped.get().saturating_add(digit));
    }
}

// A refused value comes back, and is dropped here.
fn add<T: Drop>(rt: &impl Abort, region: &mut Region<T>, v: T) -> Result<(), AllocError> {
    let room = region.len() < 1 << 30;
    assert!(rt; room);
    match region.put(v) {
        Ok(_) => Ok(()),
        Err((error, _)) => Err(error),
    }
}

fn absorb<T>(rt: &impl Abort, region: &mut Region<T>, other: Region<T>) -> u32 {
    let room = region.len() <= 1 << 29 && other.len() <= 1 << 29;
    assert!(rt; room);
    region.absorb(other)
}

fn release<T: Drop>(rt: &impl Abort, region: &mut Region<T>, mark: Mark) {
    assert!(rt; mark.len <= region.len());
    region.release(mark);
}

// What is done with counted values, and which are left then, and how often each has been dropped.
struct Row {
    case: &'static str,
    put: &'static [u64],
    absorbed: &'static [u64],
    // the place that is written over, and the value that comes there
    over: Option<(u32, u64)>,
    mark: Option<u32>,
    left: &'static [u64],
    dropped: u64,
}

#[rattlefmt::skip]
const ROWS: [Row; 12] = [
    Row { case: "nothing is dropped before its end", put: &[0x1, 0x10], absorbed: &[], over: None, mark: None, left: &[0x1, 0x10], dropped: 0 },
    Row { case: "a release drops what came after the mark", put: &[0x1, 0x10, 0x100, 0x1000, 0x10000], absorbed: &[], over: None, mark: Some(1), left: &[0x1], dropped: 0x11110 },
    Row { case: "an empty region absorbs", put: &[], absorbed: &[0x1, 0x10], over: None, mark: None, left: &[0x1, 0x10], dropped: 0 },
    Row { case: "and releases", put: &[], absorbed: &[0x1, 0x10], over: None, mark: Some(1), left: &[0x1], dropped: 0x10 },
    Row { case: "an empty region is absorbed", put: &[0x1, 0x10, 0x100], absorbed: &[], over: None, mark: Some(0), left: &[], dropped: 0x111 },
    Row { case: "a region ends behind an absorb", put: &[0x1, 0x10, 0x100], absorbed: &[0x1000, 0x10000], over: None, mark: None, left: &[0x1, 0x10, 0x100, 0x1000, 0x10000], dropped: 0 },
    Row { case: "a release sheds a part of a vector", put: &[0x1, 0x10, 0x100], absorbed: &[0x1000, 0x10000], over: None, mark: Some(4), left: &[0x1, 0x10, 0x100, 0x1000], dropped: 0x10000 },
    Row { case: "a whole vector", put: &[0x1, 0x10], absorbed: &[0x100, 0x1000], over: None, mark: Some(2), left: &[0x1, 0x10], dropped: 0x1100 },
    Row { case: "and a part of the one before it", put: &[0x1, 0x10], absorbed: &[0x100, 0x1000], over: None, mark: Some(1), left: &[0x1], dropped: 0x1110 },
    Row { case: "all vectors", put: &[0x1, 0x10], absorbed: &[0x100, 0x1000], over: None, mark: Some(0), left: &[], dropped: 0x1111 },
    Row { case: "a write drops the old value, and the region ends parted", put: &[0x1, 0x10], absorbed: &[0x100, 0x1000], over: Some((2, 0x10000)), mark: None, left: &[0x1, 0x10, 0x10000, 0x1000], dropped: 0x100 },
    Row { case: "a parted region sheds the value that was written", put: &[0x1, 0x10], absorbed: &[0x100, 0x1000], over: Some((3, 0x10000)), mark: Some(3), left: &[0x1, 0x10, 0x100], dropped: 0x11000 },
];

// A region of values with these digits. Where memory is wanting, those that came before are dropped with it.
fn counted_region<'a>(
    rt: &impl Abort,
    alloc: Global,
    digits: &[u64],
    counts: &'a Counts,
) -> Result<Region<Counted<'a>>, AllocError> {
    let mut region = Region::new(alloc);
    for digit in digits {
        add(rt, &mut region, Counted::new(*digit, counts))?;
    }
    Ok(region)
}

fn do_row(rt: &impl Abort, alloc: Global, row: &Row, counts: &Counts) -> Result<(), AllocError> {
    let case = row.case;
    let mut region = counted_region(rt, alloc, row.put, counts)?;
    let other = counted_region(rt, alloc, row.absorbed, counts)?;
    assert_eq!(rt;
        absorb(rt, &mut region, other) as usize,
        row.put.len(),
        "{case}"
    );
    if let Some((place, digit)) = row.over {
        assert!(rt; place < region.len());
        *region.get_mut(place) = Counted::new(digit, counts);
    }
    if let Some(len) = row.mark {
        release(rt, &mut region, Mark { len });
    }
    assert_eq!(rt; counts.dropped.get(), row.dropped, "{case}");
    assert_eq!(rt; region.len() as usize, row.left.len(), "{case}");
    for h in 0..region.len() {
        assert_eq!(rt;
            Some(&region.get(h).digit),
            row.left.get(h as usize),
            "{case}"
        );
    }
    Ok(())
}

// A region of many links, each of one value.
fn chain(rt: &impl Abort, alloc: Global, links: u32) -> Result<Region<u32>, AllocError> {
    let mut region = Region::new(alloc);
    for v in 0..links {
        let mut link = Region::new(alloc);
        add(rt, &mut link, v)?;
        assert_eq!(rt; absorb(rt, &mut region, link), v);
    }
    Ok(region)
}

// A chain of a thousand links is written in its middle, grows, and goes back.
fn write_in_a_chain(rt: &impl Abort, alloc: Global) -> Result<(), AllocError> {
    let mut region = chain(rt, alloc, 1_000)?;
    assert_eq!(rt; region.len(), 1_000);
    *region.get_mut(500) = 7;
    let mark = region.mark();
    add(rt, &mut region, 1_000)?;
    assert_eq!(rt; region.len(), 1_001);
    *region.get_mut(501) = 8;
    release(rt, &mut region, mark);
    assert_eq!(rt; region.len(), 1_000);
    for h in 0..region.len() {
        let want = match h {
            500 => 7,
            501 => 8,
            _ => h,
        };
        assert_eq!(rt; *region.get(h), want, "at {h}");
    }
    Ok(())
}

#[test]
fn regions_keep_their_values_in_order(rt: HostRuntime) -> Result<(), Fail> {
    for row in &ROWS {
        let counts = Counts {
            made: Cell::new(0),
            dropped: Cell::new(0),
        };
        let ended = do_row(&rt, rt.alloc(), row, &counts);
        // Each value that was made is dropped once, also where memory is wanting.
        assert_eq!(rt;
            counts.dropped.get(),
            counts.made.get(),
            "{}: at the end",
            row.case
        );
        ended?;
    }
    write_in_a_chain(&rt, rt.alloc())?;
    let long = chain(&rt, rt.alloc(), 100_000)?;
    assert_eq!(rt; long.len(), 100_000);
    drop(long);
    Ok(())
}
