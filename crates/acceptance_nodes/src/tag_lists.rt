// Lists as their callers meet them: they are joined of lists that fit in their link and of others, walked from both
// ends, changed and shortened.
use std::alloc::{AllocError, Global};
use std::process::Abort;
use std::test::Fail;
use tag_list::TagList;

// The handles count down from the greatest one, and the tags go round.
const MOST_HANDLE: u32 = 1_073_741_823;

fn pair(i: u32) -> (u32, u8) {
    (MOST_HANDLE.saturating_sub(i), (i % 4) as u8)
}

// The pairs from the first place on, joined of lists with so many.
fn joined(rt: &impl Abort, alloc: Global, lengths: &[u32]) -> Result<TagList, AllocError> {
    let mut list = TagList::new(alloc);
    for length in lengths {
        let mut piece = TagList::new(alloc);
        for _ in 0..*length {
            let (h, t) = pair(list.len() + piece.len());
            let fits = h < 1 << 30 && t < 4 && piece.len() < 1 << 30;
            assert!(rt; fits);
            piece.push(h, t)?;
        }
        let room = list.len() <= 1 << 29 && piece.len() <= 1 << 29;
        assert!(rt; room);
        list.join(piece);
    }
    Ok(list)
}

// From both ends at once, and by place, the pairs are those from the first place on.
fn is_whole(list: &TagList, len: u32) -> bool {
    let mut pairs = list.iter();
    for i in 0..len / 2 {
        if pairs.next() != Some(pair(i)) || pairs.next_back() != Some(pair(len - 1 - i)) {
            return false;
        }
    }
    pairs.next().is_some() == (len % 2 == 1)
        && pairs.next_back().is_none()
        && list.len() == len
        && (0..list.len()).all(|i| list.get(i) == pair(i))
}

#[test]
fn pairs_come_from_both_ends(rt: HostRuntime) -> Result<(), Fail> {
    let cases = [
        ("no pair", [].as_slice(), 0),
        ("two pairs, in their link", [2].as_slice(), 2),
        ("as many as a link has room for", [6].as_slice(), 6),
        ("one more", [7].as_slice(), 7),
        ("many more", [100].as_slice(), 100),
        ("an empty list joined", [2, 0].as_slice(), 2),
        (
            "lists in their links and others",
            [2, 7, 6, 20, 1].as_slice(),
            36,
        ),
        ("a thousand lists of one pair", [1; 1_000].as_slice(), 1_000),
    ];
    for (case, lengths, len) in cases {
        let mut list = joined(&rt, rt.alloc(), lengths)?;
        assert!(rt; is_whole(&list, len), "{case}");
        let middle = len / 2;
        if middle < list.len() {
            list.set_tag(middle, 3);
            assert_eq!(rt; list.get(middle), (pair(middle).0, 3), "{case}");
            list.set_tag(middle, (middle % 4) as u8);
            assert!(rt; is_whole(&list, len), "{case}, a tag set");
        }
        assert_eq!(rt; list.pop().is_some(), len > 0, "{case}");
        assert!(rt;
            is_whole(&list, len.saturating_sub(1)),
            "{case}, one popped"
        );
    }
    Ok(())
}
