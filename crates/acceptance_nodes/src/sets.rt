// Sets as their callers meet them: they grow, and are joined and compared.
use number_sets::{NumberSets, SetId};
use std::alloc::AllocError;
use std::process::Abort;
use std::test::Fail;

/// Numbers at the edges of the halves, for which each set is asked.
const ASKED: [u32; 8] = [
    0,
    1,
    2,
    3,
    536_870_911,
    536_870_912,
    1_073_741_822,
    1_073_741_823,
];

fn set_of(rt: &impl Abort, sets: &mut NumberSets, numbers: &[u32]) -> Result<SetId, AllocError> {
    let mut set = sets.empty();
    for number in numbers {
        let fits = sets.is_set(set) && *number < 1 << 30;
        assert!(rt; fits);
        set = sets.with(set, *number)?;
    }
    Ok(set)
}

// The union and the intersection.
fn both_of(
    rt: &impl Abort,
    sets: &mut NumberSets,
    set: SetId,
    other: SetId,
) -> Result<(SetId, SetId), AllocError> {
    let known = sets.is_set(set) && sets.is_set(other);
    assert!(rt; known);
    let union = sets.union(set, other)?;
    let known = sets.is_set(set) && sets.is_set(other);
    assert!(rt; known);
    Ok((union, sets.intersection(set, other)?))
}

// Of the numbers that are asked for, the set has these and no others.
fn is_exactly(rt: &impl Abort, sets: &NumberSets, set: SetId, numbers: &[u32]) -> bool {
    let known = sets.is_set(set);
    assert!(rt; known);
    for number in ASKED {
        if sets.contains(set, number) != numbers.contains(&number) {
            return false;
        }
    }
    true
}

#[test]
fn sets_have_their_numbers(rt: HostRuntime) -> Result<(), Fail> {
    let none = [].as_slice();
    let cases = [
        ("no number", none, none, none, none),
        ("the least", [0].as_slice(), none, [0].as_slice(), none),
        (
            "the greatest, beside the least",
            [0].as_slice(),
            [1_073_741_823].as_slice(),
            [0, 1_073_741_823].as_slice(),
            none,
        ),
        (
            "neighbours",
            [1, 536_870_912].as_slice(),
            [536_870_911, 2].as_slice(),
            [1, 2, 536_870_911, 536_870_912].as_slice(),
            none,
        ),
        (
            "one in common",
            [1_073_741_823, 0, 536_870_912].as_slice(),
            [1, 536_870_912, 1].as_slice(),
            [0, 1, 536_870_912, 1_073_741_823].as_slice(),
            [536_870_912].as_slice(),
        ),
        (
            "one within the other",
            [3, 2, 1, 0].as_slice(),
            [0, 3].as_slice(),
            [0, 1, 2, 3].as_slice(),
            [0, 3].as_slice(),
        ),
    ];
    let mut sets = NumberSets::new(rt.alloc());
    for (case, left, right, either, both) in cases {
        let set = set_of(&rt, &mut sets, left)?;
        let other = set_of(&rt, &mut sets, right)?;
        let (union, intersection) = both_of(&rt, &mut sets, set, other)?;
        let kept = is_exactly(&rt, &sets, set, left) && is_exactly(&rt, &sets, other, right);
        let made = is_exactly(&rt, &sets, union, either)
            && is_exactly(&rt, &sets, intersection, both);
        assert!(rt; kept && made, "{case}");
    }
    Ok(())
}
