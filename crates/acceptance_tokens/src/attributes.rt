// One list with an attribute of each kind, an item, and a context statement, with what each of them means.
use c_attrs::{Attribute, Attrs, context_change, read_attrs, read_item};
use c_tokens::{Names, lex};
use sparse_model::{ContextEntry, Space};
use std::test::Fail;

#[test]
fn lists_items_and_changes_are_read(rt: HostRuntime) -> Result<(), Fail> {
    let mut names = Names::new(rt.alloc())?;
    let mut attrs = Attrs::new(rt.alloc());
    let list =
        b"noderef, __address_space__(__user), context(x, 0, 1), aligned(8), bitwise, force, packed, noreturn";
    let tokens = lex(rt.alloc(), &mut names, 1, list)?;
    read_attrs(rt.alloc(), &names, tokens.as_slice(), &mut attrs)?;
    let user = names.intern(b"__user")?;
    assert_eq!(rt; attrs.space, Space::Named(user));
    assert!(rt; attrs.noderef && attrs.bitwise && attrs.force && attrs.packed && attrs.noreturn);
    assert_eq!(rt;
        attrs.contexts.as_slice(),
        [ContextEntry {
            enters: 0,
            leaves: 1
        }]
        .as_slice()
    );
    assert_eq!(rt; attrs.align, Some(8));

    let item = lex(rt.alloc(), &mut names, 1, b"aligned(16)")?;
    assert_eq!(rt;
        read_item(&names, item.as_slice()),
        Some(Attribute::Align(16))
    );

    let statement = lex(rt.alloc(), &mut names, 1, b"x, -1")?;
    assert_eq!(rt; context_change(&names, statement.as_slice()), Ok(-1));
    Ok(())
}
