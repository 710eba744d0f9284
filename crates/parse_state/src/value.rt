// What symbols and items answer. What they mean isn't known here.
use c_tree::Handle;
use sparse_model::NameId;
use tag_list::TagList;

/// What was read of a symbol or an item.
#[derive(Drop)]
pub enum Value {
    /// A token that was kept, by its index and its spelling; of the place of a token the spelling is the empty one.
    Word(u32, NameId),
    /// The tree of the node with this handle.
    Tree(Handle),
    /// Trees by their handles, each with the tag of its role.
    List(TagList),
}
