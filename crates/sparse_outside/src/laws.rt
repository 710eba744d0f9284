// What holds of loads and puts wherever they were made.
ghost use Rattle.sparse_outside.specs.Laws.{LoadLeavesBuffer, ToldBytesWereTaken, ToldMapAgrees};

/// A told map agrees with every load.
pub fn told_map_agrees()
    ensures { ToldMapAgrees }
{}

/// A load leaves the buffer empty or with a whole file of no more than was asked for, whether a map is told
/// or not.
pub fn load_leaves_buffer()
    ensures { LoadLeavesBuffer }
{}

/// Where what was written is told, it grew in a put by what the put says it took.
pub fn told_bytes_were_taken()
    ensures { ToldBytesWereTaken }
{}
