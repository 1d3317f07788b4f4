ghost use Rattle.http_read.specs.OneItem.{HasOneItem, HasOneRest, HasSomeItem};

/// The bytes alone decide what stands at their front, and what is left behind a request: some answer
/// fits any bytes, and no two fit the same. It does nothing when it runs.
pub fn one_item()
    ensures some { HasSomeItem }
    ensures item { HasOneItem }
    ensures rest { HasOneRest }
{}
