//! The laws of the format. Each function does nothing: its contract is the law.
ghost use Rattle.index_file.specs.Laws.{BytesAreOfOneIndex, IndexesHaveTheirSize, TracedIndexesHaveTheirSize, WhatIsReadIsAnIndex};

/// Bytes without fault are the layout of exactly one well formed index, with vias or without, so what `encode` or `encode_via` gave
/// reads back as the index.
pub fn bytes_are_of_one_index()
    ensures { BytesAreOfOneIndex }
{}

/// What any list of numbers is read as, whether they are bytes or not, is well formed, and its vias may stand beside its rows.
pub fn what_is_read_is_an_index()
    ensures { WhatIsReadIsAnIndex }
{}

/// The file of an index with n nodes and e entries has 12 + 8 n + 12 e bytes.
pub fn an_index_has_its_size()
    ensures { IndexesHaveTheirSize }
{}

/// With a via for each entry it has 12 + 8 n + 16 e bytes.
pub fn a_traced_index_has_its_size()
    ensures { TracedIndexesHaveTheirSize }
{}
