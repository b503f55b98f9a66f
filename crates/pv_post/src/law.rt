ghost use Rattle.pv_fields.specs.Reading.{ReadsBack};
ghost use Rattle.pv_post.specs.Spelling.{IsItem, item_bytes};

/// A law: no spelling of an item is a prefix of another's, so bytes begin with at most one item.
pub fn no_item_begins_another()
    ensures { ReadsBack IsItem item_bytes }
{}
