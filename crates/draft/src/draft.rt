// A draft, which holds one script.
ghost use Rattle.std.specs.Prelude.{◌≡◌, [], length};
ghost use Rattle.language.specs.Syntax.{Script};
ghost use Rattle.draft.specs.Items.{items, items_of, text_of};
ghost use Rattle.draft.specs.Origin.{WasRead};

use crate::table::Table;

// A draft that exists holds the empty script or one that was read; it cannot be copied, so that it is spent once.
#[derive(Drop)]
pub struct Draft {
    pub table: Table,
    ghost held: { ∥ ((s : Script) × (items table ≡ items_of s) × WasRead s) ∥₁ },
}

impl Draft {
    // The empty draft holds the empty script.
    pub fn new() -> Draft
        ensures items { items result.table ≡ items_of [] }
        ensures text { text_of result.table ≡ [] }
        ensures length { length result.table.text.items ≡ 0 }
    {
        Draft {
            table: Table::new(),
        }
    }
}
