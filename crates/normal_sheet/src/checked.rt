// A sheet whose numbers are all in their ranges.
ghost use Rattle.std.specs.Prelude.{◌≡◌, true};
ghost use Rattle.normal_sheet.specs.Ranges.{in_order};

use crate::sheet::NormalSheet;

#[derive(Clone, Copy)]
pub struct CheckedSheet {
    pub sheet: NormalSheet,
    ghost checked: { in_order sheet ≡ true },
}
