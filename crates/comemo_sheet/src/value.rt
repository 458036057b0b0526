//! What the value of a cell is, by the cells that it refers to, and the sum of two values.
ghost use Rattle.std.specs.Prelude.{◌≡◌};
ghost use Rattle.comemo.specs.MeaningLaws.{output_laws};
ghost use Rattle.std.proofs.Common.{rules};
ghost use Rattle.comemo_sheet.specs.Values.{both, value_of};
ghost use Rattle.comemo_sheet.specs.ValueLaws.{value_alike};

use crate::row::add;
use crate::sheet::{Content, SheetCall};
use comemo::Function;

/// The value of a cell: its number, or the sum of the values of the cells that it refers to.
///
/// The key is a name and the depth up to which it goes. So it ends for cells that refer to each other in a circle:
/// their value is `None`.
pub struct Value;

impl Function for Value {
    type Key = (String, u64);

    type Call = SheetCall;

    type Answer = Content;

    type Out = Option<i64>;

    ghost means = { λ key m out. out ≡ value_of m key.1 key.0 };

    ghost laws = { output_laws (Prim.search rules) (Prim.search rules)
        (λ j k m r e. Prim.search (rules, value_alike m r j.1 j.0 k.0)) };
}

/// The sum of two values; `None` if one of them is.
pub fn sum(total: Option<i64>, value: Option<i64>) -> Option<i64>
    ensures { result ≡ both total value }
{
    match (total, value) {
        (Some(total), Some(value)) => Some(add(total, value)),
        _ => None,
    }
}
