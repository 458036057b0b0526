//! The total of a row of cells: a memoized function that asks in a loop.
ghost use Rattle.std.specs.Prelude.{◌≡◌};
ghost use Rattle.comemo.specs.MeaningLaws.{output_laws};
ghost use Rattle.std.proofs.Common.{rules};
ghost use Rattle.comemo_sheet.specs.Totals.{plus, total_of};
ghost use Rattle.comemo_sheet.specs.TotalLaws.{total_alike};
ghost use Rattle.comemo.proofs.Texts.{texts_clone};

use crate::sheet::{Content, Sheet, SheetCall};
use comemo::{Fault, Function, Recorder, Run};

/// The sum of the numbers that the cells of these names hold, which wraps at 64 bits.
pub struct RowTotal;

impl Function for RowTotal {
    type Key = Vec<String>;

    type Call = SheetCall;

    type Answer = Content;

    type Out = i64;

    ghost means = { λ names m out. out ≡ total_of m names.items };

    ghost laws = { output_laws (Prim.search rules) (λ x y h. texts_clone x.items y.items h.0)
        (λ j k m r e. total_alike m r j.items k.items e) };
}

impl Run<Sheet, ()> for RowTotal {
    fn run(names: &Vec<String>, sheet: &mut Recorder<'_, Sheet>, _: &mut ()) -> Result<i64, Fault> {
        let mut total: i64 = 0;
        for name in names {
            let content = sheet.ask(SheetCall::Cell(name.clone()?))?;
            total = add(total, content.number());
        }
        Ok(total)
    }
}

/// The sum of two numbers, which wraps at 64 bits.
pub fn add(total: i64, number: i64) -> i64
    ensures { result ≡ plus total number }
{
    total.wrapping_add(number)
}
