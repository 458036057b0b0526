//! The number of a cell, or why it has none: a memoized function that may fail.
ghost use Rattle.std.specs.Prelude.{◌≡◌};
ghost use Rattle.comemo.specs.MeaningLaws.{output_laws};
ghost use Rattle.std.proofs.Common.{rules};
ghost use Rattle.comemo_sheet.specs.Plain.{plain_number};
ghost use Rattle.comemo_sheet.specs.PlainLaws.{plain_alike};
ghost use Rattle.comemo_sheet.specs.declared.sheet.SheetCall.TheVariants.{Cell};

use crate::sheet::{Content, Sheet, SheetCall};
use comemo::{Fault, Function, Recorder, Run};

/// Why a cell has no number of its own.
#[derive(Clone, Copy, Drop, Debug, PartialEq, Eq)]
pub enum NoNumber {
    /// The cell is empty.
    Nothing,
    /// It is the sum of other cells.
    Sum,
}

/// The number that a cell holds itself, or why it has none.
pub struct PlainNumber;

impl Function for PlainNumber {
    type Key = String;

    type Call = SheetCall;

    type Answer = Content;

    type Out = Result<i64, NoNumber>;

    ghost means = { λ name m out. out ≡ plain_number (m (Cell name)) };

    ghost laws = { output_laws (Prim.search rules) (Prim.search rules)
        (λ j k m r e. plain_alike (m (Cell j)) (m (Cell k)) (r (Cell j) (Cell k) e)) };
}

impl Run<Sheet, ()> for PlainNumber {
    fn run(
        name: &String,
        sheet: &mut Recorder<'_, Sheet>,
        _: &mut (),
    ) -> Result<Result<i64, NoNumber>, Fault> {
        let content = sheet.ask(SheetCall::Cell(name.clone()?))?;
        Ok(plain(&content))
    }
}

/// The number in a content, or why it has none.
fn plain(content: &Content) -> Result<i64, NoNumber>
    ensures { result ≡ plain_number content.now }
{
    match content {
        Content::Number(number) => Ok(*number),
        Content::Empty => Err(NoNumber::Nothing),
        Content::Sum(_) => Err(NoNumber::Sum),
    }
}
