//! The value of a cell by the totals of ranges, and the total of a range by the values of cells: two functions that
//! call each other, each through its own cache.
ghost use Rattle.std.specs.Prelude.{◌≡◌, Some, pos};
ghost use Rattle.comemo.specs.MeaningLaws.{output_laws};
ghost use Rattle.std.proofs.Common.{rules};
ghost use Rattle.comemo.specs.Recursive.{TellsOwn};
ghost use Rattle.comemo.proofs.Texts.{texts_clone};
ghost use Rattle.comemo_sheet.specs.Values.{sum_of, value_of};
ghost use Rattle.comemo_sheet.specs.ValueLaws.{range_alike};

use crate::sheet::{Content, Sheet, SheetCall};
use crate::value::{Value, sum};
use comemo::internal::Told;
use comemo::{Begun, CacheData, Fault, Function, Hold, Recorder};

/// The cells of these names, and the limit on how deep their values go.
#[derive(Clone, Drop, Debug, PartialEq, Eq, Hash)]
pub struct Range {
    /// The names of the cells.
    pub names: Vec<String>,
    /// The limit.
    pub limit: u64,
}

/// The sum of the values of the cells of a range; `None` if one of them is.
///
/// It is kept once for all cells that refer to the range.
pub struct RangeTotal;

impl Function for RangeTotal {
    type Key = Range;

    type Call = SheetCall;

    type Answer = Content;

    type Out = Option<i64>;

    ghost means = { λ range m out.
        out ≡ sum_of (value_of m range.limit) (Some (pos 0)) range.names.items };

    ghost laws = { output_laws (Prim.search rules) (λ x y h. Prim.search (rules, texts_clone))
        (λ j k m r e. Prim.search (rules, range_alike m r j.limit j.names.items k.names.items)) };
}

/// The caches of both functions.
pub type Kept = (CacheData<Value>, CacheData<RangeTotal>);

/// The value of the cell of a name, through the caches, by the totals of ranges, up to a depth of `limit`.
#[cycle(ranging)]
pub fn ranged<H: Hold<Value>, G: Hold<RangeTotal>>(
    kept: &mut (H, G),
    name: String,
    limit: u64,
    of: &mut Recorder<'_, Sheet>,
) -> Result<Option<i64>, Fault>
    ensures { TellsOwn ⟦<Sheet as Told>⟧.fits of.old of.new result
        (λ value m. value ≡ value_of m limit name) }
{
    if limit == 0 {
        return Ok(None);
    }
    let key = (name, limit);
    let mut run = match of.begin(&mut kept.0, &key)? {
        Begun::Hit(value) => return Ok(value),
        Begun::Run(run) => run,
    };
    let content = run.recorder.ask(SheetCall::Cell(key.0.clone()?))?;
    let value = match content {
        Content::Empty => Some(0),
        Content::Number(number) => Some(number),
        Content::Sum(names) => {
            let limit = limit - 1;
            range_total(kept, Range { names, limit }, &mut run.recorder)?
        }
    };
    of.finish(&mut kept.0, &key, run, value)
}

/// The total of a range, through the caches, by the values of its cells.
#[cycle(ranging)]
pub fn range_total<H: Hold<Value>, G: Hold<RangeTotal>>(
    kept: &mut (H, G),
    range: Range,
    of: &mut Recorder<'_, Sheet>,
) -> Result<Option<i64>, Fault>
    ensures { TellsOwn ⟦<Sheet as Told>⟧.fits of.old of.new result
        (λ total m. total ≡ sum_of (value_of m range.limit) (Some (pos 0)) range.names.items) }
{
    let mut run = match of.begin(&mut kept.1, &range)? {
        Begun::Hit(total) => return Ok(total),
        Begun::Run(run) => run,
    };
    // The run's own recorder: what is asked through it is stored with the run.
    let recorder = &mut run.recorder;
    let mut total = Some(0);
    for name in &range.names {
        let value = ranged(kept, name.clone()?, range.limit, recorder)?;
        total = sum(total, value);
    }
    of.finish(&mut kept.1, &range, run, total)
}
