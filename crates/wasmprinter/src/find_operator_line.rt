//! Finding the line of an operator in printed text.
ghost use Rattle.std.specs.Prelude.{◌≡◌};
ghost use Rattle.wasmprinter_spec.specs.Lines as spec;
ghost use Rattle.wasmprinter_spec.specs.Lines.{line_from};
ghost use Rattle.wasmprinter.specs.Found.{place_at, text_lines, IsAtItsLine, FindsItsLine};

use wasmprinter_decoder::Module;
use wasmprinter_ops::expression::OperatorsReader;

/// Returns the number of an operator's line, an index into `lines`, and the operator's place, a byte offset from
/// the start of the module.
///
/// `function` counts from 0 the functions that the module defines, without imports. `operator` counts from 0 the
/// operators that `Body::operators` returns, so not the last `end`. The returned line begins with the operator's place
/// (`at`). If several lines do, it is the first of them (`exact`).
///
/// Returns `None` if the function or the operator does not exist, or if no line begins with the operator's place
/// (`exact`). Every operator is found in the complete lines that `Config::offsets_and_lines` returned for this module,
/// if `skeleton` and folding were off. The returned line is then the only one with the operator's place (`finds`).
///
/// With a module `IDENTITY` whose only function returns its parameter:
///
/// ```
/// let mut storage = String::new(rt.alloc());
/// let text = Config::new().offsets_and_lines(rt.alloc(), IDENTITY, &mut storage)?;
/// let lines: Vec<(Option<u64>, &str)> = text.collect(rt.alloc())?;
/// let module = decode(rt.alloc(), IDENTITY)?;
/// assert!(rt; place_of(&module, &lines, 0, 0) == Some((4, 0x20)));
/// ```
pub fn place_of(
    module: &Module<'_>,
    lines: &[(Option<u64>, &str)],
    function: u32,
    operator: u32,
) -> Option<(usize, u64)>
    ensures exact { result ≡ spec.place_of «module».now (text_lines lines.now) function operator }
    ensures at { IsAtItsLine «module».now (text_lines lines.now) function operator result }
    ensures finds { FindsItsLine «module».now (text_lines lines.now) function operator result }
{
    find(module, lines, function, operator)
}

/// Returns the line and the place that the definitions give.
fn find(
    module: &Module<'_>,
    lines: &[(Option<u64>, &str)],
    function: u32,
    operator: u32,
) -> Option<(usize, u64)>
    ensures { result ≡ spec.place_of «module».now (text_lines lines.now) function operator }
{
    let body = module.body(function)?;
    let place = operator_place(body.operators(), operator)?;
    let number = line_number(lines, place)?;
    Some((number, place))
}

/// Returns the place of the operator with the number `number`.
fn operator_place(operators: OperatorsReader<'_>, number: u32) -> Option<u64>
    ensures { result ≡ place_at operators.entry number }
{
    let mut left = number;
    for (place, _) in operators {
        if left == 0 {
            return Some(place);
        }
        left -= 1;
    }
    None
}

/// Returns the number of the first line with the place.
fn line_number(lines: &[(Option<u64>, &str)], place: u64) -> Option<usize>
    ensures { result ≡ line_from 0 place (text_lines lines.now) }
{
    for number in 0..lines.len() {
        if has_place(lines[number].0, place) {
            return Some(number);
        }
    }
    None
}

/// Reports whether a line begins with the place.
fn has_place(start: Option<u64>, place: u64) -> bool
    ensures { result ≡ spec.has_place place start }
{
    match start {
        Some(start) => start == place,
        None => false,
    }
}
