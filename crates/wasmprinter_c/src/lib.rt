//! The printer of WebAssembly modules for C, and for languages that call C functions. `include/wasmprinter.h` declares
//! the exported functions, and wraps them.
//!
//! No function keeps anything between calls, and none takes a lock.
#![tactic(auto)]

ghost use Rattle.std.specs.Prelude.{◌≡◌, ◌↔◌, ◌<◌, ◌≤◌, ℕ, List, IsTrue, OnOk, OnErr, IfOk, IfErr, IsErrOf, codes, length};
ghost use Rattle.wasmprinter_spec.specs.Binary.{IsComponent};
ghost use Rattle.wasmprinter_spec.specs.Binary.Limits.{has_bit as bit_of};
ghost use Rattle.wasmprinter_c.specs.Over.{over};
ghost use Rattle.wasmprinter_c.specs.Messages.{message};
ghost use Rattle.wasmprinter_c.specs.Omitted.{IsListOf};
ghost use Rattle.wasmprinter_c.specs.Printing.{options_of, request, request_of, unknown_bits, HasUnknownBit, buffers, HasEventsOver};
ghost use Rattle.wasmprinter_c.specs.Refused.{number_of, detail_in, IsCopied, IsBufferRefusal, LeavesBuffer};
ghost use Rattle.wasmprinter_c.specs.Outcomes.{IsOutcome, outcome_with, StoresOnlyDetail};
ghost use Rattle.wasmprinter_c.specs.Statuses.{option_status, library_version, library_revision};

mod buffer_and_event_printer;
mod omitted_names;
mod status_messages;
mod status_of_error;

use buffer_and_event_printer::Copier;
pub use buffer_and_event_printer::WasmprinterEvent;
use omitted_names::cut_place;
use status_messages::describe;
use status_of_error::{BAD_INDENT, BAD_LIST, PRINTED, UNKNOWN_OPTION, detail_of, status_of};
use std::alloc::{AllocError, Global};
use wasmprinter::{Config, Error};
use wasmprinter_decoder::is_component;

/// The version of the library: the major number times 1,000,000, plus the minor number times 1,000, plus the patch
/// number.
const VERSION: u32 = 263_000;

/// The number N of the release 0.263.0-rN.
const REVISION: u32 = 1;

/// The default text of one level of nesting.
const DEFAULT_INDENT: &str = "  ";

/// The bit of the flags for [`Config::print_offsets`].
const OFFSETS: u32 = 0;

/// The bit of the flags for [`Config::print_skeleton`].
const SKELETON: u32 = 1;

/// The bit of the flags for [`Config::name_unnamed`].
const NAME_UNNAMED: u32 = 2;

/// The bit of the flags for [`Config::fold_instructions`].
const FOLD: u32 = 3;

/// The bit of the flags for a table of all events.
const EVENTS: u32 = 4;

/// The least flags that choose an unknown option: a power of two. Each bit from this one on is unknown.
const FIRST_UNKNOWN: u32 = 32;

/// The lengths that printing stores, and the detail of an error.
#[repr(C)]
pub struct WasmprinterResult {
    /// The length of the whole text in bytes, or 0 after an error.
    pub length: usize,
    /// The number of all events, or of the lines alone, or 0 after an error.
    pub count: usize,
    /// The place, the count, the id or the bits of an error, or 0 if it has none.
    pub detail: u64,
}

/// What the caller of a function that prints asks for.
#[derive(Clone, Copy)]
struct Request<'a> {
    /// The bits that choose options.
    flags: u32,
    /// The text of one level of nesting. It may be no UTF-8.
    indent: &'a [u8],
    /// The greatest length of the text in bytes.
    limit: usize,
    /// The list of the names of custom sections to leave out. It may be cut off.
    omitted: &'a [u8],
}

/// The result of a call.
#[derive(Clone, Copy)]
struct Outcome {
    /// 0, or the number of the error.
    status: u32,
    /// The length of the text in bytes, or 0 after an error.
    length: usize,
    /// The number of its events, or 0 after an error.
    count: usize,
    /// The detail of the error, or 0 if it has none.
    detail: u64,
}

/// The extent of a printed text.
#[derive(Clone, Copy)]
struct Extent {
    /// The length of the text in bytes.
    length: usize,
    /// The number of its events.
    count: usize,
}

/// Returns whether the bit of the flags is set. Bit 0 is the lowest.
fn has_bit(flags: u32, bit: u32) -> bool
    requires { bit < 32 }
    ensures { result ≡ bit_of bit flags }
{
    flags >> bit & 1 == 1
}

/// Returns whether this is the default indent.
fn is_default(indent: &str) -> bool
    ensures { IsTrue result ↔ (indent.now ≡ codes "  ") }
{
    indent == DEFAULT_INDENT
}

/// Returns the options that the flags choose as a `Config`, with the default indent.
fn config_of(flags: u32) -> Config
    ensures { result ≡ options_of flags (codes "  ") }
{
    let mut config = Config::new();
    config
        .print_offsets(has_bit(flags, OFFSETS))
        .print_skeleton(has_bit(flags, SKELETON))
        .name_unnamed(has_bit(flags, NAME_UNNAMED))
        .fold_instructions(has_bit(flags, FOLD));
    config
}

/// Returns the options that the flags choose as a `Config`, with a copy of an indent. The default indent is not
/// copied. Returns an error if an allocation failed.
fn indented(alloc: Global, flags: u32, indent: &str) -> Result<Config, AllocError>
    ensures options_of { IfOk result (λ config. config ≡ options_of flags indent.now) }
    ensures copied { OnErr result (IsCopied indent.now) }
{
    let mut config = config_of(flags);
    if !is_default(indent) {
        config.indent_text(String::from_str(alloc, indent)?);
    }
    Ok(config)
}

/// Prints a module to a printer over a buffer, to which nothing was printed before. The text has at most as many bytes
/// as the printer's limit. It has no custom section whose name is in the printer's list, if that is a list of names.
fn print_to(
    alloc: Global,
    config: &Config,
    wasm: &[u8],
    copier: &mut Copier<'_>,
) -> Result<(), Error>
    requires no_text { copier.old.written ≡ 0 }
    requires no_event { copier.old.count ≡ 0 }
    ensures same_buffer { copier.new.out.ghost_name ≡ copier.old.out.ghost_name }
    ensures same_table { copier.new.table.ghost_name ≡ copier.old.table.ghost_name }
    ensures printed { (names : List (List ℕ)) → IsListOf names copier.old.omitted.now
        → OnOk result (HasEventsOver (request config.now copier.old.all_events copier.old.limit copier.old.omitted.now) wasm.now
        (buffers copier.old.out.now copier.new.out.now copier.old.table.now copier.new.table.now)
        copier.new.written copier.new.count) }
    ensures refused { (names : List (List ℕ)) → IsListOf names copier.old.omitted.now
        → IfErr result (IsBufferRefusal names config.now wasm.now copier.old.limit) }
    ensures left { (names : List (List ℕ)) → IsListOf names copier.old.omitted.now
        → IfErr result (λ e. LeavesBuffer names config.now wasm.now copier.old.limit e copier.old.out.now copier.new.out.now) }
    ensures component { IsErrOf result Error.Component ↔ IsComponent wasm.now }
{
    config.print(alloc, wasm, copier)
}

/// Prints the first bytes and the first events, as many as fit, and returns the length and the number of events of
/// the whole text. Returns an error if the text has more bytes than the limit. Of the request, only the choice of events,
/// the limit and the list of names are read.
fn print_over(
    alloc: Global,
    config: &Config,
    wasm: &[u8],
    asked: Request<'_>,
    out: &mut [u8],
    table: &mut [WasmprinterEvent],
) -> Result<Extent, Error>
    ensures printed { (names : List (List ℕ)) → IsListOf names asked.entry.omitted.now → IfOk result (λ x.
        HasEventsOver (request config.now (bit_of 4 asked.entry.flags) asked.entry.limit asked.entry.omitted.now) wasm.now
        (buffers out.old out.new table.old table.new) x.length x.count) }
    ensures refused { (names : List (List ℕ)) → IsListOf names asked.entry.omitted.now
        → IfErr result (IsBufferRefusal names config.now wasm.now asked.entry.limit) }
    ensures left { (names : List (List ℕ)) → IsListOf names asked.entry.omitted.now
        → IfErr result (λ e. LeavesBuffer names config.now wasm.now asked.entry.limit e out.old out.new) }
    ensures component { IsErrOf result Error.Component ↔ IsComponent wasm.now }
{
    let all_events = has_bit(asked.flags, EVENTS);
    let mut copier = Copier::new(all_events, asked.limit, asked.omitted, out, table);
    print_to(alloc, config, wasm, &mut copier)?;
    Ok(Extent {
        length: copier.length(),
        count: copier.count(),
    })
}

/// Returns the outcome for an error.
fn refused(error: &Error) -> Outcome
    ensures { result ≡ record { status = number_of error.now; length = 0; count = 0; detail = detail_in error.now } }
{
    Outcome {
        status: status_of(error),
        length: 0,
        count: 0,
        detail: detail_of(error),
    }
}

/// Returns the outcome with this status and detail for a request that can't be met.
fn rejected(status: u32, detail: u64) -> Outcome
    ensures { result ≡ record { status = status; length = 0; count = 0; detail = detail } }
{
    Outcome {
        status,
        length: 0,
        count: 0,
        detail,
    }
}

/// Prints a module as the request asks for: the first bytes of its text and its first events, as many as fit. A
/// component is reported before an invalid indent, and an invalid indent before a list of names that is cut off.
fn print_by(
    alloc: Global,
    wasm: &[u8],
    asked: Request<'_>,
    out: &mut [u8],
    table: &mut [WasmprinterEvent],
) -> Outcome
    ensures { IsOutcome (request_of asked.entry.flags asked.entry.indent.now asked.entry.limit asked.entry.omitted.now) wasm.now (buffers out.old out.new table.old table.new) result }
{
    if is_component(wasm) {
        return refused(&Error::Component);
    }
    let Ok(indent) = str::from_utf8(asked.indent) else {
        return rejected(BAD_INDENT, 0);
    };
    if let Some(place) = cut_place(asked.omitted) {
        return rejected(BAD_LIST, place as u64);
    }
    let Ok(config) = indented(alloc, asked.flags, indent) else {
        return refused(&Error::Memory);
    };
    match print_over(alloc, &config, wasm, asked, out, table) {
        Ok(extent) => Outcome {
            status: PRINTED,
            length: extent.length,
            count: extent.count,
            detail: 0,
        },
        Err(error) => refused(&error),
    }
}

/// Prints the text of a module in the binary format over `out`: writes the first bytes of the text, as many as fit.
/// Writes the starts of its lines or all its events over `table`: the first ones, as many as fit. Returns 0 or the
/// number of an error (`outcome`).
///
/// The bits of `flags` choose options: bit 0 offsets, bit 1 the skeleton, bit 2 synthesized identifiers, bit 3 folded
/// operators, bit 4 a table of all events: of styles and custom sections too. `indent` is the text of one level of
/// nesting. The text has at most `limit` bytes: printing stops before it gets longer. The text has no custom section whose
/// name is in `omitted`, a list of names, each preceded by its length as four bytes, the lowest first. Stores in `extent`
/// the length of the whole text in bytes and the number of its lines or events, or 0 after an error, and the detail of an
/// error, or 0 if there is none. The text was truncated if it is longer than `out`. The contract says nothing of the table
/// and the number of all events if there are 2^64 or more.
///
/// # Errors
///
/// No error other than these is returned:
///
/// - 13: the flags have another bit (`unknown`). The detail has these bits, and `table` is unchanged (`nothing`). This
///   error takes precedence over all others.
/// - 2: the bytes are marked as a component. This error takes precedence over those that follow.
/// - 12: the indent is not UTF-8. This error takes precedence over those that follow.
/// - 14: the list of names is cut off: a length goes beyond its end, or is itself cut off. The detail is the offset of
///   that length from the start of the list. This error takes precedence over those that follow.
/// - 1: the bytes are not in the binary format. The detail is a place, as `include/wasmprinter.h` describes it.
/// - 3: a function has more than 50,000 locals. The detail is the place of its body.
/// - 4: the module has more than 1,000,000 functions. The detail is their number.
/// - 5: the initialiser of a table has no operators. The detail is the place of the table.
/// - 6, only if operators are folded: a `try`, `catch`, `catch_all` or `delegate` can't be folded. The detail is its
///   place.
/// - 7, only if operators are folded: folded text has nowhere to put a branch hint. The detail is the place of the
///   hint.
/// - 8: a custom section `dylink.0` that is not left out has an unknown subsection. The detail is its id.
/// - 10: the text has more than `limit` bytes.
/// - 11: an allocation failed.
///
/// After the errors 8, 10 and, if operators are folded, 11, `out` may hold a prefix of the text. After any other error
/// it is unchanged. After the errors 12, 13 and 14 `table` is unchanged. After any other error its entries are not
/// specified.
#[unsafe(no_mangle)]
pub extern "C" fn wasmprinter_raw_print(
    alloc: Global,
    wasm: &[u8],
    flags: u32,
    indent: &[u8],
    limit: usize,
    omitted: &[u8],
    out: &mut [u8],
    table: &mut [WasmprinterEvent],
    extent: &mut WasmprinterResult,
) -> u32
    ensures unknown { result ≡ option_status ↔ HasUnknownBit flags }
    ensures nothing { HasUnknownBit flags → StoresOnlyDetail (buffers out.old out.new table.old table.new) (unknown_bits flags) extent.new }
    ensures outcome { ¬ HasUnknownBit flags →
        IsOutcome (request_of flags indent.now limit omitted.now) wasm.now (buffers out.old out.new table.old table.new) (outcome_with result extent.new) }
{
    if flags >= FIRST_UNKNOWN {
        extent.length = 0;
        extent.count = 0;
        extent.detail = u64::from(flags / FIRST_UNKNOWN * FIRST_UNKNOWN);
        return UNKNOWN_OPTION;
    }
    let asked = Request {
        flags,
        indent,
        limit,
        omitted,
    };
    let outcome = print_by(alloc, wasm, asked, out, table);
    extent.length = outcome.length;
    extent.count = outcome.count;
    extent.detail = outcome.detail;
    outcome.status
}

/// Writes the description of a status with its detail to a printer over a buffer, to which nothing was printed
/// before.
fn write_description(copier: &mut Copier<'_>, status: u32, detail: u64)
    requires no_text { copier.old.written ≡ 0 }
    requires no_event { copier.old.count ≡ 0 }
    requires roomy { 200 ≤ copier.old.limit }
    ensures same_buffer { copier.new.out.ghost_name ≡ copier.old.out.ghost_name }
    ensures same_table { copier.new.table.ghost_name ≡ copier.old.table.ghost_name }
    ensures copied { copier.new.out.now ≡ over (message status detail) copier.old.out.now }
    ensures counted { copier.new.written ≡ length (message status detail) }
{
    // This can't fail: a description has at most 200 bytes.
    let _ = describe(copier, status, detail);
}

/// Writes the description of a status with its detail over `out`: the first bytes, as many as fit. The other bytes of
/// `out` are unchanged (`copied`). Returns the length of the whole description in bytes (`whole`), which is at most 200
/// (`short`). The description of a status greater than 14 is `unknown status`.
#[unsafe(no_mangle)]
pub extern "C" fn wasmprinter_raw_error_text(status: u32, detail: u64, out: &mut [u8]) -> usize
    ensures whole { result ≡ length (message status detail) }
    ensures short { result ≤ 200 }
    ensures copied { out.new ≡ over (message status detail) out.old }
{
    let mut copier = Copier::new(false, usize::MAX, &[], out, &mut []);
    write_description(&mut copier, status, detail);
    copier.length()
}

/// Returns the version of the library: the major number times 1,000,000, plus the minor number times 1,000, plus
/// the patch number.
#[unsafe(no_mangle)]
pub extern "C" fn wasmprinter_version() -> u32
    ensures { result ≡ library_version }
{
    VERSION
}

/// Returns the number N of the release 0.263.0-rN.
#[unsafe(no_mangle)]
pub extern "C" fn wasmprinter_revision() -> u32
    ensures { result ≡ library_revision }
{
    REVISION
}
