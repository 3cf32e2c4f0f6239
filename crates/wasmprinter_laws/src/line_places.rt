//! Laws of lines and places: which places the items have that begin lines, and which lines a function has.

ghost use Rattle.wasmprinter_spec.specs.PlaceLaws.{AlikeHaveSameLines, LinesJoin, BodiesLieApart, FunctionsHaveLines};
ghost use Rattle.wasmprinter_spec.specs.PlaceLaws.{FindsPlace, FindsLine};
ghost use Rattle.wasmprinter_laws.specs.Feeds.{LinesBeginAfterFeeds};

/// Two lists of calls on a printer that differ only in how text is split into pieces have the same lines: the same
/// places and the same bytes.
pub fn alike_calls_have_the_same_lines()
    ensures { AlikeHaveSameLines }
{}

/// The lines of a module's layout, each with the line feed after it, joined in order, are the text of that layout.
/// This holds for any options and module, for any answers of the printer to its claims, and also if the layout ends
/// at a refused section.
pub fn lines_join_to_the_text()
    ensures { LinesJoin }
{}

/// Each `Line` call of a layout directly follows a `Newline` call, unless it is the first call of the layout. This
/// holds for any options, answers and module. So no `Line` call directly follows another.
pub fn lines_begin_after_feeds()
    ensures { LinesBeginAfterFeeds }
{}

/// If bytes encode a module, the places of its bodies (their first bytes), of their locals (the first entry that
/// declares one), operators and last `end`s increase, and all are in one interval of byte offsets. No other item that
/// begins a line has its place in that interval, which contains neither the module's first byte nor the end of its
/// bytes.
pub fn bodies_lie_apart()
    ensures { BodiesLieApart }
{}

/// If bytes encode a module, its bodies are printed flat (`skeleton` and folding are off) and no `dylink.0` section is
/// refused, these have one line each, in this order: the header of each function, with the place of the first byte of
/// its body, after its size; its locals, if it has any, with the place of the first entry that declares one; and each
/// of its operators before the last `end`, with its place. No other line begins with the same place. Only lines of
/// branch hints come between these lines. All other options are arbitrary, and so are the printer's answers to its
/// claims.
pub fn functions_have_lines()
    ensures { FunctionsHaveLines }
{}

/// If a line is found for an operator, the operator exists, the returned place is the operator's place, and the line
/// begins with it. This holds for any lines, also for lines that are not those of the module. An operator is given by
/// the number `i` of its function, without imports, and its number `j` in the body, before the last `end`, both from 0.
pub fn finds_places()
    ensures { FindsPlace }
{}

/// If bytes encode a module, its bodies are printed flat and no `dylink.0` section is refused, the line of each
/// operator is found in the module's lines. It is the only line with the operator's place. For an operator that does
/// not exist, no line is found. Operators are given as in [`finds_places`].
pub fn finds_lines()
    ensures { FindsLine }
{}
