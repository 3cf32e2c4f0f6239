//! The texts of `--help` and `--version`.

/// The text of `--help`.
pub const HELP: &str = "\
Usage: wasm2text [OPTIONS] [FILE...]

Prints WebAssembly modules as text, one after the other.
FILE may be -, which is standard input, as is no FILE. Words after -- are files.

Options:
  -p, --print-offsets      Start each line with its byte offset in the module
      --skeleton           Leave out bodies, element items and data bytes
      --name-unnamed       Synthesize identifiers for items without a name
  -f, --fold-instructions  Print each instruction in parentheses
      --indent N           Indent each level by N spaces (default: 2)
      --color WHEN         Print in colors: auto, always or never (default: auto)
      --at OFFSET          Print only the lines around the byte at OFFSET
      --code-offset OFFSET
                           As --at, with OFFSET counted from the code section
      --func FUNCTION      Print only the text of one function
      --hidden             Print only what no text shows, as padded numbers
  -o, --output FILE        Write to FILE instead of standard output
  -h, --help               Print this help
  -V, --version            Print the version

With --color auto, the text is in colors if standard output is a terminal,
NO_COLOR is unset or empty, and there is no --output.

With --at, the line that shows the byte is marked by >. Up to three lines before
and after it are printed, and the header of its function, with their numbers in
the whole text, without colors. OFFSET is a decimal number, or a hexadecimal one
after 0x. It counts from the start of each module or, with --code-offset, of the
contents of its code section, as in DWARF.

With --func, the lines of one function are printed as they are in the whole
text, without colors. FUNCTION is its index, as OFFSET is written, and imported
functions are counted; or $ and the rest of its identifier, as '$find'.

With --hidden, a line is printed for each part of a module that no text shows,
instead of the text: its byte offset, its name, and the number of its bytes that
are not needed. Such parts are numbers and forms that are longer than needed,
empty sections and lists, and names and branch hints that are not used.

Exit status:
  0  no file failed; the reader of the text may have closed the pipe
  1  a file, the output, an allocation or the arguments failed; if only files
     failed, the others are printed; a part of a text may have been written
  2  the command line is wrong; nothing was printed
";

/// The text of `--version`.
pub const VERSION: &str = "wasm2text 0.263.0-r1\n";
