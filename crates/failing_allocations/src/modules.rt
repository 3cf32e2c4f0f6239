//! Modules and their texts. Bytes and texts are typed by hand.

pub const EMPTY: &[u8] = &[0x00, 0x61, 0x73, 0x6d, 0x01, 0x00, 0x00, 0x00];

pub const TYPES: &[u8] = &[
    0x00, 0x61, 0x73, 0x6d, 0x01, 0x00, 0x00, 0x00, // preamble
    0x01, 0x14, 0x05, 0x60, 0x00, 0x00, 0x60, 0x02, 0x7f, 0x7e, 0x00, // types
    0x60, 0x01, 0x7e, 0x01, 0x7f, 0x60, 0x00, 0x00, 0x60, 0x00, 0x00,
];

pub const TYPES_TEXT: &str = "(module
  (type (;0;) (func))
  (type (;1;) (func (param i32 i64)))
  (type (;2;) (func (param i64) (result i32)))
  (type (;3;) (func))
  (type (;4;) (func))
)
";

pub const EXPORTS: &[u8] = &[
    0x00, 0x61, 0x73, 0x6d, 0x01, 0x00, 0x00, 0x00, // preamble
    0x07, 0x0a, 0x02, 0x01, 0x61, 0x00, 0x00, 0x02, 0x62, 0x22, 0x00, 0x07, // exports
];

pub const EXPORTS_TEXT: &str = r#"(module
  (export "a" (func 0))
  (export "b\u{22}" (func 7))
)
"#;

pub const LONG_NAME: &[u8] = b"\0asm\x01\0\0\0\
    \x07\xc5\x02\x01\xc0\x02\
    abcdefghijklmnopqrstuvwxyzabcdefghijklmnopqrstuvwxyzabcdefghijkl\
    mnopqrstuvwxyzabcdefghijklmnopqrstuvwxyzabcdefghijklmnopqrstuvwx\
    yzabcdefghijklmnopqrstuvwxyzabcdefghijklmnopqrstuvwxyzabcdefghij\
    klmnopqrstuvwxyzabcdefghijklmnopqrstuvwxyzabcdefghijklmnopqrstuv\
    wxyzabcdefghijklmnopqrstuvwxyzabcdefghijklmnopqrstuvwxyzabcdefgh\
    \0\0";

pub const LONG_NAME_TEXT: &str = "(module
  (export \"\
    abcdefghijklmnopqrstuvwxyzabcdefghijklmnopqrstuvwxyzabcdefghijkl\
    mnopqrstuvwxyzabcdefghijklmnopqrstuvwxyzabcdefghijklmnopqrstuvwx\
    yzabcdefghijklmnopqrstuvwxyzabcdefghijklmnopqrstuvwxyzabcdefghij\
    klmnopqrstuvwxyzabcdefghijklmnopqrstuvwxyzabcdefghijklmnopqrstuv\
    wxyzabcdefghijklmnopqrstuvwxyzabcdefghijklmnopqrstuvwxyzabcdefgh\
    \" (func 0))
)
";

pub const LOCALS: &[u8] = &[
    0x00, 0x61, 0x73, 0x6d, 0x01, 0x00, 0x00, 0x00, // preamble
    0x01, 0x04, 0x01, 0x60, 0x00, 0x00, // types
    0x03, 0x02, 0x01, 0x00, // functions
    0x0a, 0x08, 0x01, 0x06, 0x02, 0x02, 0x7f, 0x01, 0x7e, 0x0b, // code
];

pub const LOCALS_TEXT: &str = "(module
  (type (;0;) (func))
  (func (;0;) (type 0)
    (local i32 i32 i64)
  )
)
";

pub const BODIES: &[u8] = &[
    0x00, 0x61, 0x73, 0x6d, 0x01, 0x00, 0x00, 0x00, // preamble
    0x01, 0x04, 0x01, 0x60, 0x00, 0x00, // types
    0x03, 0x03, 0x02, 0x00, 0x00, // functions
    0x0a, 0x0d, 0x02, // code
    0x05, 0x00, 0x41, 0x07, 0x1a, 0x0b, // i32.const, drop
    0x05, 0x00, 0x10, 0x00, 0x0f, 0x0b, // call, return
];

pub const BODIES_TEXT: &str = "(module
  (type (;0;) (func))
  (func (;0;) (type 0)
    i32.const 7
    drop
  )
  (func (;1;) (type 0)
    call 0
    return
  )
)
";

pub const BLOCKS: &[u8] = &[
    0x00, 0x61, 0x73, 0x6d, 0x01, 0x00, 0x00, 0x00, // preamble
    0x01, 0x1e, 0x04, // types
    0x4e, 0x02, 0x5f, 0x01, 0x63, 0x01, 0x01, 0x60, 0x01, 0x64, 0x00, 0x00, // a group of two types
    0x4e, 0x00, // an empty group
    0x50, 0x01, 0x00, 0x5f, 0x01, 0x63, 0x01, 0x01, // a type outside a group, with a supertype
    0x60, 0x02, 0x63, 0x00, 0x6f, 0x01, 0x70, // the type of the function
    0x03, 0x02, 0x01, 0x03, // functions
    0x0a, 0x2e, 0x01, 0x2c, 0x01, 0x01, 0x64, 0x00, // code, with a local
    0x02, 0x40, 0x03, 0x70, 0x02, 0x03, // block, loop, block
    0x41, 0x00, 0x04, 0x40, 0x05, // i32.const, if, else
    0x06, 0x40, 0x07, 0x00, 0x1f, 0x40, 0x01, 0x02, 0x04, // try, catch, try_table
    0x02, 0x40, 0x02, 0x40, 0x02, 0x40, 0x0e, 0x01, 0x00, 0x07, // three blocks, br_table
    0x0b, 0x0b, 0x0b, 0x0b, 0x0b, 0x0b, 0x0b, 0x0b, 0x0b, 0x0b, // an end for each block and for the body
];

pub const BLOCKS_TEXT: &str = "(module
  (rec
    (type (;0;) (struct (field (mut (ref null 1)))))
    (type (;1;) (func (param (ref 0))))
  )
  (rec)
  (type (;2;) (sub 0 (struct (field (mut (ref null 1))))))
  (type (;3;) (func (param (ref null 0) externref) (result funcref)))
  (func (;0;) (type 3) (param (ref null 0) externref) (result funcref)
    (local (ref 0))
    block ;; label = @1
      loop (result funcref) ;; label = @2
        block (type 3) (param (ref null 0) externref) (result funcref) ;; label = @3
          i32.const 0
          if ;; label = @4
          else
            try ;; label = @5
            catch 0
              try_table (catch_all 4 (;@1;)) ;; label = @6
                block ;; label = @7
                  block ;; label = @8
                    block ;; label = @9
                      br_table 0 (;@9;) 7 (;@2;)
                    end
                  end
                end
              end
            end
          end
        end
      end
    end
  )
)
";

pub const BLOCKS_COLORED: &str = "(\x1b[0m\x1b[1m\x1b[38;5;11mmodule\x1b[0m
  (\x1b[0m\x1b[1m\x1b[38;5;11mrec\x1b[0m
    (\x1b[0m\x1b[1m\x1b[38;5;11mtype \x1b[0m\x1b[0m\x1b[35m(;0;)\x1b[0m (\x1b[0m\x1b[1m\x1b[38;5;11mstruct\x1b[0m (field (mut (\x1b[0m\x1b[1m\x1b[38;5;11mref\x1b[0m null \x1b[0m\x1b[35m1\x1b[0m)))))
    (\x1b[0m\x1b[1m\x1b[38;5;11mtype \x1b[0m\x1b[0m\x1b[35m(;1;)\x1b[0m (\x1b[0m\x1b[1m\x1b[38;5;11mfunc\x1b[0m (\x1b[0m\x1b[1m\x1b[38;5;11mparam\x1b[0m (\x1b[0m\x1b[1m\x1b[38;5;11mref \x1b[0m\x1b[0m\x1b[35m0\x1b[0m))))
  )
  (\x1b[0m\x1b[1m\x1b[38;5;11mrec\x1b[0m)
  (\x1b[0m\x1b[1m\x1b[38;5;11mtype \x1b[0m\x1b[0m\x1b[35m(;2;)\x1b[0m (\x1b[0m\x1b[1m\x1b[38;5;11msub\x1b[0m \x1b[0m\x1b[35m0\x1b[0m (\x1b[0m\x1b[1m\x1b[38;5;11mstruct\x1b[0m (field (mut (\x1b[0m\x1b[1m\x1b[38;5;11mref\x1b[0m null \x1b[0m\x1b[35m1\x1b[0m))))))
  (\x1b[0m\x1b[1m\x1b[38;5;11mtype \x1b[0m\x1b[0m\x1b[35m(;3;)\x1b[0m (\x1b[0m\x1b[1m\x1b[38;5;11mfunc\x1b[0m (\x1b[0m\x1b[1m\x1b[38;5;11mparam\x1b[0m (\x1b[0m\x1b[1m\x1b[38;5;11mref\x1b[0m null \x1b[0m\x1b[35m0\x1b[0m) \x1b[0m\x1b[1m\x1b[38;5;10mexternref\x1b[0m) \
(\x1b[0m\x1b[1m\x1b[38;5;11mresult\x1b[0m \x1b[0m\x1b[1m\x1b[38;5;10mfuncref\x1b[0m)))
  (\x1b[0m\x1b[1m\x1b[38;5;11mfunc \x1b[0m\x1b[0m\x1b[35m(;0;)\x1b[0m (\x1b[0m\x1b[1m\x1b[38;5;11mtype \x1b[0m\x1b[0m\x1b[35m3\x1b[0m) \
(\x1b[0m\x1b[1m\x1b[38;5;11mparam\x1b[0m (\x1b[0m\x1b[1m\x1b[38;5;11mref\x1b[0m null \x1b[0m\x1b[35m0\x1b[0m) \x1b[0m\x1b[1m\x1b[38;5;10mexternref\x1b[0m) \
(\x1b[0m\x1b[1m\x1b[38;5;11mresult\x1b[0m \x1b[0m\x1b[1m\x1b[38;5;10mfuncref\x1b[0m)
    (\x1b[0m\x1b[1m\x1b[38;5;11mlocal\x1b[0m (\x1b[0m\x1b[1m\x1b[38;5;11mref \x1b[0m\x1b[0m\x1b[35m0\x1b[0m))
    block \x1b[0m\x1b[36m;; label = @1\x1b[0m
      loop (\x1b[0m\x1b[1m\x1b[38;5;11mresult \x1b[0m\x1b[0m\x1b[1m\x1b[38;5;10mfuncref\x1b[0m) \x1b[0m\x1b[36m;; label = @2\x1b[0m
        block (\x1b[0m\x1b[1m\x1b[38;5;11mtype \x1b[0m\x1b[0m\x1b[35m3\x1b[0m) \
(\x1b[0m\x1b[1m\x1b[38;5;11mparam\x1b[0m (\x1b[0m\x1b[1m\x1b[38;5;11mref\x1b[0m null \x1b[0m\x1b[35m0\x1b[0m) \x1b[0m\x1b[1m\x1b[38;5;10mexternref\x1b[0m) \
(\x1b[0m\x1b[1m\x1b[38;5;11mresult\x1b[0m \x1b[0m\x1b[1m\x1b[38;5;10mfuncref\x1b[0m) \x1b[0m\x1b[36m;; label = @3\x1b[0m
          i32.const\x1b[0m\x1b[31m 0\x1b[0m
          if \x1b[0m\x1b[36m;; label = @4\x1b[0m
          else
            try \x1b[0m\x1b[36m;; label = @5\x1b[0m
            catch \x1b[0m\x1b[35m0\x1b[0m
              try_table (\x1b[0m\x1b[1m\x1b[38;5;11mcatch_all\x1b[0m \x1b[0m\x1b[35m4\x1b[0m\x1b[0m\x1b[36m (;@1;)\x1b[0m) \x1b[0m\x1b[36m;; label = @6\x1b[0m
                block \x1b[0m\x1b[36m;; label = @7\x1b[0m
                  block \x1b[0m\x1b[36m;; label = @8\x1b[0m
                    block \x1b[0m\x1b[36m;; label = @9\x1b[0m
                      br_table \x1b[0m\x1b[35m0\x1b[0m\x1b[0m\x1b[36m (;@9;)\x1b[0m \x1b[0m\x1b[35m7\x1b[0m\x1b[0m\x1b[36m (;@2;)\x1b[0m
                    end
                  end
                end
              end
            end
          end
        end
      end
    end
  )
)
";

pub const FIELDS: &[u8] = &[
    0x00, 0x61, 0x73, 0x6d, 0x01, 0x00, 0x00, 0x00, // preamble
    0x01, 0x04, 0x01, 0x60, 0x00, 0x00, // types
    0x02, 0x0e, 0x02, // imports
    0x01, 0x61, 0x01, 0x66, 0x00, 0x00, // a function
    0x01, 0x61, 0x01, 0x67, 0x03, 0x7f, 0x00, // a global
    0x04, 0x0c, 0x02, // tables
    0x70, 0x00, 0x01, 0x40, 0x00, 0x70, 0x00, 0x01, 0xd2, 0x00, 0x0b, // the second with an initialiser
    0x05, 0x03, 0x01, 0x00, 0x01, // memories
    0x0d, 0x03, 0x01, 0x00, 0x00, // tags
    0x06, 0x09, 0x01, // globals
    0x7f, 0x00, 0x02, 0x7f, 0x41, 0x07, 0x0b, 0x0b, // with a block
    0x07, 0x05, 0x01, 0x01, 0x6d, 0x02, 0x00, // exports
    0x08, 0x01, 0x00, // start
    0x09, 0x10, 0x02, // element segments
    0x00, 0x41, 0x00, 0x0b, 0x01, 0x00, // with function indices
    0x05, 0x70, 0x02, 0xd2, 0x00, 0x0b, 0xd0, 0x70, 0x0b, // with expressions
    0x0b, 0x0a, 0x02, // data segments
    0x00, 0x41, 0x00, 0x0b, 0x02, 0x68, 0x69, 0x01, 0x00, // active and passive
];

pub const FIELDS_TEXT: &str = r#"(module
  (type (;0;) (func))
  (import "a" "f" (func (;0;) (type 0)))
  (import "a" "g" (global (;0;) i32))
  (table (;0;) 1 funcref)
  (table (;1;) 1 funcref ref.func 0)
  (memory (;0;) 1)
  (tag (;0;) (type 0))
  (global (;1;) i32 block (result i32)  (; label = @1 ;) i32.const 7 end)
  (export "m" (memory 0))
  (start 0)
  (elem (;0;) (i32.const 0) func 0)
  (elem (;1;) funcref (ref.func 0) (ref.null func))
  (data (;0;) (i32.const 0) "hi")
  (data (;1;) "")
)
"#;

pub const NAMES: &[u8] = &[
    0x00, 0x61, 0x73, 0x6d, 0x01, 0x00, 0x00, 0x00, // preamble
    0x01, 0x05, 0x01, 0x60, 0x01, 0x7f, 0x00, // types
    0x03, 0x02, 0x01, 0x00, // functions
    0x0a, 0x0b, 0x01, 0x09, 0x00, 0x02, 0x40, 0x0c, 0x00, 0x0b, 0x41, 0x00, // code
    0x0b, // the end of the body
    0x00, 0x21, 0x04, 0x6e, 0x61, 0x6d, 0x65, // a name section
    0x01, 0x03, 0x01, 0x00, 0x00, // the empty name of the function
    0x02, 0x06, 0x01, 0x00, 0x01, 0x00, 0x01, 0x78, // the name of the parameter
    0x03, 0x09, 0x01, 0x00, 0x02, 0x00, 0x01, 0x6c, 0x01, 0x01, 0x6c, // the names of two labels, one of which has no block
    0x04, 0x02, 0x01, 0x00, // the name of a type, truncated
];

pub const NAMES_TEXT: &str = r##"(module
  (type (;0;) (func (param i32)))
  (func $"#func0 " (@name "") (;0;) (type 0) (param $x i32)
    block $l
      br $l
    end
    i32.const 0
  )
)
"##;

pub const UNORDERED_NAMES: &[u8] = &[
    0x00, 0x61, 0x73, 0x6d, 0x01, 0x00, 0x00, 0x00, // preamble
    0x07, 0x11, 0x04, // exports of functions
    0x01, 0x61, 0x00, 0x02, 0x01, 0x62, 0x00, 0x03, // functions 2 and 3
    0x01, 0x63, 0x00, 0x05, 0x01, 0x64, 0x00, 0x09, // functions 5 and 9
    0x00, 0x14, 0x04, 0x6e, 0x61, 0x6d, 0x65, // a name section
    0x01, 0x0d, 0x04, 0x05, 0x01, 0x66, 0x02, 0x01, 0x74, // names of functions 5 and 2
    0x09, 0x01, 0x6e, 0x02, 0x01, 0x75, // a name of function 9, and a second one of 2
    0x00, 0x0e, 0x04, 0x6e, 0x61, 0x6d, 0x65, // another name section
    0x01, 0x07, 0x02, 0x09, 0x01, 0x6f, 0x03, 0x01, 0x68, // a second name of function 9, and one of 3
];

pub const UNORDERED_NAMES_TEXT: &str = r#"(module
  (export "a" (func $u))
  (export "b" (func $h))
  (export "c" (func $f))
  (export "d" (func $o))
)
"#;

pub const NAMES_AGAIN: &[u8] = &[
    0x00, 0x61, 0x73, 0x6d, 0x01, 0x00, 0x00, 0x00, // preamble
    0x01, 0x05, 0x01, 0x60, 0x01, 0x7f, 0x00, // types
    0x03, 0x04, 0x03, 0x00, 0x00, 0x00, // functions
    0x0a, 0x0a, 0x03, 0x02, 0x00, 0x0b, 0x02, 0x00, 0x0b, 0x02, 0x00, 0x0b, // code
    0x00, 0x30, 0x04, 0x6e, 0x61, 0x6d, 0x65, // a name section
    0x00, 0x02, 0x01, 0x6d, // the name of the module: m
    0x01, 0x13, 0x06, // names of functions
    0x00, 0x01, 0x61, 0x01, 0x01, 0x62, 0x02, 0x01, 0x63, // of functions 0, 1 and 2: a, b and c
    0x01, 0x01, 0x61, 0x00, 0x01, 0x64, 0x02, 0x01, 0x62, // second names of 1, 0 and 2: a, d and b
    0x02, 0x0c, 0x01, 0x00, 0x03, // names of locals of function 0
    0x00, 0x01, 0x78, 0x00, 0x01, 0x78, 0x00, 0x01, 0x79, // three names of the parameter: x, x and y
    0x00, 0x02, 0x01, 0x6e, // a second name of the module: n
];

pub const NAMES_AGAIN_TEXT: &str = r##"(module $n
  (type (;0;) (func (param i32)))
  (func $d (;0;) (type 0) (param $y i32))
  (func $"#func1 a" (@name "a") (;1;) (type 0) (param i32))
  (func $"#func2 b" (@name "b") (;2;) (type 0) (param i32))
)
"##;

pub const NAMES_ONCE: &[u8] = &[
    0x00, 0x61, 0x73, 0x6d, 0x01, 0x00, 0x00, 0x00, // preamble
    0x01, 0x05, 0x01, 0x60, 0x01, 0x7f, 0x00, // types
    0x03, 0x04, 0x03, 0x00, 0x00, 0x00, // functions
    0x0a, 0x0a, 0x03, 0x02, 0x00, 0x0b, 0x02, 0x00, 0x0b, 0x02, 0x00, 0x0b, // code
    0x00, 0x15, 0x04, 0x6e, 0x61, 0x6d, 0x65, // a name section
    0x00, 0x02, 0x01, 0x6d, // the name of the module: m
    0x01, 0x0a, 0x03, // names of functions
    0x00, 0x01, 0x61, 0x01, 0x01, 0x62, 0x02, 0x01, 0x63, // of functions 0, 1 and 2: a, b and c
];

pub const NAMES_ONCE_TEXT: &str = "(module $m
  (type (;0;) (func (param i32)))
  (func $a (;0;) (type 0) (param i32))
  (func $b (;1;) (type 0) (param i32))
  (func $c (;2;) (type 0) (param i32))
)
";

/// The same as `NAMES_ONCE`, with a second name for the module and for the first two functions. It needs no more
/// allocations.
pub const NAMES_REPLACED: &[u8] = &[
    0x00, 0x61, 0x73, 0x6d, 0x01, 0x00, 0x00, 0x00, // preamble
    0x01, 0x05, 0x01, 0x60, 0x01, 0x7f, 0x00, // types
    0x03, 0x04, 0x03, 0x00, 0x00, 0x00, // functions
    0x0a, 0x0a, 0x03, 0x02, 0x00, 0x0b, 0x02, 0x00, 0x0b, 0x02, 0x00, 0x0b, // code
    0x00, 0x1f, 0x04, 0x6e, 0x61, 0x6d, 0x65, // a name section
    0x00, 0x02, 0x01, 0x6d, // the name of the module: m
    0x01, 0x10, 0x05, // names of functions
    0x00, 0x01, 0x61, 0x01, 0x01, 0x62, 0x02, 0x01, 0x63, // of functions 0, 1 and 2: a, b and c
    0x01, 0x01, 0x64, 0x00, 0x01, 0x65, // second names of 1 and 0: d and e
    0x00, 0x02, 0x01, 0x6e, // a second name of the module: n
];

pub const NAMES_REPLACED_TEXT: &str = "(module $n
  (type (;0;) (func (param i32)))
  (func $e (;0;) (type 0) (param i32))
  (func $d (;1;) (type 0) (param i32))
  (func $c (;2;) (type 0) (param i32))
)
";

pub const CUSTOMS: &[u8] = &[
    0x00, 0x61, 0x73, 0x6d, 0x01, 0x00, 0x00, 0x00, // preamble
    0x00, 0x03, 0x01, 0x61, 0x01, // a custom section
    0x01, 0x05, 0x01, 0x60, 0x01, 0x7f, 0x00, // types
    0x03, 0x02, 0x01, 0x00, // functions
    0x00, 0x20, 0x19, // branch hints
    0x6d, 0x65, 0x74, 0x61, 0x64, 0x61, 0x74, 0x61, 0x2e, 0x63, 0x6f, 0x64, 0x65, 0x2e, // metadata.code.
    0x62, 0x72, 0x61, 0x6e, 0x63, 0x68, 0x5f, 0x68, 0x69, 0x6e, 0x74, // branch_hint
    0x01, 0x00, 0x01, 0x03, 0x01, 0x01, // one hint, in function 0
    0x0a, 0x09, 0x01, 0x07, 0x00, 0x20, 0x00, 0x04, 0x40, 0x0b, 0x0b, // code
    0x00, 0x1b, 0x09, 0x70, 0x72, 0x6f, 0x64, 0x75, 0x63, 0x65, 0x72, 0x73, // producers
    0x01, 0x08, 0x6c, 0x61, 0x6e, 0x67, 0x75, 0x61, 0x67, 0x65, // one field: language
    0x01, 0x04, 0x52, 0x75, 0x73, 0x74, 0x00, // one value: Rust
];

pub const CUSTOMS_TEXT: &str = r#"(module
  (@custom "a" (before first) "\01")
  (type (;0;) (func (param i32)))
  (func (;0;) (type 0) (param i32)
    local.get 0
    (@metadata.code.branch_hint "\01")
    if ;; label = @1
    end
  )
  (@producers
    (language "Rust" "")
  )
)
"#;

pub const EVERYTHING: &[u8] = &[
    0x00, 0x61, 0x73, 0x6d, 0x01, 0x00, 0x00, 0x00, // preamble
    0x01, 0x05, 0x01, 0x60, 0x00, 0x01, 0x7e, // types
    0x03, 0x02, 0x01, 0x00, // functions
    0x07, 0x05, 0x01, 0x01, 0x66, 0x00, 0x00, // exports
    0x0a, 0x0c, 0x01, 0x0a, 0x01, 0x01, 0x7e, 0x42, 0x7f, 0x21, 0x00, 0x20, 0x00, 0x0b, // code
];

pub const EVERYTHING_TEXT: &str = r#"(module
  (type (;0;) (func (result i64)))
  (export "f" (func 0))
  (func (;0;) (type 0) (result i64)
    (local i64)
    i64.const -1
    local.set 0
    local.get 0
  )
)
"#;

pub const EVERYTHING_COLORED: &str = "(\x1b[0m\x1b[1m\x1b[38;5;11mmodule\x1b[0m
  (\x1b[0m\x1b[1m\x1b[38;5;11mtype \x1b[0m\x1b[0m\x1b[35m(;0;)\x1b[0m (\x1b[0m\x1b[1m\x1b[38;5;11mfunc\x1b[0m \
(\x1b[0m\x1b[1m\x1b[38;5;11mresult\x1b[0m \x1b[0m\x1b[1m\x1b[38;5;10mi64\x1b[0m)))
  (\x1b[0m\x1b[1m\x1b[38;5;11mexport \x1b[0m\x1b[0m\x1b[31m\"f\"\x1b[0m (\x1b[0m\x1b[1m\x1b[38;5;11mfunc \x1b[0m\x1b[0m\x1b[35m0\x1b[0m))
  (\x1b[0m\x1b[1m\x1b[38;5;11mfunc \x1b[0m\x1b[0m\x1b[35m(;0;)\x1b[0m \
(\x1b[0m\x1b[1m\x1b[38;5;11mtype \x1b[0m\x1b[0m\x1b[35m0\x1b[0m) \
(\x1b[0m\x1b[1m\x1b[38;5;11mresult\x1b[0m \x1b[0m\x1b[1m\x1b[38;5;10mi64\x1b[0m)
    (\x1b[0m\x1b[1m\x1b[38;5;11mlocal\x1b[0m \x1b[0m\x1b[1m\x1b[38;5;10mi64\x1b[0m)
    i64.const\x1b[0m\x1b[31m -1\x1b[0m
    local.set \x1b[0m\x1b[35m0\x1b[0m
    local.get \x1b[0m\x1b[35m0\x1b[0m
  )
)
";

pub const OPERANDS: &[u8] = &[
    0x00, 0x61, 0x73, 0x6d, 0x01, 0x00, 0x00, 0x00, // preamble
    0x01, 0x06, 0x01, 0x60, 0x01, 0x7f, 0x01, 0x7f, // types
    0x02, 0x05, 0x01, 0x00, 0x00, 0x00, 0x00, // imports
    0x03, 0x02, 0x01, 0x00, // functions
    0x06, 0x06, 0x01, 0x7f, 0x00, 0x41, 0x07, 0x0b, // globals
    0x0a, 0x13, 0x01, 0x11, 0x00, // code
    0x20, 0x00, 0x04, 0x7f, 0x41, 0x01, 0x05, // local.get, if, i32.const, else
    0x41, 0x02, 0x41, 0x03, 0x6a, 0x0b, 0x10, 0x00, 0x0b, // i32.const twice, i32.add, end, call
];

pub const FOLDED_OPERANDS_TEXT: &str = "(module
  (type (;0;) (func (param i32) (result i32)))
  (import \"\" \"\" (func (;0;) (type 0) (param i32) (result i32)))
  (global (;0;) i32 (i32.const 7))
  (func (;1;) (type 0) (param i32) (result i32)
    (call 0
      (if (result i32) ;; label = @1
        (local.get 0)
        (then
          (i32.const 1))
        (else
          (i32.add
            (i32.const 2)
            (i32.const 3)))))
  )
)
";

pub const FOLDED_FIELDS_TEXT: &str = r#"(module
  (type (;0;) (func))
  (import "a" "f" (func (;0;) (type 0)))
  (import "a" "g" (global (;0;) i32))
  (table (;0;) 1 funcref)
  (table (;1;) 1 funcref (ref.func 0))
  (memory (;0;) 1)
  (tag (;0;) (type 0))
  (global (;1;) i32 (block (result i32)  (; label = @1 ;) (i32.const 7)))
  (export "m" (memory 0))
  (start 0)
  (elem (;0;) (i32.const 0) func 0)
  (elem (;1;) funcref (ref.func 0) (ref.null func))
  (data (;0;) (i32.const 0) "hi")
  (data (;1;) "")
)
"#;

pub const FOLDED_NAMES_TEXT: &str = r##"(module
  (type (;0;) (func (param i32)))
  (func $"#func0 " (@name "") (;0;) (type 0) (param $x i32)
    (block $l
      (br $l))
    (i32.const 0)
  )
)
"##;

pub const FOLDED_CUSTOMS_TEXT: &str = r#"(module
  (@custom "a" (before first) "\01")
  (type (;0;) (func (param i32)))
  (func (;0;) (type 0) (param i32)
    (@metadata.code.branch_hint "\01")
    (if ;; label = @1
      (local.get 0)
      (then))
  )
  (@producers
    (language "Rust" "")
  )
)
"#;

/// A function with lists of catch clauses, labels and types, and names of the module and of the function.
pub const LISTS: &[u8] = &[
    0x00, 0x61, 0x73, 0x6d, 0x01, 0x00, 0x00, 0x00, // preamble
    0x01, 0x04, 0x01, 0x60, 0x00, 0x00, // types
    0x03, 0x02, 0x01, 0x00, // functions
    0x0a, 0x11, 0x01, 0x0f, 0x00, // code
    0x1f, 0x40, 0x01, 0x02, 0x00, 0x0b, // try_table at byte 23, its end at byte 28
    0x0e, 0x01, 0x00, 0x00, // br_table at byte 29
    0x1c, 0x01, 0x7f, 0x0b, // select at byte 33
    0x00, 0x0f, 0x04, 0x6e, 0x61, 0x6d, 0x65, // a name section
    0x00, 0x02, 0x01, 0x6d, // the name of the module: m
    0x01, 0x04, 0x01, 0x00, 0x01, 0x66, // the name of the function: f
];

pub const LISTS_TEXT: &str = "(module $m
  (type (;0;) (func))
  (func $f (;0;) (type 0)
    try_table (catch_all 0) ;; label = @1
    end
    br_table 0 0
    select (result i32)
  )
)
";

pub const FOLDED_OPERANDS_COLORED: &str = "(\x1b[0m\x1b[1m\x1b[38;5;11mmodule\x1b[0m
  (\x1b[0m\x1b[1m\x1b[38;5;11mtype \x1b[0m\x1b[0m\x1b[35m(;0;)\x1b[0m (\x1b[0m\x1b[1m\x1b[38;5;11mfunc\x1b[0m (\x1b[0m\x1b[1m\x1b[38;5;11mparam\x1b[0m \x1b[0m\x1b[1m\x1b[38;5;10mi32\x1b[0m) (\x1b[0m\x1b[1m\x1b[38;5;11mresult\x1b[0m \x1b[0m\x1b[1m\x1b[38;5;10mi32\x1b[0m)))
  (\x1b[0m\x1b[1m\x1b[38;5;11mimport \x1b[0m\x1b[0m\x1b[31m\"\"\x1b[0m \x1b[0m\x1b[31m\"\"\x1b[0m (\x1b[0m\x1b[1m\x1b[38;5;11mfunc \x1b[0m\x1b[0m\x1b[35m(;0;)\x1b[0m \
(\x1b[0m\x1b[1m\x1b[38;5;11mtype \x1b[0m\x1b[0m\x1b[35m0\x1b[0m) (\x1b[0m\x1b[1m\x1b[38;5;11mparam\x1b[0m \x1b[0m\x1b[1m\x1b[38;5;10mi32\x1b[0m) (\x1b[0m\x1b[1m\x1b[38;5;11mresult\x1b[0m \x1b[0m\x1b[1m\x1b[38;5;10mi32\x1b[0m)))
  (\x1b[0m\x1b[1m\x1b[38;5;11mglobal \x1b[0m\x1b[0m\x1b[35m(;0;)\x1b[0m \x1b[0m\x1b[1m\x1b[38;5;10mi32\x1b[0m (i32.const\x1b[0m\x1b[31m 7\x1b[0m))
  (\x1b[0m\x1b[1m\x1b[38;5;11mfunc \x1b[0m\x1b[0m\x1b[35m(;1;)\x1b[0m (\x1b[0m\x1b[1m\x1b[38;5;11mtype \x1b[0m\x1b[0m\x1b[35m0\x1b[0m) \
(\x1b[0m\x1b[1m\x1b[38;5;11mparam\x1b[0m \x1b[0m\x1b[1m\x1b[38;5;10mi32\x1b[0m) (\x1b[0m\x1b[1m\x1b[38;5;11mresult\x1b[0m \x1b[0m\x1b[1m\x1b[38;5;10mi32\x1b[0m)
    (call \x1b[0m\x1b[35m0\x1b[0m
      (if (\x1b[0m\x1b[1m\x1b[38;5;11mresult \x1b[0m\x1b[0m\x1b[1m\x1b[38;5;10mi32\x1b[0m) \x1b[0m\x1b[36m;; label = @1\x1b[0m
        (local.get \x1b[0m\x1b[35m0\x1b[0m)
        (then
          (i32.const\x1b[0m\x1b[31m 1\x1b[0m))
        (else
          (i32.add
            (i32.const\x1b[0m\x1b[31m 2\x1b[0m)
            (i32.const\x1b[0m\x1b[31m 3\x1b[0m)))))
  )
)
";

/// The calls, in the notation of the recorder of `wasmprinter_samples`.
pub const FOLDED_OPERANDS_CALLS: &str = "[0x0]({K}module{R}
[0xb]  ({K}type {R}{N}(;0;){R} ({K}func{R} ({K}param{R} {T}i32{R}) ({K}result{R} {T}i32{R})))
[0x13]  ({K}import {R}{L}\"\"{R} {L}\"\"{R} ({K}func {R}{N}(;0;){R} \
({K}type {R}{N}0{R}) ({K}param{R} {T}i32{R}) ({K}result{R} {T}i32{R})))
[0x1e]  ({K}global {R}{N}(;0;){R} {T}i32{R} (i32.const 7))
[0x27]  ({K}func {R}{N}(;1;){R} ({K}type {R}{N}0{R}) \
({K}param{R} {T}i32{R}) ({K}result{R} {T}i32{R})
[0x35]    (call 0
[0x2a]      (if (result i32) ;; label = @1
[0x28]        (local.get 0)
[0x2a]        (then
[0x2c]          (i32.const 1))
[0x2e]        (else
[0x33]          (i32.add
[0x2f]            (i32.const 2)
[0x31]            (i32.const 3)))))
[0x37]  )
[0x38])
";

pub const LINKED: &[u8] = &[
    0x00, 0x61, 0x73, 0x6d, 0x01, 0x00, 0x00, 0x00, // preamble
    0x00, 0x1d, 0x08, 0x64, 0x79, 0x6c, 0x69, 0x6e, 0x6b, 0x2e, 0x30, // dylink.0
    0x01, 0x04, 0x01, 0x02, 0x00, 0x00, // sizes and alignments
    0x02, 0x05, 0x02, 0x01, 0x61, 0x01, 0x62, // needed modules
    0x03, 0x05, 0x01, 0x01, 0x65, 0x80, 0x02, // the flags of an export
];

pub const LINKED_TEXT: &str = r#"(module
  (@dylink.0
    (mem-info (memory 1 2))
    (needed "a" "b")
    (export-info "e" tls)
  )
)
"#;
