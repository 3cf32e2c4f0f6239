//! The calls on a printer of some example modules, with folded operators. Folded operators have no styles, since the
//! printer supports no colors within text. The notation is that of [`crate::Recorder`].

/// The calls of `IDENTITY`.
pub const IDENTITY_FOLDED: &str = r#"[0x0]({K}module{R}
[0xb]  ({K}type {R}{N}(;0;){R} ({K}func{R} ({K}param{R} {T}i32{R}) ({K}result{R} {T}i32{R})))
[0x17]  ({K}export {R}{L}"f"{R} ({K}func {R}{N}0{R}))
[0x1f]  ({K}func {R}{N}(;0;){R} ({K}type {R}{N}0{R}) ({K}param{R} {T}i32{R}) ({K}result{R} {T}i32{R})
[0x20]    (local.get 0)
[0x22]  )
[0x23])
"#;

/// The calls of `GLOBAL_BLOCK`.
pub const GLOBAL_FOLDED: &str = "[0x0]({K}module{R}
[0xb]  ({K}global {R}{N}(;0;){R} {T}i32{R} (block (result i32)  (; label = @1 ;) (i32.const 1)))
[0x13])
";

/// The calls of `HINTED_IF` if its operators are folded.
pub const HINTED_FOLDED: &str = r#"[0x0]({K}module{R}
[0xb]  ({K}type {R}{N}(;0;){R} ({K}func{R} ({K}param{R} {T}i32{R}))){? "metadata.code.branch_hint" 0x2f [1, 0, 1, 3, 1, 1]}
[0x39]  ({K}func {R}{N}(;0;){R} ({K}type {R}{N}0{R}) ({K}param{R} {T}i32{R})
[0x3c]    (@metadata.code.branch_hint "\\01")
[0x3c]    (if ;; label = @1
[0x3a]      (local.get 0)
[0x3c]      (then))
[0x3f]  )
[0x40])
"#;

/// The calls of `CUSTOMS_AROUND_A_MEMORY`.
pub const CUSTOMS_CALLS: &str = r#"[0x0]({K}module{R}{? "a" 0xf [1]}
[0xd]  ({K}@custom {R}{L}"a"{R} (before first) {L}"\\01"{R})
[0x13]  ({K}memory {R}{N}(;0;){R} {L}1{R}){? "b" 0x19 []}
[0x17]  ({K}@custom {R}{L}"b"{R} (after memory) {L}""{R})
[0x19])
"#;

/// The calls of `RAW_PRODUCERS`.
pub const PRODUCERS_CALLS: &str =
    r#"[0x0]({K}module{R}{? "producers" 0x14 [1, 3, 97, 32, 98, 1, 1, 120, 1, 49]}
[0xa]  ({K}@custom {R}{L}"producers"{R} (before first) {L}"\\01\\03a b\\01\\01x\\011"{R})
[0x1e])
"#;

/// The calls of `DYLINK_MEMORY`.
pub const MEMORY_CALLS: &str = r#"[0x0]({K}module{R}{? "dylink.0" 0x13 [1, 4, 16, 2, 0, 0]}
[0xa]  ({K}@dylink.0{R}
[0x13]    ({K}mem-info{R} (memory 16 2))
[]  )
[0x19])
"#;

/// The calls of `DYLINK_CUT`.
pub const CUT_CALLS: &str = r#"[0x0]({K}module{R}{? "dylink.0" 0x13 [1, 5, 16]}
[0x13]  ;; failed to parse custom section `dylink.0`
[0xa]  ({K}@custom {R}{L}"dylink.0"{R} (before first) {L}"\\01\\05\\10"{R})
[0x16])
"#;

/// The calls of `DYLINK_UNKNOWN`. The last one asks whether the printer claims the section.
pub const UNKNOWN_CALLS: &str = r#"[0x0]({K}module{R}{? "dylink.0" 0x13 [9, 0]}"#;
