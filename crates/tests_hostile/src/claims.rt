//! Printers that claim custom sections: a claimed section is not printed, and everything else is printed as without
//! the claim.

use crate::examples::HINTED_FLAT;
use crate::layout::Layout;
use std::alloc::Global;
use std::test::Fail;
use wasmprinter_expecting::expect_calls;
use wasmprinter_samples::expected_calls::HINTED_FOLDED;
use wasmprinter_samples::{
    CUSTOMS_AROUND_A_MEMORY, DYLINK_CUT, DYLINK_MEMORY, DYLINK_UNKNOWN, HINTED_IF, RAW_PRODUCERS,
    Recorder,
};

/// A module with custom sections that the printer claims.
struct Claim {
    /// The name of the row.
    name: &'static str,
    wasm: &'static [u8],
    /// The name of the sections.
    section: &'static str,
    /// All calls if operators are printed flat.
    flat: &'static str,
    /// All calls if operators are folded.
    folded: &'static str,
}

const FIRST_CLAIMED: &str = r#"[0x0]({K}module{R}{? "a" 0xf [1]}
[0x13]  ({K}memory {R}{N}(;0;){R} {L}1{R}){? "b" 0x19 []}
[0x17]  ({K}@custom {R}{L}"b"{R} (after memory) {L}""{R})
[0x19])
"#;

const SECOND_CLAIMED: &str = r#"[0x0]({K}module{R}{? "a" 0xf [1]}
[0xd]  ({K}@custom {R}{L}"a"{R} (before first) {L}"\\01"{R})
[0x13]  ({K}memory {R}{N}(;0;){R} {L}1{R}){? "b" 0x19 []}
[0x19])
"#;

const PRODUCERS_CLAIMED: &str =
    r#"[0x0]({K}module{R}{? "producers" 0x14 [1, 3, 97, 32, 98, 1, 1, 120, 1, 49]})
"#;

const MEMORY_CLAIMED: &str = r#"[0x0]({K}module{R}{? "dylink.0" 0x13 [1, 4, 16, 2, 0, 0]})
"#;

const CUT_CLAIMED: &str = r#"[0x0]({K}module{R}{? "dylink.0" 0x13 [1, 5, 16]})
"#;

/// A claimed section is not parsed: its unknown subsection is not refused.
const UNKNOWN_CLAIMED: &str = r#"[0x0]({K}module{R}{? "dylink.0" 0x13 [9, 0]})
"#;

const CLAIMS: &[Claim] = &[
    Claim {
        name: "the first of two sections",
        wasm: CUSTOMS_AROUND_A_MEMORY,
        section: "a",
        flat: FIRST_CLAIMED,
        folded: FIRST_CLAIMED,
    },
    Claim {
        name: "the second of two sections",
        wasm: CUSTOMS_AROUND_A_MEMORY,
        section: "b",
        flat: SECOND_CLAIMED,
        folded: SECOND_CLAIMED,
    },
    Claim {
        name: "producers",
        wasm: RAW_PRODUCERS,
        section: "producers",
        flat: PRODUCERS_CLAIMED,
        folded: PRODUCERS_CLAIMED,
    },
    Claim {
        name: "dylink.0 with a memory",
        wasm: DYLINK_MEMORY,
        section: "dylink.0",
        flat: MEMORY_CLAIMED,
        folded: MEMORY_CLAIMED,
    },
    Claim {
        name: "dylink.0 that is cut",
        wasm: DYLINK_CUT,
        section: "dylink.0",
        flat: CUT_CLAIMED,
        folded: CUT_CLAIMED,
    },
    Claim {
        name: "dylink.0 with an unknown subsection",
        wasm: DYLINK_UNKNOWN,
        section: "dylink.0",
        flat: UNKNOWN_CLAIMED,
        folded: UNKNOWN_CLAIMED,
    },
    Claim {
        name: "hints, which are read before the first call on the printer",
        wasm: HINTED_IF,
        section: "metadata.code.branch_hint",
        flat: HINTED_FLAT,
        folded: HINTED_FOLDED,
    },
];

impl Claim {
    /// Checks all calls on a printer that claims the section.
    fn check(&self, alloc: Global, layout: Layout) -> Result<(), Fail> {
        let recorder = Recorder::with_section_taken(alloc, self.section);
        let wanted = match layout {
            Layout::Flat => self.flat,
            Layout::Folded => self.folded,
        };
        let config = layout.config();
        expect_calls(self.name, &config, alloc, self.wasm, recorder, wanted)
    }
}

/// Checks these claims in a layout.
fn check_claims(alloc: Global, claims: &[Claim], layout: Layout) -> Result<(), Fail> {
    for claim in claims {
        claim.check(alloc, layout)?;
    }
    Ok(())
}

#[test]
fn skips_only_the_claimed_section(rt: HostRuntime) -> Result<(), Fail> {
    check_claims(rt.alloc(), CLAIMS, Layout::Flat)?;
    check_claims(rt.alloc(), CLAIMS, Layout::Folded)
}
