//! The list of names of custom sections to leave out. Each name is preceded by its length in four bytes, the lowest
//! first.
ghost use Rattle.std.specs.Prelude.{◌≡◌, ℕ, List, IfSome, IfNone};
ghost use Rattle.wasmprinter_c.specs.Omitted.{StartsWithName, IsListOf, IsCutAt, has_name};

/// The first name of a list, and the bytes after it.
#[derive(Clone, Copy)]
struct FirstName<'a> {
    name: &'a [u8],
    rest: &'a [u8],
}

/// Returns the name at the start of the list, or `None` if no complete name is there.
fn split_name(list: &[u8]) -> Option<FirstName<'_>>
    ensures found { IfSome result (λ x. StartsWithName x.name.now list.now x.rest.now) }
    ensures none { IfNone result ((name rest : List ℕ) → ¬ StartsWithName name list.now rest) }
{
    let [a, b, c, d, rest @ ..] = list else {
        return None;
    };
    let len = u32::from_le_bytes([*a, *b, *c, *d]) as usize;
    if len <= rest.len() {
        let (name, rest) = rest.split_at(len);
        Some(FirstName { name, rest })
    } else {
        None
    }
}

/// Returns the offset of the first length that goes beyond the end of the list, or `None` if there is none.
pub(crate) fn cut_place(list: &[u8]) -> Option<usize>
    ensures whole { IfNone result ((names : List (List ℕ)) × IsListOf names list.now) }
    ensures cut { IfSome result (λ place. IsCutAt place list.now) }
{
    let mut rest = list;
    while let Some(first) = split_name(rest) {
        rest = first.rest;
    }
    if rest.is_empty() {
        None
    } else {
        Some(list.len() - rest.len())
    }
}

/// Returns whether one of the names of the list is `name`.
pub(crate) fn is_listed(list: &[u8], name: &[u8]) -> bool
    ensures { (names : List (List ℕ)) → IsListOf names list.now → result ≡ has_name names name.now }
{
    let mut rest = list;
    while let Some(first) = split_name(rest) {
        if first.name == name {
            return true;
        }
        rest = first.rest;
    }
    false
}
