//! Names that PVS has and this profile lacks.

ghost use Rattle.std.specs.Prelude.{◌≡◌, map, bytes_eq};
ghost use Rattle.std.specs.List.{list_any};
ghost use Rattle.pvs_names.specs.Resolve as spec;

const OUTSIDE: [&[u8]; 9] = [
    b"nat",
    b"naturalnumber",
    b"posnat",
    b"int",
    b"integer",
    b"rat",
    b"rational",
    b"real",
    b"number",
];

fn same_bytes(a: &[u8], b: &[u8]) -> bool
    ensures { result ≡ bytes_eq a.now b.now }
{
    a == b
}

/// Whether a word is one of these.
fn is_among(mut words: &[&[u8]], name: &[u8]) -> bool
    ensures { result ≡ list_any (bytes_eq name.now) (map (λ w. w.now) words.entry.now) }
{
    while let [word, rest @ ..] = words {
        if same_bytes(name, word) {
            return true;
        }
        words = rest;
    }
    false
}

/// Whether a name is one of those that PVS has and this profile lacks. This takes no memory.
pub(crate) fn is_outside(name: &[u8]) -> bool
    ensures { result ≡ spec.is_outside name.now }
{
    is_among(&OUTSIDE, name)
}
