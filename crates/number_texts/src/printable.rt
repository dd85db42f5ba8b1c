//! Texts of printable ASCII characters.
ghost use Rattle.std.specs.Prelude.{◌≡◌};
ghost use Rattle.std.specs.Int.{is_in_range};
ghost use Rattle.std.specs.List.{list_all};

/// Whether bytes are printable ASCII characters, one after the other.
fn are_printable(bytes: &[u8]) -> bool
    ensures { result ≡ list_all (is_in_range 32 126) bytes.now }
{
    let mut all = true;
    for b in bytes {
        all &= 32 <= *b && *b <= 126;
    }
    all
}

/// The same of eight bytes, which are looked at at once.
#[inline(always)]
fn eight_are_printable(bytes: &[u8; 8]) -> bool
    ensures { result ≡ list_all (is_in_range 32 126) bytes.now }
{
    let mut all = true;
    for b in bytes {
        all &= 32 <= *b && *b <= 126;
    }
    all
}

/// Whether a text has printable ASCII characters alone, as most have. It shows as it is then, and
/// takes a column for each byte. The last eight bytes may have been looked at before: so none are
/// left that are looked at by themselves.
#[inline(always)]
pub fn is_printable(text: &str) -> bool
    ensures { result ≡ list_all (is_in_range 32 126) text.now }
{
    let bytes = text.as_bytes();
    let Some(last) = bytes.last_chunk::<8>() else {
        return are_printable(bytes);
    };
    let mut all = eight_are_printable(last);
    let mut at = 0;
    while let Some(eight) = bytes[at..].first_chunk::<8>() {
        all &= eight_are_printable(eight);
        at += 8;
    }
    all
}
