//! Whether a text needs no escape in JSON (RFC 8259, section 7): it has neither quotes, nor
//! backslashes, nor control characters.
ghost use Rattle.std.specs.Prelude.{◌≡◌};
ghost use Rattle.std.specs.Bool.{OnTrue};
ghost use Rattle.std.specs.List.{list_all};
ghost use Rattle.json.specs.Print.{escape};
ghost use Rattle.amr_labels.specs.ObjectText.{is_plain};

use amr_labels::is_plain;

/// Returns true only if JSON has a text as it is between its quotes.
pub(crate) fn needs_no_escape(text: &[u8]) -> bool
    ensures { OnTrue result (escape text.now ≡ text.now) }
{
    are_plain(text)
}

/// Returns whether none of these bytes needs an escape.
fn are_plain(bytes: &[u8]) -> bool
    ensures { result ≡ list_all is_plain bytes.now }
{
    bytes.iter().all(|byte| is_plain(*byte))
}
