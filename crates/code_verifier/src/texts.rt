//! Checks of names and strings.
ghost use Rattle.std.specs.Prelude.{◌≡◌, option_map, slice_get};
ghost use Rattle.text_scan.specs.Keywords.{is_name, is_name_text, is_string_number, is_string_text};

use run_types::{NameId, Names};
use text_scan::{ByteSet, all_in, is_word, keyword};

#[tactic(auto, using(crate::proofs::NamesAndLastInstruction::long_name, crate::proofs::NamesAndLastInstruction::no_word, crate::proofs::NamesAndLastInstruction::word_name))]
fn is_name_text(text: &[u8]) -> bool
    ensures { result ≡ is_name_text text.now }
{
    if text.len() > 64 {
        return false;
    }
    if !is_word(text) {
        return false;
    }
    keyword(text).is_none()
}

fn is_string_text(text: &[u8]) -> bool
    ensures { result ≡ is_string_text text.now }
{
    text.len() <= 256 && all_in(text, ByteSet::Inner)
}

/// The text with this number, if the table has it.
pub fn text_at(names: &Names, id: NameId) -> Option<&[u8]>
    ensures { option_map (λ t. t.now) result ≡ slice_get names.now id.0 }
{
    if (id.0 as usize) < names.count() {
        Some(names.text(id))
    } else {
        None
    }
}

/// Whether the table has a text with this number that can be a name: a word of at most 64 bytes that is no keyword.
pub fn is_name(names: &Names, id: NameId) -> bool
    ensures { result ≡ is_name names.now id.0 }
{
    match text_at(names, id) {
        None => false,
        Some(text) => is_name_text(text),
    }
}

/// Whether the table has a text with this number that can be a string: at most 256 bytes, each allowed in a string.
pub fn is_string_number(names: &Names, id: NameId) -> bool
    ensures { result ≡ is_string_number names.now id.0 }
{
    match text_at(names, id) {
        None => false,
        Some(text) => is_string_text(text),
    }
}
