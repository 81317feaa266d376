//! Arrays of values whose texts are made.
ghost use Rattle.std.specs.Prelude.{◌≡◌, ◌++◌, false, OnOk};
ghost use Rattle.json_text.specs.JsonText.{array_member, array_text, comma_where, own_text};
ghost use Rattle.json_text.specs.JsonText.{parted_texts};

use std::alloc::AllocError;
use text_lines::TextLine;

/// Adds an array of the values that have these texts, after its label.
///
/// # Errors
/// Memory ran out. Nothing is said then of what is there.
#[tactic(auto, unfolding(crate::specs::JsonText::array_member))]
pub fn push_array(out: &mut Vec<u8>, label: &[u8], items: &[TextLine]) -> Result<(), AllocError>
    ensures { OnOk result (out.new.items ≡ out.old.items ++ array_member label.now items.now) }
{
    out.extend_from_slice(label)?;
    push_bracketed(out, items)
}

fn push_bracketed(out: &mut Vec<u8>, items: &[TextLine]) -> Result<(), AllocError>
    ensures { OnOk result (out.new.items ≡ out.old.items ++ array_text items.now) }
{
    out.extend_from_slice(b"[")?;
    push_items(out, items)?;
    out.extend_from_slice(b"]")
}

fn push_items(out: &mut Vec<u8>, items: &[TextLine]) -> Result<(), AllocError>
    ensures { OnOk result (out.new.items
        ≡ out.old.items ++ parted_texts own_text false items.now) }
{
    let mut later = false;
    for item in items {
        push_comma(out, later)?;
        push_own(out, item)?;
        later = true;
    }
    Ok(())
}

fn push_own(out: &mut Vec<u8>, item: &TextLine) -> Result<(), AllocError>
    ensures { OnOk result (out.new.items ≡ out.old.items ++ own_text item.now) }
{
    out.extend_from_slice(item.as_slice())
}

/// Adds a comma if something is there before.
///
/// # Errors
/// Memory ran out. Nothing is said then of what is there.
pub fn push_comma(out: &mut Vec<u8>, later: bool) -> Result<(), AllocError>
    ensures { OnOk result (out.new.items ≡ out.old.items ++ comma_where later) }
{
    if later {
        out.extend_from_slice(b",")?;
    }
    Ok(())
}
